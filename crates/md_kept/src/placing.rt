//! Which elements may stand where they are.

use crate::content::Content;
use crate::items::{Implied, Item, Items, Part, Token};
use crate::own::Own;
use md_blocks::DocumentHtml;
use md_clean::Kind;
use std::alloc::{AllocError, Global};

/// How often the elements are gone through, until all stand where they may.
const MOST_ROUNDS: usize = 8;

/// What is open.
#[derive(Clone, Copy)]
struct Level {
    content: Content,
    kind: LevelKind,
}

/// The kinds of what is open.
#[derive(Clone, Copy, PartialEq, Eq)]
enum LevelKind {
    /// A node of the document.
    Own,
    /// An element whose start tag is this item.
    Tag(usize),
    /// A table's body without tags of its own.
    Body,
}

/// Keeps the elements that may stand where they are, with what is in them. `others` is what is done
/// with HTML that isn't kept.
pub(crate) fn place(
    alloc: Global,
    items: &mut Items,
    others: DocumentHtml,
) -> Result<(), AllocError> {
    for _ in 0..MOST_ROUNDS {
        let mut places = Places {
            levels: Vec::new(alloc),
            is_changed: false,
            others,
        };
        for index in 0..items.list.len() {
            if let Some(item) = items.list.get(index) {
                let item = *item;
                places.read(items, index, item)?;
            }
        }
        if !places.is_changed {
            break;
        }
    }
    Ok(())
}

/// What is open while the items are gone through.
#[derive(Drop)]
struct Places {
    levels: Vec<Level>,
    /// Whether an element isn't kept that was when what is in it was read.
    is_changed: bool,
    /// What is done with HTML that isn't kept.
    others: DocumentHtml,
}

impl Places {
    /// What may be written here.
    fn content(&self) -> Content {
        match self.levels.last() {
            Some(level) => level.content,
            None => Content::Flow,
        }
    }

    fn read(&mut self, items: &mut Items, index: usize, item: Item) -> Result<(), AllocError> {
        match item {
            Item::Enter(own) => self.enter(items, own),
            Item::Exit => {
                self.exit();
                Ok(())
            }
            Item::Html => Ok(()),
            Item::Token(_) => self.read_token(items, index),
        }
    }

    /// Enters a node of the document.
    fn enter(&mut self, items: &mut Items, own: Own) -> Result<(), AllocError> {
        self.make_room(items, Some(own));
        if own == Own::Link && self.content() == Content::Linked {
            self.give_up_link(items);
        }
        let content = self.content().in_own(own);
        self.levels.push(Level {
            content,
            kind: LevelKind::Own,
        })?;
        Ok(())
    }

    /// Doesn't keep the link around a span of the document with a link in it.
    fn give_up_link(&mut self, items: &mut Items) {
        let mut link = None;
        for level in self.levels.iter().rev() {
            if let LevelKind::Tag(start) = level.kind {
                if link.is_none() && is_link(items, start) {
                    link = Some(start);
                }
            }
        }
        if let Some(start) = link {
            items.keep(start, false);
            self.is_changed = true;
        }
    }

    /// Exits a node of the document.
    fn exit(&mut self) {
        let own = self
            .levels
            .iter()
            .rposition(|level| level.kind == LevelKind::Own);
        self.levels.truncate(own.unwrap_or(0));
    }

    /// Keeps no open element in which a node of the document, or a text, may not stand.
    fn make_room(&mut self, items: &mut Items, own: Option<Own>) {
        for _ in 0..self.levels.len() {
            let Some(level) = self.levels.last() else {
                return;
            };
            let level = *level;
            if level.kind == LevelKind::Own || level.content.has(own) {
                return;
            }
            let _ = self.levels.pop();
            if let LevelKind::Tag(start) = level.kind {
                items.keep(start, false);
                self.is_changed = true;
            }
        }
    }

    fn read_token(&mut self, items: &mut Items, index: usize) -> Result<(), AllocError> {
        let Some(token) = items.token(index) else {
            return Ok(());
        };
        let token = Token {
            implied: Implied::Nothing,
            ..token
        };
        items.set(index, token);
        match token.part {
            Part::Start if token.is_kept => self.start(items, index, token),
            Part::End if token.is_kept => {
                self.end(items, index, token);
                Ok(())
            }
            Part::Void => {
                let is_kept = self.content().has_void(token.tag.kind);
                items.set(index, Token { is_kept, ..token });
                if !is_kept {
                    self.read_text(items, token);
                }
                Ok(())
            }
            _ => {
                self.read_text(items, token);
                Ok(())
            }
        }
    }

    /// Reads what is printed as text, if it is, unless it is white space.
    fn read_text(&mut self, items: &mut Items, token: Token) {
        let is_printed = match token.part {
            Part::Text => !is_white(items.text(&token)),
            Part::Comment => self.others == DocumentHtml::Text,
            _ => self.others != DocumentHtml::LeftOut,
        };
        if is_printed {
            self.make_room(items, None);
        }
    }

    /// Opens an element, if it may stand here.
    fn start(&mut self, items: &mut Items, index: usize, token: Token) -> Result<(), AllocError> {
        let kind = token.tag.kind;
        let implied = self.implied_before(kind);
        if implied == Implied::End {
            let _ = self.levels.pop();
        }
        if implied == Implied::Start {
            self.levels.push(Level {
                content: Content::Rows,
                kind: LevelKind::Body,
            })?;
        }
        items.set(index, Token { implied, ..token });
        match self.content().in_element(token.tag) {
            Some(content) => self.levels.push(Level {
                content,
                kind: LevelKind::Tag(index),
            })?,
            None => {
                items.keep(index, false);
                self.read_text(items, token);
            }
        }
        Ok(())
    }

    /// The tag of a table's body that is missing before an element.
    fn implied_before(&self, kind: Kind) -> Implied {
        match self.levels.last() {
            Some(level) if level.kind == LevelKind::Body && kind == Kind::Part => Implied::End,
            Some(level) if level.content == Content::Parts && kind == Kind::Row => Implied::Start,
            _ => Implied::Nothing,
        }
    }

    /// Closes an element.
    fn end(&mut self, items: &mut Items, index: usize, token: Token) {
        let Some(level) = self.levels.pop() else {
            return;
        };
        if level.kind == LevelKind::Body {
            let _ = self.levels.pop();
            items.set(
                index,
                Token {
                    implied: Implied::End,
                    ..token
                },
            );
        }
    }
}

/// Whether an item is a tag of a link.
fn is_link(items: &Items, index: usize) -> bool {
    match items.token(index) {
        Some(token) => token.tag.kind == Kind::Link,
        None => false,
    }
}

/// Whether a text is white space in HTML.
fn is_white(text: &str) -> bool {
    text.as_bytes()
        .iter()
        .all(|byte| matches!(*byte, b' ' | b'\t' | b'\n' | 12 | b'\r'))
}
