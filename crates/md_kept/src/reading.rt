//! Reads the HTML of a document.

use crate::items::{Implied, Item, Items, Part, Token};
use crate::own::{Own, own_of};
use md_base::{Event, Kind as EventKind, Name};
use md_clean::{Kind, Tag, raw_length, split_token, tag_named};
use std::alloc::{AllocError, Global};

/// Reads the parts of a document that matter to its tags. `text` is the document.
pub(crate) fn read_items(alloc: Global, events: &[Event], text: &str) -> Result<Items, AllocError> {
    let mut items = Items {
        html: String::new(alloc),
        list: Vec::new(alloc),
        tokens: Vec::new(alloc),
    };
    let mut reader = Reader {
        text,
        start: 0,
        from: 0,
        is_html: false,
        open: Vec::new(alloc),
        after_html: 0,
    };
    for event in events {
        reader.read(&mut items, event)?;
    }
    Ok(items)
}

/// Whether a name is of a node of HTML.
#[inline(always)]
pub(crate) fn is_html(name: Name) -> bool {
    matches!(name, Name::HtmlFlow | Name::HtmlText)
}

/// Reads one event after another.
#[derive(Drop)]
struct Reader<'a> {
    text: &'a str,
    /// Where the open leaf begins in the document.
    start: usize,
    /// Where the open node of HTML begins in the HTML of the document.
    from: usize,
    /// Whether a node of HTML is open.
    is_html: bool,
    /// The items that begin the open nodes of the document.
    open: Vec<usize>,
    /// The number of items up to the last node of HTML.
    after_html: usize,
}

impl Reader<'_> {
    fn read(&mut self, items: &mut Items, event: &Event) -> Result<(), AllocError> {
        match (event.kind, is_html(event.name)) {
            (EventKind::Enter, true) => {
                self.is_html = true;
                self.from = items.html.len();
                items.list.push(Item::Html)?;
                self.after_html = items.list.len();
                Ok(())
            }
            (EventKind::Exit, true) => {
                self.is_html = false;
                push_tokens(items, self.from)
            }
            _ if self.is_html => self.read_leaf(items, event),
            _ => match own_of(event.name) {
                Some(own) => self.read_own(items, event.kind, own),
                None => Ok(()),
            },
        }
    }

    /// Reads an event of a node of the document that matters to tags.
    fn read_own(&mut self, items: &mut Items, kind: EventKind, own: Own) -> Result<(), AllocError> {
        if kind == EventKind::Enter {
            self.open.push(items.list.len())?;
            items.list.push(Item::Enter(own))?;
            return Ok(());
        }
        let start = self.open.pop().unwrap_or(0);
        if start >= self.after_html {
            // Without HTML in it, only a link in it matters; and it doesn't after its like.
            let own = as_one(own, items.list.as_slice(), start);
            items.list.truncate(start);
            if is_after_its_like(items.list.as_slice(), own) {
                return Ok(());
            }
            items.list.push(Item::Enter(own))?;
        }
        items.list.push(Item::Exit)?;
        Ok(())
    }

    /// Reads an event of a text or a line ending in a node of HTML.
    fn read_leaf(&mut self, items: &mut Items, event: &Event) -> Result<(), AllocError> {
        match event.kind {
            EventKind::Enter => {
                self.start = event.point.index;
                Ok(())
            }
            EventKind::Exit => {
                let text = self.text.get(self.start..event.point.index).unwrap_or("");
                items.html.push_str(text)
            }
        }
    }
}

/// What a node that begins with an item is to the tags around it, with what is in it: a span with a
/// link is a link.
fn as_one(own: Own, list: &[Item], start: usize) -> Own {
    let inside = list.get(start..).unwrap_or(&[]);
    let has_link = inside
        .iter()
        .any(|item| matches!(item, Item::Enter(Own::Link)));
    if own == Own::Span && has_link {
        Own::Link
    } else {
        own
    }
}

/// Whether a node of this kind, with nothing in it, is last.
fn is_after_its_like(list: &[Item], own: Own) -> bool {
    match (list.get(list.len().wrapping_sub(2)), list.last()) {
        (Some(Item::Enter(other)), Some(Item::Exit)) => *other == own,
        _ => false,
    }
}

/// Appends the tokens of the HTML from an index on.
fn push_tokens(items: &mut Items, from: usize) -> Result<(), AllocError> {
    let end = items.html.len();
    let mut at = from;
    for _ in from..end {
        let rest = items.html.get(at..).unwrap_or("");
        let Some((token, after)) = split_token(rest) else {
            break;
        };
        let raw = raw_text_length(&token, after);
        let past = end.saturating_sub(after.len());
        let found = token_of(&token, at, past);
        at = past.saturating_add(raw);
        items.push(found)?;
        if raw > 0 {
            items.push(Token {
                part: Part::Other,
                start: past,
                end: at,
                ..found
            })?;
        }
    }
    Ok(())
}

/// The length of the raw text after a tag.
fn raw_text_length(token: &md_clean::Token<'_>, after: &str) -> usize {
    let md_clean::Token::Start(tag) = token else {
        return 0;
    };
    match tag_named(tag.name.as_bytes()).kind {
        Kind::Foreign if tag.closes_itself => 0,
        Kind::Raw | Kind::Script | Kind::Template | Kind::Foreign => {
            raw_length(after.as_bytes(), tag.name.as_bytes())
        }
        Kind::Plaintext => after.len(),
        _ => 0,
    }
}

/// A token of the HTML between two indices.
fn token_of(token: &md_clean::Token<'_>, start: usize, end: usize) -> Token {
    let (part, name) = match token {
        md_clean::Token::Text(_) => (Part::Text, ""),
        md_clean::Token::Start(tag) => (Part::Start, tag.name),
        md_clean::Token::End(name) => (Part::End, *name),
        md_clean::Token::Nothing => (Part::Comment, ""),
    };
    let tag = tag_named(name.as_bytes());
    Token {
        part: part_of(part, tag),
        start,
        end,
        tag,
        partner: None,
        is_kept: false,
        implied: Implied::Nothing,
    }
}

/// What a piece of HTML is, by its tag.
fn part_of(part: Part, tag: Tag) -> Part {
    match part {
        Part::Start if is_void(tag.kind) => Part::Void,
        Part::End if is_void(tag.kind) => Part::Other,
        Part::Start | Part::End if !tag.is_written => Part::Other,
        _ => part,
    }
}

/// Whether a tag is void.
fn is_void(kind: Kind) -> bool {
    matches!(
        kind,
        Kind::Break | Kind::WordBreak | Kind::Image | Kind::Rule
    )
}
