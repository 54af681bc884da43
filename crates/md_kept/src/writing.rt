//! Writes the events of a document with kept tags.

use crate::items::{Implied, Item, Items, Part, Token};
use crate::reading::is_html;
use md_base::{Event, Kind as EventKind, Name, Point};
use md_blocks::DocumentHtml;
use md_clean::{Kind, Place, decode, push_tag, split_token};
use md_text::push_encoded;
use std::alloc::{AllocError, Global};

/// The events of a document with kept tags, and the bytes to append to it.
#[derive(Drop)]
pub(crate) struct Writing {
    alloc: Global,
    pub(crate) events: Vec<Event>,
    pub(crate) pieces: String,
    /// The index of the first appended byte.
    start: usize,
    /// What is done with HTML that isn't kept.
    others: DocumentHtml,
}

impl Writing {
    /// No events yet, for a document before which so many bytes are.
    pub(crate) fn new(alloc: Global, start: usize, others: DocumentHtml) -> Writing {
        Writing {
            alloc,
            events: Vec::new(alloc),
            pieces: String::new(alloc),
            start,
            others,
        }
    }

    /// Writes the events of a document, whose HTML is in these items.
    pub(crate) fn write(&mut self, events: &[Event], items: &Items) -> Result<(), AllocError> {
        self.events.reserve(events.len())?;
        let mut at = 0;
        let mut is_inside = false;
        for event in events {
            if is_html(event.name) {
                self.events.push(*event)?;
                is_inside = event.kind == EventKind::Enter;
                if is_inside {
                    at = self.write_node(event, items, at)?;
                }
            } else if !is_inside {
                self.events.push(*event)?;
            }
        }
        Ok(())
    }

    /// Writes the pieces of the next node of HTML. Returns the index of the item after it.
    fn write_node(&mut self, event: &Event, items: &Items, at: usize) -> Result<usize, AllocError> {
        let rest = items.list.get(at..).unwrap_or(&[]);
        let before = rest.iter().position(|item| matches!(item, Item::Html));
        let first = before.unwrap_or(0).saturating_add(1);
        let tokens = rest.get(first..).unwrap_or(&[]);
        let name = match event.name {
            Name::HtmlFlow => Name::HtmlFlowData,
            _ => Name::HtmlTextData,
        };
        let mut count = first;
        for item in tokens {
            let Item::Token(index) = item else {
                break;
            };
            count = count.saturating_add(1);
            if let Some(token) = items.tokens.get(*index) {
                self.write_token(name, items, token)?;
            }
        }
        Ok(at.saturating_add(count))
    }

    /// Writes a token.
    fn write_token(&mut self, name: Name, items: &Items, token: &Token) -> Result<(), AllocError> {
        match token.implied {
            Implied::Nothing => {}
            Implied::Start => self.write_piece(name, "<tbody>")?,
            Implied::End => self.write_piece(name, "</tbody>")?,
        }
        let text = items.text(token);
        match token.part {
            Part::Text => self.write_text(name, text),
            Part::Start | Part::Void if token.is_kept => self.write_start(name, token, text),
            Part::End if token.is_kept => self.write_end(name, token),
            Part::Comment if self.others != DocumentHtml::Text => Ok(()),
            _ if self.others == DocumentHtml::LeftOut => Ok(()),
            _ => self.write_escaped(name, text),
        }
    }

    /// Writes a text, with its references decoded.
    fn write_text(&mut self, name: Name, text: &str) -> Result<(), AllocError> {
        let decoded = decode(self.alloc, text, Place::Text)?;
        self.write_escaped(name, decoded.as_str())
    }

    /// Writes a text as it is read.
    fn write_escaped(&mut self, name: Name, text: &str) -> Result<(), AllocError> {
        let from = self.pieces.len();
        push_encoded(&mut self.pieces, text, true)?;
        self.write_leaf(name, from)
    }

    /// Writes the start tag of an element, or a void tag.
    fn write_start(&mut self, name: Name, token: &Token, text: &str) -> Result<(), AllocError> {
        let attributes = match split_token(text) {
            Some((md_clean::Token::Start(tag), _)) => tag.attributes,
            _ => "",
        };
        let from = self.pieces.len();
        push_tag(self.alloc, &mut self.pieces, token.tag, attributes, None)?;
        let end = if token.part == Part::Void { " />" } else { ">" };
        self.pieces.push_str(end)?;
        self.write_leaf(name, from)?;
        if token.tag.kind == Kind::Preformatted {
            self.write_piece(name, "<code>")?;
        }
        Ok(())
    }

    /// Writes the end tag of an element.
    fn write_end(&mut self, name: Name, token: &Token) -> Result<(), AllocError> {
        if token.tag.kind == Kind::Preformatted {
            self.write_piece(name, "</code>")?;
        }
        let from = self.pieces.len();
        self.pieces.push_str("</")?;
        self.pieces.push_str(token.tag.name)?;
        self.pieces.push('>')?;
        self.write_leaf(name, from)
    }

    /// Writes a tag without attributes.
    fn write_piece(&mut self, name: Name, piece: &str) -> Result<(), AllocError> {
        let from = self.pieces.len();
        self.pieces.push_str(piece)?;
        self.write_leaf(name, from)
    }

    /// Writes the events of the pieces from an index on, if there are any.
    fn write_leaf(&mut self, name: Name, from: usize) -> Result<(), AllocError> {
        let to = self.pieces.len();
        if from == to {
            return Ok(());
        }
        let start = self.point_at(from);
        let end = self.point_at(to);
        self.events.push(Event {
            kind: EventKind::Enter,
            name,
            point: start,
        })?;
        self.events.push(Event {
            kind: EventKind::Exit,
            name,
            point: end,
        })?;
        Ok(())
    }

    /// The point before a piece.
    fn point_at(&self, index: usize) -> Point {
        Point {
            line: 1,
            column: 1,
            index: self.start.saturating_add(index),
            vs: 0,
        }
    }
}
