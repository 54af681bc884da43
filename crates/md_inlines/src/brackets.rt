//! Reads brackets: links, images and calls of footnotes.

ghost use Rattle.std.specs.Prelude.{◌≡◌, OnOk, IfOk, IfNone, None, false, vec_len};

use crate::reader::Reader;
use md_lines::{Cursor, Place, Span, Title, read_destination, read_label, read_title};
use md_marks::{Leaf, Mark};
use std::alloc::AllocError;

/// The maximum length of a label in bytes.
const MOST_OF_LABEL: usize = 999;

/// The maximum number of open brackets: a deeper one is text.
const MOST_OPEN: usize = 32;

/// An open bracket.
#[derive(Clone, Copy, Debug, PartialEq, Eq)]
pub(crate) struct Bracket {
    /// Its token.
    token: usize,
    /// How many runs of delimiters precede it.
    delimiters: usize,
    /// The place after it.
    inside: Place,
    is_image: bool,
    /// Whether it contains another bracket.
    has_bracket: bool,
}

/// The target of a link or an image.
#[derive(Clone, Copy, Debug, PartialEq, Eq)]
pub(crate) enum Target {
    /// The resource after it.
    Resource(Span, Option<Title>),
    /// The definition with an index.
    Definition(usize),
}

/// The target of a link or an image, and the place after it.
#[derive(Clone, Copy, Debug, PartialEq, Eq)]
pub(crate) struct Found {
    target: Target,
    end: Place,
}

impl<'a> Reader<'a> {
    /// Reads a `[`, or the `![` of an image.
    pub(crate) fn open_bracket(
        &mut self,
        here: Place,
        is_image: bool,
    ) -> Result<Place, AllocError> {
        let length = if is_image { 2 } else { 1 };
        let inside = Place {
            line: here.line,
            at: here.at.saturating_add(length),
        };
        if self.brackets.len() >= MOST_OPEN {
            self.deeper = self.deeper.saturating_add(1);
            return Ok(inside);
        }
        self.from = inside.at;
        if let Some(outer) = self.brackets.last_mut() {
            outer.has_bracket = true;
        }
        let token = self.tokens.len();
        self.push(Mark::Text, here.at, inside.at, 0)?;
        self.brackets.push(Bracket {
            token,
            delimiters: self.delimiters.len(),
            inside,
            is_image,
            has_bracket: false,
        })?;
        Ok(inside)
    }

    /// Reads a `]`. Returns the place after the link, the image or the call that it ends.
    pub(crate) fn read_bracket_end(
        &mut self,
        leaf: &Leaf,
        here: Place,
    ) -> Result<Place, AllocError> {
        if self.deeper > 0 {
            self.deeper = self.deeper.saturating_sub(1);
            return Ok(here);
        }
        let Some(open) = self.brackets.pop() else {
            return Ok(here);
        };
        self.from = here.at;
        let is_inactive = !open.is_image && self.brackets.len() < self.inactive;
        self.inactive = self.inactive.min(self.brackets.len());
        if is_inactive {
            return Ok(here);
        }
        if let Some(footnote) = self.called_footnote(leaf, &open, here)? {
            return self.put_footnote_call(&open, here, footnote);
        }
        match self.find_target(leaf, &open, here)? {
            Some(found) => self.put_link(&open, here, &found),
            None => Ok(here),
        }
    }

    /// The number of the footnote that a bracket which ends there calls.
    fn called_footnote(
        &mut self,
        leaf: &Leaf,
        open: &Bracket,
        here: Place,
    ) -> Result<Option<usize>, AllocError>
        ensures off { self.old.options.now.footnotes ≡ false
            → IfOk result (λ footnote. footnote ≡ None) }
    {
        let text = leaf.bytes.get(open.inside.at..here.at).unwrap_or(b"");
        let is_label = text.starts_with(b"^") && text.len() <= MOST_OF_LABEL;
        if !is_label || open.has_bracket || open.inside.line != here.line {
            return Ok(None);
        }
        if !self.options.footnotes {
            return Ok(None);
        }
        let label = Span::new(open.inside.at.saturating_add(1), here.at);
        self.definitions
            .find_footnote(self.alloc, leaf.bytes, label)
    }

    /// Changes an open bracket and its content to a call of a footnote. A `!` before it is text.
    fn put_footnote_call(
        &mut self,
        open: &Bracket,
        here: Place,
        footnote: usize,
    ) -> Result<Place, AllocError> {
        let start = open.inside.at.saturating_sub(1);
        let after = here.at.saturating_add(1);
        self.tokens.truncate(open.token);
        self.delimiters.truncate(open.delimiters);
        self.push(Mark::FootnoteCall, start, after, footnote)?;
        self.from = after;
        Ok(Place {
            line: here.line,
            at: after,
        })
    }

    /// Changes an open bracket and its content to a link or an image.
    fn put_link(
        &mut self,
        bracket: &Bracket,
        here: Place,
        found: &Found,
    ) -> Result<Place, AllocError>
        ensures inactive { bracket.now.is_image ≡ false → OnOk result
            (self.new.inactive ≡ vec_len self.new.brackets) }
    {
        let end = found.end;
        let index = self.targets.len();
        self.targets.push(found.target)?;
        let (start_mark, end_mark) = if bracket.is_image {
            (Mark::ImageStart, Mark::ImageEnd)
        } else {
            (Mark::LinkStart, Mark::LinkEnd)
        };
        if let Some(token) = self.tokens.get_mut(bracket.token) {
            token.mark = start_mark;
        }
        self.push(end_mark, here.at, end.at, index)?;
        self.delimiters
            .resolve(&mut self.tokens, bracket.delimiters)?;
        if !bracket.is_image {
            self.inactive = self.brackets.len();
        }
        self.from = end.at;
        Ok(end)
    }

    /// The target of a bracket that ends there, and the place after the target.
    fn find_target(
        &mut self,
        leaf: &Leaf,
        open: &Bracket,
        here: Place,
    ) -> Result<Option<Found>, AllocError> {
        let after = Place {
            line: here.line,
            at: here.at.saturating_add(1),
        };
        let resource = read_resource(leaf, after);
        if resource.is_some() {
            return Ok(resource);
        }
        if self.definitions.is_empty() {
            return Ok(None);
        }
        let mut cursor = Cursor::new(leaf.bytes, leaf.lines, after);
        if cursor.take(b'[') && !cursor.take(b']') {
            let from = cursor.place();
            if read_label(&mut cursor) {
                let to = cursor.place();
                cursor.advance();
                return self.find_definition(leaf, from, to, cursor.place());
            }
            cursor = Cursor::new(leaf.bytes, leaf.lines, after);
        }
        let length = here.at.saturating_sub(open.inside.at);
        if open.has_bracket || length > MOST_OF_LABEL {
            return Ok(None);
        }
        self.find_definition(leaf, open.inside, here, cursor.place())
    }

    /// The definition with a label, for a bracket that ends at a place.
    fn find_definition(
        &mut self,
        leaf: &Leaf,
        from: Place,
        to: Place,
        end: Place,
    ) -> Result<Option<Found>, AllocError> {
        let found = self
            .definitions
            .find(self.alloc, leaf.bytes, leaf.lines, from, to)?;
        Ok(found.map(|definition| Found {
            target: Target::Definition(definition.index),
            end,
        }))
    }
}

/// A destination and a title in parentheses at a place, and the place after them.
fn read_resource(leaf: &Leaf, place: Place) -> Option<Found> {
    let mut cursor = Cursor::new(leaf.bytes, leaf.lines, place);
    if !cursor.take(b'(') {
        return None;
    }
    cursor.skip_spaces();
    let destination = read_destination(&mut cursor)?;
    let title = read_spaced_title(&mut cursor);
    cursor.skip_spaces();
    if !cursor.take(b')') {
        return None;
    }
    Some(Found {
        target: Target::Resource(destination, title),
        end: cursor.place(),
    })
}

/// Reads spaces and a title after them. If there is none, or it has no end, the cursor doesn't move.
fn read_spaced_title(cursor: &mut Cursor<'_>) -> Option<Title>
    ensures stays { IfNone result (cursor.new ≡ cursor.old) }
{
    // Most links have no title.
    if cursor.peek() == Some(b')') {
        return None;
    }
    let before = *cursor;
    if !cursor.skip_spaces() {
        *cursor = before;
        return None;
    }
    let title = read_title(cursor);
    if title.is_none() {
        *cursor = before;
    }
    title
}
