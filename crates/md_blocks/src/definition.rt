//! Definitions of links and of footnotes, found by their labels.

ghost use Rattle.std.specs.Prelude.{◌≡◌, ◌<◌, length, List, ℕ, Some, None, IfOk, IfSome, IfNone, option_map};
ghost use Rattle.std.specs.Prelude.{OnOk, vec_len, ◌++◌, ◌∷◌, [], true, false, not, ◌&&◌, ◌==◌};
ghost use Rattle.md_lines.specs.LinkParts.{title_at};
ghost use Rattle.md_lines.specs.Reading.{ReadSame, lines_after, text_from, text_in};
ghost use Rattle.md_lines.specs.Texts.{after_line_end};
ghost use Rattle.md_blocks.specs.LinkDefinitions.{definition_at, target_at, target_in, titled, with_title};
ghost use Rattle.md_blocks.specs.Passes.{texts_from};
ghost use Rattle.md_blocks.specs.Tapes.{text_between};
ghost use Rattle.md_blocks.specs.declared.definition.Definition.{Definition as Kept};

use crate::label::{folded_between, folded_bytes, folded_label};
use md_lines::{Cursor, Line, Place, Span, Title, read_destination, read_label, read_title};
use std::alloc::{AllocError, Global};
use std::collections::BTreeMap;

/// The maximum number of bytes of a short destination and title.
const MOST_AGAIN: usize = 256;

/// The definition of a link.
#[derive(Clone, Copy, PartialEq, Eq, Debug)]
pub struct Definition {
    /// Its label, from after `[` to `]`. It may span lines.
    pub label: Span,
    /// Its destination, without angle brackets.
    pub destination: Span,
    /// Its title. The line in which it begins is an index into the lines of all leaves.
    pub title: Option<Title>,
    /// Whether its destination has neither a backslash nor an ampersand.
    pub is_plain: bool,
    /// Whether its destination and title have over 256 bytes, so that they shouldn't be scanned for
    /// each of its links.
    pub is_long: bool,
    /// Its number among the definitions of the document, from 0.
    pub index: usize,
}

/// The link definitions of a document, and the labels of its footnotes.
#[derive(Drop)]
pub struct Definitions {
    list: Vec<Definition>,
    by_label: BTreeMap<String, usize>,
    /// The first footnote with each label, by its number among all footnotes.
    footnotes: BTreeMap<String, usize>,
    footnote_count: usize,
}

impl Definitions {
    pub(crate) fn new(alloc: Global) -> Self {
        Definitions {
            list: Vec::new(alloc),
            by_label: BTreeMap::new(alloc),
            footnotes: BTreeMap::new(alloc),
            footnote_count: 0,
        }
    }

    /// The definitions of links, in document order.
    #[inline(always)]
    pub fn list(&self) -> &[Definition] {
        self.list.as_slice()
    }

    /// Whether no link is defined.
    #[inline(always)]
    pub fn is_empty(&self) -> bool {
        self.list.is_empty()
    }

    /// Returns the first definition with a label: the text of `lines` between two places in them.
    /// `None` also if the label has only spaces, or isn't UTF-8.
    ///
    /// # Errors
    ///
    /// Returns an error only if memory runs out.
    pub fn find(
        &self,
        alloc: Global,
        bytes: &[u8],
        lines: &[Line],
        from: Place,
        to: Place,
    ) -> Result<Option<Definition>, AllocError> {
        if self.list.is_empty() {
            return Ok(None);
        }
        let Some(label) = folded_between(alloc, bytes, lines, from, to)? else {
            return Ok(None);
        };
        match self.by_label.get(label.as_str()) {
            Some(index) => Ok(self.list.get(*index).copied()),
            None => Ok(None),
        }
    }

    /// How many definitions of footnotes there are.
    pub fn footnote_count(&self) -> usize {
        self.footnote_count
    }

    /// Returns the first footnote that is defined with a label, which is a range of the document:
    /// its number among all definitions of footnotes, in document order, from 0.
    ///
    /// # Errors
    ///
    /// Returns an error only if memory runs out.
    pub fn find_footnote(
        &self,
        alloc: Global,
        bytes: &[u8],
        label: Span,
    ) -> Result<Option<usize>, AllocError> {
        if self.footnotes.is_empty() {
            return Ok(None);
        }
        match folded_bytes(alloc, bytes.get(label.start..label.end).unwrap_or(&[]))? {
            Some(label) => Ok(self.footnotes.get(label.as_str()).copied()),
            None => Ok(None),
        }
    }

    /// Adds the definition of a footnote.
    pub(crate) fn add_footnote(
        &mut self,
        alloc: Global,
        bytes: &[u8],
        label: Span,
    ) -> Result<(), AllocError> {
        let index = self.footnote_count;
        self.footnote_count = index.saturating_add(1);
        if let Some(label) = folded_bytes(
            alloc,
            bytes.get(label.start..label.end).unwrap_or(&[]),
        )? {
            if self.footnotes.get(label.as_str()).is_none() {
                self.footnotes.insert(label, index)?;
            }
        }
        Ok(())
    }

    /// Adds a definition under its folded label, unless that label already has one.
    fn add(&mut self, label: String, definition: Definition) -> Result<(), AllocError>
        ensures list { OnOk result (self.new.list.items ≡ self.old.list.items
            ++ record definition { index = vec_len self.old.list } ∷ []) }
    {
        let index = self.list.len();
        self.list.push(Definition {
            index,
            ..definition
        })?;
        if self.by_label.get(label.as_str()).is_none() {
            self.by_label.insert(label, index)?;
        }
        Ok(())
    }
}

/// The parts of a definition after its label.
#[derive(Clone, Copy)]
struct Target {
    destination: Span,
    title: Option<Title>,
}

/// Reads a definition that begins with a line, and adds it. Returns the line after it, or `None` if
/// there is no definition.
pub(crate) fn read_definition(
    alloc: Global,
    bytes: &[u8],
    lines: &[Line],
    line: usize,
    definitions: &mut Definitions,
) -> Result<Option<usize>, AllocError>
    requires { line < length lines.now }
    ensures found { IfOk result (λ next. IfSome next (λ next.
        option_map (λ definition. definition.rest) (definition_at (texts_from bytes.now lines.now line))
        ≡ Some (texts_from bytes.now lines.now next))) }
    ensures none { IfOk result (λ next. IfNone next
        (definition_at (texts_from bytes.now lines.now line) ≡ None)) }
    ensures after { IfOk result (λ next. IfSome next (λ next. line < next)) }
    ensures kept { IfOk result (λ next. IfSome next (λ _. (last : Kept)
        × (definitions.new.list.items ≡ definitions.old.list.items ++ last ∷ [])
        × (option_map (λ definition. definition.destination)
        (definition_at (texts_from bytes.now lines.now line))
        ≡ Some (text_between last.destination bytes.now)))) }
{
    let start = Place {
        line,
        at: lines[line].start,
    };
    let mut cursor = Cursor::new(bytes, lines, start);
    if !cursor.take(b'[') {
        return Ok(None);
    }
    let before = cursor;
    if !read_label(&mut cursor) {
        return Ok(None);
    }
    let behind = cursor;
    cursor.advance();
    let Some(target) = read_target(&mut cursor) else {
        return Ok(None);
    };
    let Some(label) = folded_label(alloc, &before, &behind)? else {
        return Ok(None);
    };
    let span = Span::new(before.place().at, behind.place().at);
    definitions.add(label, definition_of(bytes, span, target))?;
    Ok(Some(cursor.next_index()))
}

/// Reads a definition from its `:` to the end of its last line.
fn read_target(cursor: &mut Cursor<'_>) -> Option<Target>
    ensures found { IfSome result (λ _. option_map (λ target. target.rest)
        (target_at (text_from cursor.old)) ≡ Some (lines_after cursor.new)) }
    ensures none { IfNone result (target_at (text_from cursor.old) ≡ None) }
    ensures destination { IfSome result (λ target. option_map (λ target. target.destination)
        (target_at (text_from cursor.old)) ≡ Some (text_in target.destination cursor.old)) }
    ensures same { ReadSame cursor.old cursor.new }
{
    if !cursor.take(b':') {
        return None;
    }
    cursor.skip_spaces();
    read_destination_and_title(cursor)
}

/// Reads a definition from its destination to the end of its last line.
fn read_destination_and_title(cursor: &mut Cursor<'_>) -> Option<Target>
    ensures found { IfSome result (λ _. option_map (λ target. target.rest)
        (target_in (text_from cursor.old)) ≡ Some (lines_after cursor.new)) }
    ensures none { IfNone result (target_in (text_from cursor.old) ≡ None) }
    ensures destination { IfSome result (λ target. option_map (λ target. target.destination)
        (target_in (text_from cursor.old)) ≡ Some (text_in target.destination cursor.old)) }
    ensures same { ReadSame cursor.old cursor.new }
{
    let is_pointed = cursor.is_next(b'<');
    let Some(destination) = read_destination(cursor) else {
        return None;
    };
    if is_missing(destination, is_pointed) {
        return None;
    }
    read_end(cursor, destination)
}

/// Whether a destination is empty and not in angle brackets.
fn is_missing(destination: Span, is_pointed: bool) -> bool
    ensures { result ≡ ((destination.start == destination.end) && not is_pointed) }
{
    destination.is_empty() && !is_pointed
}

/// Reads a definition from after its destination to the end of its last line. What looks like a
/// title in the next line, and is none, is no part of it.
fn read_end(cursor: &mut Cursor<'_>, destination: Span) -> Option<Target>
    ensures found { (text : List ℕ) → IfSome result (λ _. option_map (λ target. target.rest)
        (titled text (text_from cursor.old)) ≡ Some (lines_after cursor.new)) }
    ensures none { (text : List ℕ) → IfNone result (titled text (text_from cursor.old) ≡ None) }
    ensures kept { IfSome result (λ target. target.destination ≡ destination) }
    ensures same { ReadSame cursor.old cursor.new }
{
    let behind = *cursor;
    if cursor.skip_spaces() {
        if let Some(title) = read_last_title(cursor) {
            return Some(Target {
                destination,
                title: Some(title),
            });
        }
    }
    *cursor = behind;
    if ends_line(cursor) {
        Some(Target {
            destination,
            title: None,
        })
    } else {
        None
    }
}

/// Reads a title and the end of its line.
fn read_last_title(cursor: &mut Cursor<'_>) -> Option<Title>
    ensures found { (text : List ℕ) → IfSome result (λ _. option_map (λ target. target.rest)
        (with_title text (title_at (text_from cursor.old))) ≡ Some (lines_after cursor.new)) }
    ensures none { (text : List ℕ) → IfNone result
        (with_title text (title_at (text_from cursor.old)) ≡ None) }
    ensures same { ReadSame cursor.old cursor.new }
{
    let Some(title) = read_title(cursor) else {
        return None;
    };
    if ends_line(cursor) { Some(title) } else { None }
}

/// Skips spaces and tabs; returns whether the line ends after them.
fn ends_line(cursor: &mut Cursor<'_>) -> bool
    ensures found { result ≡ true
        → after_line_end (text_from cursor.old) ≡ Some (lines_after cursor.new) }
    ensures none { result ≡ false → after_line_end (text_from cursor.old) ≡ None }
    ensures same { ReadSame cursor.old cursor.new }
{
    cursor.skip(md_lines::Class::Space);
    cursor.is_at_line_end()
}

/// A definition with these parts, with the index 0.
fn definition_of(bytes: &[u8], label: Span, target: Target) -> Definition
    ensures destination { result.destination ≡ target.destination }
{
    let Target { destination, title } = target;
    let text = bytes.get(destination.start..destination.end).unwrap_or(&[]);
    let is_plain = !text.contains(&b'\\') && !text.contains(&b'&');
    let title_length = match title {
        Some(title) => title.text.end - title.text.start,
        None => 0,
    };
    let is_long = text.len().saturating_add(title_length) > MOST_AGAIN;
    Definition {
        label,
        destination,
        title,
        is_plain,
        is_long,
        index: 0,
    }
}
