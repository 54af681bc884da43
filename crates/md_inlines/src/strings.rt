//! Writes texts in which only escapes and character references are read.

ghost use Rattle.std.specs.Prelude.{◌<◌, ◌≤◌, length};

use md_base::Name;
use md_lines::{Class, find_any, is};
use md_references::reference_length;
use md_writer::Writer;
use std::alloc::AllocError;

/// Writes the events of a text with escapes and references.
pub(crate) fn write_string(
    writer: &mut Writer,
    bytes: &[u8],
    start: usize,
    end: usize,
) -> Result<(), AllocError> {
    write_decoded(writer, bytes, start, end, true)
}

/// Writes the events of a URL in angle brackets, in which a backslash isn't an escape.
pub(crate) fn write_url(
    writer: &mut Writer,
    bytes: &[u8],
    start: usize,
    end: usize,
) -> Result<(), AllocError> {
    write_decoded(writer, bytes, start, end, false)
}

/// Writes the events of a text with references, and with escapes if `has_escapes`.
fn write_decoded(
    writer: &mut Writer,
    bytes: &[u8],
    start: usize,
    end: usize,
    has_escapes: bool,
) -> Result<(), AllocError> {
    let text = bytes.get(..end).unwrap_or(b"");
    let mut from = start;
    let mut at = start;
    while at < text.len() {
        at = find_any(bytes, [b'\\', b'&', b'&'], at, text.len());
        if at >= text.len() {
            break;
        }
        let length = code_length(text, at, has_escapes);
        if length == 0 {
            at += 1;
            continue;
        }
        writer.data(from, at)?;
        from = at.saturating_add(length);
        if text[at] == b'&' {
            write_reference(writer, bytes, at, from)?;
            at = from;
        } else {
            at = from.saturating_add(1);
        }
    }
    writer.data(from, end)
}

/// The length of the reference that begins at an index, or of the backslash there that escapes the
/// next byte; 0 for any other byte.
#[inline(always)]
pub(crate) fn code_length(text: &[u8], at: usize, has_escapes: bool) -> usize
    requires { at < length text.now }
{
    match text[at] {
        b'\\' if has_escapes && is_escape(text, at) => 1,
        b'&' => reference_length(&text[at..]).unwrap_or(0),
        _ => 0,
    }
}

/// Whether the backslash at an index escapes the next byte.
fn is_escape(text: &[u8], at: usize) -> bool {
    match text.get(at.saturating_add(1)) {
        Some(byte) => is(*byte, Class::Punctuation),
        None => false,
    }
}

/// Whether a text contains a character reference.
pub(crate) fn has_reference(text: &[u8]) -> bool {
    for (index, byte) in text.iter().enumerate() {
        if *byte == b'&' && reference_length(&text[index..]).is_some() {
            return true;
        }
    }
    false
}

/// Writes the events of a character reference.
pub(crate) fn write_reference(
    writer: &mut Writer,
    bytes: &[u8],
    start: usize,
    end: usize,
) -> Result<(), AllocError> {
    let text = bytes.get(start..end).unwrap_or(b"");
    let after = start.saturating_add(1);
    writer.leaf(Name::CharacterReferenceMarker, start, after)?;
    let last = end.saturating_sub(1);
    match text {
        [_, b'#', b'x' | b'X', ..] => {
            let letter = after.saturating_add(1);
            let digits = letter.saturating_add(1);
            writer.leaf(Name::CharacterReferenceMarkerNumeric, after, letter)?;
            writer.leaf(Name::CharacterReferenceMarkerHexadecimal, letter, digits)?;
            writer.leaf(Name::CharacterReferenceValue, digits, last)
        }
        [_, b'#', ..] => {
            let digits = after.saturating_add(1);
            writer.leaf(Name::CharacterReferenceMarkerNumeric, after, digits)?;
            writer.leaf(Name::CharacterReferenceValue, digits, last)
        }
        _ => {
            writer.use_name(bytes.get(after..last).unwrap_or(b""))?;
            writer.leaf(Name::CharacterReferenceValue, after, last)
        }
    }
}
