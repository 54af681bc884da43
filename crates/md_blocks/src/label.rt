//! Folds labels to the form in which they are compared.

ghost use Rattle.std.specs.Prelude.{◌≡◌, ◌≤◌, ◌-◌, IfOk, IfSome, length, option_map, string_bytes};
ghost use Rattle.std.specs.List.{join_with_byte};
ghost use Rattle.md_lines.specs.Escapes.{in_line};
ghost use Rattle.md_lines.specs.Reading.{text_from};
ghost use Rattle.md_lines.specs.Texts.{text_before};
ghost use Rattle.md_blocks.specs.LinkDefinitions.{label_form, printed, text_form};
ghost use Rattle.md_base.specs.Identifier.{normalized};

use md_base::normalize_identifier;
use md_lines::{Cursor, Line, Place};
use std::alloc::{AllocError, Global};

/// U+FFFD in UTF-8.
const REPLACEMENT: &[u8] = b"\xef\xbf\xbd";

/// Folds the label of a reference: the text of some lines between two places in them.
pub(crate) fn folded_between(
    alloc: Global,
    bytes: &[u8],
    lines: &[Line],
    from: Place,
    to: Place,
) -> Result<Option<String>, AllocError> {
    if from.line == to.line {
        return folded_text(alloc, bytes.get(from.at..to.at).unwrap_or(&[]));
    }
    let from = Cursor::new(bytes, lines, from);
    let to = Cursor::new(bytes, lines, to);
    folded_label(alloc, &from, &to)
}

/// Folds a label as the compiler folds identifiers: the text between two places in the same lines.
/// `None` if it isn't UTF-8.
pub(crate) fn folded_label(
    alloc: Global,
    from: &Cursor<'_>,
    to: &Cursor<'_>,
) -> Result<Option<String>, AllocError>
    ensures { IfOk result (λ label. option_map string_bytes label
        ≡ label_form (text_before (text_from from.now) (text_from to.now))) }
{
    let first = from.rest_of_line();
    if from.lines_left() <= to.lines_left() {
        return folded_text(alloc, &first[..length_before(first, to)]);
    }
    let label = label_bytes(alloc, from, to)?;
    folded_text(alloc, label.as_slice())
}

/// How many bytes of a line come before what is left of it.
#[inline(always)]
fn length_before(line: &[u8], rest: &Cursor<'_>) -> usize
    ensures value { result ≡ length line.now - length (in_line rest.now) }
    ensures within { result ≤ length line.now }
{
    line.len().saturating_sub(rest.rest_of_line().len())
}

/// The text between two places in the same lines, with a line feed between two lines.
fn label_bytes(alloc: Global, from: &Cursor<'_>, to: &Cursor<'_>) -> Result<Vec<u8>, AllocError>
    ensures { IfOk result (λ label. label.items
        ≡ join_with_byte 10 (text_before (text_from from.now) (text_from to.now))) }
{
    let mut cursor = *from;
    let mut label = Vec::new(alloc);
    'lines: while cursor.lines_left() > to.lines_left() {
        label.extend_from_slice(cursor.rest_of_line())?;
        label.push(b'\n')?;
        cursor.next_line();
    }
    let last = cursor.rest_of_line();
    label.extend_from_slice(&last[..length_before(last, to)])?;
    Ok(label)
}

/// Folds the label of a link, in which NUL is U+FFFD as in text; `None` if it isn't UTF-8.
fn folded_text(alloc: Global, label: &[u8]) -> Result<Option<String>, AllocError>
    ensures { IfOk result (λ text. option_map string_bytes text ≡ text_form (printed label.now)) }
{
    if !label.contains(&0) {
        return folded_bytes(alloc, label);
    }
    let text = without_nul(alloc, label)?;
    folded_bytes(alloc, text.as_slice())
}

/// A text with U+FFFD for each NUL.
fn without_nul(alloc: Global, label: &[u8]) -> Result<Vec<u8>, AllocError>
    ensures { IfOk result (λ text. text.items ≡ printed label.now) }
{
    let mut text = Vec::with_capacity(alloc, label.len())?;
    for byte in label {
        if *byte == 0 {
            text.extend_from_slice(REPLACEMENT)?;
        } else {
            text.push(*byte)?;
        }
    }
    Ok(text)
}

/// Folds a label; `None` if it isn't UTF-8.
pub(crate) fn folded_bytes(alloc: Global, label: &[u8]) -> Result<Option<String>, AllocError>
    ensures folded { IfOk result (λ text. IfSome text (λ folded.
        string_bytes folded ≡ normalized label.now)) }
    ensures form { IfOk result (λ text. option_map string_bytes text ≡ text_form label.now) }
{
    match std::str::from_utf8(label) {
        Ok(text) => Ok(Some(normalize_identifier(alloc, text)?)),
        Err(_) => Ok(None),
    }
}
