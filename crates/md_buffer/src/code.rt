//! The text of inline code.

ghost use Rattle.std.specs.Prelude.{◌≡◌, ◌++◌, ◌≤◌, IfOk, OnOk, string_bytes, encode_utf8, length};
ghost use Rattle.std.specs.Prelude.{◌-◌, option_copied, if◌then◌else◌};
ghost use Rattle.std.specs.Bool.{OnTrue};
ghost use Rattle.std.specs.Str.{IsCharBoundary};
ghost use Rattle.md_meaning.specs.Meaning.Spans.{trimmed, without_escapes};
ghost use Rattle.md_buffer.specs.Code as code;

use crate::output::Output;
use std::alloc::{AllocError, Global};

/// Normalizes the text of code. In a table each backslash directly before a pipe is removed. Then
/// one space is removed at each end of a text that begins and ends with one and isn't all spaces.
///
/// # Errors
///
/// Returns an error only if memory runs out.
pub fn push_code(
    alloc: Global,
    out: &mut Output,
    in_table: bool,
    text: &str,
) -> Result<(), AllocError>
    ensures { OnOk result (out.new ≡ record out.old {
      text = out.old.text ++ trimmed (if in_table then without_escapes text.now else text.now);
    }) }
{
    if in_table {
        let unescaped = unescape_pipes(alloc, text)?;
        out.put(trim(unescaped.as_str()))
    } else {
        out.put(trim(text))
    }
}

/// Removes each backslash directly before a pipe.
fn unescape_pipes(alloc: Global, text: &str) -> Result<String, AllocError>
    ensures { IfOk result (λ out. string_bytes out ≡ code.unescaped_pipes text.now) }
{
    let mut out = String::with_capacity(alloc, text.len())?;
    let mut rest = text.chars();
    while let Some(c) = rest.next() {
        push_unescaped(&mut out, c, rest.as_str())?;
    }
    Ok(out)
}

/// Writes a character, depending on what follows it.
fn push_unescaped(out: &mut String, c: char, rest: &str) -> Result<(), AllocError>
    ensures { OnOk result
        (string_bytes out.new ++ code.unescaped_pipes rest.now ≡ string_bytes out.old
        ++ code.unescaped_pipes (encode_utf8 c ++ rest.now)) }
{
    if escapes_pipe(c, rest.as_bytes()) {
        Ok(())
    } else {
        out.push(c)
    }
}

/// Whether a character is a backslash directly before a pipe.
fn escapes_pipe(c: char, rest: &[u8]) -> bool
    ensures { result ≡ code.escapes_pipe c rest.now }
{
    c == '\\' && begins_with_pipe(rest)
}

/// Whether the next byte is a pipe.
fn begins_with_pipe(bytes: &[u8]) -> bool
    ensures { result ≡ code.begins_with_pipe bytes.now }
{
    bytes.first().is_some_and(|byte| *byte == b'|')
}

/// A text without one space at each end, if it is padded.
fn trim(text: &str) -> &str
    ensures { result.now ≡ code.without_padding text.now }
{
    if is_padded(text) {
        &text[1..text.len() - 1]
    } else {
        text
    }
}

/// Whether a text begins and ends with a space, and isn't all spaces.
fn is_padded(text: &str) -> bool
    ensures value { result ≡ code.is_padded text.now }
    ensures two { OnTrue result (2 ≤ length text.now) }
    ensures cut_start { OnTrue result (IsCharBoundary text.now 1) }
    ensures cut_end { OnTrue result (IsCharBoundary text.now (length text.now - 1)) }
{
    let bytes = text.as_bytes();
    is_space(bytes.first()) && is_space(bytes.last()) && !is_blank(bytes)
}

/// Whether there is a byte, and it is a space.
fn is_space(byte: Option<&u8>) -> bool
    ensures { result ≡ code.is_space (option_copied byte.entry) }
{
    byte.is_some_and(|byte| *byte == b' ')
}

/// Whether a text is all spaces.
fn is_blank(bytes: &[u8]) -> bool
    ensures { result ≡ code.is_blank bytes.now }
{
    bytes.iter().all(|byte| *byte == b' ')
}
