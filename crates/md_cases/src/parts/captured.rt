//! Questions about nested captured texts, with heads before them.

use super::{Call, no_such_call};
use md_buffer::Output;
use std::alloc::{AllocError, Global};

/// The result of a call: each character of the argument is a step, and the call's name is the
/// length of a long text in bytes. `~` represents that text, in the steps and in the answer.
pub(super) fn answer(alloc: Global, call: Call<'_>) -> Result<String, AllocError> {
    match call.name.parse() {
        Ok(length) => answer_with(alloc, call.argument, long_text(alloc, length)?.as_str()),
        Err(_) => no_such_call(alloc),
    }
}

/// A text of `length` dashes.
fn long_text(alloc: Global, length: usize) -> Result<String, AllocError> {
    let mut long = String::new(alloc);
    for _ in 0..length {
        long.push_str("-")?;
    }
    Ok(long)
}

/// The text after some steps, then `|` and the texts that were moved.
fn answer_with(alloc: Global, steps: &str, long: &str) -> Result<String, AllocError> {
    let mut out = Output::new(alloc);
    let mut moved = String::new(alloc);
    out.reserve(steps.len());
    for step in steps.chars() {
        take(&mut out, &mut moved, long, step)?;
    }
    let text = out.into_text(alloc)?;
    let said = format!(in alloc; "{text}|{moved}")?;
    said.replace(alloc, long, "~")
}

/// Makes a step.
fn take(out: &mut Output, moved: &mut String, long: &str, step: char) -> Result<(), AllocError> {
    match step {
        '[' => out.capture(),
        '(' => out.capture_label(),
        '1' => out.put_before("1"),
        '2' => out.put_before("2"),
        '3' => out.put_before("3"),
        '}' => out.move_into(moved),
        ';' => out.need("\n"),
        '&' => out.put_encoded("&", true),
        '~' => put_long(out, long),
        _ => end_or_put(out, step),
    }
}

/// Ends a text, or writes a letter.
fn end_or_put(out: &mut Output, step: char) -> Result<(), AllocError> {
    match step {
        ')' => out.join(),
        ']' => out.discard(),
        'a' => out.put("a")?,
        'b' => out.put("b")?,
        _ => out.put("c")?,
    }
    Ok(())
}

/// Writes a long text, byte by byte.
fn put_long(out: &mut Output, long: &str) -> Result<(), AllocError> {
    for _ in 0..long.len() {
        out.put("-")?;
    }
    Ok(())
}
