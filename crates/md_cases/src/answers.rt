//! The output for a script, by `run` and by the calls that it makes.

use crate::parts::{QUESTION, answer_questions};
use crate::reading::{REFERENCE_NAMES, Script};
use md_html::{CompileError, Counted, WithinError};
use md_script::{RunError, run};
use std::alloc::{AllocError, Global};

/// The output for a script: its text or why it has none, and a line for each call with another
/// result; for a script that begins with questions, the answers to them.
pub(crate) fn answer(alloc: Global, script: &[u8]) -> Result<String, AllocError> {
    if script.starts_with(QUESTION.as_bytes()) {
        return answer_questions(alloc, script);
    }
    let answer = run(alloc, script);
    let mut said = said_of(alloc, &answer)?;
    say_calls(alloc, &mut said, script, &answer)?;
    Ok(said)
}

/// Reports the calls with another result, if each line of the script is valid.
fn say_calls(
    alloc: Global,
    said: &mut String,
    script: &[u8],
    answer: &Result<String, RunError>,
) -> Result<(), AllocError> {
    if let Err(RunError::Line(_)) = answer {
        return Ok(());
    }
    say_reading(alloc, said, &mut Script::new(alloc), script, answer)
}

/// Reads the script, and reports the calls with another result.
fn say_reading<'a>(
    alloc: Global,
    said: &mut String,
    script: &mut Script<'a>,
    input: &'a [u8],
    answer: &Result<String, RunError>,
) -> Result<(), AllocError> {
    if script.read(alloc, input)? {
        say_others(alloc, said, script, answer)
    } else {
        said.push_str("\n! read: a line is unreadable")
    }
}

/// Reports which of the calls that a script makes have another result.
fn say_others(
    alloc: Global,
    said: &mut String,
    script: &Script<'_>,
    answer: &Result<String, RunError>,
) -> Result<(), AllocError> {
    let names = &REFERENCE_NAMES;
    let compiled = script.compile(alloc, names);
    say_unless(said, is_same(compiled, answer), "compile")?;
    let counted = text_of(script, script.compile_counted(alloc, names));
    say_unless(said, is_same(counted, answer), "compile_counted")?;
    let checked = script.compile_checked(alloc, names);
    say_unless(said, is_same(checked, answer), "compile_checked")?;
    say_unless(said, keeps_limit(alloc, script, answer), "compile_within")
}

/// Whether `compile_within` returns the same as `run` if the limit is the text's length, and an
/// error if the limit is a byte less.
fn keeps_limit(alloc: Global, script: &Script<'_>, answer: &Result<String, RunError>) -> bool {
    let length = match answer {
        Ok(text) => text.len(),
        Err(_) => 0,
    };
    let within = script.compile_within(alloc, &REFERENCE_NAMES, length);
    is_same_within(within, answer) && (length == 0 || is_too_long(alloc, script, length - 1))
}

/// Whether a call within limits returns the same as `run`.
fn is_same_within(answer: Result<String, WithinError>, wanted: &Result<String, RunError>) -> bool {
    match answer {
        Ok(text) => Ok(text) == *wanted,
        Err(WithinError::Compile(cause)) => Err(RunError::from(cause)) == *wanted,
        Err(WithinError::TooLong | WithinError::TooMuch | WithinError::TooDeep) => false,
    }
}

/// Whether the text is too long for a limit of `length` bytes.
fn is_too_long(alloc: Global, script: &Script<'_>, length: usize) -> bool {
    match script.compile_within(alloc, &REFERENCE_NAMES, length) {
        Err(WithinError::TooLong) => true,
        _ => false,
    }
}

/// Whether a call returns the same as `run`.
fn is_same(answer: Result<String, CompileError>, wanted: &Result<String, RunError>) -> bool {
    answer.map_err(RunError::from) == *wanted
}

/// The text of a counted call; `Memory` unless each event was visited twice.
fn text_of(
    script: &Script<'_>,
    answer: Result<Counted, CompileError>,
) -> Result<String, CompileError> {
    let counted = answer?;
    let (visits, events) = (counted.visits as u128, script.events.len() as u128);
    if visits == 2 * events {
        Ok(counted.text)
    } else {
        Err(CompileError::Memory)
    }
}

/// The text, or why there is none.
fn said_of(alloc: Global, answer: &Result<String, RunError>) -> Result<String, AllocError> {
    match answer {
        Ok(text) => text.clone(),
        Err(error) => format!(in alloc; "! {error}"),
    }
}

/// Reports a call, unless its result is the same.
fn say_unless(said: &mut String, is_same: bool, call: &str) -> Result<(), AllocError> {
    if is_same {
        return Ok(());
    }
    write!(said, "\n! {call} answers otherwise")
}
