//! Runs the worked cases from standard input, and prints their results; then makes calls whose
//! memory, reads and writes fail (`failing`).
//!
//! If the first word of standard input isn't `worked`, the word selects the failing calls, and
//! nothing else is read. So no memory is taken before them. An empty input is an error.
//!
//! A case begins with a line `%%%% GROUP: NAME`. Its script ends at the line ending before the next
//! such line. For each case the program prints that line, and then the text, or `! ` and why there
//! is none.
#![tactic(auto)]

mod answers;
mod compiling;
mod failing;
mod parts;
mod reading;

use answers::answer;
use md_script::{ServeError, read_input};
use std::io::Read;
use std::process::ExitCode;

/// The beginning of a case.
const MARK: &[u8] = b"%%%% ";

/// The message for an empty standard input.
const NOTHING_ASKED: &str = "no case is asked: bench/cases.py --write writes stdin and stdout";

/// The status for it.
const FAILED: u8 = 1;

/// A case: its first line, and the start of its script.
#[derive(Clone, Copy)]
struct Case<'a> {
    title: &'a [u8],
    start: usize,
}

fn main(rt: HostRuntime) -> ExitCode {
    let mut word = [0u8; 8];
    let asked = match rt.reader().read(&mut word) {
        Ok(0) => {
            let _ = rt.eprintln(NOTHING_ASKED);
            return ExitCode::from(FAILED);
        }
        Ok(_) => ask(&rt, &word),
        Err(_) => Err(ServeError::Input),
    };
    match asked {
        Ok(()) => ExitCode::SUCCESS,
        Err(error) => {
            let status = error.status();
            let _ = rt.eprintln(error);
            ExitCode::from(status)
        }
    }
}

/// Runs the cases if the first word selects them, and makes the calls.
fn ask<R: Input + Print + AllocGlobal>(rt: &R, word: &[u8]) -> Result<(), ServeError> {
    if word.starts_with(b"worked") {
        answer_cases(rt)?;
    }
    make_each(rt, word)
}

/// Makes the calls of a word.
fn make_each<R: Print + AllocGlobal>(rt: &R, word: &[u8]) -> Result<(), ServeError> {
    match failing::ask_each(rt, word) {
        Ok(()) => Ok(()),
        Err(_) => Err(ServeError::Output),
    }
}

/// Runs each case.
fn answer_cases<R: Input + Print + AllocGlobal>(rt: &R) -> Result<(), ServeError> {
    let input = read_input(rt.alloc(), &mut rt.reader())?;
    answer_each(rt, input.as_slice())
}

/// Runs each case of an input: one ends before the line that begins the next.
fn answer_each<R: Print + AllocGlobal>(rt: &R, input: &[u8]) -> Result<(), ServeError> {
    let mut case: Option<Case<'_>> = None;
    let mut start: usize = 0;
    for line in input.split(|byte| *byte == b'\n') {
        let next = start.saturating_add(line.len()).saturating_add(1);
        if line.starts_with(MARK) {
            answer_until(rt, case, input, start)?;
            case = Some(Case {
                title: line,
                start: next,
            });
        }
        start = next;
    }
    answer_until(rt, case, input, start)
}

/// Runs a case whose script ends before the line that starts at an index.
fn answer_until<R: Print + AllocGlobal>(
    rt: &R,
    case: Option<Case<'_>>,
    input: &[u8],
    next: usize,
) -> Result<(), ServeError> {
    let Some(case) = case else {
        return Ok(());
    };
    let end = next.saturating_sub(1);
    let script = input.get(case.start..end).unwrap_or(&[]);
    write_answer(rt, case.title, script)
}

/// Prints a case's first line and its result.
fn write_answer<R: Print + AllocGlobal>(
    rt: &R,
    title: &[u8],
    script: &[u8],
) -> Result<(), ServeError> {
    let answer = answer(rt.alloc(), script)?;
    for part in [title, b"\n", answer.as_bytes(), b"\n"] {
        match rt.write_all(part) {
            Ok(()) => {}
            Err(_) => return Err(ServeError::Output),
        }
    }
    Ok(())
}
