//! Cases for the calls below the compiler: for a script that begins with questions, a line for each
//! of them.
//!
//! A question is a line `? PART CALL ARGUMENT`. Lines `=NAME TEXT` may follow, names with their
//! texts; then the script.

mod attributed;
mod captured;
mod compiled;
mod endings;
mod places;
mod texts;
mod trees;
mod written;

use crate::reading::Script;
use std::alloc::{AllocError, Global};

/// The beginning of a question.
pub(crate) const QUESTION: &str = "? ";

/// Questions, names with their texts, and the script that they are about.
#[derive(Drop)]
struct Asked<'a> {
    questions: Vec<&'a str>,
    names: Vec<(&'a str, &'a str)>,
    script: Script<'a>,
}

/// A call and its argument.
#[derive(Clone, Copy)]
struct Call<'a> {
    name: &'a str,
    argument: &'a str,
}

/// The answers to the questions of a script.
pub(crate) fn answer_questions(alloc: Global, input: &[u8]) -> Result<String, AllocError> {
    let mut asked = Asked {
        questions: Vec::new(alloc),
        names: Vec::new(alloc),
        script: Script::new(alloc),
    };
    answer_read(alloc, &mut asked, input)
}

/// Reads questions and their script, and answers each.
fn answer_read<'a>(
    alloc: Global,
    asked: &mut Asked<'a>,
    input: &'a [u8],
) -> Result<String, AllocError> {
    let script = read_head(asked, input)?;
    if asked.script.read(alloc, script)? {
        answers_to(alloc, asked)
    } else {
        String::from_str(alloc, "! unreadable")
    }
}

/// The answer to each question.
fn answers_to(alloc: Global, asked: &Asked<'_>) -> Result<String, AllocError> {
    let mut said = String::new(alloc);
    for question in &asked.questions {
        say_answer(alloc, &mut said, asked, question)?;
    }
    Ok(said)
}

/// Prints a question and its answer, on a line of its own.
fn say_answer(
    alloc: Global,
    said: &mut String,
    asked: &Asked<'_>,
    question: &str,
) -> Result<(), AllocError> {
    if !said.is_empty() {
        said.push('\n')?;
    }
    let answer = answer_to(alloc, asked, question)?;
    write!(said, "{question}: {answer}")
}

/// The answer to a question.
fn answer_to(alloc: Global, asked: &Asked<'_>, question: &str) -> Result<String, AllocError> {
    let (part, call) = word_and_rest(question);
    let (name, argument) = word_and_rest(call);
    let call = Call { name, argument };
    match part {
        "text" => texts::answer(alloc, asked, call),
        "ending" => endings::answer(alloc, asked, call),
        "place" => places::answer(alloc, asked, call),
        "tree" => trees::answer(alloc, asked, call),
        "compiled" => compiled::answer(alloc, asked, call),
        "attributed" => attributed::answer(alloc, asked, call),
        "captured" => captured::answer(alloc, call),
        "written" => written::answer(alloc, call),
        _ => no_such_call(alloc),
    }
}

/// The answer if there is no such call.
fn no_such_call(alloc: Global) -> Result<String, AllocError> {
    String::from_str(alloc, "no such call")
}

/// A text up to its first space, and what comes after it.
fn word_and_rest(text: &str) -> (&str, &str) {
    text.split_once(' ').unwrap_or((text, ""))
}

/// Prints a boolean.
fn boolean(alloc: Global, is_so: bool) -> Result<String, AllocError> {
    format!(in alloc; "{is_so}")
}

/// Prints an optional number.
fn number(alloc: Global, number: Option<usize>) -> Result<String, AllocError> {
    match number {
        Some(number) => format!(in alloc; "{number}"),
        None => String::from_str(alloc, "none"),
    }
}

/// Reads the questions and the names; the script comes after them.
fn read_head<'a>(asked: &mut Asked<'a>, input: &'a [u8]) -> Result<&'a [u8], AllocError> {
    let mut length: usize = 0;
    for line in input.split(|byte| *byte == b'\n') {
        if !take_line(asked, line)? {
            break;
        }
        length = length.saturating_add(line.len()).saturating_add(1);
    }
    Ok(input.get(length..).unwrap_or(&[]))
}

/// Reads a line that is a question or a name; returns whether it is.
fn take_line<'a>(asked: &mut Asked<'a>, line: &'a [u8]) -> Result<bool, AllocError> {
    let text = std::str::from_utf8(line).unwrap_or("");
    if let Some(question) = text.strip_prefix(QUESTION) {
        asked.questions.push(question)?;
        return Ok(true);
    }
    match text.strip_prefix('=') {
        Some(name) => {
            asked.names.push(word_and_rest(name))?;
            Ok(true)
        }
        None => Ok(false),
    }
}

/// The document as a text.
fn document<'a>(asked: &Asked<'a>) -> &'a str {
    std::str::from_utf8(asked.script.document).unwrap_or("")
}

/// A text in which `\n` is replaced by a line feed.
fn with_line_feeds(alloc: Global, text: &str) -> Result<String, AllocError> {
    text.replace(alloc, "\\n", "\n")
}
