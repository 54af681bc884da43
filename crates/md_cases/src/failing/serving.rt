//! `serve` with readers and writers that fail at a read or a write.

mod messages;
mod streams;

use super::appending::append_text;
use super::log::Log;
use md_html::Rule;
use md_script::{RunError, ServeError, serve};
use messages::have_messages;
use std::alloc::{AllocError, Global};
use streams::{
    EndlessReader, FailingReader, FailingWriter, MEGABYTE, STEP, SlowReader, StuckWriter,
};

/// A break, of two events over three bytes, and its text.
const BREAK: &[u8] = b"+ThematicBreak 0\n-ThematicBreak 3\n--\n***";

const BREAK_TEXT: &[u8] = b"<hr />";

/// Makes each call of `serve`, and the calls that read its errors.
pub fn ask_each(alloc: Global, log: &mut Log) {
    ask_of_scripts(alloc, log);
    ask_of_failures(alloc, log);
}

/// Makes the calls in which each read and write succeeds, and those that read errors.
fn ask_of_scripts(alloc: Global, log: &mut Log) {
    let alloc = alloc;
    log.tell(is_written(alloc), "serve", "a break");
    log.tell(slow_is_read(alloc), "serve", "a slow reader");
    log.tell(is_appended(alloc) == Ok(true), "append_text", "a break");
    log.tell(refusals_are_told(alloc), "serve", "refused scripts");
    log.tell(have_messages(alloc) == Ok(true), "to_string", "errors");
}

/// Makes those in which one fails, or never ends.
fn ask_of_failures(alloc: Global, log: &mut Log) {
    let alloc = alloc;
    log.tell(reads_are_told(alloc), "serve", "reads that fail");
    log.tell(writes_are_told(alloc), "serve", "writes that fail");
    log.tell(stuck_is_told(alloc), "serve", "writers that are stuck");
    log.tell(endless_is_told(alloc), "serve", "an endless reader");
}

/// The result of `serve`, its output, and its number of reads, if these reads and writes fail.
fn served(
    alloc: Global,
    script: &[u8],
    read_fails: usize,
    write_fails: usize,
) -> (Result<(), ServeError>, Vec<u8>, usize) {
    let mut reader = FailingReader {
        bytes: script,
        reads: 0,
        fails_at: read_fails,
    };
    let mut writer = FailingWriter {
        written: Vec::new(alloc),
        writes: 0,
        fails_at: write_fails,
    };
    let answer = serve(alloc, &mut reader, &mut writer);
    (answer, writer.written, reader.reads)
}

/// Whether `serve` returns this result, and has written these bytes.
fn answers(
    alloc: Global,
    script: &[u8],
    fails: (usize, usize),
    wanted: &Result<(), ServeError>,
    bytes: &[u8],
) -> bool {
    let (answer, written, _) = served(alloc, script, fails.0, fails.1);
    answer == *wanted && written.as_slice() == bytes
}

/// How many reads a script takes to its end.
fn reads_of(alloc: Global, script: &[u8]) -> usize {
    served(alloc, script, 0, 0).2
}

/// Whether a text is written.
fn is_written(alloc: Global) -> bool {
    answers(alloc, BREAK, (0, 0), &Ok(()), BREAK_TEXT)
}

/// Whether a text is appended to the earlier ones.
fn is_appended(alloc: Global) -> Result<bool, AllocError> {
    let mut texts = Vec::from_slice(alloc, b"<p>a</p>")?;
    let answer = append_text(alloc, BREAK, &mut texts);
    Ok(answer == Ok(()) && texts.as_slice() == b"<p>a</p><hr />".as_slice())
}

/// Whether each failed read is reported, also if the bytes before it are a valid script.
fn reads_are_told(alloc: Global) -> bool {
    let reads = reads_of(alloc, BREAK);
    let told = Err(ServeError::Input);
    reads == 15
        && (1..=reads).all(|failing| answers(alloc, BREAK, (failing, 0), &told, b""))
        && answers(alloc, BREAK, (16, 0), &Ok(()), BREAK_TEXT)
}

/// Whether each failed write is reported, not retried.
fn writes_are_told(alloc: Global) -> bool {
    let told = Err(ServeError::Output);
    answers(alloc, BREAK, (0, 1), &told, b"")
        && answers(alloc, BREAK, (0, 2), &told, b"<hr")
        && answers(alloc, BREAK, (0, 3), &Ok(()), BREAK_TEXT)
}

/// Whether a write that takes no byte and a failed flush are reported, and other writers aren't.
fn stuck_is_told(alloc: Global) -> bool {
    let told = Err(ServeError::Output);
    stuck_answers(alloc, 0, true, &told)
        && stuck_answers(alloc, 1, false, &told)
        && stuck_answers(alloc, 1, true, &Ok(()))
}

/// Whether `serve` returns this result with a writer that accepts `takes` bytes at each write, and
/// flushes them or doesn't.
fn stuck_answers(
    alloc: Global,
    takes: usize,
    flushes: bool,
    wanted: &Result<(), ServeError>,
) -> bool {
    let mut reader = FailingReader {
        bytes: BREAK,
        reads: 0,
        fails_at: 0,
    };
    let mut writer = StuckWriter { takes, flushes };
    serve(alloc, &mut reader, &mut writer) == *wanted
}

/// Whether nothing is written for a script without a text, and the script is read to its end.
fn refusals_are_told(alloc: Global) -> bool {
    let order = RunError::Event {
        index: 1,
        rule: Rule::Order,
    };
    let refused: &[u8] = b"+Paragraph 0\n--\na long document";
    let unreadable: &[u8] = b"unreadable\n--\na long document";
    refusal_is_told(alloc, refused, order)
        && refusal_is_told(alloc, unreadable, RunError::Line(1))
        && refusal_is_told(alloc, b"", RunError::Line(1))
}

/// Whether nothing is written for this script, with this error, and the script is read to its end.
fn refusal_is_told(alloc: Global, script: &[u8], cause: RunError) -> bool {
    let reads = script.len().div_ceil(STEP).saturating_add(1);
    let told = Err(ServeError::Run(cause));
    reads_of(alloc, script) == reads && answers(alloc, script, (0, 0), &told, b"")
}

/// Whether a megabyte is read to its end, one byte for each read, and its text is written.
fn slow_is_read(alloc: Global) -> bool {
    let mut writer = FailingWriter {
        written: Vec::new(alloc),
        writes: 0,
        fails_at: 0,
    };
    let mut reader = SlowReader {
        script: BREAK,
        reads: 0,
    };
    let answer = serve(alloc, &mut reader, &mut writer);
    answer == Ok(()) && reader.reads > MEGABYTE && writer.written.as_slice() == BREAK_TEXT
}

/// Whether a reader that never ends is abandoned, with nothing written.
fn endless_is_told(alloc: Global) -> bool {
    let mut writer = FailingWriter {
        written: Vec::new(alloc),
        writes: 0,
        fails_at: 0,
    };
    let mut reader = EndlessReader { reads: 0, room: 0 };
    let answer = serve(alloc, &mut reader, &mut writer);
    answer == Err(ServeError::Input)
        && reader.reads == 16_777_216
        && reader.room >= 4096
        && writer.writes == 0
}
