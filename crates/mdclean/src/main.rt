//! Cleans HTML: reads any text from standard input, and writes safe HTML to standard output.
//!
//!     mdclean [--frames] [--tags NAMES] [--protocols NAMES] < DOCUMENT
//!
//! With `--tags` only these elements stay, and with `--protocols` URLs have one of these protocols
//! or none; a space divides the names.
//!
//! With `--frames` standard input is a sequence of documents, each after its length in bytes and a
//! line feed, and each text comes after `0`, a space, its length and a line feed. For a document
//! that isn't UTF-8 the output is `1 0`.
//!
//! If there is no HTML, it writes one line to standard error, and exits with status 1 for an
//! argument that isn't known, 2 for an input that isn't UTF-8 or that doesn't end where its lengths
//! say, 3 if memory runs out, and 4 if reading or writing fails.
#![tactic(auto)]

mod frames;

use frames::{write_document, write_frames};
use md_clean::CleanOptions;
use std::alloc::Global;
use std::env;
use std::io::{self, BufWriter, Error, ErrorKind, Read, Write};
use std::process::ExitCode;
use std::rt::Env;

fn main(rt: HostRuntime) -> ExitCode {
    match run(&rt) {
        Ok(()) => ExitCode::SUCCESS,
        Err(error) => {
            let (status, text) = meaning(error.kind());
            let _ = rt.eprintln(text);
            ExitCode::from(status)
        }
    }
}

/// The status of an error, and its line.
fn meaning(kind: ErrorKind) -> (u8, &'static str) {
    match kind {
        ErrorKind::InvalidInput => (
            1,
            "the arguments are --frames, --tags NAMES and --protocols NAMES",
        ),
        ErrorKind::InvalidData => (2, "the input isn't UTF-8, or a length in it is wrong"),
        ErrorKind::OutOfMemory => (3, "out of memory"),
        _ => (4, "input or output failed"),
    }
}

/// The arguments.
#[derive(Drop)]
struct Arguments {
    has_frames: bool,
    tags: Option<String>,
    protocols: Option<String>,
}

/// Reads the arguments and the input, and writes the output.
fn run<R: Env + Input + Print + AllocGlobal>(rt: &R) -> io::Result<()> {
    let arguments = read_arguments(rt)?;
    let tag_words = words(rt.alloc(), arguments.tags.as_deref())?;
    let protocol_words = words(rt.alloc(), arguments.protocols.as_deref())?;
    let tags = if_given(arguments.tags.is_some(), tag_words.as_slice());
    let protocols = if_given(arguments.protocols.is_some(), protocol_words.as_slice());
    let options = CleanOptions { tags, protocols };
    let mut input = Vec::new(rt.alloc());
    rt.reader().read_to_end(&mut input)?;
    let mut writer = BufWriter::new(rt.alloc(), io::writer(rt))?;
    if arguments.has_frames {
        write_frames(rt.alloc(), input.as_slice(), options, &mut writer)?;
    } else {
        write_document(rt.alloc(), input.as_slice(), options, &mut writer)?;
    }
    writer.flush()
}

/// Words, if the argument is given.
fn if_given<'a>(is_given: bool, words: &'a [&'a str]) -> Option<&'a [&'a str]> {
    if is_given { Some(words) } else { None }
}

/// The words of a text, between spaces.
fn words(alloc: Global, text: Option<&str>) -> io::Result<Vec<&str>> {
    let mut words = Vec::new(alloc);
    for word in text.unwrap_or("").split(' ') {
        words.push(word)?;
    }
    Ok(words)
}

/// Reads the arguments.
///
/// # Errors
///
/// Returns an error if an argument isn't known, or memory runs out.
fn read_arguments<R: Env + AllocGlobal>(rt: &R) -> io::Result<Arguments> {
    let mut arguments = Arguments {
        has_frames: false,
        tags: None,
        protocols: None,
    };
    let mut name = Awaited::Argument;
    for word in env::args(rt)?.skip(1) {
        name = read_argument(&mut arguments, name, word)?;
    }
    match name {
        Awaited::Argument => Ok(arguments),
        _ => Err(Error::from(ErrorKind::InvalidInput)),
    }
}

/// What the next word is.
#[derive(Clone, Copy)]
enum Awaited {
    Argument,
    Tags,
    Protocols,
}

/// Reads a word of the command line, and returns what the next one is.
fn read_argument(arguments: &mut Arguments, is: Awaited, word: String) -> io::Result<Awaited> {
    match is {
        Awaited::Tags => arguments.tags = Some(word),
        Awaited::Protocols => arguments.protocols = Some(word),
        Awaited::Argument => match word.as_str() {
            "--frames" => arguments.has_frames = true,
            "--tags" => return Ok(Awaited::Tags),
            "--protocols" => return Ok(Awaited::Protocols),
            _ => return Err(Error::from(ErrorKind::InvalidInput)),
        },
    }
    Ok(Awaited::Argument)
}
