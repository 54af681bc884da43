//! Compiles Markdown from standard input to HTML on standard output.
//!
//!     mdhtml [OPTION ..] < DOCUMENT
//!
//! Options: `--math`, `--front-matter`, `--no-footnotes`, `--no-tables`, `--no-bare-links`,
//! `--hard-breaks`, `--number-ids`, `--html=text`, `--html=left-out`, `--html=without-comments`,
//! `--html=kept` (HTML that authors may write is kept, all other left out), `--html=kept-or-text`
//! (all other is printed as text, without comments), `--base=URL`, `--footnote-prefix=TEXT`, and
//! `--frames`: standard input is then a sequence of documents, each after its length in bytes and a
//! line feed, and each text comes after `0`, a space, its length and a line feed. For a document
//! that isn't UTF-8 the output is `1 0`.
//!
//! If there is no HTML, it writes one line to standard error, and exits with status 1.
#![tactic(auto)]

mod frames;
mod settings;

use frames::{write_document, write_frames};
use settings::read_settings;
use std::io::{self, BufWriter, Read, Write};
use std::process::ExitCode;
use std::rt::Env;

fn main(rt: HostRuntime) -> ExitCode {
    match run(&rt) {
        Ok(()) => ExitCode::SUCCESS,
        Err(error) => {
            let _ = rt.eprintln(error);
            ExitCode::from(1)
        }
    }
}

/// Reads the arguments and the input, and writes the output.
fn run<R: Env + Input + Print + AllocGlobal>(rt: &R) -> io::Result<()> {
    let settings = read_settings(rt)?;
    let mut input = Vec::new(rt.alloc());
    rt.reader().read_to_end(&mut input)?;
    let mut writer = BufWriter::new(rt.alloc(), io::writer(rt))?;
    if settings.has_frames {
        write_frames(rt.alloc(), input.as_slice(), &settings, &mut writer)?;
    } else {
        write_document(rt.alloc(), input.as_slice(), &settings, &mut writer)?;
    }
    writer.flush()
}
