//! Does jobs that users of the compiler wait for, and prints a line for each: how many calls it made, how many gave a
//! text, how many bytes all texts have, and a digest of them.
//!
//!     md_bench JOB SEED COUNT [JOB SEED COUNT ..] < TEXTS
//!
//! Standard input has the lines of which the documents are made. The seed decides what they look like. The count is how
//! many calls are made; of the job `awkward`, how many levels or items its documents have.
#![tactic(auto)]

mod awkward;
mod blocks;
mod digest;
mod documents;
mod draft;
mod jobs;
mod random;
mod scripts;
mod spans;
mod texts;

use jobs::{Job, NAMES, Work, results};
use std::env;
use std::io::{self, Error, ErrorKind, Read};
use std::rt::Env;
use texts::Texts;

fn main(rt: HostRuntime) -> io::Result<()> {
    run_jobs(&rt)
}

/// Reads the lines, and does what the arguments say.
fn run_jobs<R: Env + Input + Print + AllocGlobal>(rt: &R) -> io::Result<()> {
    let mut input = Vec::new(rt.alloc());
    rt.reader().read_to_end(&mut input)?;
    match Texts::new(rt.alloc(), input.as_slice()) {
        Ok(texts) => run_words(rt, &texts),
        Err(error) => Err(Error::from(error)),
    }
}

/// Does what the arguments say.
fn run_words<R: Env + Print + AllocGlobal>(rt: &R, texts: &Texts<'_>) -> io::Result<()> {
    let mut words = env::args(rt)?.skip(1);
    for _ in 0..u32::MAX {
        let Some(name) = words.next() else {
            return Ok(());
        };
        let seed = number(words.next())?;
        let count = number(words.next())?;
        let work = Work {
            alloc: rt.alloc(),
            names: &NAMES,
            texts,
            seed: seed as u64,
        };
        run_job(rt, &work, name.as_str(), count)?;
    }
    Ok(())
}

/// Does a job, and prints what it gave.
fn run_job<R: Print>(rt: &R, work: &Work<'_>, name: &str, count: usize) -> io::Result<()> {
    let job = Job::named(name).ok_or(Error::from(ErrorKind::InvalidInput))?;
    let digest = results(work, job, count)?;
    println!(rt; "{name}: {digest}")
}

/// The number that a word is.
fn number(word: Option<String>) -> io::Result<usize> {
    let word = word.ok_or(Error::from(ErrorKind::InvalidInput))?;
    match word.as_str().parse::<u32>() {
        Ok(number) => Ok(number as usize),
        Err(_) => Err(Error::from(ErrorKind::InvalidInput)),
    }
}
