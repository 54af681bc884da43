//! Makes each call that takes memory, those that take none, and those of `serve` in which a read or
//! a write fails, and prints which of them returned a wrong result.
//!
//! A call that runs out of memory is repeated, and the second result counts. So the output is the
//! same if one request for memory is refused.

mod appending;
mod attributes;
mod documents;
mod log;
mod plain;
mod rows;
mod serving;
mod texts;
mod unnested;
mod within;

use log::Log;
use std::alloc::Global;
use std::io;

/// Makes the calls of a word, and prints which of them returned a wrong result, or that each was
/// made: `plain` selects the calls that need nothing that takes memory, `checked` the calls that
/// prepare the other calls without memory, `methods` both of these, `memory` all that takes memory,
/// any other word everything.
pub fn ask_each<R: Print + AllocGlobal>(rt: &R, word: &[u8]) -> io::Result<()> {
    let mut log = Log {
        refusals: 0,
        wrong: None,
    };
    ask(rt.alloc(), &mut log, word);
    log.close(rt)
}

/// Makes the calls of this word.
fn ask(alloc: Global, log: &mut Log, word: &[u8]) {
    if word.starts_with(b"plain") {
        plain::ask_each(log);
    } else if word.starts_with(b"checked") {
        documents::check_each(alloc, log, false);
    } else if word.starts_with(b"methods") {
        documents::check_each(alloc, log, true);
    } else {
        ask_with_memory(alloc, log);
        if !word.starts_with(b"memory") {
            serving::ask_each(alloc, log);
        }
    }
}

/// Makes the calls over texts and documents, and those that take no memory.
fn ask_with_memory(alloc: Global, log: &mut Log) {
    plain::ask_each(log);
    texts::ask_each(alloc, log);
    documents::ask_each(alloc, log);
    unnested::ask_each(alloc, log);
    within::ask_each(alloc, log);
    attributes::ask_each(alloc, log);
}
