//! The calls that take event scripts.

use super::super::log::{Log, again};
use super::super::rows::Row;
use super::judging::{is_refusal, is_text};
use md_html::{CompileError, SafeHtml};
use md_script::{RunError, SafeRunError, run, run_safe};
use std::alloc::{AllocError, Global};

/// Whether `run` returns the expected result.
pub(super) fn runs(alloc: Global, log: &mut Log, row: &Row) -> bool {
    match again!(
        log,
        Err(RunError::Memory),
        run(alloc, row.script.as_bytes())
    ) {
        Ok(text) => is_text(text.as_str(), &row.wanted),
        Err(RunError::Event { index, rule }) => {
            is_refusal(&CompileError::Event { index, rule }, &row.wanted)
        }
        Err(_) => false,
    }
}

/// The result of `run_safe`; if it runs out of memory, that of a second call.
fn ran_safely(alloc: Global, log: &mut Log, script: &[u8]) -> Result<SafeHtml, SafeRunError> {
    again!(
        log,
        Err(SafeRunError::Run(RunError::Memory)),
        run_safe(alloc, script)
    )
}

/// Whether `run_safe` returns the expected result.
pub(super) fn runs_safely(alloc: Global, log: &mut Log, row: &Row) -> bool {
    match ran_safely(alloc, log, row.script.as_bytes()) {
        Ok(html) => is_text(html.as_str(), &row.wanted),
        Err(SafeRunError::Run(RunError::Event { index, rule })) => {
            is_refusal(&CompileError::Event { index, rule }, &row.wanted)
        }
        Err(_) => false,
    }
}

/// Whether `run_safe` reports that a script's options aren't safe.
pub(super) fn tells_unsafe_options(alloc: Global, log: &mut Log) -> bool {
    match ran_safely(alloc, log, b"!allow_dangerous_html\n--\n") {
        Err(SafeRunError::Options) => {
            is_written(alloc, log, &SafeRunError::Options, "unsafe options")
        }
        _ => false,
    }
}

/// Whether `run_safe` reports that the first line is invalid.
pub(super) fn tells_unreadable_line(alloc: Global, log: &mut Log) -> bool {
    match ran_safely(alloc, log, b"*\n--\n") {
        Err(SafeRunError::Run(cause)) => {
            is_written(alloc, log, &SafeRunError::Run(cause), "line 1: unreadable")
        }
        _ => false,
    }
}

/// Whether an error prints this line.
fn is_written(alloc: Global, log: &mut Log, error: &SafeRunError, wanted: &str) -> bool {
    match again!(log, Err(AllocError), format!(in alloc; "{error}")) {
        Ok(text) => text.as_str() == wanted,
        Err(AllocError) => false,
    }
}
