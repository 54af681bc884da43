//! The calls that compile within limits.

use super::documents::{is_refusal, is_text};
use super::log::{Log, again};
use super::rows::{Row, Wanted, documents};
use md_html::{
    CompileError, CompileOptions, Limits, SafeHtml, SafeWithinError, WithinError, check,
    compile_safe_within, compile_within, depth_of, reuse_of, work_of,
};
use std::alloc::Global;

/// No limit.
const NONE: usize = usize::MAX;

/// Makes these calls for each document: with its exact length, work, or reuse if that is more, and
/// depth as limits; with one less for each; and with the least and the greatest limits.
pub fn ask_each(alloc: Global, log: &mut Log) {
    for rows in documents() {
        ask_rows(alloc, log, rows);
    }
}

/// Makes them for each of these documents.
fn ask_rows(alloc: Global, log: &mut Log, rows: &[Row]) {
    for row in rows {
        ask_row(alloc, log, row);
    }
}

/// Makes them for a document.
fn ask_row(alloc: Global, log: &mut Log, row: &Row) {
    let (length, work) = (length_of(&row.wanted), work_of(row.events));
    let reuse = reused(alloc, log, row);
    let work = work.max(reuse);
    let depth = depth_of(row.events);
    let limits = [
        (length, work, depth),
        (length.saturating_sub(1), work, depth),
        (length, work.saturating_sub(1), depth),
        (length, work, depth.saturating_sub(1)),
        (0, NONE, NONE),
        (NONE, NONE, NONE),
    ];
    for (text, work, depth) in &limits {
        let limits = Limits {
            text: *text,
            work: *work,
            depth: *depth,
        };
        ask_limits(alloc, log, &Asked { row, reuse }, limits);
    }
}

/// A document, and its reuse.
#[derive(Clone, Copy)]
struct Asked<'a> {
    row: &'a Row,
    reuse: usize,
}

/// The reuse of a document; 0 if the events aren't a document.
fn reused(alloc: Global, log: &mut Log, row: &Row) -> usize {
    match again!(log, Err(CompileError::Memory), reuse_of_row(alloc, row)) {
        Ok(reuse) => reuse,
        Err(_) => 0,
    }
}

/// The result of `reuse_of`.
fn reuse_of_row(alloc: Global, row: &Row) -> Result<usize, CompileError> {
    let checked = check(alloc, row.events, row.document.as_bytes(), &[])?;
    reuse_of(alloc, &checked, &CompileOptions::default()).map_err(CompileError::from)
}

/// Makes both calls for a document, with these limits.
fn ask_limits(alloc: Global, log: &mut Log, asked: &Asked, limits: Limits) {
    let is_right = compiles_within(alloc, log, asked, limits);
    log.tell(is_right, "compile_within", asked.row.name);
    let is_right = compiles_safe_within(alloc, log, asked, limits);
    log.tell(is_right, "compile_safe_within", asked.row.name);
}

/// Whether `compile_within` returns the expected result.
fn compiles_within(alloc: Global, log: &mut Log, asked: &Asked, limits: Limits) -> bool {
    match again!(
        log,
        Err(WithinError::Compile(CompileError::Memory)),
        compiled(alloc, asked.row, limits)
    ) {
        Ok(text) => is_kept(text.as_str(), asked, limits),
        Err(error) => is_right(&error, asked, limits),
    }
}

/// Whether `compile_safe_within` returns the expected result.
fn compiles_safe_within(alloc: Global, log: &mut Log, asked: &Asked, limits: Limits) -> bool {
    match again!(
        log,
        Err(SafeWithinError::Within(WithinError::Compile(CompileError::Memory))),
        compiled_safe(alloc, asked.row, limits)
    ) {
        Ok(html) => is_kept(html.as_str(), asked, limits),
        Err(SafeWithinError::Within(error)) => is_right(&error, asked, limits),
        Err(SafeWithinError::Options) => false,
    }
}

/// Whether a text is the expected result within limits.
fn is_kept(text: &str, asked: &Asked, limits: Limits) -> bool {
    is_text(text, &asked.row.wanted)
        && text.len() <= limits.text
        && work_of(asked.row.events) <= limits.work
        && depth_of(asked.row.events) <= limits.depth
        && asked.reuse <= limits.work
}

/// Whether an error is the expected result within limits.
fn is_right(error: &WithinError, asked: &Asked, limits: Limits) -> bool {
    let wanted = &asked.row.wanted;
    let is_deep = depth_of(asked.row.events) > limits.depth;
    let is_over = is_deep || work_of(asked.row.events) > limits.work;
    let is_reused = asked.reuse > limits.work;
    match error {
        WithinError::TooDeep => is_deep,
        WithinError::TooMuch => !is_deep && (is_over || is_reused),
        WithinError::TooLong => !is_over && !is_reused && length_of(wanted) > limits.text,
        WithinError::Compile(cause) => !is_over && is_refusal(cause, wanted),
    }
}

/// The length of the expected text, if there is one.
fn length_of(wanted: &Wanted) -> usize {
    match wanted {
        Wanted::Text(text) => text.len(),
        Wanted::Refusal(_, _) => 0,
    }
}

/// The result of `compile_within`.
fn compiled(alloc: Global, row: &Row, limits: Limits) -> Result<String, WithinError> {
    let options = CompileOptions::default();
    let bytes = row.document.as_bytes();
    compile_within(alloc, row.events, bytes, &options, &[], limits)
}

/// The result of `compile_safe_within`.
fn compiled_safe(alloc: Global, row: &Row, limits: Limits) -> Result<SafeHtml, SafeWithinError> {
    let options = CompileOptions::default();
    let bytes = row.document.as_bytes();
    compile_safe_within(alloc, row.events, bytes, &options, &[], limits)
}
