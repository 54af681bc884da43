//! The calls that check for links in links.

use super::documents::{is_refusal, is_text};
use super::log::{Log, again};
use super::rows::{Row, documents, in_image, nested};
use md_html::{
    CompileError, CompileOptions, SafeError, SafeHtml, UnnestedError, compile_unnested,
    has_nested_link,
};
use std::alloc::{AllocError, Global};

/// Makes these calls for each document, none of which has a link in a link, and for two with links
/// and images.
pub fn ask_each(alloc: Global, log: &mut Log) {
    for rows in documents() {
        ask_rows(alloc, log, rows);
    }
    ask_row(alloc, log, in_image());
    let row = nested();
    log.tell(has_nested_link(row.events), "has_nested_link", row.name);
    let is_right = refuses_nested(alloc, log, row);
    log.tell(is_right, "compile_unnested", row.name);
    let is_right = refuses_options(alloc, log);
    log.tell(is_right, "compile_unnested", "unsafe options");
}

/// Makes them for each of these documents.
fn ask_rows(alloc: Global, log: &mut Log, rows: &[Row]) {
    for row in rows {
        ask_row(alloc, log, row);
    }
}

/// Makes them for a document without a link in a link.
fn ask_row(alloc: Global, log: &mut Log, row: &Row) {
    log.tell(!has_nested_link(row.events), "has_nested_link", row.name);
    let is_right = compiles_unnested(alloc, log, row);
    log.tell(is_right, "compile_unnested", row.name);
}

/// Whether `compile_unnested` returns the expected result.
fn compiles_unnested(alloc: Global, log: &mut Log, row: &Row) -> bool {
    match unnested_of(alloc, log, row) {
        Ok(html) => is_text(html.as_str(), &row.wanted),
        Err(UnnestedError::Safe(SafeError::Compile(cause))) => is_refusal(&cause, &row.wanted),
        Err(_) => false,
    }
}

/// Whether it refuses a document in which a link contains a link.
fn refuses_nested(alloc: Global, log: &mut Log, row: &Row) -> bool {
    match unnested_of(alloc, log, row) {
        Err(UnnestedError::Nested) => {
            is_written(alloc, log, &UnnestedError::Nested, "a link in a link")
        }
        _ => false,
    }
}

/// Whether it refuses options that aren't safe.
fn refuses_options(alloc: Global, log: &mut Log) -> bool {
    let mut options = CompileOptions::default();
    options.allow_dangerous_html = true;
    match compile_unnested(alloc, &[], b"", &options, &[]) {
        Err(UnnestedError::Safe(SafeError::Options)) => {
            let error = UnnestedError::Safe(SafeError::Options);
            is_written(alloc, log, &error, "unsafe options")
        }
        _ => false,
    }
}

/// Whether an error prints this line.
fn is_written(alloc: Global, log: &mut Log, error: &UnnestedError, wanted: &str) -> bool {
    match again!(log, Err(AllocError), format!(in alloc; "{error}")) {
        Ok(text) => text.as_str() == wanted,
        Err(AllocError) => false,
    }
}

/// The result of `compile_unnested`; if it runs out of memory, that of a second call.
fn unnested_of(alloc: Global, log: &mut Log, row: &Row) -> Result<SafeHtml, UnnestedError> {
    again!(
        log,
        Err(UnnestedError::Safe(SafeError::Compile(CompileError::Memory))),
        compiled_unnested(alloc, row)
    )
}

/// The result of `compile_unnested`.
fn compiled_unnested(alloc: Global, row: &Row) -> Result<SafeHtml, UnnestedError> {
    let options = CompileOptions::default();
    compile_unnested(alloc, row.events, row.document.as_bytes(), &options, &[])
}
