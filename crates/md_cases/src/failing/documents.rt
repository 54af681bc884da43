//! The calls that take documents.

mod judging;
mod scripts;

use super::log::{Log, again};
use super::plain;
use super::rows::{NAMES, Row, documents, named};
use judging::is_in_page;
pub use judging::{is_refusal, is_text};
use md_html::{
    AlignKind, Checked, CompileError, CompileOptions, Counted, Name, SafeError, SafeHtml, check,
    compile, compile_checked, compile_counted, compile_safe, gfm_table_align,
};
use scripts::{runs, runs_safely, tells_unreadable_line, tells_unsafe_options};
use std::alloc::{AllocError, Global};

/// Makes each call for each document.
pub fn ask_each(alloc: Global, log: &mut Log) {
    for rows in documents() {
        ask_rows(alloc, log, rows);
    }
    ask(alloc, log, named(), &NAMES);
    let is_right = tells_unsafe_options(alloc, log);
    log.tell(is_right, "run_safe", "unsafe options");
    let is_right = tells_unreadable_line(alloc, log);
    log.tell(is_right, "run_safe", "a line that can't be read");
}

/// Makes each call for each of these documents.
fn ask_rows(alloc: Global, log: &mut Log, rows: &[Row]) {
    for row in rows {
        ask_script(alloc, log, row);
        ask(alloc, log, row, &[]);
        ask_page(alloc, log, row);
    }
}

/// Makes the calls that take a script.
fn ask_script(alloc: Global, log: &mut Log, row: &Row) {
    let is_right = runs(alloc, log, row);
    log.tell(is_right, "run", row.name);
    let is_right = runs_safely(alloc, log, row);
    log.tell(is_right, "run_safe", row.name);
}

/// Makes the call that writes a page with a safe text.
fn ask_page(alloc: Global, log: &mut Log, row: &Row) {
    match &safe_of(alloc, log, row) {
        Ok(html) => {
            let is_right = is_in_page(alloc, log, html, &row.wanted);
            log.tell(is_right, "page", row.name);
        }
        Err(_) => {}
    }
}

/// Makes the calls that take events.
fn ask(alloc: Global, log: &mut Log, row: &Row, names: &[(&str, &str)]) {
    ask_compilers(alloc, log, row, names);
    ask_check(alloc, log, row, names);
}

/// Makes the calls that compile events.
fn ask_compilers(alloc: Global, log: &mut Log, row: &Row, names: &[(&str, &str)]) {
    let is_right = compiles(alloc, log, row, names);
    log.tell(is_right, "compile", row.name);
    let is_right = counts(alloc, log, row, names);
    log.tell(is_right, "compile_counted", row.name);
}

/// Makes the call that checks events, and those that take its result.
fn ask_check(alloc: Global, log: &mut Log, row: &Row, names: &[(&str, &str)]) {
    match &checked_of(alloc, log, row, names) {
        Ok(checked) => ask_checked(alloc, log, row, checked),
        Err(cause) => log.tell(is_refusal(cause, &row.wanted), "check", row.name),
    }
}

/// Makes the calls that take a checked document.
fn ask_checked(alloc: Global, log: &mut Log, row: &Row, checked: &Checked) {
    let is_right = compiles_checked(alloc, log, row, checked);
    log.tell(is_right, "compile_checked", row.name);
    let is_right = aligns(alloc, log, checked);
    log.tell(is_right, "gfm_table_align", row.name);
    plain::ask_of_checked(log, row, checked);
}

/// Checks each document and compiles it with `compile_safe`; then, if requested, makes the calls
/// that read the results.
pub fn check_each(alloc: Global, log: &mut Log, asks_methods: bool) {
    for rows in documents() {
        check_rows(alloc, log, rows, asks_methods);
    }
}

/// The same for these documents.
fn check_rows(alloc: Global, log: &mut Log, rows: &[Row], asks_methods: bool) {
    for row in rows {
        check_row(alloc, log, row, asks_methods);
        compile_row(alloc, log, row, asks_methods);
    }
}

/// Checks a document; then, if requested, makes the calls that read the checked document.
fn check_row(alloc: Global, log: &mut Log, row: &Row, asks_methods: bool) {
    match &checked_of(alloc, log, row, &[]) {
        Ok(checked) if asks_methods => plain::ask_of_checked(log, row, checked),
        _ => {}
    }
}

/// Compiles a document with `compile_safe`; then, if requested, makes the call that reads the text.
fn compile_row(alloc: Global, log: &mut Log, row: &Row, asks_methods: bool) {
    match &safe_of(alloc, log, row) {
        Ok(html) if asks_methods => {
            log.tell(is_text(html.as_str(), &row.wanted), "as_str", row.name);
        }
        _ => {}
    }
}

/// The result of `compile_safe`; if it runs out of memory, that of a second call.
pub fn safe_of(alloc: Global, log: &mut Log, row: &Row) -> Result<SafeHtml, SafeError> {
    again!(
        log,
        Err(SafeError::Compile(CompileError::Memory)),
        compiled_as_safe(alloc, row)
    )
}

/// The result of `compile_safe`.
fn compiled_as_safe(alloc: Global, row: &Row) -> Result<SafeHtml, SafeError> {
    let options = CompileOptions::default();
    compile_safe(alloc, row.events, row.document.as_bytes(), &options, &[])
}

/// The result of `check`.
fn checked_of<'a>(
    alloc: Global,
    log: &mut Log,
    row: &'a Row,
    names: &'a [(&'a str, &'a str)],
) -> Result<Checked<'a>, CompileError> {
    again!(
        log,
        Err(CompileError::Memory),
        check(alloc, row.events, row.document.as_bytes(), names)
    )
}

/// Whether `compile` returns the expected result.
fn compiles(alloc: Global, log: &mut Log, row: &Row, names: &[(&str, &str)]) -> bool {
    match again!(log, Err(CompileError::Memory), compiled(alloc, row, names)) {
        Ok(text) => is_text(text.as_str(), &row.wanted),
        Err(cause) => is_refusal(&cause, &row.wanted),
    }
}

/// The result of `compile`.
fn compiled(alloc: Global, row: &Row, names: &[(&str, &str)]) -> Result<String, CompileError> {
    let options = CompileOptions::default();
    compile(alloc, row.events, row.document.as_bytes(), &options, names)
}

/// Whether `compile_counted` returns the expected result.
fn counts(alloc: Global, log: &mut Log, row: &Row, names: &[(&str, &str)]) -> bool {
    match again!(log, Err(CompileError::Memory), counted(alloc, row, names)) {
        Ok(counted) => is_text(counted.text.as_str(), &row.wanted),
        Err(cause) => is_refusal(&cause, &row.wanted),
    }
}

/// The result of `compile_counted`.
fn counted(alloc: Global, row: &Row, names: &[(&str, &str)]) -> Result<Counted, CompileError> {
    let options = CompileOptions::default();
    compile_counted(alloc, row.events, row.document.as_bytes(), &options, names)
}

/// Whether `compile_checked` returns the expected result.
fn compiles_checked(alloc: Global, log: &mut Log, row: &Row, checked: &Checked) -> bool {
    match again!(log, Err(AllocError), compiled_checked(alloc, checked)) {
        Ok(text) => is_text(text.as_str(), &row.wanted),
        Err(AllocError) => false,
    }
}

/// The result of `compile_checked`.
fn compiled_checked(alloc: Global, checked: &Checked) -> Result<String, AllocError> {
    compile_checked(alloc, checked, &CompileOptions::default())
}

/// Whether `gfm_table_align` returns one column without an alignment, if the first node is a table.
fn aligns(alloc: Global, log: &mut Log, checked: &Checked) -> bool {
    if !checked.enters(0, Name::GfmTable) {
        return true;
    }
    match again!(log, Err(AllocError), gfm_table_align(alloc, checked, 0)) {
        Ok(columns) => columns.as_slice() == [AlignKind::None].as_slice(),
        Err(AllocError) => false,
    }
}
