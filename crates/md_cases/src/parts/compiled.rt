//! Questions about a script that `run` can't answer: with the names as references, as a page, with
//! its visits.

use super::{Asked, Call, no_such_call, with_line_feeds};
use md_html::{CompileError, CompileOptions, Counted, SafeError, SafeHtml, compile_safe};
use md_page::page;
use std::alloc::{AllocError, Global};

/// The result of a call.
pub(super) fn answer(
    alloc: Global,
    asked: &Asked<'_>,
    call: Call<'_>,
) -> Result<String, AllocError> {
    let (script, names) = (&asked.script, asked.names.as_slice());
    match call.name {
        "compile" => said_of(alloc, script.compile(alloc, names)),
        "compile_checked" => said_of(alloc, script.compile_checked(alloc, names)),
        "compile_counted" => said_counted(alloc, script.compile_counted(alloc, names)),
        "compile_safe" => said_safe(alloc, by_safe(alloc, asked)),
        "page" => page_titled(alloc, asked, call.argument),
        "default" => listed(alloc, CompileOptions::default()),
        "gfm" => listed(alloc, CompileOptions::gfm()),
        _ => no_such_call(alloc),
    }
}

fn said_safe(alloc: Global, answer: Result<SafeHtml, SafeError>) -> Result<String, AllocError> {
    match answer {
        Ok(html) => String::from_str(alloc, html.as_str()),
        Err(error) => format!(in alloc; "! {error}"),
    }
}

fn listed(alloc: Global, options: CompileOptions) -> Result<String, AllocError> {
    format!(in alloc; "{options:?}")
}

fn said_of(alloc: Global, answer: Result<String, CompileError>) -> Result<String, AllocError> {
    match answer {
        Ok(text) => Ok(text),
        Err(error) => format!(in alloc; "! {error}"),
    }
}

/// How many events were visited, and the text.
fn said_counted(
    alloc: Global,
    answer: Result<Counted, CompileError>,
) -> Result<String, AllocError> {
    match answer {
        Ok(counted) => format!(in alloc; "{} visits, {}", counted.visits, counted.text),
        Err(error) => format!(in alloc; "! {error}"),
    }
}

/// The result of `compile_safe`.
pub(super) fn by_safe(alloc: Global, asked: &Asked<'_>) -> Result<SafeHtml, SafeError> {
    let script = &asked.script;
    let events = script.events.as_slice();
    let names = asked.names.as_slice();
    compile_safe(alloc, events, script.document, &script.options, names)
}

/// The page of the safe text, with a title.
fn page_titled(alloc: Global, asked: &Asked<'_>, title: &str) -> Result<String, AllocError> {
    match by_safe(alloc, asked) {
        Ok(html) => page(alloc, with_line_feeds(alloc, title)?.as_str(), &html),
        Err(error) => format!(in alloc; "! {error}"),
    }
}
