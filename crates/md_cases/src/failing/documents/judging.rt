//! Whether a text or a refusal is the expected one.

use super::super::log::{Log, again};
use super::super::rows::Wanted;
use md_html::{CompileError, SafeHtml};
use md_page::page;
use std::alloc::{AllocError, Global};

/// The part of a page with the title `<` before its text.
const BEFORE: &str =
    "<!doctype html>\n<html><head><meta charset=\"utf-8\" /><title>&lt;</title></head><body>";

/// The part after it.
const AFTER: &str = "</body></html>\n";

/// Whether `page` writes a page with the expected text.
pub(super) fn is_in_page(alloc: Global, log: &mut Log, html: &SafeHtml, wanted: &Wanted) -> bool {
    match again!(log, Err(AllocError), page(alloc, "<", html)) {
        Ok(page) => is_between(page.as_str(), wanted),
        Err(AllocError) => false,
    }
}

/// Whether the expected text is between the two.
fn is_between(page: &str, wanted: &Wanted) -> bool {
    let inside = page
        .strip_prefix(BEFORE)
        .and_then(|rest| rest.strip_suffix(AFTER));
    match inside {
        Some(text) => is_text(text, wanted),
        None => false,
    }
}

/// Whether this text is the expected one.
pub fn is_text(text: &str, wanted: &Wanted) -> bool {
    match wanted {
        Wanted::Text(wanted) => text == *wanted,
        Wanted::Refusal(_, _) => false,
    }
}

/// Whether this refusal is the expected one.
pub fn is_refusal(cause: &CompileError, wanted: &Wanted) -> bool {
    match (cause, wanted) {
        (CompileError::Event { index, rule }, Wanted::Refusal(at, by)) => {
            *index == *at && *rule == *by
        }
        _ => false,
    }
}
