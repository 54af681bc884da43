//! The calls that add attributes to the tags of a safe text.

use super::documents::safe_of;
use super::log::{Log, again};
use super::rows::attributed;
use md_html::SafeHtml;
use md_page::{Heading, page_around, with_heading_ids, with_link_rel};
use std::alloc::{AllocError, Global};

/// The expected text with a `rel`.
const WITH_REL: &str = "<h1><a href=\"b\" rel=\"&lt;\">a</a></h1>";

/// The expected text with an `id`.
const WITH_ID: &str = "<h1 id=\"&lt;1\"><a href=\"b\">a</a></h1>";

/// The expected page.
const IN_PAGE: &str =
    "<!doctype html>\n<html><head><meta charset=\"utf-8\" /><title>&lt;</title></head><body>\
    <h1><a href=\"b\">a</a></h1></body></html>\n";

/// Makes each call for a heading with a link.
pub fn ask_each(alloc: Global, log: &mut Log) {
    let row = attributed();
    match &safe_of(alloc, log, row) {
        Ok(html) => ask(alloc, log, html, row.name),
        Err(_) => log.tell(false, "compile_safe", row.name),
    }
}

/// Makes each call for a safe text.
fn ask(alloc: Global, log: &mut Log, html: &SafeHtml, name: &'static str) {
    let is_right = adds_rel(alloc, log, html);
    log.tell(is_right, "with_link_rel", name);
    let is_right = adds_ids(alloc, log, html);
    log.tell(is_right, "with_heading_ids", name);
    let is_right = is_in_page(alloc, log, html);
    log.tell(is_right, "page_around", name);
}

/// Whether `with_link_rel` returns the expected result.
fn adds_rel(alloc: Global, log: &mut Log, html: &SafeHtml) -> bool {
    match again!(log, Err(AllocError), with_link_rel(alloc, html, "<")) {
        Ok(made) => made.as_str() == WITH_REL,
        Err(AllocError) => false,
    }
}

/// Whether `with_heading_ids` returns the expected result.
fn adds_ids(alloc: Global, log: &mut Log, html: &SafeHtml) -> bool {
    match again!(log, Err(AllocError), with_heading_ids(alloc, html, "<")) {
        Ok(made) => made.html.as_str() == WITH_ID && are_listed(made.headings.as_slice()),
        Err(AllocError) => false,
    }
}

/// Whether these are the document's headings.
fn are_listed(headings: &[Heading]) -> bool {
    match headings {
        [heading] => { heading.level == 1 && heading.number == 1 && heading.text.as_str() == "a" }
        _ => false,
    }
}

/// Whether `page_around` returns the expected result.
fn is_in_page(alloc: Global, log: &mut Log, html: &SafeHtml) -> bool {
    match again!(log, Err(AllocError), page_around(alloc, "<", html)) {
        Ok(page) => page.as_str() == IN_PAGE,
        Err(AllocError) => false,
    }
}
