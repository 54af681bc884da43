//! Questions about the attributes that are added to the tags of a safe text.

use super::compiled::by_safe;
use super::{Asked, Call, no_such_call, word_and_rest};
use md_page::{Heading, Html, page_around, with_heading_ids, with_link_rel};
use std::alloc::{AllocError, Global};

/// The result of a call for the safe text.
pub(super) fn answer(
    alloc: Global,
    asked: &Asked<'_>,
    call: Call<'_>,
) -> Result<String, AllocError> {
    match by_safe(alloc, asked) {
        Ok(html) => answer_of(alloc, &html, call),
        Err(error) => format!(in alloc; "! {error}"),
    }
}

/// The result of a call for a text; `both` and `turned` add both attributes, in either order.
pub(super) fn answer_of<H: Html>(
    alloc: Global,
    html: &H,
    call: Call<'_>,
) -> Result<String, AllocError> {
    let text = call.argument;
    match call.name {
        "rel" => rel(alloc, html, text),
        "rel_again" => rel_again(alloc, html, word_and_rest(text)),
        "ids" => ids(alloc, html, text),
        "headings" => headings(alloc, html, text),
        "both" => both(alloc, html, text),
        "turned" => turned(alloc, html, text),
        "page" => page_around(alloc, text, html),
        "page_with_rel" => page_with_rel(alloc, html, text),
        _ => no_such_call(alloc),
    }
}

/// The text with a `rel`.
fn rel<H: Html>(alloc: Global, html: &H, rel: &str) -> Result<String, AllocError> {
    String::from_str(alloc, with_link_rel(alloc, html, rel)?.as_str())
}

/// The text with a `rel`, after a second call for another one.
fn rel_again<H: Html>(alloc: Global, html: &H, rels: (&str, &str)) -> Result<String, AllocError> {
    rel(alloc, &with_link_rel(alloc, html, rels.0)?, rels.1)
}

/// The text with ids on its headings.
fn ids<H: Html>(alloc: Global, html: &H, prefix: &str) -> Result<String, AllocError> {
    String::from_str(alloc, with_heading_ids(alloc, html, prefix)?.html.as_str())
}

/// The text with a `rel`, and then with ids.
fn both<H: Html>(alloc: Global, html: &H, text: &str) -> Result<String, AllocError> {
    ids(alloc, &with_link_rel(alloc, html, text)?, text)
}

/// The text with ids, and then with a `rel`.
fn turned<H: Html>(alloc: Global, html: &H, text: &str) -> Result<String, AllocError> {
    rel(alloc, &with_heading_ids(alloc, html, text)?.html, text)
}

/// A page with the text with a `rel`.
fn page_with_rel<H: Html>(alloc: Global, html: &H, text: &str) -> Result<String, AllocError> {
    page_around(alloc, text, &with_link_rel(alloc, html, text)?)
}

/// Each heading that got an id.
fn headings<H: Html>(alloc: Global, html: &H, prefix: &str) -> Result<String, AllocError> {
    listed(
        alloc,
        with_heading_ids(alloc, html, prefix)?.headings.as_slice(),
    )
}

/// Each heading: its level, its number and its text.
fn listed(alloc: Global, headings: &[Heading]) -> Result<String, AllocError> {
    let mut said = String::new(alloc);
    for heading in headings {
        say(&mut said, heading)?;
    }
    Ok(said)
}

/// Prints a heading.
fn say(said: &mut String, heading: &Heading) -> Result<(), AllocError> {
    let (level, number) = (heading.level, heading.number);
    let text = heading.text.as_str();
    write!(said, "h{level} {number} {text};")
}
