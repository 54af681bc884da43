//! The headings of a text, for a table of contents.

ghost use Rattle.std.specs.Prelude.{◌≡◌, ◌++◌, ◌∷◌, ◌≤◌, [], false, if◌then◌else◌, IfOk, OnOk};
ghost use Rattle.std.specs.Prelude.{length, string_bytes, map};
ghost use Rattle.md_safe.specs.Input.{with_line_feeds, begins_with_line_feed};
ghost use Rattle.md_page.specs.Scan.{past_angle, closes_heading, text_before, scanned_heading};
ghost use Rattle.md_page.specs.Scan.{scanned_headings};
ghost use Rattle.md_page.specs.Headings.{listed};

use crate::scan::{Rule, next_tag, split_at_byte};
use std::alloc::{AllocError, Global};

/// A heading that got an `id`.
#[derive(Debug, PartialEq, Eq, Drop)]
pub struct Heading {
    /// Its level, from 1 to 6.
    pub level: u8,
    /// Its number, from 1: its `id` is the prefix and this number.
    pub number: usize,
    /// Its text without the tags in it, escaped: it may be inserted into HTML unchanged.
    pub text: String,
}

/// The headings that have no `id`.
pub(crate) fn headings(alloc: Global, text: &str) -> Result<Vec<Heading>, AllocError>
    ensures { IfOk result (λ found. map listed found.items ≡ scanned_headings 0 text.now) }
{
    let mut found = Vec::new(alloc);
    let mut rest = text;
    while let Some(at) = next_tag(Rule::Heading, rest.as_bytes()) {
        let tag = &rest[at + 1..];
        let heading = heading_at(alloc, tag, found.len() + 1)?;
        found.push(heading)?;
        rest = tag;
    }
    Ok(found)
}

/// The heading that follows a `<`.
fn heading_at(alloc: Global, tag: &str, number: usize) -> Result<Heading, AllocError>
    ensures { IfOk result (λ heading. listed heading ≡ scanned_heading number tag.now) }
{
    let digit = tag.as_bytes().get(1).copied().unwrap_or(0);
    let text = heading_text(alloc, past_angle(tag), digit)?;
    Ok(Heading {
        level: digit.saturating_sub(b'0'),
        number,
        text,
    })
}

/// The texts before the end tag of a heading with this digit, each with a line feed for each line
/// ending.
fn heading_text(alloc: Global, text: &str, digit: u8) -> Result<String, AllocError>
    ensures { IfOk result (λ out. string_bytes out ≡ text_before digit false text.now) }
{
    let mut out = String::new(alloc);
    let mut rest = text;
    while let Some((words, tag)) = split_at_byte(b'<', rest) {
        push_lined(&mut out, words)?;
        if closes_heading(digit, tag.as_bytes()) {
            return Ok(out);
        }
        rest = past_angle(tag);
    }
    push_lined(&mut out, rest)?;
    Ok(out)
}

/// Appends a text with a line feed for each line ending.
pub(crate) fn push_lined(out: &mut String, text: &str) -> Result<(), AllocError>
    ensures { OnOk result
        (string_bytes out.new ≡ string_bytes out.old ++ with_line_feeds text.now) }
{
    let mut rest = text;
    while let Some((line, after)) = split_at_byte(b'\r', rest) {
        out.push_str(line)?;
        push_line_feed(out, after)?;
        rest = after;
    }
    out.push_str(rest)
}

/// Appends a line feed, unless one follows.
fn push_line_feed(out: &mut String, rest: &str) -> Result<(), AllocError>
    ensures { OnOk result (string_bytes out.new
        ≡ string_bytes out.old ++ (if begins_with_line_feed rest.now then [] else 10 ∷ [])) }
{
    match rest.as_bytes() {
        [b'\n', ..] => Ok(()),
        _ => out.push_str("\n"),
    }
}

/// Whether these bytes after a `<` begin the end tag of a heading with this digit.
fn closes_heading(digit: u8, tag: &[u8]) -> bool
    ensures { result ≡ closes_heading digit tag.now }
{
    matches!(tag, [b'/', b'h', level, b'>', ..] if *level == digit)
}

/// The text after the first `>`.
fn past_angle(text: &str) -> &str
    ensures value { result.now ≡ past_angle text.now }
    ensures shorter { length result.now ≤ length text.now }
{
    match split_at_byte(b'>', text) {
        Some((_, after)) => after,
        None => "",
    }
}
