//! Writes a footnote's text with its backreferences inside or after it.

ghost use Rattle.std.specs.Prelude.{◌≡◌, ◌<◌, ◌-◌, MatchOption, IfSome, OnOk, Some, None};
ghost use Rattle.std.specs.Prelude.{if◌then◌else◌, length, string_bytes};
ghost use Rattle.std.specs.Str.{IsCharBoundary};
ghost use Rattle.md_meaning.specs.Meaning.Layout.{laid_after};
ghost use Rattle.md_meaning.specs.Meaning.Footnotes.{unended_length, body, backreferences};
ghost use Rattle.md_footnotes.specs.Words.{unended, ends_in_paragraph};

use crate::called::{Called, Settings};
use crate::lines::{is_break, need};
use crate::ways_back::push_backreferences;
use std::alloc::AllocError;

/// A text without the CR or LF at its end, if there is one.
fn without_break(text: &[u8]) -> Option<&[u8]>
    ensures { MatchOption result (unended text.now ≡ text.now)
        (λ rest. (unended rest.now ≡ unended text.now) × (length rest.now < length text.now)) }
{
    match text.split_last() {
        Some((last, rest)) => { if is_break(*last) { Some(rest) } else { None } }
        None => None,
    }
}

/// A text without the CR and LF bytes at its end.
fn without_endings(text: &[u8]) -> &[u8]
    ensures { result.now ≡ unended text.now }
{
    let mut kept = text;
    while let Some(rest) = without_break(kept) {
        kept = rest;
    }
    kept
}

/// The offset of a `</p>` that ends a text, ignoring CR and LF after it.
fn paragraph_end(text: &str) -> Option<usize>
    ensures place { result
        ≡ (if ends_in_paragraph text.now then Some (unended_length text.now - 4) else None) }
    ensures cut { IfSome result (λ place. IsCharBoundary text.now place) }
{
    let kept = without_endings(text.as_bytes());
    if kept.ends_with(b"</p>") {
        Some(kept.len() - 4)
    } else {
        None
    }
}

/// Appends a footnote's text and its backreferences: before a `</p>` at its end, else after it.
///
/// # Errors
///
/// Returns an error only if memory runs out.
pub(crate) fn push_body(
    settings: &Settings,
    out: &mut String,
    called: &Called,
    text: &str,
) -> Result<(), AllocError>
    ensures { OnOk result
        (string_bytes out.new ≡ laid_after settings.now.ending.now (string_bytes out.old)
        (body text.now (backreferences settings.now.options.now called.now.identifier.now
        called.now.number called.now.count))) }
{
    match paragraph_end(text) {
        Some(place) => {
            let (before, after) = text.split_at(place);
            out.push_str(before)?;
            out.push_str(" ")?;
            push_backreferences(settings.alloc, out, settings.options, called)?;
            out.push_str(after)
        }
        None => {
            out.push_str(text)?;
            need(out, settings.ending)?;
            push_backreferences(settings.alloc, out, settings.options, called)
        }
    }
}
