//! Compiles C's input to a text whose headings have ids derived from their texts, and lists these
//! headings and ids.

ghost use Rattle.std.specs.Prelude.{◌≡◌, ◌≤◌, ◌++◌, List, IfOk, IfErr, OnOk, map, take, option_copied};
ghost use Rattle.std.specs.Prelude.{◌∷◌, true, string_bytes};
ghost use Rattle.md_text.specs.Encode.{encoded};
ghost use Rattle.md_safe.specs.Token.{Token};
ghost use Rattle.md_safe.specs.Tokenizer.{IsTokenized};
ghost use Rattle.md_page.specs.Built.{IsBuiltAsWritten};
ghost use Rattle.md_abi.specs.Attributes.{with_rel};
ghost use Rattle.md_markdown_abi.specs.Failures.{ExplainsMarkdown, IsOfText};
ghost use Rattle.md_markdown_abi.specs.Slugged.{IsSluggedText, IsSluggedAfter, id_listing};
ghost use Rattle.md_markdown_abi.specs.Text.{IsRead};

use crate::document::read_document;
use crate::failure::MarkdownFailure;
use crate::kept::kept_within;
use crate::option::{
    CMarkdownOptions, check_version, keeps_html, limits_of, read_markdown_options,
};
use md_abi::{Attributed, borrow_text, with_list};
use md_markdown::markdown_within;
use md_page::{Html, with_link_rel};
use md_slugs::with_heading_slugs;
use md_text::push_encoded;
use std::alloc::{AllocError, Global};

/// Compiles a document to HTML, with an `id` on each heading that is derived from the heading's
/// text, with the prefix `heading_ids` if that is set. The headings follow, and then their ids.
///
/// # Errors
///
/// The errors of [`markdown_given`](crate::markdown_given).
pub fn markdown_slugged(
    alloc: Global,
    bytes: &[u8],
    given: &CMarkdownOptions,
) -> Result<Attributed, MarkdownFailure>
    ensures ok { IfOk result (λ made.
        IsSluggedText bytes.now given.now made.start (string_bytes made.whole)) }
    ensures read { OnOk result (IsRead bytes.now given.now) }
    ensures err { IfErr result (ExplainsMarkdown bytes.now given.now) }
{
    check_version(given)?;
    let options = read_markdown_options(alloc, given)?;
    let rel = borrow_text(&given.rel, 8)?;
    let prefix = borrow_text(&given.heading_ids, 9)?;
    let text = read_document(bytes, given.max_input)?;
    let limits = limits_of(given, bytes.len());
    let prefix = prefix.unwrap_or("");
    if keeps_html(given.html) {
        let kept = kept_within(alloc, text, &options, limits)?;
        let made = add_slugs(alloc, &kept, rel, prefix, given.max_output)?;
        return Ok(made);
    }
    let html = markdown_within(alloc, text, &options, limits)?;
    let made = add_slugs(alloc, &html, rel, prefix, given.max_output)?;
    Ok(made)
}

/// Adds the requested `rel` and ids of headings to a text, if it has at most `most` bytes then, and
/// appends these headings and their ids.
fn add_slugs<H: Html>(
    alloc: Global,
    html: &H,
    rel: Option<&str>,
    prefix: &str,
    most: usize,
) -> Result<Attributed, MarkdownFailure>
    ensures slugged { IfOk result (λ made. (x : List Token) → IsTokenized (H.text html.now) x
        → IsSluggedAfter (with_rel (option_copied rel.entry) x) made.start
        (string_bytes made.whole)) }
    ensures tree { IfOk result (λ made. IsBuiltAsWritten (H.text html.now)
        → IsBuiltAsWritten (take made.start (string_bytes made.whole))) }
    ensures fits { IfOk result (λ made. made.start ≤ most) }
    ensures err { IfErr result IsOfText }
{
    let made = with_slugs(alloc, html, rel, prefix)?;
    if made.start > most {
        return Err(MarkdownFailure::OutputTooLong);
    }
    Ok(made)
}

/// A text with the requested `rel` and with ids on its headings, and after it these headings and
/// their ids.
fn with_slugs<H: Html>(
    alloc: Global,
    html: &H,
    rel: Option<&str>,
    prefix: &str,
) -> Result<Attributed, AllocError>
    ensures slugged { IfOk result (λ made. (x : List Token) → IsTokenized (H.text html.now) x
        → IsSluggedAfter (with_rel (option_copied rel.entry) x) made.start
        (string_bytes made.whole)) }
    ensures tree { IfOk result (λ made. IsBuiltAsWritten (H.text html.now)
        → IsBuiltAsWritten (take made.start (string_bytes made.whole))) }
{
    match rel {
        Some(rel) => slugged(alloc, &with_link_rel(alloc, html, rel)?, prefix),
        None => slugged(alloc, html, prefix),
    }
}

/// The same for a text without a `rel` to add.
fn slugged<H: Html>(alloc: Global, html: &H, prefix: &str) -> Result<Attributed, AllocError>
    ensures slugged { IfOk result (λ made. (x : List Token) → IsTokenized (H.text html.now) x
        → IsSluggedAfter x made.start (string_bytes made.whole)) }
    ensures tree { IfOk result (λ made. IsBuiltAsWritten (H.text html.now)
        → IsBuiltAsWritten (take made.start (string_bytes made.whole))) }
{
    let after = with_heading_slugs(alloc, html, prefix)?;
    let mut made = with_list(alloc, Html::as_str(&after.html), after.headings.as_slice())?;
    push_ids(&mut made.whole, after.ids.as_slice())?;
    Ok(made)
}

/// Appends a list of ids.
fn push_ids(whole: &mut String, ids: &[String]) -> Result<(), AllocError>
    ensures { OnOk result (string_bytes whole.new
        ≡ string_bytes whole.old ++ id_listing (map string_bytes ids.now)) }
{
    for id in ids {
        push_id(whole, id.as_str())?;
    }
    Ok(())
}

/// Appends an id to the list.
fn push_id(whole: &mut String, id: &str) -> Result<(), AllocError>
    ensures { OnOk result (string_bytes whole.new
        ≡ string_bytes whole.old ++ (0 ∷ 35 ∷ encoded true id.now)) }
{
    whole.push_str("\0#")?;
    push_encoded(whole, id, true)
}
