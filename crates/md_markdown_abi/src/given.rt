//! Compiles C's input to a text, and lists its headings.

ghost use Rattle.std.specs.Prelude.{◌≤◌, List, IfOk, IfErr, OnOk, option_copied, string_bytes};
ghost use Rattle.std.specs.Prelude.{take};
ghost use Rattle.md_safe.specs.Token.{Token};
ghost use Rattle.md_safe.specs.Tokenizer.{IsTokenized};
ghost use Rattle.md_page.specs.Built.{IsBuiltAsWritten};
ghost use Rattle.md_abi.specs.Attributes.{with_rel};
ghost use Rattle.md_abi.specs.Attributed.{IsListedAfter};
ghost use Rattle.md_markdown_abi.specs.Text.{IsMarkdownText, IsRead};
ghost use Rattle.md_markdown_abi.specs.Failures.{ExplainsMarkdown, IsOfText};

use crate::document::read_document;
use crate::failure::MarkdownFailure;
use crate::kept::kept_within;
use crate::option::{
    CMarkdownOptions, check_version, keeps_html, limits_of, read_markdown_options,
};
use md_abi::{Attributed, add_asked, borrow_text};
use md_markdown::markdown_within;
use md_page::Html;
use std::alloc::Global;

/// Compiles a document to HTML, with the requested attributes, and lists the headings that got an
/// `id`.
///
/// # Errors
///
/// Reports, in this order, that the options have another version or which of them is invalid, that
/// the document is too long or isn't UTF-8, that there is too much work or the text is too long; or
/// that memory ran out.
pub fn markdown_given(
    alloc: Global,
    bytes: &[u8],
    given: &CMarkdownOptions,
) -> Result<Attributed, MarkdownFailure>
    ensures ok { IfOk result (λ made.
        IsMarkdownText bytes.now given.now made.start (string_bytes made.whole)) }
    ensures read { OnOk result (IsRead bytes.now given.now) }
    ensures err { IfErr result (ExplainsMarkdown bytes.now given.now) }
{
    check_version(given)?;
    let options = read_markdown_options(alloc, given)?;
    let rel = borrow_text(&given.rel, 8)?;
    let prefix = borrow_text(&given.heading_ids, 9)?;
    let text = read_document(bytes, given.max_input)?;
    let limits = limits_of(given, bytes.len());
    if keeps_html(given.html) {
        let kept = kept_within(alloc, text, &options, limits)?;
        let made = attributed(alloc, &kept, rel, prefix, given.max_output)?;
        return Ok(made);
    }
    let html = markdown_within(alloc, text, &options, limits)?;
    let made = attributed(alloc, &html, rel, prefix, given.max_output)?;
    Ok(made)
}

/// Adds the requested attributes to a text, if it has at most `most` bytes then, and appends the
/// headings that got an `id`.
fn attributed<H: Html>(
    alloc: Global,
    html: &H,
    rel: Option<&str>,
    prefix: Option<&str>,
    most: usize,
) -> Result<Attributed, MarkdownFailure>
    ensures listed { IfOk result (λ made. (x : List Token) → IsTokenized (H.text html.now) x
        → IsListedAfter (option_copied prefix.entry) (with_rel (option_copied rel.entry) x)
        made.start (string_bytes made.whole)) }
    ensures tree { IfOk result (λ made. IsBuiltAsWritten (H.text html.now)
        → IsBuiltAsWritten (take made.start (string_bytes made.whole))) }
    ensures fits { IfOk result (λ made. made.start ≤ most) }
    ensures err { IfErr result IsOfText }
{
    let made = add_asked(alloc, html, rel, prefix)?;
    if made.start > most {
        return Err(MarkdownFailure::OutputTooLong);
    }
    Ok(made)
}
