//! Compiles Markdown to HTML with the HTML that authors write.

ghost use Rattle.std.specs.Prelude.{◌≡◌, ◌≤◌, ◌⊎◌, IfOk, IfSome, true, length, string_bytes};
ghost use Rattle.md_safe.specs.Built.{IsBuiltAsRead};
ghost use Rattle.md_safe.specs.Contents.{IsContained};
ghost use Rattle.md_safe.specs.Tokenized.{IsSafelyTokenized};
ghost use Rattle.md_depth.specs.Levels.{NestsWithin};
ghost use Rattle.md_text.specs.Ids.{HasDistinctIds};
ghost use Rattle.md_text.specs.Url.{link_protocols, image_protocols};
ghost use Rattle.md_reader.specs.Safe.{IsSafeHtml, max_depth};
ghost use Rattle.md_markdown.specs.Keeping.{IsKeptOf, HavePieces, IsSafeText};
ghost use Rattle.md_markdown.specs.Made.{IsMadeOf};

use crate::compiling::{
    bounded, compile_written, compile_written_within, ending, events_of, joined, markdown,
    markdown_within, resolved,
};
use crate::error::{MarkdownWithinError, of_limits};
use crate::laws::built_text_is_contained;
use crate::options::{for_kept, with_html};
use md_blocks::MarkdownOptions;
use md_html::{Limits, SafeHtml, compile, compile_within};
use md_inlines::Writer;
use md_kept::{Kept, are_pieces, has_html, keep};
use md_reader::laws::compiled_text_is_accepted;
use md_reader::{is_safe_html, is_safe_html_with_distinct_ids};
use md_tree::CompileError;
use std::alloc::{AllocError, Global};

/// Compiles a Markdown document to HTML as [`markdown`] does, with the HTML that authors may write.
///
/// A void tag is kept, and an element whose tags stand in the same node of the document, where the
/// content model allows them; of their attributes those that authors may write, and a URL only if
/// it has no protocol or a permitted one. `options.html` says what is done with all other HTML. The
/// text is read as HTML before it is returned, if the document has HTML. If it weren't safe, the
/// result would be the text of [`markdown`].
///
/// # Errors
///
/// Returns an error only if memory runs out.
///
/// # Examples
///
/// ```
/// let html = markdown_keeping_html(alloc, "H<sub>2</sub>O", &MarkdownOptions::default())?;
/// assert_eq!(html.as_str(), "<p>H<sub>2</sub>O</p>\n");
/// ```
pub fn markdown_keeping_html(
    alloc: Global,
    text: &str,
    options: &MarkdownOptions,
) -> Result<String, AllocError>
    ensures made { IfOk result (λ html. IsMadeOf options.now text.now (string_bytes html)
        ⊎ IsKeptOf options.now text.now (string_bytes html)) }
    ensures safe { IfOk result
        (λ html. IsSafeHtml link_protocols image_protocols (string_bytes html)) }
    ensures tokens { IfOk result (λ html. IsSafelyTokenized (string_bytes html)) }
    ensures contained { IfOk result (λ html. IsContained (string_bytes html)) }
    ensures tree { IfOk result (λ html. IsBuiltAsRead (string_bytes html)) }
    ensures nesting { IfOk result (λ html. NestsWithin max_depth (string_bytes html)) }
    ensures distinct_ids { IfOk result (λ html.
        options.now.number_ids ≡ true → HasDistinctIds (string_bytes html)) }
{
    let reading = with_html(alloc, options)?;
    let writer = events_of(alloc, text.as_bytes(), &reading)?;
    if !has_html(writer.events.as_slice(), text) {
        let html = compile_written(alloc, text, &writer, options)?;
        return copy_of(alloc, &html, options.number_ids);
    }
    if let Some(html) = kept_text(alloc, text, &writer, options)? {
        return Ok(html);
    }
    let html = markdown(alloc, text, options)?;
    copy_of(alloc, &html, options.number_ids)
}

/// Compiles a Markdown document to HTML as [`markdown_keeping_html`] does, if it is within limits:
/// the call for a server that accepts documents from strangers.
///
/// # Errors
///
/// The errors of [`markdown_within`]. The pieces of HTML that are kept belong to what is read.
///
/// # Examples
///
/// ```
/// let limits = Limits { text: 1 << 20, work: 1 << 23, depth: usize::MAX };
/// let html = markdown_keeping_html_within(alloc, "<b>a</b>", &options, limits)?;
/// ```
pub fn markdown_keeping_html_within(
    alloc: Global,
    text: &str,
    options: &MarkdownOptions,
    limits: Limits,
) -> Result<String, MarkdownWithinError>
    ensures within { IfOk result (λ html. length (string_bytes html) ≤ limits.text) }
    ensures made { IfOk result (λ html. IsMadeOf options.now text.now (string_bytes html)
        ⊎ IsKeptOf options.now text.now (string_bytes html)) }
    ensures safe { IfOk result
        (λ html. IsSafeHtml link_protocols image_protocols (string_bytes html)) }
    ensures tokens { IfOk result (λ html. IsSafelyTokenized (string_bytes html)) }
    ensures contained { IfOk result (λ html. IsContained (string_bytes html)) }
    ensures tree { IfOk result (λ html. IsBuiltAsRead (string_bytes html)) }
    ensures nesting { IfOk result (λ html. NestsWithin max_depth (string_bytes html)) }
    ensures distinct_ids { IfOk result (λ html.
        options.now.number_ids ≡ true → HasDistinctIds (string_bytes html)) }
{
    let reading = with_html(alloc, options)?;
    let writer = events_of(alloc, text.as_bytes(), &reading)?;
    if !has_html(writer.events.as_slice(), text) {
        let html = compile_written_within(alloc, text, &writer, options, limits)?;
        let copy = copy_of(alloc, &html, options.number_ids)?;
        return Ok(copy);
    }
    if let Some(html) = kept_text_within(alloc, text, &writer, options, limits)? {
        return Ok(html);
    }
    let html = markdown_within(alloc, text, options, limits)?;
    let copy = copy_of(alloc, &html, options.number_ids)?;
    Ok(copy)
}

/// A copy of a text of a document, which is built as it is read, nests no deeper than it may, and
/// has distinct ids if that is asked for.
fn copy_of(alloc: Global, html: &SafeHtml, number_ids: bool) -> Result<String, AllocError>
    requires tree { IsBuiltAsRead html.now }
    requires nesting { NestsWithin max_depth html.now }
    requires distinct_ids { number_ids ≡ true → HasDistinctIds html.now }
    ensures same { IfOk result (λ copy. string_bytes copy ≡ html.now) }
    ensures safe { IfOk result (λ copy. IsSafeText number_ids (string_bytes copy)) }
{
    compiled_text_is_accepted();
    let copy = String::from_str(alloc, html.as_str())?;
    Ok(copy)
}

/// The text of a document with the HTML of its authors, if this text is safe.
fn kept_text(
    alloc: Global,
    text: &str,
    writer: &Writer,
    options: &MarkdownOptions,
) -> Result<Option<String>, AllocError>
    ensures made { IfOk result
        (λ kept. IfSome kept (λ html. IsKeptOf options.now text.now (string_bytes html))) }
    ensures safe { IfOk result
        (λ kept. IfSome kept
        (λ html. IsSafeText options.now.number_ids (string_bytes html))) }
{
    let Some(found) = kept_events(alloc, text, writer, options)? else {
        return Ok(None);
    };
    let compile_options = for_kept(alloc, options)?;
    match compile(
        alloc,
        found.kept.events.as_slice(),
        found.whole.as_slice(),
        &compile_options,
        writer.names(),
    ) {
        Ok(html) => only_safe(alloc, html, options.number_ids),
        Err(CompileError::Memory) => Err(AllocError),
        Err(_) => Ok(None),
    }
}

/// The same if it is within limits.
fn kept_text_within(
    alloc: Global,
    text: &str,
    writer: &Writer,
    options: &MarkdownOptions,
    limits: Limits,
) -> Result<Option<String>, MarkdownWithinError>
    ensures within { IfOk result
        (λ kept. IfSome kept (λ html. length (string_bytes html) ≤ limits.text)) }
    ensures made { IfOk result
        (λ kept. IfSome kept (λ html. IsKeptOf options.now text.now (string_bytes html))) }
    ensures safe { IfOk result
        (λ kept. IfSome kept
        (λ html. IsSafeText options.now.number_ids (string_bytes html))) }
{
    let Some(found) = kept_events(alloc, text, writer, options)? else {
        return Ok(None);
    };
    let compile_options = for_kept(alloc, options)?;
    match compile_within(
        alloc,
        found.kept.events.as_slice(),
        found.whole.as_slice(),
        &compile_options,
        writer.names(),
        bounded(limits),
    ) {
        Ok(html) => {
            let kept = only_safe(alloc, html, options.number_ids)?;
            Ok(kept)
        }
        Err(error) => match of_limits(&error) {
            Some(cause) => Err(cause),
            None => Ok(None),
        },
    }
}

/// The events of a document with the HTML of its authors, and the bytes that they are over.
#[derive(Drop)]
struct Found {
    kept: Kept,
    whole: Vec<u8>,
}

/// The events of a document with the HTML of its authors, if each HTML in them is a piece that
/// authors may write.
fn kept_events(
    alloc: Global,
    text: &str,
    writer: &Writer,
    options: &MarkdownOptions,
) -> Result<Option<Found>, AllocError>
    ensures { IfOk result (λ found. IfSome found (λ some.
        HavePieces options.now text.now some.whole.items some.kept.events.items)) }
{
    let own = joined(
        alloc,
        text.as_bytes(),
        resolved(writer, options),
        ending(writer),
    )?;
    let kept = keep(
        alloc,
        writer.events.as_slice(),
        text,
        own.len(),
        options.html,
    )?;
    let whole = joined(alloc, own.as_slice(), kept.pieces.as_bytes(), b"")?;
    if !are_pieces(kept.events.as_slice(), whole.as_slice(), own.len()) {
        return Ok(None);
    }
    Ok(Some(Found { kept, whole }))
}

/// A text, if it is safe, and if that is asked for has distinct ids.
fn only_safe(alloc: Global, html: String, number_ids: bool) -> Result<Option<String>, AllocError>
    ensures same { IfOk result
        (λ kept. IfSome kept (λ safe. string_bytes safe ≡ string_bytes html)) }
    ensures safe { IfOk result
        (λ kept. IfSome kept (λ safe. IsSafeText number_ids (string_bytes safe))) }
{
    built_text_is_contained();
    if !is_safe_html(html.as_str().as_bytes()) {
        return Ok(None);
    }
    if number_ids && !is_safe_html_with_distinct_ids(alloc, html.as_str())? {
        return Ok(None);
    }
    Ok(Some(html))
}
