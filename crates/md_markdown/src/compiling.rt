//! Compiles Markdown to HTML.

ghost use Rattle.std.specs.Prelude.{◌≡◌, ◌≤◌, ◌+◌, ◌*◌, ◌++◌, IfOk, IsTrue, true, length};
ghost use Rattle.std.specs.Prelude.{option_map, string_bytes};
ghost use Rattle.md_base.specs.Reference.{name_table};
ghost use Rattle.md_base.specs.Tree.{Forest};
ghost use Rattle.md_depth.specs.Levels.{NestsWithin};
ghost use Rattle.md_meaning.specs.Meaning.{meaning};
ghost use Rattle.md_safe.specs.Contents.{IsContained};
ghost use Rattle.md_text.specs.Html.{IsPrinted};
ghost use Rattle.md_safe.specs.Built.{IsBuiltAsRead};
ghost use Rattle.md_safe.specs.Options.{KeepsImages};
ghost use Rattle.md_safe.specs.Tokenized.{IsSafelyTokenized};
ghost use Rattle.md_text.specs.Ids.{HasDistinctIds};
ghost use Rattle.md_html.specs.MeasuredEvents.{handed_by};
ghost use Rattle.md_references.specs.Names.{are_html};
ghost use Rattle.md_writer.specs.Added.{AreAdded};
ghost use Rattle.md_blocks.specs.declared.options.MarkdownOptions.{MarkdownOptions};
ghost use Rattle.md_markdown.specs.Chosen.{AreChosenFor};
ghost use Rattle.md_markdown.specs.Made.{IsEnding, IsMadeOf};
ghost use Rattle.md_markdown.specs.Plain.{plain_text};
ghost use Rattle.md_markdown.specs.Depth.{most_depth};
ghost use Rattle.md_markdown.specs.Parsed.{IsShown, IsMadeOfEither};

use crate::error::{MarkdownWithinError, is_memory, of_limits};
use crate::events::write_events;
use crate::options::for_compiler;
use crate::plain::{Within, compile_plain, compile_plain_within};
use md_blocks::{MarkdownOptions, parse_blocks};
use md_html::{Limits, MeasuredEvents, SafeHtml, compile_safe, compile_safe_measured};
use md_inlines::Writer;
use md_text::CompileOptions;
use std::alloc::{AllocError, Global};

/// How deep the nodes of a document may nest: its elements then nest at most 485 deep. Browsers
/// flatten elements beyond a depth of 512, of which the elements that contain the text take 27,
/// `html` and `body` among them.
pub const MAX_DEPTH: usize = 240;

/// Compiles a Markdown document to HTML that is safe to insert into a page: it has one reading in
/// the HTML grammar, in which each link and each image has no protocol or a permitted one, and
/// which fulfils the content model; wherever flow content may be inserted, the HTML Standard's tree
/// construction builds the tree of its reading.
///
/// Each document has a text. If the compiler refused the parser's events, or a link contained a
/// link there, or they nested deeper than [`MAX_DEPTH`], which would be a fault of this crate and
/// of which no document is known, the text would be one paragraph with all characters of the
/// document.
///
/// # Errors
///
/// Returns an error only if memory runs out.
///
/// # Examples
///
/// ```
/// let html = markdown(alloc, "**a** <b>", &MarkdownOptions::default())?;
/// assert_eq!(html.as_str(), "<p><strong>a</strong> &lt;b&gt;</p>\n");
/// ```
pub fn markdown(
    alloc: Global,
    text: &str,
    options: &MarkdownOptions,
) -> Result<SafeHtml, AllocError>
    ensures made { IfOk result (IsMadeOf options.now text.now) }
    ensures tokens { IfOk result IsSafelyTokenized }
    ensures printed { IfOk result IsPrinted }
    ensures contained { IfOk result IsContained }
    ensures tree { IfOk result IsBuiltAsRead }
    ensures nesting { IfOk result (NestsWithin (2 * most_depth + 5)) }
    ensures distinct_ids { IfOk result
        (λ html. options.now.number_ids ≡ true → HasDistinctIds html) }
{
    let writer = events_of(alloc, text.as_bytes(), options)?;
    compile_written(alloc, text, &writer, options)
}

/// The HTML of a document whose events a writer has.
pub(crate) fn compile_written(
    alloc: Global,
    text: &str,
    writer: &Writer,
    options: &MarkdownOptions,
) -> Result<SafeHtml, AllocError>
    ensures made { IfOk result (IsMadeOf options.now text.now) }
    ensures tokens { IfOk result IsSafelyTokenized }
    ensures printed { IfOk result IsPrinted }
    ensures contained { IfOk result IsContained }
    ensures tree { IfOk result IsBuiltAsRead }
    ensures nesting { IfOk result (NestsWithin (2 * most_depth + 5)) }
    ensures distinct_ids { IfOk result
        (λ html. options.now.number_ids ≡ true → HasDistinctIds html) }
{
    let bytes = text.as_bytes();
    let compile_options = for_compiler(alloc, options)?;
    if writer.added.is_empty() && !writer.has_ending {
        return compile_or_plain(alloc, &measured_of(writer, bytes), text, &compile_options);
    }
    let whole = joined(alloc, bytes, resolved(writer, options), ending(writer))?;
    compile_or_plain(
        alloc,
        &measured_of(writer, whole.as_slice()),
        text,
        &compile_options,
    )
}

/// Compiles a Markdown document to HTML as [`markdown`] does, if it is within limits: the call for
/// a server that accepts documents from strangers.
///
/// # Errors
///
/// [`MarkdownWithinError::TooMuch`] if the work or the reuse exceeds `limits.work`;
/// [`MarkdownWithinError::TooLong`] if the text has more than `limits.text` bytes; or that memory
/// runs out. No clause says when these occur. A document that nests deeper than `limits.depth` is
/// no error: it is shown as it is written.
///
/// # Examples
///
/// ```
/// let limits = Limits { text: 1 << 20, work: 1 << 23, depth: usize::MAX };
/// let html = markdown_within(alloc, "*a*", &MarkdownOptions::default(), limits)?;
/// ```
pub fn markdown_within(
    alloc: Global,
    text: &str,
    options: &MarkdownOptions,
    limits: Limits,
) -> Result<SafeHtml, MarkdownWithinError>
    ensures within { IfOk result (λ html. length html ≤ limits.text) }
    ensures made { IfOk result (IsMadeOf options.now text.now) }
    ensures tokens { IfOk result IsSafelyTokenized }
    ensures printed { IfOk result IsPrinted }
    ensures contained { IfOk result IsContained }
    ensures tree { IfOk result IsBuiltAsRead }
    ensures nesting { IfOk result (NestsWithin (2 * most_depth + 5)) }
    ensures distinct_ids { IfOk result
        (λ html. options.now.number_ids ≡ true → HasDistinctIds html) }
{
    let writer = events_of(alloc, text.as_bytes(), options)?;
    compile_written_within(alloc, text, &writer, options, limits)
}

/// The HTML of a document whose events a writer has, if it is within limits.
pub(crate) fn compile_written_within(
    alloc: Global,
    text: &str,
    writer: &Writer,
    options: &MarkdownOptions,
    limits: Limits,
) -> Result<SafeHtml, MarkdownWithinError>
    ensures within { IfOk result (λ html. length html ≤ limits.text) }
    ensures made { IfOk result (IsMadeOf options.now text.now) }
    ensures tokens { IfOk result IsSafelyTokenized }
    ensures printed { IfOk result IsPrinted }
    ensures contained { IfOk result IsContained }
    ensures tree { IfOk result IsBuiltAsRead }
    ensures nesting { IfOk result (NestsWithin (2 * most_depth + 5)) }
    ensures distinct_ids { IfOk result
        (λ html. options.now.number_ids ≡ true → HasDistinctIds html) }
{
    let bytes = text.as_bytes();
    let compile_options = for_compiler(alloc, options)?;
    let within = Within {
        options: &compile_options,
        limits: bounded(limits),
    };
    if writer.added.is_empty() && !writer.has_ending {
        return compile_or_plain_within(alloc, &measured_of(writer, bytes), text, &within);
    }
    let whole = joined(alloc, bytes, resolved(writer, options), ending(writer))?;
    compile_or_plain_within(alloc, &measured_of(writer, whole.as_slice()), text, &within)
}

/// Limits that let nodes nest no deeper than [`MAX_DEPTH`].
pub(crate) fn bounded(limits: Limits) -> Limits
    ensures text { result.text ≡ limits.text }
    ensures depth { result.depth ≤ most_depth }
{
    Limits {
        depth: limits.depth.min(MAX_DEPTH),
        ..limits
    }
}

/// The events of a writer, over bytes.
fn measured_of<'a>(writer: &'a Writer, bytes: &'a [u8]) -> MeasuredEvents<'a>
    ensures bytes { result.bytes.now ≡ bytes.now }
    ensures html { IsTrue (are_html (name_table result.names.now)) }
    ensures events { result.events.now ≡ writer.now.events.items }
{
    MeasuredEvents {
        events: writer.events.as_slice(),
        bytes,
        names: writer.names(),
        measure: writer.measure,
    }
}

/// The HTML of the parser's result, if it is a document of the event grammar in which no link
/// contains a link, and nests no deeper than [`MAX_DEPTH`]; else that of the document as it is
/// written.
fn compile_or_plain(
    alloc: Global,
    parsed: &MeasuredEvents,
    text: &str,
    options: &CompileOptions,
) -> Result<SafeHtml, AllocError>
    requires safe { KeepsImages options.now }
    requires html { IsTrue (are_html (name_table parsed.now.names.now)) }
    ensures kept { IfOk result (λ html. (document : Forest)
        → IsShown (handed_by parsed.now) most_depth document
        → html ≡ meaning options.now (handed_by parsed.now).names parsed.now.bytes.now document) }
    ensures plain { IfOk result (λ html. ((document : Forest)
        → IsShown (handed_by parsed.now) most_depth document → ⊥)
        → html ≡ plain_text text.now) }
    ensures made { IfOk result (λ html. (markdown : MarkdownOptions)
        → AreChosenFor markdown options.now
        → IsMadeOfEither markdown parsed.now.bytes.now text.now html) }
    ensures tokens { IfOk result IsSafelyTokenized }
    ensures printed { IfOk result IsPrinted }
    ensures contained { IfOk result IsContained }
    ensures tree { IfOk result IsBuiltAsRead }
    ensures nesting { IfOk result (NestsWithin (2 * most_depth + 5)) }
    ensures distinct_ids { IfOk result
        (λ html. options.now.gfm_footnote_number_ids ≡ true → HasDistinctIds html) }
{
    if parsed.measure.depth() > MAX_DEPTH || parsed.measure.has_nested_link() {
        return compile_plain(alloc, text, options);
    }
    match compile_safe(alloc, parsed.events, parsed.bytes, options, parsed.names) {
        Ok(html) => Ok(html),
        Err(error) if is_memory(&error) => Err(AllocError),
        Err(_) => compile_plain(alloc, text, options),
    }
}

/// The same if it is within limits.
fn compile_or_plain_within(
    alloc: Global,
    parsed: &MeasuredEvents,
    text: &str,
    within: &Within,
) -> Result<SafeHtml, MarkdownWithinError>
    requires safe { KeepsImages within.now.options.now }
    requires html { IsTrue (are_html (name_table parsed.now.names.now)) }
    requires depth { within.now.limits.depth ≤ most_depth }
    ensures within { IfOk result (λ html. length html ≤ within.now.limits.text) }
    ensures kept { IfOk result (λ html. (document : Forest)
        → IsShown (handed_by parsed.now) within.now.limits.depth document
        → html ≡ meaning within.now.options.now (handed_by parsed.now).names parsed.now.bytes.now
        document) }
    ensures plain { IfOk result (λ html. ((document : Forest)
        → IsShown (handed_by parsed.now) within.now.limits.depth document → ⊥)
        → html ≡ plain_text text.now) }
    ensures made { IfOk result (λ html. (markdown : MarkdownOptions)
        → AreChosenFor markdown within.now.options.now
        → IsMadeOfEither markdown parsed.now.bytes.now text.now html) }
    ensures tokens { IfOk result IsSafelyTokenized }
    ensures printed { IfOk result IsPrinted }
    ensures contained { IfOk result IsContained }
    ensures tree { IfOk result IsBuiltAsRead }
    ensures nesting { IfOk result (NestsWithin (2 * most_depth + 5)) }
    ensures distinct_ids { IfOk result
        (λ html. within.now.options.now.gfm_footnote_number_ids ≡ true → HasDistinctIds html) }
{
    if parsed.measure.has_nested_link() {
        return compile_plain_within(alloc, text, within);
    }
    match compile_safe_measured(alloc, parsed, within.options, within.limits) {
        Ok(html) => Ok(html),
        Err(error) => match of_limits(&error) {
            Some(cause) => Err(cause),
            None => compile_plain_within(alloc, text, within),
        },
    }
}

/// The resolved URLs to append to a document, which has the base against which they were resolved.
pub(crate) fn resolved<'a>(writer: &'a Writer, options: &MarkdownOptions) -> &'a [u8]
    ensures { AreAdded (option_map string_bytes options.now.base) result.now }
{
    match (writer.added.base(), &options.base) {
        (Some(base), Some(own)) if base == own.as_str() => writer.added.as_slice(),
        _ => b"",
    }
}

/// The line ending to append to a document, if it needs one.
pub(crate) fn ending(writer: &Writer) -> &'static [u8]
    ensures { IsEnding result.now }
{
    if writer.has_ending { b"\n" } else { b"" }
}

/// The bytes of a document, and those appended to it.
pub(crate) fn joined(
    alloc: Global,
    document: &[u8],
    urls: &[u8],
    ending: &[u8],
) -> Result<Vec<u8>, AllocError>
    ensures { IfOk result
        (λ whole. whole.items ≡ document.now ++ (urls.now ++ ending.now)) }
{
    let added = urls.len().saturating_add(ending.len());
    let mut whole = Vec::with_capacity(alloc, document.len().saturating_add(added))?;
    whole.extend_from_slice(document)?;
    whole.extend_from_slice(urls)?;
    whole.extend_from_slice(ending)?;
    Ok(whole)
}

/// Parses a document: its events, the names of its character references, and the bytes that the
/// events need after the document's.
///
/// # Errors
///
/// Returns an error only if memory runs out.
pub fn events_of<'a>(
    alloc: Global,
    bytes: &[u8],
    options: &'a MarkdownOptions,
) -> Result<Writer<'a>, AllocError> {
    let blocks = parse_blocks(alloc, bytes, options)?;
    let base = match &options.base {
        Some(base) => Some(base.as_str()),
        None => None,
    };
    let mut writer = Writer::new(alloc, bytes.len(), base);
    // Documents that people write have an event for about every six bytes.
    writer.reserve((bytes.len() / 4).saturating_add(64))?;
    write_events(alloc, bytes, &blocks, options, &mut writer)?;
    Ok(writer)
}
