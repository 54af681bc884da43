//! A document that is shown as it is written.

ghost use Rattle.std.specs.Prelude.{◌≡◌, ◌≤◌, ◌+◌, ◌*◌, IfOk, true, length};
ghost use Rattle.md_base.specs.Tree.{flatten};
ghost use Rattle.md_safe.specs.Built.{IsBuiltAsRead};
ghost use Rattle.md_safe.specs.Contents.{IsContained};
ghost use Rattle.md_text.specs.Html.{IsPrinted};
ghost use Rattle.md_safe.specs.Options.{KeepsImages};
ghost use Rattle.md_safe.specs.Tokenized.{IsSafelyTokenized};
ghost use Rattle.md_text.specs.Ids.{HasDistinctIds};
ghost use Rattle.md_depth.specs.Levels.{NestsWithin};
ghost use Rattle.md_blocks.specs.declared.options.MarkdownOptions.{MarkdownOptions};
ghost use Rattle.md_markdown.specs.Chosen.{AreChosenFor};
ghost use Rattle.md_markdown.specs.Depth.{most_depth};
ghost use Rattle.md_markdown.specs.Made.{IsMadeOver};
ghost use Rattle.md_markdown.specs.Plain.{at, plain, plain_text};

use crate::compiling::MAX_DEPTH;
use crate::error::{MarkdownWithinError, is_memory, of_limits};
use md_base::{Event, Kind, Name, Point};
use md_html::{Limits, MeasuredEvents, SafeHtml, compile_safe, compile_safe_measured};
use md_text::CompileOptions;
use std::alloc::{AllocError, Global};

/// The compiler's options, and limits.
#[derive(Clone, Copy)]
pub(crate) struct Within<'a> {
    pub(crate) options: &'a CompileOptions,
    pub(crate) limits: Limits,
}

/// The HTML of a document that is shown as it is written: one paragraph with its whole text.
///
/// # Errors
///
/// Returns an error only if memory runs out.
pub(crate) fn compile_plain(
    alloc: Global,
    text: &str,
    options: &CompileOptions,
) -> Result<SafeHtml, AllocError>
    requires safe { KeepsImages options.now }
    ensures text { IfOk result (λ html. html ≡ plain_text text.now) }
    ensures made { IfOk result (λ html. (markdown : MarkdownOptions)
        → AreChosenFor markdown options.now → IsMadeOver markdown text.now html) }
    ensures tokens { IfOk result IsSafelyTokenized }
    ensures printed { IfOk result IsPrinted }
    ensures contained { IfOk result IsContained }
    ensures tree { IfOk result IsBuiltAsRead }
    ensures nesting { IfOk result (NestsWithin (2 * most_depth + 5)) }
    ensures distinct_ids { IfOk result
        (λ html. options.now.gfm_footnote_number_ids ≡ true → HasDistinctIds html) }
{
    let events = plain_events(text.len());
    match compile_safe(alloc, &events, text.as_bytes(), options, &[]) {
        Ok(html) => Ok(html),
        Err(error) if is_memory(&error) => Err(AllocError),
        Err(_) => unreachable!(),
    }
}

/// The same if it is within limits.
///
/// # Errors
///
/// [`MarkdownWithinError::TooMuch`] if the work of the text exceeds the limit,
/// [`MarkdownWithinError::TooLong`] if its length does, or that memory runs out.
pub(crate) fn compile_plain_within(
    alloc: Global,
    text: &str,
    within: &Within,
) -> Result<SafeHtml, MarkdownWithinError>
    requires safe { KeepsImages within.now.options.now }
    ensures within { IfOk result (λ html. length html ≤ within.now.limits.text) }
    ensures text { IfOk result (λ html. html ≡ plain_text text.now) }
    ensures made { IfOk result (λ html. (markdown : MarkdownOptions)
        → AreChosenFor markdown within.now.options.now → IsMadeOver markdown text.now html) }
    ensures tokens { IfOk result IsSafelyTokenized }
    ensures printed { IfOk result IsPrinted }
    ensures contained { IfOk result IsContained }
    ensures tree { IfOk result IsBuiltAsRead }
    ensures nesting { IfOk result (NestsWithin (2 * most_depth + 5)) }
    ensures distinct_ids { IfOk result
        (λ html. within.now.options.now.gfm_footnote_number_ids ≡ true → HasDistinctIds html) }
{
    let events = plain_events(text.len());
    let measured = MeasuredEvents::new(&events, text.as_bytes(), &[]);
    let limits = Limits {
        depth: MAX_DEPTH,
        ..within.limits
    };
    match compile_safe_measured(alloc, &measured, within.options, limits) {
        Ok(html) => Ok(html),
        Err(error) => match of_limits(&error) {
            Some(cause) => Err(cause),
            None => unreachable!(),
        },
    }
}

/// The events of one paragraph, whose text is a document of `size` bytes.
pub(crate) fn plain_events(size: usize) -> [Event; 4]
    ensures { result ≡ flatten (plain size) }
{
    let start = point_at(0);
    let end = point_at(size);
    [
        event(Kind::Enter, Name::Paragraph, start),
        event(Kind::Enter, Name::Data, start),
        event(Kind::Exit, Name::Data, end),
        event(Kind::Exit, Name::Paragraph, end),
    ]
}

/// An event at a point.
fn event(kind: Kind, name: Name, point: Point) -> Event
    ensures kind { result.kind ≡ kind }
    ensures name { result.name ≡ name }
    ensures point { result.point ≡ point }
{
    Event { kind, name, point }
}

/// The point after `index` bytes.
fn point_at(index: usize) -> Point
    ensures { result ≡ at index }
{
    Point {
        line: 1,
        column: 1,
        index,
        vs: 0,
    }
}
