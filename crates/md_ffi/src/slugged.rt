//! Markdown whose headings get ids that are derived from their texts.

ghost use Rattle.md_abi.specs.Buffer.{HandsOver};
ghost use Rattle.md_markdown_abi.specs.Answers.{TellsOfMarkdown, IsOfMarkdown};
ghost use Rattle.md_markdown_abi.specs.Slugged.{IsSluggedText};

use md_abi::{Answer, hand_over_listed};
use md_markdown_abi::{CMarkdownOptions, answer_to_markdown, markdown_slugged};
use std::alloc::Global;

/// The same as [`bivdrazo_markdown_into`](crate::export::bivdrazo_markdown_into), with an `id` on
/// each heading that is derived from the heading's text, nearly as GitHub does.
///
/// If `heading_ids` is set, each of these ids begins with that text. If an id is taken, a hyphen
/// and a number follow it, from 1: so no two ids are equal, provided that no two of the text
/// without these are, as with `number_ids`. After the list of the headings follow their ids, in the
/// same order: a NUL and `#` before each. No clause says which ids these are.
///
/// # Statuses
///
/// The statuses of [`bivdrazo_markdown_into`](crate::export::bivdrazo_markdown_into).
#[unsafe(no_mangle)]
pub extern "C" fn bivdrazo_markdown_slugs_into(
    alloc: Global,
    text: &[u8],
    options: &CMarkdownOptions,
    buffer: &mut [u8],
) -> Answer
    // The text is that of the document, and safe, with these attributes; the lists follow.
    ensures text { HandsOver (IsSluggedText text.now options.now result.index)
        buffer.old buffer.new result }
    ensures told { TellsOfMarkdown text.now options.now result }
    ensures fields { IsOfMarkdown result }
{
    match markdown_slugged(alloc, text, options) {
        Ok(made) => hand_over_listed(made.whole.as_str(), made.start, buffer),
        Err(failure) => answer_to_markdown(&failure),
    }
}
