//! Cleans HTML for C.

ghost use Rattle.md_abi.specs.Buffer.{HandsOver};
ghost use Rattle.md_clean_abi.specs.Text.{IsCleanText};

use md_abi::{Answer, hand_over};
use md_clean_abi::{CCleanOptions, clean_given};
use md_markdown_abi::answer_to_markdown;
use std::alloc::Global;

/// Cleans HTML that anyone wrote, and writes to a buffer safe HTML: the listed elements and
/// attributes of the input stay, the rest is left out.
///
/// Its four parameters are those of the call in C, which has five in the same order: none for
/// `alloc`, one for `options`, and two for each of the slices. [`bivdrazo_compile`] describes the
/// arguments of a C caller.
///
/// [`bivdrazo_compile`]: crate::export::bivdrazo_compile
///
/// # Statuses
///
/// - 0: the text is in the buffer's first `length` bytes; the rest of the buffer is unchanged.
/// - 1: the buffer is too short. It is unchanged, and `length` is the length of the text: call
///   again with at least that much.
/// - 35: the options have another version than 4.
/// - 5: the option with the number `index` isn't valid: `tags` has 0, `protocols` 1.
/// - 32: the input has `length` bytes, more than `max_input`.
/// - 34: the input isn't UTF-8 from the byte at `index`.
/// - 33: the text is longer than `max_output`.
/// - 7: memory ran out.
///
/// With all statuses except 0 the buffer is unchanged.
#[unsafe(no_mangle)]
pub extern "C" fn bivdrazo_clean_into(
    alloc: Global,
    html: &[u8],
    options: &CCleanOptions,
    buffer: &mut [u8],
) -> Answer
    // The text is safe, and has only what the options let stay.
    ensures text { HandsOver (IsCleanText options.now) buffer.old buffer.new result }
{
    match clean_given(alloc, html, options) {
        Ok(text) => hand_over(text.as_str(), buffer),
        Err(failure) => answer_to_markdown(&failure),
    }
}
