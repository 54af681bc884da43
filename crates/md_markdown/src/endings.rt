//! Line endings of a document.

ghost use Rattle.std.specs.Prelude.{◌≡◌, OnOk};
ghost use Rattle.md_writer.specs.Written.{IsLeafBehind};
ghost use Rattle.md_base.specs.declared.event.Name.TheVariants.{BlankLineEnding};

use md_base::Name;
use md_inlines::Writer;
use md_lines::{Span, after_ending, line_end};
use std::alloc::AllocError;

/// Writes a line ending at the end of a document, so that its text ends with one: the document's
/// last or first, or one of its own if the document has none.
pub(crate) fn write_last_ending(writer: &mut Writer, bytes: &[u8]) -> Result<(), AllocError>
    ensures { OnOk result
        (IsLeafBehind BlankLineEnding writer.old.events.items writer.new.events.items) }
{
    let ending = last_ending(writer, bytes);
    writer.leaf(Name::BlankLineEnding, ending.start, ending.end)
}

/// The range of a line ending: that at the document's end, or else its first, or else one that is
/// appended to it.
fn last_ending(writer: &mut Writer, bytes: &[u8]) -> Span
    ensures { writer.new.events.items ≡ writer.old.events.items }
{
    match last_or_first(bytes) {
        Some(ending) => ending,
        None => writer.add_ending(),
    }
}

/// The line ending at the end of a document, or else its first.
fn last_or_first(bytes: &[u8]) -> Option<Span> {
    let end = bytes.len();
    match bytes {
        [.., b'\r', b'\n'] => return Some(Span::new(end.saturating_sub(2), end)),
        [.., b'\r' | b'\n'] => return Some(Span::new(end.saturating_sub(1), end)),
        _ => {}
    }
    let start = line_end(bytes, 0);
    if start < end {
        Some(Span::new(start, after_ending(bytes, start)))
    } else {
        None
    }
}

/// The line ending of the line before that of an index.
pub(crate) fn ending_before(bytes: &[u8], start: usize) -> Option<(usize, usize)> {
    let before = bytes.get(..start)?;
    let at = before
        .iter()
        .rposition(|byte| matches!(*byte, b'\n' | b'\r'))?;
    let end = at.saturating_add(1);
    let is_pair = matches!(before.get(..end), Some([.., b'\r', b'\n']));
    let first = if is_pair { at.saturating_sub(1) } else { at };
    Some((first, end))
}
