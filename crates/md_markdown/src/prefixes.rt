//! Writes the events before the first block in an item or in a footnote.

use md_base::Name;
use md_inlines::Writer;
use md_lines::Span;
use std::alloc::AllocError;

/// Enters an item that begins with a number of so many digits, which is used if the item is its
/// list's first.
pub(crate) fn write_item_start(
    writer: &mut Writer,
    start: usize,
    digits: u8,
    is_first: bool,
) -> Result<(), AllocError> {
    let marker = start.saturating_add(usize::from(digits));
    let after = marker.saturating_add(1);
    writer.enter(Name::ListItem, start)?;
    writer.enter(Name::ListItemPrefix, start)?;
    if is_first && digits > 0 {
        writer.leaf(Name::ListItemValue, start, marker)?;
    }
    writer.leaf(Name::ListItemMarker, marker, after)?;
    writer.exit(Name::ListItemPrefix, after)
}

/// Writes a box, `[ ]` or `[x]`, and the space after it. If an item of a tight list has nothing
/// else, they are a paragraph, so that no line ending follows.
pub(crate) fn write_task(
    writer: &mut Writer,
    is_checked: bool,
    start: usize,
    is_alone: bool,
) -> Result<(), AllocError> {
    if !is_alone {
        return write_box(writer, is_checked, start);
    }
    writer.enter(Name::Paragraph, start)?;
    write_box(writer, is_checked, start)?;
    writer.exit(Name::Paragraph, start.saturating_add(4))
}

/// Writes a box and the space after it.
fn write_box(writer: &mut Writer, is_checked: bool, start: usize) -> Result<(), AllocError> {
    let after = start.saturating_add(3);
    writer.enter(Name::GfmTaskListItemCheck, start)?;
    if is_checked {
        let mark = start.saturating_add(1);
        writer.leaf(
            Name::GfmTaskListItemValueChecked,
            mark,
            mark.saturating_add(1),
        )?;
    }
    writer.exit(Name::GfmTaskListItemCheck, after)?;
    writer.leaf(Name::Data, after, after.saturating_add(1))
}

/// Enters the definition of a footnote.
pub(crate) fn write_footnote_start(writer: &mut Writer, label: Span) -> Result<(), AllocError> {
    let start = label.start.saturating_sub(2);
    writer.enter(Name::GfmFootnoteDefinition, start)?;
    writer.enter(Name::GfmFootnoteDefinitionPrefix, start)?;
    writer.leaf(
        Name::GfmFootnoteDefinitionLabelString,
        label.start,
        label.end,
    )?;
    writer.exit(
        Name::GfmFootnoteDefinitionPrefix,
        label.end.saturating_add(2),
    )
}
