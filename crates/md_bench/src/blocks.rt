//! What stands in a document: paragraphs, headings, code, lists, tables and the like.

use crate::draft::Draft;
use crate::spans::{MARKER, code, emphasis, image, line, link, link_to, name, span, strong};
use md_html::Name;

/// Names of a parser that this compiler passes over.
const QUOTE_MARKER: Name = Name::Other(3);

const FENCE_SEQUENCE: Name = Name::Other(8);

const DEFINITION_DESTINATION: Name = Name::Other(10);

const DEFINITION_DESTINATION_RAW: Name = Name::Other(13);

const DEFINITION_LABEL: Name = Name::Other(14);

const DEFINITION_LABEL_MARKER: Name = Name::Other(15);

const DEFINITION_MARKER: Name = Name::Other(16);

const DEFINITION_TITLE: Name = Name::Other(17);

const DEFINITION_TITLE_MARKER: Name = Name::Other(18);

const NOTE_LABEL: Name = Name::Other(26);

const NOTE_LABEL_MARKER: Name = Name::Other(27);

const NOTE_MARKER: Name = Name::Other(28);

const CELL_DIVIDER: Name = Name::Other(31);

const CELL_TEXT: Name = Name::Other(32);

const DELIMITER_CELL: Name = Name::Other(33);

const DELIMITER_FILLER: Name = Name::Other(34);

const SETEXT: Name = Name::Other(37);

const SETEXT_UNDERLINE: Name = Name::Other(38);

const BREAK_SEQUENCE: Name = Name::Other(57);

/// What stands before the later lines of a block.
#[derive(Clone, Copy)]
pub enum Margin {
    Nothing,
    /// As many spaces as the content of an item or a footnote is indented by.
    Spaces(&'static [u8]),
    /// The mark of a block quote.
    Quote,
}

/// The margin of a line.
pub fn indent(draft: &mut Draft<'_>, margin: Margin) {
    match margin {
        Margin::Nothing => {}
        Margin::Spaces(spaces) => draft.leaf(Name::SpaceOrTab, spaces),
        Margin::Quote => quote_prefix(draft),
    }
}

pub fn quote_prefix(draft: &mut Draft<'_>) {
    draft.enter(Name::BlockQuotePrefix);
    draft.leaf(QUOTE_MARKER, b">");
    draft.leaf(Name::SpaceOrTab, b" ");
    draft.exit(Name::BlockQuotePrefix);
}

/// A paragraph of so many lines, of which about one in `plain` has spans.
pub fn paragraph(draft: &mut Draft<'_>, count: usize, margin: Margin, plain: usize) {
    draft.enter(Name::Paragraph);
    line(draft, plain);
    for _ in 1..count {
        if draft.random.once_in(40) {
            draft.leaf(Name::HardBreakTrailing, b"  ");
        }
        draft.line_ending();
        indent(draft, margin);
        line(draft, plain);
    }
    draft.exit(Name::Paragraph);
}

/// A heading between `#` and the line's end.
pub fn heading(draft: &mut Draft<'_>, level: usize) {
    draft.enter(Name::HeadingAtx);
    draft.leaf(
        Name::HeadingAtxSequence,
        b"######".get(..level).unwrap_or(b"##"),
    );
    draft.leaf(Name::SpaceOrTab, b" ");
    draft.enter(Name::HeadingAtxText);
    if draft.random.once_in(6) {
        draft.data(b"", 24, b" ");
        code(draft);
    } else {
        draft.data(b"", 36, b"");
    }
    draft.exit(Name::HeadingAtxText);
    draft.exit(Name::HeadingAtx);
}

/// A heading that is underlined.
pub fn setext_heading(draft: &mut Draft<'_>) {
    draft.enter(SETEXT);
    draft.enter(Name::HeadingSetextText);
    draft.data(b"", 30, b"");
    draft.exit(Name::HeadingSetextText);
    draft.line_ending();
    draft.enter(SETEXT_UNDERLINE);
    draft.leaf(Name::HeadingSetextUnderlineSequence, b"----------");
    draft.exit(SETEXT_UNDERLINE);
    draft.exit(SETEXT);
}

pub fn thematic_break(draft: &mut Draft<'_>) {
    draft.enter(Name::ThematicBreak);
    draft.leaf(BREAK_SEQUENCE, b"***");
    draft.exit(Name::ThematicBreak);
}

/// Code of so many lines between fences.
pub fn fenced_code(draft: &mut Draft<'_>, count: usize, margin: Margin) {
    draft.enter(Name::CodeFenced);
    draft.enter(Name::CodeFencedFence);
    draft.leaf(FENCE_SEQUENCE, b"```");
    if !draft.random.once_in(4) {
        draft.enter(Name::CodeFencedFenceInfo);
        draft.leaf(Name::Data, b"rust");
        draft.exit(Name::CodeFencedFenceInfo);
    }
    draft.exit(Name::CodeFencedFence);
    for _ in 0..count {
        draft.line_ending();
        indent(draft, margin);
        code_line(draft);
    }
    draft.line_ending();
    indent(draft, margin);
    draft.enter(Name::CodeFencedFence);
    draft.leaf(FENCE_SEQUENCE, b"```");
    draft.exit(Name::CodeFencedFence);
    draft.exit(Name::CodeFenced);
}

/// A line of code, which may be empty.
fn code_line(draft: &mut Draft<'_>) {
    let line = draft.random.pick(draft.lines.code);
    if !line.is_empty() {
        draft.leaf(Name::CodeFlowChunk, line);
    }
}

/// Code of so many lines that are indented.
pub fn indented_code(draft: &mut Draft<'_>, count: usize) {
    draft.enter(Name::CodeIndented);
    draft.leaf(Name::SpaceOrTab, b"    ");
    draft.leaf(Name::CodeFlowChunk, b"$ cat list.txt");
    for _ in 1..count {
        draft.line_ending();
        draft.leaf(Name::SpaceOrTab, b"    ");
        code_line(draft);
    }
    draft.exit(Name::CodeIndented);
}

/// HTML of so many lines.
pub fn html_block(draft: &mut Draft<'_>, count: usize) {
    draft.enter(Name::HtmlFlow);
    for number in 0..count {
        if number > 0 {
            draft.line_ending();
        }
        let line = draft.random.pick(draft.lines.html);
        draft.leaf(Name::HtmlFlowData, line);
    }
    draft.exit(Name::HtmlFlow);
}

/// A block quote with a paragraph of so many lines.
pub fn quote(draft: &mut Draft<'_>, count: usize) {
    draft.enter(Name::BlockQuote);
    quote_prefix(draft);
    paragraph(draft, count, Margin::Quote, 3);
    draft.exit(Name::BlockQuote);
}

/// A list of so many items, up to the line ending in the last of them. Blank lines stand between the items of a loose
/// list.
pub fn list(draft: &mut Draft<'_>, count: usize, is_loose: bool, nests: bool) {
    draft.enter(Name::ListUnordered);
    for number in 0..count {
        if number > 0 {
            between_items(draft, is_loose);
        }
        draft.enter(Name::ListItem);
        item_prefix(draft);
        let lines = draft.random.between(1, 3);
        paragraph(draft, lines, Margin::Spaces(b"  "), 2);
        if nests && draft.random.once_in(3) {
            draft.line_ending();
            inner_list(draft);
        }
    }
    draft.line_ending();
    draft.exit(Name::ListItem);
    draft.exit(Name::ListUnordered);
}

/// An item ends, and what stands before the next one.
fn between_items(draft: &mut Draft<'_>, is_loose: bool) {
    if is_loose {
        draft.line_ending();
        draft.exit(Name::ListItem);
        draft.leaf(Name::BlankLineEnding, b"\n");
    } else {
        draft.exit(Name::ListItem);
        draft.line_ending();
    }
}

pub fn item_prefix(draft: &mut Draft<'_>) {
    draft.enter(Name::ListItemPrefix);
    draft.leaf(Name::ListItemMarker, b"-");
    draft.leaf(Name::SpaceOrTab, b" ");
    draft.exit(Name::ListItemPrefix);
}

/// A tight list in an item.
fn inner_list(draft: &mut Draft<'_>) {
    let count = draft.random.between(2, 5);
    draft.leaf(Name::SpaceOrTab, b"  ");
    draft.enter(Name::ListUnordered);
    for number in 0..count {
        if number > 0 {
            draft.line_ending();
            draft.leaf(Name::SpaceOrTab, b"  ");
        }
        draft.enter(Name::ListItem);
        item_prefix(draft);
        paragraph(draft, 1, Margin::Nothing, 3);
        draft.exit(Name::ListItem);
    }
    draft.exit(Name::ListUnordered);
}

/// A tight list of so many items with numbers, of which some hold code.
pub fn numbered_list(draft: &mut Draft<'_>, count: usize) {
    draft.enter(Name::ListOrdered);
    for number in 0..count {
        if number > 0 {
            between_items(draft, false);
        }
        draft.enter(Name::ListItem);
        numbered_prefix(draft, number);
        paragraph(draft, 1, Margin::Nothing, 2);
        if draft.random.once_in(5) {
            draft.line_ending();
            draft.leaf(Name::SpaceOrTab, b"   ");
            fenced_code(draft, 3, Margin::Spaces(b"   "));
        }
    }
    draft.line_ending();
    draft.exit(Name::ListItem);
    draft.exit(Name::ListOrdered);
}

fn numbered_prefix(draft: &mut Draft<'_>, number: usize) {
    draft.enter(Name::ListItemPrefix);
    draft.enter(Name::ListItemValue);
    draft.number(number.saturating_add(1));
    draft.exit(Name::ListItemValue);
    draft.leaf(Name::ListItemMarker, b".");
    draft.leaf(Name::SpaceOrTab, b" ");
    draft.exit(Name::ListItemPrefix);
}

/// A table of so many columns and rows.
pub fn table(draft: &mut Draft<'_>, columns: usize, rows: usize) {
    draft.enter(Name::GfmTable);
    draft.enter(Name::GfmTableHead);
    row(draft, columns, true);
    draft.line_ending();
    delimiter_row(draft, columns);
    draft.exit(Name::GfmTableHead);
    draft.line_ending();
    draft.enter(Name::GfmTableBody);
    row(draft, columns, false);
    for _ in 1..rows {
        draft.line_ending();
        row(draft, columns, false);
    }
    draft.exit(Name::GfmTableBody);
    draft.exit(Name::GfmTable);
}

fn row(draft: &mut Draft<'_>, columns: usize, is_head: bool) {
    draft.enter(Name::GfmTableRow);
    for column in 1..columns {
        open_cell(draft);
        cell_text(draft, is_head, column);
        close_cell(draft);
        draft.exit(Name::GfmTableCell);
    }
    open_cell(draft);
    cell_text(draft, is_head, 0);
    close_cell(draft);
    draft.leaf(CELL_DIVIDER, b"|");
    draft.exit(Name::GfmTableCell);
    draft.exit(Name::GfmTableRow);
}

fn open_cell(draft: &mut Draft<'_>) {
    draft.enter(Name::GfmTableCell);
    draft.leaf(CELL_DIVIDER, b"|");
    draft.leaf(Name::SpaceOrTab, b" ");
    draft.enter(CELL_TEXT);
}

fn close_cell(draft: &mut Draft<'_>) {
    draft.exit(CELL_TEXT);
    draft.leaf(Name::SpaceOrTab, b" ");
}

/// What stands in a cell: words, a number, code, a link or the like.
fn cell_text(draft: &mut Draft<'_>, is_head: bool, column: usize) {
    if is_head {
        return draft.data(b"", 16, b"");
    }
    match draft.random.below(8).wrapping_add(column % 2) {
        0 => code(draft),
        1 => link(draft),
        2 => strong(draft),
        3..=4 => count_cell(draft),
        5 => code(draft),
        6 if draft.links > 0 => {
            let number = draft.random.below(draft.links);
            link_to(draft, number);
        }
        _ => draft.data(b"", 24, b""),
    }
}

/// A number with a unit.
fn count_cell(draft: &mut Draft<'_>) {
    let number = draft.random.below(10_000);
    draft.enter(Name::Data);
    draft.number(number);
    draft.put(b" ms");
    draft.exit(Name::Data);
}

fn delimiter_row(draft: &mut Draft<'_>, columns: usize) {
    draft.enter(Name::GfmTableDelimiterRow);
    for _ in 1..columns {
        draft.enter(DELIMITER_CELL);
        delimiter(draft);
        draft.exit(DELIMITER_CELL);
    }
    draft.enter(DELIMITER_CELL);
    delimiter(draft);
    draft.leaf(CELL_DIVIDER, b"|");
    draft.exit(DELIMITER_CELL);
    draft.exit(Name::GfmTableDelimiterRow);
}

fn delimiter(draft: &mut Draft<'_>) {
    let way = draft.random.below(4);
    draft.leaf(CELL_DIVIDER, b"|");
    draft.enter(Name::GfmTableDelimiterCellValue);
    if way & 1 != 0 {
        draft.leaf(Name::GfmTableDelimiterMarker, b":");
    }
    draft.leaf(DELIMITER_FILLER, b"-----");
    if way & 2 != 0 {
        draft.leaf(Name::GfmTableDelimiterMarker, b":");
    }
    draft.exit(Name::GfmTableDelimiterCellValue);
}

/// The definition of a link with this number, with a title now and then.
pub fn definition(draft: &mut Draft<'_>, number: usize) {
    draft.enter(Name::Definition);
    draft.enter(DEFINITION_LABEL);
    draft.leaf(DEFINITION_LABEL_MARKER, b"[");
    draft.enter(Name::DefinitionLabelString);
    draft.enter(Name::Data);
    name(draft, number, false);
    draft.exit(Name::Data);
    draft.exit(Name::DefinitionLabelString);
    draft.leaf(DEFINITION_LABEL_MARKER, b"]");
    draft.exit(DEFINITION_LABEL);
    draft.leaf(DEFINITION_MARKER, b":");
    draft.leaf(Name::SpaceOrTab, b" ");
    definition_destination(draft, number);
    if draft.random.once_in(5) {
        definition_title(draft);
    }
    draft.exit(Name::Definition);
}

fn definition_destination(draft: &mut Draft<'_>, number: usize) {
    draft.enter(DEFINITION_DESTINATION);
    draft.enter(DEFINITION_DESTINATION_RAW);
    draft.enter(Name::DefinitionDestinationString);
    draft.enter(Name::Data);
    draft.put(b"https://example.com/wiki/page/");
    draft.number(number);
    draft.exit(Name::Data);
    draft.exit(Name::DefinitionDestinationString);
    draft.exit(DEFINITION_DESTINATION_RAW);
    draft.exit(DEFINITION_DESTINATION);
}

fn definition_title(draft: &mut Draft<'_>) {
    draft.leaf(Name::SpaceOrTab, b" ");
    draft.enter(DEFINITION_TITLE);
    draft.leaf(DEFINITION_TITLE_MARKER, b"\"");
    draft.enter(Name::DefinitionTitleString);
    draft.data(b"", 30, b"");
    draft.exit(Name::DefinitionTitleString);
    draft.leaf(DEFINITION_TITLE_MARKER, b"\"");
    draft.exit(DEFINITION_TITLE);
}

/// The definition of the footnote with this number, of a paragraph and now and then a second one.
pub fn note(draft: &mut Draft<'_>, number: usize) {
    draft.enter(Name::GfmFootnoteDefinition);
    note_prefix(draft, number);
    let lines = draft.random.between(1, 4);
    paragraph(draft, lines, Margin::Spaces(b"    "), 3);
    if draft.random.once_in(6) {
        draft.blank_line();
        draft.leaf(Name::SpaceOrTab, b"    ");
        paragraph(draft, 2, Margin::Spaces(b"    "), 3);
    }
    draft.exit(Name::GfmFootnoteDefinition);
}

pub fn note_prefix(draft: &mut Draft<'_>, number: usize) {
    draft.enter(Name::GfmFootnoteDefinitionPrefix);
    draft.enter(NOTE_LABEL);
    draft.leaf(NOTE_LABEL_MARKER, b"[");
    draft.leaf(NOTE_MARKER, b"^");
    draft.enter(Name::GfmFootnoteDefinitionLabelString);
    draft.enter(Name::Data);
    draft.put(b"note-");
    draft.number(number);
    draft.exit(Name::Data);
    draft.exit(Name::GfmFootnoteDefinitionLabelString);
    draft.leaf(NOTE_LABEL_MARKER, b"]");
    draft.exit(NOTE_LABEL);
    draft.leaf(DEFINITION_MARKER, b":");
    draft.leaf(Name::SpaceOrTab, b" ");
    draft.exit(Name::GfmFootnoteDefinitionPrefix);
}

/// A paragraph of an image alone.
pub fn figure(draft: &mut Draft<'_>) {
    draft.enter(Name::Paragraph);
    image(draft);
    draft.exit(Name::Paragraph);
}

/// A line of a text that begins with the number of something.
pub fn numbered_line(draft: &mut Draft<'_>, before: &[u8], number: usize) {
    draft.enter(Name::Paragraph);
    draft.enter(Name::Data);
    draft.put(before);
    draft.number(number);
    draft.put(b" by ");
    draft.tag();
    draft.put(b": ");
    draft.words(40);
    draft.put(b" ");
    draft.exit(Name::Data);
    emphasis(draft);
    draft.data(b" ", 20, b" ");
    span(draft);
    draft.exit(Name::Paragraph);
}
