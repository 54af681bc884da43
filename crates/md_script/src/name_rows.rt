//! Rows of the names shorter than sixteen bytes, and a guess which row a text has.
// Written by bench/lists/names.py from clients/numbers/numbers.txt. Don't edit it.

use md_base::Name;

/// A name shorter than sixteen bytes: its text, padded with spaces, and the name.
pub(crate) type Row = ([u8; 16], Name);

/// The factor of a text's middle byte in its sum; that of its first byte is one.
pub(crate) const MIDDLE: usize = 33;

/// The factor of its last byte.
pub(crate) const LAST: usize = 8;

/// For each sum the index of its row, counted from `(`; `~` if there is none.
pub(crate) static SLOTS: [u8; 256] = *b"\
    ~~~~~~2~~~~/~~~~~~~~~~~~~S~~~.?~~~~~~~~~~~~~~~W~~~~~~P=~~~~~~<~~\
    (~~~~~~B~U~~~X+~~~~G~~~~~R~~~~6~~~~~~~~~;~~~~~~~~~~~~~~~~L~~~~~~\
    ~~~~~~~~~~~Q~~~4~~>I~~~~~~-~~~~E~@~~~~~~V~~~~~~~~~9~~~~0~~~K3~~~\
    ~1~CN~~~F~~~~D~J~~)~~Y~87~,:~~~~~~~A~~~~~TM~~~~~5Z*~O~~~~~~H~~~~";

pub(crate) static ROWS: [Row; 51] = [
    (*b"Data            ", Name::Data),
    (*b"Link            ", Name::Link),
    (*b"Image           ", Name::Image),
    (*b"Label           ", Name::Label),
    (*b"Strong          ", Name::Strong),
    (*b"MdxEsm          ", Name::MdxEsm),
    (*b"ListItem        ", Name::ListItem),
    (*b"MathFlow        ", Name::MathFlow),
    (*b"CodeText        ", Name::CodeText),
    (*b"MathText        ", Name::MathText),
    (*b"HtmlFlow        ", Name::HtmlFlow),
    (*b"HtmlText        ", Name::HtmlText),
    (*b"Resource        ", Name::Resource),
    (*b"GfmTable        ", Name::GfmTable),
    (*b"Emphasis        ", Name::Emphasis),
    (*b"LabelText       ", Name::LabelText),
    (*b"Paragraph       ", Name::Paragraph),
    (*b"LineEnding      ", Name::LineEnding),
    (*b"BlockQuote      ", Name::BlockQuote),
    (*b"CodeFenced      ", Name::CodeFenced),
    (*b"Definition      ", Name::Definition),
    (*b"HeadingAtx      ", Name::HeadingAtx),
    (*b"SpaceOrTab      ", Name::SpaceOrTab),
    (*b"ListOrdered     ", Name::ListOrdered),
    (*b"GfmTableRow     ", Name::GfmTableRow),
    (*b"Frontmatter     ", Name::Frontmatter),
    (*b"CodeIndented    ", Name::CodeIndented),
    (*b"CodeTextData    ", Name::CodeTextData),
    (*b"MathTextData    ", Name::MathTextData),
    (*b"HtmlFlowData    ", Name::HtmlFlowData),
    (*b"HtmlTextData    ", Name::HtmlTextData),
    (*b"GfmTableHead    ", Name::GfmTableHead),
    (*b"GfmTableBody    ", Name::GfmTableBody),
    (*b"GfmTableCell    ", Name::GfmTableCell),
    (*b"AutolinkEmail   ", Name::AutolinkEmail),
    (*b"ListUnordered   ", Name::ListUnordered),
    (*b"ListItemValue   ", Name::ListItemValue),
    (*b"CodeFlowChunk   ", Name::CodeFlowChunk),
    (*b"MathFlowFence   ", Name::MathFlowFence),
    (*b"MathFlowChunk   ", Name::MathFlowChunk),
    (*b"ThematicBreak   ", Name::ThematicBreak),
    (*b"MdxJsxFlowTag   ", Name::MdxJsxFlowTag),
    (*b"MdxJsxTextTag   ", Name::MdxJsxTextTag),
    (*b"ListItemPrefix  ", Name::ListItemPrefix),
    (*b"ListItemMarker  ", Name::ListItemMarker),
    (*b"HeadingAtxText  ", Name::HeadingAtxText),
    (*b"BlankLineEnding ", Name::BlankLineEnding),
    (*b"CodeFencedFence ", Name::CodeFencedFence),
    (*b"ReferenceString ", Name::ReferenceString),
    (*b"GfmFootnoteCall ", Name::GfmFootnoteCall),
    (*b"HardBreakEscape ", Name::HardBreakEscape),
];
