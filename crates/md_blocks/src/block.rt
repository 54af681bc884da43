//! The entries of the tape. All positions are byte indices into the document.

ghost use Rattle.std.specs.Prelude.{◌≤◌, ◌≡◌, max};

use md_lines::Span;

/// An entry of the tape. A container has two, one for its beginning and one for its end; a leaf, a
/// block that contains no blocks, has one. An entry takes 24 bytes: its small fields come first,
/// next to the tag.
#[derive(Clone, Copy, PartialEq, Eq, Debug)]
pub enum Block {
    /// The beginning of a quote, at the `>` of its first line.
    EnterQuote {
        start: usize,
    },
    /// The beginning of a list, at the marker of its first item.
    EnterList {
        is_ordered: bool,
        start: usize,
    },
    /// The beginning of an item, at its marker: a number of `digits` digits and a `.` or `)`, or
    /// `-`, `+` or `*` without a number.
    EnterItem {
        digits: u8,
        start: usize,
    },
    /// The beginning of a footnote's definition. Its label is the text between `[^` and `]:`.
    EnterFootnote {
        label: Span,
    },
    /// The end of a container, up to which the document was read when it ended; `is_empty` says
    /// that it contains no block.
    Exit {
        kind: ContainerKind,
        is_empty: bool,
        at: usize,
    },
    /// The checkbox at the beginning of an item, after the item's own entry, at its `[`.
    Task {
        is_checked: bool,
        start: usize,
    },
    Paragraph(LineRange),
    /// A heading with `level` number signs, from these to the end of its text.
    AtxHeading {
        level: u8,
        span: Span,
    },
    /// An underlined heading: the lines of its text, then its underline of `=` or `-`.
    SetextHeading(LineRange),
    /// Code between fences, or from a fence to the end: the first word after the fence, then the
    /// lines of code.
    FencedCode(LineRange),
    IndentedCode(LineRange),
    Html(LineRange),
    ThematicBreak(Span),
    /// A table: the lines of its head, of its delimiters and of its rows.
    Table(LineRange),
    /// Math between lines of dollar signs: the first of these signs, then the text after them if
    /// there is any, and the lines of math.
    Math(LineRange),
    /// Front matter, from the beginning of the document to the line ending after it.
    FrontMatter {
        ending: Span,
    },
    /// A blank line before a child of an item, or between two items: its line ending.
    BlankLine {
        ending: Span,
    },
    /// A paragraph that contained only definitions, and ended at this index.
    Definitions {
        at: usize,
    },
}

/// The kinds of containers.
#[derive(Clone, Copy, PartialEq, Eq, Debug)]
pub enum ContainerKind {
    Quote,
    OrderedList,
    UnorderedList,
    Item,
    FootnoteDefinition,
}

/// Lines of a leaf: a range of indices into the lines of all leaves.
#[derive(Clone, Copy, PartialEq, Eq, Debug)]
pub struct LineRange {
    pub start: usize,
    pub end: usize,
    ghost in_order: { start ≤ end },
}

impl LineRange {
    /// The lines from `start` to `end`; none if `end` is less than `start`.
    #[inline(always)]
    pub fn new(start: usize, end: usize) -> Self
        ensures start { result.start ≡ start }
        ensures end { result.end ≡ max start end }
    {
        LineRange {
            start,
            end: start.max(end),
        }
    }
}
