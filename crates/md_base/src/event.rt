//! Events, with their kinds, names and points, and the alignments of tables' columns.

/// Whether an event enters or exits a node.
#[derive(Clone, Copy, Debug, PartialEq, Eq)]
pub enum Kind {
    Enter,
    Exit,
}

/// The kind of an event.
#[derive(Clone, Copy, Debug, PartialEq, Eq)]
pub enum Name {
    // bench/lists/names.py: begin
    // Links that are written out as such: `<a@b.c>`, `<https://a.b>`, and the literal ones of GFM.
    /// An address between angle brackets, without these: a link to it.
    AutolinkEmail,
    /// A URL between angle brackets, without these: a link to it.
    AutolinkProtocol,
    /// A bare address: a link to it.
    GfmAutolinkLiteralEmail,
    /// A bare `mailto:` with its address: a link.
    GfmAutolinkLiteralMailto,
    /// A bare URL that begins with `http://` or `https://`: a link.
    GfmAutolinkLiteralProtocol,
    /// A bare domain that begins with `www.`: a link, by `http://`.
    GfmAutolinkLiteralWww,
    /// A bare `xmpp:` with its address: a link.
    GfmAutolinkLiteralXmpp,
    // Line endings: a LineEnding is printed where the rules say so, a BlankLineEnding makes lists
    // loose and ends the text with a line ending.
    /// A line ending, over LF, CR or CR LF.
    LineEnding,
    /// The line ending of a blank line, likewise.
    BlankLineEnding,
    // Containers: quotes, lists with their items, definitions of footnotes.
    /// A quote, around what it holds.
    BlockQuote,
    /// The mark of a quote: it prints nothing, and what it holds is printed.
    BlockQuotePrefix,
    /// A list with numbers, around its items.
    ListOrdered,
    /// A list without numbers, around its items.
    ListUnordered,
    /// An item, which begins with its prefix.
    ListItem,
    /// The mark of an item, around its parts.
    ListItemPrefix,
    /// The number of an item; of a list's first item it is read.
    ListItemValue,
    /// The character of an item's mark.
    ListItemMarker,
    /// A footnote, which begins with its prefix.
    GfmFootnoteDefinition,
    /// The mark of a footnote, around its label.
    GfmFootnoteDefinitionPrefix,
    /// The label by which a footnote is called.
    GfmFootnoteDefinitionLabelString,
    // Characters: text as it is, escaped characters, references such as `&amp;` by their parts.
    /// A text as it is.
    Data,
    /// A character that follows a backslash.
    CharacterEscapeValue,
    /// The `&` of a character reference.
    CharacterReferenceMarker,
    /// The `#` of a character reference by number.
    CharacterReferenceMarkerNumeric,
    /// The `x` of a character reference by a hexadecimal number.
    CharacterReferenceMarkerHexadecimal,
    /// The name or the digits of a character reference.
    CharacterReferenceValue,
    // Code and math, as blocks.
    /// Indented code, around its chunks.
    CodeIndented,
    /// Fenced code, around its fences and chunks.
    CodeFenced,
    /// A fence of code: the first one, or the last one.
    CodeFencedFence,
    /// The language of code, in the first fence.
    CodeFencedFenceInfo,
    /// What follows the language: it prints nothing.
    CodeFencedFenceMeta,
    /// A text of code.
    CodeFlowChunk,
    /// Math, around its fences and chunks.
    MathFlow,
    /// A fence of math: the first one, or the last one.
    MathFlowFence,
    /// What follows the first fence of math: it prints nothing.
    MathFlowFenceMeta,
    /// A text of math.
    MathFlowChunk,
    // Code, math and HTML in text, HTML as a block.
    /// Code in a text, around its data.
    CodeText,
    /// The text of code in a text.
    CodeTextData,
    /// Math in a text, around its data.
    MathText,
    /// The text of math in a text.
    MathTextData,
    /// A block of HTML, around its data.
    HtmlFlow,
    /// The text of a block of HTML.
    HtmlFlowData,
    /// HTML in a text, around its data.
    HtmlText,
    /// The text of HTML in a text.
    HtmlTextData,
    // Definitions of links: `[label]: destination "title"`.
    /// A definition: it prints nothing, and links and images refer to it.
    Definition,
    /// The label of a definition.
    DefinitionLabelString,
    /// The URL of a definition.
    DefinitionDestinationString,
    /// The title of a definition.
    DefinitionTitleString,
    // Links, images, calls of footnotes.
    /// A link, which begins with its label.
    Link,
    /// An image, which begins with its label.
    Image,
    /// The text of a link, an image or a call, with its brackets.
    Label,
    /// The same without its brackets.
    LabelText,
    /// The destination and title of a link or an image, after its label.
    Resource,
    /// The URL of a resource.
    ResourceDestinationString,
    /// The title of a resource.
    ResourceTitleString,
    /// The label of the definition to which a link or an image refers.
    ReferenceString,
    /// A call of a footnote, around its label.
    GfmFootnoteCall,
    // Headings: `# text`, or a text that is underlined.
    /// A heading with a mark, which begins with that.
    HeadingAtx,
    /// The mark of a heading; the length of the first one is the rank.
    HeadingAtxSequence,
    /// The text of a heading with a mark.
    HeadingAtxText,
    /// The text of a heading that is underlined.
    HeadingSetextText,
    /// Its underline, of `=` or `-`.
    HeadingSetextUnderlineSequence,
    // Tables.
    /// A table, around its head and body.
    GfmTable,
    /// The first row of a table, and its delimiter row.
    GfmTableHead,
    /// The other rows of a table.
    GfmTableBody,
    /// A row, around its cells.
    GfmTableRow,
    /// A cell, around its text.
    GfmTableCell,
    /// The row that says how columns are aligned, around a value for each.
    GfmTableDelimiterRow,
    /// How a column is aligned: by a marker as its first and as its last child.
    GfmTableDelimiterCellValue,
    /// A `:` of a delimiter value.
    GfmTableDelimiterMarker,
    // Spans, tasks, breaks, paragraphs, and what prints nothing.
    /// Emphasis, around its text.
    Emphasis,
    /// Strong emphasis, around its text.
    Strong,
    /// A text that is struck through.
    GfmStrikethrough,
    /// The box of a task.
    GfmTaskListItemCheck,
    /// What says in a box that the task is done.
    GfmTaskListItemValueChecked,
    /// A backslash at the end of a line: a `<br />`.
    HardBreakEscape,
    /// Spaces at the end of a line: a `<br />`.
    HardBreakTrailing,
    /// A paragraph, around its text.
    Paragraph,
    /// A rule between blocks.
    ThematicBreak,
    /// Data before the document: it prints nothing.
    Frontmatter,
    /// Spaces and tabs that aren't text: they print nothing.
    SpaceOrTab,
    // MDX: always refused.
    /// Refused.
    MdxEsm,
    /// Refused.
    MdxFlowExpression,
    /// Refused.
    MdxTextExpression,
    /// Refused.
    MdxJsxFlowTag,
    /// Refused.
    MdxJsxTextTag,
    // bench/lists/names.py: end
    /// Every other name of the parser, by a number of its own.
    Other(u16),
}

/// A position in a document.
#[derive(Clone, Copy, Debug, PartialEq, Eq)]
pub struct Point {
    /// The line, from 1; the compiler never reads it.
    pub line: usize,
    /// The column, from 1; the compiler never reads it.
    pub column: usize,
    /// The number of bytes before this point.
    pub index: usize,
    /// How many columns of a tab precede this point, from 0 to 4.
    pub vs: usize,
}

/// The start or the end of a node.
#[derive(Clone, Copy, Debug, PartialEq, Eq)]
pub struct Event {
    /// Whether the event enters or exits the node.
    pub kind: Kind,
    /// The name of that node.
    pub name: Name,
    /// The start of the node in an entering event, its end in an exiting one.
    pub point: Point,
}

/// How the cells of a table's column are aligned.
#[derive(Clone, Copy, Debug, PartialEq, Eq)]
pub enum AlignKind {
    Left,
    Right,
    Center,
    None,
}

/// Where a node starts and ends.
#[derive(Clone, Copy, Debug, PartialEq, Eq)]
pub struct Position {
    /// The point of the node's entering event.
    pub start: Point,
    /// The point of its exiting event.
    pub end: Point,
}
