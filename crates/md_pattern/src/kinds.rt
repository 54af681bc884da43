//! The classes of names and of spines in the grammar.

/// The symbol of a node in patterns. Names that all patterns treat alike share one symbol.
#[derive(Clone, Copy, PartialEq, Eq)]
pub enum Symbol {
    /// Literal characters.
    Text,
    LineEnding,
    BlankLineEnding,
    /// The first marker of a character reference.
    ReferenceMarker,
    /// The marker of a numeric character reference.
    ReferenceNumeric,
    /// The marker of a hexadecimal character reference.
    ReferenceHexadecimal,
    /// The value of a character reference.
    ReferenceValue,
    /// A node other than text that may occur in a paragraph.
    Span,
    /// A node other than a span that may occur beside a paragraph.
    Block,
    SetextText,
    SetextUnderline,
    /// The prefix of a footnote definition.
    FootnotePrefix,
    /// The label in the prefix of a footnote definition.
    FootnoteLabel,
    ListItem,
    ListItemPrefix,
    ListItemValue,
    ListItemMarker,
    /// A mark of an ATX heading.
    HeadingSequence,
    /// The text of an ATX heading.
    HeadingText,
    /// A line of code in a block.
    CodeFlowChunk,
    CodeFence,
    CodeInfo,
    CodeMeta,
    /// A line of math in a block.
    MathFlowChunk,
    MathFence,
    MathMeta,
    CodeTextData,
    MathTextData,
    HtmlFlowData,
    HtmlTextData,
    /// The label of a link, an image or a footnote call.
    Label,
    /// The text in such a label.
    LabelText,
    /// The resource of a link or an image.
    Resource,
    /// The reference of a link or an image.
    ReferenceString,
    ResourceDestination,
    ResourceTitle,
    DefinitionLabel,
    DefinitionDestination,
    DefinitionTitle,
    TableHead,
    TableBody,
    TableRow,
    TableCell,
    TableDelimiterRow,
    /// The value of a cell in a delimiter row.
    TableDelimiterValue,
    /// A marker in such a value.
    TableDelimiterMarker,
    /// Marks a task as checked.
    TaskChecked,
}

/// Which pattern the spine of a node must match.
#[derive(Clone, Copy)]
pub enum Role {
    /// The document, and a block quote.
    Flow,
    FootnoteDefinition,
    /// The prefix of a footnote definition.
    FootnotePrefix,
    OrderedList,
    UnorderedList,
    /// The first item of an ordered list, whose value is the list's number.
    FirstOrderedItem,
    /// An item of an ordered list that isn't the first.
    OrderedItem,
    /// An item of an unordered list, and the usual role of an item.
    Item,
    /// The prefix of the first item of an ordered list.
    FirstOrderedPrefix,
    /// The prefix of an item of an ordered list that isn't the first.
    OrderedPrefix,
    /// The prefix of an item of an unordered list, and the usual role of a prefix.
    Prefix,
    /// A node that contains text and spans, as a paragraph does.
    Phrasing,
    /// An ATX heading.
    Heading,
    CodeIndented,
    CodeFenced,
    /// The first fence, which may have an info and a meta.
    FirstCodeFence,
    /// A fence that isn't the first.
    CodeFence,
    /// Math in a block.
    Math,
    /// The first fence of math, which may have a meta.
    FirstMathFence,
    /// A fence of math that isn't the first.
    MathFence,
    CodeText,
    MathText,
    HtmlFlow,
    HtmlText,
    /// A link or an image.
    Media,
    FootnoteCall,
    /// The label of a link or an image, and the usual role of a label.
    Label,
    /// The label of a footnote call, which has a text.
    CallLabel,
    /// The resource of a link or an image.
    Resource,
    Definition,
    /// A node that contains text and no spans, as a title does.
    String,
    Table,
    TableHead,
    TableBody,
    TableRow,
    TableDelimiterRow,
    /// The value of a cell in a delimiter row.
    TableDelimiterValue,
    TaskCheck,
    Frontmatter,
    /// Only transparent nodes.
    Empty,
    /// No children, not even transparent ones.
    Childless,
}

/// What is read of a node when it ends.
#[derive(Clone, Copy)]
pub enum Reading {
    /// Nothing; its place has no condition.
    Free,
    /// Its text.
    Text,
    /// Its text, which is a line ending.
    LineEnding,
    /// Its text, the number of an item.
    Number,
    /// Its text, the value of a character reference.
    Value,
    /// Its length, the rank of a heading.
    Mark,
    /// Its first byte, that of an underline.
    Underline,
    /// The text between its indices, which is the identifier of a node that contains it.
    Identifier,
    /// A node inside it has the identifier of the node that contains it.
    Holder,
    /// The target of a link or an image.
    Resource,
    /// A link or an image.
    Media,
    /// A footnote call, which refers to its label.
    Call,
    /// A definition, which refers to its label.
    Definition,
    /// A footnote definition, which refers to its label.
    FootnoteDefinition,
}

/// The class of a name in the grammar.
#[derive(Clone, Copy)]
pub enum Standing {
    /// A transparent name: its children belong to the spine of its parent.
    Through,
    /// A space or tab: it belongs to no spine and has no children.
    Space,
    /// A name that belongs to the spine of its parent, the usual role of its own spine, and what is
    /// read of it.
    Solid(Symbol, Role, Reading),
    /// A name of MDX, which may not occur anywhere.
    Mdx,
}

/// The symbols that may occur at a position of a pattern; a group counts as its first symbol.
#[derive(Clone, Copy)]
pub enum Class {
    /// Characters, character references and line endings.
    String,
    /// These and spans.
    Phrasing,
    /// These, and blocks, setext headings and blank line endings.
    Flow,
    /// The symbol.
    Only(Symbol),
    /// One of the two symbols.
    Either(Symbol, Symbol),
    /// The symbol, or a line ending of either kind.
    OrLine(Symbol),
}

/// One item of a pattern.
#[derive(Clone, Copy)]
pub enum Item {
    /// Exactly one symbol of the class.
    Once(Class),
    /// At most one.
    Maybe(Class),
    /// Any number, or none.
    Many(Class),
}
