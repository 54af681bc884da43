//! The documents of these calls, with results that were written by hand.

use md_html::{Event, Kind, Name, Point, Rule};

/// A document.
pub struct Row {
    /// The feature that it shows.
    pub name: &'static str,
    /// Its events.
    pub events: &'static [Event],
    /// Its bytes.
    pub document: &'static str,
    /// Its events and bytes as a script.
    pub script: &'static str,
    /// The expected result.
    pub wanted: Wanted,
}

/// The expected result for a document, if there is enough memory.
pub enum Wanted {
    /// A text.
    Text(&'static str),
    /// A refusal of the event at an index, with a rule.
    Refusal(usize, Rule),
}

/// An event by its sign, its name, its index and its virtual spaces.
macro_rules! event {
    (+ $node:ident $index:literal $vs:expr) => {
        event!(Kind::Enter, $node, $index, $vs)
    };
    (- $node:ident $index:literal $vs:expr) => {
        event!(Kind::Exit, $node, $index, $vs)
    };
    ($kind:expr, $node:ident, $index:literal, $vs:expr) => {
        Event {
            kind: $kind,
            name: Name::$node,
            point: Point {
                line: 1,
                column: 1,
                index: $index,
                vs: $vs,
            },
        }
    };
}

/// A document by its name, its bytes, its result, and its events, each with a semicolon.
macro_rules! row {
    (
        $name:literal, $document:literal, $wanted:expr;
        $($sign:tt $node:ident $index:literal $(. $vs:literal)?;)*
    ) => {
        Row {
            name: $name,
            events: &[$(event!($sign $node $index (0 $(+ $vs)?))),*],
            document: $document,
            script: concat!(
                $(stringify!($sign), stringify!($node), " ", $index, $(".", $vs,)? "\n",)*
                "--\n",
                $document
            ),
            wanted: $wanted,
        }
    };
}

/// The documents without names of their own: those that have a text, then those that are refused.
pub fn documents() -> [&'static [Row]; 5] {
    [links(), tables(), footnotes(), items(), refused()]
}

fn links() -> &'static [Row] {
    &LINKS
}

fn tables() -> &'static [Row] {
    &TABLES
}

fn footnotes() -> &'static [Row] {
    &FOOTNOTES
}

fn items() -> &'static [Row] {
    &ITEMS
}

fn refused() -> &'static [Row] {
    &REFUSED
}

/// A document that reads one of [`NAMES`]; a script can't express it.
pub fn named() -> &'static Row {
    &NAMED
}

/// A link in a link, which the event grammar allows.
pub fn nested() -> &'static Row {
    &NESTED
}

/// The same in the label of an image, which prints only texts.
pub fn in_image() -> &'static Row {
    &IN_IMAGE
}

/// A heading with a link, whose tags get attributes.
pub fn attributed() -> &'static Row {
    &ATTRIBUTED
}

static LINKS: [Row; 2] = [
    row! {
        "a chunk that is cut within a tab", "\ta\t",
        Wanted::Text("<pre><code>  a\t  \n</code></pre>");
        + CodeIndented 0; + CodeFlowChunk 0 . 2; - CodeFlowChunk 2 . 3; - CodeIndented 3;
    },
    row! {
        "two definitions of one label", "[a]\n\n[a]: b\n[A]: c",
        Wanted::Text("<p><a href=\"b\">a</a></p>\n");
        + Paragraph 0; + Link 0; + Label 0; + LabelText 1; + Data 1; - Data 2; - LabelText 2;
        - Label 3; - Link 3; - Paragraph 3; + LineEnding 3; - LineEnding 4; + BlankLineEnding 4;
        - BlankLineEnding 5; + Definition 5; + DefinitionLabelString 6; + Data 6; - Data 7;
        - DefinitionLabelString 7; + DefinitionDestinationString 10; + Data 10; - Data 11;
        - DefinitionDestinationString 11; - Definition 11; + LineEnding 11; - LineEnding 12;
        + Definition 12; + DefinitionLabelString 13; + Data 13; - Data 14;
        - DefinitionLabelString 14; + DefinitionDestinationString 17; + Data 17; - Data 18;
        - DefinitionDestinationString 18; - Definition 18;
    },
];

static TABLES: [Row; 1] = [row! {
    "a table", "|a|\n|-|\n|b|c|",
    Wanted::Text("<table>\n<thead>\n<tr>\n<th>a</th>\n</tr>\n</thead>\n<tbody>\n<tr>\n<td>b</td>\n\
        </tr>\n</tbody>\n</table>");
    + GfmTable 0; + GfmTableHead 0; + GfmTableRow 0; + GfmTableCell 0; + Data 1; - Data 2;
    - GfmTableCell 3; - GfmTableRow 3; + LineEnding 3; - LineEnding 4; + GfmTableDelimiterRow 4;
    + GfmTableDelimiterCellValue 5; - GfmTableDelimiterCellValue 6; - GfmTableDelimiterRow 7;
    - GfmTableHead 7; + LineEnding 7; - LineEnding 8; + GfmTableBody 8; + GfmTableRow 8;
    + GfmTableCell 8; + Data 9; - Data 10; - GfmTableCell 10; + GfmTableCell 10; + Data 11;
    - Data 12; - GfmTableCell 13; - GfmTableRow 13; - GfmTableBody 13; - GfmTable 13;
}];

static FOOTNOTES: [Row; 1] = [row! {
    "two calls of a footnote", "[^b][^b][^b]:c",
    Wanted::Text("<p><sup><a href=\"#user-content-fn-b\" id=\"user-content-fnref-b\" \
        data-footnote-ref=\"\" aria-describedby=\"footnote-label\">1</a></sup><sup><a \
        href=\"#user-content-fn-b\" id=\"user-content-fnref-b-2\" data-footnote-ref=\"\" \
        aria-describedby=\"footnote-label\">1</a></sup></p>\n<section data-footnotes=\"\" \
        class=\"footnotes\"><h2 id=\"footnote-label\" class=\"sr-only\">Footnotes</h2>\n<ol>\n<li \
        id=\"user-content-fn-b\">\n<p>c <a href=\"#user-content-fnref-b\" \
        data-footnote-backref=\"\" aria-label=\"Back to content\" \
        class=\"data-footnote-backref\">↩</a> <a href=\"#user-content-fnref-b-2\" \
        data-footnote-backref=\"\" aria-label=\"Back to content\" \
        class=\"data-footnote-backref\">↩<sup>2</sup></a></p>\n</li>\n</ol>\n</section>\n");
    + Paragraph 0; + GfmFootnoteCall 0; + Label 0; + LabelText 2; - LabelText 3; - Label 4;
    - GfmFootnoteCall 4; + GfmFootnoteCall 4; + Label 4; + LabelText 6; - LabelText 7; - Label 8;
    - GfmFootnoteCall 8; - Paragraph 8; + GfmFootnoteDefinition 8; + GfmFootnoteDefinitionPrefix 8;
    + GfmFootnoteDefinitionLabelString 10; - GfmFootnoteDefinitionLabelString 11;
    - GfmFootnoteDefinitionPrefix 13; + Paragraph 13; + Data 13; - Data 14; - Paragraph 14;
    - GfmFootnoteDefinition 14;
}];

static ITEMS: [Row; 2] = [
    row! {
        "a line feed by number", "- &#10;", Wanted::Text("<ul>\n<li>\n</li>\n</ul>");
        + ListUnordered 0; + ListItem 0; + ListItemPrefix 0; + ListItemMarker 0; - ListItemMarker 1;
        - ListItemPrefix 2; + CharacterReferenceMarker 2; - CharacterReferenceMarker 3;
        + CharacterReferenceMarkerNumeric 3; - CharacterReferenceMarkerNumeric 4;
        + CharacterReferenceValue 4; - CharacterReferenceValue 6; - ListItem 7; - ListUnordered 7;
    },
    row! {
        "a letter by number", "- &#97;", Wanted::Text("<ul>\n<li>a\n</li>\n</ul>");
        + ListUnordered 0; + ListItem 0; + ListItemPrefix 0; + ListItemMarker 0; - ListItemMarker 1;
        - ListItemPrefix 2; + CharacterReferenceMarker 2; - CharacterReferenceMarker 3;
        + CharacterReferenceMarkerNumeric 3; - CharacterReferenceMarkerNumeric 4;
        + CharacterReferenceValue 4; - CharacterReferenceValue 6; - ListItem 7; - ListUnordered 7;
    },
];

static REFUSED: [Row; 11] = [
    row! {
        "an exit alone", "", Wanted::Refusal(0, Rule::Order);
        - Paragraph 0;
    },
    row! {
        "an entry alone", "", Wanted::Refusal(1, Rule::Order);
        + Paragraph 0;
    },
    row! {
        "a place past the end", "a", Wanted::Refusal(1, Rule::Place);
        + Data 0; - Data 2;
    },
    row! {
        "a place within a character", "é", Wanted::Refusal(1, Rule::Place);
        + Data 0; - Data 1;
    },
    row! {
        "a letter as a line ending", "x", Wanted::Refusal(1, Rule::LineEnding);
        + LineEnding 0; - LineEnding 1;
    },
    row! {
        "seven number signs", "#######", Wanted::Refusal(2, Rule::HeadingMark);
        + HeadingAtx 0; + HeadingAtxSequence 0; - HeadingAtxSequence 7; - HeadingAtx 7;
    },
    row! {
        "a reference without a name", "&x;", Wanted::Refusal(3, Rule::CharacterReference);
        + CharacterReferenceMarker 0; - CharacterReferenceMarker 1; + CharacterReferenceValue 1;
        - CharacterReferenceValue 2;
    },
    row! {
        "a link without its definition", "[a]", Wanted::Refusal(7, Rule::Definition);
        + Link 0; + Label 0; + LabelText 1; + Data 1; - Data 2; - LabelText 2; - Label 3; - Link 3;
    },
    row! {
        "a link without a target", "[]", Wanted::Refusal(3, Rule::Target);
        + Link 0; + Label 0; - Label 2; - Link 2;
    },
    row! {
        "a call without its footnote", "[^b]", Wanted::Refusal(7, Rule::Footnote);
        + GfmFootnoteCall 0; + Label 0; + LabelText 2; + Data 2; - Data 3; - LabelText 3; - Label 4;
        - GfmFootnoteCall 4;
    },
    row! {
        "an MDX node", "", Wanted::Refusal(0, Rule::Mdx);
        + MdxEsm 0; - MdxEsm 0;
    },
];

/// The names of the last document.
pub static NAMES: [(&str, &str); 1] = [("x", "<")];

static NAMED: Row = row! {
    "a reference with a name", "&x;", Wanted::Text("&lt;");
    + CharacterReferenceMarker 0; - CharacterReferenceMarker 1; + CharacterReferenceValue 1;
    - CharacterReferenceValue 2;
};

static ATTRIBUTED: Row = row! {
    "a heading with a link", "# [a](b)", Wanted::Text("<h1><a href=\"b\">a</a></h1>");
    + HeadingAtx 0; + HeadingAtxSequence 0; - HeadingAtxSequence 1; + HeadingAtxText 2; + Link 2;
    + Label 2; + LabelText 3; + Data 3; - Data 4; - LabelText 4; - Label 5; + Resource 5;
    + ResourceDestinationString 6; + Data 6; - Data 7; - ResourceDestinationString 7; - Resource 8;
    - Link 8; - HeadingAtxText 8; - HeadingAtx 8;
};

static NESTED: Row = row! {
    "a link in a link", "[[a](b)](c)", Wanted::Text("<a href=\"c\"><a href=\"b\">a</a></a>");
    + Link 0; + Label 0; + LabelText 1; + Link 1; + Label 1; + LabelText 2; + Data 2; - Data 3;
    - LabelText 3; - Label 4; + Resource 4; + ResourceDestinationString 5; + Data 5; - Data 6;
    - ResourceDestinationString 6; - Resource 7; - Link 7; - LabelText 7; - Label 8; + Resource 8;
    + ResourceDestinationString 9; + Data 9; - Data 10; - ResourceDestinationString 10;
    - Resource 11; - Link 11;
};

static IN_IMAGE: Row = row! {
    "a link in an image in a link", "[![[a](b)](c)](d)",
    Wanted::Text("<a href=\"d\"><img src=\"c\" alt=\"a\" /></a>");
    + Link 0; + Label 0; + LabelText 1; + Image 1; + Label 1; + LabelText 3; + Link 3; + Label 3;
    + LabelText 4; + Data 4; - Data 5; - LabelText 5; - Label 6; + Resource 6;
    + ResourceDestinationString 7; + Data 7; - Data 8; - ResourceDestinationString 8; - Resource 9;
    - Link 9; - LabelText 9; - Label 10; + Resource 10; + ResourceDestinationString 11; + Data 11;
    - Data 12; - ResourceDestinationString 12; - Resource 13; - Image 13; - LabelText 13;
    - Label 14; + Resource 14; + ResourceDestinationString 15; + Data 15; - Data 16;
    - ResourceDestinationString 16; - Resource 17; - Link 17;
};
