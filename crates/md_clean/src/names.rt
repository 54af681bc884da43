//! The elements: what each is, and the attributes that it may have.

use crate::values::Listed;

/// The longest name of an element with a row of its own.
const LONGEST: usize = 10;

/// The kinds of elements.
#[derive(Clone, Copy, PartialEq, Eq)]
pub enum Kind {
    /// A span, or an element that isn't known.
    Span,
    Link,
    Code,
    Paragraph,
    Heading,
    /// `div`, `address`: a list's item ends through them.
    Division,
    /// Another block with flow content.
    Flow,
    Summary,
    List,
    Item,
    /// `dd`, `dt`.
    Definition,
    Preformatted,
    /// An element that ends the scope of paragraphs and formatting.
    Scope,
    Table,
    Caption,
    Column,
    Part,
    Row,
    Cell,
    Break,
    WordBreak,
    Rule,
    Image,
    /// An element with raw text.
    Raw,
    Script,
    Plaintext,
    Template,
    /// `svg`, `math`.
    Foreign,
    /// A tag with no meaning here.
    Ignored,
}

/// An element.
#[derive(Clone, Copy)]
pub struct Tag {
    /// Its name, if it is written.
    pub name: &'static str,
    pub kind: Kind,
    pub listed: Listed,
    pub is_written: bool,
    /// Whether it goes on after the block in which it began.
    pub is_formatting: bool,
}

/// The element of a name in any case.
pub fn tag_named(name: &[u8]) -> Tag {
    let mut lower = [0; LONGEST];
    for (to, from) in lower.iter_mut().zip(name) {
        *to = from.to_ascii_lowercase();
    }
    let name = lower.get(..name.len()).unwrap_or(b"");
    span(name)
        .or_else(|| block(name))
        .or_else(|| table_part(name))
        .or_else(|| void(name))
        .unwrap_or_else(|| unwritten(unwritten_kind(name), is_formatting(name)))
}

/// An element that isn't written.
fn unwritten(kind: Kind, is_formatting: bool) -> Tag {
    Tag {
        name: "",
        kind,
        listed: Listed::Common,
        is_written: false,
        is_formatting,
    }
}

/// An element that is written.
fn written(name: &'static str, kind: Kind, listed: Listed) -> Option<Tag> {
    Some(Tag {
        name,
        kind,
        listed,
        is_written: true,
        is_formatting: false,
    })
}

/// A span that goes on after its block.
fn formatting(name: &'static str, kind: Kind, listed: Listed) -> Option<Tag> {
    Some(Tag {
        name,
        kind,
        listed,
        is_written: true,
        is_formatting: true,
    })
}

/// The spans.
fn span(name: &[u8]) -> Option<Tag> {
    match name {
        b"a" => formatting("a", Kind::Link, Listed::OfLink),
        b"em" => formatting("em", Kind::Span, Listed::Common),
        b"strong" => formatting("strong", Kind::Span, Listed::Common),
        b"code" => formatting("code", Kind::Code, Listed::Common),
        b"b" => formatting("b", Kind::Span, Listed::Common),
        b"i" => formatting("i", Kind::Span, Listed::Common),
        b"u" => formatting("u", Kind::Span, Listed::Common),
        b"s" => formatting("s", Kind::Span, Listed::Common),
        b"small" => formatting("small", Kind::Span, Listed::Common),
        _ => plain_span(name),
    }
}

/// The spans that end with their block.
fn plain_span(name: &[u8]) -> Option<Tag> {
    match name {
        b"span" => written("span", Kind::Span, Listed::Common),
        b"del" => written("del", Kind::Span, Listed::Common),
        b"ins" => written("ins", Kind::Span, Listed::Common),
        b"sup" => written("sup", Kind::Span, Listed::Common),
        b"sub" => written("sub", Kind::Span, Listed::Common),
        b"kbd" => written("kbd", Kind::Span, Listed::Common),
        b"samp" => written("samp", Kind::Span, Listed::Common),
        b"var" => written("var", Kind::Span, Listed::Common),
        b"q" => written("q", Kind::Span, Listed::Common),
        b"cite" => written("cite", Kind::Span, Listed::Common),
        b"abbr" => written("abbr", Kind::Span, Listed::Common),
        b"dfn" => written("dfn", Kind::Span, Listed::Common),
        b"mark" => written("mark", Kind::Span, Listed::Common),
        _ => None,
    }
}

/// The blocks, except tables.
fn block(name: &[u8]) -> Option<Tag> {
    match name {
        b"p" => written("p", Kind::Paragraph, Listed::Aligned),
        b"div" => written("div", Kind::Division, Listed::Aligned),
        b"li" => written("li", Kind::Item, Listed::Common),
        b"ul" => written("ul", Kind::List, Listed::Common),
        b"ol" => written("ol", Kind::List, Listed::OfOrdered),
        b"pre" => written("pre", Kind::Preformatted, Listed::Common),
        b"blockquote" => written("blockquote", Kind::Flow, Listed::Common),
        b"details" => written("details", Kind::Flow, Listed::OfDetails),
        b"summary" => written("summary", Kind::Summary, Listed::Common),
        b"figure" => written("figure", Kind::Flow, Listed::Common),
        b"figcaption" => written("figcaption", Kind::Flow, Listed::Common),
        _ => heading(name),
    }
}

/// The headings.
fn heading(name: &[u8]) -> Option<Tag> {
    match name {
        b"h1" => written("h1", Kind::Heading, Listed::Aligned),
        b"h2" => written("h2", Kind::Heading, Listed::Aligned),
        b"h3" => written("h3", Kind::Heading, Listed::Aligned),
        b"h4" => written("h4", Kind::Heading, Listed::Aligned),
        b"h5" => written("h5", Kind::Heading, Listed::Aligned),
        b"h6" => written("h6", Kind::Heading, Listed::Aligned),
        _ => None,
    }
}

/// Tables and their parts.
fn table_part(name: &[u8]) -> Option<Tag> {
    match name {
        b"td" => written("td", Kind::Cell, Listed::OfCell),
        b"th" => written("th", Kind::Cell, Listed::OfCell),
        b"tr" => written("tr", Kind::Row, Listed::OfRow),
        b"table" => written("table", Kind::Table, Listed::OfTable),
        b"tbody" => written("tbody", Kind::Part, Listed::OfRow),
        b"thead" => written("thead", Kind::Part, Listed::OfRow),
        b"tfoot" => written("tfoot", Kind::Part, Listed::OfRow),
        _ => None,
    }
}

/// The void tags.
fn void(name: &[u8]) -> Option<Tag> {
    match name {
        b"br" => written("br", Kind::Break, Listed::Common),
        b"wbr" => written("wbr", Kind::WordBreak, Listed::Common),
        b"hr" => written("hr", Kind::Rule, Listed::Common),
        b"img" | b"image" => written("img", Kind::Image, Listed::OfImage),
        _ => None,
    }
}

/// Whether an element that isn't written goes on after its block.
fn is_formatting(name: &[u8]) -> bool {
    matches!(name, b"big" | b"font" | b"nobr" | b"strike" | b"tt")
}

/// The kind of an element that isn't written.
fn unwritten_kind(name: &[u8]) -> Kind {
    match name {
        b"script" => Kind::Script,
        b"style"
        | b"iframe"
        | b"noembed"
        | b"noframes"
        | b"xmp"
        | b"noscript"
        | b"title"
        | b"textarea" => Kind::Raw,
        b"plaintext" => Kind::Plaintext,
        b"template" => Kind::Template,
        b"svg" | b"math" => Kind::Foreign,
        b"caption" => Kind::Caption,
        b"col" | b"colgroup" => Kind::Column,
        b"dd" | b"dt" => Kind::Definition,
        b"address" => Kind::Division,
        b"button" | b"object" | b"applet" | b"marquee" => Kind::Scope,
        _ if is_ignored(name) => Kind::Ignored,
        _ if is_section(name) => Kind::Flow,
        _ => Kind::Span,
    }
}

/// Whether a tag has no meaning here.
fn is_ignored(name: &[u8]) -> bool {
    matches!(
        name,
        b"html"
            | b"head"
            | b"body"
            | b"frameset"
            | b"frame"
            | b"base"
            | b"link"
            | b"meta"
            | b"input"
            | b"embed"
            | b"param"
            | b"source"
            | b"track"
            | b"area"
            | b"keygen"
            | b"bgsound"
            | b"basefont"
    )
}

/// Whether an element is a block that isn't written.
fn is_section(name: &[u8]) -> bool {
    matches!(
        name,
        b"article"
            | b"aside"
            | b"center"
            | b"dialog"
            | b"dir"
            | b"dl"
            | b"fieldset"
            | b"footer"
            | b"form"
            | b"header"
            | b"hgroup"
            | b"listing"
            | b"main"
            | b"menu"
            | b"nav"
            | b"search"
            | b"section"
    )
}
