//! The content model.

ghost use Rattle.std.specs.Prelude.{◌≡◌, MatchOption, None, false, take, drop};
ghost use Rattle.md_text.specs.Bytes.{is_one_of};
ghost use Rattle.md_safe.specs.Contents.{block_elements, elements_in, is_space, may_say};
ghost use Rattle.md_safe.specs.Contents.{spans_of, voids_in};
ghost use Rattle.std.specs.List.{list_all};
ghost use Rattle.md_reader.specs.Names.{void_name};
ghost use Rattle.md_reader.specs.Allowed.{content_of, held_among, IsAllowed};

use crate::names::{Listed, Void};
use crate::places::is_same;

/// The kinds of content.
#[derive(Clone, Copy)]
pub(crate) enum Content {
    Flow,
    Phrasing,
    Linked,
    Items,
    Parts,
    Rows,
    Cells,
    Preformatted,
    Characters,
}

/// What an element may have.
#[derive(Clone, Copy)]
pub(crate) struct Allowed {
    /// Its content.
    pub(crate) content: Content,
    /// Its attributes.
    pub(crate) list: Listed,
}

/// What an element of this name may have, if this content allows it.
pub(crate) fn child(content: Content, name: &[u8]) -> Option<Allowed>
    ensures { MatchOption result
        (held_among (elements_in false (content_of content)) name.now ≡ None)
        (λ found. IsAllowed (elements_in false (content_of content)) name.now found) }
{
    match content {
        Content::Flow => match in_phrasing(name) {
            Some(found) => Some(found),
            None => block(name),
        },
        Content::Phrasing => in_phrasing(name),
        Content::Linked => span(Content::Linked, name),
        Content::Items => in_items(name),
        Content::Parts => in_parts(name),
        Content::Rows => in_rows(name),
        Content::Cells => in_cells(name),
        Content::Preformatted => in_preformatted(name),
        Content::Characters => None,
    }
}

/// The same for spans and texts.
fn in_phrasing(name: &[u8]) -> Option<Allowed>
    ensures { MatchOption result
        (held_among (elements_in false (content_of Content.Phrasing)) name.now ≡ None)
        (λ found. IsAllowed (elements_in false (content_of Content.Phrasing)) name.now found) }
{
    match name {
        b"a" => Some(Allowed {
            content: Content::Linked,
            list: Listed::OfLink,
        }),
        _ => span(Content::Phrasing, name),
    }
}

/// The same for spans except links, if they have this content.
fn span(held: Content, name: &[u8]) -> Option<Allowed>
    ensures { MatchOption result
        (held_among (spans_of (content_of held)) name.now ≡ None)
        (λ found. IsAllowed (spans_of (content_of held)) name.now found) }
{
    match name {
        b"em"
        | b"strong"
        | b"del"
        | b"sup"
        | b"b"
        | b"i"
        | b"u"
        | b"s"
        | b"small"
        | b"sub"
        | b"span"
        | b"kbd"
        | b"samp"
        | b"var"
        | b"q"
        | b"cite"
        | b"abbr"
        | b"dfn"
        | b"ins"
        | b"mark" => Some(Allowed {
            content: held,
            list: Listed::Shared,
        }),
        b"code" => Some(Allowed {
            content: Content::Characters,
            list: Listed::OfCode,
        }),
        _ => None,
    }
}

/// The same for blocks.
fn block(name: &[u8]) -> Option<Allowed>
    ensures { MatchOption result
        (held_among block_elements name.now ≡ None)
        (λ found. IsAllowed block_elements name.now found) }
{
    match container(name) {
        Some(found) => Some(found),
        None => division(name),
    }
}

/// The same for lists, tables, preformatted code, quotes and sections.
fn container(name: &[u8]) -> Option<Allowed>
    ensures { MatchOption result
        (held_among (take 6 block_elements) name.now ≡ None)
        (λ found. IsAllowed (take 6 block_elements) name.now found) }
{
    if is_same(name, b"blockquote") {
        return Some(Allowed {
            content: Content::Flow,
            list: Listed::Shared,
        });
    }
    match name {
        b"ul" => Some(Allowed {
            content: Content::Items,
            list: Listed::Shared,
        }),
        b"ol" => Some(Allowed {
            content: Content::Items,
            list: Listed::OfList,
        }),
        b"pre" => Some(Allowed {
            content: Content::Preformatted,
            list: Listed::Shared,
        }),
        b"table" => Some(Allowed {
            content: Content::Parts,
            list: Listed::OfTable,
        }),
        b"section" => Some(Allowed {
            content: Content::Flow,
            list: Listed::OfSection,
        }),
        _ => None,
    }
}

/// The same for the other blocks.
fn division(name: &[u8]) -> Option<Allowed>
    ensures { MatchOption result
        (held_among (drop 6 block_elements) name.now ≡ None)
        (λ found. IsAllowed (drop 6 block_elements) name.now found) }
{
    match of_authors(name) {
        Some(found) => Some(found),
        None => paragraph(name),
    }
}

/// The same for blocks that authors alone write.
fn of_authors(name: &[u8]) -> Option<Allowed>
    ensures { MatchOption result
        (held_among (take 5 (drop 6 block_elements)) name.now ≡ None)
        (λ found. IsAllowed (take 5 (drop 6 block_elements)) name.now found) }
{
    let (content, list) = if is_same(name, b"div") {
        (Content::Flow, Listed::OfBlock)
    } else if is_same(name, b"details") {
        (Content::Flow, Listed::OfDetails)
    } else if is_same(name, b"summary") {
        (Content::Phrasing, Listed::Shared)
    } else if is_same(name, b"figure") {
        (Content::Flow, Listed::Shared)
    } else if is_same(name, b"figcaption") {
        (Content::Flow, Listed::Shared)
    } else {
        return None;
    };
    Some(Allowed { content, list })
}

/// The same for paragraphs and headings.
fn paragraph(name: &[u8]) -> Option<Allowed>
    ensures { MatchOption result
        (held_among (drop 11 block_elements) name.now ≡ None)
        (λ found. IsAllowed (drop 11 block_elements) name.now found) }
{
    match name {
        b"p" | b"h1" | b"h3" | b"h4" | b"h5" | b"h6" => {
            Some(Allowed {
                content: Content::Phrasing,
                list: Listed::OfBlock,
            })
        }
        b"h2" => Some(Allowed {
            content: Content::Phrasing,
            list: Listed::OfSecond,
        }),
        _ => None,
    }
}

/// The same in a list.
fn in_items(name: &[u8]) -> Option<Allowed>
    ensures { MatchOption result
        (held_among (elements_in false (content_of Content.Items)) name.now ≡ None)
        (λ found. IsAllowed (elements_in false (content_of Content.Items)) name.now found) }
{
    match name {
        b"li" => Some(Allowed {
            content: Content::Flow,
            list: Listed::Shared,
        }),
        _ => None,
    }
}

/// The same in a table.
fn in_parts(name: &[u8]) -> Option<Allowed>
    ensures { MatchOption result
        (held_among (elements_in false (content_of Content.Parts)) name.now ≡ None)
        (λ found. IsAllowed (elements_in false (content_of Content.Parts)) name.now found) }
{
    match name {
        b"thead" | b"tbody" | b"tfoot" => Some(Allowed {
            content: Content::Rows,
            list: Listed::OfRow,
        }),
        _ => None,
    }
}

/// The same in a part of a table.
fn in_rows(name: &[u8]) -> Option<Allowed>
    ensures { MatchOption result
        (held_among (elements_in false (content_of Content.Rows)) name.now ≡ None)
        (λ found. IsAllowed (elements_in false (content_of Content.Rows)) name.now found) }
{
    match name {
        b"tr" => Some(Allowed {
            content: Content::Cells,
            list: Listed::OfRow,
        }),
        _ => None,
    }
}

/// The same in a row.
fn in_cells(name: &[u8]) -> Option<Allowed>
    ensures { MatchOption result
        (held_among (elements_in false (content_of Content.Cells)) name.now ≡ None)
        (λ found. IsAllowed (elements_in false (content_of Content.Cells)) name.now found) }
{
    match name {
        b"th" | b"td" => Some(Allowed {
            content: Content::Phrasing,
            list: Listed::OfCell,
        }),
        _ => None,
    }
}

/// The same in preformatted code.
fn in_preformatted(name: &[u8]) -> Option<Allowed>
    ensures { MatchOption result
        (held_among (elements_in false (content_of Content.Preformatted)) name.now ≡ None)
        (λ found. IsAllowed (elements_in false (content_of Content.Preformatted)) name.now found) }
{
    match name {
        b"code" => Some(Allowed {
            content: Content::Characters,
            list: Listed::OfCode,
        }),
        _ => None,
    }
}

/// Whether a content allows a void tag.
pub(crate) fn allows_void(content: Content, tag: Void) -> bool
    ensures { result ≡ is_one_of (voids_in (content_of content)) (void_name tag) }
{
    match content {
        Content::Flow => true,
        Content::Phrasing => !matches!(tag, Void::Hr),
        Content::Linked => !matches!(tag, Void::Hr),
        _ => false,
    }
}

/// Whether a content allows a text.
pub(crate) fn may_say(content: Content, text: &[u8]) -> bool
    ensures { result ≡ may_say (content_of content) text.now }
{
    match content {
        Content::Flow => true,
        Content::Phrasing => true,
        Content::Linked => true,
        Content::Characters => true,
        Content::Preformatted => false,
        Content::Items => is_white(text),
        Content::Parts => is_white(text),
        Content::Rows => is_white(text),
        Content::Cells => is_white(text),
    }
}

/// Whether a text is white space.
fn is_white(text: &[u8]) -> bool
    ensures { result ≡ list_all is_space text.now }
{
    for byte in text {
        if !is_space(*byte) {
            return false;
        }
    }
    true
}

/// Whether a byte is white space.
#[inline(always)]
fn is_space(byte: u8) -> bool
    ensures { result ≡ is_space byte }
{
    matches!(byte, b' ' | b'\t' | b'\n' | 12 | b'\r')
}
