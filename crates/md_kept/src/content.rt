//! The content model of kept tags.

use crate::own::Own;
use md_clean::{Kind, Tag};

/// What may be written at a place.
#[derive(Clone, Copy, Debug, PartialEq, Eq)]
pub(crate) enum Content {
    Flow,
    Phrasing,
    /// Phrasing content without links.
    Linked,
    /// The items of a list.
    Items,
    /// The parts of a table.
    Parts,
    /// The rows of a table.
    Rows,
    /// The cells of a row.
    Cells,
    /// Characters.
    Code,
    /// No tags, no nodes.
    Nothing,
}

impl Content {
    /// Whether spans may be written.
    pub(crate) fn has_spans(self) -> bool {
        matches!(self, Content::Flow | Content::Phrasing | Content::Linked)
    }

    /// Whether a node of the document may be written, or a text that isn't white space.
    pub(crate) fn has(self, own: Option<Own>) -> bool {
        match own {
            None => self.has_spans() || matches!(self, Content::Code | Content::Nothing),
            Some(Own::Block(_)) => self == Content::Flow,
            Some(Own::Part(_)) => true,
            Some(Own::Link) => matches!(self, Content::Flow | Content::Phrasing),
            Some(Own::Span | Own::Leaf) => self.has_spans(),
        }
    }

    /// What may be written in a node of the document that is written here.
    pub(crate) fn in_own(self, own: Own) -> Content {
        match own {
            Own::Block(content) | Own::Part(content) => content,
            Own::Span => self,
            Own::Link => Content::Linked,
            Own::Leaf => Content::Nothing,
        }
    }

    /// Whether a void tag may be written.
    pub(crate) fn has_void(self, kind: Kind) -> bool {
        match kind {
            Kind::Rule => self == Content::Flow,
            _ => self.has_spans(),
        }
    }

    /// What may be written in an element, if it may be written here.
    pub(crate) fn in_element(self, tag: Tag) -> Option<Content> {
        match self {
            Content::Flow => span_content(Content::Phrasing, tag.kind).or_else(|| block_content(
                tag.kind,
            )),
            Content::Phrasing => span_content(self, tag.kind),
            Content::Linked if tag.kind == Kind::Link => None,
            Content::Linked => span_content(self, tag.kind),
            Content::Items => (tag.kind == Kind::Item).then_some(Content::Flow),
            Content::Parts => (tag.kind == Kind::Part).then_some(Content::Rows),
            Content::Rows => (tag.kind == Kind::Row).then_some(Content::Cells),
            Content::Cells => (tag.kind == Kind::Cell).then_some(Content::Phrasing),
            Content::Code | Content::Nothing => None,
        }
    }
}

/// What may be written in a span.
fn span_content(around: Content, kind: Kind) -> Option<Content> {
    match kind {
        Kind::Span => Some(around),
        Kind::Link => Some(Content::Linked),
        Kind::Code => Some(Content::Code),
        _ => None,
    }
}

/// What may be written in a block.
fn block_content(kind: Kind) -> Option<Content> {
    match kind {
        Kind::Paragraph | Kind::Heading | Kind::Summary => Some(Content::Phrasing),
        Kind::Division | Kind::Flow => Some(Content::Flow),
        Kind::List => Some(Content::Items),
        Kind::Preformatted => Some(Content::Code),
        Kind::Table => Some(Content::Parts),
        _ => None,
    }
}
