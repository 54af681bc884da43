//! The nodes of a document beside its HTML.

use crate::content::Content;
use md_base::Name;

/// What a node is to the tags around it, and to those in it.
#[derive(Clone, Copy, Debug, PartialEq, Eq)]
pub(crate) enum Own {
    /// A block, and what may be written in it.
    Block(Content),
    /// A cell or a part of a block, and what may be written in it.
    Part(Content),
    /// A span: in it may be written what may be written around it.
    Span,
    Link,
    /// A span in which no tag is kept.
    Leaf,
}

/// What a node of this name is; `None` if it is nothing to tags.
pub(crate) fn own_of(name: Name) -> Option<Own> {
    match name {
        Name::BlockQuote | Name::ListItem | Name::GfmFootnoteDefinition => {
            Some(Own::Block(Content::Flow))
        }
        Name::ListOrdered | Name::ListUnordered | Name::GfmTable => {
            Some(Own::Block(Content::Flow))
        }
        Name::Paragraph | Name::HeadingAtx | Name::HeadingSetextText => {
            Some(Own::Block(Content::Phrasing))
        }
        Name::CodeIndented | Name::CodeFenced | Name::MathFlow | Name::ThematicBreak => {
            Some(Own::Block(Content::Nothing))
        }
        Name::GfmTableCell => Some(Own::Part(Content::Phrasing)),
        _ => span_of(name),
    }
}

/// The same for spans.
fn span_of(name: Name) -> Option<Own> {
    match name {
        Name::Emphasis | Name::Strong | Name::GfmStrikethrough => Some(Own::Span),
        Name::Link
        | Name::AutolinkEmail
        | Name::AutolinkProtocol
        | Name::GfmAutolinkLiteralEmail
        | Name::GfmAutolinkLiteralMailto
        | Name::GfmAutolinkLiteralProtocol
        | Name::GfmAutolinkLiteralWww
        | Name::GfmAutolinkLiteralXmpp
        | Name::GfmFootnoteCall => Some(Own::Link),
        Name::CodeText
        | Name::MathText
        | Name::Image
        | Name::HardBreakEscape
        | Name::HardBreakTrailing
        | Name::GfmTaskListItemCheck => Some(Own::Leaf),
        _ => None,
    }
}
