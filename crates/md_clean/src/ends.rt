//! End tags.

use crate::names::{Kind, Tag};
use crate::starts::ends_scope;
use crate::tree::{Block, Tree};
use std::alloc::AllocError;

impl Block<'_> {
    /// Whether the block has this name in any case.
    pub(crate) fn has_name(&self, name: &str) -> bool {
        self.name.as_bytes().eq_ignore_ascii_case(name.as_bytes())
    }
}

impl<'a> Tree<'a> {
    /// Reads an end tag.
    pub(crate) fn end(&mut self, name: &'a str, tag: Tag) -> Result<(), AllocError> {
        self.skips_line_feed = false;
        match tag.kind {
            Kind::Span | Kind::Link | Kind::Code => self.end_span(name, tag),
            Kind::Break => self.leaf(tag, ""),
            Kind::WordBreak | Kind::Image | Kind::Rule | Kind::Ignored | Kind::Column => Ok(()),
            Kind::Raw | Kind::Script | Kind::Plaintext | Kind::Template | Kind::Foreign => Ok(()),
            _ if self.too_deep > 0 => {
                self.too_deep = self.too_deep.saturating_sub(1);
                Ok(())
            }
            Kind::Paragraph => self.end_paragraph(name, tag),
            Kind::Table | Kind::Caption | Kind::Part | Kind::Row | Kind::Cell => {
                self.end_in_table(name)
            }
            _ => self.end_block(name, tag.kind),
        }
    }

    /// Reads the end tag of a paragraph: where none is open, it is an empty paragraph.
    fn end_paragraph(&mut self, name: &'a str, tag: Tag) -> Result<(), AllocError> {
        if self.paragraph().is_none() {
            self.make_room()?;
            self.open(name, tag, "")?;
        }
        self.close_paragraph()
    }

    /// Reads the end tag of a block, except those of tables.
    fn end_block(&mut self, name: &str, kind: Kind) -> Result<(), AllocError> {
        let found = self.blocks.iter().rposition(|block| is_ended(block, name, kind)
            || ends_search(block, kind));
        let Some(index) = found else {
            return Ok(());
        };
        match self.blocks.get(index) {
            Some(block) if is_ended(block, name, kind) => self.close_to(index),
            _ => Ok(()),
        }
    }
}

/// Whether an end tag ends a block: that of a heading ends any heading.
fn is_ended(block: &Block<'_>, name: &str, kind: Kind) -> bool {
    if kind == Kind::Heading {
        block.tag.kind == Kind::Heading
    } else {
        block.has_name(name)
    }
}

/// Whether an end tag ends no block outside this one.
fn ends_search(block: &Block<'_>, kind: Kind) -> bool {
    ends_scope(block.tag.kind) || (kind == Kind::Item && block.tag.kind == Kind::List)
}
