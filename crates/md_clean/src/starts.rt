//! Start tags.

use crate::names::{Kind, Tag};
use crate::tree::{Content, MOST_OF_BLOCKS, Tree};
use std::alloc::AllocError;

impl<'a> Tree<'a> {
    /// Reads a start tag.
    pub(crate) fn start(
        &mut self,
        name: &'a str,
        tag: Tag,
        attributes: &'a str,
    ) -> Result<(), AllocError> {
        self.skips_line_feed = false;
        match tag.kind {
            Kind::Span | Kind::Link | Kind::Code => self.open_span(name, tag, attributes),
            Kind::Break | Kind::WordBreak | Kind::Image => self.leaf(tag, attributes),
            Kind::Rule => self.rule(tag, attributes),
            Kind::Raw | Kind::Script | Kind::Plaintext | Kind::Template | Kind::Foreign => Ok(()),
            Kind::Ignored => Ok(()),
            _ if self.blocks.len() >= MOST_OF_BLOCKS => {
                self.too_deep = self.too_deep.saturating_add(1);
                Ok(())
            }
            Kind::Table => self.start_table(name, tag, attributes),
            Kind::Caption | Kind::Column | Kind::Part | Kind::Row | Kind::Cell => {
                self.start_in_table(name, tag, attributes)
            }
            _ => self.start_block(name, tag, attributes),
        }
    }

    /// Reads the start tag of a block, except those of tables.
    fn start_block(&mut self, name: &'a str, tag: Tag, attributes: &str) -> Result<(), AllocError> {
        if matches!(tag.kind, Kind::Item | Kind::Definition) {
            self.close_item(tag.kind)?;
        }
        if tag.kind != Kind::Scope {
            self.close_paragraph()?;
        }
        match tag.kind {
            Kind::Heading => self.close_heading()?,
            Kind::Item => self.make_list()?,
            _ => self.make_room()?,
        }
        self.skips_line_feed = tag.kind == Kind::Preformatted;
        self.open(name, tag, attributes)
    }

    /// Closes the paragraph that is open here.
    pub(crate) fn close_paragraph(&mut self) -> Result<(), AllocError> {
        match self.paragraph() {
            Some(index) => self.close_to(index),
            None => Ok(()),
        }
    }

    /// The index of the paragraph that is open here.
    pub(crate) fn paragraph(&self) -> Option<usize> {
        if self.paragraphs == 0 {
            return None;
        }
        let index = self.blocks.iter().rposition(|block| {
            block.tag.kind == Kind::Paragraph || ends_scope(block.tag.kind)
        })?;
        let block = self.blocks.get(index)?;
        (block.tag.kind == Kind::Paragraph).then_some(index)
    }

    /// Closes the item that ends where another one begins.
    fn close_item(&mut self, kind: Kind) -> Result<(), AllocError> {
        let found = self.blocks.iter().rposition(|block| {
            !matches!(block.tag.kind, Kind::Paragraph | Kind::Division)
        });
        let Some(index) = found else {
            return Ok(());
        };
        match self.blocks.get(index) {
            Some(block) if block.tag.kind == kind => self.close_to(index),
            _ => Ok(()),
        }
    }

    /// Closes the heading in which another one begins.
    fn close_heading(&mut self) -> Result<(), AllocError> {
        match self.blocks.last() {
            Some(block) if block.tag.kind == Kind::Heading => self.close_last(),
            _ => self.make_room(),
        }
    }

    /// Opens the list of an item that has none.
    fn make_list(&mut self) -> Result<(), AllocError> {
        match self.content() {
            Content::Flow | Content::Table if self.is_chosen("ul") => self.imply_list(),
            _ => Ok(()),
        }
    }
}

/// Whether a block ends the scope of paragraphs.
pub(crate) fn ends_scope(kind: Kind) -> bool {
    matches!(kind, Kind::Table | Kind::Cell | Kind::Caption | Kind::Scope)
}
