//! Tags of tables.

use crate::names::{Kind, Tag};
use crate::tree::Tree;
use std::alloc::AllocError;

impl<'a> Tree<'a> {
    /// Reads the start tag of a table: it ends an open one, except in a cell or a caption.
    pub(crate) fn start_table(
        &mut self,
        name: &'a str,
        tag: Tag,
        attributes: &str,
    ) -> Result<(), AllocError> {
        if let Some(index) = self.innermost(Kind::Table) {
            let is_in_cell = self.blocks.iter().skip(index).any(|block| matches!(
                block.tag.kind,
                Kind::Cell | Kind::Caption
            ));
            if !is_in_cell {
                self.close_to(index)?;
            }
        }
        self.close_paragraph()?;
        self.make_room()?;
        self.open(name, tag, attributes)
    }

    /// Reads the start tag of a part of a table, in which it ends or implies others.
    pub(crate) fn start_in_table(
        &mut self,
        name: &'a str,
        tag: Tag,
        attributes: &str,
    ) -> Result<(), AllocError> {
        if self.tables == 0 {
            return Ok(());
        }
        let found = self
            .blocks
            .iter()
            .rposition(|block| may_be_in(tag.kind, block.tag.kind));
        let Some(index) = found else {
            return Ok(());
        };
        let kind = self
            .blocks
            .get(index)
            .map_or(Kind::Table, |block| block.tag.kind);
        let depth = index.saturating_add(1);
        self.close_to(depth)?;
        self.end_spans(depth, false)?;
        if kind == Kind::Table && matches!(tag.kind, Kind::Row | Kind::Cell) {
            self.imply("tbody")?;
        }
        if kind != Kind::Row && tag.kind == Kind::Cell {
            self.imply("tr")?;
        }
        if tag.kind == Kind::Column {
            return Ok(());
        }
        self.open(name, tag, attributes)
    }

    /// Reads the end tag of a table or a part of one.
    pub(crate) fn end_in_table(&mut self, name: &str) -> Result<(), AllocError> {
        if self.tables == 0 {
            return Ok(());
        }
        let found = self.blocks.iter().rposition(|block| {
            block.tag.kind == Kind::Table || block.has_name(name)
        });
        let Some(index) = found else {
            return Ok(());
        };
        match self.blocks.get(index) {
            Some(block) if block.has_name(name) => self.close_to(index),
            _ => Ok(()),
        }
    }

    /// The index of the innermost block of a kind.
    fn innermost(&self, kind: Kind) -> Option<usize> {
        self.blocks.iter().rposition(|block| block.tag.kind == kind)
    }
}

/// Whether an element of a table may be in another one, if others are implied.
fn may_be_in(kind: Kind, outer: Kind) -> bool {
    match outer {
        Kind::Table => true,
        Kind::Part => matches!(kind, Kind::Row | Kind::Cell),
        Kind::Row => kind == Kind::Cell,
        _ => false,
    }
}
