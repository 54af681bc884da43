//! Void tags.

use crate::attributes::push_tag;
use crate::names::{Kind, Tag};
use crate::tree::{Content, Tree};
use std::alloc::AllocError;

impl<'a> Tree<'a> {
    /// Writes a void tag of spans: `br`, `wbr` or `img`.
    pub(crate) fn leaf(&mut self, tag: Tag, attributes: &str) -> Result<(), AllocError> {
        if !tag.is_written && self.content() != Content::Code {
            self.begin_line_at(tag.kind);
            return Ok(());
        }
        if tag.kind == Kind::Break {
            self.has_line = false;
            self.is_break_due = false;
        }
        match self.content() {
            Content::Code => self.break_code(tag),
            Content::Items if tag.kind != Kind::Image => Ok(()),
            _ => {
                self.make_room()?;
                if tag.kind == Kind::Image {
                    self.write_break()?;
                }
                self.write_spans()?;
                self.close_code()?;
                self.push_leaf(tag, attributes)
            }
        }
    }

    /// Begins a line where a line break or a rule isn't written.
    fn begin_line_at(&mut self, kind: Kind) {
        if matches!(kind, Kind::Break | Kind::Rule) {
            self.begin_line(kind, false);
        }
    }

    /// Writes a line break in preformatted code.
    fn break_code(&mut self, tag: Tag) -> Result<(), AllocError> {
        if tag.kind != Kind::Break {
            return Ok(());
        }
        let is_in_table = self.is_in_table();
        self.output(is_in_table).push('\n')
    }

    /// Writes a rule.
    pub(crate) fn rule(&mut self, tag: Tag, attributes: &str) -> Result<(), AllocError> {
        self.close_paragraph()?;
        if !tag.is_written {
            self.begin_line_at(tag.kind);
            return Ok(());
        }
        self.make_room()?;
        match self.content() {
            Content::Flow | Content::Table => {
                self.close_written_spans()?;
                self.push_leaf(tag, attributes)
            }
            _ => Ok(()),
        }
    }

    /// Writes a void tag.
    fn push_leaf(&mut self, tag: Tag, attributes: &str) -> Result<(), AllocError> {
        let alloc = self.alloc;
        let is_in_table = self.is_in_table();
        let protocols = self.options.protocols;
        let out = self.output(is_in_table);
        push_tag(alloc, out, tag, attributes, protocols)?;
        out.push_str(" />")
    }
}
