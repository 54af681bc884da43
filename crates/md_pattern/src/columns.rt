//! Finds the alignments of tables, from the first column to the last.

ghost use Rattle.std.specs.Prelude.{◌≡◌, OnOk, IfOk, length, map, drop};
ghost use Rattle.md_pattern.specs.Columns as spec;

use crate::summary::{Summary, alignment};
use md_base::{AlignKind, Name};
use std::alloc::{AllocError, Global};
use std::marker::Model;

/// The role of a node in the alignments of a table.
#[derive(Clone, Copy)]
enum Part {
    Apart,
    Table,
    /// A node through which a table contains its values.
    Leads,
    /// A value, whose alignment is that of a column.
    Value,
}

#[inline(always)]
fn part_of(name: Name) -> Part
    ensures { result ≡ spec.part_of name }
{
    match name {
        Name::GfmTable => Part::Table,
        Name::GfmTableHead => Part::Leads,
        Name::GfmTableDelimiterRow => Part::Leads,
        Name::GfmTableDelimiterCellValue => Part::Value,
        Name::BlockQuotePrefix => Part::Leads,
        Name::SpaceOrTab => Part::Leads,
        Name::Other(_) => Part::Leads,
        _ => Part::Apart,
    }
}

/// Whether the delimiter cell values in a node of this name are columns of the table that contains
/// it; `around` says whether they are in the parent.
#[inline(always)]
pub fn collects_in(name: Name, around: bool) -> bool
    ensures { result ≡ spec.collects_in name around }
{
    match part_of(name) {
        Part::Table => true,
        Part::Leads => around,
        Part::Value | Part::Apart => false,
    }
}

/// The alignments of the tables that have ended, and of the open tables.
#[derive(Drop)]
pub struct Columns {
    tables: Vec<Vec<AlignKind>>,
    /// The columns of the open tables, those of the innermost last.
    pending: Vec<AlignKind>,
    /// Where the columns of each open table start.
    starts: Vec<usize>,
}

impl Model for Columns {
    ghost use Rattle.std.specs.Prelude.{map, reverse};
    ghost use Rattle.md_pattern.specs.Columns.{Collected};

    ghost Value = { Collected };

    ghost view = { λ c. record {
      tables = map (λ t. t.items) c.tables.items;
      pending = c.pending.items;
      starts = reverse c.starts.items;
    } };
}

impl Columns {
    /// The state before any event.
    pub fn new(alloc: Global) -> Columns
        ensures { result ≡ spec.nothing_collected }
    {
        Columns {
            tables: Vec::new(alloc),
            pending: Vec::new(alloc),
            starts: Vec::new(alloc),
        }
    }

    /// How many tables have ended.
    pub fn count(&self) -> usize
        ensures { result ≡ length self.now.tables }
    {
        self.tables.len()
    }

    /// Handles the entry of a node.
    ///
    /// # Errors
    ///
    /// `AllocError`, only if memory runs out.
    pub fn enter(&mut self, name: Name) -> Result<(), AllocError>
        ensures { OnOk result (self.new ≡ spec.columns_entered name self.old) }
    {
        match part_of(name) {
            Part::Table => {
                self.starts.push(self.pending.len())?;
                Ok(())
            }
            _ => Ok(()),
        }
    }

    /// Handles the exit of a node whose children have these facts; `collects` says whether its
    /// parent collects values.
    ///
    /// # Errors
    ///
    /// `AllocError`, only if memory runs out.
    #[inline(always)]
    pub fn exit(
        &mut self,
        alloc: Global,
        name: Name,
        own: Summary,
        collects: bool,
    ) -> Result<(), AllocError>
        ensures { OnOk result (self.new ≡ spec.columns_exited name own collects self.old) }
    {
        match part_of(name) {
            Part::Table => self.end_table(alloc),
            Part::Value => self.collect(alignment(own), collects),
            _ => Ok(()),
        }
    }

    /// Handles the exit of a table.
    fn end_table(&mut self, alloc: Global) -> Result<(), AllocError>
        ensures { OnOk result (self.new ≡ spec.table_ended self.old) }
    {
        let start = self.starts.pop().unwrap_or(0);
        let own = columns_from(alloc, &self.pending, start)?;
        self.tables.push(own)?;
        self.pending.truncate(start);
        Ok(())
    }

    /// Handles the exit of a value.
    fn collect(&mut self, column: AlignKind, collects: bool) -> Result<(), AllocError>
        ensures { OnOk result (self.new ≡ spec.value_ended column collects self.old) }
    {
        if collects {
            self.pending.push(column)?;
        }
        Ok(())
    }

    /// Returns the alignments of the tables.
    pub fn into_tables(self) -> Vec<Vec<AlignKind>>
        ensures { map (λ t. t.items) result.items ≡ self.tables }
    {
        let Columns {
            tables,
            pending: _,
            starts: _,
        } = self;
        tables
    }
}

/// The columns from an index.
fn columns_from(
    alloc: Global,
    columns: &[AlignKind],
    start: usize,
) -> Result<Vec<AlignKind>, AllocError>
    ensures { IfOk result (λ own. own.items ≡ drop start columns.now) }
{
    match columns.get(start..) {
        Some(own) => Vec::from_slice(alloc, own),
        None => Ok(Vec::new(alloc)),
    }
}
