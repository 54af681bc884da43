//! Prints tables: rows and cells.

ghost use Rattle.std.specs.Prelude.{◌≡◌, ◌∷◌, ◌++◌, [], OnOk, Some, None, true, false, ℕ, List};
ghost use Rattle.std.specs.Prelude.{if◌then◌else◌, codes, slice_get, ◌+◌, ◌<◌, ◌^◌, drop};
ghost use Rattle.std.specs.Option.{option_map_or};
ghost use Rattle.md_meaning.specs.Meaning.Layout.{laid_after, on_own_line};
ghost use Rattle.md_steps.specs.Sides as sides;
ghost use Rattle.md_steps.specs.Steps as steps;
ghost use Rattle.md_printer.specs.Parts as parts;
ghost use Rattle.std.specs.List.{flat_map};
ghost use Rattle.md_base.specs.declared.event.Name.TheVariants as names;
ghost use Rattle.md_meaning.specs.Meaning.Spans.{marker};
ghost use Rattle.md_meaning.specs.Meaning.Tables.{cell_of};

use crate::printer::Printer;
use crate::scope::Scope;
use md_base::{AlignKind, Name};
use std::alloc::AllocError;

impl<'a> Printer<'a> {
    /// Enters a row, which has no cells yet.
    #[inline(always)]
    pub(crate) fn enter_row(&mut self, ending: &str) -> Result<(), AllocError>
        ensures { OnOk result (self.new ≡ record self.old {
          text = laid_after ending.now self.old.text (on_own_line (codes "<tr>"));
          ended = None;
          marker = 38;
          cells = 0;
        }) }
    {
        self.cells = 0;
        self.enter_line(ending, "<tr>")
    }

    /// Enters a cell: prints its tag, if the table has its column.
    pub(crate) fn enter_cell(&mut self, ending: &str) -> Result<(), AllocError>
        ensures { OnOk result (self.new ≡ record self.old {
          text = [];
          below = laid_after ending.now self.old.text
              (option_map_or (λ kind. sides.cell_opening self.old.scope.in_head kind)
              (slice_get self.old.scope.columns self.old.cells) []) ∷ self.old.below;
          ended = None;
          marker = 38;
        }) }
    {
        self.enters();
        self.open_cell(ending)?;
        self.capture()
    }

    /// Prints a cell's tag, if the table has its column.
    fn open_cell(&mut self, ending: &str) -> Result<(), AllocError>
        ensures { OnOk result (self.new ≡ record self.old {
          text = laid_after ending.now self.old.text
              (option_map_or (λ kind. sides.cell_opening self.old.scope.in_head kind)
              (slice_get self.old.scope.columns self.old.cells) []);
        }) }
    {
        match self.scope.columns.get(self.cells) {
            Some(kind) => self.open_column(ending, *kind),
            None => Ok(()),
        }
    }

    /// Prints the tag of a column's cell.
    fn open_column(&mut self, ending: &str, kind: AlignKind) -> Result<(), AllocError>
        ensures { OnOk result (self.new ≡ record self.old {
          text =
              laid_after ending.now self.old.text (sides.cell_opening self.old.scope.in_head kind);
        }) }
    {
        let tag = cell_start(self.scope.in_head, kind);
        self.line(ending, tag)
    }

    /// Pushes the surroundings of a table.
    pub(crate) fn push_table(&mut self, columns: &'a [AlignKind]) -> Result<(), AllocError>
        ensures { OnOk result (self.new ≡ record self.old {
          scope = record self.old.scope { in_table = true; columns = columns.now };
          scopes = self.old.scope ∷ self.old.scopes;
        }) }
    {
        self.push_scope(Scope {
            in_table: true,
            columns,
            ..self.scope
        })
    }

    /// Leaves a cell: drops its content if the table doesn't have its column.
    pub(crate) fn leave_cell(&mut self) -> Result<(), AllocError>
        requires { self.old.cells < 2 ^ 63 }
        ensures { OnOk result ((ending : List ℕ) → self.new ≡ record self.old {
          text = laid_after ending (steps.first_or [] self.old.below)
              (option_map_or (λ kind. sides.cell_closing self.old.scope.in_head self.old.text)
              (slice_get self.old.scope.columns self.old.cells) []);
          below = steps.others_of self.old.below;
          cells = self.old.cells + 1;
          ended = Some names.GfmTableCell;
          marker = 38;
        }) }
    {
        let is_there = self.scope.columns.get(self.cells).is_some();
        self.cells += 1;
        self.ends(Name::GfmTableCell);
        if is_there {
            self.output.join();
            self.put(cell_end(self.scope.in_head))
        } else {
            self.discard();
            Ok(())
        }
    }

    /// Leaves a row: prints empty cells for the columns that it lacks, and its tag.
    #[inline(never)]
    pub(crate) fn leave_row(&mut self, ending: &str) -> Result<(), AllocError>
        ensures { OnOk result (self.new ≡ record self.old {
          text = laid_after ending.now self.old.text (flat_map (cell_of self.old.scope.in_head [])
              (drop self.old.cells self.old.scope.columns) ++ on_own_line (codes "</tr>"));
          ended = Some names.GfmTableRow;
          marker = 38;
        }) }
    {
        self.ends(Name::GfmTableRow);
        self.put_empty_cells(ending)?;
        self.line(ending, "</tr>")
    }

    /// Prints empty cells for the columns that the row lacks.
    fn put_empty_cells(&mut self, ending: &str) -> Result<(), AllocError>
        ensures { OnOk result (self.new ≡ record self.old {
          text = laid_after ending.now self.old.text (flat_map (cell_of self.old.scope.in_head [])
              (drop self.old.cells self.old.scope.columns));
        }) }
    {
        let mut rest = columns_past(self.scope.columns, self.cells);
        while let Some((kind, others)) = rest.split_first() {
            self.put_empty_cell(ending, *kind)?;
            rest = others;
        }
        Ok(())
    }

    /// Prints an empty cell.
    fn put_empty_cell(&mut self, ending: &str, kind: AlignKind) -> Result<(), AllocError>
        ensures { OnOk result (self.new ≡ record self.old {
          text = laid_after ending.now self.old.text (cell_of self.old.scope.in_head [] kind);
        }) }
    {
        let cell = empty_cell(self.scope.in_head, kind);
        self.line(ending, cell)
    }
}

/// The start tag of a column's cell, by the column's alignment.
fn cell_start(in_head: bool, kind: AlignKind) -> &'static str
    ensures { result.now ≡ parts.cell_start in_head kind }
{
    match (kind, in_head) {
        (AlignKind::None, false) => "<td>",
        (AlignKind::None, true) => "<th>",
        (AlignKind::Left, false) => "<td align=\"left\">",
        (AlignKind::Left, true) => "<th align=\"left\">",
        (AlignKind::Right, false) => "<td align=\"right\">",
        (AlignKind::Right, true) => "<th align=\"right\">",
        (AlignKind::Center, false) => "<td align=\"center\">",
        (AlignKind::Center, true) => "<th align=\"center\">",
    }
}

/// An empty cell of a column, by the column's alignment.
fn empty_cell(in_head: bool, kind: AlignKind) -> &'static str
    ensures { result.now ≡ parts.empty_cell in_head kind }
{
    match (kind, in_head) {
        (AlignKind::None, false) => "<td></td>",
        (AlignKind::None, true) => "<th></th>",
        (AlignKind::Left, false) => "<td align=\"left\"></td>",
        (AlignKind::Left, true) => "<th align=\"left\"></th>",
        (AlignKind::Right, false) => "<td align=\"right\"></td>",
        (AlignKind::Right, true) => "<th align=\"right\"></th>",
        (AlignKind::Center, false) => "<td align=\"center\"></td>",
        (AlignKind::Center, true) => "<th align=\"center\"></th>",
    }
}

/// A cell's end tag.
fn cell_end(in_head: bool) -> &'static str
    ensures { result.now ≡ (if in_head then codes "</th>" else codes "</td>") }
{
    if in_head { "</th>" } else { "</td>" }
}

/// The columns from an index.
fn columns_past(columns: &[AlignKind], first: usize) -> &[AlignKind]
    ensures { result.now ≡ drop first columns.now }
{
    if first < columns.len() {
        &columns[first..]
    } else {
        &[]
    }
}
