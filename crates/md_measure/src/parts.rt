//! Parts of tables, and footnote calls, counted event by event.

ghost use Rattle.std.specs.Prelude.{◌≡◌, ◌+◌, ◌*◌, ◌^◌, ◌<◌, if◌then◌else◌};
ghost use Rattle.md_length.specs.Work.{enters, exits, is_row, columns_after};
ghost use Rattle.md_length.specs.Reuse.{is_call};
ghost use Rattle.md_measure.specs.Counting.{capped, is_part};

use md_base::{Event, Kind, Name};

/// The counts of parts of tables, and of footnote calls.
#[derive(Clone, Copy)]
pub struct Parts {
    /// How many columns of the open table are known.
    pub columns: usize,
    /// The count of the cells of tables.
    pub cells: u128,
    /// The number of footnote calls that were entered.
    pub calls: usize,
}

impl Parts {
    /// The state before any event.
    pub fn new() -> Parts
        ensures columns { result.columns ≡ 0 }
        ensures cells { result.cells ≡ 0 }
        ensures calls { result.calls ≡ 0 }
    {
        Parts {
            columns: 0,
            cells: 0,
            calls: 0,
        }
    }

    /// Counts one more event.
    #[inline(always)]
    pub fn note(&mut self, event: &Event)
        requires columns { self.old.columns < 2 ^ 63 }
        requires calls { self.old.calls < 2 ^ 63 }
        ensures columns { self.new.columns ≡ columns_after self.old.columns event.now }
        ensures cells { self.new.cells ≡ capped (self.old.cells
            + (if exits is_row event.now then 5 * self.old.columns else 0)) }
        ensures calls { self.new.calls
            ≡ self.old.calls + (if enters is_call event.now then 1 else 0) }
    {
        // Reading it brings its range into the proof.
        let _cells = self.cells;
        if is_part(event.name) {
            *self = self.after_part(event);
        }
    }

    /// The state after an event of a part of a table, or of a footnote call.
    #[inline(never)]
    fn after_part(self, event: &Event) -> Parts
        requires columns { self.columns < 2 ^ 63 }
        requires calls { self.calls < 2 ^ 63 }
        ensures columns { result.columns ≡ columns_after self.columns event.now }
        ensures cells { result.cells ≡ capped (self.cells
            + (if exits is_row event.now then 5 * self.columns else 0)) }
        ensures calls { result.calls
            ≡ self.calls + (if enters is_call event.now then 1 else 0) }
    {
        Parts {
            columns: columns_after(self.columns, event),
            cells: cells_after(self.cells, self.columns, event),
            calls: self.calls + calls_entered(event),
        }
    }
}

/// The count of cells so far, with those of the row that an event exits, if it exits one.
#[inline(always)]
fn cells_after(cells: u128, columns: usize, event: &Event) -> u128
    ensures { result
        ≡ capped (cells + (if exits is_row event.now then 5 * columns else 0)) }
{
    match event.kind {
        Kind::Exit if matches!(event.name, Name::GfmTableRow) => {
            cells.saturating_add(5 * columns as u128)
        }
        _ => cells,
    }
}

/// How many columns of the open table are known after an event.
#[inline(always)]
fn columns_after(columns: usize, event: &Event) -> usize
    requires { columns < 2 ^ 63 }
    ensures { result ≡ columns_after columns event.now }
{
    match (event.kind, event.name) {
        (Kind::Enter, Name::GfmTable) => 0,
        (Kind::Enter, Name::GfmTableDelimiterCellValue) => columns + 1,
        _ => columns,
    }
}

/// One if an event enters a footnote call, else 0.
#[inline(always)]
fn calls_entered(event: &Event) -> usize
    ensures { result ≡ (if enters is_call event.now then 1 else 0) }
{
    match event.kind {
        Kind::Enter => is_call(event.name) as usize,
        Kind::Exit => 0,
    }
}

/// Whether a name is that of a footnote call.
#[inline(always)]
pub fn is_call(name: Name) -> bool
    ensures { result ≡ is_call name }
{
    matches!(name, Name::GfmFootnoteCall)
}

/// Whether a name is that of a table, of a counted part of one, or of a footnote call.
#[inline(always)]
fn is_part(name: Name) -> bool
    ensures { result ≡ is_part name }
{
    matches!(
        name,
        Name::GfmTable
            | Name::GfmTableRow
            | Name::GfmTableDelimiterCellValue
            | Name::GfmFootnoteCall
    )
}
