//! The work of a list of events (what is read and printed), and how deep they nest: measured in one
//! pass.

ghost use Rattle.std.specs.Prelude.{◌≡◌, ◌-◌, ◌^◌, ℕ, min, nat_lt};
ghost use Rattle.md_length.specs.Work.{work};
ghost use Rattle.md_depth.specs.Depth.{depth};
ghost use Rattle.md_measure.specs.Counting.{capped};
ghost use Rattle.md_measure.specs.Measured.{IsMeasured};

use md_base::Event;
use md_measure::Measure;

/// Returns how much a list of events gives to read and to print, or `usize::MAX` if it is more.
///
/// The count is the lengths of texts and of labels: for a parser's events at most the document's
/// length, and once more that of each label; and for each row of a table's body five for each of
/// its columns. The row of its head ends before the columns are known, and counts nothing.
/// [`reuse_of`](crate::reuse_of) counts what a document uses again.
///
/// # Examples
///
/// ```
/// let limits = Limits { text: 1 << 20, work: work_of(&events), depth: 256 };
/// ```
pub fn work_of(events: &[Event]) -> usize
    ensures { result ≡ min (work events.now) (2 ^ 64 - 1) }
{
    measure(events).work().min(usize::MAX as u128) as usize
}

/// Whether the work of a list of events exceeds a limit.
///
/// # Examples
///
/// ```
/// assert!(!is_over(&events, work_of(&events)));
/// ```
pub fn is_over(events: &[Event], limit: usize) -> bool
    ensures { result ≡ nat_lt limit (work events.now) }
{
    exceeds(measure(events).work(), limit)
}

/// Returns how deep a list of events nests: the maximum number of nodes that are open at once. For
/// a document's events that is how deep its nodes nest.
///
/// # Examples
///
/// ```
/// let limits = Limits { text: 1 << 20, work: 1 << 23, depth: depth_of(&events) };
/// ```
pub fn depth_of(events: &[Event]) -> usize
    ensures { result ≡ depth events.now }
{
    measure(events).depth()
}

/// Events with their measure, a document's bytes, and a table of names.
#[derive(Drop)]
pub struct MeasuredEvents<'a> {
    /// The events.
    pub events: &'a [Event],
    /// The document's bytes.
    pub bytes: &'a [u8],
    /// The names of character references, each with its text.
    pub names: &'a [(&'a str, &'a str)],
    /// The measure of the events.
    pub measure: Measure,
    pub ghost measured: { IsMeasured measure events.now },
}

impl<'a> MeasuredEvents<'a> {
    ghost use Rattle.std.specs.Prelude.{◌≡◌};
    ghost use Rattle.md_tree.specs.Grammar.{handed};
    ghost use Rattle.md_html.specs.MeasuredEvents.{handed_by};

    /// Measures events.
    pub fn new(
        events: &'a [Event],
        bytes: &'a [u8],
        names: &'a [(&'a str, &'a str)],
    ) -> MeasuredEvents<'a>
        ensures { handed_by result ≡ handed events.entry.now bytes.entry.now names.entry.now }
    {
        MeasuredEvents {
            events,
            bytes,
            names,
            measure: measure(events),
        }
    }
}

/// Measures events.
pub(crate) fn measure(events: &[Event]) -> Measure
    ensures { IsMeasured result events.now }
{
    let mut measure = Measure::new();
    let mut rest = events;
    while let Some((event, following)) = rest.split_first() {
        measure.note(event);
        rest = following;
    }
    measure
}

/// Whether a measured work exceeds a limit.
pub(crate) fn exceeds(work: u128, limit: usize) -> bool
    ensures { (given : ℕ) → work ≡ capped given → result ≡ nat_lt limit given }
{
    work > limit as u128
}
