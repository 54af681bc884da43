//! All measures together.

ghost use Rattle.std.specs.Prelude.{◌≡◌, ◌<◌, ◌^◌, ◌++◌, ◌∷◌, [], false, length, List};
ghost use Rattle.md_base.specs.Tree.{Forest, flatten};
ghost use Rattle.md_base.specs.declared.event.Event.{Event as AnyEvent};
ghost use Rattle.md_length.specs.Work.{work};
ghost use Rattle.md_length.specs.Reuse.{entries, is_call};
ghost use Rattle.md_depth.specs.Depth.{depth};
ghost use Rattle.md_safe.specs.Links.{has_nested_link};
ghost use Rattle.md_measure.specs.Counting.{capped};
ghost use Rattle.md_measure.specs.Measured.{IsMeasured};

use crate::covered::Progress;
use crate::levels::Levels;
use crate::links::Links;
use crate::parts::Parts;
use crate::read::is_read;
use md_base::Event;

/// What is known of the events so far, and is needed to measure the next one.
#[derive(Clone, Copy)]
pub struct Measure {
    /// The length of what is read.
    pub progress: Progress,
    /// How deep they nest.
    pub levels: Levels,
    /// The parts of tables, and the footnote calls.
    pub parts: Parts,
    /// The links and images.
    pub links: Links,
}

impl Measure {
    /// The measure of no events.
    pub fn new() -> Measure
        ensures { IsMeasured result [] }
    {
        Measure {
            progress: Progress::new(),
            levels: Levels::new(),
            parts: Parts::new(),
            links: Links::new(),
        }
    }

    /// Measures one more event.
    #[inline(always)]
    pub fn note(&mut self, event: &Event)
        requires { (events : List AnyEvent)
            × (IsMeasured self.old events × (length events < 2 ^ 63)) }
        ensures { (events : List AnyEvent) → IsMeasured self.old events
            → IsMeasured self.new (events ++ event.now ∷ []) }
    {
        self.progress.note(event, is_read(event.name));
        self.levels.note(event);
        self.parts.note(event);
        self.links.note(event);
    }

    /// How deep the events nest: the maximum number of nodes that are open at once.
    #[inline(always)]
    pub fn depth(&self) -> usize
        ensures { (events : List AnyEvent) → IsMeasured self.now events → result ≡ depth events }
    {
        self.levels.deepest
    }

    /// How much the events give to read and to print, or the greatest number if it is more.
    #[inline(always)]
    pub fn work(&self) -> u128
        ensures { (events : List AnyEvent) → IsMeasured self.now events
            → result ≡ capped (work events) }
    {
        self.progress.length.saturating_add(self.parts.cells)
    }

    /// The number of events that enter a footnote call.
    #[inline(always)]
    pub fn calls(&self) -> usize
        ensures { (events : List AnyEvent) → IsMeasured self.now events
            → result ≡ entries is_call events }
    {
        self.parts.calls
    }

    /// Whether a link contains a link in the document that the events flatten, and neither is in an
    /// image.
    #[inline(always)]
    pub fn has_nested_link(&self) -> bool
        ensures { (events : List AnyEvent) (document : Forest) → IsMeasured self.now events
            → flatten document ≡ events → result ≡ has_nested_link false document }
    {
        self.links.nested
    }
}
