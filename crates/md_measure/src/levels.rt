//! How deep events nest, counted event by event.

ghost use Rattle.std.specs.Prelude.{◌≡◌, ◌^◌, ◌<◌, ◌≤◌, max};
ghost use Rattle.md_depth.specs.Depth.{opened_after};

use md_base::{Event, Kind};

/// How deep the events so far nest.
#[derive(Clone, Copy)]
pub struct Levels {
    /// The number of open nodes.
    pub opened: usize,
    /// The maximum number of open nodes.
    pub deepest: usize,
}

impl Levels {
    /// The state before any event.
    pub fn new() -> Levels
        ensures opened { result.opened ≡ 0 }
        ensures deepest { result.deepest ≡ 0 }
    {
        Levels {
            opened: 0,
            deepest: 0,
        }
    }

    /// Counts one more event.
    #[inline(always)]
    pub fn note(&mut self, event: &Event)
        requires few { self.old.opened < 2 ^ 63 }
        requires deepest { self.old.opened ≤ self.old.deepest }
        ensures opened { self.new.opened ≡ opened_after self.old.opened event.now }
        ensures deepest { self.new.deepest
            ≡ max self.old.deepest (opened_after self.old.opened event.now) }
    {
        match event.kind {
            Kind::Enter => {
                self.opened += 1;
                if self.opened > self.deepest {
                    self.deepest = self.opened;
                }
            }
            Kind::Exit => self.opened = self.opened.saturating_sub(1),
        }
    }
}
