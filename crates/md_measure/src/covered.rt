//! Iterates over events, and adds the lengths of their nodes.

ghost use Rattle.std.specs.Prelude.{◌≡◌, ◌+◌, ◌-◌, ◌*◌, ◌^◌, ◌<◌};
ghost use Rattle.md_measure.specs.Counting.{capped, moved};

use md_base::{Event, Kind};

/// The state of the iteration.
#[derive(Clone, Copy)]
pub struct Progress {
    /// The index of the last event's point.
    pub index: usize,
    /// How many counted nodes are open there.
    pub depth: usize,
    /// The sum of their lengths so far.
    pub length: u128,
}

impl Progress {
    /// The state before any event.
    pub fn new() -> Progress
        ensures index { result.index ≡ 0 }
        ensures depth { result.depth ≡ 0 }
        ensures length { result.length ≡ 0 }
    {
        Progress {
            index: 0,
            depth: 0,
            length: 0,
        }
    }

    /// Adds one more event, of a node that counts or doesn't. The length changes only if a counted
    /// node is open.
    #[inline(always)]
    pub fn note(&mut self, event: &Event, counts: bool)
        requires { self.old.depth < 2 ^ 63 }
        ensures index { self.new.index ≡ event.now.point.index }
        ensures depth { self.new.depth ≡ moved self.old.depth event.now.kind counts }
        ensures length { self.new.length
            ≡ capped (self.old.length + self.old.depth * (event.now.point.index - self.old.index)) }
    {
        let Progress {
            index: last,
            depth,
            length,
        } = *self;
        let index = event.point.index;
        if depth > 0 {
            self.length = length.saturating_add(product(depth, index.saturating_sub(last)));
        }
        self.index = index;
        self.depth = moved(depth, event.kind, counts);
    }
}

/// A product that can't overflow.
#[inline(always)]
fn product(a: usize, b: usize) -> u128
    ensures { result ≡ a * b }
{
    a as u128 * b as u128
}

/// How many counted nodes are open after an event of a node that counts or doesn't.
#[inline(always)]
fn moved(depth: usize, kind: Kind, counts: bool) -> usize
    requires { depth < 2 ^ 63 }
    ensures { result ≡ moved depth kind counts }
{
    // Without a branch on whether it counts, which would be hard to predict.
    let change = counts as usize;
    match kind {
        Kind::Enter => depth + change,
        Kind::Exit => depth.saturating_sub(change),
    }
}
