//! The calls of footnotes: which footnotes nothing calls.

use std::alloc::{AllocError, Global};

/// A call in a footnote.
#[derive(Clone, Copy, Debug, PartialEq, Eq)]
struct Call {
    /// The footnote that it calls.
    footnote: usize,
    /// The previous call in the same footnote.
    previous: Option<usize>,
}

/// The calls of footnotes so far. A footnote is its number in the document.
#[derive(Drop)]
pub(crate) struct Calls {
    alloc: Global,
    /// How many definitions of footnotes began so far.
    begun: usize,
    /// The footnotes that contain the text that is read, the innermost last.
    open: Vec<usize>,
    /// For each footnote how many calls of it there are outside dropped footnotes.
    counts: Vec<usize>,
    /// The calls in footnotes.
    calls: Vec<Call>,
    /// For each footnote the last call in it.
    last_calls: Vec<Option<usize>>,
    /// For each footnote whether it is dropped.
    are_dropped: Vec<bool>,
}

impl Calls {
    /// No calls.
    pub(crate) fn new(alloc: Global) -> Calls {
        Calls {
            alloc,
            begun: 0,
            open: Vec::new(alloc),
            counts: Vec::new(alloc),
            calls: Vec::new(alloc),
            last_calls: Vec::new(alloc),
            are_dropped: Vec::new(alloc),
        }
    }

    /// Whether the text that is read belongs to a footnote.
    pub(crate) fn is_in_footnote(&self) -> bool {
        !self.open.is_empty()
    }

    /// Enters the next footnote. In a footnote with the same label, which is `first`, it stands for
    /// that one, since it ends before it.
    pub(crate) fn enter(&mut self, first: Option<usize>) -> Result<(), AllocError> {
        let footnote = match first {
            Some(first) if self.open.contains(&first) => first,
            _ => self.begun,
        };
        self.open.push(footnote)?;
        self.begun = self.begun.saturating_add(1);
        Ok(())
    }

    /// Exits the innermost footnote.
    pub(crate) fn exit(&mut self) {
        let _ = self.open.pop();
    }

    /// Whether the text that is read belongs to a dropped footnote.
    pub(crate) fn is_dropped(&self) -> bool {
        match self.open.last() {
            Some(footnote) => self.are_dropped.get(*footnote).copied().unwrap_or(false),
            None => false,
        }
    }

    /// Records a call of a footnote.
    pub(crate) fn note(&mut self, footnote: usize) -> Result<(), AllocError> {
        if self.counts.len() <= footnote {
            self.counts.resize(footnote.saturating_add(1), 0)?;
        }
        if let Some(count) = self.counts.get_mut(footnote) {
            *count = count.saturating_add(1);
        }
        let Some(caller) = self.open.last().copied() else {
            return Ok(());
        };
        if self.last_calls.len() <= caller {
            self.last_calls.resize(caller.saturating_add(1), None)?;
        }
        let index = self.calls.len();
        if let Some(last) = self.last_calls.get_mut(caller) {
            let previous = *last;
            *last = Some(index);
            self.calls.push(Call { footnote, previous })?;
        }
        Ok(())
    }

    /// Drops the footnotes that nothing calls, then those that only dropped ones called, and so on.
    /// Returns whether a dropped one has calls: then the document must be read again, since these
    /// aren't calls.
    pub(crate) fn drop_uncalled(&mut self) -> Result<bool, AllocError> {
        if self.calls.is_empty() {
            return Ok(false);
        }
        let mut dropped = self.uncalled()?;
        let mut has_calls = false;
        for at in 0..self.begun {
            let Some(footnote) = dropped.get(at).copied() else {
                break;
            };
            let last = self.last_calls.get(footnote).copied().unwrap_or(None);
            has_calls = has_calls || last.is_some();
            self.remove_calls(last, &mut dropped)?;
        }
        self.note_dropped(dropped.as_slice())?;
        Ok(has_calls)
    }

    /// The footnotes that nothing calls.
    fn uncalled(&self) -> Result<Vec<usize>, AllocError> {
        let mut uncalled = Vec::new(self.alloc);
        for footnote in 0..self.begun {
            if self.counts.get(footnote).copied().unwrap_or(0) == 0 {
                uncalled.push(footnote)?;
            }
        }
        Ok(uncalled)
    }

    /// Removes the calls of a dropped footnote, the last of which is known; adds the footnotes that
    /// nothing calls then.
    fn remove_calls(
        &mut self,
        last: Option<usize>,
        dropped: &mut Vec<usize>,
    ) -> Result<(), AllocError> {
        let mut next = last;
        for _ in 0..self.calls.len() {
            let Some(index) = next else {
                break;
            };
            let Some(call) = self.calls.get(index).copied() else {
                break;
            };
            next = call.previous;
            if let Some(count) = self.counts.get_mut(call.footnote) {
                *count = count.saturating_sub(1);
                if *count == 0 {
                    dropped.push(call.footnote)?;
                }
            }
        }
        Ok(())
    }

    /// Records which footnotes are dropped, and forgets the calls.
    fn note_dropped(&mut self, dropped: &[usize]) -> Result<(), AllocError> {
        self.are_dropped.resize(self.begun, false)?;
        for footnote in dropped {
            if let Some(is_dropped) = self.are_dropped.get_mut(*footnote) {
                *is_dropped = true;
            }
        }
        self.begun = 0;
        self.open.clear();
        self.counts.clear();
        self.calls.clear();
        self.last_calls.clear();
        Ok(())
    }
}
