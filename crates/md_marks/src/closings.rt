//! Finds the ends of inline code and math.

use crate::leaf::{Leaf, run_length};
use md_lines::{Place, find_any};
use memchr::memchr;
use std::alloc::{AllocError, Global};

/// The last positions of runs of backticks in a leaf, so that none is searched twice.
#[derive(Drop)]
pub struct Ticks {
    /// For each length, the beginning of the last run.
    last: Vec<usize>,
    /// Whether all runs of the leaf are recorded.
    is_known: bool,
}

impl Ticks {
    /// Nothing is known yet.
    pub fn new(alloc: Global) -> Ticks {
        Ticks {
            last: Vec::new(alloc),
            is_known: false,
        }
    }

    /// Resets the state for a new leaf.
    pub fn clear(&mut self) {
        self.last.clear();
        self.is_known = false;
    }

    /// Returns the beginning of a run of `length` backticks, at a place or later.
    ///
    /// # Errors
    ///
    /// Returns an error only if memory runs out.
    pub fn find(
        &mut self,
        leaf: &Leaf,
        place: Place,
        length: usize,
    ) -> Result<Option<Place>, AllocError> {
        if self.is_known && self.last.get(length).copied().unwrap_or(0) < place.at {
            return Ok(None);
        }
        let mut from = place.at;
        for line in place.line..leaf.lines.len() {
            if let Some(at) = self.find_in_line(leaf.bytes, leaf.end(line), from, length)? {
                return Ok(Some(Place { line, at }));
            }
            from = leaf.start(line.saturating_add(1));
        }
        self.is_known = true;
        Ok(None)
    }

    /// The same in a line.
    #[inline(always)]
    fn find_in_line(
        &mut self,
        bytes: &[u8],
        end: usize,
        from: usize,
        length: usize,
    ) -> Result<Option<usize>, AllocError> {
        let text = bytes.get(..end).unwrap_or(b"");
        let mut at = from;
        while at < text.len() {
            let start = find_any(bytes, [b'`'; 3], at, text.len());
            if start >= text.len() {
                break;
            }
            let count = run_length(&text[start..], b'`');
            if count == length {
                return Ok(Some(start));
            }
            self.note(count, start)?;
            at = start.saturating_add(count).max(at + 1);
        }
        Ok(None)
    }

    fn note(&mut self, length: usize, at: usize) -> Result<(), AllocError> {
        if self.is_known {
            return Ok(());
        }
        if self.last.len() <= length {
            self.last.resize(length.saturating_add(1), 0)?;
        }
        if let Some(last) = self.last.get_mut(length) {
            *last = at;
        }
        Ok(())
    }
}

/// The ends of math that a leaf is known not to have after some place.
#[derive(Clone, Copy, Debug, PartialEq, Eq)]
pub struct Dollars {
    lacks_single: bool,
    lacks_double: bool,
}

impl Dollars {
    /// Nothing is known yet.
    pub fn new() -> Dollars {
        Dollars {
            lacks_single: false,
            lacks_double: false,
        }
    }

    /// Returns the end of math that continues at a place, after one `$` or two: the place where the
    /// same mark begins again. Calls must move forward in the leaf.
    pub fn find(&mut self, leaf: &Leaf, place: Place, is_double: bool) -> Option<Place> {
        if (is_double && self.lacks_double) || (!is_double && self.lacks_single) {
            return None;
        }
        let mut from = place.at;
        for line in place.line..leaf.lines.len() {
            let text = leaf.until_end(line);
            if let Some(at) = math_end(text, leaf.start(line), from, place.at, is_double) {
                return Some(Place { line, at });
            }
            from = leaf.start(line.saturating_add(1));
        }
        if is_double {
            self.lacks_double = true;
        } else {
            self.lacks_single = true;
        }
        None
    }
}

/// The index where `$` or `$$` ends math, after `after`, in a line that begins at `start` and ends
/// with the text.
fn math_end(
    text: &[u8],
    start: usize,
    from: usize,
    after: usize,
    is_double: bool,
) -> Option<usize> {
    let width = if is_double { 2 } else { 1 };
    let mut at = from;
    while at < text.len() {
        let dollar = at.saturating_add(memchr(b'$', &text[at..])?);
        let count = run_length(text.get(dollar..).unwrap_or(b""), b'$');
        let is_long_enough = count == width && dollar > after;
        if is_long_enough && (is_double || ends_single(text, start, dollar)) {
            return Some(dollar);
        }
        at = dollar.saturating_add(count).max(at + 1);
    }
    None
}

/// Whether a single `$` may end math: no space and no backslash precedes it, and no letter or digit
/// follows it.
fn ends_single(text: &[u8], start: usize, at: usize) -> bool {
    let before = text.get(start..at).unwrap_or(b"");
    let is_inside = match before.last() {
        Some(byte) => !matches!(*byte, b' ' | b'\t' | b'\\'),
        None => false,
    };
    let is_word = match text.get(at.saturating_add(1)) {
        Some(byte) => byte.is_ascii_alphanumeric(),
        None => false,
    };
    is_inside && !is_word
}
