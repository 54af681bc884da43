//! The lines of a leaf.

use md_lines::{Line, Place, trim_end};

/// A leaf of the document: its lines. The last line ends before the spaces at its end.
#[derive(Clone, Copy)]
pub struct Leaf<'a> {
    pub bytes: &'a [u8],
    pub lines: &'a [Line],
    /// The end of the text of the last line.
    last: usize,
}

impl<'a> Leaf<'a> {
    /// The leaf with these lines.
    pub fn new(bytes: &'a [u8], lines: &'a [Line]) -> Leaf<'a> {
        let last = match lines.last() {
            Some(line) => trim_end(bytes, line.start, line.end),
            None => 0,
        };
        Leaf { bytes, lines, last }
    }

    /// The beginning of a line.
    #[inline(always)]
    pub fn start(&self, line: usize) -> usize {
        match self.lines.get(line) {
            Some(line) => line.start,
            None => 0,
        }
    }

    /// The end of the text of a line.
    #[inline(always)]
    pub fn end(&self, line: usize) -> usize {
        if line < self.lines.len().saturating_sub(1) {
            self.lines[line].end
        } else {
            self.last
        }
    }

    /// The end of the text of the last line.
    #[inline(always)]
    pub fn last_end(&self) -> usize {
        self.last
    }

    /// The beginning of the next line, with the line ending before it.
    #[inline(always)]
    pub fn next(&self, line: usize) -> usize {
        match self.lines.get(line) {
            Some(line) => line.next(),
            None => 0,
        }
    }

    /// Whether a line is the last.
    #[inline(always)]
    pub fn is_last(&self, line: usize) -> bool {
        line.saturating_add(1) >= self.lines.len()
    }

    /// The document up to the end of a line's text.
    #[inline(always)]
    pub fn until_end(&self, line: usize) -> &'a [u8] {
        self.bytes.get(..self.end(line)).unwrap_or(b"")
    }

    /// The text of a line from a place in it.
    #[inline(always)]
    pub fn rest(&self, place: Place) -> &'a [u8] {
        self.bytes
            .get(place.at..self.end(place.line))
            .unwrap_or(b"")
    }

    /// The text of a line before a place in it.
    pub fn before(&self, place: Place) -> &'a [u8] {
        self.bytes
            .get(self.start(place.line)..place.at)
            .unwrap_or(b"")
    }
}

/// How often a byte is repeated at the beginning of a text.
pub fn run_length(text: &[u8], byte: u8) -> usize {
    text.iter().take_while(|each| **each == byte).count()
}
