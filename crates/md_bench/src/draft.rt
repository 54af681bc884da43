//! Documents: their bytes, the events that a parser makes of them, and letters in them that change.

use crate::random::Random;
use crate::texts::{Lines, piece};
use md_html::{Event, Kind, Name, Point};
use std::alloc::{AllocError, Global};

/// A letter that changes from call to call: it is one of sixteen in a row.
#[derive(Clone, Copy)]
pub struct Mark {
    pub index: usize,
    /// The first of the sixteen, or the last byte of its character.
    pub first: u8,
}

/// A document and its events.
#[derive(Drop)]
pub struct Document {
    pub events: Vec<Event>,
    pub bytes: Vec<u8>,
    pub marks: Vec<Mark>,
    /// Whether there is HTML in it.
    pub has_html: bool,
    /// Whether there are footnotes in it.
    pub has_notes: bool,
}

impl Document {
    /// Changes letters, so that the document is another one in each of 65,536 rounds: its first four letters that
    /// change tell the number of the round.
    pub fn vary(&mut self, round: usize) {
        let mut digits = (round as u64).wrapping_mul(0x9e37_79b9_7f4a_7c15);
        for mark in self.marks.as_slice() {
            if let Some(byte) = self.bytes.get_mut(mark.index) {
                *byte = mark.first.wrapping_add((digits & 15) as u8);
            }
            digits = digits.rotate_right(4);
        }
    }
}

/// A document that is written from its start to its end, with its events.
#[derive(Drop)]
pub struct Draft<'a> {
    pub random: Random,
    pub lines: Lines<'a>,
    /// How many definitions of links it has.
    pub links: usize,
    /// How many footnotes it has.
    pub notes: usize,
    /// Whether HTML stands in it.
    pub has_html: bool,
    /// Whether only the names of references stand in it that scripts know.
    pub has_common_names: bool,
    events: Vec<Event>,
    bytes: Vec<u8>,
    marks: Vec<Mark>,
    /// Whether memory ran out; then the document isn't whole.
    is_cut_off: bool,
}

impl<'a> Draft<'a> {
    /// An empty document.
    pub fn new(alloc: Global, random: Random, lines: Lines<'a>) -> Self {
        Draft {
            random,
            lines,
            links: 0,
            notes: 0,
            has_html: false,
            has_common_names: false,
            events: Vec::new(alloc),
            bytes: Vec::new(alloc),
            marks: Vec::new(alloc),
            is_cut_off: false,
        }
    }

    /// The document, if there was enough memory.
    pub fn finish(self) -> Result<Document, AllocError> {
        let has_notes = self.notes > 0;
        let Draft {
            events,
            bytes,
            marks,
            has_html,
            is_cut_off,
            ..
        } = self;
        if is_cut_off {
            return Err(AllocError);
        }
        Ok(Document {
            events,
            bytes,
            marks,
            has_html,
            has_notes,
        })
    }

    /// How many bytes there are so far.
    pub fn len(&self) -> usize {
        self.bytes.len()
    }

    /// How many events there are so far.
    pub fn count(&self) -> usize {
        self.events.len()
    }

    /// Adds an event at the end of the bytes.
    fn event(&mut self, kind: Kind, name: Name) {
        let point = Point {
            line: 1,
            column: 1,
            index: self.bytes.len(),
            vs: 0,
        };
        if self.events.push(Event { kind, name, point }).is_err() {
            self.is_cut_off = true;
        }
    }

    /// A node starts.
    pub fn enter(&mut self, name: Name) {
        self.event(Kind::Enter, name);
    }

    /// A node ends.
    pub fn exit(&mut self, name: Name) {
        self.event(Kind::Exit, name);
    }

    /// Adds bytes.
    pub fn put(&mut self, bytes: &[u8]) {
        if self.bytes.extend_from_slice(bytes).is_err() {
            self.is_cut_off = true;
        }
    }

    /// Adds a node with these bytes.
    pub fn leaf(&mut self, name: Name, bytes: &[u8]) {
        self.enter(name);
        self.put(bytes);
        self.exit(name);
    }

    /// Adds a number in decimal digits.
    pub fn number(&mut self, value: usize) {
        let digits = [
            digit(value / 100_000),
            digit(value / 10_000),
            digit(value / 1_000),
            digit(value / 100),
            digit(value / 10),
            digit(value),
        ];
        let mut start = 0;
        for index in 0..5 {
            if digits.get(index) != Some(&b'0') {
                break;
            }
            start = index.saturating_add(1);
        }
        if let Some(digits) = digits.get(start..) {
            self.put(digits);
        }
    }

    /// Adds words of the text, with at most so many bytes; their last letter changes.
    pub fn words(&mut self, limit: usize) {
        let line = self.random.pick(self.lines.prose);
        let start = self.random.below(line.len() / 2);
        let words = piece(line, start, limit);
        self.put(words);
        self.mark(words.last().copied().unwrap_or(b' '));
    }

    /// Adds four letters, each of which changes.
    pub fn tag(&mut self) {
        for _ in 0..4 {
            self.put(b"a");
            self.mark(b'a');
        }
    }

    /// Marks the last byte, if it ends a letter.
    fn mark(&mut self, last: u8) {
        let first = match last {
            b'a'..=b'z' => b'a',
            0x80..=0xbf => last & 0xf0,
            _ => return,
        };
        let index = self.bytes.len().saturating_sub(1);
        if self.marks.push(Mark { index, first }).is_err() {
            self.is_cut_off = true;
        }
    }

    /// Adds a text of a line and what stands before and after it.
    pub fn data(&mut self, before: &[u8], limit: usize, after: &[u8]) {
        self.enter(Name::Data);
        self.put(before);
        self.words(limit);
        self.put(after);
        self.exit(Name::Data);
    }

    /// Adds a line ending.
    pub fn line_ending(&mut self) {
        self.leaf(Name::LineEnding, b"\n");
    }

    /// Adds a line ending, and a blank line.
    pub fn blank_line(&mut self) {
        self.leaf(Name::LineEnding, b"\n");
        self.leaf(Name::BlankLineEnding, b"\n");
    }
}

/// The last decimal digit of a number.
fn digit(value: usize) -> u8 {
    b"0123456789".get(value % 10).copied().unwrap_or(b'0')
}
