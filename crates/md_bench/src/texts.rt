//! Lines of text and of code, of which documents are made.

use std::alloc::{AllocError, Global};

/// What stands between two sections of lines.
const SECTION: &[u8] = b"--";

/// The lines of a text, in sections.
#[derive(Drop)]
pub struct Texts<'a> {
    sections: Vec<Vec<&'a [u8]>>,
}

/// The lines of which one document is made.
#[derive(Clone, Copy)]
pub struct Lines<'a> {
    pub code: &'a [&'a [u8]],
    pub html: &'a [&'a [u8]],
    /// Names of things, which serve as labels.
    pub titles: &'a [&'a [u8]],
    pub prose: &'a [&'a [u8]],
    pub is_english: bool,
}

impl<'a> Texts<'a> {
    /// The lines of a text; a line `--` stands between two sections.
    pub fn new(alloc: Global, text: &'a [u8]) -> Result<Self, AllocError> {
        let mut sections = Vec::new(alloc);
        let mut section = Vec::new(alloc);
        for line in text.split(|byte| *byte == b'\n') {
            if line == SECTION {
                sections.push(section)?;
                section = Vec::new(alloc);
            } else {
                section.push(line)?;
            }
        }
        sections.push(section)?;
        Ok(Texts { sections })
    }

    /// The section with this number, from 0.
    fn section(&self, number: usize) -> Option<&[&'a [u8]]> {
        let section = self.sections.as_slice().get(number)?;
        Some(section.as_slice())
    }

    /// The lines in one language: 0 is English, 1 to 4 are Russian, Greek, Chinese and Japanese.
    pub fn lines(&self, language: usize) -> Lines<'_> {
        Lines {
            code: self.section(0).unwrap_or(&[]),
            html: self.section(1).unwrap_or(&[]),
            titles: self.section(2).unwrap_or(&[]),
            prose: self.section(language.saturating_add(3)).unwrap_or(&[]),
            is_english: language == 0,
        }
    }
}

/// A piece of a line, whole words or at least whole characters, with at most so many bytes; it begins after the first
/// space at or after `start`, or at the line's start where there is no such space.
pub fn piece(line: &[u8], start: usize, limit: usize) -> &[u8] {
    let rest = after_space(line, start);
    match rest.get(..limit) {
        Some(_) => cut(rest, limit),
        None => rest,
    }
}

/// What stands after the first space at or after an index, or the whole line.
fn after_space(line: &[u8], start: usize) -> &[u8] {
    for index in start..line.len() {
        if line.get(index) == Some(&b' ') {
            return line.get(index.saturating_add(1)..).unwrap_or(line);
        }
    }
    line
}

/// The beginning of a line before the last space that is at most at this index, or before the last character.
fn cut(line: &[u8], limit: usize) -> &[u8] {
    for back in 0..14 {
        let end = limit.saturating_sub(back);
        if line.get(end) == Some(&b' ') {
            return line.get(..end).unwrap_or(line);
        }
    }
    for back in 0..4 {
        let end = limit.saturating_sub(back);
        if line.get(end).is_some_and(|byte| byte & 0xc0 != 0x80) {
            return line.get(..end).unwrap_or(line);
        }
    }
    line
}
