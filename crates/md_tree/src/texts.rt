//! A document's bytes, with the valid texts in them found in advance.

ghost use Rattle.std.specs.Prelude.{◌≡◌, ◌≤◌, ◌<◌, ℕ, List, Some, length, nat_le, ◌&&◌};
ghost use Rattle.std.specs.Prelude.{option_copied, slice_range, IfOk, IfSome};
ghost use Rattle.std.specs.Str.{IsUtf8};
ghost use Rattle.md_base.specs.Place.{text_when, text_between, label_between};
ghost use Rattle.md_tree.specs.TextRuns.{IsRun, AreRuns};

mod parts;

use self::parts::{next_start, text_end, text_end_by_parts};
use crate::input::{label_at, text_at};
use md_base::Position;
use std::alloc::{AllocError, Global};
use std::marker::Model;

/// How many bytes of a text after an invalid byte are read without parts.
const NEAR: usize = 32768;

/// The size of the first part in bytes.
const FIRST_PART: usize = 1024;

/// The size of the largest part in bytes.
const MOST_PART: usize = 4096;

/// How many bytes of a part decide whether it is treated as mostly ASCII.
const SAMPLES: usize = 8;

/// A valid text in the bytes.
#[derive(Drop)]
struct Run<'a> {
    /// The index of its first byte.
    start: usize,
    text: &'a str,
}

impl<'a> Run<'a> {
    /// The text between two indices of the bytes, if it lies in this run.
    fn text_between(&self, start: usize, end: usize) -> Option<&'a str>
        ensures { IfSome result
            (λ text. (bytes : List ℕ) → IsRun bytes self.now → text_when (nat_le start end
            && nat_le end (length bytes)) (slice_range bytes start end) ≡ Some text.now) }
    {
        let from = start.checked_sub(self.start)?;
        let to = end.checked_sub(self.start)?;
        part(self.text, from, to)
    }
}

/// The substring of a text between two byte offsets, if both are character boundaries.
#[inline(always)]
fn part(text: &str, from: usize, to: usize) -> Option<&str>
    ensures { IfSome result
        (λ part. (from ≤ to) × (to ≤ length text.now) × (part.now ≡ slice_range text.now from to)
        × IsUtf8 part.now) }
{
    if from <= to && text.is_char_boundary(from) && text.is_char_boundary(to) {
        Some(&text[from..to])
    } else {
        None
    }
}

/// Bytes, and the valid texts in them, each from one invalid byte to the next.
#[derive(Drop)]
pub struct Texts<'a> {
    bytes: &'a [u8],
    /// The text at the beginning: usually all bytes.
    front: &'a str,
    /// The texts after it, in order, without empty ones.
    runs: Vec<Run<'a>>,
}

impl<'a> Model for Texts<'a> {
    ghost use Rattle.std.specs.Prelude.{List, ℕ};
    ghost use Rattle.md_tree.specs.TextRuns.{IsRun, AreRuns};

    ghost Value = { List ℕ };

    ghost view = { λ t. t.bytes.now };

    ghost invariant = { λ t. IsRun t.bytes.now (record { start = 0; text = t.front })
        × AreRuns t.bytes.now t.runs.items };
}

impl<'a> Texts<'a> {
    /// Finds the texts.
    ///
    /// # Errors
    ///
    /// `AllocError`, only if memory runs out.
    pub fn new(alloc: Global, bytes: &'a [u8]) -> Result<Texts<'a>, AllocError>
        ensures { IfOk result (λ texts. texts ≡ bytes.now) }
    {
        let end = text_end_by_parts(bytes, 0, 0);
        Ok(Texts {
            bytes,
            front: text_within(bytes, 0, end),
            runs: runs_behind(alloc, bytes, end)?,
        })
    }

    /// The same bytes with only the text at their beginning: usually all of them. Other texts are
    /// validated again at each read, so that no memory is kept for them.
    pub fn with_front_alone(self, alloc: Global) -> Texts<'a>
        ensures { result ≡ self.entry }
    {
        let Texts {
            bytes,
            front,
            runs: _,
        } = self;
        Texts {
            bytes,
            front,
            runs: Vec::new(alloc),
        }
    }

    /// All bytes.
    pub fn bytes(&self) -> &'a [u8]
        ensures { result.now ≡ self.now }
    {
        self.bytes
    }

    /// Returns the text of a node, if its position fits the bytes and they are UTF-8.
    ///
    /// A known text isn't validated again, whatever its length, unless it begins or ends in a tab.
    #[inline(always)]
    pub fn text_at(&self, position: &Position) -> Option<&'a str>
        ensures { option_copied result ≡ text_between self.now position.now.start position.now.end }
    {
        if position.start.vs == 0 && position.end.vs == 0 {
            if let Some(text) = self.text_between(position.start.index, position.end.index) {
                return Some(text);
            }
        }
        // Not UTF-8, or begins or ends in a tab.
        text_at(self.bytes, position)
    }

    /// Returns the text between the indices of a node's points, if they fit the bytes and it is
    /// UTF-8.
    ///
    /// A known text isn't validated again, whatever its length.
    pub fn label_at(&self, position: &Position) -> Option<&'a str>
        ensures { option_copied result
            ≡ label_between self.now position.now.start position.now.end }
    {
        match self.text_between(position.start.index, position.end.index) {
            Some(text) => Some(text),
            // Not UTF-8, or an empty text among other bytes.
            None => label_at(self.bytes, position),
        }
    }

    /// The text between two indices, if it lies in a run.
    #[inline(always)]
    fn text_between(&self, start: usize, end: usize) -> Option<&'a str>
        ensures { IfSome result
            (λ text. text_when (nat_le start end && nat_le end (length self.now))
            (slice_range self.now start end) ≡ Some text.now) }
    {
        // Few documents have an invalid byte.
        match part(self.front, start, end) {
            Some(text) => Some(text),
            None => self.run_before(start)?.text_between(start, end),
        }
    }

    /// The last run that starts at or before an index.
    fn run_before(&self, index: usize) -> Option<&Run<'a>>
        ensures { IfSome result (λ run. IsRun self.entry.now run.now) }
    {
        let after = self
            .runs
            .partition_point(|run: &Run| -> bool { run.start <= index });
        self.runs.get(after.checked_sub(1)?)
    }
}

/// The texts after an invalid byte, in order, without empty ones.
fn runs_behind<'a>(alloc: Global, bytes: &'a [u8], fault: usize) -> Result<Vec<Run<'a>>, AllocError>
    requires { fault ≤ length bytes.now }
    ensures { IfOk result (λ runs. AreRuns bytes.now runs.items) }
{
    let mut runs = Vec::new(alloc);
    let mut start = next_start(bytes, fault);
    while start < bytes.len() {
        let end = text_end(bytes, start);
        if start < end {
            let text = text_within(bytes, start, end);
            runs.push(Run { start, text })?;
        }
        start = next_start(bytes, end);
    }
    Ok(runs)
}

/// The text between two indices of the bytes.
#[inline(always)]
fn text_within(bytes: &[u8], start: usize, end: usize) -> &str
    requires { (start ≤ end) × (end ≤ length bytes.now) × IsUtf8 (slice_range bytes.now start end) }
    ensures { IsRun bytes.now (record { start = start; text = result }) }
{
    unsafe { std::str::from_utf8_unchecked(&bytes[start..end]) }
}
