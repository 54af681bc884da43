//! Finds the marks of a text, one after another.

ghost use Rattle.std.specs.Prelude.{◌≡◌, ◌+◌, ◌<◌, ◌≤◌, ℕ, true, false, length, drop, map};
ghost use Rattle.md_marks.specs.NextMark.{is_mark_at, is_plain_at, AreMarks, upper_entry, lower_entry};

use md_lines::{Class, is};
use std::marker::Model;
use std::simd::prelude::*;

/// The number of bytes that one step reads.
const LANES: usize = 32;

// A byte may be a mark if the entries of its two halves have a common bit: `UPPER` has a bit for
// each upper half that marks have, `LOWER` for each lower half the bits of the upper halves with
// which it is one. Each table stands twice, since the sixteen bytes of each half of a block look up
// in their own half. The same bytes are `Class::Mark`.

/// The entries of the upper halves.
const UPPER: [u8; LANES] = [
    0, 0, 1, 2, 4, 8, 16, 32, 0, 0, 0, 0, 0, 0, 0, 0, 0, 0, 1, 2, 4, 8, 16, 32, 0, 0, 0, 0, 0, 0,
    0, 0,
];

/// The entries of the lower halves.
const LOWER: [u8; LANES] = [
    20, 1, 0, 0, 1, 0, 1, 0, 0, 0, 3, 8, 10, 8, 33, 8, 20, 1, 0, 0, 1, 0, 1, 0, 0, 0, 3, 8, 10, 8,
    33, 8,
];

/// The marks of a document, of which those of one block of bytes are known.
#[derive(Drop)]
pub struct Marks<'a> {
    bytes: &'a [u8],
    /// The beginning of the block.
    block: usize,
    /// A bit for each byte of the block that begins a mark by its class.
    bits: u64,
}

impl<'a> Model for Marks<'a> {
    ghost use Rattle.std.specs.Prelude.{ℕ, List};

    ghost Value = { List ℕ };

    ghost use Rattle.md_marks.specs.NextMark.{bytes_of, KnowsBlock};

    ghost view = { bytes_of };

    ghost invariant = { KnowsBlock };
}

impl<'a> Marks<'a> {
    ghost use Rattle.md_marks.specs.NextMark.{is_mark_at};

    /// No block is read yet: `block` is so far from each index that the first call reads one.
    pub fn new(bytes: &'a [u8]) -> Marks<'a>
        ensures { result ≡ bytes.now }
    {
        Marks {
            bytes,
            block: usize::MAX / 2,
            bits: 0,
        }
    }

    /// Returns the index of the first mark at `from` or later, or `end` or later if there is none
    /// before `end`.
    #[inline(always)]
    pub fn next(&mut self, from: usize, end: usize) -> usize
        ensures bytes { self.new ≡ self.old }
        ensures after { from ≤ result }
        ensures none_passed { (at : ℕ) → from ≤ at → at < result → at < end
            → at < length self.old → is_mark_at self.old at ≡ false }
        ensures mark { result < end → result < length self.old
            → is_mark_at self.old result ≡ true }
    {
        let bytes = self.bytes;
        let end = end.min(bytes.len());
        let mut at = from;
        while at < end {
            if bytes.len() < LANES {
                return first_mark_by_bytes(bytes, at);
            }
            let (bits, count) = self.marks_from(at);
            if bits == 0 {
                at += count;
            } else {
                at += bits.trailing_zeros() as usize;
                if !is_plain(bytes, at) {
                    return at;
                }
                at += 1;
            }
        }
        at
    }

    /// A bit for each byte of the block from an index on, and how many these are. If the index isn't
    /// in the block, its block is read.
    #[inline(always)]
    fn marks_from(&mut self, at: usize) -> (u64, usize)
        requires within { at < length self.old }
        requires long { 32 ≤ length self.old }
        ensures bytes { self.new ≡ self.old }
        ensures some { 0 < result.1 }
        ensures few { result.1 ≤ 32 }
        ensures within { at + result.1 ≤ length self.old }
        ensures marks { AreMarks (drop at self.old) result.1 result.0 }
    {
        let passed = at.wrapping_sub(self.block);
        if passed < LANES {
            return (self.bits >> passed, LANES - passed);
        }
        let block = at.min(self.bytes.len() - LANES);
        self.block = block;
        self.bits = marks_of(&self.bytes[block..]);
        let passed = at - block;
        (self.bits >> passed, LANES - passed)
    }
}

/// Whether the byte at an index is a full stop or a colon in plain text: no `w` precedes the full
/// stop, or no `/` follows the colon.
#[inline(always)]
fn is_plain(bytes: &[u8], at: usize) -> bool
    ensures { result ≡ is_plain_at bytes.now at }
{
    match bytes.get(at) {
        Some(b'.') => !matches!(bytes.get(at.wrapping_sub(1)), Some(b'w' | b'W')),
        Some(b':') => !matches!(bytes.get(at + 1), Some(b'/')),
        _ => false,
    }
}

/// A bit for each byte of the first block of a text that begins a mark by its class.
#[inline(always)]
fn marks_of(text: &[u8]) -> u64
    requires { 32 ≤ length text.now }
    ensures { AreMarks text.now 32 result }
{
    let block = Simd::<u8, LANES>::from_slice(text);
    let marks = by_upper_half(block) & by_lower_half(block);
    marks.simd_ne(Simd::splat(0)).to_bitmask()
}

/// The entries of each byte's upper half.
#[inline(always)]
fn by_upper_half(block: Simd<u8, LANES>) -> Simd<u8, LANES>
    ensures { result ≡ map upper_entry block }
{
    Simd::from_array(UPPER).swizzle_dyn_within::<16>(block >> Simd::splat(4))
}

/// The entries of each byte's lower half.
#[inline(always)]
fn by_lower_half(block: Simd<u8, LANES>) -> Simd<u8, LANES>
    ensures { result ≡ map lower_entry block }
{
    Simd::from_array(LOWER).swizzle_dyn_within::<16>(block & Simd::splat(15))
}

/// The index of the first mark at `from` or later, else the text's length.
#[inline(never)]
fn first_mark_by_bytes(bytes: &[u8], from: usize) -> usize
    requires { from ≤ length bytes.now }
    ensures after { from ≤ result }
    ensures none_passed { (at : ℕ) → from ≤ at → at < result → is_mark_at bytes.now at ≡ false }
    ensures mark { result < length bytes.now → is_mark_at bytes.now result ≡ true }
{
    let mut at = from;
    while at < bytes.len() && !begins_mark(bytes, at) {
        at += 1;
    }
    at
}

/// Whether the byte at an index begins a mark.
fn begins_mark(bytes: &[u8], at: usize) -> bool
    requires { at < length bytes.now }
    ensures { result ≡ is_mark_at bytes.now at }
{
    is(bytes[at], Class::Mark) && !is_plain(bytes, at)
}
