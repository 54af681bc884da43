//! What is told of all results: how many there are, and a digest of all their bytes.

use std::alloc::{AllocError, Global};
use std::fmt;

/// What each word is multiplied by.
const FACTOR: u64 = 0x9e37_79b9_7f4a_7c15;

/// The results so far.
#[derive(Clone, Copy)]
pub struct Digest {
    lanes: [u64; 4],
    pub calls: usize,
    accepted: usize,
    bytes: usize,
}

impl Digest {
    /// Of no results.
    pub fn new() -> Self {
        Digest {
            lanes: [1, 2, 3, 4],
            calls: 0,
            accepted: 0,
            bytes: 0,
        }
    }

    /// Adds a text that a call gave.
    pub fn accept(&mut self, text: &str) {
        self.accept_bytes(text.as_bytes());
    }

    /// Adds the bytes of a text that a call gave.
    pub fn accept_bytes(&mut self, text: &[u8]) {
        self.accepted = self.accepted.wrapping_add(1);
        self.bytes = self.bytes.wrapping_add(text.len());
        self.add(text);
    }

    /// Adds what a refusal says.
    pub fn refuse<E: fmt::Display>(&mut self, alloc: Global, error: &E) -> Result<(), AllocError> {
        let message = format!(in alloc; "{error}")?;
        self.add(message.as_bytes());
        Ok(())
    }

    /// Adds the bytes of a result.
    fn add(&mut self, bytes: &[u8]) {
        self.calls = self.calls.wrapping_add(1);
        let (blocks, rest) = bytes.as_chunks::<32>();
        let [mut first, mut second, mut third, mut fourth] = self.lanes;
        for block in blocks {
            let [a, b, c, d] = words(block);
            first = mixed(first, a);
            second = mixed(second, b);
            third = mixed(third, c);
            fourth = mixed(fourth, d);
        }
        for byte in rest {
            first = mixed(first, *byte as u64);
        }
        second = mixed(second, bytes.len() as u64);
        self.lanes = [turned(first), turned(second), turned(third), turned(fourth)];
    }

    /// A number that tells the results apart.
    fn sum(&self) -> u64 {
        let mut sum = 0u64;
        for lane in self.lanes {
            sum = turned(mixed(sum, lane));
        }
        sum
    }
}

/// The four words of a block.
#[inline(always)]
fn words(block: &[u8; 32]) -> [u64; 4] {
    let (words, _) = block.as_slice().as_chunks::<8>();
    [
        word(words, 0),
        word(words, 1),
        word(words, 2),
        word(words, 3),
    ]
}

#[inline(always)]
fn word(words: &[[u8; 8]], index: usize) -> u64 {
    match words.get(index) {
        Some(word) => u64::from_le_bytes(*word),
        None => 0,
    }
}

#[inline(always)]
fn mixed(lane: u64, word: u64) -> u64 {
    (lane ^ word).wrapping_mul(FACTOR)
}

/// A lane with its high bits in its low ones.
fn turned(lane: u64) -> u64 {
    lane ^ (lane >> 29)
}

impl fmt::Display for Digest {
    fn fmt<W: fmt::Write>(&self, f: &mut fmt::Formatter<W>) -> fmt::Result {
        let calls = self.calls;
        let accepted = self.accepted;
        let bytes = self.bytes;
        let sum = self.sum();
        write!(
            f,
            "{calls} calls, {accepted} accepted, {bytes} bytes, {sum:016x}"
        )
    }
}
