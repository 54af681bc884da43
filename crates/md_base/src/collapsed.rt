//! Detects texts whose white space is collapsed already.

ghost use Rattle.std.specs.Prelude.{◌≡◌, ◌+◌, ◌≤◌, ◌<◌, ℕ, length, nat_le, IsTrue};
ghost use Rattle.md_base.specs.Identifier.{collapsed};
ghost use Rattle.md_base.specs.Collapsed.{IsSingleAt, HasSingleSpaces};

use std::simd::prelude::*;

/// The number of bytes that one step reads.
const BLOCK_SIZE: usize = 16;

/// Block size for texts shorter than `BLOCK_SIZE`.
const HALF_BLOCK: usize = 8;

/// Block size for texts shorter than `HALF_BLOCK`.
const QUARTER_BLOCK: usize = 4;

/// Whether white space is collapsed already, as in most identifiers: only single spaces separate
/// other bytes. `false` may also mean that the text has other control characters.
#[inline(always)]
pub(crate) fn is_collapsed(text: &[u8]) -> bool
    ensures { IsTrue result → collapsed text.now ≡ text.now }
{
    let length = text.len();
    if length == 0 {
        return true;
    }
    if is_space_or_control(text[0]) || is_space_or_control(text[length - 1]) {
        return false;
    }
    has_single_spaces(text)
}

/// Whether a byte is a space or a control character.
#[inline(always)]
fn is_space_or_control(byte: u8) -> bool
    ensures { result ≡ nat_le byte 32 }
{
    byte <= b' '
}

/// Whether each byte but the last is no control character, and no space that precedes another space
/// or control character. Two loads, which may overlap, cover texts shorter than a block.
#[inline(always)]
fn has_single_spaces(text: &[u8]) -> bool
    requires { 0 < length text.now }
    ensures { IsTrue result → HasSingleSpaces text.now }
{
    let pairs = text.len() - 1;
    if pairs >= BLOCK_SIZE {
        return has_single_blocks(text);
    }
    if pairs >= HALF_BLOCK {
        return is_single_at::<HALF_BLOCK>(text, 0)
            && is_single_at::<HALF_BLOCK>(text, pairs - HALF_BLOCK);
    }
    if pairs >= QUARTER_BLOCK {
        return is_single_at::<QUARTER_BLOCK>(text, 0)
            && is_single_at::<QUARTER_BLOCK>(text, pairs - QUARTER_BLOCK);
    }
    has_single_bytes(text)
}

/// The same, block by block. The last block ends before the last byte, and may overlap the previous
/// one.
#[inline(always)]
fn has_single_blocks(text: &[u8]) -> bool
    requires { BLOCK_SIZE < length text.now }
    ensures { IsTrue result → HasSingleSpaces text.now }
{
    let pairs = text.len() - 1;
    let mut at = 0;
    while pairs - at > BLOCK_SIZE {
        if !is_single_at::<BLOCK_SIZE>(text, at) {
            return false;
        }
        at += BLOCK_SIZE;
    }
    is_single_at::<BLOCK_SIZE>(text, pairs - BLOCK_SIZE)
}

/// The same, byte by byte.
#[inline(always)]
fn has_single_bytes(text: &[u8]) -> bool
    requires { 0 < length text.now }
    ensures { IsTrue result → HasSingleSpaces text.now }
{
    let pairs = text.len() - 1;
    let mut at = 0;
    while at < pairs {
        if text[at] < b' ' || (text[at] == b' ' && text[at + 1] <= b' ') {
            return false;
        }
        at += 1;
    }
    true
}

/// The same for the `N` bytes from an index.
#[inline(always)]
fn is_single_at<const N: usize>(text: &[u8], at: usize) -> bool
    requires { (N ≤ 64) × (at + N < length text.now) }
    ensures { IsTrue result → (k : ℕ) → at ≤ k → k < at + N → IsSingleAt text.now k }
{
    let block = Simd::<u8, N>::from_slice(&text[at..]);
    let next = Simd::<u8, N>::from_slice(&text[at + 1..]);
    let controls = block.simd_lt(Simd::splat(b' '));
    let pairs = block.simd_eq(Simd::splat(b' ')) & next.simd_lt(Simd::splat(b'!'));
    (controls | pairs).to_bitmask() == 0
}
