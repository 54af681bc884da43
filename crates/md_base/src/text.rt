//! Bytes as a text.

ghost use Rattle.std.specs.Prelude.{◌≡◌, ◌+◌, ◌≤◌, ◌<◌, ◌↔◌, ℕ, length, slice_index, true, IsTrue};
ghost use Rattle.std.specs.Prelude.{option_copied};
ghost use Rattle.std.specs.Str.{IsAscii, IsUtf8};
ghost use Rattle.md_base.specs.Place.{text_when};

use std::simd::prelude::*;

/// The number of bytes that one step reads.
const BLOCK_SIZE: usize = 16;

/// Block size for texts shorter than `BLOCK_SIZE`.
const HALF_BLOCK: usize = 8;

/// Block size for texts shorter than `HALF_BLOCK`.
const QUARTER_BLOCK: usize = 4;

/// Returns the bytes as text, or `None` if they aren't UTF-8.
#[inline(always)]
pub(crate) fn as_text(bytes: &[u8]) -> Option<&str>
    ensures { option_copied result ≡ text_when true bytes.now }
{
    if are_utf8(bytes) {
        Some(unsafe { std::str::from_utf8_unchecked(bytes) })
    } else {
        None
    }
}

/// Whether the bytes are UTF-8. Most are ASCII; others are read up to the first error.
#[inline(never)]
fn are_utf8(bytes: &[u8]) -> bool
    ensures { IsTrue result ↔ IsUtf8 bytes.now }
{
    if is_ascii(bytes) {
        return true;
    }
    std::str::from_utf8(bytes).is_ok()
}

/// Whether the bytes are ASCII. Two loads, which may overlap, cover bytes shorter than a block.
#[inline(always)]
pub(crate) fn is_ascii(bytes: &[u8]) -> bool
    ensures { IsTrue result → IsAscii bytes.now }
{
    let length = bytes.len();
    if length >= BLOCK_SIZE {
        return are_ascii_blocks(bytes);
    }
    if length >= HALF_BLOCK {
        return is_ascii_at::<HALF_BLOCK>(bytes, 0)
            && is_ascii_at::<HALF_BLOCK>(bytes, length - HALF_BLOCK);
    }
    if length >= QUARTER_BLOCK {
        return is_ascii_at::<QUARTER_BLOCK>(bytes, 0)
            && is_ascii_at::<QUARTER_BLOCK>(bytes, length - QUARTER_BLOCK);
    }
    are_ascii_bytes(bytes)
}

/// The same, block by block. The last block ends with the bytes, and may overlap the previous one.
#[inline(always)]
fn are_ascii_blocks(bytes: &[u8]) -> bool
    requires { BLOCK_SIZE ≤ length bytes.now }
    ensures { IsTrue result → IsAscii bytes.now }
{
    let mut at = 0;
    while bytes.len() - at > BLOCK_SIZE {
        if !is_ascii_at::<BLOCK_SIZE>(bytes, at) {
            return false;
        }
        at += BLOCK_SIZE;
    }
    is_ascii_at::<BLOCK_SIZE>(bytes, bytes.len() - BLOCK_SIZE)
}

/// The same, byte by byte.
#[inline(always)]
fn are_ascii_bytes(bytes: &[u8]) -> bool
    ensures { IsTrue result → IsAscii bytes.now }
{
    let mut at = 0;
    while at < bytes.len() {
        if bytes[at] >= 0x80 {
            return false;
        }
        at += 1;
    }
    true
}

/// Whether `N` bytes from an index are ASCII.
#[inline(always)]
fn is_ascii_at<const N: usize>(bytes: &[u8], at: usize) -> bool
    requires { (N ≤ 64) × (at + N ≤ length bytes.now) }
    ensures { IsTrue result → (k : ℕ) → at ≤ k → k < at + N → slice_index bytes.now k < 128 }
{
    let block = Simd::<u8, N>::from_slice(&bytes[at..]);
    block.simd_ge(Simd::splat(0x80)).to_bitmask() == 0
}
