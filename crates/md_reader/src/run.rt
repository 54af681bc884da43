//! Escaped text, and the four references in it.

ghost use Rattle.std.specs.Prelude.{◌≡◌, ◌+◌, ◌<◌, ◌≤◌, IfSome, MatchOption, length, ◌++◌, List, ℕ};
ghost use Rattle.std.specs.Prelude.{◌==◌, ◌∷◌, false, None, drop, min, if◌then◌else◌};
ghost use Rattle.std.specs.Int.{w64, trailing_zeros};
ghost use Rattle.std.specs.List.{prefix_len};
ghost use Rattle.md_text.specs.References.{reference_before};
ghost use Rattle.md_reader.specs.Runs.{IsEscapedBefore, IsRun, IsReference, begins_escaped};
ghost use Rattle.md_reader.specs.Runs.{begins_plain, is_plain};

use std::simd::prelude::*;

/// The number of bytes that one step reads.
const BLOCK_SIZE: usize = 16;

/// Splits a text after its longest escaped beginning.
pub(crate) fn split_escaped(text: &[u8]) -> (&[u8], &[u8])
    ensures run { IsRun text.now result.0.now result.1.now }
    ensures shorter { length result.0.now + length result.1.now ≡ length text.now }
{
    let mut rest = past_plain(text);
    'references: while let Some(later) = past_reference(rest) {
        rest = past_plain(later);
    }
    text.split_at(text.len() - rest.len())
}

/// The text after the plain bytes that it begins with.
#[inline(always)]
fn past_plain(text: &[u8]) -> &[u8]
    ensures is { IsEscapedBefore text.now result.now }
    ensures stops { begins_plain result.now ≡ false }
    ensures shorter { length result.now ≤ length text.now }
{
    let (_, rest) = text.split_at(plain_length(text));
    rest
}

/// The text after a reference, if it begins with one and with no plain byte.
#[inline(always)]
fn past_reference(text: &[u8]) -> Option<&[u8]>
    requires { begins_plain text.now ≡ false }
    ensures is { MatchOption result
        (begins_escaped text.now ≡ false)
        (λ rest. IsEscapedBefore text.now rest.now) }
    ensures shorter { IfSome result (λ rest. length rest.now < length text.now) }
{
    past_name(past(b"&", text)?)
}

/// The text after the rest of a reference, which begins after its `&`.
#[inline(always)]
fn past_name(text: &[u8]) -> Option<&[u8]>
    ensures is { MatchOption result
        (reference_before text.now ≡ None)
        (λ rest. IsEscapedBefore (38 ∷ text.now) rest.now) }
    ensures shorter { IfSome result (λ rest. length rest.now < length text.now) }
{
    let (_, rest) = reference(text)?;
    Some(rest)
}

/// How many plain bytes a text begins with.
#[inline(always)]
fn plain_length(text: &[u8]) -> usize
    ensures count { result ≡ prefix_len is_plain text.now }
    ensures within { result ≤ length text.now }
{
    let mut at = 0;
    while text.len() - at >= BLOCK_SIZE {
        let count = plain_in(text, at);
        if count < BLOCK_SIZE {
            return at + count;
        }
        at += BLOCK_SIZE;
    }
    plain_length_from(text, at)
}

/// How many plain bytes come first in the block at an index.
#[inline(always)]
fn plain_in(text: &[u8], at: usize) -> usize
    requires { at + BLOCK_SIZE ≤ length text.now }
    ensures { result ≡ min BLOCK_SIZE (prefix_len is_plain (drop at text.now)) }
{
    let block = Simd::<u8, BLOCK_SIZE>::from_slice(&text[at..]);
    let special = block.simd_eq(Simd::splat(0))
        | block.simd_eq(Simd::splat(b'&'))
        | block.simd_eq(Simd::splat(b'"'))
        | block.simd_eq(Simd::splat(b'<'))
        | block.simd_eq(Simd::splat(b'>'));
    first_marked(special.to_bitmask())
}

/// The index of the first marked byte of a block, or `BLOCK_SIZE` if none is marked.
#[inline(always)]
fn first_marked(marks: u64) -> usize
    ensures { result ≡ (if marks == 0 then BLOCK_SIZE else trailing_zeros w64 marks) }
{
    match marks {
        0 => BLOCK_SIZE,
        _ => marks.trailing_zeros() as usize,
    }
}

/// The same as [`plain_length`], byte by byte from an index, if the bytes before it are plain.
fn plain_length_from(text: &[u8], start: usize) -> usize
    requires { start ≤ prefix_len is_plain text.now }
    ensures count { result ≡ prefix_len is_plain text.now }
    ensures within { result ≤ length text.now }
{
    let mut at = start;
    'bytes: while at < text.len() && is_plain(text[at]) {
        at += 1;
    }
    at
}

/// Whether a byte is escaped, whatever follows it.
#[inline(always)]
fn is_plain(byte: u8) -> bool
    ensures { result ≡ is_plain byte }
{
    !matches!(byte, 0 | b'<' | b'>' | b'"' | b'&')
}

/// The character of a reference and the text after it, given the text after its `&`.
pub(crate) fn reference(text: &[u8]) -> Option<(u8, &[u8])>
    ensures is { MatchOption result
        (reference_before text.now ≡ None)
        (λ found. IsReference text.now found.0 found.1.now) }
    ensures shorter { IfSome result (λ found. length found.1.now < length text.now) }
{
    if let Some(rest) = past(b"amp;", text) {
        return Some((b'&', rest));
    }
    if let Some(rest) = past(b"quot;", text) {
        return Some((b'"', rest));
    }
    if let Some(rest) = past(b"lt;", text) {
        return Some((b'<', rest));
    }
    if let Some(rest) = past(b"gt;", text) {
        return Some((b'>', rest));
    }
    None
}

/// The text after this beginning.
#[inline(always)]
pub(crate) fn past<'a>(start: &[u8], text: &'a [u8]) -> Option<&'a [u8]>
    ensures is { MatchOption result
        ((rest : List ℕ) → text.now ≡ start.now ++ rest → ⊥)
        (λ rest. text.now ≡ start.now ++ rest.now) }
    ensures shorter { IfSome result (λ rest.
        length rest.now + length start.now ≡ length text.now) }
{
    let mut rest = text;
    let mut start = start;
    'bytes: while let Some((byte, others)) = start.split_first() {
        match rest.split_first() {
            Some((first, later)) if *first == *byte => {
                rest = later;
                start = others;
            }
            _ => return None,
        }
    }
    Some(rest)
}
