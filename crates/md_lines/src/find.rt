//! Finds bytes.

ghost use Rattle.std.specs.Prelude.{◌≡◌, ◌+◌, ◌<◌, ◌≤◌, ◌==◌, ℕ, Bool, length, drop, min};
ghost use Rattle.std.specs.Prelude.{if◌then◌else◌};
ghost use Rattle.std.specs.Int.{w64, trailing_zeros};
ghost use Rattle.std.specs.List.{prefix_len};
ghost use Rattle.md_lines.specs.Lines.{is_none_of};

use std::simd::prelude::*;

/// The number of bytes that one step reads.
pub(crate) const LANES: usize = 16;

/// Which bytes a search skips.
pub(crate) trait Search: Copy {
    ghost skips: { Self → ℕ → Bool };

    /// Whether it skips a byte.
    fn is_skipped(self, byte: u8) -> bool
        ensures { result ≡ skips self byte };

    /// The number of bytes from `at` on before the first that it doesn't skip, at most 16.
    fn run_in(self, bytes: &[u8], at: usize) -> usize
        requires { at + 16 ≤ length bytes.now }
        ensures { result ≡ min 16 (prefix_len (skips self) (drop at bytes.now)) };
}

/// The index of the next byte that a search doesn't skip, at `from` or later. If there is none
/// before `end`, it is `end` or later, or the length of `bytes` or later if `end` is past it. It
/// may read up to fifteen bytes after `end`.
#[inline(always)]
pub(crate) fn find<S: Search>(search: S, bytes: &[u8], from: usize, end: usize) -> usize
    ensures within { from ≤ length bytes.now → result ≤ length bytes.now }
    ensures after { from ≤ result }
    ensures none_skipped { result ≤ from + prefix_len (S.skips search) (drop from bytes.now) }
    ensures first { result < end
        → result ≡ from + prefix_len (S.skips search) (drop from bytes.now) }
{
    if from >= end.min(bytes.len()) {
        return from;
    }
    from + skipped(search, &bytes[from..], end - from)
}

/// How many bytes come before the first that a search doesn't skip. If there is none among the
/// first `count`, at least `count`, or all bytes if they are fewer.
#[inline(always)]
fn skipped<S: Search>(search: S, bytes: &[u8], count: usize) -> usize
    ensures within { result ≤ length bytes.now }
    ensures none_skipped { result ≤ prefix_len (S.skips search) bytes.now }
    ensures first { result < count → result ≡ prefix_len (S.skips search) bytes.now }
{
    let mut at = 0;
    while at < count && bytes.len() - at >= LANES {
        let run = search.run_in(bytes, at);
        if run < LANES {
            return at + run;
        }
        at += LANES;
    }
    if at < count {
        at += skipped_by_bytes(search, &bytes[at..]);
    }
    at
}

/// How many bytes come before the first that a search doesn't skip, read one by one.
#[inline(never)]
fn skipped_by_bytes<S: Search>(search: S, bytes: &[u8]) -> usize
    ensures within { result ≤ length bytes.now }
    ensures value { result ≡ prefix_len (S.skips search) bytes.now }
{
    let mut at = 0;
    while at < bytes.len() && search.is_skipped(bytes[at]) {
        at += 1;
    }
    at
}

/// The index of the lowest set bit, or the number of lanes if none is set.
#[inline(always)]
pub(crate) fn first_set(marks: u64) -> usize
    ensures { result ≡ (if marks == 0 then 16 else trailing_zeros w64 marks) }
{
    if marks == 0 {
        LANES
    } else {
        marks.trailing_zeros() as usize
    }
}

/// The index of the next byte that is one of these, at `from` or later. If there is none before
/// `end`, it is `end` or later, or the length of `bytes` or later if `end` is past it. It may read
/// up to fifteen bytes after `end`.
#[inline(always)]
pub fn find_any(bytes: &[u8], wanted: [u8; 3], from: usize, end: usize) -> usize
    ensures after { from ≤ result }
    ensures none_skipped { result ≤ from + prefix_len (is_none_of wanted) (drop from bytes.now) }
    ensures first { result < end
        → result ≡ from + prefix_len (is_none_of wanted) (drop from bytes.now) }
{
    find(AnyOf(wanted), bytes, from, end)
}

/// The search for one of three bytes.
#[derive(Clone, Copy)]
struct AnyOf([u8; 3]);

impl Search for AnyOf {
    ghost use Rattle.md_lines.specs.Lines.{is_none_of};

    ghost skips = { λ any. is_none_of any.0 };

    #[inline(always)]
    fn is_skipped(self, byte: u8) -> bool {
        let wanted = self.0;
        byte != wanted[0] && byte != wanted[1] && byte != wanted[2]
    }

    #[inline(always)]
    fn run_in(self, bytes: &[u8], at: usize) -> usize {
        let wanted = self.0;
        let block = Simd::<u8, LANES>::from_slice(&bytes[at..]);
        let found = block.simd_eq(Simd::splat(wanted[0]))
            | block.simd_eq(Simd::splat(wanted[1]))
            | block.simd_eq(Simd::splat(wanted[2]));
        first_set(found.to_bitmask())
    }
}
