//! Decides which bytes of a URL stay unchanged.

ghost use Rattle.std.specs.Prelude.{◌≡◌, false, drop, min};
ghost use Rattle.std.specs.List.{prefix_len};
ghost use Rattle.md_text.specs.Kept.{is_plain, begins_triple, begins_kept, AreKept};
ghost use Rattle.md_text.specs.Url.{is_triple_byte, completes_triple};

use crate::lanes::{ByteTest, LaneTest, first_set, run_length};
use std::simd::prelude::*;

/// How many plain bytes are tested one by one before several are tested at once.
const FEW: usize = 4;

/// The plain bytes, each at its own index, and a backquote at the index of every other byte.
const PLAIN_BYTES: [u8; 256] = *b"\
    `````````````````````````````````!`#$``'()*+,-./0123456789:;`=`?\
    @ABCDEFGHIJKLMNOPQRSTUVWXYZ````_`abcdefghijklmnopqrstuvwxyz```~`\
    ````````````````````````````````````````````````````````````````\
    ````````````````````````````````````````````````````````````````";

/// The number of bytes before the first that must change.
#[inline(always)]
pub(super) fn kept_length(bytes: &[u8]) -> usize
    ensures kept { AreKept bytes.now result }
    ensures ends { begins_kept (drop result bytes.now) ≡ false }
{
    match bytes {
        [first, after @ ..] if is_plain_byte(*first) => {
            let few = 1 + first_plain(after);
            if few == FEW {
                kept_from(bytes, run_length(Plain, bytes))
            } else if begins_triple(&bytes[few..]) {
                kept_from(bytes, few + 3)
            } else {
                few
            }
        }
        _ if begins_triple(bytes) => kept_from(bytes, 3),
        _ => 0,
    }
}

/// The same, if the first `known` bytes are known to stay.
#[inline(always)]
fn kept_from(bytes: &[u8], known: usize) -> usize
    requires { AreKept bytes.now known }
    ensures kept { AreKept bytes.now result }
    ensures ends { begins_kept (drop result bytes.now) ≡ false }
{
    let mut at = known;
    loop {
        let step = kept_step(&bytes[at..]);
        if step == 0 {
            return at;
        }
        at += step;
    }
}

/// The length of the triple or of the plain bytes at the beginning.
#[inline(always)]
fn kept_step(bytes: &[u8]) -> usize
    ensures kept { AreKept bytes.now result }
    ensures ends { result ≡ 0 → begins_kept bytes.now ≡ false }
{
    if begins_triple(bytes) {
        return 3;
    }
    match bytes {
        [first, after @ ..] if is_plain_byte(*first) => {
            let few = 1 + first_plain(after);
            if few == FEW {
                run_length(Plain, bytes)
            } else {
                few
            }
        }
        _ => 0,
    }
}

/// The number of plain bytes at the beginning, counting up to three.
#[inline(always)]
fn first_plain(bytes: &[u8]) -> usize
    ensures { result ≡ min 3 (prefix_len is_plain bytes.now) }
{
    match bytes {
        [a, b, c, ..] if is_plain_byte(*a) && is_plain_byte(*b) && is_plain_byte(*c) => 3,
        [a, b, ..] if is_plain_byte(*a) && is_plain_byte(*b) => 2,
        [a, ..] if is_plain_byte(*a) => 1,
        _ => 0,
    }
}

/// Whether the bytes begin with a percent triple.
#[inline(always)]
fn begins_triple(bytes: &[u8]) -> bool
    ensures { result ≡ begins_triple bytes.now }
{
    match bytes {
        [b'%', after @ ..] => completes_triple(after),
        _ => false,
    }
}

/// The test whether a byte is plain.
#[derive(Clone, Copy)]
struct Plain;

impl ByteTest for Plain {
    ghost use Rattle.md_text.specs.Kept.{is_plain};
    ghost use Rattle.md_text.specs.Laws.{AreAscii};

    ghost passes = { λ _. is_plain };

    #[inline(always)]
    fn is_passed(self, byte: u8) -> bool {
        is_plain_byte(byte)
    }
}

impl<const N: usize> LaneTest<N> for Plain {
    #[inline(always)]
    fn run_in(self, bytes: &[u8], at: usize) -> usize {
        let block = Simd::<u8, N>::from_slice(&bytes[at..]);
        let escaped = block.simd_eq(Simd::splat(b'"'))
            | block.simd_eq(Simd::splat(b'&'))
            | block.simd_eq(Simd::splat(b'<'))
            | block.simd_eq(Simd::splat(b'>'));
        let blanks = block.simd_lt(Simd::splat(b'!')) | block.simd_eq(Simd::splat(b'%'));
        let brackets = block.simd_gt(Simd::splat(b'Z'))
            & block.simd_lt(Simd::splat(b'a'))
            & block.simd_ne(Simd::splat(b'_'));
        let others = block.simd_gt(Simd::splat(b'z')) & block.simd_ne(Simd::splat(b'~'));
        first_set((escaped | blanks | brackets | others).to_bitmask(), N)
    }
}

/// Whether a byte is written unchanged, whatever follows it.
#[inline(always)]
fn is_plain_byte(byte: u8) -> bool
    ensures { result ≡ is_plain byte }
{
    PLAIN_BYTES[usize::from(byte)] != b'`'
}

/// Whether these bytes, after a `%`, complete a percent triple.
fn completes_triple(rest: &[u8]) -> bool
    ensures { result ≡ completes_triple rest.now }
{
    match rest {
        [first, second, ..] => is_triple_byte(*first) && is_triple_byte(*second),
        _ => false,
    }
}

/// Whether a percent triple may have this byte after its `%`.
fn is_triple_byte(byte: u8) -> bool
    ensures { result ≡ is_triple_byte byte }
{
    byte.is_ascii_hexdigit()
}
