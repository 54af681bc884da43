//! The protocol of a URL, and whether it is permitted.

ghost use Rattle.std.specs.Prelude.{◌≡◌, ◌≤◌, ◌<◌, MatchOption, take, length, map, true};
ghost use Rattle.md_text.specs.Kept.{goes_on};
ghost use Rattle.md_text.specs.Url.{protocol_of, has_permitted_protocol};

use crate::lanes::{ByteTest, LaneTest, first_set, run_length};
use crate::names::lowered_is_one_of;
use std::simd::prelude::*;

/// Whether a URL has no protocol, or one of these.
pub(super) fn has_permitted_protocol(url: &[u8], protocols: &[&str]) -> bool
    ensures { result
        ≡ has_permitted_protocol (map (λ protocol. protocol.now) protocols.now) url.now }
{
    match protocol_end(url) {
        Some(end) => lowered_is_one_of(&url[..end], protocols),
        None => true,
    }
}

/// The index where the protocol of a URL ends, if it has one.
fn protocol_end(url: &[u8]) -> Option<usize>
    ensures { MatchOption result
        (protocol_of url.now ≡ None)
        (λ end. (end ≤ length url.now) × (protocol_of url.now ≡ Some (take end url.now))) }
{
    let end = run_length(GoesOn, url);
    if end < url.len() && url[end] == b':' {
        Some(end)
    } else {
        None
    }
}

/// The test whether a byte neither ends a protocol nor shows that there is none.
#[derive(Clone, Copy)]
struct GoesOn;

impl ByteTest for GoesOn {
    ghost use Rattle.md_text.specs.Kept.{goes_on};

    ghost passes = { λ _. goes_on };

    #[inline(always)]
    fn is_passed(self, byte: u8) -> bool {
        !matches!(byte, b':' | b'?' | b'#' | b'/')
    }
}

impl<const N: usize> LaneTest<N> for GoesOn {
    #[inline(always)]
    fn run_in(self, bytes: &[u8], at: usize) -> usize {
        let block = Simd::<u8, N>::from_slice(&bytes[at..]);
        let stops = block.simd_eq(Simd::splat(b':'))
            | block.simd_eq(Simd::splat(b'?'))
            | block.simd_eq(Simd::splat(b'#'))
            | block.simd_eq(Simd::splat(b'/'));
        first_set(stops.to_bitmask(), N)
    }
}
