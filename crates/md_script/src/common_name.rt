//! Reads names at the front of a text; one load of sixteen bytes is enough for most.

ghost use Rattle.std.specs.Prelude.{◌≡◌, ℕ, ◌<◌, ◌≤◌, nat_le, if◌then◌else◌, length, slice_index};
ghost use Rattle.std.specs.Prelude.{IfSome};
ghost use Rattle.md_script.specs.PlainLine.{BeginsWithName};
ghost use Rattle.md_script.specs.CommonName.{IsFirstSpace, IsSpaceAt, AreRows};

use crate::digits::digits_before;
use crate::name::read_name;
use crate::name_rows::{LAST, MIDDLE, ROWS, Row, SLOTS};
use md_base::Name;
use std::simd::prelude::*;

/// The number of bytes loaded at once; most names are shorter.
const LANES: usize = 16;

/// The number of bytes searched for the end of a name; every name is shorter.
const LONGEST: usize = 48;

/// The name at the beginning of the bytes, and the bytes after the space that ends it. Also `None`
/// for a name that only the slower reader accepts.
#[inline(always)]
pub(crate) fn read_common_name(bytes: &[u8]) -> Option<(Name, &[u8])>
    ensures { IfSome result (λ read. BeginsWithName bytes.now read.0 read.1.now) }
{
    if bytes.len() < LANES {
        return None;
    }
    let size = first_space(bytes);
    if size == 0 {
        return None;
    }
    if LANES <= size {
        return read_long_name(bytes);
    }
    let place = place_of_row(bytes[0], bytes[size / 2], bytes[size - 1]);
    match read_listed_name(bytes, size, place) {
        Some(read) => Some(read),
        None => read_other_name(bytes),
    }
}

/// How many bytes precede the first space; more than fifteen if the first sixteen bytes have none.
#[inline(always)]
fn first_space(bytes: &[u8]) -> usize
    requires { LANES ≤ length bytes.now }
    ensures { result < LANES → IsFirstSpace bytes.now result }
{
    let spaces = u8x16::from_slice(bytes).simd_eq(u8x16::splat(b' '));
    spaces.to_bitmask().trailing_zeros() as usize
}

/// The name of the row at this index, if the bytes begin with it and a space.
#[inline(always)]
fn read_listed_name(bytes: &[u8], size: usize, place: usize) -> Option<(Name, &[u8])>
    requires room { LANES ≤ length bytes.now }
    requires few { size < LANES }
    requires space { IsFirstSpace bytes.now size }
    ensures { IfSome result (λ read. BeginsWithName bytes.now read.0 read.1.now) }
{
    let (text, name) = listed_rows().get(place)?;
    if size < same_bytes(bytes, text) {
        Some((*name, &bytes[size + 1..]))
    } else {
        None
    }
}

/// How many bytes are equal, from the first one.
#[inline(always)]
fn same_bytes(bytes: &[u8], text: &[u8; 16]) -> usize
    requires { LANES ≤ length bytes.now }
    ensures { (k : ℕ) → k < result → k < LANES → slice_index bytes.now k ≡ slice_index text.now k }
{
    let others = u8x16::from_slice(bytes).simd_ne(u8x16::from_slice(text));
    others.to_bitmask().trailing_zeros() as usize
}

/// `Other` with its number.
#[inline(always)]
fn read_other_name(bytes: &[u8]) -> Option<(Name, &[u8])>
    requires { LANES ≤ length bytes.now }
    ensures { IfSome result (λ read. BeginsWithName bytes.now read.0 read.1.now) }
{
    let digits = bytes.strip_prefix(b"Other")?;
    let (number, following) = digits_before(digits, b' ', 5)?;
    let name = name_of_number(number)?;
    Some((name, following))
}

#[inline(always)]
fn name_of_number(number: usize) -> Option<Name>
    ensures { result ≡ (if nat_le number 65535 then Some (Name.Other number) else None) }
{
    Some(Name::Other(u16::try_from(number).ok()?))
}

/// A name of sixteen bytes or more.
#[inline(never)]
fn read_long_name(bytes: &[u8]) -> Option<(Name, &[u8])>
    requires { LANES ≤ length bytes.now }
    ensures { IfSome result (λ read. BeginsWithName bytes.now read.0 read.1.now) }
{
    let size = space_after_block(bytes)?;
    let name = read_name(&bytes[..size])?;
    Some((name, &bytes[size + 1..]))
}

/// The index of a space after the first sixteen bytes, in the blocks that the longest name may
/// reach.
fn space_after_block(bytes: &[u8]) -> Option<usize>
    requires { LANES ≤ length bytes.now }
    ensures { IfSome result (λ size. IsSpaceAt bytes.now size) }
{
    let mut before = LANES;
    while before < LONGEST && LANES <= bytes.len() - before {
        let more = first_space(&bytes[before..]);
        if more < LANES {
            return Some(before + more);
        }
        before += LANES;
    }
    None
}

/// The index of the row for a name with these first, middle and last bytes. No two of these names
/// have the same three, but other texts may, so the row is only a guess.
#[inline(always)]
fn place_of_row(first: u8, middle: u8, last: u8) -> usize {
    let sum = usize::from(first) + MIDDLE * usize::from(middle) + LAST * usize::from(last);
    usize::from(SLOTS[sum % 256].wrapping_sub(b'('))
}

#[inline(always)]
fn listed_rows() -> &'static [Row]
    ensures { AreRows result.now }
{
    &ROWS
}
