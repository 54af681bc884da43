//! Finds where a valid text ends.

ghost use Rattle.std.specs.Prelude.{◌≤◌, ◌<◌, ◌+◌, length, ◌&&◌};
ghost use Rattle.std.specs.Prelude.{slice_range, IsTrue};
ghost use Rattle.std.specs.Str.{IsUtf8};

use super::{FIRST_PART, MOST_PART, NEAR, SAMPLES};
use simdutf8::basic::from_utf8;

/// Where the next text may begin after an invalid byte.
#[inline(always)]
pub(super) fn next_start(bytes: &[u8], fault: usize) -> usize
    requires { fault ≤ length bytes.now }
    ensures { (fault ≤ result) × (result ≤ length bytes.now)
        × (fault < length bytes.now → fault < result) }
{
    let mut at = bytes.len().min(fault + 1);
    while at < bytes.len() && goes_on(bytes[at]) {
        at += 1;
    }
    at
}

/// Whether a byte continues a character.
#[inline(always)]
fn goes_on(byte: u8) -> bool {
    byte & 0xC0 == 0x80
}

/// The end of the valid text that begins at an index. Only a long text is read by parts, since a
/// part that isn't valid costs a second read.
#[inline(always)]
pub(super) fn text_end(bytes: &[u8], start: usize) -> usize
    requires { start ≤ length bytes.now }
    ensures { (start ≤ result) × (result ≤ length bytes.now)
        × IsUtf8 (slice_range bytes.now start result) }
{
    let near = bytes.len().min(start + NEAR);
    let end = text_end_before(bytes, start, near);
    // A character may continue after the bytes that were read.
    if near - end > 3 || near == bytes.len() {
        return end;
    }
    text_end_by_parts(bytes, start, end)
}

/// The end of the valid text that begins at an index, if it is read byte by byte and at most up to
/// another index.
#[inline(always)]
fn text_end_before(bytes: &[u8], start: usize, end: usize) -> usize
    requires { (start ≤ end) × (end ≤ length bytes.now) }
    ensures { (start ≤ result) × (result ≤ end) × IsUtf8 (slice_range bytes.now start result) }
{
    match std::str::from_utf8(&bytes[start..end]) {
        Ok(_) => end,
        Err(error) => start + error.valid_up_to(),
    }
}

/// The end of the valid text that begins at an index and is known to be valid up to another. A
/// valid part is read once. Validation of another part doesn't report where the invalid byte is, so
/// that part is read again.
#[inline(never)]
pub(super) fn text_end_by_parts(bytes: &[u8], start: usize, known: usize) -> usize
    requires { (start ≤ known) × (known ≤ length bytes.now)
        × IsUtf8 (slice_range bytes.now start known) }
    ensures { (start ≤ result) × (result ≤ length bytes.now)
        × IsUtf8 (slice_range bytes.now start result) }
{
    let mut at = known;
    let mut size = FIRST_PART;
    while at < bytes.len() {
        let end = part_end(bytes, at, size);
        if !is_text(&bytes[at..end]) {
            break;
        }
        at = end;
        size = MOST_PART.min(size * 2);
    }
    text_end_before(bytes, at, bytes.len())
}

/// Whether bytes are UTF-8. `std` is faster for ASCII, and `simdutf8` for other characters.
fn is_text(bytes: &[u8]) -> bool
    ensures { IsTrue result → IsUtf8 bytes.now }
{
    if looks_ascii(bytes) {
        std::str::from_utf8(bytes).is_ok()
    } else {
        from_utf8(bytes).is_ok()
    }
}

/// Whether a sample of the bytes is ASCII.
#[inline(always)]
fn looks_ascii(bytes: &[u8]) -> bool {
    let step = bytes.len() / SAMPLES + 1;
    let mut at = 0;
    while at < bytes.len() {
        if bytes[at] >= 0x80 {
            return false;
        }
        at += step;
    }
    true
}

/// The end of a part of `size` bytes, moved before a character that it would cut.
fn part_end(bytes: &[u8], at: usize, size: usize) -> usize
    requires { (at < length bytes.now) × (FIRST_PART ≤ size) × (size ≤ MOST_PART) }
    ensures { (at < result) × (result ≤ length bytes.now) }
{
    if bytes.len() - at <= size {
        return bytes.len();
    }
    character_start(
        bytes,
        character_start(bytes, character_start(bytes, at + size)),
    )
}

/// The index, or the one before it if its byte continues a character.
fn character_start(bytes: &[u8], at: usize) -> usize
    requires { (0 < at) × (at < length bytes.now) }
    ensures { (result ≤ at) × (at ≤ result + 1) }
{
    if goes_on(bytes[at]) { at - 1 } else { at }
}
