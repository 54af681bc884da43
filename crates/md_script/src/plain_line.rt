//! Plain lines of events: a sign, a name, one space and an index.

ghost use Rattle.std.specs.Prelude.{◌≡◌, ◌+◌, ◌*◌, ◌++◌, ◌∷◌, List, false, length, position};
ghost use Rattle.std.specs.Prelude.{IfSome};
ghost use Rattle.std.specs.List.{list_any};
ghost use Rattle.md_script.specs.PlainLine.{is_break, BeginsWithEvent, BeginsWithNumber};
ghost use Rattle.md_script.specs.PlainLine.{BeginsWithPlace};

use crate::common_name::read_common_name;
use crate::digits::digits_before;
use crate::line::read_kind;
use crate::name::read_name;
use md_base::{Event, Point};

/// The event of the first line and the bytes after its line feed, if the line is plain: a sign, a
/// name, one space, an index, and optionally a dot and columns. `None` for another line, and near
/// the end of the input also for one with columns.
pub fn read_plain_line(input: &[u8]) -> Option<(Event, &[u8])>
    ensures { IfSome result (λ read. BeginsWithEvent input.now read.0 read.1.now) }
{
    match read_cut_line(input) {
        Some(read) => Some(read),
        None => read_uncut_line(input),
    }
}

/// The same for a line that ends with an index, in parts.
#[inline(never)]
fn read_uncut_line(input: &[u8]) -> Option<(Event, &[u8])>
    ensures { IfSome result (λ read. BeginsWithEvent input.now read.0 read.1.now) }
{
    let (sign, rest) = input.split_first()?;
    let kind = read_kind(*sign)?;
    let (name, place) = split_name(rest)?;
    let name = read_name(name)?;
    let (index, following) = split_index(place)?;
    let point = Point {
        line: 1,
        column: 1,
        index,
        vs: 0,
    };
    Some((Event { kind, name, point }, following))
}

/// The same for a line with columns, unless the input ends soon.
fn read_cut_line(input: &[u8]) -> Option<(Event, &[u8])>
    ensures { IfSome result (λ read. BeginsWithEvent input.now read.0 read.1.now) }
{
    let (sign, rest) = input.split_first()?;
    let kind = read_kind(*sign)?;
    let (name, place) = read_common_name(rest)?;
    let (point, following) = read_cut_place(place)?;
    Some((Event { kind, name, point }, following))
}

/// An index, after a dot columns, and the bytes after the line feed that ends them.
fn read_cut_place(bytes: &[u8]) -> Option<(Point, &[u8])>
    ensures { IfSome result (λ read. BeginsWithPlace bytes.now read.0 read.1.now) }
{
    if bytes.len() < INDEX_SIZE {
        return None;
    }
    let (index, columns) = digits_before(bytes, b'.', INDEX_SIZE - 1)?;
    if columns.len() < COLUMNS_SIZE {
        return None;
    }
    let (vs, following) = digits_before(columns, b'\n', COLUMNS_SIZE - 1)?;
    let point = Point {
        line: 1,
        column: 1,
        index,
        vs,
    };
    Some((point, following))
}

/// The length of the longest index with its line feed.
const INDEX_SIZE: usize = 10;

/// The length of the longest columns with their line feed.
const COLUMNS_SIZE: usize = 4;

/// The event of a line with only an index, and the bytes after the line, as [`read_plain_line`]
/// returns them, in fewer steps for most lines. Also `None` if fewer than sixteen bytes follow the
/// sign, fewer than ten the name, or few a long one.
#[inline(always)]
pub fn read_common_line(input: &[u8]) -> Option<(Event, &[u8])>
    ensures { IfSome result (λ read. BeginsWithEvent input.now read.0 read.1.now) }
{
    let (sign, rest) = input.split_first()?;
    let kind = read_kind(*sign)?;
    let (name, place) = read_common_name(rest)?;
    if place.len() < INDEX_SIZE {
        return None;
    }
    let (index, following) = digits_before(place, b'\n', INDEX_SIZE - 1)?;
    let point = Point {
        line: 1,
        column: 1,
        index,
        vs: 0,
    };
    Some((Event { kind, name, point }, following))
}

/// The bytes before and after the first space of a line.
fn split_name(bytes: &[u8]) -> Option<(&[u8], &[u8])>
    ensures whole { IfSome result (λ parts. bytes.now ≡ parts.0.now ++ 32 ∷ parts.1.now) }
    ensures unbroken { IfSome result (λ parts. list_any is_break parts.0.now ≡ false) }
{
    let end = find_break(bytes)?;
    if bytes[end] == b' ' {
        Some((&bytes[..end], &bytes[end + 1..]))
    } else {
        None
    }
}

fn find_break(bytes: &[u8]) -> Option<usize>
    ensures { result ≡ position is_break bytes.now }
{
    bytes
        .iter()
        .position(|byte| *byte == b' ' || *byte == b'\n')
}

/// An index of 1 to 9 digits, and the bytes after the line feed that ends it.
fn split_index(bytes: &[u8]) -> Option<(usize, &[u8])>
    ensures { IfSome result (λ read. BeginsWithNumber 9 10 bytes.now read.0 read.1.now) }
{
    let mut index = 0;
    let mut length = 0;
    for byte in bytes {
        if *byte == b'\n' && length > 0 {
            return Some((index, &bytes[length + 1..]));
        }
        if !byte.is_ascii_digit() || length == 9 {
            return None;
        }
        index = index * 10 + usize::from(*byte - b'0');
        length += 1;
    }
    None
}
