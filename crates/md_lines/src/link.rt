//! The parts of links and of their definitions: labels, destinations and titles.

ghost use Rattle.std.specs.Prelude.{◌≡◌, ◌≤◌, ◌<◌, length, min};
ghost use Rattle.std.specs.List.{prefix_len};
ghost use Rattle.std.specs.Prelude.{drop, suc, ◌+◌, ◌-◌, option_map, IfSome};
ghost use Rattle.md_lines.specs.Escapes.{before_unescaped, in_line, is_angle};
ghost use Rattle.md_lines.specs.Escapes.{pointed_length, stops_title, width};
ghost use Rattle.md_lines.specs.LinkParts.{bare_end, closing_mark, destination_at, destination_of};
ghost use Rattle.md_lines.specs.LinkParts.{ends_destination, is_bracket, label_at, opened_after};
ghost use Rattle.md_lines.specs.LinkParts.{title_after, title_at};
ghost use Rattle.md_lines.specs.Reading.{lines_after, text_from, text_in, ReadSame};
ghost use Rattle.md_lines.specs.Texts.{after_next, text_before};
ghost use Rattle.std.specs.Prelude.{IfNone, is_some, Some, None, true, false, take, [], not, ◌&&◌, ◌==◌};
ghost use Rattle.std.specs.List.{list_all};
ghost use Rattle.md_lines.specs.Lines.{goes_on_in_label, is_blank};

use crate::class::{Class, is};
use crate::cursor::Cursor;
use crate::find::{LANES, Search, find, first_set};
use crate::span::Span;
use crate::trim::trim_start;
use std::simd::prelude::*;

/// The maximum number of bytes in a label.
const MOST_IN_LABEL: usize = 999;

/// How deep parentheses in a destination may nest.
const MOST_NESTED: usize = 32;

/// A link's title, without its marks.
#[derive(Clone, Copy, PartialEq, Eq, Debug)]
pub struct Title {
    /// Its text, as byte indices. It may span lines.
    pub text: Span,
    /// The line in which it begins, as an index into the lines read.
    pub line: usize,
}

/// Reads a link's label, from after its `[` to its `]`; returns whether it is valid. A label has a
/// character other than spaces, tabs and line endings, at most 999 bytes, and no bracket without a
/// backslash before it.
pub fn read_label(cursor: &mut Cursor<'_>) -> bool
    ensures valid { result ≡ is_some (label_at (text_from cursor.old)) }
    ensures found { result ≡ true → label_at (text_from cursor.old) ≡ Some (record {
      text = text_before (text_from cursor.old) (text_from cursor.new);
      rest = after_next (text_from cursor.new);
    }) }
    ensures same { ReadSame cursor.old cursor.new }
{
    let mut is_blank = true;
    let mut count = 0;
    while count <= MOST_IN_LABEL {
        let text = cursor.rest_of_line();
        let length = label_length(text, MOST_IN_LABEL + 1 - count);
        is_blank &= is_blank_before(text, length);
        count += length;
        if count > MOST_IN_LABEL {
            return false;
        }
        if length < text.len() {
            cursor.at += length;
            let close = b']';
            return text[length] == close && !is_blank;
        }
        if !cursor.next_line() {
            return false;
        }
        count += 1;
    }
    false
}

/// The number of bytes before the first bracket of a text that isn't escaped. If there are `most`
/// or more, it is that many or one more.
#[inline(always)]
fn label_length(text: &[u8], most: usize) -> usize
    requires { most ≤ 1000 }
    ensures within { result ≤ length text.now }
    ensures none_passed { result ≤ before_unescaped is_bracket text.now }
    ensures short { result ≤ suc most }
    ensures first { result < most → result ≡ before_unescaped is_bracket text.now }
{
    let mut length = 0;
    while length < most && length < text.len() {
        let byte = text[length];
        if goes_on_in_label(byte) {
            length += 1;
            continue;
        }
        if is_bracket(byte) {
            return length;
        }
        length = after_byte(text, length);
    }
    length
}

/// Whether a byte is no square bracket and no backslash, which is between them.
#[inline(always)]
fn goes_on_in_label(byte: u8) -> bool
    ensures { result ≡ goes_on_in_label byte }
{
    !matches!(byte, b'['..=b']')
}

/// Whether a byte is a square bracket.
#[inline(always)]
fn is_bracket(byte: u8) -> bool
    ensures { result ≡ is_bracket byte }
{
    byte == b'[' || byte == b']'
}

/// Whether the first `count` bytes of a text are spaces and tabs.
fn is_blank_before(text: &[u8], count: usize) -> bool
    requires { count ≤ length text.now }
    ensures { result ≡ list_all is_blank (take count text.now) }
{
    trim_start(text, 0, count) == count
}

/// Reads a link's destination, which ends in its line; returns its text without angle brackets, as
/// byte indices.
pub fn read_destination(cursor: &mut Cursor<'_>) -> Option<Span>
    ensures found { IfSome result (λ span. destination_at (in_line cursor.old)
        ≡ Some (record { text = text_in span cursor.old; rest = in_line cursor.new })) }
    ensures none { IfNone result (destination_at (in_line cursor.old) ≡ None) }
    ensures long { IfSome result (λ span.
        length (text_in span cursor.old) ≡ span.end - span.start) }
    ensures later { lines_after cursor.new ≡ lines_after cursor.old }
    ensures same { ReadSame cursor.old cursor.new }
{
    if cursor.take(b'<') {
        pointed_destination(cursor)
    } else {
        bare_destination(cursor)
    }
}

/// Reads a destination in angle brackets, from after its `<` to after its `>`.
fn pointed_destination(cursor: &mut Cursor<'_>) -> Option<Span>
    ensures length { option_map (λ span. span.end - span.start) result
        ≡ pointed_length (in_line cursor.old) }
    ensures start { IfSome result (λ span. span.start ≡ cursor.old.at) }
    ensures passed { IfSome result (λ span. cursor.new.at ≡ suc span.end) }
    ensures line { cursor.new.line ≡ cursor.old.line }
    ensures line_end { cursor.new.end ≡ cursor.old.end }
    ensures found { IfSome result (λ span.
        destination_of 1 (pointed_length (in_line cursor.old)) (in_line cursor.old)
        ≡ Some (record { text = text_in span cursor.old; rest = in_line cursor.new })) }
    ensures none { IfNone result (pointed_length (in_line cursor.old) ≡ None) }
    ensures long { IfSome result (λ span.
        length (text_in span cursor.old) ≡ span.end - span.start) }
    ensures same { ReadSame cursor.old cursor.new }
{
    let from = cursor.at;
    let text = cursor.rest_of_line();
    let length = pointed_length(text);
    if length >= text.len() {
        return None;
    }
    let close = b'>';
    if text[length] != close {
        return None;
    }
    cursor.at = from + length + 1;
    Some(Span::new(from, from + length))
}

/// The number of bytes before the first angle bracket of a text that isn't escaped.
fn pointed_length(text: &[u8]) -> usize
    ensures { result ≡ before_unescaped is_angle text.now }
{
    let mut at = 0;
    while at < text.len() && !is_angle(text[at]) {
        at = after_byte(text, at);
    }
    at
}

/// Whether a byte is an angle bracket.
#[inline(always)]
fn is_angle(byte: u8) -> bool
    ensures { result ≡ is_angle byte }
{
    byte == b'<' || byte == b'>'
}

/// Reads a destination without angle brackets, which may be empty.
fn bare_destination(cursor: &mut Cursor<'_>) -> Option<Span>
    ensures found { IfSome result (λ span.
        destination_of 0 (bare_end 0 0 false (in_line cursor.old)) (in_line cursor.old)
        ≡ Some (record { text = text_in span cursor.old; rest = in_line cursor.new })) }
    ensures none { IfNone result (bare_end 0 0 false (in_line cursor.old) ≡ None) }
    ensures long { IfSome result (λ span.
        length (text_in span cursor.old) ≡ span.end - span.start) }
    ensures line { cursor.new.line ≡ cursor.old.line }
    ensures same { ReadSame cursor.old cursor.new }
{
    let from = cursor.at;
    let Some(at) = bare_end(cursor.bytes, from, cursor.end) else {
        return None;
    };
    cursor.at = at;
    Some(Span::new(from, at))
}

/// The end of a destination without angle brackets that begins at `from`, in a line up to `end`:
/// its parentheses are paired, and it has no space and no control character except NUL, which is
/// printed as U+FFFD.
fn bare_end(bytes: &[u8], from: usize, end: usize) -> Option<usize>
    requires { end ≤ length bytes.now }
    ensures value { result ≡ bare_end from 0 false (drop from (take end bytes.now)) }
    ensures after { IfSome result (λ at. from ≤ at) }
    ensures within { IfSome result (λ at. from < at → at ≤ end) }
{
    let mut at = from;
    let mut opened = 0;
    while at < end {
        at = find(InDestination, bytes, at, end);
        if at >= end {
            return if_paired(opened, end);
        }
        let byte = bytes[at];
        if byte == b'\\' {
            at = after_byte(&bytes[..end], at);
            continue;
        }
        if ends_destination(byte, opened) {
            return if_paired(opened, at);
        }
        opened = opened_after(byte, opened);
        if opened > MOST_NESTED {
            return None;
        }
        at += 1;
    }
    if_paired(opened, at)
}

/// The end of a destination, if no parenthesis is open there.
#[inline(always)]
fn if_paired(opened: usize, end: usize) -> Option<usize>
    ensures { result ≡ bare_end end opened false [] }
{
    if opened == 0 { Some(end) } else { None }
}

/// How many parentheses are open after a byte.
#[inline(always)]
fn opened_after(byte: u8, opened: usize) -> usize
    requires { opened ≤ 32 }
    ensures { result ≡ opened_after byte opened }
{
    match byte {
        b'(' => opened + 1,
        b')' => opened.saturating_sub(1),
        _ => opened,
    }
}

/// Whether a byte ends a destination without angle brackets in which so many parentheses are open.
#[inline(always)]
fn ends_destination(byte: u8, opened: usize) -> bool
    ensures { result ≡ ends_destination opened byte }
{
    match byte {
        0 => false,
        b')' => opened == 0,
        _ => byte <= b' ' || byte == 127,
    }
}

/// The search for a space, a control character, a parenthesis or a backslash.
#[derive(Clone, Copy)]
struct InDestination;

impl Search for InDestination {
    ghost use Rattle.md_lines.specs.Lines.{goes_on_in_destination};

    ghost skips = { λ _. goes_on_in_destination };

    #[inline(always)]
    fn is_skipped(self, byte: u8) -> bool {
        byte > b' ' && !matches!(byte, b'(' | b')' | b'\\' | 127)
    }

    #[inline(always)]
    fn run_in(self, bytes: &[u8], at: usize) -> usize {
        let block = Simd::<u8, LANES>::from_slice(&bytes[at..]);
        let found = block.simd_lt(Simd::splat(b'!'))
            | block.simd_eq(Simd::splat(b'('))
            | block.simd_eq(Simd::splat(b')'))
            | block.simd_eq(Simd::splat(b'\\'))
            | block.simd_eq(Simd::splat(127));
        first_set(found.to_bitmask())
    }
}

/// The index after the byte at `at`, and after the punctuation mark that it escapes, if any.
#[inline(always)]
fn after_byte(text: &[u8], at: usize) -> usize
    requires { at < length text.now }
    ensures after { at < result }
    ensures within { result ≤ length text.now }
    ensures width { result ≡ at + width (drop at text.now) }
{
    match text.get(at + 1) {
        Some(next) if text[at] == b'\\' && is(*next, Class::Punctuation) => at + 2,
        _ => at + 1,
    }
}

/// Reads a link's title in quotes or parentheses. It may span lines.
pub fn read_title(cursor: &mut Cursor<'_>) -> Option<Title>
    ensures rest { IfSome result (λ _. option_map (λ part. part.rest)
        (title_at (text_from cursor.old)) ≡ Some (text_from cursor.new)) }
    ensures none { IfNone result (title_at (text_from cursor.old) ≡ None) }
    ensures same { ReadSame cursor.old cursor.new }
{
    if cursor.at >= cursor.end {
        return None;
    }
    let mark = cursor.bytes[cursor.at];
    let Some(close) = closing_mark(mark) else {
        return None;
    };
    cursor.at += 1;
    read_title_after(cursor, mark, close)
}

/// The mark that closes a title, by the one that opens it.
fn closing_mark(mark: u8) -> Option<u8>
    ensures { result ≡ closing_mark mark }
{
    match mark {
        b'"' | b'\'' => Some(mark),
        b'(' => Some(b')'),
        _ => None,
    }
}

/// Reads a title from after its opening mark to after its closing mark.
fn read_title_after(cursor: &mut Cursor<'_>, mark: u8, close: u8) -> Option<Title>
    ensures rest { IfSome result (λ _. option_map (λ part. part.rest)
        (title_after mark close (text_from cursor.old)) ≡ Some (text_from cursor.new)) }
    ensures none { IfNone result (title_after mark close (text_from cursor.old) ≡ None) }
    ensures same { ReadSame cursor.old cursor.new }
{
    let line = cursor.line;
    let from = cursor.at;
    'lines: loop {
        let at = cursor.at;
        let text = cursor.rest_of_line();
        let length = title_length(text, mark, close);
        if length < text.len() {
            if text[length] != close {
                return None;
            }
            cursor.at = at + length + 1;
            return Some(Title {
                text: Span::new(from, at + length),
                line,
            });
        }
        if !cursor.next_line() {
            return None;
        }
    }
}

/// The number of bytes before the first of a text that ends a title, well or not, and isn't
/// escaped.
fn title_length(text: &[u8], mark: u8, close: u8) -> usize
    ensures { result ≡ before_unescaped (stops_title mark close) text.now }
{
    let mut at = 0;
    while at < text.len() && !stops_title(mark, close, text[at]) {
        at = after_byte(text, at);
    }
    at
}

/// Whether a byte ends a title that begins with a mark and is closed by another, well or not.
#[inline(always)]
fn stops_title(mark: u8, close: u8, byte: u8) -> bool
    ensures { result ≡ stops_title mark close byte }
{
    byte == close || (byte == b'(' && mark == b'(')
}
