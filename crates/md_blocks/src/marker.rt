//! Recognizes marks, markers and labels at the beginning of a line's text.

ghost use Rattle.std.specs.Prelude.{◌≡◌, ◌≤◌, ◌<◌, ◌+◌, ◌&&◌, ◌||◌, ◌==◌, length, drop, max};
ghost use Rattle.std.specs.Prelude.{not, get_or, is_some, IfSome};
ghost use Rattle.md_blocks.specs.Marks.{run_of, is_apart, opens_heading, number_length};
ghost use Rattle.md_blocks.specs.Marks.{is_blank_text, opens_item, may_interrupt, opens_task};
ghost use Rattle.md_blocks.specs.Marks.{ends_marker};
ghost use Rattle.md_blocks.specs.OwnBlocks.{is_in_label, is_label, label_length, opens_footnote};
ghost use Rattle.md_blocks.specs.Leaves.{is_underline, without_blanks, without_number_signs};
ghost use Rattle.md_blocks.specs.Leaves.{heading_content};

use md_lines::{Span, trim_end, trim_start};

/// The maximum number of digits in an item's number.
const MOST_DIGITS: usize = 9;

/// The maximum length of a footnote's label.
const MOST_IN_LABEL: usize = 998;

/// The marker of an item.
#[derive(Clone, Copy)]
pub(crate) struct Marker {
    /// The last byte.
    pub(crate) byte: u8,
    /// How many digits precede it.
    pub(crate) digits: usize,
}

/// The end of the run of a byte that begins at an index; that index if there is none.
#[inline(always)]
pub(crate) fn run_end(line: &[u8], from: usize, byte: u8) -> usize
    ensures after { from ≤ result }
    ensures within { result ≤ max from (length line.now) }
    ensures value { result ≡ from + run_of byte (drop from line.now) }
{
    let mut at = from;
    while at < line.len() && line[at] == byte {
        at += 1;
    }
    at
}

/// Whether only spaces and tabs follow from an index.
#[inline(always)]
pub(crate) fn is_blank_from(line: &[u8], from: usize) -> bool
    ensures { result ≡ is_blank_text (drop from line.now) }
{
    match line.get(from..) {
        Some(rest) => trim_start(rest, 0, rest.len()) == rest.len(),
        None => true,
    }
}

/// Whether there is a space, a tab or the line's end at an index.
#[inline(always)]
fn is_space_at(line: &[u8], at: usize) -> bool
    ensures { result ≡ is_apart (drop at line.now) }
{
    matches!(line.get(at), None | Some(b' ' | b'\t'))
}

/// The number signs of a heading at an index; `None` if there is none, or more than six.
pub(crate) fn heading_marks(line: &[u8], at: usize) -> Option<Span>
    ensures within { IfSome result (λ marks. marks.end ≤ length line.now) }
    ensures short { IfSome result (λ marks. marks.end ≤ marks.start + 6) }
    ensures there { is_some result ≡ opens_heading (drop at line.now) }
    ensures start { IfSome result (λ marks. marks.start ≡ at) }
    ensures end { IfSome result (λ marks. marks.end ≡ at + run_of 35 (drop at line.now)) }
{
    let end = run_end(line, at, b'#');
    if at < end && end - at <= 6 && is_space_at(line, end) {
        Some(Span::new(at, end))
    } else {
        None
    }
}

/// The content of a heading, without spaces and the closing number signs at its end; `text` follows
/// the first number signs.
pub(crate) fn heading_content(text: &[u8]) -> &[u8]
    ensures value { result.now ≡ heading_content text.now }
    ensures within { length result.now ≤ length text.now }
{
    let whole = without_blanks(text);
    let content = without_number_signs(whole);
    match content.last() {
        Some(b' ' | b'\t') => without_blanks(content),
        _ => whole,
    }
}

/// A text without the spaces and tabs at its end.
#[inline(always)]
pub(crate) fn without_blanks(text: &[u8]) -> &[u8]
    ensures value { result.now ≡ without_blanks text.now }
    ensures within { length result.now ≤ length text.now }
{
    &text[..trim_end(text, 0, text.len())]
}

/// A text without the number signs at its end.
#[inline(always)]
fn without_number_signs(text: &[u8]) -> &[u8]
    ensures value { result.now ≡ without_number_signs text.now }
    ensures within { length result.now ≤ length text.now }
{
    let mut end = text.len();
    while end > 0 && text[end - 1] == b'#' {
        end -= 1;
    }
    &text[..end]
}

/// The underline of a heading at an index: marks of one kind, and then only spaces and tabs.
pub(crate) fn underline(line: &[u8], at: usize, mark: u8) -> Option<Span>
    ensures there { is_some result ≡ is_underline mark (drop at line.now) }
    ensures start { IfSome result (λ marks. marks.start ≡ at) }
    ensures end { IfSome result (λ marks. marks.end ≡ at + run_of mark (drop at line.now)) }
{
    let end = run_end(line, at, mark);
    if at < end && is_blank_from(line, end) {
        Some(Span::new(at, end))
    } else {
        None
    }
}

/// The marker of an item that begins at an index. An item that interrupts a paragraph must have
/// text, and its number must be the digit 1.
pub(crate) fn item_marker(line: &[u8], at: usize, in_paragraph: bool) -> Option<Marker>
    ensures within { IfSome result (λ marker. at + marker.digits < length line.now) }
    ensures short { IfSome result (λ marker. marker.digits ≤ 9) }
    ensures there { is_some result ≡ (opens_item (drop at line.now)
        && (not in_paragraph || may_interrupt (drop at line.now))) }
    ensures digits { IfSome result (λ marker. marker.digits ≡ number_length (drop at line.now)) }
    ensures byte { IfSome result (λ marker. marker.byte
        ≡ get_or line.now (at + marker.digits) 0) }
{
    let text = line.get(at..)?;
    let marker = marker_of(text)?;
    if in_paragraph && !may_interrupt(text, marker.digits) {
        return None;
    }
    Some(marker)
}

/// The marker of an item that begins a text, wherever that is.
#[inline(always)]
fn marker_of(text: &[u8]) -> Option<Marker>
    ensures within { IfSome result (λ marker. marker.digits < length text.now) }
    ensures there { is_some result ≡ opens_item text.now }
    ensures digits { IfSome result (λ marker. marker.digits ≡ number_length text.now) }
    ensures byte { IfSome result (λ marker. marker.byte ≡ get_or text.now marker.digits 0) }
{
    let digits = digits_end(text, 0);
    let byte = *text.get(digits)?;
    if ends_marker(digits, byte) && is_space_at(text, digits + 1) {
        Some(Marker { byte, digits })
    } else {
        None
    }
}

/// Whether a byte after so many digits is the last of an item's marker.
#[inline(always)]
fn ends_marker(digits: usize, byte: u8) -> bool
    ensures { result ≡ ends_marker digits byte }
{
    if digits == 0 {
        matches!(byte, b'*' | b'+' | b'-')
    } else {
        matches!(byte, b'.' | b')')
    }
}

/// Whether an item that begins a text, and whose number has so many digits, may interrupt a
/// paragraph.
#[inline(always)]
fn may_interrupt(text: &[u8], digits: usize) -> bool
    requires number { digits ≡ number_length text.now }
    requires within { digits < length text.now }
    ensures { result ≡ may_interrupt text.now }
{
    let is_first = digits == 0 || (digits == 1 && text[0] == b'1');
    is_first && !is_blank_from(text, digits + 1)
}

/// The end of the digits that begin at an index, of which at most nine are read.
#[inline(always)]
fn digits_end(line: &[u8], at: usize) -> usize
    ensures after { at ≤ result }
    ensures short { result ≤ at + 9 }
    ensures value { result ≡ at + number_length (drop at line.now) }
{
    let mut end = at;
    while end < line.len() && end - at < MOST_DIGITS && line[end].is_ascii_digit() {
        end += 1;
    }
    end
}

/// The label of a footnote's definition that begins at an index, at its `[`: the text between `[^`
/// and `]:`.
pub(crate) fn footnote_label(line: &[u8], at: usize) -> Option<Span>
    ensures within { IfSome result (λ label.
        (at ≤ label.start) × (label.end + 2 ≤ length line.now)) }
    ensures there { is_some result ≡ opens_footnote (drop at line.now) }
    ensures start { IfSome result (λ label. label.start ≡ at + 2) }
    ensures end { IfSome result (λ label.
        label.end ≡ at + 2 + label_length (drop 2 (drop at line.now))) }
{
    let text = line.get(at..)?;
    let count = label_after_caret(text)?;
    let start = at + 2;
    Some(Span::new(start, start + count))
}

/// The length of the label of a footnote's definition that begins a text.
#[inline(always)]
fn label_after_caret(text: &[u8]) -> Option<usize>
    ensures within { IfSome result (λ count. count + 4 ≤ length text.now) }
    ensures there { is_some result ≡ opens_footnote text.now }
    ensures value { IfSome result (λ count. count ≡ label_length (drop 2 text.now)) }
{
    match text.get(..2) {
        Some([b'[', b'^']) => label_before_colon(&text[2..]),
        _ => None,
    }
}

/// The length of a label that begins a text, if a bracket and a colon follow it.
#[inline(always)]
fn label_before_colon(text: &[u8]) -> Option<usize>
    ensures within { IfSome result (λ count. count + 2 ≤ length text.now) }
    ensures there { is_some result ≡ is_label text.now }
    ensures value { IfSome result (λ count. count ≡ label_length text.now) }
{
    let end = label_end(text);
    if end == 0 {
        return None;
    }
    match text.get(end..end + 2) {
        Some([b']', b':']) => Some(end),
        _ => None,
    }
}

/// The end of the label that begins a text, of which at most `MOST_IN_LABEL` bytes are read.
#[inline(always)]
fn label_end(text: &[u8]) -> usize
    ensures within { result ≤ length text.now }
    ensures value { result ≡ label_length text.now }
{
    let mut end = 0;
    while end < text.len() && end < MOST_IN_LABEL && is_in_label(text[end]) {
        end += 1;
    }
    end
}

/// Whether a byte may be in a footnote's label.
#[inline(always)]
fn is_in_label(byte: u8) -> bool
    ensures { result ≡ is_in_label byte }
{
    !matches!(byte, b']' | b'[' | b' ' | b'\t' | 0)
}

/// The checkbox at an index: `Some(true)` if it is checked.
pub(crate) fn task_box(line: &[u8], at: usize) -> Option<bool>
    ensures within { IfSome result (λ _. at + 3 ≤ length line.now) }
    ensures there { is_some result ≡ opens_task (drop at line.now) }
    ensures done { IfSome result (λ is_done. is_done ≡ not (get_or line.now (at + 1) 0 == 32)) }
{
    match line.get(at..at.saturating_add(4)) {
        Some([b'[', b' ', b']', b' ' | b'\t']) => Some(false),
        Some([b'[', b'x' | b'X', b']', b' ' | b'\t']) => Some(true),
        _ => None,
    }
}
