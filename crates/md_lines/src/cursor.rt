//! A place in the lines of a leaf, and a cursor that moves from it.

ghost use Rattle.std.specs.Prelude.{◌≡◌, ◌≤◌, ◌<◌, length, min, suc, nat_lt};
ghost use Rattle.std.specs.Prelude.{IsTrue, IfNone, IfSome, Some, None, true, false, slice_get};
ghost use Rattle.std.specs.Prelude.{◌+◌, drop, map, [], List, ℕ};
ghost use Rattle.std.specs.List.{prefix_len};
ghost use Rattle.md_lines.specs.Classes.{is_in};

use crate::class::{Class, is};
use crate::line::Line;

/// A place in the lines of a leaf: the index of a line among them, and a byte index into the
/// document.
#[derive(Clone, Copy, PartialEq, Eq, Debug)]
pub struct Place {
    pub line: usize,
    pub at: usize,
}

/// Reads the lines of a leaf from a place in them: the text of each line, with a line feed between
/// two lines.
#[derive(Clone, Copy)]
pub struct Cursor<'a> {
    pub(crate) bytes: &'a [u8],
    pub(crate) lines: &'a [Line],
    pub(crate) line: usize,
    pub(crate) at: usize,
    /// The end of the text of its line.
    pub(crate) end: usize,
    ghost within: { end ≤ length bytes.now },
    ghost in_lines: { line ≤ length lines.now },
}

impl<'a> Cursor<'a> {
    ghost use Rattle.md_lines.specs.Reading.{left, is_next, line_text, lines_after, text_from};
    ghost use Rattle.md_lines.specs.Reading.{ReadSame};
    ghost use Rattle.md_lines.specs.Escapes.{in_line};
    ghost use Rattle.md_lines.specs.Texts.{after_next, after_spaces, begins_with};
    ghost use Rattle.md_lines.specs.Texts.{begins_with_space, is_none, next_in};

    /// A cursor at a place in the lines.
    #[inline]
    pub fn new(bytes: &'a [u8], lines: &'a [Line], place: Place) -> Self
        ensures document { result.bytes.now ≡ bytes.now }
        ensures lines { result.lines.now ≡ lines.now }
        ensures line { result.line ≡ min place.line (length lines.now) }
        ensures text { IfSome (slice_get lines.now place.line) (λ line. place.at ≡ line.start
            → text_from result ≡ map (line_text bytes.now) (drop place.line lines.now)) }
    {
        let line = place.line.min(lines.len());
        Cursor {
            bytes,
            lines,
            line,
            at: place.at,
            end: end_of(bytes, lines, line),
        }
    }

    /// The current place.
    #[inline(always)]
    pub fn place(&self) -> Place
        ensures line { result.line ≡ self.now.line }
        ensures at { result.at ≡ self.now.at }
    {
        Place {
            line: self.line,
            at: self.at,
        }
    }

    /// The next byte, a line feed between two lines; `None` at the end of the last line.
    #[inline]
    pub fn peek(&self) -> Option<u8>
        ensures in_line { self.now.at < self.now.end
            → result ≡ slice_get self.now.bytes.now self.now.at }
        ensures between { self.now.end ≤ self.now.at
            → suc self.now.line < length self.now.lines.now → result ≡ Some 10 }
        ensures after { self.now.end ≤ self.now.at
            → length self.now.lines.now ≤ suc self.now.line → result ≡ None }
        ensures next { result ≡ next_in (text_from self.now) }
    {
        if self.at < self.end {
            Some(self.bytes[self.at])
        } else if self.line + 1 < self.lines.len() {
            Some(b'\n')
        } else {
            None
        }
    }

    /// What is left of the text of the current line.
    #[inline(always)]
    pub fn rest_of_line(&self) -> &'a [u8]
        ensures { result.now ≡ in_line self.now }
    {
        self.bytes[..self.end].get(self.at..).unwrap_or(b"")
    }

    /// Whether a byte comes next in the line.
    #[inline(always)]
    pub fn is_next(&self, byte: u8) -> bool
        ensures { result ≡ begins_with byte (text_from self.now) }
    {
        self.at < self.end && self.bytes[self.at] == byte
    }

    /// The index of the line after the current one.
    #[inline(always)]
    pub fn next_index(&self) -> usize
        ensures { result ≡ suc self.now.line }
    {
        self.line + 1
    }

    /// How many lines follow the current one.
    #[inline(always)]
    pub fn lines_left(&self) -> usize
        ensures { result ≡ length (lines_after self.now) }
    {
        self.lines.len() - self.line.saturating_add(1).min(self.lines.len())
    }

    /// Whether the text of the current line has ended.
    #[inline(always)]
    pub fn is_at_line_end(&self) -> bool
        ensures { result ≡ is_none (in_line self.now) }
    {
        self.at >= self.end
    }

    /// Moves past the next byte; at the end of the last line it doesn't move.
    #[inline]
    pub fn advance(&mut self)
        ensures never_back { left self.new ≤ left self.old }
        ensures in_line { self.old.at < self.old.end
            → self.new.at ≡ suc self.old.at }
        ensures line { self.old.at < self.old.end → self.new.line ≡ self.old.line }
        ensures end { self.old.at < self.old.end → self.new.end ≡ self.old.end }
        ensures next_line { self.old.end ≤ self.old.at
            → suc self.old.line < length self.old.lines.now
            → self.new.line ≡ suc self.old.line }
        ensures text { text_from self.new ≡ after_next (text_from self.old) }
        ensures same { ReadSame self.old self.new }
    {
        if self.at < self.end {
            self.at += 1;
        } else {
            self.next_line();
        }
    }

    /// Moves past the next byte of the line if it is this one; returns whether it is.
    #[inline]
    pub fn take(&mut self, byte: u8) -> bool
        ensures never_back { left self.new ≤ left self.old }
        ensures goes_on { IsTrue result → left self.new < left self.old }
        ensures same { result ≡ is_next self.old byte }
        ensures passed { IsTrue result → self.new.at ≡ suc self.old.at }
        ensures line { self.new.line ≡ self.old.line }
        ensures end { self.new.end ≡ self.old.end }
        ensures stays { result ≡ false → self.new ≡ self.old }
        ensures is_there { result ≡ begins_with byte (text_from self.old) }
        ensures text { result ≡ true → text_from self.new ≡ after_next (text_from self.old) }
        ensures same_text { ReadSame self.old self.new }
    {
        if self.at < self.end && self.bytes[self.at] == byte {
            self.at += 1;
            true
        } else {
            false
        }
    }

    /// Skips the bytes of a class that come next in the line; returns whether there was one.
    #[inline]
    pub fn skip(&mut self, class: Class) -> bool
        ensures never_back { left self.new ≤ left self.old }
        ensures goes_on { IsTrue result → left self.new < left self.old }
        ensures passed { self.old.at < self.old.end → self.new.at ≡ min self.old.end
            (self.old.at + prefix_len (is_in class) (drop self.old.at self.old.bytes.now)) }
        ensures stays { self.old.end ≤ self.old.at → self.new.at ≡ self.old.at }
        ensures any { result ≡ nat_lt self.old.at self.new.at }
        ensures line { self.new.line ≡ self.old.line }
        ensures end { self.new.end ≡ self.old.end }
        ensures text { in_line self.new
            ≡ drop (prefix_len (is_in class) (in_line self.old)) (in_line self.old) }
        ensures is_any { result ≡ nat_lt 0 (prefix_len (is_in class) (in_line self.old)) }
        ensures later { lines_after self.new ≡ lines_after self.old }
        ensures same { ReadSame self.old self.new }
    {
        let mut at = self.at;
        while at < self.end && is(self.bytes[at], class) {
            at += 1;
        }
        let has_any = at > self.at;
        self.at = at;
        has_any
    }

    /// Skips spaces, tabs and line ends; returns whether there was one.
    pub fn skip_spaces(&mut self) -> bool
        ensures never_back { left self.new ≤ left self.old }
        ensures any { result ≡ begins_with_space (text_from self.old) }
        ensures text { text_from self.new ≡ after_spaces (text_from self.old) }
        ensures same { ReadSame self.old self.new }
    {
        let mut has_any = self.skip(Class::Space);
        'lines: while self.at >= self.end && self.next_line() {
            has_any = true;
            self.skip(Class::Space);
        }
        has_any
    }

    /// Moves to the beginning of the next line; returns whether there is one.
    #[inline]
    pub fn next_line(&mut self) -> bool
        ensures never_back { left self.new ≤ left self.old }
        ensures goes_on { IsTrue result → left self.new < left self.old }
        ensures there { result ≡ nat_lt (suc self.old.line) (length self.old.lines.now) }
        ensures stays { result ≡ false → self.new ≡ self.old }
        ensures line { IsTrue result → self.new.line ≡ suc self.old.line }
        ensures at { IsTrue result → IfSome (slice_get self.old.lines.now self.new.line)
            (λ next. self.new.at ≡ next.start) }
        ensures end { IsTrue result → IfSome (slice_get self.old.lines.now self.new.line)
            (λ next. self.new.end ≡ min next.end (length self.old.bytes.now)) }
        ensures text { result ≡ true → text_from self.new ≡ lines_after self.old }
        ensures last { result ≡ false → lines_after self.old ≡ [] }
        ensures same { ReadSame self.old self.new }
    {
        let Some(next) = self.lines.get(self.line + 1) else {
            return false;
        };
        self.line += 1;
        self.at = next.start;
        self.end = next.end.min(self.bytes.len());
        true
    }
}

/// The end of the text of a line.
#[inline(always)]
fn end_of(bytes: &[u8], lines: &[Line], line: usize) -> usize
    ensures within { result ≤ length bytes.now }
    ensures some { IfSome (slice_get lines.now line)
        (λ line. result ≡ min line.end (length bytes.now)) }
    ensures none { IfNone (slice_get lines.now line) (result ≡ 0) }
{
    match lines.get(line) {
        Some(line) => line.end.min(bytes.len()),
        None => 0,
    }
}
