//! Reads each kind of mark, by one method for each.

ghost use Rattle.std.specs.Prelude.{◌≡◌, false, OnOk};

use crate::reader::Reader;
use md_base::Name;
use md_lines::{Class, Place, find_any, is};
use md_marks::{
    Delimiter, Leaf, Mark, autolink_at, class_after, class_before, flanks, is_www, run_length, url,
};
use md_references::reference_length;
use std::alloc::AllocError;

impl<'a> Reader<'a> {
    /// Reads a full stop, which may be that of `www.`.
    #[inline(never)]
    pub(crate) fn read_dot(&mut self, leaf: &Leaf, here: Place) -> Result<Place, AllocError>
        ensures off { self.old.options.now.bare_links ≡ false → OnOk result (self.new ≡ self.old) }
    {
        let line = leaf.start(here.line);
        let low = self.from.max(line);
        if !self.options.bare_links || !is_www(leaf.bytes, low, here.at) {
            return Ok(here);
        }
        if self.is_in_link() {
            self.has_late_links = true;
            return Ok(here);
        }
        let end = leaf.end(here.line);
        match self.www.find(leaf.bytes, line, low, here.at, end) {
            Some(link) => self.put(here.line, Mark::BareWww, link.start, link.end),
            None => {
                self.has_late_links = true;
                Ok(here)
            }
        }
    }

    /// Reads a colon, which may be that of a URL.
    #[inline(never)]
    pub(crate) fn read_colon(&mut self, leaf: &Leaf, here: Place) -> Result<Place, AllocError>
        ensures off { self.old.options.now.bare_links ≡ false → OnOk result (self.new ≡ self.old) }
    {
        if !self.options.bare_links || !leaf.rest(here).starts_with(b"://") {
            return Ok(here);
        }
        if self.is_in_link() {
            self.has_late_links = true;
            return Ok(here);
        }
        let low = self.from.max(leaf.start(here.line));
        match url(leaf.bytes, low, here.at, leaf.end(here.line)) {
            Some(link) => self.put(here.line, Mark::BareUrl, link.start, link.end),
            None => {
                self.has_late_links = true;
                Ok(here)
            }
        }
    }

    /// Adds a token inside a line; returns the place after it.
    fn put(
        &mut self,
        line: usize,
        mark: Mark,
        start: usize,
        end: usize,
    ) -> Result<Place, AllocError> {
        self.push(mark, start, end, line)?;
        self.from = end;
        Ok(Place { line, at: end })
    }

    /// Whether there is an open bracket that may begin a link.
    fn is_in_link(&self) -> bool {
        self.brackets.len() > self.inactive
    }

    /// Reads a backslash: an escape, or a break at the end of a line.
    pub(crate) fn read_escape(&mut self, leaf: &Leaf, here: Place) -> Result<Place, AllocError> {
        let rest = leaf.rest(here);
        // In a cell the backslash before a bar was added to it, and another one escapes it.
        let length = if self.is_cell && rest.starts_with(b"\\\\|") {
            2
        } else {
            1
        };
        let after = here.at.saturating_add(length);
        if let Some(byte) = rest.get(1) {
            if !is(*byte, Class::Punctuation) {
                return Ok(here);
            }
            self.push(Mark::Escape, here.at, after, 0)?;
            self.from = after;
            return Ok(Place {
                line: here.line,
                at: after.saturating_add(1),
            });
        }
        if leaf.is_last(here.line) {
            return Ok(here);
        }
        let next_line = here.line.saturating_add(1);
        let next = leaf.start(next_line);
        self.push(Mark::BreakEscape, here.at, after, 0)?;
        self.push(Mark::LineEnding, after, next, here.line)?;
        self.from = next;
        Ok(Place {
            line: next_line,
            at: next,
        })
    }

    /// Reads backticks: code, if as many follow.
    #[inline(always)]
    pub(crate) fn read_code(&mut self, leaf: &Leaf, here: Place) -> Result<Place, AllocError> {
        // Most code is between two single backticks of a line.
        let end = leaf.end(here.line);
        let inside = here.at.saturating_add(1);
        let close = find_any(leaf.bytes, [b'`'; 3], inside, end);
        let after = close.saturating_add(1);
        if inside < close && close < end && leaf.bytes.get(after) != Some(&b'`') {
            return self.put(here.line, Mark::Code, here.at, after);
        }
        self.read_backticks(leaf, here)
    }

    /// The same for any number of backticks, and over lines.
    #[inline(never)]
    fn read_backticks(&mut self, leaf: &Leaf, here: Place) -> Result<Place, AllocError> {
        let length = run_length(leaf.rest(here), b'`');
        let inside = Place {
            line: here.line,
            at: here.at.saturating_add(length),
        };
        match self.ticks.find(leaf, inside, length)? {
            Some(end) => self.put_between(Mark::Code, here, end, length),
            None => Ok(inside),
        }
    }

    /// Reads `$` or `$$`: math, if the same follows.
    #[inline(never)]
    pub(crate) fn read_math(&mut self, leaf: &Leaf, here: Place) -> Result<Place, AllocError>
        ensures off { self.old.options.now.math ≡ false → OnOk result (self.new ≡ self.old) }
    {
        if !self.options.math {
            return Ok(here);
        }
        let rest = leaf.rest(here);
        let length = run_length(rest, b'$');
        let inside = Place {
            line: here.line,
            at: here.at.saturating_add(length),
        };
        let may_begin = match rest.get(length) {
            Some(byte) => length == 2 || (length == 1 && !is(*byte, Class::Space)),
            None => length == 2,
        };
        if !may_begin {
            return Ok(inside);
        }
        match self.dollars.find(leaf, inside, length == 2) {
            Some(end) => self.put_between(Mark::Math, here, end, length),
            None => Ok(inside),
        }
    }

    /// Adds a token with a mark of `length` bytes at both ends; returns the place after the second,
    /// which begins at `end`.
    #[inline(always)]
    fn put_between(
        &mut self,
        mark: Mark,
        here: Place,
        end: Place,
        length: usize,
    ) -> Result<Place, AllocError> {
        let after = end.at.saturating_add(length);
        self.push(mark, here.at, after, here.line)?;
        self.from = after;
        Ok(Place {
            line: end.line,
            at: after,
        })
    }

    /// Reads `&`, which may begin a character reference.
    #[inline(never)]
    pub(crate) fn read_reference(&mut self, leaf: &Leaf, here: Place) -> Result<Place, AllocError> {
        match reference_length(leaf.rest(here)) {
            Some(length) => {
                let end = here.at.saturating_add(length);
                self.put(here.line, Mark::Reference, here.at, end)
            }
            None => Ok(here),
        }
    }

    /// Reads `<`, which may begin a link in angle brackets, or HTML.
    pub(crate) fn read_angle(&mut self, leaf: &Leaf, here: Place) -> Result<Place, AllocError> {
        if let Some(link) = autolink_at(leaf.rest(here)) {
            let mark = match link.name {
                Name::AutolinkEmail => Mark::Address,
                _ => Mark::Url,
            };
            let after = here.at.saturating_add(link.length);
            return self.put(here.line, mark, here.at, after);
        }
        match self.endings.find(leaf, here) {
            Some(end) => {
                self.push(Mark::Html, here.at, end.at, here.line)?;
                self.from = end.at;
                Ok(end)
            }
            None => Ok(here),
        }
    }

    /// Reads a run of `*`, `_` or `~`.
    pub(crate) fn read_delimiter(
        &mut self,
        leaf: &Leaf,
        here: Place,
        byte: u8,
    ) -> Result<Place, AllocError> {
        let rest = leaf.rest(here);
        let length = run_length(rest, byte);
        let end = here.at.saturating_add(length);
        let before = class_before(leaf.before(here));
        let after = class_after(rest.get(length..).unwrap_or(b""));
        let (opens, closes) = flanks(byte, length, before, after);
        if opens || closes {
            self.from = end;
            let start = self.tokens.len();
            for at in here.at..end {
                self.push(Mark::Text, at, at + 1, 0)?;
            }
            self.delimiters.push(Delimiter {
                start,
                end: self.tokens.len(),
                length,
                byte,
                opens,
                closes,
            })?;
        }
        Ok(Place {
            line: here.line,
            at: end,
        })
    }

    /// Reads `!`, which may begin an image.
    pub(crate) fn read_image_start(
        &mut self,
        leaf: &Leaf,
        here: Place,
    ) -> Result<Place, AllocError> {
        if matches!(leaf.rest(here).get(1), Some(b'[')) {
            self.open_bracket(here, true)
        } else {
            Ok(here)
        }
    }
}
