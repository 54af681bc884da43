//! Reads the tokens of a leaf, mark by mark.

use crate::brackets::{Bracket, Target};
use md_blocks::{Definitions, MarkdownOptions};
use md_lines::{Place, trim_end};
use md_marks::{
    Delimiters, Dollars, Endings, Leaf, Mark, Marks, Ticks, Token, WwwLinks, push_token,
};
use std::alloc::{AllocError, Global};

/// How many tokens most leaves have at most.
const USUAL_TOKENS: usize = 16;

/// Reads leaves in sequence.
#[derive(Drop)]
pub(crate) struct Reader<'a> {
    pub(crate) alloc: Global,
    pub(crate) definitions: &'a Definitions,
    pub(crate) options: &'a MarkdownOptions,
    /// The marks of the document near the place that was read last.
    pub(crate) marks: Marks<'a>,
    /// The tokens of the leaf so far.
    pub(crate) tokens: Vec<Token>,
    /// The start of the text after the last token.
    pub(crate) from: usize,
    pub(crate) delimiters: Delimiters,
    /// The open brackets.
    pub(crate) brackets: Vec<Bracket>,
    /// How many of them can't begin a link, since a link follows them.
    pub(crate) inactive: usize,
    /// How many more are open but are text, since they are nested too deep.
    pub(crate) deeper: usize,
    /// The targets of the links and images of the leaf.
    pub(crate) targets: Vec<Target>,
    pub(crate) ticks: Ticks,
    pub(crate) dollars: Dollars,
    pub(crate) endings: Endings,
    pub(crate) www: WwwLinks,
    /// Whether texts may contain bare links that aren't tokens.
    pub(crate) has_late_links: bool,
    /// Whether the leaf is the cell of a table.
    pub(crate) is_cell: bool,
}

impl<'a> Reader<'a> {
    pub(crate) fn new(
        alloc: Global,
        bytes: &'a [u8],
        definitions: &'a Definitions,
        options: &'a MarkdownOptions,
    ) -> Reader<'a> {
        Reader {
            alloc,
            definitions,
            options,
            marks: Marks::new(bytes),
            tokens: Vec::new(alloc),
            from: 0,
            delimiters: Delimiters::new(alloc),
            brackets: Vec::new(alloc),
            inactive: 0,
            deeper: 0,
            targets: Vec::new(alloc),
            ticks: Ticks::new(alloc),
            dollars: Dollars::new(),
            endings: Endings::new(),
            www: WwwLinks::new(),
            has_late_links: false,
            is_cell: false,
        }
    }

    /// Reads the tokens of a leaf. Its first mark is at an index, or after its first line.
    pub(crate) fn read(&mut self, leaf: &Leaf, first: usize) -> Result<(), AllocError> {
        self.clear();
        self.tokens.reserve(USUAL_TOKENS)?;
        self.from = leaf.start(0);
        let mut place = Place { line: 0, at: first };
        while place.line < leaf.lines.len() {
            let next = self.read_line(leaf, place)?;
            place = Place {
                line: next.line.max(place.line + 1),
                at: next.at,
            };
        }
        self.delimiters.resolve(&mut self.tokens, 0)
    }

    /// Resets the state for a new leaf.
    fn clear(&mut self) {
        self.tokens.clear();
        self.delimiters.truncate(0);
        self.brackets.clear();
        self.inactive = 0;
        self.deeper = 0;
        self.targets.clear();
        self.ticks.clear();
        self.dollars = Dollars::new();
        self.endings = Endings::new();
        self.www = WwwLinks::new();
        self.has_late_links = false;
    }

    /// Reads from a place to the end of its line, or to a mark that spans the end; returns the
    /// place where reading continues.
    #[inline(always)]
    fn read_line(&mut self, leaf: &Leaf, place: Place) -> Result<Place, AllocError> {
        let text = leaf.until_end(place.line);
        let mut from = place.at;
        while from < text.len() {
            let at = self.marks.next(from, text.len());
            let Some(byte) = text.get(at).copied() else {
                break;
            };
            let here = Place {
                line: place.line,
                at,
            };
            let next = self.read_mark(leaf, here, byte)?;
            if next.line != place.line {
                return Ok(next);
            }
            from = next.at.max(at.saturating_add(1));
        }
        self.end_line(leaf, place.line)
    }

    /// Reads a possible mark; returns the place where reading continues.
    fn read_mark(&mut self, leaf: &Leaf, here: Place, byte: u8) -> Result<Place, AllocError> {
        match byte {
            b'.' => self.read_dot(leaf, here),
            b':' => self.read_colon(leaf, here),
            b'@' => {
                self.has_late_links = self.options.bare_links;
                Ok(here)
            }
            b'\\' => self.read_escape(leaf, here),
            b'`' => self.read_code(leaf, here),
            b'$' => self.read_math(leaf, here),
            b'&' => self.read_reference(leaf, here),
            b'<' => self.read_angle(leaf, here),
            b'*' | b'_' | b'~' => self.read_delimiter(leaf, here, byte),
            b'!' => self.read_image_start(leaf, here),
            b'[' => self.open_bracket(here, false),
            b']' => self.read_bracket_end(leaf, here),
            _ => Ok(here),
        }
    }

    /// Adds a token.
    #[inline(always)]
    pub(crate) fn push(
        &mut self,
        mark: Mark,
        start: usize,
        end: usize,
        index: usize,
    ) -> Result<(), AllocError> {
        push_token(&mut self.tokens, mark, start, end, index)
    }

    /// Ends a line. The text continues across the line ending if the next line follows directly and
    /// no space precedes the line ending.
    fn end_line(&mut self, leaf: &Leaf, line: usize) -> Result<Place, AllocError> {
        let next_line = line.saturating_add(1);
        let [this, next, ..] = leaf.lines.get(line..).unwrap_or(&[]) else {
            return Ok(Place {
                line: next_line,
                at: leaf.last_end(),
            });
        };
        let end = this.end;
        let start = self.from.min(end);
        let cut = trim_end(leaf.bytes, start, end);
        if cut < end || this.next() != next.start || self.options.hard_breaks {
            let spaces = leaf.bytes.get(cut..end).unwrap_or(b"");
            if self.options.hard_breaks || spaces.ends_with(b"  ") {
                self.push(Mark::BreakSpaces, cut, cut, 0)?;
            }
            self.push(Mark::LineEnding, cut, next.start, line)?;
            self.from = next.start;
        }
        Ok(Place {
            line: next_line,
            at: next.start,
        })
    }
}
