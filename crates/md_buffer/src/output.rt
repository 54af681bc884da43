//! One text that contains the captured texts, in order.

ghost use Rattle.std.specs.Prelude.{◌≡◌, ◌<◌, ◌∷◌, ◌++◌, [], OnOk, IfOk, true, if◌then◌else◌};
ghost use Rattle.std.specs.Prelude.{length, string_bytes};
ghost use Rattle.md_buffer.specs.Texts as texts;
ghost use Rattle.md_meaning.specs.Meaning.Layout.{Needed, laid_after, begins_line};

mod ends;
mod urls;

use crate::heads::{Head, wait_first, waits};
use std::alloc::{AllocError, Global};
use std::marker::Model;

/// The maximum number of bytes of a document for which capacity is reserved at once: growth by
/// doubling costs little after that.
const MOST_ROOM: usize = 4096;

/// A label up to this length is moved aside. Inserting its head later, when all text is copied,
/// would cost more.
const SHORT_LABEL: usize = 512;

/// The start of a text: its offset, the index of its first pending head, and the offset of its
/// heads' texts.
#[derive(Clone, Copy)]
struct Start {
    place: usize,
    first: usize,
    heads: usize,
}

/// The start of the first text.
const NO_START: Start = Start {
    place: 0,
    first: 0,
    heads: 0,
};

/// One text that contains the captured texts, in order.
///
/// [`Output::lift`] moves a short label aside, and the caller appends it again after its head. A
/// head before a long label, or before a label with pending heads, stays pending until the text is
/// returned. One copy then inserts all pending heads, so nested labels cost no more than others.
///
/// # Examples
///
/// ```
/// let mut out = Output::new(alloc);
/// out.capture_label()?;
/// out.put("label")?;
/// out.put_before("<a href=\"url\">")?;
/// out.join();
/// out.put("</a>")?;
/// assert_eq!(out.into_text(alloc)?.as_str(), "<a href=\"url\">label</a>");
/// ```
#[derive(Drop)]
pub struct Output {
    bytes: String,
    /// The texts of the heads, one after another, and the pending heads, in the order of their
    /// offsets.
    heads: String,
    waiting: Vec<Head>,
    /// The start of the innermost text, and those of the outer texts, the innermost last.
    start: Start,
    outers: Vec<Start>,
}

impl Model for Output {
    ghost use Rattle.std.specs.Prelude.{reverse, string_bytes};
    ghost use Rattle.md_buffer.specs.Texts as texts;
    ghost use Rattle.md_buffer.specs.Waiting as placed;

    ghost Value = { texts.Texts };

    ghost view = { λ o. placed.texts_of (string_bytes o.bytes) (string_bytes o.heads)
        o.waiting.items o.start (reverse o.outers.items) };

    ghost invariant = { λ o. placed.IsSound (string_bytes o.bytes) (string_bytes o.heads)
        o.waiting.items o.start (reverse o.outers.items) };
}

impl Output {
    /// An empty output.
    pub fn new(alloc: Global) -> Output
        ensures { result ≡ record { text = []; below = [] } }
    {
        Output {
            bytes: String::new(alloc),
            heads: String::new(alloc),
            waiting: Vec::new(alloc),
            start: NO_START,
            outers: Vec::new(alloc),
        }
    }

    /// Removes all text; keeps the capacity.
    pub fn clear(&mut self)
        ensures { self.new ≡ record { text = []; below = [] } }
    {
        empty(
            &mut self.bytes,
            &mut self.heads,
            &mut self.waiting,
            &mut self.start,
            &mut self.outers,
        );
    }

    /// Reserves capacity for the text of a document of `bytes` bytes, if there is memory for it.
    pub fn reserve(&mut self, bytes: usize)
        ensures { self.new ≡ self.old }
    {
        let _ = self
            .bytes
            .reserve(bytes.min(MOST_ROOM).saturating_mul(2).saturating_add(64));
    }

    /// Writes a text.
    ///
    /// # Errors
    ///
    /// Returns an error only if memory runs out.
    #[inline(always)]
    pub fn put(&mut self, text: &str) -> Result<(), AllocError>
        ensures { OnOk result
            (self.new ≡ record { text = self.old.text ++ text.now; below = self.old.below }) }
    {
        self.bytes.push_str(text)?;
        Ok(())
    }

    /// Writes a line ending, unless the text is at the start of a line.
    ///
    /// # Errors
    ///
    /// Returns an error only if memory runs out.
    #[inline(always)]
    pub fn need(&mut self, ending: &str) -> Result<(), AllocError>
        ensures { OnOk result (self.new ≡ record {
          text = laid_after ending.now self.old.text (Needed ∷ []);
          below = self.old.below;
        }) }
    {
        if self.begins_line() {
            Ok(())
        } else {
            self.put(ending)
        }
    }

    /// Whether the innermost text is empty or ends in CR or LF. No head is at its end.
    #[inline(always)]
    fn begins_line(&self) -> bool
        ensures { result ≡ begins_line self.now.text }
    {
        begins_line(&self.bytes.as_str()[self.start.place..])
    }

    /// Begins to capture a text.
    ///
    /// # Errors
    ///
    /// Returns an error only if memory runs out.
    #[inline(always)]
    pub fn capture(&mut self) -> Result<(), AllocError>
        ensures { OnOk result
            (self.new ≡ record { text = []; below = self.old.text ∷ self.old.below }) }
    {
        self.outers.push(self.start)?;
        self.start = Start {
            place: self.bytes.len(),
            first: self.waiting.len(),
            heads: self.heads.len(),
        };
        Ok(())
    }

    /// Begins to capture a text before which a head may be inserted. A head may also be inserted
    /// before a text of [`Output::capture`], at more cost if that has pending heads.
    ///
    /// # Errors
    ///
    /// Returns an error only if memory runs out.
    #[inline(always)]
    pub fn capture_label(&mut self) -> Result<(), AllocError>
        ensures { OnOk result
            (self.new ≡ record { text = []; below = self.old.text ∷ self.old.below }) }
    {
        self.capture()?;
        self.keep_place()
    }

    /// Reserves a pending head, for one that may be inserted here.
    #[inline(always)]
    fn keep_place(&mut self) -> Result<(), AllocError>
        ensures { OnOk result (self.new ≡ self.old) }
    {
        let place = self.bytes.len();
        self.waiting.push(Head {
            place,
            from: 0,
            to: 0,
        })?;
        Ok(())
    }

    /// Moves the innermost text to another, if it is short and has no pending head; returns whether
    /// it did.
    ///
    /// # Errors
    ///
    /// Returns an error only if memory runs out.
    pub fn lift(&mut self, out: &mut String) -> Result<bool, AllocError>
        ensures lifted { IfOk result (λ lifted. string_bytes out.new
            ≡ (if lifted then string_bytes out.old ++ self.old.text else string_bytes out.old)) }
        ensures left { IfOk result (λ lifted. self.new
            ≡ (if lifted then record { text = []; below = self.old.below } else self.old)) }
    {
        if self.length() > SHORT_LABEL || waits(&self.waiting.as_slice()[self.start.first..]) {
            return Ok(false);
        }
        self.move_text(out)?;
        Ok(true)
    }

    /// Inserts a head before the innermost text. If that isn't empty, the head stays pending until
    /// the text is returned.
    ///
    /// # Errors
    ///
    /// Returns an error only if memory runs out.
    #[cold]
    pub fn put_before(&mut self, head: &str) -> Result<(), AllocError>
        ensures { OnOk result
            (self.new ≡ record { text = head.now ++ self.old.text; below = self.old.below }) }
    {
        if self.bytes.len() == self.start.place {
            return self.put(head);
        }
        let from = self.heads.len();
        self.heads.push_str(head)?;
        let waiting = Head {
            place: self.start.place,
            from,
            to: self.heads.len(),
        };
        wait_first(&mut self.waiting, self.start.first, waiting)?;
        Ok(())
    }
}

/// Removes all text of an output.
fn empty(
    bytes: &mut String,
    heads: &mut String,
    waiting: &mut Vec<Head>,
    start: &mut Start,
    outers: &mut Vec<Start>,
)
    ensures bytes { string_bytes bytes.new ≡ [] }
    ensures heads { string_bytes heads.new ≡ [] }
    ensures waiting { waiting.new.items ≡ [] }
    ensures start { start.new ≡ record { place = 0; first = 0; heads = 0 } }
    ensures outers { outers.new.items ≡ [] }
{
    bytes.clear();
    heads.clear();
    waiting.clear();
    *start = NO_START;
    outers.clear();
}

/// Whether a text is empty or ends in CR or LF.
#[inline(always)]
fn begins_line(text: &str) -> bool
    ensures { result ≡ begins_line text.now }
{
    match text.as_bytes().last() {
        Some(byte) => *byte == b'\r' || *byte == b'\n',
        None => true,
    }
}
