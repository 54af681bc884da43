//! Ends the innermost text.

ghost use Rattle.std.specs.Prelude.{◌≡◌, ◌≤◌, ◌<◌, ◌++◌, [], OnOk, IfOk, true};
ghost use Rattle.std.specs.Prelude.{length, string_bytes};
ghost use Rattle.md_buffer.specs.Texts.{first_or, others_of};

use super::Output;
use crate::heads::{forget_from, push_merged, waits};
use std::alloc::{AllocError, Global};

impl Output {
    /// The length of the innermost text, without its pending heads.
    #[inline(always)]
    pub(super) fn length(&self) -> usize
        ensures { result ≤ length self.now.text }
    {
        self.bytes.len() - self.start.place
    }

    /// Whether no text is captured and the only one is longer than this, even without its pending
    /// heads.
    #[inline(always)]
    pub fn is_longer(&self, limit: usize) -> bool
        ensures { result ≡ true → (self.now.below ≡ []) × (limit < length self.now.text) }
    {
        self.length() > limit && self.outers.is_empty()
    }

    /// Ends the innermost text and keeps it as part of the outer one.
    #[inline(always)]
    pub fn join(&mut self)
        ensures { self.new ≡ record {
          text = first_or [] self.old.below ++ self.old.text;
          below = others_of self.old.below;
        } }
    {
        if self.waiting.len() > self.start.first {
            self.close_label();
        }
        self.end();
    }

    /// Removes a reserved head that wasn't used.
    #[inline(never)]
    fn close_label(&mut self)
        ensures { self.new ≡ self.old }
    {
        if !waits(&self.waiting.as_slice()[self.start.first..]) {
            self.waiting.truncate(self.start.first);
        }
    }

    /// Ends the innermost text and keeps it as part of the outer one.
    #[inline(always)]
    fn end(&mut self)
        ensures { self.new ≡ record {
          text = first_or [] self.old.below ++ self.old.text;
          below = others_of self.old.below;
        } }
    {
        if let Some(outer) = self.outers.pop() {
            self.start = outer;
        }
    }

    /// Ends the innermost text and drops it.
    #[inline(always)]
    pub fn discard(&mut self)
        ensures { self.new
            ≡ record { text = first_or [] self.old.below; below = others_of self.old.below } }
    {
        self.take_away();
        self.end();
    }

    /// Ends the innermost text, and appends it to another.
    ///
    /// # Errors
    ///
    /// Returns an error only if memory runs out.
    pub fn move_into(&mut self, out: &mut String) -> Result<(), AllocError>
        ensures moved { OnOk result (string_bytes out.new ≡ string_bytes out.old ++ self.old.text) }
        ensures left { OnOk result (self.new
            ≡ record { text = first_or [] self.old.below; below = others_of self.old.below }) }
    {
        self.move_text(out)?;
        self.end();
        Ok(())
    }

    /// Removes the innermost text, and appends it to another.
    pub(super) fn move_text(&mut self, out: &mut String) -> Result<(), AllocError>
        ensures moved { OnOk result (string_bytes out.new ≡ string_bytes out.old ++ self.old.text) }
        ensures left { OnOk result (self.new ≡ record { text = []; below = self.old.below }) }
    {
        let added = self.add_to(out);
        if added.is_ok() {
            self.take_away()
        }
        added
    }

    /// Returns the innermost text; without a copy if nothing is captured and no head is pending.
    ///
    /// # Errors
    ///
    /// Returns an error only if memory runs out.
    pub fn into_text(self, alloc: Global) -> Result<String, AllocError>
        ensures { IfOk result (λ text. string_bytes text ≡ self.text) }
    {
        if self.start.place == 0 && self.waiting.is_empty() {
            let Output {
                bytes,
                heads: _,
                waiting: _,
                start: _,
                outers: _,
            } = self;
            return Ok(bytes);
        }
        self.to_text(alloc)
    }

    /// A copy of the innermost text.
    fn to_text(&self, alloc: Global) -> Result<String, AllocError>
        ensures { IfOk result (λ text. string_bytes text ≡ self.now.text) }
    {
        let length = self.length().saturating_add(self.heads.len());
        let mut text = String::with_capacity(alloc, length)?;
        self.add_to(&mut text)?;
        Ok(text)
    }

    /// Appends the innermost text to another.
    fn add_to(&self, out: &mut String) -> Result<(), AllocError>
        ensures { OnOk result (string_bytes out.new ≡ string_bytes out.old ++ self.now.text) }
    {
        push_merged(
            out,
            self.bytes.as_str(),
            self.heads.as_str(),
            &self.waiting.as_slice()[self.start.first..],
            self.start.place,
        )
    }

    /// Removes the innermost text and its pending heads.
    #[inline(always)]
    fn take_away(&mut self)
        ensures { self.new ≡ record { text = []; below = self.old.below } }
    {
        forget_from(
            &mut self.heads,
            &mut self.waiting,
            self.start.first,
            self.start.heads,
        );
        self.bytes.truncate(self.start.place);
    }
}
