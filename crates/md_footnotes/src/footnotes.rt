//! The footnotes and calls that the printer has found.

ghost use Rattle.std.specs.Prelude.{◌≡◌, ◌∷◌, [], ◌++◌, OnOk, string_bytes};
ghost use Rattle.md_meaning.specs.Meaning.Layout.{laid_after};
ghost use Rattle.md_meaning.specs.Meaning.Footnotes.{section};
ghost use Rattle.md_steps.specs.Sides.{call_pieces};
ghost use Rattle.md_steps.specs.Steps.{noted};
ghost use Rattle.md_footnotes.specs.Seen.{context_by};

use crate::called::{Called, Settings};
use crate::calls::Calls;
use crate::notes::Notes;
use crate::section::push_section;
use crate::tags::push_tags;
use md_text::CompileOptions;
use std::alloc::{AllocError, Global};
use std::marker::Model;

/// The calls so far, in order, and the first footnote with each identifier.
#[derive(Drop)]
pub struct Footnotes {
    calls: Calls,
    notes: Notes,
}

impl Model for Footnotes {
    ghost use Rattle.md_footnotes.specs.Seen.{Seen};

    ghost Value = { Seen };

    ghost view = { λ f. record { calls = f.calls; footnotes = f.notes } };
}

impl Footnotes {
    /// No calls and no footnotes.
    pub fn new(alloc: Global) -> Footnotes
        ensures { result ≡ record { calls = []; footnotes = [] } }
    {
        Footnotes {
            calls: Calls::new(alloc),
            notes: Notes::new(alloc),
        }
    }

    /// Records a call of the footnote with an identifier.
    ///
    /// # Errors
    ///
    /// Returns an error only if memory runs out.
    pub fn call(&mut self, identifier: String) -> Result<(), AllocError>
        ensures calls { OnOk result
            (self.new.calls ≡ self.old.calls ++ string_bytes identifier ∷ []) }
        ensures footnotes { self.new.footnotes ≡ self.old.footnotes }
    {
        self.calls.count(identifier)
    }

    /// Adds a footnote, unless there is one with its identifier.
    ///
    /// # Errors
    ///
    /// Returns an error only if memory runs out.
    pub fn note(&mut self, identifier: String, text: String) -> Result<(), AllocError>
        ensures footnotes { OnOk result (self.new.footnotes ≡ noted self.old.footnotes
            (record { identifier = string_bytes identifier; text = string_bytes text })) }
        ensures calls { self.new.calls ≡ self.old.calls }
    {
        self.notes.note(identifier, text)
    }

    /// Appends a call of the footnote with an identifier, numbered after the calls so far. If
    /// memory runs out, a part of it may be appended.
    ///
    /// # Errors
    ///
    /// Returns an error only if memory runs out.
    pub fn push_call(
        &self,
        alloc: Global,
        out: &mut String,
        options: &CompileOptions,
        identifier: &str,
    ) -> Result<(), AllocError>
        ensures { OnOk result (string_bytes out.new ≡ laid_after [] (string_bytes out.old)
            (call_pieces options.now self.now.calls identifier.now)) }
    {
        let called = Called {
            identifier,
            number: self.calls.number(identifier),
            count: self.calls.count_of(identifier),
        };
        push_tags(alloc, out, options, &called, called.count + 1)
    }

    /// Appends the section of footnotes, if there is a call: the footnotes that are called, in the
    /// order of their first calls. If memory runs out, a part of it may be appended.
    ///
    /// # Errors
    ///
    /// Returns an error only if memory runs out.
    pub fn push_section(
        &self,
        alloc: Global,
        out: &mut String,
        options: &CompileOptions,
        ending: &str,
    ) -> Result<(), AllocError>
        ensures { OnOk result (string_bytes out.new ≡ laid_after ending.now (string_bytes out.old)
            (section (context_by options.now self.now.calls) self.now.footnotes)) }
    {
        let settings = Settings {
            alloc,
            options,
            ending,
        };
        push_section(&settings, out, &self.calls, &self.notes)
    }
}
