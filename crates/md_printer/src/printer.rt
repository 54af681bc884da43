//! The text so far, and the state of the open nodes.

ghost use Rattle.std.specs.Prelude.{◌≡◌, ◌∷◌, [], OnOk, IfOk, string_bytes, Some, None};
ghost use Rattle.std.specs.Prelude.{false, not, ℕ, List, if◌then◌else◌};
ghost use Rattle.md_meaning.specs.Meaning.Layout.{Needed, laid_after, said, on_own_line};
ghost use Rattle.md_meaning.specs.Meaning.Layout.{when};
ghost use Rattle.md_meaning.specs.Meaning.Spans.{marker};
ghost use Rattle.md_text.specs.Encode.{encoded};
ghost use Rattle.md_steps.specs.State as states;
ghost use Rattle.md_steps.specs.Steps as steps;
ghost use Rattle.md_printer.specs.View.{scope_of};

mod marks;

use crate::scope::{OUTSIDE, Scope};
use md_base::Name;
use md_buffer::{Output, Target};
use md_footnotes::Footnotes;
use std::alloc::{AllocError, Global};
use std::marker::Model;

/// The text so far, and the state of the open nodes.
#[derive(Drop)]
pub struct Printer<'a> {
    pub(crate) output: Output,
    pub(crate) scope: Scope<'a>,
    /// The surroundings to restore, the next ones last.
    pub(crate) scopes: Vec<Scope<'a>>,
    /// Whether the next line ending is slurped.
    pub(crate) is_slurping: bool,
    /// The previous node.
    pub(crate) ended: Option<Name>,
    /// The marker by which the value of a character reference is decoded.
    pub(crate) marker: u8,
    /// How many fences the code has so far, and whether it has a line.
    pub(crate) fences: usize,
    pub(crate) has_chunk: bool,
    /// The text of the latest setext heading.
    pub(crate) heading: String,
    /// How many cells the row has so far.
    pub(crate) cells: usize,
    /// The target of the resource or the definition so far.
    pub(crate) target: Target,
    /// The target of the resource after the latest label, if there is one.
    pub(crate) resource: Target,
    pub(crate) has_resource: bool,
    pub(crate) footnotes: Footnotes,
    /// A buffer for texts that are printed at once.
    pub(crate) scratch: String,
}

impl<'a> Model for Printer<'a> {
    ghost use Rattle.std.specs.Prelude.{map, reverse, string_bytes, Some, None, if◌then◌else◌};
    ghost use Rattle.md_steps.specs.State as states;
    ghost use Rattle.md_steps.specs.Steps as steps;
    ghost use Rattle.md_printer.specs.View.{scope_of};

    ghost Value = { states.State };

    ghost view = { λ p. record {
      text = p.output.text;
      below = p.output.below;
      scope = scope_of p.scope;
      scopes = reverse (map scope_of p.scopes.items);
      slurps = p.is_slurping;
      ended = p.ended;
      marker = p.marker;
      fences = p.fences;
      has_chunk = p.has_chunk;
      heading = string_bytes p.heading;
      cells = p.cells;
      target = p.target;
      resource = if p.has_resource then Some p.resource else None;
      calls = p.footnotes.calls;
      footnotes = p.footnotes.footnotes;
    } };
}

impl<'a> Printer<'a> {
    /// A printer without text.
    pub fn new(alloc: Global) -> Printer<'a>
        ensures { result ≡ steps.beginning }
    {
        Printer {
            output: Output::new(alloc),
            scope: OUTSIDE,
            scopes: Vec::new(alloc),
            is_slurping: false,
            ended: None,
            marker: b'&',
            fences: 0,
            has_chunk: false,
            heading: String::new(alloc),
            cells: 0,
            target: Target::new(alloc),
            resource: Target::new(alloc),
            has_resource: false,
            footnotes: Footnotes::new(alloc),
            scratch: String::new(alloc),
        }
    }

    /// Prints a text.
    ///
    /// # Errors
    ///
    /// Returns an error only if memory runs out.
    #[inline(always)]
    pub(crate) fn put(&mut self, text: &str) -> Result<(), AllocError>
        ensures { OnOk result
            (self.new ≡ record self.old { text = laid_after [] self.old.text (said text.now) }) }
    {
        self.output.put(text)
    }

    /// Prints a text, escaped if `escaping` is set.
    ///
    /// # Errors
    ///
    /// Returns an error only if memory runs out.
    #[inline(always)]
    pub(crate) fn put_encoded(&mut self, text: &str, escaping: bool) -> Result<(), AllocError>
        ensures { OnOk result (self.new ≡ record self.old {
          text = laid_after [] self.old.text (said (encoded escaping text.now));
        }) }
    {
        self.output.put_encoded(text, escaping)
    }

    /// Prints a line ending, unless a line begins here.
    ///
    /// # Errors
    ///
    /// Returns an error only if memory runs out.
    #[inline(always)]
    pub(crate) fn need(&mut self, ending: &str) -> Result<(), AllocError>
        ensures { OnOk result (self.new ≡ record self.old {
          text = laid_after ending.now self.old.text (Needed ∷ []);
        }) }
    {
        self.output.need(ending)
    }

    /// Prints a tag on a line of its own.
    ///
    /// # Errors
    ///
    /// Returns an error only if memory runs out.
    #[inline(always)]
    pub(crate) fn line(&mut self, ending: &str, tag: &str) -> Result<(), AllocError>
        ensures { OnOk result (self.new ≡ record self.old {
          text = laid_after ending.now self.old.text (on_own_line tag.now);
        }) }
    {
        self.output.need(ending)?;
        self.output.put(tag)
    }

    /// Prints a tag outside images.
    ///
    /// # Errors
    ///
    /// Returns an error only if memory runs out.
    #[inline(always)]
    pub(crate) fn tag(&mut self, tag: &str) -> Result<(), AllocError>
        ensures { OnOk result ((ending : List ℕ) → self.new ≡ record self.old {
          text =
              laid_after ending self.old.text (when (not self.old.scope.in_image) (said tag.now));
        }) }
    {
        if self.scope.in_image {
            Ok(())
        } else {
            self.output.put(tag)
        }
    }

    /// Pushes the surroundings and replaces them.
    ///
    /// # Errors
    ///
    /// Returns an error only if memory runs out.
    pub(crate) fn push_scope(&mut self, scope: Scope<'a>) -> Result<(), AllocError>
        ensures { OnOk result (self.new ≡ record self.old {
          scope = scope_of scope.entry;
          scopes = self.old.scope ∷ self.old.scopes;
        }) }
    {
        self.scopes.push(self.scope)?;
        self.scope = scope;
        Ok(())
    }

    /// Pops the surroundings.
    pub(crate) fn pop_scope(&mut self)
        ensures { self.new ≡ record self.old {
          scope = steps.first_or states.outside self.old.scopes;
          scopes = steps.others_of self.old.scopes;
        } }
    {
        match self.scopes.pop() {
            Some(scope) => self.scope = scope,
            None => self.scope = OUTSIDE,
        }
    }

    /// Begins to capture a text.
    ///
    /// # Errors
    ///
    /// Returns an error only if memory runs out.
    #[inline(always)]
    pub(crate) fn capture(&mut self) -> Result<(), AllocError>
        ensures { OnOk result
            (self.new ≡ record self.old { text = []; below = self.old.text ∷ self.old.below }) }
    {
        self.output.capture()
    }

    /// Drops the captured text.
    pub(crate) fn discard(&mut self)
        ensures { self.new ≡ record self.old {
          text = steps.first_or [] self.old.below;
          below = steps.others_of self.old.below;
        } }
    {
        self.output.discard();
    }

    /// Whether an image contains the node.
    #[inline(always)]
    pub(crate) fn is_in_image(&self) -> bool
        ensures { result ≡ self.now.scope.in_image }
    {
        self.scope.in_image
    }

    /// Ends the captured text, and returns it.
    ///
    /// # Errors
    ///
    /// Returns an error only if memory runs out.
    pub(crate) fn take_text(&mut self, alloc: Global) -> Result<String, AllocError>
        ensures text { IfOk result (λ text. string_bytes text ≡ self.old.text) }
        ensures left { OnOk result (self.new ≡ record self.old {
          text = steps.first_or [] self.old.below;
          below = steps.others_of self.old.below;
        }) }
    {
        let mut text = String::new(alloc);
        self.output.move_into(&mut text)?;
        Ok(text)
    }
}
