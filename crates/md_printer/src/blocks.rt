//! Prints paragraphs, quotes, and code blocks.

ghost use Rattle.std.specs.Prelude.{◌≡◌, ◌∷◌, [], ◌==◌, OnOk, Some, None, true, false, not, ℕ};
ghost use Rattle.std.specs.Prelude.{List, if◌then◌else◌, codes, ◌+◌, ◌<◌, ◌^◌, ◌||◌, ◌&&◌};
ghost use Rattle.std.specs.Option.{option_map_or};
ghost use Rattle.md_meaning.specs.Meaning.At as At;
ghost use Rattle.md_meaning.specs.Meaning.Layout.{Needed, Forced, laid_after, said, on_own_line};
ghost use Rattle.md_meaning.specs.Meaning.Layout.{when};
ghost use Rattle.md_steps.specs.State as states;
ghost use Rattle.md_steps.specs.Sides as sides;
ghost use Rattle.md_steps.specs.Steps as steps;
ghost use Rattle.md_base.specs.declared.event.Name.TheVariants as names;
ghost use Rattle.md_base.specs.NameTests.{is_fence, is_definition, is_transparent};
ghost use Rattle.md_meaning.specs.Meaning.Spans.{marker};

use crate::context::Context;
use crate::printer::Printer;
use md_base::Name;
use md_base::name_tests::{is_definition, is_fence};
use std::alloc::AllocError;

impl<'a> Printer<'a> {
    /// Enters a paragraph: prints its tag, unless it is in a tight list.
    pub(crate) fn enter_paragraph(&mut self, ending: &str) -> Result<(), AllocError>
        ensures { OnOk result (self.new ≡ record self.old {
          text = laid_after ending.now self.old.text
              (when (not self.old.scope.is_tight) (on_own_line (codes "<p>")));
          ended = None;
          marker = 38;
        }) }
    {
        self.enters();
        if self.scope.is_tight {
            Ok(())
        } else {
            self.line(ending, "<p>")
        }
    }

    /// Enters a node whose tag has a line of its own.
    #[inline(always)]
    pub(crate) fn enter_line(&mut self, ending: &str, tag: &str) -> Result<(), AllocError>
        ensures { OnOk result (self.new ≡ record self.old {
          text = laid_after ending.now self.old.text (on_own_line tag.now);
          ended = None;
          marker = 38;
        }) }
    {
        self.enters();
        self.line(ending, tag)
    }

    /// Enters a code block.
    pub(crate) fn enter_raw(&mut self, ending: &str, tag: &str) -> Result<(), AllocError>
        ensures { OnOk result (self.new ≡ record self.old {
          text = laid_after ending.now self.old.text (on_own_line tag.now);
          ended = None;
          marker = 38;
          fences = 0;
          has_chunk = false;
        }) }
    {
        self.fences = 0;
        self.has_chunk = false;
        self.enter_line(ending, tag)
    }

    /// Leaves a paragraph: prints its tag, or slurps the next line ending if it is in a tight list.
    pub(crate) fn leave_paragraph(&mut self) -> Result<(), AllocError>
        ensures { OnOk result ((ending : List ℕ) → self.new ≡ record self.old {
          text = laid_after ending self.old.text
              (when (not self.old.scope.is_tight) (said (codes "</p>")));
          slurps = if self.old.scope.in_definition then self.old.slurps
              else self.old.scope.is_tight || self.old.slurps;
          ended = Some names.Paragraph;
          marker = 38;
        }) }
    {
        let is_hidden = self.scope.is_tight;
        if is_hidden {
            self.ends_slurping(Name::Paragraph);
            Ok(())
        } else {
            self.ends(Name::Paragraph);
            self.put("</p>")
        }
    }

    /// Leaves the front matter, whose text is dropped.
    pub(crate) fn leave_front(&mut self)
        ensures { self.new ≡ record self.old {
          text = steps.first_or [] self.old.below;
          below = steps.others_of self.old.below;
          slurps = if self.old.scope.in_definition then self.old.slurps else true;
          ended = Some names.Frontmatter;
          marker = 38;
        } }
    {
        self.discard();
        self.ends_slurping(Name::Frontmatter);
    }

    /// Leaves a node whose tag has a line of its own.
    #[inline(always)]
    pub(crate) fn leave_line(
        &mut self,
        ending: &str,
        tag: &str,
        name: Name,
    ) -> Result<(), AllocError>
        requires solid { is_transparent name ≡ false }
        requires plain { marker name ≡ 38 }
        ensures { OnOk result (self.new ≡ record self.old {
          text = laid_after ending.now self.old.text (on_own_line tag.now);
          ended = Some name;
          marker = 38;
        }) }
    {
        self.ends(name);
        self.line(ending, tag)
    }

    /// Leaves a blank line ending: at the document's end a line ending is needed.
    pub(crate) fn leave_blank(&mut self, ending: &str, is_last: bool) -> Result<(), AllocError>
        ensures { OnOk result (self.new ≡ record self.old {
          text = laid_after ending.now self.old.text (when is_last (Needed ∷ []));
          slurps = if self.old.scope.in_definition then self.old.slurps else false;
          ended = Some names.BlankLineEnding;
          marker = 38;
        }) }
    {
        self.ends_unslurped(Name::BlankLineEnding);
        if is_last { self.need(ending) } else { Ok(()) }
    }

    /// Leaves a block quote.
    pub(crate) fn leave_quote(&mut self, ending: &str) -> Result<(), AllocError>
        ensures { OnOk result ((context : At.Context) (facts : states.NodeFacts)
            → context.ending ≡ ending.now
            → self.new ≡ steps.exited context facts names.BlockQuote self.old) }
    {
        self.pop_scope();
        self.ends_unslurped(Name::BlockQuote);
        self.line(ending, "</blockquote>")
    }

    /// Leaves indented code.
    pub(crate) fn leave_indented(&mut self, ending: &str) -> Result<(), AllocError>
        ensures { OnOk result (self.new ≡ record self.old {
          text = laid_after ending.now self.old.text (sides.code_closing self.old);
          slurps = if self.old.scope.in_definition then self.old.slurps else false;
          ended = Some names.CodeIndented;
          marker = 38;
        }) }
    {
        self.ends_unslurped(Name::CodeIndented);
        self.close_code(ending)
    }

    /// Prints the end of code, on its own line if there is a line of code.
    fn close_code(&mut self, ending: &str) -> Result<(), AllocError>
        ensures { OnOk result (self.new ≡ record self.old {
          text = laid_after ending.now self.old.text (sides.code_closing self.old);
        }) }
    {
        if self.has_chunk {
            self.line(ending, "</code></pre>")
        } else {
            self.put("</code></pre>")
        }
    }

    /// Leaves fenced code or math.
    pub(crate) fn leave_fenced(&mut self, ending: &str, name: Name) -> Result<(), AllocError>
        requires solid { is_transparent name ≡ false }
        requires plain { marker name ≡ 38 }
        ensures { OnOk result (self.new ≡ record self.old {
          text = laid_after ending.now self.old.text (sides.fenced_closing self.old self.old.ended);
          slurps = if self.old.scope.in_definition then self.old.slurps else false;
          ended = Some name;
          marker = 38;
        }) }
    {
        self.close_fenced(ending)?;
        self.ends_unslurped(name);
        Ok(())
    }

    /// Prints the end of fenced code, and what an unclosed fence lacks.
    fn close_fenced(&mut self, ending: &str) -> Result<(), AllocError>
        ensures { OnOk result (self.new ≡ record self.old {
          text = laid_after ending.now self.old.text (sides.fenced_closing self.old self.old.ended);
        }) }
    {
        let runs_out = self.runs_out();
        let is_unclosed = self.fences == 1;
        self.put_if(runs_out, ending)?;
        self.close_code(ending)?;
        self.need_if(is_unclosed, ending)
    }

    /// Whether code in a container has one fence that isn't its last child.
    fn runs_out(&self) -> bool
        ensures { result ≡ ((self.now.fences == 1) && self.now.scope.is_contained
            && not (option_map_or is_fence self.now.ended false)) }
    {
        self.fences == 1 && self.scope.is_contained && !follows_fence(self.ended)
    }

    /// Prints a line ending, if `wanted`.
    fn put_if(&mut self, wanted: bool, ending: &str) -> Result<(), AllocError>
        ensures { OnOk result (self.new ≡ record self.old {
          text = laid_after ending.now self.old.text (when wanted (Forced ∷ []));
        }) }
    {
        if wanted { self.put(ending) } else { Ok(()) }
    }

    /// Prints a line ending unless a line begins here, if `wanted`.
    fn need_if(&mut self, wanted: bool, ending: &str) -> Result<(), AllocError>
        ensures { OnOk result (self.new ≡ record self.old {
          text = laid_after ending.now self.old.text (when wanted (Needed ∷ []));
        }) }
    {
        if wanted { self.need(ending) } else { Ok(()) }
    }

    /// Leaves a fence: the first one ends the tag of the code.
    pub(crate) fn leave_fence(&mut self, name: Name) -> Result<(), AllocError>
        requires solid { is_transparent name ≡ false }
        requires plain { marker name ≡ 38 }
        requires fences { self.old.fences < 2 ^ 63 }
        ensures { OnOk result ((ending : List ℕ) → self.new ≡ record self.old {
          text = laid_after ending self.old.text (when (self.old.fences == 0) (said (codes ">")));
          slurps = if self.old.scope.in_definition then self.old.slurps
              else (self.old.fences == 0) || self.old.slurps;
          ended = Some name;
          marker = 38;
          fences = self.old.fences + 1;
        }) }
    {
        let is_first = self.fences == 0;
        self.fences += 1;
        if is_first {
            self.ends_slurping(name);
            self.put(">")
        } else {
            self.ends(name);
            Ok(())
        }
    }
}

/// Whether the previous node is a definition of either kind.
#[inline(always)]
pub(crate) fn follows_definition(ended: Option<Name>) -> bool
    ensures { result ≡ option_map_or is_definition ended false }
{
    match ended {
        Some(name) => is_definition(name),
        None => false,
    }
}

/// Whether the previous node is a fence.
fn follows_fence(ended: Option<Name>) -> bool
    ensures { result ≡ option_map_or is_fence ended false }
{
    match ended {
        Some(name) => is_fence(name),
        None => false,
    }
}
