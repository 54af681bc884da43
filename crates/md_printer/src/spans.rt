//! Prints texts and line endings, and the spans in them.

ghost use Rattle.std.specs.Prelude.{◌≡◌, ◌∷◌, ◌++◌, [], ◌==◌, OnOk, Some, None, true, false, not};
ghost use Rattle.std.specs.Prelude.{ℕ, List, if◌then◌else◌, codes, ◌+◌, ◌<◌, ◌||◌, ◌&&◌};
ghost use Rattle.std.specs.Option.{option_map_or};
ghost use Rattle.md_meaning.specs.Meaning.At as At;
ghost use Rattle.md_steps.specs.Run.{Noticed};
ghost use Rattle.md_meaning.specs.Meaning.Layout.{laid_after, said, when};
ghost use Rattle.md_steps.specs.Sides as sides;
ghost use Rattle.md_printer.specs.Supplies.{Supplies};
ghost use Rattle.md_facts.specs.NodeFacts.{IsNoticedAt};
ghost use Rattle.md_printer.specs.Parts as parts;
ghost use Rattle.md_base.specs.declared.event.Name.TheVariants as names;
ghost use Rattle.md_base.specs.NameTests.{is_definition, is_transparent};
ghost use Rattle.md_meaning.specs.Meaning.Spans.{marker};
ghost use Rattle.md_text.specs.Encode.{encoded};
ghost use Rattle.md_tree.specs.Texts.{ExitsAt};

use crate::blocks::follows_definition;
use crate::context::Context;
use crate::printer::Printer;
use crate::scope::Scope;
use md_base::Name;
use md_base::name_tests::is_definition;
use std::alloc::AllocError;

impl<'a> Printer<'a> {
    /// Enters a span: prints its tag, outside images.
    #[inline(always)]
    pub(crate) fn enter_span(&mut self, tag: &str) -> Result<(), AllocError>
        ensures { OnOk result ((ending : List ℕ) → self.new ≡ record self.old {
          text =
              laid_after ending self.old.text (when (not self.old.scope.in_image) (said tag.now));
          ended = None;
          marker = 38;
        }) }
    {
        self.enters();
        let is_hidden = self.scope.in_image;
        if is_hidden { Ok(()) } else { self.put(tag) }
    }

    /// Enters HTML, in which nothing is escaped if HTML is allowed.
    pub(crate) fn enter_html(&mut self, allowed: bool) -> Result<(), AllocError>
        ensures { OnOk result (self.new ≡ record self.old {
          scope = record self.old.scope { is_escaping = not allowed };
          scopes = self.old.scope ∷ self.old.scopes;
          ended = None;
          marker = 38;
        }) }
    {
        self.enters();
        self.push_scope(Scope {
            is_escaping: !allowed,
            ..self.scope
        })
    }

    /// Enters inline code: prints its tag, outside images.
    pub(crate) fn enter_code(&mut self, tag: &str) -> Result<(), AllocError>
        ensures { OnOk result ((ending : List ℕ) → self.new ≡ record self.old {
          text = [];
          below = laid_after ending self.old.text
              (when (not self.old.scope.in_image) (said tag.now)) ∷ self.old.below;
          scope = record self.old.scope { in_code = true };
          scopes = self.old.scope ∷ self.old.scopes;
        }) }
    {
        self.tag(tag)?;
        self.capture()?;
        self.push_scope(Scope {
            in_code: true,
            ..self.scope
        })
    }

    /// Leaves a text, escaped if its surroundings say so.
    #[inline(always)]
    pub(crate) fn leave_text(&mut self, text: &str, name: Name) -> Result<(), AllocError>
        requires solid { is_transparent name ≡ false }
        requires plain { marker name ≡ 38 }
        ensures { OnOk result (self.new ≡ record self.old {
          text = self.old.text ++ encoded self.old.scope.is_escaping text.now;
          ended = Some name;
          marker = 38;
        }) }
    {
        self.ends(name);
        self.put_encoded(text, self.scope.is_escaping)
    }

    /// Leaves a line ending: prints a space in code, else its own text, unless it is slurped or
    /// follows a definition.
    pub(crate) fn leave_line_ending(&mut self, text: &str) -> Result<(), AllocError>
        ensures { OnOk result ((ending : List ℕ) → self.new ≡ record self.old {
          text = laid_after ending self.old.text (parts.line_closing self.old text.now);
          slurps = if self.old.scope.in_definition then self.old.slurps
              else self.old.scope.in_code && self.old.slurps;
          ended = Some names.LineEnding;
          marker = 38;
        }) }
    {
        if self.scope.in_code {
            self.ends(Name::LineEnding);
            return self.put(" ");
        }
        let is_dropped = self.drops_ending();
        self.ends_unslurped(Name::LineEnding);
        if is_dropped {
            Ok(())
        } else {
            self.put_ending(text)
        }
    }

    /// Prints a line ending. Most are a line feed, which is a constant here, so no copy is called.
    #[inline(always)]
    fn put_ending(&mut self, text: &str) -> Result<(), AllocError>
        ensures { OnOk result
            (self.new ≡ record self.old { text = laid_after [] self.old.text (said text.now) }) }
    {
        if text == "\n" {
            self.put("\n")
        } else {
            self.put(text)
        }
    }

    /// Whether a line ending here isn't printed.
    #[inline(always)]
    fn drops_ending(&self) -> bool
        ensures { result ≡ (not self.now.scope.in_definition && self.now.slurps
            || option_map_or is_definition self.now.ended false) }
    {
        !self.scope.in_definition && self.is_slurping || follows_definition(self.ended)
    }

    /// Leaves a node that prints a tag outside images.
    #[inline(always)]
    pub(crate) fn leave_span(&mut self, tag: &str, name: Name) -> Result<(), AllocError>
        requires solid { is_transparent name ≡ false }
        requires plain { marker name ≡ 38 }
        ensures { OnOk result ((ending : List ℕ) → self.new ≡ record self.old {
          text =
              laid_after ending self.old.text (when (not self.old.scope.in_image) (said tag.now));
          ended = Some name;
          marker = 38;
        }) }
    {
        self.ends(name);
        self.tag(tag)
    }

    /// Leaves a hard break: prints its tag, outside images.
    pub(crate) fn leave_break(&mut self, name: Name) -> Result<(), AllocError>
        requires solid { is_transparent name ≡ false }
        requires plain { marker name ≡ 38 }
        ensures { OnOk result ((ending : List ℕ) → self.new ≡ record self.old {
          text = laid_after ending self.old.text
              (when (not self.old.scope.in_image) (said (codes "<br />")));
          ended = Some name;
          marker = 38;
        }) }
    {
        self.leave_span("<br />", name)
    }

    /// Leaves a mail address that is a link.
    pub(crate) fn leave_mail(&mut self, context: &Context, index: usize) -> Result<(), AllocError>
        requires { ExitsAt context.now.checked.now.events index names.GfmAutolinkLiteralEmail }
        ensures { OnOk result ((all : At.Context) (one : Noticed) → Supplies context.now all
            → IsNoticedAt context.now.checked.now index one → self.new ≡ record self.old {
              text = laid_after all.ending self.old.text (sides.autolink_closing all one.facts
                  (self.old.scope.in_image || self.old.scope.in_link) (codes "mailto:"));
              ended = Some names.GfmAutolinkLiteralEmail;
              marker = 38;
            }) }
    {
        self.leave_literal(context, index, "mailto:", Name::GfmAutolinkLiteralEmail)
    }
}
