//! Prints captured texts of code, HTML and references.

ghost use Rattle.std.specs.Prelude.{◌≡◌, ◌++◌, [], ◌==◌, OnOk, Some, true, false, ℕ, List};
ghost use Rattle.std.specs.Prelude.{if◌then◌else◌, unwrap_or, ◌+◌, ◌<◌, ◌&&◌};
ghost use Rattle.md_meaning.specs.Meaning.At as At;
ghost use Rattle.md_steps.specs.Run.{Noticed};
ghost use Rattle.md_meaning.specs.Meaning.Layout.{laid_after};
ghost use Rattle.md_steps.specs.State as states;
ghost use Rattle.md_steps.specs.Sides as sides;
ghost use Rattle.md_steps.specs.Steps as steps;
ghost use Rattle.md_printer.specs.Supplies.{Supplies, Leaves};
ghost use Rattle.md_facts.specs.NodeFacts.{IsNoticedAt};
ghost use Rattle.md_base.specs.declared.event.Name.TheVariants as names;
ghost use Rattle.md_base.specs.NameTests.{is_transparent};
ghost use Rattle.md_base.specs.Reference.{decoded};
ghost use Rattle.md_meaning.specs.Meaning.Spans.{trimmed, without_escapes, marker};
ghost use Rattle.md_text.specs.Encode.{encoded};
ghost use Rattle.md_tree.specs.Texts.{ExitsAt};
ghost use Rattle.md_base.specs.Place.{serialized_between};

use crate::calls::serialized;
use crate::context::Context;
use crate::printer::Printer;
use md_base::{Name, Point};
use md_buffer::push_code;
use md_facts::{place_left_at, text_left_at, text_of_leaf};
use md_text::gfm_tagfilter;
use std::alloc::{AllocError, Global};

impl<'a> Printer<'a> {
    /// Leaves inline code, between its tags outside images.
    pub(crate) fn leave_code(&mut self, alloc: Global, name: Name) -> Result<(), AllocError>
        requires solid { is_transparent name ≡ false }
        requires plain { marker name ≡ 38 }
        ensures { OnOk result ((ending : List ℕ) → self.new ≡ record self.old {
          text = laid_after ending (steps.first_or [] self.old.below) (sides.code_text_closing
              (record self.old { scope = steps.first_or states.outside self.old.scopes })
              self.old.text);
          below = steps.others_of self.old.below;
          scope = steps.first_or states.outside self.old.scopes;
          scopes = steps.others_of self.old.scopes;
          ended = Some name;
          marker = 38;
        }) }
    {
        self.pop_scope();
        self.ends(name);
        self.put_code(alloc)?;
        self.tag("</code>")
    }

    /// Inserts the text of code in its place.
    fn put_code(&mut self, alloc: Global) -> Result<(), AllocError>
        ensures { OnOk result (self.new ≡ record self.old {
          text = steps.first_or [] self.old.below ++ trimmed
              (if self.old.scope.in_table then without_escapes self.old.text else self.old.text);
          below = steps.others_of self.old.below;
        }) }
    {
        let in_table = self.scope.in_table;
        self.scratch.clear();
        self.output.move_into(&mut self.scratch)?;
        push_code(alloc, &mut self.output, in_table, self.scratch.as_str())
    }

    /// Leaves the value of a character reference: prints its text, escaped if its surroundings say
    /// so.
    pub(crate) fn leave_reference(
        &mut self,
        context: &Context,
        index: usize,
    ) -> Result<(), AllocError>
        requires { ExitsAt context.now.checked.now.events index names.CharacterReferenceValue }
        ensures { OnOk result
            (Leaves context.now index names.CharacterReferenceValue self.old self.new) }
    {
        let value = text_left_at(context.checked, index);
        let decoded = context.checked.decode(context.alloc, value, self.marker)?;
        let text = decoded.unwrap_or(String::new(context.alloc));
        self.ends(Name::CharacterReferenceValue);
        self.put_encoded(text.as_str(), self.scope.is_escaping)
    }

    /// Leaves HTML, whose tags the tag filter escapes if HTML is allowed.
    pub(crate) fn leave_html(
        &mut self,
        context: &Context,
        index: usize,
        name: Name,
    ) -> Result<(), AllocError>
        requires there { ExitsAt context.now.checked.now.events index name }
        requires solid { is_transparent name ≡ false }
        requires plain { marker name ≡ 38 }
        ensures { OnOk result ((all : At.Context) (one : Noticed) → Supplies context.now all
            → IsNoticedAt context.now.checked.now index one → self.new ≡ record self.old {
              text = self.old.text
                  ++ encoded self.old.scope.is_escaping (sides.html_text all one.facts);
              ended = Some name;
              marker = 38;
            }) }
    {
        let text = text_left_at(context.checked, index);
        self.ends(name);
        if context.options.allow_dangerous_html && context.options.gfm_tagfilter {
            let filtered = gfm_tagfilter(context.alloc, text)?;
            return self.put_encoded(filtered.as_str(), self.scope.is_escaping);
        }
        self.put_encoded(text, self.scope.is_escaping)
    }

    /// Leaves a line of code, with the columns of tabs that are cut at its ends.
    pub(crate) fn leave_chunk(
        &mut self,
        context: &Context,
        index: usize,
        name: Name,
    ) -> Result<(), AllocError>
        requires there { ExitsAt context.now.checked.now.events index name }
        requires solid { is_transparent name ≡ false }
        requires plain { marker name ≡ 38 }
        ensures { OnOk result ((one : Noticed) → IsNoticedAt context.now.checked.now index one
            → self.new ≡ record self.old {
              text = self.old.text
                  ++ encoded true (unwrap_or (serialized_between context.now.checked.now.bytes
                  one.facts.place.start one.facts.place.end) []);
              ended = Some name;
              marker = 38;
              has_chunk = true;
            }) }
    {
        let place = place_left_at(context.checked, index);
        self.ends_chunk(name);
        self.put_line_of_code(context, place.start, place.end)
    }

    /// Records that a line of code has ended.
    fn ends_chunk(&mut self, name: Name)
        requires solid { is_transparent name ≡ false }
        requires plain { marker name ≡ 38 }
        ensures { self.new ≡ record self.old { ended = Some name; marker = 38; has_chunk = true } }
    {
        self.has_chunk = true;
        self.ends(name);
    }

    /// Prints a line of code.
    fn put_line_of_code(
        &mut self,
        context: &Context,
        start: Point,
        end: Point,
    ) -> Result<(), AllocError>
        ensures { OnOk result (self.new ≡ record self.old {
          text = self.old.text ++ encoded true
              (unwrap_or (serialized_between context.now.checked.now.bytes start end) []);
        }) }
    {
        // Few lines of code begin or end in a tab that is cut.
        if start.vs == 0 && end.vs == 0 {
            return self.put_encoded(text_of_leaf(context.checked, start, end), true);
        }
        let text = serialized(context.alloc, context.checked.bytes(), start, end)?;
        self.put_encoded(text.as_str(), true)
    }

    /// Leaves a node whose text is dropped.
    pub(crate) fn leave_dropped(&mut self, name: Name) -> Result<(), AllocError>
        requires solid { is_transparent name ≡ false }
        requires plain { marker name ≡ 38 }
        ensures { OnOk result (self.new ≡ record self.old {
          text = steps.first_or [] self.old.below;
          below = steps.others_of self.old.below;
          ended = Some name;
          marker = 38;
        }) }
    {
        self.ends(name);
        self.discard();
        Ok(())
    }
}
