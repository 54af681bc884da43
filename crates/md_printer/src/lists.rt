//! Prints lists and their items.

ghost use Rattle.std.specs.Prelude.{◌≡◌, ◌∷◌, ◌++◌, [], ◌==◌, OnOk, Some, None, true, false, not};
ghost use Rattle.std.specs.Prelude.{ℕ, List, if◌then◌else◌, codes, bytes_eq, ◌+◌, ◌<◌, ◌&&◌};
ghost use Rattle.std.specs.Bool.{OnTrue};
ghost use Rattle.std.specs.Str.{IsCharBoundary};
ghost use Rattle.md_base.specs.declared.event.Name.TheVariants.{ListOrdered};
ghost use Rattle.md_meaning.specs.Meaning.At as At;
ghost use Rattle.md_steps.specs.Run.{Noticed};
ghost use Rattle.md_meaning.specs.Meaning.Layout.{Needed, Text, laid_after, said, on_own_line};
ghost use Rattle.md_meaning.specs.Meaning.Layout.{when};
ghost use Rattle.md_meaning.specs.Meaning.Blocks.{without_zeros};
ghost use Rattle.md_tree.specs.Texts.{EntersAt};
ghost use Rattle.md_steps.specs.State as states;
ghost use Rattle.md_steps.specs.Sides as sides;
ghost use Rattle.md_steps.specs.Steps as steps;
ghost use Rattle.md_printer.specs.Supplies.{Supplies};
ghost use Rattle.md_facts.specs.NodeFacts.{IsNoticedAt};
ghost use Rattle.md_printer.specs.Parts as parts;
ghost use Rattle.md_base.specs.declared.event.Name.TheVariants as names;
ghost use Rattle.md_base.specs.NameTests.{is_transparent};
ghost use Rattle.md_meaning.specs.Meaning.Spans.{marker};

use crate::context::Context;
use crate::printer::Printer;
use crate::scope::Scope;
use md_base::Name;
use md_facts::{number_at, text_of_leaf};
use std::alloc::AllocError;

impl<'a> Printer<'a> {
    /// Pushes the surroundings of a list.
    pub(crate) fn push_list(&mut self, loose: bool) -> Result<(), AllocError>
        ensures { OnOk result (self.new ≡ record self.old {
          scope = record self.old.scope { is_contained = true; is_tight = not loose };
          scopes = self.old.scope ∷ self.old.scopes;
        }) }
    {
        self.push_scope(Scope {
            is_contained: true,
            is_tight: !loose,
            ..self.scope
        })
    }

    /// Prints the tag of an ordered list, with its number unless that is 1.
    pub(crate) fn open_list(&mut self, context: &Context, index: usize) -> Result<(), AllocError>
        requires { EntersAt context.now.checked.now.events index ListOrdered }
        ensures { OnOk result ((all : At.Context) (one : Noticed) → Supplies context.now all
            → IsNoticedAt context.now.checked.now index one → self.new ≡ record self.old {
              text = laid_after context.now.ending.now self.old.text (on_own_line (codes "<ol")
                  ++ (sides.list_opening all one.facts ++ said (codes ">")));
              ended = None;
              marker = 38;
            }) }
    {
        self.enter_line(context.ending, "<ol")?;
        self.open_start(context, index)?;
        self.put(">")
    }

    /// Prints the number of the ordered list that is entered, unless it is 1.
    fn open_start(&mut self, context: &Context, index: usize) -> Result<(), AllocError>
        requires { EntersAt context.now.checked.now.events index ListOrdered }
        ensures { OnOk result ((all : At.Context) (one : Noticed) → Supplies context.now all
            → IsNoticedAt context.now.checked.now index one → (ending : List ℕ)
            → self.new ≡ record self.old {
              text = laid_after ending self.old.text (sides.list_opening all one.facts);
            }) }
    {
        match number_at(context.checked, index) {
            Some(place) => {
                let digits = text_of_leaf(context.checked, place.start, place.end);
                self.open_number(without_zeros(digits))
            }
            None => Ok(()),
        }
    }

    /// Prints the number of an ordered list, unless it is 1.
    fn open_number(&mut self, digits: &str) -> Result<(), AllocError>
        ensures { OnOk result ((ending : List ℕ) → self.new ≡ record self.old {
          text = laid_after ending self.old.text (when (not (bytes_eq digits.now (codes "1")))
              (Text (codes " start=\"") ∷ Text digits.now ∷ Text (codes "\"") ∷ []));
        }) }
    {
        if digits == "1" {
            return Ok(());
        }
        self.put(" start=\"")?;
        self.put(digits)?;
        self.put("\"")
    }

    /// Enters a task's box: prints its tag up to whether it is checked.
    pub(crate) fn enter_task(&mut self, checkable: bool) -> Result<(), AllocError>
        ensures { OnOk result ((ending : List ℕ) → self.new ≡ record self.old {
          text = laid_after ending self.old.text (when (not self.old.scope.in_image)
              (Text (codes "<input type=\"checkbox\" ")
              ∷ when (not checkable) (said (codes "disabled=\"\" "))));
          ended = None;
          marker = 38;
        }) }
    {
        self.enters();
        if self.scope.in_image {
            return Ok(());
        }
        self.put("<input type=\"checkbox\" ")?;
        if checkable {
            Ok(())
        } else {
            self.put("disabled=\"\" ")
        }
    }

    /// Leaves an item: its tag has a line of its own unless its last child decides otherwise.
    pub(crate) fn leave_item(&mut self, ending: &str, last: Option<Name>) -> Result<(), AllocError>
        ensures { OnOk result
            ((facts : states.NodeFacts) → facts.contributing ≡ last → self.new ≡ record self.old {
              text = laid_after ending.now self.old.text
                  ((if sides.item_ends_in_line self.old facts then [] else Needed ∷ [])
                  ++ said (codes "</li>"));
              slurps = if self.old.scope.in_definition then self.old.slurps else false;
              ended = Some names.ListItem;
              marker = 38;
            }) }
    {
        self.ends_unslurped(Name::ListItem);
        if ends_in_line(self.scope.is_tight, last) {
            self.put("</li>")
        } else {
            self.line(ending, "</li>")
        }
    }

    /// Leaves a list: its tag follows a line ending in any case.
    pub(crate) fn leave_list(
        &mut self,
        ending: &str,
        tag: &str,
        name: Name,
    ) -> Result<(), AllocError>
        requires solid { is_transparent name ≡ false }
        requires plain { marker name ≡ 38 }
        ensures { OnOk result (self.new ≡ record self.old {
          text = (self.old.text ++ ending.now) ++ tag.now;
          scope = steps.first_or states.outside self.old.scopes;
          scopes = steps.others_of self.old.scopes;
          ended = Some name;
          marker = 38;
        }) }
    {
        self.pop_scope();
        self.ends(name);
        self.put(ending)?;
        self.put(tag)
    }
}

/// Digits without leading zeros.
fn without_zeros(digits: &str) -> &str
    ensures { result.now ≡ without_zeros digits.now }
{
    unpadded(digits)
}

/// The same, zero by zero.
fn unpadded(mut digits: &str) -> &str
    ensures { result.now ≡ parts.unpadded digits.entry.now }
{
    while has_leading_zero(digits) {
        digits = &digits[1..];
    }
    digits
}

/// Whether a zero precedes other digits.
fn has_leading_zero(digits: &str) -> bool
    ensures value { result ≡ parts.has_leading_zero digits.now }
    ensures cut { OnTrue result (IsCharBoundary digits.now 1) }
{
    digits.len() > 1 && digits.as_bytes()[0] == b'0'
}

/// Whether an item's last contributing child ends its line: its prefix, or a paragraph of a tight
/// list.
fn ends_in_line(is_tight: bool, last: Option<Name>) -> bool
    ensures { (state : states.State) (facts : states.NodeFacts) → state.scope.is_tight ≡ is_tight
        → facts.contributing ≡ last
        → result ≡ sides.item_ends_in_line state facts }
{
    match last {
        Some(Name::ListItemPrefix) => true,
        Some(Name::Paragraph) => is_tight,
        _ => false,
    }
}
