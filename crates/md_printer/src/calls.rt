//! Prints footnote calls, and stores footnotes.

ghost use Rattle.std.specs.Prelude.{◌≡◌, ◌∷◌, ◌++◌, [], OnOk, Some, None, not, ℕ, List, unwrap_or};
ghost use Rattle.std.specs.Prelude.{◌+◌, ◌<◌, IfOk, string_bytes};
ghost use Rattle.md_meaning.specs.Meaning.Layout.{laid_after, when};
ghost use Rattle.md_steps.specs.Sides as sides;
ghost use Rattle.md_steps.specs.Steps as steps;
ghost use Rattle.md_base.specs.declared.event.Name.TheVariants as names;
ghost use Rattle.md_tree.specs.Texts.{ExitsAt};
ghost use Rattle.md_printer.specs.Supplies.{Leaves};
ghost use Rattle.md_base.specs.Place.{serialized_between};

use crate::context::Context;
use crate::printer::Printer;
use md_base::{Name, Point, Position, Slice};
use md_facts::identifier_left_at;
use md_footnotes::Footnotes;
use md_text::CompileOptions;
use std::alloc::{AllocError, Global};

impl<'a> Printer<'a> {
    /// Leaves a footnote call, which is printed outside images and counted everywhere.
    pub(crate) fn leave_call(&mut self, context: &Context, index: usize) -> Result<(), AllocError>
        requires { ExitsAt context.now.checked.now.events index names.GfmFootnoteCall }
        ensures { OnOk result (Leaves context.now index names.GfmFootnoteCall self.old self.new) }
    {
        let identifier = identifier_left_at(context.alloc, context.checked, index)?;
        self.leave_dropped(Name::GfmFootnoteCall)?;
        self.put_call(context.alloc, context.options, identifier.as_str())?;
        self.count_call(identifier)
    }

    /// Prints a call of the footnote with an identifier, outside images.
    fn put_call(
        &mut self,
        alloc: Global,
        options: &CompileOptions,
        identifier: &str,
    ) -> Result<(), AllocError>
        ensures { OnOk result ((ending : List ℕ) → self.new ≡ record self.old {
          text = laid_after ending self.old.text (when (not self.old.scope.in_image)
              (sides.call_pieces options.now self.old.calls identifier.now));
        }) }
    {
        let is_hidden = self.is_in_image();
        if is_hidden {
            return Ok(());
        }
        self.put_shown_call(alloc, options, identifier)
    }

    /// Prints a call of the footnote with an identifier.
    fn put_shown_call(
        &mut self,
        alloc: Global,
        options: &CompileOptions,
        identifier: &str,
    ) -> Result<(), AllocError>
        ensures { OnOk result (self.new ≡ record self.old {
          text = self.old.text ++ laid_after [] []
              (sides.call_pieces options.now self.old.calls identifier.now);
        }) }
    {
        write_call(
            alloc,
            &mut self.scratch,
            &self.footnotes,
            options,
            identifier,
        )?;
        self.output.put(self.scratch.as_str())
    }

    /// Records a call of the footnote with an identifier.
    fn count_call(&mut self, identifier: String) -> Result<(), AllocError>
        ensures { OnOk result (self.new ≡ record self.old {
          calls = self.old.calls ++ string_bytes identifier ∷ [];
        }) }
    {
        self.footnotes.call(identifier)
    }

    /// Leaves a footnote definition, whose text is stored if it is the first with its identifier.
    pub(crate) fn leave_footnote(
        &mut self,
        context: &Context,
        index: usize,
    ) -> Result<(), AllocError>
        requires { ExitsAt context.now.checked.now.events index names.GfmFootnoteDefinition }
        ensures { OnOk result
            (Leaves context.now index names.GfmFootnoteDefinition self.old self.new) }
    {
        let identifier = identifier_left_at(context.alloc, context.checked, index)?;
        self.pop_scope();
        self.ends(Name::GfmFootnoteDefinition);
        let text = self.take_text(context.alloc)?;
        self.note_footnote(identifier, text)
    }

    /// Adds a footnote, unless there is one with its identifier.
    fn note_footnote(&mut self, identifier: String, text: String) -> Result<(), AllocError>
        ensures { OnOk result (self.new ≡ record self.old {
          footnotes = steps.noted self.old.footnotes
              (record { identifier = string_bytes identifier; text = string_bytes text });
        }) }
    {
        self.footnotes.note(identifier, text)
    }
}

/// Replaces a text by a call of the footnote with an identifier.
fn write_call(
    alloc: Global,
    text: &mut String,
    footnotes: &Footnotes,
    options: &CompileOptions,
    identifier: &str,
) -> Result<(), AllocError>
    ensures { OnOk result (string_bytes text.new ≡ laid_after [] []
        (sides.call_pieces options.now footnotes.now.calls identifier.now)) }
{
    text.clear();
    footnotes.push_call(alloc, text, options, identifier)
}

/// The text between two points with the spaces of the tabs that are cut there; empty if there is
/// none.
pub(crate) fn serialized(
    alloc: Global,
    bytes: &[u8],
    start: Point,
    end: Point,
) -> Result<String, AllocError>
    ensures { IfOk result
        (λ text. string_bytes text ≡ unwrap_or (serialized_between bytes.now start end) []) }
{
    match Slice::from_position(bytes, &Position { start, end }) {
        Some(slice) => Ok(slice.serialize(alloc)?.unwrap_or(String::new(alloc))),
        None => Ok(String::new(alloc)),
    }
}
