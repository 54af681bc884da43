//! The step at a frequent node without children, for its entry and exit together.

ghost use Rattle.std.specs.Prelude.{◌≡◌, IfOk, true, false};
ghost use Rattle.md_tree.specs.Texts.{EntersAt, ExitsAt};
ghost use Rattle.md_steps.specs.Run.{Noticed};
ghost use Rattle.md_facts.specs.NodeFacts.{IsNoticedAt};
ghost use Rattle.md_printer.specs.Supplies.{Leaves, is_alone};

use crate::context::Context;
use crate::printer::Printer;
use md_base::Name;
use md_facts::{is_last_at, text_inside};
use std::alloc::AllocError;

impl<'a> Printer<'a> {
    /// Enters and leaves a node without children, if its name is frequent; returns whether it is.
    /// Only the exit of such a node changes the state.
    ///
    /// # Errors
    ///
    /// Returns an error only if memory runs out.
    #[inline(always)]
    pub fn leaf(
        &mut self,
        context: &Context<'a>,
        entry: usize,
        exit: usize,
        name: Name,
    ) -> Result<bool, AllocError>
        requires enters { EntersAt context.now.checked.now.events entry name }
        requires exits { ExitsAt context.now.checked.now.events exit name }
        requires one { (one : Noticed) → IsNoticedAt context.now.checked.now entry one
            → IsNoticedAt context.now.checked.now exit one }
        ensures alone { IfOk result (λ done. done ≡ true → is_alone name ≡ true) }
        ensures left { IfOk result
            (λ done. done ≡ true → Leaves context.now entry name self.old self.new) }
        ensures same { IfOk result (λ done. done ≡ false → self.new ≡ self.old) }
    {
        // Each frequent name has an arm here, although `exit` has one too: so such a leaf costs one
        // jump.
        match name {
            Name::Data => {
                self.leave_text(text_inside(context.checked, entry, exit), Name::Data)?;
                Ok(true)
            }
            Name::LineEnding => {
                self.leave_line_ending(text_inside(context.checked, entry, exit))?;
                Ok(true)
            }
            Name::SpaceOrTab => {
                self.ended = Some(Name::SpaceOrTab);
                Ok(true)
            }
            Name::BlockQuotePrefix => {
                self.ended = Some(Name::BlockQuotePrefix);
                Ok(true)
            }
            Name::Other(number) => {
                self.ended = Some(Name::Other(number));
                Ok(true)
            }
            Name::BlankLineEnding => {
                self.leave_blank(context.ending, is_last_at(context.checked, exit))?;
                Ok(true)
            }
            Name::ListItemMarker => {
                self.ends(Name::ListItemMarker);
                Ok(true)
            }
            Name::ListItemValue => {
                self.ends(Name::ListItemValue);
                Ok(true)
            }
            Name::HeadingAtxSequence => {
                self.ends(Name::HeadingAtxSequence);
                Ok(true)
            }
            _ => Ok(false),
        }
    }
}
