//! Pushes the surroundings of a node that is entered. These are calls, so that nodes that change
//! nothing for their children don't pay for the copies.

ghost use Rattle.std.specs.Prelude.{◌≡◌, ◌∷◌, OnOk, true, false};

use crate::printer::Printer;
use crate::scope::Scope;
use std::alloc::AllocError;

impl<'a> Printer<'a> {
    /// Pushes the surroundings in a block quote or a footnote.
    #[inline(never)]
    pub(crate) fn push_contained(&mut self) -> Result<(), AllocError>
        ensures { OnOk result (self.new ≡ record self.old {
          scope = record self.old.scope { is_contained = true; is_tight = false };
          scopes = self.old.scope ∷ self.old.scopes;
        }) }
    {
        self.push_scope(Scope {
            is_contained: true,
            is_tight: false,
            ..self.scope
        })
    }

    /// Pushes the surroundings in the head of a table.
    #[inline(never)]
    pub(crate) fn push_head(&mut self) -> Result<(), AllocError>
        ensures { OnOk result (self.new ≡ record self.old {
          scope = record self.old.scope { in_head = true };
          scopes = self.old.scope ∷ self.old.scopes;
        }) }
    {
        self.push_scope(Scope {
            in_head: true,
            ..self.scope
        })
    }

    /// Pushes the surroundings in a link.
    #[inline(never)]
    pub(crate) fn push_link(&mut self) -> Result<(), AllocError>
        ensures { OnOk result (self.new ≡ record self.old {
          scope = record self.old.scope { in_link = true };
          scopes = self.old.scope ∷ self.old.scopes;
        }) }
    {
        self.push_scope(Scope {
            in_link: true,
            ..self.scope
        })
    }

    /// Pushes the surroundings in an image.
    #[inline(never)]
    pub(crate) fn push_image(&mut self) -> Result<(), AllocError>
        ensures { OnOk result (self.new ≡ record self.old {
          scope = record self.old.scope { in_image = true };
          scopes = self.old.scope ∷ self.old.scopes;
        }) }
    {
        self.push_scope(Scope {
            in_image: true,
            ..self.scope
        })
    }

    /// Pushes the surroundings in a definition of a link.
    #[inline(never)]
    pub(crate) fn push_definition(&mut self) -> Result<(), AllocError>
        ensures { OnOk result (self.new ≡ record self.old {
          scope = record self.old.scope { in_definition = true };
          scopes = self.old.scope ∷ self.old.scopes;
        }) }
    {
        self.push_scope(Scope {
            in_definition: true,
            ..self.scope
        })
    }
}
