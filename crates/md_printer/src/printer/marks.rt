//! The effects of a node that ends on the nodes after it.

ghost use Rattle.std.specs.Prelude.{◌≡◌, Some, None, true};
ghost use Rattle.std.specs.Prelude.{false, if◌then◌else◌};
ghost use Rattle.md_meaning.specs.Meaning.Spans.{marker};
ghost use Rattle.md_base.specs.NameTests.{is_transparent};

use super::Printer;
use md_base::Name;
use md_base::name_tests::is_transparent;

impl<'a> Printer<'a> {
    /// Slurps the next line ending, outside definitions.
    #[inline(always)]
    pub(crate) fn slurp(&mut self)
        ensures { self.new ≡ record self.old {
          slurps = if self.old.scope.in_definition then self.old.slurps else true;
        } }
    {
        if !self.scope.in_definition {
            self.is_slurping = true;
        }
    }

    /// Doesn't slurp the next line ending, outside definitions.
    #[inline(always)]
    pub(crate) fn stop_slurping(&mut self)
        ensures { self.new ≡ record self.old {
          slurps = if self.old.scope.in_definition then self.old.slurps else false;
        } }
    {
        if !self.scope.in_definition {
            self.is_slurping = false;
        }
    }

    /// Records that a node has been entered.
    #[inline(always)]
    pub(crate) fn enters(&mut self)
        ensures { self.new ≡ record self.old { ended = None; marker = 38 } }
    {
        self.ended = None;
        self.marker = b'&';
    }

    /// Records that a node has ended.
    #[inline(always)]
    pub(crate) fn ends(&mut self, name: Name)
        requires solid { is_transparent name ≡ false }
        requires plain { marker name ≡ 38 }
        ensures { self.new ≡ record self.old { ended = Some name; marker = 38 } }
    {
        self.ended = Some(name);
        self.marker = b'&';
    }

    /// Records the end of a node after which the next line ending is slurped, outside definitions.
    #[inline(always)]
    pub(crate) fn ends_slurping(&mut self, name: Name)
        requires solid { is_transparent name ≡ false }
        requires plain { marker name ≡ 38 }
        ensures { self.new ≡ record self.old {
          slurps = if self.old.scope.in_definition then self.old.slurps else true;
          ended = Some name;
          marker = 38;
        } }
    {
        self.slurp();
        self.ends(name);
    }

    /// Records the end of a node after which the next line ending isn't slurped, outside
    /// definitions.
    #[inline(always)]
    pub(crate) fn ends_unslurped(&mut self, name: Name)
        requires solid { is_transparent name ≡ false }
        requires plain { marker name ≡ 38 }
        ensures { self.new ≡ record self.old {
          slurps = if self.old.scope.in_definition then self.old.slurps else false;
          ended = Some name;
          marker = 38;
        } }
    {
        self.stop_slurping();
        self.ends(name);
    }

    /// Records that no resource follows a label.
    #[inline(always)]
    pub(crate) fn forget_resource(&mut self)
        ensures { self.new ≡ record self.old { resource = None } }
    {
        self.has_resource = false;
    }
}
