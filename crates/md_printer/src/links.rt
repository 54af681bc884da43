//! Prints links and images, and stores their targets.

ghost use Rattle.std.specs.Prelude.{◌≡◌, ◌∷◌, ◌++◌, [], OnOk, Some, None, true, false, codes};
ghost use Rattle.std.specs.Prelude.{unwrap_or, ◌+◌, ◌<◌, IfOk, option_copied};
ghost use Rattle.md_meaning.specs.Meaning.At as At;
ghost use Rattle.md_steps.specs.Run.{Noticed};
ghost use Rattle.md_steps.specs.State as states;
ghost use Rattle.md_steps.specs.Sides as sides;
ghost use Rattle.md_steps.specs.Steps as steps;
ghost use Rattle.md_printer.specs.Supplies.{Supplies, Leaves, target_at};
ghost use Rattle.md_facts.specs.NodeFacts.{IsNoticedAt};
ghost use Rattle.md_base.specs.declared.event.Name.TheVariants as names;
ghost use Rattle.md_base.specs.NameTests.{is_transparent};
ghost use Rattle.md_meaning.specs.Meaning.Spans.{marker};
ghost use Rattle.md_tree.specs.Texts.{ExitsAt};
ghost use Rattle.md_tree.specs.Numbers.{ExitsOf, is_of_definitions};
ghost use Rattle.md_buffer.specs.LinkHeads.{anchor_head, picture_head, picture_tail};

use crate::context::Context;
use crate::printer::Printer;
use crate::scope::Scope;
use md_base::Name;
use md_buffer::{Target, TargetRef, put_anchor_before, put_picture_before, put_picture_tail};
use md_facts::referred_definition_at;
use md_text::CompileOptions;
use std::alloc::AllocError;
use std::mem::swap;

impl<'a> Printer<'a> {
    /// Begins a label.
    pub(crate) fn enter_label(&mut self) -> Result<(), AllocError>
        ensures { OnOk result (self.new ≡ record self.old {
          text = [];
          below = self.old.text ∷ self.old.below;
          resource = None;
        }) }
    {
        self.forget_resource();
        self.output.capture_label()
    }

    /// Begins the content of a resource or a definition, in which nothing is escaped yet.
    pub(crate) fn enter_destination(&mut self) -> Result<(), AllocError>
        ensures { OnOk result (self.new ≡ record self.old {
          text = [];
          below = self.old.text ∷ self.old.below;
          scope = record self.old.scope { is_escaping = false };
          scopes = self.old.scope ∷ self.old.scopes;
        }) }
    {
        self.capture()?;
        self.push_scope(Scope {
            is_escaping: false,
            ..self.scope
        })
    }

    /// Begins a resource or a definition, which contains a target.
    pub(crate) fn enter_target(&mut self) -> Result<(), AllocError>
        ensures { OnOk result (self.new ≡ record self.old {
          text = [];
          below = self.old.text ∷ self.old.below;
          target = steps.nowhere;
        }) }
    {
        self.target.clear();
        self.capture()
    }

    /// Leaves a link: inserts the tag before its label, and prints its end; in an image only its
    /// label.
    pub(crate) fn leave_link(&mut self, context: &Context, index: usize) -> Result<(), AllocError>
        requires { ExitsAt context.now.checked.now.events index names.Link }
        ensures { OnOk result (Leaves context.now index names.Link self.old self.new) }
    {
        self.pop_scope();
        self.ends(Name::Link);
        let is_label_alone = self.is_in_image();
        if is_label_alone {
            self.output.join();
            return Ok(());
        }
        let found = self.referred_target(context, index);
        self.put_link(context.options, found)
    }

    /// Writes the tags of a link around its label.
    fn put_link(
        &mut self,
        options: &CompileOptions,
        found: Option<&Target>,
    ) -> Result<(), AllocError>
        ensures { OnOk result (self.new ≡ record self.old {
          text = steps.first_or [] self.old.below ++ (anchor_head options.now
              (unwrap_or self.old.resource (unwrap_or (option_copied found.entry) steps.nowhere))
              ++ (self.old.text ++ codes "</a>"));
          below = steps.others_of self.old.below;
        }) }
    {
        let target_ref = TargetRef::of(self.has_resource, &self.resource, found);
        put_anchor_before(&mut self.output, &mut self.scratch, options, &target_ref)?;
        self.output.join();
        self.output.put("</a>")
    }

    /// Leaves an image: writes its tag around its alternative text; in another image only that
    /// text.
    pub(crate) fn leave_image(&mut self, context: &Context, index: usize) -> Result<(), AllocError>
        requires { ExitsAt context.now.checked.now.events index names.Image }
        ensures { OnOk result (Leaves context.now index names.Image self.old self.new) }
    {
        self.pop_scope();
        self.ends(Name::Image);
        let is_text_alone = self.is_in_image();
        if is_text_alone {
            self.output.join();
            return Ok(());
        }
        let found = self.referred_target(context, index);
        self.put_picture(context.options, found)
    }

    /// The target of a link or an image by its identifier: it is looked up if there is no resource.
    fn referred_target<'b>(&self, context: &Context<'b>, index: usize) -> Option<&'b Target>
        requires { ExitsOf is_of_definitions context.now.checked.now.events index }
        ensures { (all : At.Context) (one : Noticed) → Supplies context.now all
            → IsNoticedAt context.now.checked.now index one
            → unwrap_or self.now.resource (unwrap_or (option_copied result) steps.nowhere)
            ≡ sides.leads all self.now one.facts }
    {
        if self.has_resource {
            return None;
        }
        target_of(
            context.definitions,
            referred_definition_at(context.checked, index),
        )
    }

    /// Writes the tag of an image around its alternative text.
    fn put_picture(
        &mut self,
        options: &CompileOptions,
        found: Option<&Target>,
    ) -> Result<(), AllocError>
        ensures { OnOk result (self.new ≡ record self.old {
          text = steps.first_or [] self.old.below
              ++ (picture_head options.now (unwrap_or self.old.resource
              (unwrap_or (option_copied found.entry) steps.nowhere)).destination
              ++ (self.old.text ++ picture_tail (unwrap_or self.old.resource
              (unwrap_or (option_copied found.entry) steps.nowhere)).title));
          below = steps.others_of self.old.below;
        }) }
    {
        let target_ref = TargetRef::of(self.has_resource, &self.resource, found);
        put_picture_before(
            &mut self.output,
            &mut self.scratch,
            options,
            target_ref.destination,
        )?;
        self.output.join();
        put_picture_tail(&mut self.output, target_ref.title)
    }

    /// Leaves a resource, whose target is stored.
    pub(crate) fn leave_resource(&mut self) -> Result<(), AllocError>
        ensures { OnOk result (self.new ≡ record self.old {
          text = steps.first_or [] self.old.below;
          below = steps.others_of self.old.below;
          ended = Some names.Resource;
          marker = 38;
          target = steps.nowhere;
          resource = Some self.old.target;
        }) }
    {
        self.ends(Name::Resource);
        self.discard();
        swap(&mut self.resource, &mut self.target);
        self.target.clear();
        self.has_resource = true;
        Ok(())
    }

    /// Leaves a destination, which is stored.
    pub(crate) fn leave_destination(&mut self, name: Name) -> Result<(), AllocError>
        requires solid { is_transparent name ≡ false }
        requires plain { marker name ≡ 38 }
        ensures { OnOk result (self.new ≡ record self.old {
          text = steps.first_or [] self.old.below;
          below = steps.others_of self.old.below;
          scope = steps.first_or states.outside self.old.scopes;
          scopes = steps.others_of self.old.scopes;
          ended = Some name;
          marker = 38;
          target = record self.old.target { destination = self.old.text };
        }) }
    {
        self.pop_scope();
        self.ends(name);
        self.target.note_destination(&mut self.output)
    }

    /// Leaves a title, which is stored.
    pub(crate) fn leave_title(&mut self, name: Name) -> Result<(), AllocError>
        requires solid { is_transparent name ≡ false }
        requires plain { marker name ≡ 38 }
        ensures { OnOk result (self.new ≡ record self.old {
          text = steps.first_or [] self.old.below;
          below = steps.others_of self.old.below;
          ended = Some name;
          marker = 38;
          target = record self.old.target { title = Some self.old.text };
        }) }
    {
        self.ends(name);
        self.target.note_title(&mut self.output)
    }
}

/// The definition at an index, if there is one.
fn target_of(targets: &[Target], place: Option<usize>) -> Option<&Target>
    ensures { unwrap_or (option_copied result) steps.nowhere ≡ target_at targets.now place }
{
    match place {
        Some(place) => targets.get(place),
        None => None,
    }
}
