//! Prints autolinks.

ghost use Rattle.std.specs.Prelude.{◌≡◌, ◌++◌, OnOk, Some, None, true, false, ℕ, List, ◌+◌, ◌<◌};
ghost use Rattle.std.specs.Prelude.{◌||◌, IfOk, string_bytes};
ghost use Rattle.md_meaning.specs.Meaning.At as At;
ghost use Rattle.md_steps.specs.Run.{Noticed};
ghost use Rattle.md_meaning.specs.Meaning.Layout.{laid_after};
ghost use Rattle.md_steps.specs.Sides as sides;
ghost use Rattle.md_printer.specs.Supplies.{Supplies};
ghost use Rattle.md_facts.specs.NodeFacts.{IsNoticedAt, ExitsSome};
ghost use Rattle.md_base.specs.NameTests.{is_transparent};
ghost use Rattle.md_meaning.specs.Meaning.Spans.{marker};
ghost use Rattle.md_text.specs.Encode.{encoded};
ghost use Rattle.md_tree.specs.Texts.{ExitsAt};
ghost use Rattle.md_meaning.specs.Meaning.Media.{anchor};
ghost use Rattle.md_buffer.specs.LinkHeads.{anchor_head};

use crate::context::Context;
use crate::printer::Printer;
use md_base::Name;
use md_buffer::{TargetRef, put_anchor_head};
use md_facts::text_left_at;
use std::alloc::{AllocError, Global};

impl<'a> Printer<'a> {
    /// Leaves an autolink, which is plain in an image.
    pub(crate) fn leave_autolink(
        &mut self,
        context: &Context,
        index: usize,
        prefix: &str,
        name: Name,
    ) -> Result<(), AllocError>
        requires there { ExitsAt context.now.checked.now.events index name }
        requires solid { is_transparent name ≡ false }
        requires plain { marker name ≡ 38 }
        ensures { OnOk result ((all : At.Context) (one : Noticed) → Supplies context.now all
            → IsNoticedAt context.now.checked.now index one → self.new ≡ record self.old {
              text = laid_after all.ending self.old.text
                  (sides.autolink_closing all one.facts self.old.scope.in_image prefix.now);
              ended = Some name;
              marker = 38;
            }) }
    {
        let plain = self.scope.in_image;
        self.ends(name);
        self.put_autolink(context, index, prefix, plain)
    }

    /// Prints the text of the autolink that is left, linked to itself with a prefix unless it is
    /// plain.
    fn put_autolink(
        &mut self,
        context: &Context,
        index: usize,
        prefix: &str,
        plain: bool,
    ) -> Result<(), AllocError>
        requires { ExitsSome context.now.checked.now.events index }
        ensures { OnOk result ((all : At.Context) (one : Noticed) → Supplies context.now all
            → IsNoticedAt context.now.checked.now index one → self.new ≡ record self.old {
              text = laid_after all.ending self.old.text
                  (sides.autolink_closing all one.facts plain prefix.now);
            }) }
    {
        let text = text_left_at(context.checked, index);
        if plain {
            return self.put_encoded(text, true);
        }
        self.put_anchor(context, prefix, text)
    }

    /// Prints a link to a prefix and a text, with that text as its label.
    fn put_anchor(&mut self, context: &Context, prefix: &str, text: &str) -> Result<(), AllocError>
        ensures { OnOk result ((ending : List ℕ) → self.new ≡ record self.old {
          text = laid_after ending self.old.text (anchor context.now.options.now
              (record { destination = prefix.now ++ text.now; title = None })
              (encoded true text.now));
        }) }
    {
        self.put_self_head(context, prefix, text)?;
        self.put_encoded(text, true)?;
        self.put("</a>")
    }

    /// Prints the tag before the label of a link to a prefix and a text.
    fn put_self_head(
        &mut self,
        context: &Context,
        prefix: &str,
        text: &str,
    ) -> Result<(), AllocError>
        ensures { OnOk result (self.new ≡ record self.old {
          text = self.old.text ++ anchor_head context.now.options.now
              (record { destination = prefix.now ++ text.now; title = None });
        }) }
    {
        if prefix.is_empty() {
            let target_ref = TargetRef {
                destination: text,
                title: None,
            };
            return put_anchor_head(&mut self.output, context.options, &target_ref);
        }
        let destination = joined(context.alloc, prefix, text)?;
        let target_ref = TargetRef {
            destination: destination.as_str(),
            title: None,
        };
        put_anchor_head(&mut self.output, context.options, &target_ref)
    }

    /// Leaves a literal autolink, which is plain in a link as well.
    pub(crate) fn leave_literal(
        &mut self,
        context: &Context,
        index: usize,
        prefix: &str,
        name: Name,
    ) -> Result<(), AllocError>
        requires there { ExitsAt context.now.checked.now.events index name }
        requires solid { is_transparent name ≡ false }
        requires plain { marker name ≡ 38 }
        ensures { OnOk result ((all : At.Context) (one : Noticed) → Supplies context.now all
            → IsNoticedAt context.now.checked.now index one → self.new ≡ record self.old {
              text = laid_after all.ending self.old.text (sides.autolink_closing all one.facts
                  (self.old.scope.in_image || self.old.scope.in_link) prefix.now);
              ended = Some name;
              marker = 38;
            }) }
    {
        let plain = self.scope.in_image || self.scope.in_link;
        self.ends(name);
        self.put_autolink(context, index, prefix, plain)
    }
}

/// A prefix and a text, joined.
fn joined(alloc: Global, prefix: &str, text: &str) -> Result<String, AllocError>
    ensures { IfOk result (λ all. string_bytes all ≡ prefix.now ++ text.now) }
{
    let mut all = String::with_capacity(alloc, prefix.len().saturating_add(text.len()))?;
    all.push_str(prefix)?;
    all.push_str(text)?;
    Ok(all)
}
