//! Prints headings.

ghost use Rattle.std.specs.Prelude.{◌≡◌, ◌++◌, [], ◌==◌, OnOk, IfSome, Some, None, true, false};
ghost use Rattle.std.specs.Prelude.{if◌then◌else◌, codes, ◌+◌, ◌<◌};
ghost use Rattle.std.specs.Fmt.{decimal};
ghost use Rattle.md_meaning.specs.Meaning.Layout.{laid_after, said, on_own_line};
ghost use Rattle.md_meaning.specs.Meaning.Blocks.{heading_tag};
ghost use Rattle.md_steps.specs.Steps as steps;
ghost use Rattle.md_printer.specs.Parts as parts;
ghost use Rattle.md_base.specs.declared.event.Name.TheVariants as names;
ghost use Rattle.md_meaning.specs.Meaning.Spans.{marker};
ghost use Rattle.md_tree.specs.Texts.{ExitsAt};
ghost use Rattle.md_printer.specs.Supplies.{Leaves};

use crate::context::Context;
use crate::printer::Printer;
use md_base::Name;
use md_facts::place_left_at;
use std::alloc::{AllocError, Global};

impl<'a> Printer<'a> {
    /// Enters a heading of a rank.
    pub(crate) fn enter_heading(&mut self, context: &Context, rank: usize) -> Result<(), AllocError>
        ensures { OnOk result (self.new ≡ record self.old {
          text = laid_after context.now.ending.now self.old.text
              (on_own_line (heading_tag (codes "<h") rank));
          ended = None;
          marker = 38;
        }) }
    {
        self.enters();
        self.need(context.ending)?;
        self.put_heading(context.alloc, "<h", rank)
    }

    /// Prints a heading's tag.
    pub(crate) fn put_heading(
        &mut self,
        alloc: Global,
        begin: &str,
        rank: usize,
    ) -> Result<(), AllocError>
        ensures { OnOk result (self.new ≡ record self.old {
          text = self.old.text ++ heading_tag begin.now rank;
        }) }
    {
        self.put(begin)?;
        match rank_digit(rank) {
            Some(digit) => self.put(digit)?,
            None => self.put(rank.to_string(alloc)?.as_str())?,
        }
        self.put(">")
    }

    /// Leaves a heading of a rank.
    pub(crate) fn leave_heading(&mut self, alloc: Global, rank: usize) -> Result<(), AllocError>
        ensures { OnOk result (self.new ≡ record self.old {
          text = self.old.text ++ heading_tag (codes "</h") rank;
          ended = Some names.HeadingAtx;
          marker = 38;
        }) }
    {
        self.ends(Name::HeadingAtx);
        self.put_heading(alloc, "</h", rank)
    }

    /// Leaves a setext heading's text, which is stored until its underline decides its rank.
    pub(crate) fn leave_setext_text(&mut self) -> Result<(), AllocError>
        ensures { OnOk result (self.new ≡ record self.old {
          text = steps.first_or [] self.old.below;
          below = steps.others_of self.old.below;
          slurps = if self.old.scope.in_definition then self.old.slurps else true;
          ended = Some names.HeadingSetextText;
          marker = 38;
          heading = self.old.text;
        }) }
    {
        self.ends_slurping(Name::HeadingSetextText);
        self.heading.clear();
        self.output.move_into(&mut self.heading)
    }

    /// Leaves a setext heading's underline, which decides the rank of the heading before it.
    pub(crate) fn leave_underline(
        &mut self,
        context: &Context,
        index: usize,
    ) -> Result<(), AllocError>
        requires { ExitsAt context.now.checked.now.events index
            names.HeadingSetextUnderlineSequence }
        ensures { OnOk result
            (Leaves context.now index names.HeadingSetextUnderlineSequence self.old self.new) }
    {
        let place = place_left_at(context.checked, index);
        self.ends(Name::HeadingSetextUnderlineSequence);
        self.put_setext(
            context.ending,
            is_dash_at(context.checked.bytes(), place.start.index),
        )
    }

    /// Prints a setext heading.
    fn put_setext(&mut self, ending: &str, dashed: bool) -> Result<(), AllocError>
        ensures { OnOk result (self.new ≡ record self.old {
          text = laid_after ending.now self.old.text
              (on_own_line (heading_tag (codes "<h") (if dashed then 2 else 1))
              ++ (said self.old.heading
              ++ said (heading_tag (codes "</h") (if dashed then 2 else 1))));
        }) }
    {
        self.line(ending, setext_start(dashed))?;
        self.output.put(self.heading.as_str())?;
        self.put(setext_end(dashed))
    }
}

/// The digit of a heading's rank.
fn rank_digit(rank: usize) -> Option<&'static str>
    ensures { IfSome result (λ digits. digits.now ≡ decimal rank) }
{
    match rank {
        1 => Some("1"),
        2 => Some("2"),
        3 => Some("3"),
        4 => Some("4"),
        5 => Some("5"),
        6 => Some("6"),
        _ => None,
    }
}

/// Whether there is a dash at an index.
fn is_dash_at(bytes: &[u8], index: usize) -> bool
    ensures { result ≡ parts.is_dash_at bytes.now index }
{
    match bytes.get(index) {
        Some(byte) => *byte == b'-',
        None => false,
    }
}

/// The start tag of a setext heading.
fn setext_start(dashed: bool) -> &'static str
    ensures { result.now ≡ heading_tag (codes "<h") (if dashed then 2 else 1) }
{
    if dashed { "<h2>" } else { "<h1>" }
}

/// The end tag of a setext heading.
fn setext_end(dashed: bool) -> &'static str
    ensures { result.now ≡ heading_tag (codes "</h") (if dashed then 2 else 1) }
{
    if dashed { "</h2>" } else { "</h1>" }
}
