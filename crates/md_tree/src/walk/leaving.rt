//! Exits nodes.

ghost use Rattle.std.specs.Prelude.{◌≡◌, true};
ghost use Rattle.std.specs.Prelude.{OnOk, reverse};
ghost use Rattle.md_tree.specs.declared.open_nodes.Aim.TheVariants.{Missing};
ghost use Rattle.md_tree.specs.Mentions.{mention_of, mentions_with};
ghost use Rattle.md_tree.specs.Walk.{target_seen, target_of, targets_around};

use super::{Walk, is_plain, refuse};
use crate::input::{Input, place_at};
use crate::judge::{mention_of, read_ended};
use crate::mention::{Mention, Mentioned};
use crate::open_nodes::{Aim, Open};
use crate::rule::{CompileError, Rule};
use md_base::{Event, Name, is_same_name};
use md_pattern::Reading;
use std::alloc::AllocError;

impl Walk {
    ghost use Rattle.std.specs.Prelude.{◌≡◌, ◌<◌, suc, true, Some};
    ghost use Rattle.std.specs.Prelude.{reverse, IfErr, OnOk};
    ghost use Rattle.md_base.specs.declared.event.Kind.TheVariants as kind;
    ghost use Rattle.md_pattern.specs.Steps.{is_complete};
    ghost use Rattle.md_pattern.specs.Places.{state_of};
    ghost use Rattle.md_tree.specs.Machine.{Exits, ExitsWhere};
    ghost use Rattle.md_tree.specs.Walk.{point_at, place_at, outer_of, opens_seen};
    ghost use Rattle.md_tree.specs.Walk.{targets_around, course_of};
    ghost use Rattle.md_tree.specs.Walk.{Unbroken, IsStop, IsStopInside};

    /// Exits the innermost open node.
    #[inline(always)]
    pub(super) fn exit(
        &mut self,
        input: Input,
        index: usize,
        name: Name,
    ) -> Result<(), CompileError>
        ensures ok { OnOk result
            (Exits (Unbroken input.entry.bytes.now input.entry.names.now)
            (course_of input.entry.events.now index self.old).open_nodes name
            (point_at input.entry.events.now index)
            (course_of input.entry.events.now index self.old)
            (course_of input.entry.events.now (suc index) self.new)) }
        ensures refused { IfErr result
            (IsStop input.entry.bytes.now input.entry.names.now index kind.Exit name
            (point_at input.entry.events.now index)
            (course_of input.entry.events.now index self.old)) }
    {
        let Some(open_node) = self.open_nodes.pop() else {
            return refuse(index, Rule::Order);
        };
        if !is_same_name(open_node.name, name) {
            return refuse(index, Rule::Order);
        }
        if open_node.stands {
            self.leave(input, index, &open_node)
        } else {
            Ok(())
        }
    }

    /// Exits a node that has its own spine, which was read so far.
    #[inline(always)]
    fn leave(&mut self, input: Input, index: usize, open_node: &Open) -> Result<(), CompileError>
        ensures ok { OnOk result
            (ExitsWhere (Unbroken input.entry.bytes.now input.entry.names.now)
            (Some (outer_of input.entry.events.now (reverse self.old.targets.items)
            open_node.entry.now)) (point_at input.entry.events.now open_node.entry.now.entry)
            (point_at input.entry.events.now index) (opens_seen input.entry.events.now
            (targets_around open_node.entry.now.aimed (reverse self.old.targets.items))
            self.old.open_nodes.items) (course_of input.entry.events.now index self.old)
            (course_of input.entry.events.now (suc index) self.new)) }
        ensures refused { IfErr result
            (IsStopInside input.entry.bytes.now input.entry.names.now index
            (outer_of input.entry.events.now (reverse self.old.targets.items) open_node.entry.now)
            (place_at input.entry.events.now open_node.entry.now.entry index)
            (course_of input.entry.events.now index self.old)) }
    {
        if !self.place.may_end() {
            return refuse(index, Rule::Order);
        }
        if is_plain(open_node, self.target) {
            self.place = open_node.outer.place;
            self.before = open_node.outer.last;
            return Ok(());
        }
        self.leave_read(input, index, open_node)
    }

    /// The same if something is read of the node, or if it or its parent's spine has a target.
    fn leave_read(
        &mut self,
        input: Input,
        index: usize,
        open_node: &Open,
    ) -> Result<(), CompileError>
        requires { is_complete (state_of self.now.place self.now.before) ≡ true }
        ensures ok { OnOk result
            (ExitsWhere (Unbroken input.entry.bytes.now input.entry.names.now)
            (Some (outer_of input.entry.events.now (reverse self.old.targets.items)
            open_node.entry.now)) (point_at input.entry.events.now open_node.entry.now.entry)
            (point_at input.entry.events.now index) (opens_seen input.entry.events.now
            (targets_around open_node.entry.now.aimed (reverse self.old.targets.items))
            self.old.open_nodes.items) (course_of input.entry.events.now index self.old)
            (course_of input.entry.events.now (suc index) self.new)) }
        ensures refused { IfErr result
            (IsStopInside input.entry.bytes.now input.entry.names.now index
            (outer_of input.entry.events.now (reverse self.old.targets.items) open_node.entry.now)
            (place_at input.entry.events.now open_node.entry.now.entry index)
            (course_of input.entry.events.now index self.old)) }
    {
        let inner = self.target;
        self.target = take_back(open_node.aimed, &mut self.targets);
        if let Some(rule) = read_ended(input, open_node, index, inner, &mut self.target)? {
            return refuse(index, rule);
        }
        let outer = &open_node.outer;
        keep(
            &mut self.mentions,
            input.events,
            index,
            outer.reading,
            inner,
        )?;
        self.place = outer.place;
        self.before = outer.last;
        Ok(())
    }
}

/// The saved target of the parent's spine of a node that ends, if there is one.
fn take_back(aimed: bool, targets: &mut Vec<Aim>) -> Aim
    ensures target { result ≡ target_of aimed (reverse targets.old.items) }
    ensures around { reverse targets.new.items ≡ targets_around aimed (reverse targets.old.items) }
{
    if !aimed {
        return Aim::Missing;
    }
    match targets.pop() {
        Some(target) => target,
        None => Aim::Missing,
    }
}

/// Records the mention of a node that exits at the index, if it has one.
fn keep(
    mentions: &mut Vec<Mentioned>,
    events: &[Event],
    index: usize,
    reading: Reading,
    target: Aim,
) -> Result<(), AllocError>
    ensures { OnOk result (mentions.new.items ≡ mentions_with index
        (mention_of reading (target_seen events.now target)) mentions.old.items) }
{
    let Aim::Label(entry, exit) = target else {
        return Ok(());
    };
    match mention_of(reading, place_at(events, entry, exit)) {
        Mention::Nothing => Ok(()),
        mention => {
            mentions.push(Mentioned { index, mention })?;
            Ok(())
        }
    }
}
