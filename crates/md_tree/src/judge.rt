//! The rules that are checked when a node ends.

ghost use Rattle.std.specs.Prelude.{◌≡◌, None, List};
ghost use Rattle.std.specs.Prelude.{IfOk};
ghost use Rattle.md_tree.specs.Rules.{unless};
ghost use Rattle.md_tree.specs.Rules.{broken_rule, target_at};
ghost use Rattle.md_pattern.specs.Places.{state_of};
ghost use Rattle.md_tree.specs.Mentions.{mention_of};
ghost use Rattle.md_tree.specs.Walk.{point_at, place_at, target_seen};
ghost use Rattle.md_base.specs.declared.event.Event.{Event};
ghost use Rattle.md_tree.specs.declared.mention.Referral.TheVariants.{Label, Missing};
ghost use Rattle.md_tree.specs.declared.rule.Rule.TheVariants as rule;

mod broken;

use self::broken::{
    broken_ending, broken_identifier, broken_mark, broken_number, broken_target, broken_text,
    broken_underline, broken_value,
};
use crate::input::{Input, place_at, point_at, text_of};
use crate::mention::Mention;
use crate::open_nodes::{Aim, Open, Outer};
use crate::rule::Rule;
use md_base::Position;
use md_pattern::{Reading, SpineState, Symbol};
use md_text::LineEnding;
use std::alloc::AllocError;

/// The rule, unless its condition holds.
pub fn rule_unless(condition: bool, rule: Rule) -> Option<Rule>
    ensures { result ≡ unless condition rule }
{
    if condition { None } else { Some(rule) }
}

/// The mention of a node that has a label.
pub fn mention_of(reading: Reading, label: Position) -> Mention
    ensures { result ≡ mention_of reading (Label label) }
{
    match reading {
        Reading::Media => Mention::Reference(label),
        Reading::Call => Mention::Call(label),
        Reading::Definition => Mention::Definition(label),
        Reading::FootnoteDefinition => Mention::FootnoteDefinition(label),
        _ => Mention::Nothing,
    }
}

/// The position of a node in the grammar, and what is read of it.
#[derive(Clone, Copy)]
pub struct Spot {
    /// The place on its parent's spine.
    pub around: SpineState,
    /// The symbol before it.
    pub before: Option<Symbol>,
    /// What is read of it.
    pub reading: Reading,
    /// The index of the event that enters it.
    pub entry: usize,
    /// The index of the event that exits it.
    pub exit: usize,
}

/// Reads a node without children, and updates the target of its parent's spine. Returns the rule
/// that the node breaks, if any.
///
/// # Errors
///
/// `AllocError`, only if memory runs out.
#[inline(always)]
pub fn read_node(
    input: Input,
    outer: &Outer,
    entry: usize,
    exit: usize,
    target: &mut Aim,
) -> Result<Option<Rule>, AllocError>
    ensures broken { IfOk result
        (λ broken. broken ≡ broken_rule input.entry.bytes.now input.entry.names.now
        outer.entry.now.reading (state_of outer.entry.now.place None).role outer.entry.now.before
        (point_at input.entry.events.now entry) (point_at input.entry.events.now exit) Missing) }
    ensures target { (events : List Event)
        → target_seen events target.new ≡ target_at outer.entry.now.reading
        (target_seen events target.old) Missing (place_at events entry exit) }
{
    // Most nodes are read by one of these arms; a call reads the others.
    match outer.reading {
        Reading::Free => Ok(None),
        Reading::Text => Ok(broken_text(text_of(input, entry, exit))),
        Reading::LineEnding => Ok(broken_ending(text_of(input, entry, exit))),
        _ => read_rest(input, outer, entry, exit, target),
    }
}

/// The same by a call. It builds its arguments here, so that other nodes don't write them to
/// memory.
///
/// # Errors
///
/// `AllocError`, only if memory runs out.
#[inline(always)]
fn read_rest(
    input: Input,
    outer: &Outer,
    entry: usize,
    exit: usize,
    target: &mut Aim,
) -> Result<Option<Rule>, AllocError>
    ensures broken { IfOk result
        (λ broken. broken ≡ broken_rule input.entry.bytes.now input.entry.names.now
        outer.entry.now.reading (state_of outer.entry.now.place None).role outer.entry.now.before
        (point_at input.entry.events.now entry) (point_at input.entry.events.now exit) Missing) }
    ensures target { (events : List Event)
        → target_seen events target.new ≡ target_at outer.entry.now.reading
        (target_seen events target.old) Missing (place_at events entry exit) }
{
    let spot = Spot {
        around: outer.place,
        before: outer.before,
        reading: outer.reading,
        entry,
        exit,
    };
    read_other(input, spot, Aim::Missing, target)
}

/// Reads a node that was open and ends at an index, likewise; `inner` is its own target.
///
/// # Errors
///
/// `AllocError`, only if memory runs out.
#[inline(always)]
pub fn read_ended(
    input: Input,
    open_node: &Open,
    exit: usize,
    inner: Aim,
    target: &mut Aim,
) -> Result<Option<Rule>, AllocError>
    ensures broken { IfOk result
        (λ broken. broken ≡ broken_rule input.entry.bytes.now input.entry.names.now
        open_node.entry.now.outer.reading (state_of open_node.entry.now.outer.place None).role
        open_node.entry.now.outer.before (point_at input.entry.events.now open_node.entry.now.entry)
        (point_at input.entry.events.now exit) (target_seen input.entry.events.now inner)) }
    ensures target { (events : List Event)
        → target_seen events target.new ≡ target_at open_node.entry.now.outer.reading
        (target_seen events target.old) (target_seen events inner)
        (place_at events open_node.entry.now.entry exit) }
{
    // One of these arms reads most nodes that have children.
    match open_node.outer.reading {
        Reading::Holder => {
            *target = inner;
            Ok(None)
        }
        Reading::Identifier => {
            *target = Aim::Label(open_node.entry, exit);
            Ok(broken_identifier(input, open_node.entry, exit))
        }
        Reading::Resource => {
            *target = Aim::Resource;
            Ok(None)
        }
        Reading::Media => Ok(broken_target(inner)),
        Reading::Free | Reading::Call | Reading::Definition | Reading::FootnoteDefinition => {
            Ok(None)
        }
        _ => read_other(input, spot_of(open_node, exit), inner, target),
    }
}

/// The position in the grammar of a node that ends at an index, and what is read of it.
#[inline(always)]
fn spot_of(open_node: &Open, exit: usize) -> Spot
    ensures { result ≡ record {
      around = open_node.now.outer.place;
      before = open_node.now.outer.before;
      reading = open_node.now.outer.reading;
      entry = open_node.now.entry;
      exit = exit;
    } }
{
    Spot {
        around: open_node.outer.place,
        before: open_node.outer.before,
        reading: open_node.outer.reading,
        entry: open_node.entry,
        exit,
    }
}

/// Reads any node.
///
/// # Errors
///
/// `AllocError`, only if memory runs out.
#[inline(never)]
fn read_other(
    input: Input,
    spot: Spot,
    inner: Aim,
    target: &mut Aim,
) -> Result<Option<Rule>, AllocError>
    ensures broken { IfOk result
        (λ broken. broken ≡ broken_rule input.entry.bytes.now input.entry.names.now
        spot.reading (state_of spot.around None).role spot.before
        (point_at input.entry.events.now spot.entry)
        (point_at input.entry.events.now spot.exit) (target_seen input.entry.events.now inner)) }
    ensures target { (events : List Event)
        → target_seen events target.new ≡ target_at spot.reading (target_seen events target.old)
        (target_seen events inner) (place_at events spot.entry spot.exit) }
{
    let Spot {
        around,
        before,
        reading,
        entry,
        exit,
    } = spot;
    let bytes = input.bytes.bytes();
    let rule = match reading {
        Reading::Text => broken_text(text_of(input, entry, exit)),
        Reading::LineEnding => broken_ending(text_of(input, entry, exit)),
        Reading::Number => broken_number(around.role(), before, text_of(input, entry, exit)),
        Reading::Value => broken_value(input, before, text_of(input, entry, exit))?,
        Reading::Mark => broken_mark(input, around.role(), before, entry, exit),
        Reading::Underline => broken_underline(bytes, point_at(input.events, entry)),
        Reading::Identifier => {
            *target = Aim::Label(entry, exit);
            broken_identifier(input, entry, exit)
        }
        Reading::Media => broken_target(inner),
        Reading::Holder => {
            *target = inner;
            None
        }
        Reading::Resource => {
            *target = Aim::Resource;
            None
        }
        Reading::Free | Reading::Call | Reading::Definition | Reading::FootnoteDefinition => None,
    };
    Ok(rule)
}
