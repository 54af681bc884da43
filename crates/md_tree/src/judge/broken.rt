//! Finds the rule that a node's text breaks.

ghost use Rattle.std.specs.Prelude.{◌≡◌, ◌&&◌, None, List, length, nat_lt, nat_le, is_some};
ghost use Rattle.std.specs.Prelude.{option_copied, IfOk, if◌then◌else◌};
ghost use Rattle.md_base.specs.Place.{fits, label_between};
ghost use Rattle.md_base.specs.Reference.{is_number, decoded};
ghost use Rattle.md_tree.specs.Rules.{is_line_ending, is_decodable, is_list_number, is_rank};
ghost use Rattle.md_tree.specs.Rules.{marker_after, columns, unless, broken_by, broken_by_target};
ghost use Rattle.md_tree.specs.Walk.{point_at, place_at, target_seen};
ghost use Rattle.md_base.specs.declared.event.Event.{Event};
ghost use Rattle.md_tree.specs.declared.mention.Referral.TheVariants.{Label, Missing};
ghost use Rattle.md_tree.specs.declared.rule.Rule.TheVariants as rule;

use super::rule_unless;
use crate::input::{Input, place_at, point_at};
use crate::open_nodes::Aim;
use crate::rule::Rule;
use md_base::{Point, Slice};
use md_pattern::{Role, SpineState, Symbol};
use md_text::LineEnding;
use std::alloc::AllocError;

/// Checks that a position has text.
#[inline(always)]
pub(super) fn broken_text(text: Option<&str>) -> Option<Rule>
    ensures { result ≡ broken_by (option_copied text.entry) (λ _. None) }
{
    match text {
        None => Some(Rule::Place),
        Some(_) => None,
    }
}

/// Checks the text of a line ending.
#[inline(always)]
pub(super) fn broken_ending(text: Option<&str>) -> Option<Rule>
    ensures { result
        ≡ broken_by (option_copied text.entry) (λ t. unless (is_line_ending t) rule.LineEnding) }
{
    match text {
        None => Some(Rule::Place),
        Some(text) => rule_unless(is_ending(text), Rule::LineEnding),
    }
}

/// Whether a text is a line ending.
fn is_ending(text: &str) -> bool
    ensures { result ≡ is_line_ending text.now }
{
    text.parse::<LineEnding>().is_ok()
}

/// Checks the value of an item, which must be a number in the first item of an ordered list.
#[inline(always)]
pub(super) fn broken_number(
    around: Role,
    before: Option<Symbol>,
    text: Option<&str>,
) -> Option<Rule>
    ensures { result ≡ broken_by (option_copied text.entry)
        (λ t. unless (is_list_number around before t) rule.ListNumber) }
{
    match text {
        None => Some(Rule::Place),
        Some(text) => rule_unless(is_list_number(around, before, text), Rule::ListNumber),
    }
}

/// Whether a text is the number that a node with this role requires after a symbol.
fn is_list_number(around: Role, before: Option<Symbol>, text: &str) -> bool
    ensures { result ≡ is_list_number around before text.now }
{
    match (around, before) {
        (Role::FirstOrderedPrefix, None) => is_decimal(text),
        _ => true,
    }
}

/// Whether a text is one or more ASCII digits whose number fits a `u32`.
fn is_decimal(text: &str) -> bool
    ensures { result ≡ is_number 10 text.now }
{
    // `from_str_radix` accepts a plus sign, which a list's number can't have.
    if text.starts_with('+') {
        return false;
    }
    u32::from_str_radix(text, 10).is_ok()
}

/// Checks the value of a character reference.
#[inline(always)]
pub(super) fn broken_value(
    input: Input,
    before: Option<Symbol>,
    text: Option<&str>,
) -> Result<Option<Rule>, AllocError>
    ensures { IfOk result
        (λ broken. broken ≡ broken_by (option_copied text.entry)
        (λ t. unless (is_decodable input.entry.names.now before t)
        rule.CharacterReference)) }
{
    let Some(text) = text else {
        return Ok(Some(Rule::Place));
    };
    let Some(marker) = marker(before) else {
        return Ok(None);
    };
    let decodes = is_decodable(input, marker, text)?;
    Ok(rule_unless(decodes, Rule::CharacterReference))
}

/// Whether the value of a character reference with this marker decodes to a text.
fn is_decodable(input: Input, marker: u8, value: &str) -> Result<bool, AllocError>
    ensures { IfOk result
        (λ decodes.
        decodes ≡ is_some (decoded input.entry.names.now marker value.now)) }
{
    let text = input.names.decode(input.alloc, value, marker)?;
    Ok(text.is_some())
}

/// The marker of the reference whose value follows a symbol, if the symbol is one of its marks.
fn marker(before: Option<Symbol>) -> Option<u8>
    ensures { result ≡ marker_after before }
{
    match before {
        Some(Symbol::ReferenceMarker) => Some(b'&'),
        Some(Symbol::ReferenceNumeric) => Some(b'#'),
        Some(Symbol::ReferenceHexadecimal) => Some(b'x'),
        _ => None,
    }
}

/// Checks a mark of a heading that is entered and exited at two indices: the first one gives its
/// rank.
#[inline(always)]
pub(super) fn broken_mark(
    input: Input,
    around: Role,
    before: Option<Symbol>,
    entry: usize,
    exit: usize,
) -> Option<Rule>
    ensures { (start end : Point) → start ≡ point_at input.entry.events.now entry
        → end ≡ point_at input.entry.events.now exit
        → result ≡ (if fits input.entry.bytes.now start end
        then unless (is_rank around before (columns start end)) rule.HeadingMark
        else Some rule.Place) }
{
    let position = place_at(input.events, entry, exit);
    match Slice::from_position(input.bytes.bytes(), &position) {
        None => Some(Rule::Place),
        Some(slice) => rule_unless(is_rank(around, before, slice.len()), Rule::HeadingMark),
    }
}

/// Checks the node, entered and exited at two indices, that has the identifier of a link, an image,
/// a footnote call or a definition.
#[inline(always)]
pub(super) fn broken_identifier(input: Input, entry: usize, exit: usize) -> Option<Rule>
    ensures { result
        ≡ broken_by (label_between input.entry.bytes.now (point_at input.entry.events.now entry)
        (point_at input.entry.events.now exit)) (λ _. None) }
{
    let position = place_at(input.events, entry, exit);
    broken_text(input.bytes.label_at(&position))
}

/// Whether a mark of this length may occur in a node with this role, after a symbol.
fn is_rank(around: Role, before: Option<Symbol>, length: usize) -> bool
    ensures { result ≡ is_rank around before length }
{
    match (around, before) {
        (Role::Heading, None) => is_heading_rank(length),
        _ => true,
    }
}

/// Whether this is a valid rank of headings.
fn is_heading_rank(rank: usize) -> bool
    ensures { result ≡ (nat_le 1 rank && nat_le rank 6) }
{
    1 <= rank && rank <= 6
}

/// Checks the first byte of an underline.
#[inline(always)]
pub(super) fn broken_underline(bytes: &[u8], start: Point) -> Option<Rule>
    ensures { result ≡ unless (nat_lt start.index (length bytes.now)) rule.Place }
{
    rule_unless(start.index < bytes.len(), Rule::Place)
}

/// Checks the target of a link or an image.
pub(super) fn broken_target(target: Aim) -> Option<Rule>
    ensures { (events : List Event) → result ≡ broken_by_target (target_seen events target) }
{
    match target {
        Aim::Missing => Some(Rule::Target),
        Aim::Resource | Aim::Label(_, _) => None,
    }
}
