//! Iterates over the events.

ghost use Rattle.std.specs.Prelude.{◌≡◌, ◌≤◌, ◌<◌, ◌-◌, ◌^◌, IfOk, Some, length, slice_get};
ghost use Rattle.md_meaning.specs.Meaning.At as At;
ghost use Rattle.md_steps.specs.Steps.{is_passed};
ghost use Rattle.md_printer.specs.Supplies.{Supplies};
ghost use Rattle.md_html.specs.Stepping.{Few, Steps, IsLeaf, Goes};

use md_base::{Event, Kind, Name};
use md_facts::{inside_at, is_leaf_among};
use md_printer::{Context, Printer};
use md_tree::Checked;
use std::alloc::AllocError;
use std::ops::Range;

/// Prints the events from one index up to another, and returns the index of the next one: a
/// definition that begins before the end is skipped whole.
///
/// # Errors
///
/// Returns an error only if memory runs out.
pub(crate) fn run_events<'a>(
    printer: &mut Printer<'a>,
    context: &Context<'a>,
    from: usize,
    to: usize,
) -> Result<usize, AllocError>
    requires supplied { (at : At.Context) × Supplies context.now at }
    requires few { Few from printer.old }
    requires within { to ≤ length context.now.checked.now.events }
    ensures far { IfOk result (λ next. to ≤ next) }
    ensures goes { IfOk result (λ next. Goes context.now from next to printer.old printer.new) }
{
    let events = context.checked.events();
    let mut index = from;
    while index < to {
        let event = events[index];
        if leaf(printer, context, events, index..to, event)? {
            index += 2;
        } else {
            let more = step(printer, context, index, event)?;
            index += 1 + more;
        }
    }
    Ok(index)
}

/// Prints a node without children, if the first of the remaining events enters it and its name is
/// frequent; returns whether it did.
#[inline(always)]
fn leaf<'a>(
    printer: &mut Printer<'a>,
    context: &Context<'a>,
    events: &[Event],
    rest: Range<usize>,
    event: Event,
) -> Result<bool, AllocError>
    requires among { events.now ≡ context.now.checked.now.events }
    requires there { slice_get context.now.checked.now.events rest.start ≡ Some event }
    requires before { rest.start < rest.end }
    ensures { IfOk result (IsLeaf context.now rest.start rest.end event printer.old printer.new) }
{
    match event.kind {
        Kind::Enter => {
            let index = rest.start;
            if index + 1 < rest.end && is_leaf_among(context.checked, events, index) {
                printer.leaf(context, index, index + 1, event.name)
            } else {
                Ok(false)
            }
        }
        Kind::Exit => Ok(false),
    }
}

/// Handles one event; returns how many events after it are skipped.
#[inline(always)]
fn step<'a>(
    printer: &mut Printer<'a>,
    context: &Context<'a>,
    index: usize,
    event: Event,
) -> Result<usize, AllocError>
    requires there { slice_get context.now.checked.now.events index ≡ Some event }
    requires few { Few (2 ^ 63 - 1) printer.old }
    ensures { IfOk result (λ more. Steps context.now index event more printer.old printer.new) }
{
    match event.kind {
        Kind::Enter if is_passed_over(event.name) => {
            printer.pass_definition();
            Ok(inside_at(context.checked, index))
        }
        Kind::Enter => {
            printer.enter(context, index, event.name)?;
            Ok(0)
        }
        Kind::Exit => {
            printer.exit(context, index, event.name)?;
            Ok(0)
        }
    }
}

/// Whether it is a definition, which is printed before all else.
#[inline(always)]
fn is_passed_over(name: Name) -> bool
    ensures { result ≡ is_passed name }
{
    matches!(name, Name::Definition)
}
