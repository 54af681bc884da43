//! The targets of definitions, each printed only from its own events.

ghost use Rattle.std.specs.Prelude.{IfOk};
ghost use Rattle.md_base.specs.declared.event.Name.TheVariants as name;
ghost use Rattle.md_meaning.specs.Meaning.At as At;
ghost use Rattle.md_tree.specs.Texts.{EntersAt};
ghost use Rattle.md_printer.specs.Supplies.{Supplies};
ghost use Rattle.md_html.specs.Printed.{AreTargets, IsTargetAt};

use crate::running::run_events;
use md_base::Name;
use md_facts::inside_at;
use md_printer::{Context, Printer, Target};
use std::alloc::AllocError;

/// Returns the targets of the document's definitions, in the order of their exits.
///
/// # Errors
///
/// Returns an error only if memory runs out.
pub(crate) fn targets(context: &Context) -> Result<Vec<Target>, AllocError>
    requires supplied { (at : At.Context) × Supplies context.now at }
    ensures { IfOk result (λ targets. AreTargets context.now targets.items) }
{
    let mut printer = Printer::new(context.alloc);
    let targets = gathered(&mut printer, context);
    drop(printer);
    targets
}

/// The same, with one printer for all definitions.
fn gathered<'a>(printer: &mut Printer<'a>, context: &Context<'a>) -> Result<Vec<Target>, AllocError>
    requires supplied { (at : At.Context) × Supplies context.now at }
    ensures { IfOk result (λ targets. AreTargets context.now targets.items) }
{
    let _events = context.checked.events();
    let mut targets = Vec::new(context.alloc);
    let entries = context.checked.definitions();
    for entry in entries {
        let target = target_at(printer, context, *entry)?;
        targets.push(target)?;
    }
    Ok(targets)
}

/// The target of the definition that is entered at an index: enters it, and prints its own events,
/// except its exit.
fn target_at<'a>(
    printer: &mut Printer<'a>,
    context: &Context<'a>,
    index: usize,
) -> Result<Target, AllocError>
    requires supplied { (at : At.Context) × Supplies context.now at }
    requires enters { EntersAt context.now.checked.now.events index name.Definition }
    ensures { IfOk result (λ target. IsTargetAt context.now index target) }
{
    let _events = context.checked.events();
    printer.restart(context.alloc);
    printer.enter(context, index, Name::Definition)?;
    let inside = inside_at(context.checked, index);
    run_events(printer, context, index + 1, index + inside)?;
    printer.target(context.alloc)
}
