//! Compiles events to HTML.

ghost use Rattle.std.specs.Prelude.{IfOk, string_bytes};
ghost use Rattle.md_meaning.specs.Meaning.At as At;
ghost use Rattle.md_printer.specs.Supplies.{Supplies};
ghost use Rattle.md_html.specs.Printed.{IsMeant, IsPrinted};

use crate::definitions::targets;
use crate::ending::ending_of;
use crate::running::run_events;
use md_printer::{Context, Printer};
use md_steps::laws::steps_print_what_is_meant;
use md_text::CompileOptions;
use md_tree::Checked;
use std::alloc::{AllocError, Global};

/// Compiles events that have passed the check to HTML: the meaning of their document.
///
/// # Errors
///
/// `AllocError`, only if memory runs out.
///
/// # Examples
///
/// ```
/// let checked = check(alloc, &events, bytes, names)?;
/// let html = render(alloc, &checked, &CompileOptions::default())?;
/// ```
pub fn render(
    alloc: Global,
    checked: &Checked,
    options: &CompileOptions,
) -> Result<String, AllocError>
    ensures meaning { IfOk result (λ text. IsMeant options.now checked.now (string_bytes text)) }
{
    steps_print_what_is_meant();
    let ending = ending_of(checked, options);
    let alone = Context {
        alloc,
        checked,
        options,
        ending,
        definitions: &[],
    };
    let definitions = targets(&alone)?;
    let context = Context {
        alloc,
        checked,
        options,
        ending,
        definitions: definitions.as_slice(),
    };
    print(&context)
}

/// The text of all events and of the footnotes' section.
fn print(context: &Context) -> Result<String, AllocError>
    requires supplied { (at : At.Context) × Supplies context.now at }
    ensures { IfOk result (λ text. IsPrinted context.now (string_bytes text)) }
{
    let mut printer = Printer::new(context.alloc);
    printer.reserve(context.checked.bytes().len());
    let ran = run_events(&mut printer, context, 0, context.checked.events().len());
    // This consumes the printer before the run's error is returned, so that no path has to drop its
    // many parts.
    let text = printer.into_text(context.alloc, context.options, context.ending)?;
    ran?;
    Ok(text)
}
