//! Compiles events to HTML, if it doesn't exceed a limit.

ghost use Rattle.std.specs.Prelude.{◌≡◌, IfOk, true, false};
ghost use Rattle.md_meaning.specs.Meaning.At as At;
ghost use Rattle.md_steps.specs.Steps.{beginning};
ghost use Rattle.md_printer.specs.Supplies.{Supplies};
ghost use Rattle.md_html.specs.Printed.{IsAnswer, IsMeant, IsPrinted, IsPrintedOver};
ghost use Rattle.md_html.specs.Printed.{IsRun, IsRunOver};
ghost use Rattle.md_html.specs.Within.{IsLonger};

use crate::definitions::targets;
use crate::ending::ending_of;
use crate::running::run_events;
use md_printer::{Context, Printer};
use md_steps::laws::steps_print_what_is_meant;
use md_text::CompileOptions;
use md_tree::Checked;
use std::alloc::{AllocError, Global};

/// The number of events between two checks whether the text is too long.
const AT_ONCE: usize = 16;

/// Compiles events that have passed the check to HTML, or returns None if it exceeds a limit.
/// Printing stops as soon as no text is captured and the printed text exceeds the limit.
///
/// # Errors
///
/// `AllocError`, only if memory runs out.
///
/// # Examples
///
/// ```
/// let checked = check(alloc, &events, bytes, names)?;
/// match render_within(alloc, &checked, &CompileOptions::default(), 1 << 20)? {
///     Some(html) => out.write_all(html.as_bytes()),
///     None => out.write_all(b"too long"),
/// }
/// ```
pub fn render_within(
    alloc: Global,
    checked: &Checked,
    options: &CompileOptions,
    limit: usize,
) -> Result<Option<String>, AllocError>
    ensures { IfOk result (IsAnswer (IsMeant options.now checked.now)
        (IsLonger options.now checked.now limit) limit) }
{
    steps_print_what_is_meant();
    let ending = ending_of(checked, options);
    let alone = Context {
        alloc,
        checked,
        options,
        ending,
        definitions: &[],
    };
    let definitions = targets(&alone)?;
    let context = Context {
        alloc,
        checked,
        options,
        ending,
        definitions: definitions.as_slice(),
    };
    print_within(&context, limit)
}

/// The text of all events and of the footnotes' section, if it doesn't exceed a limit.
fn print_within(context: &Context, limit: usize) -> Result<Option<String>, AllocError>
    requires supplied { (at : At.Context) × Supplies context.now at }
    ensures { IfOk result
        (IsAnswer (IsPrinted context.now) (IsPrintedOver context.now limit) limit) }
{
    let mut printer = Printer::new(context.alloc);
    printer.reserve(context.checked.bytes().len());
    let ran = run_events_within(&mut printer, context, limit);
    // This consumes the printer before the run's result is examined, so that no path has to drop
    // its many parts.
    let text = printer.into_text(context.alloc, context.options, context.ending)?;
    let is_whole = ran?;
    if is_whole && text.len() <= limit {
        Ok(Some(text))
    } else {
        Ok(None)
    }
}

/// Prints all events, until the text certainly exceeds a limit; returns whether all were printed.
fn run_events_within<'a>(
    printer: &mut Printer<'a>,
    context: &Context<'a>,
    limit: usize,
) -> Result<bool, AllocError>
    requires supplied { (at : At.Context) × Supplies context.now at }
    requires new { printer.old ≡ beginning }
    ensures whole { IfOk result (λ whole. whole ≡ true → IsRun context.now printer.new) }
    ensures too_long { IfOk result (λ whole. whole ≡ false → IsRunOver context.now limit) }
{
    let count = context.checked.events().len();
    let mut index = 0;
    while index < count {
        let to = count.min(index.saturating_add(AT_ONCE));
        index = run_events(printer, context, index, to)?;
        if printer.is_longer(limit) {
            return Ok(false);
        }
    }
    Ok(true)
}
