//! The ids of footnotes and of their calls, and the texts of options.

ghost use Rattle.std.specs.Prelude.{◌≡◌, ◌==◌, ◌&&◌, not, [], ◌++◌, if◌then◌else◌, codes, OnOk};
ghost use Rattle.std.specs.Prelude.{string_bytes, option_map};
ghost use Rattle.std.specs.Fmt.{decimal};
ghost use Rattle.md_text.specs.Url.{sanitized};
ghost use Rattle.md_meaning.specs.Meaning.Footnotes as meaning;

use crate::called::Called;
use crate::decimal::push_decimal;
use md_text::{CompileOptions, push_encoded, push_sanitized};
use std::alloc::{AllocError, Global};

/// Appends the text of an option, escaped, or its default.
///
/// # Errors
///
/// Returns an error only if memory runs out.
pub(crate) fn push_option(
    out: &mut String,
    given: &Option<String>,
    unset: &str,
) -> Result<(), AllocError>
    ensures { OnOk result (string_bytes out.new
        ≡ string_bytes out.old ++ meaning.option_or (option_map string_bytes given.now) unset.now) }
{
    match given {
        Some(text) => push_encoded(out, text.as_str(), true),
        None => out.push_str(unset),
    }
}

/// Appends the part that distinguishes an id: the footnote's number if ids are by number, else its
/// identifier as a URL.
fn push_name(
    alloc: Global,
    out: &mut String,
    options: &CompileOptions,
    called: &Called,
) -> Result<(), AllocError>
    ensures { OnOk result (string_bytes out.new ≡ string_bytes out.old
        ++ (if options.now.gfm_footnote_number_ids then decimal called.now.number
        else sanitized called.now.identifier.now)) }
{
    if options.gfm_footnote_number_ids {
        push_decimal(alloc, out, called.number)
    } else {
        push_sanitized(out, called.identifier)
    }
}

/// Appends an id: the prefix, the kind of id, and the part that distinguishes it.
///
/// # Errors
///
/// Returns an error only if memory runs out.
pub(crate) fn push_id(
    alloc: Global,
    out: &mut String,
    options: &CompileOptions,
    kind: &str,
    called: &Called,
) -> Result<(), AllocError>
    ensures { OnOk result (string_bytes out.new ≡ string_bytes out.old
        ++ meaning.id_of options.now kind.now called.now.identifier.now called.now.number) }
{
    push_option(out, &options.gfm_footnote_clobber_prefix, "user-content-")?;
    out.push_str(kind)?;
    push_name(alloc, out, options, called)
}

/// Appends `-` and the call's number among those of its footnote; if ids are by identifier, nothing
/// for the first call.
fn push_occurrence(
    alloc: Global,
    out: &mut String,
    options: &CompileOptions,
    occurrence: usize,
) -> Result<(), AllocError>
    ensures { OnOk result (string_bytes out.new ≡ string_bytes out.old
        ++ (if not options.now.gfm_footnote_number_ids && occurrence == 1 then []
        else codes "-" ++ decimal occurrence)) }
{
    if !options.gfm_footnote_number_ids && occurrence == 1 {
        return Ok(());
    }
    out.push_str("-")?;
    push_decimal(alloc, out, occurrence)
}

/// Appends the id of one of a footnote's calls, by its occurrence from 1.
///
/// # Errors
///
/// Returns an error only if memory runs out.
pub(crate) fn push_call_id(
    alloc: Global,
    out: &mut String,
    options: &CompileOptions,
    called: &Called,
    occurrence: usize,
) -> Result<(), AllocError>
    ensures { OnOk result (string_bytes out.new ≡ string_bytes out.old
        ++ meaning.call_id options.now called.now.identifier.now called.now.number occurrence) }
{
    push_id(alloc, out, options, "fnref-", called)?;
    push_occurrence(alloc, out, options, occurrence)
}
