//! Writes the tags of a call.

ghost use Rattle.std.specs.Prelude.{◌≡◌, ◌∷◌, [], codes, OnOk, string_bytes};
ghost use Rattle.std.specs.Fmt.{decimal};
ghost use Rattle.md_meaning.specs.Meaning.Layout.{laid_after, Text};
ghost use Rattle.md_meaning.specs.Meaning.Footnotes as meaning;
ghost use Rattle.md_footnotes.specs.Words.{tags};

use crate::called::Called;
use crate::decimal::push_decimal;
use crate::ids::{push_call_id, push_id};
use md_text::CompileOptions;
use std::alloc::{AllocError, Global};

/// Appends the beginning of a call, with its ids.
fn push_ids(
    alloc: Global,
    out: &mut String,
    options: &CompileOptions,
    called: &Called,
    occurrence: usize,
) -> Result<(), AllocError>
    ensures { OnOk result (string_bytes out.new
        ≡ laid_after [] (string_bytes out.old) (Text (codes "<sup><a href=\"#")
        ∷ Text (meaning.id_of options.now (codes "fn-") called.now.identifier.now called.now.number)
        ∷ Text (codes "\" id=\"")
        ∷ Text (meaning.call_id options.now called.now.identifier.now called.now.number occurrence)
        ∷ [])) }
{
    out.push_str("<sup><a href=\"#")?;
    push_id(alloc, out, options, "fn-", called)?;
    out.push_str("\" id=\"")?;
    push_call_id(alloc, out, options, called, occurrence)
}

/// Appends the rest of a call, with its number.
fn push_number(alloc: Global, out: &mut String, number: usize) -> Result<(), AllocError>
    ensures { OnOk result (string_bytes out.new ≡ laid_after [] (string_bytes out.old)
        (Text (codes "\" data-footnote-ref=\"\" aria-describedby=\"footnote-label\">")
        ∷ Text (decimal number) ∷ Text (codes "</a></sup>") ∷ [])) }
{
    out.push_str("\" data-footnote-ref=\"\" aria-describedby=\"footnote-label\">")?;
    push_decimal(alloc, out, number)?;
    out.push_str("</a></sup>")
}

/// Appends a call of a footnote, by its occurrence from 1 among its calls.
///
/// # Errors
///
/// Returns an error only if memory runs out.
pub(crate) fn push_tags(
    alloc: Global,
    out: &mut String,
    options: &CompileOptions,
    called: &Called,
    occurrence: usize,
) -> Result<(), AllocError>
    ensures { OnOk result (string_bytes out.new ≡ laid_after [] (string_bytes out.old)
        (tags options.now called.now.identifier.now called.now.number occurrence)) }
{
    push_ids(alloc, out, options, called, occurrence)?;
    push_number(alloc, out, called.number)
}
