//! Backreferences from a footnote to its calls.

ghost use Rattle.std.specs.Prelude.{◌≡◌, ◌∷◌, [], ◌++◌, ◌==◌, codes, OnOk, string_bytes};
ghost use Rattle.std.specs.Prelude.{if◌then◌else◌};
ghost use Rattle.std.specs.Fmt.{decimal};
ghost use Rattle.md_meaning.specs.Meaning.Footnotes as meaning;
ghost use Rattle.md_footnotes.specs.Words as words;

use crate::called::Called;
use crate::decimal::push_decimal;
use crate::ids::{push_call_id, push_option};
use md_text::CompileOptions;
use std::alloc::{AllocError, Global};

/// Appends `<sup>` occurrence `</sup>`, from the second occurrence on.
fn push_mark(alloc: Global, out: &mut String, occurrence: usize) -> Result<(), AllocError>
    ensures { OnOk result (string_bytes out.new ≡ string_bytes out.old ++ (if occurrence == 1
        then [] else codes "<sup>" ++ (decimal occurrence ++ codes "</sup>"))) }
{
    if occurrence == 1 {
        return Ok(());
    }
    out.push_str("<sup>")?;
    push_decimal(alloc, out, occurrence)?;
    out.push_str("</sup>")
}

/// Appends the beginning of a backreference to a call, up to its label.
fn push_href(
    alloc: Global,
    out: &mut String,
    options: &CompileOptions,
    called: &Called,
    occurrence: usize,
) -> Result<(), AllocError>
    ensures { OnOk result (string_bytes out.new ≡ string_bytes out.old
        ++ (codes "<a href=\"#"
        ++ (meaning.call_id options.now called.now.identifier.now called.now.number occurrence
        ++ codes "\" data-footnote-backref=\"\" aria-label=\""))) }
{
    out.push_str("<a href=\"#")?;
    push_call_id(alloc, out, options, called, occurrence)?;
    out.push_str("\" data-footnote-backref=\"\" aria-label=\"")
}

/// Appends the label of a backreference.
fn push_label(out: &mut String, options: &CompileOptions) -> Result<(), AllocError>
    ensures { OnOk result
        (string_bytes out.new ≡ string_bytes out.old ++ words.label_of options.now) }
{
    push_option(out, &options.gfm_footnote_back_label, "Back to content")
}

/// Appends the rest of a backreference, from the end of its label.
fn push_arrow(alloc: Global, out: &mut String, occurrence: usize) -> Result<(), AllocError>
    ensures { OnOk result (string_bytes out.new ≡ string_bytes out.old
        ++ (codes "\" class=\"data-footnote-backref\">" ++ ((226 ∷ 134 ∷ 169 ∷ [])
        ++ ((if occurrence == 1 then []
        else codes "<sup>" ++ (decimal occurrence ++ codes "</sup>")) ++ codes "</a>")))) }
{
    out.push_str("\" class=\"data-footnote-backref\">")?;
    out.push_str("\u{21A9}")?;
    push_mark(alloc, out, occurrence)?;
    out.push_str("</a>")
}

/// Appends the backreference to a call.
fn push_backreference(
    alloc: Global,
    out: &mut String,
    options: &CompileOptions,
    called: &Called,
    occurrence: usize,
) -> Result<(), AllocError>
    ensures { OnOk result (string_bytes out.new ≡ string_bytes out.old
        ++ meaning.backreference options.now called.now.identifier.now
        called.now.number occurrence) }
{
    push_href(alloc, out, options, called, occurrence)?;
    push_label(out, options)?;
    push_arrow(alloc, out, occurrence)
}

/// Appends a space, except before the first backreference.
fn push_space(out: &mut String, done: usize) -> Result<(), AllocError>
    ensures { OnOk result
        (string_bytes out.new ≡ string_bytes out.old ++ (if done == 0 then [] else codes " ")) }
{
    if done == 0 { Ok(()) } else { out.push_str(" ") }
}

/// Appends the backreferences from a footnote to its calls, separated by single spaces.
///
/// # Errors
///
/// Returns an error only if memory runs out.
pub(crate) fn push_backreferences(
    alloc: Global,
    out: &mut String,
    options: &CompileOptions,
    called: &Called,
) -> Result<(), AllocError>
    ensures { OnOk result (string_bytes out.new ≡ string_bytes out.old
        ++ meaning.backreferences options.now called.now.identifier.now
        called.now.number called.now.count) }
{
    let mut done = 0;
    while done < called.count {
        push_space(out, done)?;
        done += 1;
        push_backreference(alloc, out, options, called, done)?;
    }
    Ok(())
}
