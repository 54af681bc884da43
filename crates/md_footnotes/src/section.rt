//! The section of footnotes at the end of a document.

ghost use Rattle.std.specs.Prelude.{◌≡◌, ◌∷◌, [], ◌++◌, codes, OnOk, string_bytes};
ghost use Rattle.std.specs.List.{flat_map};
ghost use Rattle.md_meaning.specs.Meaning.Layout.{laid_after, Text, Needed, Forced, on_own_line};
ghost use Rattle.md_meaning.specs.Meaning.Footnotes as meaning;
ghost use Rattle.md_footnotes.specs.Seen.{context_by};
ghost use Rattle.md_footnotes.specs.Words as words;

use crate::body::push_body;
use crate::called::{Called, Settings};
use crate::calls::Calls;
use crate::ids::{push_id, push_option};
use crate::lines::need;
use crate::notes::Notes;
use md_text::CompileOptions;
use std::alloc::AllocError;

/// Appends the beginning of a footnote, up to its text.
fn push_item_start(settings: &Settings, out: &mut String, called: &Called) -> Result<(), AllocError>
    ensures { OnOk result
        (string_bytes out.new ≡ laid_after settings.now.ending.now (string_bytes out.old)
        (Forced ∷ Text (codes "<li id=\"")
        ∷ Text (meaning.id_of settings.now.options.now (codes "fn-") called.now.identifier.now
        called.now.number) ∷ Text (codes "\">") ∷ Forced ∷ [])) }
{
    out.push_str(settings.ending)?;
    out.push_str("<li id=\"")?;
    push_id(settings.alloc, out, settings.options, "fn-", called)?;
    out.push_str("\">")?;
    out.push_str(settings.ending)
}

/// Appends the end of a footnote.
fn push_item_end(out: &mut String, ending: &str) -> Result<(), AllocError>
    ensures { OnOk result (string_bytes out.new
        ≡ laid_after ending.now (string_bytes out.old) (on_own_line (codes "</li>"))) }
{
    need(out, ending)?;
    out.push_str("</li>")
}

/// Appends a footnote, its text and its backreferences.
fn push_item(
    settings: &Settings,
    out: &mut String,
    called: &Called,
    text: &str,
) -> Result<(), AllocError>
    ensures { OnOk result
        (string_bytes out.new ≡ laid_after settings.now.ending.now (string_bytes out.old)
        (words.item_of settings.now.options.now called.now.identifier.now
        called.now.number called.now.count
        text.now)) }
{
    push_item_start(settings, out, called)?;
    push_body(settings, out, called, text)?;
    push_item_end(out, settings.ending)
}

/// Appends the footnotes that are called, in the order of their first calls.
fn push_items(
    settings: &Settings,
    out: &mut String,
    calls: &Calls,
    notes: &Notes,
) -> Result<(), AllocError>
    ensures { OnOk result
        (string_bytes out.new ≡ laid_after settings.now.ending.now (string_bytes out.old)
        (flat_map (meaning.item (context_by settings.now.options.now calls.now) notes.now)
        (meaning.distinct calls.now))) }
{
    let mut index = 0;
    while let Some(called) = calls.at(index) {
        push_item(settings, out, &called, notes.text_of(called.identifier))?;
        index += 1;
    }
    Ok(())
}

/// Appends the tag name of the section's heading.
fn push_tag(out: &mut String, options: &CompileOptions) -> Result<(), AllocError>
    ensures { OnOk result
        (string_bytes out.new ≡ string_bytes out.old ++ words.tag_of options.now) }
{
    push_option(out, &options.gfm_footnote_label_tag_name, "h2")
}

/// Appends the text of the section's heading.
fn push_heading(out: &mut String, options: &CompileOptions) -> Result<(), AllocError>
    ensures { OnOk result
        (string_bytes out.new ≡ string_bytes out.old ++ words.heading_of options.now) }
{
    push_option(out, &options.gfm_footnote_label, "Footnotes")
}

/// The attributes of the section's heading.
fn attributes_of(options: &CompileOptions) -> &str
    ensures { result.now ≡ words.attributes_of options.now }
{
    match &options.gfm_footnote_label_attributes {
        Some(attributes) => attributes.as_str(),
        None => "class=\"sr-only\"",
    }
}

/// Appends the section's tag and the opening tag of its heading.
fn push_heading_start(settings: &Settings, out: &mut String) -> Result<(), AllocError>
    ensures { OnOk result
        (string_bytes out.new ≡ laid_after settings.now.ending.now (string_bytes out.old)
        (Needed ∷ Text (codes "<section data-footnotes=\"\" class=\"footnotes\"><")
        ∷ Text (words.tag_of settings.now.options.now) ∷ Text (codes " id=\"footnote-label\" ")
        ∷ Text (words.attributes_of settings.now.options.now) ∷ Text (codes ">") ∷ [])) }
{
    need(out, settings.ending)?;
    out.push_str("<section data-footnotes=\"\" class=\"footnotes\"><")?;
    push_tag(out, settings.options)?;
    out.push_str(" id=\"footnote-label\" ")?;
    out.push_str(attributes_of(settings.options))?;
    out.push_str(">")
}

/// Appends the closing tag of the section's heading and the list's tag.
fn push_heading_end(settings: &Settings, out: &mut String) -> Result<(), AllocError>
    ensures { OnOk result
        (string_bytes out.new ≡ laid_after settings.now.ending.now (string_bytes out.old)
        (Text (codes "</") ∷ Text (words.tag_of settings.now.options.now) ∷ Text (codes ">")
        ∷ Forced ∷ Text (codes "<ol>") ∷ [])) }
{
    out.push_str("</")?;
    push_tag(out, settings.options)?;
    out.push_str(">")?;
    out.push_str(settings.ending)?;
    out.push_str("<ol>")
}

/// Appends the beginning of the section, up to its footnotes.
fn push_start(settings: &Settings, out: &mut String) -> Result<(), AllocError>
    ensures { OnOk result
        (string_bytes out.new ≡ laid_after settings.now.ending.now (string_bytes out.old)
        (meaning.section_start settings.now.options.now)) }
{
    push_heading_start(settings, out)?;
    push_heading(out, settings.options)?;
    push_heading_end(settings, out)
}

/// Appends the end of the section.
fn push_end(out: &mut String, ending: &str) -> Result<(), AllocError>
    ensures { OnOk result (string_bytes out.new ≡ laid_after ending.now (string_bytes out.old)
        (Forced ∷ Text (codes "</ol>") ∷ Forced ∷ Text (codes "</section>") ∷ Forced ∷ [])) }
{
    out.push_str(ending)?;
    out.push_str("</ol>")?;
    out.push_str(ending)?;
    out.push_str("</section>")?;
    out.push_str(ending)
}

/// Appends the section of footnotes, if there is a call: the footnotes that are called, in the
/// order of their first calls.
///
/// # Errors
///
/// Returns an error only if memory runs out.
pub(crate) fn push_section(
    settings: &Settings,
    out: &mut String,
    calls: &Calls,
    notes: &Notes,
) -> Result<(), AllocError>
    ensures { OnOk result
        (string_bytes out.new ≡ laid_after settings.now.ending.now (string_bytes out.old)
        (meaning.section (context_by settings.now.options.now calls.now) notes.now)) }
{
    if calls.is_empty() {
        return Ok(());
    }
    push_start(settings, out)?;
    push_items(settings, out, calls, notes)?;
    push_end(out, settings.ending)
}
