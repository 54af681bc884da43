//! Writes the tags before and after the label of a link or an image.

ghost use Rattle.std.specs.Prelude.{◌≡◌, ◌++◌, OnOk, List, ℕ, option_copied, if◌then◌else◌};
ghost use Rattle.std.specs.Prelude.{unwrap_or, Some, None};
ghost use Rattle.md_meaning.specs.Meaning.Media.{href, src};
ghost use Rattle.md_steps.specs.Steps.{nowhere};
ghost use Rattle.md_buffer.specs.LinkHeads.{anchor_head, picture_head, picture_tail, title_text};

use crate::output::Output;
use crate::target::Target;
use md_base::{SAFE_PROTOCOL_HREF, SAFE_PROTOCOL_SRC};
use md_text::CompileOptions;
use std::alloc::AllocError;
use std::marker::Model;

/// The target of a link or an image, and its title as it is printed, in borrowed texts.
#[derive(Drop)]
pub struct TargetRef<'a> {
    /// The destination, not yet sanitized; empty if there is none.
    pub destination: &'a str,
    /// The title as it is printed, if there is one.
    pub title: Option<&'a str>,
}

impl<'a> Model for TargetRef<'a> {
    ghost use Rattle.std.specs.Prelude.{option_copied};
    ghost use Rattle.md_meaning.specs.Meaning.At as At;

    ghost Value = { At.Target };

    ghost view = { λ l. record { destination = l.destination.now; title = option_copied l.title } };
}

impl<'a> TargetRef<'a> {
    /// The target of the resource if there is one, else of the definition if one was found, else no
    /// target.
    pub fn of(has_resource: bool, resource: &'a Target, found: Option<&'a Target>) -> TargetRef<'a>
        ensures { result ≡ unwrap_or (if has_resource then Some resource.now else None)
            (unwrap_or (option_copied found.entry) nowhere) }
    {
        if has_resource {
            return resource.target_ref();
        }
        match found {
            Some(target) => target.target_ref(),
            None => TargetRef {
                destination: "",
                title: None,
            },
        }
    }
}

/// Writes a link's destination, sanitized.
fn put_href(out: &mut Output, options: &CompileOptions, destination: &str) -> Result<(), AllocError>
    ensures { OnOk result
        (out.new ≡ record out.old { text = out.old.text ++ href options.now destination.now }) }
{
    if options.allow_dangerous_protocol {
        out.put_sanitized(destination)
    } else {
        out.put_sanitized_with_protocols(destination, &SAFE_PROTOCOL_HREF)
    }
}

/// Writes an image's destination, sanitized.
fn put_src(out: &mut Output, options: &CompileOptions, destination: &str) -> Result<(), AllocError>
    ensures { OnOk result
        (out.new ≡ record out.old { text = out.old.text ++ src options.now destination.now }) }
{
    if options.allow_any_img_src || options.allow_dangerous_protocol {
        out.put_sanitized(destination)
    } else {
        out.put_sanitized_with_protocols(destination, &SAFE_PROTOCOL_SRC)
    }
}

/// Writes a title, if there is one.
fn put_title(out: &mut Output, title: Option<&str>) -> Result<(), AllocError>
    ensures { OnOk result (out.new
        ≡ record out.old { text = out.old.text ++ title_text (option_copied title.entry) }) }
{
    match title {
        Some(text) => {
            out.put(" title=\"")?;
            out.put(text)?;
            out.put("\"")
        }
        None => Ok(()),
    }
}

/// Writes the tag before a link's label.
///
/// # Errors
///
/// Returns an error only if memory runs out.
pub fn put_anchor_head(
    out: &mut Output,
    options: &CompileOptions,
    target_ref: &TargetRef,
) -> Result<(), AllocError>
    ensures { OnOk result
        (out.new
        ≡ record out.old { text = out.old.text ++ anchor_head options.now target_ref.now }) }
{
    out.put("<a href=\"")?;
    put_href(out, options, target_ref.destination)?;
    out.put("\"")?;
    put_title(out, target_ref.title)?;
    out.put(">")
}

/// Writes the tag up to an image's alternative text.
fn put_picture_head(
    out: &mut Output,
    options: &CompileOptions,
    destination: &str,
) -> Result<(), AllocError>
    ensures { OnOk result (out.new
        ≡ record out.old { text = out.old.text ++ picture_head options.now destination.now }) }
{
    out.put("<img src=\"")?;
    put_src(out, options, destination)?;
    out.put("\" alt=\"")
}

/// Writes the rest of the tag after an image's alternative text.
///
/// # Errors
///
/// Returns an error only if memory runs out.
pub fn put_picture_tail(out: &mut Output, title: Option<&str>) -> Result<(), AllocError>
    ensures { OnOk result (out.new
        ≡ record out.old { text = out.old.text ++ picture_tail (option_copied title.entry) }) }
{
    out.put("\"")?;
    put_title(out, title)?;
    out.put(" />")
}

/// Inserts the tag before a link's label, which is the innermost text. Uses another text as a
/// buffer.
///
/// # Errors
///
/// Returns an error only if memory runs out.
pub fn put_anchor_before(
    out: &mut Output,
    scratch: &mut String,
    options: &CompileOptions,
    target_ref: &TargetRef,
) -> Result<(), AllocError>
    ensures { OnOk result
        (out.new
        ≡ record out.old { text = anchor_head options.now target_ref.now ++ out.old.text }) }
{
    scratch.clear();
    if out.lift(scratch)? {
        put_anchor_head(out, options, target_ref)?;
        return out.put(scratch.as_str());
    }
    out.capture()?;
    put_anchor_head(out, options, target_ref)?;
    out.move_into(scratch)?;
    out.put_before(scratch.as_str())
}

/// Inserts the tag before an image's alternative text, which is the innermost text. Uses another
/// text as a buffer.
///
/// # Errors
///
/// Returns an error only if memory runs out.
pub fn put_picture_before(
    out: &mut Output,
    scratch: &mut String,
    options: &CompileOptions,
    destination: &str,
) -> Result<(), AllocError>
    ensures { OnOk result (out.new
        ≡ record out.old { text = picture_head options.now destination.now ++ out.old.text }) }
{
    scratch.clear();
    if out.lift(scratch)? {
        put_picture_head(out, options, destination)?;
        return out.put(scratch.as_str());
    }
    out.capture()?;
    put_picture_head(out, options, destination)?;
    out.move_into(scratch)?;
    out.put_before(scratch.as_str())
}
