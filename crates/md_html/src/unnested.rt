//! Safe texts of documents in which no link contains a link: a browser builds for them the tree of
//! their reading.

ghost use Rattle.std.specs.Prelude.{◌≡◌, ◌<◌, ◌^◌, OnOk, IfOk, IfErr, false};
ghost use Rattle.md_base.specs.Tree.{Forest, flatten};
ghost use Rattle.md_tree.specs.Grammar.{IsChecked, handed};
ghost use Rattle.md_tree.specs.Refusal.{IsRefusal};
ghost use Rattle.md_safe.specs.Links.{has_nested_link};
ghost use Rattle.md_safe.specs.Built.{IsBuiltAsRead};
ghost use Rattle.md_safe.specs.Options.{KeepsImages};
ghost use Rattle.md_html.specs.Promises.{SafePromises};
ghost use Rattle.md_html.specs.Safe.{IsRefusedFor, OfCompile};
ghost use Rattle.md_html.specs.Unnested.{AreUnnested, AreNested, OfSafe, OfNested};

use crate::safe_html::{SafeError, SafeHtml, compile_safe};
use md_base::Event;
use md_measure::Links;
use md_text::CompileOptions;
use std::alloc::Global;
use std::fmt;
use thiserror::Error;

/// Why there is no safe text of a document in which no link contains a link.
#[derive(Debug, PartialEq, Eq, Drop, Error)]
pub enum UnnestedError {
    /// A link contains a link.
    Nested,
    /// There is no safe text.
    Safe(SafeError),
}

impl fmt::Display for UnnestedError {
    ghost use Rattle.std.specs.Prelude.{Some};
    ghost use Rattle.md_html.specs.Unnested.{unnested_line};

    ghost output = { λ error. Some (unnested_line error) };

    fn fmt<W: fmt::Write>(&self, f: &mut fmt::Formatter<W>) -> fmt::Result {
        match self {
            UnnestedError::Nested => write!(f, "a link in a link"),
            UnnestedError::Safe(error) => write!(f, "{error}"),
        }
    }
}

impl From<SafeError> for UnnestedError {
    ghost use Rattle.std.specs.Prelude.{◌≡◌};
    ghost use Rattle.md_html.specs.declared.unnested.UnnestedError.TheVariants.{Safe};

    ghost from_gives = { λ cause error. error ≡ Safe cause };

    fn from(error: SafeError) -> UnnestedError {
        UnnestedError::Safe(error)
    }
}

/// Compiles a list of Markdown events to HTML, as [`compile_safe`] does, if no link contains a
/// link. So wherever flow content may be inserted, the HTML Standard's tree construction builds the
/// tree of the text's reading.
///
/// # Errors
///
/// [`UnnestedError::Nested`] exactly if [`compile_safe`] returns a text and a link contains a link,
/// as [`has_nested_link`] reports; else the error of [`compile_safe`], out of memory too.
///
/// # Examples
///
/// ```
/// let html = compile_unnested(alloc, &events, bytes, &CompileOptions::gfm(), names)?;
/// ```
pub fn compile_unnested(
    alloc: Global,
    events: &[Event],
    bytes: &[u8],
    options: &CompileOptions,
    names: &[(&str, &str)],
) -> Result<SafeHtml, UnnestedError>
    ensures unnested { OnOk result (AreUnnested events.now) }
    ensures tree { IfOk result (λ html. IsBuiltAsRead html) }
    ensures promises { IfOk result (λ html.
        SafePromises options.now (handed events.now bytes.now names.now) html) }

    ensures nested { IfErr result (OfNested (AreNested events.now)) }
    ensures nested_safe { IfErr result (OfNested (KeepsImages options.now)) }
    ensures nested_grammatical { IfErr result
        (OfNested (IsChecked (handed events.now bytes.now names.now))) }
    ensures options { IfErr result (OfSafe (IsRefusedFor options.now)) }
    ensures refused { IfErr result
        (OfSafe (OfCompile (IsRefusal (handed events.now bytes.now names.now)))) }
{
    let html = compile_safe(alloc, events, bytes, options, names)?;
    if has_nested_link(events) {
        return Err(UnnestedError::Nested);
    }
    Ok(html)
}

/// Whether a link contains a link in the document that a list of events flattens, and neither is in
/// an image. Calls of footnotes are links too, and so are autolinks, except literal ones.
///
/// # Examples
///
/// ```
/// if has_nested_link(&events) {
///     // A browser closes the outer link where the inner one begins.
/// }
/// ```
pub fn has_nested_link(events: &[Event]) -> bool
    ensures { (document : Forest) → flatten document ≡ events.now
        → result ≡ has_nested_link false document }
{
    let mut links = Links::new();
    let mut rest = events;
    while let Some((event, following)) = rest.split_first() {
        links.note(event);
        rest = following;
    }
    links.nested
}
