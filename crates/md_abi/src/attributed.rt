//! Compiles C's input to a text whose tags have attributes, and lists the headings that got one.

ghost use Rattle.std.specs.Prelude.{◌≡◌, ◌++◌, ◌∷◌, [], ℕ, List, IfOk, IfErr, OnOk, map, length};
ghost use Rattle.std.specs.Prelude.{option_copied, string_bytes, take};
ghost use Rattle.std.specs.Fmt.{decimal};
ghost use Rattle.md_tree.specs.Grammar.{handed};
ghost use Rattle.md_safe.specs.Options.{KeepsImages};
ghost use Rattle.md_safe.specs.Token.{Token};
ghost use Rattle.md_safe.specs.Tokenizer.{IsTokenized};
ghost use Rattle.md_page.specs.Built.{IsBuiltAsWritten};
ghost use Rattle.md_page.specs.Headings.{listed};
ghost use Rattle.md_html.specs.Promises.{Promises};
ghost use Rattle.md_abi.specs.Attributes.{heading_line, listing, with_rel};
ghost use Rattle.md_abi.specs.Attributed.{IsAttributedText, IsListedAfter};
ghost use Rattle.md_abi.specs.Refusals.{ExplainsRefusal, IsRefusalFor};

use crate::attributes::{CAttributes, read_attribute};
use crate::event::read_c_events;
use crate::given::CDocument;
use crate::option::read_options;
use crate::reference::read_references;
use crate::refusal::Refusal;
use md_base::Event;
use md_html::{SafeHtml, compile_safe};
use md_page::{Heading, Html, with_heading_ids, with_link_rel};
use md_text::CompileOptions;
use std::alloc::{AllocError, Global};

/// A text, and after it the list of its headings.
#[derive(Drop)]
pub struct Attributed {
    /// Both, in this order.
    pub whole: String,
    /// The length of the text in bytes: the list begins after them.
    pub start: usize,
}

/// Compiles C's input to HTML with the requested attributes, and lists the headings that got an
/// `id`.
///
/// # Errors
///
/// Reports what is invalid, that the options aren't safe, the refusal of the compiler, or that
/// memory ran out.
pub fn compile_attributed(
    alloc: Global,
    given: CDocument,
    attributes: &CAttributes,
) -> Result<Attributed, Refusal>
    ensures ok { IfOk result (λ made.
        IsAttributedText given.entry.events.now given.entry.bytes.now given.entry.options.now
        given.entry.names.now attributes.now made.start (string_bytes made.whole)) }
    ensures err { IfErr result (ExplainsRefusal given.entry.events.now given.entry.bytes.now
        given.entry.options.now given.entry.names.now attributes.now) }
{
    let events = read_c_events(alloc, given.events)?;
    let names = read_references(alloc, given.names)?;
    let options = read_options(alloc, given.options)?;
    let rel = read_attribute(&attributes.rel, 0)?;
    let prefix = read_attribute(&attributes.heading_ids, 1)?;
    let html = compile_read_safely(
        alloc,
        events.as_slice(),
        given.bytes,
        &options,
        names.as_slice(),
    )?;
    let made = add_asked(alloc, &html, rel, prefix)?;
    Ok(made)
}

/// Compiles the converted input to safe HTML.
fn compile_read_safely(
    alloc: Global,
    events: &[Event],
    bytes: &[u8],
    options: &CompileOptions,
    names: &[(&str, &str)],
) -> Result<SafeHtml, Refusal>
    ensures safe { OnOk result (KeepsImages options.now) }
    ensures ok { IfOk result (Promises options.now (handed events.now bytes.now names.now)) }
    ensures err { IfErr result (IsRefusalFor (handed events.now bytes.now names.now) options.now) }
{
    let html = compile_safe(alloc, events, bytes, options, names)?;
    // The call brings the promises about the text into the proof.
    let _text = html.as_str();
    Ok(html)
}

/// Adds the requested attributes to a text, and appends the headings that got an `id`.
///
/// # Errors
///
/// Returns an error only if memory runs out.
pub fn add_asked<H: Html>(
    alloc: Global,
    html: &H,
    rel: Option<&str>,
    prefix: Option<&str>,
) -> Result<Attributed, AllocError>
    ensures listed { IfOk result (λ made. (x : List Token) → IsTokenized (H.text html.now) x
        → IsListedAfter (option_copied prefix.entry) (with_rel (option_copied rel.entry) x)
        made.start (string_bytes made.whole)) }
    ensures tree { IfOk result (λ made. IsBuiltAsWritten (H.text html.now)
        → IsBuiltAsWritten (take made.start (string_bytes made.whole))) }
{
    match rel {
        Some(rel) => add_ids(alloc, &with_link_rel(alloc, html, rel)?, prefix),
        None => add_ids(alloc, html, prefix),
    }
}

/// Adds ids to the headings of a text, if a prefix is given, and appends these headings.
fn add_ids<H: Html>(alloc: Global, html: &H, prefix: Option<&str>) -> Result<Attributed, AllocError>
    ensures listed { IfOk result (λ made. (x : List Token) → IsTokenized (H.text html.now) x
        → IsListedAfter (option_copied prefix.entry) x made.start (string_bytes made.whole)) }
    ensures tree { IfOk result (λ made. IsBuiltAsWritten (H.text html.now)
        → IsBuiltAsWritten (take made.start (string_bytes made.whole))) }
{
    match prefix {
        Some(prefix) => {
            let after = with_heading_ids(alloc, html, prefix)?;
            with_list(alloc, Html::as_str(&after.html), after.headings.as_slice())
        }
        None => with_list(alloc, html.as_str(), &[]),
    }
}

/// A text, and after it a list of headings.
///
/// # Errors
///
/// Returns an error only if memory runs out.
pub fn with_list(alloc: Global, text: &str, headings: &[Heading]) -> Result<Attributed, AllocError>
    ensures whole { IfOk result
        (λ made. string_bytes made.whole ≡ text.now ++ listing (map listed headings.now)) }
    ensures start { IfOk result (λ made. made.start ≡ length text.now) }
{
    let mut whole = String::from_str(alloc, text)?;
    for heading in headings {
        push_heading_line(alloc, &mut whole, heading)?;
    }
    let start = text.len();
    Ok(Attributed { whole, start })
}

/// Appends a heading to the list.
fn push_heading_line(alloc: Global, whole: &mut String, heading: &Heading) -> Result<(), AllocError>
    ensures { OnOk result
        (string_bytes whole.new ≡ string_bytes whole.old ++ heading_line (listed heading.now)) }
{
    whole.push_str("\0")?;
    whole.push_str(heading.level.to_string(alloc)?.as_str())?;
    whole.push_str(" ")?;
    whole.push_str(heading.number.to_string(alloc)?.as_str())?;
    whole.push_str(" ")?;
    whole.push_str(heading.text.as_str())
}
