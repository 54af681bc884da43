//! Headings with an `id`.

ghost use Rattle.std.specs.Prelude.{ℕ, List, IsTrue, map};
ghost use Rattle.md_safe.specs.Token.{Token};
ghost use Rattle.md_safe.specs.Tokenizer.{IsTokenized};
ghost use Rattle.md_page.specs.Added.{shown, with_heading_ids, headings_of};
ghost use Rattle.md_page.specs.Attributed.{IsAttributed};
ghost use Rattle.md_page.specs.Built.{IsBuiltAsWritten};
ghost use Rattle.md_page.specs.Headings.{listed};
ghost use Rattle.md_page.specs.Ids.{ids_among, none_begins};
ghost use Rattle.std.specs.Prelude.{◌≡◌, ◌++◌, ◌∷◌, [], IfOk, OnOk, string_bytes, codes, true};
ghost use Rattle.std.specs.Fmt.{decimal};
ghost use Rattle.md_text.specs.Encode.{encoded};
ghost use Rattle.md_text.specs.Ids.{are_distinct};
ghost use Rattle.md_page.specs.Scan.{with_new, new_id, picks_heading, scanned_headings};

use crate::headings::{Heading, headings};
use crate::html::{AttributedHtml, Html};
use crate::scan::{Rule, next_end};
use md_text::push_encoded;
use std::alloc::{AllocError, Global};

/// A text whose headings have ids, and these headings.
#[derive(Drop)]
pub struct WithHeadingIds {
    /// The text.
    pub html: AttributedHtml,
    /// The headings that got an `id`, in order.
    pub headings: Vec<Heading>,
}

/// Adds an `id` to each heading of a safe text that has none, and lists these headings.
///
/// Each start tag from `h1` to `h6` without an `id` gets one as its last attribute: `prefix`,
/// escaped, and the heading's number, from 1. Nothing else changes: whatever the HTML Standard's
/// tokenizer emits for the input, it emits for the output the same tokens with these attributes
/// added. The headings are listed with their level, their number and their text: the characters up
/// to their end tag, escaped.
///
/// If the `id`s of the input all differ, and none begins with `prefix`, those of the output all
/// differ. If tree construction builds the input as it is written, it builds the output so.
///
/// # Errors
///
/// Returns an error only if memory runs out.
///
/// # Examples
///
/// ```
/// // Of the safe text `<h2>a <em>b</em></h2>`:
/// let answer = with_heading_ids(alloc, &html, "section-")?;
/// assert_eq!(answer.html.as_str(), "<h2 id=\"section-1\">a <em>b</em></h2>");
/// // `answer.headings` has one, of level 2, number 1 and text `a b`.
/// ```
pub fn with_heading_ids<H: Html>(
    alloc: Global,
    html: &H,
    prefix: &str,
) -> Result<WithHeadingIds, AllocError>
    ensures tokens { IfOk result (λ after. (x : List Token) → IsTokenized (H.text html.now) x
        → IsTokenized after.html (with_heading_ids prefix.now x)) }
    ensures headings { IfOk result (λ after. (x : List Token) → IsTokenized (H.text html.now) x
        → map listed after.headings.items ≡ headings_of x) }
    ensures distinct { IfOk result (λ after. (x : List Token) → IsTokenized (H.text html.now) x →
        IsTrue (are_distinct (ids_among x)) → IsTrue (none_begins (shown prefix.now) (ids_among x))
        → IsTrue (are_distinct (ids_among (with_heading_ids prefix.now x)))) }
    ensures attributed { IfOk result (λ after. IsAttributed after.html) }
    ensures tree { IfOk result
        (λ after. IsBuiltAsWritten (H.text html.now) → IsBuiltAsWritten after.html) }
{
    let headings = headings(alloc, html.as_str())?;
    let text = with_ids_of(alloc, html.as_str(), prefix, headings.as_slice())?;
    let html = AttributedHtml::new(text);
    Ok(WithHeadingIds { html, headings })
}

/// Adds ids to these headings of a text, which are all that have none.
fn with_ids_of(
    alloc: Global,
    text: &str,
    prefix: &str,
    headings: &[Heading],
) -> Result<String, AllocError>
    requires { map listed headings.now ≡ scanned_headings 0 text.now }
    ensures { IfOk result
        (λ out. string_bytes out ≡ with_new picks_heading (new_id prefix.now) text.now) }
{
    if headings.is_empty() {
        return String::from_str(alloc, text);
    }
    with_ids(alloc, text, prefix)
}

/// Adds an `id` to each heading of a text that has none.
pub(crate) fn with_ids(alloc: Global, text: &str, prefix: &str) -> Result<String, AllocError>
    ensures { IfOk result
        (λ out. string_bytes out ≡ with_new picks_heading (new_id prefix.now) text.now) }
{
    let start = id_start(alloc, prefix)?;
    let mut out = String::with_capacity(alloc, text.len())?;
    let mut rest = text;
    let mut number = 0;
    while let Some(end) = next_end(Rule::Heading, rest.as_bytes()) {
        out.push_str(&rest[..end])?;
        number += 1;
        push_heading_id(alloc, &mut out, start.as_str(), number)?;
        rest = &rest[end..];
    }
    out.push_str(rest)?;
    Ok(out)
}

/// A space, and an `id` up to the end of its prefix, which is escaped.
fn id_start(alloc: Global, prefix: &str) -> Result<String, AllocError>
    ensures { IfOk result
        (λ start. string_bytes start ≡ codes " id=\"" ++ encoded true prefix.now) }
{
    let mut start = String::from_str(alloc, " id=\"")?;
    push_encoded(&mut start, prefix, true)?;
    Ok(start)
}

/// Appends an `id` that begins so and ends with this number.
fn push_heading_id(
    alloc: Global,
    out: &mut String,
    start: &str,
    number: usize,
) -> Result<(), AllocError>
    ensures { OnOk result (string_bytes out.new
        ≡ string_bytes out.old ++ (start.now ++ (decimal number ++ (34 ∷ [])))) }
{
    out.push_str(start)?;
    out.push_str(number.to_string(alloc)?.as_str())?;
    out.push_str("\"")
}
