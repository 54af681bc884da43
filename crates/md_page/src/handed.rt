//! Headings with given ids.

ghost use Rattle.std.specs.Prelude.{◌≡◌, ◌++◌, ℕ, List, IsTrue, IfOk, OnOk, map, string_bytes};
ghost use Rattle.std.specs.Prelude.{◌∷◌, [], ◌<◌, ◌^◌, slice_get, option_copied};
ghost use Rattle.md_text.specs.Html.{written_attributes};
ghost use Rattle.md_text.specs.Ids.{are_distinct};
ghost use Rattle.md_safe.specs.Token.{Token};
ghost use Rattle.md_safe.specs.Tokenizer.{IsTokenized};
ghost use Rattle.md_page.specs.Added.{headings_of};
ghost use Rattle.md_page.specs.Attributed.{IsAttributed};
ghost use Rattle.md_page.specs.Built.{IsBuiltAsWritten};
ghost use Rattle.md_page.specs.GivenIds.{with_given_ids, ids_given};
ghost use Rattle.md_page.specs.Headings.{listed};
ghost use Rattle.md_page.specs.Ids.{ids_among};
ghost use Rattle.md_page.specs.Scan.{with_new, new_given, picks_heading};

use crate::headings::{Heading, headings};
use crate::html::{AttributedHtml, Html};
use crate::scan::{Rule, next_end};
use md_text::push_encoded;
use std::alloc::{AllocError, Global};

/// Returns the headings of a safe text that have no `id`: each with its level, its number and its
/// text.
///
/// # Errors
///
/// Returns an error only if memory runs out.
pub fn list_headings<H: Html>(alloc: Global, html: &H) -> Result<Vec<Heading>, AllocError>
    ensures headings { IfOk result (λ found. (x : List Token) → IsTokenized (H.text html.now) x
        → map listed found.items ≡ headings_of x) }
{
    let found = headings(alloc, html.as_str())?;
    Ok(found)
}

/// Adds an `id` to each heading of a safe text that has none: the given texts in order, escaped. A
/// heading after the last given text gets its number, from 1.
///
/// Nothing else changes: whatever the HTML Standard's tokenizer emits for the input, it emits for
/// the output the same tokens with these attributes added. If the `id`s of the input and those that
/// its headings get all differ, those of the output do. If tree construction builds the input as it
/// is written, it builds the output so.
///
/// # Errors
///
/// Returns an error only if memory runs out.
pub fn with_given_ids<H: Html>(
    alloc: Global,
    html: &H,
    ids: &[String],
) -> Result<AttributedHtml, AllocError>
    ensures tokens { IfOk result (λ after. (x : List Token) → IsTokenized (H.text html.now) x
        → IsTokenized after (with_given_ids (map string_bytes ids.now) x)) }
    ensures distinct { IfOk result (λ after. (x : List Token) → IsTokenized (H.text html.now) x
        → IsTrue (are_distinct (ids_among x ++ ids_given (map string_bytes ids.now) x))
        → IsTrue (are_distinct (ids_among (with_given_ids (map string_bytes ids.now) x)))) }
    ensures attributed { IfOk result (λ after. IsAttributed after) }
    ensures tree { IfOk result
        (λ after. IsBuiltAsWritten (H.text html.now) → IsBuiltAsWritten after) }
{
    let text = with_given(alloc, html.as_str(), ids)?;
    Ok(AttributedHtml::new(text))
}

/// Adds these ids to the headings of a text that have none.
fn with_given(alloc: Global, text: &str, ids: &[String]) -> Result<String, AllocError>
    ensures { IfOk result (λ out. string_bytes out
        ≡ with_new picks_heading (new_given (map string_bytes ids.now)) text.now) }
{
    let mut out = String::with_capacity(alloc, text.len())?;
    let mut rest = text;
    let mut number = 0;
    while let Some(end) = next_end(Rule::Heading, rest.as_bytes()) {
        out.push_str(&rest[..end])?;
        push_given_id(alloc, &mut out, ids, number)?;
        number += 1;
        rest = &rest[end..];
    }
    out.push_str(rest)?;
    Ok(out)
}

/// Appends the `id` of the heading with this number, from 0.
fn push_given_id(
    alloc: Global,
    out: &mut String,
    ids: &[String],
    number: usize,
) -> Result<(), AllocError>
    requires { number < 2 ^ 63 }
    ensures { OnOk result (string_bytes out.new ≡ string_bytes out.old
        ++ written_attributes (new_given (map string_bytes ids.now) number ∷ [])) }
{
    out.push_str(" id=\"")?;
    match id_at(ids, number) {
        Some(id) => push_encoded(out, id, true)?,
        None => push_encoded(out, (number + 1).to_string(alloc)?.as_str(), true)?,
    }
    out.push_str("\"")
}

/// The id for a heading's number, from 0.
fn id_at(ids: &[String], number: usize) -> Option<&str>
    ensures { option_copied result ≡ slice_get (map string_bytes ids.now) number }
{
    match ids.get(number) {
        Some(id) => Some(id.as_str()),
        None => None,
    }
}
