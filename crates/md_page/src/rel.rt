//! Links with a `rel`.

ghost use Rattle.std.specs.Prelude.{ℕ, List};
ghost use Rattle.md_safe.specs.Token.{Token};
ghost use Rattle.md_safe.specs.Tokenizer.{IsTokenized};
ghost use Rattle.md_page.specs.Added.{with_link_rel};
ghost use Rattle.md_page.specs.Attributed.{IsAttributed};
ghost use Rattle.md_page.specs.Built.{IsBuiltAsWritten};
ghost use Rattle.std.specs.Prelude.{◌≡◌, ◌++◌, ◌∷◌, [], IfOk, OnOk, string_bytes};
ghost use Rattle.md_text.specs.Html.{written_attributes};
ghost use Rattle.md_page.specs.Scan.{with_new, new_rel, picks_link};

use crate::html::{AttributedHtml, Html};
use crate::scan::{Rule, next_end};
use md_text::push_encoded;
use std::alloc::{AllocError, Global};

/// Adds a `rel` to each link of a safe text that leaves the page.
///
/// Each start tag `a` whose `href` isn't empty and doesn't begin with `#`, and which has no `rel`,
/// gets `rel` with this text, escaped, as its last attribute. Nothing else changes: whatever the
/// HTML Standard's tokenizer emits for the input, it emits for the output the same tokens with
/// these attributes added. If tree construction builds the input as it is written, it builds the
/// output so.
///
/// # Errors
///
/// Returns an error only if memory runs out.
///
/// # Examples
///
/// ```
/// // Of the safe text `<p><a href="https://example.com">a</a></p>`:
/// let comment = with_link_rel(alloc, &html, "nofollow ugc")?;
/// let led = "<p><a href=\"https://example.com\" rel=\"nofollow ugc\">a</a></p>";
/// assert_eq!(comment.as_str(), led);
/// ```
pub fn with_link_rel<H: Html>(
    alloc: Global,
    html: &H,
    rel: &str,
) -> Result<AttributedHtml, AllocError>
    ensures tokens { IfOk result (λ after. (x : List Token) → IsTokenized (H.text html.now) x
        → IsTokenized after (with_link_rel rel.now x)) }
    ensures attributed { IfOk result (λ after. IsAttributed after) }
    ensures tree { IfOk result
        (λ after. IsBuiltAsWritten (H.text html.now) → IsBuiltAsWritten after) }
{
    let text = with_rel(alloc, html.as_str(), rel)?;
    Ok(AttributedHtml::new(text))
}

/// Adds a `rel` to each link that leaves the page and has none.
pub(crate) fn with_rel(alloc: Global, text: &str, rel: &str) -> Result<String, AllocError>
    ensures { IfOk result
        (λ out. string_bytes out ≡ with_new picks_link (new_rel rel.now) text.now) }
{
    if next_end(Rule::Link, text.as_bytes()).is_none() {
        return String::from_str(alloc, text);
    }
    with_rels(alloc, text, rel)
}

/// The same, if there usually is such a link.
fn with_rels(alloc: Global, text: &str, rel: &str) -> Result<String, AllocError>
    ensures { IfOk result
        (λ out. string_bytes out ≡ with_new picks_link (new_rel rel.now) text.now) }
{
    let attribute = rel_attribute(alloc, rel)?;
    let mut out = String::with_capacity(alloc, text.len())?;
    let mut rest = text;
    while let Some(end) = next_end(Rule::Link, rest.as_bytes()) {
        out.push_str(&rest[..end])?;
        out.push_str(attribute.as_str())?;
        rest = &rest[end..];
    }
    out.push_str(rest)?;
    Ok(out)
}

/// A space and the attribute `rel` with this text, escaped.
fn rel_attribute(alloc: Global, rel: &str) -> Result<String, AllocError>
    ensures { IfOk result
        (λ attribute. string_bytes attribute ≡ written_attributes (new_rel rel.now 0 ∷ [])) }
{
    let mut attribute = String::from_str(alloc, " rel=\"")?;
    push_encoded(&mut attribute, rel, true)?;
    attribute.push_str("\"")?;
    Ok(attribute)
}
