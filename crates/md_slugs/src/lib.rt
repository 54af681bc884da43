//! Ids of headings that are derived from the headings' texts.
#![tactic(auto)]

mod chosen;
mod free;
mod slugging;

ghost use Rattle.std.specs.Prelude.{◌≡◌, ℕ, List, IsTrue, IfOk, true, false, map, length};
ghost use Rattle.std.specs.Prelude.{string_bytes};
ghost use Rattle.md_text.specs.Encode.{encoded};
ghost use Rattle.md_text.specs.Ids.{are_distinct};
ghost use Rattle.md_safe.specs.Token.{Token};
ghost use Rattle.md_safe.specs.Tokenizer.{IsTokenized};
ghost use Rattle.md_page.specs.Added.{headings_of};
ghost use Rattle.md_page.specs.Attributed.{IsAttributed};
ghost use Rattle.md_page.specs.Built.{IsBuiltAsWritten};
ghost use Rattle.md_page.specs.GivenIds.{is_among, with_given_ids, written_id};
ghost use Rattle.md_page.specs.Headings.{listed};
ghost use Rattle.md_page.specs.Ids.{ids_among};

use chosen::choose;
use md_page::{AttributedHtml, Heading, Html, list_headings, list_ids, with_given_ids};
pub use slugging::slug;
use std::alloc::{AllocError, Global};

/// A text whose headings have ids derived from their texts, and these headings.
#[derive(Drop)]
pub struct WithHeadingSlugs {
    /// The text.
    pub html: AttributedHtml,
    /// The headings that got an `id`, in order.
    pub headings: Vec<Heading>,
    /// Their ids, in the same order, not escaped.
    pub ids: Vec<String>,
}

/// Adds an `id` to each heading of a safe text that has none, derived from the heading's text as
/// GitHub does ([`slug`]), and lists these headings with their ids.
///
/// An id is `prefix` and the slug of the heading's text. If the input has that id, or an earlier
/// heading got it, a hyphen and a number follow, the least free one from 1. Nothing else changes:
/// whatever the HTML Standard's tokenizer emits for the input, it emits for the output the same
/// tokens with these attributes added.
///
/// The ids that headings get differ from one another and from all `id`s of the input, whatever these
/// are. So if the `id`s of the input all differ, those of the output do, whatever the headings and
/// the prefix are. If tree construction builds the input as it is written, it builds the output so.
///
/// # Errors
///
/// Returns an error only if memory runs out.
///
/// # Examples
///
/// ```
/// // Of the safe text `<h2>A <em>b</em></h2><h2>a b</h2>`:
/// let answer = with_heading_slugs(alloc, &html, "")?;
/// let text = "<h2 id=\"a-b\">A <em>b</em></h2><h2 id=\"a-b-1\">a b</h2>";
/// assert_eq!(answer.html.as_str(), text);
/// // `answer.headings` has both, and `answer.ids` is `a-b`, `a-b-1`.
/// ```
pub fn with_heading_slugs<H: Html>(
    alloc: Global,
    html: &H,
    prefix: &str,
) -> Result<WithHeadingSlugs, AllocError>
    ensures tokens { IfOk result (λ after. (x : List Token) → IsTokenized (H.text html.now) x
        → IsTokenized after.html (with_given_ids (map string_bytes after.ids.items) x)) }
    ensures headings { IfOk result (λ after. (x : List Token) → IsTokenized (H.text html.now) x
        → map listed after.headings.items ≡ headings_of x) }
    ensures ids { IfOk result
        (λ after. length after.ids.items ≡ length after.headings.items) }
    ensures differ { IfOk result
        (λ after. IsTrue (are_distinct (map written_id (map string_bytes after.ids.items)))) }
    ensures free { IfOk result (λ after. (x : List Token) → IsTokenized (H.text html.now) x
        → (id : List ℕ) → IsTrue (is_among id (ids_among x))
        → is_among (encoded true id) (map written_id (map string_bytes after.ids.items)) ≡ false) }
    ensures distinct { IfOk result (λ after. (x : List Token) → IsTokenized (H.text html.now) x
        → IsTrue (are_distinct (ids_among x)) → IsTrue (are_distinct (ids_among
        (with_given_ids (map string_bytes after.ids.items) x)))) }
    ensures attributed { IfOk result (λ after. IsAttributed after.html) }
    ensures tree { IfOk result
        (λ after. IsBuiltAsWritten (H.text html.now) → IsBuiltAsWritten after.html) }
{
    let headings = list_headings(alloc, html)?;
    let taken = list_ids(alloc, html)?;
    let ids = choose(alloc, prefix, headings.as_slice(), taken.as_slice())?;
    let html = with_given_ids(alloc, html, ids.as_slice())?;
    Ok(WithHeadingSlugs {
        html,
        headings,
        ids,
    })
}
