//! Additions to a safe text: attributes on its tags, and a whole page that contains it.
#![tactic(auto)]

mod around;
mod handed;
mod headings;
mod html;
mod ids;
pub mod laws;
mod rel;
mod scan;
mod taken;

ghost use Rattle.std.specs.Prelude.{◌≡◌, false, IfOk, string_bytes};
ghost use Rattle.md_text.specs.Encode.{encoded};
ghost use Rattle.md_safe.specs.Input.{with_line_feeds};
ghost use Rattle.md_safe.specs.PageTokens.{IsTokenizedPage};
ghost use Rattle.md_safe.specs.Built.{IsBuiltAsRead};
ghost use Rattle.md_safe.specs.Page.{IsBuiltPage};
ghost use Rattle.md_page.specs.Page.{IsPageOf, page_text};

pub use around::page_around;
use around::page_of;
pub use handed::{list_headings, with_given_ids};
pub use headings::Heading;
pub use html::{AttributedHtml, Html};
pub use ids::{WithHeadingIds, with_heading_ids};
use md_html::SafeHtml;
pub use rel::with_link_rel;
use std::alloc::{AllocError, Global};
pub use taken::{list_ids, written_id};

/// Returns a whole page: `title`, escaped, in its head, and `body` unchanged.
///
/// The page can be read in exactly one way. Its title, with the references read back, is `title`
/// with U+FFFD for each NUL; its body is the one reading of `body`, so each `href` and `src` in the
/// page has no protocol or a permitted one. The HTML Standard's tokenizer emits exactly that for
/// it: the doctype, the head with the title's characters, each line ending in them a line feed, and
/// the tokens of the body.
///
/// If `body` is built as it is read, as the clause `tree` of `compile_safe` promises for a document
/// without a link in a link, the Standard's tree construction builds from these tokens exactly the
/// document of that title and that body. The line feed at the page's end goes into the body, after
/// all else in it, as the Standard says.
///
/// # Errors
///
/// Returns an error only if memory runs out.
///
/// # Examples
///
/// ```
/// let body = compile_safe(alloc, &[], b"", &CompileOptions::default(), &[])?;
/// let text = page(alloc, "a<b", &body)?;
/// let head =
///     "<!doctype html>\n<html><head><meta charset=\"utf-8\" /><title>a&lt;b</title></head>";
/// assert!(text.as_str().starts_with(head));
/// assert!(text.as_str().ends_with("<body></body></html>\n"));
/// ```
pub fn page(alloc: Global, title: &str, body: &SafeHtml) -> Result<String, AllocError>
    ensures text { IfOk result (λ text. string_bytes text ≡ page_text title.now body.now) }
    ensures page { IfOk result (λ text. IsPageOf title.now body.now (string_bytes text)) }
    ensures tokenized { IfOk result
        (λ text. IsTokenizedPage (with_line_feeds (encoded false title.now)) body.now
        (string_bytes text)) }
    ensures tree { IfOk result (λ text. IsBuiltAsRead body.now
        → IsBuiltPage (with_line_feeds (encoded false title.now)) body.now (string_bytes text)) }
{
    page_of(alloc, title, body.as_str())
}
