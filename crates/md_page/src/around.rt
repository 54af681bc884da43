//! A page with a text whose tags have added attributes.

ghost use Rattle.std.specs.Prelude.{◌≡◌, ℕ, List, true, IfOk, string_bytes};
ghost use Rattle.md_text.specs.Encode.{encoded};
ghost use Rattle.md_safe.specs.PageTokens.{page_text};
ghost use Rattle.md_safe.specs.Token.{Token};
ghost use Rattle.md_safe.specs.Tokenizer.{IsTokenized};
ghost use Rattle.md_page.specs.Added.{shown};
ghost use Rattle.md_page.specs.Built.{IsBuiltAsWritten, IsBuiltPageAround};
ghost use Rattle.md_page.specs.PageAround.{page_around, IsSafePage};

use crate::html::Html;
use md_text::encode;
use std::alloc::{AllocError, Global};

/// Returns a whole page: `title`, escaped, in its head, and `body` unchanged, a safe text or one
/// whose tags have added attributes.
///
/// Whatever tokens the HTML Standard's tokenizer emits for `body`, it emits for the page exactly
/// the doctype, the head with the title's characters, with U+FFFD for each NUL and a line feed for
/// each line ending in them, and these tokens. If tree construction builds the body as it is
/// written, it builds the page's document with that body.
///
/// # Errors
///
/// Returns an error only if memory runs out.
///
/// # Examples
///
/// ```
/// let comment = with_link_rel(alloc, &html, "nofollow ugc")?;
/// let page = page_around(alloc, "Comments", &comment)?;
/// ```
pub fn page_around<H: Html>(alloc: Global, title: &str, body: &H) -> Result<String, AllocError>
    ensures text { IfOk result (λ text. string_bytes text
        ≡ page_text (encoded true title.now) (H.text body.now)) }
    ensures tokens { IfOk result (λ text. (x : List Token) → IsTokenized (H.text body.now) x
        → IsSafePage (string_bytes text) (page_around (shown title.now) x)) }
    ensures tree { IfOk result (λ text. IsBuiltAsWritten (H.text body.now)
        → IsBuiltPageAround (shown title.now) (H.text body.now) (string_bytes text)) }
{
    page_of(alloc, title, body.as_str())
}

/// The text of the page with this title and this body.
pub(crate) fn page_of(alloc: Global, title: &str, body: &str) -> Result<String, AllocError>
    ensures { IfOk result (λ text. string_bytes text
        ≡ page_text (encoded true title.now) body.now) }
{
    let escaped = encode(alloc, title, true)?;
    let mut text = String::new(alloc);
    text.push_str("<!doctype html>\n<html><head><meta charset=\"utf-8\" /><title>")?;
    text.push_str(escaped.as_str())?;
    text.push_str("</title></head><body>")?;
    text.push_str(body)?;
    text.push_str("</body></html>\n")?;
    Ok(text)
}
