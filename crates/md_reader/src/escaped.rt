//! A text that is safe HTML, whatever it was.

ghost use Rattle.std.specs.Prelude.{◌≡◌, IfOk, true};
ghost use Rattle.std.specs.String.{string_bytes};
ghost use Rattle.md_text.specs.Encode.{encoded};
ghost use Rattle.md_text.specs.Html.{Forest};
ghost use Rattle.md_text.specs.Url.{link_protocols, image_protocols};
ghost use Rattle.md_reader.specs.Safe.{IsSafeHtml, IsSafeReading};

use crate::safe::is_safe_html;
use md_text::encode;
use std::alloc::{AllocError, Global};

/// The text if it is safe HTML, as [`is_safe_html`] says, else its characters, escaped.
///
/// # Errors
///
/// Returns an error only if memory runs out.
///
/// # Examples
///
/// ```
/// let html = safe_or_escaped(alloc, "<b>one</b>")?;
/// assert_eq!(html.as_str(), "&lt;b&gt;one&lt;/b&gt;");
/// ```
pub fn safe_or_escaped(alloc: Global, text: &str) -> Result<String, AllocError>
    ensures safe { IfOk result
        (λ out. IsSafeHtml link_protocols image_protocols (string_bytes out)) }
    ensures kept { (forest : Forest)
        → IsSafeReading link_protocols image_protocols text.now forest
        → IfOk result (λ out. string_bytes out ≡ text.now) }
    ensures escaped { (IsSafeHtml link_protocols image_protocols text.now → ⊥)
        → IfOk result (λ out. string_bytes out ≡ encoded true text.now) }
{
    if is_safe_html(text.as_bytes()) {
        String::from_str(alloc, text)
    } else {
        encode(alloc, text, true)
    }
}
