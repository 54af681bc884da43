//! Whether a text is safe HTML with distinct ids.

ghost use Rattle.std.specs.Prelude.{IfOk, IsTrue};
ghost use Rattle.md_text.specs.Html.{Forest};
ghost use Rattle.md_text.specs.Ids.{HasDistinctIds};
ghost use Rattle.md_text.specs.Url.{link_protocols, image_protocols};
ghost use Rattle.md_reader.specs.Safe.{IsSafeHtml, IsSafeReading};

use crate::ids::have_distinct_ids;
use crate::safe::is_safe_html;
use std::alloc::{AllocError, Global};

/// Whether a text is safe HTML, as [`is_safe_html`] says, in which no two `id`s are equal.
///
/// # Errors
///
/// Returns an error only if memory runs out.
///
/// # Examples
///
/// ```
/// assert!(is_safe_html_with_distinct_ids(alloc, "<p id=\"a\"><b id=\"b\">c</b></p>")?);
/// assert!(!is_safe_html_with_distinct_ids(alloc, "<p id=\"a\"><b id=\"a\">c</b></p>")?);
/// ```
pub fn is_safe_html_with_distinct_ids(alloc: Global, text: &str) -> Result<bool, AllocError>
    ensures safe { IfOk result
        (λ yes. IsTrue yes → IsSafeHtml link_protocols image_protocols text.now) }
    ensures distinct { IfOk result (λ yes. IsTrue yes → HasDistinctIds text.now) }
    ensures exact { (forest : Forest)
        → IsSafeReading link_protocols image_protocols text.now forest → HasDistinctIds text.now
        → IfOk result (λ yes. IsTrue yes) }
{
    if !is_safe_html(text.as_bytes()) {
        return Ok(false);
    }
    let are_distinct = have_distinct_ids(alloc, text)?;
    Ok(are_distinct)
}
