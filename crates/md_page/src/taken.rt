//! The ids of a text.

ghost use Rattle.std.specs.Prelude.{◌≡◌, ◌++◌, ◌∷◌, [], ◌&&◌, ℕ, List, IsTrue, if◌then◌else◌};
ghost use Rattle.std.specs.Prelude.{IfOk, OnOk, true, codes, map, string_bytes, nat_eq};
ghost use Rattle.std.specs.List.{ends_with};
ghost use Rattle.md_text.specs.Encode.{encoded};
ghost use Rattle.md_safe.specs.Input.{with_line_feeds};
ghost use Rattle.md_safe.specs.Token.{Token};
ghost use Rattle.md_safe.specs.Tokenizer.{IsTokenized};
ghost use Rattle.md_page.specs.GivenIds.{is_among, written_id};
ghost use Rattle.md_page.specs.Ids.{ids_among};
ghost use Rattle.md_page.specs.Scan.{ends_at_id, scanned_ids};

use crate::headings::push_lined;
use crate::html::Html;
use crate::scan::split_at_byte;
use md_text::encode;
use std::alloc::{AllocError, Global};

/// Returns the ids of a safe text, each as it is written there, with a line feed for each line
/// ending.
///
/// # Errors
///
/// Returns an error only if memory runs out.
pub fn list_ids<H: Html>(alloc: Global, html: &H) -> Result<Vec<String>, AllocError>
    ensures ids { IfOk result (λ found. (x : List Token) → IsTokenized (H.text html.now) x
        → (id : List ℕ) → IsTrue (is_among id (ids_among x))
        → IsTrue (is_among (encoded true id) (map string_bytes found.items))) }
{
    let found = ids_of(alloc, html.as_str())?;
    Ok(found)
}

/// Returns an id as it is written, with a line feed for each line ending: two ids are equal for a
/// reader exactly if they are written alike.
///
/// # Errors
///
/// Returns an error only if memory runs out.
pub fn written_id(alloc: Global, id: &str) -> Result<String, AllocError>
    ensures { IfOk result (λ written. string_bytes written ≡ written_id id.now) }
{
    let escaped = encode(alloc, id, true)?;
    lined(alloc, escaped.as_str())
}

/// The quoted values after ` id=`.
fn ids_of(alloc: Global, text: &str) -> Result<Vec<String>, AllocError>
    ensures { IfOk result (λ found. map string_bytes found.items ≡ scanned_ids text.now) }
{
    let mut found = Vec::new(alloc);
    let mut rest = text;
    while let Some((before, after)) = split_at_byte(b'"', rest) {
        let Some((value, more)) = split_at_byte(b'"', after) else {
            return Ok(found);
        };
        push_id(alloc, &mut found, before, value)?;
        rest = more;
    }
    Ok(found)
}

/// Adds a value if it is that of an `id`, by the text before it.
fn push_id(
    alloc: Global,
    found: &mut Vec<String>,
    before: &str,
    value: &str,
) -> Result<(), AllocError>
    ensures { OnOk result (map string_bytes found.new.items ≡ map string_bytes found.old.items
        ++ (if ends_at_id before.now then with_line_feeds value.now ∷ [] else [])) }
{
    if ends_at_id(before.as_bytes()) {
        found.push(lined(alloc, value)?)?;
    }
    Ok(())
}

/// Whether the text ends in ` id=`.
fn ends_at_id(before: &[u8]) -> bool
    ensures { result ≡ ends_at_id before.now }
{
    before.ends_with(b" id=")
}

/// A text with a line feed for each line ending.
fn lined(alloc: Global, text: &str) -> Result<String, AllocError>
    ensures { IfOk result (λ out. string_bytes out ≡ with_line_feeds text.now) }
{
    let mut out = String::new(alloc);
    push_lined(&mut out, text)?;
    Ok(out)
}
