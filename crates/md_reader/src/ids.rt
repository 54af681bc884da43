//! The ids of a text.

ghost use Rattle.std.specs.Prelude.{◌≡◌, ◌<◌, ◌++◌, ◌∷◌, [], ℕ, List, None, true, not, IsTrue};
ghost use Rattle.std.specs.Prelude.{IfOk, IfSome, MatchOption, ◌&&◌, if◌then◌else◌, length};
ghost use Rattle.std.specs.Prelude.{IsUtf8};
ghost use Rattle.std.specs.BTreeSet.{contains_text};
ghost use Rattle.std.specs.Str.{bytes_eq};
ghost use Rattle.md_text.specs.Ids.{are_distinct};
ghost use Rattle.md_reader.specs.ScannedIds.{are_new, is_unquoted, names_id, scanned};

use std::alloc::{AllocError, Global};
use std::collections::BTreeSet;

/// Whether no two of the quoted values after ` id=` are equal.
pub(crate) fn have_distinct_ids(alloc: Global, text: &str) -> Result<bool, AllocError>
    ensures { IfOk result (λ yes. yes ≡ are_distinct (scanned None [] text.now)) }
{
    let mut seen = BTreeSet::new(alloc);
    let mut rest = text;
    while let Some((before, after)) = split_at_quote(rest) {
        let Some((value, more)) = split_at_quote(after) else {
            return Ok(true);
        };
        if !add_if_id(alloc, &mut seen, before, value)? {
            return Ok(false);
        }
        rest = more;
    }
    Ok(true)
}

/// Adds a quoted value if it is that of an `id`, by the text before it, and returns whether it is
/// new.
fn add_if_id(
    alloc: Global,
    seen: &mut BTreeSet<String>,
    before: &str,
    value: &str,
) -> Result<bool, AllocError>
    ensures { IfOk result (λ new. (later : List (List ℕ)) → are_new (contains_text seen.old)
        ((if names_id before.now then value.now ∷ [] else []) ++ later)
        ≡ (new && are_new (contains_text seen.new) later)) }
{
    if !names_id(before) {
        return Ok(true);
    }
    let is_new = add(alloc, seen, value)?;
    Ok(is_new)
}

/// Adds an id, and returns whether it is new.
fn add(alloc: Global, seen: &mut BTreeSet<String>, id: &str) -> Result<bool, AllocError>
    ensures new { IfOk result (λ new. new ≡ not (contains_text seen.old id.now)) }
    ensures added { IfOk result (λ new. IsTrue new → (w : List ℕ) → contains_text seen.new w
        ≡ (if bytes_eq id.now w then true else contains_text seen.old w)) }
{
    if seen.contains(id) {
        return Ok(false);
    }
    seen.insert(String::from_str(alloc, id)?)?;
    Ok(true)
}

/// Whether a text ends in ` id=`.
fn names_id(text: &str) -> bool
    ensures { result ≡ names_id text.now }
{
    text.as_bytes().ends_with(b" id=")
}

/// The text before and after the first `"`.
fn split_at_quote(text: &str) -> Option<(&str, &str)>
    ensures parts { MatchOption result (IsTrue (is_unquoted text.now))
        (λ found. (text.now ≡ found.0.now ++ 34 ∷ found.1.now)
        × IsTrue (is_unquoted found.0.now)) }
    ensures text { IfSome result (λ found. IsUtf8 found.1.now) }
    ensures shorter { IfSome result (λ found. length found.1.now < length text.now) }
{
    text.split_once('"')
}
