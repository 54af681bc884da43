//! Entries in insertion order, found by their identifiers in few steps, whatever identifiers an
//! attacker chooses.

ghost use Rattle.std.specs.Prelude.{◌≡◌, ◌∷◌, [], ◌++◌, OnOk, OnErr, None, string_bytes};
ghost use Rattle.std.specs.BTreeMap.{get_by_text};
ghost use Rattle.md_footnotes.specs.Entries.{place_in, FindsPlaces};

use std::alloc::AllocError;
use std::collections::BTreeMap;

/// The index of each identifier among some entries.
pub(crate) type Places = BTreeMap<String, usize>;

/// The index of an identifier, if it has one.
pub(crate) fn place_under(places: &Places, identifier: &str) -> Option<usize>
    ensures { result ≡ get_by_text places.now identifier.now }
{
    places.get(identifier).copied()
}

/// Appends an entry with a new identifier.
///
/// # Errors
///
/// Returns an error only if memory runs out.
pub(crate) fn put_last<V: Drop>(
    entries: &mut Vec<(String, V)>,
    places: &mut Places,
    identifier: String,
    value: V,
) -> Result<(), AllocError>
    requires new { place_in entries.old.items (string_bytes identifier) ≡ None }
    requires found { FindsPlaces places.old entries.old.items }
    ensures found { FindsPlaces places.new entries.new.items }
    ensures entries { OnOk result
        (entries.new.items ≡ entries.old.items ++ (identifier, value) ∷ []) }
    ensures failed { OnErr result (entries.new.items ≡ entries.old.items) }
{
    entries.reserve(1)?;
    let copy = identifier.clone()?;
    places.insert(copy, entries.len())?;
    entries.push_reserved((identifier, value));
    Ok(())
}
