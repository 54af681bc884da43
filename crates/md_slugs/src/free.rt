//! Ids that aren't taken.

ghost use Rattle.std.specs.Prelude.{◌≡◌, ◌<◌, ◌^◌, false, not, IfOk, string_bytes};
ghost use Rattle.std.specs.BTreeSet.{contains_text};
ghost use Rattle.md_page.specs.GivenIds.{written_id};
ghost use Rattle.md_slugs.specs.Chosen.{numbered};

use md_page::written_id;
use std::alloc::{AllocError, Global};
use std::collections::{BTreeMap, BTreeSet};

/// The ids that are taken, as they are written.
pub(crate) type Taken = BTreeSet<String>;

/// The next number to try after an id that is taken.
pub(crate) type Next = BTreeMap<String, usize>;

/// An id that isn't taken: this one, or one with the next free number after it.
pub(crate) fn free_id(
    alloc: Global,
    taken: &Taken,
    next: &mut Next,
    base: String,
) -> Result<String, AllocError>
    ensures { IfOk result (λ id.
        contains_text taken.now (written_id (string_bytes id)) ≡ false) }
{
    let written = written_id(alloc, base.as_str())?;
    if !taken.contains(written.as_str()) {
        return Ok(base);
    }
    let first = next.get(written.as_str()).copied().unwrap_or(1);
    let (id, number) = free_number(alloc, taken, base.as_str(), first)?;
    next.insert(written, number.saturating_add(1))?;
    Ok(id)
}

/// An id with a free number after it, and that number. The search begins at `next`; the number
/// never exceeds the number of ids.
fn free_number(
    alloc: Global,
    taken: &Taken,
    base: &str,
    next: usize,
) -> Result<(String, usize), AllocError>
    ensures { IfOk result (λ found.
        contains_text taken.now (written_id (string_bytes found.0)) ≡ false) }
{
    let first = next.min(taken.len());
    let mut number = first;
    loop {
        let id = numbered(alloc, base, number)?;
        if is_free(alloc, taken, id.as_str())? {
            return Ok((id, number));
        }
        number += 1;
    }
}

/// An id followed by a hyphen and a number.
fn numbered(alloc: Global, base: &str, number: usize) -> Result<String, AllocError>
    ensures { IfOk result (λ id. string_bytes id ≡ numbered base.now number) }
{
    let mut id = String::from_str(alloc, base)?;
    id.push_str("-")?;
    id.push_str(number.to_string(alloc)?.as_str())?;
    Ok(id)
}

/// Whether an id isn't taken.
fn is_free(alloc: Global, taken: &Taken, id: &str) -> Result<bool, AllocError>
    ensures { IfOk result (λ free. free ≡ not (contains_text taken.now (written_id id.now))) }
{
    let written = written_id(alloc, id)?;
    Ok(!taken.contains(written.as_str()))
}
