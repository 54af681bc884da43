//! Chooses ids for headings: no two are equal, and none is an id that the text has.

ghost use Rattle.std.specs.Prelude.{◌≡◌, ℕ, List, IfOk, OnOk, if◌then◌else◌, true, false};
ghost use Rattle.std.specs.Prelude.{length, map, string_bytes};
ghost use Rattle.std.specs.BTreeSet.{contains_text};
ghost use Rattle.std.specs.Str.{bytes_eq};
ghost use Rattle.md_page.specs.GivenIds.{is_among, written_id};
ghost use Rattle.md_slugs.specs.Chosen.{AreChosen};

use crate::free::{Next, Taken, free_id};
use crate::slugging::slug;
use md_page::{Heading, written_id};
use std::alloc::{AllocError, Global};
use std::collections::{BTreeMap, BTreeSet};

/// The slug of a heading whose id would be empty.
const SECTION: &str = "section";

/// Chooses an id for each heading; `others` are the ids that are taken, as they are written.
pub(crate) fn choose(
    alloc: Global,
    prefix: &str,
    headings: &[Heading],
    others: &[String],
) -> Result<Vec<String>, AllocError>
    ensures count { IfOk result (λ ids. length ids.items ≡ length headings.now) }
    ensures chosen { IfOk result (λ ids.
        AreChosen (map string_bytes others.now) (map string_bytes ids.items)) }
{
    let mut taken = taken_by(alloc, others)?;
    let mut next = BTreeMap::new(alloc);
    let mut ids = Vec::new(alloc);
    for heading in headings {
        let id = next_id(alloc, prefix, heading, &taken, &mut next)?;
        take(alloc, &mut taken, id.as_str())?;
        ids.push(id)?;
    }
    Ok(ids)
}

/// Chooses a free id for a heading.
fn next_id(
    alloc: Global,
    prefix: &str,
    heading: &Heading,
    taken: &Taken,
    next: &mut Next,
) -> Result<String, AllocError>
    ensures { IfOk result (λ id.
        contains_text taken.now (written_id (string_bytes id)) ≡ false) }
{
    let mut base = String::from_str(alloc, prefix)?;
    base.push_str(slug(alloc, heading.text.as_str())?.as_str())?;
    if base.is_empty() {
        base.push_str(SECTION)?;
    }
    free_id(alloc, taken, next, base)
}

/// The ids that are taken at the beginning.
fn taken_by(alloc: Global, others: &[String]) -> Result<Taken, AllocError>
    ensures { IfOk result (λ taken. (written : List ℕ) →
        contains_text taken written ≡ is_among written (map string_bytes others.now)) }
{
    let mut taken = BTreeSet::new(alloc);
    for other in others {
        taken.insert(other.clone()?)?;
    }
    Ok(taken)
}

/// Marks an id as taken.
fn take(alloc: Global, taken: &mut Taken, id: &str) -> Result<(), AllocError>
    ensures { OnOk result ((written : List ℕ) → contains_text taken.new written
        ≡ (if bytes_eq (written_id id.now) written then true
        else contains_text taken.old written)) }
{
    let written = written_id(alloc, id)?;
    taken.insert(written)?;
    Ok(())
}
