//! Footnote calls: the identifiers, their order, and the number of calls of each.

ghost use Rattle.std.specs.Prelude.{◌≡◌, ◌==◌, ◌∷◌, [], ◌++◌, ◌<◌, ◌+◌, ◌^◌, OnOk, IfSome};
ghost use Rattle.std.specs.Prelude.{string_bytes, option_map, slice_get, length};
ghost use Rattle.md_meaning.specs.Meaning.Footnotes.{distinct, place_among};
ghost use Rattle.md_meaning.specs.Meaning.Footnotes as meaning;
ghost use Rattle.md_footnotes.specs.Entries.{again, count_in};

use crate::called::Called;
use crate::places::{Places, place_under, put_last};
use std::alloc::{AllocError, Global};
use std::collections::BTreeMap;
use std::marker::Model;

/// The calls so far, in order.
#[derive(Drop)]
pub(crate) struct Calls {
    /// The identifiers in the order of their first calls, each with its number of calls.
    counts: Vec<(String, usize)>,
    places: Places,
    /// The index of each call's identifier, in the order of the calls. No count exceeds the length
    /// of this list, so counts don't overflow.
    order: Vec<usize>,
}

impl Model for Calls {
    ghost use Rattle.std.specs.Prelude.{◌≡◌, ℕ, List, length};
    ghost use Rattle.md_footnotes.specs.Entries.{calls_in, counts_in, tally, FindsPlaces, AreBelow};

    ghost Value = { List (List ℕ) };

    ghost view = { λ c. calls_in c.counts.items c.order.items };

    ghost invariant = { λ c. FindsPlaces c.places c.counts.items
        × (counts_in c.counts.items ≡ tally (calls_in c.counts.items c.order.items))
        × AreBelow (length c.counts.items) c.order.items };
}

/// Counts one more call of the identifier at an index.
fn count_again(counts: &mut Vec<(String, usize)>, place: usize)
    requires within { place < length counts.old.items }
    requires fits { count_in counts.old.items place < 2 ^ 63 }
    ensures { counts.new.items ≡ again counts.old.items place }
{
    let count = counts[place].1;
    counts[place].1 = count + 1;
}

/// The number of calls of the identifier at an index.
fn count_at(counts: &[(String, usize)], place: usize) -> usize
    ensures { result ≡ count_in counts.now place }
{
    match counts.get(place) {
        Some((_, count)) => *count,
        None => 0,
    }
}

impl Calls {
    /// No calls.
    pub(crate) fn new(alloc: Global) -> Calls
        ensures { result ≡ [] }
    {
        Calls {
            counts: Vec::new(alloc),
            places: BTreeMap::new(alloc),
            order: Vec::new(alloc),
        }
    }

    /// Records a call.
    ///
    /// # Errors
    ///
    /// Returns an error only if memory runs out.
    pub(crate) fn count(&mut self, identifier: String) -> Result<(), AllocError>
        ensures { OnOk result (self.new ≡ self.old ++ string_bytes identifier ∷ []) }
    {
        self.order.reserve(1)?;
        match place_under(&self.places, identifier.as_str()) {
            Some(place) => {
                count_again(&mut self.counts, place);
                self.order.push_reserved(place);
                Ok(())
            }
            None => {
                let place = self.counts.len();
                put_last(&mut self.counts, &mut self.places, identifier, 1)?;
                self.order.push_reserved(place);
                Ok(())
            }
        }
    }

    /// Returns the number of an identifier, in the order of first calls; for an identifier without
    /// calls, the number that it would get.
    pub(crate) fn number(&self, identifier: &str) -> usize
        ensures { result ≡ place_among (distinct (self.now ++ identifier.now ∷ [])) identifier.now }
    {
        let len = self.counts.len();
        match place_under(&self.places, identifier) {
            Some(place) => place + 1,
            None => len + 1,
        }
    }

    /// Returns the number of calls of an identifier.
    pub(crate) fn count_of(&self, identifier: &str) -> usize
        ensures count { result ≡ meaning.count_of self.now identifier.now }
        ensures fits { result + 1 < 2 ^ 64 }
    {
        match place_under(&self.places, identifier) {
            Some(place) => count_at(self.counts.as_slice(), place),
            None => 0,
        }
    }

    /// Whether there are no calls.
    pub(crate) fn is_empty(&self) -> bool
        ensures { result ≡ (length self.now == 0) }
    {
        self.order.len() == 0
    }

    /// Returns the footnote whose number is one more than the index.
    pub(crate) fn at(&self, index: usize) -> Option<Called>
        ensures identifier { option_map (λ c. c.identifier.now) result
            ≡ slice_get (distinct self.now) index }
        ensures number { IfSome result
            (λ c. c.number ≡ place_among (distinct self.now) c.identifier.now) }
        ensures count { IfSome result (λ c. c.count ≡ meaning.count_of self.now c.identifier.now) }
        ensures within { IfSome result (λ c. index < length (distinct self.now)) }
        ensures fits { IfSome result (λ c. index + 1 < 2 ^ 63) }
    {
        let (identifier, count) = self.counts.get(index)?;
        Some(Called {
            identifier: identifier.as_str(),
            number: index + 1,
            count: *count,
        })
    }
}
