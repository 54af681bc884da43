//! A table of the names of character references, in which a name is found by halves.

ghost use Rattle.std.specs.Prelude.{◌≡◌, option_copied, option_map, string_bytes, IfOk};
ghost use Rattle.md_base.specs.Reference.{name_table, named, decoded};
ghost use Rattle.md_base.specs.References.{AreSorted, IsIndex};

use crate::reference::{copy_text, decode_number, find_name};
use std::alloc::{AllocError, Global};
use std::marker::Model;

/// The longest table that is searched from its beginning.
const FEW: usize = 16;

/// The names of character references, each with its text: of equal names the first counts.
#[derive(Drop)]
pub struct References<'a> {
    listed: &'a [(&'a str, &'a str)],
    /// The table sorted by names, if it is long.
    index: Option<Vec<(&'a str, &'a str)>>,
}

impl<'a> Model for References<'a> {
    ghost use Rattle.std.specs.Prelude.{ℕ, List};

    ghost Value = { List (List ℕ × List ℕ) };

    ghost use Rattle.md_base.specs.References.{table_of, IsIndexed};

    ghost view = { table_of };

    ghost invariant = { IsIndexed };
}

impl<'a> References<'a> {
    /// The names of a table.
    ///
    /// # Errors
    ///
    /// Returns an error only if memory runs out.
    pub fn new(
        alloc: Global,
        listed: &'a [(&'a str, &'a str)],
    ) -> Result<References<'a>, AllocError>
        ensures { IfOk result (λ references. references ≡ name_table listed.now) }
    {
        let index = if listed.len() > FEW {
            Some(sorted_by_name(alloc, listed)?)
        } else {
            None
        };
        Ok(References { listed, index })
    }

    /// The table.
    pub fn listed(&self) -> &'a [(&'a str, &'a str)]
        ensures { name_table result.now ≡ self.now }
    {
        self.listed
    }

    /// Decodes a character reference as [`crate::decode_character_reference`] does by the table.
    ///
    /// # Errors
    ///
    /// Returns an error only if memory runs out.
    pub fn decode(
        &self,
        alloc: Global,
        value: &str,
        marker: u8,
    ) -> Result<Option<String>, AllocError>
        ensures { IfOk result
            (λ text. option_map string_bytes text ≡ decoded self.now marker value.now) }
    {
        match marker {
            b'&' => copy_text(alloc, self.find(value)),
            _ => decode_number(alloc, value, marker),
        }
    }

    /// The text of the first entry with this name.
    fn find(&self, name: &str) -> Option<&'a str>
        ensures { option_copied result ≡ named self.now name.now }
    {
        match &self.index {
            Some(index) => find_sorted(index.as_slice(), name),
            None => find_name(self.listed, name),
        }
    }
}

/// The text of the first entry with this name, in a table that is sorted by names.
fn find_sorted<'a>(sorted: &[(&'a str, &'a str)], name: &str) -> Option<&'a str>
    requires { AreSorted sorted.now }
    ensures { option_copied result ≡ named (name_table sorted.now) name.now }
{
    let place = sorted.partition_point(|entry| entry.0 < name);
    let (found, text) = sorted.get(place)?;
    if *found == name { Some(text) } else { None }
}

/// A table sorted by names, with equal names in their order.
fn sorted_by_name<'a>(
    alloc: Global,
    listed: &[(&'a str, &'a str)],
) -> Result<Vec<(&'a str, &'a str)>, AllocError>
    ensures { IfOk result (λ sorted. IsIndex sorted.items listed.now) }
{
    let mut sorted = Vec::with_capacity(alloc, listed.len())?;
    sorted.extend_from_slice(listed)?;
    sorted.sort_by_key(|entry| entry.0)?;
    Ok(sorted)
}
