//! Reads the names of events.

ghost use Rattle.std.specs.Prelude.{◌≡◌, ◌++◌, codes, length, option_and_then};
ghost use Rattle.std.specs.List.{slice_get};
ghost use Rattle.md_script.specs.Line.{other_name, name_of};
ghost use Rattle.md_base.specs.Table as spec;

use crate::number::read_number;
use crate::table::listed;
use md_base::{Name, names_by_length};

/// The name that a text spells.
pub(crate) fn read_name(text: &[u8]) -> Option<Name>
    ensures { result ≡ name_of text.now }
{
    match text.strip_prefix(b"Other") {
        Some(digits) => numbered_name(digits),
        None => listed_at_length(names_by_length(), text),
    }
}

/// The name with this text in the table for its length.
fn listed_at_length(tables: &[&[(&str, Name)]], text: &[u8]) -> Option<Name>
    ensures { let table = slice_get tables.now (length text.now) in
        result ≡ option_and_then (λ names. spec.listed (spec.entries_of names.now) text.now) table }
{
    let names = tables.get(text.len())?;
    listed(names, text)
}

/// `Other` with the number of these digits.
fn numbered_name(digits: &[u8]) -> Option<Name>
    ensures { result ≡ other_name (codes "Other" ++ digits.now) }
{
    let number = read_number(digits, 5)?;
    Some(Name::Other(u16::try_from(number).ok()?))
}
