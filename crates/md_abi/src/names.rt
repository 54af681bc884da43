//! The numbers of events' names.

ghost use Rattle.std.specs.Prelude.{◌≡◌, slice_get};
ghost use Rattle.md_abi.specs.Names.{name_of};

use md_base::{Name, names_by_number};

/// The number of the name `Other`.
const OTHER: u16 = 65535;

/// The name with a number.
pub(crate) fn name_under(number: u16, other: u16) -> Option<Name>
    ensures { result ≡ name_of number other }
{
    if number == 0 {
        return None;
    }
    if number == OTHER {
        return Some(Name::Other(other));
    }
    listed_name(names_by_number(), usize::from(number) - 1)
}

/// The name at an index.
fn listed_name(names: &[Name], place: usize) -> Option<Name>
    ensures { result ≡ slice_get names.now place }
{
    names.get(place).copied()
}
