//! Tables of event names: by the length of their spelling, and by number.

ghost use Rattle.std.specs.Prelude.{◌≡◌, length, map};
ghost use Rattle.md_base.specs.EventNames.{event_names};
ghost use Rattle.md_base.specs.NamesByLength.{IsByLength};

use crate::event::Name;
use crate::name_tables::{BY_LENGTH, BY_NUMBER};

/// The names of events as scripts spell them. Each table stands at the index that is the length of
/// its names. `Other` isn't listed, since scripts write its number after it.
pub fn names_by_length() -> &'static [&'static [(&'static str, Name)]]
    ensures count { length result.now ≡ 36 }
    ensures tables { IsByLength result.now 0 }
{
    &BY_LENGTH
}

/// The names of events by their numbers, from 1, without `Other`.
pub fn names_by_number() -> &'static [Name]
    ensures { result.now ≡ map (λ entry. entry.1) event_names }
{
    &BY_NUMBER
}
