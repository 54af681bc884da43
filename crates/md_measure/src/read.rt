//! Which nodes are read.

ghost use Rattle.std.specs.Prelude.{◌≡◌};
ghost use Rattle.md_length.specs.Work.{is_read};
ghost use Rattle.md_measure.specs.Counting.{is_read_standing};

use md_base::Name;
use md_pattern::{Reading, Standing, standing_of};

/// Whether a node with this name is read: its text, or its identifier.
#[inline(always)]
pub fn is_read(name: Name) -> bool
    ensures { result ≡ is_read name }
{
    is_read_standing(standing_of(name))
}

#[inline(always)]
fn is_read_standing(standing: Standing) -> bool
    ensures { result ≡ is_read_standing standing }
{
    use Reading::{Identifier, LineEnding, Number, Text, Value};
    match standing {
        Standing::Solid(_, _, reading) => matches!(
            reading,
            Text | LineEnding | Number | Value | Identifier
        ),
        _ => false,
    }
}
