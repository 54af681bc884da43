//! Lines of a script that encode events.

ghost use Rattle.std.specs.Prelude.{◌≡◌};
ghost use Rattle.md_script.specs.Line.{kind_of, point_of, event_of};

use crate::name::read_name;
use crate::number::read_number;
use crate::split::split_at_first;
use md_base::{Event, Kind, Point};

/// The event of a line: `+` or `-`, a name, one space and a point.
pub fn read_event(line: &[u8]) -> Option<Event>
    ensures { result ≡ event_of line.now }
{
    let (sign, rest) = line.split_first()?;
    let kind = read_kind(*sign)?;
    let (name, place) = split_at_first(rest, b' ')?;
    let name = read_name(name)?;
    let point = read_point(place)?;
    Some(Event { kind, name, point })
}

pub(crate) fn read_kind(sign: u8) -> Option<Kind>
    ensures { result ≡ kind_of sign }
{
    match sign {
        b'+' => Some(Kind::Enter),
        b'-' => Some(Kind::Exit),
        _ => None,
    }
}

/// An index, and after a dot the columns of a tab before the point.
fn read_point(place: &[u8]) -> Option<Point>
    ensures { result ≡ point_of place.now }
{
    let (index, vs) = match split_at_first(place, b'.') {
        Some((index, columns)) => (read_number(index, 9)?, read_number(columns, 3)?),
        None => (read_number(place, 9)?, 0),
    };
    Some(Point {
        line: 1,
        column: 1,
        index,
        vs,
    })
}
