//! Whether two names are equal.

ghost use Rattle.std.specs.Prelude.{◌≡◌, ◌↔◌, IsTrue};

use crate::event::Name;

/// Whether two names are equal: `==`, in a form that proofs can use.
///
/// # Examples
///
/// ```
/// assert!(is_same_name(Name::Data, Name::Data));
/// assert!(!is_same_name(Name::Other(1), Name::Other(2)));
/// ```
pub fn is_same_name(a: Name, b: Name) -> bool
    ensures { IsTrue result ↔ (a ≡ b) }
{
    match a {
        Name::Other(number) => matches!(b, Name::Other(other) if other == number),
        _ => a == b,
    }
}
