//! Writes numbers in decimal.

ghost use Rattle.std.specs.Prelude.{◌≡◌, ◌++◌, OnOk, IfSome, string_bytes};
ghost use Rattle.std.specs.Fmt.{decimal};

use std::alloc::{AllocError, Global};

/// Appends a number. Most numbers have one digit, which needs no buffer.
///
/// # Errors
///
/// Returns an error only if memory runs out.
pub(crate) fn push_decimal(alloc: Global, out: &mut String, number: usize) -> Result<(), AllocError>
    ensures { OnOk result (string_bytes out.new ≡ string_bytes out.old ++ decimal number) }
{
    match digit(number) {
        Some(digit) => out.push_str(digit),
        None => out.push_str(number.to_string(alloc)?.as_str()),
    }
}

/// A number of one digit, except zero, which no footnote or call has.
fn digit(number: usize) -> Option<&'static str>
    ensures { IfSome result (λ digit. digit.now ≡ decimal number) }
{
    match number {
        1 => Some("1"),
        2 => Some("2"),
        3 => Some("3"),
        4 => Some("4"),
        5 => Some("5"),
        6 => Some("6"),
        7 => Some("7"),
        8 => Some("8"),
        9 => Some("9"),
        _ => None,
    }
}
