//! Decimal digits before an end byte.

ghost use Rattle.std.specs.Prelude.{◌≡◌, ◌-◌, ◌<◌, ◌≤◌, true, length, IfSome};
ghost use Rattle.std.specs.Char.{is_ascii_digit};
ghost use Rattle.md_script.specs.PlainLine.{BeginsWithNumber};

/// The value of the digits before an end byte, at least one and at most `most` digits, and the
/// bytes after that byte.
#[inline(always)]
pub(crate) fn digits_before(bytes: &[u8], end: u8, most: usize) -> Option<(usize, &[u8])>
    requires few { most ≤ 9 }
    requires room { most < length bytes.now }
    ensures { IfSome result (λ read. BeginsWithNumber most end bytes.now read.0 read.1.now) }
{
    let mut number = 0;
    for length in 0..most + 1 {
        let digit = digit_of(bytes[length]);
        if 9 < digit {
            if length == 0 || bytes[length] != end {
                return None;
            }
            return Some((number, &bytes[length + 1..]));
        }
        number = number * 10 + digit;
    }
    None
}

/// The value of a digit; more than 9 for another byte.
#[inline(always)]
fn digit_of(byte: u8) -> usize
    ensures { result ≤ 9 → (is_ascii_digit byte ≡ true) × (result ≡ byte - 48) }
{
    usize::from(byte).wrapping_sub(48)
}
