//! Reads decimal numbers of a few digits.

ghost use Rattle.std.specs.Prelude.{◌≡◌, ◌≤◌};
ghost use Rattle.md_script.specs.Number.{number_of};

/// The value of decimal digits, if there are at least one and at most `most` of them.
pub(crate) fn read_number(digits: &[u8], most: usize) -> Option<usize>
    requires { most ≤ 9 }
    ensures { result ≡ number_of most digits.now }
{
    if digits.is_empty() || digits.len() > most {
        return None;
    }
    let mut number = 0;
    for digit in digits {
        if !digit.is_ascii_digit() {
            return None;
        }
        number = number * 10 + usize::from(*digit - b'0');
    }
    Some(number)
}
