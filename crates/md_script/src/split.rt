//! Splits bytes at the first separator.

ghost use Rattle.std.specs.Prelude.{◌≡◌, ◌+◌, ◌==◌, [], length, is_some, position, IfSome, IfNone};
ghost use Rattle.std.specs.List.{list_any, before_first, after_first};

/// The bytes before and after the first separator, if there is one.
pub fn split_at_first(bytes: &[u8], separator: u8) -> Option<(&[u8], &[u8])>
    ensures found { is_some result ≡ list_any (λ byte. byte == separator) bytes.now }
    ensures front { IfSome result
        (λ parts. parts.0.now ≡ before_first (λ byte. byte == separator) bytes.now) }
    ensures back { IfSome result
        (λ parts. parts.1.now ≡ after_first (λ byte. byte == separator) bytes.now) }
    ensures whole { IfNone result (before_first (λ byte. byte == separator) bytes.now ≡ bytes.now) }
    ensures nothing { IfNone result (after_first (λ byte. byte == separator) bytes.now ≡ []) }
    ensures len { IfSome result
        (λ parts. length parts.0.now + length parts.1.now + 1 ≡ length bytes.now) }
{
    let index = first_place_of(bytes, separator)?;
    Some((&bytes[..index], &bytes[index + 1..]))
}

fn first_place_of(bytes: &[u8], wanted: u8) -> Option<usize>
    ensures { result ≡ position (λ byte. byte == wanted) bytes.now }
{
    bytes.iter().position(|byte| *byte == wanted)
}
