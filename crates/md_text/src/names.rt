//! Looks up names with their ASCII letters lowered.

ghost use Rattle.std.specs.Str.{bytes_eq};
ghost use Rattle.std.specs.Prelude.{◌≡◌, map};
ghost use Rattle.md_text.specs.Bytes.{lowered, is_one_of};

/// Whether a name, with its ASCII letters lowered, is one of the texts.
pub(crate) fn lowered_is_one_of(name: &[u8], texts: &[&str]) -> bool
    ensures { result ≡ is_one_of (map (λ text. text.now) texts.now) (lowered name.now) }
{
    for text in texts {
        if lowered_is(name, text.as_bytes()) {
            return true;
        }
    }
    false
}

/// Whether a name, with its ASCII letters lowered, is this text.
fn lowered_is(name: &[u8], text: &[u8]) -> bool
    ensures { result ≡ bytes_eq (lowered name.now) text.now }
{
    if name.len() != text.len() {
        return false;
    }
    for (a, b) in name.iter().zip(text) {
        if a.to_ascii_lowercase() != *b {
            return false;
        }
    }
    true
}
