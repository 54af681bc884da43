//! Reads bytes as UTF-8.

ghost use Rattle.std.specs.Prelude.{◌≡◌, true, option_copied};
ghost use Rattle.md_base.specs.Place.{text_when};

/// Returns bytes as text, or `None` if they aren't UTF-8.
pub(crate) fn read_utf8(bytes: &[u8]) -> Option<&str>
    ensures { option_copied result ≡ text_when true bytes.now }
{
    std::str::from_utf8(bytes).ok()
}
