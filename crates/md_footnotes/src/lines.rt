//! Line endings.

ghost use Rattle.std.specs.Prelude.{◌≡◌, ◌==◌, ◌||◌, ◌∷◌, [], OnOk, string_bytes};
ghost use Rattle.md_meaning.specs.Meaning.Layout as layout;

use std::alloc::AllocError;

/// Whether a byte is CR or LF.
pub(crate) fn is_break(byte: u8) -> bool
    ensures { result ≡ (byte == 13 || byte == 10) }
{
    byte == b'\r' || byte == b'\n'
}

/// Whether a text is empty or ends in CR or LF.
fn bytes_begin_line(text: &[u8]) -> bool
    ensures { result ≡ layout.begins_line text.now }
{
    match text.last() {
        Some(byte) => is_break(*byte),
        None => true,
    }
}

/// Appends a line ending if one is needed.
///
/// # Errors
///
/// Returns an error only if memory runs out.
pub(crate) fn need(out: &mut String, ending: &str) -> Result<(), AllocError>
    ensures { OnOk result
        (string_bytes out.new
        ≡ layout.laid_after ending.now (string_bytes out.old) (layout.Needed ∷ [])) }
{
    if bytes_begin_line(out.as_bytes()) {
        Ok(())
    } else {
        out.push_str(ending)
    }
}
