//! Reads a document's bytes as text.

ghost use Rattle.std.specs.Prelude.{◌≡◌, ◌≤◌, length, IfOk, IfErr, IsUtf8};
ghost use Rattle.md_markdown_abi.specs.Failures.{IsDocumentFault};

use crate::failure::MarkdownFailure;

/// Returns the text of a document that has at most `most` bytes.
///
/// # Errors
///
/// Reports how many bytes it has if these are more, or from which byte it isn't UTF-8.
pub fn read_document(bytes: &[u8], most: usize) -> Result<&str, MarkdownFailure>
    ensures ok { IfOk result (λ text. (text.now ≡ bytes.now) × IsUtf8 bytes.now) }
    ensures fits { IfOk result (λ _. length bytes.now ≤ most) }
    ensures err { IfErr result (IsDocumentFault bytes.now most) }
{
    if bytes.len() > most {
        return Err(MarkdownFailure::InputTooLong(bytes.len()));
    }
    match simdutf8::compat::from_utf8(bytes) {
        Ok(text) => Ok(text),
        Err(error) => Err(MarkdownFailure::NotUtf8(error.valid_up_to())),
    }
}
