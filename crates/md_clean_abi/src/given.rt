//! From C's arguments to a clean text.

ghost use Rattle.std.specs.Prelude.{◌≡◌, IfOk, map, option_map, string_bytes};
ghost use Rattle.md_clean.specs.Options.{texts};
ghost use Rattle.md_clean_abi.specs.Text.{IsCleanText};

use crate::options::{CCleanOptions, check_version, read_names};
use md_base::SAFE_PROTOCOL_HREF;
use md_clean::{CleanOptions, TAGS, clean_with};
use md_markdown_abi::{MarkdownFailure, read_document};
use std::alloc::Global;

/// Cleans HTML, as the options say.
///
/// # Errors
///
/// Reports, in this order, that the options have another version or which of them is invalid, that
/// the input is too long or isn't UTF-8, that the text is too long; or that memory ran out.
pub fn clean_given(
    alloc: Global,
    bytes: &[u8],
    given: &CCleanOptions,
) -> Result<String, MarkdownFailure>
    ensures ok { IfOk result (λ out. IsCleanText given.now (string_bytes out)) }
{
    check_version(given)?;
    let tags = read_names(alloc, &TAGS, &given.tags, 0)?;
    let protocols = read_names(alloc, &SAFE_PROTOCOL_HREF, &given.protocols, 1)?;
    let html = read_document(bytes, given.max_input)?;
    let options = CleanOptions {
        tags: as_slice(&tags),
        protocols: as_slice(&protocols),
    };
    let out = clean_with(alloc, html, options)?;
    if out.len() > given.max_output {
        return Err(MarkdownFailure::OutputTooLong);
    }
    Ok(out)
}

/// Names as a slice.
fn as_slice<'a>(names: &'a Option<Vec<&'static str>>) -> Option<&'a [&'static str]>
    ensures { option_map texts result
        ≡ option_map (λ some. map (λ name. name.now) some.items) names.now }
{
    match names {
        Some(names) => Some(names.as_slice()),
        None => None,
    }
}
