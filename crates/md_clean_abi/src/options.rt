//! The options of the cleaner as C passes them.

ghost use Rattle.std.specs.Prelude.{◌≡◌, IfOk, IfSome, OnOk, Some, map, option_map};
ghost use Rattle.md_markdown_abi.specs.Numbers.{markdown_version};
ghost use Rattle.md_clean_abi.specs.Options.{names_of, words};

use md_abi::{CText, Failure, borrow_text};
use md_markdown_abi::{MarkdownFailure, VERSION};
use std::alloc::{AllocError, Global};

/// The options of the cleaner. Four bytes that are never read follow the version.
#[repr(C)]
pub struct CCleanOptions<'a> {
    /// The version of the C interface that has this layout.
    pub version: u32,
    /// The names of the elements that stay, with a space between two; unset: all.
    pub tags: CText<'a>,
    /// The protocols that URLs may have, with a space between two; unset: those that the compiler
    /// permits.
    pub protocols: CText<'a>,
    /// The maximum length of the input in bytes.
    pub max_input: usize,
    /// The maximum length of the text in bytes.
    pub max_output: usize,
}

/// Whether the options have the layout that is read.
///
/// # Errors
///
/// Reports that they don't.
pub(crate) fn check_version(given: &CCleanOptions) -> Result<(), MarkdownFailure>
    ensures { OnOk result (given.now.version ≡ markdown_version) }
{
    if given.version != VERSION {
        return Err(MarkdownFailure::NoVersion);
    }
    Ok(())
}

/// The names in a text, if it is set; `number` is the option's.
///
/// # Errors
///
/// Reports that the option is invalid: it is neither set nor unset, isn't UTF-8, or has a name that
/// isn't one of `all`; or that memory ran out.
pub(crate) fn read_names(
    alloc: Global,
    all: &'static [&'static str],
    text: &CText,
    number: usize,
) -> Result<Option<Vec<&'static str>>, Failure>
    ensures ok { IfOk result (λ names. names_of text.now
        ≡ Some (option_map (λ some. map (λ name. name.now) some.items) names)) }
{
    match borrow_text(text, number)? {
        Some(text) => Ok(Some(names_in(alloc, all, text.as_bytes(), number)?)),
        None => Ok(None),
    }
}

/// The names in a text.
fn names_in(
    alloc: Global,
    all: &'static [&'static str],
    text: &[u8],
    number: usize,
) -> Result<Vec<&'static str>, Failure>
    ensures { IfOk result (λ names. map (λ name. name.now) names.items ≡ words text.now) }
{
    let words = words(alloc, text)?;
    let mut names = Vec::new(alloc);
    for word in words.as_slice() {
        names.push(name_of(all, word, number)?)?;
    }
    Ok(names)
}

/// The words of a text, which spaces divide.
fn words(alloc: Global, text: &[u8]) -> Result<Vec<&[u8]>, AllocError>
    ensures { IfOk result (λ parts. map (λ part. part.now) parts.items ≡ words text.now) }
{
    text.split(|byte| *byte == b' ').collect(alloc)
}

/// The name that is a word; no word is the empty name.
fn name_of(
    all: &'static [&'static str],
    word: &[u8],
    number: usize,
) -> Result<&'static str, Failure>
    ensures { IfOk result (λ name. name.now ≡ word.now) }
{
    if word.is_empty() {
        return Ok("");
    }
    match found(all, word) {
        Some(name) => Ok(name),
        None => Err(Failure::Option(number)),
    }
}

/// The first of these names that is a word.
fn found(all: &'static [&'static str], word: &[u8]) -> Option<&'static str>
    ensures { IfSome result (λ name. name.now ≡ word.now) }
{
    for name in all {
        if name.as_bytes() == word {
            return Some(name);
        }
    }
    None
}
