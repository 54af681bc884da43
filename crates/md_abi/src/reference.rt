//! Named character references as C passes them.

ghost use Rattle.std.specs.Prelude.{◌≡◌, IfOk, IfErr, OnOk, option_map, [], ◌∷◌, ◌++◌};
ghost use Rattle.md_base.specs.Reference.{name_table};
ghost use Rattle.md_abi.specs.References.{reference_of, pair_of};
ghost use Rattle.md_abi.specs.Standing.{StandFor};
ghost use Rattle.md_abi.specs.Failures.{IsNameFault};

use crate::failure::Failure;
use crate::text::read_utf8;
use std::alloc::{AllocError, Global};

/// A named character reference.
#[repr(C)]
pub struct CReference<'a> {
    /// The name between `&` and `;`.
    pub name: &'a [u8],
    /// The text of the reference.
    pub text: &'a [u8],
}

/// The names that a slice encodes, each with its text.
///
/// # Errors
///
/// Reports the index of the first invalid one, or that memory ran out.
pub(crate) fn read_references<'a>(
    alloc: Global,
    references: &[CReference<'a>],
) -> Result<Vec<(&'a str, &'a str)>, Failure>
    ensures ok { IfOk result
        (λ read. StandFor reference_of references.now (name_table read.items)) }
    ensures err { IfErr result (IsNameFault references.now) }
{
    let mut read = Vec::new(alloc);
    for reference in references {
        match read_reference(reference) {
            Some(pair) => add_pair(&mut read, pair)?,
            None => return Err(Failure::Name(read.as_slice().len())),
        }
    }
    Ok(read)
}

/// Appends a name and its text.
fn add_pair<'a>(
    pairs: &mut Vec<(&'a str, &'a str)>,
    pair: (&'a str, &'a str),
) -> Result<(), AllocError>
    ensures { OnOk result (pairs.new.items ≡ pairs.old.items ++ pair.entry ∷ []) }
{
    pairs.push(pair)?;
    Ok(())
}

/// The name and the text of a reference, if both are UTF-8.
fn read_reference<'a>(reference: &CReference<'a>) -> Option<(&'a str, &'a str)>
    ensures { option_map pair_of result ≡ reference_of reference.now }
{
    let name = read_utf8(reference.name)?;
    let text = read_utf8(reference.text)?;
    Some((name, text))
}
