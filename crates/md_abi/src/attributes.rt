//! Attributes as C passes them.

ghost use Rattle.std.specs.Prelude.{◌≡◌, Some, option_copied, IfOk, IfErr};
ghost use Rattle.md_abi.specs.Options.{text_of};
ghost use Rattle.md_abi.specs.Refusals.{IsAttributeFault};

use crate::option::CText;
use crate::refusal::Refusal;
use crate::text::read_utf8;

/// The attributes to add to the tags of a text; one that is unset isn't added.
#[repr(C)]
pub struct CAttributes<'a> {
    /// The `rel` of each link that leaves the page and has none.
    pub rel: CText<'a>,
    /// The prefix of the `id` of each heading without one; its number follows.
    pub heading_ids: CText<'a>,
}

/// The requested attribute, if it is set; `number` is its own.
///
/// # Errors
///
/// Reports that the attribute is invalid: it is neither set nor unset, or isn't UTF-8.
pub(crate) fn read_attribute<'a>(
    text: &CText<'a>,
    number: usize,
) -> Result<Option<&'a str>, Refusal>
    ensures ok { IfOk result (λ read. text_of text.now ≡ Some (option_copied read)) }
    ensures err { IfErr result (IsAttributeFault number (text_of text.now)) }
{
    match text.is_set {
        0 => Ok(None),
        1 => match read_utf8(text.bytes) {
            Some(value) => Ok(Some(value)),
            None => Err(Refusal::Attribute(number)),
        },
        _ => Err(Refusal::Attribute(number)),
    }
}
