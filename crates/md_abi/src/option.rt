//! Options as C passes them.

ghost use Rattle.std.specs.Prelude.{◌≡◌, Some, option_map, option_copied, string_bytes};
ghost use Rattle.std.specs.Prelude.{IfOk, IfErr};
ghost use Rattle.md_abi.specs.Options.{HasOptions, flag_of, ending_of, text_of};
ghost use Rattle.md_abi.specs.Failures.{IsOptionFault, IsFaultOf};

use crate::failure::Failure;
use crate::text::read_utf8;
use md_text::{CompileOptions, LineEnding};
use std::alloc::Global;

/// A text that may be unset.
#[repr(C)]
pub struct CText<'a> {
    /// The text.
    pub bytes: &'a [u8],
    /// 0 if it is unset, 1 if it is set.
    pub is_set: u8,
}

/// The options, each with the name that it has in `CompileOptions`; a flag is 0 or 1.
#[repr(C)]
pub struct COptions<'a> {
    /// 1 to let images have any source, else 0.
    pub allow_any_img_src: u8,
    /// 1 to leave HTML in the document unchanged, else 0.
    pub allow_dangerous_html: u8,
    /// 1 to let links and images have any protocol, else 0.
    pub allow_dangerous_protocol: u8,
    /// 1 to print tasks without `disabled`, else 0.
    pub gfm_task_list_item_checkable: u8,
    /// 1 to escape some tags in HTML that is left unchanged, else 0.
    pub gfm_tagfilter: u8,
    /// 0 for a line feed, 1 for a carriage return, 2 for both.
    pub default_line_ending: u8,
    /// 1 to derive footnotes' ids from their numbers instead of their identifiers, else 0.
    ///
    /// The last option by its number. It takes the place of two bytes that were never read.
    pub gfm_footnote_number_ids: u8,
    /// The `aria-label` of a backreference from a footnote; unset: `Back to content`.
    pub gfm_footnote_back_label: CText<'a>,
    /// The prefix of footnotes' ids; unset: `user-content-`.
    pub gfm_footnote_clobber_prefix: CText<'a>,
    /// The heading of the footnotes; unset: `Footnotes`.
    pub gfm_footnote_label: CText<'a>,
    /// The attributes of that heading; unset: `class="sr-only"`.
    pub gfm_footnote_label_attributes: CText<'a>,
    /// The tag name of that heading; unset: `h2`.
    pub gfm_footnote_label_tag_name: CText<'a>,
}

/// The options that the fields encode.
///
/// # Errors
///
/// Reports the number of an invalid option, or that memory ran out.
pub(crate) fn read_options(alloc: Global, given: &COptions) -> Result<CompileOptions, Failure>
    ensures ok { IfOk result (HasOptions given.now) }
    ensures err { IfErr result (IsOptionFault given.now) }
{
    Ok(CompileOptions {
        allow_any_img_src: read_flag(given.allow_any_img_src, 0)?,
        allow_dangerous_html: read_flag(given.allow_dangerous_html, 1)?,
        allow_dangerous_protocol: read_flag(given.allow_dangerous_protocol, 2)?,
        gfm_task_list_item_checkable: read_flag(given.gfm_task_list_item_checkable, 3)?,
        gfm_tagfilter: read_flag(given.gfm_tagfilter, 4)?,
        default_line_ending: read_ending(given.default_line_ending, 5)?,
        gfm_footnote_back_label: read_text(alloc, &given.gfm_footnote_back_label, 6)?,
        gfm_footnote_clobber_prefix: read_text(alloc, &given.gfm_footnote_clobber_prefix, 7)?,
        gfm_footnote_label: read_text(alloc, &given.gfm_footnote_label, 8)?,
        gfm_footnote_label_attributes: read_text(alloc, &given.gfm_footnote_label_attributes, 9)?,
        gfm_footnote_label_tag_name: read_text(alloc, &given.gfm_footnote_label_tag_name, 10)?,
        gfm_footnote_number_ids: read_flag(given.gfm_footnote_number_ids, 11)?,
    })
}

/// Whether a flag is on; `number` is the option's.
///
/// # Errors
///
/// Reports that the option is invalid: it is neither 0 nor 1.
pub fn read_flag(flag: u8, number: usize) -> Result<bool, Failure>
    ensures ok { IfOk result (λ is_on. flag_of flag ≡ Some is_on) }
    ensures err { IfErr result (IsFaultOf number (flag_of flag)) }
{
    match flag {
        0 => Ok(false),
        1 => Ok(true),
        _ => Err(Failure::Option(number)),
    }
}

/// The line ending with a number.
fn read_ending(ending: u8, number: usize) -> Result<LineEnding, Failure>
    ensures ok { IfOk result (λ read. ending_of ending ≡ Some read) }
    ensures err { IfErr result (IsFaultOf number (ending_of ending)) }
{
    match ending {
        0 => Ok(LineEnding::LineFeed),
        1 => Ok(LineEnding::CarriageReturn),
        2 => Ok(LineEnding::CarriageReturnLineFeed),
        _ => Err(Failure::Option(number)),
    }
}

/// A copy of a text, if it is set; `number` is the option's.
///
/// # Errors
///
/// Reports that the option is invalid: it is neither set nor unset, or isn't UTF-8; or that memory
/// ran out.
pub fn read_text(alloc: Global, text: &CText, number: usize) -> Result<Option<String>, Failure>
    ensures ok { IfOk result (λ read. text_of text.now ≡ Some (option_map string_bytes read)) }
    ensures err { IfErr result (IsFaultOf number (text_of text.now)) }
{
    match text.is_set {
        0 => Ok(None),
        1 => match read_utf8(text.bytes) {
            Some(value) => Ok(Some(String::from_str(alloc, value)?)),
            None => Err(Failure::Option(number)),
        },
        _ => Err(Failure::Option(number)),
    }
}

/// A text, if it is set; `number` is the option's.
///
/// # Errors
///
/// Reports that the option is invalid: it is neither set nor unset, or isn't UTF-8.
pub fn borrow_text<'a>(text: &CText<'a>, number: usize) -> Result<Option<&'a str>, Failure>
    ensures ok { IfOk result (λ read. text_of text.now ≡ Some (option_copied read)) }
    ensures err { IfErr result (IsFaultOf number (text_of text.now)) }
{
    match text.is_set {
        0 => Ok(None),
        1 => match read_utf8(text.bytes) {
            Some(value) => Ok(Some(value)),
            None => Err(Failure::Option(number)),
        },
        _ => Err(Failure::Option(number)),
    }
}
