//! The options of Markdown as C passes them.

ghost use Rattle.std.specs.Prelude.{◌≡◌, ◌≢◌, Some, OnOk, IfOk, IfErr};
ghost use Rattle.md_abi.specs.Failures.{IsFaultOf};
ghost use Rattle.md_markdown_abi.specs.Numbers.{markdown_version};
ghost use Rattle.md_markdown_abi.specs.Options.{HasMarkdownOptions, html_of, keeps_html};
ghost use Rattle.md_markdown_abi.specs.Options.{work_by_length, most_work, most_nesting};
ghost use Rattle.md_markdown_abi.specs.Failures.{IsOptionFault};
ghost use Rattle.md_markdown_abi.specs.declared.failure.MarkdownFailure.TheVariants.{NoVersion};

use crate::failure::MarkdownFailure;
use md_abi::{CText, Failure, read_flag, read_text};
use md_markdown::{DocumentHtml, Limits, MarkdownOptions};
use std::alloc::Global;

/// HTML that authors may write is kept, and all other HTML left out.
const KEPT: u8 = 3;

/// HTML that authors may write is kept, and all other HTML is text, without comments.
const KEPT_OR_TEXT: u8 = 4;

/// The version of the C interface for Markdown: the options' layout, and every number.
pub const VERSION: u32 = 4;

/// The work limit that selects [`work_by_length`].
const BY_LENGTH: usize = 18_446_744_073_709_551_614;

/// The work that every document is allowed.
const LEAST_WORK: usize = 1_048_576;

/// The additional work that is allowed for each byte of the document.
const WORK_OF_A_BYTE: usize = 64;

/// The nesting limit that means no limit.
const ANY_DEPTH: usize = 0;

/// The options for reading and printing Markdown; a flag is 0 or 1. Four bytes that are never read
/// follow the flags.
#[repr(C)]
pub struct CMarkdownOptions<'a> {
    /// The version of the C interface that has this layout.
    pub version: u32,
    /// 1 to derive footnotes' ids from their numbers, else 0.
    pub number_ids: u8,
    /// 1 to print `<br />` for soft breaks, else 0.
    pub hard_breaks: u8,
    /// 1 to read bare URLs and addresses as links, else 0.
    pub bare_links: u8,
    /// How to print HTML in the document: 0 as text, 1 not at all, 2 as text without comments. With
    /// 3 and 4 the tags that authors may write are kept; all other HTML is printed as with 1 and 2.
    pub html: u8,
    /// 1 to read math, else 0.
    pub math: u8,
    /// 1 to read front matter, else 0.
    pub front_matter: u8,
    /// 1 to read footnotes, else 0.
    pub footnotes: u8,
    /// 1 to read tables, else 0.
    pub tables: u8,
    /// The prefix of footnotes' ids; unset: `user-content-`.
    pub footnote_prefix: CText<'a>,
    /// The heading of the footnotes; unset: `Footnotes`.
    pub footnote_label: CText<'a>,
    /// The `aria-label` of a backreference from a footnote; unset: `Back to content`.
    pub footnote_back_label: CText<'a>,
    /// The base against which the URLs of links and images are resolved; unset: none.
    pub base: CText<'a>,
    /// The `rel` of each link that leaves the page; unset: none.
    pub rel: CText<'a>,
    /// The prefix of the `id` of each heading, which its number follows; unset: there are no ids.
    pub heading_ids: CText<'a>,
    /// The maximum length of the document in bytes.
    pub max_input: usize,
    /// The maximum length of the text in bytes.
    pub max_output: usize,
    /// The work limit; 2^64 - 2 means that it depends on the document's length.
    pub max_work: usize,
    /// The maximum number of nodes that are open at once in a document that isn't shown as it is
    /// written; 0: as many as any document may have.
    pub max_depth: usize,
}

/// Whether the options have the layout that is read.
///
/// # Errors
///
/// Reports that they don't.
pub(crate) fn check_version(given: &CMarkdownOptions) -> Result<(), MarkdownFailure>
    ensures ok { OnOk result (given.now.version ≡ markdown_version) }
    ensures err { IfErr result
        (λ why. (why ≡ NoVersion) × (given.now.version ≢ markdown_version)) }
{
    if given.version != VERSION {
        return Err(MarkdownFailure::NoVersion);
    }
    Ok(())
}

/// The options that the fields encode.
///
/// # Errors
///
/// Reports the number of an invalid option, or that memory ran out.
pub(crate) fn read_markdown_options(
    alloc: Global,
    given: &CMarkdownOptions,
) -> Result<MarkdownOptions, Failure>
    ensures ok { IfOk result (HasMarkdownOptions given.now) }
    ensures err { IfErr result (IsOptionFault given.now) }
{
    Ok(MarkdownOptions {
        math: read_flag(given.math, 10)?,
        front_matter: read_flag(given.front_matter, 11)?,
        footnotes: read_flag(given.footnotes, 12)?,
        tables: read_flag(given.tables, 13)?,
        bare_links: read_flag(given.bare_links, 2)?,
        hard_breaks: read_flag(given.hard_breaks, 1)?,
        html: read_html(given.html, 3)?,
        base: read_text(alloc, &given.base, 7)?,
        footnote_prefix: read_text(alloc, &given.footnote_prefix, 4)?,
        number_ids: read_flag(given.number_ids, 0)?,
        footnote_label: read_text(alloc, &given.footnote_label, 5)?,
        footnote_back_label: read_text(alloc, &given.footnote_back_label, 6)?,
    })
}

/// Whether HTML that authors may write is kept, by the number of the option `html`.
pub(crate) fn keeps_html(html: u8) -> bool
    ensures { result ≡ keeps_html html }
{
    html == KEPT || html == KEPT_OR_TEXT
}

/// How to print HTML that isn't kept, by its number; `number` is the option's.
fn read_html(html: u8, number: usize) -> Result<DocumentHtml, Failure>
    ensures ok { IfOk result (λ read. html_of html ≡ Some read) }
    ensures err { IfErr result (IsFaultOf number (html_of html)) }
{
    match html {
        0 => Ok(DocumentHtml::Text),
        1 => Ok(DocumentHtml::LeftOut),
        2 => Ok(DocumentHtml::WithoutComments),
        KEPT => Ok(DocumentHtml::LeftOut),
        KEPT_OR_TEXT => Ok(DocumentHtml::WithoutComments),
        _ => Err(Failure::Option(number)),
    }
}

/// The limits on the text of a document of `bytes` bytes, and on how deep its nodes nest.
pub(crate) fn limits_of(given: &CMarkdownOptions, bytes: usize) -> Limits
    ensures text { result.text ≡ given.now.max_output }
    ensures work { result.work ≡ most_work given.now.max_work bytes }
    ensures depth { result.depth ≡ most_nesting given.now.max_depth }
{
    let work = if given.max_work == BY_LENGTH {
        work_by_length(bytes)
    } else {
        given.max_work
    };
    let depth = if given.max_depth == ANY_DEPTH {
        usize::MAX
    } else {
        given.max_depth
    };
    Limits {
        text: given.max_output,
        work,
        depth,
    }
}

/// The work that a document of `bytes` bytes is allowed if no limit is set.
fn work_by_length(bytes: usize) -> usize
    ensures { result ≡ work_by_length bytes }
{
    bytes
        .saturating_mul(WORK_OF_A_BYTE)
        .saturating_add(LEAST_WORK)
}
