//! The options of the compiler for a Markdown document.

ghost use Rattle.std.specs.Prelude.{◌≡◌, IfOk, option_map, string_bytes};
ghost use Rattle.md_markdown.specs.Chosen.{AreChosenFor};
ghost use Rattle.md_markdown.specs.Keeping.{ArePiecesAllowed};

use md_blocks::{DocumentHtml, MarkdownOptions};
use md_text::{CompileOptions, LineEnding};
use std::alloc::{AllocError, Global};

/// The options of the compiler, which are safe, for those of Markdown.
pub(crate) fn for_compiler(
    alloc: Global,
    options: &MarkdownOptions,
) -> Result<CompileOptions, AllocError>
    ensures chosen { IfOk result (AreChosenFor options.now) }
{
    let prefix = copy_text(alloc, &options.footnote_prefix)?;
    let label = copy_text(alloc, &options.footnote_label)?;
    let back_label = copy_text(alloc, &options.footnote_back_label)?;
    Ok(CompileOptions {
        allow_any_img_src: false,
        allow_dangerous_html: false,
        allow_dangerous_protocol: false,
        gfm_task_list_item_checkable: false,
        gfm_tagfilter: false,
        gfm_footnote_number_ids: options.number_ids,
        default_line_ending: LineEnding::LineFeed,
        gfm_footnote_back_label: back_label,
        gfm_footnote_clobber_prefix: prefix,
        gfm_footnote_label: label,
        gfm_footnote_label_attributes: None,
        gfm_footnote_label_tag_name: None,
    })
}

/// The options of the compiler for a document whose HTML is pieces that its authors may write.
pub(crate) fn for_kept(
    alloc: Global,
    options: &MarkdownOptions,
) -> Result<CompileOptions, AllocError>
    ensures { IfOk result (ArePiecesAllowed options.now) }
{
    Ok(CompileOptions {
        allow_dangerous_html: true,
        ..for_compiler(alloc, options)?
    })
}

/// These options, with which HTML is read as text.
pub(crate) fn with_html(
    alloc: Global,
    options: &MarkdownOptions,
) -> Result<MarkdownOptions, AllocError> {
    let base = copy_text(alloc, &options.base)?;
    Ok(MarkdownOptions {
        math: options.math,
        front_matter: options.front_matter,
        footnotes: options.footnotes,
        tables: options.tables,
        bare_links: options.bare_links,
        hard_breaks: options.hard_breaks,
        html: DocumentHtml::Text,
        base,
        footnote_prefix: None,
        number_ids: options.number_ids,
        footnote_label: None,
        footnote_back_label: None,
    })
}

/// A copy of a text, if there is one.
fn copy_text(alloc: Global, text: &Option<String>) -> Result<Option<String>, AllocError>
    ensures { IfOk result
        (λ copy. option_map string_bytes copy ≡ option_map string_bytes text.now) }
{
    match text {
        Some(text) => Ok(Some(String::from_str(alloc, text.as_str())?)),
        None => Ok(None),
    }
}
