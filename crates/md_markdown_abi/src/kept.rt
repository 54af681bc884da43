//! Texts with the HTML that authors write.

ghost use Rattle.std.specs.Prelude.{◌≡◌, ◌⊎◌, ◌+◌, ◌*◌, IfOk, true};
ghost use Rattle.md_text.specs.Ids.{HasDistinctIds};
ghost use Rattle.md_depth.specs.Levels.{NestsWithin};
ghost use Rattle.md_safe.specs.Built.{IsBuiltAsRead};
ghost use Rattle.md_safe.specs.Contents.{IsContained};
ghost use Rattle.md_safe.specs.Tokenized.{IsSafelyTokenized};
ghost use Rattle.md_markdown.specs.Depth.{most_depth};
ghost use Rattle.md_markdown.specs.Keeping.{IsKeptOf};
ghost use Rattle.md_markdown.specs.Made.{IsMadeOf};

use md_markdown::{Limits, MarkdownOptions, MarkdownWithinError, markdown_keeping_html_within};
use md_page::Html;
use std::alloc::Global;
use std::marker::Model;

/// A safe text with the HTML that authors write.
#[derive(Drop)]
pub(crate) struct KeptHtml {
    text: String,
}

impl Model for KeptHtml {
    ghost use Rattle.std.specs.Prelude.{ℕ, List};
    ghost use Rattle.std.specs.String.{string_bytes};
    ghost use Rattle.md_markdown_abi.specs.Kept.{HasWrittenText};

    ghost Value = { List ℕ };

    ghost view = { λ html. string_bytes html.text };

    ghost invariant = { HasWrittenText };
}

impl KeptHtml {
    ghost use Rattle.std.specs.Prelude.{◌≡◌, string_bytes};
    ghost use Rattle.md_page.specs.Pieces.{IsWritten};

    /// Wraps a text that is written as safe texts are.
    fn new(text: String) -> KeptHtml
        requires { IsWritten (string_bytes text) }
        ensures { result ≡ string_bytes text }
    {
        KeptHtml { text }
    }
}

impl Html for KeptHtml {
    ghost text = { λ html. html };

    fn as_str(&self) -> &str {
        self.text.as_str()
    }
}

/// The text of a document with the HTML that authors write, within limits.
///
/// # Errors
///
/// The errors of [`markdown_keeping_html_within`].
pub(crate) fn kept_within(
    alloc: Global,
    text: &str,
    options: &MarkdownOptions,
    limits: Limits,
) -> Result<KeptHtml, MarkdownWithinError>
    ensures made { IfOk result (λ html. IsMadeOf options.now text.now html
        ⊎ IsKeptOf options.now text.now html) }
    ensures tokens { IfOk result IsSafelyTokenized }
    ensures contained { IfOk result IsContained }
    ensures tree { IfOk result IsBuiltAsRead }
    ensures nesting { IfOk result (NestsWithin (2 * most_depth + 5)) }
    ensures distinct_ids { IfOk result
        (λ html. options.now.number_ids ≡ true → HasDistinctIds html) }
{
    let html = markdown_keeping_html_within(alloc, text, options, limits)?;
    Ok(KeptHtml::new(html))
}
