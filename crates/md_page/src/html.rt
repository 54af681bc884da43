//! Texts whose tags may get attributes, and texts with added attributes.

ghost use Rattle.std.specs.Prelude.{◌≡◌, ℕ, List};
ghost use Rattle.md_page.specs.Attributed.{IsAttributed};
ghost use Rattle.md_page.specs.Pieces.{IsWritten};

use md_html::SafeHtml;
use std::marker::Model;

/// A safe text, or one whose tags have added attributes.
pub trait Html {
    ghost text: { Self → List ℕ };

    /// The text.
    fn as_str(&self) -> &str
        ensures text { result.now ≡ text self.now }
        ensures written { IsWritten (text self.now) };
}

impl Html for SafeHtml {
    ghost text = { λ html. html };

    fn as_str(&self) -> &str {
        SafeHtml::as_str(self)
    }
}

/// A safe text whose tags have added attributes.
///
/// The HTML Standard's tokenizer reads all of it. Each tag among the tokens is one that a safe text
/// may have, except for the `rel` of a link and the `id` of a heading; each `href` and `src` has no
/// scheme of its own or a permitted one.
#[derive(Drop)]
pub struct AttributedHtml {
    text: String,
}

impl Model for AttributedHtml {
    ghost use Rattle.std.specs.Prelude.{ℕ, List};
    ghost use Rattle.std.specs.String.{string_bytes};
    ghost use Rattle.md_page.specs.AttributedHtml.{IsKept};

    ghost Value = { List ℕ };

    ghost view = { λ html. string_bytes html.text };

    ghost invariant = { IsKept };
}

impl AttributedHtml {
    ghost use Rattle.std.specs.Prelude.{◌≡◌, string_bytes};
    ghost use Rattle.md_page.specs.Attributed.{IsAttributed};
    ghost use Rattle.md_page.specs.Pieces.{IsWritten};

    /// Wraps a text that is written so.
    pub(crate) fn new(text: String) -> AttributedHtml
        requires { IsWritten (string_bytes text) }
        ensures { result ≡ string_bytes text }
    {
        AttributedHtml { text }
    }

    /// The text.
    pub fn as_str(&self) -> &str
        ensures text { result.now ≡ self.now }
        ensures attributed { IsAttributed self.now }
    {
        self.text.as_str()
    }
}

impl Html for AttributedHtml {
    ghost text = { λ html. html };

    fn as_str(&self) -> &str {
        self.text.as_str()
    }
}
