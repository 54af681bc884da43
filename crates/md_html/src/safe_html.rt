//! Texts that may be inserted into a page.

ghost use Rattle.std.specs.Prelude.{◌↔◌, IfOk, IfErr, IsTrue};
ghost use Rattle.md_tree.specs.Grammar.{handed};
ghost use Rattle.md_tree.specs.Refusal.{IsRefusal};
ghost use Rattle.md_safe.specs.Options.{KeepsImages};
ghost use Rattle.md_html.specs.Promises.{SafePromises};
ghost use Rattle.md_html.specs.Safe.{IsRefusedFor, OfCompile};

use crate::compiler::compile;
use md_base::Event;
use md_text::CompileOptions;
use md_tree::CompileError;
use std::alloc::Global;
use std::fmt;
use std::marker::Model;
use thiserror::Error;

/// A text that has exactly one reading in the HTML grammar, in which each `href` and `src` has no
/// protocol or a permitted one, and which fulfils the content model. Only [`compile_safe`],
/// [`compile_safe_within`](crate::compile_safe_within) and
/// [`compile_safe_measured`](crate::compile_safe_measured) create one.
#[derive(Drop)]
pub struct SafeHtml {
    text: String,
}

impl Model for SafeHtml {
    ghost use Rattle.std.specs.Prelude.{ℕ, List};
    ghost use Rattle.std.specs.String.{string_bytes};
    ghost use Rattle.md_html.specs.SafeHtml.{IsKept};

    ghost Value = { List ℕ };

    ghost view = { λ s. string_bytes s.text };

    ghost invariant = { IsKept };
}

impl SafeHtml {
    ghost use Rattle.md_html.specs.Safe.{IsSafe};
    ghost use Rattle.md_safe.specs.Tokenized.{IsSafelyTokenized};
    ghost use Rattle.std.specs.Prelude.{◌≡◌, string_bytes};

    /// Wraps a safe text.
    pub(crate) fn new(text: String) -> SafeHtml
        requires { IsSafe (string_bytes text) }
        ensures { result ≡ string_bytes text }
    {
        SafeHtml { text }
    }

    /// The text.
    ///
    /// # Examples
    ///
    /// ```
    /// // Of two events that are a thematic break:
    /// let html = compile_safe(alloc, &events, b"***", &CompileOptions::default(), &[])?;
    /// assert_eq!(html.as_str(), "<hr />");
    /// ```
    pub fn as_str(&self) -> &str
        ensures text { result.now ≡ self.now }
        ensures safe { IsSafe self.now }
        ensures tokens { IsSafelyTokenized self.now }
    {
        self.text.as_str()
    }
}

/// Why there is no safe text.
#[derive(Debug, PartialEq, Eq, Drop, Error)]
pub enum SafeError {
    /// The options aren't safe.
    Options,
    /// The compiler refuses the events, or memory ran out.
    Compile(CompileError),
}

impl fmt::Display for SafeError {
    ghost use Rattle.std.specs.Prelude.{Some};
    ghost use Rattle.md_html.specs.Safe.{line_of};

    ghost output = { λ error. Some (line_of error) };

    fn fmt<W: fmt::Write>(&self, f: &mut fmt::Formatter<W>) -> fmt::Result {
        match self {
            SafeError::Options => write!(f, "unsafe options"),
            SafeError::Compile(error) => write!(f, "{error}"),
        }
    }
}

impl From<CompileError> for SafeError {
    ghost use Rattle.std.specs.Prelude.{◌≡◌};
    ghost use Rattle.md_html.specs.declared.safe_html.SafeError.TheVariants.{Compile};

    ghost from_gives = { λ cause error. error ≡ Compile cause };

    fn from(error: CompileError) -> SafeError {
        SafeError::Compile(error)
    }
}

/// Compiles a list of Markdown events to HTML, as [`compile`] does, if the options are safe.
///
/// The options are safe if `allow_any_img_src`, `allow_dangerous_html` and
/// `allow_dangerous_protocol` are off, and `gfm_footnote_label_tag_name` and
/// `gfm_footnote_label_attributes` are unset. The default options are safe.
///
/// # Errors
///
/// [`SafeError::Options`] exactly if the options aren't safe, whatever the other arguments are;
/// else the refusal of [`compile`].
///
/// # Examples
///
/// ```
/// let html = compile_safe(alloc, &events, bytes, &CompileOptions::gfm(), names)?;
/// let page = md_page::page(alloc, "Comments", &html)?;
/// ```
pub fn compile_safe(
    alloc: Global,
    events: &[Event],
    bytes: &[u8],
    options: &CompileOptions,
    names: &[(&str, &str)],
) -> Result<SafeHtml, SafeError>
    ensures promises { IfOk result (λ html.
        SafePromises options.now (handed events.now bytes.now names.now) html) }

    ensures options { IfErr result (IsRefusedFor options.now) }
    ensures refused { IfErr result (OfCompile (IsRefusal (handed events.now bytes.now names.now))) }
{
    if !are_safe(options) {
        return Err(SafeError::Options);
    }
    let text = compile(alloc, events, bytes, options, names)?;
    Ok(SafeHtml::new(text))
}

/// Whether options are safe.
pub(crate) fn are_safe(options: &CompileOptions) -> bool
    ensures { IsTrue result ↔ KeepsImages options.now }
{
    !options.allow_dangerous_html
        && options.gfm_footnote_label_tag_name.is_none()
        && options.gfm_footnote_label_attributes.is_none()
        && !options.allow_dangerous_protocol
        && !options.allow_any_img_src
}
