//! The tokens of a leaf, in order.

ghost use Rattle.std.specs.Prelude.{◌≡◌};
ghost use Rattle.md_marks.specs.Pairs.{with_mark};

use std::alloc::AllocError;

/// The meaning of a token.
#[derive(Clone, Copy, Debug, PartialEq, Eq)]
pub enum Mark {
    /// Text, as between tokens.
    Text,
    /// It is part of the previous or the next token.
    Nothing,
    /// A backslash that escapes the next byte.
    Escape,
    EmphasisStart,
    EmphasisEnd,
    StrongStart,
    StrongEnd,
    StrikethroughStart,
    StrikethroughEnd,
    Code,
    Math,
    Html,
    /// A URL in angle brackets.
    Url,
    /// An address in angle brackets.
    Address,
    /// A bare URL with a protocol.
    BareUrl,
    /// A bare URL that begins with `www.`.
    BareWww,
    /// A line ending, with the spaces around it.
    LineEnding,
    /// A backslash at the end of a line.
    BreakEscape,
    /// Spaces at the end of a line.
    BreakSpaces,
    Reference,
    LinkStart,
    LinkEnd,
    ImageStart,
    ImageEnd,
    FootnoteCall,
}

/// A part of a leaf. What is between tokens is text.
#[derive(Clone, Copy, Debug, PartialEq, Eq)]
pub struct Token {
    pub mark: Mark,
    /// Its start, as a byte index.
    pub start: usize,
    /// Its end, as a byte index.
    pub end: usize,
    /// For code, math, HTML and a line ending the line in which it begins; for the end of a link or
    /// an image the index of its target; for the call of a footnote the footnote's number.
    pub index: usize,
}

/// Adds a token.
///
/// # Errors
///
/// Returns an error only if memory runs out.
#[inline(always)]
pub fn push_token(
    tokens: &mut Vec<Token>,
    mark: Mark,
    start: usize,
    end: usize,
    index: usize,
) -> Result<(), AllocError> {
    tokens.push(Token {
        mark,
        start,
        end,
        index,
    })?;
    Ok(())
}

/// Changes the mark of a token.
pub(crate) fn set_mark(tokens: &mut Vec<Token>, index: usize, mark: Mark)
    ensures { tokens.new.items ≡ with_mark mark index tokens.old.items }
{
    if let Some(token) = tokens.get_mut(index) {
        token.mark = mark;
    }
}
