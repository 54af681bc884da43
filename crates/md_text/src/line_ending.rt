//! The three line endings, and their texts.

use serde::{Deserialize, Serialize};
use std::str::FromStr;
use thiserror::Error;

/// A line ending.
///
/// # Examples
///
/// ```
/// let ending: LineEnding = "\r\n".parse()?;
/// assert_eq!(ending, LineEnding::CarriageReturnLineFeed);
/// assert_eq!(ending.as_str(), "\r\n");
/// ```
#[derive(Clone, Debug, Default, Eq, PartialEq, Serialize, Deserialize, Drop)]
pub enum LineEnding {
    /// `\r\n`
    #[serde(rename = "\r\n")]
    CarriageReturnLineFeed,
    /// `\r`
    #[serde(rename = "\r")]
    CarriageReturn,
    /// `\n`
    #[default]
    #[serde(rename = "\n")]
    LineFeed,
}

/// The error for a text that is no line ending.
#[derive(Clone, Copy, Debug, Eq, PartialEq, Error)]
#[error("Expected CR, LF, or CRLF")]
pub struct LineEndingError;

impl LineEnding {
    ghost use Rattle.std.specs.Prelude.{◌≡◌};
    ghost use Rattle.md_text.specs.LineEnding.{ending_text};

    /// The text of the line ending: `\r\n`, `\r` or `\n`.
    pub fn as_str(&self) -> &str
        ensures { result.now ≡ ending_text self.now }
    {
        match self {
            LineEnding::CarriageReturnLineFeed => "\r\n",
            LineEnding::CarriageReturn => "\r",
            LineEnding::LineFeed => "\n",
        }
    }
}

impl FromStr for LineEnding {
    ghost use Rattle.std.specs.Prelude.{◌≡◌};
    ghost use Rattle.std.specs.Result.{result_ok};
    ghost use Rattle.md_text.specs.LineEnding.{ending_of};

    type Err = LineEndingError;

    ghost from_str_gives = { λ text outcome. result_ok outcome ≡ ending_of text };

    fn from_str(text: &str) -> Result<Self, LineEndingError> {
        match text {
            "\r\n" => Ok(LineEnding::CarriageReturnLineFeed),
            "\r" => Ok(LineEnding::CarriageReturn),
            "\n" => Ok(LineEnding::LineFeed),
            _ => Err(LineEndingError),
        }
    }
}
