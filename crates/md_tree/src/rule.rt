//! The rules of the grammar, and the errors of the check.

use std::alloc::{AllocError, AllocFailed};
use std::fmt;
use thiserror::Error;

/// Why the check refuses a list of events.
#[derive(Clone, Copy, Debug, PartialEq, Eq)]
pub enum Rule {
    /// No tree's events begin so, or a node or a group is open at the end.
    Order,
    /// A name of MDX.
    Mdx,
    /// A position that is read doesn't fit the bytes, or isn't UTF-8.
    Place,
    /// A line ending isn't LF, CR or CR LF.
    LineEnding,
    /// The first mark of a heading doesn't have a length of 1 to 6.
    HeadingMark,
    /// The value of an ordered list's first item isn't a number under 2^32.
    ListNumber,
    /// A character reference doesn't decode.
    CharacterReference,
    /// A link or an image has an identifier that no definition has.
    Definition,
    /// A footnote call has an identifier that no footnote definition has.
    Footnote,
    /// A link or an image has no target.
    Target,
}

impl fmt::Display for Rule {
    ghost use Rattle.std.specs.Prelude.{Some};
    ghost use Rattle.md_tree.specs.Names.{name_of};

    ghost output = { λ rule. Some (name_of rule) };

    fn fmt<W: fmt::Write>(&self, f: &mut fmt::Formatter<W>) -> fmt::Result {
        match *self {
            Rule::Order => f.write_str("Order"),
            Rule::Mdx => f.write_str("Mdx"),
            Rule::Place => f.write_str("Place"),
            Rule::LineEnding => f.write_str("LineEnding"),
            Rule::HeadingMark => f.write_str("HeadingMark"),
            Rule::ListNumber => f.write_str("ListNumber"),
            Rule::CharacterReference => f.write_str("CharacterReference"),
            Rule::Definition => f.write_str("Definition"),
            Rule::Footnote => f.write_str("Footnote"),
            Rule::Target => f.write_str("Target"),
        }
    }
}

/// The error of `check`.
#[derive(Debug, PartialEq, Eq, Drop, Error)]
pub enum CompileError {
    /// Memory ran out.
    Memory,
    /// An event breaks a rule. The index is the number of events if something is open at the end.
    Event { index: usize, rule: Rule },
}

impl fmt::Display for CompileError {
    ghost use Rattle.std.specs.Prelude.{Some};
    ghost use Rattle.md_tree.specs.Names.{message_of};

    ghost output = { λ error. Some (message_of error) };

    fn fmt<W: fmt::Write>(&self, f: &mut fmt::Formatter<W>) -> fmt::Result {
        match self {
            CompileError::Memory => write!(f, "out of memory"),
            CompileError::Event { index, rule } => write!(f, "event {index}: {rule}"),
        }
    }
}

impl From<AllocError> for CompileError {
    ghost use Rattle.std.specs.Prelude.{◌≡◌};
    ghost use Rattle.md_tree.specs.declared.rule.CompileError.TheVariants.{Memory};

    ghost from_gives = { λ _ made. made ≡ Memory };

    fn from(_error: AllocError) -> CompileError {
        CompileError::Memory
    }
}

impl<T: Drop> From<AllocFailed<T>> for CompileError {
    ghost use Rattle.std.specs.Prelude.{◌≡◌};
    ghost use Rattle.md_tree.specs.declared.rule.CompileError.TheVariants.{Memory};

    ghost from_gives = { λ _ made. made ≡ Memory };

    fn from(_error: AllocFailed<T>) -> CompileError {
        CompileError::Memory
    }
}
