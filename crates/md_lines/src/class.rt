//! Classes of bytes.

ghost use Rattle.std.specs.Prelude.{◌≡◌};
ghost use Rattle.md_lines.specs.Classes.{is_in, class_number};

/// A class of bytes. A byte may be in several.
#[derive(Clone, Copy, PartialEq, Eq, Debug)]
pub enum Class {
    /// A space or a tab.
    Space,
    /// ASCII punctuation.
    Punctuation,
    /// An ASCII letter or digit.
    Alphanumeric,
    /// An ASCII letter.
    Alphabetic,
    /// A byte that may begin a mark in text: an escape, code, a link, emphasis, math, a bare
    /// address.
    Mark,
    /// A byte of an attribute's name: a letter, a digit, `_`, `:`, `.` or `-`.
    Name,
    /// A byte of an unquoted attribute value.
    Unquoted,
}

/// Whether a byte is in a class.
#[inline(always)]
pub fn is(byte: u8, class: Class) -> bool
    ensures { result ≡ is_in class byte }
{
    CLASSES[usize::from(byte)] & number_of(class) != 0
}

/// The number of a class: a power of two, so that sums of them are sets.
#[inline(always)]
fn number_of(class: Class) -> u8
    ensures { result ≡ class_number class }
{
    match class {
        Class::Space => 1,
        Class::Punctuation => 2,
        Class::Alphanumeric => 4,
        Class::Alphabetic => 8,
        Class::Mark => 16,
        Class::Name => 32,
        Class::Unquoted => 64,
    }
}

/// The sum of the classes of each byte.
const CLASSES: [u8; 256] = [
    64, 64, 64, 64, 64, 64, 64, 64, 64, 1, 0, 64, 64, 0, 64, 64, 64, 64, 64, 64, 64, 64, 64, 64,
    64, 64, 64, 64, 64, 64, 64, 64, 1, 82, 2, 66, 82, 66, 82, 2, 66, 66, 82, 66, 66, 98, 114, 66,
    100, 100, 100, 100, 100, 100, 100, 100, 100, 100, 114, 66, 18, 2, 2, 66, 82, 108, 108, 108,
    108, 108, 108, 108, 108, 108, 108, 108, 108, 108, 108, 108, 108, 108, 108, 108, 108, 108, 108,
    108, 108, 108, 108, 82, 82, 82, 66, 114, 18, 108, 108, 108, 108, 108, 108, 108, 108, 108, 108,
    108, 108, 108, 108, 108, 108, 108, 108, 108, 108, 108, 108, 108, 108, 108, 108, 66, 66, 66, 82,
    64, 64, 64, 64, 64, 64, 64, 64, 64, 64, 64, 64, 64, 64, 64, 64, 64, 64, 64, 64, 64, 64, 64, 64,
    64, 64, 64, 64, 64, 64, 64, 64, 64, 64, 64, 64, 64, 64, 64, 64, 64, 64, 64, 64, 64, 64, 64, 64,
    64, 64, 64, 64, 64, 64, 64, 64, 64, 64, 64, 64, 64, 64, 64, 64, 64, 64, 64, 64, 64, 64, 64, 64,
    64, 64, 64, 64, 64, 64, 64, 64, 64, 64, 64, 64, 64, 64, 64, 64, 64, 64, 64, 64, 64, 64, 64, 64,
    64, 64, 64, 64, 64, 64, 64, 64, 64, 64, 64, 64, 64, 64, 64, 64, 64, 64, 64, 64, 64, 64, 64, 64,
    64, 64, 64, 64, 64, 64, 64, 64, 64,
];
