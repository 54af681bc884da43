//! Classes of characters, as the rules of emphasis distinguish them.

ghost use Rattle.std.specs.Prelude.{◌≡◌, ◌<◌, ◌≤◌, ◌++◌, ℕ, List, Some, IfSome, get_or};
ghost use Rattle.std.specs.Prelude.{encode_utf8, length, nat_lt};
ghost use Rattle.std.specs.Str.{IsUtf8, chars};
ghost use Rattle.std.specs.Char.{IsScalar};
ghost use Rattle.md_marks.specs.Characters.{class_of, class_of_first, class_of_last, is_ascii_space};
ghost use Rattle.md_marks.specs.Emphasis.{can_open, can_close, is_left_flanking};

use md_lines::{Class, is};
use std::str;
use ucd_category::GeneralCategory;

/// A class of characters.
#[derive(Clone, Copy, Debug, PartialEq, Eq)]
pub enum CharacterClass {
    /// White space, and the beginning and end of a text.
    Space,
    /// Punctuation.
    Punctuation,
    /// Every other character.
    Word,
}

/// The class of the last character of a text.
pub fn class_before(text: &[u8]) -> CharacterClass
    ensures { IsUtf8 text.now → result ≡ class_of_last (chars text.now) }
{
    match text.last() {
        None => CharacterClass::Space,
        Some(byte) if *byte < 128 => class_of_byte(*byte),
        Some(_) => class_of(last_character(text)),
    }
}

/// The class of the first character of a text.
pub fn class_after(text: &[u8]) -> CharacterClass
    ensures { IsUtf8 text.now → result ≡ class_of_first (chars text.now) }
{
    match text.first() {
        None => CharacterClass::Space,
        Some(byte) if *byte < 128 => class_of_byte(*byte),
        Some(byte) => class_of(first_character(text, *byte)),
    }
}

/// The class of a one-byte character.
#[inline(always)]
fn class_of_byte(byte: u8) -> CharacterClass
    ensures { byte < 128 → result ≡ class_of byte }
{
    if is(byte, Class::Punctuation) {
        CharacterClass::Punctuation
    } else if is_ascii_space(byte) {
        CharacterClass::Space
    } else {
        CharacterClass::Word
    }
}

/// Whether a byte is white space of ASCII, but for the vertical tab.
#[inline(always)]
fn is_ascii_space(byte: u8) -> bool
    ensures { result ≡ is_ascii_space byte }
{
    matches!(byte, b' ' | b'\t' | b'\n' | b'\x0c' | b'\r')
}

/// The last character of a text, if it has two to four bytes.
fn last_character(text: &[u8]) -> Option<char>
    ensures { (before : List ℕ) (c : ℕ) → IsScalar c → 128 ≤ c
        → text.now ≡ before ++ encode_utf8 c → result ≡ Some c }
{
    let start = text.len().checked_sub(last_length(text))?;
    only_character(text.get(start..)?)
}

/// The length in bytes of the last character of a text, if it has two to four.
fn last_length(text: &[u8]) -> usize
    ensures { (before : List ℕ) (c : ℕ) → IsScalar c → 128 ≤ c
        → text.now ≡ before ++ encode_utf8 c → result ≡ length (encode_utf8 c) }
{
    let end = text.len();
    if is_first(text, end.saturating_sub(2)) {
        2
    } else if is_first(text, end.saturating_sub(3)) {
        3
    } else {
        4
    }
}

/// Whether the byte at an index is the first of a character of several bytes.
fn is_first(text: &[u8], at: usize) -> bool
    ensures { result ≡ nat_lt 191 (get_or text.now at 0) }
{
    matches!(text.get(at), Some(192..=255))
}

/// The first character of a text, which begins with a byte, if it has two to four bytes.
fn first_character(text: &[u8], first: u8) -> Option<char>
    ensures { (c : ℕ) (after : List ℕ) → IsScalar c → 128 ≤ c
        → text.now ≡ encode_utf8 c ++ after → get_or text.now 0 0 ≡ first → result ≡ Some c }
{
    only_character(text.get(..length_by(first))?)
}

/// The length in bytes of a character of several, by its first one.
fn length_by(first: u8) -> usize
    ensures { (c : ℕ) → IsScalar c → 128 ≤ c → get_or (encode_utf8 c) 0 0 ≡ first
        → result ≡ length (encode_utf8 c) }
{
    match first {
        0..224 => 2,
        224..240 => 3,
        _ => 4,
    }
}

/// The character of a text that has one alone.
fn only_character(text: &[u8]) -> Option<char>
    ensures { (c : ℕ) → IsScalar c → text.now ≡ encode_utf8 c → result ≡ Some c }
{
    str::from_utf8(text).ok()?.chars().next()
}

/// The class of a character of more than one byte; without one, that of a word's.
fn class_of(character: Option<char>) -> CharacterClass
    ensures { IfSome character (λ c. 128 ≤ c → result ≡ class_of c) }
{
    let Some(character) = character else {
        return CharacterClass::Word;
    };
    match GeneralCategory::for_char(character) {
        GeneralCategory::SpaceSeparator => CharacterClass::Space,
        GeneralCategory::ConnectorPunctuation
        | GeneralCategory::DashPunctuation
        | GeneralCategory::OpenPunctuation
        | GeneralCategory::ClosePunctuation
        | GeneralCategory::InitialPunctuation
        | GeneralCategory::FinalPunctuation
        | GeneralCategory::OtherPunctuation => CharacterClass::Punctuation,
        _ => CharacterClass::Word,
    }
}

/// Whether a run of a byte can open and whether it can close, by the characters before and after
/// it.
pub fn flanks(
    byte: u8,
    length: usize,
    before: CharacterClass,
    after: CharacterClass,
) -> (bool, bool)
    ensures opens { result.0 ≡ can_open byte length before after }
    ensures closes { result.1 ≡ can_close byte length before after }
{
    let is_left = flanks_on_one_side(after, before);
    let is_right = flanks_on_one_side(before, after);
    match byte {
        b'_' => (
            is_left && (!is_right || matches!(before, CharacterClass::Punctuation)),
            is_right && (!is_left || matches!(after, CharacterClass::Punctuation)),
        ),
        b'~' if length > 2 => (false, false),
        _ => (is_left, is_right),
    }
}

/// Whether a run flanks the character `near`, with `far` on its other side: it is left-flanking if
/// `near` follows it, and right-flanking if `near` precedes it.
fn flanks_on_one_side(near: CharacterClass, far: CharacterClass) -> bool
    ensures { result ≡ is_left_flanking far near }
{
    match near {
        CharacterClass::Space => false,
        CharacterClass::Punctuation => !matches!(far, CharacterClass::Word),
        CharacterClass::Word => true,
    }
}
