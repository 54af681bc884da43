//! Decodes the character references of texts and values, as HTML reads them.

use crate::legacy::{LONGEST, legacy};
use md_references::text_of_reference;
use memchr::{memchr2, memchr3};
use std::alloc::{AllocError, Global};
use std::borrow::CowStr;

/// The length of the longest name of a reference.
const MOST_OF_NAME: usize = 31;

/// Where a text is.
#[derive(Clone, Copy, PartialEq, Eq)]
pub enum Place {
    /// Between tags.
    Text,
    /// In an attribute.
    Value,
}

/// A text with its references decoded and its line endings as line feeds; without NUL, or in a
/// value with U+FFFD for it.
pub fn decode(alloc: Global, text: &str, place: Place) -> Result<CowStr<'_>, AllocError> {
    if memchr3(b'&', b'\r', 0, text.as_bytes()).is_none() {
        return Ok(CowStr::Borrowed(text));
    }
    let mut out = String::with_capacity(alloc, text.len())?;
    for (index, piece) in text.split('&').enumerate() {
        let rest = if index == 0 {
            piece
        } else {
            push_reference(alloc, &mut out, piece, place)?
        };
        push_plain(&mut out, rest, place)?;
    }
    Ok(CowStr::Owned(out))
}

/// Appends a text without references.
fn push_plain(out: &mut String, text: &str, place: Place) -> Result<(), AllocError> {
    if memchr2(b'\r', 0, text.as_bytes()).is_none() {
        return out.push_str(text);
    }
    let mut after_return = false;
    for character in text.chars() {
        match character {
            '\n' if after_return => {}
            '\r' => out.push('\n')?,
            '\0' if place == Place::Text => {}
            '\0' => out.push('\u{fffd}')?,
            _ => out.push(character)?,
        }
        after_return = character == '\r';
    }
    Ok(())
}

/// Appends the text of the reference whose `&` is before this text, and returns what follows it.
/// Where no reference begins, appends `&`.
fn push_reference<'a>(
    alloc: Global,
    out: &mut String,
    text: &'a str,
    place: Place,
) -> Result<&'a str, AllocError> {
    if let Some((character, rest)) = split_short(text) {
        out.push(character)?;
        return Ok(rest);
    }
    if let Some((name, rest)) = split_name(text) {
        let decoded = text_of_name(alloc, name)?;
        if !decoded.is_empty() {
            out.push_str(decoded.as_str())?;
            return Ok(rest);
        }
    }
    if let Some((character, rest)) = split_prefix(text, place) {
        out.push(character)?;
        return Ok(rest);
    }
    out.push('&')?;
    Ok(text)
}

/// The character of a number, or of a short name that ends in `;`, and the text after it.
fn split_short(text: &str) -> Option<(char, &str)> {
    if let Some(number) = text.strip_prefix('#') {
        return split_number(number);
    }
    let (name, rest) = split_name(text)?;
    let character = legacy(name.as_bytes())?;
    Some((character, rest))
}

/// The name at the beginning of a text, and the text after its `;`.
fn split_name(text: &str) -> Option<(&str, &str)> {
    let length = name_length(text.as_bytes(), MOST_OF_NAME);
    let (name, after) = text.split_at_checked(length)?;
    Some((name, after.strip_prefix(';')?))
}

/// The length of the letters and digits at the beginning of a text, up to `most`.
fn name_length(text: &[u8], most: usize) -> usize {
    text.iter()
        .take(most)
        .take_while(|byte| byte.is_ascii_alphanumeric())
        .count()
}

/// The text of a name, empty if HTML has no such name.
fn text_of_name(alloc: Global, name: &str) -> Result<String, AllocError> {
    let mut reference = String::with_capacity(alloc, name.len().saturating_add(2))?;
    reference.push('&')?;
    reference.push_str(name)?;
    reference.push(';')?;
    text_of_reference(alloc, reference.as_bytes())
}

/// The character of the longest name at the beginning of a text that is read without `;`, and the
/// text after it. In a value a name before `=`, a letter or a digit is no reference.
fn split_prefix(text: &str, place: Place) -> Option<(char, &str)> {
    let most = name_length(text.as_bytes(), LONGEST);
    for length in (2..most.saturating_add(1)).rev() {
        let (name, rest) = text.split_at_checked(length)?;
        if let Some(character) = legacy(name.as_bytes()) {
            return (place == Place::Text || !goes_on(rest)).then_some((character, rest));
        }
    }
    None
}

/// Whether a text begins with `=`, a letter or a digit.
fn goes_on(text: &str) -> bool {
    match text.as_bytes() {
        [byte, ..] => *byte == b'=' || byte.is_ascii_alphanumeric(),
        [] => false,
    }
}

/// The character of a number after `#`, and the text after it.
fn split_number(text: &str) -> Option<(char, &str)> {
    let hexadecimal = text.strip_prefix('x').or_else(|| text.strip_prefix('X'));
    let (digits, radix) = match hexadecimal {
        Some(digits) => (digits, 16),
        None => (text, 10),
    };
    let length = digits_length(digits.as_bytes(), radix);
    if length == 0 {
        return None;
    }
    let (number, after) = digits.split_at_checked(length)?;
    let character = character_of(number_of(number.as_bytes(), radix));
    Some((character, after.strip_prefix(';').unwrap_or(after)))
}

/// The length of the digits at the beginning of a text.
fn digits_length(text: &[u8], radix: u32) -> usize {
    text.iter()
        .take_while(|byte| digit(**byte, radix).is_some())
        .count()
}

/// The value of a digit.
fn digit(byte: u8, radix: u32) -> Option<u32> {
    match byte {
        b'0'..=b'9' => Some(u32::from(byte - b'0')),
        b'a'..=b'f' if radix == 16 => Some(u32::from(byte - b'a') + 10),
        b'A'..=b'F' if radix == 16 => Some(u32::from(byte - b'A') + 10),
        _ => None,
    }
}

/// The number of digits, at most the largest `u32`.
fn number_of(digits: &[u8], radix: u32) -> u32 {
    let mut number: u32 = 0;
    for byte in digits {
        let value = digit(*byte, radix).unwrap_or(0);
        number = number.saturating_mul(radix).saturating_add(value);
    }
    number
}

/// The character of a number: numbers of no character are U+FFFD, those of C1 controls are read as
/// in Windows-1252, and a carriage return is a line feed.
fn character_of(number: u32) -> char {
    match number {
        0 => '\u{fffd}',
        13 => '\n',
        0x80..=0x9f => windows_character(number),
        _ => char::from_u32(number).unwrap_or('\u{fffd}'),
    }
}

/// The character of a number from 128 to 159.
fn windows_character(number: u32) -> char {
    let index = number.saturating_sub(0x80) as usize;
    WINDOWS.get(index).copied().unwrap_or('\u{fffd}')
}

/// What HTML reads for numbers from 128 to 159.
#[rattlefmt::skip]
static WINDOWS: [char; 32] = [
    '\u{20ac}', '\u{81}', '\u{201a}', '\u{192}', '\u{201e}', '\u{2026}', '\u{2020}', '\u{2021}',
    '\u{2c6}', '\u{2030}', '\u{160}', '\u{2039}', '\u{152}', '\u{8d}', '\u{17d}', '\u{8f}',
    '\u{90}', '\u{2018}', '\u{2019}', '\u{201c}', '\u{201d}', '\u{2022}', '\u{2013}', '\u{2014}',
    '\u{2dc}', '\u{2122}', '\u{161}', '\u{203a}', '\u{153}', '\u{9d}', '\u{17e}', '\u{178}',
];
