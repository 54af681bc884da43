//! Character references: decodes a name or a number to its text.

ghost use Rattle.std.specs.Prelude.{◌≡◌, ◌≤◌, encode_utf8, option_copied, option_map, string_bytes};
ghost use Rattle.std.specs.Prelude.{IfOk};
ghost use Rattle.md_base.specs.Reference as spec;
ghost use Rattle.md_base.specs.Reference.{name_table, named, numbered, by_number, decoded};

use std::alloc::{AllocError, Global};

/// Decodes a character reference. The marker is `&` for a name, which is looked up in the names,
/// `#` for a decimal number and `x` for a hexadecimal one.
///
/// Returns `None` if the name is unknown, if the value isn't one or more digits of that radix whose
/// number fits a `u32`, or if the marker is another byte.
///
/// # Errors
///
/// `AllocError`, only if memory runs out: invalid references return `None`.
///
/// # Examples
///
/// ```
/// let text = decode_character_reference(alloc, "65", b'#', &[])?;
/// // Some("A")
/// ```
pub fn decode_character_reference(
    alloc: Global,
    value: &str,
    marker: u8,
    names: &[(&str, &str)],
) -> Result<Option<String>, AllocError>
    ensures { IfOk result
        (λ text. option_map string_bytes text ≡ decoded (name_table names.now) marker value.now) }
{
    match marker {
        b'&' => copy_text(alloc, find_name(names, value)),
        _ => decode_number(alloc, value, marker),
    }
}

/// Decodes a reference by a number: the marker is `#` for a decimal one and `x` for a hexadecimal
/// one. Returns `None` if the marker is another byte.
pub(crate) fn decode_number(
    alloc: Global,
    value: &str,
    marker: u8,
) -> Result<Option<String>, AllocError>
    ensures { IfOk result (λ text. option_map string_bytes text ≡ by_number marker value.now) }
{
    match marker {
        b'#' => copy_character(alloc, character_from_digits(value, 10)),
        b'x' => copy_character(alloc, character_from_digits(value, 16)),
        _ => Ok(None),
    }
}

pub(crate) fn copy_text(alloc: Global, text: Option<&str>) -> Result<Option<String>, AllocError>
    ensures { IfOk result (λ copy. option_map string_bytes copy ≡ option_copied text.entry) }
{
    match text {
        Some(text) => Ok(Some(String::from_str(alloc, text)?)),
        None => Ok(None),
    }
}

fn copy_character(alloc: Global, character: Option<char>) -> Result<Option<String>, AllocError>
    ensures { IfOk result
        (λ copy. option_map string_bytes copy ≡ option_map encode_utf8 character) }
{
    let Some(character) = character else {
        return Ok(None);
    };
    let mut text = String::new(alloc);
    text.push(character)?;
    Ok(Some(text))
}

/// The text of the first entry with this name.
pub(crate) fn find_name<'a>(names: &[(&str, &'a str)], name: &str) -> Option<&'a str>
    ensures { option_copied result ≡ named (name_table names.now) name.now }
{
    for (entry, text) in names {
        if *entry == name {
            return Some(text);
        }
    }
    None
}

/// The character that these digits encode, if their number fits a `u32`.
fn character_from_digits(digits: &str, radix: u32) -> Option<char>
    requires low { 2 ≤ radix }
    requires high { radix ≤ 36 }
    ensures { option_map encode_utf8 result ≡ numbered radix digits.now }
{
    // `from_str_radix` accepts a plus sign, which a reference can't have.
    if digits.starts_with('+') {
        return None;
    }
    let code = u32::from_str_radix(digits, radix).ok()?;
    Some(character_from_code(code))
}

/// The character with this code, or U+FFFD if a reference may not encode that character.
fn character_from_code(code: u32) -> char
    ensures { encode_utf8 result ≡ spec.character_of code }
{
    if is_replaced(code) {
        return char::REPLACEMENT_CHARACTER;
    }
    char::from_u32(code).unwrap_or(char::REPLACEMENT_CHARACTER)
}

fn is_replaced(code: u32) -> bool
    ensures { result ≡ spec.is_replaced code }
{
    matches!(code, 0..=8 | 11 | 14..=31 | 127..=159 | 0xD800..=0xDFFF | 0xFDD0..=0xFDEF)
        || code % 0x1_0000 == 0xFFFE
        || code % 0x1_0000 == 0xFFFF
        || code > 0x10_FFFF
}
