//! The slug of a heading's text.

use std::alloc::{AllocError, Global};
use ucd_category::GeneralCategory;

/// Returns the slug of an escaped text, as GitHub derives it from a heading: in lower case, only
/// with letters, marks, numbers, connectors, spaces and hyphens, and with each space replaced by a
/// hyphen.
///
/// # Errors
///
/// Returns an error only if memory runs out.
///
/// # Examples
///
/// ```
/// let slug = slug(alloc, "What's new &amp; old?")?;
/// assert_eq!(slug.as_str(), "whats-new--old");
/// ```
pub fn slug(alloc: Global, text: &str) -> Result<String, AllocError> {
    let mut slug = String::new(alloc);
    // The character of one of the four references is left out, as the reference is.
    let mut is_in_reference = false;
    for character in text.chars() {
        match character {
            '&' => is_in_reference = true,
            ';' => is_in_reference = false,
            _ if is_in_reference => {}
            _ => push_lower(&mut slug, character)?,
        }
    }
    Ok(slug)
}

/// Appends the slug of a character.
fn push_lower(slug: &mut String, character: char) -> Result<(), AllocError> {
    if character == ' ' {
        return slug.push('-');
    }
    if is_kept(character) {
        for lower in character.to_lowercase() {
            slug.push(lower)?;
        }
    }
    Ok(())
}

/// Whether a slug keeps a character, in lower case.
fn is_kept(character: char) -> bool {
    match character {
        'a'..='z' | 'A'..='Z' | '0'..='9' | '_' | '-' => true,
        _ if character.is_ascii() => false,
        _ => is_word(character),
    }
}

/// Whether a character is a letter, a mark, a number or a connector.
fn is_word(character: char) -> bool {
    match GeneralCategory::for_char(character) {
        GeneralCategory::UppercaseLetter
        | GeneralCategory::LowercaseLetter
        | GeneralCategory::TitlecaseLetter
        | GeneralCategory::ModifierLetter
        | GeneralCategory::OtherLetter
        | GeneralCategory::NonspacingMark
        | GeneralCategory::SpacingMark
        | GeneralCategory::EnclosingMark
        | GeneralCategory::DecimalNumber
        | GeneralCategory::LetterNumber
        | GeneralCategory::OtherNumber
        | GeneralCategory::ConnectorPunctuation => true,
        _ => false,
    }
}
