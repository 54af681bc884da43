//! Identifiers in the form in which they are compared.

ghost use Rattle.std.specs.Prelude.{◌≡◌, ◌++◌, [], ◌∷◌, if◌then◌else◌, encode_utf8, string_bytes};
ghost use Rattle.std.specs.Prelude.{IfOk, OnOk, chars, encode_utf8_all, map, IsTrue};
ghost use Rattle.std.specs.Char.{to_ascii_lowercase};
ghost use Rattle.caseless.specs.Caseless.{default_case_fold};
ghost use Rattle.ucd_case.specs.CaseFolding.{full_fold};
ghost use Rattle.md_base.specs.Identifier.{is_white, collapsed, normalized};

use crate::collapsed::is_collapsed;
use crate::text::is_ascii;
use std::alloc::{AllocError, Global};
use ucd_case::full_folding;

/// Returns an identifier in the form in which identifiers are compared: each run of white space
/// becomes one space, white space at the ends is removed, and case is folded.
///
/// # Errors
///
/// `AllocError`, only if memory runs out.
///
/// # Examples
///
/// ```
/// let identifier = normalize_identifier(alloc, " a\t\n B ")?;
/// assert_eq!(identifier.as_str(), "a b");
/// ```
pub fn normalize_identifier(alloc: Global, value: &str) -> Result<String, AllocError>
    ensures { IfOk result (λ text. string_bytes text ≡ normalized value.now) }
{
    if is_collapsed(value.as_bytes()) {
        return fold_case(alloc, value);
    }
    let text = collapse_white_space(alloc, value)?;
    fold_case(alloc, text.as_str())
}

/// Returns the text with case folded. Most identifiers have no capital letter outside ASCII, and
/// need only one copy.
#[inline(always)]
fn fold_case(alloc: Global, text: &str) -> Result<String, AllocError>
    ensures { IfOk result
        (λ folded. string_bytes folded ≡ encode_utf8_all (default_case_fold (chars text.now))) }
{
    if is_lowered(text) {
        text.to_ascii_lowercase(alloc)
    } else {
        fold_wide_case(alloc, text)
    }
}

/// Whether lowering the ASCII letters of the text folds its case.
#[tactic(auto, using(crate::proofs::FoldLemmas::fold_ascii))]
#[inline(always)]
fn is_lowered(text: &str) -> bool
    ensures { IsTrue result
        → map to_ascii_lowercase text.now ≡ encode_utf8_all (default_case_fold (chars text.now)) }
{
    if is_ascii(text.as_bytes()) {
        return true;
    }
    is_wide_lowered(text)
}

/// The same for a text that isn't ASCII.
#[inline(never)]
fn is_wide_lowered(text: &str) -> bool
    ensures { IsTrue result
        → map to_ascii_lowercase text.now ≡ encode_utf8_all (default_case_fold (chars text.now)) }
{
    for character in text.chars() {
        if !is_character_lowered(character) {
            return false;
        }
    }
    true
}

/// The same for a character.
#[inline(always)]
fn is_character_lowered(character: char) -> bool
    ensures { IsTrue result
        → map to_ascii_lowercase (encode_utf8 character) ≡ encode_utf8_all (full_fold character) }
{
    if character.is_ascii() {
        return true;
    }
    full_folding(character).is_empty()
}

/// Returns the text with case folded. Reserves the length of the text, which is enough for most.
#[inline(never)]
fn fold_wide_case(alloc: Global, text: &str) -> Result<String, AllocError>
    ensures { IfOk result
        (λ folded. string_bytes folded ≡ encode_utf8_all (default_case_fold (chars text.now))) }
{
    let mut folded = String::with_capacity(alloc, text.len())?;
    for character in text.chars() {
        push_folded(&mut folded, character)?;
    }
    Ok(folded)
}

/// Pushes the folding of a character: the character itself if it has none.
#[tactic(auto, using(crate::proofs::FoldLemmas::lowered_folds))]
#[inline(always)]
fn push_folded(text: &mut String, character: char) -> Result<(), AllocError>
    ensures { OnOk result
        (string_bytes text.new ≡ string_bytes text.old ++ encode_utf8_all (full_fold character)) }
{
    if character.is_ascii() {
        return text.push(character.to_ascii_lowercase());
    }
    match full_folding(character) {
        [] => text.push(character),
        [folding] => text.push(*folding),
        folding => push_characters(text, folding),
    }
}

#[inline(never)]
fn push_characters(text: &mut String, characters: &[char]) -> Result<(), AllocError>
    ensures { OnOk result
        (string_bytes text.new ≡ string_bytes text.old ++ encode_utf8_all characters.now) }
{
    for character in characters {
        text.push(*character)?;
    }
    Ok(())
}

/// Returns the text with each run of white space as one space, and none at the ends.
#[inline(never)]
fn collapse_white_space(alloc: Global, value: &str) -> Result<String, AllocError>
    ensures { IfOk result (λ text. string_bytes text ≡ collapsed value.now) }
{
    let mut text = String::new(alloc);
    let mut is_gap = false;
    for character in value.chars() {
        if is_white_space(character) {
            is_gap = !text.is_empty();
        } else {
            push_after_gap(&mut text, is_gap, character)?;
            is_gap = false;
        }
    }
    Ok(text)
}

fn is_white_space(character: char) -> bool
    ensures { result ≡ is_white character }
{
    character == '\t' || character == '\n' || character == '\r' || character == ' '
}

fn push_after_gap(text: &mut String, is_gap: bool, character: char) -> Result<(), AllocError>
    ensures { OnOk result (string_bytes text.new
        ≡ string_bytes text.old ++ ((if is_gap then 32 ∷ [] else []) ++ encode_utf8 character)) }
{
    if is_gap {
        text.push(' ')?;
    }
    text.push(character)
}
