//! Character references, and the names that a document uses.

ghost use Rattle.std.specs.Prelude.{◌≡◌, ◌==◌, IfSome, IsTrue};
ghost use Rattle.std.specs.List.{before_first};
ghost use Rattle.md_base.specs.Reference.{name_table};
ghost use Rattle.md_references.specs.declared.names.TheConstants.{TEXT};
ghost use Rattle.md_references.specs.Names.{are_html, has, html_references, name_and_text};
ghost use Rattle.md_references.specs.Places.{IsBeforeEntry};

use crate::names::{COUNT, LENGTHS, STARTS, TEXT};
use md_base::decode_character_reference;
use std::alloc::{AllocError, Global};
use std::cmp::Ordering;
use std::str;

/// The maximum length of a name in bytes.
const MOST_OF_NAME: usize = 31;

/// The length of the character reference at the beginning of a text, whose first byte is `&`.
pub fn reference_length(text: &[u8]) -> Option<usize> {
    match text {
        [_, b'#', b'x' | b'X', digits @ ..] => {
            let count = digits
                .iter()
                .take(7)
                .take_while(|byte| byte.is_ascii_hexdigit())
                .count();
            numbered(digits, count, 6, 3)
        }
        [_, b'#', digits @ ..] => {
            let count = digits
                .iter()
                .take(8)
                .take_while(|byte| byte.is_ascii_digit())
                .count();
            numbered(digits, count, 7, 2)
        }
        [_, name @ ..] => named(name),
        [] => None,
    }
}

/// The length of a numeric reference with `count` digits, if these are from one to `most` and `;`
/// follows.
fn numbered(digits: &[u8], count: usize, most: usize, marks: usize) -> Option<usize> {
    if count == 0 || count > most || !matches!(digits.get(count), Some(b';')) {
        return None;
    }
    Some(marks.saturating_add(count).saturating_add(1))
}

/// The length of a named reference.
fn named(text: &[u8]) -> Option<usize> {
    let length = text
        .iter()
        .take(MOST_OF_NAME + 1)
        .take_while(|byte| byte.is_ascii_alphanumeric())
        .count();
    if !matches!(text.get(length), Some(b';')) {
        return None;
    }
    find(text.get(..length)?)?;
    Some(length.saturating_add(2))
}

/// The number of a name.
fn find(name: &[u8]) -> Option<usize> {
    let (mut low, mut high) = (0, COUNT);
    while low < high {
        let middle = low + (high - low) / 2;
        match name_at(middle)?.cmp(name) {
            Ordering::Less => low = middle + 1,
            Ordering::Equal => return Some(middle),
            Ordering::Greater => high = middle,
        }
    }
    None
}

/// A name by its number.
fn name_at(number: usize) -> Option<&'static [u8]> {
    let start = usize::from(*STARTS.get(number)?);
    let length = usize::from(*LENGTHS.get(number)?);
    table().as_bytes().get(start..start.saturating_add(length))
}

/// A name by its number, and its text.
fn entry(number: usize) -> Option<(&'static str, &'static str)>
    ensures { IfSome result (λ entry. IsTrue (has html_references (entry.0.now, entry.1.now))) }
{
    let start = usize::from(*STARTS.get(number)?);
    let (before, rest) = table().split_at_checked(start)?;
    if is_before_entry(before.as_bytes()) {
        name_and_text(first_entry(rest))
    } else {
        None
    }
}

/// Whether an entry begins after a text from the table's beginning.
fn is_before_entry(text: &[u8]) -> bool
    ensures { IsTrue result → IsBeforeEntry text.now }
{
    match text.split_last() {
        Some((last, _)) => *last == 0,
        None => true,
    }
}

/// The entry at the beginning of a text.
fn first_entry(text: &str) -> &str
    ensures { result.now ≡ before_first (λ byte. byte == 0) text.now }
{
    match text.split_once('\0') {
        Some((entry, _)) => entry,
        None => text,
    }
}

/// The name of an entry, and its text.
fn name_and_text(entry: &str) -> Option<(&str, &str)>
    ensures { IfSome result (λ parts. (parts.0.now, parts.1.now) ≡ name_and_text entry.now) }
{
    entry.split_once(';')
}

/// The whole table.
fn table() -> &'static str
    ensures { result.now ≡ TEXT.now }
{
    TEXT
}

/// Returns the text of a character reference, from its `&` to its `;`, or nothing if it isn't one.
///
/// # Errors
///
/// Returns an error only if memory runs out.
pub fn text_of_reference(alloc: Global, reference: &[u8]) -> Result<String, AllocError> {
    let inner = match reference {
        [b'&', inner @ .., b';'] => str::from_utf8(inner).unwrap_or(""),
        _ => "",
    };
    let text = match inner.as_bytes() {
        [b'#', b'x' | b'X', ..] => {
            let digits = inner.get(2..).unwrap_or("");
            decode_character_reference(alloc, digits, b'x', &[])?
        }
        [b'#', ..] => {
            let digits = inner.get(1..).unwrap_or("");
            decode_character_reference(alloc, digits, b'#', &[])?
        }
        name => match find(name).and_then(entry) {
            Some((_, text)) => Some(String::from_str(alloc, text)?),
            None => None,
        },
    };
    Ok(text.unwrap_or(String::new(alloc)))
}

/// The names that a document uses, each once.
#[derive(Drop)]
pub struct UsedNames {
    /// Each name with its text.
    names: Vec<(&'static str, &'static str)>,
    /// For each name of HTML whether it is among them; empty before the first.
    are_used: Vec<bool>,
    pub ghost html: { IsTrue (are_html (name_table names.items)) },
}

impl UsedNames {
    /// An empty list.
    pub fn new(alloc: Global) -> UsedNames {
        UsedNames {
            names: Vec::new(alloc),
            are_used: Vec::new(alloc),
        }
    }

    /// The names, each with its text.
    pub fn as_slice(&self) -> &[(&'static str, &'static str)]
        ensures html { IsTrue (are_html (name_table result.now)) }
    {
        self.names.as_slice()
    }

    /// Adds a name, if it is valid and isn't in the list.
    ///
    /// # Errors
    ///
    /// Returns an error only if memory runs out.
    pub fn add(&mut self, name: &[u8]) -> Result<(), AllocError> {
        let Some(number) = find(name) else {
            return Ok(());
        };
        if self.are_used.is_empty() {
            self.are_used.resize(COUNT, false)?;
        }
        let Some(is_used) = self.are_used.get_mut(number) else {
            return Ok(());
        };
        if *is_used {
            return Ok(());
        }
        *is_used = true;
        if let Some(entry) = entry(number) {
            self.names.push(entry)?;
        }
        Ok(())
    }
}
