//! Tags of HTML.

ghost use Rattle.std.specs.Prelude.{◌≡◌, ◌≤◌, Some, is_some, length, not, ◌==◌, true};
ghost use Rattle.std.specs.List.{prefix_len};
ghost use Rattle.md_lines.specs.Classes.{is_in};
ghost use Rattle.md_lines.specs.Reading.{ReadSame, text_from};
ghost use Rattle.md_lines.specs.Tags.{after_byte, after_name, after_opening, after_quoted, after_run};
ghost use Rattle.md_lines.specs.Tags.{after_specification, after_tag, after_tag_name, after_value};
ghost use Rattle.md_lines.specs.Tags.{begins_name, has_attribute, is_in_tag_name, next_passes, past};
ghost use Rattle.md_lines.specs.declared.class.Class.TheVariants as class;
ghost use Rattle.md_lines.specs.Texts.{after_spaces, size};

use crate::class::{Class, is};
use crate::cursor::{Cursor, Place};
use crate::line::Line;

/// Returns the end of an opening or closing tag that begins at a place, or `None` if there is no
/// tag. A tag may span lines.
pub fn read_tag(bytes: &[u8], lines: &[Line], place: Place) -> Option<Place> {
    let mut cursor = Cursor::new(bytes, lines, place);
    if skip_tag(&mut cursor) {
        Some(cursor.place())
    } else {
        None
    }
}

/// Skips an opening or closing tag; returns whether there was one. A tag may span lines.
pub fn skip_tag(cursor: &mut Cursor<'_>) -> bool
    ensures found { result ≡ is_some (after_tag (text_from cursor.old)) }
    ensures text { result ≡ true
        → after_tag (text_from cursor.old) ≡ Some (text_from cursor.new) }
    ensures same { ReadSame cursor.old cursor.new }
{
    if !cursor.take(b'<') {
        return false;
    }
    let is_closing = cursor.take(b'/');
    skip_name(cursor) && skip_after_name(cursor, is_closing)
}

/// Skips a tag's name; returns whether there was one.
fn skip_name(cursor: &mut Cursor<'_>) -> bool
    ensures found { result ≡ is_some (after_tag_name (text_from cursor.old)) }
    ensures text { result ≡ true
        → after_tag_name (text_from cursor.old) ≡ Some (text_from cursor.new) }
    ensures same { ReadSame cursor.old cursor.new }
{
    let at = cursor.at;
    let name = cursor.rest_of_line();
    if name.is_empty() || !is(name[0], Class::Alphabetic) {
        return false;
    }
    cursor.at = at + name_length(name);
    true
}

/// The length of the letters, digits and hyphens at the beginning of a text.
fn name_length(text: &[u8]) -> usize
    ensures within { result ≤ length text.now }
    ensures value { result ≡ prefix_len is_in_tag_name text.now }
{
    let mut length = 0;
    while length < text.len() && is_in_tag_name(text[length]) {
        length += 1;
    }
    length
}

/// Whether a byte may be in a tag's name after its first byte.
#[inline(always)]
fn is_in_tag_name(byte: u8) -> bool
    ensures { result ≡ is_in_tag_name byte }
{
    is(byte, Class::Alphanumeric) || byte == b'-'
}

/// Skips what follows the name of a tag; returns whether it is a tag.
fn skip_after_name(cursor: &mut Cursor<'_>, is_closing: bool) -> bool
    ensures found { result ≡ is_some (after_name is_closing (text_from cursor.old)) }
    ensures text { result ≡ true
        → after_name is_closing (text_from cursor.old) ≡ Some (text_from cursor.new) }
    ensures same { ReadSame cursor.old cursor.new }
{
    if is_closing {
        cursor.skip_spaces();
        return cursor.take(b'>');
    }
    skip_opening(cursor)
}

/// Skips the attributes of an opening tag, and its end; returns whether it is a tag.
fn skip_opening(cursor: &mut Cursor<'_>) -> bool
    ensures found { result
        ≡ is_some (after_opening (size (text_from cursor.old)) (text_from cursor.old)) }
    ensures text { result ≡ true → after_opening (size (text_from cursor.old))
        (text_from cursor.old) ≡ Some (text_from cursor.new) }
    ensures same { ReadSame cursor.old cursor.new }
{
    'attributes: while skip_to_attribute(cursor) {
        if !skip_attribute(cursor) {
            return false;
        }
    }
    skip_end(cursor)
}

/// Skips spaces; returns whether an attribute follows them.
fn skip_to_attribute(cursor: &mut Cursor<'_>) -> bool
    ensures has { result ≡ has_attribute (text_from cursor.old) }
    ensures text { text_from cursor.new ≡ after_spaces (text_from cursor.old) }
    ensures same { ReadSame cursor.old cursor.new }
{
    cursor.skip_spaces() && begins_name(cursor)
}

/// Skips the end of an opening tag; returns whether it is there.
fn skip_end(cursor: &mut Cursor<'_>) -> bool
    ensures found { result ≡ is_some (after_byte 62 (past 47 (text_from cursor.old))) }
    ensures text { result ≡ true
        → after_byte 62 (past 47 (text_from cursor.old)) ≡ Some (text_from cursor.new) }
    ensures same { ReadSame cursor.old cursor.new }
{
    cursor.take(b'/');
    cursor.take(b'>')
}

/// Whether the name of an attribute comes next in the line.
#[inline(always)]
fn begins_name(cursor: &Cursor<'_>) -> bool
    ensures { result ≡ next_passes begins_name (text_from cursor.now) }
{
    match cursor.rest_of_line().first() {
        Some(byte) => is(*byte, Class::Alphabetic) || *byte == b'_' || *byte == b':',
        None => false,
    }
}

/// Skips the name and the value of an attribute; returns whether they are well formed.
fn skip_attribute(cursor: &mut Cursor<'_>) -> bool
    ensures found { result ≡ is_some
        (after_specification (after_run (is_in class.Name) (text_from cursor.old))) }
    ensures text { result ≡ true → after_specification
        (after_run (is_in class.Name) (text_from cursor.old)) ≡ Some (text_from cursor.new) }
    ensures same { ReadSame cursor.old cursor.new }
{
    cursor.skip(Class::Name);
    let after_name = *cursor;
    cursor.skip_spaces();
    if !cursor.take(b'=') {
        *cursor = after_name;
        return true;
    }
    cursor.skip_spaces();
    skip_value(cursor)
}

/// Skips an attribute's value; returns whether there was one.
fn skip_value(cursor: &mut Cursor<'_>) -> bool
    ensures found { result ≡ is_some (after_value (text_from cursor.old)) }
    ensures text { result ≡ true
        → after_value (text_from cursor.old) ≡ Some (text_from cursor.new) }
    ensures same { ReadSame cursor.old cursor.new }
{
    if cursor.take(b'"') {
        skip_quoted(cursor, b'"')
    } else if cursor.take(b'\'') {
        skip_quoted(cursor, b'\'')
    } else {
        cursor.skip(Class::Unquoted)
    }
}

/// Skips a value up to its closing quote; returns whether there was one.
fn skip_quoted(cursor: &mut Cursor<'_>, quote: u8) -> bool
    ensures found { result ≡ is_some (after_quoted quote (text_from cursor.old)) }
    ensures text { result ≡ true
        → after_quoted quote (text_from cursor.old) ≡ Some (text_from cursor.new) }
    ensures same { ReadSame cursor.old cursor.new }
{
    'lines: loop {
        let at = cursor.at;
        let text = cursor.rest_of_line();
        let length = value_length(text, quote);
        if length < text.len() {
            cursor.at = at + length + 1;
            return true;
        }
        if !cursor.next_line() {
            return false;
        }
    }
}

/// The number of bytes before the first quote of a text.
fn value_length(text: &[u8], quote: u8) -> usize
    ensures { result ≡ prefix_len (λ byte. not (byte == quote)) text.now }
{
    let mut length = 0;
    while length < text.len() && text[length] != quote {
        length += 1;
    }
    length
}
