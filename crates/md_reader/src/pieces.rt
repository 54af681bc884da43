//! Whether a text is a piece of what authors write.

ghost use Rattle.std.specs.Prelude.{◌≡◌, ◌∷◌, IfSome, IsTrue, List, true};
ghost use Rattle.md_text.specs.Html.{Attribute, are_attributes, elements, is_tag};
ghost use Rattle.md_text.specs.References.{is_escaped};
ghost use Rattle.md_reader.specs.Names.{listed};
ghost use Rattle.md_reader.specs.Pieces.{IsAuthorsPiece, IsEndTag, IsStartTag, IsVoidTag};

use crate::attributes::{past_attributes, split_name};
use crate::content::{Content, child};
use crate::names::{Listed, listed_for_void, void_named};
use crate::places::is_same;
use crate::protocol::Protocols;
use crate::rules::{Rules, Tags, is_own_tag};
use crate::run::{past, split_escaped};

/// Whether a text is one tag that authors may write, in the form of the grammar and with these
/// permitted protocols, or an escaped text.
///
/// # Examples
///
/// ```
/// let protocols = Protocols { links: &["https"], images: &["https"] };
/// assert!(is_authors_piece(b"<p align=\"center\">", protocols));
/// assert!(!is_authors_piece(b"<p class=\"a\">", protocols));
/// ```
pub fn is_authors_piece(text: &[u8], protocols: Protocols) -> bool
    ensures { IsTrue result → IsAuthorsPiece text.now }
{
    match past(b"<", text) {
        Some(tag) => match past(b"/", tag) {
            Some(end) => is_end_tag(end),
            None => is_start_tag(tag, protocols) || is_void_tag(tag, protocols),
        },
        None => is_escaped(text),
    }
}

/// Whether a text is escaped.
fn is_escaped(text: &[u8]) -> bool
    ensures { IsTrue result → IsTrue (is_escaped text.now) }
{
    let (_, rest) = split_escaped(text);
    rest.is_empty()
}

/// Whether a text is an end tag without its `</`.
fn is_end_tag(text: &[u8]) -> bool
    ensures { IsTrue result → IsEndTag (60 ∷ 47 ∷ text.now) }
{
    let (name, rest) = split_name(text);
    if is_own_tag(name) {
        return false;
    }
    match list_of_element(name) {
        Some(_) => is_same(rest, b">"),
        None => false,
    }
}

/// Whether a text is a start tag without its `<`.
fn is_start_tag(text: &[u8], protocols: Protocols) -> bool
    ensures { IsTrue result → IsStartTag (60 ∷ text.now) }
{
    let rules = Rules {
        protocols,
        tags: Tags::OfAuthors,
    };
    let (name, after) = split_name(text);
    if is_own_tag(name) {
        return false;
    }
    let Some(list) = list_of_element(name) else {
        return false;
    };
    match past_attributes(&rules, list, after) {
        Some(rest) => is_same(rest, b">"),
        None => false,
    }
}

/// Whether a text is a void tag without its `<`.
fn is_void_tag(text: &[u8], protocols: Protocols) -> bool
    ensures { IsTrue result → IsVoidTag (60 ∷ text.now) }
{
    let rules = Rules {
        protocols,
        tags: Tags::OfAuthors,
    };
    let (name, after) = split_name(text);
    if is_own_tag(name) {
        return false;
    }
    let Some(void) = void_named(name) else {
        return false;
    };
    match past_attributes(&rules, listed_for_void(void), after) {
        Some(rest) => is_same(rest, b" />"),
        None => false,
    }
}

/// The attributes that the element of a name may have.
fn list_of_element(name: &[u8]) -> Option<Listed>
    ensures { IfSome result (λ list. (attributes : List Attribute)
        → are_attributes (listed list) attributes ≡ true
        → is_tag elements name.now attributes ≡ true) }
{
    if let Some(found) = child(Content::Flow, name) {
        return Some(found.list);
    }
    if let Some(found) = child(Content::Items, name) {
        return Some(found.list);
    }
    if let Some(found) = child(Content::Parts, name) {
        return Some(found.list);
    }
    if let Some(found) = child(Content::Rows, name) {
        return Some(found.list);
    }
    match child(Content::Cells, name) {
        Some(found) => Some(found.list),
        None => None,
    }
}
