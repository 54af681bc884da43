//! What a text may have.

ghost use Rattle.std.specs.Prelude.{◌≡◌, map};
ghost use Rattle.md_text.specs.Bytes.{is_one_of};
ghost use Rattle.md_reader.specs.Authors.{own_attributes, own_tags};
ghost use Rattle.md_reader.specs.Chosen.{is_chosen, is_needed, table_parts};
ghost use Rattle.md_reader.specs.Tests.{has_attribute, test_of};

use crate::places::{index_in, is_same};
use crate::protocol::{Protocols, is_permitted};

/// What a text may have.
#[derive(Clone, Copy)]
pub(crate) struct Rules<'a> {
    /// The protocols of its links and images.
    pub(crate) protocols: Protocols<'a>,
    /// Its tags.
    pub(crate) tags: Tags<'a>,
}

/// The tags that a text may have.
#[derive(Clone, Copy)]
pub(crate) enum Tags<'a> {
    /// All of the grammar.
    Any,
    /// Those that authors may write, without the attributes that only the compiler writes.
    OfAuthors,
    /// Of these, those with a chosen name or with one that a chosen element needs.
    Chosen(&'a [&'a str]),
}

/// Whether a text may have a tag of this name.
pub(crate) fn may_have_tag(rules: &Rules, name: &[u8]) -> bool
    ensures { result ≡ (test_of rules.now).tag name.now }
{
    match rules.tags {
        Tags::Any => true,
        Tags::OfAuthors => !is_own_tag(name),
        Tags::Chosen(names) => !is_own_tag(name) && is_chosen(names, name),
    }
}

/// Whether a text may have an attribute of this name with this value.
pub(crate) fn may_have_attribute(rules: &Rules, name: &[u8], value: &[u8]) -> bool
    ensures { result
        ≡ (test_of rules.now).attribute (record { name = name.now; value = value.now }) }
{
    may_have_name(rules.tags, name) && is_permitted(rules.protocols, name, value)
}

/// Whether tags may have an attribute of this name.
fn may_have_name(tags: Tags, name: &[u8]) -> bool
    ensures { result ≡ has_attribute tags.entry name.now }
{
    match tags {
        Tags::Any => true,
        Tags::OfAuthors | Tags::Chosen(_) => !is_own_attribute(name),
    }
}

/// Whether an element of this name is chosen, or a chosen one needs it.
fn is_chosen(names: &[&str], name: &[u8]) -> bool
    ensures { result ≡ is_chosen (map (λ other. other.now) names.now) name.now }
{
    is_among(names, name) || is_needed(names, name)
}

/// Whether a chosen element needs one of this name.
fn is_needed(names: &[&str], name: &[u8]) -> bool
    ensures { result ≡ is_needed (map (λ other. other.now) names.now) name.now }
{
    if is_table_part(name) {
        return is_among(names, b"table");
    }
    if is_same(name, b"li") {
        return is_among(names, b"ul") || is_among(names, b"ol");
    }
    is_same(name, b"code") && is_among(names, b"pre")
}

/// Whether an element of this name is a part of a table.
fn is_table_part(name: &[u8]) -> bool
    ensures { result ≡ is_one_of table_parts name.now }
{
    is_same(name, b"thead")
        || is_same(name, b"tbody")
        || is_same(name, b"tfoot")
        || is_same(name, b"tr")
        || is_same(name, b"th")
        || is_same(name, b"td")
}

/// Whether a name is one of these.
fn is_among(names: &[&str], name: &[u8]) -> bool
    ensures { result ≡ is_one_of (map (λ other. other.now) names.now) name.now }
{
    index_in(names, name).is_some()
}

/// Whether only the compiler writes a tag of this name.
pub(crate) fn is_own_tag(name: &[u8]) -> bool
    ensures { result ≡ is_one_of own_tags name.now }
{
    is_same(name, b"section") || is_same(name, b"input")
}

/// Whether only the compiler writes an attribute of this name.
fn is_own_attribute(name: &[u8]) -> bool
    ensures { result ≡ is_one_of own_attributes name.now }
{
    is_same(name, b"class")
        || is_same(name, b"data-footnotes")
        || is_same(name, b"data-footnote-ref")
        || is_same(name, b"data-footnote-backref")
        || is_same(name, b"aria-describedby")
        || is_same(name, b"aria-label")
        || is_same(name, b"id")
        || is_same(name, b"name")
        || is_same(name, b"rel")
}
