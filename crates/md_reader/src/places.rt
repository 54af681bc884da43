//! The places of attributes in the lists of their tags.

ghost use Rattle.std.specs.Prelude.{◌≡◌, ◌<◌, IfSome, bytes_eq, length, map};
ghost use Rattle.md_reader.specs.Names.{listed};
ghost use Rattle.md_reader.specs.Attributes.{index_of};

use crate::names::Listed;

/// How many attributes a list has at most.
pub(crate) const MOST: usize = 12;

/// The index of a name in a list of attributes.
pub(crate) fn place(list: Listed, name: &[u8]) -> Option<usize>
    ensures is { result ≡ index_of (listed list) name.now }
    ensures within { IfSome result (λ place. place < 12) }
{
    match list {
        Listed::Shared => index_in(&["id", "title", "lang", "dir"], name),
        Listed::OfBlock => index_in(&["align", "id", "title", "lang", "dir"], name),
        Listed::OfRow => index_in(&["align", "valign", "id", "title", "lang", "dir"], name),
        Listed::OfCell => index_in(
            &[
                "colspan", "rowspan", "width", "height", "align", "valign", "id", "title", "lang",
                "dir",
            ],
            name,
        ),
        Listed::OfTable => index_in(&["align", "width", "id", "title", "lang", "dir"], name),
        Listed::OfCode => index_in(&["class", "id", "title", "lang", "dir"], name),
        Listed::OfList => index_in(&["start", "id", "title", "lang", "dir"], name),
        Listed::OfSecond => index_in(&["class", "align", "id", "title", "lang", "dir"], name),
        Listed::OfDetails => index_in(&["open", "id", "title", "lang", "dir"], name),
        Listed::OfSection => index_in(&["data-footnotes", "class"], name),
        Listed::OfLink => index_in(
            &[
                "href",
                "class",
                "data-footnote-ref",
                "data-footnote-backref",
                "aria-describedby",
                "aria-label",
                "rel",
                "name",
                "id",
                "title",
                "lang",
                "dir",
            ],
            name,
        ),
        Listed::OfImage => index_in(
            &[
                "src", "alt", "width", "height", "align", "id", "title", "lang", "dir",
            ],
            name,
        ),
        Listed::OfInput => index_in(&["type", "disabled", "checked"], name),
    }
}

/// The index of a name in a list.
pub(crate) fn index_in(names: &[&str], name: &[u8]) -> Option<usize>
    ensures is { result ≡ index_of (map (λ other. other.now) names.now) name.now }
    ensures within { IfSome result (λ index. index < length names.now) }
{
    for index in 0..names.len() {
        if is_same(name, names[index].as_bytes()) {
            return Some(index);
        }
    }
    None
}

/// Whether a name is this one.
#[inline(always)]
pub(crate) fn is_same(name: &[u8], other: &[u8]) -> bool
    ensures value { result ≡ bytes_eq name.now other.now }
    ensures turned { result ≡ bytes_eq other.now name.now }
{
    name == other
}
