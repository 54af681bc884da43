//! The void tags, and the lists of attributes that tags may have.

ghost use Rattle.std.specs.Prelude.{◌≡◌, MatchOption, List, true, false};
ghost use Rattle.md_text.specs.Html.{Attribute, are_attributes, is_tag, void_tags};
ghost use Rattle.md_reader.specs.Names.{void_name, listed, has_rule};

/// The void tags.
#[derive(Clone, Copy)]
pub(crate) enum Void {
    Br,
    Hr,
    Wbr,
    Img,
    Input,
}

/// The lists of attributes that a tag may have.
#[derive(Clone, Copy)]
pub(crate) enum Listed {
    Shared,
    OfBlock,
    OfRow,
    OfCell,
    OfTable,
    OfCode,
    OfList,
    OfSecond,
    OfDetails,
    OfSection,
    OfLink,
    OfImage,
    OfInput,
}

/// The void tag of a name.
pub(crate) fn void_named(name: &[u8]) -> Option<Void>
    ensures { MatchOption result
        (has_rule void_tags name.now ≡ false)
        (λ tag. name.now ≡ void_name tag) }
{
    match name {
        b"br" => Some(Void::Br),
        b"hr" => Some(Void::Hr),
        b"wbr" => Some(Void::Wbr),
        b"img" => Some(Void::Img),
        b"input" => Some(Void::Input),
        _ => None,
    }
}

/// The attributes that a void tag may have.
pub(crate) fn listed_for_void(tag: Void) -> Listed
    ensures tag { (attributes : List Attribute) → are_attributes (listed result) attributes ≡ true
        → is_tag void_tags (void_name tag) attributes ≡ true }
    ensures only { (attributes : List Attribute)
        → is_tag void_tags (void_name tag) attributes ≡ true
        → are_attributes (listed result) attributes ≡ true }
{
    match tag {
        Void::Br => Listed::Shared,
        Void::Hr => Listed::Shared,
        Void::Wbr => Listed::Shared,
        Void::Img => Listed::OfImage,
        Void::Input => Listed::OfInput,
    }
}
