//! The attributes that elements may have.

/// How many attributes an element may have at most.
pub(crate) const MOST: usize = 10;

/// The lists of attributes.
#[derive(Clone, Copy, PartialEq, Eq)]
pub enum Listed {
    Common,
    Aligned,
    OfLink,
    OfOrdered,
    OfDetails,
    OfTable,
    OfRow,
    OfCell,
    OfImage,
}

/// The names of the attributes of a list.
pub(crate) fn names_of(listed: Listed) -> &'static [&'static str] {
    match listed {
        Listed::Common => &["title", "lang", "dir"],
        Listed::Aligned => &["title", "lang", "dir", "align"],
        Listed::OfLink => &["href", "title", "lang", "dir"],
        Listed::OfOrdered => &["title", "lang", "dir", "start"],
        Listed::OfDetails => &["title", "lang", "dir", "open"],
        Listed::OfTable => &["title", "lang", "dir", "align", "width"],
        Listed::OfRow => &["title", "lang", "dir", "align", "valign"],
        Listed::OfCell => &[
            "title", "lang", "dir", "align", "valign", "width", "height", "colspan", "rowspan",
        ],
        Listed::OfImage => &[
            "src", "alt", "title", "lang", "dir", "align", "width", "height",
        ],
    }
}
