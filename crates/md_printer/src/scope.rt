//! The surroundings of a node.

use md_base::AlignKind;

/// The surroundings of a node: facts that its ancestors decide.
#[derive(Clone, Copy)]
pub(crate) struct Scope<'a> {
    /// A block quote, a list or a footnote contains it.
    pub(crate) is_contained: bool,
    /// The innermost of these is a list whose paragraphs are printed without tags.
    pub(crate) is_tight: bool,
    /// An image contains it.
    pub(crate) in_image: bool,
    /// A link contains it.
    pub(crate) in_link: bool,
    /// A table contains it.
    pub(crate) in_table: bool,
    /// A table's head contains it.
    pub(crate) in_head: bool,
    /// Code or math in a text contains it.
    pub(crate) in_code: bool,
    /// A definition contains it.
    pub(crate) in_definition: bool,
    /// Special characters of HTML are escaped.
    pub(crate) is_escaping: bool,
    /// The alignments of the columns of the innermost table.
    pub(crate) columns: &'a [AlignKind],
}

/// The surroundings outside all nodes.
pub(crate) const OUTSIDE: Scope<'static> = Scope {
    is_contained: false,
    is_tight: false,
    in_image: false,
    in_link: false,
    in_table: false,
    in_head: false,
    in_code: false,
    in_definition: false,
    is_escaping: true,
    columns: &[],
};
