//! Finds the looseness and the alignment of a node, from its first child to the last.

ghost use Rattle.std.specs.Prelude.{◌≡◌};
ghost use Rattle.md_pattern.specs.Summary as spec;

use md_base::{AlignKind, Name};

/// Whether the children of a node make it loose.
#[derive(Clone, Copy)]
pub struct Looseness {
    /// Loose as a list, ignoring its items.
    pub without_items: bool,
    /// Loose as a list.
    pub with_items: bool,
    /// Loose as an item.
    pub of_item: bool,
}

/// The last child, and the one before it where that matters.
#[derive(Clone, Copy)]
pub enum Last {
    /// There is no child.
    Nothing,
    /// Any other child.
    Plain,
    /// The prefix of an item.
    Prefix,
    /// A space or tab after the prefix of an item.
    PrefixSpace,
    /// A block quote that ends in its prefix.
    Bare,
    /// A space or tab after such a block quote.
    BareSpace,
    /// An item in which nothing follows a marker.
    BareItem,
    /// The prefix of a block quote.
    QuotePrefix,
    /// A marker of a delimiter row.
    Marker,
}

/// The facts about the children so far.
#[derive(Clone, Copy)]
pub struct Summary {
    /// The last child.
    pub last: Last,
    /// Whether the first child is a marker of a delimiter row.
    pub begins_with_marker: bool,
    /// Whether they are loose as the children of a list, ignoring its items.
    pub without_items: bool,
    /// Whether one of them is a loose item.
    pub has_loose_item: bool,
    /// Whether they are loose as the children of an item.
    pub of_item: bool,
}

/// The facts if there is no child.
pub const EMPTY_SUMMARY: Summary = Summary {
    last: Last::Nothing,
    begins_with_marker: false,
    without_items: false,
    has_loose_item: false,
    of_item: false,
};

/// A node without facts.
pub const NOT_LOOSE: Looseness = Looseness {
    without_items: false,
    with_items: false,
    of_item: false,
};

/// The last child after a space or tab that follows it.
pub fn spaced(last: Last) -> Last
    ensures { result ≡ spec.spaced last }
{
    match last {
        Last::Prefix => Last::PrefixSpace,
        Last::Bare => Last::BareSpace,
        _ => Last::Plain,
    }
}

/// Whether nothing follows a marker in the last child.
fn is_bare(last: Last) -> bool
    ensures { result ≡ spec.is_bare_last last }
{
    matches!(
        last,
        Last::Prefix | Last::PrefixSpace | Last::Bare | Last::BareSpace
    )
}

/// What an item is as the last child, by its own last child.
fn item_as(own: Last) -> Last
    ensures { result ≡ spec.item_as own }
{
    if is_bare(own) {
        Last::BareItem
    } else {
        Last::Plain
    }
}

/// What a block quote is as the last child, by its own last child.
fn quote_as(own: Last) -> Last
    ensures { result ≡ spec.quote_as own }
{
    match own {
        Last::QuotePrefix => Last::Bare,
        _ => Last::Plain,
    }
}

/// Whether a blank line ending separates the last child from the next one.
fn parts(last: Last) -> bool
    ensures { result ≡ spec.parts last }
{
    !matches!(last, Last::BareItem)
}

/// Whether a blank line ending after the last child makes its item loose.
fn loosens(last: Last) -> bool
    ensures { result ≡ spec.loosens last }
{
    !matches!(last, Last::Prefix | Last::PrefixSpace)
}

/// Whether there is no child yet.
fn is_nothing(last: Last) -> bool
    ensures { result ≡ spec.is_nothing last }
{
    matches!(last, Last::Nothing)
}

/// Adds a child with its own facts to the facts about its parent's children.
#[inline(always)]
pub fn add_child(summary: &mut Summary, name: Name, own: Summary)
    ensures { summary.new ≡ spec.summary_with name own summary.old }
{
    match name {
        Name::BlankLineEnding => {
            summary.without_items = summary.without_items || parts(summary.last);
            summary.of_item = summary.of_item || loosens(summary.last);
            summary.last = Last::Plain;
        }
        Name::ListItem => {
            summary.last = item_as(own.last);
            summary.has_loose_item = summary.has_loose_item || own.of_item;
        }
        Name::GfmTableDelimiterMarker => {
            summary.begins_with_marker = summary.begins_with_marker || is_nothing(summary.last);
            summary.last = Last::Marker;
        }
        Name::SpaceOrTab => summary.last = spaced(summary.last),
        Name::ListItemPrefix => summary.last = Last::Prefix,
        Name::BlockQuotePrefix => summary.last = Last::QuotePrefix,
        Name::BlockQuote => summary.last = quote_as(own.last),
        _ => summary.last = Last::Plain,
    }
}

/// The looseness of a node whose children have these facts.
pub fn summary_looseness(own: Summary) -> Looseness
    ensures { result ≡ spec.looseness own }
{
    Looseness {
        without_items: own.without_items,
        with_items: own.without_items | own.has_loose_item,
        of_item: own.of_item,
    }
}

/// The alignment of a column whose value has children with these facts.
pub fn alignment(own: Summary) -> AlignKind
    ensures { result ≡ spec.alignment own }
{
    match (own.begins_with_marker, own.last) {
        (true, Last::Marker) => AlignKind::Center,
        (true, _) => AlignKind::Left,
        (false, Last::Marker) => AlignKind::Right,
        (false, _) => AlignKind::None,
    }
}
