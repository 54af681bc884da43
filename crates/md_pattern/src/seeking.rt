//! Finds the node on a spine that a name reads.

ghost use Rattle.std.specs.Prelude.{◌≡◌, ℕ, true};
ghost use Rattle.md_base.specs.declared.event.Name.{Name};
ghost use Rattle.md_pattern.specs.Seeking as spec;

use md_base::Name;

/// The target of a search on a spine.
#[derive(Clone, Copy)]
pub enum Wanted {
    Nothing,
    /// The first mark of a heading.
    Mark,
    /// The first item of an ordered list, and its number.
    Item,
    /// The first prefix of an item, and its number.
    Prefix,
    /// The first value in the prefix of an item.
    Value,
    /// The label, reference or resource of a link or an image.
    Media,
    /// The first label of a call, and its text.
    Label,
    /// The first text in a label.
    LabelText,
    /// The label of a definition.
    DefinitionLabel,
    /// The first prefix of a footnote definition, and its label.
    FootnotePrefix,
    /// The label in such a prefix.
    FootnoteLabel,
}

/// The result of a search so far.
#[derive(Clone, Copy)]
pub enum Found {
    Nothing,
    /// The first node of the kind sought.
    First,
    /// A reference, which takes precedence over a label.
    Reference,
}

/// The state of a search on a spine.
#[derive(Clone, Copy)]
pub struct Sought {
    /// The index of the event that enters the node to read, 0 if there is none.
    pub read_at: usize,
    /// The target of the search.
    pub wanted: Wanted,
    /// The result so far.
    pub found: Found,
}

/// No search.
pub const NOTHING_SOUGHT: Sought = Sought {
    read_at: 0,
    wanted: Wanted::Nothing,
    found: Found::Nothing,
};

/// How a node matches the target of a search.
#[derive(Clone, Copy)]
pub enum Sight {
    /// It doesn't match.
    Other,
    /// It is the target.
    Itself,
    /// It contains the target.
    Holder,
    /// The reference of a link or an image.
    Reference,
}

/// The target of the search on the spine of a name.
fn wanted_by(name: Name) -> Wanted
    ensures { result ≡ spec.wanted_by name }
{
    match name {
        Name::HeadingAtx => Wanted::Mark,
        Name::ListOrdered => Wanted::Item,
        Name::ListItem => Wanted::Prefix,
        Name::ListItemPrefix => Wanted::Value,
        Name::Link => Wanted::Media,
        Name::Image => Wanted::Media,
        Name::GfmFootnoteCall => Wanted::Label,
        Name::Label => Wanted::LabelText,
        Name::Definition => Wanted::DefinitionLabel,
        Name::GfmFootnoteDefinition => Wanted::FootnotePrefix,
        Name::GfmFootnoteDefinitionPrefix => Wanted::FootnoteLabel,
        _ => Wanted::Nothing,
    }
}

/// A new search on the spine of a name.
#[inline(never)]
pub fn search_of(name: Name) -> Sought
    ensures { result ≡ spec.search_of name }
{
    Sought {
        wanted: wanted_by(name),
        found: Found::Nothing,
        read_at: 0,
    }
}

/// How a node of this name matches on the spine of a link or an image.
fn sight_in_media(name: Name) -> Sight
    ensures { result ≡ spec.sight_in_media name }
{
    match name {
        Name::Label => Sight::Holder,
        Name::ReferenceString => Sight::Reference,
        _ => Sight::Other,
    }
}

/// The match of a node that is the target, if `is`.
fn itself_if(is: bool) -> Sight
    ensures { result ≡ spec.itself_if is }
{
    if is { Sight::Itself } else { Sight::Other }
}

/// The match of a node that contains the target, if `is`.
fn holder_if(is: bool) -> Sight
    ensures { result ≡ spec.holder_if is }
{
    if is { Sight::Holder } else { Sight::Other }
}

/// How a node of this name matches on a spine.
fn sight_of(wanted: Wanted, name: Name) -> Sight
    ensures { result ≡ spec.sight wanted name }
{
    match wanted {
        Wanted::Nothing => Sight::Other,
        Wanted::Mark => itself_if(matches!(name, Name::HeadingAtxSequence)),
        Wanted::Item => holder_if(matches!(name, Name::ListItem)),
        Wanted::Prefix => holder_if(matches!(name, Name::ListItemPrefix)),
        Wanted::Value => itself_if(matches!(name, Name::ListItemValue)),
        Wanted::Media => sight_in_media(name),
        Wanted::Label => holder_if(matches!(name, Name::Label)),
        Wanted::LabelText => itself_if(matches!(name, Name::LabelText)),
        Wanted::DefinitionLabel => itself_if(matches!(name, Name::DefinitionLabelString)),
        Wanted::FootnotePrefix => holder_if(matches!(name, Name::GfmFootnoteDefinitionPrefix)),
        Wanted::FootnoteLabel => itself_if(matches!(name, Name::GfmFootnoteDefinitionLabelString)),
    }
}

/// Records this result, unless there is one.
fn first(sought: &mut Sought, index: usize)
    ensures { sought.new ≡ spec.first sought.old index }
{
    if matches!(sought.found, Found::Nothing) {
        sought.found = Found::First;
        sought.read_at = index;
    }
}

/// Records a reference, unless there is one.
fn refer(sought: &mut Sought, index: usize)
    ensures { sought.new ≡ spec.refer sought.old index }
{
    if !matches!(sought.found, Found::Reference) {
        sought.found = Found::Reference;
        sought.read_at = index;
    }
}

/// Whether there is no search.
#[inline(always)]
pub fn is_idle(sought: Sought) -> bool
    ensures { result ≡ true → (name : Name) (entry inner : ℕ)
        → spec.seen sought name entry inner ≡ sought }
{
    matches!(sought.wanted, Wanted::Nothing)
}

/// Continues a search after a node that is entered here, and in which the search found `inner`.
#[inline(never)]
pub fn see(sought: &mut Sought, name: Name, entry: usize, inner: usize)
    ensures { sought.new ≡ spec.seen sought.old name entry inner }
{
    match sight_of(sought.wanted, name) {
        Sight::Other => {}
        Sight::Itself => first(sought, entry),
        Sight::Holder => first(sought, inner),
        Sight::Reference => refer(sought, entry),
    }
}
