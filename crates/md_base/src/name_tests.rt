//! Tests on names. Each returns true for the names that it lists.

ghost use Rattle.std.specs.Prelude.{◌≡◌};
ghost use Rattle.md_base.specs.NameTests as tests;

use crate::event::Name;

/// A node whose children count as children of its parent in that parent's pattern.
#[inline(always)]
pub fn is_transparent(name: Name) -> bool
    ensures { result ≡ tests.is_transparent name }
{
    matches!(
        name,
        Name::Other(_) | Name::BlockQuotePrefix | Name::SpaceOrTab
    )
}

/// A definition of a link, not of a footnote.
#[inline(always)]
pub fn is_link_definition(name: Name) -> bool
    ensures { result ≡ tests.is_link_definition name }
{
    matches!(name, Name::Definition)
}

/// A definition of a link or of a footnote; a line ending right after it isn't printed.
#[inline(always)]
pub fn is_definition(name: Name) -> bool
    ensures { result ≡ tests.is_definition name }
{
    matches!(name, Name::Definition | Name::GfmFootnoteDefinition)
}

/// A child that can be an item's last contributing one: any but line endings, spaces or tabs,
/// prefixes of block quotes, and definitions.
#[inline(always)]
pub fn contributes(name: Name) -> bool
    ensures { result ≡ tests.contributes name }
{
    !matches!(
        name,
        Name::BlankLineEnding
            | Name::BlockQuotePrefix
            | Name::LineEnding
            | Name::SpaceOrTab
            | Name::Definition
            | Name::GfmFootnoteDefinition
    )
}

/// A fence of code or of math.
#[inline(always)]
pub fn is_fence(name: Name) -> bool
    ensures { result ≡ tests.is_fence name }
{
    matches!(name, Name::CodeFencedFence | Name::MathFlowFence)
}
