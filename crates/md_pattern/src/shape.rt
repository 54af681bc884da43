//! The role of a node, from the role of its parent and the symbol before it.

ghost use Rattle.std.specs.Prelude.{◌≡◌, false, Option};
ghost use Rattle.md_pattern.specs.declared.kinds.Role.{Role};
ghost use Rattle.md_pattern.specs.declared.kinds.Symbol.{Symbol};
ghost use Rattle.md_pattern.specs.Shape.{role_for, item_in, prefix_in, code_fence_after};
ghost use Rattle.md_pattern.specs.Shape.{math_fence_after, label_in};

use crate::kinds::{Role, Symbol};

/// The role of an item; in an ordered list that of the first or of a later item.
fn item_in(around: Role, before: Option<Symbol>) -> Role
    ensures { result ≡ item_in around before }
{
    match (around, before) {
        (Role::OrderedList, None) => Role::FirstOrderedItem,
        (Role::OrderedList, Some(_)) => Role::OrderedItem,
        _ => Role::Item,
    }
}

/// The role of an item's prefix.
fn prefix_in(around: Role) -> Role
    ensures { result ≡ prefix_in around }
{
    match around {
        Role::FirstOrderedItem => Role::FirstOrderedPrefix,
        Role::OrderedItem => Role::OrderedPrefix,
        _ => Role::Prefix,
    }
}

/// The role of the label of a footnote call, or of a link or an image.
fn label_in(around: Role) -> Role
    ensures { result ≡ label_in around }
{
    match around {
        Role::FootnoteCall => Role::CallLabel,
        _ => Role::Label,
    }
}

/// The role of a fence of code.
fn code_fence_after(before: Option<Symbol>) -> Role
    ensures { result ≡ code_fence_after before }
{
    match before {
        None => Role::FirstCodeFence,
        Some(_) => Role::CodeFence,
    }
}

/// The role of a fence of math.
fn math_fence_after(before: Option<Symbol>) -> Role
    ensures { result ≡ math_fence_after before }
{
    match before {
        None => Role::FirstMathFence,
        Some(_) => Role::MathFence,
    }
}

/// The role of a node with this usual role, in a parent with a role, after a symbol on its spine.
#[inline(always)]
pub fn role_for(around: Role, before: Option<Symbol>, usual: Role) -> Role
    ensures { result ≡ role_for around before usual }
{
    if goes_by_place(usual) {
        role_at(around, before, usual)
    } else {
        usual
    }
}

/// Whether a name with this usual role has another role at some places.
#[inline(always)]
pub(crate) fn goes_by_place(usual: Role) -> bool
    ensures { result ≡ false → (around : Role) (before : Option Symbol)
        → role_for around before usual ≡ usual }
{
    matches!(
        usual,
        Role::Item | Role::Prefix | Role::CodeFence | Role::MathFence | Role::Label
    )
}

/// The role of such a name.
#[inline(never)]
fn role_at(around: Role, before: Option<Symbol>, usual: Role) -> Role
    ensures { result ≡ role_for around before usual }
{
    match usual {
        Role::Item => item_in(around, before),
        Role::Prefix => prefix_in(around),
        Role::CodeFence => code_fence_after(before),
        Role::MathFence => math_fence_after(before),
        Role::Label => label_in(around),
        _ => usual,
    }
}
