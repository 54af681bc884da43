//! The definition that a link or an image refers to.

ghost use Rattle.std.specs.Prelude.{slice_get, IfSome, IsSome};
ghost use Rattle.md_meaning.specs.Meaning.At.{Context};
ghost use Rattle.md_tree.specs.Numbers.{ExitsOf, is_of_definitions};
ghost use Rattle.md_facts.specs.Definitions.{AreKnown, RefersTo};

use crate::found::grammatical;
use md_tree::Checked;

/// Returns the number of the definition that a link or an image refers to: the first one with its
/// identifier, counted from 0 in the order of their exits. The event at the index exits the link or
/// the image. None if it has a resource.
///
/// # Examples
///
/// ```
/// // Of `[a]: b`, a line ending and `[A]`, where 30 exits the link:
/// assert_eq!(referred_definition_at(&checked, 30), Some(0));
/// ```
pub fn referred_definition_at(checked: &Checked, index: usize) -> Option<usize>
    requires { ExitsOf is_of_definitions checked.now.events index }
    ensures referred { RefersTo checked.now index result }
    ensures there { IfSome result (λ place. (context : Context) → AreKnown checked.now context
        → IsSome (slice_get context.definitions place)) }
{
    grammatical(checked);
    checked.definition_of(index)
}
