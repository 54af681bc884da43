//! Whether lists and their items are loose, and how the columns of tables are aligned.

ghost use Rattle.std.specs.Prelude.{◌≡◌, ◌⊎◌, if◌then◌else◌, map, IfOk};
ghost use Rattle.md_base.specs.declared.event.Name.TheVariants as name;
ghost use Rattle.md_base.specs.Tree.{Forest};
ghost use Rattle.md_tree.specs.Texts.{EntersAt};
ghost use Rattle.md_tree.specs.Entered.{IsEnteredAt, EntersNode};
ghost use Rattle.md_pattern.specs.Looseness.{is_loose, is_loose_without_items, is_loose_item};
ghost use Rattle.md_pattern.specs.Alignments.{alignment_of, alignments};
ghost use Rattle.md_tree.specs.Tables.{values_of_table};

use crate::checked::Checked;
use md_base::AlignKind;
use std::alloc::{AllocError, Global};

/// Whether the list that the event at the index enters is loose. `include_items` decides whether
/// loose items count.
///
/// # Examples
///
/// ```
/// // Where 0 enters a list of an item that ends in a paragraph, a blank line and another item:
/// assert!(list_loose(&checked, 0, false));
/// assert!(list_loose(&checked, 0, true));
/// ```
pub fn list_loose(checked: &Checked, index: usize, include_items: bool) -> bool
    requires { EntersAt checked.now.events index name.ListOrdered
        ⊎ EntersAt checked.now.events index name.ListUnordered }
    ensures entered { EntersNode checked.now index }
    ensures loose { (children : Forest) → IsEnteredAt checked.now index children
        → result ≡ (if include_items then is_loose children else is_loose_without_items children) }
{
    let looseness = checked.fact(index).looseness;
    if include_items {
        looseness.with_items
    } else {
        looseness.without_items
    }
}

/// Whether the list item that the event at the index enters is loose.
///
/// # Examples
///
/// ```
/// // Where 1 enters an item of its prefix, a paragraph, a blank line and another paragraph:
/// assert!(list_item_loose(&checked, 1));
/// ```
pub fn list_item_loose(checked: &Checked, index: usize) -> bool
    requires { EntersAt checked.now.events index name.ListItem }
    ensures entered { EntersNode checked.now index }
    ensures loose { (children : Forest) → IsEnteredAt checked.now index children
        → result ≡ is_loose_item children }
{
    checked.fact(index).looseness.of_item
}

/// Returns the alignments of the columns of the table that the event at the index enters: one for
/// each value of its delimiter row.
///
/// # Errors
///
/// `AllocError` if memory runs out.
///
/// # Examples
///
/// ```
/// // Of `|a|b|` over `|:-|-|`, where 0 enters the table:
/// let columns = gfm_table_align(alloc, &checked, 0)?;
/// assert_eq!(columns.as_slice(), [AlignKind::Left, AlignKind::None].as_slice());
/// ```
pub fn gfm_table_align(
    alloc: Global,
    checked: &Checked,
    index: usize,
) -> Result<Vec<AlignKind>, AllocError>
    requires { EntersAt checked.now.events index name.GfmTable }
    ensures entered { EntersNode checked.now index }
    ensures aligned { IfOk result
        (λ columns. (children : Forest) → IsEnteredAt checked.now index children
        → columns.items ≡ alignments children) }
    ensures one_for_each_value { IfOk result
        (λ columns. (children : Forest) → IsEnteredAt checked.now index children
        → columns.items ≡ map alignment_of (values_of_table children)) }
{
    Vec::from_slice(alloc, checked.columns(index))
}
