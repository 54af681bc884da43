//! Facts about every document, as contracts of functions that do nothing.

ghost use Rattle.md_base.specs.Tree.{Forest, flatten};
ghost use Rattle.md_base.specs.declared.event.Event.{Event};
ghost use Rattle.md_tree.specs.Refusal.{BeginNoTree, LeaveOpen};
ghost use Rattle.md_tree.specs.Tables.{IsTable};
ghost use Rattle.std.specs.Prelude.{◌≡◌, ℕ, List, Option, Some, take};
ghost use Rattle.md_pattern.specs.declared.kinds.Role.{Role};
ghost use Rattle.md_pattern.specs.declared.kinds.Symbol.{Symbol};
ghost use Rattle.md_pattern.specs.Shape.{AreShaped};
ghost use Rattle.md_tree.specs.Numbers.{which};
ghost use Rattle.md_tree.specs.Laws.{HasOneAlignmentForEachValue, HasOneSpine, IsLooseWithItemsToo};

/// A list of events is the flattening of at most one document.
pub fn events_flatten_one_document()
    ensures { (one other : Forest) → flatten one ≡ flatten other → one ≡ other }
{}

/// If events leave a node open, they are all in order.
pub fn open_events_are_in_order()
    ensures { (events : List Event) (count : ℕ) → LeaveOpen events
        → BeginNoTree (take count events) → ⊥ }
{}

/// If nodes have the shape of the grammar, their spine is the same by names and by symbols.
pub fn names_and_symbols_tell_one_spine()
    ensures { (forest : Forest) (around : Role) (before : Option Symbol)
        → AreShaped forest around before
        → HasOneSpine forest }
{}

/// A list that is loose without its items is loose with them.
pub fn loose_without_items_is_loose()
    ensures { (children : Forest) → IsLooseWithItemsToo children }
{}

/// A table of the grammar has one alignment for each cell value of its delimiter row, in order.
pub fn one_alignment_for_each_cell_value()
    ensures { (children : Forest) → IsTable children → HasOneAlignmentForEachValue children }
{}

/// Identifiers with the same first definition are equal. So those of two references, or of two
/// calls, are equal exactly if `Checked` returns the same for both.
pub fn one_identifier_for_each_place()
    ensures { (identifiers : List (Option (List ℕ))) (one other : Option (List ℕ)) (place : ℕ)
        → which identifiers one ≡ Some place → which identifiers other ≡ Some place → one ≡ other }
{}
