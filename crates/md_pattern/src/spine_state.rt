//! The progress in reading a spine, as row numbers of a table that has the row after each symbol.

mod table;

ghost use Rattle.std.specs.Prelude.{◌≡◌, ◌<◌, true, Option, None, Some, option_map, get_or, IfSome};
ghost use Rattle.md_pattern.specs.declared.kinds.Symbol.{Symbol};
ghost use Rattle.md_pattern.specs.Steps.{start_of, advance, is_complete, may_hold};
ghost use Rattle.md_pattern.specs.declared.kinds.Symbol.TheVariants.{Text};
ghost use Rattle.md_pattern.specs.Shape.{role_for};
ghost use Rattle.md_pattern.specs.Places.{state_of, place_at, moved_from, symbols, decoded};
ghost use Rattle.md_pattern.specs.Places.{encodes_row};
ghost use Rattle.md_pattern.specs.Places.{all_roles};
ghost use Rattle.md_pattern.specs.declared.kinds.Role.TheVariants.{Childless};

use crate::kinds::{Role, Symbol};
use crate::shape::{goes_by_place, role_for};
use table::{ends, roles, rows, starts};

/// The progress in reading the spine of a node, without its last symbol: a `State` as one number.
/// The last symbol doesn't decide what may follow, so clauses use the state without it.
#[derive(Clone, Copy)]
pub struct SpineState {
    /// The number of a row of the table. A number past the rows means the spine of a node without
    /// children.
    pub number: u8,
}

impl SpineState {
    /// The place at the beginning of the spine of a node with a role.
    #[inline(always)]
    pub fn start(role: Role) -> SpineState
        ensures { state_of result None ≡ start_of role }
    {
        SpineState {
            number: starts()[number_of_role(role)],
        }
    }

    /// The place after a symbol, if it may follow.
    #[inline(always)]
    pub fn after(self, symbol: Symbol) -> Option<SpineState>
        ensures { option_map (λ next. state_of next (Some symbol)) result
            ≡ advance (state_of self None) symbol }
    {
        let letter = letter_at(self.number, symbol)?;
        if letter == b'.' {
            return None;
        }
        Some(SpineState {
            number: self.number + letter - b'm',
        })
    }

    /// Whether the spine may end here.
    #[inline(always)]
    pub fn may_end(self) -> bool
        ensures { result ≡ is_complete (state_of self None) }
    {
        match ends().get(usize::from(self.number)) {
            Some(letter) => *letter == b'e',
            None => true,
        }
    }

    /// The role of the node whose spine it is.
    #[inline(never)]
    pub fn role(self) -> Role
        ensures { result ≡ (state_of self None).role }
    {
        match roles().get(usize::from(self.number)) {
            Some(role) => *role,
            None => Role::Childless,
        }
    }

    /// Whether the node whose spine it is may have children.
    #[inline(always)]
    pub fn may_hold(self) -> bool
        ensures { result ≡ may_hold (state_of self None).role }
    {
        self.number < 113
    }

    /// The role of the spine of a node with this usual role at this place, after this last symbol.
    #[inline(always)]
    pub fn role_inside(self, before: Option<Symbol>, usual: Role) -> Role
        ensures { result ≡ role_for (state_of self None).role before usual }
    {
        if goes_by_place(usual) {
            role_for(self.role(), before, usual)
        } else {
            usual
        }
    }

    /// Whether the spine of a node with this usual role at this place, after this last symbol, may
    /// be empty.
    #[inline(always)]
    pub fn can_hold_empty(self, before: Option<Symbol>, usual: Role) -> bool
        ensures { result
            ≡ is_complete (start_of (role_for (state_of self None).role before usual)) }
    {
        match usual {
            // The roles of most nodes without children.
            Role::Childless | Role::Empty => true,
            _ => self.begins_complete(before, usual),
        }
    }

    /// The same for any node.
    #[inline(never)]
    fn begins_complete(self, before: Option<Symbol>, usual: Role) -> bool
        ensures { result
            ≡ is_complete (start_of (role_for (state_of self None).role before usual)) }
    {
        SpineState::start(self.role_inside(before, usual)).may_end()
    }
}

/// The letter in a row for a symbol, if the row exists.
#[inline(always)]
fn letter_at(row: u8, symbol: Symbol) -> Option<u8>
    ensures decoded { IfSome result
        (λ letter. decoded row letter ≡ moved_from (place_at row) symbol) }
    ensures encodes_row { IfSome result (λ letter. encodes_row row letter ≡ true) }
    ensures within { IfSome result (λ letter. row < 114) }
    ensures lacking { result ≡ None → moved_from (place_at row) symbol ≡ None }
{
    Some(rows().get(usize::from(row))?[column(symbol)])
}

/// The number of a symbol, in declaration order.
#[inline(always)]
fn column(symbol: Symbol) -> usize
    ensures symbol { get_or symbols result Text ≡ symbol }
    ensures few { result < 47 }
{
    symbol as usize
}

/// The number of a role, in declaration order.
#[inline(always)]
fn number_of_role(role: Role) -> usize
    ensures role { get_or all_roles result Childless ≡ role }
    ensures few { result < 41 }
{
    role as usize
}
