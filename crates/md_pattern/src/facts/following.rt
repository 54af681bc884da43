//! Passes the facts of a node that ends to its parent.

ghost use Rattle.std.specs.Prelude.{◌≡◌, true, false, OnOk};
ghost use Rattle.md_base.specs.NameTests.{is_transparent, contributes};
ghost use Rattle.md_pattern.specs.Facts as spec;
ghost use Rattle.md_pattern.specs.Columns.{columns_exited};
ghost use Rattle.md_pattern.specs.Summary.{empty_summary};

use super::{Ended, OpenNode, define};
use crate::seeking::{Sought, is_idle, see};
use crate::summary::{EMPTY_SUMMARY, Last, add_child, spaced};
use md_base::Name;
use md_base::name_tests::{contributes, is_transparent};
use std::alloc::{AllocError, Global};

/// Records a child that exits: as the last contributing child of its parent, or among the
/// definitions.
#[inline(always)]
fn note_child(
    contributing: &mut usize,
    definitions: &mut Vec<usize>,
    name: Name,
    entry: usize,
) -> Result<(), AllocError>
    ensures contributing { OnOk result
        (contributing.new ≡ spec.contributing_after name entry contributing.old) }
    ensures definitions { OnOk result
        (definitions.new.items ≡ spec.definitions_with name entry definitions.old.items) }
{
    if contributes(name) {
        *contributing = entry;
        Ok(())
    } else {
        define(definitions, name, entry)
    }
}

/// Continues a search after a child, given the search inside it.
#[inline(always)]
fn search_after(sought: &mut Sought, name: Name, entry: usize, own: &Sought)
    ensures { sought.new ≡ spec.sought_after name entry own.now sought.old }
{
    if is_transparent(name) {
        // Assigning field by field avoids copying the padding between them.
        *sought = Sought {
            read_at: own.read_at,
            wanted: own.wanted,
            found: own.found,
        };
    } else if !is_idle(*sought) {
        see(sought, name, entry, own.read_at);
    }
}

/// The same after a child of a common name.
#[inline(always)]
fn search_common(sought: &mut Sought, name: Name, entry: usize, own: &Sought)
    requires { spec.is_common name ≡ true }
    ensures { sought.new ≡ spec.sought_after name entry own.now sought.old }
{
    if matches!(name, Name::Other(_)) {
        // Assigning field by field avoids copying the padding between them.
        *sought = Sought {
            read_at: own.read_at,
            wanted: own.wanted,
            found: own.found,
        };
    } else if !is_idle(*sought) {
        see(sought, name, entry, own.read_at);
    }
}

/// Continues a search after a node without children.
#[inline(always)]
fn search_leaf(sought: &mut Sought, name: Name, entry: usize)
    ensures { sought.new
        ≡ spec.sought_after name entry (spec.sought_inside name sought.old) sought.old }
{
    if is_idle(*sought) || is_transparent(name) {
        return;
    }
    see(sought, name, entry, 0);
}

/// Updates an open node after a child.
#[inline(always)]
pub(super) fn follow(
    alloc: Global,
    here: &mut OpenNode,
    ended: &mut Ended,
    name: Name,
    own: &OpenNode,
) -> Result<(), AllocError>
    ensures here { OnOk result (here.new ≡ spec.followed name own.now here.old) }
    ensures columns { OnOk result (ended.new.columns
        ≡ columns_exited name own.now.summary here.old.collects ended.old.columns) }
    ensures definitions { OnOk result (ended.new.definitions.items
        ≡ spec.definitions_with name own.now.entry ended.old.definitions.items) }
{
    search_after(&mut here.sought, name, own.entry, &own.sought);
    ended.columns.exit(alloc, name, own.summary, here.collects)?;
    note_child(
        &mut here.contributing,
        &mut ended.definitions,
        name,
        own.entry,
    )?;
    add_child(&mut here.summary, name, own.summary);
    Ok(())
}

/// The same after a child of a common name.
#[inline(always)]
pub(super) fn follow_common(here: &mut OpenNode, name: Name, own: &OpenNode)
    requires { spec.is_common name ≡ true }
    ensures { here.new ≡ spec.followed name own.now here.old }
{
    search_common(&mut here.sought, name, own.entry, &own.sought);
    here.contributing = own.entry;
    here.summary.last = Last::Plain;
}

/// The same after a child that has no children.
#[inline(always)]
pub(super) fn follow_leaf(
    alloc: Global,
    here: &mut OpenNode,
    ended: &mut Ended,
    name: Name,
    entry: usize,
) -> Result<(), AllocError>
    ensures here { OnOk result
        (here.new ≡ spec.followed name (spec.opened entry name here.old) here.old) }
    ensures columns { OnOk result (ended.new.columns
        ≡ columns_exited name empty_summary here.old.collects ended.old.columns) }
    ensures definitions { OnOk result (ended.new.definitions.items
        ≡ spec.definitions_with name entry ended.old.definitions.items) }
{
    if is_simple(name) {
        follow_simple(here, name, entry);
        return Ok(());
    }
    ended
        .columns
        .exit(alloc, name, EMPTY_SUMMARY, here.collects)?;
    note_child(&mut here.contributing, &mut ended.definitions, name, entry)?;
    search_leaf(&mut here.sought, name, entry);
    add_child(&mut here.summary, name, EMPTY_SUMMARY);
    Ok(())
}

/// The same after a simple child.
#[inline(always)]
fn follow_simple(here: &mut OpenNode, name: Name, entry: usize)
    requires { spec.is_simple name ≡ true }
    ensures { here.new ≡ spec.followed name (spec.opened entry name here.old) here.old }
{
    match name {
        Name::SpaceOrTab => here.summary.last = spaced(here.summary.last),
        Name::LineEnding => here.summary.last = Last::Plain,
        _ => {
            here.contributing = entry;
            here.summary.last = Last::Plain;
        }
    }
}

/// Whether a node is of a common name: it contributes, and its parent doesn't examine it further.
#[inline(always)]
pub(super) fn is_common(name: Name) -> bool
    ensures { result ≡ spec.is_common name }
{
    match name {
        Name::LineEnding
        | Name::BlankLineEnding
        | Name::BlockQuote
        | Name::BlockQuotePrefix
        | Name::ListItem
        | Name::ListItemPrefix
        | Name::GfmFootnoteDefinition
        | Name::Definition
        | Name::GfmTable
        | Name::GfmTableDelimiterCellValue
        | Name::GfmTableDelimiterMarker
        | Name::SpaceOrTab => false,
        _ => true,
    }
}

/// Whether a node without children only becomes the last child of its parent, with no other effect.
#[inline(always)]
fn is_simple(name: Name) -> bool
    ensures { result ≡ spec.is_simple name }
{
    matches!(
        name,
        Name::Data | Name::LineEnding | Name::SpaceOrTab | Name::Other(_)
    )
}
