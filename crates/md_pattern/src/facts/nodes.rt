//! The state of an open node, and the fact of one that ends.

ghost use Rattle.std.specs.Prelude.{◌≡◌, ◌+◌, ℕ, true, false, OnOk, [], ◌∷◌, ◌++◌, length};
ghost use Rattle.std.specs.Prelude.{set, IfOk};
ghost use Rattle.md_base.specs.NameTests.{is_transparent};
ghost use Rattle.md_pattern.specs.Facts as spec;

use super::{Fact, OpenNode, innermost};
use crate::columns::collects_in;
use crate::seeking::{NOTHING_SOUGHT, Sought, search_of};
use crate::summary::{EMPTY_SUMMARY, NOT_LOOSE};
use md_base::Name;
use md_base::name_tests::is_transparent;
use std::alloc::AllocError;

/// The document itself.
pub(super) fn document_node() -> OpenNode
    ensures { result ≡ spec.document_node }
{
    OpenNode {
        entry: 0,
        contributing: 0,
        collects: false,
        sought: NOTHING_SOUGHT,
        summary: EMPTY_SUMMARY,
    }
}

/// A node entered at an index, inside which nothing is sought or collected.
#[inline(always)]
fn node_apart(entry: usize) -> OpenNode
    ensures { result ≡ record spec.document_node { entry = entry } }
{
    OpenNode {
        entry,
        contributing: 0,
        collects: false,
        sought: NOTHING_SOUGHT,
        summary: EMPTY_SUMMARY,
    }
}

/// The search on a spine: a new one, or that of the parent if the node is transparent.
#[inline(always)]
fn sought_inside(name: Name, around: Sought) -> Sought
    ensures { result ≡ spec.sought_inside name around }
{
    if is_transparent(name) {
        around
    } else {
        search_of(name)
    }
}

/// A node entered at an index, inside an open node.
#[inline(always)]
fn opened(entry: usize, name: Name, around: &OpenNode) -> OpenNode
    ensures { result ≡ spec.opened entry name around.now }
{
    OpenNode {
        entry,
        contributing: 0,
        collects: collects_in(name, around.collects),
        sought: sought_inside(name, around.sought),
        summary: EMPTY_SUMMARY,
    }
}

/// Adds a node entered at an index. For most nodes only constants are written, by the second arm.
#[inline(always)]
pub(super) fn push_opened(
    open_nodes: &mut Vec<OpenNode>,
    document: &OpenNode,
    entry: usize,
    name: Name,
) -> Result<(), AllocError>
    ensures { OnOk result (open_nodes.new.items ≡ open_nodes.old.items ++ spec.opened entry name
        (spec.next_outer (spec.opens open_nodes.old.items document.now)) ∷ []) }
{
    match name {
        Name::BlockQuotePrefix
        | Name::Definition
        | Name::GfmFootnoteCall
        | Name::GfmFootnoteDefinition
        | Name::GfmFootnoteDefinitionPrefix
        | Name::GfmTable
        | Name::GfmTableDelimiterRow
        | Name::GfmTableHead
        | Name::HeadingAtx
        | Name::Image
        | Name::Label
        | Name::Link
        | Name::ListItem
        | Name::ListItemPrefix
        | Name::ListOrdered
        | Name::SpaceOrTab
        | Name::Other(_) => {
            let inside = opened(entry, name, innermost(open_nodes, document));
            push_node(open_nodes, inside)
        }
        // Inside any other node nothing is sought or collected.
        _ => push_node(open_nodes, node_apart(entry)),
    }
}

/// Where to find what is read of a node: the number of the table, the last contributing child, or
/// the result of the search.
#[inline(always)]
pub(super) fn read_at_of(name: Name, table: usize, own: &OpenNode) -> usize
    ensures { result ≡ spec.read_at_of name table own.now.contributing own.now.sought }
{
    match name {
        Name::GfmTable => table,
        Name::ListItem => own.contributing,
        Name::BlockQuotePrefix | Name::SpaceOrTab | Name::Other(_) => 0,
        _ => own.sought.read_at,
    }
}

/// The same for a node of a common name, which is no table and no item.
#[inline(always)]
pub(super) fn common_read_at(name: Name, own: &OpenNode) -> usize
    requires { spec.is_common name ≡ true }
    ensures { (table : ℕ) → result
        ≡ spec.read_at_of name table own.now.contributing own.now.sought }
{
    match name {
        Name::Other(_) => 0,
        _ => own.sought.read_at,
    }
}

/// The fact at an exit, and at an entry before its exit.
pub(super) fn partner_alone(partner: usize) -> Fact
    ensures { result ≡ spec.partner_alone partner }
{
    Fact {
        partner,
        read_at: 0,
        looseness: NOT_LOOSE,
    }
}

/// Adds an open node. Usually there is capacity, and no call is made.
#[inline(always)]
fn push_node(open_nodes: &mut Vec<OpenNode>, node: OpenNode) -> Result<(), AllocError>
    ensures { OnOk result (open_nodes.new.items ≡ open_nodes.old.items ++ node ∷ []) }
{
    if open_nodes.len() == open_nodes.capacity() {
        open_nodes.reserve(1)?;
    }
    open_nodes.push_reserved(node);
    Ok(())
}
