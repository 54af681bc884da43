//! Questions about events: whether they are a document, and the facts that `check` finds about its
//! nodes.

use super::{Asked, Call, boolean, no_such_call, number, word_and_rest};
use crate::reading::name_of;
use md_html::{Checked, Name, Position, check, gfm_table_align, list_item_loose, list_loose};
use std::alloc::{AllocError, Global};

/// The result of a call for a document's events, or why they aren't a document.
pub(super) fn answer(
    alloc: Global,
    asked: &Asked<'_>,
    call: Call<'_>,
) -> Result<String, AllocError> {
    let events = asked.script.events.as_slice();
    let names = asked.names.as_slice();
    match check(alloc, events, asked.script.document, names) {
        Ok(checked) => answer_checked(alloc, asked, &checked, call),
        Err(error) => format!(in alloc; "{error}"),
    }
}

/// The result of a call for all events, or for one of them.
fn answer_checked(
    alloc: Global,
    asked: &Asked<'_>,
    checked: &Checked<'_>,
    call: Call<'_>,
) -> Result<String, AllocError> {
    match call.name {
        "check" => String::from_str(alloc, "accepted"),
        "kept" => boolean(alloc, is_kept(asked, checked)),
        "definitions" => format!(in alloc; "{:?}", checked.definitions()),
        _ => answer_at(alloc, checked, call),
    }
}

/// The result of a call for the event at an index, which a name may follow.
fn answer_at(alloc: Global, checked: &Checked<'_>, call: Call<'_>) -> Result<String, AllocError> {
    let (place, name) = word_and_rest(call.argument);
    let index: usize = place.parse().unwrap_or(0);
    match call.name {
        "partner" => number(alloc, checked.partner(index)),
        "enters" => boolean(
            alloc,
            name_of(name).is_some_and(|name| checked.enters(index, name)),
        ),
        "exits" => boolean(
            alloc,
            name_of(name).is_some_and(|name| checked.exits(index, name)),
        ),
        _ => answer_found(alloc, checked, call.name, index),
    }
}

/// Whether the events, the bytes and the number of names are kept.
fn is_kept(asked: &Asked<'_>, checked: &Checked<'_>) -> bool {
    checked.events() == asked.script.events.as_slice()
        && checked.bytes() == asked.script.document
        && checked.names().len() == asked.names.len()
}

/// The facts about the node that the event at the index enters.
fn answer_found(
    alloc: Global,
    checked: &Checked<'_>,
    call: &str,
    index: usize,
) -> Result<String, AllocError> {
    match call {
        "list_loose" => flag(alloc, of_list(checked, index, false)),
        "list_loose_by_items" => flag(alloc, of_list(checked, index, true)),
        "list_item_loose" => flag(alloc, of_item(checked, index)),
        "gfm_table_align" => columns(alloc, checked, index),
        "last_contributing" => contributing(alloc, checked, index),
        "link_reads" => link_reads(alloc, checked, index),
        "heading_reads" => heading_reads(alloc, checked, index),
        _ => no_such_call(alloc),
    }
}

/// Whether a list is loose, with or without its items.
fn of_list(checked: &Checked<'_>, index: usize, include_items: bool) -> Option<bool> {
    if checked.enters(index, Name::ListUnordered) || checked.enters(index, Name::ListOrdered) {
        return Some(list_loose(checked, index, include_items));
    }
    None
}

/// Whether an item is loose.
fn of_item(checked: &Checked<'_>, index: usize) -> Option<bool> {
    if checked.enters(index, Name::ListItem) {
        return Some(list_item_loose(checked, index));
    }
    None
}

/// How the columns of a table are aligned.
fn columns(alloc: Global, checked: &Checked<'_>, index: usize) -> Result<String, AllocError> {
    if !checked.enters(index, Name::GfmTable) {
        return no_such_node(alloc);
    }
    let columns = gfm_table_align(alloc, checked, index)?;
    format!(in alloc; "{:?}", columns.as_slice())
}

/// The last contributing child of an item.
fn contributing(alloc: Global, checked: &Checked<'_>, index: usize) -> Result<String, AllocError> {
    if checked.enters(index, Name::ListItem) {
        return number(alloc, checked.last_contributing(index));
    }
    no_such_node(alloc)
}

/// The indices between which a link reads.
fn link_reads(alloc: Global, checked: &Checked<'_>, index: usize) -> Result<String, AllocError> {
    if checked.enters(index, Name::Link) {
        return span(alloc, checked.reads(index));
    }
    no_such_node(alloc)
}

/// The same for a heading's mark.
fn heading_reads(alloc: Global, checked: &Checked<'_>, index: usize) -> Result<String, AllocError> {
    if checked.enters(index, Name::HeadingAtx) {
        return span(alloc, checked.reads(index));
    }
    no_such_node(alloc)
}

fn span(alloc: Global, place: Option<Position>) -> Result<String, AllocError> {
    match place {
        Some(place) => format!(in alloc; "{} to {}", place.start.index, place.end.index),
        None => String::from_str(alloc, "none"),
    }
}

fn flag(alloc: Global, flag: Option<bool>) -> Result<String, AllocError> {
    match flag {
        Some(flag) => boolean(alloc, flag),
        None => no_such_node(alloc),
    }
}

fn no_such_node(alloc: Global) -> Result<String, AllocError> {
    String::from_str(alloc, "no such node")
}
