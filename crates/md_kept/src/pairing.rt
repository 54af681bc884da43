//! Which tags are those of one element.

use crate::items::{Item, Items, Part, Token};
use std::alloc::{AllocError, Global};

/// How many tags may be open in a node of the document, before those that aren't kept.
const MOST: usize = 64;

/// What is open.
#[derive(Clone, Copy)]
enum Open {
    /// A node of the document.
    Own,
    /// The start tag that is this item.
    Tag(usize),
}

/// Pairs each end tag with a start tag of its name in the same node of the document. Tags that are
/// open there between the two have no partner.
pub(crate) fn pair(alloc: Global, items: &mut Items) -> Result<(), AllocError> {
    let mut open = Vec::new(alloc);
    for index in 0..items.list.len() {
        match items.list.get(index) {
            Some(Item::Enter(_)) => open.push(Open::Own)?,
            Some(Item::Exit) => open.truncate(own_index(open.as_slice()).unwrap_or(0)),
            Some(Item::Token(_)) => pair_token(&mut open, items, index)?,
            _ => {}
        }
    }
    Ok(())
}

/// The index of the node that is open.
fn own_index(open: &[Open]) -> Option<usize> {
    open.iter().rposition(|open| matches!(open, Open::Own))
}

/// Opens a start tag, or pairs an end tag.
fn pair_token(open: &mut Vec<Open>, items: &mut Items, index: usize) -> Result<(), AllocError> {
    let Some(token) = items.token(index) else {
        return Ok(());
    };
    match token.part {
        Part::Start => {
            let first = open.len().saturating_sub(MOST);
            let is_full = open.len() > MOST
                && own_index(open.get(first..).unwrap_or(&[])).is_none();
            if !is_full {
                open.push(Open::Tag(index))?;
            }
            Ok(())
        }
        Part::End => {
            if let Some((place, start)) = partner_of(open.as_slice(), items, &token) {
                open.truncate(place);
                set_partners(items, start, index);
            }
            Ok(())
        }
        _ => Ok(()),
    }
}

/// The open start tag of an end tag's element: its index among those that are open, and its item's.
fn partner_of(open: &[Open], items: &Items, end: &Token) -> Option<(usize, usize)> {
    let mut place = open.len();
    for entry in open.iter().rev() {
        place = place.saturating_sub(1);
        let Open::Tag(start) = *entry else {
            return None;
        };
        let token = items.token(start)?;
        if token.tag.name == end.tag.name {
            return Some((place, start));
        }
    }
    None
}

/// Makes two tags those of one element.
fn set_partners(items: &mut Items, start: usize, end: usize) {
    for (index, other) in [(start, end), (end, start)] {
        if let Some(token) = items.token(index) {
            items.set(
                index,
                Token {
                    partner: Some(other),
                    is_kept: true,
                    ..token
                },
            );
        }
    }
}
