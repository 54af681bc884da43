//! Keeps the HTML that authors write.

use crate::items::Items;
use crate::pairing::pair;
use crate::placing::place;
use crate::reading::{is_html, read_items};
use crate::writing::Writing;
use md_base::Event;
use md_blocks::DocumentHtml;
use memchr::memchr;
use std::alloc::{AllocError, Global};

/// The events of a document with kept tags.
#[derive(Drop)]
pub struct Kept {
    /// The events.
    pub events: Vec<Event>,
    /// The bytes to append to the document: the pieces that its HTML consists of.
    pub pieces: String,
}

/// Whether a document has HTML: there is none without `<`.
pub fn has_html(events: &[Event], text: &str) -> bool {
    memchr(b'<', text.as_bytes()).is_some() && events.iter().any(|event| is_html(event.name))
}

/// The events of a document with the HTML that authors may write: a void tag, and tags of one
/// element in the same node of the document, where the content model allows them. `text` is the
/// document, `start` the number of bytes before the pieces, and `others` what is done with HTML
/// that isn't kept.
///
/// # Errors
///
/// Returns an error only if memory runs out.
pub fn keep(
    alloc: Global,
    events: &[Event],
    text: &str,
    start: usize,
    others: DocumentHtml,
) -> Result<Kept, AllocError> {
    let mut items = read_items(alloc, events, text)?;
    pair(alloc, &mut items)?;
    place(alloc, &mut items, others)?;
    written(alloc, events, &items, start, others)
}

/// The events of a document whose HTML is in these items.
fn written(
    alloc: Global,
    events: &[Event],
    items: &Items,
    start: usize,
    others: DocumentHtml,
) -> Result<Kept, AllocError> {
    let mut writing = Writing::new(alloc, start, others);
    writing.write(events, items)?;
    Ok(Kept {
        events: writing.events,
        pieces: writing.pieces,
    })
}
