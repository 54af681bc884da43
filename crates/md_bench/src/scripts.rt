//! Event scripts of documents.

use crate::draft::{Document, Mark};
use md_html::{Event, Kind, Name};
use std::alloc::{AllocError, Global};
use std::fmt::Write;

/// The script of a document, as a document without events.
pub fn script_of(alloc: Global, document: &Document) -> Result<Document, AllocError> {
    let mut text = String::new(alloc);
    for event in document.events.as_slice() {
        write_event(&mut text, event)?;
    }
    text.push_str("--\n")?;
    let start = text.len();
    let mut bytes = text.into_bytes();
    bytes.extend_from_slice(document.bytes.as_slice())?;
    Ok(Document {
        events: Vec::new(alloc),
        bytes,
        marks: moved(alloc, document.marks.as_slice(), start)?,
        has_html: document.has_html,
        has_notes: document.has_notes,
    })
}

/// Marks so many bytes further on.
fn moved(alloc: Global, marks: &[Mark], by: usize) -> Result<Vec<Mark>, AllocError> {
    let mut all = Vec::new(alloc);
    for mark in marks {
        let index = mark.index.saturating_add(by);
        all.push(Mark { index, ..*mark })?;
    }
    Ok(all)
}

/// Writes the line of an event.
fn write_event(text: &mut String, event: &Event) -> Result<(), AllocError> {
    let sign = match event.kind {
        Kind::Enter => '+',
        Kind::Exit => '-',
    };
    let index = event.point.index;
    match event.name {
        Name::Other(number) => writeln!(text, "{sign}Other{number} {index}"),
        name => writeln!(text, "{sign}{name:?} {index}"),
    }
}
