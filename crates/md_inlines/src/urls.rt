//! Resolves URLs against a base.

use crate::source::Source;
use crate::strings::code_length;
use crate::targets::Destination;
use md_lines::Span;
use md_references::text_of_reference;
use md_writer::{Url, Writer};
use std::alloc::{AllocError, Global};

/// The resolution of a destination's URL. That of a definition is computed once.
pub(crate) fn url_of(
    writer: &mut Writer,
    source: &Source,
    destination: Destination,
) -> Result<Url, AllocError> {
    let Some(index) = destination.definition else {
        return resolve(writer, source, destination);
    };
    match writer.url_of(index) {
        Url::Unread => {
            let url = resolve(writer, source, destination)?;
            writer.note_url(index, url)?;
            Ok(url)
        }
        url => Ok(url),
    }
}

/// Resolves a destination's URL against a base.
fn resolve(
    writer: &mut Writer,
    source: &Source,
    destination: Destination,
) -> Result<Url, AllocError> {
    let place = destination.place;
    let text = source.bytes.get(place.start..place.end).unwrap_or(b"");
    let start = writer.end();
    let is_other = if destination.is_plain {
        writer.added.push_resolved(source.alloc, text)?
    } else {
        let url = decoded(source.alloc, text)?;
        writer.added.push_resolved(source.alloc, url.as_slice())?
    };
    if is_other {
        Ok(Url::Added(Span::new(start, writer.end())))
    } else {
        Ok(Url::Own)
    }
}

/// A text with its escapes and references decoded.
fn decoded(alloc: Global, text: &[u8]) -> Result<Vec<u8>, AllocError> {
    let mut meant = Vec::with_capacity(alloc, text.len())?;
    let mut from = 0;
    let mut at = 0;
    while at < text.len() {
        let length = code_length(text, at, true);
        if length == 0 {
            at += 1;
            continue;
        }
        meant.extend_from_slice(text.get(from..at).unwrap_or(b""))?;
        from = at.saturating_add(length);
        if text[at] == b'&' {
            let reference = text.get(at..from).unwrap_or(b"");
            meant.extend_from_slice(text_of_reference(alloc, reference)?.as_bytes())?;
            at = from;
        } else {
            at = from.saturating_add(1);
        }
    }
    meant.extend_from_slice(text.get(from..).unwrap_or(b""))?;
    Ok(meant)
}
