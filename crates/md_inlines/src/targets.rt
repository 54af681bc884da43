//! Targets of links and images: destinations, titles and definitions.

use crate::source::Source;
use crate::strings::write_string;
use crate::urls::url_of;
use md_base::Name;
use md_blocks::Definition;
use md_lines::{Line, Span, Title};
use md_writer::{Url, Writer};
use std::alloc::AllocError;

/// The destination of a link, an image or a definition.
#[derive(Clone, Copy, Debug, PartialEq, Eq)]
pub(crate) struct Destination {
    /// Its range.
    pub(crate) place: Span,
    /// Whether it has neither an escape nor a reference.
    pub(crate) is_plain: bool,
    /// The index of its definition, if it has one.
    pub(crate) definition: Option<usize>,
}

impl Destination {
    /// The destination of a resource.
    pub(crate) fn inline(place: Span) -> Destination {
        Destination {
            place,
            is_plain: false,
            definition: None,
        }
    }

    /// The destination of a definition.
    pub(crate) fn defined(definition: &Definition) -> Destination {
        Destination {
            place: definition.destination,
            is_plain: definition.is_plain,
            definition: Some(definition.index),
        }
    }
}

/// Writes a definition.
pub(crate) fn write_definition(
    writer: &mut Writer,
    source: &Source,
    definition: &Definition,
) -> Result<(), AllocError> {
    let label = definition.label;
    writer.enter(Name::Definition, label.start)?;
    writer.leaf(Name::DefinitionLabelString, label.start, label.end)?;
    let name = Name::DefinitionDestinationString;
    write_destination(writer, source, name, Destination::defined(definition))?;
    if let Some(title) = definition.title {
        let name = Name::DefinitionTitleString;
        write_title(writer, source.bytes, name, title, source.lines)?;
    }
    writer.exit(Name::Definition, definition.destination.end)
}

/// Writes a destination, if it isn't empty. A URL resolved against a base is appended to the
/// document.
pub(crate) fn write_destination(
    writer: &mut Writer,
    source: &Source,
    name: Name,
    destination: Destination,
) -> Result<(), AllocError> {
    let place = destination.place;
    if place.is_empty() {
        return Ok(());
    }
    writer.enter(name, place.start)?;
    // Without a base no URL is resolved, and no call is made.
    let url = if source.has_base {
        url_of(writer, source, destination)?
    } else {
        Url::Own
    };
    match url {
        Url::Added(url) => writer.data(url.start, url.end)?,
        _ if destination.is_plain => writer.data(place.start, place.end)?,
        _ => write_string(writer, source.bytes, place.start, place.end)?,
    }
    writer.exit(name, place.end)
}

/// Writes a title, if it isn't empty, from the lines that contain it.
pub(crate) fn write_title(
    writer: &mut Writer,
    bytes: &[u8],
    name: Name,
    title: Title,
    lines: &[Line],
) -> Result<(), AllocError> {
    if title.text.is_empty() {
        return Ok(());
    }
    let end = title.text.end;
    writer.enter(name, title.text.start)?;
    let mut at = title.text.start;
    let lines = lines.get(title.line..).unwrap_or(&[]);
    for (index, line) in lines.iter().enumerate() {
        if end <= line.end || index.saturating_add(1) == lines.len() {
            break;
        }
        write_string(writer, bytes, at, line.end)?;
        writer.leaf(Name::LineEnding, line.end, line.next())?;
        at = match lines.get(index.saturating_add(1)) {
            Some(next) => next.start,
            None => line.next(),
        };
    }
    write_string(writer, bytes, at, end)?;
    writer.exit(name, end)
}
