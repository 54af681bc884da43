//! Writes the events of links, images and calls of footnotes.

use crate::brackets::Target;
use crate::emission::LeafContext;
use crate::strings::{has_reference, write_url};
use crate::targets::{Destination, write_destination, write_title};
use md_base::Name;
use md_blocks::Definition;
use md_lines::{Line, Title};
use md_marks::Token;
use md_writer::Writer;
use std::alloc::AllocError;

impl<'e> LeafContext<'e> {
    /// Writes an autolink; inside a link it is text. NUL in a URL is U+FFFD, as in text.
    pub(crate) fn write_link(
        &self,
        writer: &mut Writer,
        name: Name,
        start: usize,
        end: usize,
    ) -> Result<(), AllocError> {
        if self.links > 0 {
            return writer.leaf(Name::Data, start, end);
        }
        let text = self.leaf.bytes.get(start..end).unwrap_or(b"");
        if text.contains(&0) {
            return self.write_link_to_text(writer, start, end, false);
        }
        writer.leaf(name, start, end)
    }

    /// Writes an autolink of a URL in angle brackets. Its character references are decoded both in
    /// the text and in the destination.
    pub(crate) fn write_url_link(
        &self,
        writer: &mut Writer,
        start: usize,
        end: usize,
    ) -> Result<(), AllocError> {
        let bytes = self.leaf.bytes;
        if !has_reference(bytes.get(start..end).unwrap_or(b"")) {
            return self.write_link(writer, Name::AutolinkProtocol, start, end);
        }
        if self.links > 0 {
            return write_url(writer, bytes, start, end);
        }
        self.write_link_to_text(writer, start, end, true)
    }

    /// Writes a link whose destination is its text, with the character references in it if
    /// `has_references`.
    fn write_link_to_text(
        &self,
        writer: &mut Writer,
        start: usize,
        end: usize,
        has_references: bool,
    ) -> Result<(), AllocError> {
        let bytes = self.leaf.bytes;
        write_label_start(writer, Name::Link, start, start)?;
        write_url_text(writer, bytes, start, end, has_references)?;
        writer.exit(Name::LabelText, end)?;
        writer.exit(Name::Label, end)?;
        writer.enter(Name::Resource, start)?;
        writer.enter(Name::ResourceDestinationString, start)?;
        write_url_text(writer, bytes, start, end, has_references)?;
        writer.exit(Name::ResourceDestinationString, end)?;
        writer.exit(Name::Resource, end)?;
        writer.exit(Name::Link, end)
    }

    /// Writes a call of a footnote; inside a link, and in a dropped footnote, it is text.
    pub(crate) fn write_call(
        &mut self,
        writer: &mut Writer,
        token: &Token,
    ) -> Result<(), AllocError> {
        let (start, end) = (token.start, token.end);
        if self.links > 0 || self.calls.is_dropped() {
            return writer.leaf(Name::Data, start, end);
        }
        self.calls.note(token.index)?;
        writer.enter(Name::GfmFootnoteCall, start)?;
        writer.enter(Name::Label, start)?;
        writer.leaf(
            Name::LabelText,
            start.saturating_add(2),
            end.saturating_sub(1),
        )?;
        writer.exit(Name::Label, end)?;
        writer.exit(Name::GfmFootnoteCall, end)
    }

    /// Writes the end of a link's or an image's label, and its target.
    pub(crate) fn write_link_end(
        &self,
        writer: &mut Writer,
        name: Name,
        token: &Token,
    ) -> Result<(), AllocError> {
        let after = token.start.saturating_add(1);
        writer.exit(Name::LabelText, token.start)?;
        writer.exit(Name::Label, after)?;
        match self.reader.targets.get(token.index) {
            Some(Target::Resource(destination, title)) => {
                writer.enter(Name::Resource, after)?;
                let destination = Destination::inline(*destination);
                self.write_resource(writer, destination, *title, self.leaf.lines)?;
                writer.exit(Name::Resource, token.end)?;
            }
            Some(Target::Definition(index)) => {
                if let Some(definition) = self.reader.definitions.list().get(*index) {
                    self.write_defined(writer, definition, after, token.end)?;
                }
            }
            None => {}
        }
        writer.exit(name, token.end)
    }

    /// Writes the target of a link or an image by a definition: the definition's content, or its
    /// label if the content is long.
    fn write_defined(
        &self,
        writer: &mut Writer,
        definition: &Definition,
        start: usize,
        end: usize,
    ) -> Result<(), AllocError> {
        if definition.is_long {
            writer.refer_to(definition.index)?;
            let label = definition.label;
            return writer.leaf(Name::ReferenceString, label.start, label.end);
        }
        writer.enter(Name::Resource, start)?;
        let destination = Destination::defined(definition);
        self.write_resource(writer, destination, definition.title, self.source.lines)?;
        writer.exit(Name::Resource, end)
    }

    /// Writes a destination and a title, which is in these lines.
    fn write_resource(
        &self,
        writer: &mut Writer,
        destination: Destination,
        title: Option<Title>,
        lines: &[Line],
    ) -> Result<(), AllocError> {
        let name = Name::ResourceDestinationString;
        write_destination(writer, self.source, name, destination)?;
        match title {
            Some(title) => {
                let name = Name::ResourceTitleString;
                write_title(writer, self.source.bytes, name, title, lines)
            }
            None => Ok(()),
        }
    }
}

/// Writes the text of a URL, with the character references in it if `has_references`.
fn write_url_text(
    writer: &mut Writer,
    bytes: &[u8],
    start: usize,
    end: usize,
    has_references: bool,
) -> Result<(), AllocError> {
    if has_references {
        write_url(writer, bytes, start, end)
    } else {
        writer.data(start, end)
    }
}

/// Writes the beginning of a link or an image, up to the text of its label.
pub(crate) fn write_label_start(
    writer: &mut Writer,
    name: Name,
    start: usize,
    inside: usize,
) -> Result<(), AllocError> {
    writer.enter(name, start)?;
    writer.enter(Name::Label, start)?;
    writer.enter(Name::LabelText, inside)
}
