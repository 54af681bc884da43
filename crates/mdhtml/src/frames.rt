//! Documents, alone or in sequence.

use crate::settings::Settings;
use md_markdown::{markdown, markdown_keeping_html};
use std::alloc::Global;
use std::io::{self, Error, ErrorKind, Write};
use std::str;

/// Writes the text of a document.
///
/// # Errors
///
/// Returns an error if the document has no text, or if it can't be written.
pub(crate) fn write_document<W: Write>(
    alloc: Global,
    input: &[u8],
    settings: &Settings,
    writer: &mut W,
) -> io::Result<()> {
    match text_of(alloc, input, settings)? {
        Some(html) => writer.write_all(html.as_bytes()),
        None => Err(Error::from(ErrorKind::InvalidData)),
    }
}

/// Writes the texts of documents in sequence, each after its length.
///
/// # Errors
///
/// Returns an error if a length can't be read, or if a text can't be written.
pub(crate) fn write_frames<W: Write>(
    alloc: Global,
    input: &[u8],
    settings: &Settings,
    writer: &mut W,
) -> io::Result<()> {
    let mut rest = input;
    for _ in 0..u64::MAX {
        let Some((document, others)) = split_frame(rest)? else {
            break;
        };
        rest = others;
        match text_of(alloc, document, settings)? {
            Some(html) => {
                let text = html.as_str();
                writeln!(writer, "0 {}", text.len())?;
                writer.write_all(text.as_bytes())?;
            }
            None => writeln!(writer, "1 0")?,
        }
    }
    Ok(())
}

/// The first document, and the bytes after it.
fn split_frame(input: &[u8]) -> io::Result<Option<(&[u8], &[u8])>> {
    let Some(at) = input.iter().position(|byte| *byte == b'\n') else {
        return Ok(None);
    };
    let (count, rest) = input.split_at(at);
    let Ok(count) = str::from_utf8(count) else {
        return Err(Error::from(ErrorKind::InvalidData));
    };
    let Ok(count) = count.parse::<u32>() else {
        return Err(Error::from(ErrorKind::InvalidData));
    };
    let end = count as usize + 1;
    match (rest.get(1..end), rest.get(end..)) {
        (Some(document), Some(others)) => Ok(Some((document, others))),
        _ => Err(Error::from(ErrorKind::InvalidData)),
    }
}

/// The text of a document, if it is UTF-8.
fn text_of(alloc: Global, document: &[u8], settings: &Settings) -> io::Result<Option<String>> {
    let Ok(text) = str::from_utf8(document) else {
        return Ok(None);
    };
    if settings.keeps_html {
        return match markdown_keeping_html(alloc, text, &settings.options) {
            Ok(html) => Ok(Some(html)),
            Err(_) => Err(Error::from(ErrorKind::OutOfMemory)),
        };
    }
    match markdown(alloc, text, &settings.options) {
        Ok(html) => Ok(Some(String::from_str(alloc, html.as_str())?)),
        Err(_) => Err(Error::from(ErrorKind::OutOfMemory)),
    }
}
