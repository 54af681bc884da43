//! Documents, alone or in sequence.

use md_clean::{CleanOptions, clean_with};
use std::alloc::Global;
use std::io::{self, Error, ErrorKind, Write};
use std::str;

/// Writes the cleaned text of a document.
///
/// # Errors
///
/// Returns an error if the document isn't UTF-8, memory runs out, or the text can't be written.
pub(crate) fn write_document<W: Write>(
    alloc: Global,
    input: &[u8],
    options: CleanOptions<'_>,
    writer: &mut W,
) -> io::Result<()> {
    let Ok(document) = str::from_utf8(input) else {
        return Err(Error::from(ErrorKind::InvalidData));
    };
    writer.write_all(cleaned(alloc, document, options)?.as_bytes())
}

/// Writes the cleaned texts of documents in sequence, each after its length.
///
/// # Errors
///
/// Returns an error if a length is wrong, memory runs out, or a text can't be written.
pub(crate) fn write_frames<W: Write>(
    alloc: Global,
    input: &[u8],
    options: CleanOptions<'_>,
    writer: &mut W,
) -> io::Result<()> {
    let mut rest = input;
    for _ in 0..input.len() {
        if rest.is_empty() {
            break;
        }
        let Some((document, others)) = split_frame(rest) else {
            return Err(Error::from(ErrorKind::InvalidData));
        };
        write_frame(alloc, document, options, writer)?;
        rest = others;
    }
    Ok(())
}

/// Writes the cleaned text of a document after its length.
fn write_frame<W: Write>(
    alloc: Global,
    document: &[u8],
    options: CleanOptions<'_>,
    writer: &mut W,
) -> io::Result<()> {
    let Ok(document) = str::from_utf8(document) else {
        return writeln!(writer, "1 0");
    };
    let html = cleaned(alloc, document, options)?;
    writeln!(writer, "0 {}", html.len())?;
    writer.write_all(html.as_bytes())
}

/// The first document, and the bytes after it.
fn split_frame(input: &[u8]) -> Option<(&[u8], &[u8])> {
    let end = input.iter().position(|byte| *byte == b'\n')?;
    let (length, rest) = input.split_at_checked(end)?;
    let length = str::from_utf8(length).ok()?.parse::<u32>().ok()?;
    rest.get(1..)?.split_at_checked(length as usize)
}

/// The cleaned text of a document.
fn cleaned(alloc: Global, document: &str, options: CleanOptions<'_>) -> io::Result<String> {
    match clean_with(alloc, document, options) {
        Ok(html) => Ok(html),
        Err(_) => Err(Error::from(ErrorKind::OutOfMemory)),
    }
}
