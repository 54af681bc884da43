//! Reads the attributes of a tag, and writes those that are listed.

use crate::decoding::{Place, decode};
use crate::names::Tag;
use crate::tokens::is_space;
use crate::values::{MOST, names_of};
use md_base::{SAFE_PROTOCOL_HREF, SAFE_PROTOCOL_SRC};
use md_text::{push_encoded, sanitize_with_protocols};
use std::alloc::{AllocError, Global};

/// An attribute, as it is written.
#[derive(Clone, Copy)]
struct Attribute<'a> {
    name: &'a str,
    value: &'a str,
}

/// Appends an opening tag without its `>`. URLs may have these protocols alone; `None`: those that
/// the compiler permits.
pub fn push_tag(
    alloc: Global,
    out: &mut String,
    tag: Tag,
    attributes: &str,
    protocols: Option<&[&str]>,
) -> Result<(), AllocError> {
    out.push('<')?;
    out.push_str(tag.name)?;
    if attributes.is_empty() {
        return Ok(());
    }
    let names = names_of(tag.listed);
    let values = read_values(names, attributes);
    for (name, value) in names.iter().zip(values.iter()) {
        if let Some(value) = value {
            push_attribute(alloc, out, name, value, protocols)?;
        }
    }
    Ok(())
}

/// The value of each of these names, if there is one: of equal names the first counts.
fn read_values<'a>(names: &[&str], attributes: &'a str) -> [Option<&'a str>; MOST] {
    let mut values = [None; MOST];
    let mut rest = attributes;
    for _ in 0..attributes.len() {
        let Some((attribute, after)) = split_attribute(rest) else {
            break;
        };
        rest = after;
        let found = attribute.name.as_bytes();
        let place = names
            .iter()
            .position(|name| name.as_bytes().eq_ignore_ascii_case(found));
        if let Some(slot) = place.and_then(|index| values.get_mut(index)) {
            if slot.is_none() {
                *slot = Some(attribute.value);
            }
        }
    }
    values
}

/// The first attribute, and the text after it.
fn split_attribute(text: &str) -> Option<(Attribute<'_>, &str)> {
    let text = skip_spaces(text, b'/');
    let others = text.as_bytes().get(1..)?;
    let length = others.iter().take_while(|byte| !ends_name(**byte)).count();
    let (name, after) = text.split_at_checked(length.saturating_add(1))?;
    let (value, rest) = match skip_spaces(after, b' ').strip_prefix('=') {
        Some(text) => split_value(skip_spaces(text, b' ')),
        None => ("", after),
    };
    Some((Attribute { name, value }, rest))
}

/// Whether a byte ends the name of an attribute, after its first byte.
fn ends_name(byte: u8) -> bool {
    is_space(byte) || matches!(byte, b'/' | b'=' | b'>')
}

/// The text after the white space at its beginning, and after this byte there.
fn skip_spaces(text: &str, also: u8) -> &str {
    let length = text
        .as_bytes()
        .iter()
        .take_while(|byte| is_space(**byte) || **byte == also)
        .count();
    text.get(length..).unwrap_or("")
}

/// The value at the beginning of a text, and the text after it.
fn split_value(text: &str) -> (&str, &str) {
    if let Some(inner) = text.strip_prefix('"') {
        return inner.split_once('"').unwrap_or((inner, ""));
    }
    if let Some(inner) = text.strip_prefix('\'') {
        return inner.split_once('\'').unwrap_or((inner, ""));
    }
    let length = text
        .as_bytes()
        .iter()
        .take_while(|byte| !is_space(**byte))
        .count();
    text.split_at_checked(length).unwrap_or((text, ""))
}

/// Appends an attribute; a URL only if it has no protocol or a permitted one.
fn push_attribute(
    alloc: Global,
    out: &mut String,
    name: &str,
    value: &str,
    protocols: Option<&[&str]>,
) -> Result<(), AllocError> {
    let value = decode(alloc, value, Place::Value)?;
    let permitted: &[&str] = match name {
        "href" => &SAFE_PROTOCOL_HREF,
        "src" => &SAFE_PROTOCOL_SRC,
        _ => {
            push_name(out, name)?;
            push_encoded(out, value.as_str(), true)?;
            return out.push('"');
        }
    };
    let url = stripped(alloc, value.as_str())?;
    if let Some(sanitized) = sanitized(alloc, url.as_str(), permitted, protocols)? {
        push_name(out, name)?;
        out.push_str(sanitized.as_str())?;
        out.push('"')?;
    }
    Ok(())
}

/// A URL as it is written, if it has no protocol, or one that is permitted and chosen.
fn sanitized(
    alloc: Global,
    url: &str,
    permitted: &[&str],
    chosen: Option<&[&str]>,
) -> Result<Option<String>, AllocError> {
    if url.is_empty() {
        return Ok(Some(String::new(alloc)));
    }
    let mut sanitized = sanitize_with_protocols(alloc, url, permitted)?;
    if let Some(chosen) = chosen {
        if !sanitized.is_empty() {
            sanitized = sanitize_with_protocols(alloc, url, chosen)?;
        }
    }
    Ok((!sanitized.is_empty()).then_some(sanitized))
}

/// Appends a space, a name and `="`.
fn push_name(out: &mut String, name: &str) -> Result<(), AllocError> {
    out.push(' ')?;
    out.push_str(name)?;
    out.push_str("=\"")
}

/// A URL without what the URL Standard strips: controls and spaces around it, tabs and line endings
/// in it.
fn stripped(alloc: Global, value: &str) -> Result<String, AllocError> {
    let trimmed = value.trim_matches(|character: char| character <= ' ');
    let mut out = String::with_capacity(alloc, trimmed.len())?;
    for piece in trimmed.split(|character: char| matches!(character, '\t' | '\n' | '\r')) {
        out.push_str(piece)?;
    }
    Ok(out)
}
