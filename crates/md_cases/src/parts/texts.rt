//! Questions about a document that is a text.

use super::{Asked, Call, document, no_such_call};
use md_html::{
    SAFE_PROTOCOL_HREF, SAFE_PROTOCOL_SRC, decode_character_reference, encode, gfm_tagfilter,
    normalize_identifier, sanitize, sanitize_with_protocols,
};
use std::alloc::{AllocError, Global};

/// The result of a call.
pub(super) fn answer(
    alloc: Global,
    asked: &Asked<'_>,
    call: Call<'_>,
) -> Result<String, AllocError> {
    let text = document(asked);
    match call.name {
        "normalize_identifier" => normalize_identifier(alloc, text),
        "decode_character_reference" => decode(alloc, asked, call.argument),
        "encode" => encode(alloc, text, call.argument == "html"),
        "sanitize" => sanitize(alloc, text),
        "sanitize_with_protocols" => permit(alloc, asked, call.argument),
        "gfm_tagfilter" => gfm_tagfilter(alloc, text),
        _ => no_such_call(alloc),
    }
}

/// The text of a reference whose marker is the argument's first byte.
fn decode(alloc: Global, asked: &Asked<'_>, marker: &str) -> Result<String, AllocError> {
    let marker = marker.as_bytes().first().copied().unwrap_or(0);
    let names = asked.names.as_slice();
    match decode_character_reference(alloc, document(asked), marker, names)? {
        Some(text) => Ok(text),
        None => String::from_str(alloc, "(none)"),
    }
}

/// A URL under the protocols of links or of images, or else under the named ones.
fn permit(alloc: Global, asked: &Asked<'_>, list: &str) -> Result<String, AllocError> {
    let url = document(asked);
    match list {
        "href" => sanitize_with_protocols(alloc, url, &SAFE_PROTOCOL_HREF),
        "src" => sanitize_with_protocols(alloc, url, &SAFE_PROTOCOL_SRC),
        _ => permit_named(alloc, asked, &mut Vec::new(alloc)),
    }
}

/// A URL under the named protocols, which are collected in a list.
fn permit_named<'a>(
    alloc: Global,
    asked: &Asked<'a>,
    protocols: &mut Vec<&'a str>,
) -> Result<String, AllocError> {
    for (protocol, _) in &asked.names {
        protocols.push(*protocol)?;
    }
    sanitize_with_protocols(alloc, document(asked), protocols.as_slice())
}
