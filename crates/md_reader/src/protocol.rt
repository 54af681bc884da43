//! The protocols of links and images.

ghost use Rattle.std.specs.Prelude.{◌≡◌, ◌<◌, ◌≤◌, IfSome, MatchOption, length, map, ◌∷◌, []};
ghost use Rattle.std.specs.Prelude.{is_some};
ghost use Rattle.std.specs.List.{list_any};
ghost use Rattle.md_text.specs.References.{read_back};
ghost use Rattle.md_text.specs.Safe.{is_safe_value};
ghost use Rattle.md_text.specs.Url.{protocol_of};
ghost use Rattle.md_reader.specs.Permitted.{permits};
ghost use Rattle.md_reader.specs.Named.{continues, has_this_protocol};

use crate::run::reference;

/// The protocols that links and images may have, each in lower case.
#[derive(Clone, Copy)]
pub struct Protocols<'a> {
    /// Those of an `href`.
    pub links: &'a [&'a str],
    /// Those of a `src`.
    pub images: &'a [&'a str],
}

/// Whether an attribute isn't an `href` or a `src` with a protocol that isn't permitted.
pub(crate) fn is_permitted(protocols: Protocols, name: &[u8], value: &[u8]) -> bool
    ensures { result ≡ permits protocols.entry (record { name = name.now; value = value.now }) }
{
    match name {
        b"href" => has_permitted_protocol(protocols.links, value),
        b"src" => has_permitted_protocol(protocols.images, value),
        _ => true,
    }
}

/// Whether a value, with its references read back, has no protocol or one of these.
fn has_permitted_protocol(protocols: &[&str], value: &[u8]) -> bool
    ensures { result ≡ is_safe_value (map (λ protocol. protocol.now) protocols.now) value.now }
{
    !has_protocol(value) || has_one_of(protocols, value)
}

/// Whether a value, with its references read back, has a protocol.
fn has_protocol(value: &[u8]) -> bool
    ensures { result ≡ is_some (protocol_of (read_back value.now)) }
{
    let mut rest = value;
    'characters: while let Some((character, later)) = split_character(rest) {
        match character {
            b':' => return true,
            b'/' | b'?' | b'#' => return false,
            _ => rest = later,
        }
    }
    false
}

/// Whether a value, with its references read back, has one of these protocols.
fn has_one_of(protocols: &[&str], value: &[u8]) -> bool
    ensures { result
        ≡ list_any (λ protocol. has_this_protocol protocol.now
        (read_back value.now)) protocols.now }
{
    for protocol in protocols {
        if has_this_protocol(protocol.as_bytes(), value) {
            return true;
        }
    }
    false
}

/// Whether a value, with its references read back and its ASCII letters lowered, has this protocol.
fn has_this_protocol(protocol: &[u8], value: &[u8]) -> bool
    ensures { result ≡ has_this_protocol protocol.now (read_back value.now) }
{
    let mut rest = value;
    let mut name = protocol;
    'characters: while let Some((byte, others)) = name.split_first() {
        match split_character(rest) {
            Some((character, later)) if continues(*byte, character) => {
                rest = later;
                name = others;
            }
            _ => return false,
        }
    }
    match split_character(rest) {
        Some((character, _)) => character == b':',
        None => false,
    }
}

/// Whether a character, with its ASCII letters lowered, is this byte, and doesn't end a protocol.
#[inline(always)]
fn continues(byte: u8, character: u8) -> bool
    ensures { result ≡ continues byte character }
{
    !matches!(character, b':' | b'/' | b'?' | b'#') && character.to_ascii_lowercase() == byte
}

/// The first character of a value, with a reference read back, and the value after it.
#[inline(always)]
fn split_character(text: &[u8]) -> Option<(u8, &[u8])>
    ensures is { MatchOption result
        (text.now ≡ [])
        (λ found. read_back text.now ≡ found.0 ∷ read_back found.1.now) }
    ensures shorter { IfSome result (λ found. length found.1.now < length text.now) }
{
    let (byte, after) = text.split_first()?;
    if *byte == b'&' {
        return Some(split_reference(after));
    }
    Some((*byte, after))
}

/// The character of a reference, or `&` if it is none, and the text after it, by the text after
/// its `&`.
#[inline(always)]
fn split_reference(text: &[u8]) -> (u8, &[u8])
    ensures is { read_back (38 ∷ text.now) ≡ result.0 ∷ read_back result.1.now }
    ensures shorter { length result.1.now ≤ length text.now }
{
    reference(text).unwrap_or((b'&', text))
}
