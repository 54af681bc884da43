//! Links in angle brackets: `<https://a>`, `<a@b>`.

use md_base::Name;
use md_lines::{Class, is};

/// A link in angle brackets: its name, and its length with both brackets.
#[derive(Clone, Copy, Debug, PartialEq, Eq)]
pub struct Autolink {
    pub name: Name,
    pub length: usize,
}

/// The maximum length of a protocol's name in bytes.
const MOST_OF_PROTOCOL: usize = 32;
/// The maximum length of a part of a host in bytes.
const MOST_OF_PART: usize = 63;

/// The link at the beginning of a text, whose first byte is `<`.
#[inline(always)]
pub fn autolink_at(text: &[u8]) -> Option<Autolink> {
    let inside = text.get(1..)?;
    let name = inside.iter().take_while(|byte| is_of_name(**byte)).count();
    let (name, length) = match inside.get(name) {
        Some(b':') => (Name::AutolinkProtocol, url_length(inside, name)?),
        Some(b'@') => (Name::AutolinkEmail, address_length(inside, name)?),
        _ => return None,
    };
    Some(Autolink {
        name,
        length: length.saturating_add(2),
    })
}

/// The length of the URL before a `>`, whose colon is at an index.
fn url_length(text: &[u8], colon: usize) -> Option<usize> {
    let protocol = text.get(..colon)?;
    let begins_well = protocol.first()?.is_ascii_alphabetic();
    let has_wrong_length = protocol.len() < 2 || protocol.len() > MOST_OF_PROTOCOL;
    if !begins_well || has_wrong_length || !protocol.iter().all(|byte| is_of_protocol(*byte)) {
        return None;
    }
    let length = text.iter().take_while(|byte| is_of_url(**byte)).count();
    matches!(text.get(length), Some(b'>')).then_some(length)
}

/// Whether a byte may occur in a URL: no space, angle bracket or control character except NUL,
/// which is printed as U+FFFD.
fn is_of_url(byte: u8) -> bool {
    byte == 0 || (byte > b' ' && !matches!(byte, b'<' | b'>' | 127))
}

/// Whether a byte may occur in the name of a protocol.
fn is_of_protocol(byte: u8) -> bool {
    byte.is_ascii_alphanumeric() || matches!(byte, b'+' | b'-' | b'.')
}

/// The length of the address before a `>`, whose `@` is at an index.
fn address_length(text: &[u8], at: usize) -> Option<usize> {
    let host = text.get(at..)?.get(1..)?;
    let length = host
        .iter()
        .take_while(|byte| byte.is_ascii_alphanumeric() || matches!(**byte, b'-' | b'.'))
        .count();
    let is_address = at > 0
        && matches!(host.get(length), Some(b'>'))
        && is_host(host.get(..length).unwrap_or(b""));
    is_address.then_some(at.saturating_add(1).saturating_add(length))
}

/// Whether a byte may occur in the name of an address.
#[inline(always)]
fn is_of_name(byte: u8) -> bool {
    is(byte, Class::Alphanumeric)
        || matches!(
            byte,
            b'.' | b'!'
                | b'#'
                | b'$'
                | b'%'
                | b'&'
                | b'\''
                | b'*'
                | b'+'
                | b'/'
                | b'='
                | b'?'
                | b'^'
                | b'_'
                | b'`'
                | b'{'
                | b'|'
                | b'}'
                | b'~'
                | b'-'
        )
}

/// Whether letters, digits, `-` and full stops are a host: each part has 1 to 63 bytes, and neither
/// begins nor ends with `-`.
fn is_host(text: &[u8]) -> bool {
    let mut length: usize = 0;
    let mut before = b'.';
    for byte in text {
        if *byte == b'.' {
            if length == 0 || before == b'-' {
                return false;
            }
            length = 0;
        } else {
            length = length.saturating_add(1);
            if length > MOST_OF_PART || (length == 1 && *byte == b'-') {
                return false;
            }
        }
        before = *byte;
    }
    length > 0 && before != b'-'
}
