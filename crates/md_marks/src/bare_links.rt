//! Finds bare URLs and addresses in text, as GitHub flavored Markdown defines them.

ghost use Rattle.std.specs.Prelude.{◌≡◌, ◌≤◌, ◌<◌, ◌-◌, ◌^◌, length};
ghost use Rattle.md_marks.specs.BareLinks.{goes_on, link_length, open_after};

use crate::characters::{CharacterClass, class_after};
use md_base::Name;

/// A bare link: the event's name, and its range.
#[derive(Clone, Copy, Debug, PartialEq, Eq)]
pub struct BareLink {
    pub name: Name,
    pub start: usize,
    pub end: usize,
}

/// The link with `://` at `colon`, which begins at `low` or later and ends before `high`. A link
/// with `ftp`, which GFM has too, is text, since no safe text keeps that protocol.
pub fn url(bytes: &[u8], low: usize, colon: usize, high: usize) -> Option<BareLink> {
    let rest = bytes.get(colon..high)?.strip_prefix(b"://")?;
    let before = bytes.get(low..colon)?;
    let letters = before
        .iter()
        .rev()
        .take(6)
        .take_while(|byte| byte.is_ascii_alphabetic());
    let start = colon.checked_sub(letters.count())?;
    let scheme = bytes.get(start..colon)?;
    if !scheme.eq_ignore_ascii_case(b"http") && !scheme.eq_ignore_ascii_case(b"https") {
        return None;
    }
    if !matches!(class_after(rest), CharacterClass::Word) {
        return None;
    }
    domain_length(rest, false).ok()?;
    let end = link_end(bytes, start, high)?;
    let is_long = end > colon.saturating_add(3);
    is_long.then_some(BareLink {
        name: Name::GfmAutolinkLiteralProtocol,
        start,
        end,
    })
}

/// The search for links that begin with `www.`, from left to right.
#[derive(Drop)]
pub struct WwwLinks {
    /// No link begins before this index, since the domain around it has a `_` in its last two parts
    /// there. So no text is read twice as a domain.
    refused_before: usize,
}

impl WwwLinks {
    /// The state before a text.
    pub fn new() -> WwwLinks {
        WwwLinks { refused_before: 0 }
    }

    /// The link whose first full stop is at `dot`. It begins at `low` or later, in a line from
    /// `line` to `high`, and ends before NUL.
    pub fn find(
        &mut self,
        bytes: &[u8],
        line: usize,
        low: usize,
        dot: usize,
        high: usize,
    ) -> Option<BareLink> {
        if !is_www(bytes, low, dot) {
            return None;
        }
        let start = dot.checked_sub(3)?;
        if start < self.refused_before || !may_begin(bytes.get(line..start).unwrap_or(b"")) {
            return None;
        }
        let text = bytes.get(start..high)?;
        if let Err(marked) = domain_length(text, true) {
            self.refused_before = start.saturating_add(marked);
            return None;
        }
        let high = start.saturating_add(text.iter().take_while(|byte| **byte != 0).count());
        let end = link_end(bytes, start, high)?;
        let is_long = end > dot.saturating_add(1);
        is_long.then_some(BareLink {
            name: Name::GfmAutolinkLiteralWww,
            start,
            end,
        })
    }
}

/// Whether `www` precedes `dot`, and doesn't begin before `low`.
pub fn is_www(bytes: &[u8], low: usize, dot: usize) -> bool {
    let before = bytes.get(low..dot).unwrap_or(b"");
    match before.len().checked_sub(3) {
        Some(start) => match before.get(start..) {
            Some(word) => word.eq_ignore_ascii_case(b"www"),
            None => false,
        },
        None => false,
    }
}

/// Whether a link that begins with `www.` may begin after a text of its line.
fn may_begin(before: &[u8]) -> bool {
    match before.last() {
        None => true,
        Some(byte) => matches!(
            *byte,
            b' ' | b'\t' | b'\n' | b'\r' | b'*' | b'_' | b'~' | b'(' | b'['
        ),
    }
}

/// The link whose `@` is at `at`. It begins at `low` or later and ends before `high`.
pub fn address(bytes: &[u8], low: usize, at: usize, high: usize) -> Option<BareLink> {
    let before = bytes.get(low..at)?;
    let name_length = before
        .iter()
        .rev()
        .take_while(|byte| {
            byte.is_ascii_alphanumeric() || matches!(**byte, b'.' | b'+' | b'-' | b'_')
        })
        .count();
    if name_length == 0 {
        return None;
    }
    let start = at.checked_sub(name_length)?;
    let rest = bytes.get(at..high)?.get(1..)?;
    let host_length = host_length(rest)?;
    if matches!(rest.get(host_length), Some(b'@')) {
        return None;
    }
    let head = bytes.get(low..start)?;
    let end = at.saturating_add(1).saturating_add(host_length);
    if ends_in_protocol(head, b"mailto:") {
        return Some(BareLink {
            name: Name::GfmAutolinkLiteralMailto,
            start: start.saturating_sub(7),
            end,
        });
    }
    if ends_in_protocol(head, b"xmpp:") {
        return Some(BareLink {
            name: Name::GfmAutolinkLiteralXmpp,
            start: start.saturating_sub(5),
            end: end.saturating_add(resource_length(rest, host_length)),
        });
    }
    Some(BareLink {
        name: Name::GfmAutolinkLiteralEmail,
        start,
        end,
    })
}

/// Whether a text ends in a protocol, with no letter or digit before it.
fn ends_in_protocol(text: &[u8], protocol: &[u8]) -> bool {
    match text.strip_suffix(protocol) {
        Some(before) => !matches!(before.last(), Some(byte) if byte.is_ascii_alphanumeric()),
        None => false,
    }
}

/// The length of the host at the beginning of a text, in an address.
fn host_length(text: &[u8]) -> Option<usize> {
    let mut has_dot = false;
    let mut length = text.len();
    for (index, byte) in text.iter().enumerate() {
        match *byte {
            b'.' if is_alphanumeric_at(text, index, 1) => has_dot = true,
            b'-' | b'_' => {}
            other if other.is_ascii_alphanumeric() => {}
            _ => {
                length = index;
                break;
            }
        }
    }
    let last = text.get(..length)?.last()?;
    (has_dot && last.is_ascii_alphabetic()).then_some(length)
}

/// Whether there is a letter or a digit `after` bytes after an index.
fn is_alphanumeric_at(text: &[u8], index: usize, after: usize) -> bool {
    match text.get(index.saturating_add(after)) {
        Some(byte) => byte.is_ascii_alphanumeric(),
        None => false,
    }
}

/// The length of the resource of an XMPP address, with its slash, that begins at `from`.
fn resource_length(text: &[u8], from: usize) -> usize {
    let Some(rest) = text.get(from..) else {
        return 0;
    };
    let Some(resource) = rest.strip_prefix(b"/") else {
        return 0;
    };
    let length = resource
        .iter()
        .take_while(|byte| byte.is_ascii_alphanumeric() || matches!(**byte, b'@' | b'.' | b'/'))
        .count();
    match resource.get(..length) {
        Some(text) if !text.is_empty() => trimmed_length(text).saturating_add(1),
        _ => 0,
    }
}

/// The length of the domain at the beginning of a text: letters, digits, `-`, `_` and full stops,
/// with no `_` in the last two parts. If there is none, the index behind the last `_`, before which
/// no domain begins that ends in the same parts.
fn domain_length(text: &[u8], needs_dot: bool) -> Result<usize, usize> {
    let mut has_dot = false;
    let mut is_last_marked = false;
    let mut is_one_before_marked = false;
    let mut marked = 0;
    let mut length = text.len();
    for (index, byte) in text.iter().enumerate() {
        match *byte {
            b'_' => {
                is_last_marked = true;
                marked = index.saturating_add(1);
            }
            b'.' => {
                is_one_before_marked = is_last_marked;
                is_last_marked = false;
                has_dot = true;
            }
            b'-' => {}
            other if other.is_ascii_alphanumeric() || other >= 128 => {}
            _ => {
                length = index;
                break;
            }
        }
    }
    let is_domain = !is_last_marked && !is_one_before_marked && (has_dot || !needs_dot);
    if is_domain && length > 0 {
        Ok(length)
    } else {
        Err(marked)
    }
}

/// The end of a link from `start`: before white space, `<`, a closing bracket that it doesn't open,
/// or `high`, and before marks that belong to the surrounding text.
fn link_end(bytes: &[u8], start: usize, high: usize) -> Option<usize> {
    let rest = bytes.get(start..high)?;
    let link = rest.get(..link_length(rest))?;
    Some(start.saturating_add(trimmed_length(link)))
}

/// The length of the bare link that begins a text, before its end is trimmed.
fn link_length(text: &[u8]) -> usize
    ensures within { result ≤ length text.now }
    ensures value { result ≡ link_length 0 text.now }
{
    let mut depth: usize = 0;
    let mut length = 0;
    while length < text.len() && goes_on(depth, text[length]) {
        depth = open_after(depth, text[length]);
        length += 1;
    }
    length
}

/// Whether a bare link with so many open brackets contains the next byte: no white space, no `<`,
/// and no bracket that closes none of them.
#[inline(always)]
fn goes_on(depth: usize, byte: u8) -> bool
    ensures { result ≡ goes_on depth byte }
{
    match byte {
        b' ' | b'\t' | b'\n' | b'\r' | b'<' => false,
        b']' => depth > 0,
        _ => true,
    }
}

/// How many brackets are open after a byte.
#[inline(always)]
fn open_after(depth: usize, byte: u8) -> usize
    requires { depth < 2 ^ 64 - 1 }
    ensures { result ≡ open_after depth byte }
{
    match byte {
        b'[' => depth + 1,
        b']' => depth.saturating_sub(1),
        _ => depth,
    }
}

/// The length of a link without the marks at its end that belong to the surrounding text:
/// punctuation, closing parentheses that it doesn't open, and a character reference.
fn trimmed_length(link: &[u8]) -> usize
    ensures { result ≤ length link.now }
{
    let opened = link.iter().filter(|byte| **byte == b'(').count();
    let mut closed = link.iter().filter(|byte| **byte == b')').count();
    let mut end = link.len();
    while end > 0 {
        let last = end - 1;
        match link.get(last) {
            Some(b'?' | b'!' | b'.' | b',' | b':' | b'*' | b'_' | b'~' | b'\'' | b'"') => {
                end = last;
            }
            Some(b')') if closed > opened => {
                closed = closed.saturating_sub(1);
                end = last;
            }
            Some(b';') => end = last.saturating_sub(reference_length(link, last)),
            _ => break,
        }
    }
    end
}

/// The length, without its `;`, of the character reference that ends before `last`; 0 if there is
/// none.
fn reference_length(link: &[u8], last: usize) -> usize {
    let Some(text) = link.get(..last) else {
        return 0;
    };
    let letters = text
        .iter()
        .rev()
        .take_while(|byte| byte.is_ascii_alphabetic())
        .count();
    let before = text.len().saturating_sub(letters);
    let is_reference = letters > 0 && matches!(text.get(..before), Some([.., b'&']));
    if is_reference {
        letters.saturating_add(1)
    } else {
        0
    }
}
