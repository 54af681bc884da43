//! URLs in HTML, and their protocols.

mod kept;
mod protocol;
mod writing;

ghost use Rattle.std.specs.Prelude.{◌≡◌, ◌++◌, IfOk, OnOk, map};
ghost use Rattle.std.specs.String.{string_bytes};
ghost use Rattle.md_text.specs.Url.{sanitized, sanitized_with};

use protocol::has_permitted_protocol;
use std::alloc::{AllocError, Global};
use writing::{push_high, push_low};

/// Encodes a URL for HTML.
///
/// Each character that may not stand in a URL becomes `%` and two hexadecimal digits for each of
/// its bytes, and so does a `%` that isn't followed by two hexadecimal digits. The text is then
/// encoded for HTML.
///
/// # Errors
///
/// Returns an error only if memory runs out.
///
/// # Examples
///
/// ```
/// let url = sanitize(alloc, "%%41")?;
/// assert_eq!(url.as_str(), "%25%41");
/// ```
pub fn sanitize(alloc: Global, value: &str) -> Result<String, AllocError>
    ensures { IfOk result (λ url. string_bytes url ≡ sanitized value.now) }
{
    let mut url = String::new(alloc);
    push_sanitized(&mut url, value)?;
    Ok(url)
}

/// Appends a URL encoded for HTML, as [`sanitize`] encodes it. If memory runs out, a part of it may
/// be appended.
///
/// # Errors
///
/// Returns an error only if memory runs out.
///
/// # Examples
///
/// ```
/// let mut out = String::from_str(alloc, "href=")?;
/// push_sanitized(&mut out, "%%41")?;
/// assert_eq!(out.as_str(), "href=%25%41");
/// ```
pub fn push_sanitized(out: &mut String, value: &str) -> Result<(), AllocError>
    ensures { OnOk result (string_bytes out.new ≡ string_bytes out.old ++ sanitized value.now) }
{
    let mut rest = value.as_bytes();
    out.reserve(rest.len())?;
    while let Some((byte, after)) = rest.split_first() {
        rest = if *byte >= 0x80 {
            push_high(out, *byte, after)?
        } else {
            push_low(out, rest)?
        };
    }
    Ok(())
}

/// Encodes a URL for HTML, or drops it if it has a protocol that isn't among `protocols`.
///
/// A protocol is the text before the first `:`, unless a `?`, `#` or `/` comes earlier. Its ASCII
/// letters are lowered before it is looked up. If it isn't found, the result is the empty text; in
/// all other cases it is the result of [`sanitize`].
///
/// # Errors
///
/// Returns an error only if memory runs out.
///
/// # Examples
///
/// ```
/// let path = sanitize_with_protocols(alloc, "./a:b", &["http"])?;
/// assert_eq!(path.as_str(), "./a:b");
/// let dropped = sanitize_with_protocols(alloc, "a&b:c", &["http"])?;
/// assert_eq!(dropped.as_str(), "");
/// ```
pub fn sanitize_with_protocols(
    alloc: Global,
    value: &str,
    protocols: &[&str],
) -> Result<String, AllocError>
    ensures { IfOk result (λ url. string_bytes url
        ≡ sanitized_with (map (λ protocol. protocol.now) protocols.now) value.now) }
{
    let mut url = sanitize(alloc, value)?;
    if !has_permitted_protocol(url.as_bytes(), protocols) {
        url.clear();
    }
    Ok(url)
}

/// Appends a URL encoded for HTML, or nothing if it has a protocol that isn't among `protocols`, as
/// [`sanitize_with_protocols`] does. If memory runs out, a part of it may be appended.
///
/// # Errors
///
/// Returns an error only if memory runs out.
///
/// # Examples
///
/// ```
/// let mut out = String::from_str(alloc, "href=")?;
/// push_sanitized_with_protocols(&mut out, "a&b:c", &["http"])?;
/// assert_eq!(out.as_str(), "href=");
/// ```
pub fn push_sanitized_with_protocols(
    out: &mut String,
    value: &str,
    protocols: &[&str],
) -> Result<(), AllocError>
    ensures { OnOk result (string_bytes out.new ≡ string_bytes out.old
        ++ sanitized_with (map (λ protocol. protocol.now) protocols.now) value.now) }
{
    let start = out.len();
    let room = out.capacity();
    push_sanitized(out, value)?;
    if !has_permitted_protocol(&out.as_bytes()[start..], protocols) {
        out.truncate(start);
        // After a dropped URL, the text has no more capacity than before, or than growth by
        // doubling gives.
        out.shrink_to(room.max(start.saturating_mul(2)));
    }
    Ok(())
}
