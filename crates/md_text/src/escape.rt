//! Escapes text for HTML.

ghost use Rattle.std.specs.Prelude.{◌≡◌, ◌+◌, ◌∷◌, ◌++◌, ◌<◌, ◌≤◌, [], false, IfOk, OnOk, is_ok};
ghost use Rattle.std.specs.Prelude.{if◌then◌else◌, length, get_or, take, drop, min};
ghost use Rattle.std.specs.Prelude.{encode_utf8_all};
ghost use Rattle.std.specs.String.{string_bytes};
ghost use Rattle.std.specs.List.{flat_map, prefix_len};
ghost use Rattle.std.specs.Str.{chars};
ghost use Rattle.md_text.specs.Encode.{encoded, encoded_byte, encoded_character};
ghost use Rattle.md_text.specs.Kept.{is_kept};

use crate::lanes::{ByteTest, LaneTest, first_set, run_length};
use std::alloc::{AllocError, Global};
use std::simd::prelude::*;

/// Escapes text for HTML. Runs of unchanged bytes are copied at once.
///
/// NUL always becomes U+FFFD. With `encode_html`, `&`, `"`, `<` and `>` become `&amp;`, `&quot;`,
/// `&lt;` and `&gt;`. Other bytes stay.
///
/// # Errors
///
/// Returns an error only if memory runs out.
///
/// # Examples
///
/// ```
/// let text = encode(alloc, "I <3 🦀", true)?;
/// assert_eq!(text.as_str(), "I &lt;3 🦀");
/// ```
pub fn encode(alloc: Global, value: &str, encode_html: bool) -> Result<String, AllocError>
    ensures by_byte { IfOk result (λ text. string_bytes text ≡ encoded encode_html value.now) }
    ensures by_character { IfOk result (λ text. string_bytes text
        ≡ encode_utf8_all (flat_map (encoded_character encode_html) (chars value.now))) }
{
    let mut out = String::with_capacity(alloc, value.len())?;
    push_encoded(&mut out, value, encode_html)?;
    Ok(out)
}

/// Appends a text, escaped as by [`encode`]. If memory runs out, a part of it may be appended.
///
/// # Errors
///
/// Returns an error only if memory runs out.
///
/// # Examples
///
/// ```
/// let mut out = String::from_str(alloc, "I ")?;
/// push_encoded(&mut out, "<3 🦀", true)?;
/// assert_eq!(out.as_str(), "I &lt;3 🦀");
/// ```
pub fn push_encoded(out: &mut String, value: &str, encode_html: bool) -> Result<(), AllocError>
    ensures added { OnOk result
        (string_bytes out.new ≡ string_bytes out.old ++ encoded encode_html value.now) }
    ensures before { take (length (string_bytes out.old)) (string_bytes out.new)
        ≡ string_bytes out.old }
{
    let test = Kept { encode_html };
    let mut rest = value;
    let mut index = run_length(test, rest.as_bytes());
    while index < rest.len() {
        out.push_str(&rest[..index])?;
        push_replacement(out, rest.as_bytes()[index], encode_html)?;
        rest = &rest[index + 1..];
        index = run_length(test, rest.as_bytes());
    }
    out.push_str(rest)
}

/// Appends the replacement of a byte. Each replacement is appended by a call of its own, so that
/// its few bytes are copied at once.
#[inline(always)]
fn push_replacement(out: &mut String, byte: u8, encode_html: bool) -> Result<(), AllocError>
    requires { is_kept encode_html byte ≡ false }
    ensures { string_bytes out.new ≡ (if is_ok result then
        string_bytes out.old ++ encoded_byte encode_html byte else string_bytes out.old) }
{
    match byte {
        b'<' => out.push_str("&lt;"),
        b'>' => out.push_str("&gt;"),
        b'"' => out.push_str("&quot;"),
        b'&' => out.push_str("&amp;"),
        _ => out.push_str("\u{FFFD}"),
    }
}

/// The test whether a byte stays.
#[derive(Clone, Copy)]
struct Kept {
    encode_html: bool,
}

impl ByteTest for Kept {
    ghost use Rattle.md_text.specs.Kept.{is_kept};

    ghost passes = { λ test. is_kept test.encode_html };

    #[inline(always)]
    fn is_passed(self, byte: u8) -> bool {
        is_kept(byte, self.encode_html)
    }
}

impl<const N: usize> LaneTest<N> for Kept {
    #[inline(always)]
    fn run_in(self, bytes: &[u8], at: usize) -> usize {
        let Kept { encode_html } = self;
        let block = Simd::<u8, N>::from_slice(&bytes[at..]);
        let nul = block.simd_eq(Simd::splat(0));
        if !encode_html {
            return first_set(nul.to_bitmask(), N);
        }
        let changed = nul
            | block.simd_eq(Simd::splat(b'&'))
            | block.simd_eq(Simd::splat(b'"'))
            | block.simd_eq(Simd::splat(b'<'))
            | block.simd_eq(Simd::splat(b'>'));
        first_set(changed.to_bitmask(), N)
    }
}

/// Whether a byte stays.
#[inline(always)]
fn is_kept(byte: u8, encode_html: bool) -> bool
    ensures { result ≡ is_kept encode_html byte }
{
    byte != 0 && !(encode_html && matches!(byte, b'&' | b'"' | b'<' | b'>'))
}
