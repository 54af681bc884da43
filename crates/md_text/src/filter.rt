//! The tag filter of GitHub flavored Markdown.

ghost use Rattle.std.specs.Prelude.{◌≡◌, ◌+◌, ◌<◌, ◌≤◌, ◌++◌, IfOk, MatchOption, length, take};
ghost use Rattle.std.specs.Prelude.{drop, slice_index, codes};
ghost use Rattle.std.specs.String.{string_bytes};
ghost use Rattle.std.specs.List.{prefix_len};
ghost use Rattle.md_text.specs.Bytes.{is_letter};
ghost use Rattle.md_text.specs.Filter.{tag_filtered, past_slash, ends_name, begins_disarmed_name};

use crate::lanes::{ByteTest, LaneTest, first_set, run_length};
use crate::names::lowered_is_one_of;
use md_base::GFM_HTML_TAGFILTER_NAMES;
use std::alloc::{AllocError, Global};
use std::simd::prelude::*;

/// Escapes the tags that GitHub flavored Markdown doesn't allow in raw HTML.
///
/// A `<` becomes `&lt;` if, after an optional `/`, the whole run of ASCII letters is, in any case,
/// one of the names of [`GFM_HTML_TAGFILTER_NAMES`], and the run ends the text or is followed by
/// tab, LF, FF, CR, space, `/` or `>`. Other bytes stay. (GitHub Flavored Markdown, 6.11.)
///
/// # Errors
///
/// Returns an error only if memory runs out.
///
/// # Examples
///
/// ```
/// let html = gfm_tagfilter(alloc, "<scripts><script")?;
/// assert_eq!(html.as_str(), "<scripts>&lt;script");
/// ```
pub fn gfm_tagfilter(alloc: Global, value: &str) -> Result<String, AllocError>
    ensures { IfOk result (λ text. string_bytes text ≡ tag_filtered value.now) }
{
    let mut out = String::with_capacity(alloc, value.len())?;
    let mut rest = value;
    while let Some(index) = first_disarmed(rest.as_bytes()) {
        out.push_str(&rest[..index])?;
        out.push_str("&lt;")?;
        rest = &rest[index + 1..];
    }
    out.push_str(rest)?;
    Ok(out)
}

/// The index of the first `<` to escape; all bytes before it stay.
fn first_disarmed(bytes: &[u8]) -> Option<usize>
    ensures { MatchOption result (tag_filtered bytes.now ≡ bytes.now)
        (λ index. (index < length bytes.now) × (slice_index bytes.now index ≡ 60)
        × (take index bytes.now ++ codes "&lt;" ++ tag_filtered (drop (index + 1) bytes.now)
        ≡ tag_filtered bytes.now)) }
{
    let mut at = run_length(OpensNoTag, bytes);
    while at < bytes.len() {
        let after = &bytes[at + 1..];
        if begins_disarmed_name(past_slash(after)) {
            return Some(at);
        }
        at = at + 1 + run_length(OpensNoTag, after);
    }
    None
}

/// The test whether a byte isn't `<`.
#[derive(Clone, Copy)]
struct OpensNoTag;

impl ByteTest for OpensNoTag {
    ghost use Rattle.md_text.specs.Kept.{opens_no_tag};

    ghost passes = { λ _. opens_no_tag };

    #[inline(always)]
    fn is_passed(self, byte: u8) -> bool {
        byte != b'<'
    }
}

impl<const N: usize> LaneTest<N> for OpensNoTag {
    #[inline(always)]
    fn run_in(self, bytes: &[u8], at: usize) -> usize {
        let block = Simd::<u8, N>::from_slice(&bytes[at..]);
        first_set(block.simd_eq(Simd::splat(b'<')).to_bitmask(), N)
    }
}

/// The bytes without a `/` at the beginning.
fn past_slash(bytes: &[u8]) -> &[u8]
    ensures { result.now ≡ past_slash bytes.now }
{
    match bytes {
        [b'/', rest @ ..] => rest,
        _ => bytes,
    }
}

/// Whether the run of letters at the beginning is a filtered tag name, followed by a byte that ends
/// a name.
fn begins_disarmed_name(bytes: &[u8]) -> bool
    ensures { result ≡ begins_disarmed_name bytes.now }
{
    let (name, rest) = bytes.split_at(name_length(bytes));
    lowered_is_one_of(name, &GFM_HTML_TAGFILTER_NAMES) && ends_name(rest)
}

/// How many letters the bytes begin with.
fn name_length(bytes: &[u8]) -> usize
    ensures value { result ≡ prefix_len is_letter bytes.now }
    ensures bound { result ≤ length bytes.now }
{
    bytes
        .iter()
        .take_while(|byte| byte.is_ascii_alphabetic())
        .count()
}

/// Whether a tag's name may end before these bytes.
fn ends_name(rest: &[u8]) -> bool
    ensures { result ≡ ends_name rest.now }
{
    match rest {
        [] => true,
        [first, ..] => matches!(first, b'\t' | b'\n' | b'\x0C' | b'\r' | b' ' | b'/' | b'>'),
    }
}
