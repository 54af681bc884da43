//! The attributes of a tag.

ghost use Rattle.std.specs.Prelude.{◌≡◌, ◌<◌, ◌≤◌, IfSome, MatchOption, length, ◌++◌, List, ℕ};
ghost use Rattle.std.specs.Prelude.{true, false};
ghost use Rattle.md_text.specs.Bytes.{is_one_of};
ghost use Rattle.md_text.specs.HtmlName.{is_name_byte};
ghost use Rattle.md_reader.specs.Names.{listed};
ghost use Rattle.md_reader.specs.Tests.{test_of};
ghost use Rattle.md_reader.specs.Attributes.{AreAttributes, EndsAttributes, IsAttribute};
ghost use Rattle.md_reader.specs.Attributes.{IsAttributeAt, is_unseen};
ghost use Rattle.md_reader.specs.SplitNames.{IsSplitName};

use crate::names::Listed;
use crate::places::{MOST, place};
use crate::rules::{Rules, may_have_attribute};
use crate::run::{past, split_escaped};

/// The text after a tag's attributes.
pub(crate) fn past_attributes<'a>(rules: &Rules, list: Listed, text: &'a [u8]) -> Option<&'a [u8]>
    ensures are { IfSome result (λ rest.
        AreAttributes (test_of rules.now).attribute (is_one_of (listed list)) text.now rest.now) }
    ensures ends { IfSome result (λ rest. EndsAttributes rest.now) }
    ensures only { (end : List ℕ) → EndsAttributes end
        → AreAttributes (test_of rules.now).attribute (is_one_of (listed list)) text.now end
        → MatchOption result ⊥ (λ rest. rest.now ≡ end) }
    ensures shorter { IfSome result (λ rest. length rest.now ≤ length text.now) }
{
    let mut rest = text;
    let mut seen = [false; MOST];
    'attributes: loop {
        if is_end(rest) {
            return Some(rest);
        }
        let after = past(b" ", rest)?;
        let (place, later) = past_attribute(rules, list, &seen, after)?;
        seen[place] = true;
        rest = later;
    }
}

/// Whether a tag's attributes end here.
#[inline(always)]
fn is_end(text: &[u8]) -> bool
    ensures ends { result ≡ true → EndsAttributes text.now }
    ensures goes_on { result ≡ false → EndsAttributes text.now → ⊥ }
{
    past(b">", text).is_some() || past(b" /", text).is_some()
}

/// The index in its list of the attribute that comes next, if none was seen with this name, and the
/// text after it.
fn past_attribute<'a>(
    rules: &Rules,
    list: Listed,
    seen: &[bool; MOST],
    text: &'a [u8],
) -> Option<(usize, &'a [u8])>
    ensures is { MatchOption result
        ((name rest : List ℕ)
        → IsAttribute (test_of rules.now).attribute (is_unseen
        (listed list) seen.now) name text.now rest
        → ⊥)
        (λ found. IsAttributeAt (test_of rules.now).attribute
        (listed list) seen.now found.0 text.now
        found.1.now) }
    ensures within { IfSome result (λ found. found.0 < 12) }
    ensures shorter { IfSome result (λ found. length found.1.now < length text.now) }
{
    let (name, after) = split_name(text);
    let place = place(list, name)?;
    if seen[place] {
        return None;
    }
    let (value, after_value) = split_escaped(past(b"=\"", after)?);
    if !may_have_attribute(rules, name, value) {
        return None;
    }
    let rest = past(b"\"", after_value)?;
    Some((place, rest))
}

/// Splits a text after its name.
pub(crate) fn split_name(text: &[u8]) -> (&[u8], &[u8])
    ensures { IsSplitName text.now result.0.now result.1.now }
{
    let mut end = 0;
    'bytes: while end < text.len() && is_in_name(text[end]) {
        end += 1;
    }
    text.split_at(end)
}

/// Whether a byte is one of a name.
fn is_in_name(byte: u8) -> bool
    ensures { result ≡ is_name_byte byte }
{
    matches!(byte, b'a'..=b'z' | b'0'..=b'9' | b'-')
}
