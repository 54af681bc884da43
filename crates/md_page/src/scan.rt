//! Finds the tags that get an attribute, by their bytes.

ghost use Rattle.std.specs.Prelude.{◌≡◌, ◌==◌, ◌&&◌, ℕ, suc, true, false, ◌+◌, ◌<◌, ◌≤◌, ◌++◌, ◌∷◌};
ghost use Rattle.std.specs.Prelude.{[], List, IsTrue, IfSome, MatchOption, length, take, drop};
ghost use Rattle.std.specs.Prelude.{slice_index, option_copied, codes, IsUtf8};
ghost use Rattle.std.specs.List.{list_all};
ghost use Rattle.md_text.specs.Bytes.{is_between};
ghost use Rattle.md_text.specs.References.{begins_with};
ghost use Rattle.md_page.specs.Scan.{differs, IsFirstOf, parts_of, value_of, before_angle, is_away};
ghost use Rattle.md_page.specs.Scan.{want_rel, want_id, picks_link, picks_heading, picks_of, clear};
ghost use Rattle.md_page.specs.Scan.{IsPassed, IsTagAt, IsAngleFrom, IsEndAt, IsScannedTo};

use memchr::memchr;

/// How many bytes are searched one by one: the target is usually near.
const NEAR: usize = 16;

/// The tags that get an attribute.
#[derive(Clone, Copy)]
pub(crate) enum Rule {
    /// Links that leave the page, without a `rel`.
    Link,
    /// Headings without an `id`.
    Heading,
}

/// The index of the `>` of the first tag that the rule picks.
pub(crate) fn next_end(rule: Rule, text: &[u8]) -> Option<usize>
    ensures place { IfSome result (IsEndAt text.now) }
    ensures scan { IsScannedTo (picks_of rule) text.now result }
{
    let tag = next_of(rule, text)?;
    let end = find_byte(b'>', &text[tag + 1..])?;
    Some(tag + 1 + end)
}

/// The index of the first tag that the rule picks.
#[inline(always)]
fn next_of(rule: Rule, text: &[u8]) -> Option<usize>
    ensures { MatchOption result (clear (picks_of rule) (length text.now) text.now ≡ true)
        (IsTagAt (picks_of rule) text.now) }
{
    // The compiler computes at build time what depends on the rule.
    match rule {
        Rule::Link => next_tag(Rule::Link, text),
        Rule::Heading => next_tag(Rule::Heading, text),
    }
}

/// The same, for a rule that is known at build time.
#[inline(always)]
pub(crate) fn next_tag(rule: Rule, text: &[u8]) -> Option<usize>
    ensures { MatchOption result (clear (picks_of rule) (length text.now) text.now ≡ true)
        (IsTagAt (picks_of rule) text.now) }
{
    let mut at = 0;
    while let Some(angle) = next_angle(rule, text, at) {
        at = angle + 1;
        if picks(rule, &text[at..]) {
            return Some(angle);
        }
    }
    None
}

/// The index of a `<`, searched from an index; before it no tag begins that the rule picks.
#[inline(always)]
fn next_angle(rule: Rule, text: &[u8], at: usize) -> Option<usize>
    requires { at ≤ length text.now }
    ensures { MatchOption result (IsPassed rule text.now at (length text.now))
        (IsAngleFrom rule text.now at) }
{
    if text.len() - at < NEAR + 2 {
        return first_angle(text, at);
    }
    let near = pass_near(rule, text, at);
    if text[near] == b'<' {
        Some(near)
    } else {
        first_angle(text, near)
    }
}

/// The index of the first `<`, searched from an index.
#[inline(never)]
fn first_angle(text: &[u8], at: usize) -> Option<usize>
    requires { at ≤ length text.now }
    ensures { (rule : Rule) → MatchOption result (IsPassed rule text.now at (length text.now))
        (IsAngleFrom rule text.now at) }
{
    let run = find_byte(b'<', &text[at..])?;
    Some(at + run)
}

/// An index near another one where there is a `<`, or before which no tag begins that the rule
/// picks. Every second byte is tested: it is a `<`, the letter after that of such a tag, or
/// neither.
#[inline(always)]
fn pass_near(rule: Rule, text: &[u8], at: usize) -> usize
    requires { at + 18 ≤ length text.now }
    ensures near { (at ≤ result) × (result < length text.now) }
    ensures passed { IsPassed rule text.now at result }
{
    let mut passed = 0;
    while passed < NEAR {
        let here = at + passed;
        if text[here + 1] == b'<' {
            return here + 1;
        }
        if may_begin(rule, text, here) {
            return here;
        }
        passed += 2;
    }
    at + passed
}

/// Whether a tag that the rule picks may begin at an index.
#[inline(always)]
fn may_begin(rule: Rule, text: &[u8], at: usize) -> bool
    requires { at + 2 < length text.now }
    ensures { result ≡ false
        → ((slice_index text.now at == 60) && picks_of rule (drop (suc at) text.now)) ≡ false }
{
    is_named(rule, text, at) && text[at] == b'<'
}

/// Whether the name after an index may be that of such a tag.
#[inline(always)]
fn is_named(rule: Rule, text: &[u8], at: usize) -> bool
    requires { at + 2 < length text.now }
    ensures { result ≡ false → picks_of rule (drop (suc at) text.now) ≡ false }
{
    match rule {
        Rule::Link => text[at + 1] == b'a',
        Rule::Heading => text[at + 1] == b'h' && is_level(text[at + 2]),
    }
}

/// Whether a byte is the digit of a heading's level.
#[inline(always)]
fn is_level(byte: u8) -> bool
    ensures { result ≡ is_between 49 54 byte }
{
    matches!(byte, b'1'..=b'6')
}

/// Whether the rule picks a tag, by the bytes after its `<`.
#[inline(always)]
fn picks(rule: Rule, tag: &[u8]) -> bool
    ensures { result ≡ picks_of rule tag.now }
{
    match rule {
        Rule::Link => picks_link(tag),
        Rule::Heading => picks_heading(tag),
    }
}

/// Whether a tag is a link that leaves the page, without a `rel`.
#[inline(always)]
fn picks_link(tag: &[u8]) -> bool
    ensures { result ≡ picks_link tag.now }
{
    tag.starts_with(b"a ") && !stays(tag) && before_angle(&tag[1..]).is_some_and(want_rel)
}

/// Whether a link begins with an address that is empty or within the page, as most links that
/// aren't picked do.
#[inline(always)]
fn stays(tag: &[u8]) -> bool
    ensures { IsTrue result → picks_link tag.now ≡ false }
{
    stays_within(tag) || tag.starts_with(b"a href=\"\"")
}

/// Whether a link begins with an address within the page.
#[inline(always)]
fn stays_within(tag: &[u8]) -> bool
    ensures { result ≡ begins_with (codes "a href=\"#") tag.now }
{
    // Comparing byte by byte takes half the time of `starts_with`.
    matches!(
        tag,
        [b'a', b' ', b'h', b'r', b'e', b'f', b'=', b'"', b'#', ..]
    )
}

/// Whether a tag is a heading without an `id`.
#[inline(always)]
fn picks_heading(tag: &[u8]) -> bool
    ensures { result ≡ picks_heading tag.now }
{
    match tag {
        [b'h', b'1'..=b'6', rest @ ..] => before_angle(rest).is_some_and(want_id),
        _ => false,
    }
}

/// Whether a link with these attributes leaves the page and has no `rel`.
fn want_rel(attributes: &[u8]) -> bool
    ensures { result ≡ want_rel attributes.now }
{
    value_of(b" href=", attributes).is_some_and(is_away) && value_of(b" rel=", attributes).is_none()
}

/// Whether a heading's name ends here, and none of its attributes is an `id`.
fn want_id(attributes: &[u8]) -> bool
    ensures { result ≡ want_id attributes.now }
{
    (attributes.is_empty() || attributes.starts_with(b" "))
        && value_of(b" id=", attributes).is_none()
}

/// Whether an address isn't empty and doesn't begin with `#`.
fn is_away(value: &[u8]) -> bool
    ensures { result ≡ is_away value.now }
{
    !value.is_empty() && !value.starts_with(b"#")
}

/// The value after this key (a space, a name and `=`) in attributes as they are written.
fn value_of<'a>(key: &[u8], attributes: &'a [u8]) -> Option<&'a [u8]>
    ensures { option_copied result ≡ value_of key.now attributes.now }
{
    let mut rest = attributes;
    while let Some((name, after)) = split_at_quote(rest) {
        let (value, more) = split_at_quote(after)?;
        if key == name {
            return Some(value);
        }
        rest = more;
    }
    None
}

/// The bytes before and after the first `"`.
fn split_at_quote(bytes: &[u8]) -> Option<(&[u8], &[u8])>
    ensures { MatchOption result (parts_of bytes.now ≡ bytes.now ∷ [])
        (λ found. (parts_of bytes.now ≡ found.0.now ∷ parts_of found.1.now)
        × (length found.1.now < length bytes.now)) }
{
    let at = find_byte(b'"', bytes)?;
    Some((&bytes[..at], &bytes[at + 1..]))
}

/// The bytes before the first `>`.
fn before_angle(bytes: &[u8]) -> Option<&[u8]>
    ensures { option_copied result ≡ before_angle bytes.now }
{
    let at = find_byte(b'>', bytes)?;
    Some(&bytes[..at])
}

/// The text before and after the first of this ASCII byte.
pub(crate) fn split_at_byte(byte: u8, text: &str) -> Option<(&str, &str)>
    requires { byte < 128 }
    ensures parts { MatchOption result (IsTrue (list_all (differs byte) text.now))
        (λ found. (text.now ≡ found.0.now ++ byte ∷ found.1.now)
        × IsTrue (list_all (differs byte) found.0.now)) }
    ensures texts { IfSome result (λ found. IsUtf8 found.0.now × IsUtf8 found.1.now) }
{
    let at = find_byte(byte, text.as_bytes())?;
    Some((&text[..at], &text[at + 1..]))
}

/// The index of the first of this byte.
#[inline(always)]
fn find_byte(byte: u8, bytes: &[u8]) -> Option<usize>
    ensures { MatchOption result (IsTrue (list_all (differs byte) bytes.now))
        (λ at. IsFirstOf byte bytes.now at) }
{
    if bytes.len() >= NEAR {
        let near = find_near(byte, bytes);
        if near.is_some() {
            return near;
        }
    }
    memchr(byte, bytes)
}

/// The same, only among the first bytes.
#[inline(always)]
fn find_near(byte: u8, bytes: &[u8]) -> Option<usize>
    requires { 16 ≤ length bytes.now }
    ensures { IfSome result (λ at. IsFirstOf byte bytes.now at) }
{
    let mut at = 0;
    while at < NEAR {
        if bytes[at] == byte {
            return Some(at);
        }
        at += 1;
    }
    None
}
