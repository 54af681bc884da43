//! Texts and tags, one after another.

ghost use Rattle.std.specs.Prelude.{◌≡◌, ◌<◌, ◌≤◌, IfSome, MatchOption, length, ◌++◌, ◌∷◌, List, ℕ};
ghost use Rattle.std.specs.Prelude.{true, false, None};
ghost use Rattle.md_safe.specs.Contents.{elements_in};
ghost use Rattle.md_reader.specs.Allowed.{content_of, held_among};
ghost use Rattle.md_reader.specs.Begun.{IsBegun};
ghost use Rattle.md_reader.specs.Tests.{test_of};
ghost use Rattle.md_reader.specs.SplitNames.{IsSplitName};
ghost use Rattle.md_reader.specs.Levels.{EndsText, IsEnd, IsLevel, IsNode, IsNoLevel};

use crate::attributes::{past_attributes, split_name};
use crate::content::{Allowed, Content, allows_void, child, may_say};
use crate::names::{listed_for_void, void_named};
use crate::rules::{Rules, may_have_tag};
use crate::run::{past, split_escaped};

/// The text after the nodes of a content: the empty text, or one that begins with `</`.
#[cycle(nodes)]
pub(crate) fn past_nodes<'a>(
    rules: &Rules,
    content: Content,
    depth: usize,
    text: &'a [u8],
) -> Option<&'a [u8]>
    ensures is { IfSome result (λ rest.
        IsLevel (test_of rules.now) (content_of content) depth text.now rest.now) }
    ensures ends { IfSome result (λ rest. IsEnd rest.now) }
    ensures only { (end : List ℕ) → IsEnd end
        → IsLevel (test_of rules.now) (content_of content) depth text.now end
        → MatchOption result ⊥ (λ rest. rest.now ≡ end) }
    ensures shorter { IfSome result (λ rest. length rest.now ≤ length text.now) }
{
    let mut rest = text;
    'nodes: loop {
        if is_end(rest) {
            return Some(rest);
        }
        rest = past_node(rules, content, depth, rest)?;
    }
}

/// Whether a level ends here.
#[inline(always)]
fn is_end(text: &[u8]) -> bool
    ensures ends { result ≡ true → IsEnd text.now }
    ensures goes_on { result ≡ false → IsEnd text.now → ⊥ }
{
    text.is_empty() || past(b"</", text).is_some()
}

/// The text after a node.
#[cycle(nodes)]
fn past_node<'a>(rules: &Rules, content: Content, depth: usize, text: &'a [u8]) -> Option<&'a [u8]>
    requires { IsEnd text.now → ⊥ }
    ensures is { MatchOption result
        (IsNoLevel (test_of rules.now) (content_of content) depth text.now)
        (λ rest. IsNode (test_of rules.now) (content_of content) depth text.now rest.now) }
    ensures shorter { IfSome result (λ rest. length rest.now < length text.now) }
{
    match past(b"<", text) {
        Some(tag) => past_tag(rules, content, depth, tag),
        None => past_text(rules, content, depth, text),
    }
}

/// The text after a void tag or an element, by the bytes after its `<`.
#[cycle(nodes)]
fn past_tag<'a>(rules: &Rules, content: Content, depth: usize, tag: &'a [u8]) -> Option<&'a [u8]>
    requires { IsEnd (60 ∷ tag.now) → ⊥ }
    ensures is { MatchOption result
        (IsNoLevel (test_of rules.now) (content_of content) depth (60 ∷ tag.now))
        (λ rest. IsNode (test_of rules.now) (content_of content) depth (60 ∷ tag.now)
        rest.now) }
    ensures shorter { IfSome result (λ rest. length rest.now ≤ length tag.now) }
{
    let (name, text) = split_name(tag);
    if !may_have_tag(rules, name) {
        return None;
    }
    match child(content, name) {
        Some(found) => past_element(rules, content, depth, found, name, text),
        None => past_void(rules, content, depth, name, text),
    }
}

/// The text after a text, where no tag begins.
fn past_text<'a>(rules: &Rules, content: Content, depth: usize, text: &'a [u8]) -> Option<&'a [u8]>
    requires open { IsEnd text.now → ⊥ }
    requires no_tag { (tag : List ℕ) → text.now ≡ 60 ∷ tag → ⊥ }
    ensures is { MatchOption result
        (IsNoLevel (test_of rules.now) (content_of content) depth text.now)
        (λ rest. IsNode (test_of rules.now) (content_of content) depth text.now rest.now) }
    ensures shorter { IfSome result (λ rest. length rest.now < length text.now) }
{
    let (front, rest) = split_escaped(text);
    if front.is_empty() {
        return None;
    }
    if !may_say(content, front) {
        return None;
    }
    if ends_text(rest) { Some(rest) } else { None }
}

/// Whether a text may end here.
#[inline(always)]
fn ends_text(rest: &[u8]) -> bool
    ensures ends { result ≡ true → EndsText rest.now }
    ensures goes_on { result ≡ false → EndsText rest.now → ⊥ }
{
    rest.is_empty() || past(b"<", rest).is_some()
}

/// The text after a void tag of this name, by the bytes after the name.
fn past_void<'a>(
    rules: &Rules,
    content: Content,
    depth: usize,
    name: &[u8],
    text: &'a [u8],
) -> Option<&'a [u8]>
    requires split { IsSplitName (name.now ++ text.now) name.now text.now }
    requires open { IsEnd (60 ∷ (name.now ++ text.now)) → ⊥ }
    requires no_element { held_among (elements_in false (content_of content)) name.now ≡ None }
    requires named { (test_of rules.now).tag name.now ≡ true }
    ensures is { MatchOption result
        (IsNoLevel (test_of rules.now) (content_of content) depth
        (60 ∷ (name.now ++ text.now)))
        (λ rest. IsNode (test_of rules.now) (content_of content) depth
        (60 ∷ (name.now ++ text.now)) rest.now) }
    ensures shorter { IfSome result (λ rest. length rest.now ≤ length text.now) }
{
    let void = void_named(name)?;
    if depth == 0 {
        return None;
    }
    if !allows_void(content, void) {
        return None;
    }
    let rest = past_attributes(rules, listed_for_void(void), text)?;
    past(b" />", rest)
}

/// The text after an element of this name, by the bytes after the name.
#[cycle(nodes)]
fn past_element<'a>(
    rules: &Rules,
    content: Content,
    depth: usize,
    found: Allowed,
    name: &[u8],
    text: &'a [u8],
) -> Option<&'a [u8]>
    requires begun { IsBegun content found name.now text.now }
    requires named { (test_of rules.now).tag name.now ≡ true }
    ensures is { MatchOption result
        (IsNoLevel (test_of rules.now) (content_of content) depth
        (60 ∷ (name.now ++ text.now)))
        (λ rest. IsNode (test_of rules.now) (content_of content) depth
        (60 ∷ (name.now ++ text.now)) rest.now) }
    ensures shorter { IfSome result (λ rest. length rest.now ≤ length text.now) }
{
    if depth == 0 {
        return None;
    }
    let rest = past_attributes(rules, found.list, text)?;
    let children = past(b">", rest)?;
    let end = past_nodes(rules, found.content, depth - 1, children)?;
    past_end(name, end)
}

/// The text after the end tag of an element of this name.
fn past_end<'a>(name: &[u8], text: &'a [u8]) -> Option<&'a [u8]>
    ensures is { MatchOption result
        ((rest : List ℕ) → text.now ≡ 60 ∷ 47 ∷ (name.now ++ (62 ∷ rest)) → ⊥)
        (λ rest. text.now ≡ 60 ∷ 47 ∷ (name.now ++ (62 ∷ rest.now))) }
    ensures shorter { IfSome result (λ rest. length rest.now ≤ length text.now) }
{
    let end = past(b"</", text)?;
    let rest = past(name, end)?;
    past(b">", rest)
}
