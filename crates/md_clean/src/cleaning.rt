//! Safe HTML from any text.

ghost use Rattle.std.specs.Prelude.{IfOk, IsTrue, List, ℕ, map};
ghost use Rattle.std.specs.String.{string_bytes};
ghost use Rattle.md_text.specs.Url.{link_protocols, image_protocols};
ghost use Rattle.md_safe.specs.Built.{IsBuiltAsRead};
ghost use Rattle.md_safe.specs.Tokenized.{IsSafelyTokenized};
ghost use Rattle.md_depth.specs.Levels.{NestsWithin};
ghost use Rattle.md_reader.specs.Authors.{IsOfAuthors};
ghost use Rattle.md_reader.specs.Chosen.{HasChosenOnly};
ghost use Rattle.md_reader.specs.Safe.{IsSafeHtml, max_depth};
ghost use Rattle.md_clean.specs.Options.{HasChosen, HasProtocols};

use crate::choice::CleanOptions;
use crate::names::{Kind, Tag, tag_named};
use crate::raw::{raw_length, script_length};
use crate::tokens::{StartTag, Token, split_token};
use crate::tree::Tree;
use md_base::{SAFE_PROTOCOL_HREF, SAFE_PROTOCOL_SRC};
use md_reader::{Protocols, is_authors_html, is_chosen_html, is_safe_html_with};
use md_safe::tokens::{reading_is_tokenized, safe_text_has_safe_tokens};
use md_safe::trees::text_is_built;
use md_text::encode;
use std::alloc::{AllocError, Global};

/// Elements whose content is left out, and how many of this name are open.
#[derive(Clone, Copy)]
struct Skipped<'a> {
    name: &'a str,
    is_foreign: bool,
    depth: usize,
}

/// Cleans HTML: returns safe HTML for any text, with its listed elements and attributes.
///
/// The text is read as the HTML Standard's tokenizer reads it. Elements that aren't listed are left
/// out, and what they contain stays, except for `script`, `style`, `iframe`, `noembed`, `noframes`,
/// `noscript`, `xmp`, `title`, `textarea`, `plaintext`, `template`, `svg` and `math`, which are
/// left out with their content. Comments are left out. An `href` or a `src` is left out if it has a
/// protocol that isn't permitted. The result is checked by [`is_authors_html`]. If it weren't safe,
/// the result would be the text itself, escaped.
///
/// # Errors
///
/// Returns an error only if memory runs out.
///
/// # Examples
///
/// ```
/// let html = clean(alloc, "<p onclick=f()>one<script>f()</script><p>two")?;
/// assert_eq!(html.as_str(), "<p>one</p><p>two</p>");
/// ```
pub fn clean(alloc: Global, html: &str) -> Result<String, AllocError>
    ensures safe { IfOk result
        (λ out. IsSafeHtml link_protocols image_protocols (string_bytes out)) }
    ensures authors { IfOk result (λ out. IsOfAuthors (string_bytes out)) }
    ensures tokens { IfOk result (λ out. IsSafelyTokenized (string_bytes out)) }
    ensures tree { IfOk result (λ out. IsBuiltAsRead (string_bytes out)) }
    ensures nesting { IfOk result (λ out. NestsWithin max_depth (string_bytes out)) }
{
    clean_with(alloc, html, CleanOptions::default())
}

/// The same as [`clean`], but only the chosen elements stay, and URLs have a chosen protocol or
/// none.
///
/// # Errors
///
/// Returns an error only if memory runs out.
///
/// # Examples
///
/// ```
/// let options = CleanOptions {
///     tags: Some(&["p", "ul"]),
///     ..CleanOptions::default()
/// };
/// let html = clean_with(alloc, "<ul><li><b>one</b></ul>", options)?;
/// assert_eq!(html.as_str(), "<ul><li>one</li></ul>");
/// ```
pub fn clean_with<'a>(
    alloc: Global,
    html: &'a str,
    options: CleanOptions<'a>,
) -> Result<String, AllocError>
    ensures safe { IfOk result
        (λ out. IsSafeHtml link_protocols image_protocols (string_bytes out)) }
    ensures authors { IfOk result (λ out. IsOfAuthors (string_bytes out)) }
    ensures chosen { IfOk result (λ out. HasChosen options.entry.tags (string_bytes out)) }
    ensures protocols { IfOk result
        (λ out. HasProtocols options.entry.protocols (string_bytes out)) }
    ensures tokens { IfOk result (λ out. IsSafelyTokenized (string_bytes out)) }
    ensures tree { IfOk result (λ out. IsBuiltAsRead (string_bytes out)) }
    ensures nesting { IfOk result (λ out. NestsWithin max_depth (string_bytes out)) }
{
    let out = cleaned(alloc, html, options)?;
    if is_clean(out.as_bytes(), options.tags) && has_protocols(out.as_bytes(), options.protocols) {
        Ok(out)
    } else {
        escaped(alloc, html)
    }
}

/// Whether a text is safe HTML that authors may write, of chosen elements.
fn is_clean(text: &[u8], tags: Option<&[&str]>) -> bool
    ensures safe { IsTrue result → IsSafeHtml link_protocols image_protocols text.now }
    ensures authors { IsTrue result → IsOfAuthors text.now }
    ensures chosen { IsTrue result → HasChosen tags.entry text.now }
    ensures tokens { IsTrue result → IsSafelyTokenized text.now }
    ensures tree { IsTrue result → IsBuiltAsRead text.now }
    ensures nesting { IsTrue result → NestsWithin max_depth text.now }
{
    safe_text_has_safe_tokens();
    let protocols = Protocols {
        links: &SAFE_PROTOCOL_HREF,
        images: &SAFE_PROTOCOL_SRC,
    };
    match tags {
        Some(tags) => is_chosen_html(text, protocols, tags),
        None => is_authors_html(text, protocols),
    }
}

/// Whether the URLs of a safe text have chosen protocols.
fn has_protocols(text: &[u8], protocols: Option<&[&str]>) -> bool
    ensures { IsTrue result → HasProtocols protocols.entry text.now }
{
    match protocols {
        Some(names) => has_these_protocols(text, names),
        None => true,
    }
}

/// Whether a text is safe HTML whose URLs have one of these protocols or none.
fn has_these_protocols(text: &[u8], names: &[&str]) -> bool
    ensures { IsTrue result
        → IsSafeHtml (map (λ name. name.now) names.now) (map (λ name. name.now) names.now)
        text.now }
{
    let protocols = Protocols {
        links: &*names,
        images: &*names,
    };
    is_safe_html_with(text, protocols)
}

/// The characters of a text, escaped.
fn escaped(alloc: Global, text: &str) -> Result<String, AllocError>
    ensures safe { IfOk result
        (λ out. IsSafeHtml link_protocols image_protocols (string_bytes out)) }
    ensures authors { IfOk result (λ out. IsOfAuthors (string_bytes out)) }
    ensures tokens { IfOk result (λ out. IsSafelyTokenized (string_bytes out)) }
    ensures tree { IfOk result (λ out. IsBuiltAsRead (string_bytes out)) }
    ensures chosen { IfOk result (λ out. (tags : List (List ℕ))
        → HasChosenOnly tags (string_bytes out)) }
    ensures protocols { IfOk result (λ out. (names : List (List ℕ))
        → IsSafeHtml names names (string_bytes out)) }
    ensures nesting { IfOk result (λ out. NestsWithin max_depth (string_bytes out)) }
{
    safe_text_has_safe_tokens();
    reading_is_tokenized();
    text_is_built();
    encode(alloc, text, true)
}

/// What is written of a text.
fn cleaned<'a>(
    alloc: Global,
    html: &'a str,
    options: CleanOptions<'a>,
) -> Result<String, AllocError> {
    let mut tree = Tree::new(alloc, html.len(), options)?;
    let mut skipped = None;
    let mut rest = html;
    for _ in 0..html.len() {
        let Some((token, after)) = split_token(rest) else {
            break;
        };
        rest = match skipped {
            Some(open) => match section_end(open, rest) {
                Some(after) => after,
                None => skip(&mut tree, &mut skipped, open, token, after)?,
            },
            None => read(&mut tree, &mut skipped, token, after)?,
        };
    }
    tree.finish()
}

/// Reads a token, and returns the text after it.
fn read<'a>(
    tree: &mut Tree<'a>,
    skipped: &mut Option<Skipped<'a>>,
    token: Token<'a>,
    after: &'a str,
) -> Result<&'a str, AllocError> {
    match token {
        Token::Text(text) => tree.text(text)?,
        Token::End(name) => tree.end(name, tree.chosen(tag_named(name.as_bytes())))?,
        Token::Start(start) => {
            let tag = tree.chosen(tag_named(start.name.as_bytes()));
            *skipped = skipped_in(&start, tag);
            tree.start(start.name, tag, start.attributes)?;
            return Ok(after_raw(tag, start.name, after));
        }
        Token::Nothing => {}
    }
    Ok(after)
}

/// What is left out from a start tag on.
fn skipped_in<'a>(start: &StartTag<'a>, tag: Tag) -> Option<Skipped<'a>> {
    let is_foreign = tag.kind == Kind::Foreign && !start.closes_itself;
    (is_foreign || tag.kind == Kind::Template).then_some(Skipped {
        name: start.name,
        is_foreign,
        depth: 1,
    })
}

/// The text after the raw text of an element.
fn after_raw<'a>(tag: Tag, name: &str, text: &'a str) -> &'a str {
    let length = match tag.kind {
        Kind::Raw => raw_length(text.as_bytes(), name.as_bytes()),
        Kind::Script => script_length(text.as_bytes()),
        Kind::Plaintext => text.len(),
        _ => return text,
    };
    text.get(length..).unwrap_or("")
}

/// Reads a token where elements are left out, and returns the text after it.
fn skip<'a>(
    tree: &mut Tree<'a>,
    skipped: &mut Option<Skipped<'a>>,
    open: Skipped<'a>,
    token: Token<'a>,
    after: &'a str,
) -> Result<&'a str, AllocError> {
    let name = match token {
        Token::Start(start) => start.name,
        Token::End(name) => name,
        _ => return Ok(after),
    };
    let tag = tag_named(name.as_bytes());
    if open.is_foreign && ends_foreign(token, tag) {
        *skipped = None;
        return read(tree, skipped, token, after);
    }
    if name.as_bytes().eq_ignore_ascii_case(open.name.as_bytes()) {
        *skipped = counted(open, token);
    }
    if matches!(token, Token::Start(_)) && !open.is_foreign {
        return Ok(after_raw(tag, name, after));
    }
    Ok(after)
}

/// The text after the section of characters at the beginning of a text, which foreign elements may
/// have.
fn section_end<'a>(open: Skipped<'_>, text: &'a str) -> Option<&'a str> {
    if !open.is_foreign {
        return None;
    }
    let section = text.strip_prefix("<![CDATA[")?;
    match section.split_once("]]>") {
        Some((_, after)) => Some(after),
        None => Some(""),
    }
}

/// How many are open after a tag of this name.
fn counted<'a>(open: Skipped<'a>, token: Token<'a>) -> Option<Skipped<'a>> {
    let depth = match token {
        Token::Start(start) if start.closes_itself && open.is_foreign => open.depth,
        Token::Start(_) => open.depth.saturating_add(1),
        _ => open.depth.saturating_sub(1),
    };
    (depth > 0).then_some(Skipped { depth, ..open })
}

/// Whether a tag ends foreign elements: HTML's elements don't stand in them.
fn ends_foreign(token: Token<'_>, tag: Tag) -> bool {
    match tag.kind {
        Kind::Span => tag.is_written && matches!(token, Token::Start(_)),
        Kind::Code | Kind::Image | Kind::Rule | Kind::Break => { matches!(token, Token::Start(_)) }
        Kind::Paragraph
        | Kind::Heading
        | Kind::Division
        | Kind::Flow
        | Kind::Summary
        | Kind::List
        | Kind::Item
        | Kind::Definition
        | Kind::Preformatted
        | Kind::Table
        | Kind::Cell
        | Kind::Row
        | Kind::Part => true,
        _ => false,
    }
}
