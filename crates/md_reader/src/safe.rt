//! Whether a text is safe HTML.

ghost use Rattle.std.specs.Prelude.{◌≡◌, IsTrue, [], map};
ghost use Rattle.md_text.specs.Html.{Forest};
ghost use Rattle.md_text.specs.Url.{link_protocols, image_protocols};
ghost use Rattle.md_safe.specs.Built.{IsBuiltAsRead};
ghost use Rattle.md_safe.specs.Tokenized.{IsSafelyTokenized, IsTokenizedAsRead};
ghost use Rattle.md_depth.specs.Levels.{NestsWithin};
ghost use Rattle.md_safe.specs.Contents.{Flow};
ghost use Rattle.md_reader.specs.Authors.{IsOfAuthors, is_of_authors};
ghost use Rattle.md_reader.specs.Chosen.{HasChosenOnly, has_chosen_only};
ghost use Rattle.md_reader.specs.Levels.{IsLevel};
ghost use Rattle.md_reader.specs.Permitted.{images_of, links_of};
ghost use Rattle.md_reader.specs.Safe.{IsSafeHtml, IsSafeReading, max_depth};
ghost use Rattle.md_reader.specs.Tests.{test_of};

use crate::content::Content;
use crate::nodes::past_nodes;
use crate::protocol::Protocols;
use crate::rules::{Rules, Tags};
use md_base::{SAFE_PROTOCOL_HREF, SAFE_PROTOCOL_SRC};
use md_safe::tokens::{reading_is_tokenized, safe_text_has_safe_tokens};
use md_safe::trees::text_is_built;

/// How deep the elements of a safe text may nest: no deeper than those of a compiled document.
pub const MAX_DEPTH: usize = 485;

/// Whether a text is safe HTML: it has a reading in the HTML grammar that follows the content
/// model, with no link in a link, in which no `href` or `src` has a protocol other than those that
/// the compiler permits, and whose elements nest at most [`MAX_DEPTH`] deep.
///
/// # Examples
///
/// ```
/// assert!(is_safe_html(b"<p>one &amp; <em>two</em></p>"));
/// assert!(!is_safe_html(b"<p onclick=\"f()\">one</p>"));
/// ```
pub fn is_safe_html(text: &[u8]) -> bool
    ensures safe { IsTrue result → IsSafeHtml link_protocols image_protocols text.now }
    ensures exact { (forest : Forest)
        → IsSafeReading link_protocols image_protocols text.now forest → IsTrue result }
    ensures tokens { IsTrue result → IsSafelyTokenized text.now }
    ensures tree { IsTrue result → IsBuiltAsRead text.now }
    ensures nesting { IsTrue result → NestsWithin max_depth text.now }
{
    safe_text_has_safe_tokens();
    let protocols = Protocols {
        links: &SAFE_PROTOCOL_HREF,
        images: &SAFE_PROTOCOL_SRC,
    };
    is_safe_html_with(text, protocols)
}

/// The same as [`is_safe_html`] with these permitted protocols.
///
/// # Examples
///
/// ```
/// let protocols = Protocols { links: &["https"], images: &[] };
/// assert!(!is_safe_html_with(b"<a href=\"http://a.b\">a</a>", protocols));
/// ```
pub fn is_safe_html_with(text: &[u8], protocols: Protocols) -> bool
    ensures safe { IsTrue result
        → IsSafeHtml (links_of protocols.entry) (images_of protocols.entry) text.now }
    ensures exact { (forest : Forest)
        → IsSafeReading (links_of protocols.entry) (images_of protocols.entry) text.now forest
        → IsTrue result }
    ensures tokens { IsTrue result → IsTokenizedAsRead text.now }
    ensures tree { IsTrue result → IsBuiltAsRead text.now }
    ensures nesting { IsTrue result → NestsWithin max_depth text.now }
{
    text_is_built();
    reading_is_tokenized();
    let rules = Rules {
        protocols,
        tags: Tags::Any,
    };
    is_read(text, &rules)
}

/// Whether a text is safe HTML, as [`is_safe_html_with`] says, in which no tag and no attribute is
/// one that only the compiler writes: no `section`, no `input`, no `class`, no attribute whose name
/// begins with `data-` or `aria-`, and no `id` or `name`.
///
/// # Examples
///
/// ```
/// let protocols = Protocols { links: &["https"], images: &["https"] };
/// assert!(is_authors_html(b"<p>one <b>two</b></p>", protocols));
/// assert!(!is_authors_html(b"<code class=\"language-c\">int</code>", protocols));
/// ```
pub fn is_authors_html(text: &[u8], protocols: Protocols) -> bool
    ensures safe { IsTrue result
        → IsSafeHtml (links_of protocols.entry) (images_of protocols.entry) text.now }
    ensures authors { IsTrue result → IsOfAuthors text.now }
    ensures exact { (forest : Forest)
        → IsSafeReading (links_of protocols.entry) (images_of protocols.entry) text.now forest
        → IsTrue (is_of_authors forest) → IsTrue result }
    ensures tokens { IsTrue result → IsTokenizedAsRead text.now }
    ensures tree { IsTrue result → IsBuiltAsRead text.now }
    ensures nesting { IsTrue result → NestsWithin max_depth text.now }
{
    text_is_built();
    reading_is_tokenized();
    let rules = Rules {
        protocols,
        tags: Tags::OfAuthors,
    };
    is_read(text, &rules)
}

/// The same as [`is_authors_html`], and the name of each element is one of these, or an element with
/// one of these names needs it: `table` needs `thead`, `tbody`, `tfoot`, `tr`, `th` and `td`, `ul`
/// and `ol` need `li`, and `pre` needs `code`.
///
/// # Examples
///
/// ```
/// let protocols = Protocols { links: &["https"], images: &["https"] };
/// assert!(is_chosen_html(b"<ul><li>one</li></ul>", protocols, &["ul", "p"]));
/// assert!(!is_chosen_html(b"<p>one <b>two</b></p>", protocols, &["ul", "p"]));
/// ```
pub fn is_chosen_html(text: &[u8], protocols: Protocols, tags: &[&str]) -> bool
    ensures safe { IsTrue result
        → IsSafeHtml (links_of protocols.entry) (images_of protocols.entry) text.now }
    ensures authors { IsTrue result → IsOfAuthors text.now }
    ensures chosen { IsTrue result
        → HasChosenOnly (map (λ tag. tag.now) tags.now) text.now }
    ensures exact { (forest : Forest)
        → IsSafeReading (links_of protocols.entry) (images_of protocols.entry) text.now forest
        → IsTrue (is_of_authors forest)
        → IsTrue (has_chosen_only (map (λ tag. tag.now) tags.now) forest) → IsTrue result }
    ensures tokens { IsTrue result → IsTokenizedAsRead text.now }
    ensures tree { IsTrue result → IsBuiltAsRead text.now }
    ensures nesting { IsTrue result → NestsWithin max_depth text.now }
{
    text_is_built();
    reading_is_tokenized();
    let rules = Rules {
        protocols,
        tags: Tags::Chosen(tags),
    };
    is_read(text, &rules)
}

/// Whether a text is flow content by these rules.
fn is_read(text: &[u8], rules: &Rules) -> bool
    ensures level { IsTrue result → IsLevel (test_of rules.now) Flow max_depth text.now [] }
    ensures exact { IsLevel (test_of rules.now) Flow max_depth text.now [] → IsTrue result }
{
    match past_nodes(rules, Content::Flow, MAX_DEPTH, text) {
        Some(rest) => rest.is_empty(),
        None => false,
    }
}
