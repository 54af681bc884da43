//! What a caller chooses.

/// The names of the elements that [`clean`](crate::clean) keeps.
pub const TAGS: [&str; 48] = [
    "a",
    "abbr",
    "b",
    "blockquote",
    "br",
    "cite",
    "code",
    "del",
    "details",
    "dfn",
    "div",
    "em",
    "figcaption",
    "figure",
    "h1",
    "h2",
    "h3",
    "h4",
    "h5",
    "h6",
    "hr",
    "i",
    "img",
    "ins",
    "kbd",
    "li",
    "mark",
    "ol",
    "p",
    "pre",
    "q",
    "s",
    "samp",
    "small",
    "span",
    "strong",
    "sub",
    "summary",
    "sup",
    "table",
    "tbody",
    "td",
    "tfoot",
    "th",
    "thead",
    "tr",
    "u",
    "ul",
];

/// What [`clean_with`](crate::clean_with) keeps.
#[derive(Clone, Copy)]
pub struct CleanOptions<'a> {
    /// The names of the elements that stay, in lower case; `None`: all of [`TAGS`]. Other names
    /// have no effect. `table` brings the elements that a table needs, `ul` and `ol` bring `li`,
    /// and `pre` brings `code`.
    pub tags: Option<&'a [&'a str]>,
    /// The protocols that URLs may have, in lower case; `None`: `http`, `https`, `irc`, `ircs`,
    /// `mailto` and `xmpp` for links, and `http` and `https` for images. Others have no effect. A
    /// URL without a protocol always stays.
    pub protocols: Option<&'a [&'a str]>,
}

impl Default for CleanOptions<'_> {
    fn default() -> Self {
        CleanOptions {
            tags: None,
            protocols: None,
        }
    }
}

/// Whether an element of this name is chosen, or a chosen one needs it.
pub(crate) fn is_chosen(tags: &[&str], name: &str) -> bool {
    is_among(tags, name)
        || match name {
            "thead" | "tbody" | "tfoot" | "tr" | "th" | "td" => is_among(tags, "table"),
            "li" => is_among(tags, "ul") || is_among(tags, "ol"),
            "code" => is_among(tags, "pre"),
            _ => false,
        }
}

/// Whether a name is one of these.
fn is_among(tags: &[&str], name: &str) -> bool {
    tags.iter().any(|tag| tag.as_bytes() == name.as_bytes())
}
