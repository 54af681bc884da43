//! The protocols that links and images may have, and the tag names that the tag filter escapes.

/// The protocols that a link's destination may have.
pub const SAFE_PROTOCOL_HREF: [&str; 6] = ["http", "https", "irc", "ircs", "mailto", "xmpp"];

/// The protocols that an image's destination may have.
pub const SAFE_PROTOCOL_SRC: [&str; 2] = ["http", "https"];

/// The tag names that the tag filter of GitHub flavored Markdown escapes.
pub const GFM_HTML_TAGFILTER_NAMES: [&str; 9] = [
    "iframe",
    "noembed",
    "noframes",
    "plaintext",
    "script",
    "style",
    "textarea",
    "title",
    "xmp",
];
