//! Blocks of HTML.

ghost use Rattle.md_blocks.specs.LeafBlocks.{kind_begun};
ghost use Rattle.std.specs.Prelude.{◌≡◌, ◌≤◌, Bool, true, false, length, is_some, IfSome};
ghost use Rattle.std.specs.Str.{str_eq_ignore_ascii_case};
ghost use Rattle.md_blocks.specs.declared.html.HtmlKind.TheVariants.{Tag};
ghost use Rattle.md_blocks.specs.HtmlBlocks.{html_kind, tag_kind, name_length, is_raw_name};
ghost use Rattle.md_blocks.specs.HtmlBlocks.{is_block_name, begins_with, is_end, is_html_end};
ghost use Rattle.md_blocks.specs.HtmlBlocks.{first_of_end, ends_at_blank_line, named_kind};
ghost use Rattle.md_blocks.specs.HtmlBlocks.{ends_name, is_tag_alone};

use crate::marker::is_blank_from;
use crate::table::without_first;
use md_lines::{Cursor, Line, Place, skip_tag};
use memchr::memchr;

/// The kind of an HTML block, which decides where it ends.
#[derive(Clone, Copy, PartialEq, Eq)]
pub(crate) enum HtmlKind {
    /// `<script`, `<pre`, `<style` or `<textarea`, up to a closing tag of these.
    Raw,
    /// `<!--`, up to `-->`.
    Comment,
    /// `<?`, up to `?>`.
    Instruction,
    /// `<!` and a letter, up to `>`.
    Declaration,
    /// `<![CDATA[`, up to `]]>`.
    Data,
    /// A tag of a block, up to a blank line.
    Block,
    /// Any other tag alone on its line, up to a blank line.
    Tag,
}

impl HtmlKind {
    /// The kind of block that a text begins, at its `<`. A `Tag` can't interrupt a paragraph.
    pub(crate) fn begun_by(text: &[u8], may_be_tag: bool) -> Option<HtmlKind>
        ensures first { is_some (html_kind text.now) ≡ true → result ≡ html_kind text.now }
        ensures tag { is_some (html_kind text.now) ≡ false
            → IfSome result (λ kind. (kind ≡ Tag) × (may_be_tag ≡ true)) }
        ensures value { result ≡ kind_begun may_be_tag text.now }
    {
        match HtmlKind::of_beginning(text) {
            None if may_be_tag && is_tag_alone(text) => Some(HtmlKind::Tag),
            kind => kind,
        }
    }

    /// The kind of block that a text begins, by its first bytes; `None` if at most a `Tag`.
    fn of_beginning(text: &[u8]) -> Option<HtmlKind>
        ensures { result ≡ html_kind text.now }
    {
        if text.starts_with(b"<!--") {
            return Some(HtmlKind::Comment);
        }
        if text.starts_with(b"<?") {
            return Some(HtmlKind::Instruction);
        }
        if text.starts_with(b"<![CDATA[") {
            return Some(HtmlKind::Data);
        }
        if text.starts_with(b"<!") {
            return match text.get(2) {
                Some(byte) if byte.is_ascii_alphabetic() => Some(HtmlKind::Declaration),
                _ => None,
            };
        }
        kind_of_tag(text)
    }

    /// Whether a line ends a block of this kind; `false` if a blank line ends it.
    pub(crate) fn is_ended_by(self, line: &[u8]) -> bool
        ensures { result ≡ is_html_end self line.now }
    {
        let Some(first) = self.first_of_end() else {
            return false;
        };
        let mut rest = line;
        while let Some(at) = memchr(first, rest) {
            if self.is_end(&rest[at..]) {
                return true;
            }
            rest = &rest[at + 1..];
        }
        false
    }

    /// The first byte of what ends a block of this kind.
    #[inline(always)]
    fn first_of_end(self) -> Option<u8>
        ensures { result ≡ first_of_end self }
    {
        match self {
            HtmlKind::Raw => Some(b'<'),
            HtmlKind::Comment => Some(b'-'),
            HtmlKind::Instruction => Some(b'?'),
            HtmlKind::Declaration => Some(b'>'),
            HtmlKind::Data => Some(b']'),
            HtmlKind::Block | HtmlKind::Tag => None,
        }
    }

    /// Whether a text begins with what ends a block of this kind.
    fn is_end(self, text: &[u8]) -> bool
        ensures { result ≡ is_end self text.now }
    {
        match self {
            HtmlKind::Raw => {
                begins_with(text, b"</script>")
                    || begins_with(text, b"</pre>")
                    || begins_with(text, b"</style>")
                    || begins_with(text, b"</textarea>")
            }
            HtmlKind::Comment => text.starts_with(b"-->"),
            HtmlKind::Instruction => text.starts_with(b"?>"),
            HtmlKind::Declaration => text.starts_with(b">"),
            HtmlKind::Data => text.starts_with(b"]]>"),
            HtmlKind::Block | HtmlKind::Tag => false,
        }
    }

    /// Whether a blank line ends a block of this kind.
    pub(crate) fn ends_at_blank_line(self) -> bool
        ensures { result ≡ ends_at_blank_line self }
    {
        matches!(self, HtmlKind::Block | HtmlKind::Tag)
    }
}

/// The kind of a block that begins with a tag, by the tag's name.
fn kind_of_tag(text: &[u8]) -> Option<HtmlKind>
    ensures { result ≡ tag_kind text.now }
{
    let rest = text.get(1..)?;
    let inside = without_first(rest, b'/');
    let length = name_length(inside);
    let is_closing = text.starts_with(b"</");
    named_kind(is_closing, &inside[..length], &inside[length..])
}

/// The kind of a block that begins with a tag, by its name and what follows that.
#[inline(always)]
fn named_kind(is_closing: bool, name: &[u8], after: &[u8]) -> Option<HtmlKind>
    ensures { result ≡ named_kind is_closing name.now after.now }
{
    let is_ended = ends_name(after);
    if is_ended && !is_closing && is_raw(name) {
        Some(HtmlKind::Raw)
    } else if (is_ended || after.starts_with(b"/>")) && is_block(name) {
        Some(HtmlKind::Block)
    } else {
        None
    }
}

/// Whether a tag's name ends before a text.
#[inline(always)]
fn ends_name(text: &[u8]) -> bool
    ensures { result ≡ ends_name text.now }
{
    matches!(text.first(), None | Some(b' ' | b'\t' | b'>'))
}

/// The length of the letters and digits at the beginning of a text.
#[inline(always)]
fn name_length(text: &[u8]) -> usize
    ensures within { result ≤ length text.now }
    ensures value { result ≡ name_length text.now }
{
    let mut length = 0;
    while length < text.len() && text[length].is_ascii_alphanumeric() {
        length += 1;
    }
    length
}

/// Whether a text is one opening or closing tag, followed only by spaces and tabs.
fn is_tag_alone(text: &[u8]) -> bool
    ensures { result ≡ is_tag_alone text.now }
{
    let lines = [Line::part(0, text.len())];
    let mut cursor = Cursor::new(text, &lines, Place { line: 0, at: 0 });
    skip_tag(&mut cursor) && is_blank_from(cursor.rest_of_line(), 0)
}

/// Whether a text begins with a word, in any case.
fn begins_with(text: &[u8], word: &[u8]) -> bool
    ensures { result ≡ begins_with text.now word.now }
{
    match text.get(..word.len()) {
        Some(first) => is_word(first, word),
        None => false,
    }
}

/// Whether a text is a word, in any case.
#[inline(always)]
fn is_word(text: &[u8], word: &[u8]) -> bool
    ensures { result ≡ str_eq_ignore_ascii_case text.now word.now }
{
    text.eq_ignore_ascii_case(word)
}

/// Whether a tag's name begins a block of `HtmlKind::Raw`.
fn is_raw(name: &[u8]) -> bool
    ensures { result ≡ is_raw_name name.now }
{
    is_word(name, b"script")
        || is_word(name, b"pre")
        || is_word(name, b"style")
        || is_word(name, b"textarea")
}

/// Whether a tag's name begins a block of `HtmlKind::Block`.
fn is_block(name: &[u8]) -> bool
    ensures { result ≡ is_block_name name.now }
{
    let Some(tags) = BLOCK_TAGS.get(name.len()) else {
        return false;
    };
    for tag in *tags {
        if is_word(name, tag.as_bytes()) {
            return true;
        }
    }
    false
}

/// The names of the tags that begin a block, at the index that is their length.
static BLOCK_TAGS: [&[&str]; 11] = [
    &[],
    &["p"],
    &[
        "dd", "dl", "dt", "h1", "h2", "h3", "h4", "h5", "h6", "hr", "li", "ol", "td", "th", "tr",
        "ul",
    ],
    &["col", "dir", "div", "nav"],
    &[
        "base", "body", "form", "head", "html", "link", "main", "menu",
    ],
    &[
        "aside", "frame", "param", "table", "tbody", "tfoot", "thead", "title", "track",
    ],
    &[
        "center", "dialog", "figure", "footer", "header", "iframe", "legend", "option", "source",
    ],
    &[
        "address", "article", "caption", "details", "section", "summary",
    ],
    &[
        "basefont", "colgroup", "fieldset", "frameset", "menuitem", "noframes", "optgroup",
    ],
    &[],
    &["blockquote", "figcaption"],
];
