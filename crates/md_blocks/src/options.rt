//! The options for reading Markdown and printing its HTML.

/// How to print HTML in a document. Whatever is chosen, none of it is HTML in the text.
#[derive(Clone, Copy, Debug, PartialEq, Eq)]
pub enum DocumentHtml {
    /// It is printed as text: `<b>` as `&lt;b&gt;`.
    Text,
    /// It is left out. The text between two tags stays.
    LeftOut,
    /// Comments are left out, and all else is printed as text.
    WithoutComments,
}

/// The options for reading Markdown and printing its HTML. Whatever is chosen, the text is safe.
#[derive(Debug, Drop)]
pub struct MarkdownOptions {
    /// Reads math: `$a$`, `$$a$$`, and blocks between lines of `$$`. Default: off.
    pub math: bool,
    /// Reads front matter between lines of `---`, which prints nothing. Default: off.
    pub front_matter: bool,
    /// Reads footnotes: `[^a]` and `[^a]: text`. Default: on.
    pub footnotes: bool,
    /// Reads tables. Default: on.
    pub tables: bool,
    /// Reads bare URLs (`https://..`, `www...`) and addresses as links. Default: on.
    pub bare_links: bool,
    /// Begins a new line where the document does: `<br />` for its soft breaks. Default: off.
    pub hard_breaks: bool,
    /// How to print HTML in the document. Default: as text.
    pub html: DocumentHtml,
    /// The base against which the URLs of links and images are resolved, as in RFC 3986. An empty
    /// URL stays unchanged, and so does one that begins with `#`.
    pub base: Option<String>,
    /// The prefix of the ids of footnotes; else `user-content-`. Each document of a page needs
    /// another one.
    pub footnote_prefix: Option<String>,
    /// Derives the ids of footnotes from their numbers: then no two ids of the text are equal.
    /// Default: off.
    pub number_ids: bool,
    /// The heading of the footnotes; else `Footnotes`.
    pub footnote_label: Option<String>,
    /// The `aria-label` of a backreference from a footnote; else `Back to content`.
    pub footnote_back_label: Option<String>,
}

impl Default for MarkdownOptions {
    fn default() -> MarkdownOptions {
        MarkdownOptions {
            math: false,
            front_matter: false,
            footnotes: true,
            tables: true,
            bare_links: true,
            hard_breaks: false,
            html: DocumentHtml::Text,
            base: None,
            footnote_prefix: None,
            number_ids: false,
            footnote_label: None,
            footnote_back_label: None,
        }
    }
}
