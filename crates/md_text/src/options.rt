//! The options of the compiler, and their defaults.

use crate::line_ending::LineEnding;

/// The options of the compiler.
///
/// An option whose comment names a safe value must have that value for a text with one reading,
/// safe links and safe images. The others may have any value.
#[derive(Debug, Drop)]
pub struct CompileOptions {
    /// Lets images have any source, as `allow_dangerous_protocol` alone does too. Safe: off.
    pub allow_any_img_src: bool,
    /// Leaves HTML in the document unchanged. Safe: off.
    pub allow_dangerous_html: bool,
    /// Lets links and images have any protocol. Safe: off.
    pub allow_dangerous_protocol: bool,
    /// Prints tasks without `disabled`.
    pub gfm_task_list_item_checkable: bool,
    /// Escapes some tags in HTML that is left unchanged. That doesn't make such HTML safe.
    pub gfm_tagfilter: bool,
    /// Derives footnotes' ids from their numbers instead of their identifiers, and adds the number
    /// of the call to the id of each call. Safe: on or off; only if it is on are all ids promised
    /// to differ.
    pub gfm_footnote_number_ids: bool,
    /// The line ending to print if the document has none.
    pub default_line_ending: LineEnding,
    /// The `aria-label` of a backreference from a footnote; unset: `Back to content`.
    pub gfm_footnote_back_label: Option<String>,
    /// The prefix of footnotes' ids; unset: `user-content-`.
    pub gfm_footnote_clobber_prefix: Option<String>,
    /// The heading of the footnotes; unset: `Footnotes`.
    pub gfm_footnote_label: Option<String>,
    /// The attributes of that heading, which aren't escaped; unset: `class="sr-only"`. Safe: unset.
    pub gfm_footnote_label_attributes: Option<String>,
    /// The tag name of that heading; unset: `h2`. Safe: unset.
    pub gfm_footnote_label_tag_name: Option<String>,
}

impl Default for CompileOptions {
    ghost use Rattle.std.specs.Prelude.{◌≡◌};
    ghost use Rattle.md_text.specs.Defaults.{default_options};

    ghost is_default = { λ options. options ≡ default_options };

    /// All off, all unset, and lines end in LF.
    ///
    /// # Examples
    ///
    /// ```
    /// let options = CompileOptions::default();
    /// assert!(!options.allow_dangerous_html);
    /// assert!(options.gfm_footnote_label.is_none());
    /// ```
    fn default() -> CompileOptions {
        CompileOptions {
            allow_any_img_src: false,
            allow_dangerous_html: false,
            allow_dangerous_protocol: false,
            gfm_task_list_item_checkable: false,
            gfm_tagfilter: false,
            gfm_footnote_number_ids: false,
            default_line_ending: LineEnding::LineFeed,
            gfm_footnote_back_label: None,
            gfm_footnote_clobber_prefix: None,
            gfm_footnote_label: None,
            gfm_footnote_label_attributes: None,
            gfm_footnote_label_tag_name: None,
        }
    }
}

impl CompileOptions {
    ghost use Rattle.std.specs.Prelude.{◌≡◌};
    ghost use Rattle.md_text.specs.Defaults.{gfm_options};

    /// The default with the tag filter of GitHub flavored Markdown on.
    ///
    /// # Examples
    ///
    /// ```
    /// let options = CompileOptions::gfm();
    /// assert!(options.gfm_tagfilter);
    /// assert!(!options.allow_dangerous_html);
    /// ```
    pub fn gfm() -> CompileOptions
        ensures { result ≡ gfm_options }
    {
        CompileOptions {
            gfm_tagfilter: true,
            ..CompileOptions::default()
        }
    }
}
