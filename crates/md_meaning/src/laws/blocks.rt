//! The meanings of worked trees with blocks.

ghost use Rattle.md_meaning.specs.Trees.Blocks as blocks;
ghost use Rattle.md_meaning.specs.Trees.{Means, MeansWith};

/// The meaning of heading with emphasis.
pub fn meaning_of_heading_with_emphasis()
    ensures { Means blocks.heading_with_emphasis_bytes blocks.heading_with_emphasis
        blocks.heading_with_emphasis_text }
{}

/// The meaning of fence in a quote.
pub fn meaning_of_fence_in_a_quote()
    ensures { Means blocks.fence_in_a_quote_bytes blocks.fence_in_a_quote
        blocks.fence_in_a_quote_text }
{}

/// The meaning of virtual spaces.
pub fn meaning_of_virtual_spaces()
    ensures { Means blocks.virtual_spaces_bytes blocks.virtual_spaces blocks.virtual_spaces_text }
{}

/// The meaning of setext heading.
pub fn meaning_of_setext_heading()
    ensures { Means blocks.setext_heading_bytes blocks.setext_heading blocks.setext_heading_text }
{}

/// The meaning of HTML if it is left as it is.
pub fn meaning_of_html_as_it_is()
    ensures { MeansWith blocks.html_as_it_is_options blocks.html_as_it_is_bytes blocks.html_as_it_is
        blocks.html_as_it_is_text }
{}

/// The meaning of closed fence with an info.
pub fn meaning_of_closed_fence_with_an_info()
    ensures { Means blocks.closed_fence_with_an_info_bytes blocks.closed_fence_with_an_info
        blocks.closed_fence_with_an_info_text }
{}

/// The meaning of unclosed fence.
pub fn meaning_of_unclosed_fence()
    ensures { Means blocks.unclosed_fence_bytes blocks.unclosed_fence blocks.unclosed_fence_text }
{}

/// The meaning of unclosed fence alone in a quote.
pub fn meaning_of_unclosed_fence_alone_in_a_quote()
    ensures { Means blocks.unclosed_fence_alone_in_a_quote_bytes
        blocks.unclosed_fence_alone_in_a_quote
        blocks.unclosed_fence_alone_in_a_quote_text }
{}

/// The meaning of code without a chunk.
pub fn meaning_of_code_without_a_chunk()
    ensures { Means blocks.code_without_a_chunk_bytes blocks.code_without_a_chunk
        blocks.code_without_a_chunk_text }
{}

/// The meaning of HTML if it is escaped.
pub fn meaning_of_html_by_default()
    ensures { Means blocks.html_by_default_bytes blocks.html_by_default
        blocks.html_by_default_text }
{}

/// The meaning of HTML if it is left, and escaped by the tag filter.
pub fn meaning_of_filtered_html()
    ensures { MeansWith blocks.filtered_html_options blocks.filtered_html_bytes blocks.filtered_html
        blocks.filtered_html_text }
{}

/// The meaning of setext heading after two endings.
pub fn meaning_of_setext_heading_after_two_endings()
    ensures { Means blocks.setext_heading_after_two_endings_bytes
        blocks.setext_heading_after_two_endings
        blocks.setext_heading_after_two_endings_text }
{}

/// The meaning of heading mark over a cut tab.
pub fn meaning_of_heading_mark_over_a_cut_tab()
    ensures { Means blocks.heading_mark_over_a_cut_tab_bytes blocks.heading_mark_over_a_cut_tab
        blocks.heading_mark_over_a_cut_tab_text }
{}

/// The meaning of a tag that is split between two data nodes, which passes the tag filter.
pub fn meaning_of_split_tag()
    ensures { MeansWith blocks.split_tag_options blocks.split_tag_bytes blocks.split_tag
        blocks.split_tag_text }
{}

/// The meaning of an unclosed fence in a transparent node, which is not the last child.
pub fn meaning_of_fence_in_another_name()
    ensures { Means blocks.fence_in_another_name_bytes blocks.fence_in_another_name
        blocks.fence_in_another_name_text }
{}
