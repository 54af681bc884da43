//! The meaning of one worked tree under each option.

ghost use Rattle.md_meaning.specs.Trees.Options as options;
ghost use Rattle.md_meaning.specs.Trees.{MeansWith};

/// No option is on.
pub fn meaning_under_no_option()
    ensures { MeansWith options.no_option options.each_name_bytes options.each_name
        options.no_option_text }
{}

/// Images may have any source; links need a permitted protocol.
pub fn meaning_under_any_image_source()
    ensures { MeansWith options.any_image_source options.each_name_bytes options.each_name
        options.any_image_source_text }
{}

/// Links and images may have any protocol.
pub fn meaning_under_any_protocol()
    ensures { MeansWith options.any_protocol options.each_name_bytes options.each_name
        options.any_protocol_text }
{}

/// Both of these together.
pub fn meaning_under_any_protocol_and_source()
    ensures { MeansWith options.any_protocol_and_source options.each_name_bytes options.each_name
        options.any_protocol_and_source_text }
{}

/// HTML stays as it is, and other text is escaped.
pub fn meaning_under_html()
    ensures { MeansWith options.html options.each_name_bytes options.each_name options.html_text }
{}

/// Only the tag filter, where HTML is escaped.
pub fn meaning_under_tag_filter()
    ensures { MeansWith options.tag_filter options.each_name_bytes options.each_name
        options.tag_filter_text }
{}

/// HTML stays as it is, and the tag filter escapes its tags.
pub fn meaning_under_filtered_html()
    ensures { MeansWith options.filtered_html options.each_name_bytes options.each_name
        options.filtered_html_text }
{}

/// Tasks are checkable.
pub fn meaning_under_checkable_tasks()
    ensures { MeansWith options.checkable_tasks options.each_name_bytes options.each_name
        options.checkable_tasks_text }
{}

/// Lines end in CR.
pub fn meaning_under_carriage_returns()
    ensures { MeansWith options.carriage_returns options.each_name_bytes options.each_name
        options.carriage_returns_text }
{}

/// Lines end in CR and LF.
pub fn meaning_under_both_ends_of_line()
    ensures { MeansWith options.both_ends_of_line options.each_name_bytes options.each_name
        options.both_ends_of_line_text }
{}

/// Footnotes' ids are their numbers.
pub fn meaning_under_ids_by_number()
    ensures { MeansWith options.ids_by_number options.each_name_bytes options.each_name
        options.ids_by_number_text }
{}
