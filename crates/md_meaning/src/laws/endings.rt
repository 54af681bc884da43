//! The meanings of worked trees in which line endings matter.

ghost use Rattle.md_meaning.specs.Trees.Endings as endings;
ghost use Rattle.md_meaning.specs.Trees.Clearing as clearing;
ghost use Rattle.md_meaning.specs.Trees.{Means, MeansWith};

/// The meaning of two endings after a definition.
pub fn meaning_of_two_endings_after_a_definition()
    ensures { Means endings.two_endings_after_a_definition_bytes
        endings.two_endings_after_a_definition
        endings.two_endings_after_a_definition_text }
{}

/// The meaning of two line endings after a footnote definition, of which the first is dropped.
pub fn meaning_of_endings_after_a_footnote_definition()
    ensures { Means endings.endings_after_a_footnote_definition_bytes
        endings.endings_after_a_footnote_definition
        endings.endings_after_a_footnote_definition_text }
{}

/// The meaning of a thematic break after frontmatter, which slurps the line ending between them.
pub fn meaning_of_break_after_frontmatter()
    ensures { Means endings.break_after_frontmatter_bytes endings.break_after_frontmatter
        endings.break_after_frontmatter_text }
{}

/// The meaning of blank line at the end.
pub fn meaning_of_blank_line_at_the_end()
    ensures { Means endings.blank_line_at_the_end_bytes endings.blank_line_at_the_end
        endings.blank_line_at_the_end_text }
{}

/// The meaning of default line ending.
pub fn meaning_of_default_line_ending()
    ensures { MeansWith endings.default_line_ending_options endings.default_line_ending_bytes
        endings.default_line_ending endings.default_line_ending_text }
{}

/// The meaning of a list before a definition with the only line ending, which is the one printed.
pub fn meaning_of_line_ending_in_a_definition()
    ensures { Means endings.line_ending_in_a_definition_bytes endings.line_ending_in_a_definition
        endings.line_ending_in_a_definition_text }
{}

/// The meaning of a line ending after frontmatter and a blank line, which clears the mark to slurp
/// it.
pub fn meaning_of_ending_after_a_blank_line()
    ensures { Means clearing.ending_after_a_blank_line_bytes clearing.ending_after_a_blank_line
        clearing.ending_after_a_blank_line_text }
{}

/// The meaning of a line ending after frontmatter and a block quote, which clears the mark to slurp
/// it.
pub fn meaning_of_ending_after_a_quote()
    ensures { Means clearing.ending_after_a_quote_bytes clearing.ending_after_a_quote
        clearing.ending_after_a_quote_text }
{}

/// The meaning of a line ending after frontmatter and indented code, which clears the mark to slurp
/// it.
pub fn meaning_of_ending_after_indented_code()
    ensures { Means clearing.ending_after_indented_code_bytes clearing.ending_after_indented_code
        clearing.ending_after_indented_code_text }
{}

/// The meaning of a line ending after fenced code, which clears the mark that its fence sets.
pub fn meaning_of_ending_after_fenced_code()
    ensures { Means clearing.ending_after_fenced_code_bytes clearing.ending_after_fenced_code
        clearing.ending_after_fenced_code_text }
{}

/// The meaning of a line ending after math, which clears the mark that its fence sets.
pub fn meaning_of_ending_after_math()
    ensures { Means clearing.ending_after_math_bytes clearing.ending_after_math
        clearing.ending_after_math_text }
{}

/// The meaning of a line ending after a tight list, whose item clears the mark that its paragraph
/// sets.
pub fn meaning_of_ending_after_a_tight_list()
    ensures { Means clearing.ending_after_a_tight_list_bytes clearing.ending_after_a_tight_list
        clearing.ending_after_a_tight_list_text }
{}

/// The meaning of a line ending after frontmatter and code with a line ending, which doesn't clear
/// the mark to slurp one.
pub fn meaning_of_ending_after_code_with_an_ending()
    ensures { Means endings.ending_after_code_with_an_ending_bytes
        endings.ending_after_code_with_an_ending
        endings.ending_after_code_with_an_ending_text }
{}

/// The meaning of a line ending after frontmatter and a definition with a line ending, which
/// doesn't clear the mark to slurp one.
pub fn meaning_of_ending_after_a_definition_with_an_ending()
    ensures { Means endings.ending_after_a_definition_with_an_ending_bytes
        endings.ending_after_a_definition_with_an_ending
        endings.ending_after_a_definition_with_an_ending_text }
{}

/// The meaning of a title with a line ending after frontmatter, which isn't slurped in a
/// definition.
pub fn meaning_of_title_on_two_lines()
    ensures { Means endings.title_on_two_lines_bytes endings.title_on_two_lines
        endings.title_on_two_lines_text }
{}

/// The meaning of a line ending after a transparent node that holds a definition.
pub fn meaning_of_definition_in_another_name()
    ensures { Means endings.definition_in_another_name_bytes endings.definition_in_another_name
        endings.definition_in_another_name_text }
{}

/// The meaning of a line ending in a cell that prints nothing, which clears the mark to slurp it.
pub fn meaning_of_ending_in_a_dropped_cell()
    ensures { Means clearing.ending_in_a_dropped_cell_bytes clearing.ending_in_a_dropped_cell
        clearing.ending_in_a_dropped_cell_text }
{}

/// The meaning of a blank line at the start, whose line ending is the one printed.
pub fn meaning_of_blank_line_at_the_start()
    ensures { Means endings.blank_line_at_the_start_bytes endings.blank_line_at_the_start
        endings.blank_line_at_the_start_text }
{}
