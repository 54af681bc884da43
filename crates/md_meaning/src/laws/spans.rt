//! The meanings of worked trees with spans.

ghost use Rattle.md_meaning.specs.Trees.Spans as spans;
ghost use Rattle.md_meaning.specs.Trees.{Means};

/// The meaning of trimmed code.
pub fn meaning_of_trimmed_code()
    ensures { Means spans.trimmed_code_bytes spans.trimmed_code spans.trimmed_code_text }
{}

/// The meaning of backslash before a pipe.
pub fn meaning_of_backslash_before_a_pipe()
    ensures { Means spans.backslash_before_a_pipe_bytes spans.backslash_before_a_pipe
        spans.backslash_before_a_pipe_text }
{}

/// The meaning of spans and breaks.
pub fn meaning_of_spans_and_breaks()
    ensures { Means spans.spans_and_breaks_bytes spans.spans_and_breaks
        spans.spans_and_breaks_text }
{}

/// The meaning of math.
pub fn meaning_of_math()
    ensures { Means spans.math_bytes spans.math spans.math_text }
{}

/// The meaning of number references.
pub fn meaning_of_number_references()
    ensures { Means spans.number_references_bytes spans.number_references
        spans.number_references_text }
{}

/// The meaning of math in a text with a line ending in it, which is a space.
pub fn meaning_of_math_on_two_lines()
    ensures { Means spans.math_on_two_lines_bytes spans.math_on_two_lines
        spans.math_on_two_lines_text }
{}

/// The meaning of references by numbers above the last character.
pub fn meaning_of_references_past_the_last_character()
    ensures { Means spans.references_past_the_last_character_bytes
        spans.references_past_the_last_character
        spans.references_past_the_last_character_text }
{}
