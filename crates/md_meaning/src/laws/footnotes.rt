//! The meanings of worked trees with footnotes.

ghost use Rattle.md_meaning.specs.Trees.Footnotes as footnotes;
ghost use Rattle.md_meaning.specs.Trees.FootnoteTexts as texts;
ghost use Rattle.md_meaning.specs.Trees.FootnoteIds as ids;
ghost use Rattle.md_meaning.specs.Trees.{Means, MeansWith};

/// The meaning of footnote.
pub fn meaning_of_footnote()
    ensures { Means footnotes.footnote_bytes footnotes.footnote footnotes.footnote_text }
{}

/// The meaning of two references to one footnote.
pub fn meaning_of_two_references_to_one_footnote()
    ensures { Means footnotes.two_references_to_one_footnote_bytes
        footnotes.two_references_to_one_footnote
        footnotes.two_references_to_one_footnote_text }
{}

/// The meaning of nested footnote definition.
pub fn meaning_of_nested_footnote_definition()
    ensures { Means footnotes.nested_footnote_definition_bytes footnotes.nested_footnote_definition
        footnotes.nested_footnote_definition_text }
{}

/// The meaning of footnote without a paragraph.
pub fn meaning_of_footnote_without_a_paragraph()
    ensures { Means texts.footnote_without_a_paragraph_bytes
        texts.footnote_without_a_paragraph
        texts.footnote_without_a_paragraph_text }
{}

/// The meaning of footnotes in the order of their calls.
pub fn meaning_of_footnotes_in_the_order_of_their_calls()
    ensures { Means footnotes.footnotes_in_the_order_of_their_calls_bytes
        footnotes.footnotes_in_the_order_of_their_calls
        footnotes.footnotes_in_the_order_of_their_calls_text }
{}

/// The meaning of a call in the label of a call, which has the lower number and prints nothing.
pub fn meaning_of_call_in_a_call()
    ensures { Means footnotes.call_in_a_call_bytes footnotes.call_in_a_call
        footnotes.call_in_a_call_text }
{}

/// The meaning of a call in the label of an image, which is counted and prints nothing.
pub fn meaning_of_call_in_an_image()
    ensures { Means footnotes.call_in_an_image_bytes footnotes.call_in_an_image
        footnotes.call_in_an_image_text }
{}

/// The meaning of call in its own footnote.
pub fn meaning_of_call_in_its_own_footnote()
    ensures { Means footnotes.call_in_its_own_footnote_bytes footnotes.call_in_its_own_footnote
        footnotes.call_in_its_own_footnote_text }
{}

/// The meaning of an identifier with a capital letter and white space.
pub fn meaning_of_folded_identifier()
    ensures { Means ids.folded_identifier_bytes ids.folded_identifier
        ids.folded_identifier_text }
{}

/// The meaning of footnote without a call.
pub fn meaning_of_footnote_without_a_call()
    ensures { Means footnotes.footnote_without_a_call_bytes footnotes.footnote_without_a_call
        footnotes.footnote_without_a_call_text }
{}

/// The meaning of footnote that ends in a quote.
pub fn meaning_of_footnote_that_ends_in_a_quote()
    ensures { Means texts.footnote_that_ends_in_a_quote_bytes
        texts.footnote_that_ends_in_a_quote
        texts.footnote_that_ends_in_a_quote_text }
{}

/// The meaning of a footnote with CR and LF after its last paragraph.
pub fn meaning_of_footnote_that_ends_in_line_endings()
    ensures { Means texts.footnote_that_ends_in_line_endings_bytes
        texts.footnote_that_ends_in_line_endings
        texts.footnote_that_ends_in_line_endings_text }
{}

/// The meaning of empty footnote.
pub fn meaning_of_empty_footnote()
    ensures { Means texts.empty_footnote_bytes texts.empty_footnote
        texts.empty_footnote_text }
{}

/// The meaning of empty identifier.
pub fn meaning_of_empty_identifier()
    ensures { Means ids.empty_identifier_bytes ids.empty_identifier
        ids.empty_identifier_text }
{}

/// The meaning of a footnote that ends in a paragraph of HTML.
pub fn meaning_of_footnote_that_ends_in_html()
    ensures { MeansWith texts.footnote_that_ends_in_html_options
        texts.footnote_that_ends_in_html_bytes
        texts.footnote_that_ends_in_html texts.footnote_that_ends_in_html_text }
{}

/// The meaning of a footnote with its ids by number.
pub fn meaning_of_footnote_by_number()
    ensures { MeansWith ids.ids_by_number footnotes.footnote_bytes footnotes.footnote
        ids.footnote_by_number_text }
{}

/// The meaning of two footnotes, where the id of a second call of one equals the id of the first
/// call of the other.
pub fn meaning_of_identifiers_that_meet()
    ensures { Means ids.identifiers_that_meet_bytes ids.identifiers_that_meet
        ids.identifiers_that_meet_text }
{}

/// The meaning of the same two with ids by number, where all ids differ.
pub fn meaning_of_identifiers_that_meet_by_number()
    ensures { MeansWith ids.ids_by_number ids.identifiers_that_meet_bytes
        ids.identifiers_that_meet
        ids.identifiers_that_meet_by_number_text }
{}

/// The meaning of a footnote definition in a tight list, whose paragraph has tags, and after which
/// the line ending is dropped.
pub fn meaning_of_footnote_definition_in_a_tight_list()
    ensures { Means texts.footnote_definition_in_a_tight_list_bytes
        texts.footnote_definition_in_a_tight_list
        texts.footnote_definition_in_a_tight_list_text }
{}
