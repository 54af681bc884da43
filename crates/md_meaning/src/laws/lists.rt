//! The meanings of worked trees with lists.

ghost use Rattle.md_meaning.specs.Trees.Lists as lists;
ghost use Rattle.md_meaning.specs.Trees.{Means, MeansWith};

/// The meaning of tight list.
pub fn meaning_of_tight_list()
    ensures { Means lists.tight_list_bytes lists.tight_list lists.tight_list_text }
{}

/// The meaning of loose list.
pub fn meaning_of_loose_list()
    ensures { Means lists.loose_list_bytes lists.loose_list lists.loose_list_text }
{}

/// The meaning of empty item.
pub fn meaning_of_empty_item()
    ensures { Means lists.empty_item_bytes lists.empty_item lists.empty_item_text }
{}

/// The meaning of quote in a tight list.
pub fn meaning_of_quote_in_a_tight_list()
    ensures { Means lists.quote_in_a_tight_list_bytes lists.quote_in_a_tight_list
        lists.quote_in_a_tight_list_text }
{}

/// The meaning of start number.
pub fn meaning_of_start_number()
    ensures { Means lists.start_number_bytes lists.start_number lists.start_number_text }
{}

/// The meaning of task.
pub fn meaning_of_task()
    ensures { Means lists.task_bytes lists.task lists.task_text }
{}

/// The meaning of nested tight list.
pub fn meaning_of_nested_tight_list()
    ensures { Means lists.nested_tight_list_bytes lists.nested_tight_list
        lists.nested_tight_list_text }
{}

/// The meaning of checkable task.
pub fn meaning_of_checkable_task()
    ensures { MeansWith lists.checkable_task_options lists.checkable_task_bytes lists.checkable_task
        lists.checkable_task_text }
{}

/// The meaning of item with a blank line.
pub fn meaning_of_item_with_a_blank_line()
    ensures { Means lists.item_with_a_blank_line_bytes lists.item_with_a_blank_line
        lists.item_with_a_blank_line_text }
{}

/// The meaning of an item that ends in code, whose end is on its own line.
pub fn meaning_of_code_in_an_item()
    ensures { Means lists.code_in_an_item_bytes lists.code_in_an_item lists.code_in_an_item_text }
{}

/// The meaning of start number with zeros.
pub fn meaning_of_start_number_with_zeros()
    ensures { Means lists.start_number_with_zeros_bytes lists.start_number_with_zeros
        lists.start_number_with_zeros_text }
{}

/// The meaning of a blank line after an item that ends in an empty quote, which leaves the list
/// tight.
pub fn meaning_of_bare_quote_in_an_item()
    ensures { Means lists.bare_quote_in_an_item_bytes lists.bare_quote_in_an_item
        lists.bare_quote_in_an_item_text }
{}

/// The meaning of the same with a space after the quote.
pub fn meaning_of_bare_quote_before_a_space()
    ensures { Means lists.bare_quote_before_a_space_bytes lists.bare_quote_before_a_space
        lists.bare_quote_before_a_space_text }
{}

/// The meaning of a blank line after an item that ends in a quote with text, which makes the list
/// loose.
pub fn meaning_of_quote_before_a_blank_line()
    ensures { Means lists.quote_before_a_blank_line_bytes lists.quote_before_a_blank_line
        lists.quote_before_a_blank_line_text }
{}
