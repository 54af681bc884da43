//! Facts about the texts of Markdown documents, as contracts of functions that do nothing.

ghost use Rattle.std.specs.Prelude.{◌≡◌, ℕ, List, true};
ghost use Rattle.md_safe.specs.Apart.{ShareNoId};
ghost use Rattle.md_safe.specs.Built.{IsBuiltAsRead};
ghost use Rattle.md_safe.specs.Contents.{IsContained};
ghost use Rattle.md_blocks.specs.declared.options.MarkdownOptions.{MarkdownOptions};
ghost use Rattle.md_markdown.specs.Chosen.{footnote_prefix_of};
ghost use Rattle.md_markdown.specs.Made.{IsMadeOf};

/// If the ids of footnotes are by number, the texts of two documents with different prefixes share
/// no id but `footnote-label`, that of the heading of footnotes. One prefix may begin with the
/// other. They are compared as they are read, so NUL and U+FFFD are equal.
pub fn ids_of_two_documents_are_apart()
    ensures { (markdown other_markdown : MarkdownOptions) (document other : List ℕ)
        (text other_text : List ℕ)
        → IsMadeOf markdown document text → IsMadeOf other_markdown other other_text
        → markdown.number_ids ≡ true → other_markdown.number_ids ≡ true
        → (footnote_prefix_of markdown ≡ footnote_prefix_of other_markdown → ⊥)
        → ShareNoId text other_text }
{}

/// In a text that is built as it is read each element stands where it may.
pub fn built_text_is_contained()
    ensures { (text : List ℕ) → IsBuiltAsRead text → IsContained text }
{}
