//! Facts about every document, as contracts of functions that do nothing.

ghost use Rattle.std.specs.Prelude.{◌+◌, ◌≤◌, ◌<◌, ◌^◌, ℕ, List, length};
ghost use Rattle.md_base.specs.Tree.{Forest, flatten};
ghost use Rattle.md_text.specs.declared.options.CompileOptions.{CompileOptions};
ghost use Rattle.md_tree.specs.Grammar.{IsGrammatical};
ghost use Rattle.md_meaning.specs.Meaning.{meaning};
ghost use Rattle.md_length.specs.Bound.{text_bound};
ghost use Rattle.md_length.specs.Reuse.{reuse};
ghost use Rattle.md_length.specs.Work.{work};

/// The length of the text of each document of the grammar is bounded by its number of events, their
/// work and its reuse.
pub fn text_is_bounded()
    ensures { (options : CompileOptions) (names : List (List ℕ × List ℕ))
        (bytes : List ℕ) (document : Forest)
        → IsGrammatical bytes names document → length (flatten document) < 2 ^ 64
        → length (meaning options names bytes document)
        ≤ text_bound options names (length (flatten document))
        (work (flatten document) + reuse options bytes document) }
{}
