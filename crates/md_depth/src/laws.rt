//! Facts about every document, as contracts of functions that do nothing.

ghost use Rattle.std.specs.Prelude.{◌≡◌, ◌+◌, ◌*◌, ℕ, List};
ghost use Rattle.md_base.specs.Tree.{Forest, flatten};
ghost use Rattle.md_text.specs.declared.options.CompileOptions.{CompileOptions};
ghost use Rattle.md_tree.specs.Grammar.{IsGrammatical};
ghost use Rattle.md_meaning.specs.Meaning.{meaning};
ghost use Rattle.md_safe.specs.Options.{KeepsGrammar};
ghost use Rattle.md_depth.specs.Depth.{depth, height};
ghost use Rattle.md_depth.specs.Levels.{NestsWithin};

/// The events of a document nest exactly as deep as its nodes.
pub fn events_nest_as_their_nodes()
    ensures { (document : Forest) → depth (flatten document) ≡ height document }
{}

/// If the options write nothing unescaped, the elements in the meaning of a document of the grammar
/// nest at most twice as deep as its nodes, plus five levels for the section of footnotes.
pub fn elements_nest_as_the_nodes()
    ensures { (bytes : List ℕ) (names : List (List ℕ × List ℕ)) (options : CompileOptions)
        (document : Forest) → IsGrammatical bytes names document → KeepsGrammar options
        → NestsWithin (2 * height document + 5) (meaning options names bytes document) }
{}
