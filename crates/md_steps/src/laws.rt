//! What the steps print, as the contract of a function that does nothing.

ghost use Rattle.std.specs.Prelude.{◌≡◌, ℕ, List};
ghost use Rattle.md_base.specs.Tree.{Forest};
ghost use Rattle.md_text.specs.declared.options.CompileOptions.{CompileOptions};
ghost use Rattle.md_tree.specs.Grammar.{IsGrammatical};
ghost use Rattle.md_meaning.specs.Meaning.{meaning};
ghost use Rattle.md_steps.specs.Run.{printed};

/// The steps over the events of a document of the grammar, after the steps over its definitions,
/// print its meaning.
pub fn steps_print_what_is_meant()
    ensures { (options : CompileOptions) (names : List (List ℕ × List ℕ))
        (bytes : List ℕ) (document : Forest)
        → IsGrammatical bytes names document
        → printed options names bytes document ≡ meaning options names bytes document }
{}
