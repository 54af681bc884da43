//! Single texts, and the results of the definitions for them.

ghost use Rattle.std.specs.Prelude.{◌≡◌, List, [], ◌∷◌, Some, false, true, codes};
ghost use Rattle.md_safe.specs.Input.{with_line_feeds};
ghost use Rattle.md_safe.specs.Token.{Token, Doctype, Character, StartTag, EndOfFile};
ghost use Rattle.md_safe.specs.TokenizerStates.{Data};
ghost use Rattle.md_safe.specs.Tokenizer.{run};
ghost use Rattle.md_safe.specs.Tokenizes.{Tokenizes};
ghost use Rattle.md_safe.specs.Embedded.{EndsInDataState, splits_newline};

/// CR is a line feed and so is LF, and CR LF is one line feed: so the laws need their condition.
pub fn split_newline()
    ensures before { EndsInDataState (13 ∷ []) (Character 10 ∷ []) }
    ensures after { run 9 Data (with_line_feeds (10 ∷ [])) ≡ Some (Character 10 ∷ EndOfFile ∷ []) }
    ensures split { splits_newline (13 ∷ []) (10 ∷ []) ≡ true }
    ensures joined { run 9 Data (with_line_feeds (13 ∷ 10 ∷ []))
        ≡ Some (Character 10 ∷ EndOfFile ∷ []) }
    ensures not_alone { Tokenizes Data (with_line_feeds (13 ∷ 10 ∷ [])) (Character 10 ∷ [])
        (with_line_feeds (10 ∷ [])) → ⊥ }
{}

/// CR before another text, or LF after another text, splits no newline.
pub fn whole_newlines()
    ensures returns { splits_newline (codes "a\r") (codes "\r\n") ≡ false }
    ensures feeds { splits_newline (codes "\r\n") (codes "\n") ≡ false }
    ensures nothing { splits_newline [] (codes "\n") ≡ false }
{}

/// A template that is cut in the data state, after a tag or a character.
pub fn cut_in_data_state()
    ensures tags { EndsInDataState (codes "<!doctype html><div class=\"c\">\n")
        (Doctype (codes "html")
        ∷ StartTag (codes "div") (record { name = codes "class"; value = codes "c" } ∷ []) false
        ∷ Character 10 ∷ []) }
    ensures nothing { EndsInDataState [] [] }
{}

/// Templates that aren't: cut in a tag, in a value, in a title, or after a `&`, which may begin a
/// reference with what follows.
pub fn cut_in_another_state()
    ensures tag { (emits : List Token) → EndsInDataState (codes "<div ") emits → ⊥ }
    ensures value { (emits : List Token) → EndsInDataState (codes "<div class=\"") emits → ⊥ }
    ensures title { (emits : List Token) → EndsInDataState (codes "<title>") emits → ⊥ }
    ensures reference { (emits : List Token) → EndsInDataState (codes "&") emits → ⊥ }
{}
