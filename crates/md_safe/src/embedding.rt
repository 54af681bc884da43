//! Facts about every text, as contracts of functions that do nothing.

pub mod cases;

ghost use Rattle.std.specs.Prelude.{◌≡◌, ℕ, false, true, [], ◌∷◌, ◌++◌, List};
ghost use Rattle.md_text.specs.Html.{Forest, IsReading};
ghost use Rattle.md_safe.specs.Input.{with_line_feeds};
ghost use Rattle.md_safe.specs.Token.{Token, EndOfFile};
ghost use Rattle.md_safe.specs.TokenizerStates.{Data};
ghost use Rattle.md_safe.specs.Tokenizer.{IsTokenized};
ghost use Rattle.md_safe.specs.Tokens.{tokens};
ghost use Rattle.md_safe.specs.Tokenized.{IsSafelyTokenized};
ghost use Rattle.md_safe.specs.Tokenizes.{Tokenizes};
ghost use Rattle.md_safe.specs.Embedded.{EndsInDataState, HasTokensAfter, splits_newline};

/// A text with a reading takes the tokenizer from the data state to the data state, with the tokens
/// of the reading, whatever follows it. So does each text that is tokenized as a `SafeHtml` is.
pub fn reading_ends_in_data_state()
    ensures reading { (text : List ℕ) (forest : Forest) → IsReading text forest
        → EndsInDataState text (tokens forest) }
    ensures safe { (text : List ℕ) (safe : IsSafelyTokenized text)
        → EndsInDataState text (tokens safe.as_read.forest) }
{}

/// The tokens of a text that ends so are those that it has alone, before the end of the file.
pub fn its_tokens_are_its_own()
    ensures { (text : List ℕ) (emits : List Token) → EndsInDataState text emits
        → IsTokenized text (emits ++ (EndOfFile ∷ [])) }
{}

/// After such a text the tokenizer has exactly the input that it has for what follows alone, unless
/// CR LF is split between the two: then the one line feed belongs to the text, and the rest
/// remains.
pub fn what_follows_stands_alone()
    ensures alone { (text after : List ℕ) (emits : List Token) → EndsInDataState text emits
        → splits_newline text after ≡ false
        → Tokenizes Data (with_line_feeds (text ++ after)) emits (with_line_feeds after) }
    ensures split { (text after : List ℕ) (emits : List Token) → EndsInDataState text emits
        → splits_newline text (10 ∷ after) ≡ true
        → Tokenizes Data (with_line_feeds (text ++ (10 ∷ after))) emits (with_line_feeds after) }
{}

/// So the two in sequence are tokenized as the text's tokens and then those of what follows alone,
/// if that is tokenized, and as nothing else.
pub fn what_follows_is_tokenized_alone()
    ensures tokenized { (text after : List ℕ) (emits later : List Token)
        → EndsInDataState text emits
        → splits_newline text after ≡ false → IsTokenized after later
        → IsTokenized (text ++ after) (emits ++ later) }
    ensures only { (text after : List ℕ) (emits all : List Token) → EndsInDataState text emits
        → splits_newline text after ≡ false → IsTokenized (text ++ after) all
        → HasTokensAfter emits after all }
{}

/// Two such texts joined are such a text.
pub fn such_texts_join()
    ensures { (before text : List ℕ) (earlier emits : List Token) → EndsInDataState before earlier
        → EndsInDataState text emits → splits_newline before text ≡ false
        → EndsInDataState (before ++ text) (earlier ++ emits) }
{}

/// A text with a reading between two others, as in a template: the text before it ends in the data
/// state, and the text after it is any text.
pub fn reading_stands_between()
    ensures any { (before text after : List ℕ) (earlier : List Token) (forest : Forest)
        → EndsInDataState before earlier → IsReading text forest
        → splits_newline before text ≡ false → splits_newline (before ++ text) after ≡ false
        → Tokenizes Data (with_line_feeds (before ++ (text ++ after))) (earlier ++ tokens forest)
        (with_line_feeds after) }
    ensures tokenized { (before text after : List ℕ) (earlier later : List Token) (forest : Forest)
        → EndsInDataState before earlier → IsReading text forest
        → splits_newline before text ≡ false → splits_newline (before ++ text) after ≡ false
        → IsTokenized after later
        → IsTokenized (before ++ (text ++ after)) (earlier ++ (tokens forest ++ later)) }
{}
