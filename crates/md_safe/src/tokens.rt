//! Facts about every text, as contracts of functions that do nothing.

pub mod cases;

ghost use Rattle.std.specs.List.{list_all};
ghost use Rattle.std.specs.Prelude.{◌≡◌, ℕ, Bool, false, [], ◌∷◌, ◌++◌, List, IsTrue};
ghost use Rattle.md_text.specs.Html.{Attribute, Forest, is_forest, written, HasOneReadingWith};
ghost use Rattle.md_text.specs.Html.{IsPrinted};
ghost use Rattle.md_text.specs.References.{is_escaped};
ghost use Rattle.md_text.specs.Safe.{is_safe_link, is_safe_image, is_safe_value};
ghost use Rattle.md_text.specs.Url.{link_protocols, image_protocols};
ghost use Rattle.md_safe.specs.Input.{begins_with_line_feed};
ghost use Rattle.md_safe.specs.Token.{Token, EndOfFile};
ghost use Rattle.md_safe.specs.TokenizerStates.{State, leaves_state};
ghost use Rattle.md_safe.specs.Tokenizer.{IsRun, IsTokenized};
ghost use Rattle.md_safe.specs.Tokens.{tokens, seen, is_listed, is_printed_token};
ghost use Rattle.md_safe.specs.PageTokens.{page_text, page_tokens, IsTokenizedPage};
ghost use Rattle.md_safe.specs.Tokenized.{HasTokensWith, IsTokenizedAsRead};
ghost use Rattle.md_safe.specs.Running.{runs_nothing};
ghost use Rattle.md_safe.specs.Scheme.{has_permitted_scheme};
ghost use Rattle.md_safe.specs.SafeTokens.{has_safe_links, has_safe_images};

/// From a state and an input the tokenizer emits at most one list of tokens.
pub fn tokens_are_one()
    ensures { (state : State) (input : List ℕ) (x y : List Token)
        → IsRun state input x → IsRun state input y → x ≡ y }
{}

/// The tokenizer emits for a written forest exactly that forest's tokens, up to the end of the
/// file.
pub fn forest_is_tokenized()
    ensures { (forest : Forest) → IsTrue (is_forest forest)
        → IsTokenized (written forest) (tokens forest ++ (EndOfFile ∷ [])) }
{}

/// It is in the data state then: what follows is tokenized as if it were alone, unless it begins
/// with a line feed that a carriage return at the forest's end would take.
pub fn forest_is_tokenized_in_its_place()
    ensures { (forest : Forest) (after : List ℕ) (later : List Token) → IsTrue (is_forest forest)
        → begins_with_line_feed after ≡ false → IsTokenized after later
        → IsTokenized (written forest ++ after) (tokens forest ++ later) }
{}

/// A text with one reading is tokenized as that reading, and each tag among the tokens is in the
/// grammar's tables.
pub fn reading_is_tokenized()
    ensures { (p : Attribute → Bool) (text : List ℕ) → HasOneReadingWith p text
        → IsTokenizedAsRead text }
{}

/// Each tag among the tokens of a text with a reading is in the grammar's tables, with only
/// attributes that the tables list for it.
pub fn tags_are_listed()
    ensures { (p : Attribute → Bool) (text : List ℕ) (tokens : List Token)
        → HasOneReadingWith p text → IsTokenized text tokens → IsTrue (list_all is_listed tokens) }
{}

/// If the tags of a text with a reading are of those that the compiler writes, so are the tags among
/// its tokens.
pub fn printed_tags_are_listed()
    ensures { (p : Attribute → Bool) (text : List ℕ) (tokens : List Token)
        → HasOneReadingWith p text → IsPrinted text → IsTokenized text tokens
        → IsTrue (list_all is_printed_token tokens) }
{}

/// No start tag among the tokens of a text with a reading belongs to an element that is listed as
/// one that runs something or acts on the surrounding page, and none has an attribute that is
/// listed so.
pub fn nothing_runs()
    ensures { (p : Attribute → Bool) (text : List ℕ) (tokens : List Token)
        → HasOneReadingWith p text → IsTokenized text tokens
        → IsTrue (list_all runs_nothing tokens) }
{}

/// No start tag among the tokens of a text with a reading makes tree construction change the
/// tokenizer's state, or begins foreign content.
pub fn state_is_left_alone()
    ensures { (p : Attribute → Bool) (text : List ℕ) (tokens : List Token)
        → HasOneReadingWith p text → IsTokenized text tokens
        → IsTrue (list_all leaves_state tokens) }
{}

/// An escaped value that passes the grammar's test has, in a browser, no scheme of its own or a
/// permitted one.
pub fn safe_values_have_permitted_schemes()
    ensures links { (value : List ℕ) → IsTrue (is_escaped value)
        → IsTrue (is_safe_value link_protocols value)
        → IsTrue (has_permitted_scheme link_protocols (seen value)) }
    ensures images { (value : List ℕ) → IsTrue (is_escaped value)
        → IsTrue (is_safe_value image_protocols value)
        → IsTrue (has_permitted_scheme image_protocols (seen value)) }
{}

/// If a text is safe, its tokens are.
pub fn safe_text_has_safe_tokens()
    ensures links { (text : List ℕ) → HasOneReadingWith is_safe_link text
        → HasTokensWith has_safe_links text }
    ensures images { (text : List ℕ) → HasOneReadingWith is_safe_image text
        → HasTokensWith has_safe_images text }
{}

/// A page is tokenized as its doctype, its head, its title and its body, and is safe if its body
/// is.
pub fn page_is_tokenized()
    ensures tokens { (title : List ℕ) (body : Forest) → IsTrue (is_escaped title)
        → IsTrue (is_forest body)
        → IsTokenized (page_text title (written body)) (page_tokens (seen title) body) }
    ensures safe { (title body : List ℕ) → IsTrue (is_escaped title)
        → HasOneReadingWith is_safe_link body
        → HasOneReadingWith is_safe_image body
        → IsTokenizedPage (seen title) body (page_text title body) }
{}
