//! Facts about every text, as contracts of functions that do nothing.

pub mod cases;
pub mod leaves;

ghost use Rattle.std.specs.List.{list_all};
ghost use Rattle.std.specs.Prelude.{◌≡◌, ◌≢◌, ◌⊎◌, ℕ, [], ◌∷◌, ◌++◌, List, Bool, true, false};
ghost use Rattle.std.specs.Prelude.{codes};
ghost use Rattle.std.specs.Prelude.{All, IsTrue, MatchOption};
ghost use Rattle.md_text.specs.declared.line_ending.LineEnding.{LineEnding};
ghost use Rattle.md_text.specs.Encode.{encoded};
ghost use Rattle.md_text.specs.Filter.{tag_filtered};
ghost use Rattle.md_text.specs.Html.{Attribute, Forest, Empty, Void, IsReading, HasReadingWith};
ghost use Rattle.md_text.specs.Html.{HasOneReadingWith};
ghost use Rattle.md_text.specs.Html.{is_tag, printed_elements, printed_void_tags, written};
ghost use Rattle.md_text.specs.Html.{opening_tag, closing_tag};
ghost use Rattle.md_text.specs.Laws.{ChangesOnlyAngles, AreBytes, AreAscii, is_line_ends};
ghost use Rattle.md_text.specs.Laws.{percents_begin_triples};
ghost use Rattle.md_text.specs.LineEnding.{ending_text, ending_of};
ghost use Rattle.md_text.specs.References.{is_escaped, outside_references, read_back};
ghost use Rattle.md_text.specs.Safe.{is_safe_value};
ghost use Rattle.md_text.specs.Url.{sanitized, sanitized_with, link_protocols, image_protocols};

/// Escaping two joined texts joins their escaped texts.
pub fn encode_of_append()
    ensures { (html : Bool) (x y : List ℕ)
        → encoded html (x ++ y) ≡ encoded html x ++ encoded html y }
{}

/// Reading back the references of an escaped text once gives the text, with U+FFFD for each NUL.
pub fn encode_reads_back()
    ensures { (x : List ℕ) → read_back (encoded true x) ≡ encoded false x }
{}

/// An escaped text holds no NUL, `<`, `>` or `"`, and each `&` begins one of the four references.
pub fn encode_is_clean()
    ensures { (x : List ℕ) → IsTrue (is_escaped (encoded true x)) }
{}

/// Two escaped texts joined are escaped.
pub fn escaped_texts_join()
    ensures { (x y : List ℕ)
        → IsTrue (is_escaped x) → IsTrue (is_escaped y) → IsTrue (is_escaped (x ++ y)) }
{}

/// An escaped text stays escaped without a byte that occurs in none of the four references.
pub fn escaped_text_loses_a_byte()
    ensures { (b : ℕ) (x y : List ℕ) → IsTrue (outside_references b)
        → IsTrue (is_escaped (x ++ b ∷ y)) → IsTrue (is_escaped (x ++ y)) }
{}

/// A sanitized URL is escaped, whether or not its protocol is checked.
pub fn urls_are_escaped()
    ensures any { (x : List ℕ) → IsTrue (is_escaped (sanitized x)) }
    ensures permitted { (protocols : List (List ℕ)) (x : List ℕ)
        → IsTrue (is_escaped (sanitized_with protocols x)) }
{}

/// The tag filter changes some `<` to `&lt;` and nothing else; a second pass changes nothing.
pub fn tagfilter_changes_only_angles()
    ensures only_angles { (x : List ℕ) → ChangesOnlyAngles x (tag_filtered x) }
    ensures twice_is_once { (x : List ℕ) → tag_filtered (tag_filtered x) ≡ tag_filtered x }
{}

/// A sanitized URL is ASCII. If a text has no `&`, sanitizing it twice is the same as once.
pub fn sanitize_is_ascii()
    ensures ascii { (x : List ℕ) → AreBytes x → AreAscii (sanitized x) }
    ensures twice_is_once { (x : List ℕ)
        → AreBytes x → All (λ b. b ≢ 38) x → sanitized (sanitized x) ≡ sanitized x }
{}

/// Each `%` in a sanitized URL is followed by two hexadecimal digits.
pub fn percent_begins_a_triple()
    ensures { (x : List ℕ) → AreBytes x → IsTrue (percents_begin_triples (sanitized x)) }
{}

/// A URL is kept whole, as [`crate::sanitize`] writes it, or dropped.
pub fn sanitize_with_protocols_is_all_or_nothing()
    ensures { (protocols : List (List ℕ)) (x : List ℕ)
        → (sanitized_with protocols x ≡ []) ⊎ (sanitized_with protocols x ≡ sanitized x) }
{}

/// The text of a line ending parses to that line ending; every other text is rejected.
pub fn line_ending_round_trip()
    ensures parsed { (ending : LineEnding) → ending_of (ending_text ending) ≡ Some ending }
    ensures only_three { (text : List ℕ)
        → MatchOption (ending_of text)
        ((ending : LineEnding) → ending_text ending ≢ text)
        (λ ending. ending_text ending ≡ text) }
{}

/// If a URL is kept, then, with its references read back, it has no protocol, or one that is in the
/// list once its ASCII letters are lowered.
pub fn kept_protocol_is_permitted()
    ensures links { (x : List ℕ)
        → IsTrue (is_safe_value link_protocols (sanitized_with link_protocols x)) }
    ensures images { (x : List ℕ)
        → IsTrue (is_safe_value image_protocols (sanitized_with image_protocols x)) }
{}

/// No text has two readings in the HTML grammar.
pub fn html_has_one_reading()
    ensures { (text : List ℕ) (x y : Forest) → IsReading text x → IsReading text y → x ≡ y }
{}

/// A text that has a reading in which each attribute passes a test has no other reading.
pub fn reading_is_the_only_one()
    ensures { (p : Attribute → Bool) (text : List ℕ)
        → HasReadingWith p text → HasOneReadingWith p text }
{}

/// The empty text has a reading; its attributes pass any test.
pub fn nothing_has_a_reading()
    ensures { (p : Attribute → Bool) → HasReadingWith p [] }
{}

/// An escaped text has a reading.
pub fn text_has_a_reading()
    ensures { (p : Attribute → Bool) (text : List ℕ)
        → IsTrue (is_escaped text) → HasReadingWith p text }
{}

/// A void tag that the compiler writes has a reading.
pub fn void_tag_has_a_reading()
    ensures { (p : Attribute → Bool) (name : List ℕ) (attributes : List Attribute)
        → IsTrue (is_tag printed_void_tags name attributes) → IsTrue (list_all p attributes)
        → HasReadingWith p (written (Void name attributes Empty)) }
{}

/// An element that the compiler writes has a reading if its content has one.
pub fn element_has_a_reading()
    ensures { (p : Attribute → Bool) (name : List ℕ) (attributes : List Attribute) (inside : List ℕ)
        → IsTrue (is_tag printed_elements name attributes) → IsTrue (list_all p attributes)
        → HasReadingWith p inside
        → HasReadingWith p (opening_tag name attributes ++ inside ++ closing_tag name) }
{}

/// If two texts have readings, the joined text has one.
pub fn readings_join()
    ensures { (p : Attribute → Bool) (x y : List ℕ)
        → HasReadingWith p x → HasReadingWith p y → HasReadingWith p (x ++ y) }
{}

/// If a text has a reading and ends in `</p>`, apart from CR and LF bytes at its end, another text
/// that has a reading may be inserted before that `</p>`.
pub fn paragraph_takes_an_insertion()
    ensures { (p : Attribute → Bool) (before endings inserted : List ℕ)
        → IsTrue (is_line_ends endings)
        → HasReadingWith p (before ++ codes "</p>" ++ endings) → HasReadingWith p inserted
        → HasReadingWith p (before ++ inserted ++ codes "</p>" ++ endings) }
{}
