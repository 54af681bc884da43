//! Facts about every text, as contracts of functions that do nothing.

ghost use Rattle.std.specs.Prelude.{ℕ, List};
ghost use Rattle.md_text.specs.Html.{HasOneReadingWith};
ghost use Rattle.md_text.specs.References.{is_escaped};
ghost use Rattle.std.specs.Prelude.{IsTrue};
ghost use Rattle.md_text.specs.Safe.{is_safe_link, is_safe_image};
ghost use Rattle.md_text.specs.Url.{link_protocols, image_protocols};
ghost use Rattle.md_safe.specs.Built.{IsBuiltAsRead};
ghost use Rattle.md_depth.specs.Levels.{NestsWithin};
ghost use Rattle.md_reader.specs.Safe.{IsSafeHtml, max_depth};

/// A text that has what the compiler promises of a safe text of a document with no link in a link
/// is accepted, if its elements nest at most so deep.
pub fn compiled_text_is_accepted()
    ensures { (text : List ℕ) → HasOneReadingWith is_safe_link text
        → HasOneReadingWith is_safe_image text → IsBuiltAsRead text
        → NestsWithin max_depth text → IsSafeHtml link_protocols image_protocols text }
{}

/// What an accepted text promises is what the compiler promises: so the two promise the same.
pub fn accepted_text_is_as_compiled()
    ensures links { (text : List ℕ) → IsSafeHtml link_protocols image_protocols text
        → HasOneReadingWith is_safe_link text }
    ensures images { (text : List ℕ) → IsSafeHtml link_protocols image_protocols text
        → HasOneReadingWith is_safe_image text }
    ensures nesting { (text : List ℕ) → IsSafeHtml link_protocols image_protocols text
        → NestsWithin max_depth text }
{}

/// An escaped text is safe.
pub fn escaped_text_is_safe()
    ensures { (text : List ℕ) → IsTrue (is_escaped text)
        → IsSafeHtml link_protocols image_protocols text }
{}
