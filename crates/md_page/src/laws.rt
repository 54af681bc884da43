//! Facts about texts whose tags get attributes, as contracts of functions that do nothing.

ghost use Rattle.std.specs.Prelude.{◌≡◌, ◌++◌, ℕ, List, [], ◌∷◌, IsTrue, Some, suc};
ghost use Rattle.std.specs.Fmt.{decimal};
ghost use Rattle.md_safe.specs.Token.{EndOfFile};
ghost use Rattle.md_safe.specs.Tokens.{tokens};
ghost use Rattle.md_safe.specs.Node.{Empty};
ghost use Rattle.md_safe.specs.Built.{put, IsBuiltAsRead};
ghost use Rattle.md_safe.specs.Fragment.{is_flow_context, fragment_of};
ghost use Rattle.md_page.specs.Added.{shown};
ghost use Rattle.md_page.specs.Built.{IsBuiltAsWritten};
ghost use Rattle.md_page.specs.Ids.{AreApart};

/// Headings of two documents share no id if neither prefix equals the other one, alone or followed
/// by digits. This holds if both prefixes end in a letter or a hyphen, and differ as they are read
/// (U+FFFD for NUL, a line feed for each line ending).
pub fn heading_ids_of_two_documents_are_apart()
    ensures { (one other : List ℕ) (m n : ℕ) → AreApart one other
        → shown one ++ decimal (suc m) ≡ shown other ++ decimal (suc n) → ⊥ }
{}

/// The nodes that `innerHTML` inserts for such a text, also for one with added attributes: exactly
/// those of its forest, in each element except those in which other rules hold.
pub fn fragment_is_built()
    ensures { (context text : List ℕ) → IsTrue (is_flow_context context)
        → (built : IsBuiltAsWritten text)
        → fragment_of context (tokens built.forest ++ (EndOfFile ∷ []))
        ≡ Some (put Empty built.forest) }
{}

/// A safe text that is built as it is read is built as it is written. So, by the clause `tree` of
/// the calls that add attributes, is their output.
pub fn text_built_as_read_is_built_as_written()
    ensures { (text : List ℕ) → IsBuiltAsRead text → IsBuiltAsWritten text }
{}
