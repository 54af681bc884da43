//! Facts about every document, as contracts of functions that do nothing.

ghost use Rattle.std.specs.Prelude.{◌≡◌, ◌≤◌, ℕ, Bool, false, List};
ghost use Rattle.md_base.specs.Tree.{Forest, flatten};
ghost use Rattle.md_text.specs.declared.options.CompileOptions.{CompileOptions};
ghost use Rattle.md_meaning.specs.Meaning.{meaning};
ghost use Rattle.md_html.specs.Work.{read_length};
ghost use Rattle.md_html.specs.Lengths.{lengths, GoesForward};

/// If HTML isn't allowed, the tag filter changes no meaning.
pub fn tagfilter_is_moot_when_escaped()
    ensures { (filter : Bool) (options : CompileOptions) (names : List (List ℕ × List ℕ))
        (bytes : List ℕ) (document : Forest)
        → options.allow_dangerous_html ≡ false
        → meaning (record options { gfm_tagfilter = filter }) names bytes document
        ≡ meaning options names bytes document }
{}

/// The work that counts as read is at least the sum of the lengths of a document's nodes that are
/// read, and equals it if no event starts before the previous one.
pub fn work_counts_what_is_read()
    ensures no_less { (document : Forest) → lengths document ≤ read_length (flatten document) }
    ensures exact { (document : Forest) → GoesForward 0 (flatten document)
        → read_length (flatten document) ≡ lengths document }
{}
