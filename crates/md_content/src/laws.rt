//! Facts about every document of the grammar, as contracts of functions that do nothing.

ghost use Rattle.std.specs.Prelude.{◌≡◌, ℕ, List, [], map, false, find, bytes_eq};
ghost use Rattle.md_base.specs.Tree.{Forest};
ghost use Rattle.md_tree.specs.Grammar.{IsGrammatical};
ghost use Rattle.md_meaning.specs.declared.surroundings.Surroundings.{Surroundings};
ghost use Rattle.md_meaning.specs.Meaning.At.{Context, Before, Defined, Footnote};
ghost use Rattle.md_meaning.specs.Meaning.Nodes.{outcome};
ghost use Rattle.md_content.specs.Built.{Blocks, IsBuilt};
ghost use Rattle.md_content.specs.Underlined.{IsUnderlined};
ghost use Rattle.md_content.specs.References.{Everywhere, EverywhereAfter, HasItsText, HasItsLabel};
ghost use Rattle.md_content.specs.References.{Decodes, RefersAlike, RefersSomewhere, ResolvesAlike};
ghost use Rattle.md_content.specs.References.{first_of};
ghost use Rattle.md_content.specs.References.{found_at, defined_in, footnotes_defined_in};

/// In each document of the grammar every node has a content that its place allows, beginning with
/// blocks.
pub fn grammatical_documents_are_built()
    ensures { (bytes : List ℕ) (names : List (List ℕ × List ℕ)) (forest : Forest)
        → IsGrammatical bytes names forest → IsBuilt bytes Blocks forest }
{}

/// In a document of the grammar each underline follows the text of its heading, with nothing
/// printed between them, and has no printed content.
pub fn underlines_stand_after_headings()
    ensures { (bytes : List ℕ) (names : List (List ℕ × List ℕ)) (forest : Forest)
        → IsGrammatical bytes names forest → IsUnderlined false forest }
{}

/// In a document of the grammar each text and each label that the meaning reads exists, and each
/// reference decodes to a text.
pub fn texts_are_there()
    ensures texts { (bytes : List ℕ) (names : List (List ℕ × List ℕ)) (document : Forest)
        → IsGrammatical bytes names document → Everywhere (HasItsText bytes) document }
    ensures labels { (bytes : List ℕ) (names : List (List ℕ × List ℕ)) (document : Forest)
        → IsGrammatical bytes names document → Everywhere (HasItsLabel bytes) document }
    ensures references { (bytes : List ℕ) (names : List (List ℕ × List ℕ)) (document : Forest)
        → IsGrammatical bytes names document → EverywhereAfter (Decodes bytes names) [] document }
{}

/// The label by which a node refers, or is referred to, in the grammar and in the meaning, is the
/// one that the printer finds ahead.
pub fn printer_finds_the_labels()
    ensures { (bytes : List ℕ) (names : List (List ℕ × List ℕ)) (document : Forest)
        → IsGrammatical bytes names document → Everywhere RefersAlike document }
{}

/// In a document of the grammar each link and each image without a resource refers to a definition
/// of the document, and each footnote call to a footnote definition; and these are the ones that
/// the meaning looks up.
pub fn references_lead_somewhere()
    ensures found { (bytes : List ℕ) (names : List (List ℕ × List ℕ)) (document : Forest)
        → IsGrammatical bytes names document
        → Everywhere (RefersSomewhere bytes document) document }
    ensures alike { (bytes : List ℕ) (names : List (List ℕ × List ℕ)) (document : Forest)
        → IsGrammatical bytes names document → Everywhere (ResolvesAlike bytes document) document }
    ensures first { (definitions : List Defined) (identifier : List ℕ)
        → find (λ defined. bytes_eq defined.identifier identifier) definitions
        ≡ found_at definitions
        (first_of (map (λ defined. defined.identifier) definitions) identifier) }
    ensures first_footnote { (footnotes : List Footnote) (identifier : List ℕ)
        → find (λ footnote. bytes_eq footnote.identifier identifier) footnotes ≡ found_at footnotes
        (first_of (map (λ footnote. footnote.identifier) footnotes) identifier) }
    ensures definitions { (context : Context) (around : Surroundings)
        (before : Before) (document : Forest)
        → map (λ defined. defined.identifier) (outcome context around before document).definitions
        ≡ defined_in context.bytes document }
    ensures footnotes { (context : Context) (around : Surroundings)
        (before : Before) (document : Forest)
        → map (λ footnote. footnote.identifier) (outcome context around before document).footnotes
        ≡ footnotes_defined_in context.bytes document }
{}
