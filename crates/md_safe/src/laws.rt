//! Facts about the meaning of every document, as contracts of functions that do nothing.

ghost use Rattle.std.specs.Prelude.{◌≡◌, ℕ, ◌<◌, ◌^◌, List, length, false};
ghost use Rattle.md_text.specs.Html.{any_attribute, HasOneReadingWith, IsPrinted};
ghost use Rattle.md_text.specs.Safe.{is_safe_link, is_safe_image};
ghost use Rattle.md_text.specs.Ids.{HasDistinctIds};
ghost use Rattle.md_base.specs.Tree.{Forest, flatten};
ghost use Rattle.md_tree.specs.Grammar.{IsGrammatical};
ghost use Rattle.md_content.specs.Underlined.{IsUnderlined};
ghost use Rattle.md_text.specs.declared.options.CompileOptions.{CompileOptions};
ghost use Rattle.md_meaning.specs.Meaning.{meaning};
ghost use Rattle.md_text.specs.Defaults.{default_options, gfm_options};
ghost use Rattle.md_content.specs.Built.{Blocks, IsBuilt};
ghost use Rattle.md_safe.specs.Options.{KeepsGrammar, KeepsLinks, KeepsImages, KeepsIds};
ghost use Rattle.md_safe.specs.Apart.{prefix_of, ShareNoId};
ghost use Rattle.md_safe.specs.Links.{has_nested_link};
ghost use Rattle.md_safe.specs.Contents.{IsContained, IsUnnested};

/// If each node of a document has a content that its place allows, the document's meaning is a text
/// of the HTML grammar with exactly one reading, provided that the options write nothing unescaped.
/// Its tags are of those that the compiler writes. In that reading each link, and each image, has no
/// protocol or a permitted one, if the options keep to those.
pub fn safe_options_make_safe_output()
    ensures one_reading { (bytes : List ℕ) (names : List (List ℕ × List ℕ))
        (options : CompileOptions)
        (document : Forest) → IsBuilt bytes Blocks document → KeepsGrammar options
        → HasOneReadingWith any_attribute (meaning options names bytes document) }
    ensures printed { (bytes : List ℕ) (names : List (List ℕ × List ℕ))
        (options : CompileOptions)
        (document : Forest) → IsBuilt bytes Blocks document → KeepsGrammar options
        → IsPrinted (meaning options names bytes document) }
    ensures safe_links { (bytes : List ℕ) (names : List (List ℕ × List ℕ))
        (options : CompileOptions)
        (document : Forest) → IsBuilt bytes Blocks document → KeepsLinks options
        → HasOneReadingWith is_safe_link (meaning options names bytes document) }
    ensures safe_images { (bytes : List ℕ) (names : List (List ℕ × List ℕ))
        (options : CompileOptions)
        (document : Forest) → IsBuilt bytes Blocks document → KeepsImages options
        → HasOneReadingWith is_safe_image (meaning options names bytes document) }
{}

/// If ids are by number and the options write nothing unescaped, no two ids in the text are equal,
/// whatever the prefix, provided that the document has no more events than 64 bits count.
pub fn ids_by_number_are_distinct()
    ensures { (bytes : List ℕ) (names : List (List ℕ × List ℕ))
        (options : CompileOptions) (document : Forest)
        → IsBuilt bytes Blocks document → IsUnderlined false document → KeepsIds options
        → length (flatten document) < 2 ^ 64
        → HasDistinctIds (meaning options names bytes document) }
{}

/// If ids are by number and the options write nothing unescaped, two texts with different prefixes
/// share no id but `footnote-label`, that of the heading of footnotes. One prefix may begin with
/// the other. They are compared as they are read, so NUL and U+FFFD are equal.
pub fn ids_of_two_documents_are_apart()
    ensures { (bytes other_bytes : List ℕ) (names other_names : List (List ℕ × List ℕ))
        (options other_options : CompileOptions) (document other : Forest)
        → IsBuilt bytes Blocks document → IsUnderlined false document → KeepsIds options
        → IsBuilt other_bytes Blocks other → IsUnderlined false other → KeepsIds other_options
        → (prefix_of options ≡ prefix_of other_options → ⊥)
        → ShareNoId (meaning options names bytes document)
        (meaning other_options other_names other_bytes other) }
{}

/// If the options write nothing unescaped, the meaning of a document of the grammar is a text with
/// exactly one reading, in which the content model allows each node at its place.
pub fn meaning_is_contained()
    ensures { (bytes : List ℕ) (names : List (List ℕ × List ℕ))
        (options : CompileOptions) (document : Forest)
        → IsGrammatical bytes names document → KeepsGrammar options
        → IsContained (meaning options names bytes document) }
{}

/// The same, and no link is inside a link, if none is in the document.
pub fn links_nest_as_in_the_document()
    ensures { (bytes : List ℕ) (names : List (List ℕ × List ℕ))
        (options : CompileOptions) (document : Forest)
        → IsGrammatical bytes names document → KeepsGrammar options
        → has_nested_link false document ≡ false
        → IsUnnested (meaning options names bytes document) }
{}

/// The default options are safe, and so are those of GitHub flavored Markdown.
pub fn default_options_are_safe()
    ensures default { KeepsImages default_options }
    ensures gfm { KeepsImages gfm_options }
{}
