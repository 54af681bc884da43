//! Facts about each contained reading without a link in a link, as contracts of functions that do
//! nothing.

ghost use Rattle.std.specs.Prelude.{◌≡◌, ℕ, Bool, false, IsTrue, List, [], ◌∷◌, ◌++◌, Some, None};
ghost use Rattle.std.specs.Prelude.{codes};
ghost use Rattle.md_text.specs.Html.{Forest, is_forest};
ghost use Rattle.md_safe.specs.PageTokens.{page_tokens, plain_tag};
ghost use Rattle.md_safe.specs.Token.{TokenAttribute, Doctype, Character, StartTag, EndTag};
ghost use Rattle.md_safe.specs.Token.{EndOfFile};
ghost use Rattle.md_safe.specs.TokenizerStates.{begins_title};
ghost use Rattle.md_safe.specs.Tokens.{tokens};
ghost use Rattle.md_safe.specs.Contents.{Flow, is_contained, IsUnnested};
ghost use Rattle.md_safe.specs.Node.{Nodes, Empty, Text, Element, Open, Entry, Marker, Mode};
ghost use Rattle.md_safe.specs.Node.{InBody, InCell, is_text, Parser};
ghost use Rattle.md_safe.specs.Construction.{step, run};
ghost use Rattle.md_safe.specs.Built.{has_whole_texts, at, open_at, put, IsPlace, Builds};
ghost use Rattle.md_safe.specs.Built.{IsBuiltAsRead};
ghost use Rattle.md_safe.specs.Page.{has_no_nul, document_of, page_document};
ghost use Rattle.md_safe.specs.Fragment.{is_flow_context, fragment_of};

/// Wherever flow content may be inserted, the tokens of a reading build its own tree there, and
/// leave the other open elements and the list of active formatting elements unchanged.
pub fn reading_is_built()
    ensures { (forest : Forest) → IsTrue (is_forest forest)
        → IsTrue (is_contained false Flow forest)
        → (mode : Mode) (node : Open) (others : List Open) (active : List Entry) (created : ℕ)
        → IsPlace mode node others active created → Builds mode node others active created forest }
{}

/// The same for a forest whose tags may have any attributes.
pub fn forest_is_built()
    ensures { (forest : Forest) → IsTrue (has_whole_texts forest)
        → IsTrue (is_contained false Flow forest)
        → (mode : Mode) (node : Open) (others : List Open) (active : List Entry) (created : ℕ)
        → IsPlace mode node others active created → Builds mode node others active created forest }
{}

/// So a text that is known to have such a reading is built as it is read.
pub fn text_is_built()
    ensures { (text : List ℕ) → IsUnnested text → IsBuiltAsRead text }
{}

/// The tokens of a page, from the beginning, build exactly its document: the doctype; the root with
/// its head and its body; in the head the title's characters; in the body the nodes of a contained
/// reading without a link in a link, or of a text that is known to be built as it is read. The line
/// feed at the page's end goes into the body, after all else in it, and into the text that is last
/// there, if there is one.
pub fn page_is_built()
    ensures reading { (title : List ℕ) (body : Forest) → IsTrue (has_no_nul title)
        → IsTrue (is_forest body)
        → IsTrue (is_contained false Flow body)
        → document_of (page_tokens title body) ≡ Some (page_document title body) }
    ensures text { (title text : List ℕ) → IsTrue (has_no_nul title) → (built : IsBuiltAsRead text)
        → document_of (page_tokens title built.forest) ≡ Some (page_document title built.forest) }
{}

/// `innerHTML` inserts into an element, for a text that is known to be built as it is read, exactly
/// the nodes of its reading, whatever the element is, except those in which other rules hold.
pub fn fragment_is_built()
    ensures { (context text : List ℕ) → IsTrue (is_flow_context context)
        → (built : IsBuiltAsRead text)
        → fragment_of context (tokens built.forest ++ (EndOfFile ∷ []))
        ≡ Some (put Empty built.forest) }
{}

/// A start tag switches to the mode "text" exactly where the tokenizer's definition switches its
/// state: at `title`. So the two definitions agree.
pub fn state_is_switched_where_text_begins()
    ensures { (parser next : Parser) (name : List ℕ)
        (attributes : List TokenAttribute) (flag : Bool)
        → step parser (StartTag name attributes flag) ≡ Some next
        → is_text next.mode ≡ begins_title (StartTag name attributes flag) }
{}

/// Flow content may be inserted in a `div`, a list's item and a `section` of a body, in a table's
/// cell, wherever the table is, and in the root of a fragment, as which a browser reads what is
/// assigned to `innerHTML`.
pub fn places()
    ensures div { (nodes : Nodes) → IsPlace InBody (open_at 2 (codes "div") nodes)
        (open_at 1 (codes "body") nodes ∷ open_at 0 (codes "html") nodes ∷ []) [] 3 }
    ensures item { (nodes : Nodes) → IsPlace InBody (open_at 3 (codes "li") nodes)
        (open_at 2 (codes "ul") nodes ∷ open_at 1 (codes "body") nodes
        ∷ open_at 0 (codes "html") nodes ∷ []) [] 4 }
    ensures section { (nodes : Nodes) → IsPlace InBody (open_at 2 (codes "section") nodes)
        (open_at 1 (codes "body") nodes ∷ open_at 0 (codes "html") nodes ∷ []) [] 3 }
    ensures cell { (nodes : Nodes) → IsPlace InCell (open_at 5 (codes "td") nodes)
        (open_at 4 (codes "tr") nodes ∷ open_at 3 (codes "tbody") nodes
        ∷ open_at 2 (codes "table") nodes
        ∷ open_at 1 (codes "body") nodes ∷ open_at 0 (codes "html") nodes ∷ []) (Marker ∷ []) 6 }
    ensures fragment { (nodes : Nodes) → IsPlace InBody (open_at 0 (codes "html") nodes) [] [] 1 }
    ensures cell_in_paragraph { (nodes : Nodes) → IsPlace InCell (open_at 5 (codes "td") nodes)
        (open_at 4 (codes "tr") nodes ∷ open_at 3 (codes "tbody") nodes ∷ open_at 2 (codes "table")
        nodes ∷ open_at 1 (codes "p") nodes ∷ open_at 0 (codes "body") nodes ∷ []) (Marker ∷ []) 6 }
{}

/// Elements that leave their place, and those that don't: a list's start tag closes the paragraph
/// that contains it, also from within another element; an item's start tag closes no item that
/// contains its list; a cell's end tag is ignored if no cell is open; a link's start tag in a link
/// isn't written out.
pub fn what_leaves_its_place()
    ensures paragraph { run (at InBody
        (open_at 1 (codes "p") Empty ∷ open_at 0 (codes "body") Empty ∷ []) [] 2)
        (StartTag (codes "ul") [] false ∷ []) ≡ Some (at InBody (open_at 2 (codes "ul") Empty
        ∷ open_at 0 (codes "body") (Element (codes "p") [] Empty Empty) ∷ []) [] 3) }
    ensures paragraph_around { run (at InBody
        (open_at 2 (codes "del") Empty ∷ open_at 1 (codes "p") Empty
        ∷ open_at 0 (codes "body") Empty ∷ []) [] 3) (StartTag (codes "ul") [] false ∷ [])
        ≡ Some (at InBody (open_at 3 (codes "ul") Empty ∷ open_at 0 (codes "body")
        (Element (codes "p") [] (Element (codes "del") [] Empty Empty) Empty) ∷ []) [] 4) }
    ensures items { run (at InBody
        (open_at 1 (codes "ul") Empty ∷ open_at 0 (codes "li") Empty ∷ []) [] 2)
        (StartTag (codes "li") [] false ∷ []) ≡ Some (at InBody (open_at 2 (codes "li") Empty
        ∷ open_at 1 (codes "ul") Empty ∷ open_at 0 (codes "li") Empty ∷ []) [] 3) }
    ensures cell_in_div { run (at InBody
        (open_at 1 (codes "div") Empty ∷ open_at 0 (codes "body") Empty ∷ []) [] 2)
        (EndTag (codes "td") ∷ [])
        ≡ Some (at InBody
        (open_at 1 (codes "div") Empty ∷ open_at 0 (codes "body") Empty ∷ []) [] 2) }
    ensures nested { run (at InBody (open_at 0 (codes "div") Empty ∷ []) [] 1)
        (StartTag (codes "a") [] false ∷ StartTag (codes "a") [] false ∷ []) ≡ None }
{}

/// Single documents: for an empty input, a character and a head, a root with its head and its body
/// is built; white space before the head is ignored, and inside and after it stays in place; what
/// comes after the body's end tag and after the root's goes into the body; a character in a title
/// is no tag.
pub fn what_documents_hold()
    ensures nothing { document_of (EndOfFile ∷ []) ≡ Some (record {
      doctype = None;
      root = Element (codes "html") []
          (Element (codes "head") [] Empty (Element (codes "body") [] Empty Empty)) Empty;
    }) }
    ensures character { document_of (Character 97 ∷ EndOfFile ∷ []) ≡ Some (record {
      doctype = None;
      root = Element (codes "html") [] (Element (codes "head") [] Empty
          (Element (codes "body") [] (Text (codes "a") Empty) Empty)) Empty;
    }) }
    ensures head_alone { document_of (plain_tag (codes "head")
        ∷ EndTag (codes "head") ∷ EndOfFile ∷ [])
        ≡ Some (record {
          doctype = None;
          root = Element (codes "html") [] (Element (codes "head") [] Empty
              (Element (codes "body") [] Empty Empty)) Empty;
        }) }
    ensures around_the_head { document_of (Character 10 ∷ Doctype (codes "html") ∷ Character 10
        ∷ plain_tag (codes "html") ∷ Character 10 ∷ plain_tag (codes "head") ∷ Character 10
        ∷ plain_tag (codes "title") ∷ Character 60 ∷ Character 10
        ∷ EndTag (codes "title") ∷ Character 32
        ∷ EndTag (codes "head") ∷ Character 9 ∷ plain_tag (codes "body") ∷ EndOfFile ∷ [])
        ≡ Some (record {
          doctype = Some (codes "html");
          root = Element (codes "html") [] (Element (codes "head") [] (Text (codes "\n")
              (Element (codes "title") [] (Text (codes "<\n") Empty) (Text (codes " ") Empty)))
              (Text (codes "\t") (Element (codes "body") [] Empty Empty))) Empty;
        }) }
    ensures after_the_body { document_of (plain_tag (codes "body") ∷ Character 97
        ∷ EndTag (codes "body") ∷ Character 10
        ∷ EndTag (codes "html") ∷ Character 10 ∷ Character 98 ∷ EndOfFile ∷ []) ≡ Some (record {
          doctype = None;
          root = Element (codes "html") [] (Element (codes "head") [] Empty
              (Element (codes "body") [] (Text (codes "a\n\nb") Empty) Empty)) Empty;
        }) }
{}
