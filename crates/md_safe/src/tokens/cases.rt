//! Single texts, and the results of the definitions for them.

ghost use Rattle.std.specs.Prelude.{◌≡◌, [], ◌∷◌, ◌++◌, Some, None, false, true, map, codes};
ghost use Rattle.md_text.specs.References.{is_escaped};
ghost use Rattle.md_text.specs.Safe.{is_safe_value};
ghost use Rattle.md_text.specs.Url.{link_protocols, image_protocols};
ghost use Rattle.md_safe.specs.Scheme.{scheme_of, has_permitted_scheme};
ghost use Rattle.md_safe.specs.Input.{with_line_feeds};
ghost use Rattle.md_safe.specs.Token.{Doctype, Character, StartTag, EndTag, EndOfFile};
ghost use Rattle.md_safe.specs.TokenizerStates.{Data};
ghost use Rattle.md_safe.specs.Tokenizer.{run};

/// CR LF is one line feed, and so is each other CR.
pub fn line_ends()
    ensures { run 50 Data (with_line_feeds (codes "a\r\n\r\rb"))
        ≡ Some (map Character (codes "a\n\n\nb") ++ EndOfFile ∷ []) }
{}

/// Letters of names are lowered: in tags, attributes and end tags.
pub fn names_are_lowered()
    ensures start { run 50 Data (codes "<A Id=\"X\">")
        ≡ Some (StartTag (codes "a") (record { name = codes "id"; value = codes "X" } ∷ []) false
        ∷ EndOfFile ∷ []) }
    ensures end { run 50 Data (codes "</dEl>") ≡ Some (EndTag (codes "del") ∷ EndOfFile ∷ []) }
{}

/// The first attribute with a name stays, and later ones are dropped; a value may be omitted.
pub fn attributes_are_kept_once()
    ensures { run 50 Data (codes "<a id=\"1\" ID=\"2\" href>") ≡ Some (StartTag (codes "a")
        (record { name = codes "id"; value = codes "1" }
        ∷ record { name = codes "href"; value = [] } ∷ [])
        false ∷ EndOfFile ∷ []) }
{}

/// Only a double quote ends a value in double quotes.
pub fn quoted_values()
    ensures { run 50 Data (codes "<a id=\"'<b>/ =`\">")
        ≡ Some (StartTag (codes "a")
        (record { name = codes "id"; value = codes "'<b>/ =`" } ∷ []) false
        ∷ EndOfFile ∷ []) }
{}

/// A reference is read once, in a text and in a value; one without its `;` isn't written out.
pub fn references_are_read()
    ensures text { run 50 Data (codes "&amp;lt;&quot;")
        ≡ Some (map Character (codes "&lt;\"") ++ EndOfFile ∷ []) }
    ensures value { run 50 Data (codes "<a id=\"&gt;&amp;\">")
        ≡ Some (StartTag (codes "a") (record { name = codes "id"; value = codes ">&" } ∷ []) false
        ∷ EndOfFile ∷ []) }
    ensures begun { run 50 Data (codes "&amp") ≡ None }
    ensures unended { run 50 Data (codes "&amplt;") ≡ None }
    ensures alone { run 50 Data (codes "& &")
        ≡ Some (map Character (codes "& &") ++ EndOfFile ∷ []) }
{}

/// The self-closing flag is that of the `/` directly before the `>`.
pub fn self_closing_flags()
    ensures closed { run 50 Data (codes "<br />")
        ≡ Some (StartTag (codes "br") [] true ∷ EndOfFile ∷ []) }
    ensures open { run 50 Data (codes "<br / >")
        ≡ Some (StartTag (codes "br") [] false ∷ EndOfFile ∷ []) }
{}

/// NUL stays in a text, and is U+FFFD in a value.
pub fn nul()
    ensures text { run 50 Data (0 ∷ []) ≡ Some (Character 0 ∷ EndOfFile ∷ []) }
    ensures value { run 50 Data (codes "<a id=\"" ++ (0 ∷ codes "\">"))
        ≡ Some (StartTag (codes "a")
        (record { name = codes "id"; value = 239 ∷ 191 ∷ 189 ∷ [] } ∷ []) false
        ∷ EndOfFile ∷ []) }
{}

/// A `<` that no letter follows is a character, and a tag that is incomplete at the end of the text
/// is no token.
pub fn broken_tags()
    ensures { run 50 Data (codes "<1</a ><b")
        ≡ Some (Character 60 ∷ Character 49 ∷ EndTag (codes "a") ∷ EndOfFile ∷ []) }
{}

/// In a title only its own end tag is a tag.
pub fn titles()
    ensures { run 50 Data (codes "<title></b>&lt;</TITLE >")
        ≡ Some (StartTag (codes "title") [] false
        ∷ map Character (codes "</b><") ++ EndTag (codes "title") ∷ EndOfFile ∷ []) }
{}

/// A doctype's name is lowered.
pub fn doctypes()
    ensures { run 50 Data (codes "<!DocType HTML>")
        ≡ Some (Doctype (codes "html") ∷ EndOfFile ∷ []) }
{}

/// For transitions that aren't written out, nothing is claimed.
pub fn stuck_texts()
    ensures comments { run 50 Data (codes "<!-- -->") ≡ None }
    ensures scripts { run 50 Data (codes "<script>1</script>") ≡ None }
    ensures foreign { run 50 Data (codes "<svg>") ≡ None }
    ensures templates { run 50 Data (codes "<template>") ≡ None }
    ensures numeric { run 50 Data (codes "&#58;") ≡ None }
    ensures unquoted { run 50 Data (codes "<a href=x>") ≡ None }
{}

/// Spaces, controls, tabs and line ends hide no scheme.
pub fn hidden_schemes()
    ensures found { scheme_of (codes " \rJava\tscript\n:x") ≡ Some (codes "javascript") }
    ensures refused { has_permitted_scheme link_protocols (codes " \rJava\tscript\n:x") ≡ false }
    ensures upper { has_permitted_scheme link_protocols (codes "MailTo:x") ≡ true }
    ensures image { has_permitted_scheme image_protocols (codes "mailto:x") ≡ false }
    ensures none { scheme_of (codes "/a:b") ≡ None }
    ensures digit { scheme_of (codes "1a:b") ≡ None }
{}

/// The grammar's test of a link requires escaped values: alone it accepts this one, in which a
/// browser reads a colon.
pub fn escaping_is_needed()
    ensures passes { is_safe_value link_protocols (codes "javascript&#58;x") ≡ true }
    ensures not_escaped { is_escaped (codes "javascript&#58;x") ≡ false }
{}
