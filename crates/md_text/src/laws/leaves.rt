//! Computed values of the rules of texts, for each byte and at each place, as contracts of
//! functions that do nothing. They state the rules a second time, independently of the definitions.

ghost use Rattle.std.specs.Prelude.{◌≡◌, ◌∷◌, [], ◌++◌, true, false, Some, None, codes};
ghost use Rattle.std.specs.List.{range_with_len};
ghost use Rattle.std.specs.Option.{is_none};
ghost use Rattle.std.specs.Str.{bytes_eq};
ghost use Rattle.md_base.specs.Leaves.{bytes_where};
ghost use Rattle.md_text.specs.Bytes.{is_letter, lowered};
ghost use Rattle.md_text.specs.Encode.{encoded, encoded_character};
ghost use Rattle.md_text.specs.Filter.{tag_filtered};
ghost use Rattle.md_text.specs.Laws.{kept_between, changed};
ghost use Rattle.md_text.specs.LineEnding.{ending_text};
ghost use Rattle.md_text.specs.Url.{normalized_url, protocol_of, sanitized};
ghost use Rattle.md_text.specs.declared.line_ending.LineEnding.TheVariants as ending;

/// The text of each line ending.
pub fn endings_are_as_written()
    ensures both { ending_text ending.CarriageReturnLineFeed ≡ 13 ∷ 10 ∷ [] }
    ensures carriage_return { ending_text ending.CarriageReturn ≡ 13 ∷ [] }
    ensures line_feed { ending_text ending.LineFeed ≡ 10 ∷ [] }
{}

/// The bytes that are letters, and the letters lowered.
pub fn letters_are_as_written()
    ensures letters { bytes_where is_letter
        ≡ codes "ABCDEFGHIJKLMNOPQRSTUVWXYZabcdefghijklmnopqrstuvwxyz" }
    ensures lower { lowered (codes "ABCDEFGHIJKLMNOPQRSTUVWXYZ")
        ≡ codes "abcdefghijklmnopqrstuvwxyz" }
    ensures others_stay { changed lowered ≡ codes "ABCDEFGHIJKLMNOPQRSTUVWXYZ" }
{}

/// The bytes that are escaped, and their replacements, with HTML escaped and without.
pub fn escapes_are_as_written()
    ensures html { changed (encoded true) ≡ 0 ∷ codes "\"&<>" }
    ensures html_texts { encoded true (0 ∷ codes "\"&<>")
        ≡ 239 ∷ 191 ∷ 189 ∷ codes "&quot;&amp;&lt;&gt;" }
    ensures text { changed (encoded false) ≡ 0 ∷ [] }
    ensures text_texts { encoded false (0 ∷ codes "\"&<>") ≡ 239 ∷ 191 ∷ 189 ∷ codes "\"&<>" }
    ensures html_character { encoded_character true 0 ≡ 65533 ∷ [] }
    ensures text_character { encoded_character false 0 ≡ 65533 ∷ [] }
{}

/// The bytes that stay in a URL, alone and after a `%`, and the replacements of the others.
pub fn urls_are_as_written()
    ensures stay { kept_between normalized_url [] [] ≡ codes "!#$&'()*+,-./0123456789:;=?@"
        ++ codes "ABCDEFGHIJKLMNOPQRSTUVWXYZ_abcdefghijklmnopqrstuvwxyz~" }
    ensures first_digit { kept_between normalized_url (codes "%") (codes "0")
        ≡ codes "0123456789ABCDEFabcdef" }
    ensures second_digit { kept_between normalized_url (codes "%0") []
        ≡ codes "0123456789ABCDEFabcdef" }
    ensures others { normalized_url (0 ∷ 9 ∷ 31 ∷ codes " \"%<>[\\]^`{|}"
        ++ range_with_len 127 2 ++ 160 ∷ 255 ∷ [])
        ≡ codes "%00%09%1F%20%22%25%3C%3E%5B%5C%5D%5E%60%7B%7C%7D%7F%80%A0%FF" }
    ensures ended { normalized_url (codes "%4") ≡ codes "%254" }
    ensures escaped { sanitized (codes "&amp;'") ≡ codes "&amp;amp;'" }
{}

/// The bytes that stop the search for a protocol's colon, and where a protocol ends.
pub fn protocols_end_as_written()
    ensures stops { bytes_where (λ b. is_none (protocol_of (97 ∷ b ∷ codes ":c"))) ≡ codes "#/?" }
    ensures first_colon { protocol_of (codes "a:b:c") ≡ Some (codes "a") }
    ensures nothing_before { protocol_of (codes ":a") ≡ Some [] }
    ensures no_colon { protocol_of (codes "a") ≡ None }
    ensures stop_after { protocol_of (codes "a:/?#") ≡ Some (codes "a") }
{}

/// The bytes that end a tag's name, which the end of a text ends too, and the bytes that may
/// precede a name.
pub fn filtered_tags_are_as_written()
    ensures ends { bytes_where (λ b.
        bytes_eq (tag_filtered (codes "<xmp" ++ b ∷ [])) (codes "&lt;xmp" ++ b ∷ []))
        ≡ 9 ∷ 10 ∷ 12 ∷ 13 ∷ codes " />" }
    ensures end_of_text { tag_filtered (codes "<xmp") ≡ codes "&lt;xmp" }
    ensures closing { tag_filtered (codes "</xmp>") ≡ codes "&lt;/xmp>" }
    ensures upper_case { tag_filtered (codes "<XmP>") ≡ codes "&lt;XmP>" }
    ensures two_slashes { tag_filtered (codes "<//xmp>") ≡ codes "<//xmp>" }
    ensures space_before { tag_filtered (codes "< xmp>") ≡ codes "< xmp>" }
    ensures longer_name { tag_filtered (codes "<xmpa>") ≡ codes "<xmpa>" }
    ensures shorter_name { tag_filtered (codes "<xm>") ≡ codes "<xm>" }
    ensures other_bytes { tag_filtered (codes "xmp>&<xmp>") ≡ codes "xmp>&&lt;xmp>" }
{}
