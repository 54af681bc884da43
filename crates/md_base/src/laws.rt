//! Computed values of the rules of identifiers and of character references, for each byte and at
//! each bound, as contracts of functions that do nothing. They state the rules a second time,
//! independently of the definitions.

ghost use Rattle.std.specs.Prelude.{◌≡◌, ◌∷◌, [], ◌++◌, Some, None, codes, map, drop, replicate};
ghost use Rattle.std.specs.Prelude.{encode_utf8};
ghost use Rattle.std.specs.List.{range_with_len};
ghost use Rattle.std.specs.Option.{is_some};
ghost use Rattle.std.specs.Str.{bytes_eq};
ghost use Rattle.md_base.specs.Identifier.{is_white, collapsed, normalized};
ghost use Rattle.md_base.specs.Leaves.{replacement, in_each_plane, bytes_where, digits_after};
ghost use Rattle.md_base.specs.Reference.{character_of, decoded};

/// The characters that numbers encode: for all codes under 256, on both sides of each higher bound,
/// and at the ends of each plane.
pub fn characters_are_as_written()
    ensures under_256 { map character_of (range_with_len 0 256)
        ≡ replicate 9 replacement ++ map encode_utf8 (9 ∷ 10 ∷ []) ++ replacement
        ∷ map encode_utf8 (12 ∷ 13 ∷ [])
        ++ replicate 18 replacement ++ map encode_utf8 (range_with_len 32 95)
        ++ replicate 33 replacement ++ map encode_utf8 (range_with_len 160 96) }
    ensures surrogates { map character_of (0xD7FF ∷ 0xD800 ∷ 0xDFFF ∷ 0xE000 ∷ [])
        ≡ encode_utf8 0xD7FF ∷ replacement ∷ replacement ∷ encode_utf8 0xE000 ∷ [] }
    ensures noncharacters { map character_of (0xFDCF ∷ 0xFDD0 ∷ 0xFDEF ∷ 0xFDF0 ∷ [])
        ≡ encode_utf8 0xFDCF ∷ replacement ∷ replacement ∷ encode_utf8 0xFDF0 ∷ [] }
    ensures first_of_a_plane { map character_of (in_each_plane 0)
        ≡ replacement ∷ map encode_utf8 (drop 1 (in_each_plane 0)) }
    ensures third_last { map character_of (in_each_plane 0xFFFD)
        ≡ map encode_utf8 (in_each_plane 0xFFFD) }
    ensures second_last { map character_of (in_each_plane 0xFFFE) ≡ replicate 17 replacement }
    ensures last { map character_of (in_each_plane 0xFFFF) ≡ replicate 17 replacement }
    ensures past_the_last { map character_of (0x110000 ∷ 0x110001 ∷ 0xFFFFFFFF ∷ [])
        ≡ replicate 3 replacement }
{}

/// The texts of references, by their markers.
pub fn references_are_as_written()
    ensures markers { bytes_where (λ marker.
        is_some (decoded ((codes "1", codes "a") ∷ []) marker (codes "1")))
        ≡ codes "#&x" }
    ensures decimal_digits { digits_after 35 ≡ codes "0123456789" }
    ensures hexadecimal_digits { digits_after 120 ≡ codes "0123456789ABCDEFabcdef" }
    ensures decimal { decoded [] 35 (codes "065") ≡ Some (codes "A") }
    ensures hexadecimal { decoded [] 120 (codes "04a") ≡ Some (codes "J") }
    ensures no_digits { decoded [] 35 [] ≡ None }
    ensures no_hexadecimal_digits { decoded [] 120 [] ≡ None }
    ensures sign { decoded [] 35 (codes "+65") ≡ None }
    ensures greatest { decoded [] 35 (codes "4294967295") ≡ Some replacement }
    ensures past_the_greatest { decoded [] 35 (codes "4294967296") ≡ None }
    ensures greatest_hexadecimal { decoded [] 120 (codes "ffffffff") ≡ Some replacement }
    ensures past_the_greatest_hexadecimal { decoded [] 120 (codes "100000000") ≡ None }
    ensures first_name { decoded ((codes "a", codes "b") ∷ (codes "a", codes "c") ∷ [])
        38 (codes "a")
        ≡ Some (codes "b") }
    ensures other_name { decoded ((codes "a", codes "b") ∷ []) 38 (codes "A") ≡ None }
{}

/// The bytes that are white space in an identifier, and how it is collapsed.
pub fn white_space_is_as_written()
    ensures white { bytes_where is_white ≡ codes "\t\n\r " }
    ensures runs { bytes_where (λ byte.
        bytes_eq (collapsed (97 ∷ byte ∷ byte ∷ 98 ∷ [])) (codes "a b"))
        ≡ codes "\t\n\r " }
    ensures mixed_runs { collapsed (codes "a\r\nb \t c") ≡ codes "a b c" }
    ensures ends { collapsed (codes " \r\na\n\r\t") ≡ codes "a" }
    ensures nothing_else { collapsed (codes "\n \t\r") ≡ [] }
    ensures folded { normalized (codes " A\tSTRASSE ")
        ≡ normalized (codes "a stra" ++ 195 ∷ 159 ∷ codes "e") }
    ensures lowered { normalized (codes "A B") ≡ codes "a b" }
{}
