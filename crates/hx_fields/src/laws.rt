//! What the definitions give on values that can be judged by eye.
ghost use Rattle.std.specs.Prelude.{◌≡◌, ◌∷◌, [], codes, Some, None};
ghost use Rattle.hx_fields.specs.FieldLines.{members_of, combined_of, only_value};
ghost use Rattle.hx_fields.specs.Names.{split_at_first_byte};
ghost use Rattle.hx_fields.specs.Examples.{line};

/// Commas in quotes and behind a backslash in quotes separate nothing; empty members don't count.
pub fn worked_members_are_cut_outside_quotes()
    ensures quoted { members_of (line (codes "vary") (codes "a, \"b, c\" ,, d") ∷ []) (codes "Vary") ≡ codes "a" ∷ codes "\"b, c\"" ∷ codes "d" ∷ [] }
    ensures escaped { members_of (line (codes "x") (codes "\"a\\\", b\", c") ∷ []) (codes "X") ≡ codes "\"a\\\", b\"" ∷ codes "c" ∷ [] }
    ensures by_line { members_of (line (codes "x") (codes "a, \"b") ∷ line (codes "y") (codes "n")
        ∷ line (codes "x") (codes "c\"") ∷ []) (codes "x") ≡ codes "a" ∷ codes "\"b" ∷ codes "c\"" ∷ [] }
{}

/// Several lines of a name are one value.
pub fn worked_combined_values()
    ensures two { combined_of (line (codes "Accept-Language") (codes "de") ∷ line (codes "accept-language") (codes "en")
        ∷ []) (codes "Accept-Language") ≡ Some (codes "de, en") }
    ensures absent { combined_of (line (codes "Accept") (codes "de") ∷ []) (codes "Accept-Language") ≡ None }
    ensures empty { combined_of (line (codes "Accept-Language") [] ∷ []) (codes "Accept-Language") ≡ Some [] }
{}

/// A name has an only value where exactly one line has it.
pub fn worked_only_values()
    ensures one { only_value (line (codes "etag") (codes "\"a\"") ∷ line (codes "Date") [] ∷ []) (codes "ETag") ≡ Some (codes "\"a\"") }
    ensures two { only_value (line (codes "ETag") (codes "\"a\"") ∷ line (codes "etag") (codes "\"b\"") ∷ []) (codes "ETag") ≡ None }
    ensures absent { only_value (line (codes "Date") [] ∷ []) (codes "ETag") ≡ None }
{}

/// A text is cut at the first of the bytes that are looked for.
pub fn worked_cuts_at_a_byte()
    ensures first { split_at_first_byte 58 (codes "a:b:c") ≡ Some (codes "a", codes "b:c") }
    ensures alone { split_at_first_byte 58 (codes ":") ≡ Some ([], []) }
    ensures absent { split_at_first_byte 58 (codes "abc") ≡ None }
{}
