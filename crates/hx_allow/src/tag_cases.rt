//! Which responses name a tag, and which tags a request to purge may ask for: each function's contract is a law or
//! worked cases, and its body is empty.
ghost use Rattle.std.specs.Prelude.{Decides, ◌≡◌, ◌⊎◌, ◌<◌, ◌∷◌, ◌++◌, [], List, ℕ, true, false, None, Some, codes};
ghost use Rattle.std.specs.Prelude.{length};
ghost use Rattle.std.specs.List.{Contains};
ghost use Rattle.hx_fields.specs.Line.{Field};
ghost use Rattle.hx_fields.specs.Examples.{line};
ghost use Rattle.hx_allow.specs.Examples.{seven_tags_and_a_comma};
ghost use Rattle.hx_allow.specs.Tags.{is_cache_tag, response_names_tag, is_purged_by_tag_if_any, purge_tag_or_none};
ghost use Rattle.hx_allow.specs.Tags.{cache_tags_of};

/// A response names what its tags are, and each tag where it has more than 64. A purge without a tag is for each.
pub fn a_purge_tag_matches_listed_or_over_64_tags()
    ensures named { (tag : List ℕ) (fields : List Field) → Decides (response_names_tag tag fields)
        ((64 < length (cache_tags_of fields)) ⊎ Contains (cache_tags_of fields) tag) }
    ensures each { (fields : List Field) → is_purged_by_tag_if_any None fields ≡ true }
{}

/// Which responses name `news`: names compare byte for byte, over all lines, behind blanks and empty members.
pub fn worked_tags_of_responses()
    ensures alone { response_names_tag (codes "news") (line (codes "Cache-Tag") (codes "news") ∷ []) ≡ true }
    ensures any_case_of_the_name { response_names_tag (codes "news") (line (codes "cache-tag") (codes "news") ∷ []) ≡ true }
    ensures listed { response_names_tag (codes "news") (line (codes "Cache-Tag") (codes "sport , ,news") ∷ []) ≡ true }
    ensures in_a_later_line { response_names_tag (codes "news") (line (codes "Cache-Tag") (codes "sport") ∷ line (codes "Age")
        (codes "1") ∷ line (codes "Cache-Tag") (codes "news") ∷ []) ≡ true }
    ensures in_capitals { response_names_tag (codes "news") (line (codes "Cache-Tag") (codes "News") ∷ []) ≡ false }
    ensures longer { response_names_tag (codes "news") (line (codes "Cache-Tag") (codes "news-1, old-news") ∷ []) ≡ false }
    ensures another_field { response_names_tag (codes "news") (line (codes "Cache-Tags") (codes "news") ∷ []) ≡ false }
    ensures none { response_names_tag (codes "news") [] ≡ false }
    ensures sixty_four { response_names_tag (codes "news") (line (codes "Cache-Tag") (seven_tags_and_a_comma
        ++ seven_tags_and_a_comma
        ++ seven_tags_and_a_comma ++ seven_tags_and_a_comma ++ seven_tags_and_a_comma ++ seven_tags_and_a_comma
        ++ seven_tags_and_a_comma ++ seven_tags_and_a_comma ++ seven_tags_and_a_comma ++ codes "b") ∷ []) ≡ false }
    ensures the_sixty_fourth { response_names_tag (codes "b") (line (codes "Cache-Tag") (seven_tags_and_a_comma
        ++ seven_tags_and_a_comma
        ++ seven_tags_and_a_comma ++ seven_tags_and_a_comma ++ seven_tags_and_a_comma ++ seven_tags_and_a_comma
        ++ seven_tags_and_a_comma ++ seven_tags_and_a_comma ++ seven_tags_and_a_comma ++ codes "b") ∷ []) ≡ true }
    ensures sixty_five { response_names_tag (codes "news") (line (codes "Cache-Tag") (seven_tags_and_a_comma
        ++ seven_tags_and_a_comma
        ++ seven_tags_and_a_comma ++ seven_tags_and_a_comma ++ seven_tags_and_a_comma ++ seven_tags_and_a_comma
        ++ seven_tags_and_a_comma ++ seven_tags_and_a_comma ++ seven_tags_and_a_comma ++ codes "b")
        ∷ line (codes "Cache-Tag") (codes "b") ∷ []) ≡ true }
{}

/// Which texts are tags, and for which a request asks.
pub fn worked_tags_of_requests()
    ensures a_word { is_cache_tag (codes "news") ≡ true }
    ensures a_colon { is_cache_tag (codes "product:17") ≡ true }
    ensures empty { is_cache_tag [] ≡ false }
    ensures a_comma { is_cache_tag (codes "a,b") ≡ false }
    ensures a_blank { is_cache_tag (codes "a b") ≡ false }
    ensures a_tab { is_cache_tag (97 ∷ 9 ∷ []) ≡ false }
    ensures asked { purge_tag_or_none (line (codes "Purge-Tag") (codes "news") ∷ []) ≡ Some (codes "news") }
    ensures by_two_lines { purge_tag_or_none (line (codes "Purge-Tag") (codes "a") ∷ line (codes "purge-tag") (codes "b") ∷ [])
        ≡ None }
    ensures by_none { purge_tag_or_none (line (codes "Purge-Key") (codes "news") ∷ []) ≡ None }
{}
