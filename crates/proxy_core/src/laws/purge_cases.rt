//! What a purge takes: each function's contract is a law or worked cases, and its body is empty.

ghost use Rattle.std.specs.Prelude.{◌≡◌, ◌==◌, ◌&&◌, ◌∷◌, ◌++◌, [], ℕ, List, Some, true, false, not, codes};
ghost use Rattle.std.specs.List.{filter, list_any};
ghost use Rattle.hx_fields.specs.Examples.{line};
ghost use Rattle.hx_fields.specs.FieldLines.{has_field, values_of};
ghost use Rattle.hx_hop.specs.declared.request_view.Asked.{Asked};
ghost use Rattle.hx_allow.specs.Examples.{seven_tags_and_a_comma};
ghost use Rattle.hx_allow.specs.Tags.{response_names_tag, purge_tag_or_none};
ghost use Rattle.hx_store.specs.Found.{SerialsNeverDescend};
ghost use Rattle.hx_store.specs.Serials.{serial_is_in, SerialsAreDistinct};
ghost use Rattle.hx_store.specs.Shelf.{serials, serials_of_key, without_serials};
ghost use Rattle.hx_store.specs.Stored.{Stored};
ghost use Rattle.proxy_core.specs.Cases.{stored_from_first_answer, get_a_with, key_of_path, post_exchange};
ghost use Rattle.proxy_core.specs.Cases.{stored_with_tags};
ghost use Rattle.proxy_core.specs.Cases.{table, four_entries_with_and_without_tags};
ghost use Rattle.proxy_core.specs.Outcomes.{outcome_of_purge};
ghost use Rattle.proxy_core.specs.Scopes.{is_purged_by_request, serials_purged_by_request};
ghost use Rattle.proxy_core.specs.State.{open_exchanges_after_event};
ghost use Rattle.proxy_core.specs.declared.event.Event.TheVariants.{Arrive};

/// A request that purges takes the serial of each held response within its scope that names its tag, where it has one,
/// and no other, ascending; without those exactly the others stay. Without a scope and a tag it takes what is held for
/// its target; with a tag alone all that names it.
pub fn a_purge_selects_what_is_within_its_scope()
    ensures those { (asked : Asked) (s : ℕ) (es : List Stored) → serial_is_in s (serials_purged_by_request asked es)
        ≡ list_any (λ e. is_purged_by_request asked e && (e.serial == s)) es }
    ensures ascending { (asked : Asked) (es : List Stored) → SerialsNeverDescend (serials_purged_by_request asked es) }
    ensures others { (asked : Asked) (es : List Stored) → SerialsAreDistinct (serials es)
        → without_serials (serials_purged_by_request asked es) es
        ≡ filter (λ e. not (is_purged_by_request asked e)) es }
    ensures its_target { (asked : Asked) (es : List Stored) → values_of asked.fields (codes "Purge-Scope") ≡ []
        → has_field asked.fields (codes "Purge-Tag") ≡ false
        → serials_purged_by_request asked es ≡ serials_of_key asked.target.key es }
    ensures its_tag { (asked : Asked) (tag : List ℕ) (e : Stored)
        → values_of asked.fields (codes "Purge-Scope") ≡ [] → purge_tag_or_none asked.fields ≡ Some tag
        → is_purged_by_request asked e ≡ response_names_tag tag e.fields }
{}

/// What goes where `/a` is purged, of what is held for `/ab`, `/a/b` and `/a`, and for `/c` on another port and host;
/// and whose answers aren't stored then.
pub fn worked_purge_scopes()
    ensures target { serials_purged_by_request (get_a_with [])
        (record stored_from_first_answer { serial = 3; key = key_of_path (codes "/ab") }
        ∷ record stored_from_first_answer { serial = 2; key = key_of_path (codes "/a/b") } ∷ stored_from_first_answer
        ∷ []) ≡ 1 ∷ [] }
    ensures prefix { serials_purged_by_request (get_a_with (line (codes "Purge-Scope") (codes "prefix") ∷ []))
        (record stored_from_first_answer { serial = 3; key = key_of_path (codes "/ab") }
        ∷ record stored_from_first_answer { serial = 2; key = key_of_path (codes "/a/b") } ∷ stored_from_first_answer
        ∷ []) ≡ 1 ∷ 2 ∷ [] }
    ensures host { serials_purged_by_request (get_a_with (line (codes "Purge-Scope") (codes "host") ∷ []))
        (record stored_from_first_answer { serial = 4; key = record (key_of_path (codes "/c")) { host = codes "g" } }
        ∷ record stored_from_first_answer { serial = 3; key = record (key_of_path (codes "/c")) { port = 81 } }
        ∷ stored_from_first_answer ∷ [])
        ≡ 1 ∷ 3 ∷ [] }
    ensures all { serials_purged_by_request (get_a_with (line (codes "Purge-Scope") (codes "all") ∷ []))
        (record stored_from_first_answer { serial = 4; key = record (key_of_path (codes "/c")) { host = codes "g" } }
        ∷ record stored_from_first_answer { serial = 3; key = record (key_of_path (codes "/c")) { port = 81 } }
        ∷ stored_from_first_answer ∷ [])
        ≡ 1 ∷ 3 ∷ 4 ∷ [] }
    ensures overtaken { open_exchanges_after_event table [] (record (post_exchange 1 (codes "/a/b")) { overtaken = false }
        ∷ post_exchange 2 (codes "/ab") ∷ [])
        (Arrive 130 3 (get_a_with (line (codes "Purge-Scope") (codes "prefix") ∷ [])))
        (outcome_of_purge [] 130 (get_a_with (line (codes "Purge-Scope") (codes "prefix") ∷ [])))
        ≡ record (post_exchange 1 (codes "/a/b")) { overtaken = true } ∷ post_exchange 2 (codes "/ab") ∷ [] }
{}

/// What goes where the tag `news` is purged, alone and of a host; and whose answers aren't stored then. A response with
/// more than 64 tags goes by each tag, one with 64 by those alone.
pub fn worked_purges_with_a_tag()
    ensures tag { serials_purged_by_request (get_a_with (line (codes "Purge-Tag") (codes "news")
        ∷ [])) four_entries_with_and_without_tags ≡ 1 ∷ 4 ∷ [] }
    ensures another_tag { serials_purged_by_request (get_a_with (line (codes "Purge-Tag") (codes "New")
        ∷ [])) four_entries_with_and_without_tags ≡ [] }
    ensures of_a_host { serials_purged_by_request (get_a_with (line (codes "Purge-Scope") (codes "host")
        ∷ line (codes "purge-tag") (codes "news") ∷ [])) four_entries_with_and_without_tags ≡ 1 ∷ [] }
    ensures of_all { serials_purged_by_request (get_a_with (line (codes "Purge-Tag") (codes "news")
        ∷ line (codes "Purge-Scope") (codes "all") ∷ [])) four_entries_with_and_without_tags ≡ 1 ∷ 4 ∷ [] }
    ensures of_a_prefix { serials_purged_by_request (get_a_with (line (codes "Purge-Scope") (codes "prefix")
        ∷ line (codes "Purge-Tag") (codes "sport") ∷ [])) four_entries_with_and_without_tags ≡ 3 ∷ [] }
    ensures more_than_64 { serials_purged_by_request (get_a_with (line (codes "Purge-Tag") (codes "news") ∷ []))
        (stored_with_tags 2 (seven_tags_and_a_comma ++ seven_tags_and_a_comma ++ seven_tags_and_a_comma
        ++ seven_tags_and_a_comma ++ seven_tags_and_a_comma ++ seven_tags_and_a_comma ++ seven_tags_and_a_comma
        ++ seven_tags_and_a_comma ++ seven_tags_and_a_comma ++ codes "b")
        ∷ stored_with_tags 1 (seven_tags_and_a_comma ++ seven_tags_and_a_comma ++ seven_tags_and_a_comma
        ++ seven_tags_and_a_comma ++ seven_tags_and_a_comma ++ seven_tags_and_a_comma ++ seven_tags_and_a_comma
        ++ seven_tags_and_a_comma ++ seven_tags_and_a_comma ++ codes "b,c") ∷ []) ≡ 1 ∷ [] }
    ensures overtaken { open_exchanges_after_event table []
        (post_exchange 1 (codes "/a/b") ∷ post_exchange 2 (codes "/ab") ∷ [])
        (Arrive 130 3 (get_a_with (line (codes "Purge-Tag") (codes "news") ∷ [])))
        (outcome_of_purge [] 130 (get_a_with (line (codes "Purge-Tag") (codes "news") ∷ [])))
        ≡ record (post_exchange 1 (codes "/a/b")) { overtaken = true }
        ∷ record (post_exchange 2 (codes "/ab")) { overtaken = true } ∷ [] }
    ensures overtaken_below { open_exchanges_after_event table []
        (post_exchange 1 (codes "/a/b") ∷ post_exchange 2 (codes "/ab") ∷ [])
        (Arrive 130 3 (get_a_with (line (codes "Purge-Scope") (codes "prefix")
        ∷ line (codes "Purge-Tag") (codes "news") ∷ [])))
        (outcome_of_purge [] 130 (get_a_with (line (codes "Purge-Scope") (codes "prefix")
        ∷ line (codes "Purge-Tag") (codes "news") ∷ [])))
        ≡ record (post_exchange 1 (codes "/a/b")) { overtaken = true } ∷ post_exchange 2 (codes "/ab") ∷ [] }
{}
