//! What a purge does with what it takes, and by which of its lines: each function's contract is a law or worked cases,
//! and its body is empty.
ghost use Rattle.std.specs.Prelude.{Decides, ◌≡◌, ◌∷◌, [], List, true, false, not, None, Some, codes, is_some};
ghost use Rattle.hx_fields.specs.Line.{Field};
ghost use Rattle.hx_fields.specs.Examples.{line};
ghost use Rattle.hx_fields.specs.FieldLines.{has_field, values_of};
ghost use Rattle.hx_allow.specs.PurgeModes.{purge_mode_of_request, request_purge_mode_or_remove};
ghost use Rattle.hx_allow.specs.PurgeModes.{PurgeModeIsAbsentOrStale};
ghost use Rattle.hx_allow.specs.Purges.{has_invalid_purge_field, purge_scope_of_fields};
ghost use Rattle.hx_allow.specs.Scopes.{EachPurgeFieldIsKnownAndValid};
ghost use Rattle.hx_allow.specs.Tags.{purge_tag_of_request};
ghost use Rattle.hx_allow.specs.declared.purge_modes.PurgeMode.TheVariants.{Remove, Stale};

/// A purge leaves what it takes, as stale, exactly where its one line of Purge-Mode says `stale`. Without such a line
/// it removes it, and with any other lines it asks for what isn't known.
pub fn a_purge_expires_where_its_mode_says_stale()
    ensures stale { (fields : List Field) → values_of fields (codes "Purge-Mode") ≡ codes "stale" ∷ []
        → request_purge_mode_or_remove fields ≡ Stale }
    ensures nothing_else { (fields : List Field) → request_purge_mode_or_remove fields ≡ Stale
        → values_of fields (codes "Purge-Mode") ≡ codes "stale" ∷ [] }
    ensures without { (fields : List Field) → values_of fields (codes "Purge-Mode") ≡ []
        → purge_mode_of_request fields ≡ Some Remove }
    ensures known { (fields : List Field) → Decides (is_some (purge_mode_of_request fields))
        (PurgeModeIsAbsentOrStale (values_of fields (codes "Purge-Mode"))) }
{}

/// A request asks for nothing that isn't known exactly where each of its orders is known. Scope, tag and mode are read
/// each of its own lines; the tag's widen the scope where none is named.
pub fn purge_is_known_where_each_order_is()
    ensures known { (fields : List Field)
        → Decides (not (has_invalid_purge_field fields)) (EachPurgeFieldIsKnownAndValid fields) }
    ensures mode { (fields : List Field) (other : List Field)
        → values_of fields (codes "Purge-Mode") ≡ values_of other (codes "Purge-Mode")
        → purge_mode_of_request fields ≡ purge_mode_of_request other }
    ensures tag { (fields : List Field) (other : List Field)
        → values_of fields (codes "Purge-Tag") ≡ values_of other (codes "Purge-Tag")
        → purge_tag_of_request fields ≡ purge_tag_of_request other }
    ensures scope { (fields : List Field) (other : List Field)
        → values_of fields (codes "Purge-Scope") ≡ values_of other (codes "Purge-Scope")
        → has_field fields (codes "Purge-Tag") ≡ has_field other (codes "Purge-Tag")
        → purge_scope_of_fields fields ≡ purge_scope_of_fields other }
{}

/// The words of Purge-Mode: one alone is known, byte for byte.
pub fn worked_modes_of_purges()
    ensures by_default { request_purge_mode_or_remove [] ≡ Remove }
    ensures of_other_lines { request_purge_mode_or_remove (line (codes "Purge-Tag") (codes "stale")
        ∷ line (codes "Purge-Scope") (codes "all") ∷ []) ≡ Remove }
    ensures stale { request_purge_mode_or_remove (line (codes "Purge-Mode") (codes "stale") ∷ []) ≡ Stale }
    ensures any_case_of_the_name { request_purge_mode_or_remove (line (codes "purge-mode") (codes "stale") ∷ []) ≡ Stale }
    ensures beside_a_scope_and_a_tag { request_purge_mode_or_remove (line (codes "Purge-Scope") (codes "host")
        ∷ line (codes "Purge-Tag") (codes "news") ∷ line (codes "Purge-Mode") (codes "stale") ∷ []) ≡ Stale }
    ensures asks_for_no_more { has_invalid_purge_field (line (codes "Purge-Mode") (codes "stale") ∷ []) ≡ false }
    ensures beside_an_unknown_scope { has_invalid_purge_field (line (codes "Purge-Scope") (codes "site")
        ∷ line (codes "Purge-Mode") (codes "stale") ∷ []) ≡ true }
    ensures beside_two_tags { has_invalid_purge_field (line (codes "Purge-Tag") (codes "a") ∷ line (codes "Purge-Tag") (codes "b")
        ∷ line (codes "Purge-Mode") (codes "stale") ∷ []) ≡ true }
    ensures in_capitals { purge_mode_of_request (line (codes "Purge-Mode") (codes "Stale") ∷ []) ≡ None }
    ensures in_quotes { purge_mode_of_request (line (codes "Purge-Mode") (codes "\"stale\"") ∷ []) ≡ None }
    ensures another { purge_mode_of_request (line (codes "Purge-Mode") (codes "remove") ∷ []) ≡ None }
    ensures longer { purge_mode_of_request (line (codes "Purge-Mode") (codes "stale-if-error") ∷ []) ≡ None }
    ensures its_beginning { purge_mode_of_request (line (codes "Purge-Mode") (codes "stal") ∷ []) ≡ None }
    ensures empty { purge_mode_of_request (line (codes "Purge-Mode") [] ∷ []) ≡ None }
    ensures twice { purge_mode_of_request (line (codes "Purge-Mode") (codes "stale") ∷ line (codes "Purge-Mode")
        (codes "stale") ∷ []) ≡ None }
    ensures listed { purge_mode_of_request (line (codes "Purge-Mode") (codes "stale, stale") ∷ []) ≡ None }
    ensures another_asks_for_more { has_invalid_purge_field (line (codes "Purge-Mode") (codes "soft") ∷ []) ≡ true }
    ensures two_ask_for_more { has_invalid_purge_field (line (codes "Purge-Mode") (codes "stale") ∷ line (codes "PURGE-MODE")
        (codes "stale") ∷ []) ≡ true }
    ensures a_longer_name { has_invalid_purge_field (line (codes "Purge-Modes") (codes "stale") ∷ []) ≡ true }
{}
