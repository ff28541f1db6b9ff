//! What the definitions say of worked calls, computed, and of every list of entries.

ghost use Rattle.std.specs.Prelude.{◌≡◌, ◌<◌, ◌∷◌, ◌++◌, [], ℕ, List, true, false, codes, length, map, take, slice_get};
ghost use Rattle.std.specs.Prelude.{is_some, option_map, IfSome, Some, None, Decides};
ghost use Rattle.hx_fields.specs.Line.{Field};
ghost use Rattle.hx_target.specs.declared.keys.Key.{Key};
ghost use Rattle.hx_age.specs.Age.{times_once_purged};
ghost use Rattle.hx_store.specs.Serials.{serial_is_in};
ghost use Rattle.hx_store.specs.Stored.{Stored};
ghost use Rattle.hx_store.specs.Recency.{StoreChange, Held, IsStoredOrUsedLaterThan};
ghost use Rattle.hx_store.specs.Recency.{SerialIsStoredOrUsedAndNotRemovedSince};
ghost use Rattle.hx_store.specs.Recency.{lru_list_of, held_serials_of};
ghost use Rattle.hx_store.specs.Recency.{count_before_serial, recent_after_change};
ghost use Rattle.hx_store.specs.Recency.{recent_of};
ghost use Rattle.hx_store.specs.Shelf.{find_entry_of_serial, holds_serial, entries_with_promoted, serials};
ghost use Rattle.hx_store.specs.Shelf.{serials_of_key};
ghost use Rattle.hx_store.specs.Shelf.{without_serials};
ghost use Rattle.hx_store.specs.Shelf.{expired_entry, matching_serials, entries_with_serials_expired};
ghost use Rattle.hx_store.specs.Shelf.{entries_without_key};
ghost use Rattle.hx_store.specs.Weights.{total_weight};
ghost use Rattle.hx_store.specs.Found.{FoundSerialsAreThoseOfTheKey, FoundSerialsAscend, FoundSerialsAreThoseThatMatch};
ghost use Rattle.hx_store.specs.Found.{MatchingSerialsAscend, FoundSerialsAreOfEntriesThatPass};
ghost use Rattle.hx_store.specs.Found.{SerialsOfEntriesThatPassAscend};
ghost use Rattle.hx_store.specs.Found.{RemovingFoundEntriesLeavesTheOthers, FindingByKeyTestIsFindingByKey};
ghost use Rattle.hx_store.specs.Cases.{key_of_path, first, entry_of_a_expired_at, second, entry_of_b_expired_at, third};
ghost use Rattle.hx_store.specs.Cases.{fourth};

pub use crate::weight_laws::{
    an_entry_weighs_what_it_keeps, removal_and_use_keep_the_bounds,
    repeated_eviction_ends_within_the_bounds, serials_are_cut_with_their_entries,
    the_longest_prefix_within_its_bounds_stays, weighed_lru_list_equals_held_serials,
    without_byte_bound_the_entry_count_decides, worked_entries_cut_to_bounds, worked_entry_weights,
    worked_evictions_by_weight, worked_serials_held_within_bounds,
};

/// A store of two entries, 2 and 1: entry 3 replaces 2, entry 4 turns 1 out, and 3 is used.
pub fn worked_shelf_calls()
    ensures replaced { take 2 (third ∷ without_serials (2 ∷ []) (second ∷ first ∷ [])) ≡ third ∷ first ∷ [] }
    ensures nothing_back { slice_get (third ∷ without_serials (2 ∷ []) (second ∷ first ∷ [])) 2 ≡ None }
    ensures stored { take 2 (fourth ∷ without_serials [] (third ∷ first ∷ [])) ≡ fourth ∷ third ∷ [] }
    ensures one_back { slice_get (fourth ∷ without_serials [] (third ∷ first ∷ [])) 2 ≡ Some first }
    ensures promoted { entries_with_promoted 3 (fourth ∷ third ∷ []) ≡ third ∷ fourth ∷ [] }
    ensures absent { find_entry_of_serial 9 (third ∷ fourth ∷ []) ≡ None }
    ensures found { serials_of_key (key_of_path (codes "/c")) (fourth ∷ second ∷ third ∷ []) ≡ 3 ∷ 4 ∷ [] }
    ensures invalidated { entries_without_key (key_of_path (codes "/c")) (fourth ∷ second ∷ third ∷ []) ≡ second ∷ [] }
{}

/// Of the entries 2 and 1 the last is expired at 9, and later both at 12: what was expired stays as it is.
pub fn worked_expired_entries()
    ensures one { entries_with_serials_expired (1 ∷ []) 9 (second ∷ first ∷ []) ≡ second ∷ entry_of_a_expired_at 9
        ∷ [] }
    ensures both { entries_with_serials_expired (1 ∷ 2 ∷ []) 12 (second ∷ entry_of_a_expired_at 9 ∷ [])
        ≡ entry_of_b_expired_at 12 ∷ entry_of_a_expired_at 9 ∷ [] }
    ensures no_other { entries_with_serials_expired (3 ∷ []) 12 (second ∷ first ∷ []) ≡ second ∷ first ∷ [] }
{}

/// Expiring changes no entry but those with the serials, and of those nothing but their times. All stay where they are,
/// weigh what they weighed, and are found as before.
pub fn expiring_changes_only_times()
    ensures times { (ended : List ℕ) (now : ℕ) (e : Stored) → serial_is_in e.serial ended ≡ true
        → (expired_entry ended now e).times ≡ times_once_purged e.times now }
    ensures others { (ended : List ℕ) (now : ℕ) (e : Stored) → serial_is_in e.serial ended ≡ false
        → expired_entry ended now e ≡ e }
    ensures nothing_else { (ended : List ℕ) (now : ℕ) (e : Stored)
        → record (expired_entry ended now e) { times = e.times } ≡ e }
    ensures serials { (ended : List ℕ) (now : ℕ) (entries : List Stored)
        → serials (entries_with_serials_expired ended now entries) ≡ serials entries }
    ensures weight { (ended : List ℕ) (now : ℕ) (entries : List Stored)
        → total_weight (entries_with_serials_expired ended now entries) ≡ total_weight entries }
    ensures found { (ended : List ℕ) (now serial : ℕ) (entries : List Stored)
        → find_entry_of_serial serial (entries_with_serials_expired ended now entries)
        ≡ option_map (expired_entry ended now) (find_entry_of_serial serial entries) }
    ensures of_key { (ended : List ℕ) (now : ℕ) (key : Key) (entries : List Stored)
        → serials_of_key key (entries_with_serials_expired ended now entries) ≡ serials_of_key key entries }
    ensures matching { (ended : List ℕ) (now : ℕ) (key : Key) (request : List Field) (entries : List Stored)
        → matching_serials key request (entries_with_serials_expired ended now entries)
        ≡ matching_serials key request entries }
{}

/// The serials are those of all entries, in their order. A serial is held exactly where an entry is found by it, and
/// the entry that is found has it.
pub fn held_serials_are_found()
    ensures serials { (entries : List Stored) → serials entries ≡ map (λ e. e.serial) entries }
    ensures held { (serial : ℕ) (entries : List Stored) → holds_serial serial entries ≡ is_some
        (find_entry_of_serial serial entries) }
    ensures found { (serial : ℕ) (entries : List Stored)
        → IfSome (find_entry_of_serial serial entries) (λ e. e.serial ≡ serial) }
{}

/// What is found of a key is the serial of each entry with that key and no other, ascending.
pub fn found_serials_are_those_of_the_key()
    ensures those { FoundSerialsAreThoseOfTheKey }
    ensures ascending { FoundSerialsAscend }
{}

/// What is found by a test is the serial of each entry that passes and no other, ascending; without those exactly the
/// others stay. A test of the key finds what is found of the key.
pub fn found_serials_are_of_entries_that_pass()
    ensures those { FoundSerialsAreOfEntriesThatPass }
    ensures ascending { SerialsOfEntriesThatPassAscend }
    ensures others { RemovingFoundEntriesLeavesTheOthers }
    ensures of_the_key { FindingByKeyTestIsFindingByKey }
{}

/// What is found of a key for a request is the serial of each entry with that key that nominates what the request has,
/// and no other, ascending.
pub fn found_entries_match_nominated_values()
    ensures those { FoundSerialsAreThoseThatMatch }
    ensures ascending { MatchingSerialsAscend }
{}

/// The place of a serial is how many stand before it, and one that isn't listed has all before it.
pub fn count_before_is_the_position_of_a_serial()
    ensures listed { (serial : ℕ) (before behind : List ℕ) → serial_is_in serial before ≡ false
        → count_before_serial serial (before ++ serial ∷ behind) ≡ length before }
    ensures absent { (serial : ℕ) (all : List ℕ) → serial_is_in serial all ≡ false → count_before_serial serial all
        ≡ length all }
{}

/// A bounded list has exactly what is held by the count over its history, in the order of the latest storing or use.
/// Listed is what was stored or used and not removed since; the held are the front of the listed, and what was crowded
/// out doesn't come back when a removal leaves room.
pub fn lru_list_equals_held_serials()
    ensures listed { (past : List StoreChange) (serial : ℕ) → Decides (serial_is_in serial (recent_of past))
        (SerialIsStoredOrUsedAndNotRemovedSince past serial) }
    ensures ordered { (past : List StoreChange) (a b : ℕ) → serial_is_in a (recent_of past) ≡ true
        → IsStoredOrUsedLaterThan past a b
        → count_before_serial a (recent_of past) < count_before_serial b (recent_of past) }
    ensures same { (capacity : ℕ) (past : List StoreChange) → lru_list_of capacity past
        ≡ held_serials_of capacity past }
    ensures counted { (capacity : ℕ) (past : List StoreChange) (serial : ℕ)
        → Decides (serial_is_in serial (held_serials_of capacity past)) (Held capacity past serial) }
    ensures front { (capacity : ℕ) (past : List StoreChange)
        → (rest : List ℕ) × (held_serials_of capacity past ++ rest ≡ recent_of past) }
    ensures more { (capacity : ℕ) (item : StoreChange) (past : List StoreChange)
        → held_serials_of capacity (item ∷ past)
        ≡ take capacity (recent_after_change item (held_serials_of capacity past)) }
{}
