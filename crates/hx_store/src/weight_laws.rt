//! What the definitions of weights and bounds say of worked cases, computed, and of every list.

ghost use Rattle.std.specs.Prelude.{◌≡◌, ◌+◌, ◌<◌, ◌≤◌, ◌↔◌, ◌∷◌, ◌++◌, [], ℕ, Bool, List, None, true, length, take};
ghost use Rattle.std.specs.Prelude.{◌-◌, ◌^◌, min, Decides, Some};
ghost use Rattle.std.specs.List.{filter};
ghost use Rattle.hx_fields.specs.Line.{Field as Line};
ghost use Rattle.hx_target.specs.declared.keys.Key.{Key as StoreKey};
ghost use Rattle.hx_vary.specs.declared.nominated_values.NominatedValue.{NominatedValue as Kept};
ghost use Rattle.hx_store.specs.Cases.{first, entry_of_a_with_content, entry_of_a_with_a_line, entry_of_a_in_english};
ghost use Rattle.hx_store.specs.Cases.{entry_of_a_in_no_language, second, third, bounds_of_bytes};
ghost use Rattle.hx_store.specs.Cases.{changes_storing_three};
ghost use Rattle.hx_store.specs.Cases.{stores, uses, removes};
ghost use Rattle.hx_store.specs.Shelf.{serials, entries_with_promoted};
ghost use Rattle.hx_store.specs.Recency.{Held, SerialIsStoredOrUsedAndNotRemovedSince, IsStoredOrUsedLaterThan};
ghost use Rattle.hx_store.specs.Recency.{lru_list_of};
ghost use Rattle.hx_store.specs.Recency.{count_before_serial};
ghost use Rattle.hx_store.specs.Recency.{held_serials_of, recent_after_change, recent_of};
ghost use Rattle.hx_store.specs.Serials.{serial_is_in};
ghost use Rattle.hx_store.specs.Stored.{Stored};
ghost use Rattle.hx_store.specs.Weights.{WeightsAreThoseOfEntries, cut_to_bounds, weight_of_entry};
ghost use Rattle.hx_store.specs.Weights.{IsLongestPrefixWithin};
ghost use Rattle.hx_store.specs.Weights.{IsWithinBounds};
ghost use Rattle.hx_store.specs.Weights.{entries_after_one_weight_eviction, total_of_capped_weights, length_if_any};
ghost use Rattle.hx_store.specs.Weights.{entry_evicted_by_weight, total_weight};
ghost use Rattle.hx_store.specs.Weights.{StoreBounds as Bounds, longest_prefix_within};
ghost use Rattle.hx_store.specs.WeightedRecency.{WeighedChange as Change, SerialIsHeldWithinBounds, changes_of};
ghost use Rattle.hx_store.specs.WeightedRecency.{lru_list_within_bounds};
ghost use Rattle.hx_store.specs.WeightedRecency.{serials_within_bounds};

/// An entry weighs 1,200 bytes at least. Each byte of its content, of its lines' names and values and of what it
/// nominates weighs one more, each line four, and each byte of its host, path and query two.
pub fn an_entry_weighs_what_it_keeps()
    ensures least { (e : Stored) → 1200 ≤ weight_of_entry e }
    ensures content { (e : Stored) (content more : List ℕ) → weight_of_entry (record e { content = content ++ more })
        ≡ weight_of_entry (record e { content = content }) + length more }
    ensures longer { (e : Stored) (short long : List ℕ) → length short ≤ length long
        → weight_of_entry (record e { content = short }) ≤ weight_of_entry (record e { content = long }) }
    ensures line { (e : Stored) (before behind : List Line) (line : Line)
        → weight_of_entry (record e { fields = before ++ line ∷ behind })
        ≡ weight_of_entry (record e { fields = before ++ behind }) + (length line.name + length line.value + 4) }
    ensures nominated { (e : Stored) (before behind : List Kept) (kept : Kept)
        → weight_of_entry (record e { nominated = before ++ kept ∷ behind })
        ≡ weight_of_entry (record e { nominated = before ++ behind }) + (length kept.name + length_if_any kept.value) }
    ensures key { (e : Stored) (key : StoreKey) → weight_of_entry (record e { key = key })
        ≡ weight_of_entry (record e { key = record key { host = []; path_query = [] } })
        + (length key.host + length key.host + length key.path_query + length key.path_query) }
{}

/// An entry of the host `h` and the path `/a`, with five bytes of content, with a line of four and three bytes, and
/// where a field of fifteen is nominated, of which the request had two bytes or none.
pub fn worked_entry_weights()
    ensures bare { weight_of_entry first ≡ 1206 }
    ensures content { weight_of_entry entry_of_a_with_content ≡ 1211 }
    ensures line { weight_of_entry entry_of_a_with_a_line ≡ 1217 }
    ensures nominated { weight_of_entry entry_of_a_in_english ≡ 1223 }
    ensures absent { weight_of_entry entry_of_a_in_no_language ≡ 1221 }
    ensures together { total_weight (entry_of_a_with_content ∷ second ∷ []) ≡ 2417 }
{}

/// Three entries of 1,206 bytes each, the third first. Of room for 2,412 bytes two take all, and a byte less has room
/// for one. By number one may be too many. One that alone is too heavy goes itself, and whatever stands behind it goes
/// with it.
pub fn worked_entries_cut_to_bounds()
    ensures all { cut_to_bounds (bounds_of_bytes 3618) (third ∷ second ∷ first ∷ []) ≡ third ∷ second ∷ first ∷ [] }
    ensures just { cut_to_bounds (bounds_of_bytes 2412) (third ∷ second ∷ first ∷ []) ≡ third ∷ second ∷ [] }
    ensures a_byte_less { cut_to_bounds (bounds_of_bytes 2411) (third ∷ second ∷ first ∷ []) ≡ third ∷ [] }
    ensures by_number { cut_to_bounds (record (bounds_of_bytes 3618) { entries = 2 }) (third ∷ second ∷ first ∷ [])
        ≡ third ∷ second ∷ [] }
    ensures unbounded { cut_to_bounds (record (bounds_of_bytes 0) { bytes = None }) (third ∷ second ∷ first ∷ [])
        ≡ third ∷ second ∷ first ∷ [] }
    ensures too_heavy { cut_to_bounds (bounds_of_bytes 1210) (entry_of_a_with_content ∷ second ∷ []) ≡ [] }
    ensures behind { cut_to_bounds (bounds_of_bytes 2416) (third ∷ entry_of_a_with_content ∷ second ∷ []) ≡ third ∷ [] }
{}

/// What stays of a list is the longest front of it within the bounds, of which there is one; what goes is its tail,
/// and with the first that goes a bound would be broken. An entry that alone is within them stays where it comes
/// first, and a list within its bounds stays whole. Without a bound of bytes so many stay as there is room for.
pub fn the_longest_prefix_within_its_bounds_stays()
    ensures longest { (bounds : Bounds) (entries : List Stored)
        → IsLongestPrefixWithin bounds weight_of_entry entries (cut_to_bounds bounds entries) }
    ensures one { (bounds : Bounds) (entries a b : List Stored) → IsLongestPrefixWithin bounds weight_of_entry entries a
        → IsLongestPrefixWithin bounds weight_of_entry entries b → a ≡ b }
    ensures tail { (bounds : Bounds) (entries : List Stored)
        → (gone : List Stored) × (cut_to_bounds bounds entries ++ gone ≡ entries) }
    ensures one_more { (bounds : Bounds) (entries gone : List Stored) (e : Stored)
        → cut_to_bounds bounds entries ++ e ∷ gone ≡ entries
        → IsWithinBounds bounds weight_of_entry (cut_to_bounds bounds entries ++ e ∷ []) → ⊥ }
    ensures front { (bounds : Bounds) (front behind : List Stored)
        → IsWithinBounds bounds weight_of_entry (front ++ behind)
        → IsWithinBounds bounds weight_of_entry front }
    ensures first { (bounds : Bounds) (e : Stored) (behind : List Stored)
        → IsWithinBounds bounds weight_of_entry (e ∷ [])
        → (rest : List Stored) × (cut_to_bounds bounds (e ∷ behind) ≡ e ∷ rest) }
    ensures whole { (bounds : Bounds) (entries : List Stored) → IsWithinBounds bounds weight_of_entry entries
        → cut_to_bounds bounds entries ≡ entries }
    ensures by_number { (most : ℕ) (entries : List Stored)
        → cut_to_bounds (record { entries = most; bytes = None }) entries ≡ take most entries }
{}

/// What is within its bounds stays within them where entries are taken out, and where one is used.
pub fn removal_and_use_keep_the_bounds()
    ensures taken_out { (bounds : Bounds) (stays : Stored → Bool) (entries : List Stored)
        → IsWithinBounds bounds weight_of_entry entries → IsWithinBounds bounds weight_of_entry (filter stays entries) }
    ensures used { (bounds : Bounds) (serial : ℕ) (entries : List Stored)
        → IsWithinBounds bounds weight_of_entry entries
        → IsWithinBounds bounds weight_of_entry (entries_with_promoted serial entries) }
{}

/// The last one goes where a list weighs too much, and only there. Whatever goes so, what stays within the bounds is
/// the same; and once nothing more goes, that is the list itself. The bound of entries may be kept first. What is
/// counted of the weights shows what they are together, as far as 64 bits do, and fits 128.
pub fn repeated_eviction_ends_within_the_bounds()
    ensures last { (most : ℕ) (entries : List Stored) (e : Stored) → entry_evicted_by_weight most entries ≡ Some e
        → entries_after_one_weight_eviction most entries ++ e ∷ [] ≡ entries }
    ensures light { (most : ℕ) (entries : List Stored) → entry_evicted_by_weight most entries ≡ None
        → total_weight entries ≤ most }
    ensures same { (number most : ℕ) (entries : List Stored)
        → cut_to_bounds (record { entries = number; bytes = Some most })
        (entries_after_one_weight_eviction most entries)
        ≡ cut_to_bounds (record { entries = number; bytes = Some most }) entries }
    ensures end { (number most : ℕ) (entries : List Stored) → length entries ≤ number
        → entry_evicted_by_weight most entries ≡ None
        → cut_to_bounds (record { entries = number; bytes = Some most }) entries ≡ entries }
    ensures numbers_first { (bounds : Bounds) (entries : List Stored)
        → cut_to_bounds bounds (take bounds.entries entries) ≡ cut_to_bounds bounds entries }
    ensures counted { (entries : List Stored) → min (total_of_capped_weights entries) (2 ^ 64 - 1)
        ≡ min (total_weight entries) (2 ^ 64 - 1) }
    ensures fits { (entries : List Stored) → length entries < 2 ^ 64 → total_of_capped_weights entries < 2 ^ 128 }
{}

/// Three entries of 1,206 bytes each, the third first: 3,618 bytes.
pub fn worked_evictions_by_weight()
    ensures light { entry_evicted_by_weight 3618 (third ∷ second ∷ first ∷ []) ≡ None }
    ensures stays { entries_after_one_weight_eviction 3618 (third ∷ second ∷ first ∷ []) ≡ third ∷ second ∷ first ∷ [] }
    ensures heavy { entry_evicted_by_weight 3617 (third ∷ second ∷ first ∷ []) ≡ Some first }
    ensures less { entries_after_one_weight_eviction 3617 (third ∷ second ∷ first ∷ []) ≡ third ∷ second ∷ [] }
    ensures none { entry_evicted_by_weight 0 [] ≡ None }
    ensures counted { total_of_capped_weights (third ∷ second ∷ first ∷ []) ≡ 3618 }
{}

/// By weights that are those of the entries, their serials are cut where the entries are; so they stay where the
/// entries are within the bounds.
pub fn serials_are_cut_with_their_entries()
    ensures cut { (bounds : Bounds) (weights : ℕ → ℕ) (entries : List Stored) → WeightsAreThoseOfEntries weights entries
        → serials (cut_to_bounds bounds entries) ≡ longest_prefix_within bounds weights (serials entries) }
    ensures whole { (bounds : Bounds) (weights : ℕ → ℕ) (entries : List Stored)
        → WeightsAreThoseOfEntries weights entries
        → IsWithinBounds bounds weight_of_entry entries → longest_prefix_within bounds weights (serials entries)
        ≡ serials entries }
{}

/// A list that is cut to its bounds has exactly what is held by the counts over its history, in the order of the latest
/// storing or use. Listed is what was stored or used and not removed since; the held are the front of the listed, and
/// what was crowded out doesn't come back when a removal leaves room. After each step what is held is within its
/// bounds.
pub fn weighed_lru_list_equals_held_serials()
    ensures listed { (past : List Change) (serial : ℕ) → Decides (serial_is_in serial (recent_of (changes_of past)))
        (SerialIsStoredOrUsedAndNotRemovedSince (changes_of past) serial) }
    ensures ordered { (past : List Change) (a b : ℕ) → serial_is_in a (recent_of (changes_of past)) ≡ true
        → IsStoredOrUsedLaterThan (changes_of past) a b
        → count_before_serial a (recent_of (changes_of past)) < count_before_serial b (recent_of (changes_of past)) }
    ensures same { (bounds : Bounds) (past : List Change) → lru_list_within_bounds bounds past
        ≡ serials_within_bounds bounds past }
    ensures counted { (bounds : Bounds) (past : List Change) (serial : ℕ)
        → Decides (serial_is_in serial (serials_within_bounds bounds past))
        (SerialIsHeldWithinBounds bounds past serial) }
    ensures front { (bounds : Bounds) (past : List Change)
        → (rest : List ℕ) × (serials_within_bounds bounds past ++ rest ≡ recent_of (changes_of past)) }
    ensures more { (bounds : Bounds) (item : Change) (past : List Change)
        → serials_within_bounds bounds (item ∷ past)
        ≡ longest_prefix_within bounds item.weights
        (recent_after_change item.change (serials_within_bounds bounds past)) }
    ensures within { (bounds : Bounds) (item : Change) (past : List Change)
        → IsWithinBounds bounds item.weights (serials_within_bounds bounds (item ∷ past)) }
{}

/// Without a bound of bytes what is held is what is held by number alone.
pub fn without_byte_bound_the_entry_count_decides()
    ensures list { (most : ℕ) (past : List Change)
        → lru_list_within_bounds (record { entries = most; bytes = None }) past ≡ lru_list_of most (changes_of past) }
    ensures serials { (most : ℕ) (past : List Change)
        → serials_within_bounds (record { entries = most; bytes = None }) past
        ≡ held_serials_of most (changes_of past) }
    ensures held { (most : ℕ) (past : List Change) (serial : ℕ)
        → SerialIsHeldWithinBounds (record {
          entries = most;
          bytes = None;
        }) past serial ↔ Held most (changes_of past) serial }
{}

/// Three of 100 each are stored, 3 the last. There is room for all. Of a byte less 1 goes, and doesn't come back when
/// 3 is removed. Where 1 is used, all stay; where it is freshened and weighs 200 then, 2 goes. One that alone is too
/// heavy goes itself, with all that stand behind it, and nothing of that comes back.
pub fn worked_serials_held_within_bounds()
    ensures just { serials_within_bounds (bounds_of_bytes 300) changes_storing_three ≡ 3 ∷ 2 ∷ 1 ∷ [] }
    ensures a_byte_less { serials_within_bounds (bounds_of_bytes 299) changes_storing_three ≡ 3 ∷ 2 ∷ [] }
    ensures by_number { serials_within_bounds (record (bounds_of_bytes 300) { entries = 2 }) changes_storing_three ≡ 3
        ∷ 2
        ∷ [] }
    ensures gone_for_good { serials_within_bounds (bounds_of_bytes 299) (removes 3 ∷ changes_storing_three) ≡ 2 ∷ [] }
    ensures used { serials_within_bounds (bounds_of_bytes 300) (uses 1 100 ∷ changes_storing_three) ≡ 1 ∷ 3 ∷ 2 ∷ [] }
    ensures freshened { serials_within_bounds (bounds_of_bytes 300) (uses 1 200 ∷ changes_storing_three) ≡ 1 ∷ 3 ∷ [] }
    ensures lighter { serials_within_bounds (bounds_of_bytes 300) (stores 4 50 ∷ uses 3 50 ∷ changes_storing_three)
        ≡ 4 ∷ 3 ∷ 2 ∷ [] }
    ensures too_heavy { serials_within_bounds (bounds_of_bytes 300) (stores 4 301 ∷ changes_storing_three) ≡ [] }
    ensures after_it { serials_within_bounds (bounds_of_bytes 300) (removes 4 ∷ stores 4 301 ∷ changes_storing_three)
        ≡ [] }
{}
