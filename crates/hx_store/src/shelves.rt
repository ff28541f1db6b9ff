//! What a bounded store does, said of its list of entries.
//!
//! Every shelf meets the same clauses. What is true of each of them, that no serial stands twice and that
//! no more entries stand than its capacity, is promised by `find` and `len`.

ghost use Rattle.std.specs.Prelude.{◌≡◌, ◌<◌, ◌≤◌, ◌-◌, ◌^◌, ◌==◌, ℕ, List, [], ◌∷◌, false, true, not, length, min};
ghost use Rattle.std.specs.Prelude.{Bool, take, slice_get, option_copied, IfOk, IfErr, IsOk, OnErr, OnOk, Some};
ghost use Rattle.std.specs.Option.{ForSome};
ghost use Rattle.hx_target.specs.Keys.{same_key};
ghost use Rattle.hx_store.specs.Serials.{SerialsAreDistinct};
ghost use Rattle.hx_store.specs.Shelf.{holds_serial, find_entry_of_serial, without_serials, entries_without_key};
ghost use Rattle.hx_store.specs.Shelf.{serials};
ghost use Rattle.hx_store.specs.Shelf.{serials_of_key};
ghost use Rattle.hx_store.specs.Shelf.{matching_serials, serials_of_entries_that_pass};
ghost use Rattle.hx_store.specs.Shelf.{entries_with_serials_expired, entries_with_promoted};
ghost use Rattle.hx_store.specs.Weights.{entries_after_one_weight_eviction, entry_evicted_by_weight, total_weight};

use crate::entries::Entry;
use crate::serial_list::Serials;
use hx_fields::Fields;
use hx_target::Key;
use std::alloc::{AllocError, Global};

/// What is asked of each entry.
pub trait EntryTest {
    ghost use Rattle.hx_store.specs.Stored.{Stored};

    /// Whether an entry passes.
    ghost takes: { Self → Stored → Bool };

    /// Whether this entry passes. No memory is taken.
    fn entry_passes_test(&self, entry: &Entry) -> bool
        ensures { result ≡ takes self.now entry.now };
}

/// A bounded store.
pub trait Shelf {
    ghost use Rattle.hx_store.specs.Stored.{Stored};

    /// The entries, the latest stored or used first.
    ghost entries: { Self → List Stored };

    /// The most that it holds.
    ghost limit: { Self → ℕ };

    /// For how many entries, those that it holds among them, memory is known to stand ready.
    ghost room: { Self → ℕ };

    /// How many entries it holds at most.
    fn capacity(&self) -> usize
        ensures { result ≡ limit self.now };

    /// How many entries it holds.
    fn len(&self) -> usize
        ensures value { result ≡ length (entries self.now) }
        ensures bounded { result ≤ limit self.now };

    /// The bytes that its entries weigh together, 2^64 - 1 where they are more.
    fn weight(&self) -> u64
        ensures { result ≡ min (total_weight (entries self.now)) (2 ^ 64 - 1) };

    /// Whether the entry of this serial is held.
    fn contains(&self, serial: u64) -> bool
        ensures { result ≡ holds_serial serial (entries self.now) };

    /// The entry of this serial, which is not used by this.
    fn peek(&self, serial: u64) -> Option<&Entry>
        ensures { option_copied result ≡ find_entry_of_serial serial (entries self.now) };

    /// The serials of the entries with this key, ascending. Fails only where memory runs out.
    fn find(&self, alloc: Global, key: &Key) -> Result<Serials, AllocError>
        ensures found { IfOk result (λ found. found ≡ serials_of_key key.now (entries self.now)) }
        ensures distinct { SerialsAreDistinct (serials (entries self.now)) };

    /// Whether an entry with this key is held. No memory is taken.
    fn has_key(&self, key: &Key) -> bool
        ensures { result ≡ not (length (serials_of_key key.now (entries self.now)) == 0) };

    /// The serials of the entries with this key whose nominated values the request has, ascending. Fails only where
    /// memory runs out.
    fn find_matching_serials(
        &self,
        alloc: Global,
        key: &Key,
        request: &Fields,
    ) -> Result<Serials, AllocError>
        ensures found { IfOk result (λ found. found ≡ matching_serials key.now request.now (entries self.now)) }
        ensures distinct { SerialsAreDistinct (serials (entries self.now)) };

    /// The serials of the entries that pass a test, ascending. It looks at each entry once. Fails only where memory
    /// runs out.
    fn find_serials_where<T: EntryTest>(
        &self,
        alloc: Global,
        test: &T,
    ) -> Result<Serials, AllocError>
        ensures found { IfOk result (λ found. found
            ≡ serials_of_entries_that_pass (T.takes test.now) (entries self.now)) }
        ensures distinct { SerialsAreDistinct (serials (entries self.now)) };

    /// Stores an entry, first, in place of those with the serials in `replaced`. Where more than the capacity
    /// stand, the last one is handed back. Where memory runs out nothing has changed, and the new entry is handed back;
    /// where there is room for one more, none is taken.
    fn put(&mut self, entry: Entry, replaced: &[u64]) -> Result<Option<Entry>, Entry>
        requires { holds_serial entry.serial (entries self.old) ≡ false }
        ensures ok { OnOk result (entries self.new
            ≡ take (limit self.old) (entry ∷ without_serials replaced.now (entries self.old))) }
        ensures evicted { IfOk result (λ out. out
            ≡ slice_get (entry ∷ without_serials replaced.now (entries self.old)) (limit self.old)) }
        ensures err { OnErr result (entries self.new ≡ entries self.old) }
        ensures given_back { IfErr result (λ e. e ≡ entry) }
        ensures taken { length (entries self.old) < room self.old → IsOk result }
        ensures limit { limit self.new ≡ limit self.old }
        ensures room { room self.old ≤ room self.new };

    /// Puts a new form of a held entry in its place, first, and hands the old one back. No memory is taken.
    fn freshen(&mut self, entry: Entry) -> Entry
        requires held { holds_serial entry.serial (entries self.old) ≡ true }
        requires same_key { ForSome (find_entry_of_serial entry.serial (entries self.old))
            (λ old. same_key old.key entry.key ≡ true) }
        ensures value { find_entry_of_serial entry.serial (entries self.old) ≡ Some result }
        ensures entries { entries self.new ≡ entry ∷ without_serials (entry.serial ∷ []) (entries self.old) }
        ensures limit { limit self.new ≡ limit self.old }
        ensures room { room self.old ≤ room self.new };

    /// Brings the entry of this serial to the front. No memory is taken.
    fn promote(&mut self, serial: u64) -> bool
        ensures value { result ≡ holds_serial serial (entries self.old) }
        ensures entries { entries self.new ≡ entries_with_promoted serial (entries self.old) }
        ensures limit { limit self.new ≡ limit self.old }
        ensures room { room self.old ≤ room self.new };

    /// Takes the entry of this serial out. No memory is taken.
    fn remove(&mut self, serial: u64) -> Option<Entry>
        ensures value { result ≡ find_entry_of_serial serial (entries self.old) }
        ensures entries { entries self.new ≡ without_serials (serial ∷ []) (entries self.old) }
        ensures limit { limit self.new ≡ limit self.old }
        ensures room { room self.old ≤ room self.new };

    /// Takes the entries of this key out, and says how many they were. No memory is taken.
    fn invalidate(&mut self, key: &Key) -> usize
        ensures value { result ≡ length (entries self.old) - length (entries self.new) }
        ensures entries { entries self.new ≡ entries_without_key key.now (entries self.old) }
        ensures limit { limit self.new ≡ limit self.old }
        ensures room { room self.old ≤ room self.new };

    /// Expires the entries with these serials at a moment, in seconds since 1970. None is used by this, and one that is
    /// expired already stays as it is. No memory is taken.
    fn expire(&mut self, serials: &[u64], now: u64)
        ensures entries { entries self.new ≡ entries_with_serials_expired serials.now now (entries self.old) }
        ensures limit { limit self.new ≡ limit self.old }
        ensures room { room self.old ≤ room self.new };

    /// Where the entries weigh more than `most` bytes together, takes the last one out and hands it back. No memory is
    /// taken.
    fn evict_last_beyond_weight(&mut self, most: u64) -> Option<Entry>
        requires { most < 2 ^ 64 - 1 }
        ensures value { result ≡ entry_evicted_by_weight most (entries self.old) }
        ensures entries { entries self.new ≡ entries_after_one_weight_eviction most (entries self.old) }
        ensures limit { limit self.new ≡ limit self.old }
        ensures room { room self.old ≤ room self.new };
}
