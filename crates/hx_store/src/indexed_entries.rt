//! Entries that are found by their serials and by their keys, the latest stored or used first.
//!
//! A call costs at most the logarithm of what is held, and no entry is moved. There is no bound of its own.

ghost use Rattle.std.specs.Prelude.{◌≡◌, ◌<◌, ◌≤◌, ◌+◌, ◌-◌, ◌^◌, ◌==◌, ◌∷◌, [], false, true, not, length, min, take};
ghost use Rattle.std.specs.Prelude.{slice_get, option_copied, IfOk, IfErr, OnErr, OnOk, Some};
ghost use Rattle.std.specs.Option.{ForSome};
ghost use Rattle.hx_target.specs.Keys.{same_key};
ghost use Rattle.hx_store.specs.Serials.{SerialsAreDistinct};
ghost use Rattle.hx_store.specs.Shelf.{holds_serial, find_entry_of_serial, without_serials, serials, serials_of_key};
ghost use Rattle.hx_store.specs.Shelf.{matching_serials, serials_of_entries_that_pass, entries_with_serials_expired};
ghost use Rattle.hx_store.specs.Shelf.{entries_with_promoted};
ghost use Rattle.hx_store.specs.Shelf.{entries_without_key};
ghost use Rattle.hx_store.specs.Index.{entries_without_serials_but_one};
ghost use Rattle.hx_store.specs.Weights.{entries_after_one_weight_eviction, entry_evicted_by_weight, total_weight};

use crate::entries::Entry;
use crate::entry_cache::EntryCache;
use crate::key_index::KeyIndex;
use crate::serial_list::Serials;
use crate::shelves::EntryTest;
use hx_fields::Fields;
use hx_target::Key;
use std::alloc::{AllocError, Global};
use std::marker::Model;

/// Entries, of which callers see the list.
pub(crate) struct IndexedEntries {
    alloc: Global,
    /// That of the marks.
    seed: u64,
    entries: EntryCache,
    index: KeyIndex,
    /// What the entries weigh together, none of them more than fits 64 bits.
    weight: u128,
}

/// One call drops it, wherever that is.
impl Drop for IndexedEntries {
    fn drop(self) {
        let IndexedEntries {
            alloc: _,
            seed: _,
            entries: _,
            index: _,
            weight: _,
        } = self;
    }
}

impl Model for IndexedEntries {
    ghost use Rattle.std.specs.Prelude.{◌≡◌, List};
    ghost use Rattle.hx_store.specs.Stored.{Stored};
    ghost use Rattle.hx_store.specs.Weights.{total_of_capped_weights};
    ghost use Rattle.hx_store.specs.Index.{IsKeyIndexOf, MarksAreOfTheirEntries, IndexHasNoEmptyKey};
    ghost use Rattle.hx_store.specs.Serials.{SerialsAreDistinct};
    ghost use Rattle.hx_store.specs.Shelf.{serials};

    ghost Value = { List Stored };

    ghost view = { λ s. s.entries };

    ghost invariant = { λ s. (SerialsAreDistinct (serials s.entries) × IsKeyIndexOf s.entries s.index)
        × IndexHasNoEmptyKey s.index
        × MarksAreOfTheirEntries s.seed s.entries s.index × (s.weight ≡ total_of_capped_weights s.entries) };
}

impl IndexedEntries {
    /// None, to be marked by a seed. Fails only where memory runs out.
    pub(crate) fn new(alloc: Global, seed: u64) -> Result<IndexedEntries, AllocError>
        ensures { IfOk result (λ held. held ≡ []) }
    {
        Ok(IndexedEntries {
            alloc,
            seed,
            entries: EntryCache::new(alloc)?,
            index: KeyIndex::new(alloc, seed),
            weight: 0,
        })
    }

    /// How many there are.
    pub(crate) fn len(&self) -> usize
        ensures { result ≡ length self.now }
    {
        self.entries.len()
    }

    /// The bytes that they weigh together, 2^64 - 1 where they are more.
    pub(crate) fn weight(&self) -> u64
        ensures { result ≡ min (total_weight self.now) (2 ^ 64 - 1) }
    {
        self.weight.min(u64::MAX as u128) as u64
    }

    /// Whether the entry of this serial is here.
    pub(crate) fn contains(&self, serial: u64) -> bool
        ensures { result ≡ holds_serial serial self.now }
    {
        self.entries.contains(serial)
    }

    /// The entry of this serial, which is not used by this.
    pub(crate) fn peek(&self, serial: u64) -> Option<&Entry>
        ensures { option_copied result ≡ find_entry_of_serial serial self.now }
    {
        self.entries.peek(serial)
    }

    /// The serials of the entries with this key, ascending. Fails only where memory runs out.
    pub(crate) fn find(&self, alloc: Global, key: &Key) -> Result<Serials, AllocError>
        ensures found { IfOk result (λ found. found ≡ serials_of_key key.now self.now) }
        ensures distinct { SerialsAreDistinct (serials self.now) }
    {
        self.index.find(alloc, key)
    }

    /// The least serial of an entry with this key. Nothing is allocated.
    fn first_of(&self, key: &Key) -> Option<u64>
        ensures first { result ≡ slice_get (serials_of_key key.now self.now) 0 }
        ensures distinct { SerialsAreDistinct (serials self.now) }
    {
        self.index.first(key)
    }

    /// Whether an entry with this key is here. Nothing is allocated.
    pub(crate) fn has_key(&self, key: &Key) -> bool
        ensures { result ≡ not (length (serials_of_key key.now self.now) == 0) }
    {
        self.index.has(key)
    }

    /// The serials of the entries with this key whose nominated values the request has, ascending. Where there
    /// are several, an entry is looked at only where its mark may match. Fails only where memory runs out.
    pub(crate) fn find_matching_serials(
        &self,
        alloc: Global,
        key: &Key,
        request: &Fields,
    ) -> Result<Serials, AllocError>
        ensures found { IfOk result (λ found. found ≡ matching_serials key.now request.now self.now) }
        ensures distinct { SerialsAreDistinct (serials self.now) }
    {
        match self.index.at(key) {
            Some(marks) => self
                .entries
                .matching_serials_among_marks(alloc, marks, request, self.seed),
            None => Ok(Serials::new(alloc)),
        }
    }

    /// The serials of the entries that pass a test, ascending. Fails only where memory runs out.
    pub(crate) fn find_serials_where<T: EntryTest>(
        &self,
        alloc: Global,
        test: &T,
    ) -> Result<Serials, AllocError>
        ensures found { IfOk result (λ found. found ≡ serials_of_entries_that_pass (T.takes test.now) self.now) }
        ensures distinct { SerialsAreDistinct (serials self.now) }
    {
        self.entries.find_serials_where(alloc, test)
    }

    /// Puts an entry first. Where memory runs out nothing has changed, and the entry is handed back.
    pub(crate) fn store(&mut self, entry: Entry) -> Result<(), Entry>
        requires { holds_serial entry.serial self.old ≡ false }
        ensures ok { OnOk result (self.new ≡ entry ∷ self.old) }
        ensures err { OnErr result (self.new ≡ self.old) }
        ensures given_back { IfErr result (λ e. e ≡ entry) }
    {
        let serial = entry.serial;
        let mark = entry.nominated.mark(self.seed);
        let weight = entry.weight();
        let _held = self.entries.len();
        if self
            .index
            .insert(self.alloc, &entry.key, serial, mark)
            .is_err()
        {
            return Err(entry);
        }
        match self.entries.store(entry) {
            Ok(()) => {
                self.weight += weight as u128;
                Ok(())
            }
            Err(entry) => {
                self.index.remove(&entry.key, serial);
                Err(entry)
            }
        }
    }

    /// Puts a new form of a held entry in its place, first, and hands the old one back. Nothing is allocated.
    pub(crate) fn replace(&mut self, entry: Entry) -> Entry
        requires held { holds_serial entry.serial self.old ≡ true }
        requires same_key { ForSome (find_entry_of_serial entry.serial self.old)
            (λ old. same_key old.key entry.key ≡ true) }
        ensures value { find_entry_of_serial entry.serial self.old ≡ Some result }
        ensures entries { self.new ≡ entry ∷ without_serials (entry.serial ∷ []) self.old }
    {
        let mark = entry.nominated.mark(self.seed);
        self.index.mark(&entry.key, entry.serial, mark);
        let weight = entry.weight();
        let _held = self.entries.len();
        let old = self.entries.replace(entry);
        self.weight = self.weight - old.weight() as u128 + weight as u128;
        old
    }

    /// Brings the entry of this serial to the front. Nothing is allocated.
    pub(crate) fn promote(&mut self, serial: u64) -> bool
        ensures value { result ≡ holds_serial serial self.old }
        ensures entries { self.new ≡ entries_with_promoted serial self.old }
    {
        self.entries.promote(serial)
    }

    /// Expires the entry of this serial at a moment, if it is here. It stays where it is. Nothing is allocated.
    fn expire_entry(&mut self, serial: u64, now: u64)
        ensures { self.new ≡ entries_with_serials_expired (serial ∷ []) now self.old }
    {
        self.entries.expire(serial, now);
    }

    /// Expires the entries with these serials at a moment, each at the cost of a look-up. Nothing is allocated.
    pub(crate) fn expire(&mut self, serials: &[u64], now: u64)
        ensures { self.new ≡ entries_with_serials_expired serials.now now self.old }
    {
        for serial in serials {
            self.expire_entry(*serial, now);
        }
    }

    /// Takes the entry of this serial out. Nothing is allocated.
    pub(crate) fn remove(&mut self, serial: u64) -> Option<Entry>
        ensures value { result ≡ find_entry_of_serial serial self.old }
        ensures entries { self.new ≡ without_serials (serial ∷ []) self.old }
    {
        match self.entries.remove(serial) {
            Some(entry) => {
                self.index.remove(&entry.key, serial);
                self.weight -= entry.weight() as u128;
                Some(entry)
            }
            None => None,
        }
    }

    /// Takes the last entry out. Nothing is allocated.
    pub(crate) fn pop_last(&mut self) -> Option<Entry>
        ensures value { result ≡ slice_get self.old (length self.old - 1) }
        ensures entries { self.new ≡ take (length self.old - 1) self.old }
    {
        match self.entries.pop_last() {
            Some(entry) => {
                self.index.remove(&entry.key, entry.serial);
                self.weight -= entry.weight() as u128;
                Some(entry)
            }
            None => None,
        }
    }

    /// Evicts the last entry where more than `capacity` entries stand.
    pub(crate) fn evict_last_beyond_capacity(&mut self, capacity: usize) -> Option<Entry>
        requires { length self.old ≤ capacity + 1 }
        ensures entries { self.new ≡ take capacity self.old }
        ensures gone { result ≡ slice_get self.old capacity }
    {
        if self.len() > capacity {
            self.pop_last()
        } else {
            None
        }
    }

    /// Evicts the last entry where the entries weigh more than `most` bytes together.
    pub(crate) fn evict_last_beyond_weight(&mut self, most: u64) -> Option<Entry>
        requires { most < 2 ^ 64 - 1 }
        ensures value { result ≡ entry_evicted_by_weight most self.old }
        ensures entries { self.new ≡ entries_after_one_weight_eviction most self.old }
    {
        if self.weight() > most {
            self.pop_last()
        } else {
            None
        }
    }

    /// Takes the entries with these serials out, but that of the serial `kept`.
    pub(crate) fn remove_serials_but_one(&mut self, kept: u64, gone: &[u64])
        ensures { self.new ≡ entries_without_serials_but_one kept gone.now self.old }
    {
        for serial in gone {
            if *serial != kept {
                self.remove(*serial);
            }
        }
    }

    /// Takes the entries of this key out, at the cost of taking each of them out. Nothing is allocated.
    pub(crate) fn remove_key(&mut self, key: &Key)
        ensures { self.new ≡ entries_without_key key.now self.old }
    {
        while let Some(serial) = self.first_of(key) {
            self.remove(serial);
        }
    }
}
