//! A shelf that is a list. A call costs one pass over the entries.

ghost use Rattle.std.specs.Prelude.{◌≡◌, ◌<◌, ◌≤◌, ◌+◌, ◌==◌, ◌∷◌, [], length, position, take, slice_get, vec_capacity};
ghost use Rattle.std.specs.Prelude.{MatchOption, IsOk, OnOk, OnErr, IfOk, IfErr, false};
ghost use Rattle.std.specs.List.{list_any};
ghost use Rattle.hx_target.specs.Keys.{same_key};
ghost use Rattle.hx_store.specs.SerialPlaces.{SerialIsInNoEntry, IsIndexOfSerial};
ghost use Rattle.hx_store.specs.Shelf.{holds_serial, entries_with_serials_expired, without_serials};
ghost use Rattle.hx_store.specs.Shelf.{entries_without_key};

use crate::entries::Entry;
use crate::serial_list::Serials;
use crate::shelves::{EntryTest, Shelf};
use crate::weights::total_weight;
use hx_fields::Fields;
use hx_target::Key;
use hx_vary::matches;
use std::alloc::{AllocError, Global};
use std::marker::Model;

/// A store over a list, the latest stored or used first.
pub struct ListShelf {
    capacity: usize,
    entries: Vec<Entry>,
}

/// One call drops it, wherever that is.
impl Drop for ListShelf {
    fn drop(self) {
        let ListShelf {
            capacity: _,
            entries: _,
        } = self;
    }
}

impl Model for ListShelf {
    ghost use Rattle.std.specs.Prelude.{◌≤◌, length, vec_capacity};
    ghost use Rattle.hx_store.specs.Serials.{SerialsAreDistinct};
    ghost use Rattle.hx_store.specs.Shelf.{ShelfModel, serials};

    ghost Value = { ShelfModel };

    ghost view = { λ s. record { limit = s.capacity; entries = s.entries.items; room = vec_capacity s.entries } };

    ghost invariant = { λ s. (length s.entries.items ≤ s.capacity) × SerialsAreDistinct (serials s.entries.items) };
}

impl ListShelf {
    /// An empty store that holds at most `capacity` entries. No memory is taken yet.
    pub fn new(alloc: Global, capacity: usize) -> ListShelf
        ensures { result ≡ record { limit = capacity; entries = []; room = 0 } }
    {
        ListShelf {
            capacity,
            entries: Vec::new(alloc),
        }
    }

    /// Where the entry of this serial stands.
    fn place(&self, serial: u64) -> Option<usize>
        ensures { MatchOption result (SerialIsInNoEntry serial self.now.entries)
            (IsIndexOfSerial serial self.now.entries) }
    {
        let _entries = &self.entries;
        self.first_index_with(serial)
    }

    fn first_index_with(&self, serial: u64) -> Option<usize>
        ensures { result ≡ position (λ e. e.serial == serial) self.now.entries }
    {
        self.entries.iter().position(|e| e.has_serial(serial))
    }
}

/// Whether an entry has this key.
fn has_entry_with_key(entries: &[Entry], key: &Key) -> bool
    ensures { result ≡ list_any (λ e. same_key e.key key.now) entries.now }
{
    entries.iter().any(|e| e.has_key(key))
}

/// The entry comes first, in place of those with the serials in `replaced`.
fn put_first(entries: &mut Vec<Entry>, entry: Entry, replaced: &[u64]) -> Result<(), Entry>
    ensures ok { OnOk result (entries.new.items ≡ entry ∷ without_serials replaced.now entries.old.items) }
    ensures err { OnErr result (entries.new.items ≡ entries.old.items) }
    ensures given_back { IfErr result (λ e. e ≡ entry) }
    ensures taken { length entries.old.items < vec_capacity entries.old → IsOk result }
    ensures room { vec_capacity entries.old ≤ vec_capacity entries.new }
    ensures made { OnOk result (length entries.old.items < vec_capacity entries.new) }
{
    // Room comes first: where it is refused, the replaced entries have to stay.
    if entries.reserve(1).is_err() {
        return Err(entry);
    }
    entries.retain(|e| !e.is_among(replaced));
    let _ = entries.insert(0, entry);
    Ok(())
}

/// Takes the last one out where one too many stand.
fn evict_last(entries: &mut Vec<Entry>, capacity: usize) -> Option<Entry>
    requires { length entries.old.items ≤ capacity + 1 }
    ensures items { entries.new.items ≡ take capacity entries.old.items }
    ensures gone { result ≡ slice_get entries.old.items capacity }
    ensures room { vec_capacity entries.new ≡ vec_capacity entries.old }
{
    if entries.len() > capacity {
        entries.pop()
    } else {
        None
    }
}

/// Those with these serials are expired where they stand.
fn expire_each_among(entries: &mut Vec<Entry>, serials: &[u64], now: u64)
    ensures items { entries.new.items ≡ entries_with_serials_expired serials.now now entries.old.items }
    ensures room { vec_capacity entries.new ≡ vec_capacity entries.old }
{
    for entry in entries.iter_mut() {
        entry.expire_if_serial_among(serials, now);
    }
}

impl Shelf for ListShelf {
    ghost entries = { λ s. s.entries };

    ghost limit = { λ s. s.limit };

    ghost room = { λ s. s.room };

    fn capacity(&self) -> usize {
        self.capacity
    }

    fn len(&self) -> usize {
        self.entries.len()
    }

    fn weight(&self) -> u64 {
        total_weight(self.entries.as_slice())
    }

    fn contains(&self, serial: u64) -> bool {
        self.place(serial).is_some()
    }

    fn peek(&self, serial: u64) -> Option<&Entry> {
        match self.place(serial) {
            Some(i) => Some(&self.entries[i]),
            None => None,
        }
    }

    fn find(&self, alloc: Global, key: &Key) -> Result<Serials, AllocError> {
        let mut found = Serials::new(alloc);
        let mut rest = self.entries.len();
        while rest > 0 {
            rest -= 1;
            let entry = &self.entries[rest];
            if entry.has_key(key) {
                found.insert(entry.serial)?;
            }
        }
        Ok(found)
    }

    fn has_key(&self, key: &Key) -> bool {
        has_entry_with_key(self.entries.as_slice(), key)
    }

    fn find_matching_serials(
        &self,
        alloc: Global,
        key: &Key,
        request: &Fields,
    ) -> Result<Serials, AllocError> {
        let mut found = Serials::new(alloc);
        let mut rest = self.entries.len();
        while rest > 0 {
            rest -= 1;
            let entry = &self.entries[rest];
            if entry.has_key(key) && matches(alloc, &entry.nominated, request)? {
                found.insert(entry.serial)?;
            }
        }
        Ok(found)
    }

    fn find_serials_where<T: EntryTest>(
        &self,
        alloc: Global,
        test: &T,
    ) -> Result<Serials, AllocError> {
        let mut found = Serials::new(alloc);
        let mut rest = self.entries.len();
        while rest > 0 {
            rest -= 1;
            let entry = &self.entries[rest];
            if test.entry_passes_test(entry) {
                found.insert(entry.serial)?;
            }
        }
        Ok(found)
    }

    // What the trait says, and that the list then has room for one more than it held before: a full one that took an
    // entry takes each that follows.
    fn put(&mut self, entry: Entry, replaced: &[u64]) -> Result<Option<Entry>, Entry>
        requires { holds_serial entry.serial self.old.entries ≡ false }
        ensures ok { OnOk result (self.new.entries
            ≡ take self.old.limit (entry ∷ without_serials replaced.now self.old.entries)) }
        ensures evicted { IfOk result (λ out. out
            ≡ slice_get (entry ∷ without_serials replaced.now self.old.entries) self.old.limit) }
        ensures err { OnErr result (self.new.entries ≡ self.old.entries) }
        ensures given_back { IfErr result (λ e. e ≡ entry) }
        ensures taken { length self.old.entries < self.old.room → IsOk result }
        ensures limit { self.new.limit ≡ self.old.limit }
        ensures room { self.old.room ≤ self.new.room }
        ensures made { OnOk result (length self.old.entries < self.new.room) }
    {
        put_first(&mut self.entries, entry, replaced)?;
        Ok(evict_last(&mut self.entries, self.capacity))
    }

    fn freshen(&mut self, entry: Entry) -> Entry {
        match self.place(entry.serial) {
            Some(i) => {
                let old = self.entries.remove(i);
                // The room that was just made takes it.
                let _ = self.entries.insert(0, entry);
                old
            }
            None => entry,
        }
    }

    fn promote(&mut self, serial: u64) -> bool {
        match self.place(serial) {
            Some(i) => {
                let entry = self.entries.remove(i);
                let _ = self.entries.insert(0, entry);
                true
            }
            None => false,
        }
    }

    fn remove(&mut self, serial: u64) -> Option<Entry> {
        match self.place(serial) {
            Some(i) => Some(self.entries.remove(i)),
            None => None,
        }
    }

    fn invalidate(&mut self, key: &Key) -> usize {
        let before = self.entries.len();
        self.entries.retain(|e| !e.has_key(key));
        before - self.entries.len()
    }

    fn expire(&mut self, serials: &[u64], now: u64) {
        expire_each_among(&mut self.entries, serials, now);
    }

    fn evict_last_beyond_weight(&mut self, most: u64) -> Option<Entry> {
        if self.weight() > most {
            let kept = self.entries.len().saturating_sub(1);
            evict_last(&mut self.entries, kept)
        } else {
            None
        }
    }
}
