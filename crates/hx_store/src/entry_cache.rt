//! Entries by their serials, the latest stored or used first. Its own order is that of `lru`.
//!
//! A call costs a look-up of the serial, whatever is held, and no entry is moved. It has no bound of its own.

ghost use Rattle.std.specs.Prelude.{◌≡◌, ◌-◌, ◌∷◌, [], false, true, length, take, slice_get, option_copied, IfOk};
ghost use Rattle.std.specs.Prelude.{IfErr, OnErr, OnOk, Some};
ghost use Rattle.std.specs.List.{filter, list_all};
ghost use Rattle.std.specs.Map.{keys_of};
ghost use Rattle.hx_store.specs.Index.{entry_matches_values, EachMarkIsOfItsEntry};
ghost use Rattle.hx_store.specs.Shelf.{holds_serial, find_entry_of_serial, entry_vary_matches_request, without_serials};
ghost use Rattle.hx_store.specs.Shelf.{entries_with_promoted};
ghost use Rattle.hx_store.specs.Shelf.{serials, serials_of_entries_that_pass, entries_with_serials_expired};

use crate::entries::Entry;
use crate::key_marks::KeyMarks;
use crate::serial_list::Serials;
use crate::shelves::EntryTest;
use hx_fields::Fields;
use hx_vary::{RequestValues, matches};
use lru::LruCache;
use std::alloc::{AllocError, Global};
use std::marker::Model;
use std::mem;

/// Entries, of which callers see the list.
pub(crate) struct EntryCache {
    // Serials are counted up by the owner, so no peer picks what is hashed.
    entries: LruCache<u64, Entry>,
}

/// One call drops it, wherever that is.
impl Drop for EntryCache {
    fn drop(self) {
        let EntryCache { entries: _ } = self;
    }
}

impl Model for EntryCache {
    ghost use Rattle.std.specs.Prelude.{◌≡◌, ◌^◌, ◌-◌, List};
    ghost use Rattle.std.specs.Map.{values_of};
    ghost use Rattle.hx_store.specs.Stored.{Stored};
    ghost use Rattle.hx_store.specs.Keyed.{EntriesHaveDistinctSerials};

    ghost Value = { List Stored };

    ghost view = { λ c. values_of c.entries.entries };

    ghost invariant = { λ c. EntriesHaveDistinctSerials c.entries.entries × (c.entries.cap ≡ 2 ^ 64 - 1) };
}

impl EntryCache {
    /// None. Fails only where memory runs out.
    pub(crate) fn new(alloc: Global) -> Result<EntryCache, AllocError>
        ensures { IfOk result (λ cache. cache ≡ []) }
    {
        Ok(EntryCache {
            entries: LruCache::unbounded(alloc)?,
        })
    }

    /// How many there are.
    pub(crate) fn len(&self) -> usize
        ensures { result ≡ length self.now }
    {
        self.entries.len()
    }

    /// Whether the entry of this serial is here.
    pub(crate) fn contains(&self, serial: u64) -> bool
        ensures { result ≡ holds_serial serial self.now }
    {
        self.entries.contains(&serial)
    }

    /// The entry of this serial, which is not used by this.
    pub(crate) fn peek(&self, serial: u64) -> Option<&Entry>
        ensures { option_copied result ≡ find_entry_of_serial serial self.now }
    {
        self.entries.peek(&serial)
    }

    /// Those of some serials whose entries nominate what the request has. Mostly all do, and no
    /// other list is made. Fails only where memory runs out.
    fn matching(
        &self,
        alloc: Global,
        serials: Serials,
        request: &Fields,
    ) -> Result<Serials, AllocError>
        ensures { IfOk result
            (λ found. found
            ≡ filter (λ s. entry_vary_matches_request request.now (find_entry_of_serial s self.now)) serials) }
    {
        if self.all_match(alloc, serials.as_slice(), request)? {
            return Ok(serials);
        }
        self.collect_matching(alloc, serials.as_slice(), request)
    }

    /// Whether the entries of all of these serials nominate what the request has. Fails only where memory runs out.
    fn all_match(
        &self,
        alloc: Global,
        serials: &[u64],
        request: &Fields,
    ) -> Result<bool, AllocError>
        ensures { IfOk result
            (λ all. all ≡ list_all
            (λ s. entry_vary_matches_request request.now (find_entry_of_serial s self.now)) serials.now) }
    {
        for serial in serials {
            if !self.is_match(alloc, *serial, request)? {
                return Ok(false);
            }
        }
        Ok(true)
    }

    fn collect_matching(
        &self,
        alloc: Global,
        serials: &[u64],
        request: &Fields,
    ) -> Result<Serials, AllocError>
        ensures { IfOk result (λ found. found
            ≡ filter (λ s. entry_vary_matches_request request.now (find_entry_of_serial s self.now)) serials.now) }
    {
        let mut found = Serials::new(alloc);
        for serial in serials {
            if self.is_match(alloc, *serial, request)? {
                found.push(*serial)?;
            }
        }
        Ok(found)
    }

    /// Whether the entry of this serial is here and nominates what the request has. Fails only where memory runs out.
    fn is_match(&self, alloc: Global, serial: u64, request: &Fields) -> Result<bool, AllocError>
        ensures { IfOk result
            (λ is. is ≡ entry_vary_matches_request request.now (find_entry_of_serial serial self.now)) }
    {
        match self.peek(serial) {
            Some(entry) => matches(alloc, &entry.nominated, request),
            None => Ok(false),
        }
    }

    /// Those of the serials of one key whose entries nominate what the request has. Where there are
    /// several, an entry is looked at only where its mark may match. Fails only where memory runs out.
    pub(crate) fn matching_serials_among_marks(
        &self,
        alloc: Global,
        marks: &KeyMarks,
        request: &Fields,
        seed: u64,
    ) -> Result<Serials, AllocError>
        requires { EachMarkIsOfItsEntry seed self.now marks.now }
        ensures { IfOk result (λ found. found
            ≡ filter (λ s. entry_vary_matches_request request.now (find_entry_of_serial s self.now))
            (keys_of marks.now)) }
    {
        if !marks.has_several_serials() {
            let found = marks.list(alloc)?;
            return self.matching(alloc, found, request);
        }
        let asked = RequestValues::of(alloc, request, seed)?;
        let marked = marks.list_possible_matches(alloc, &asked)?;
        self.matching_by_values(alloc, marked.as_slice(), &asked)
    }

    /// Those of some serials whose entries nominate what these values have. Fails only where memory runs out.
    fn matching_by_values(
        &self,
        alloc: Global,
        serials: &[u64],
        asked: &RequestValues,
    ) -> Result<Serials, AllocError>
        ensures { IfOk result (λ found. found
            ≡ filter (λ s. entry_matches_values asked.now.values (find_entry_of_serial s self.now)) serials.now) }
    {
        let mut found = Serials::new(alloc);
        for serial in serials {
            if self.entry_matches_values(*serial, asked)? {
                found.push(*serial)?;
            }
        }
        Ok(found)
    }

    /// Whether the entry of this serial is here and nominates what these values have. Fails only where memory runs out.
    fn entry_matches_values(&self, serial: u64, asked: &RequestValues) -> Result<bool, AllocError>
        ensures { IfOk result
            (λ is. is ≡ entry_matches_values asked.now.values (find_entry_of_serial serial self.now)) }
    {
        match self.peek(serial) {
            Some(entry) => asked.matches(&entry.nominated),
            None => Ok(false),
        }
    }

    /// The serials of the entries that pass a test, ascending. It goes over the entries once, and sorts what it found.
    /// Fails only where memory runs out.
    pub(crate) fn find_serials_where<T: EntryTest>(
        &self,
        alloc: Global,
        test: &T,
    ) -> Result<Serials, AllocError>
        ensures { IfOk result (λ found. found ≡ serials_of_entries_that_pass (T.takes test.now) self.now) }
    {
        let mut found = self.passing(alloc, test)?;
        found.sort();
        Ok(found)
    }

    /// The same in the order of the entries. Fails only where memory runs out.
    fn passing<T: EntryTest>(&self, alloc: Global, test: &T) -> Result<Serials, AllocError>
        ensures { IfOk result (λ found. found ≡ serials (filter (T.takes test.now) self.now)) }
    {
        let mut found = Serials::new(alloc);
        for (_, entry) in self.entries.iter() {
            if test.entry_passes_test(entry) {
                found.push(entry.serial)?;
            }
        }
        Ok(found)
    }

    /// Puts an entry first. Where memory runs out nothing has changed, and the entry is handed back.
    pub(crate) fn store(&mut self, entry: Entry) -> Result<(), Entry>
        requires { holds_serial entry.serial self.old ≡ false }
        ensures ok { OnOk result (self.new ≡ entry ∷ self.old) }
        ensures err { OnErr result (self.new ≡ self.old) }
        ensures given_back { IfErr result (λ e. e ≡ entry) }
    {
        let _held = self.entries.len();
        match self.entries.put(entry.serial, entry) {
            Ok(_) => Ok(()),
            Err(refused) => {
                let (_, entry) = refused.value;
                Err(entry)
            }
        }
    }

    /// Puts a new form of a held entry in its place, first, and hands the old one back. No memory is taken.
    pub(crate) fn replace(&mut self, entry: Entry) -> Entry
        requires { holds_serial entry.serial self.old ≡ true }
        ensures value { find_entry_of_serial entry.serial self.old ≡ Some result }
        ensures entries { self.new ≡ entry ∷ without_serials (entry.serial ∷ []) self.old }
    {
        match self.entries.get_mut(&entry.serial) {
            Some(held) => mem::replace(held, entry),
            None => entry,
        }
    }

    /// Brings the entry of this serial to the front. No memory is taken.
    pub(crate) fn promote(&mut self, serial: u64) -> bool
        ensures value { result ≡ holds_serial serial self.old }
        ensures entries { self.new ≡ entries_with_promoted serial self.old }
    {
        self.entries.promote(&serial)
    }

    /// Expires the entry of this serial at a moment, if it is here. It stays where it is. No memory is taken.
    pub(crate) fn expire(&mut self, serial: u64, now: u64)
        ensures { self.new ≡ entries_with_serials_expired (serial ∷ []) now self.old }
    {
        if let Some(entry) = self.entries.peek_mut(&serial) {
            entry.expire(now);
        }
    }

    /// Takes the entry of this serial out. No memory is taken.
    pub(crate) fn remove(&mut self, serial: u64) -> Option<Entry>
        ensures value { result ≡ find_entry_of_serial serial self.old }
        ensures entries { self.new ≡ without_serials (serial ∷ []) self.old }
    {
        self.entries.pop(&serial)
    }

    /// Takes the last one out. No memory is taken.
    pub(crate) fn pop_last(&mut self) -> Option<Entry>
        ensures value { result ≡ slice_get self.old (length self.old - 1) }
        ensures entries { self.new ≡ take (length self.old - 1) self.old }
    {
        match self.entries.pop_lru() {
            Some((_, entry)) => Some(entry),
            None => None,
        }
    }
}
