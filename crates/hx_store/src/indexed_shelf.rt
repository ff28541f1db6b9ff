//! A shelf whose entries are found by hashes of their serials and keys. What a call costs goes by
//! what it hands back or takes out, and by the variants of one key, not by what is held. It moves no
//! entry.

ghost use Rattle.std.specs.Prelude.{◌≡◌, [], IfOk};

use crate::entries::Entry;
use crate::indexed_entries::IndexedEntries;
use crate::serial_list::Serials;
use crate::shelves::{EntryTest, Shelf};
use hx_fields::Fields;
use hx_target::Key;
use std::alloc::{AllocError, Global};
use std::marker::Model;

/// A store with an index.
pub struct IndexedShelf {
    capacity: usize,
    held: IndexedEntries,
}

/// One call drops it, wherever that is.
impl Drop for IndexedShelf {
    fn drop(self) {
        let IndexedShelf {
            capacity: _,
            held: _,
        } = self;
    }
}

impl Model for IndexedShelf {
    ghost use Rattle.std.specs.Prelude.{◌≤◌, length};
    ghost use Rattle.hx_store.specs.Shelf.{ShelfModel};

    ghost Value = { ShelfModel };

    ghost view = { λ s. record { limit = s.capacity; entries = s.held; room = 0 } };

    ghost invariant = { λ s. length s.held ≤ s.capacity };
}

impl IndexedShelf {
    /// An empty store that holds at most `capacity` entries. Memory for those is taken as they come. Fails for want
    /// of memory alone.
    pub fn new(alloc: Global, capacity: usize) -> Result<IndexedShelf, AllocError>
        ensures { IfOk result (λ shelf. shelf ≡ record { limit = capacity; entries = []; room = 0 }) }
    {
        IndexedShelf::seeded(alloc, capacity, 0)
    }

    /// The same, with a seed for the hashes by which entries are found, and variants told apart before
    /// they are looked at. It changes no answer. Where nobody knows it, nobody can choose requests that
    /// cost more than others. Fails only where memory runs out.
    pub fn seeded(alloc: Global, capacity: usize, seed: u64) -> Result<IndexedShelf, AllocError>
        ensures { IfOk result (λ shelf. shelf ≡ record { limit = capacity; entries = []; room = 0 }) }
    {
        Ok(IndexedShelf {
            capacity,
            held: IndexedEntries::new(alloc, seed)?,
        })
    }
}

impl Shelf for IndexedShelf {
    ghost entries = { λ s. s.entries };

    ghost limit = { λ s. s.limit };

    // Its index allocates with each new entry.
    ghost room = { λ s. s.room };

    fn capacity(&self) -> usize {
        self.capacity
    }

    fn len(&self) -> usize {
        self.held.len()
    }

    fn weight(&self) -> u64 {
        self.held.weight()
    }

    fn contains(&self, serial: u64) -> bool {
        self.held.contains(serial)
    }

    fn peek(&self, serial: u64) -> Option<&Entry> {
        self.held.peek(serial)
    }

    fn find(&self, alloc: Global, key: &Key) -> Result<Serials, AllocError> {
        self.held.find(alloc, key)
    }

    fn has_key(&self, key: &Key) -> bool {
        self.held.has_key(key)
    }

    fn find_matching_serials(
        &self,
        alloc: Global,
        key: &Key,
        request: &Fields,
    ) -> Result<Serials, AllocError> {
        self.held.find_matching_serials(alloc, key, request)
    }

    fn find_serials_where<T: EntryTest>(
        &self,
        alloc: Global,
        test: &T,
    ) -> Result<Serials, AllocError> {
        self.held.find_serials_where(alloc, test)
    }

    fn put(&mut self, entry: Entry, replaced: &[u64]) -> Result<Option<Entry>, Entry> {
        let serial = entry.serial;
        // The new entry goes in first: where memory is refused, the replaced ones have to stay.
        self.held.store(entry)?;
        self.held.remove_serials_but_one(serial, replaced);
        Ok(self.held.evict_last_beyond_capacity(self.capacity))
    }

    fn freshen(&mut self, entry: Entry) -> Entry {
        self.held.replace(entry)
    }

    fn promote(&mut self, serial: u64) -> bool {
        self.held.promote(serial)
    }

    fn remove(&mut self, serial: u64) -> Option<Entry> {
        self.held.remove(serial)
    }

    fn invalidate(&mut self, key: &Key) -> usize {
        let before = self.held.len();
        self.held.remove_key(key);
        before - self.held.len()
    }

    fn expire(&mut self, serials: &[u64], now: u64) {
        self.held.expire(serials, now);
    }

    fn evict_last_beyond_weight(&mut self, most: u64) -> Option<Entry> {
        self.held.evict_last_beyond_weight(most)
    }
}
