//! A store that counts what it holds and what went out of it, for the page of figures.
//!
//! Each call is that of the store inside; who counts is no part of what contracts see.
ghost use Rattle.std.specs.Prelude.{◌≡◌};

use hx_fields::Fields;
use hx_store::{Entry, EntryTest, Serials, Shelf};
use hx_target::Key;
use std::alloc::{AllocError, Global};
use std::cell::Cell;

/// How many responses a store holds, and how many went out of it. No contract says what stands in a cell.
#[derive(Drop)]
pub struct StoreCounts {
    held: Cell<u64>,
    weight: Cell<u64>,
    evicted: Cell<u64>,
    /// Seconds for which those had been stored, all together.
    evicted_seconds: Cell<u64>,
    /// When a response was stored last, in Unix seconds.
    latest: Cell<u64>,
    removed: Cell<u64>,
}

fn add(count: &Cell<u64>, more: usize) {
    count.set(count.get().saturating_add(more as u64));
}

impl StoreCounts {
    pub fn new() -> StoreCounts {
        StoreCounts {
            held: Cell::new(0),
            weight: Cell::new(0),
            evicted: Cell::new(0),
            evicted_seconds: Cell::new(0),
            latest: Cell::new(0),
            removed: Cell::new(0),
        }
    }

    /// Responses that are held.
    pub fn held(&self) -> u64 {
        self.held.get()
    }

    /// Bytes that they weigh together.
    pub fn weight(&self) -> u64 {
        self.weight.get()
    }

    /// Responses that went since the store was full.
    pub fn evicted(&self) -> u64 {
        self.evicted.get()
    }

    /// Seconds for which those had been stored since they were received or freshened, all together.
    pub fn evicted_seconds(&self) -> u64 {
        self.evicted_seconds.get()
    }

    /// Responses that were replaced, invalidated or not kept.
    pub fn removed(&self) -> u64 {
        self.removed.get()
    }
}

/// A store, and where it counts.
#[derive(Drop)]
pub struct CountedShelf<'a, S: Shelf + Drop> {
    shelf: S,
    counts: &'a StoreCounts,
}

impl<'a, S: Shelf + Drop> CountedShelf<'a, S> {
    pub fn new(shelf: S, counts: &'a StoreCounts) -> CountedShelf<'a, S>
        ensures { result.shelf ≡ shelf }
    {
        CountedShelf { shelf, counts }
    }

    /// Counts how many are held, and what they weigh.
    fn count_held(&self) {
        self.counts.held.set(self.shelf.len() as u64);
        self.counts.weight.set(self.shelf.weight());
    }

    /// Counts a response that went since the store was full, and for how long it had been stored.
    fn count_evicted(&self, out: &Option<Entry>) {
        let Some(entry) = out else {
            return;
        };
        add(&self.counts.evicted, 1);
        let seconds = self
            .counts
            .latest
            .get()
            .saturating_sub(entry.times.response_time);
        let before = self.counts.evicted_seconds.get();
        self.counts
            .evicted_seconds
            .set(before.saturating_add(seconds));
    }

    /// Counts what went out where a response was stored; so many were held before.
    fn count_put(&self, before: usize, put: &Result<Option<Entry>, Entry>) {
        let Ok(out) = put else {
            return;
        };
        let evicted = usize::from(out.is_some());
        let kept = self.shelf.len().saturating_add(evicted);
        self.count_evicted(out);
        add(
            &self.counts.removed,
            before.saturating_add(1).saturating_sub(kept),
        );
        self.count_held();
    }

    /// Counts what was taken out.
    fn count_out(&self, count: usize) {
        add(&self.counts.removed, count);
        self.count_held();
    }
}

impl<'a, S: Shelf + Drop> Shelf for CountedShelf<'a, S> {
    ghost entries = { λ s. S.entries s.shelf };

    ghost limit = { λ s. S.limit s.shelf };

    ghost room = { λ s. S.room s.shelf };

    fn capacity(&self) -> usize {
        self.shelf.capacity()
    }

    fn len(&self) -> usize {
        self.shelf.len()
    }

    fn weight(&self) -> u64 {
        self.shelf.weight()
    }

    fn contains(&self, serial: u64) -> bool {
        self.shelf.contains(serial)
    }

    fn peek(&self, serial: u64) -> Option<&Entry> {
        self.shelf.peek(serial)
    }

    fn find(&self, alloc: Global, key: &Key) -> Result<Serials, AllocError> {
        self.shelf.find(alloc, key)
    }

    fn has_key(&self, key: &Key) -> bool {
        self.shelf.has_key(key)
    }

    fn find_matching_serials(
        &self,
        alloc: Global,
        key: &Key,
        request: &Fields,
    ) -> Result<Serials, AllocError> {
        self.shelf.find_matching_serials(alloc, key, request)
    }

    fn find_serials_where<T: EntryTest>(
        &self,
        alloc: Global,
        test: &T,
    ) -> Result<Serials, AllocError> {
        self.shelf.find_serials_where(alloc, test)
    }

    fn put(&mut self, entry: Entry, replaced: &[u64]) -> Result<Option<Entry>, Entry> {
        let before = self.shelf.len();
        self.counts.latest.set(entry.times.response_time);
        let put = self.shelf.put(entry, replaced);
        self.count_put(before, &put);
        put
    }

    fn freshen(&mut self, entry: Entry) -> Entry {
        let old = self.shelf.freshen(entry);
        self.count_held();
        old
    }

    fn promote(&mut self, serial: u64) -> bool {
        self.shelf.promote(serial)
    }

    fn remove(&mut self, serial: u64) -> Option<Entry> {
        let out = self.shelf.remove(serial);
        self.count_out(usize::from(out.is_some()));
        out
    }

    fn invalidate(&mut self, key: &Key) -> usize {
        let count = self.shelf.invalidate(key);
        self.count_out(count);
        count
    }

    // What is expired stays held, and weighs what it did.
    fn expire(&mut self, serials: &[u64], now: u64) {
        self.shelf.expire(serials, now);
    }

    fn evict_last_beyond_weight(&mut self, most: u64) -> Option<Entry> {
        let out = self.shelf.evict_last_beyond_weight(most);
        self.count_evicted(&out);
        self.count_held();
        out
    }
}
