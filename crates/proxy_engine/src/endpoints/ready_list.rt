//! Places at which something may be due: none is there twice, and the least is at hand.
ghost use Rattle.std.specs.Prelude.{◌≡◌, ◌≢◌, ◌⊎◌, ℕ, ◌+◌, ◌*◌, ◌-◌, ◌<◌, ◌≤◌, max, [], length, drop, Contains, IfSome};
ghost use Rattle.std.specs.Prelude.{IfNone, IfOk, IfErr, OnOk, slice_index_or, vec_len, vec_capacity};
ghost use Rattle.proxy_engine.specs.ReadyList.{PlacesAscend, IsInsertionIndexOfPlace, PlaceIsLeast};

use std::alloc::{AllocError, Global};
use std::collections::BTreeMap;
use std::marker::Model;

/// Places, the least first. Those before `first` are taken off already, so that taking off the least moves no other
/// place, as adding a greater one doesn't. Where room was made, no memory is taken to add one.
#[derive(Drop)]
pub(crate) struct ReadyList {
    items: Vec<u64>,
    first: usize,
}

impl Model for ReadyList {
    ghost use Rattle.std.specs.Prelude.{◌≤◌, length, drop, vec_capacity};
    ghost use Rattle.proxy_engine.specs.ReadyList.{ReadyPlaces, PlacesAscend};

    ghost Value = { ReadyPlaces };

    ghost view = { λ p. record { places = drop p.first p.items.items; room = vec_capacity p.items } };

    ghost invariant = { λ p. (p.first ≤ length p.items.items) × PlacesAscend (drop p.first p.items.items) };
}

/// Where a place stands, or behind how many lesser ones it belongs.
fn find(places: &[u64], place: u64) -> Result<usize, usize>
    requires { PlacesAscend places.now }
    ensures there { IfOk result (λ at. (at < length places.now) × (slice_index_or places.now at 0 ≡ place)) }
    ensures behind { IfErr result (λ count. IsInsertionIndexOfPlace places.now place count) }
{
    places.binary_search_by(|x| x.cmp(&place))
}

/// Where the vector is full, cuts off the places that are taken off, which makes room without memory. The number of
/// those that are still at the front.
fn reuse_front(items: &mut Vec<u64>, first: usize) -> usize
    requires { first ≤ vec_len items.old }
    ensures first { result ≤ vec_len items.new }
    ensures places { drop result items.new.items ≡ drop first items.old.items }
    ensures room { vec_capacity items.new ≡ vec_capacity items.old }
    ensures some { vec_len items.old < first + vec_capacity items.old → vec_len items.new < vec_capacity items.new }
{
    let len = items.len();
    if len < items.capacity() {
        return first;
    }
    items.copy_within(first..len, 0);
    items.truncate(len - first);
    0
}

impl ReadyList {
    pub(crate) fn new(alloc: Global) -> Self
        ensures { result.places ≡ [] }
    {
        ReadyList {
            items: Vec::new(alloc),
            first: 0,
        }
    }

    /// The places, the least first.
    pub(crate) fn places(&self) -> &[u64]
        ensures { result.now ≡ self.now.places }
    {
        &self.items[self.first..]
    }

    /// Makes room for at least twice the places of what is open and of one more: for four times as many, where there is
    /// less. So where the vector is full, at least half of it is taken off already, and to cut that off moves no more
    /// places than it frees. The room goes by how many were open at a time, and not by how many ever were.
    pub(crate) fn reserve_for_open_ends<T>(
        &mut self,
        ends: &BTreeMap<u64, T>,
    ) -> Result<(), AllocError>
        ensures places { self.new.places ≡ self.old.places }
        ensures room { self.old.room ≤ self.new.room }
        ensures ok { OnOk result (2 * (length ends.now.entries + 1) ≤ self.new.room) }
        ensures most { self.new.room ≤ max self.old.room (4 * (length ends.now.entries + 1)) }
    {
        let wanted = (ends.len() + 1).saturating_mul(2);
        if wanted <= self.items.capacity() {
            return Ok(());
        }
        let missing = wanted.saturating_mul(2).saturating_sub(self.items.len());
        self.items.reserve_exact(missing)
    }

    /// Adds a place, if it isn't there.
    pub(crate) fn put(&mut self, place: u64)
        requires { Contains self.old.places place ⊎ (length self.old.places < self.old.room) }
        ensures there { Contains self.new.places place }
        ensures others { (q : ℕ) → Contains self.old.places q → Contains self.new.places q }
        ensures only { (q : ℕ) → q ≢ place → Contains self.new.places q → Contains self.old.places q }
        ensures room { self.new.room ≡ self.old.room }
        ensures rises { PlacesAscend self.new.places }
    {
        match find(self.places(), place) {
            Ok(_) => {}
            Err(count) => {
                self.first = reuse_front(&mut self.items, self.first);
                let _ = self.items.insert(self.first + count, place);
            }
        }
    }

    /// Takes a place away, if it is there.
    pub(crate) fn remove(&mut self, place: u64)
        ensures others { (q : ℕ) → q ≢ place → Contains self.old.places q → Contains self.new.places q }
        ensures only { (q : ℕ) → Contains self.new.places q → (q ≢ place) × Contains self.old.places q }
        ensures room { self.new.room ≡ self.old.room }
        ensures rises { PlacesAscend self.new.places }
    {
        match find(self.places(), place) {
            Ok(0) => self.drop_least(),
            Ok(at) => {
                self.items.remove(self.first + at);
            }
            Err(_) => {}
        }
    }

    /// The least place.
    pub(crate) fn least(&self) -> Option<u64>
        ensures none { IfNone result (self.now.places ≡ []) }
        ensures some { IfSome result (λ place. PlaceIsLeast self.now.places place) }
    {
        self.items.get(self.first).copied()
    }

    /// Drops the least place, if there is one.
    pub(crate) fn drop_least(&mut self)
        ensures others { (p q : ℕ) → PlaceIsLeast self.old.places p → q ≢ p → Contains self.old.places q
            → Contains self.new.places q }
        ensures only { (p q : ℕ) → PlaceIsLeast self.old.places p → Contains self.new.places q → (q ≢ p)
            × Contains self.old.places q }
        ensures fewer { length self.new.places ≡ length self.old.places - 1 }
        ensures room { self.new.room ≡ self.old.room }
        ensures rises { PlacesAscend self.new.places }
    {
        if self.items.len() - self.first > 1 {
            self.first += 1;
        } else {
            self.items.clear();
            self.first = 0;
        }
    }
}
