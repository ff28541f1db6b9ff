//! Ends by their places, and at which of them something may be due.
ghost use Rattle.std.specs.Prelude.{◌≡◌, ℕ, ◌+◌, ◌<◌, ◌≤◌, ◌++◌, ◌∷◌, [], length, true, false, is_some, Some, None};
ghost use Rattle.std.specs.Prelude.{IsOk, IfOk, OnOk, OnErr, MatchOption, slice_index_or, slice_set};
ghost use Rattle.std.specs.Option.{option_copied, option_copied_mut};
ghost use Rattle.std.specs.Borrow.{LendsIf, sem};
ghost use Rattle.proxy_engine.specs.Exhausted.{IsOpenWithFlag};
ghost use Rattle.proxy_engine.specs.Marked.{end_if_open_at, open_end_count, DiffersOnlyInSpareRoom};
ghost use Rattle.proxy_engine.specs.Marked.{ContentsOfPlacesAreRelated};
ghost use Rattle.proxy_engine.specs.Marked.{NoOpenEndBelowHasFlag, NoOpenEndHasFlag};
ghost use Rattle.proxy_engine.specs.Room.{HasRoomForBytes, SpareRoomIsReleased, most_bytes_of_read};

use crate::endpoints::boxed::Boxed;
use crate::endpoints::endpoint::Endpoint;
use crate::endpoints::numbers::Place;
use crate::endpoints::ready_list::ReadyList;
use crate::readable_ends;
use crate::steps::finds::first_due_place;
use std::alloc::{AllocError, Global};
use std::collections::BTreeMap;
use std::marker::Model;

/// The ends of one kind that aren't over, and how many there ever were. Where something may be due at one, its place is
/// marked; whatever changes one marks it. So a search looks at marked places alone. Behind the last stands an empty one
/// where there is room for one more. Each is in a box of its own, since a tree whose keys ascend is half empty.
#[derive(Drop)]
pub(crate) struct MarkedEnds<E: Endpoint> {
    pub(crate) ends: BTreeMap<u64, Boxed<E>>,
    pub(crate) count: u64,
    spare: bool,
    pub(crate) marked: ReadyList,
}

impl<E: Endpoint> Model for MarkedEnds<E> {
    ghost use Rattle.std.specs.Prelude.{◌≡◌, ◌+◌, ◌^◌, ◌<◌, is_some, true, length};
    ghost use Rattle.std.specs.Ordering.{nat_cmp};
    ghost use Rattle.std.specs.BTreeMap.{get};
    ghost use Rattle.proxy_engine.specs.ReadyList.{entries_below, PlacesAreBelow, FlaggedPlacesAreMarked};
    ghost use Rattle.proxy_engine.specs.Marked.{EndList, NoEndIsOpenBeyond};

    ghost Value = { EndList E };

    ghost view = { λ c. record { items = entries_below c.ends c.count; has_room = c.spare } };

    ghost invariant = { λ c. FlaggedPlacesAreMarked E.may_show (get nat_cmp c.ends) (length c.ends.entries) c.marked
        × PlacesAreBelow c.count c.marked.places
        × (c.spare ≡ true → (is_some (get nat_cmp c.ends c.count) ≡ true) × (c.count + 1 < 2 ^ 64))
        × NoEndIsOpenBeyond c.count (get nat_cmp c.ends) };
}

impl<E: Endpoint> MarkedEnds<E> {
    ghost use Rattle.proxy_engine.specs.contracts.endpoints.marked_ends.MarkedEnds.{the_row};

    pub(crate) fn new(alloc: Global) -> Self
        ensures items { result.items ≡ [] }
        ensures room { result.has_room ≡ false }
    {
        MarkedEnds {
            ends: BTreeMap::new(alloc),
            count: 0,
            spare: false,
            marked: ReadyList::new(alloc),
        }
    }

    /// How many there ever were.
    pub(crate) fn len(&self) -> u64
        ensures { result ≡ length self.now.items }
    {
        self.count
    }

    /// The place behind the last.
    pub(crate) fn next_place(&self) -> Place<E::Kind>
        ensures { result ≡ length self.now.items }
    {
        Place::at(self.count)
    }

    /// The end at a place, if it isn't over.
    pub(crate) fn get(&self, place: Place<E::Kind>) -> Option<&E>
        ensures { option_copied result ≡ end_if_open_at self.now.items place }
    {
        let key = place.key();
        if key >= self.count {
            return None;
        }
        readable_ends::end_at(&self.ends, key)
    }

    /// The end at a place, which isn't over.
    pub(crate) fn at(&self, place: Place<E::Kind>) -> &E
        requires { is_some (slice_index_or self.now.items place None) ≡ true }
        ensures { slice_index_or self.now.items place None ≡ Some result.now }
    {
        let key = place.key();
        self.ends[&key].get()
    }

    /// The end at a place, to be changed, if it isn't over. Something may be due there afterwards.
    pub(crate) fn at_mut(&mut self, place: Place<E::Kind>) -> Option<&mut E>
        requires { place < length self.old.items }
        ensures* writes_back { sem 𝓛 (LendsIf (the_row E.row E.Kind.row E.Endpoint) E.row self.entry result
            (λ w. record { items = slice_set self.old.items place (Some w); has_room = self.old.has_room }) self.old) }
        ensures value { option_copied_mut result ≡ slice_index_or self.old.items place None }
    {
        if !self.ends.contains_key(&place.key()) {
            return None;
        }
        self.change(place)
    }

    /// The end at a place, which isn't over, to be changed. Something may be due there afterwards.
    pub(crate) fn change(&mut self, place: Place<E::Kind>) -> Option<&mut E>
        requires { is_some (slice_index_or self.old.items place None) ≡ true }
        ensures* writes_back { sem 𝓛 (LendsIf (the_row E.row E.Kind.row E.Endpoint) E.row self.entry result
            (λ w. record { items = slice_set self.old.items place (Some w); has_room = self.old.has_room }) self.old) }
        ensures value { option_copied_mut result ≡ slice_index_or self.old.items place None }
    {
        let key = place.key();
        self.marked.put(key);
        match self.ends.get_mut(&key) {
            Some(end) => Some(end.get_mut()),
            None => None,
        }
    }

    /// Whether an empty one stands behind the last.
    pub(crate) fn has_room(&self) -> bool
        ensures { result ≡ self.now.has_room }
    {
        self.spare
    }

    /// Makes room for one more, and for the mark at its place. An empty end stands there until then.
    pub(crate) fn reserve_place(&mut self, alloc: Global) -> Result<(), AllocError>
        ensures items { self.new.items ≡ self.old.items }
        ensures ok { OnOk result (self.new.has_room ≡ true) }
        ensures reserved { self.old.has_room ≡ true → IsOk result }
        ensures err { OnErr result (self.new ≡ self.old) }
    {
        if self.spare {
            return Ok(());
        }
        let next = self.count;
        if next == u64::MAX {
            return Err(AllocError);
        }
        let end = Boxed::new(alloc, E::empty(alloc))?;
        self.marked.reserve_for_open_ends(&self.ends)?;
        self.ends.insert(next, end)?;
        self.spare = true;
        Ok(())
    }

    /// Makes room for marks in another list, of what isn't over and of one more.
    pub(crate) fn reserve_marks(&self, marks: &mut ReadyList) -> Result<(), AllocError>
        ensures places { marks.new.places ≡ marks.old.places }
        ensures room { marks.old.room ≤ marks.new.room }
        ensures ok { OnOk result (open_end_count self.now.items + 1 ≤ marks.new.room) }
    {
        marks.reserve_for_open_ends(&self.ends)
    }

    /// Puts an end into the box behind the last. The box is there, so nothing is allocated.
    pub(crate) fn put(&mut self, end: E)
        requires { self.old.has_room ≡ true }
        ensures items { self.new.items ≡ self.old.items ++ Some end ∷ [] }
        ensures room { self.new.has_room ≡ false }
    {
        let next = self.count;
        self.marked.put(next);
        readable_ends::put_end_in_box_at(&mut self.ends, next, end);
        self.count = next + 1;
        self.spare = false;
    }

    /// Makes room for one piece of bytes at a place, if the end isn't over.
    pub(crate) fn reserve_bytes(&mut self, place: Place<E::Kind>) -> Result<(), AllocError>
        ensures ok { OnOk result (HasRoomForBytes E.spare (end_if_open_at self.new.items place) most_bytes_of_read) }
        ensures grows { ContentsOfPlacesAreRelated (DiffersOnlyInSpareRoom E.LooksLike E.may_show)
            (end_if_open_at self.old.items) (end_if_open_at self.new.items) }
        ensures length { length self.new.items ≡ length self.old.items }
        ensures room { self.new.has_room ≡ self.old.has_room }
        ensures err { OnErr result (self.new ≡ self.old) }
    {
        let key = place.key();
        if key >= self.count {
            return Ok(());
        }
        readable_ends::reserve_piece_at(&mut self.ends, key)
    }

    /// Gives back the room for bytes at a place, if the end isn't over and no byte waits there.
    pub(crate) fn release_room(&mut self, place: Place<E::Kind>, alloc: Global)
        ensures given { SpareRoomIsReleased E.unread E.spare (end_if_open_at self.new.items place) }
        ensures alike { ContentsOfPlacesAreRelated (DiffersOnlyInSpareRoom E.LooksLike E.may_show)
            (end_if_open_at self.old.items) (end_if_open_at self.new.items) }
        ensures length { length self.new.items ≡ length self.old.items }
        ensures room { self.new.has_room ≡ self.old.has_room }
    {
        let key = place.key();
        if key >= self.count {
            return;
        }
        readable_ends::release_room_of_end_at(&mut self.ends, key, alloc);
    }

    /// Lets go of the end at a place, which is over.
    pub(crate) fn release(&mut self, place: Place<E::Kind>)
        requires { place < length self.old.items }
        ensures items { self.new.items ≡ slice_set self.old.items place None }
        ensures room { self.new.has_room ≡ self.old.has_room }
    {
        let key = place.key();
        let _ = self.ends.remove(&key);
        self.marked.remove(key);
    }

    /// The first end at which something is due. What is found there is kept.
    pub(crate) fn find(&mut self, alloc: Global) -> Result<Option<Place<E::Kind>>, AllocError>
        ensures alike { ContentsOfPlacesAreRelated E.LooksLike (end_if_open_at self.old.items)
            (end_if_open_at self.new.items) }
        ensures length { length self.new.items ≡ length self.old.items }
        ensures room { self.new.has_room ≡ self.old.has_room }
        ensures found { IfOk result
            (λ found. MatchOption found (NoOpenEndHasFlag E.may_show (end_if_open_at self.new.items))
            (λ place. E.IsShown (end_if_open_at self.new.items place)
            × NoOpenEndBelowHasFlag E.may_show (end_if_open_at self.new.items) place
            × (place < length self.new.items))) }
        ensures failed { OnErr result ((place : ℕ) × IsOpenWithFlag E.is_unknown (end_if_open_at self.new.items place)
            × NoOpenEndBelowHasFlag E.may_show (end_if_open_at self.new.items) place
            × (place < length self.new.items)) }
    {
        first_due_place(&mut self.ends, &mut self.marked, alloc)
    }
}
