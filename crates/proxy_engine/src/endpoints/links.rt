//! The links to origins by their places. An answer or a failure may stand where a link is marked.
ghost use Rattle.std.specs.Prelude.{◌≡◌, ◌+◌, ◌≤◌, ◌^◌, ◌++◌, List, length, map, sum_by, IfOk, OnOk, OnErr};
ghost use Rattle.std.specs.Prelude.{None, slice_index_or};
ghost use Rattle.proxy_engine.specs.EngineModel.{LinkModel, no_link, link_accepts_input};
ghost use Rattle.proxy_engine.specs.Reading.{places_with_flag, open_link_model_has_failed, link_end_at};
ghost use Rattle.proxy_engine.specs.Room.{LinkReaderHasRoomFor, most_bytes_of_read};
ghost use Rattle.proxy_engine.specs.Pairing.{owner_of_open_link, owners_of_links};
ghost use Rattle.proxy_engine.specs.State.{ListsAreRelated, LinkRepresents, IsFirstDueLinkFound, work_left_of_link};
ghost use Rattle.proxy_engine.specs.Exhausted.{LookaheadRanOutOfMemory};

use crate::endpoints::ends::Link;
use crate::endpoints::marked_ends::MarkedEnds;
use crate::endpoints::numbers::{ConnectionPlace, LinkPlace};
use crate::readable_ends;
use crate::work::End;
use std::alloc::{AllocError, Global};

/// The links that aren't dropped, and how many were ever opened.
pub(crate) type Links = MarkedEnds<Link>;

impl MarkedEnds<Link> {
    /// Whether bytes may come from the link at a place.
    pub(crate) fn may_read(&self, j: LinkPlace) -> bool
        ensures { (ss : List LinkModel) → ListsAreRelated LinkRepresents self.now.items ss
            → result ≡ link_accepts_input (slice_index_or ss j no_link) }
    {
        match self.get(j) {
            Some(link) => readable_ends::answers(link),
            None => false,
        }
    }

    /// The place of the connection whose request is open on the link at a place.
    pub(crate) fn owner_at(&self, j: LinkPlace) -> Option<ConnectionPlace>
        ensures { result ≡ owner_of_open_link (slice_index_or self.now.items j None) }
    {
        match self.get(j) {
            Some(link) => Some(link.connection),
            None => None,
        }
    }

    /// Adds the links from which bytes may come. The first link has this number.
    pub(crate) fn append_readable_ends(
        &self,
        first: u64,
        ends: &mut Vec<End>,
    ) -> Result<(), AllocError>
        ensures { OnOk result ((ss : List LinkModel) → ListsAreRelated LinkRepresents self.now.items ss
            → first + length ss ≤ 2 ^ 64 → ends.new.items ≡ ends.old.items
            ++ map (link_end_at first) (places_with_flag link_accepts_input 0 ss)) }
    {
        readable_ends::push_readable_links(&self.ends, self.count, first, ends)
    }

    /// Adds the links that have failed. Each of them is marked, so no others are looked at. The first link has this
    /// number.
    pub(crate) fn push_failed_links(
        &self,
        first: u64,
        ends: &mut Vec<End>,
    ) -> Result<(), AllocError>
        ensures { OnOk result ((ss : List LinkModel) → ListsAreRelated LinkRepresents self.now.items ss
            → first + length ss ≤ 2 ^ 64 → ends.new.items ≡ ends.old.items
            ++ map (link_end_at first) (places_with_flag open_link_model_has_failed 0 ss)) }
    {
        let places = self.marked.places();
        readable_ends::push_failed_links(&self.ends, places, self.count, first, ends)
    }

    /// Makes room for one piece of the origin's bytes at a place, if the link isn't dropped.
    pub(crate) fn reserve_room_for_read(&mut self, j: LinkPlace) -> Result<(), AllocError>
        ensures ok { OnOk result (LinkReaderHasRoomFor (slice_index_or self.new.items j None) most_bytes_of_read) }
        ensures represents { (ss : List LinkModel) → ListsAreRelated LinkRepresents self.old.items ss
            → ListsAreRelated LinkRepresents self.new.items ss }
        ensures owners { owners_of_links self.new.items ≡ owners_of_links self.old.items }
        ensures err { OnErr result (self.new ≡ self.old) }
    {
        self.reserve_bytes(j)
    }

    /// The first link whose answer is complete, refused or failed.
    pub(crate) fn find_finished_link(
        &mut self,
        alloc: Global,
    ) -> Result<Option<LinkPlace>, AllocError>
        ensures represents { (ss : List LinkModel) → ListsAreRelated LinkRepresents self.old.items ss
            → ListsAreRelated LinkRepresents self.new.items ss }
        ensures found { IfOk result (λ found. IsFirstDueLinkFound self.new.items found) }
        ensures failed { OnErr result (LookaheadRanOutOfMemory self.new.items) }
        ensures owners { owners_of_links self.new.items ≡ owners_of_links self.old.items }
        ensures load { sum_by work_left_of_link self.new.items ≤ sum_by work_left_of_link self.old.items }
    {
        self.find(alloc)
    }
}
