//! The ends that are open, one after another: from which of them bytes may come, and which have failed.
ghost use Rattle.std.specs.Prelude.{◌≡◌, ◌≢◌, ℕ, ◌+◌, ◌≤◌, ◌^◌, ◌++◌, length, map, true, OnOk, OnErr};
ghost use Rattle.std.specs.Prelude.{Contains, Some, is_some};
ghost use Rattle.std.specs.Option.{option_copied};
ghost use Rattle.std.specs.Ordering.{nat_cmp};
ghost use Rattle.std.specs.BTreeMap.{get};
ghost use Rattle.proxy_engine.specs.Held.{open_end_has_flag, is_true_of_every_end, client_of_connection_may_send};
ghost use Rattle.proxy_engine.specs.Held.{link_may_send};
ghost use Rattle.proxy_engine.specs.Held.{open_link_has_failed};
ghost use Rattle.proxy_engine.specs.Marked.{DiffersOnlyInSpareRoom, ContentsOfPlacesAreRelated, NoEndIsOpenBeyond};
ghost use Rattle.proxy_engine.specs.ReadyList.{entries_below, PlacesAscend, PlacesAreBelow};
ghost use Rattle.proxy_engine.specs.Reading.{places_with_flag, client_end_at, link_end_at, IsBetweenRequests};
ghost use Rattle.proxy_engine.specs.State.{ConnectionMatchesModel};
ghost use Rattle.proxy_engine.specs.EngineModel.{ConnectionModel};
ghost use Rattle.proxy_engine.specs.Room.{HasRoomForBytes, SpareRoomIsReleased, most_bytes_of_read};

use crate::endpoints::boxed::Boxed;
use crate::endpoints::endpoint::Endpoint;
use crate::endpoints::ends::{Connection, Link};
use crate::endpoints::numbers::{connection_number_of_place, link_number_of_place};
use crate::work::End;
use std::alloc::{AllocError, Global};
use std::collections::BTreeMap;

/// The most bytes of one read.
const PIECE: usize = 4096;

/// Whether bytes may come from the client.
pub(crate) fn reads(connection: &Connection) -> bool
    ensures { result ≡ client_of_connection_may_send connection.now }
{
    !connection.gone && !connection.ended && !connection.activity.has_exchange()
}

/// Whether the client is between two requests.
pub(crate) fn client_is_between_requests(connection: &Connection) -> bool
    ensures { (c : ConnectionModel) → ConnectionMatchesModel connection.now c → result ≡ true → IsBetweenRequests c }
{
    reads(connection) && connection.reader.is_between_requests()
}

/// Whether bytes may come from the origin.
pub(crate) fn answers(link: &Link) -> bool
    ensures { result ≡ link_may_send link.now }
{
    link.failed.is_none() && !link.ended
}

/// How many ends are at places below a count, where none is beyond: one may be at the count, where the next will be.
pub(crate) fn open_end_count(ends: &BTreeMap<u64, Boxed<Connection>>, count: u64) -> usize
    requires { NoEndIsOpenBeyond count (get nat_cmp ends.now) }
    ensures { result
        ≡ length (places_with_flag (open_end_has_flag is_true_of_every_end) 0 (entries_below ends.now count)) }
{
    let beyond = if ends.contains_key(&count) { 1 } else { 0 };
    ends.len().saturating_sub(beyond)
}

/// Adds the clients from which bytes may come, of those at places below a count.
pub(crate) fn push_readable_clients(
    ends: &BTreeMap<u64, Boxed<Connection>>,
    count: u64,
    list: &mut Vec<End>,
) -> Result<(), AllocError>
    ensures { OnOk result (list.new.items ≡ list.old.items
        ++ map client_end_at
        (places_with_flag (open_end_has_flag client_of_connection_may_send) 0 (entries_below ends.now count))) }
{
    for (i, connection) in ends {
        if *i < count && reads(connection.get()) {
            list.push(End::Client(connection_number_of_place(*i)))?;
        }
    }
    Ok(())
}

/// Adds the links from which bytes may come, of those at places below a count. The first link has this number.
pub(crate) fn push_readable_links(
    ends: &BTreeMap<u64, Boxed<Link>>,
    count: u64,
    first: u64,
    list: &mut Vec<End>,
) -> Result<(), AllocError>
    ensures { OnOk result (first + count ≤ 2 ^ 64 → list.new.items ≡ list.old.items
        ++ map (link_end_at first)
        (places_with_flag (open_end_has_flag link_may_send) 0 (entries_below ends.now count))) }
{
    for (j, link) in ends {
        if *j < count && answers(link.get()) {
            list.push(End::Link(link_number_of_place(first, *j)))?;
        }
    }
    Ok(())
}

/// Whether a link is at a place that has failed.
fn has_failed_at(ends: &BTreeMap<u64, Boxed<Link>>, place: u64) -> bool
    ensures { result ≡ open_end_has_flag open_link_has_failed (get nat_cmp ends.now place) }
{
    match end_at(ends, place) {
        Some(link) => link.failed.is_some(),
        None => false,
    }
}

/// Adds the links that have failed, of those at places below a count. Each is at one of the given places, the least
/// first, and no other is looked at. The first link has this number.
pub(crate) fn push_failed_links(
    ends: &BTreeMap<u64, Boxed<Link>>,
    places: &[u64],
    count: u64,
    first: u64,
    list: &mut Vec<End>,
) -> Result<(), AllocError>
    requires rises { PlacesAscend places.now }
    requires below { PlacesAreBelow count places.now }
    requires marked { (j : ℕ) (link : Link) → get nat_cmp ends.now j ≡ Some link → open_link_has_failed link ≡ true
        → Contains places.now j }
    ensures { OnOk result (first + count ≤ 2 ^ 64 → list.new.items ≡ list.old.items
        ++ map (link_end_at first)
        (places_with_flag (open_end_has_flag open_link_has_failed) 0 (entries_below ends.now count))) }
{
    for place in places {
        if has_failed_at(ends, *place) {
            list.push(End::Link(link_number_of_place(first, *place)))?;
        }
    }
    Ok(())
}

/// The end at a place, if one is there.
pub(crate) fn end_at<E>(ends: &BTreeMap<u64, Boxed<E>>, place: u64) -> Option<&E>
    ensures { option_copied result ≡ get nat_cmp ends.now place }
{
    match ends.get(&place) {
        Some(end) => Some(end.get()),
        None => None,
    }
}

/// Puts an end into the box at a place.
pub(crate) fn put_end_in_box_at<E: Drop>(ends: &mut BTreeMap<u64, Boxed<E>>, place: u64, end: E)
    requires { is_some (get nat_cmp ends.old place) ≡ true }
    ensures here { get nat_cmp ends.new place ≡ Some end }
    ensures others { (q : ℕ) → q ≢ place → get nat_cmp ends.new q ≡ get nat_cmp ends.old q }
    ensures size { length ends.new.entries ≡ length ends.old.entries }
{
    if let Some(boxed) = ends.get_mut(&place) {
        boxed.set(end);
    }
}

/// Makes room for one piece at a place, if an end is there.
pub(crate) fn reserve_piece_at<E: Endpoint>(
    ends: &mut BTreeMap<u64, Boxed<E>>,
    place: u64,
) -> Result<(), AllocError>
    ensures grows { ContentsOfPlacesAreRelated (DiffersOnlyInSpareRoom E.LooksLike E.may_show) (get nat_cmp ends.old)
        (get nat_cmp ends.new) }
    ensures others { (q : ℕ) → q ≢ place → get nat_cmp ends.new q ≡ get nat_cmp ends.old q }
    ensures size { length ends.new.entries ≡ length ends.old.entries }
    ensures ok { OnOk result (HasRoomForBytes E.spare (get nat_cmp ends.new place) most_bytes_of_read) }
    ensures err { OnErr result (get nat_cmp ends.new place ≡ get nat_cmp ends.old place) }
{
    match ends.get_mut(&place) {
        Some(end) => end.get_mut().reserve(PIECE),
        None => Ok(()),
    }
}

/// Gives back the room of the end at a place, if one is there and no byte waits.
pub(crate) fn release_room_of_end_at<E: Endpoint>(
    ends: &mut BTreeMap<u64, Boxed<E>>,
    place: u64,
    alloc: Global,
)
    ensures alike { ContentsOfPlacesAreRelated (DiffersOnlyInSpareRoom E.LooksLike E.may_show) (get nat_cmp ends.old)
        (get nat_cmp ends.new) }
    ensures others { (q : ℕ) → q ≢ place → get nat_cmp ends.new q ≡ get nat_cmp ends.old q }
    ensures size { length ends.new.entries ≡ length ends.old.entries }
    ensures given { SpareRoomIsReleased E.unread E.spare (get nat_cmp ends.new place) }
{
    if let Some(end) = ends.get_mut(&place) {
        end.get_mut().release_room(alloc);
    }
}
