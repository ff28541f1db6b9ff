//! The first place at which something is due. What `poll` finds is kept, so nothing is read twice.
ghost use Rattle.std.specs.Prelude.{◌≡◌, ◌≢◌, ℕ, length, true, false, is_some, IfOk, IfSome, IfNone, OnOk, OnErr};
ghost use Rattle.std.specs.Prelude.{MatchOption, Contains, Some};
ghost use Rattle.std.specs.Ordering.{nat_cmp};
ghost use Rattle.std.specs.BTreeMap.{get};
ghost use Rattle.proxy_engine.specs.ReadyList.{FlaggedPlacesAreMarked};
ghost use Rattle.proxy_engine.specs.Exhausted.{IsOpenWithFlag};
ghost use Rattle.proxy_engine.specs.Held.{open_end_has_flag};
ghost use Rattle.proxy_engine.specs.Reading.{places_with_flag};
ghost use Rattle.proxy_engine.specs.Marked.{is_gone_with_exchange, ContentsOfPlacesAreRelated, NoOpenEndBelowHasFlag};
ghost use Rattle.proxy_engine.specs.Marked.{NoOpenEndHasFlag};
ghost use Rattle.proxy_engine.specs.Marked.{link_of_disconnected_exchange_at, end_if_open_at};
ghost use Rattle.proxy_engine.specs.Marked.{DisconnectedExchangesAreMarked};

use crate::endpoints::boxed::Boxed;
use crate::endpoints::endpoint::Endpoint;
use crate::endpoints::ends::Connection;
use crate::endpoints::marked_ends::MarkedEnds;
use crate::endpoints::numbers::{ConnectionPlace, LinkPlace, Place};
use crate::endpoints::ready_list::ReadyList;
use std::alloc::{AllocError, Global};
use std::collections::BTreeMap;

/// Whether the connection at a place is gone with an open exchange.
fn is_lost(ends: &MarkedEnds<Connection>, i: ConnectionPlace) -> bool
    ensures { result ≡ open_end_has_flag is_gone_with_exchange (end_if_open_at ends.now.items i) }
{
    match ends.get(i) {
        Some(connection) => connection.gone && connection.activity.has_exchange(),
        None => false,
    }
}

/// Whether the connection at a place is gone with an open exchange, and its link, if its request went forward.
fn lost_link(ends: &MarkedEnds<Connection>, i: ConnectionPlace) -> Option<Option<LinkPlace>>
    ensures { result ≡ link_of_disconnected_exchange_at (end_if_open_at ends.now.items i) }
{
    match ends.get(i) {
        Some(connection) => {
            if connection.gone && connection.activity.has_exchange() {
                Some(connection.activity.link())
            } else {
                None
            }
        }
        None => None,
    }
}

/// The first connection that is gone with an open exchange, and its link, if its request went forward. Places are
/// dropped where none is.
pub(crate) fn first_disconnected_exchange(
    ends: &MarkedEnds<Connection>,
    lost: &mut ReadyList,
) -> Option<(ConnectionPlace, Option<LinkPlace>)>
    requires { DisconnectedExchangesAreMarked ends.now lost.old }
    ensures marked { DisconnectedExchangesAreMarked ends.now lost.new }
    ensures none { IfNone result (NoOpenEndHasFlag is_gone_with_exchange (end_if_open_at ends.now.items)) }
    ensures some { IfSome result (λ p. (link_of_disconnected_exchange_at (end_if_open_at ends.now.items p.0) ≡ Some p.1)
        × NoOpenEndBelowHasFlag is_gone_with_exchange (end_if_open_at ends.now.items) p.0) }
{
    while let Some(i) = lost.least() {
        let place = ConnectionPlace::at(i);
        if let Some(link) = lost_link(ends, place) {
            return Some((place, link));
        }
        lost.drop_least();
    }
    None
}

/// How many connections are gone with an open exchange. Each is at a marked place, and no other is looked at.
pub(crate) fn disconnected_exchange_count(ends: &MarkedEnds<Connection>, lost: &ReadyList) -> usize
    requires { DisconnectedExchangesAreMarked ends.now lost.now }
    ensures { result ≡ length (places_with_flag (open_end_has_flag is_gone_with_exchange) 0 ends.now.items) }
{
    let places = lost.places();
    let mut count = 0;
    for place in places {
        if is_lost(ends, ConnectionPlace::at(*place)) {
            count += 1;
        }
    }
    count
}

/// Whether something is due at a place.
fn poll_at<E: Endpoint>(
    ends: &mut BTreeMap<u64, Boxed<E>>,
    place: u64,
    alloc: Global,
) -> Result<bool, AllocError>
    ensures alike { ContentsOfPlacesAreRelated E.LooksLike (get nat_cmp ends.old) (get nat_cmp ends.new) }
    ensures others { (q : ℕ) → q ≢ place → get nat_cmp ends.new q ≡ get nat_cmp ends.old q }
    ensures size { length ends.new.entries ≡ length ends.old.entries }
    ensures yes { IfOk result (λ b. b ≡ true → E.IsShown (get nat_cmp ends.new place)) }
    ensures no { IfOk result (λ b. b ≡ false → (x : E) → get nat_cmp ends.new place ≡ Some x → E.may_show x ≡ false) }
    ensures failed { OnErr result (IsOpenWithFlag E.is_unknown (get nat_cmp ends.new place)) }
{
    match ends.get_mut(&place) {
        Some(end) => end.get_mut().poll(alloc),
        None => Ok(false),
    }
}

/// The first end at which something is due. Places are dropped where nothing is.
pub(crate) fn first_due_place<E: Endpoint>(
    ends: &mut BTreeMap<u64, Boxed<E>>,
    marked: &mut ReadyList,
    alloc: Global,
) -> Result<Option<Place<E::Kind>>, AllocError>
    requires { FlaggedPlacesAreMarked E.may_show (get nat_cmp ends.old) (length ends.old.entries) marked.old }
    ensures marked { FlaggedPlacesAreMarked E.may_show (get nat_cmp ends.new) (length ends.new.entries) marked.new }
    ensures fewer { (q : ℕ) → Contains marked.new.places q → Contains marked.old.places q }
    ensures alike { ContentsOfPlacesAreRelated E.LooksLike (get nat_cmp ends.old) (get nat_cmp ends.new) }
    ensures size { length ends.new.entries ≡ length ends.old.entries }
    ensures found { IfOk result (λ found. MatchOption found (NoOpenEndHasFlag E.may_show (get nat_cmp ends.new))
        (λ place. E.IsShown (get nat_cmp ends.new place) × NoOpenEndBelowHasFlag E.may_show (get nat_cmp ends.new) place
        × Contains marked.old.places place)) }
    ensures failed { OnErr result ((place : ℕ) × IsOpenWithFlag E.is_unknown (get nat_cmp ends.new place)
        × NoOpenEndBelowHasFlag E.may_show (get nat_cmp ends.new) place × Contains marked.old.places place) }
{
    while let Some(place) = marked.least() {
        if poll_at(ends, place, alloc)? {
            return Ok(Some(Place::at(place)));
        }
        marked.drop_least();
    }
    Ok(None)
}
