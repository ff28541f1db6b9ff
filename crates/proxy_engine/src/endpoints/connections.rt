//! The connections of clients by their places, and at which of them something may be due.
ghost use Rattle.std.specs.Prelude.{◌≡◌, ◌+◌, ◌<◌, ◌≤◌, ◌^◌, ◌++◌, ◌∷◌, [], List, length, map, nat_lt, if◌then◌else◌};
ghost use Rattle.std.specs.Prelude.{sum_by, true, is_some, IsOk, IfOk, IfSome, IfNone, OnOk, OnErr, Some, None};
ghost use Rattle.std.specs.Prelude.{slice_index_or, slice_set};
ghost use Rattle.std.specs.Option.{option_copied_mut};
ghost use Rattle.std.specs.Borrow.{LendsIf, sem};
ghost use Rattle.proxy_engine.specs.ConnectionNumbers.{connection_number_of_place};
ghost use Rattle.proxy_engine.specs.EngineModel.{ConnectionModel, no_connection};
ghost use Rattle.proxy_engine.specs.Due.{IsFirstAtWhich, IsGoneWhileBusy};
ghost use Rattle.proxy_engine.specs.Reading.{places_with_flag, connection_is_open_in_model};
ghost use Rattle.proxy_engine.specs.Reading.{connection_may_send_request, client_end_at, IsBetweenRequests};
ghost use Rattle.proxy_engine.specs.Room.{ConnectionReaderHasRoomFor, ConnectionRoomIsReleased, most_bytes_of_read};
ghost use Rattle.proxy_engine.specs.Activities.{link_place_of_activity, has_exchange};
ghost use Rattle.proxy_engine.specs.Pairing.{activity_at, activity_of_connection, activities_of_connections};
ghost use Rattle.proxy_engine.specs.State.{ListsAreRelated, ConnectionRepresents, is_gone_if_connection};
ghost use Rattle.proxy_engine.specs.State.{NoDisconnectedClientHasExchange};
ghost use Rattle.proxy_engine.specs.State.{IsFirstDueConnectionFound, is_retired_connection};
ghost use Rattle.proxy_engine.specs.State.{work_left_of_connection};

use crate::endpoints::ends::Connection;
use crate::endpoints::marked_ends::MarkedEnds;
use crate::endpoints::numbers::{ConnectionPlace, LinkPlace, number_of_next_connection};
use crate::endpoints::ready_list::ReadyList;
use crate::readable_ends;
use crate::steps::finds::{disconnected_exchange_count, first_disconnected_exchange};
use crate::work::End;
use std::alloc::{AllocError, Global};
use std::marker::Model;

/// The connections that aren't over, and how many were ever accepted. Where a stream may ask for something its place is
/// marked, and beside that where a connection may be gone with an open exchange: those are looked for first.
#[derive(Drop)]
pub(crate) struct Connections {
    ends: MarkedEnds<Connection>,
    lost: ReadyList,
}

impl Model for Connections {
    ghost use Rattle.proxy_engine.specs.Marked.{EndList, DisconnectedExchangesAreMarked};
    ghost use Rattle.proxy_engine.specs.declared.endpoints.ends.Connection.{Connection};

    ghost Value = { EndList Connection };

    ghost view = { λ c. c.ends };

    ghost invariant = { λ c. DisconnectedExchangesAreMarked c.ends c.lost };
}

impl Connections {
    ghost use Rattle.proxy_engine.specs.contracts.endpoints.connections.Connections.{the_row};
    ghost use Rattle.proxy_engine.specs.contracts.endpoints.ends.Connection.{the_row as connection_row};

    pub(crate) fn new(alloc: Global) -> Self
        ensures { result.items ≡ [] }
    {
        Connections {
            ends: MarkedEnds::new(alloc),
            lost: ReadyList::new(alloc),
        }
    }

    /// How many were ever accepted.
    pub(crate) fn len(&self) -> u64
        ensures { result ≡ length self.now.items }
    {
        self.ends.len()
    }

    /// The connection at a place, which isn't over.
    pub(crate) fn at(&self, i: ConnectionPlace) -> &Connection
        requires { is_some (slice_index_or self.now.items i None) ≡ true }
        ensures { slice_index_or self.now.items i None ≡ Some result.now }
    {
        self.ends.at(i)
    }

    /// The number of the connection at a place, and the id of its exchange.
    pub(crate) fn number_at(&self, i: ConnectionPlace) -> u64
        requires { i < length self.now.items }
        ensures { result ≡ connection_number_of_place i }
    {
        let count = self.len();
        prove!(i.key() < count);
        i.number()
    }

    /// Whether the connection at a place has an open exchange.
    pub(crate) fn has_exchange(&self, i: ConnectionPlace) -> bool
        requires { i < length self.now.items }
        ensures { result ≡ has_exchange (activity_of_connection (slice_index_or self.now.items i None)) }
    {
        match self.ends.get(i) {
            Some(connection) => connection.activity.has_exchange(),
            None => false,
        }
    }

    /// Whether the connection at a place is to end.
    pub(crate) fn is_retired(&self, i: ConnectionPlace) -> bool
        ensures { result ≡ is_retired_connection (slice_index_or self.now.items i None) }
    {
        match self.ends.get(i) {
            Some(connection) => connection.retired,
            None => false,
        }
    }

    /// Whether the client at a place is between two requests.
    pub(crate) fn client_is_between_requests(&self, i: ConnectionPlace) -> bool
        ensures { (ss : List ConnectionModel) → ListsAreRelated ConnectionRepresents self.now.items ss → result ≡ true
            → IsBetweenRequests (slice_index_or ss i no_connection) }
    {
        match self.ends.get(i) {
            Some(connection) => readable_ends::client_is_between_requests(connection),
            None => false,
        }
    }

    /// Whether bytes may come from the client at a place.
    pub(crate) fn may_read(&self, i: ConnectionPlace) -> bool
        ensures { (ss : List ConnectionModel) → ListsAreRelated ConnectionRepresents self.now.items ss
            → result ≡ connection_may_send_request (slice_index_or ss i no_connection) }
    {
        match self.ends.get(i) {
            Some(connection) => readable_ends::reads(connection),
            None => false,
        }
    }

    /// The place of the link on which the request of the client at a place went forward, if one did.
    pub(crate) fn link_of(&self, i: ConnectionPlace) -> Option<LinkPlace>
        ensures { (ss : List ConnectionModel) → ListsAreRelated ConnectionRepresents self.now.items ss
            → result ≡ link_place_of_activity (slice_index_or ss i no_connection).activity }
    {
        match self.ends.get(i) {
            Some(connection) => connection.activity.link(),
            None => None,
        }
    }

    /// The connection at a place, to be changed, if it isn't over. Something may be due there afterwards.
    pub(crate) fn at_mut(&mut self, i: ConnectionPlace) -> Option<&mut Connection>
        requires { i < length self.old.items }
        ensures* writes_back { sem 𝓛 (LendsIf the_row connection_row self.entry result
            (λ w. record { items = slice_set self.old.items i (Some w); has_room = self.old.has_room }) self.old) }
        ensures value { option_copied_mut result ≡ slice_index_or self.old.items i None }
    {
        if self.ends.get(i).is_none() {
            return None;
        }
        self.lost.put(i.key());
        self.ends.change(i)
    }

    /// Makes room for one more, and for the marks at its place.
    pub(crate) fn reserve_place(&mut self, alloc: Global) -> Result<(), AllocError>
        ensures items { self.new.items ≡ self.old.items }
        ensures ok { OnOk result (self.new.has_room ≡ true) }
        ensures reserved { self.old.has_room ≡ true → IsOk result }
        ensures err { OnErr result (self.new ≡ self.old) }
    {
        if self.ends.has_room() {
            return Ok(());
        }
        self.ends.reserve_marks(&mut self.lost)?;
        self.ends.reserve_place(alloc)
    }

    /// Puts a connection at the place behind the last, and marks it. Where there is room for it, nothing is allocated.
    pub(crate) fn accept(&mut self, alloc: Global, connection: Connection) -> Result<(), AllocError>
        ensures ok { OnOk result (self.new.items ≡ self.old.items ++ Some connection ∷ []) }
        ensures reserved { self.old.has_room ≡ true → IsOk result }
        ensures err { OnErr result (self.new ≡ self.old) }
    {
        self.reserve_place(alloc)?;
        self.lost.put(self.ends.len());
        self.ends.put(connection);
        Ok(())
    }

    /// The number of the next connection, if one is left.
    pub(crate) fn next_number(&self) -> Option<u64>
        ensures { result ≡ (if nat_lt (connection_number_of_place (length self.now.items))
            (2 ^ 64) then Some (connection_number_of_place (length self.now.items)) else None) }
    {
        number_of_next_connection(self.ends.len())
    }

    /// Whether fewer than this are open: of those that are kept, all but the ones that are gone, which are marked.
    pub(crate) fn are_fewer_open(&self, most: usize) -> bool
        ensures { (ss : List ConnectionModel) → ListsAreRelated ConnectionRepresents self.now.items ss → result
            ≡ nat_lt (length (places_with_flag connection_is_open_in_model 0 ss)) most }
    {
        let kept = readable_ends::open_end_count(&self.ends.ends, self.ends.count);
        let gone = disconnected_exchange_count(&self.ends, &self.lost);
        kept.saturating_sub(gone) < most
    }

    /// Adds the clients from which bytes may come.
    pub(crate) fn append_readable_ends(&self, ends: &mut Vec<End>) -> Result<(), AllocError>
        ensures { OnOk result ((ss : List ConnectionModel) → ListsAreRelated ConnectionRepresents self.now.items ss
            → ends.new.items ≡ ends.old.items ++ map client_end_at
            (places_with_flag connection_may_send_request 0 ss)) }
    {
        let open = &self.ends;
        readable_ends::push_readable_clients(&open.ends, open.count, ends)
    }

    /// Makes room for one piece of the client's bytes at a place, if the connection isn't over.
    pub(crate) fn reserve_room_for_read(&mut self, i: ConnectionPlace) -> Result<(), AllocError>
        ensures ok { OnOk result
            (ConnectionReaderHasRoomFor (slice_index_or self.new.items i None) most_bytes_of_read) }
        ensures represents { (ss : List ConnectionModel) → ListsAreRelated ConnectionRepresents self.old.items ss
            → ListsAreRelated ConnectionRepresents self.new.items ss }
        ensures activities { activities_of_connections self.new.items ≡ activities_of_connections self.old.items }
        ensures err { OnErr result (self.new ≡ self.old) }
    {
        self.ends.reserve_bytes(i)
    }

    /// Gives back the room for the client's bytes at a place, where none waits.
    pub(crate) fn release_room(&mut self, i: ConnectionPlace, alloc: Global)
        ensures given { ConnectionRoomIsReleased (slice_index_or self.new.items i None) }
        ensures represents { (ss : List ConnectionModel) → ListsAreRelated ConnectionRepresents self.old.items ss
            → ListsAreRelated ConnectionRepresents self.new.items ss }
        ensures activities { activities_of_connections self.new.items ≡ activities_of_connections self.old.items }
        ensures room { self.new.has_room ≡ self.old.has_room }
    {
        self.ends.release_room(i, alloc)
    }

    /// Lets go of the connection at a place, which is over.
    pub(crate) fn release(&mut self, i: ConnectionPlace)
        requires { i < length self.old.items }
        ensures { self.new.items ≡ slice_set self.old.items i None }
    {
        self.ends.release(i);
        self.lost.remove(i.key());
    }

    /// The first connection that is gone with an open exchange, and its link, if its request went forward.
    pub(crate) fn find_disconnected_exchange(
        &mut self,
    ) -> Option<(ConnectionPlace, Option<LinkPlace>)>
        ensures same { self.new.items ≡ self.old.items }
        ensures first { (ss : List ConnectionModel) → ListsAreRelated ConnectionRepresents self.old.items ss
            → IsFirstAtWhich IsGoneWhileBusy no_connection ss result }
        ensures none { IfNone result (NoDisconnectedClientHasExchange self.old.items) }
        ensures open { IfSome result (λ p. has_exchange (activity_at (activities_of_connections self.old.items) p.0)
            ≡ true) }
        ensures linked { IfSome result
            (λ p. link_place_of_activity (activity_at (activities_of_connections self.old.items) p.0)
            ≡ p.1) }
        ensures gone { IfSome result (λ p. is_gone_if_connection (slice_index_or self.old.items p.0 None) ≡ Some true) }
    {
        first_disconnected_exchange(&self.ends, &mut self.lost)
    }

    /// The first connection on which something is due.
    pub(crate) fn find_due(&mut self, alloc: Global) -> Result<Option<ConnectionPlace>, AllocError>
        ensures represents { (ss : List ConnectionModel) → ListsAreRelated ConnectionRepresents self.old.items ss
            → ListsAreRelated ConnectionRepresents self.new.items ss }
        ensures found { IfOk result (λ found. IsFirstDueConnectionFound self.new.items found) }
        ensures activities { activities_of_connections self.new.items ≡ activities_of_connections self.old.items }
        ensures load { sum_by work_left_of_connection self.new.items ≤ sum_by work_left_of_connection self.old.items }
    {
        self.ends.find(alloc)
    }
}
