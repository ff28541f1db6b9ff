//! The engine: connections of clients, links to origins, and the core between them.
ghost use Rattle.std.specs.Prelude.{◌≡◌, ◌≢◌, ◌<◌, ◌≤◌, ◌-◌, nat_lt, [], length, IfOk, IfErr, OnOk, OnErr, Some};
ghost use Rattle.std.specs.Prelude.{option_copied};
ghost use Rattle.std.specs.Prelude.{Err, true};
ghost use Rattle.proxy_core.specs.AnsweredRequests.{request_of_exchange};
ghost use Rattle.proxy_core.specs.Outcomes.{find_exchange};
ghost use Rattle.proxy_core.specs.Starts.{StoreAtStartIsValid};
ghost use Rattle.proxy_core.specs.State.{bounds_of};
ghost use Rattle.proxy_core.specs.Traces.{initial_state};
ghost use Rattle.proxy_engine.specs.EngineModel.{EngineModel, connection_at, happening_adds_connection_or_bytes};
ghost use Rattle.proxy_engine.specs.Happenings.{model_of_happening, happening_takes_memory};
ghost use Rattle.proxy_engine.specs.Reading.{readable_ends_of, failed_links, open_connection_count};
ghost use Rattle.proxy_engine.specs.Reading.{next_connection_number, end_may_send, IsBetweenRequests};
ghost use Rattle.proxy_engine.specs.Pairing.{owner_of_link_number};
ghost use Rattle.proxy_engine.specs.Reading.{link_of_connection, line_of_exchange, line_of_link};
ghost use Rattle.proxy_core.specs.Leading.{is_waiting};
ghost use Rattle.proxy_engine.specs.Happenings.{Overdues};
ghost use Rattle.proxy_engine.specs.Reading.{origin_timeout_of_link, wait_timeout_of_client, wait_timeout_of_exchange};
ghost use Rattle.proxy_engine.specs.Room.{HappeningFindsMemory, NextHappeningFindsMemory, ClientRoomIsReleased};
ghost use Rattle.proxy_engine.specs.State.{State, EngineRepresents, EngineTakesHappening, IsFaultOfTakingHappening};
ghost use Rattle.proxy_engine.specs.State.{new_engine_model};

use crate::endpoints::connections::Connections;
use crate::endpoints::links::Links;
use crate::endpoints::numbers::{ConnectionPlace, LinkPlace};
use crate::endpoints::open_ends::Ends;
use crate::takes;
use crate::work::{End, EngineFault};
use hx_allow::Table;
use hx_hop::Asked;
use hx_store::Shelf;
use proxy_core::{Core, Stage};
use proxy_script::Happening;
use std::alloc::{AllocError, Global};
use std::marker::Model;

/// The request of an exchange, if that is open.
fn request_of_exchange<S: Shelf>(core: &Core<S>, id: u64) -> Option<&Asked>
    ensures { option_copied result ≡ request_of_exchange (find_exchange id core.now.exchanges) }
{
    match core.exchange(id) {
        Some(exchange) => Some(&exchange.asked),
        None => None,
    }
}

/// The line over which the request of an exchange went forward, if that is open.
fn line_of_exchange<S: Shelf>(core: &Core<S>, id: u64) -> Option<u16>
    ensures { result ≡ line_of_exchange (find_exchange id core.now.exchanges) }
{
    match core.exchange(id) {
        Some(exchange) => Some(exchange.line.number),
        None => None,
    }
}

/// For how many seconds the request of an exchange waits for the answer to another, where it does.
fn wait_timeout_of_exchange<S: Shelf>(core: &Core<S>, id: u64) -> Option<u32>
    ensures { result ≡ wait_timeout_of_exchange core.now.table.lines (find_exchange id core.now.exchanges) }
{
    let Some(exchange) = core.exchange(id) else {
        return None;
    };
    if is_waiting(exchange.stage) {
        core.config().wait_timeout(exchange.line.number)
    } else {
        None
    }
}

/// Whether a request waits for the answer to another.
fn is_waiting(stage: Stage) -> bool
    ensures { result ≡ is_waiting stage }
{
    match stage {
        Stage::Waiting(_) => true,
        Stage::Forwarded | Stage::Released => false,
    }
}

/// The proxy without sockets. It is told what happens, and asked for what is to be done.
///
/// Contracts see its `State`, and speak of the models that it represents: the streams as they came, the messages
/// that were used of them, and what was done.
pub struct Engine<S: Shelf> {
    pub(crate) ends: Ends,
    pub(crate) core: Core<S>,
}

/// One call drops it, wherever that is.
impl<S: Shelf + Drop> Drop for Engine<S> {
    fn drop(self) {
        let Engine { ends: _, core: _ } = self;
    }
}

impl<S: Shelf> Model for Engine<S> {
    ghost use Rattle.proxy_engine.specs.State.{State, engine_state_of_parts};
    ghost use Rattle.proxy_engine.specs.Pairing.{ConnectionsAndLinksOfStateArePaired};

    ghost Value = { State };

    ghost view = { λ e. record {
      connections = e.ends.connections.items;
      links = e.ends.links.items;
      core = e.core;
      first = e.ends.first_link;
      room = e.ends.connections.has_room;
    } };

    ghost invariant = { λ e. ConnectionsAndLinksOfStateArePaired
        (engine_state_of_parts e.ends.connections.items e.ends.links.items e.core e.ends.first_link) };
}

impl<S: Shelf> Engine<S> {
    /// An engine that nothing has happened to. The shelf is empty and has the configured capacity; serials of
    /// stored responses begin at `first_serial`, 1 or more, numbers of links at `first_link`.
    pub fn new(alloc: Global, config: Table, shelf: S, first_serial: u64, first_link: u64) -> Self
        requires { S.entries shelf ≡ [] }
        ensures { EngineRepresents result (new_engine_model
            (record {
              table = config;
              limit = S.limit shelf;
              entries = [];
              exchanges = [];
              next = Some first_serial;
            }) first_link) }
    {
        Engine {
            ends: Ends {
                connections: Connections::new(alloc),
                links: Links::new(alloc),
                first_link,
            },
            core: Core::new(alloc, config, shelf, first_serial),
        }
    }

    /// The same over a shelf that holds what a store held before: no serial twice, each below `first_serial`, from
    /// which the serials go on, and within the bounds of the shelf and of the table's `max_store`.
    pub fn with_store(
        alloc: Global,
        config: Table,
        shelf: S,
        first_serial: u64,
        first_link: u64,
    ) -> Self
        requires { StoreAtStartIsValid (bounds_of config (S.limit shelf)) (Some first_serial) (S.entries shelf) }
        ensures { EngineRepresents result (new_engine_model
            (initial_state config (record { limit = S.limit shelf; entries = S.entries shelf }) first_serial)
            first_link) }
    {
        Engine {
            ends: Ends {
                connections: Connections::new(alloc),
                links: Links::new(alloc),
                first_link,
            },
            core: Core::with_store(alloc, config, shelf, first_serial),
        }
    }

    /// How many exchanges are open.
    pub fn open_exchanges(&self) -> usize
        ensures { result ≡ length self.now.core.exchanges }
    {
        self.core.open_count()
    }

    /// The shelf with what it holds, and the next serial if one is left: what another engine may begin with, where no
    /// exchange is open.
    pub fn into_shelf_and_next_serial(self) -> (S, Option<u64>)
        ensures entries { S.entries result.0 ≡ self.core.entries }
        ensures limit { S.limit result.0 ≡ self.core.limit }
        ensures next { result.1 ≡ self.core.next }
    {
        let Engine { ends: _, core } = self;
        core.into_shelf_and_next_serial()
    }

    /// Takes what happened. An `Err` changes nothing, and says out of memory only where no other refusal stands.
    pub fn take(&mut self, alloc: Global, happening: Happening<'_>) -> Result<(), EngineFault>
        ensures ok { OnOk result ((s : EngineModel) → EngineRepresents self.old s → EngineTakesHappening s
            (model_of_happening happening.entry) self.new) }
        ensures fault { IfErr result (λ fault. (s : EngineModel) → EngineRepresents self.old s
            → IsFaultOfTakingHappening s (model_of_happening happening.entry) fault) }
        // Only connections and bytes allocate, and bytes only of an end that is still read.
        ensures memory { result ≡ Err EngineFault.OutOfMemory → happening_takes_memory
            (model_of_happening happening.entry) ≡ true }
        ensures kept { result ≡ Err EngineFault.OutOfMemory → (s : EngineModel) → EngineRepresents self.old s
            → happening_adds_connection_or_bytes s (model_of_happening happening.entry) ≡ true }
        ensures reserved { HappeningFindsMemory self.old (model_of_happening happening.entry)
            → result ≢ Err EngineFault.OutOfMemory }
        ensures unchanged { OnErr result (self.new ≡ self.old) }
    {
        match happening {
            Happening::Accept(n) => {
                let max_body = self.core.config().max_body();
                takes::accept(&mut self.ends.connections, alloc, max_body, n)
            }
            Happening::Client(n, bytes) => takes::take_client_bytes(
                &mut self.ends.connections,
                n,
                bytes,
            ),
            Happening::Link(l, bytes) => takes::take_link_bytes(
                &mut self.ends.links,
                self.ends.first_link,
                l,
                bytes,
            ),
            Happening::End(n) => takes::note_end_of_client_input(&mut self.ends.connections, n),
            Happening::Gone(n) => takes::note_client_left(&mut self.ends.connections, n),
            Happening::Retire(n) => takes::retire_client(&mut self.ends.connections, n),
            Happening::Overdue(n) => self.overdue(n),
            Happening::Shut(l) => takes::note_end_of_link_input(
                &mut self.ends.links,
                self.ends.first_link,
                l,
            ),
            Happening::Fail(l, kind) => takes::note_link_failure(
                &mut self.ends.links,
                self.ends.first_link,
                l,
                kind,
            ),
        }
    }

    /// The request of a client has waited for the answer to another as long as it is to wait.
    fn overdue(&mut self, n: u64) -> Result<(), EngineFault>
        ensures ok { OnOk result ((s : EngineModel) → EngineRepresents self.old s → EngineTakesHappening s
            (Overdues n) self.new) }
        ensures fault { IfErr result (λ fault. (s : EngineModel) → EngineRepresents self.old s
            → IsFaultOfTakingHappening s (Overdues n) fault) }
        ensures memory { IfErr result (λ fault. fault ≡ EngineFault.NotWaiting) }
        ensures unchanged { OnErr result (self.new ≡ self.old) }
    {
        match self.core.end_wait_on_timeout(n) {
            Ok(_) => {}
            Err(_) => return Err(EngineFault::NotWaiting),
        }
        Ok(())
    }

    /// The seconds for which the request of a client waits for the answer to another, where it does and the line over
    /// which it came says so.
    pub fn wait_timeout(&self, n: u64) -> Option<u32>
        ensures { (s : EngineModel) → EngineRepresents self.now s → result ≡ wait_timeout_of_client s n }
    {
        wait_timeout_of_exchange(&self.core, n)
    }

    /// Makes room, so that the next `take` of that end finds its memory: of an accept for the listener, of at most
    /// 4,096 bytes for another end. An `Err` changes nothing.
    pub fn reserve(&mut self, alloc: Global, end: End) -> Result<(), AllocError>
        ensures ok { OnOk result (NextHappeningFindsMemory self.new end) }
        ensures represents { (s : EngineModel) → EngineRepresents self.old s → EngineRepresents self.new s }
        ensures err { OnErr result (self.new ≡ self.old) }
    {
        match end {
            End::Listener => {
                if self.ends.connections.next_number().is_none() {
                    return Ok(());
                }
                self.ends.connections.reserve_place(alloc)
            }
            End::Client(n) => self
                .ends
                .connections
                .reserve_room_for_read(ConnectionPlace::of_number(n)),
            End::Link(l) => self
                .ends
                .links
                .reserve_room_for_read(LinkPlace::of_number(l, self.ends.first_link)),
        }
    }

    /// Gives back the room for the bytes of a client of which none waits, as `reserve` made it: who is idle keeps
    /// none. Its next bytes find their memory after a `reserve` again.
    pub fn release_room(&mut self, alloc: Global, n: u64)
        ensures given { ClientRoomIsReleased self.new n }
        ensures represents { (s : EngineModel) → EngineRepresents self.old s → EngineRepresents self.new s }
    {
        self.ends
            .connections
            .release_room(ConnectionPlace::of_number(n), alloc)
    }

    /// The number of the next connection, if one is left.
    pub fn number_of_next_connection(&self) -> Option<u64>
        ensures { (s : EngineModel) → EngineRepresents self.now s → result ≡ next_connection_number s }
    {
        self.ends.connections.next_number()
    }

    /// Whether fewer connections than this are open. They aren't counted one by one: only those are looked at that may
    /// be gone with an open exchange.
    pub fn has_fewer_connections(&self, most: usize) -> bool
        ensures { (s : EngineModel) → EngineRepresents self.now s → result ≡ nat_lt (open_connection_count s) most }
    {
        self.ends.connections.are_fewer_open(most)
    }

    /// Whether a client is between two requests: it is open, has no open exchange, its input hasn't ended, and each
    /// byte that it has sent belongs to a request that was used. So nothing is lost where it is taken as gone, and its
    /// stream goes on under another number.
    pub fn is_client_between_requests(&self, n: u64) -> bool
        ensures { (s : EngineModel) → EngineRepresents self.now s → result ≡ true → IsBetweenRequests
            (connection_at s (n - 1)) }
    {
        self.ends
            .connections
            .client_is_between_requests(ConnectionPlace::of_number(n))
    }

    /// Whether bytes may come from an end: a link that isn't dropped, failed or shut, or an open client without an
    /// exchange whose input hasn't ended. None come from the listener, nor from what has no such number.
    pub fn may_read(&self, end: End) -> bool
        ensures { (s : EngineModel) → EngineRepresents self.now s → result ≡ end_may_send s end }
    {
        match end {
            End::Listener => false,
            End::Client(n) => {
                let place = ConnectionPlace::of_number(n);
                0 < n && self.ends.connections.may_read(place)
            }
            End::Link(l) => {
                let first = self.ends.first_link;
                let place = LinkPlace::of_number(l, first);
                first <= l && self.ends.links.may_read(place)
            }
        }
    }

    /// The link on which the request of a client went forward, if one did that isn't answered.
    pub fn link_of_client(&self, n: u64) -> Option<u64>
        ensures { (s : EngineModel) → EngineRepresents self.now s → result ≡ link_of_connection s n }
    {
        let place = ConnectionPlace::of_number(n);
        match self.ends.connections.link_of(place) {
            Some(link) => link.checked_number(self.ends.first_link),
            None => None,
        }
    }

    /// The place of the client whose request is open on a link.
    fn owner_of_link(&self, l: u64) -> Option<ConnectionPlace>
        ensures { result ≡ owner_of_link_number self.now l }
    {
        let first = self.ends.first_link;
        if first <= l {
            self.ends.links.owner_at(LinkPlace::of_number(l, first))
        } else {
            None
        }
    }

    /// The request of a client that is open: it went forward or waits, and isn't answered.
    pub fn asked(&self, n: u64) -> Option<&Asked>
        ensures { (s : EngineModel) → EngineRepresents self.now s
            → option_copied result ≡ request_of_exchange (find_exchange n s.core.exchanges) }
    {
        request_of_exchange(&self.core, n)
    }

    /// The line over which the request of a link went forward, counted from 1. There is none of a link that is dropped.
    pub fn line_of_link(&self, l: u64) -> Option<u16>
        ensures { (s : EngineModel) → EngineRepresents self.now s → result ≡ line_of_link s l }
    {
        match self.owner_of_link(l) {
            Some(i) => line_of_exchange(&self.core, self.ends.connections.number_at(i)),
            None => None,
        }
    }

    /// The seconds for which the origin of a link may send no byte, where the line over which its request went forward
    /// says so. There are none of a link that is dropped.
    pub fn origin_timeout(&self, l: u64) -> Option<u32>
        ensures { (s : EngineModel) → EngineRepresents self.now s → result ≡ origin_timeout_of_link s l }
    {
        match self.line_of_link(l) {
            Some(line) => self.core.config().origin_timeout(line),
            None => None,
        }
    }

    /// The ends from which bytes may come: each link that isn't dropped, failed or shut, then each open client without
    /// an exchange whose input hasn't ended. Its only error is out of memory.
    pub fn readable_ends(&self, alloc: Global) -> Result<Vec<End>, AllocError>
        ensures { IfOk result (λ ends. (s : EngineModel) → EngineRepresents self.now s → ends.items
            ≡ readable_ends_of s) }
    {
        let mut ends = Vec::new(alloc);
        self.ends
            .links
            .append_readable_ends(self.ends.first_link, &mut ends)?;
        self.ends.connections.append_readable_ends(&mut ends)?;
        Ok(ends)
    }

    /// The links that have failed and aren't dropped. Only those are looked at where an answer or a failure may stand.
    /// Its only error is out of memory.
    pub fn failed_links(&self, alloc: Global) -> Result<Vec<End>, AllocError>
        ensures { IfOk result (λ ends. (s : EngineModel) → EngineRepresents self.now s → ends.items ≡ failed_links s) }
    {
        let mut ends = Vec::new(alloc);
        self.ends
            .links
            .push_failed_links(self.ends.first_link, &mut ends)?;
        Ok(ends)
    }
}
