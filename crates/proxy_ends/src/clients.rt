//! The streams of clients: those that the engine knows by a number, and those that were closed.
//!
//! A stream keeps its key, which is its token, and its number from its accept to its end.
ghost use Rattle.std.specs.Prelude.{◌≡◌, ◌<◌, ◌+◌, ◌-◌, ◌^◌, ◌++◌, ◌==◌, min, true, false, length, vec_len};
ghost use Rattle.std.specs.Prelude.{option_copied, option_map, option_to_list, is_some, IsSome, IfSome, IfOk, Ok, Some};
ghost use Rattle.std.specs.Prelude.{None, ◌≤◌, ℕ, IsTrue, vec_capacity};
ghost use Rattle.std.specs.Option.{option_copied_mut, option_and_then};
ghost use Rattle.std.specs.Bool.{OnTrue, OnFalse};
ghost use Rattle.std.specs.Ordering.{nat_cmp};
ghost use Rattle.std.specs.BTreeMap.{get, btree_map_len};
ghost use Rattle.proxy_pacing.specs.Queues.{first_entry_from};
ghost use Rattle.slab.specs.Slab as slab;
ghost use Rattle.slab.specs.Slab.{slab_len};
ghost use Rattle.proxy_reads.specs.Received.{ReceivedBytesAreAtMostRoom};
ghost use Rattle.proxy_ends.specs.OtherEntries.{EntriesOfOtherNumbersStay, StreamsOfOtherKeysStay, ChangesOnlyAtNumber};
ghost use Rattle.proxy_streams.specs.PeerCalls.{PeerIsWritten};
ghost use Rattle.proxy_ends.specs.Streams.{ClientsPeerIsChangedBy, client_at_number, client_is_absent_or_broken};
ghost use Rattle.proxy_ends.specs.Streams.{client_at, unsent_bytes_of_client, handed_in_bytes_of_client};
ghost use Rattle.proxy_ends.specs.Streams.{unsent_bytes_of_all_after_change};
ghost use Rattle.proxy_ends.specs.Streams.{ClientIsRead, CallIsDoneToClientOfNumber, number_of_client_to_list};
ghost use Rattle.proxy_ends.specs.Streams.{client_listed_if_input};
ghost use Rattle.proxy_ends.specs.Streams.{client_marked_unlisted, client_with_next_check};
ghost use Rattle.proxy_ends.specs.Closing.{ClientIsInQueue, OpenNumberOfClientIsRemoved, ClientIsQueuedOrDropped};
ghost use Rattle.proxy_ends.specs.Closing.{FirstLingeringIsDropped};
ghost use Rattle.proxy_ends.specs.Timeouts.{milliseconds_since, IsIdleClientSince, IsClientNotMarkedHalfClosed};
ghost use Rattle.proxy_figures.specs.Counts.{counts_with_one_more};
ghost use Rattle.proxy_figures.specs.EndingCounts.{end_counts_with_cut};
ghost use Rattle.proxy_figures.specs.Unanswered.{cause_of_cut, unanswered_place};
ghost use Rattle.proxy_ends.specs.Departures.{unanswered_departure_of, client_with_departure_told, LostClientIsListed};
ghost use Rattle.proxy_ends.specs.Departures.{LossOfClientIsListed, LostClientIsListedIfMemory};

pub mod client;
mod closing;
pub mod departures;
mod giving_way;
mod timeouts;

use crate::clients::client::{Client, ClientStreamState};
use crate::clients::departures::{LostClient, UnansweredDeparture};
use crate::limits::Limits;
use mio::event::Event;
use proxy_figures::{ClientEndCounts, CutReason, UnansweredCause, UnansweredCounts};
use proxy_pacing::{ClosedStreamQueue, ClosedStreamQueues, Moments};
use proxy_reads::Received;
use proxy_streams::{Peer, Socket, Stream, held_bytes_after_change};
use slab::Slab;
use std::alloc::Global;
use std::collections::BTreeMap;
use std::io;

pub struct Clients<S: Stream + Drop = Socket> {
    alloc: Global,
    /// Each in memory of its own: the list keeps places for as many again.
    pub streams: Slab<Box<Client<S>>>,
    /// The keys of those that the engine knows, by their numbers.
    pub open: BTreeMap<u64, usize>,
    /// Those that were closed.
    pub queues: ClosedStreamQueues,
    /// Those that are or were between two requests, by the moment since when. One that was idle again later stands by
    /// the earlier moment until somebody looks.
    idle: Moments,
    /// When each is looked at next.
    pub looks: Moments,
    /// Those that have sent their end, by the moment when that was seen.
    half_closed_since: Moments,
    /// Those whose request isn't answered yet, by the moment when a byte of them last came or went. One of which more
    /// came later, or that was answered, stands by the earlier moment until somebody looks.
    begun: Moments,
    /// Those that failed since the last turn.
    lost: Vec<LostClient>,
    /// Bytes that are kept for clients.
    unsent: usize,
    /// Bytes that were handed in of requests that aren't answered yet.
    handed: usize,
    pub limits: Limits,
    /// A closed one may have more to be dropped that no event will tell of.
    pub more: bool,
    pub endings: ClientEndCounts,
    /// Requests that were never answered.
    pub unanswered: UnansweredCounts,
    /// Lines of the log about such requests that had no memory, and weren't counted there yet.
    pub lost_lines: u64,
}

/// One call drops it, wherever that is.
impl<S: Stream + Drop> Drop for Clients<S> {
    fn drop(self) {
        let Clients {
            alloc: _,
            streams: _,
            open: _,
            queues: _,
            idle: _,
            looks: _,
            half_closed_since: _,
            begun: _,
            lost: _,
            unsent: _,
            handed: _,
            limits: _,
            more: _,
            endings: _,
            unanswered: _,
            lost_lines: _,
        } = self;
    }
}

impl<S: Stream + Drop> Clients<S> {
    pub fn new(alloc: Global, limits: Limits) -> Clients<S>
        ensures streams { slab_len result.streams ≡ 0 }
        ensures open { btree_map_len result.open ≡ 0 }
        ensures limits { result.limits ≡ limits }
        ensures unsent { result.unsent ≡ 0 }
        ensures handed { result.handed ≡ 0 }
    {
        Clients {
            alloc,
            streams: Slab::new(alloc),
            open: BTreeMap::new(alloc),
            queues: ClosedStreamQueues::new(alloc),
            idle: Moments::new(alloc),
            looks: Moments::new(alloc),
            half_closed_since: Moments::new(alloc),
            begun: Moments::new(alloc),
            lost: Vec::new(alloc),
            unsent: 0,
            handed: 0,
            limits,
            more: false,
            endings: ClientEndCounts::new(),
            unanswered: UnansweredCounts::new(),
            lost_lines: 0,
        }
    }

    /// How many streams there are.
    pub fn len(&self) -> usize
        ensures { result ≡ slab_len self.now.streams }
    {
        self.streams.len()
    }

    /// How many the engine knows.
    pub fn open_count(&self) -> usize
        ensures { result ≡ btree_map_len self.now.open }
    {
        self.open.len()
    }

    /// How many of those that were closed still wait for their clients.
    pub fn closing_count(&self) -> usize
        ensures { result ≡ min (btree_map_len self.now.queues.leaving + btree_map_len self.now.queues.lingering)
            (2 ^ 64 - 1) }
    {
        self.queues
            .len(ClosedStreamQueue::Leaving)
            .saturating_add(self.queues.len(ClosedStreamQueue::Lingering))
    }

    /// The key of a number.
    pub fn key_of(&self, n: u64) -> Option<usize>
        ensures { result ≡ get nat_cmp self.now.open n }
    {
        self.open.get(&n).copied()
    }

    /// The least number of those that the engine knows, from this one on.
    pub fn next_number(&self, from: u64) -> Option<u64>
        ensures { result ≡ option_map (λ entry. entry.0) (first_entry_from from self.now.open.entries) }
    {
        let (n, _) = self.open.range(from..).next()?;
        Some(*n)
    }

    /// The client of a number.
    pub fn get(&self, n: u64) -> Option<&Client<S>>
        ensures { option_copied result ≡ client_at_number self.now.open self.now.streams n }
    {
        self.stream(self.key_of(n)?)
    }

    /// The same, to be changed.
    pub fn get_mut(&mut self, n: u64) -> Option<&mut Client<S>>
        ensures { option_copied_mut result ≡ client_at_number self.old.open self.old.streams n }
    {
        let key = self.key_of(n)?;
        self.client_at_key_mut(key)
    }

    /// The client of a key.
    pub fn stream(&self, key: usize) -> Option<&Client<S>>
        ensures { option_copied result ≡ client_at self.now.streams key }
    {
        let client = self.streams.get(key)?;
        Some(&**client)
    }

    /// The same, to be changed.
    pub fn client_at_key_mut(&mut self, key: usize) -> Option<&mut Client<S>>
        ensures { option_copied_mut result ≡ client_at self.old.streams key }
    {
        let client = self.streams.get_mut(key)?;
        Some(&mut **client)
    }

    /// Reads from the client of a number; from one that isn't there nothing comes.
    pub fn read(&mut self, n: u64, buf: &mut [u8], now: u64) -> io::Result<Received>
        ensures within { IfOk result (ReceivedBytesAreAtMostRoom (length buf.old)) }
        ensures length { length buf.new ≡ length buf.old }
        ensures nothing { client_at_number self.old.open self.old.streams n ≡ None → result ≡ Ok Received.Nothing }
        ensures handed_in { 0 < length buf.old → IfOk result
            (λ received. CallIsDoneToClientOfNumber (ClientIsRead S.Passed received buf.new)
            (client_at_number self.old.open self.old.streams n) (client_at_number self.new.open self.new.streams n)) }
        ensures open { self.new.open ≡ self.old.open }
        ensures others { ChangesOnlyAtNumber self.old.open n self.old.streams self.new.streams }
    {
        let Some(key) = self.key_of(n) else {
            return Ok(Received::Nothing);
        };
        let Some(client) = self.streams.get_mut(key) else {
            return Ok(Received::Nothing);
        };
        let before = client.peer.received;
        let received = client.read(buf, now)?;
        self.endings
            .add_received(client.peer.received.saturating_sub(before));
        if let Received::Bytes(count) = received {
            self.handed = self.handed.saturating_add(count);
        }
        Ok(received)
    }

    /// Takes a number from those that the engine knows; its key.
    pub fn remove_number(&mut self, n: u64) -> Option<usize>
        ensures key { result ≡ get nat_cmp self.old.open n }
        ensures gone { get nat_cmp self.new.open n ≡ None }
        ensures others { EntriesOfOtherNumbersStay n self.old.open self.new.open }
        ensures streams { self.new.streams ≡ self.old.streams }
        ensures counts { self.new.endings ≡ self.old.endings }
        ensures unsent { self.new.unsent ≡ self.old.unsent }
        ensures handed { self.new.handed ≡ self.old.handed }
        ensures lost { (self.new.lost ≡ self.old.lost) × (self.new.lost_lines ≡ self.old.lost_lines) }
    {
        self.open.remove(&n)
    }

    /// Adds the stream of a new client under its number; its key.
    pub fn add(&mut self, peer: Peer<S>, n: u64, now: u64) -> Option<usize>
        ensures { IfSome result (λ key. get nat_cmp self.new.open n ≡ Some key) }
    {
        let client = Client::new(self.alloc, peer, n, now);
        let client = Box::new(self.alloc, client).ok()?;
        let key = self.streams.insert(client).ok()?;
        if self.open.insert(n, key).is_ok()
            && self.mark_idle(key)
            && self.schedule_check(key, now)
        {
            return Some(key);
        }
        // It has asked for nothing.
        let _ = self.forget(n, UnansweredCause::Closed);
        let _ = self.streams.try_remove(key);
        None
    }

    /// A client is between two requests: it stands among those. Whether there was memory for it.
    fn mark_idle(&mut self, key: usize) -> bool
        ensures open { self.new.open ≡ self.old.open }
        ensures others { StreamsOfOtherKeysStay key self.old.streams self.new.streams }
    {
        let Some(client) = self.streams.get_mut(key) else {
            return true;
        };
        if client.idle_mark.is_none() {
            if !self.idle.add(client.idle_since, key as u64) {
                return false;
            }
            client.idle_mark = Some(client.idle_since);
        }
        true
    }

    /// A client is looked at next at this moment. Whether there was memory for it.
    pub fn schedule_check(&mut self, key: usize, moment: u64) -> bool
        ensures look { client_at self.new.streams key
            ≡ option_map (client_with_next_check moment) (client_at self.old.streams key) }
        ensures open { self.new.open ≡ self.old.open }
        ensures others { StreamsOfOtherKeysStay key self.old.streams self.new.streams }
    {
        let Some(client) = self.streams.get_mut(key) else {
            return true;
        };
        self.looks.remove(client.look, key as u64);
        client.look = moment;
        self.looks.add(moment, key as u64)
    }

    /// Takes a stream out, and what stands of it elsewhere but its number.
    fn take_stream(&mut self, key: usize) -> Option<Box<Client<S>>>
        ensures value { result ≡ slab.get self.old.streams key }
        ensures gone { slab.get self.new.streams key ≡ None }
        ensures open { self.new.open ≡ self.old.open }
        ensures unsent { self.new.unsent ≡ self.old.unsent - unsent_bytes_of_client (client_at self.old.streams key) }
        ensures handed { self.new.handed
            ≡ self.old.handed - handed_in_bytes_of_client (client_at self.old.streams key) }
        ensures counts { self.new.endings ≡ self.old.endings }
        ensures lost { (self.new.lost ≡ self.old.lost) × (self.new.lost_lines ≡ self.old.lost_lines) }
        ensures others { StreamsOfOtherKeysStay key self.old.streams self.new.streams }
    {
        let client = self.streams.try_remove(key)?;
        self.looks.remove(client.look, key as u64);
        if let Some(mark) = client.idle_mark {
            self.idle.remove(mark, key as u64);
        }
        if let Some(mark) = client.departed_mark {
            self.half_closed_since.remove(mark, key as u64);
        }
        if let Some(mark) = client.begun_mark {
            self.begun.remove(mark, key as u64);
        }
        self.unsent = self.unsent.saturating_sub(client.peer.unsent());
        self.handed = self.handed.saturating_sub(client.handed);
        Some(client)
    }

    /// Counts a client that goes where its request isn't answered; what is told of it.
    fn count_departure(
        &mut self,
        client: &mut Client<S>,
        cause: UnansweredCause,
    ) -> Option<UnansweredDeparture>
        ensures told { result ≡ unanswered_departure_of cause client.old }
        ensures rest { self.new ≡ record self.old { unanswered = self.new.unanswered } }
        ensures counted { is_some (unanswered_departure_of cause client.old) ≡ true → self.new.unanswered.counts
            ≡ counts_with_one_more self.old.unanswered.counts (unanswered_place cause) }
        ensures not_counted { is_some (unanswered_departure_of cause client.old) ≡ false → self.new.unanswered
            ≡ self.old.unanswered }
    {
        let departure = client.take_unanswered_departure(cause);
        if departure.is_some() {
            self.unanswered.add(cause);
        }
        departure
    }

    /// The engine is told of a client whose stream was dropped before the next turn.
    fn keep_lost(&mut self, number: u64, departure: Option<UnansweredDeparture>)
        ensures kept { LostClientIsListedIfMemory number departure self.old self.new }
        ensures room { vec_len self.old.lost < vec_capacity self.old.lost
            → LostClientIsListed number departure self.old self.new }
        ensures rest { self.new ≡ record self.old { lost = self.new.lost; lost_lines = self.new.lost_lines } }
    {
        let has_line = departure.is_some();
        // Where there is no memory for it, it counts as silent, and its line is lost.
        if self.lost.push(LostClient { number, departure }).is_err() && has_line {
            self.lost_lines = self.lost_lines.saturating_add(1);
        }
    }

    /// Drops a stream, wherever it stands, for this cause. The engine is told before the next turn where it knows it.
    pub fn drop_stream(&mut self, key: usize, cause: UnansweredCause)
        ensures counts { self.new.endings ≡ self.old.endings }
        ensures gone { slab.get self.new.streams key ≡ None }
        ensures open { OpenNumberOfClientIsRemoved (client_at self.old.streams key) self.old.open self.new.open }
        ensures unsent { self.new.unsent ≡ self.old.unsent - unsent_bytes_of_client (client_at self.old.streams key) }
        ensures handed { self.new.handed
            ≡ self.old.handed - handed_in_bytes_of_client (client_at self.old.streams key) }
        ensures told { LossOfClientIsListed cause (client_at self.old.streams key) self.old self.new }
        ensures others { StreamsOfOtherKeysStay key self.old.streams self.new.streams }
    {
        let Some(mut client) = self.take_stream(key) else {
            return;
        };
        match client.place {
            ClientStreamState::Open(n) => {
                let _ = self.remove_number(n);
                let departure = self.count_departure(&mut *client, cause);
                self.keep_lost(n, departure);
            }
            ClientStreamState::In(queue, stamp) => self.queues.remove(queue, stamp),
        }
    }

    /// Drops the stream of a number, of which the engine is told otherwise, for this cause; what is told of it where
    /// its request isn't answered.
    pub fn forget(&mut self, n: u64, cause: UnansweredCause) -> Option<UnansweredDeparture>
        ensures told { result ≡ option_and_then (unanswered_departure_of cause)
            (client_at_number self.old.open self.old.streams n) }
        ensures gone { get nat_cmp self.new.open n ≡ None }
        ensures dropped { client_at_number self.old.open self.new.streams n ≡ None }
        ensures unsent { self.new.unsent ≡ self.old.unsent
            - unsent_bytes_of_client (client_at_number self.old.open self.old.streams n) }
        ensures handed { self.new.handed ≡ self.old.handed
            - handed_in_bytes_of_client (client_at_number self.old.open self.old.streams n) }
        ensures open { EntriesOfOtherNumbersStay n self.old.open self.new.open }
        ensures others { ChangesOnlyAtNumber self.old.open n self.old.streams self.new.streams }
    {
        let key = self.remove_number(n)?;
        let mut client = self.take_stream(key)?;
        self.count_departure(&mut *client, cause)
    }

    /// Drops a stream for a reason that is counted.
    pub fn drop_stream_and_count(&mut self, key: usize, cut: CutReason)
        ensures counted { self.new.endings ≡ end_counts_with_cut self.old.endings cut }
        ensures gone { slab.get self.new.streams key ≡ None }
        ensures open { OpenNumberOfClientIsRemoved (client_at self.old.streams key) self.old.open self.new.open }
        ensures unsent { self.new.unsent ≡ self.old.unsent - unsent_bytes_of_client (client_at self.old.streams key) }
        ensures handed { self.new.handed
            ≡ self.old.handed - handed_in_bytes_of_client (client_at self.old.streams key) }
        ensures told { LossOfClientIsListed (cause_of_cut cut) (client_at self.old.streams key) self.old self.new }
        ensures others { StreamsOfOtherKeysStay key self.old.streams self.new.streams }
    {
        self.endings.count_cut(cut);
        self.drop_stream(key, UnansweredCause::of_cut(cut));
    }

    /// Bytes that are kept for clients.
    pub fn unsent(&self) -> usize
        ensures { result ≡ self.now.unsent }
    {
        self.unsent
    }

    /// Bytes that are kept for clients, and of their requests that aren't answered yet.
    pub fn held(&self) -> usize
        ensures { result ≡ min (self.now.unsent + self.now.handed) (2 ^ 64 - 1) }
    {
        self.unsent.saturating_add(self.handed)
    }

    /// How many failed since they were last asked for.
    pub fn lost_count(&self) -> usize
        ensures { result ≡ vec_len self.now.lost }
    {
        self.lost.len()
    }

    /// What is told of the client of a number that is closed with a request that isn't answered: that is told once, and
    /// counted.
    pub fn take_unanswered_departure(&mut self, n: u64) -> Option<UnansweredDeparture>
        ensures told { result ≡ option_and_then (unanswered_departure_of UnansweredCause.Closed)
            (client_at_number self.old.open self.old.streams n) }
        ensures left { client_at_number self.new.open self.new.streams n
            ≡ option_map client_with_departure_told (client_at_number self.old.open self.old.streams n) }
        ensures counted { IfSome result (λ departure. self.new.unanswered.counts
            ≡ counts_with_one_more self.old.unanswered.counts (unanswered_place UnansweredCause.Closed)) }
        ensures not_counted { result ≡ None → self.new.unanswered ≡ self.old.unanswered }
        ensures rest { self.new ≡ record self.old { streams = self.new.streams; unanswered = self.new.unanswered } }
        ensures others { ChangesOnlyAtNumber self.old.open n self.old.streams self.new.streams }
    {
        let key = self.key_of(n)?;
        let client = self.streams.get_mut(key)?;
        let departure = client.take_unanswered_departure(UnansweredCause::Closed)?;
        self.unanswered.add(UnansweredCause::Closed);
        Some(departure)
    }

    /// One that failed since the last turn.
    pub fn take_lost_client(&mut self) -> Option<LostClient>
        ensures taken { self.old.lost.items ≡ self.new.lost.items ++ option_to_list result }
        ensures rest { self.new ≡ record self.old { lost = self.new.lost } }
    {
        self.lost.pop()
    }

    /// Puts a stream into a queue, behind those that stand there. The engine doesn't know it any more.
    pub fn join_queue(&mut self, key: usize, queue: ClosedStreamQueue)
        ensures stands { ClientIsQueuedOrDropped queue (client_at self.old.streams key)
            (client_at self.new.streams key) }
        ensures others { StreamsOfOtherKeysStay key self.old.streams self.new.streams }
    {
        let stamp = self.queues.next_stamp();
        self.join_queue_since(key, queue, stamp);
    }

    /// Puts a stream into a queue, by a stamp.
    fn join_queue_since(&mut self, key: usize, queue: ClosedStreamQueue, stamp: u64)
        ensures stands { ClientIsQueuedOrDropped queue (client_at self.old.streams key)
            (client_at self.new.streams key) }
        ensures others { StreamsOfOtherKeysStay key self.old.streams self.new.streams }
    {
        let Some(client) = self.streams.get_mut(key) else {
            return;
        };
        if let ClientStreamState::In(before, since) = client.place {
            self.queues.remove(before, since);
        }
        client.place = ClientStreamState::In(queue, stamp);
        if !self.queues.put(queue, stamp, key) {
            self.drop_stream(key, UnansweredCause::Closed);
        }
    }

    /// Puts a stream into another queue, where it stands by the stamp that it has.
    pub fn move_to_queue(&mut self, key: usize, queue: ClosedStreamQueue)
        ensures still { ClientIsInQueue queue (client_at self.old.streams key) → self.new ≡ self.old }
        ensures others { StreamsOfOtherKeysStay key self.old.streams self.new.streams }
    {
        if let Some(client) = self.streams.get(key) {
            if let ClientStreamState::In(before, stamp) = client.place {
                if before != queue {
                    self.join_queue_since(key, queue, stamp);
                }
            }
        }
    }

    /// Writes what is kept for a client, as far as the system takes it. Whether that could be done.
    pub fn flush(&mut self, key: usize, now: u64) -> bool
        ensures unsent { self.new.unsent
            ≡ unsent_bytes_of_all_after_change self.old.unsent (client_at self.old.streams key)
            (client_at self.new.streams key) }
        ensures open { self.new.open ≡ self.old.open }
        ensures others { StreamsOfOtherKeysStay key self.old.streams self.new.streams }
    {
        let Some(client) = self.streams.get_mut(key) else {
            return false;
        };
        let (unsent, written) = (client.peer.unsent(), client.peer.written);
        let flushed = client.peer.flush(now);
        self.unsent = held_bytes_after_change(self.unsent, unsent, client.peer.unsent());
        self.endings
            .add_written(client.peer.written.saturating_sub(written));
        flushed.is_ok()
    }

    /// Writes to a client, and keeps what the system doesn't take. Whether that could be done.
    pub fn write(&mut self, key: usize, bytes: &[u8], now: u64) -> bool
        ensures written { ClientsPeerIsChangedBy (PeerIsWritten S.Passed bytes.now) (client_at self.old.streams key)
            (client_at self.new.streams key) }
        ensures there { OnTrue result (IsSome (client_at self.old.streams key)) }
        ensures going { OnTrue result (client_is_absent_or_broken (client_at self.new.streams key)
            ≡ client_is_absent_or_broken (client_at self.old.streams key)) }
        ensures failed { OnFalse result (client_is_absent_or_broken (client_at self.new.streams key) ≡ true) }
        ensures unsent { self.new.unsent
            ≡ unsent_bytes_of_all_after_change self.old.unsent (client_at self.old.streams key)
            (client_at self.new.streams key) }
        ensures open { self.new.open ≡ self.old.open }
        ensures others { StreamsOfOtherKeysStay key self.old.streams self.new.streams }
    {
        let Some(client) = self.streams.get_mut(key) else {
            return false;
        };
        let (unsent, before) = (client.peer.unsent(), client.peer.written);
        let written = client.peer.write(bytes, now);
        self.unsent = held_bytes_after_change(self.unsent, unsent, client.peer.unsent());
        self.endings
            .add_written(client.peer.written.saturating_sub(before));
        written.is_ok()
    }

    /// Writes to the client of a number. Where that fails its stream is dropped, and the engine told before the next
    /// turn. Whether it was there, and written to.
    pub fn write_to(&mut self, n: u64, bytes: &[u8], now: u64) -> bool
        ensures written { OnTrue result
            (ClientsPeerIsChangedBy (PeerIsWritten S.Passed bytes.now)
            (client_at_number self.old.open self.old.streams n)
            (client_at_number self.new.open self.new.streams n)) }
        ensures there { OnTrue result (IsSome (client_at_number self.old.open self.old.streams n)) }
        ensures going { OnTrue result (client_is_absent_or_broken (client_at_number self.new.open self.new.streams n)
            ≡ client_is_absent_or_broken (client_at_number self.old.open self.old.streams n)) }
        ensures open { OnTrue result (self.new.open ≡ self.old.open) }
        ensures gone { OnFalse result (client_at_number self.old.open self.new.streams n ≡ None) }
        ensures others { ChangesOnlyAtNumber self.old.open n self.old.streams self.new.streams }
    {
        let Some(key) = self.key_of(n) else {
            return false;
        };
        if self.write(key, bytes, now) {
            return true;
        }
        self.drop_stream(key, UnansweredCause::Closed);
        false
    }

    /// The request of a client was answered, so many milliseconds after its first byte had come. Without memory to
    /// keep that it is between two requests, it is cut off.
    pub fn answered(&mut self, key: usize, now: u64) -> u64
        ensures took { result ≡ milliseconds_since now
            (option_and_then (λ client. client.asked) (client_at self.old.streams key)) }
        ensures others { StreamsOfOtherKeysStay key self.old.streams self.new.streams }
    {
        let Some(client) = self.streams.get_mut(key) else {
            return 0;
        };
        let took = client.milliseconds_taken(now);
        self.handed = self.handed.saturating_sub(client.handed);
        client.answered(now);
        if !self.mark_idle(key) {
            self.drop_stream_and_count(key, CutReason::Memory);
        }
        took
    }

    /// Whether no client waits for anything.
    pub fn is_done(&self) -> bool
        ensures { result ≡ (slab_len self.now.streams == btree_map_len self.now.queues.lingering) }
    {
        self.streams.len() == self.queues.len(ClosedStreamQueue::Lingering)
    }

    /// Of the clients that are between two requests the one that is so for the longest, and since when. Marks of those
    /// that have gone on are moved or dropped on the way.
    pub fn longest_idle_client(&mut self) -> Option<(usize, u64)>
        ensures { IfSome result (λ p. IsIdleClientSince p.1 (client_at self.new.streams p.0)) }
    {
        // Each mark is moved once at most.
        for _ in 0..=self.idle.len() {
            let mark = self.idle.first()?;
            let key = mark.id as usize;
            match self.streams.get_mut(key) {
                Some(client) if client.is_idle() && client.idle_since == mark.at => {
                    return Some((key, mark.at));
                }
                Some(client) => client.idle_mark = None,
                None => {}
            }
            self.idle.remove(mark.at, mark.id);
            self.renew_idle_mark(key);
        }
        None
    }

    /// A client whose mark was dropped is marked anew, if it is between two requests.
    fn renew_idle_mark(&mut self, key: usize) {
        let is_idle = self.stream(key).is_some_and(Client::is_idle);
        if is_idle && !self.mark_idle(key) {
            self.drop_stream_and_count(key, CutReason::Memory);
        }
    }

    /// Drops the client that has been idle for the longest, unless that has asked for nothing and came in this very
    /// millisecond: its request may be on its way. Whether there was one.
    pub fn drop_longest_idle(&mut self, now: u64) -> bool {
        let Some((key, since)) = self.longest_idle_client() else {
            return false;
        };
        let has_asked = self.stream(key).is_some_and(|it| it.has_asked);
        if since < now || has_asked {
            self.drop_stream_and_count(key, CutReason::Room);
            return true;
        }
        false
    }

    /// A client that has sent its end stands behind the others that have. Where there is no memory for that, it has its
    /// time as others have.
    pub fn mark_half_closed(&mut self, key: usize, now: u64)
        ensures open { self.new.open ≡ self.old.open }
        ensures others { StreamsOfOtherKeysStay key self.old.streams self.new.streams }
    {
        let Some(client) = self.streams.get_mut(key) else {
            return;
        };
        if client.number().is_none() || client.departed_mark.is_some() {
            return;
        }
        if self.half_closed_since.add(now, key as u64) {
            client.departed_mark = Some(now);
        }
    }

    /// Takes out the first client of those that have sent their end: its number, if the engine knows it.
    pub fn take_first_half_closed(&mut self) -> Option<u64>
        ensures { IfSome result (λ n. (key : ℕ) × IsClientNotMarkedHalfClosed n (client_at self.new.streams key)) }
    {
        let key = self.half_closed_since.take_earliest_due(u64::MAX)? as usize;
        let client = self.streams.get_mut(key)?;
        client.departed_mark = None;
        client.number()
    }

    /// Makes room for one more stream, where there are as many as may be: of those that were closed the first goes, or
    /// else the one that is idle for the longest. Whether there is room now.
    pub fn make_room_for_a_client_stream(&mut self, now: u64) -> bool
        ensures room { slab_len self.old.streams < self.old.limits.connections → (self.new ≡ self.old) × IsTrue result }
        ensures first { self.old.limits.connections ≤ slab_len self.old.streams
            → FirstLingeringIsDropped self.old.queues self.old.streams self.new.streams result }
    {
        if self.len() < self.limits.connections {
            return true;
        }
        if let Some(key) = self.queues.first(ClosedStreamQueue::Lingering) {
            self.drop_stream(key, UnansweredCause::Closed);
            return true;
        }
        self.drop_longest_idle(now)
    }

    /// Puts a client among the ends that are read next, where it may give something and doesn't stand there. Its number
    /// is to be added then.
    pub fn mark_listed_if_readable(&mut self, key: usize) -> Option<u64>
        ensures number { result ≡ number_of_client_to_list (client_at self.old.streams key) }
        ensures marked { client_at self.new.streams key
            ≡ option_map client_listed_if_input (client_at self.old.streams key) }
        ensures open { self.new.open ≡ self.old.open }
        ensures others { StreamsOfOtherKeysStay key self.old.streams self.new.streams }
    {
        let client = self.streams.get_mut(key)?;
        if client.is_listed || !client.may_have_input() {
            return None;
        }
        client.is_listed = true;
        client.number()
    }

    /// Takes a client from the ends that are read next. Whether it is there.
    pub fn unmark_listed_to_read(&mut self, n: u64) -> bool
        ensures there { result ≡ is_some (client_at_number self.old.open self.old.streams n) }
        ensures marked { client_at_number self.new.open self.new.streams n
            ≡ option_map client_marked_unlisted (client_at_number self.old.open self.old.streams n) }
        ensures open { self.new.open ≡ self.old.open }
        ensures others { ChangesOnlyAtNumber self.old.open n self.old.streams self.new.streams }
    {
        let Some(key) = self.key_of(n) else {
            return false;
        };
        let Some(client) = self.streams.get_mut(key) else {
            return false;
        };
        client.is_listed = false;
        true
    }

    /// Takes what an event told of a stream.
    pub fn note_socket_event(&mut self, key: usize, event: &Event, now: u64) {
        let Some(client) = self.streams.get_mut(key) else {
            return;
        };
        client.peer.note_socket_event(event);
        if client.peer.hung && client.left.is_none() {
            client.left = Some(now);
            self.mark_half_closed(key, now);
        }
        let Some(client) = self.streams.get(key) else {
            return;
        };
        let is_closed = client.number().is_none();
        // A client that is being closed may still be read to its end.
        let failed = event.is_error() && !is_closed;
        if failed || event.is_writable() && !self.flush(key, now) {
            self.drop_stream(key, UnansweredCause::Closed);
            return;
        }
        if is_closed {
            self.end(key, now);
        }
    }
}
