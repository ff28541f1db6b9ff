//! The links to origins, by number, and what was counted of each origin.
ghost use Rattle.std.specs.Prelude.{◌≡◌, true, false, length, option_map, option_copied, IfOk, IfErr, Ok, Err, Some};
ghost use Rattle.std.specs.Prelude.{None, IsTrue, ◌↔◌, is_some, slice_get};
ghost use Rattle.std.specs.Option.{option_and_then};
ghost use Rattle.std.specs.Ordering.{nat_cmp};
ghost use Rattle.std.specs.BTreeMap.{get, btree_map_len, values};
ghost use Rattle.std.specs.Bool.{OnTrue, OnFalse};
ghost use Rattle.proxy_reads.specs.Received.{ReceivedBytesAreAtMostRoom};
ghost use Rattle.proxy_ends.specs.Connecting.{link_is_connecting};
ghost use Rattle.proxy_ends.specs.OtherEntries.{EntriesOfOtherNumbersStay};
ghost use Rattle.proxy_ends.specs.Timeouts.{link_time_is_over, link_given_origin_timeout, milliseconds_open_of_link};
ghost use Rattle.proxy_streams.specs.PeerCalls.{PeerIsRead, PeerIsWritten};
ghost use Rattle.proxy_ends.specs.Streams.{IsDoneToLinksPeer, peer_is_broken, peer_failed_to_connect, peer_of_link};
ghost use Rattle.proxy_ends.specs.Streams.{link_is_to_be_listed_for_read, link_listed_if_input, link_marked_unlisted};

pub mod link;

use crate::limits::{Limits, SECOND, TCP_SEGMENT_BYTES};
use crate::links::link::{Link, note_event_on_link_peer};
use crate::socket_tokens::TokenHolder;
use mio::Poll;
use mio::event::Event;
use proxy_figures::{LinkTimeouts, Origins};
use proxy_pacing::Moments;
use proxy_reads::Received;
use proxy_streams::{Socket, Stream, held_bytes_after_change};
use std::alloc::Global;
use std::collections::BTreeMap;
use std::io;

/// Links by their numbers.
pub struct Links<S: Stream + Drop = Socket> {
    pub items: BTreeMap<u64, Link<S>>,
    pub origins: Origins,
    /// When each is looked at next.
    looks: Moments,
    /// Bytes that came on them, and those that their origins haven't taken yet.
    held: usize,
    /// How often the time of a link was over, by which.
    pub timeouts: LinkTimeouts,
}

/// One call drops it, wherever that is.
impl<S: Stream + Drop> Drop for Links<S> {
    fn drop(self) {
        let Links {
            items: _,
            origins: _,
            looks: _,
            held: _,
            timeouts: _,
        } = self;
    }
}

impl Links {
    /// Takes what an event told of a link; the answer is an error where its connection couldn't be made.
    pub fn note_socket_event(&mut self, number: u64, event: &Event, now: u64) -> io::Result<()>
        ensures others { EntriesOfOtherNumbersStay number self.old.items self.new.items }
    {
        if let Some(link) = self.items.get_mut(&number) {
            if let Some(peer) = &mut link.peer {
                let (unsent, written) = (peer.unsent(), peer.written);
                let marked = note_event_on_link_peer(peer, event, now);
                self.held = held_bytes_after_change(self.held, unsent, peer.unsent());
                let more = peer.written.saturating_sub(written);
                self.origins.add_written(link.origin, more);
                return marked;
            }
        }
        Ok(())
    }

    /// Has a message for a link go without a wait, where it takes more than one segment.
    pub fn set_no_delay_if_many_segments(&self, number: u64, length: usize) {
        if length <= TCP_SEGMENT_BYTES {
            return;
        }
        if let Some(link) = self.items.get(&number) {
            if let Some(peer) = &link.peer {
                peer.send_without_delay();
            }
        }
    }

    /// Asks for the events of a link that was written to. Fails where the system refuses it.
    pub fn watch(&mut self, number: u64, poll: &Poll) -> io::Result<()>
        ensures others { EntriesOfOtherNumbersStay number self.old.items self.new.items }
    {
        let Some(link) = self.items.get_mut(&number) else {
            return Ok(());
        };
        let Some(peer) = &mut link.peer else {
            return Ok(());
        };
        peer.register_without_more_writes(poll, TokenHolder::Link(number).token()?)
    }
}

impl<S: Stream + Drop> Links<S> {
    pub fn new(alloc: Global, limits: &Limits) -> Links<S>
        ensures items { btree_map_len result.items ≡ 0 }
        ensures held { result.held ≡ 0 }
    {
        Links {
            items: BTreeMap::new(alloc),
            origins: Origins::new(alloc, limits.origin_connections),
            looks: Moments::new(alloc),
            held: 0,
            timeouts: LinkTimeouts::new(),
        }
    }

    pub fn is_empty(&self) -> bool
        ensures { IsTrue result ↔ (btree_map_len self.now.items ≡ 0) }
    {
        self.items.is_empty()
    }

    fn get(&self, number: u64) -> Option<&Link<S>>
        ensures { option_copied result ≡ get nat_cmp self.now.items number }
    {
        self.items.get(&number)
    }

    /// Whether the connection of a link isn't made yet.
    pub fn is_connecting(&self, number: u64) -> bool
        ensures { result ≡ link_is_connecting (get nat_cmp self.now.items number) }
    {
        match self.get(number) {
            Some(link) => match &link.peer {
                Some(peer) => peer.connecting,
                None => false,
            },
            None => false,
        }
    }

    /// The place of the origin of a link, if it is there.
    pub fn origin_of(&self, number: Option<u64>) -> Option<usize>
        ensures { result ≡ option_map (λ link. link.origin) (option_and_then (get nat_cmp self.now.items) number) }
    {
        match self.get(number?) {
            Some(link) => Some(link.origin),
            None => None,
        }
    }

    /// Reads from a link; from one without a stream nothing comes.
    pub fn read(&mut self, number: u64, buf: &mut [u8], now: u64) -> io::Result<Received>
        ensures within { IfOk result (ReceivedBytesAreAtMostRoom (length buf.old)) }
        ensures length { length buf.new ≡ length buf.old }
        ensures read { IfOk result (λ received. IsDoneToLinksPeer (PeerIsRead S.Passed (length buf.old)
            (Ok received) buf.new)
            (get nat_cmp self.old.items number) (get nat_cmp self.new.items number)) }
        ensures failed { IfErr result (λ e. IsDoneToLinksPeer (PeerIsRead S.Passed (length buf.old) (Err e) buf.new)
            (get nat_cmp self.old.items number) (get nat_cmp self.new.items number)) }
        ensures nothing { peer_of_link (get nat_cmp self.old.items number) ≡ None → result ≡ Ok Received.Nothing }
        ensures others { EntriesOfOtherNumbersStay number self.old.items self.new.items }
    {
        let Some(link) = self.items.get_mut(&number) else {
            return Ok(Received::Nothing);
        };
        let Some(peer) = &mut link.peer else {
            return Ok(Received::Nothing);
        };
        let received = peer.read(buf, now)?;
        if let Received::Bytes(count) = received {
            self.held = self.held.saturating_add(count);
            self.origins.count_received_bytes(link.origin, count);
        }
        Ok(received)
    }

    /// Writes to a link. Whether that could be done, or its connection had been made before it failed.
    pub fn write(&mut self, number: u64, bytes: &[u8], now: u64) -> bool
        ensures written { IsDoneToLinksPeer (PeerIsWritten S.Passed bytes.now) (get nat_cmp self.old.items number)
            (get nat_cmp self.new.items number) }
        ensures lost { result ≡ false → peer_failed_to_connect (peer_of_link (get nat_cmp self.new.items number))
            ≡ true }
        ensures going { peer_failed_to_connect (peer_of_link (get nat_cmp self.new.items number)) ≡ true → result ≡ true
            → peer_is_broken (peer_of_link (get nat_cmp self.old.items number)) ≡ true }
        ensures connected { link_is_connecting (get nat_cmp self.old.items number) ≡ false → result ≡ true }
        ensures others { EntriesOfOtherNumbersStay number self.old.items self.new.items }
    {
        let Some(link) = self.items.get_mut(&number) else {
            return true;
        };
        let Some(peer) = &mut link.peer else {
            return true;
        };
        let (unsent, written) = (peer.unsent(), peer.written);
        let is_written = peer.write(bytes, now).is_ok() || !peer.connecting;
        self.held = held_bytes_after_change(self.held, unsent, peer.unsent());
        let more = peer.written.saturating_sub(written);
        self.origins.add_written(link.origin, more);
        is_written
    }

    /// Puts a link in under its number, and looks at it next at this moment. Whether there was memory for both.
    pub fn put(&mut self, number: u64, link: Link<S>, look: u64) -> bool
        ensures put { OnTrue result (get nat_cmp self.new.items number ≡ Some (record link { look = look })) }
        ensures not_put { OnFalse result (get nat_cmp self.new.items number ≡ get nat_cmp self.old.items number) }
        ensures others { EntriesOfOtherNumbersStay number self.old.items self.new.items }
    {
        if !self.looks.add(look, number) {
            return false;
        }
        let mut link = link;
        link.look = look;
        let origin = link.origin;
        let admission = link.admission;
        let is_put = self.items.insert(number, link).is_ok();
        if is_put {
            self.origins.begin(origin, admission);
        } else {
            self.looks.remove(look, number);
        }
        is_put
    }

    /// The number of a link that is to be looked at now.
    pub fn next_to_check_timeout(&mut self, now: u64) -> Option<u64>
        ensures { self.new ≡ record self.old { looks = self.new.looks } }
    {
        self.looks.take_earliest_due(now)
    }

    /// The line over which the request of a link went forward gives its origin so many seconds, or says nothing of it.
    pub fn set_origin_timeout_seconds(&mut self, number: u64, seconds: Option<u32>)
        ensures given { get nat_cmp self.new.items number
            ≡ option_map (link_given_origin_timeout seconds) (get nat_cmp self.old.items number) }
        ensures others { EntriesOfOtherNumbersStay number self.old.items self.new.items }
    {
        if let Some(link) = self.items.get_mut(&number) {
            link.seconds = seconds;
        }
    }

    /// A link was looked at, and its time isn't over: it is looked at once that may be, and no later than a time that
    /// begins now may be. Without memory for that, it is looked at no more.
    pub fn reschedule_timeout_check(&mut self, number: u64, now: u64, limits: &Limits)
        ensures others { EntriesOfOtherNumbersStay number self.old.items self.new.items }
    {
        let Some(link) = self.items.get_mut(&number) else {
            return;
        };
        let look = link
            .first_overtime_moment(limits)
            .max(now.saturating_add(SECOND))
            .min(now.saturating_add(limits.link_check_milliseconds(link.silence_limit(limits))));
        self.looks.remove(link.look, number);
        link.look = look;
        let _ = self.looks.add(look, number);
    }

    /// Puts a link among the ends that are read next, where it may give something and doesn't stand there. Whether its
    /// number is to be added.
    pub fn mark_listed_if_readable(&mut self, number: u64) -> bool
        ensures listed { result ≡ link_is_to_be_listed_for_read (get nat_cmp self.old.items number) }
        ensures marked { get nat_cmp self.new.items number
            ≡ option_map link_listed_if_input (get nat_cmp self.old.items number) }
        ensures others { EntriesOfOtherNumbersStay number self.old.items self.new.items }
    {
        let Some(link) = self.items.get_mut(&number) else {
            return false;
        };
        let may_have_input = match &link.peer {
            Some(peer) => peer.readable,
            None => false,
        };
        if link.is_listed || !may_have_input {
            return false;
        }
        link.is_listed = true;
        true
    }

    /// Takes a link from the ends that are read next. Whether it is there.
    pub fn unmark_listed_to_read(&mut self, number: u64) -> bool
        ensures there { result ≡ is_some (get nat_cmp self.old.items number) }
        ensures marked { get nat_cmp self.new.items number
            ≡ option_map link_marked_unlisted (get nat_cmp self.old.items number) }
        ensures others { EntriesOfOtherNumbersStay number self.old.items self.new.items }
    {
        match self.items.get_mut(&number) {
            Some(link) => {
                link.is_listed = false;
                true
            }
            None => false,
        }
    }

    /// Bytes that came on links, and those that their origins haven't taken yet.
    pub fn held(&self) -> usize
        ensures { result ≡ self.now.held }
    {
        self.held
    }

    /// The link for which the most is held, and how much.
    pub fn largest(&self) -> Option<(u64, usize)> {
        self.items
            .iter()
            .map(|(number, link)| (*number, link.held()))
            .max_by_key(|(_, held)| *held)
    }

    /// Drops the stream of a link. Its number stays until it is taken out.
    pub fn drop_stream(&mut self, number: u64)
        ensures gone { peer_of_link (get nat_cmp self.new.items number) ≡ None }
        ensures others { EntriesOfOtherNumbersStay number self.old.items self.new.items }
    {
        if let Some(link) = self.items.get_mut(&number) {
            self.held = self.held.saturating_sub(link.held());
            if let Some(peer) = &mut link.peer {
                peer.reset();
            }
            link.peer = None;
        }
    }

    /// Takes a link out.
    pub fn remove(&mut self, number: u64, now: u64)
        ensures gone { get nat_cmp self.new.items number ≡ None }
        ensures others { EntriesOfOtherNumbersStay number self.old.items self.new.items }
    {
        let Some(mut link) = self.items.remove(&number) else {
            return;
        };
        self.looks.remove(link.look, number);
        self.held = self.held.saturating_sub(link.held());
        if let Some(peer) = &mut link.peer {
            peer.reset();
        }
        self.origins.end(link.origin, link.admission, now.saturating_sub(link.began));
    }

    /// Whether a link has taken too long. One that isn't there has, and one without a stream.
    pub fn is_over(&self, number: u64, now: u64, limits: &Limits) -> bool
        ensures { result ≡ link_time_is_over (get nat_cmp self.now.items number) limits.now now }
    {
        match self.get(number) {
            Some(link) => link.peer.is_none() || link.overtime(now, limits).is_some(),
            None => true,
        }
    }

    /// Counts which time of a link is over.
    pub fn count_overtime(&mut self, number: u64, now: u64, limits: &Limits)
        ensures { self.new.items ≡ self.old.items }
    {
        let Some(link) = self.get(number) else {
            return;
        };
        let Some(overtime) = link.overtime(now, limits) else {
            return;
        };
        let origin = link.origin;
        self.origins.count_silent_exchange(origin);
        self.timeouts.count(overtime);
    }

    /// Counts that the connection of a link couldn't be made.
    pub fn count_failed_connect(&mut self, number: u64)
        ensures { self.new.items ≡ self.old.items }
    {
        if let Some(link) = self.get(number) {
            let origin = link.origin;
            self.origins.count_silent_exchange(origin);
        }
    }

    /// For how long the oldest link is open, in milliseconds; 0 where there is none.
    pub fn oldest_link_milliseconds(&self, now: u64) -> u64
        ensures { result ≡ milliseconds_open_of_link now (slice_get (values self.now.items) 0) }
    {
        match self.items.values().next() {
            Some(link) => now.saturating_sub(link.began),
            None => 0,
        }
    }
}
