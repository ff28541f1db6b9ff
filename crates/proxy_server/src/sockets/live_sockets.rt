//! TCP sockets of the system, under the numbers of the engine.
ghost use Rattle.std.specs.Prelude.{◌≡◌, ◌≤◌, ◌+◌, ◌-◌, ◌/◌, ◌^◌, ◌==◌, if◌then◌else◌, min, length, vec_len};
ghost use Rattle.std.specs.Prelude.{true, false, option_copied, is_some, IfOk, IsOk, OnOk, None};
ghost use Rattle.proxy_reads.specs.Received.{ReceivedBytesAreAtMostRoom};
ghost use Rattle.std.specs.Ordering.{nat_cmp};
ghost use Rattle.std.specs.BTreeMap.{get};
ghost use Rattle.hx_allow.specs.declared.limits.TheConstants.{MOST_LINES};
ghost use Rattle.proxy_figures.specs.OriginsModel.{some_origin_is_crowded};
ghost use Rattle.proxy_figures.specs.LineOrigins.{LinesHavePlacesOfTheirOrigins};
ghost use Rattle.proxy_ends.specs.Connecting.{link_is_connecting};
ghost use Rattle.proxy_ends.specs.OtherEntries.{EntriesOfOtherNumbersStay, ChangesOnlyAtNumber};
ghost use Rattle.proxy_server.specs.Forgetting.{ClientStreamIsDropped, LinkStreamIsDropped};
ghost use Rattle.proxy_ends.specs.Closing.{ClosingByNumberDropsAtMostOneOther};
ghost use Rattle.proxy_server.specs.OriginsOfLines.{origins_of_lines};
ghost use Rattle.proxy_server.specs.Paces.{milliseconds_of_moment};
ghost use Rattle.std.specs.Prelude.{nat_lt};
ghost use Rattle.slab.specs.Slab.{slab_len};

use crate::pace::turn_end_of_report;
use crate::sockets::call_counts::CallCounts;
use crate::sockets::table_origins::place_origins;
use hx_allow::Table;
use hx_status::{FailKind, ReplyData};
use mio::net::{TcpListener, TcpStream};
use mio::{Events, Interest, Poll};
use proxy_ends::{
    Clients, LONGEST_WAIT_MILLISECONDS, Limits, Links, MOST_EVENTS_PER_POLL, SECOND, TokenHolder,
    UnansweredDeparture,
};
use proxy_figures::{
    ConnectionAttemptCounts, CutReason, LineOrigins, ReplyCounts, TroubleCounts, Turns,
    UnansweredCause,
};
use proxy_listener::{ListenAt, listen};
use proxy_log::{Lines, LoggedRequest};
use proxy_turn::{End, Received, Report, SocketCallFailed, Sockets, TurnFault};
use std::alloc::{AllocError, Global};
use std::collections::VecDeque;
use std::io;
use std::net::{Net, SocketAddr, SocketAddrV4};
use std::time::Duration;

/// A listener, its clients and the links to origins. No call waits but `wait`.
pub struct LiveSockets<'a, R: Net> {
    pub(crate) net: &'a R,
    pub(crate) alloc: Global,
    pub(crate) poll: Poll,
    events: Events,
    /// No more connections are taken where it is gone.
    pub(crate) listener: Option<TcpListener>,
    address: SocketAddr,
    /// A connection may wait to be taken.
    pub(crate) acceptable: bool,
    /// One that was taken, and for which there is no room yet.
    pub(crate) in_hand: Option<(TcpStream, SocketAddr)>,
    /// A client has come between two requests since room was looked for.
    pub(crate) may_have_room: bool,
    /// A client may give its place to the one in hand.
    pub(crate) may_give_way: bool,
    /// Who waits now is taken, and nobody else.
    pub(crate) is_draining: bool,
    /// The connections below this number are to end.
    pub(crate) not_retired: u64,
    pub(crate) clients: Clients,
    pub(crate) links: Links,
    /// Ends that may give something, and are read next; each stands there once.
    ready: VecDeque<End>,
    /// Links that failed since the last turn, and how.
    pub(crate) lost: Vec<(u64, FailKind)>,
    /// What is told of the client of which the engine is told next.
    departing: Option<UnansweredDeparture>,
    pub(crate) limits: Limits,
    /// Lines about replies, where a log is kept.
    pub(crate) log: Option<Lines>,
    /// Counts of replies, where they are kept.
    pub(crate) replies: Option<ReplyCounts>,
    pub(crate) accept_counts: ConnectionAttemptCounts,
    pub(crate) turns: Turns,
    /// Which origin the lines of the table have, where replies are counted or a log is kept.
    pub(crate) line_origins: LineOrigins,
    /// The moment of the turn in milliseconds since 1970, for the log.
    pub(crate) moment: u64,
    /// Milliseconds of the clock that never goes back, at the last wait.
    pub(crate) now: u64,
    pub(crate) calls: CallCounts,
}

/// One call drops it, wherever that is.
impl<'a, R: Net> Drop for LiveSockets<'a, R> {
    fn drop(self) {
        let LiveSockets {
            net: _,
            alloc: _,
            poll: _,
            events: _,
            listener: _,
            address: _,
            acceptable: _,
            in_hand: _,
            may_have_room: _,
            may_give_way: _,
            is_draining: _,
            not_retired: _,
            clients: _,
            links: _,
            ready: _,
            lost: _,
            departing: _,
            limits: _,
            log: _,
            replies: _,
            accept_counts: _,
            turns: _,
            line_origins: _,
            moment: _,
            now: _,
            calls: _,
        } = self;
    }
}

/// Reads from the link of a number. After a failure its stream is dropped; of one without a stream nothing comes.
fn read_link(
    links: &mut Links,
    l: u64,
    buf: &mut [u8],
    now: u64,
) -> Result<Received, SocketCallFailed>
    ensures within { IfOk result (ReceivedBytesAreAtMostRoom (length buf.old)) }
    ensures length { length buf.new ≡ length buf.old }
    ensures others { EntriesOfOtherNumbersStay l links.old.items links.new.items }
{
    if let Ok(received) = links.read(l, buf, now) {
        return Ok(received);
    }
    links.drop_stream(l);
    Err(SocketCallFailed)
}

/// Reads from the client of a number. After a failure its stream is dropped, and it has departed; of one that isn't
/// there nothing comes.
fn read_client(
    clients: &mut Clients,
    departed: &mut Option<UnansweredDeparture>,
    n: u64,
    buf: &mut [u8],
    now: u64,
) -> Result<Received, SocketCallFailed>
    ensures within { IfOk result (ReceivedBytesAreAtMostRoom (length buf.old)) }
    ensures length { length buf.new ≡ length buf.old }
    ensures open { EntriesOfOtherNumbersStay n clients.old.open clients.new.open }
    ensures others { ChangesOnlyAtNumber clients.old.open n clients.old.streams clients.new.streams }
{
    if let Ok(received) = clients.read(n, buf, now) {
        return Ok(received);
    }
    *departed = clients.forget(n, UnansweredCause::Closed);
    Err(SocketCallFailed)
}

/// Adds an end to those that are read next. A client is cut off where there is no memory for that; a link is silent
/// then.
fn list(ready: &mut VecDeque<End>, clients: &mut Clients, end: End) {
    if ready.push_back(end).is_ok() {
        return;
    }
    if let End::Client(n) = end {
        if let Some(key) = clients.key_of(n) {
            clients.drop_stream_and_count(key, CutReason::Memory);
        }
    }
}

/// Hands what a client sent to what is kept for the log.
fn read_piece(
    clients: &mut Clients,
    end: End,
    received: &Result<Received, SocketCallFailed>,
    buf: &[u8],
) {
    if let (End::Client(n), Ok(Received::Bytes(count))) = (end, received) {
        if let (Some(client), Some(piece)) = (clients.get_mut(n), buf.get(..*count)) {
            client.keep_piece_for_log(piece);
        }
    }
}

impl<'a, R: Net> LiveSockets<'a, R> {
    /// Sockets that listen there. Fails where the system refuses it, or memory runs out.
    pub fn listen(
        net: &'a R,
        alloc: Global,
        at: ListenAt,
        limits: Limits,
    ) -> io::Result<LiveSockets<'a, R>>
        ensures limits { IfOk result (λ sockets. sockets.limits ≡ limits) }
        ensures begins { IfOk result (λ sockets. sockets.is_draining ≡ false) }
    {
        let poll = Poll::new(net)?;
        let mut listener = listen(net, at)?;
        poll.registry().register(
            &mut listener,
            TokenHolder::Listener.token()?,
            Interest::READABLE,
        )?;
        let address = listener.local_addr()?;
        Ok(LiveSockets {
            net,
            alloc,
            poll,
            events: Events::with_capacity(alloc, MOST_EVENTS_PER_POLL)?,
            listener: Some(listener),
            address,
            acceptable: true,
            in_hand: None,
            may_have_room: false,
            may_give_way: false,
            is_draining: false,
            not_retired: 0,
            clients: Clients::new(alloc, limits),
            links: Links::new(alloc, &limits),
            ready: VecDeque::new(alloc),
            lost: Vec::new(alloc),
            departing: None,
            limits,
            log: None,
            replies: None,
            accept_counts: ConnectionAttemptCounts::new(),
            turns: Turns::new(),
            line_origins: LineOrigins::new(alloc),
            moment: 0,
            now: 0,
            calls: CallCounts::new(),
        })
    }

    /// The address that is listened on, or was.
    pub fn address(&self) -> SocketAddr
        ensures { result ≡ self.entry.now.address }
    {
        self.address
    }

    /// Takes the origins of the lines of a table: those that replies name, and that are counted. Its only error is out
    /// of memory.
    fn take_origins(&mut self, table: &Table) -> Result<(), AllocError>
        ensures placed { OnOk result (LinesHavePlacesOfTheirOrigins
            (origins_of_lines table.now.lines (min (length table.now.lines) MOST_LINES))
            self.new.line_origins.places.items self.new.links.origins) }
        ensures rest { self.new ≡ record self.old {
          links = self.new.links;
          line_origins = self.new.line_origins;
        } }
    {
        self.line_origins = place_origins(self.alloc, table, &mut self.links.origins)?;
        Ok(())
    }

    /// Keeps a line about each reply from now on, which names the origin that the table has for it. Its only error is
    /// out of memory.
    pub fn start_keeping_log_lines(&mut self, table: &Table) -> Result<(), AllocError>
        ensures kept { OnOk result (is_some self.new.log ≡ true) }
        ensures rest { self.new ≡ record self.old {
          links = self.new.links;
          line_origins = self.new.line_origins;
          log = self.new.log;
        } }
    {
        self.take_origins(table)?;
        self.log = Some(Lines::new(self.alloc));
        Ok(())
    }

    /// Counts replies from now on, and what the origins of a table do. Its only error is out of memory.
    pub fn start_counting_replies(&mut self, table: &Table) -> Result<(), AllocError>
        ensures kept { OnOk result (is_some self.new.replies ≡ true) }
        ensures rest { self.new ≡ record self.old {
          links = self.new.links;
          line_origins = self.new.line_origins;
          replies = self.new.replies;
        } }
    {
        self.take_origins(table)?;
        self.replies = Some(ReplyCounts::new());
        Ok(())
    }

    /// The lines about replies since they were last cleared.
    pub fn log(&self) -> Option<&Lines>
        ensures { option_copied result ≡ self.entry.now.log }
    {
        self.log.as_ref()
    }

    /// Drops the lines, which were written or can't be.
    pub fn clear_log(&mut self)
        ensures { self.new ≡ record self.old { log = self.new.log } }
    {
        if let Some(lines) = &mut self.log {
            lines.clear();
        }
    }

    /// The moment of the next turn, in Unix seconds; and what the clock tells, with its milliseconds. The moment may be
    /// that of the turn before, which had its own.
    pub fn set_moment(&mut self, moment: u64, now: u64, milliseconds: u64)
        ensures { self.new ≡ record self.old {
          moment = if moment == now then milliseconds_of_moment now milliseconds else self.old.moment;
        } }
    {
        if moment == now {
            self.moment = now.saturating_mul(SECOND).saturating_add(milliseconds);
        }
    }

    /// Seconds of the clock that never goes back, at the last wait.
    pub fn second(&self) -> u64
        ensures { result ≡ self.entry.now.now / 1000 }
    {
        self.now / SECOND
    }

    /// Waits until something is ready, for a second at most, or not at all where something is left to be done. After a
    /// turn without memory it waits in any case: there may be some a little later.
    pub fn wait(&mut self, busy: bool, starved: bool) -> io::Result<()> {
        let none = busy || self.clients.more || self.lost_count() > 0 || self.has_more();
        let limit = if none && !starved {
            0
        } else {
            LONGEST_WAIT_MILLISECONDS
        };
        self.poll
            .poll(&mut self.events, Some(Duration::from_millis(limit)))
    }

    /// Takes what has come since the wait, without waiting: a signal may have ended the wait before it told of
    /// anything.
    pub fn poll_without_waiting(&mut self) -> io::Result<()> {
        self.poll
            .poll(&mut self.events, Some(Duration::from_millis(0)))?;
        self.take_events();
        // After a pause an accept is tried again.
        self.acceptable = true;
        Ok(())
    }

    /// Takes what the wait told, at so many milliseconds of a clock that never goes back. Whether a new second has
    /// begun.
    pub fn refresh(&mut self, now: u64) -> bool {
        let ticked = now / SECOND != self.now / SECOND;
        self.now = now;
        // Who was not quiet for long enough may be now.
        self.may_give_way = self.may_give_way || ticked && self.in_hand.is_some();
        self.take_events();
        self.clients.drop_input_of_lingering(now);
        ticked
    }

    fn take_events(&mut self) {
        for event in self.events.iter() {
            match TokenHolder::of(event.token()) {
                TokenHolder::Listener => self.acceptable = true,
                TokenHolder::Link(l) => {
                    if self.links.note_socket_event(l, event, self.now).is_err() {
                        self.links.count_failed_connect(l);
                        self.links.drop_stream(l);
                        // Where there is no memory for it, it counts as silent.
                        let _ = self.lost.push((l, FailKind::Refused));
                    } else if self.links.mark_listed_if_readable(l) {
                        list(&mut self.ready, &mut self.clients, End::Link(l));
                    }
                }
                TokenHolder::Client(key) => {
                    self.clients.note_socket_event(key, event, self.now);
                    if let Some(n) = self.clients.mark_listed_if_readable(key) {
                        list(&mut self.ready, &mut self.clients, End::Client(n));
                    }
                }
            }
        }
    }

    /// Puts an end among those that are read next, where it may give something.
    fn list_again(&mut self, end: End)
        ensures calls { self.new.calls ≡ self.old.calls }
    {
        let is_new = match end {
            End::Listener => false,
            End::Link(l) => self.links.mark_listed_if_readable(l),
            End::Client(n) => match self.clients.key_of(n) {
                Some(key) => {
                    self.clients.list_as_droppable_for_room(key, self.now);
                    self.clients.mark_listed_if_readable(key).is_some()
                }
                None => false,
            },
        };
        if is_new {
            list(&mut self.ready, &mut self.clients, end);
        }
    }

    /// Whether one more client may be taken.
    fn has_room(&self) -> bool
        ensures { result ≡ nat_lt (slab_len self.entry.now.clients.streams) self.entry.now.limits.connections }
    {
        self.clients.len() < self.limits.connections
    }

    /// While a connection waits to be taken for which there is no room: a client that may give way to it.
    pub fn next_to_drop_for_room(&mut self) -> Option<u64>
        ensures nobody { self.old.in_hand ≡ None → result ≡ None }
        ensures rest { self.new ≡ record self.old {
          clients = self.new.clients;
          may_give_way = self.new.may_give_way;
        } }
    {
        if self.in_hand.is_none() || self.has_room() {
            return None;
        }
        let number = self.clients.next_to_drop_for_room(self.now);
        self.may_give_way = number.is_some();
        number
    }

    /// Drops the stream of a client that gives its place to another.
    pub fn drop_client_giving_way(&mut self, n: u64)
        ensures client { ClientStreamIsDropped (End.Client n) self.old.clients self.new.clients }
        ensures links { self.new.links ≡ self.old.links }
    {
        self.clients.endings.count_cut(CutReason::Room);
        let cause = UnansweredCause::of_cut(CutReason::Room);
        self.departing = self.clients.forget(n, cause);
    }

    /// Whether an end is read next, a connection may be taken, or one is to end, of which no event will tell.
    pub fn has_more(&self) -> bool {
        if !self.ready.is_empty() || self.first_unretired_client().is_some() {
            return true;
        }
        match &self.in_hand {
            Some(_) => self.may_have_room || self.may_give_way || self.has_room(),
            None => self.connection_may_be_waiting(),
        }
    }

    /// Hands out the ends that are read next, so many of them at most.
    pub fn take_ready_ends(&mut self, most: usize, ends: &mut Vec<End>) {
        ends.clear();
        for _ in 0..most {
            let Some(end) = self.ready.pop_front() else {
                return;
            };
            let is_there = match end {
                End::Listener => false,
                End::Link(l) => self.links.unmark_listed_to_read(l),
                End::Client(n) => self.clients.unmark_listed_to_read(n),
            };
            if is_there && ends.push(end).is_err() {
                self.list_again(end);
                return;
            }
        }
    }

    /// How many ends failed since they were last asked for.
    pub fn lost_count(&self) -> usize
        ensures { result ≡ min (vec_len self.entry.now.lost + vec_len self.entry.now.clients.lost) (2 ^ 64 - 1) }
    {
        self.lost.len().saturating_add(self.clients.lost_count())
    }

    /// An end that failed since it was last asked, and how. Its stream is gone.
    pub fn take_lost_end(&mut self) -> Option<(End, FailKind)>
        ensures { self.new ≡ record self.old {
          lost = self.new.lost;
          clients = self.new.clients;
          departing = self.new.departing;
        } }
    {
        if let Some((l, kind)) = self.lost.pop() {
            return Some((End::Link(l), kind));
        }
        let lost = self.clients.take_lost_client()?;
        self.departing = lost.departure;
        Some((End::Client(lost.number), FailKind::Closed))
    }

    /// The engine is told that an end is lost: no call on it follows. The request of a client that is open had gone
    /// forward on this link, and asks for this.
    pub fn note_lost_end(&mut self, end: End, link: Option<u64>, request: Option<LoggedRequest<'_>>)
        ensures { self.new ≡ record self.old {
          links = self.new.links;
          departing = self.new.departing;
          log = self.new.log;
        } }
    {
        match end {
            End::Listener => {}
            End::Link(l) => self.links.remove(l, self.now),
            End::Client(_) => {
                let departure = self.departing.take();
                self.log_departure(departure, link, request);
            }
        }
    }

    /// Whether replies are counted, or a line of each is kept.
    fn notes_replies(&self) -> bool {
        self.log.is_some() || self.replies.is_some()
    }

    /// A turn was served that read these ends. Those that may give more are read again.
    pub fn requeue_ends_after_turn(&mut self, ends: &[End], reported: Result<Report, TurnFault>) {
        for end in ends {
            self.list_again(*end);
        }
        self.turns.count(turn_end_of_report(reported));
        self.count_lost_lines();
    }

    /// An end that is to be looked at: whether a time of it is over.
    pub fn next_to_check_timeout(&mut self) -> Option<End>
        ensures { self.new ≡ record self.old { clients = self.new.clients; links = self.new.links } }
    {
        if let Some(l) = self.links.next_to_check_timeout(self.now) {
            return Some(End::Link(l));
        }
        let n = self.clients.next_to_check_timeout(self.now)?;
        Some(End::Client(n))
    }

    /// An end was looked at, and none of its times is over.
    pub fn schedule_check_of_end(&mut self, end: End) {
        match end {
            End::Listener => {}
            End::Link(l) => self
                .links
                .reschedule_timeout_check(l, self.now, &self.limits),
            End::Client(n) => {
                if let Some(key) = self.clients.key_of(n) {
                    self.clients.reschedule_timeout_check(key, self.now);
                }
            }
        }
    }

    /// A client that has sent its end, where nearly as many links to an origin are open as may be: if it waits for an
    /// answer, that is given up for those who still listen.
    pub fn next_half_closed_when_crowded(&mut self) -> Option<u64>
        ensures crowded { some_origin_is_crowded self.old.links.origins ≡ false → result ≡ None }
        ensures rest { self.new ≡ record self.old { clients = self.new.clients } }
    {
        if !self.links.origins.some_origin_is_crowded() {
            return None;
        }
        self.clients.take_first_half_closed()
    }

    /// A client that has sent its end doesn't wait for an answer yet.
    pub fn check_half_closed_later(&mut self, n: u64)
        ensures { self.new ≡ record self.old { clients = self.new.clients } }
    {
        if let Some(key) = self.clients.key_of(n) {
            self.clients.mark_half_closed(key, self.now);
        }
    }

    /// What couldn't be done that was asked, since the start.
    pub fn troubles(&self) -> TroubleCounts {
        let origins = &self.links.origins;
        TroubleCounts {
            full: self.accept_counts.full,
            no_descriptor: self.accept_counts.no_descriptor,
            no_link: self.accept_counts.no_link,
            no_port: self.accept_counts.no_port,
            refused_beyond_bound: origins.refused_beyond_bound(),
            silent: if self.limits.origin_probe {
                origins.times_fallen_silent()
            } else {
                0
            },
        }
    }

    /// Drops the stream of an end whose time is over.
    pub fn forget(&mut self, end: End)
        ensures client { ClientStreamIsDropped end self.old.clients self.new.clients }
        ensures link { LinkStreamIsDropped end self.old.links self.new.links }
    {
        match end {
            End::Listener => {}
            End::Client(n) => {
                let cause = self.clients.count_client_end(n, self.now);
                self.departing = self.clients.forget(n, cause);
            }
            End::Link(l) => {
                self.links.count_overtime(l, self.now, &self.limits);
                self.links.drop_stream(l);
            }
        }
    }

    /// Writes to a client: a reply that is this, or an interim response, which answers nothing yet.
    fn write_client(&mut self, n: u64, bytes: &[u8], replied: Option<&ReplyData>)
        ensures calls { self.new.calls ≡ self.old.calls }
    {
        if !self.clients.write_to(n, bytes, self.now) {
            return;
        }
        if let Some(replied) = replied {
            self.note_answered(n, replied);
        }
        self.drop_largest_end_beyond_limit();
    }

    /// The request of a client was answered by this reply: it may be read again.
    fn note_answered(&mut self, n: u64, replied: &ReplyData)
        ensures calls { self.new.calls ≡ self.old.calls }
    {
        let Some(key) = self.clients.key_of(n) else {
            return;
        };
        let took = self.clients.answered(key, self.now);
        self.may_have_room = true;
        if self.notes_replies() {
            self.count_and_log_reply(key, replied, took);
        }
        self.list_again(End::Client(n));
    }

    fn write_link(&mut self, l: u64, bytes: &[u8]) -> Result<(), SocketCallFailed>
        ensures connected { link_is_connecting (get nat_cmp self.old.links.items l) ≡ false → IsOk result
            × (self.new.lost ≡ self.old.lost) }
        ensures calls { self.new.calls ≡ self.old.calls }
    {
        let was_connecting = self.links.is_connecting(l);
        self.links.set_no_delay_if_many_segments(l, bytes.len());
        // What an origin had said before it broke off can still be read; its end is told then. A link is written to
        // once, so where all of it went out its events are those of reading.
        let is_written = self.links.write(l, bytes, self.now);
        if is_written && (!was_connecting || self.links.watch(l, &self.poll).is_ok()) {
            return Ok(());
        }
        if !is_written {
            self.links.count_failed_connect(l);
        }
        self.links.drop_stream(l);
        self.defer_link_failure(l, FailKind::Refused)
    }

    /// Keeps until the next turn begins that a link has failed.
    pub(crate) fn defer_link_failure(
        &mut self,
        l: u64,
        kind: FailKind,
    ) -> Result<(), SocketCallFailed>
        ensures calls { self.new.calls ≡ self.old.calls }
    {
        if self.lost.push((l, kind)).is_ok() {
            return Ok(());
        }
        self.links.remove(l, self.now);
        Err(SocketCallFailed)
    }

    /// Reads from a link. That it has failed is kept until the next turn begins.
    fn read_from_link(&mut self, l: u64, buf: &mut [u8]) -> Result<Received, SocketCallFailed>
        ensures within { IfOk result (ReceivedBytesAreAtMostRoom (length buf.old)) }
        ensures length { length buf.new ≡ length buf.old }
        ensures calls { self.new.calls ≡ self.old.calls }
    {
        if let Ok(received) = read_link(&mut self.links, l, buf, self.now) {
            return Ok(received);
        }
        self.defer_link_failure(l, FailKind::Closed)?;
        Ok(Received::Nothing)
    }
}

impl<'a, R: Net> LiveSockets<'a, R> {
    /// Reads from a client. One that has broken off had no request that went forward.
    fn read_from_client(&mut self, n: u64, buf: &mut [u8]) -> Result<Received, SocketCallFailed>
        ensures within { IfOk result (ReceivedBytesAreAtMostRoom (length buf.old)) }
        ensures length { length buf.new ≡ length buf.old }
        ensures calls { self.new.calls ≡ self.old.calls }
    {
        let mut departed = None;
        let received = read_client(&mut self.clients, &mut departed, n, buf, self.now);
        self.log_departure(departed, None, None);
        received
    }

    /// Closes a client's connection. What it began to ask for has no answer.
    fn close_client(&mut self, n: u64)
        ensures calls { self.new.calls ≡ self.old.calls }
    {
        let departed = self.clients.take_unanswered_departure(n);
        self.clients.close(n, self.now);
        self.log_departure(departed, None, None);
    }
}

impl<'a, R: Net> Sockets for LiveSockets<'a, R> {
    // No contract can say what the system's sockets give or take, and no log of it is kept.
    ghost Did = { λ s made t. Unit {0} };

    ghost accepts = { λ s. s.calls.accepts };

    ghost reads = { λ s. s.calls.reads };

    ghost failures = { λ s. s.calls.failures };

    ghost none = { λ s. tt };

    ghost joined = { λ s t u a b first second. tt };

    fn accept(&mut self, n: u64) -> Result<bool, SocketCallFailed> {
        self.calls.accepts = self.calls.accepts.saturating_add(1);
        Ok(self.take_connection(n))
    }

    fn read(&mut self, end: End, buf: &mut [u8]) -> Result<Received, SocketCallFailed> {
        self.calls.reads = self.calls.reads.saturating_add(1);
        let received = match end {
            End::Listener => Ok(Received::Nothing),
            End::Client(n) => self.read_from_client(n, buf),
            End::Link(l) => self.read_from_link(l, buf),
        };
        if self.log.is_some() {
            read_piece(&mut self.clients, end, &received, buf);
        }
        self.drop_largest_end_beyond_limit();
        self.calls.count_if_call_failed(&received);
        received
    }

    fn write(
        &mut self,
        end: End,
        bytes: &[u8],
        replied: Option<&ReplyData>,
    ) -> Result<(), SocketCallFailed> {
        let written = match end {
            End::Listener => Ok(()),
            End::Client(n) => {
                self.write_client(n, bytes, replied);
                Ok(())
            }
            End::Link(l) => self.write_link(l, bytes),
        };
        self.calls.count_if_call_failed(&written);
        written
    }

    fn connect(&mut self, link: u64, address: SocketAddrV4) -> Result<(), SocketCallFailed> {
        let connected = self.connect_link(link, address);
        self.calls.count_if_call_failed(&connected);
        connected
    }

    fn shut(&mut self, end: End) -> Result<(), SocketCallFailed> {
        match end {
            End::Client(n) => self.close_client(n),
            End::Link(l) => self.links.remove(l, self.now),
            End::Listener => {}
        }
        Ok(())
    }
}
