//! A client's stream: where it stands, what it asks for, and what a log needs of it.
//!
//! ```text
//! accepted --> Open(number) -- the engine closes it: bytes are unsent --> In(Leaving) -- all are taken --+
//!                           -- the engine closes it: all were taken -----------------------------------+ |
//!                           -- its client is gone, its time is over, or it gives way --> dropped       | |
//!                                                                                                      v v
//!                              dropped <-- its end has come, or its time is over -- In(Lingering): it is shut
//!                                                               for writing, and what comes is read and dropped
//! ```
ghost use Rattle.std.specs.Net.Text.{socket_text};
ghost use Rattle.std.specs.Prelude.{◌≡◌, ◌<◌, ◌≤◌, ◌++◌, length, take, drop, false, [], Some, None, Ok, IfOk, OnOk};
ghost use Rattle.std.specs.Prelude.{OnErr};
ghost use Rattle.proxy_ends.specs.Timeouts.{client_is_half_closed_and_idle_too_long, has_lasted_longer};
ghost use Rattle.proxy_ends.specs.Timeouts.{milliseconds_since};
ghost use Rattle.proxy_ends.specs.GivingWay.{client_is_quiet_for_a_second, client_takes_nothing_for_a_second};
ghost use Rattle.proxy_reads.specs.Received.{ReceivedBytesAreAtMostRoom};
ghost use Rattle.proxy_ends.specs.Departures.{unanswered_departure_of, client_with_departure_told};
ghost use Rattle.proxy_ends.specs.Logging.{LineAboutReplyIsAddedIfLogged, LineOfLoggedIsAddedOrLost};
ghost use Rattle.proxy_ends.specs.Logging.{LogBeginsNextRequest};
ghost use Rattle.proxy_ends.specs.Logging.{PieceIsKeptForTheLog};
ghost use Rattle.proxy_ends.specs.Logging.{logged_address};
ghost use Rattle.proxy_ends.specs.Streams.{client_has_bytes_not_handed_in, client_may_have_input};
ghost use Rattle.proxy_ends.specs.Streams.{input_bytes_not_handed_in};
ghost use Rattle.proxy_ends.specs.Streams.{ClientIsRead};
ghost use Rattle.proxy_ends.specs.Streams.{client_number_of_place, client_is_idle, new_client, ClosedClientIsReadOn};

use crate::clients::departures::UnansweredDeparture;
use crate::limits::SECOND;
use crate::replies::Reply;
use proxy_figures::UnansweredCause;
use proxy_log::{Lines, LoggedRequest, ReplyObservation, RequestLine};
use proxy_pacing::{ClosedStreamQueue, InputNotHandedIn, LEAST_PIECE_BYTES, head_end};
use proxy_reads::Received;
use proxy_streams::{Peer, Socket, Stream};
use std::alloc::{AllocError, Global};
use std::io;
use std::net::SocketAddr;

/// Where a client's stream stands.
#[derive(Clone, Copy, PartialEq, Eq)]
pub enum ClientStreamState {
    /// The engine knows it by this number.
    Open(u64),
    /// It was closed, and stands in a queue, since it had this stamp.
    In(ClosedStreamQueue, u64),
}

/// What a log needs of a client.
#[derive(Drop)]
pub struct LoggedClient {
    /// The text of its address and port, which each line has.
    pub address: String,
    /// The request line of its request that isn't answered yet, as it came.
    pub line: RequestLine,
}

impl LoggedClient {
    /// Adds the line about a reply: it names what the reply says that it answers, else what the request line says.
    fn log_reply(&self, reply: &Reply<'_>, lines: &mut Lines)
        ensures { LineOfLoggedIsAddedOrLost self.now reply.now lines.old lines.new }
    {
        let seen = ReplyObservation {
            moment: reply.moment,
            client: self.address.as_str().as_bytes(),
            took: reply.took,
            origin: reply.origin,
        };
        let about = &reply.replied.about;
        match &reply.replied.question {
            Some(question) => {
                lines.add_reply(&LoggedRequest::of_replied_question(question), about, &seen);
            }
            None => lines.add_reply(&self.line.asked(), about, &seen),
        }
    }
}

/// A client's stream. Moments are milliseconds of the clock that never goes back.
pub struct Client<S: Stream + Drop = Socket> {
    pub peer: Peer<S>,
    alloc: Global,
    pub place: ClientStreamState,
    /// What came behind the head of a request, and wasn't handed in yet.
    rest: Option<InputNotHandedIn>,
    /// When the first byte of its request came, if its request isn't answered.
    pub asked: Option<u64>,
    /// Something of a request was handed in that wasn't answered yet.
    is_begun: bool,
    /// Bytes that were handed in of the request that isn't answered yet.
    pub handed: usize,
    /// When its end was seen.
    pub left: Option<u64>,
    /// By which moment it stands among those that have sent their end.
    pub departed_mark: Option<u64>,
    /// It has sent a request, in all.
    pub has_asked: bool,
    /// It stands among the ends that are read next.
    pub is_listed: bool,
    /// Since when it is between two requests, if it is.
    pub idle_since: u64,
    /// By which moment it stands among those that were between two requests.
    pub idle_mark: Option<u64>,
    /// By which moment it stands among those whose request isn't answered yet.
    pub begun_mark: Option<u64>,
    /// When it is looked at next.
    pub look: u64,
    /// When it was closed.
    pub closed: u64,
    /// In memory of its own: where no log is kept, a client is smaller by it.
    logged: Option<Box<LoggedClient>>,
}

/// One call drops it, wherever that is.
impl<S: Stream + Drop> Drop for Client<S> {
    fn drop(self) {
        let Client {
            peer: _,
            alloc: _,
            place: _,
            rest: _,
            asked: _,
            is_begun: _,
            handed: _,
            left: _,
            departed_mark: _,
            has_asked: _,
            is_listed: _,
            idle_since: _,
            idle_mark: _,
            begun_mark: _,
            look: _,
            closed: _,
            logged: _,
        } = self;
    }
}

impl<S: Stream + Drop> Client<S> {
    /// A client from which nothing has come, under its number.
    pub fn new(alloc: Global, peer: Peer<S>, n: u64, now: u64) -> Client<S>
        ensures { result ≡ new_client alloc peer n now }
    {
        Client {
            peer,
            alloc,
            place: ClientStreamState::Open(n),
            rest: None,
            asked: None,
            is_begun: false,
            handed: 0,
            left: None,
            departed_mark: None,
            has_asked: false,
            is_listed: false,
            idle_since: now,
            idle_mark: None,
            begun_mark: None,
            look: 0,
            closed: 0,
            logged: None,
        }
    }

    /// Its number, where the engine knows it.
    pub fn number(&self) -> Option<u64>
        ensures { result ≡ client_number_of_place self.now.place }
    {
        match self.place {
            ClientStreamState::Open(n) => Some(n),
            ClientStreamState::In(_, _) => None,
        }
    }

    /// Keeps what a log needs: who it is, and its request line from now on. An `Err` changes nothing.
    pub fn begin_log(&mut self, address: SocketAddr) -> Result<(), AllocError>
        ensures ok { OnOk result (logged_address self.new.logged ≡ Some (socket_text address)) }
        ensures err { OnErr result (self.new ≡ self.old) }
    {
        let line = RequestLine::new(self.alloc);
        let address = address.to_string(self.alloc)?;
        let logged = Box::new(self.alloc, LoggedClient { address, line })?;
        self.logged = Some(logged);
        Ok(())
    }

    /// Takes what came, for a log: of a request that isn't answered yet its request line is kept.
    pub fn keep_piece_for_log(&mut self, piece: &[u8])
        ensures { PieceIsKeptForTheLog piece.now self.old.logged self.new.logged }
    {
        if let Some(logged) = &mut self.logged {
            logged.line.take(piece);
        }
    }

    /// What is told of it where it goes with a request that isn't answered.
    pub fn take_unanswered_departure(
        &mut self,
        cause: UnansweredCause,
    ) -> Option<UnansweredDeparture>
        ensures told { result ≡ unanswered_departure_of cause self.old }
        ensures rest { self.new ≡ client_with_departure_told self.old }
    {
        if !self.is_begun {
            return None;
        }
        self.is_begun = false;
        Some(UnansweredDeparture {
            cause,
            asked: self.asked,
            logged: self.logged.take(),
        })
    }

    /// Milliseconds since the first byte of the request came that is being answered.
    pub fn milliseconds_taken(&self, now: u64) -> u64
        ensures { result ≡ milliseconds_since now self.now.asked }
    {
        match self.asked {
            Some(asked) => now.saturating_sub(asked),
            None => 0,
        }
    }

    /// Adds the line about a reply, where a log is kept. Of the next request nothing has come then. Where there is
    /// neither room nor memory for the line, it is lost, and counted.
    pub fn log_reply(&mut self, reply: &Reply<'_>, lines: &mut Lines)
        ensures line { LineAboutReplyIsAddedIfLogged self.old.logged reply.now lines.old lines.new }
        ensures next { LogBeginsNextRequest self.old.logged self.new.logged }
    {
        if let Some(logged) = &mut self.logged {
            logged.log_reply(reply, lines);
            logged.line.clear();
        }
    }

    /// Keeps what came and isn't handed in yet. An `Err` changes nothing.
    fn keep(&mut self, piece: &[u8]) -> Result<(), AllocError>
        ensures kept { OnOk result
            (input_bytes_not_handed_in self.new.rest ≡ input_bytes_not_handed_in self.old.rest ++ piece.now) }
        ensures err { OnErr result (input_bytes_not_handed_in self.new.rest ≡ input_bytes_not_handed_in self.old.rest) }
        ensures peer { self.new.peer ≡ self.old.peer }
    {
        match &mut self.rest {
            Some(rest) => rest.keep(piece),
            None => {
                let mut rest = InputNotHandedIn::new(self.alloc);
                rest.keep(piece)?;
                self.rest = Some(rest);
                Ok(())
            }
        }
    }

    /// Whether something has come that wasn't handed in yet.
    pub fn has_bytes_not_handed_in(&self) -> bool
        ensures { result ≡ client_has_bytes_not_handed_in self.now.rest }
    {
        match &self.rest {
            Some(rest) => !rest.is_empty(),
            None => false,
        }
    }

    /// Drops what has come and wasn't handed in.
    pub fn drop_bytes_not_handed_in(&mut self)
        ensures { self.new ≡ record self.old { rest = None } }
    {
        self.rest = None;
    }

    /// Whether its request has been incomplete for more than so many milliseconds.
    pub fn is_request_late(&self, now: u64, limit: u64) -> bool
        ensures { result ≡ has_lasted_longer now self.now.asked limit }
    {
        match self.asked {
            Some(asked) => now.saturating_sub(asked) > limit,
            None => false,
        }
    }

    /// Whether it has sent its end, and for more than so many milliseconds nothing was written since.
    pub fn is_half_closed_too_long(&self, now: u64, limit: u64) -> bool
        ensures { result ≡ client_is_half_closed_and_idle_too_long now self.now.left self.now.peer.heard limit }
    {
        match self.left {
            Some(left) => now.saturating_sub(left.max(self.peer.heard)) > limit,
            None => false,
        }
    }

    /// Whether no byte of it came or went for a second at least.
    pub fn is_quiet(&self, now: u64) -> bool
        ensures { result ≡ client_is_quiet_for_a_second now self.now }
    {
        now.saturating_sub(self.peer.heard) >= SECOND
    }

    /// Whether it has taken nothing for a second at least of what it is to take.
    pub fn takes_nothing(&self, now: u64) -> bool
        ensures { result ≡ client_takes_nothing_for_a_second now self.now }
    {
        self.peer.has_unsent() && self.is_quiet(now)
    }

    /// Whether there is something that a read would give, or may.
    pub fn may_have_input(&self) -> bool
        ensures { result ≡ client_may_have_input self.now }
    {
        !self.peer.has_unsent() && (self.peer.readable || self.has_bytes_not_handed_in())
    }

    /// Whether it is between two requests: nothing of one was handed in, nor is to be.
    pub fn is_idle(&self) -> bool
        ensures { result ≡ client_is_idle self.now }
    {
        match self.place {
            ClientStreamState::Open(_) => !self.is_begun && !self.has_bytes_not_handed_in(),
            ClientStreamState::In(_, _) => false,
        }
    }

    /// So many bytes of a request are handed in.
    fn note_handed_in(&mut self, count: usize, now: u64)
        ensures peer { self.new.peer ≡ self.old.peer }
        ensures rest { self.new.rest ≡ self.old.rest }
    {
        self.is_begun = true;
        self.has_asked = true;
        self.handed = self.handed.saturating_add(count);
        if self.asked.is_none() {
            self.asked = Some(now);
        }
    }

    /// Its request was answered.
    pub fn answered(&mut self, now: u64)
        ensures { self.new.logged ≡ self.old.logged }
    {
        self.asked = None;
        self.is_begun = false;
        self.handed = 0;
        self.idle_since = now;
    }

    /// How many bytes are handed in at least, where so many have come.
    fn least(&self) -> usize {
        if self.is_begun { LEAST_PIECE_BYTES } else { 0 }
    }

    /// Keeps what stands behind the head of a request for the next reads; answers how many bytes stand in front. Where
    /// there is no memory for it, all are handed in.
    fn keep_rest(&mut self, piece: &[u8], least: usize) -> usize
        ensures within { result ≤ length piece.now }
        ensures some { 0 < length piece.now → 0 < result }
        ensures kept { input_bytes_not_handed_in self.old.rest ≡ [] → take result piece.now
            ++ input_bytes_not_handed_in self.new.rest ≡ piece.now }
        ensures peer { self.new.peer ≡ self.old.peer }
    {
        let end = head_end(piece, least);
        if end == 0 || end == piece.len() {
            return piece.len();
        }
        match self.keep(&piece[end..]) {
            Ok(()) => end,
            Err(_) => piece.len(),
        }
    }

    /// Reads a piece of what has come, if anything may have, behind what was kept. From one that still has to take what
    /// was written nothing is read.
    pub fn read_piece_behind_kept_input(&mut self, buf: &mut [u8], now: u64) -> io::Result<Received>
        ensures within { IfOk result (ReceivedBytesAreAtMostRoom (length buf.old)) }
        ensures length { length buf.new ≡ length buf.old }
        ensures takes_first { 0 < length self.old.peer.unsent.bytes → (self.new ≡ self.old)
            × (result ≡ Ok Received.Nothing) }
        ensures read { ClosedClientIsReadOn S.Passed (length buf.old) result buf.new self.old self.new }
    {
        if !self.peer.has_unsent() {
            return self.peer.read(buf, now);
        }
        Ok(Received::Nothing)
    }

    /// Hands in what was kept, as far as the head of one request; answers how many bytes.
    fn give_rest(&mut self, buf: &mut [u8], least: usize) -> usize
        ensures within { result ≤ length buf.old }
        ensures length { length buf.new ≡ length buf.old }
        ensures some { 0 < length buf.old → 0 < length (input_bytes_not_handed_in self.old.rest) → 0 < result }
        ensures given { take result buf.new ++ input_bytes_not_handed_in self.new.rest
            ≡ input_bytes_not_handed_in self.old.rest }
        ensures peer { self.new.peer ≡ self.old.peer }
    {
        let Some(rest) = &mut self.rest else {
            return 0;
        };
        let n = rest.give(buf, least);
        if rest.is_empty() {
            self.rest = None;
        }
        n
    }

    /// Reads what has come, if anything may have, as far as the head of one request: what was kept comes first. From
    /// one that still has to take what was written nothing is read.
    pub fn read(&mut self, buf: &mut [u8], now: u64) -> io::Result<Received>
        ensures within { IfOk result (ReceivedBytesAreAtMostRoom (length buf.old)) }
        ensures length { length buf.new ≡ length buf.old }
        ensures takes_first { 0 < length self.old.peer.unsent.bytes → (self.new ≡ self.old)
            × (result ≡ Ok Received.Nothing) }
        ensures handed_in { 0 < length buf.old → IfOk result
            (λ received. ClientIsRead S.Passed received buf.new self.old self.new) }
    {
        if self.peer.has_unsent() {
            return Ok(Received::Nothing);
        }
        let least = self.least();
        let n = self.give_rest(buf, least);
        if n > 0 {
            self.note_handed_in(n, now);
            return Ok(Received::Bytes(n));
        }
        self.read_stream(buf, least, now)
    }

    /// Reads what has come, if anything may have, as far as the head of one request, where nothing is left of what came
    /// before.
    fn read_stream(&mut self, buf: &mut [u8], least: usize, now: u64) -> io::Result<Received>
        ensures within { IfOk result (ReceivedBytesAreAtMostRoom (length buf.old)) }
        ensures length { length buf.new ≡ length buf.old }
        ensures handed_in { input_bytes_not_handed_in self.old.rest ≡ [] → IfOk result
            (λ received. ClientIsRead S.Passed received buf.new self.old self.new) }
    {
        match self.peer.read(buf, now)? {
            Received::Bytes(n) => {
                let n = self.keep_rest(&buf[..n], least);
                self.note_handed_in(n, now);
                Ok(Received::Bytes(n))
            }
            received => Ok(received),
        }
    }
}
