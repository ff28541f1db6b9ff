//! A stream of the system, and what is known of it. No call waits.
ghost use Rattle.std.specs.Prelude.{◌≡◌, ◌<◌, ◌≤◌, ◌-◌, ◌||◌, true, false, not, [], ◌∷◌, ◌++◌, length, IfOk, OnOk};
ghost use Rattle.std.specs.Prelude.{OnErr, IfErr, IfSome, min, ◌+◌, ◌^◌, ◌⊎◌};
ghost use Rattle.std.specs.IoError.{error_kind};
ghost use Rattle.proxy_reads.specs.Received.{ReceivedBytesAreAtMostRoom};
ghost use Rattle.proxy_streams.specs.Silence.{end_is_silent};
ghost use Rattle.proxy_streams.specs.Peers.{peer_read_outcome, BytesAreWrittenOrKept, AFrontOfBytesIsWritten};
ghost use Rattle.proxy_streams.specs.Peers.{MoreMayBeLeftToRead};
ghost use Rattle.proxy_streams.specs.Peers.{event_shows_readable, event_shows_an_end, IsLastingError};
ghost use Rattle.proxy_streams.specs.PeerCalls.{PeerIsWritten, new_peer, ended_after_read, heard_moment_after_read};
ghost use Rattle.proxy_streams.specs.PeerCalls.{received_count_after_read};
ghost use Rattle.proxy_streams.specs.Resets.{is_broken_connection_error, new_socket};

use crate::socket::{Socket, still_connecting};
use crate::stream::Stream;
use crate::unsent::{Unsent, write_what_stream_takes};
use mio::event::Event;
use mio::net::TcpStream;
use mio::{Poll, Token};
use proxy_reads::Received;
use std::alloc::Global;
use std::io;
use std::io::ErrorKind;

/// A stream to a client or an origin.
#[derive(Drop)]
pub struct Peer<S: Stream + Drop> {
    stream: S,
    /// The connection isn't made yet.
    pub connecting: bool,
    /// Something may have come that wasn't read.
    pub readable: bool,
    /// The peer's end, or a failure, may stand behind what is to be read: a short read tells nothing.
    pub hung: bool,
    /// The peer's end was read.
    pub ended: bool,
    /// Nothing can be written any more.
    broken: bool,
    /// Bytes that the system didn't take yet.
    unsent: Unsent,
    /// When a byte last came or went, in milliseconds of the clock that never goes back.
    pub heard: u64,
    /// Nothing is sent any more, and the peer was told so.
    half_closed: bool,
    /// Bytes that have come, and that the system has taken.
    pub received: u64,
    pub written: u64,
}

/// Bytes that are held of all ends, where so many of one were, and so many are now.
pub fn held_bytes_after_change(all: usize, before: usize, after: usize) -> usize
    ensures { result ≡ min (all - before + after) (2 ^ 64 - 1) }
{
    all.saturating_sub(before).saturating_add(after)
}

impl Peer<Socket> {
    /// A stream of a listener, which has its options; `now` in milliseconds of the clock that never goes back, here and
    /// below.
    pub fn new(alloc: Global, stream: TcpStream, now: u64) -> Peer<Socket>
        ensures peer { result ≡ new_peer (new_socket stream) result.unsent now }
        ensures unsent { result.unsent.bytes ≡ [] }
    {
        Peer {
            stream: Socket::new(stream),
            connecting: false,
            readable: true,
            hung: false,
            ended: false,
            broken: false,
            unsent: Unsent::new(alloc),
            heard: now,
            half_closed: false,
            received: 0,
            written: 0,
        }
    }

    /// A stream whose connection isn't made yet.
    pub fn connecting(alloc: Global, stream: TcpStream, now: u64) -> Peer<Socket>
        ensures peer { result
            ≡ record (new_peer (new_socket stream) result.unsent now) { connecting = true; readable = false } }
        ensures unsent { result.unsent.bytes ≡ [] }
    {
        let mut peer = Peer::new(alloc, stream, now);
        peer.connecting = true;
        peer.readable = false;
        peer
    }

    /// Whether the connection is made, where an event told of it. Fails where it can't be made: not of one that was
    /// made and broken off, whose bytes can still be read.
    pub fn has_connected(&mut self, event: &Event) -> io::Result<bool>
        ensures made { IfOk result (λ made. made ≡ not self.new.connecting) }
        ensures rest { self.new ≡ record self.old { stream = self.new.stream; connecting = self.new.connecting } }
    {
        if let Some(e) = self.stream.take_error()? {
            return Err(e);
        }
        if event.is_writable() {
            self.connecting = false;
        }
        Ok(!self.connecting)
    }

    /// Asks the system for the events of this stream, under a token. Fails where the system refuses it.
    pub fn register(&mut self, poll: &Poll, token: Token) -> io::Result<()>
        ensures { self.new ≡ record self.old { stream = self.new.stream } }
    {
        self.stream.register(poll, token, true)
    }

    /// The same of a stream to which all was written that ever will be: that it can be written is told only where its
    /// connection isn't made yet, or some of it is unsent. Fails where the system refuses it.
    pub fn register_without_more_writes(&mut self, poll: &Poll, token: Token) -> io::Result<()>
        ensures { self.new ≡ record self.old { stream = self.new.stream } }
    {
        let with_writing = self.connecting || self.has_unsent();
        self.stream.register(poll, token, with_writing)
    }

    /// Has the last piece of what is written sent at once, though the peer hasn't acknowledged those before (RFC 9293,
    /// section 3.7.4).
    pub fn send_without_delay(&self) {
        self.stream.send_without_delay();
    }
}

impl<S: Stream + Drop> Peer<S> {
    /// Whether the peer has something to take that its stream didn't take yet.
    pub fn has_unsent(&self) -> bool
        ensures some { result ≡ true → 0 < length self.now.unsent.bytes }
        ensures empty { result ≡ false → self.now.unsent.bytes ≡ [] }
    {
        !self.unsent.is_empty()
    }

    /// How many bytes are held for the peer.
    pub fn unsent(&self) -> usize
        ensures { result ≡ self.now.unsent.held }
    {
        self.unsent.held()
    }

    /// Whether no byte came or went for more than so many milliseconds. One that wasn't read yet has come.
    pub fn is_silent(&self, now: u64, limit: u64) -> bool
        ensures is { result ≡ end_is_silent self.now.readable self.now.unsent.bytes now self.now.heard limit }
        ensures only { result ≡ true → limit < now - self.now.heard }
        ensures quiet { self.now.readable ≡ false → limit < now - self.now.heard → result ≡ true }
        ensures slow { 0 < length self.now.unsent.bytes → limit < now - self.now.heard → result ≡ true }
    {
        let waits = self.readable && !self.has_unsent();
        !waits && now.saturating_sub(self.heard) > limit
    }

    /// Marks what an event told of reading.
    pub fn note_socket_event(&mut self, event: &Event)
        ensures { self.new ≡ record self.old {
          readable = self.old.readable || event_shows_readable event.now;
          hung = self.old.hung || event_shows_an_end event.now;
        } }
    {
        if event.is_readable() || event.is_read_closed() || event.is_error() {
            self.readable = true;
        }
        if event.is_read_closed() || event.is_error() {
            self.hung = true;
        }
    }

    /// Writes, and keeps what the system doesn't take. Fails where the stream does, or where there is no room for what
    /// is to be kept: after a failure nothing more is written. A connection that was broken off had been made.
    #[tactic(auto, using(crate::proofs::Streaming::written_whole, crate::proofs::Streaming::written_in_part))]
    pub fn write(&mut self, bytes: &[u8], now: u64) -> io::Result<()>
        ensures connected { self.old.connecting ≡ false → self.new.connecting ≡ false }
        ensures handed { self.old.broken ≡ false
            → OnOk result (BytesAreWrittenOrKept (λ took. S.Passed self.old.stream took [] self.new.stream)
            (self.old.unsent.bytes ++ bytes.now) self.new.unsent.bytes) }
        ensures in_part { OnErr result
            (AFrontOfBytesIsWritten (λ took. S.Passed self.old.stream took [] self.new.stream)
            (self.old.unsent.bytes ++ bytes.now)) }
        ensures written { PeerIsWritten S.Passed bytes.now self.old self.new }
        ensures going { OnOk result (self.new.broken ≡ self.old.broken) }
        ensures failed { OnErr result (self.new.broken ≡ true) }
        ensures made { IfErr result (λ e. is_broken_connection_error (error_kind e) ≡ true → self.new.connecting
            ≡ false) }
        ensures broken { self.old.broken ≡ true → (self.new.stream ≡ self.old.stream) × (self.new.broken ≡ true) }
        ensures readable { self.old.readable ≡ true → self.new.readable ≡ true }
        ensures hung { self.old.hung ≡ true → self.new.hung ≡ true }
        ensures heard { self.old.broken ≡ false → self.new.heard ≡ now }
        ensures rest { self.new ≡ record self.old {
          stream = self.new.stream;
          connecting = self.new.connecting;
          readable = self.new.readable;
          hung = self.new.hung;
          broken = self.new.broken;
          unsent = self.new.unsent;
          heard = self.new.heard;
          written = self.new.written;
        } }
    {
        if self.broken {
            return Ok(());
        }
        self.heard = now;
        match self.write_or_keep(bytes, now) {
            Ok(()) => Ok(()),
            Err(e) => {
                self.connecting = still_connecting(self.connecting, &e);
                self.abort();
                Err(e)
            }
        }
    }

    fn write_or_keep(&mut self, bytes: &[u8], now: u64) -> io::Result<()>
        requires { self.old.broken ≡ false }
        ensures connected { self.old.connecting ≡ false → self.new.connecting ≡ false }
        ensures handed { OnOk result (BytesAreWrittenOrKept (λ took. S.Passed self.old.stream took [] self.new.stream)
            (self.old.unsent.bytes ++ bytes.now) self.new.unsent.bytes) }
        ensures in_part { OnErr result
            (AFrontOfBytesIsWritten (λ took. S.Passed self.old.stream took [] self.new.stream)
            (self.old.unsent.bytes ++ bytes.now)) }
        ensures going { OnOk result (self.new.broken ≡ false) }
        ensures readable { self.old.readable ≡ true → self.new.readable ≡ true }
        ensures hung { self.old.hung ≡ true → self.new.hung ≡ true }
        ensures heard { (self.new.heard ≡ self.old.heard) ⊎ (self.new.heard ≡ now) }
        ensures rest { self.new ≡ record self.old {
          stream = self.new.stream;
          connecting = self.new.connecting;
          readable = self.new.readable;
          hung = self.new.hung;
          broken = self.new.broken;
          unsent = self.new.unsent;
          heard = self.new.heard;
          written = self.new.written;
        } }
    {
        self.flush(now)?;
        if self.has_unsent() {
            return self.unsent.keep(bytes);
        }
        let n = write_what_stream_takes(&mut self.stream, bytes)?;
        self.written = self.written.saturating_add(n as u64);
        self.connecting = self.connecting && n == 0;
        self.unsent.keep(&bytes[n..])
    }

    /// Nothing more is written; what the peer had said can still be read.
    fn abort(&mut self)
        ensures connecting { self.new.connecting ≡ self.old.connecting }
        ensures stream { self.new.stream ≡ self.old.stream }
        ensures broken { self.new.broken ≡ true }
        ensures release { self.new.unsent.bytes ≡ [] }
        ensures readable { self.new.readable ≡ true }
        ensures hung { self.new.hung ≡ true }
        ensures rest { self.new ≡ record self.old {
          readable = true;
          hung = true;
          broken = true;
          unsent = self.new.unsent;
        } }
    {
        self.broken = true;
        self.readable = true;
        self.hung = true;
        self.unsent.release();
    }

    /// Writes of what was kept as much as the system takes now. Fails where the stream does: after a failure nothing
    /// more is written.
    pub fn flush(&mut self, now: u64) -> io::Result<()>
        ensures connecting { self.new.connecting ≡ self.old.connecting }
        ensures handed { self.old.broken ≡ false
            → OnOk result
            (BytesAreWrittenOrKept (λ took. S.Passed self.old.stream took [] self.new.stream) self.old.unsent.bytes
            self.new.unsent.bytes) }
        ensures in_part { OnErr result
            (AFrontOfBytesIsWritten (λ took. S.Passed self.old.stream took [] self.new.stream) self.old.unsent.bytes) }
        ensures going { OnOk result (self.new.broken ≡ self.old.broken) }
        ensures failed { OnErr result (self.new.broken ≡ true) }
        ensures broken { self.old.broken ≡ true → (self.new.stream ≡ self.old.stream) × (self.new.broken ≡ true) }
        ensures readable { self.old.readable ≡ true → self.new.readable ≡ true }
        ensures hung { self.old.hung ≡ true → self.new.hung ≡ true }
        ensures heard { (self.new.heard ≡ self.old.heard) ⊎ (self.new.heard ≡ now) }
        ensures rest { self.new ≡ record self.old {
          stream = self.new.stream;
          readable = self.new.readable;
          hung = self.new.hung;
          broken = self.new.broken;
          unsent = self.new.unsent;
          heard = self.new.heard;
          written = self.new.written;
        } }
    {
        if self.broken || self.unsent.is_empty() {
            return Ok(());
        }
        let n = match self.unsent.flush(&mut self.stream) {
            Ok(n) => n,
            Err(e) => {
                self.abort();
                return Err(e);
            }
        };
        if n > 0 {
            self.heard = now;
            self.written = self.written.saturating_add(n as u64);
        }
        Ok(())
    }

    /// Reads what has come, if anything may have. The mark that bytes may be left is cleared only where the stream said
    /// that there are none, where its end was read, or where it gave fewer bytes than there was room for and no event
    /// told of its end. Fails where the stream does, but for an interruption, or where nothing has come.
    pub fn read(&mut self, buf: &mut [u8], now: u64) -> io::Result<Received>
        ensures within { IfOk result (ReceivedBytesAreAtMostRoom (length buf.old)) }
        ensures length { length buf.new ≡ length buf.old }
        ensures passed { self.old.readable ≡ true
            → S.Passed self.old.stream [] (peer_read_outcome self.new.readable result buf.new ∷ []) self.new.stream }
        ensures left { self.old.readable ≡ true → MoreMayBeLeftToRead self.old.hung
            (length buf.old) result self.new.readable }
        ensures unread { self.old.readable ≡ false → (self.new ≡ self.old) × (result ≡ Ok Received.Nothing) }
        ensures hung { self.new.hung ≡ self.old.hung }
        ensures unsent { self.new.unsent ≡ self.old.unsent }
        ensures failed { IfErr result IsLastingError }
        ensures rest { self.new ≡ record self.old {
          stream = self.new.stream;
          readable = self.new.readable;
          ended = ended_after_read result self.old.ended;
          heard = heard_moment_after_read result now self.old.heard;
          received = received_count_after_read result self.old.received;
        } }
    {
        if !self.readable {
            return Ok(Received::Nothing);
        }
        match self.stream.read(buf) {
            Ok(0) => {
                self.readable = false;
                self.ended = true;
                Ok(Received::End)
            }
            Ok(n) => {
                self.heard = now;
                self.received = self.received.saturating_add(n as u64);
                // A short read took all that had come, unless the peer's end stands behind it.
                self.readable = n == buf.len() || self.hung;
                Ok(Received::Bytes(n))
            }
            Err(e) if e.kind() == ErrorKind::WouldBlock => {
                self.readable = false;
                Ok(Received::Nothing)
            }
            Err(e) if e.kind() == ErrorKind::Interrupted => Ok(Received::Nothing),
            Err(e) => Err(e),
        }
    }

    /// Ends the connection at once, unless its peer has ended it, or is about to: who closes first keeps the local port
    /// for a minute.
    pub fn reset(&mut self)
        ensures { self.new ≡ record self.old { stream = self.new.stream } }
    {
        if !self.connecting && !self.hung && !self.ended {
            self.stream.reset();
        }
    }

    /// Tells the peer, once, that nothing more comes. Fails where the stream does.
    pub fn shut_down(&mut self) -> io::Result<()>
        ensures shut { self.old.half_closed ≡ false → S.WasShut self.old.stream self.new.stream }
        ensures once { self.old.half_closed ≡ true → self.new.stream ≡ self.old.stream }
        ensures half_closed { self.new.half_closed ≡ true }
        ensures readable { self.new.readable ≡ self.old.readable }
        ensures hung { self.new.hung ≡ self.old.hung }
        ensures unsent { self.new.unsent ≡ self.old.unsent }
        ensures rest { self.new ≡ record self.old { stream = self.new.stream; half_closed = true } }
    {
        if self.half_closed {
            return Ok(());
        }
        self.half_closed = true;
        self.stream.shut_down()
    }
}
