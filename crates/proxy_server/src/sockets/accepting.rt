//! How connections of clients are taken.
ghost use Rattle.std.specs.Prelude.{◌≡◌, ◌&&◌, is_some};

use crate::sockets::live_sockets::LiveSockets;
use mio::Poll;
use mio::net::TcpStream;
use proxy_ends::TokenHolder;
use proxy_figures::{UnansweredCause, is_out_of_descriptors};
use proxy_listener::accept;
use proxy_streams::{Peer, Socket};
use std::io;
use std::io::ErrorKind;
use std::net::{Net, SocketAddr};

/// Asks the system for the events of the stream of this key.
fn register_client(peer: &mut Peer<Socket>, poll: &Poll, key: usize) -> io::Result<()> {
    peer.register(poll, TokenHolder::Client(key).token()?)
}

impl<'a, R: Net> LiveSockets<'a, R> {
    /// Whether a connection may wait to be taken.
    pub(crate) fn connection_may_be_waiting(&self) -> bool
        ensures { result ≡ (self.entry.now.acceptable && is_some self.entry.now.listener) }
    {
        self.acceptable && self.listener.is_some()
    }

    /// Takes a connection that waits, under this number. Whether one came; where one may have gone again, or gives way
    /// to it, the next turn asks once more.
    pub(crate) fn take_connection(&mut self, n: u64) -> bool
        ensures calls { self.new.calls ≡ self.old.calls }
    {
        match self.in_hand.take() {
            Some((stream, address)) => self.take_stream(n, stream, address),
            None => self.take_waiting(n),
        }
    }

    /// Takes a connection that waits in the listener's queue.
    fn take_waiting(&mut self, n: u64) -> bool
        ensures calls { self.new.calls ≡ self.old.calls }
    {
        match self.accept_stream() {
            Ok((stream, address)) => self.take_new_stream(n, stream, address),
            Err(e) => {
                self.acceptable = self.may_try_again(&e);
                false
            }
        }
    }

    /// Takes a stream that came now as a client; that there is no room for it is counted.
    fn take_new_stream(&mut self, n: u64, stream: TcpStream, address: SocketAddr) -> bool
        ensures calls { self.new.calls ≡ self.old.calls }
    {
        let is_taken = self.take_stream(n, stream, address);
        if self.in_hand.is_some() {
            self.accept_counts.count_no_room();
            self.may_give_way = true;
        }
        is_taken
    }

    /// Takes a stream as a client, under this number, where there is room for it; else it is kept in hand. Whether it
    /// was taken.
    fn take_stream(&mut self, n: u64, stream: TcpStream, address: SocketAddr) -> bool
        ensures calls { self.new.calls ≡ self.old.calls }
    {
        self.may_have_room = false;
        if !self.clients.make_room_for_a_client_stream(self.now) {
            self.in_hand = Some((stream, address));
            return false;
        }
        match self.add_client(n, stream, address) {
            Ok(()) => {
                self.accept_counts.count_accepted();
                true
            }
            Err(e) => {
                self.accept_counts.count_refused_accept(&e);
                false
            }
        }
    }

    /// A stream of a connection that waits.
    fn accept_stream(&self) -> io::Result<(TcpStream, SocketAddr)> {
        match &self.listener {
            Some(listener) if self.acceptable => accept(listener),
            _ => Err(io::Error::from(ErrorKind::WouldBlock)),
        }
    }

    /// Whether a connection is asked for again, behind a call that failed.
    fn may_try_again(&mut self, e: &io::Error) -> bool
        ensures calls { self.new.calls ≡ self.old.calls }
    {
        match e.kind() {
            ErrorKind::ConnectionAborted => return true,
            ErrorKind::Interrupted => return true,
            ErrorKind::WouldBlock if self.is_draining => self.listener = None,
            _ => {}
        }
        // Where descriptors have run out an idle client gives way, else it is tried again after a pause. The system
        // says so too where no connection waits: who has just come stays.
        let again = is_out_of_descriptors(e) && self.clients.drop_longest_idle(self.now);
        if !again {
            self.accept_counts.count_refused_accept(e);
        }
        again
    }

    /// Adds a stream as a client, under this number.
    fn add_client(&mut self, n: u64, stream: TcpStream, address: SocketAddr) -> io::Result<()>
        ensures calls { self.new.calls ≡ self.old.calls }
    {
        let peer = Peer::new(self.alloc, stream, self.now);
        let Some(key) = self.clients.add(peer, n, self.now) else {
            return Err(io::Error::from(ErrorKind::OutOfMemory));
        };
        if let Some(client) = self.clients.client_at_key_mut(key) {
            if self.log.is_some() && client.begin_log(address).is_err() {
                let _ = self.clients.forget(n, UnansweredCause::Closed);
                return Err(io::Error::from(ErrorKind::OutOfMemory));
            }
            if let Err(e) = register_client(&mut client.peer, &self.poll, key) {
                let _ = self.clients.forget(n, UnansweredCause::Closed);
                return Err(e);
            }
        }
        Ok(())
    }
}
