//! A link to an origin, and its times.
ghost use Rattle.std.specs.Prelude.{◌≡◌, false};
ghost use Rattle.proxy_ends.specs.Timeouts.{exceeded_limit_of_link, first_overtime_moment_of_link};
ghost use Rattle.proxy_ends.specs.Timeouts.{silence_limit_of_link};
ghost use Rattle.proxy_ends.specs.Streams.{bytes_held_of_peer};

use crate::limits::{Limits, SECOND};
use mio::event::Event;
use proxy_figures::{ExceededLinkLimit, LinkAdmission};
use proxy_streams::{Peer, Socket, Stream};
use std::io;

/// A link.
pub struct Link<S: Stream + Drop = Socket> {
    /// Its stream, until that has failed.
    pub peer: Option<Peer<S>>,
    /// When it began, in milliseconds of the clock that never goes back.
    pub began: u64,
    /// The place of its origin.
    pub origin: usize,
    /// Whether its origin was to be asked.
    pub admission: LinkAdmission,
    /// It stands among the ends that are read next.
    pub is_listed: bool,
    /// When it is looked at next.
    pub look: u64,
    /// The seconds for which its origin may send no byte, where the line of its request says so. That is known from the
    /// first look on: no such time is shorter than what that waits.
    pub seconds: Option<u32>,
}

/// One call drops it, wherever that is.
impl<S: Stream + Drop> Drop for Link<S> {
    fn drop(self) {
        let Link {
            peer: _,
            began: _,
            origin: _,
            admission: _,
            is_listed: _,
            look: _,
            seconds: _,
        } = self;
    }
}

impl<S: Stream + Drop> Link<S> {
    /// A link that begins; without a stream where that couldn't be had.
    pub fn new(peer: Option<Peer<S>>, now: u64, origin: usize, admission: LinkAdmission) -> Link<S>
        ensures { result ≡ record {
          peer = peer;
          began = now;
          origin = origin;
          admission = admission;
          is_listed = false;
          look = 0;
          seconds = None;
        } }
    {
        Link {
            peer,
            began: now,
            origin,
            admission,
            is_listed: false,
            look: 0,
            seconds: None,
        }
    }

    /// Bytes that came on it, and those that its origin hasn't taken yet.
    pub fn held(&self) -> usize
        ensures { result ≡ bytes_held_of_peer self.now.peer }
    {
        match &self.peer {
            Some(peer) => peer.unsent().saturating_add(peer.received as usize),
            None => 0,
        }
    }

    /// For how long its origin may send no byte.
    pub fn silence_limit(&self, limits: &Limits) -> u64
        ensures { result ≡ silence_limit_of_link limits.now self.now }
    {
        match self.seconds {
            Some(seconds) => u64::from(seconds) * SECOND,
            None => limits.origin_timeout,
        }
    }

    /// The first moment at which a time of it may be over.
    pub fn first_overtime_moment(&self, limits: &Limits) -> u64
        ensures { result ≡ first_overtime_moment_of_link limits.now self.now }
    {
        let last = self.began.saturating_add(limits.exchange_timeout);
        let next = match &self.peer {
            Some(peer) if peer.connecting => self.began.saturating_add(limits.connect_timeout),
            Some(peer) => peer.heard.saturating_add(self.silence_limit(limits)),
            None => last,
        };
        last.min(next).saturating_add(1)
    }

    /// Whether its connection, its silence or all of it has taken too long.
    pub fn overtime(&self, now: u64, limits: &Limits) -> Option<ExceededLinkLimit>
        ensures { result ≡ exceeded_limit_of_link self.now limits.now now }
    {
        let Some(peer) = &self.peer else {
            return None;
        };
        let lasts = now.saturating_sub(self.began);
        if lasts > limits.exchange_timeout {
            return Some(ExceededLinkLimit::Exchange);
        }
        if peer.connecting {
            return if lasts > limits.connect_timeout {
                Some(ExceededLinkLimit::Connect)
            } else {
                None
            };
        }
        if peer.is_silent(now, self.silence_limit(limits)) {
            return Some(ExceededLinkLimit::Silence);
        }
        None
    }
}

/// Takes what an event told of the stream of a link; the answer is an error where its connection couldn't be made.
pub fn note_event_on_link_peer(peer: &mut Peer<Socket>, event: &Event, now: u64) -> io::Result<()> {
    if peer.connecting {
        if !peer.has_connected(event)? {
            return Ok(());
        }
        peer.heard = now;
    }
    peer.note_socket_event(event);
    if event.is_writable() {
        // What the origin had said before it broke off can still be read.
        let _ = peer.flush(now);
    }
    Ok(())
}
