//! Sockets that take no more connections: each that is open is to end.
ghost use Rattle.std.specs.Prelude.{◌≡◌, true, false, None};

use crate::sockets::live_sockets::LiveSockets;
use std::net::Net;

impl<'a, R: Net> LiveSockets<'a, R> {
    /// Takes no more connections but those that wait now. Each is to end, and who is idle is let go.
    pub fn drain(&mut self)
        ensures { self.new ≡ record self.old { is_draining = true; acceptable = true } }
    {
        self.is_draining = true;
        self.acceptable = true;
    }

    /// Whether no more connections are taken but those that wait.
    pub fn is_draining(&self) -> bool
        ensures { result ≡ self.entry.now.is_draining }
    {
        self.is_draining
    }

    /// Whether no connection waits, no client waits for anything, and no link is open.
    pub fn is_drained(&self) -> bool {
        self.listener.is_none()
            && self.in_hand.is_none()
            && self.clients.is_done()
            && self.links.is_empty()
    }

    /// While no more connections are taken: the least number of a client whose connection isn't to end yet.
    pub(crate) fn first_unretired_client(&self) -> Option<u64>
        ensures { self.entry.now.is_draining ≡ false → result ≡ None }
    {
        if !self.is_draining {
            return None;
        }
        self.clients.next_number(self.not_retired)
    }

    /// While no more connections are taken: the next client whose connection is to end.
    pub fn next_to_retire(&mut self) -> Option<u64>
        ensures draining { self.old.is_draining ≡ false → result ≡ None }
        ensures rest { self.new ≡ record self.old { not_retired = self.new.not_retired } }
    {
        let n = self.first_unretired_client()?;
        self.not_retired = n.saturating_add(1);
        Some(n)
    }

    /// While no more connections are taken: a client that is let go since it is between two requests.
    pub fn next_idle_to_close(&mut self) -> Option<u64>
        ensures draining { self.old.is_draining ≡ false → result ≡ None }
        ensures rest { self.new ≡ record self.old { clients = self.new.clients } }
    {
        if !self.is_draining {
            return None;
        }
        self.clients.next_idle_to_close(self.now)
    }
}
