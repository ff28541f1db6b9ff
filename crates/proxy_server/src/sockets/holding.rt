//! What is held for requests and answers stays within its bound.
ghost use Rattle.std.specs.Prelude.{◌≡◌};

use crate::sockets::live_sockets::LiveSockets;
use hx_status::FailKind;
use proxy_figures::CutReason;
use std::net::Net;

impl<'a, R: Net> LiveSockets<'a, R> {
    /// Where more is held for requests and answers than may be, an end gives way: of the clients that have taken
    /// nothing for a second the one for which the most is held; or else the end for which the most is, no less than
    /// what came last.
    pub(crate) fn drop_largest_end_beyond_limit(&mut self)
        ensures calls { self.new.calls ≡ self.old.calls }
    {
        if self.clients.held().saturating_add(self.links.held()) > self.limits.content {
            self.drop_largest();
        }
    }

    /// Drops the end that gives way. The engine is told before the next turn.
    fn drop_largest(&mut self)
        ensures calls { self.new.calls ≡ self.old.calls }
    {
        let of_clients = self.clients.largest(self.now);
        match (of_clients, self.links.largest()) {
            (Some(client), Some((_, of_link))) if client.takes_nothing || client.held >= of_link =>
                {
                    self.clients
                        .drop_stream_and_count(client.key, CutReason::Content);
                }
            (Some(client), None) => self
                .clients
                .drop_stream_and_count(client.key, CutReason::Content),
            (_, Some((l, _))) => self.cut_link(l),
            (None, None) => {}
        }
    }

    /// Drops a link for which too much is held, as one that its origin has closed.
    fn cut_link(&mut self, l: u64)
        ensures calls { self.new.calls ≡ self.old.calls }
    {
        if self.lost.push((l, FailKind::Closed)).is_ok() {
            self.clients.endings.count_cut(CutReason::Content);
            self.links.drop_stream(l);
        }
    }
}
