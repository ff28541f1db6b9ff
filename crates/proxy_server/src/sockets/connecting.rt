//! How links to origins are begun.
ghost use Rattle.std.specs.Prelude.{◌≡◌};

use crate::sockets::live_sockets::LiveSockets;
use hx_status::FailKind;
use mio::net::TcpStream;
use proxy_ends::{Link, SECOND};
use proxy_figures::{LinkAdmission, is_out_of_descriptors, is_out_of_ports};
use proxy_streams::{Peer, Socket};
use proxy_turn::SocketCallFailed;
use std::alloc::Global;
use std::io;
use std::net::{Net, SocketAddr, SocketAddrV4};

/// Begins a connection to an origin. It is written to next: where a refusal is known by then, that write is told. Its
/// events are asked for behind it.
fn begin_link<R: Net>(
    net: &R,
    alloc: Global,
    address: SocketAddrV4,
    now: u64,
) -> io::Result<Peer<Socket>> {
    let stream = TcpStream::connect(net, SocketAddr::V4(address))?;
    Ok(Peer::connecting(alloc, stream, now))
}

impl<'a, R: Net> LiveSockets<'a, R> {
    /// Begins a link. Where no descriptor is left an idle client gives way to it.
    fn begin(&mut self, address: SocketAddrV4) -> io::Result<Peer<Socket>>
        ensures calls { self.new.calls ≡ self.old.calls }
    {
        match begin_link(self.net, self.alloc, address, self.now) {
            Err(e) if is_out_of_descriptors(&e) && self.clients.drop_longest_idle(self.now) => {
                begin_link(self.net, self.alloc, address, self.now)
            }
            begun => begun,
        }
    }

    /// Begins a link to an origin under this number, where one may be begun and can be.
    pub(crate) fn connect_link(
        &mut self,
        l: u64,
        address: SocketAddrV4,
    ) -> Result<(), SocketCallFailed>
        ensures calls { self.new.calls ≡ self.old.calls }
    {
        let Ok(origin) = self.links.origins.place(address) else {
            return Err(SocketCallFailed);
        };
        let admission = self.links.origins.admit(origin, self.limits.origin_probe);
        let peer = self.begin_admitted(address, origin, admission);
        let is_lost = peer.is_none();
        let link = Link::new(peer, self.now, origin, admission);
        if !self.links.put(l, link, self.now.saturating_add(SECOND)) {
            return Err(SocketCallFailed);
        }
        if is_lost {
            return self.defer_link_failure(l, FailKind::Refused);
        }
        Ok(())
    }

    /// Begins a link, where it may be begun and can be.
    fn begin_admitted(
        &mut self,
        address: SocketAddrV4,
        origin: usize,
        admission: LinkAdmission,
    ) -> Option<Peer<Socket>>
        ensures calls { self.new.calls ≡ self.old.calls }
    {
        if admission == LinkAdmission::No {
            return None;
        }
        match self.begin(address) {
            Ok(peer) => Some(peer),
            Err(e) => {
                // Where it is the system that has none left, the origin isn't silent.
                if is_out_of_descriptors(&e) {
                    self.accept_counts.count_link_without_descriptor();
                } else if is_out_of_ports(&e) {
                    self.accept_counts.count_link_without_port();
                } else {
                    self.links.origins.count_silent_exchange(origin);
                }
                None
            }
        }
    }
}
