//! A connection that waits in a listener's queue.
ghost use Rattle.std.specs.Prelude.{◌≡◌, take, drop};
ghost use Rattle.std.specs.Int.{w16, from_be_bytes};
ghost use Rattle.std.specs.Net.Addr.{ipv4_octets};
ghost use Rattle.std.specs.Net.Socket.{v4_ip, v4_port};

use libc::net as c;
use mio::net::{TcpListener, TcpStream};
use os::FromRawFd;
use std::net::{Ipv4Addr, SocketAddr, SocketAddrV4};
use std::os::fd::AsRawFd;
use std::{io, net};

/// The address in a `sockaddr_in` of the system: behind its family, of two bytes, a port and an address of IPv4, the
/// greatest byte first.
fn address_in(raw: &[u8; c::_SS_SIZE]) -> SocketAddrV4
    ensures port { v4_port result ≡ from_be_bytes w16 (take 2 (drop 2 raw.now)) }
    ensures ip { ipv4_octets (v4_ip result) ≡ take 4 (drop 4 raw.now) }
{
    let port = u16::from_be_bytes([raw[2], raw[3]]);
    SocketAddrV4::new(Ipv4Addr::new(raw[4], raw[5], raw[6], raw[7]), port)
}

/// The next connection that waits at a listener over IPv4, as a stream that never blocks, and its client's address.
/// One call of the system makes both: mio's own `accept` takes two. Fails with what the system says: `WouldBlock` where
/// none waits.
pub fn accept(listener: &TcpListener) -> io::Result<(TcpStream, SocketAddr)> {
    let mut raw = [0u8; c::_SS_SIZE];
    let mut len = c::_SS_SIZE as u32;
    let flags = c::SOCK_NONBLOCK | c::SOCK_CLOEXEC;
    let fd = unsafe { c::accept4(listener.as_raw_fd(), &mut raw, &mut len, flags) };
    if fd < 0 {
        return Err(io::Error::from_raw_os_error(os::errno()));
    }
    // The descriptor is new, and nothing else has it.
    let stream = unsafe { net::TcpStream::from_raw_fd(fd) };
    Ok((
        TcpStream::from_std(stream),
        SocketAddr::V4(address_in(&raw)),
    ))
}
