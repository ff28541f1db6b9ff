//! The end of a connection by a reset.
//!
//! Who closes a TCP connection first keeps its local port for a minute (RFC 9293, section 3.6.1: TIME-WAIT). Behind
//! origins that don't close first that would be all ports soon.

use libc::net as c;
use mio::net::TcpStream;
use std::os::fd::AsRawFd;

/// Bytes of an address of IPv4.
const ADDRESS_BYTES: u32 = 16;

/// Ends a connection at once: its peer is told by a reset, bytes that the peer hasn't got are lost, and the local port
/// is free again. Where the system refuses that, the connection is as it was.
pub fn reset(stream: &TcpStream) {
    // An address of no family takes a socket's peer from it.
    let nobody = [0u8; c::_SS_SIZE];
    let fd = stream.as_raw_fd();
    let _ = unsafe { c::connect(fd, &nobody, ADDRESS_BYTES) };
}
