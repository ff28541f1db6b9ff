//! What the system is asked for of clients' streams. A stream has the options of its listener, so it is asked once and
//! not for each.

use libc::net as c;
use mio::net::TcpListener;
use std::os::fd::AsRawFd;

/// Bytes of a send buffer. The system keeps twice as many for what surrounds them, and cuts them to its own limit
/// (`net.core.wmem_max`, 212,992 by default).
///
/// The system tells that it takes more bytes once about a third of a buffer is free. A large one, which it makes by
/// itself, is of megabytes: a client that reads slowly, but without pause, would seem silent for minutes.
const SEND_BUFFER: i32 = 262_144;

/// A number as the system takes it.
fn value_of(number: i32) -> [u8; 16] {
    let mut value = [0u8; 16];
    value[..4].copy_from_slice(&number.to_ne_bytes());
    value
}

/// Bounds the buffer of each stream that comes from a listener, and has its small pieces sent at once. Where the system
/// refuses that, the streams go on as it has them: in larger steps, and with small pieces that wait for those before.
pub(crate) fn set_stream_options(listener: &TcpListener) {
    let fd = listener.as_raw_fd();
    let (bytes, on) = (value_of(SEND_BUFFER), value_of(1));
    let _ = unsafe { c::setsockopt(fd, c::SOL_SOCKET, c::SO_SNDBUF, &bytes, 4) };
    let _ = unsafe { c::setsockopt(fd, c::IPPROTO_TCP, c::TCP_NODELAY, &on, 4) };
}
