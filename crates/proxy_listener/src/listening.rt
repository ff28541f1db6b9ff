//! Where clients connect to, and the socket that listens there.
//!
//! A socket that is handed on stays open when the process ends: whoever connects then waits in the system's queue until
//! the next process listens. No contract can say what a descriptor is, so it is asked of the system.
ghost use Rattle.std.specs.Prelude.{IsErr};
ghost use Rattle.proxy_listener.specs.HandedOn.{IsStandardOrFailedDescriptor, ListenDescriptorIsNoSocket};

use crate::stream_options::set_stream_options;
use libc::net as c;
use mio::net::TcpListener;
use os::FromRawFd;
use std::io::ErrorKind;
use std::net::{Net, SocketAddr};
use std::os::fd::{AsRawFd, RawFd};
use std::{io, net};

/// The least descriptor that can be handed on: those below it are standard input, output and error.
const FIRST_HANDED_ON: RawFd = 3;

/// Connections that may wait to be taken; the system cuts it to its own bound (`net.core.somaxconn`).
const BACKLOG: i32 = 1_048_576;

/// Where clients connect to.
#[derive(Clone, Copy, Debug, PartialEq, Eq)]
pub enum ListenAt {
    /// An IPv4 address, which is bound. Its port may be 0, for one that the system chooses.
    Address(SocketAddr),
    /// The descriptor of a TCP socket over IPv4 that a supervisor has bound, 3 or above.
    Descriptor(RawFd),
}

/// That a socket is none that can be listened on.
fn no_listener<T>() -> io::Result<T>
    ensures { IsErr result }
{
    Err(io::Error::from(ErrorKind::InvalidInput))
}

/// Listens on a socket that is bound to an IPv4 address.
fn listen_on(listener: &net::TcpListener) -> io::Result<()> {
    let address = listener.local_addr()?;
    if !address.is_ipv4() || address.port() == 0 {
        return no_listener();
    }
    // One that listens goes on. One of another kind than TCP, or one that is connected, can't.
    if c::listen(listener.as_raw_fd(), BACKLOG) != 0 {
        return no_listener();
    }
    listener.set_nonblocking(true)
}

/// Takes a socket that was handed on. One that can't be listened on is closed.
fn handed_on(fd: RawFd) -> io::Result<TcpListener>
    ensures { IsStandardOrFailedDescriptor fd → IsErr result }
{
    if fd < FIRST_HANDED_ON {
        return no_listener();
    }
    // Who started the process says so: nothing else here uses it.
    let listener = unsafe { net::TcpListener::from_raw_fd(fd) };
    listen_on(&listener)?;
    Ok(TcpListener::from_std(listener))
}

/// The socket that clients connect to, whose streams have bounded buffers and send at once. Fails with what the system
/// says: the address is in use or isn't the machine's, the descriptor isn't open, no socket or one of another family;
/// and, as an invalid input, where a socket that was handed on can't be listened on.
pub fn listen<R: Net>(net: &R, at: ListenAt) -> io::Result<TcpListener>
    ensures { ListenDescriptorIsNoSocket at → IsErr result }
{
    let listener = match at {
        ListenAt::Address(address) => TcpListener::bind(net, address)?,
        ListenAt::Descriptor(fd) => handed_on(fd)?,
    };
    set_stream_options(&listener);
    Ok(listener)
}
