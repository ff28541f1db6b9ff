//! A stream of the system, and what it was told of a reset: the system tells one call of it, and gives an end to who
//! reads behind that, as if the peer had said all.
ghost use Rattle.std.specs.Prelude.{◌≡◌, ◌||◌, true, false, IfOk, IfSome};
ghost use Rattle.std.specs.IoError.{error_kind};
ghost use Rattle.proxy_streams.specs.Resets.{is_broken_connection_error, still_connecting_after_error, is_reset_error};
ghost use Rattle.proxy_streams.specs.Resets.{call_failed_by_reset, is_end_after_reset, new_socket};

use crate::stream::Stream;
use mio::net::TcpStream;
use mio::{Interest, Poll, Token};
use proxy_listener::reset;
use std::io;
use std::io::{ErrorKind, Read, Write};
use std::net::Shutdown;

/// A TCP stream of the system.
#[derive(Drop)]
pub struct Socket {
    stream: TcpStream,
    /// A call was told that the peer has reset the connection, and hadn't sent its end before.
    was_reset: bool,
}

/// Whether the peer has broken off a connection that had been made.
fn is_broken_connection_error(kind: ErrorKind) -> bool
    ensures { result ≡ is_broken_connection_error kind }
{
    matches!(kind, ErrorKind::ConnectionReset | ErrorKind::BrokenPipe)
}

/// Whether a connection still isn't made, behind a call on it that failed so.
pub(crate) fn still_connecting(connecting: bool, error: &io::Error) -> bool
    ensures { result ≡ still_connecting_after_error connecting error.now }
{
    connecting && !is_broken_connection_error(error.kind())
}

fn is_reset_error(error: &io::Error) -> bool
    ensures { result ≡ is_reset_error (error_kind error.now) }
{
    error.kind() == ErrorKind::ConnectionReset
}

/// Whether a read of so many bytes tells of an end that is none: behind a reset (RFC 9112, section 8: the message isn't
/// whole).
fn is_end_after_reset(was_reset: bool, count: usize) -> bool
    ensures { result ≡ is_end_after_reset was_reset count }
{
    was_reset && count == 0
}

impl Socket {
    pub(crate) fn new(stream: TcpStream) -> Socket
        ensures { result ≡ new_socket stream }
    {
        Socket {
            stream,
            was_reset: false,
        }
    }

    /// Has small pieces sent at once, where that is to be had.
    pub(crate) fn send_without_delay(&self) {
        let _ = self.stream.set_nodelay(true);
    }

    /// Asks the system for the events of reading this stream, and of writing it where that is wanted, under a token.
    /// Fails where the system refuses it.
    pub(crate) fn register(
        &mut self,
        poll: &Poll,
        token: Token,
        with_writing: bool,
    ) -> io::Result<()> {
        let events = if with_writing {
            Interest::READABLE | Interest::WRITABLE
        } else {
            Interest::READABLE
        };
        poll.registry().register(&mut self.stream, token, events)
    }

    /// Keeps what a call was told of a reset.
    fn note(&mut self, written: &io::Result<usize>)
        ensures { self.new ≡ record self.old {
          was_reset = self.old.was_reset || call_failed_by_reset written.now;
        } }
    {
        if let Err(e) = written {
            self.was_reset = self.was_reset || is_reset_error(e);
        }
    }

    /// Why the connection can't be made, if that is known: it had been made where its peer has broken it off. Fails
    /// where the system can't tell.
    pub(crate) fn take_error(&mut self) -> io::Result<Option<io::Error>>
        ensures refused { IfOk result (λ refused. IfSome refused (λ e. is_broken_connection_error (error_kind e)
            ≡ false)) }
        ensures kept { self.old.was_reset ≡ true → self.new.was_reset ≡ true }
    {
        match self.stream.take_error()? {
            Some(e) if is_broken_connection_error(e.kind()) => {
                self.was_reset = self.was_reset || is_reset_error(&e);
                Ok(None)
            }
            error => Ok(error),
        }
    }
}

impl Stream for Socket {
    // No contract can say what a socket of the system gives or takes.
    ghost Passed = { λ s took gave t. Unit {0} };

    ghost WasShut = { λ s t. Unit {0} };

    ghost none = { λ s. tt };

    ghost joined = { λ s t u a b c d first then. tt };

    fn read(&mut self, buf: &mut [u8]) -> io::Result<usize> {
        let count = Read::read(&mut self.stream, buf)?;
        if is_end_after_reset(self.was_reset, count) {
            return Err(io::Error::from(ErrorKind::ConnectionReset));
        }
        Ok(count)
    }

    fn write(&mut self, bytes: &[u8]) -> io::Result<usize> {
        let written = Write::write(&mut self.stream, bytes);
        self.note(&written);
        written
    }

    fn shut_down(&mut self) -> io::Result<()> {
        self.stream.shutdown(Shutdown::Write)
    }

    fn reset(&mut self) {
        reset(&self.stream);
    }
}
