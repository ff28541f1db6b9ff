//! Sockets in memory, of which one call fails: clients that ask once, and an origin that answers once on each link.
ghost use Rattle.std.specs.Prelude.{◌≡◌, length};
ghost use Rattle.proxy_reads.specs.Received.{ReceivedBytesAreAtMostRoom};

use hx_status::ReplyData;
use proxy_turn::{End, Received, SocketCallFailed, Sockets};
use std::alloc::Global;
use std::net::SocketAddrV4;

/// A call, by what it names.
#[derive(Clone, Copy, PartialEq, Eq)]
pub(super) enum Call {
    Accept,
    Read(End),
    Write(End),
    Connect(u64),
    Shut(End),
}

/// The end that a call speaks of.
fn end_of(call: Call) -> End {
    match call {
        Call::Accept => End::Listener,
        Call::Read(end) => end,
        Call::Write(end) => end,
        Call::Connect(l) => End::Link(l),
        Call::Shut(end) => end,
    }
}

/// The calls so far, and the one that failed.
#[derive(Drop)]
pub(super) struct Calls {
    /// The call of this number fails.
    failing: u64,
    made: u64,
    pub(super) failed: Option<Call>,
    /// A call was made on an end on which one had failed.
    pub(super) after_failure: bool,
}

impl Calls {
    /// Counts a call; whether it fails.
    fn fails(&mut self, call: Call) -> bool {
        self.made = self.made.saturating_add(1);
        if let Some(failed) = self.failed {
            if failed != Call::Accept && end_of(failed) == end_of(call) {
                self.after_failure = true;
            }
        }
        if self.made == self.failing {
            self.failed = Some(call);
        }
        self.made == self.failing
    }
}

#[derive(Drop)]
pub(super) struct MemorySockets {
    pub(super) calls: Calls,
    /// Connections that wait to be accepted.
    pub(super) waiting: u64,
    /// What each client sends, and the number of the last that has.
    request: &'static [u8],
    asked: u64,
    /// What an origin answers on each link, and the number of the last that has.
    answer: &'static [u8],
    answered: u64,
    /// What the clients and the links got, as effects.
    pub(super) written: Vec<u8>,
    pub(super) accepts: u64,
    pub(super) reads: u64,
    pub(super) failures: u64,
}

impl MemorySockets {
    pub(super) fn new(
        alloc: Global,
        failing: u64,
        request: &'static [u8],
        answer: &'static [u8],
    ) -> MemorySockets {
        let calls = Calls {
            failing,
            made: 0,
            failed: None,
            after_failure: false,
        };
        MemorySockets {
            calls,
            waiting: 0,
            request,
            asked: 0,
            answer,
            answered: 0,
            written: Vec::new(alloc),
            accepts: 0,
            reads: 0,
            failures: 0,
        }
    }
}

/// Fills the front of a buffer, if there is room for all.
pub(super) fn give(buf: &mut [u8], bytes: &[u8]) -> Received
    ensures within { ReceivedBytesAreAtMostRoom (length buf.old) result }
    ensures length { length buf.new ≡ length buf.old }
{
    if bytes.len() <= buf.len() {
        buf[..bytes.len()].copy_from_slice(bytes);
        Received::Bytes(bytes.len())
    } else {
        Received::Nothing
    }
}

impl Sockets for MemorySockets {
    ghost Did = { λ s made t. Unit {0} };

    ghost accepts = { λ s. s.accepts };

    ghost reads = { λ s. s.reads };

    ghost failures = { λ s. s.failures };

    ghost none = { λ s. tt };

    ghost joined = { λ s t u a b first then. tt };

    fn accept(&mut self, _n: u64) -> Result<bool, SocketCallFailed> {
        self.accepts = self.accepts.saturating_add(1);
        if self.calls.fails(Call::Accept) {
            self.failures = self.failures.saturating_add(1);
            return Err(SocketCallFailed);
        }
        if self.waiting == 0 {
            return Ok(false);
        }
        self.waiting -= 1;
        Ok(true)
    }

    fn read(&mut self, end: End, buf: &mut [u8]) -> Result<Received, SocketCallFailed> {
        self.reads = self.reads.saturating_add(1);
        if self.calls.fails(Call::Read(end)) {
            self.failures = self.failures.saturating_add(1);
            return Err(SocketCallFailed);
        }
        match end {
            End::Client(n) if n > self.asked => {
                self.asked = n;
                Ok(give(buf, self.request))
            }
            End::Link(l) if l > self.answered => {
                self.answered = l;
                Ok(give(buf, self.answer))
            }
            End::Link(_) => Ok(Received::End),
            _ => Ok(Received::Nothing),
        }
    }

    fn write(
        &mut self,
        end: End,
        bytes: &[u8],
        _replied: Option<&ReplyData>,
    ) -> Result<(), SocketCallFailed> {
        if self.calls.fails(Call::Write(end)) {
            self.failures = self.failures.saturating_add(1);
            return Err(SocketCallFailed);
        }
        let _ = self.written.extend_from_slice(bytes);
        Ok(())
    }

    fn connect(&mut self, link: u64, _address: SocketAddrV4) -> Result<(), SocketCallFailed> {
        if self.calls.fails(Call::Connect(link)) {
            self.failures = self.failures.saturating_add(1);
            return Err(SocketCallFailed);
        }
        Ok(())
    }

    fn shut(&mut self, end: End) -> Result<(), SocketCallFailed> {
        if self.calls.fails(Call::Shut(end)) {
            self.failures = self.failures.saturating_add(1);
            return Err(SocketCallFailed);
        }
        Ok(())
    }
}
