//! Bytes that a stream is still to take.
ghost use Rattle.std.specs.Prelude.{◌≡◌, ◌<◌, ◌≤◌, ◌+◌, true, false, ℕ, List, [], ◌++◌, length, take, drop, vec_len};
ghost use Rattle.std.specs.Prelude.{vec_capacity, IsOk, IfOk, OnOk, OnErr};
ghost use Rattle.proxy_streams.specs.Peers.{UnsentBytes, AFrontOfBytesIsWritten};

use crate::stream::Stream;
use std::alloc::Global;
use std::io;
use std::io::ErrorKind;
use std::marker::Model;

/// The most bytes that wait for the peer of one stream.
const MOST_UNSENT: usize = 67_108_864;

/// Bytes that a stream is still to take, at most `MOST_UNSENT`.
#[derive(Drop)]
pub(crate) struct Unsent {
    alloc: Global,
    /// Behind `sent` bytes that the stream took: at most half of all.
    bytes: Vec<u8>,
    sent: usize,
}

impl Model for Unsent {
    ghost Value = { UnsentBytes };

    ghost view = { λ u. record {
      bytes = drop u.sent u.bytes.items;
      held = length u.bytes.items;
      room = vec_capacity u.bytes;
    } };

    ghost invariant = { λ u. (u.sent + u.sent ≤ length u.bytes.items) × (length u.bytes.items ≤ 67_108_864) };
}

/// Writes as many of the bytes as the stream takes; answers how many.
pub(crate) fn write_what_stream_takes<S: Stream>(stream: &mut S, bytes: &[u8]) -> io::Result<usize>
    ensures bound { IfOk result (λ n. n ≤ length bytes.now) }
    ensures took { IfOk result (λ n. S.Passed stream.old (take n bytes.now) [] stream.new) }
    ensures in_part { OnErr result (AFrontOfBytesIsWritten (λ took. S.Passed stream.old took [] stream.new) bytes.now) }
{
    let mut at = 0usize;
    for _try in 0..u64::MAX {
        if at >= bytes.len() {
            return Ok(at);
        }
        match stream.write(&bytes[at..]) {
            Ok(0) => return Err(io::Error::from(ErrorKind::WriteZero)),
            Ok(n) => at += n,
            Err(e) if e.kind() == ErrorKind::Interrupted => {}
            Err(e) if e.kind() == ErrorKind::WouldBlock => return Ok(at),
            Err(e) => return Err(e),
        }
    }
    Ok(at)
}

/// Drops so many bytes of the front.
fn remove_front(bytes: &mut Vec<u8>, n: usize)
    requires { n ≤ vec_len bytes.old }
    ensures items { bytes.new.items ≡ drop n bytes.old.items }
{
    let len = bytes.len();
    bytes.as_mut_slice().copy_within(n..len, 0);
    bytes.truncate(len - n);
}

impl Unsent {
    pub(crate) fn new(alloc: Global) -> Unsent
        ensures { result.bytes ≡ [] }
    {
        Unsent {
            alloc,
            bytes: Vec::new(alloc),
            sent: 0,
        }
    }

    pub(crate) fn is_empty(&self) -> bool
        ensures empty { result ≡ true → self.now.bytes ≡ [] }
        ensures some { result ≡ false → 0 < length self.now.bytes }
    {
        self.bytes.is_empty()
    }

    /// How many bytes are held, those that the stream took and that weren't dropped yet among them.
    pub(crate) fn held(&self) -> usize
        ensures held { result ≡ self.now.held }
        ensures bound { length self.now.bytes ≤ result }
        ensures most { result ≤ 67_108_864 }
    {
        self.bytes.len()
    }

    /// Keeps bytes behind the others. Where there is no room for them, none of them is kept; within the bound there is
    /// room for what takes no further memory.
    pub(crate) fn keep(&mut self, bytes: &[u8]) -> io::Result<()>
        ensures ok { OnOk result (self.new.bytes ≡ self.old.bytes ++ bytes.now) }
        ensures held { OnOk result (self.new.held ≡ self.old.held + length bytes.now) }
        ensures err { OnErr result (self.new.bytes ≡ self.old.bytes) }
        ensures still { OnErr result (self.new.held ≡ self.old.held) }
        ensures kept { self.old.held + length bytes.now ≤ 67_108_864 → self.old.held + length bytes.now ≤ self.old.room
            → IsOk result }
    {
        let held = self.bytes.len();
        if held > MOST_UNSENT || bytes.len() > MOST_UNSENT - held {
            return Err(io::Error::from(ErrorKind::OutOfMemory));
        }
        match self.bytes.extend_from_slice(bytes) {
            Ok(()) => Ok(()),
            Err(_) => Err(io::Error::from(ErrorKind::OutOfMemory)),
        }
    }

    /// Lets go of all bytes, and of their memory.
    pub(crate) fn release(&mut self)
        ensures bytes { self.new.bytes ≡ [] }
        ensures held { self.new.held ≡ 0 }
    {
        self.bytes = Vec::new(self.alloc);
        self.sent = 0;
    }

    /// Writes as many of the bytes as the stream takes now; answers how many.
    pub(crate) fn flush<S: Stream>(&mut self, stream: &mut S) -> io::Result<usize>
        ensures bound { IfOk result (λ n. n ≤ length self.old.bytes) }
        ensures took { IfOk result (λ n. S.Passed stream.old (take n self.old.bytes) [] stream.new) }
        ensures kept { IfOk result (λ n. self.new.bytes ≡ drop n self.old.bytes) }
        ensures in_part { OnErr result
            (AFrontOfBytesIsWritten (λ took. S.Passed stream.old took [] stream.new) self.old.bytes) }
    {
        let n = write_what_stream_takes(stream, &self.bytes[self.sent..])?;
        let sent = self.sent + n;
        if sent >= self.bytes.len() {
            self.bytes = Vec::new(self.alloc);
            self.sent = 0;
        } else if sent > self.bytes.len() / 2 {
            remove_front(&mut self.bytes, sent);
            self.sent = 0;
        } else {
            self.sent = sent;
        }
        Ok(n)
    }
}
