//! A reader that gives few bytes at a time, is interrupted or fails, and a writer that takes few, fails or takes none.
ghost use Rattle.std.specs.Prelude.{Some};

use std::io;
use std::io::{ErrorKind, Read, Write};

/// Gives at most `most` bytes at a time, and fails once `calls` calls were made.
#[derive(Drop)]
pub(crate) struct Source<'a> {
    pub(crate) bytes: &'a [u8],
    pub(crate) most: usize,
    pub(crate) calls: u64,
    pub(crate) kind: ErrorKind,
}

impl Read for Source<'_> {
    ghost remaining = { λ r. Some r.bytes.now };

    fn read(&mut self, buf: &mut [u8]) -> io::Result<usize> {
        if self.calls == 0 {
            // An interrupted reader goes on afterwards.
            self.calls = u64::MAX;
            return Err(io::Error::from(self.kind));
        }
        self.calls -= 1;
        let most = buf.len().min(self.most.max(1));
        let mut rest = self.bytes;
        let n = rest.read(&mut buf[..most])?;
        self.bytes = rest;
        Ok(n)
    }
}

/// Takes at most `most` bytes at a time, and fails once `calls` calls were made.
#[derive(Drop)]
pub(crate) struct Sink {
    pub(crate) text: Vec<u8>,
    pub(crate) most: usize,
    pub(crate) calls: u64,
    pub(crate) kind: ErrorKind,
}

impl Write for Sink {
    ghost contents = { λ w. Some w.text.items };

    fn write(&mut self, buf: &[u8]) -> io::Result<usize> {
        if self.calls == 0 {
            self.calls = u64::MAX;
            return Err(io::Error::from(self.kind));
        }
        self.calls -= 1;
        let most = buf.len().min(self.most);
        match self.text.extend_from_slice(&buf[..most]) {
            Ok(()) => Ok(most),
            Err(_) => Err(io::Error::from(ErrorKind::OutOfMemory)),
        }
    }

    fn flush(&mut self) -> io::Result<()> {
        Ok(())
    }
}
