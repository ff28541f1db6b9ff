//! What a client sent behind the head of a request, in one read: it is handed in when that request was.
ghost use Rattle.std.specs.Prelude.{◌≡◌, ◌<◌, ◌≤◌, ◌++◌, [], length, take, drop, OnOk, OnErr};
ghost use Rattle.proxy_pacing.specs.RestBytes.{has_no_bytes};

use crate::pieces::head_end;
use std::alloc::{AllocError, Global};
use std::marker::Model;

/// Bytes of a client that wait to be handed in. Contracts see those that are left.
#[derive(Drop)]
pub struct InputNotHandedIn {
    bytes: Vec<u8>,
    /// So many of them were handed in.
    taken: usize,
}

impl Model for InputNotHandedIn {
    ghost use Rattle.std.specs.Prelude.{ℕ, List, ◌≤◌, length, drop};

    ghost Value = { List ℕ };

    ghost view = { λ r. drop r.taken r.bytes.items };

    ghost invariant = { λ r. r.taken ≤ length r.bytes.items };
}

impl InputNotHandedIn {
    pub fn new(alloc: Global) -> InputNotHandedIn
        ensures { result ≡ [] }
    {
        InputNotHandedIn {
            bytes: Vec::new(alloc),
            taken: 0,
        }
    }

    /// Whether nothing is left.
    pub fn is_empty(&self) -> bool
        ensures { result ≡ has_no_bytes self.now }
    {
        let left = &self.bytes[self.taken..];
        left.len() == 0
    }

    /// Keeps bytes behind the others. An `Err` changes nothing.
    pub fn keep(&mut self, piece: &[u8]) -> Result<(), AllocError>
        ensures kept { OnOk result (self.new ≡ self.old ++ piece.now) }
        ensures err { OnErr result (self.new ≡ self.old) }
    {
        self.bytes.extend_from_slice(piece)
    }

    /// Gives the bytes as far as the head of one request, and as there is room for them, but `least` of them, where
    /// there are so many; answers how many.
    pub fn give(&mut self, buf: &mut [u8], least: usize) -> usize
        ensures within { result ≤ length buf.old }
        ensures length { length buf.new ≡ length buf.old }
        ensures some { 0 < length buf.old → 0 < length self.old → 0 < result }
        ensures given { take result buf.new ≡ take result self.old }
        ensures left { self.new ≡ drop result self.old }
    {
        let left = &self.bytes[self.taken..];
        let room = left.len().min(buf.len());
        let n = head_end(&left[..room], least);
        buf[..n].copy_from_slice(&left[..n]);
        self.taken += n;
        n
    }
}
