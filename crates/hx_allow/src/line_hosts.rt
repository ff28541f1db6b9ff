//! The hosts of a line.
//!
//! A text of the table names every host, the hosts below one by its labels (RFC 1034, section 3.1), or
//! one host.
ghost use Rattle.std.specs.Prelude.{◌≡◌, IfOk};
ghost use Rattle.hx_allow.specs.LineHosts.{is_below_host, line_host_of};

use hx_fields::Bytes;
use std::alloc::{AllocError, Global};

/// A host of a line.
#[derive(Drop)]
pub enum LineHost {
    /// Every host.
    Every,
    /// This one.
    One(Bytes),
    /// The hosts below this one, and not this one.
    Below(Bytes),
}

impl LineHost {
    /// What a text of the table names.
    pub(crate) fn of(alloc: Global, text: &[u8]) -> Result<LineHost, AllocError>
        ensures { IfOk result (λ host. host ≡ line_host_of text.now) }
    {
        if text == b"*".as_slice() {
            return Ok(LineHost::Every);
        }
        match text.strip_prefix(b"*.".as_slice()) {
            Some(host) => Ok(LineHost::Below(Bytes::copy_of(alloc, host)?)),
            None => Ok(LineHost::One(Bytes::copy_of(alloc, text)?)),
        }
    }
}

/// Whether a host has the labels of another one behind some of its own: at one of its dots the other begins.
pub(crate) fn is_below_host(host: &[u8], asked: &[u8]) -> bool
    ensures { result ≡ is_below_host host.now asked.now }
{
    for (place, byte) in asked.iter().enumerate() {
        if *byte == b'.' && &asked[place + 1..] == host {
            return true;
        }
    }
    false
}
