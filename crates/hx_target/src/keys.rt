//! The key of the store: what two requests must share to be answered by one stored response
//! (RFC 9111, section 2).
ghost use Rattle.std.specs.Prelude.{◌≡◌, IfOk};
ghost use Rattle.hx_target.specs.Keys.{same_key};

use hx_fields::Bytes;
use std::alloc::{AllocError, Global};

/// What a stored response is found by: the target URI of a GET, without its scheme, which is always
/// `http` (RFC 9111, section 2).
#[derive(Drop)]
pub struct Key {
    /// The host, in lower case.
    pub host: Bytes,
    /// The port, 80 where none is written.
    pub port: u16,
    /// Path and query as they came, an empty path as `/`.
    pub path_query: Bytes,
}

impl Key {
    /// Whether both keys have the same host, port, path and query.
    pub fn is_same(&self, other: &Key) -> bool
        ensures { result ≡ same_key self.now other.now }
    {
        // Paths tell most keys apart, and mostly by their lengths alone.
        self.path_query.as_slice() == other.path_query.as_slice()
            && self.host.as_slice() == other.host.as_slice()
            && self.port == other.port
    }

    /// A key of the same bytes. Its only error is out of memory.
    pub fn copy(&self, alloc: Global) -> Result<Key, AllocError>
        ensures { IfOk result (λ key. key ≡ self.now) }
    {
        Ok(Key {
            host: self.host.copy(alloc)?,
            port: self.port,
            path_query: self.path_query.copy(alloc)?,
        })
    }

    /// A key of the same bytes in buffers of its own, so that it keeps no head in memory. Its only
    /// error is out of memory.
    pub fn copy_in_own_buffers(&self, alloc: Global) -> Result<Key, AllocError>
        ensures { IfOk result (λ key. key ≡ self.now) }
    {
        Ok(Key {
            host: Bytes::copy_of(alloc, self.host.as_slice())?,
            port: self.port,
            path_query: Bytes::copy_of(alloc, self.path_query.as_slice())?,
        })
    }
}
