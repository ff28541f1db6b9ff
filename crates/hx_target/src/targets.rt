//! What a request asks for.
ghost use Rattle.std.specs.Prelude.{◌≡◌, IfOk};

use crate::Key;
use hx_fields::Bytes;
use std::alloc::{AllocError, Global};

/// What a request asks for, of the store by its key and of the operator's table by its table path.
pub struct Target {
    /// What a stored response is found by.
    pub key: Key,
    /// The path as the operator's table compares it: without query and dot segments, with escapes of
    /// unreserved characters decoded and the other ones in upper case (RFC 3986, section 6.2.2).
    pub table_path: Bytes,
}

/// One call drops it, wherever that is.
impl Drop for Target {
    fn drop(self) {
        let Target {
            key: _,
            table_path: _,
        } = self;
    }
}

impl Target {
    /// A target of the same bytes. Its only error is out of memory.
    pub fn copy(&self, alloc: Global) -> Result<Target, AllocError>
        ensures { IfOk result (λ target. target ≡ self.now) }
    {
        Ok(Target {
            key: self.key.copy(alloc)?,
            table_path: self.table_path.copy(alloc)?,
        })
    }
}
