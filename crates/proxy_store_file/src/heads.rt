//! The head of an entry: all of it but its content.

ghost use Rattle.std.specs.Prelude.{◌≡◌, IfOk};

use hx_age::Times;
use hx_directives::Directives;
use hx_fields::{Bytes, Fields};
use hx_store::Entry;
use hx_target::Key;
use hx_vary::Nominated;
use std::alloc::{AllocError, Global};

/// What stands in front of a content.
pub(crate) struct Head {
    pub(crate) serial: u64,
    pub(crate) status: u16,
    /// In bytes.
    pub(crate) content_length: u64,
    pub(crate) times: Times,
    pub(crate) key: Key,
    pub(crate) nominated: Nominated,
    pub(crate) fields: Fields,
}

/// One call drops it, wherever that is.
impl Drop for Head {
    fn drop(self) {
        let Head {
            serial: _,
            status: _,
            content_length: _,
            times: _,
            key: _,
            nominated: _,
            fields: _,
        } = self;
    }
}

impl Head {
    ghost use Rattle.proxy_store_file.specs.Heads.{stored_with_content};

    /// The entry of this head and a content. Fails only where memory runs out.
    pub(crate) fn into_entry_with_content(
        self,
        alloc: Global,
        content: Vec<u8>,
    ) -> Result<Entry, AllocError>
        ensures { IfOk result (λ entry. entry ≡ stored_with_content self content.items) }
    {
        let directives = Directives::of(alloc, &self.fields)?;
        let Head {
            serial,
            status,
            content_length: _,
            times,
            key,
            nominated,
            fields,
        } = self;
        Ok(Entry {
            serial,
            key,
            nominated,
            status,
            fields,
            directives,
            content: Bytes::shared_from_vec(alloc, content),
            times,
        })
    }
}
