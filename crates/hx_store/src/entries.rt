//! One stored response.
//!
//! Contracts see it as a `Stored`, without its directives: those are always the ones of its fields.

ghost use Rattle.std.specs.Prelude.{◌≡◌, ◌==◌, IfOk};
ghost use Rattle.hx_target.specs.Keys.{same_key};
ghost use Rattle.hx_age.specs.Age.{times_once_purged};
ghost use Rattle.hx_store.specs.Serials.{serial_is_in};
ghost use Rattle.hx_store.specs.Shelf.{expired_entry};

use hx_age::Times;
use hx_directives::Directives;
use hx_fields::{Bytes, Fields};
use hx_target::Key;
use hx_vary::Nominated;
use std::alloc::{AllocError, Global};
use std::marker::Model;

/// A stored response, with what is kept of the request that it answered.
pub struct Entry {
    /// Its number, which no other entry ever has.
    pub serial: u64,
    /// What it is found by.
    pub key: Key,
    /// The values of the request that its Vary nominates.
    pub nominated: Nominated,
    pub status: u16,
    /// Its field lines as they are sent, without length fields.
    pub fields: Fields,
    /// Those that its fields spell.
    pub directives: Directives,
    pub content: Bytes,
    /// The moments from which its age is counted.
    pub times: Times,
}

/// One call drops it, wherever that is, so the cases of its parts stand in one proof alone.
impl Drop for Entry {
    fn drop(self) {
        let Entry {
            serial: _,
            key: _,
            nominated: _,
            status: _,
            fields: _,
            directives: _,
            content: _,
            times: _,
        } = self;
    }
}

impl Model for Entry {
    ghost use Rattle.std.specs.Prelude.{◌≡◌};
    ghost use Rattle.hx_directives.specs.Occurrences.{occurrences_of};
    ghost use Rattle.hx_store.specs.Stored.{Stored};

    ghost Value = { Stored };

    ghost view = { λ e. record {
      serial = e.serial;
      key = e.key;
      nominated = e.nominated;
      status = e.status;
      fields = e.fields;
      content = e.content;
      times = e.times;
    } };

    ghost invariant = { λ e. e.directives ≡ occurrences_of e.fields };
}

impl Entry {
    /// A copy of the whole entry. Fails only where memory runs out.
    pub fn copy(&self, alloc: Global) -> Result<Entry, AllocError>
        ensures { IfOk result (λ copied. copied ≡ self.now) }
    {
        Ok(Entry {
            serial: self.serial,
            key: self.key.copy(alloc)?,
            nominated: self.nominated.copy(alloc)?,
            status: self.status,
            fields: self.fields.copy(alloc)?,
            directives: self.directives.copy(alloc)?,
            content: self.content.copy(alloc)?,
            times: self.times,
        })
    }

    /// Expires it at a moment, in seconds since 1970.
    pub(crate) fn expire(&mut self, now: u64)
        ensures { self.new ≡ record self.old { times = times_once_purged self.old.times now } }
    {
        self.times = self.times.times_once_purged_at(now);
    }

    /// The same where it has one of these serials.
    pub(crate) fn expire_if_serial_among(&mut self, serials: &[u64], now: u64)
        ensures { self.new ≡ expired_entry serials.now now self.old }
    {
        if self.is_among(serials) {
            self.expire(now);
        }
    }

    pub(crate) fn has_serial(&self, serial: u64) -> bool
        ensures { result ≡ (self.now.serial == serial) }
    {
        self.serial == serial
    }

    pub(crate) fn is_among(&self, serials: &[u64]) -> bool
        ensures { result ≡ serial_is_in self.now.serial serials.now }
    {
        contains(serials, self.serial)
    }

    pub(crate) fn has_key(&self, key: &Key) -> bool
        ensures { result ≡ same_key self.now.key key.now }
    {
        self.key.is_same(key)
    }
}

fn contains(serials: &[u64], serial: u64) -> bool
    ensures { result ≡ serial_is_in serial serials.now }
{
    for s in serials {
        if *s == serial {
            return true;
        }
    }
    false
}
