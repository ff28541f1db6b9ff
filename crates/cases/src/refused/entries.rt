//! Stored responses to call a store with.

use super::stop::Stop;
use hx_age::Times;
use hx_directives::Directives;
use hx_fields::{Bytes, Fields};
use hx_store::Entry;
use hx_target::Key;
use hx_vary::{Nominated, Nomination};
use std::alloc::{AllocError, Global};

const TIMES: Times = Times {
    date: 100,
    age_value: 0,
    request_time: 100,
    response_time: 100,
    expired: None,
};

pub fn key(alloc: Global, path: &str) -> Result<Key, AllocError> {
    Ok(Key {
        host: Bytes::copy_of(alloc, b"h")?,
        port: 80,
        path_query: Bytes::copy_of(alloc, path.as_bytes())?,
    })
}

fn nominated(alloc: Global, fields: &Fields) -> Result<Nominated, Stop> {
    match Nominated::of(alloc, fields, fields)? {
        Nomination::Names(nominated) => Ok(nominated),
        Nomination::Star => Err(Stop::Wrong),
    }
}

/// A stored response of a path.
pub fn entry(alloc: Global, serial: u64, path: &str) -> Result<Entry, Stop> {
    let mut fields = Fields::new(alloc);
    fields.push(b"Cache-Control", b"max-age=60")?;
    let directives = Directives::of(alloc, &fields)?;
    Ok(Entry {
        serial,
        key: key(alloc, path)?,
        nominated: nominated(alloc, &fields)?,
        status: 200,
        times: TIMES,
        fields,
        directives,
        content: Bytes::copy_of(alloc, path.as_bytes())?,
    })
}
