//! Stored responses to test with.

use hx_age::Times;
use hx_directives::Directives;
use hx_fields::{Bytes, Fields};
use hx_store::Entry;
use hx_target::Key;
use hx_vary::{Nominated, Nomination};
use std::alloc::{AllocError, Global};
use std::test::Fail;

/// When it was made, asked for and received.
const TIMES: Times = Times {
    date: 100,
    age_value: 0,
    request_time: 100,
    response_time: 100,
    expired: None,
};

fn fields(alloc: Global) -> Result<Fields, AllocError> {
    let mut fields = Fields::new(alloc);
    fields.push(b"Vary", b"Accept-Language, Accept")?;
    fields.push(b"Cache-Control", b"max-age=60")?;
    Ok(fields)
}

pub(super) fn key(alloc: Global, path: &str) -> Result<Key, AllocError> {
    Ok(Key {
        host: Bytes::copy_of(alloc, b"h")?,
        port: 80,
        path_query: Bytes::copy_of(alloc, path.as_bytes())?,
    })
}

fn nominated(alloc: Global, fields: &Fields, request: &Fields) -> Result<Nominated, Fail> {
    match Nominated::of(alloc, fields, request)? {
        Nomination::Names(nominated) => Ok(nominated),
        Nomination::Star => Err("names".into()),
    }
}

/// A stored response of a path, whose content is the path.
pub(super) fn entry(alloc: Global, serial: u64, path: &str) -> Result<Entry, Fail> {
    entry_for(alloc, serial, path, &Fields::new(alloc))
}

/// The same, of the request that it answered.
pub(super) fn entry_for(
    alloc: Global,
    serial: u64,
    path: &str,
    request: &Fields,
) -> Result<Entry, Fail> {
    let fields = fields(alloc)?;
    let nominated = nominated(alloc, &fields, request)?;
    let directives = Directives::of(alloc, &fields)?;
    Ok(Entry {
        serial,
        key: key(alloc, path)?,
        nominated,
        status: 200,
        times: TIMES,
        fields,
        directives,
        content: Bytes::copy_of(alloc, path.as_bytes())?,
    })
}
