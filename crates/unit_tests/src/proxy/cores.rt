//! What the tests of cores share.

use http::Method;
use hx_allow::Table;
use hx_fields::{Bytes, Fields};
use hx_framing::{Request, Response};
use hx_hop::{Asked, ask};
use hx_store::ListShelf;
use proxy_core::{Core, CoreFault, Event, Outcome, Run, run};
use std::alloc::Global;
use std::test::Fail;

/// A table with a store of two responses of at most 10 bytes of content.
const TABLE: &str = "version = 1
name = \"edge\"
capacity = 2
max_body = 1000
max_stored = 10

[[line]]
host = \"*\"
methods = [\"GET\", \"POST\"]
path = \"/\"
origin = \"127.0.0.1:8081\"
";

fn config(alloc: Global) -> Result<Table, Fail> {
    Ok(Table::read(alloc, TABLE.as_bytes()).ok().ok_or("a table")?)
}

pub(super) fn core(alloc: Global, first_serial: u64) -> Result<Core<ListShelf>, Fail> {
    let config = config(alloc)?;
    let shelf = ListShelf::new(alloc, config.capacity());
    Ok(Core::new(alloc, config, shelf, first_serial))
}

/// The run of these events.
pub(super) fn run_of_events(alloc: Global, events: &[Event]) -> Result<Run, Fail> {
    let config = config(alloc)?;
    let shelf = ListShelf::new(alloc, config.capacity());
    Ok(run(alloc, config, shelf, 1, events))
}

pub(super) fn request(alloc: Global, method: Method, path: &str) -> Result<Asked, Fail> {
    let mut fields = Fields::new(alloc);
    fields.push(b"Host", b"h")?;
    let request = Request {
        method,
        target: Bytes::copy_of(alloc, path.as_bytes())?,
        minor: 1,
        fields,
        content: None,
    };
    Ok(ask(alloc, &request).ok().ok_or("a request")?)
}

pub(super) fn response(
    alloc: Global,
    status: u16,
    cache_control: &[u8],
    content: &[u8],
) -> Result<Response, Fail> {
    let mut fields = Fields::new(alloc);
    fields.push(b"Date", b"Thu, 01 Jan 1970 00:01:41 GMT")?;
    fields.push(b"Cache-Control", cache_control)?;
    Ok(Response {
        status,
        fields,
        content: Bytes::copy_of(alloc, content)?,
        announced: None,
    })
}

/// The core's steps as the tests take them.
pub(super) fn arrive(
    alloc: Global,
    core: &mut Core<ListShelf>,
    id: u64,
    asked: &Asked,
) -> Result<Outcome, CoreFault> {
    core.arrive(alloc, 101, id, asked)
}

pub(super) fn answer(
    alloc: Global,
    core: &mut Core<ListShelf>,
    id: u64,
    response: &Response,
) -> Result<Outcome, CoreFault> {
    Ok(core.answer(alloc, 101, id, response)?.outcome)
}
