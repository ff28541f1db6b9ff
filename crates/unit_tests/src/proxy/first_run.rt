//! The first run, as a script and its effects.

use hx_allow::Table;
use hx_store::ListShelf;
use proxy_engine::Engine;
use std::alloc::{AllocError, Global};
use std::test::Fail;

/// Its table: room for two responses, and a line for all hosts and paths.
pub(super) const FIRST_TABLE: &str = "version = 1
name = \"edge\"
capacity = 2
max_body = 1000
max_stored = 1000

[[line]]
host = \"*\"
methods = [\"GET\", \"HEAD\", \"POST\"]
path = \"/\"
origin = \"127.0.0.1:8081\"
";

/// An engine by the table of the first run, whose first link has this number.
pub(super) fn engine(alloc: Global, first_link: u64) -> Result<Engine<ListShelf>, Fail> {
    let config = Table::read(alloc, FIRST_TABLE.as_bytes())
        .ok()
        .ok_or("a table")?;
    let shelf = ListShelf::new(alloc, config.capacity());
    Ok(Engine::new(alloc, config, shelf, 1, first_link))
}

/// The request of the first run.
pub(super) const ASK: &[u8] = b"GET /a HTTP/1.1\r\nHost: h\r\n\r\n";

/// The first run: a request goes forward, its answer is stored, and the next request is answered by it.
pub(super) fn first_script(alloc: Global) -> Result<String, AllocError> {
    format!(in alloc; "config 165\n{FIRST_TABLE}\n{HAPPENINGS}")
}

/// What happens in the first run.
const HAPPENINGS: &str = "at 100
accept 1
client 1 28
GET /a HTTP/1.1\r
Host: h\r
\r

at 101
link 1 116
HTTP/1.1 200 OK\r
Date: Thu, 01 Jan 1970 00:01:41 GMT\r
Cache-Control: max-age=60\r
ETag: \"v1\"\r
Content-Length: 2\r
\r
hi
at 130
accept 2
client 2 28
GET /a HTTP/1.1\r
Host: h\r
\r

";

pub(super) const FIRST_EFFECTS: &str = "forward 1 127.0.0.1:8081 62
GET /a HTTP/1.1\r
Host: h\r
Via: 1.1 edge\r
Connection: close\r
\r

drop 1
client 1 161
HTTP/1.1 200 \r
Date: Thu, 01 Jan 1970 00:01:41 GMT\r
Cache-Control: max-age=60\r
ETag: \"v1\"\r
Cache-Status: edge;fwd=uri-miss;ttl=59;stored\r
Content-Length: 2\r
\r
hi
client 2 154
HTTP/1.1 200 \r
Date: Thu, 01 Jan 1970 00:01:41 GMT\r
Cache-Control: max-age=60\r
ETag: \"v1\"\r
Age: 30\r
Cache-Status: edge;hit;ttl=30\r
Content-Length: 2\r
\r
hi
";
