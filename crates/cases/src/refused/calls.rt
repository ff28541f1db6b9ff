//! The calls of the core and the store that take no memory, made when all that they need is there.

use super::entries::{entry, key};
use super::stop::Stop;
use http::Method;
use hx_allow::{RouteOverLine, Table, Verdict};
use hx_fields::{Bytes, Fields};
use hx_framing::Request;
use hx_hop::{Asked, ask};
use hx_store::{Entry, IndexedShelf, ListShelf, Shelf};
use hx_target::Key;
use proxy_core::{Core, CoreFault, Outcome};
use std::alloc::Global;

const TABLE: &str = "version = 1
name = \"edge\"
capacity = 4
max_body = 1000
max_stored = 10

[[line]]
host = \"*\"
methods = [\"GET\"]
path = \"/\"
origin = \"127.0.0.1:8081\"
";

/// What is so, or the call was wrong.
fn expect_that(holds: bool) -> Result<(), Stop> {
    if holds { Ok(()) } else { Err(Stop::Wrong) }
}

fn put_entry<S: Shelf>(shelf: &mut S, entry: Entry) -> Result<(), Stop> {
    if shelf.contains(entry.serial) {
        return Err(Stop::Wrong);
    }
    match shelf.put(entry, &[]) {
        Ok(_) => Ok(()),
        Err(_) => Err(Stop::NoMemory),
    }
}

fn fill_shelf<S: Shelf>(alloc: Global, shelf: &mut S) -> Result<(), Stop> {
    put_entry(shelf, entry(alloc, 1, "/a")?)?;
    put_entry(shelf, entry(alloc, 2, "/b")?)?;
    put_entry(shelf, entry(alloc, 3, "/a")?)?;
    put_entry(shelf, entry(alloc, 4, "/c")?)
}

/// Puts a new form of a held response in its place, and tells the serial of the old one.
fn freshen<S: Shelf>(shelf: &mut S, entry: Entry) -> Result<u64, Stop> {
    if !shelf.contains(entry.serial) {
        return Err(Stop::Wrong);
    }
    match shelf.peek(entry.serial) {
        Some(held) => {
            if !held.key.is_same(&entry.key) {
                return Err(Stop::Wrong);
            }
        }
        None => return Err(Stop::Wrong),
    }
    Ok(shelf.freshen(entry).serial)
}

fn is_expired<S: Shelf>(shelf: &S, serial: u64) -> bool {
    match shelf.peek(serial) {
        Some(entry) => entry.times.expired == Some(100),
        None => false,
    }
}

fn call_shelf<S: Shelf>(shelf: &mut S, fresh: Entry, path: &Key) -> Result<(), Stop> {
    expect_that(shelf.promote(1))?;
    expect_that(!shelf.promote(9))?;
    expect_that(freshen(shelf, fresh)? == 2)?;
    shelf.expire(&[3, 9], 100);
    expect_that(is_expired(shelf, 3) && !is_expired(shelf, 1))?;
    expect_that(shelf.remove(4).is_some())?;
    expect_that(shelf.remove(4).is_none())?;
    expect_that(shelf.has_key(path))?;
    expect_that(shelf.invalidate(path) == 2)?;
    expect_that(!shelf.has_key(path))?;
    expect_that(shelf.len() == 1 && shelf.contains(2))
}

fn request(alloc: Global) -> Result<Asked, Stop> {
    let mut fields = Fields::new(alloc);
    fields.push(b"Host", b"h")?;
    let request = Request {
        method: Method::GET,
        target: Bytes::copy_of(alloc, b"/a")?,
        minor: 1,
        fields,
        content: None,
    };
    match ask(alloc, &request) {
        Ok(asked) => Ok(asked),
        Err(_) => Err(Stop::NoMemory),
    }
}

/// A core at which a request is open.
fn core(alloc: Global, asked: &Asked) -> Result<Core<ListShelf>, Stop> {
    let Ok(config) = Table::read(alloc, TABLE.as_bytes()) else {
        return Err(Stop::NoMemory);
    };
    let shelf = ListShelf::new(alloc, config.capacity());
    let mut core = Core::new(alloc, config, shelf, 1);
    match core.arrive(alloc, 100, 1, asked) {
        Ok(Outcome::Forward(_, _)) => Ok(core),
        Ok(_) => Err(Stop::Wrong),
        Err(_) => Err(Stop::NoMemory),
    }
}

fn call_core(core: &mut Core<ListShelf>, asked: &Asked) -> Result<(), Stop> {
    let verdict = core
        .config()
        .judge(&asked.method, &asked.target, &asked.fields);
    expect_that(verdict == Verdict::Allowed(RouteOverLine::over(1)))?;
    expect_that(matches!(core.abandon(1), Ok(Outcome::Ended)))?;
    expect_that(matches!(core.abandon(1), Err(CoreFault::UnknownId)))
}

/// Prepares all, and then makes the calls.
pub fn run(alloc: Global) -> Result<(), Stop> {
    let mut listed = ListShelf::new(alloc, 4);
    fill_shelf(alloc, &mut listed)?;
    let mut indexed = IndexedShelf::new(alloc, 4)?;
    fill_shelf(alloc, &mut indexed)?;
    let path = key(alloc, "/a")?;
    let (first, second) = (entry(alloc, 2, "/b")?, entry(alloc, 2, "/b")?);
    let asked = request(alloc)?;
    let mut core = core(alloc, &asked)?;
    // From here on nothing takes memory.
    call_shelf(&mut listed, first, &path)?;
    call_shelf(&mut indexed, second, &path)?;
    call_core(&mut core, &asked)
}
