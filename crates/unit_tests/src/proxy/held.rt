//! What a core holds over random events, against a direct count over what its steps did.

use super::cores::{answer, arrive, core, request, response};
use http::Method;
use hx_store::ListShelf;
use proxy_core::{Core, CoreFault, Outcome};
use std::alloc::Global;
use std::process::Abort;
use std::test::Fail;

/// As many as the table's capacity.
const ROOM: usize = 2;

/// What one exchange did to the store.
#[derive(Clone, Copy)]
struct Done {
    path: u64,
    stored: Option<u64>,
    used: Option<u64>,
    removed: Option<u64>,
}

fn path_text(path: u64) -> &'static str {
    match path {
        0 => "/a",
        1 => "/b",
        2 => "/c",
        _ => "/d",
    }
}

fn is_touched(done: &Done, serial: u64) -> bool {
    done.stored == Some(serial) || done.used == Some(serial)
}

/// Where the serial was last stored or used, counted from 1; nothing where it was removed since, or never stored.
fn last_place(history: &[Done], serial: u64) -> Option<usize> {
    let mut last = None;
    for (i, done) in history.iter().enumerate() {
        if is_touched(done, serial) {
            last = Some(i);
        }
        if done.removed == Some(serial) {
            last = None;
        }
    }
    last
}

/// How many others were stored or used later, and not removed since. Serials begin at 1, and each step stores one at
/// most.
fn count_before_serial(history: &[Done], serial: u64, place: usize) -> usize {
    let mut count = 0usize;
    for (i, _) in history.iter().enumerate() {
        let other = (i as u64).wrapping_add(1);
        if other != serial && last_place(history, other).is_some_and(|later| later > place) {
            count = count.wrapping_add(1);
        }
    }
    count
}

/// Whether fewer than there is room for stood before it at each step since it was last stored or used.
fn is_held(history: &[Done], serial: u64) -> bool {
    let Some(place) = last_place(history, serial) else {
        return false;
    };
    for (i, _) in history.iter().enumerate() {
        if i >= place && count_before_serial(&history[..i + 1], serial, place) >= ROOM {
            return false;
        }
    }
    true
}

/// The serial that is held for a path.
fn held_for(history: &[Done], path: u64) -> Option<u64> {
    for done in history {
        if let Some(serial) = done.stored
            && done.path == path
            && is_held(history, serial)
        {
            return Some(serial);
        }
    }
    None
}

/// What a reply did to the store.
fn done_by(path: u64, step: &Result<Outcome, CoreFault>) -> Result<Done, Fail> {
    match step {
        Ok(Outcome::Reply(reply)) => Ok(Done {
            path,
            stored: reply.stored,
            used: reply.used,
            removed: reply.removed.last(),
        }),
        _ => Err("a reply".into()),
    }
}

/// The origin answers what is out.
fn answered(
    alloc: Global,
    core: &mut Core<ListShelf>,
    path: u64,
    status: u16,
    control: &str,
) -> Result<Done, Fail> {
    let response = response(alloc, status, control.as_bytes(), b"")?;
    done_by(path, &answer(alloc, core, 1, &response))
}

/// A POST that succeeds.
fn post(alloc: Global, core: &mut Core<ListShelf>, path: u64) -> Result<Done, Fail> {
    let asked = request(alloc, Method::POST, path_text(path))?;
    match &arrive(alloc, core, 1, &asked) {
        Ok(Outcome::Forward(_, _)) => answered(alloc, core, path, 204, "max-age=60"),
        _ => Err("a forward".into()),
    }
}

/// A GET, whose answer may be stored or not.
fn get(alloc: Global, core: &mut Core<ListShelf>, path: u64, may: bool) -> Result<Done, Fail> {
    let asked = request(alloc, Method::GET, path_text(path))?;
    let control = if may { "max-age=60" } else { "no-store" };
    match &arrive(alloc, core, 1, &asked) {
        Ok(Outcome::Forward(_, _)) => answered(alloc, core, path, 200, control),
        step => done_by(path, step),
    }
}

/// The next of a row of numbers that looks random (xorshift).
fn next_number(choice: u64) -> u64 {
    let a = choice ^ (choice << 13);
    let b = a ^ (a >> 7);
    b ^ (b << 17)
}

/// One exchange, which uses or removes what is held for its path.
fn exchange(
    rt: &impl Abort,
    alloc: Global,
    core: &mut Core<ListShelf>,
    choice: u64,
    held: Option<u64>,
) -> Result<Done, Fail> {
    let path = choice % 4;
    if (choice >> 8).is_multiple_of(6) {
        let done = post(alloc, core, path)?;
        assert!(rt; done.removed == held);
        return Ok(done);
    }
    let done = get(alloc, core, path, !(choice >> 16).is_multiple_of(5))?;
    assert!(rt; done.used == held);
    Ok(done)
}

#[test]
fn what_is_held_is_counted(rt: HostRuntime) -> Result<(), Fail> {
    let mut core = core(rt.alloc(), 1)?;
    let mut history: Vec<Done> = Vec::new(rt.alloc());
    let mut choice = 88_172_645_463_325_252;
    let mut hits = 0u64;
    for _ in 0..60 {
        choice = next_number(choice);
        let held = held_for(history.as_slice(), choice % 4);
        let done = exchange(&rt, rt.alloc(), &mut core, choice, held)?;
        hits = hits.wrapping_add(u64::from(done.used.is_some()));
        history.push(done)?;
    }
    assert!(rt; hits > 5);
    Ok(())
}
