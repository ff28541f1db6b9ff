//! Requests that wait: where a run stops at one, and which are ready.

use super::cores::{answer, arrive, core, request, response, run_of_events};
use http::Method;
use hx_store::ListShelf;
use proxy_core::{Core, CoreFault, Event, Outcome};
use std::alloc::Global;
use std::process::Abort;
use std::test::Fail;

/// Two ask for the same at 100; the second waits for the first.
fn two_ask(alloc: Global) -> Result<Vec<Event>, Fail> {
    let mut events = Vec::new(alloc);
    for id in 1..3u64 {
        let asked = request(alloc, Method::GET, "/a")?;
        events.push(Event::Arrive(100, id, asked))?;
    }
    Ok(events)
}

fn answers(alloc: Global, events: &mut Vec<Event>, id: u64) -> Result<(), Fail> {
    let given = response(alloc, 200, b"max-age=60", b"hi")?;
    events.push(Event::Answer(101, id, given))?;
    Ok(())
}

/// Once the first has its answer the second is woken to what was stored of it, and only once.
#[test]
fn a_run_wakes_once(rt: HostRuntime) -> Result<(), Fail> {
    let alloc = rt.alloc();
    let mut events = two_ask(alloc)?;
    answers(alloc, &mut events, 1)?;
    for _ in 0..2u8 {
        events.push(Event::Wake(101, 2))?;
    }
    let ran = run_of_events(alloc, &events)?;
    assert!(rt; matches!(ran.outcomes.get(1), Some(Outcome::Waits(1))));
    match ran.outcomes.get(3) {
        Some(Outcome::Reply(reply)) => assert_eq!(rt; reply.used, Some(1)),
        _ => assert!(rt; false),
    }
    assert_eq!(rt; ran.outcomes.len(), 4);
    assert_eq!(rt; ran.stopped, Some(CoreFault::UnknownId));
    Ok(())
}

fn is_ready(rt: &impl Abort, alloc: Global, core: &Core<ListShelf>, ids: &[u64]) {
    match core.ready(alloc) {
        Ok(ready) => assert!(rt; ready.as_slice() == ids),
        Err(_) => assert!(rt; false),
    }
}

/// Those that wait are ready once the first has its answer, in the order of their arrival, and until they are woken or
/// go.
#[test]
fn the_released_are_ready(rt: HostRuntime) -> Result<(), Fail> {
    let alloc = rt.alloc();
    let mut core = core(alloc, 1)?;
    let asked = request(alloc, Method::GET, "/a")?;
    for id in [3u64, 2, 7, 5] {
        assert!(rt; arrive(alloc, &mut core, id, &asked).is_ok());
        is_ready(&rt, alloc, &core, &[]);
    }
    let given = response(alloc, 200, b"max-age=60", b"hi")?;
    assert!(rt; answer(alloc, &mut core, 3, &given).is_ok());
    is_ready(&rt, alloc, &core, &[2, 7, 5]);
    assert!(rt; core.wake(alloc, 101, 7).is_ok());
    is_ready(&rt, alloc, &core, &[2, 5]);
    assert!(rt; core.abandon(2).is_ok());
    is_ready(&rt, alloc, &core, &[5]);
    assert!(rt; core.wake(alloc, 101, 5).is_ok());
    is_ready(&rt, alloc, &core, &[]);
    Ok(())
}
