//! Whole engines with ample memory: what a clause can refuse only where memory runs out is found here.
ghost use Rattle.std.specs.Prelude.{◌<◌};

use super::first_run::{ASK, engine};
use hx_store::ListShelf;
use proxy_engine::{Engine, EngineFault, Happening, Work};
use proxy_script::effects_text;
use std::alloc::Global;
use std::process::Abort;
use std::test::Fail;

const FORWARDED: &[u8] = b"forward 1 127.0.0.1:8081 62
GET /a HTTP/1.1\r
Host: h\r
Via: 1.1 edge\r
Connection: close\r
\r

";

fn take(
    alloc: Global,
    engine: &mut Engine<ListShelf>,
    happening: Happening<'_>,
) -> Result<(), EngineFault> {
    engine.take(alloc, happening)
}

fn work(
    alloc: Global,
    engine: &mut Engine<ListShelf>,
    now: u64,
) -> Result<Option<Vec<u8>>, EngineFault>
    requires { now < 253402300800 }
{
    match engine.work(alloc, now) {
        Ok(Work::Idle) => Ok(None),
        Ok(Work::Did(effects)) => match effects_text(alloc, &effects) {
            Ok(text) => Ok(Some(text)),
            Err(_) => Err(EngineFault::OutOfMemory),
        },
        Err(fault) => Err(fault),
    }
}

fn takes_happening(
    rt: &impl Abort,
    alloc: Global,
    engine: &mut Engine<ListShelf>,
    happening: Happening<'_>,
) {
    assert!(rt; take(alloc, engine, happening).is_ok());
}

fn refuses(
    rt: &impl Abort,
    alloc: Global,
    engine: &mut Engine<ListShelf>,
    happening: Happening<'_>,
    fault: EngineFault,
) {
    assert_eq!(rt; take(alloc, engine, happening), Err(fault));
}

/// One act with this text is due at the moment, and then none.
fn does_act(rt: &impl Abort, alloc: Global, engine: &mut Engine<ListShelf>, now: u64, text: &[u8])
    requires { now < 253402300800 }
{
    match work(alloc, engine, now) {
        Ok(Some(shown)) => assert!(rt; shown.as_slice() == text),
        _ => assert!(rt; false),
    }
    is_idle_at(rt, alloc, engine, now);
}

/// An act is due at 100, whatever it is.
fn acts(rt: &impl Abort, alloc: Global, engine: &mut Engine<ListShelf>) {
    assert!(rt; matches!(work(alloc, engine, 100), Ok(Some(_))));
}

fn is_idle_at(rt: &impl Abort, alloc: Global, engine: &mut Engine<ListShelf>, now: u64)
    requires { now < 253402300800 }
{
    assert!(rt; matches!(work(alloc, engine, now), Ok(None)));
}

/// A refused happening and an act that is done leave the engine so that the next act is the one that is due.
#[test]
fn acts_are_done_in_turn(rt: HostRuntime) -> Result<(), Fail> {
    let mut engine = engine(rt.alloc(), 1)?;
    is_idle_at(&rt, rt.alloc(), &mut engine, 100);
    takes_happening(&rt, rt.alloc(), &mut engine, Happening::Accept(1));
    takes_happening(&rt, rt.alloc(), &mut engine, Happening::Client(1, ASK));
    let wrong = EngineFault::WrongNumber;
    refuses(&rt, rt.alloc(), &mut engine, Happening::Shut(1), wrong);
    does_act(&rt, rt.alloc(), &mut engine, 100, FORWARDED);
    takes_happening(&rt, rt.alloc(), &mut engine, Happening::Gone(1));
    does_act(&rt, rt.alloc(), &mut engine, 100, b"drop 1\n");
    Ok(())
}

#[test]
fn numbers_run_out(rt: HostRuntime) -> Result<(), Fail> {
    let mut engine = engine(rt.alloc(), u64::MAX)?;
    takes_happening(&rt, rt.alloc(), &mut engine, Happening::Accept(1));
    takes_happening(&rt, rt.alloc(), &mut engine, Happening::Client(1, ASK));
    acts(&rt, rt.alloc(), &mut engine);
    takes_happening(&rt, rt.alloc(), &mut engine, Happening::Accept(2));
    takes_happening(&rt, rt.alloc(), &mut engine, Happening::Client(2, ASK));
    assert!(&rt; matches!(work(rt.alloc(), &mut engine, 100), Err(EngineFault::Spent)));
    Ok(())
}

const ASK_OTHER: &[u8] = b"GET /b HTTP/1.1\r\nHost: h\r\n\r\n";

/// A request that waits takes no number. Its wake is refused where none is left for it to go forward; to go needs none.
#[test]
fn a_wake_needs_a_number(rt: HostRuntime) -> Result<(), Fail> {
    let mut engine = engine(rt.alloc(), u64::MAX - 1)?;
    takes_happening(&rt, rt.alloc(), &mut engine, Happening::Accept(1));
    takes_happening(&rt, rt.alloc(), &mut engine, Happening::Client(1, ASK));
    acts(&rt, rt.alloc(), &mut engine);
    takes_happening(&rt, rt.alloc(), &mut engine, Happening::Accept(2));
    takes_happening(&rt, rt.alloc(), &mut engine, Happening::Client(2, ASK));
    does_act(&rt, rt.alloc(), &mut engine, 100, b"");
    takes_happening(&rt, rt.alloc(), &mut engine, Happening::Accept(3));
    takes_happening(
        &rt,
        rt.alloc(),
        &mut engine,
        Happening::Client(3, ASK_OTHER),
    );
    acts(&rt, rt.alloc(), &mut engine);
    takes_happening(&rt, rt.alloc(), &mut engine, Happening::Gone(1));
    acts(&rt, rt.alloc(), &mut engine);
    for _ in 0..2u8 {
        assert!(&rt; matches!(work(rt.alloc(), &mut engine, 100), Err(EngineFault::Spent)));
    }
    takes_happening(&rt, rt.alloc(), &mut engine, Happening::Gone(2));
    does_act(&rt, rt.alloc(), &mut engine, 100, b"");
    Ok(())
}

const ANSWER: &[u8] = b"HTTP/1.1 200 OK\r\nCache-Control: no-store\r\nContent-Length: 2\r\n\r\nhi";

const LAST_FORWARDED: &[u8] = b"forward 2000 127.0.0.1:8081 62
GET /a HTTP/1.1\r
Host: h\r
Via: 1.1 edge\r
Connection: close\r
\r

";

/// A client asks, its request goes forward, the origin answers, and the client goes.
fn comes_and_goes(rt: &impl Abort, alloc: Global, engine: &mut Engine<ListShelf>, n: u64) {
    takes_happening(rt, alloc, engine, Happening::Accept(n));
    takes_happening(rt, alloc, engine, Happening::Client(n, ASK));
    acts(rt, alloc, engine);
    takes_happening(rt, alloc, engine, Happening::Link(n, ANSWER));
    acts(rt, alloc, engine);
    takes_happening(rt, alloc, engine, Happening::Gone(n));
    is_idle_at(rt, alloc, engine, 100);
}

/// What is over is let go, so the last of many clients is served as the first.
#[test]
fn many_clients_come_and_go(rt: HostRuntime) -> Result<(), Fail> {
    let mut engine = engine(rt.alloc(), 1)?;
    for n in 1..2_000u64 {
        comes_and_goes(&rt, rt.alloc(), &mut engine, n);
    }
    takes_happening(&rt, rt.alloc(), &mut engine, Happening::Accept(2_000));
    takes_happening(&rt, rt.alloc(), &mut engine, Happening::Client(2_000, ASK));
    does_act(&rt, rt.alloc(), &mut engine, 100, LAST_FORWARDED);
    takes_happening(&rt, rt.alloc(), &mut engine, Happening::Gone(2_000));
    does_act(&rt, rt.alloc(), &mut engine, 100, b"drop 2000\n");
    // Those that are over are still known by their numbers.
    takes_happening(&rt, rt.alloc(), &mut engine, Happening::Gone(1));
    takes_happening(&rt, rt.alloc(), &mut engine, Happening::Link(1, ANSWER));
    is_idle_at(&rt, rt.alloc(), &mut engine, 100);
    Ok(())
}

/// A client is between two requests where each byte that it has sent was used, and it waits for nothing.
#[test]
fn who_is_between_requests(rt: HostRuntime) -> Result<(), Fail> {
    let mut engine = engine(rt.alloc(), 1)?;
    assert!(&rt; !engine.is_client_between_requests(1));
    takes_happening(&rt, rt.alloc(), &mut engine, Happening::Accept(1));
    assert!(&rt; engine.is_client_between_requests(1));
    for piece in [
        b"GET /a HTTP/1.1\r\n".as_slice(),
        b"Host: h\r\n\r\n".as_slice(),
    ] {
        takes_happening(&rt, rt.alloc(), &mut engine, Happening::Client(1, piece));
        assert!(&rt; !engine.is_client_between_requests(1));
    }
    does_act(&rt, rt.alloc(), &mut engine, 100, FORWARDED);
    assert!(&rt; !engine.is_client_between_requests(1));
    takes_happening(&rt, rt.alloc(), &mut engine, Happening::Link(1, ANSWER));
    acts(&rt, rt.alloc(), &mut engine);
    assert!(&rt; engine.is_client_between_requests(1));
    let begun = b"POST /a HTTP/1.1\r\nHost: h\r\nContent-Length: 3\r\n\r\nab";
    takes_happening(&rt, rt.alloc(), &mut engine, Happening::Client(1, begun));
    is_idle_at(&rt, rt.alloc(), &mut engine, 100);
    assert!(&rt; !engine.is_client_between_requests(1));
    takes_happening(&rt, rt.alloc(), &mut engine, Happening::Client(1, b"cG"));
    acts(&rt, rt.alloc(), &mut engine);
    takes_happening(&rt, rt.alloc(), &mut engine, Happening::Link(2, ANSWER));
    acts(&rt, rt.alloc(), &mut engine);
    // The first byte of a third request has come.
    assert!(&rt; !engine.is_client_between_requests(1));
    takes_happening(&rt, rt.alloc(), &mut engine, Happening::Accept(2));
    takes_happening(&rt, rt.alloc(), &mut engine, Happening::End(2));
    assert!(&rt; !engine.is_client_between_requests(2));
    Ok(())
}

const FAR_FORWARDED: &[u8] = b"forward 5000000000 127.0.0.1:8081 62
GET /a HTTP/1.1\r
Host: h\r
Via: 1.1 edge\r
Connection: close\r
\r

";

/// Numbers of links go on behind those of 32 bits.
#[test]
fn numbers_are_of_64_bits(rt: HostRuntime) -> Result<(), Fail> {
    let mut engine = engine(rt.alloc(), 5_000_000_000)?;
    takes_happening(&rt, rt.alloc(), &mut engine, Happening::Accept(1));
    takes_happening(&rt, rt.alloc(), &mut engine, Happening::Client(1, ASK));
    does_act(&rt, rt.alloc(), &mut engine, 100, FAR_FORWARDED);
    takes_happening(
        &rt,
        rt.alloc(),
        &mut engine,
        Happening::Link(5_000_000_000, ANSWER),
    );
    acts(&rt, rt.alloc(), &mut engine);
    is_idle_at(&rt, rt.alloc(), &mut engine, 100);
    Ok(())
}
