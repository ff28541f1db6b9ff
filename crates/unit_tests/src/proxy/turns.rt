//! Turns over sockets in memory: which bytes go out, and what each failing call comes to.
ghost use Rattle.std.specs.Prelude.{◌<◌};

use super::first_run::{ASK, engine};
use super::memory_sockets::{Call, MemorySockets};
use hx_store::ListShelf;
use proxy_engine::Engine;
use proxy_turn::{
    End, LoggedCall, LoggedReadOutcome, LoggedSockets, PIECE, Sockets, TurnAcceptBounds, TurnFault,
    turn, turn_over_given_ends, turn_with_call_log,
};
use std::alloc::Global;
use std::net::{Ipv4Addr, SocketAddrV4};
use std::process::Abort;
use std::test::Fail;

const ANSWER: &[u8] =
    b"HTTP/1.1 200 OK\r\nDate: Thu, 01 Jan 1970 00:01:41 GMT\r\nCache-Control: max-age=60\r\nETag: \"v1\"\r\nContent-Length: 2\r\n\r\nhi";

const FORWARDED: &[u8] =
    b"GET /a HTTP/1.1\r\nHost: h\r\nVia: 1.1 edge\r\nConnection: close\r\n\r\n";

const STORED: &[u8] =
    b"HTTP/1.1 200 \r\nDate: Thu, 01 Jan 1970 00:01:41 GMT\r\nCache-Control: max-age=60\r\nETag: \"v1\"\r\nCache-Status: edge;fwd=uri-miss;ttl=59;stored\r\nContent-Length: 2\r\n\r\nhi";

const HIT: &[u8] =
    b"HTTP/1.1 200 \r\nDate: Thu, 01 Jan 1970 00:01:41 GMT\r\nCache-Control: max-age=60\r\nETag: \"v1\"\r\nAge: 30\r\nCache-Status: edge;hit;ttl=30\r\nContent-Length: 2\r\n\r\nhi";

/// Whatever its age is.
const A_HIT: &[u8] = b"Cache-Status: edge;hit;ttl=";

const REFUSED: &[u8] = b"Refusal: origin refused;fwd=uri-miss\r\n";

const CLOSED: &[u8] = b"Refusal: origin closed;fwd=uri-miss\r\n";

fn contains(text: &[u8], part: &[u8]) -> bool {
    text.windows(part.len().max(1)).any(|w| w == part)
}

/// One turn. The failed calls that it tells of are those that were made.
fn one_turn(
    rt: &impl Abort,
    alloc: Global,
    engine: &mut Engine<ListShelf>,
    sockets: &mut MemorySockets,
    now: u64,
)
    requires { now < 253402300800 }
{
    let accepts = sockets.accepts;
    let reads = sockets.reads;
    let failures = sockets.failures;
    match turn(engine, sockets, alloc, now) {
        Ok(report) => {
            assert!(rt; report.faults == sockets.failures.saturating_sub(failures));
            assert!(rt; report.reads == sockets.reads.saturating_sub(reads));
            assert!(rt; report.works < 1000);
        }
        Err(fault) => {
            assert!(rt; fault == TurnFault::Listener);
            assert!(rt; sockets.failures.saturating_sub(failures) == 1);
        }
    }
    assert!(rt; sockets.accepts.saturating_sub(accepts) == 1);
}

/// A client asks at 100, is answered at 101, and another asks for the same at 130.
fn converse(rt: &impl Abort, alloc: Global, sockets: &mut MemorySockets) -> Result<(), Fail> {
    let mut engine = engine(alloc, 1)?;
    sockets.waiting = 1;
    one_turn(rt, alloc, &mut engine, sockets, 100);
    for _ in 0..4u8 {
        one_turn(rt, alloc, &mut engine, sockets, 101);
    }
    sockets.waiting = sockets.waiting.saturating_add(1);
    for _ in 0..6u8 {
        one_turn(rt, alloc, &mut engine, sockets, 130);
    }
    Ok(())
}

/// Without a failure, what goes out is the first run's.
#[test]
fn first_run_by_turns(rt: HostRuntime) -> Result<(), Fail> {
    let alloc = rt.alloc();
    let mut sockets = MemorySockets::new(alloc, 0, ASK, ANSWER);
    converse(&rt, alloc, &mut sockets)?;
    let mut wanted = Vec::new(alloc);
    wanted.extend_from_slice(FORWARDED)?;
    wanted.extend_from_slice(STORED)?;
    wanted.extend_from_slice(HIT)?;
    assert!(rt; sockets.written.as_slice() == wanted.as_slice());
    assert!(rt; sockets.failures == 0);
    Ok(())
}

/// What the clients have to have got where this call failed, and what not; the first may have been served before.
fn outcome(failed: Call, served: bool) -> (&'static [u8], &'static [u8]) {
    match failed {
        Call::Accept => (A_HIT, REFUSED),
        Call::Connect(_) => (REFUSED, STORED),
        Call::Write(End::Link(_)) => (CLOSED, STORED),
        Call::Read(End::Link(_)) => (CLOSED, STORED),
        // The answer is stored though its first reader is gone.
        Call::Write(End::Client(1)) => (HIT, STORED),
        Call::Read(End::Client(1)) if served => (HIT, CLOSED),
        // The next client's request goes forward, for nothing is stored.
        Call::Read(End::Client(1)) => (b"Cache-Status: edge;fwd=uri-miss;ttl=", A_HIT),
        Call::Write(End::Client(_)) => (STORED, A_HIT),
        Call::Read(End::Client(_)) => (STORED, CLOSED),
        Call::Shut(_) => (HIT, CLOSED),
        _ => (b"", REFUSED),
    }
}

/// Each call fails in turn, until a run has no failure; no call is made on an end on which one has failed.
#[test]
fn each_call_fails_once(rt: HostRuntime) -> Result<(), Fail> {
    let alloc = rt.alloc();
    // How often the write of the first reply failed: its answer is stored all the same.
    let mut replies = 0u64;
    for failing in 1..200u64 {
        let mut sockets = MemorySockets::new(alloc, failing, ASK, ANSWER);
        converse(&rt, alloc, &mut sockets)?;
        assert!(rt; !sockets.calls.after_failure, "call {failing}");
        let Some(failed) = sockets.calls.failed else {
            assert!(rt; failing > 20 && sockets.failures == 0 && replies == 1);
            return Ok(());
        };
        replies = replies.saturating_add(u64::from(failed == Call::Write(End::Client(1))));
        let text = sockets.written.as_slice();
        let (wanted, unwanted) = outcome(failed, contains(text, STORED));
        assert!(rt; contains(text, wanted), "call {failing}");
        assert!(rt; !contains(text, unwanted), "call {failing}");
    }
    panic!(rt; "each run had a failure");
}

/// The calls of a turn are in the log, in order and with their bytes.
#[test]
fn calls_are_logged(rt: HostRuntime) -> Result<(), Fail> {
    let alloc = rt.alloc();
    let mut engine = engine(alloc, 1)?;
    let mut below = MemorySockets::new(alloc, 0, ASK, ANSWER);
    below.waiting = 1;
    let mut sockets = LoggedSockets::new(below, alloc);
    assert!(rt; turn_with_call_log(&mut engine, &mut sockets, alloc, 100).is_ok());
    assert!(rt; !sockets.has_unlogged_calls());
    match sockets.calls() {
        [
            LoggedCall::Accept(1, Ok(true)),
            LoggedCall::Read(End::Client(1), LoggedReadOutcome::Bytes(asked)),
            LoggedCall::Connect(1, address, true),
            LoggedCall::Write(End::Link(1), written, None, true),
        ] => {
            assert!(rt; asked.as_slice() == ASK);
            assert!(rt; *address == SocketAddrV4::new(Ipv4Addr::LOCALHOST, 8081));
            assert!(rt; written.as_slice() == FORWARDED);
        }
        _ => panic!(rt; "other calls"),
    }
    Ok(())
}

/// A turn over `ends` with room for three connections. No call fails, so many are accepted, and two ends are read.
fn expect_turn(
    rt: &impl Abort,
    alloc: Global,
    engine: &mut Engine<ListShelf>,
    sockets: &mut MemorySockets,
    ends: &mut Vec<End>,
    accepted: u64,
) {
    let bounds = TurnAcceptBounds {
        most_open: 3,
        most_accepts: 2,
    };
    let mut buf = [0u8; PIECE];
    match turn_over_given_ends(engine, sockets, alloc, 100, bounds, ends, &mut buf) {
        Ok(report) => {
            assert!(rt; report.accepted == accepted && report.reads == 2 && report.faults == 0);
        }
        Err(_) => panic!(rt; "a fault"),
    }
}

/// Two of three connections are accepted and read, and of what is handed in nothing that isn't there.
#[test]
fn ends_are_handed_in(rt: HostRuntime) -> Result<(), Fail> {
    let alloc = rt.alloc();
    let mut engine = engine(alloc, 1)?;
    let mut sockets = MemorySockets::new(alloc, 0, ASK, ANSWER);
    sockets.waiting = 3;
    let mut ends = vec![in alloc; End::Listener, End::Client(0), End::Client(9), End::Link(9)]?;
    expect_turn(&rt, alloc, &mut engine, &mut sockets, &mut ends, 2);
    assert!(rt; ends.as_slice() == [End::Client(1), End::Client(2)].as_slice());
    Ok(())
}

/// Two clients wait for their answers, so no bytes may come from them. A third connection comes, and no more may be.
#[test]
fn who_waits_is_not_read(rt: HostRuntime) -> Result<(), Fail> {
    let alloc = rt.alloc();
    let mut engine = engine(alloc, 1)?;
    let mut sockets = MemorySockets::new(alloc, 0, ASK, ANSWER);
    sockets.waiting = 3;
    let mut ends = vec![in alloc]?;
    expect_turn(&rt, alloc, &mut engine, &mut sockets, &mut ends, 2);
    let mut ends = vec![in alloc; End::Client(2), End::Link(1), End::Client(1)]?;
    expect_turn(&rt, alloc, &mut engine, &mut sockets, &mut ends, 1);
    assert!(rt; ends.as_slice() == [End::Link(1), End::Client(3)].as_slice());
    Ok(())
}
