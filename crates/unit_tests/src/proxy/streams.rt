//! Readers that give few bytes at a time, are interrupted or fail, and writers that take few, fail or take none.

use super::first_run::{FIRST_EFFECTS, first_script};
use crate::failing_streams::{Sink, Source};
use proxy_replay::{ReplayFault, replay};
use std::alloc::Global;
use std::io;
use std::io::{ErrorKind, Read};
use std::process::Abort;
use std::test::Fail;

/// How a replay ends, in a word.
fn shown(ended: &Result<(), ReplayFault>) -> &'static str {
    match ended {
        Ok(()) => "done",
        Err(ReplayFault::Read) => "read",
        Err(ReplayFault::Write) => "write",
        Err(_) => "another fault",
    }
}

/// How a replay ended, and what it wrote.
type Ended = (&'static str, Vec<u8>);

fn read_from(alloc: Global, most: usize, calls: u64, kind: ErrorKind) -> Result<Ended, Fail> {
    let script = first_script(alloc)?;
    let mut source = Source {
        bytes: script.as_bytes(),
        most,
        calls,
        kind,
    };
    let mut text = Vec::new(alloc);
    let result = replay(alloc, &mut source, &mut text);
    Ok((shown(&result), text))
}

fn written_to(alloc: Global, most: usize, calls: u64, kind: ErrorKind) -> Result<Ended, Fail> {
    let script = first_script(alloc)?;
    let mut script = script.as_bytes();
    let mut sink = Sink {
        text: Vec::new(alloc),
        most,
        calls,
        kind,
    };
    let result = replay(alloc, &mut script, &mut sink);
    Ok((shown(&result), sink.text))
}

/// A replay ended well, and wrote all effects.
fn is_whole(rt: &impl Abort, (word, text): &Ended, at: u64) {
    assert!(rt;
        *word == "done" && text.as_slice() == FIRST_EFFECTS.as_bytes(),
        "at {at}"
    );
}

/// A replay ended so, and wrote the front of the effects.
fn is_front(rt: &impl Abort, wanted: &str, (word, text): &Ended, at: u64) {
    let holds = *word == wanted && FIRST_EFFECTS.as_bytes().starts_with(text);
    assert!(rt; holds, "at {at}");
}

#[test]
fn a_reader_may_give_few_bytes_at_a_time(rt: HostRuntime) -> Result<(), Fail> {
    for most in 1..9usize {
        let ended = read_from(rt.alloc(), most, u64::MAX, ErrorKind::Other)?;
        is_whole(&rt, &ended, most as u64);
    }
    Ok(())
}

#[test]
fn a_reader_that_fails_ends_the_replay(rt: HostRuntime) -> Result<(), Fail> {
    // Seven bytes at a time: the script has been read, and its end been told, with the 62nd call.
    for calls in 0..62u64 {
        let ended = read_from(rt.alloc(), 7, calls, ErrorKind::Other)?;
        is_front(&rt, "read", &ended, calls);
        // The forward, then the drop with the reply, then the second reply: whole happenings alone.
        let length = ended.1.len();
        let is_so_far = matches!(length, 0 | 91 | 273 | 441);
        assert!(rt; is_so_far && (calls < 61 || length == 441), "at {calls}");
    }
    is_whole(&rt, &read_from(rt.alloc(), 7, 62, ErrorKind::Other)?, 62);
    Ok(())
}

#[test]
fn an_interrupted_call_is_made_again(rt: HostRuntime) -> Result<(), Fail> {
    for calls in 0..20u64 {
        let ended = read_from(rt.alloc(), 30, calls, ErrorKind::Interrupted)?;
        is_whole(&rt, &ended, calls);
        let ended = written_to(rt.alloc(), 30, calls, ErrorKind::Interrupted)?;
        is_whole(&rt, &ended, calls);
    }
    Ok(())
}

#[test]
fn a_writer_may_take_few_bytes_at_a_time(rt: HostRuntime) -> Result<(), Fail> {
    for most in 1..9usize {
        let ended = written_to(rt.alloc(), most, u64::MAX, ErrorKind::Other)?;
        is_whole(&rt, &ended, most as u64);
    }
    Ok(())
}

#[test]
fn a_writer_that_fails_ends_the_replay(rt: HostRuntime) -> Result<(), Fail> {
    for calls in 0..100u64 {
        let ended = written_to(rt.alloc(), 7, calls, ErrorKind::Other)?;
        if ended.0 == "done" {
            is_whole(&rt, &ended, calls);
            // Seven bytes at a time of 91, 182 and 168: the last are taken with the 63rd call, and a failure before it
            // is told.
            assert!(rt; calls == 63);
            return Ok(());
        }
        is_front(&rt, "write", &ended, calls);
        assert!(rt; ended.1.len() as u64 <= 7 * calls, "at {calls}");
    }
    Err(Fail::from("never ended"))
}

#[test]
fn a_write_that_takes_nothing_is_a_failure(rt: HostRuntime) -> Result<(), Fail> {
    let (word, text) = written_to(rt.alloc(), 0, u64::MAX, ErrorKind::Other)?;
    assert!(rt; word == "write" && text.is_empty());
    Ok(())
}

/// Gives the line of a table that is longer than any script, and never ends.
#[derive(Drop)]
struct Endless {
    line: bool,
}

impl Read for Endless {
    fn read(&mut self, buf: &mut [u8]) -> io::Result<usize> {
        if self.line {
            buf.fill(b'#');
            return Ok(buf.len());
        }
        self.line = true;
        let mut line = b"config 99999999\n".as_slice();
        line.read(buf)
    }
}

#[test]
fn a_script_past_the_limit_is_no_longer_read(rt: HostRuntime) {
    let mut text = Vec::new(rt.alloc());
    let result = replay(rt.alloc(), &mut Endless { line: false }, &mut text);
    assert!(rt; shown(&result) == "read" && text.is_empty());
}
