//! A record of turns over sockets in memory: its replay does what the turns did.
ghost use Rattle.std.specs.Prelude.{◌≡◌, ◌<◌, length, IfOk};
ghost use Rattle.proxy_reads.specs.Received.{ReceivedBytesAreAtMostRoom};

use super::first_run::{FIRST_TABLE, engine};
use super::memory_sockets::give;
use hx_fields::Bytes;
use hx_status::ReplyData;
use proxy_record::{RecordFault, RecordedSockets, Recorder};
use proxy_replay::replayed;
use proxy_script::{Effect, Happening, effects_text};
use proxy_turn::{End, Received, SocketCallFailed, Sockets, turn};
use std::alloc::{AllocError, Global};
use std::io;
use std::io::{ErrorKind, Write};
use std::net::SocketAddrV4;
use std::test::Fail;

/// What each client sends, a piece a read.
const PIECES: [&[u8]; 4] = [
    b"GET /a HTTP/1.1\r\nHost: h\r\n\r\nGET /b HT",
    b"TP/1.1\r\nHost: h\r\n\r\nPOST /c HTTP/1.1\r\nHost: h\r\nContent-Length: 2\r\n\r\n",
    b"hi",
    b"GET /a HTTP/1.1\r\nHost: h\r\n\r\n",
];

/// What an origin answers, a piece a read.
const ANSWER: [&[u8]; 2] = [
    b"HTTP/1.1 200 OK\r\nCache-Control: max-age=60\r\nContent-Le",
    b"ngth: 2\r\n\r\nhi",
];

/// How many clients come.
const CLIENTS: u64 = 3;

/// The next piece for an end.
#[derive(Clone, Copy)]
struct Next {
    end: End,
    piece: usize,
}

/// Clients that all send at once, and an origin; what goes out is kept as effects.
#[derive(Drop)]
struct Crowd {
    alloc: Global,
    accepted: u64,
    next: Vec<Next>,
    address: Option<SocketAddrV4>,
    done: Vec<Effect>,
    lost: bool,
    accepts: u64,
    reads: u64,
    failures: u64,
}

fn bytes_of(alloc: Global, bytes: &[u8]) -> Result<Bytes, AllocError> {
    Bytes::copy_of(alloc, bytes)
}

/// The piece of this number from an end.
fn piece_of(end: End, number: usize) -> Option<&'static [u8]> {
    let piece = match end {
        End::Client(_) => PIECES.get(number),
        End::Link(_) => ANSWER.get(number),
        End::Listener => None,
    };
    piece.copied()
}

/// How many pieces an end has given, and one more from now on.
fn count(next: &mut Vec<Next>, lost: &mut bool, end: End) -> usize {
    for it in next.iter_mut() {
        if it.end == end {
            it.piece = it.piece.saturating_add(1);
            return it.piece - 1;
        }
    }
    if next.push(Next { end, piece: 1 }).is_err() {
        *lost = true;
    }
    0
}

fn keep(done: &mut Vec<Effect>, lost: &mut bool, effect: Result<Effect, AllocError>) {
    match effect {
        Ok(effect) => {
            if done.push(effect).is_err() {
                *lost = true;
            }
        }
        Err(_) => *lost = true,
    }
}

impl Crowd {
    fn new(alloc: Global) -> Crowd {
        Crowd {
            alloc,
            accepted: 0,
            next: Vec::new(alloc),
            address: None,
            done: Vec::new(alloc),
            lost: false,
            accepts: 0,
            reads: 0,
            failures: 0,
        }
    }

    /// The effect of a write; what it tells isn't in its text.
    fn effect_of(&self, end: End, bytes: &[u8]) -> Result<Effect, AllocError> {
        let bytes = bytes_of(self.alloc, bytes)?;
        match end {
            End::Link(l) => Ok(Effect::Forward(l, self.address.ok_or(AllocError)?, bytes)),
            End::Client(n) => Ok(Effect::Client(n, bytes, None)),
            End::Listener => Err(AllocError),
        }
    }
}

impl Sockets for Crowd {
    ghost Did = { λ s made t. Unit {0} };

    ghost accepts = { λ s. s.accepts };

    ghost reads = { λ s. s.reads };

    ghost failures = { λ s. s.failures };

    ghost none = { λ s. tt };

    ghost joined = { λ s t u a b first then. tt };

    fn accept(&mut self, _n: u64) -> Result<bool, SocketCallFailed> {
        self.accepts = self.accepts.saturating_add(1);
        let comes = self.accepted < CLIENTS;
        self.accepted = self.accepted.saturating_add(1);
        Ok(comes)
    }

    fn read(&mut self, end: End, buf: &mut [u8]) -> Result<Received, SocketCallFailed> {
        self.reads = self.reads.saturating_add(1);
        let number = count(&mut self.next, &mut self.lost, end);
        match piece_of(end, number) {
            Some(piece) => Ok(give(buf, piece)),
            None => Ok(Received::End),
        }
    }

    fn write(
        &mut self,
        end: End,
        bytes: &[u8],
        _replied: Option<&ReplyData>,
    ) -> Result<(), SocketCallFailed> {
        let effect = self.effect_of(end, bytes);
        keep(&mut self.done, &mut self.lost, effect);
        Ok(())
    }

    fn connect(&mut self, _link: u64, address: SocketAddrV4) -> Result<(), SocketCallFailed> {
        self.address = Some(address);
        Ok(())
    }

    fn shut(&mut self, end: End) -> Result<(), SocketCallFailed> {
        match end {
            End::Client(n) => keep(&mut self.done, &mut self.lost, Ok(Effect::Close(n))),
            End::Link(l) => keep(&mut self.done, &mut self.lost, Ok(Effect::Drop(l))),
            End::Listener => {}
        }
        Ok(())
    }
}

/// Serves the crowd turn by turn, a second each.
fn serve<W: Write + Drop>(alloc: Global, ends: &mut RecordedSockets<Crowd, W>) -> Result<(), Fail> {
    let mut engine = engine(alloc, 1)?;
    let mut settled = true;
    for now in 100..300u64 {
        let now = ends.begin(now, settled).min(1000);
        let report = turn(&mut engine, ends, alloc, now).ok().ok_or("a turn")?;
        settled = report.works < 1000;
    }
    Ok(())
}

/// Clients and origins that all have something at once are recorded, and the replay of the record does the same, to the
/// byte.
#[test]
fn a_record_replays_what_was_done(rt: HostRuntime) -> Result<(), Fail> {
    let alloc = rt.alloc();
    let mut script = Vec::new(alloc);
    let record = Recorder::begin(alloc, &mut script, FIRST_TABLE.as_bytes())
        .ok()
        .ok_or("a record")?;
    let mut ends = RecordedSockets::new(Crowd::new(alloc), Some(record));
    serve(alloc, &mut ends)?;
    let crowd = ends.into_sockets();
    assert!(rt; !crowd.lost);
    // Of each client three requests or more are answered and its connection closed; each link is dropped.
    assert!(rt; crowd.done.len() > 24);
    let text = effects_text(alloc, crowd.done.as_slice())?;
    match replayed(alloc, script.as_slice()) {
        Ok(again) => assert!(rt; again.as_slice() == text.as_slice()),
        Err(_) => assert!(rt; false),
    }
    Ok(())
}

/// Takes so many writes, and fails from then on.
#[derive(Drop)]
struct Sink<'a> {
    text: &'a mut Vec<u8>,
    writes: u64,
}

impl Write for Sink<'_> {
    fn write(&mut self, buf: &[u8]) -> io::Result<usize> {
        if self.writes == 0 {
            return Err(io::Error::from(ErrorKind::StorageFull));
        }
        self.writes -= 1;
        self.text.extend_from_slice(buf)?;
        Ok(buf.len())
    }

    fn flush(&mut self) -> io::Result<()> {
        Ok(())
    }
}

/// What couldn't be recorded isn't taken: the replay of what was recorded is what went out.
#[test]
fn nothing_is_done_that_is_not_recorded(rt: HostRuntime) -> Result<(), Fail> {
    let alloc = rt.alloc();
    for writes in 1..12u64 {
        let mut script = Vec::new(alloc);
        let sink = Sink {
            text: &mut script,
            writes,
        };
        let record = Recorder::begin(alloc, sink, FIRST_TABLE.as_bytes())
            .ok()
            .ok_or("a record")?;
        let mut ends = RecordedSockets::new(Crowd::new(alloc), Some(record));
        serve(alloc, &mut ends)?;
        assert!(rt; ends.fault() == Some(RecordFault::Write));
        let crowd = ends.into_sockets();
        let text = effects_text(alloc, crowd.done.as_slice())?;
        match replayed(alloc, script.as_slice()) {
            Ok(again) => assert!(rt; again.as_slice() == text.as_slice(), "{writes}"),
            Err(_) => assert!(rt; false),
        }
    }
    Ok(())
}

/// A record ends at the end of a happening, within the limit of a script, and stays ended.
#[test]
fn a_record_ends_within_the_limit(rt: HostRuntime) -> Result<(), Fail> {
    let alloc = rt.alloc();
    let mut script = Vec::new(alloc);
    let mut record = Recorder::begin(alloc, &mut script, FIRST_TABLE.as_bytes())
        .ok()
        .ok_or("a record")?;
    let piece = Vec::from_elem(alloc, b'x', 1_000_000)?;
    for now in 1..40u64 {
        let happening = Happening::Client(1, piece.as_slice());
        assert!(rt; record.happens(now, happening).is_ok());
        assert!(rt; record.is_over() == (now > 16), "{now}");
    }
    drop(record);
    assert!(rt; script.len() > 16_000_000 && script.len() <= 16_777_216);
    assert!(rt; script.as_slice().ends_with(b"x\n"));
    Ok(())
}
