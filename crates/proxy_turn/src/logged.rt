//! Sockets that keep a log of the calls made on them: what contracts say of calls, seen at run time.
ghost use Rattle.std.specs.Prelude.{◌≡◌, ◌<◌, [], ◌∷◌, ◌++◌, map, false, IfOk, option_copied};
ghost use Rattle.hx_fields.specs.declared.limits.TheConstants.{START_OF_YEAR_10000};
ghost use Rattle.proxy_engine.specs.EngineModel.{EngineModel};
ghost use Rattle.proxy_engine.specs.State.{EngineRepresents};
ghost use Rattle.proxy_engine.specs.Orderly.{ModelIsConsistent};
ghost use Rattle.proxy_turn.specs.Calls as call;
ghost use Rattle.proxy_turn.specs.Calls.{read_outcome_of};
ghost use Rattle.proxy_turn.specs.Logs.{model_of_logged_call, LogGrewByCalls, log_grew_by_no_call};
ghost use Rattle.proxy_turn.specs.Logs.{log_growths_concatenate};
ghost use Rattle.proxy_turn.specs.Counts.{calls};
ghost use Rattle.proxy_turn.specs.Turn.{EngineTurnsWithCalls};

use crate::copies::copy_reply_data;
use crate::report::{Report, TurnFault};
use crate::sockets::{SocketCallFailed, Sockets};
use crate::turns::turn;
use hx_fields::Bytes;
use hx_status::ReplyData;
use hx_store::Shelf;
use proxy_engine::{End, Engine};
use proxy_reads::Received;
use std::alloc::{AllocError, Global};
use std::net::SocketAddrV4;

/// What a read gave.
#[derive(Drop)]
pub enum LoggedReadOutcome {
    Nothing,
    Bytes(Bytes),
    End,
    Failed,
}

/// A call, with its bytes, what reply they are and what it answers, and what came of it; the last of a write, a connect
/// and a shut says that it didn't fail.
#[derive(Drop)]
pub enum LoggedCall {
    Accept(u64, Result<bool, SocketCallFailed>),
    Read(End, LoggedReadOutcome),
    Write(End, Bytes, Option<ReplyData>, bool),
    Connect(u64, SocketAddrV4, bool),
    Shut(End, bool),
}

/// A write as it stands in a log.
fn write_call(
    alloc: Global,
    end: End,
    bytes: &[u8],
    replied: Option<&ReplyData>,
    done: bool,
) -> Result<LoggedCall, AllocError>
    ensures { IfOk result
        (λ it. model_of_logged_call it ≡ call.Write end bytes.now (option_copied replied.entry) done) }
{
    let bytes = Bytes::copy_of(alloc, bytes)?;
    let replied = copy_reply_data(alloc, replied)?;
    Ok(LoggedCall::Write(end, bytes, replied, done))
}

/// Sockets, and a log of the calls that were made on them.
#[derive(Drop)]
pub struct LoggedSockets<K: Sockets + Drop> {
    sockets: K,
    alloc: Global,
    calls: Vec<LoggedCall>,
    lost: bool,
}

impl<K: Sockets + Drop> LoggedSockets<K> {
    pub fn new(sockets: K, alloc: Global) -> LoggedSockets<K>
        ensures log { result.calls.items ≡ [] }
        ensures lost { result.lost ≡ false }
    {
        LoggedSockets {
            sockets,
            alloc,
            calls: Vec::new(alloc),
            lost: false,
        }
    }

    /// The calls so far, the oldest first.
    pub fn calls(&self) -> &[LoggedCall]
        ensures { result.now ≡ self.now.calls.items }
    {
        self.calls.as_slice()
    }

    /// Whether a call isn't in the log, because memory ran out.
    pub fn has_unlogged_calls(&self) -> bool
        ensures { result ≡ self.now.lost }
    {
        self.lost
    }

    fn keep_call(&mut self, it: LoggedCall)
        ensures sockets { self.new.sockets ≡ self.old.sockets }
        ensures kept { LogGrewByCalls self.old.lost self.old.calls.items self.new.lost self.new.calls.items
            (model_of_logged_call it ∷ []) }
    {
        if self.calls.push(it).is_err() {
            self.lost = true;
        }
    }

    fn keep_read(&mut self, end: End, received: &Result<Received, SocketCallFailed>, buf: &[u8])
        ensures sockets { self.new.sockets ≡ self.old.sockets }
        ensures kept { LogGrewByCalls self.old.lost self.old.calls.items self.new.lost self.new.calls.items
            (call.Read end (read_outcome_of received.now buf.now) ∷ []) }
    {
        let gave = match received {
            Ok(Received::Nothing) => LoggedReadOutcome::Nothing,
            Ok(Received::Bytes(n)) => match Bytes::copy_of(
                self.alloc,
                buf.get(..*n).unwrap_or(buf),
            ) {
                Ok(bytes) => LoggedReadOutcome::Bytes(bytes),
                Err(_) => {
                    self.lost = true;
                    return;
                }
            },
            Ok(Received::End) => LoggedReadOutcome::End,
            Err(_) => LoggedReadOutcome::Failed,
        };
        self.keep_call(LoggedCall::Read(end, gave));
    }

    fn keep_write(&mut self, end: End, bytes: &[u8], replied: Option<&ReplyData>, done: bool)
        ensures sockets { self.new.sockets ≡ self.old.sockets }
        ensures kept { LogGrewByCalls self.old.lost self.old.calls.items self.new.lost self.new.calls.items
            (call.Write end bytes.now (option_copied replied.entry) done ∷ []) }
    {
        match write_call(self.alloc, end, bytes, replied, done) {
            Ok(written) => self.keep_call(written),
            Err(_) => self.lost = true,
        }
    }
}

impl<K: Sockets + Drop> Sockets for LoggedSockets<K> {
    ghost Did = { λ s made t. LogGrewByCalls s.lost s.calls.items t.lost t.calls.items made };

    ghost accepts = { λ s. K.accepts s.sockets };

    ghost reads = { λ s. K.reads s.sockets };

    ghost failures = { λ s. K.failures s.sockets };

    ghost none = { λ s. log_grew_by_no_call s.lost s.calls.items };

    ghost joined = { λ s t u a b first then.
        log_growths_concatenate s.lost s.calls.items t.lost t.calls.items u.lost u.calls.items a b first then };

    fn accept(&mut self, n: u64) -> Result<bool, SocketCallFailed> {
        let came = self.sockets.accept(n);
        self.keep_call(LoggedCall::Accept(n, came));
        came
    }

    fn read(&mut self, end: End, buf: &mut [u8]) -> Result<Received, SocketCallFailed> {
        let received = self.sockets.read(end, buf);
        self.keep_read(end, &received, buf);
        received
    }

    fn write(
        &mut self,
        end: End,
        bytes: &[u8],
        replied: Option<&ReplyData>,
    ) -> Result<(), SocketCallFailed> {
        let written = self.sockets.write(end, bytes, replied);
        self.keep_write(end, bytes, replied, written.is_ok());
        written
    }

    fn connect(&mut self, link: u64, address: SocketAddrV4) -> Result<(), SocketCallFailed> {
        let connected = self.sockets.connect(link, address);
        self.keep_call(LoggedCall::Connect(link, address, connected.is_ok()));
        connected
    }

    fn shut(&mut self, end: End) -> Result<(), SocketCallFailed> {
        let shut = self.sockets.shut(end);
        self.keep_call(LoggedCall::Shut(end, shut.is_ok()));
        shut
    }
}

/// Serves one turn, as `turn` does. The log grows by its calls, each with its bytes, in order.
pub fn turn_with_call_log<S: Shelf, K: Sockets + Drop>(
    engine: &mut Engine<S>,
    sockets: &mut LoggedSockets<K>,
    alloc: Global,
    now: u64,
) -> Result<Report, TurnFault>
    requires { now < START_OF_YEAR_10000 }
    ensures { (s : EngineModel) → EngineRepresents engine.old s → ModelIsConsistent s
        → EngineTurnsWithCalls now s engine.new
        (λ made. LogGrewByCalls sockets.old.lost sockets.old.calls.items sockets.new.lost sockets.new.calls.items made)
        (calls (K.accepts sockets.old.sockets) (K.reads sockets.old.sockets) (K.failures sockets.old.sockets))
        (calls (K.accepts sockets.new.sockets) (K.reads sockets.new.sockets) (K.failures sockets.new.sockets)) result }
{
    turn(engine, sockets, alloc, now)
}
