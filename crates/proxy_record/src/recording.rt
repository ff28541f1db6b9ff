//! Sockets whose calls are recorded.
//!
//! A script has all that is due done behind each happening, a turn behind all that it took. So while a record is
//! written, at most one thing happens in a turn (a connection comes, or an end gives something), and none before all is
//! done that was due; then a replay does the same acts in the same order. Who serves hands in one end at a time, in the
//! order in which they became ready. Where a call fails amid the acts of a turn, which is where memory is refused, the
//! engine takes the loss between two acts, and no script can tell of that: there the record ends.
ghost use Rattle.std.specs.Prelude.{◌≡◌, ◌≤◌, List, [], ◌∷◌, ◌++◌, length, IfOk, true, false, refl, Some, None};
ghost use Rattle.std.specs.Prelude.{is_some, is_ok, not, ◌||◌, cond, option_map};
ghost use Rattle.std.proofs.Common.{◌∙◌};
ghost use Rattle.proxy_record.specs.Records.{RecordSoFar};
ghost use Rattle.proxy_record.specs.Recorded.{CallsArePassedOn, passed_on_calls_concatenate, HappeningIfAnyIsRecorded};
ghost use Rattle.proxy_record.specs.Recorded.{TurnIsRecorded};
ghost use Rattle.proxy_record.specs.Recorded.{is_recording, may_be_taken_while_recording};
ghost use Rattle.proxy_record.specs.Recorded.{record_has_ended, record_ended_if_any};
ghost use Rattle.proxy_record.specs.Recorded.{turn_with_no_call_is_recorded, recorded_turns_concatenate};
ghost use Rattle.proxy_record.specs.Recorded.{recording_had_not_failed};
ghost use Rattle.proxy_script.specs.Happenings.{model_of_happening};
ghost use Rattle.proxy_turn.specs.Calls.{Call, read_outcome_of};
ghost use Rattle.proxy_turn.specs.Turn.{happening_of_read};
ghost use Rattle.proxy_turn.specs.Counts.{CountRisesBy, failed};
ghost use Rattle.proxy_reads.specs.Received.{ReceivedBytesAreAtMostRoom};

use crate::recorder::{RecordFault, Recorder};
use hx_status::ReplyData;
use proxy_script::Happening;
use proxy_turn::{End, Received, SocketCallFailed, Sockets, happening_of_read};
use std::io::Write;
use std::net::SocketAddrV4;

/// Sockets, and the record of what they give, where one is written.
#[derive(Drop)]
pub struct RecordedSockets<K: Sockets + Drop, W: Write + Drop> {
    pub sockets: K,
    recorder: Option<Recorder<W>>,
    fault: Option<RecordFault>,
    /// The moment of the turn.
    moment: u64,
    /// Something has happened in this turn, or something is due from the last one.
    taken: bool,
    /// An end was passed over in this turn.
    pub passed: bool,
    accepts: u64,
    reads: u64,
    failures: u64,
}

/// Records what happens, where a record is written. Whether it may be taken: not where it couldn't be recorded.
fn note<W: Write + Drop>(
    recorder: &mut Option<Recorder<W>>,
    fault: &mut Option<RecordFault>,
    now: u64,
    happening: Happening<'_>,
) -> bool
    ensures reported { result ≡ false → is_some fault.new ≡ true }
    ensures kept { is_some fault.old ≡ true → is_some fault.new ≡ true }
    ensures noted { is_some fault.new ≡ false → HappeningIfAnyIsRecorded now
        (Some (model_of_happening happening.entry)) recorder.old recorder.new }
{
    if let Some(recorder) = recorder {
        if let Err(e) = recorder.happens(now, happening) {
            *fault = Some(e);
            return false;
        }
    }
    true
}

impl<K: Sockets + Drop, W: Write + Drop> RecordedSockets<K, W> {
    pub fn new(sockets: K, recorder: Option<Recorder<W>>) -> RecordedSockets<K, W>
        ensures { result ≡ record {
          sockets = sockets;
          recorder = recorder;
          fault = None;
          moment = 0;
          taken = false;
          passed = false;
          accepts = 0;
          reads = 0;
          failures = 0;
        } }
    {
        RecordedSockets {
            sockets,
            recorder,
            fault: None,
            moment: 0,
            taken: false,
            passed: false,
            accepts: 0,
            reads: 0,
            failures: 0,
        }
    }

    /// The sockets, and the end of the record.
    pub fn into_sockets(self) -> K
        ensures { result ≡ self.sockets }
    {
        self.sockets
    }

    /// Begins a turn at a moment. `settled` says that nothing is due from the one before. Gives the moment of the turn,
    /// which is that of the one before until what was due then is done.
    pub fn begin(&mut self, now: u64, settled: bool) -> u64
        ensures moment { result ≡ self.new.moment }
        ensures begun { self.new ≡ record self.old {
          moment = cond (settled || not (is_recording self.old.recorder)) now self.old.moment;
          taken = not settled;
          passed = false;
        } }
    {
        if settled || !self.is_recording() {
            self.moment = now;
        }
        self.taken = !settled;
        self.passed = false;
        self.moment
    }

    /// Whether a record is being written.
    pub fn is_recording(&self) -> bool
        ensures { result ≡ is_recording self.now.recorder }
    {
        match &self.recorder {
            Some(recorder) => !recorder.is_over(),
            None => false,
        }
    }

    /// Whether a record has ended before the limit of a script.
    pub fn has_ended(&self) -> bool
        ensures { result ≡ record_has_ended self.now.recorder }
    {
        match &self.recorder {
            Some(recorder) => recorder.is_over(),
            None => false,
        }
    }

    /// Why recording failed. From then on nothing is given.
    pub fn fault(&self) -> Option<RecordFault>
        ensures { result ≡ self.now.fault }
    {
        self.fault
    }

    /// Whether an end was passed over in this turn that may have something.
    pub fn has_skipped_a_readable_end(&self) -> bool
        ensures { result ≡ self.now.passed }
    {
        self.passed
    }

    /// Whether something may still happen in this turn.
    pub fn may_take_a_happening(&self) -> bool
        ensures { result ≡ may_be_taken_while_recording (is_some self.now.fault) self.now.taken
            (is_recording self.now.recorder) }
    {
        self.fault.is_none() && (!self.taken || !self.is_recording())
    }

    /// Records what happens between two turns, as the one thing that happens.
    pub fn record_between_turns(&mut self, happening: Happening<'_>) -> bool
        ensures reported { result ≡ false → is_some self.new.fault ≡ true }
        ensures kept { is_some self.old.fault ≡ true → is_some self.new.fault ≡ true }
        ensures noted { is_some self.new.fault ≡ false
            → HappeningIfAnyIsRecorded self.old.moment
            (Some (model_of_happening happening.entry)) self.old.recorder self.new.recorder }
        ensures rest { self.new ≡ record self.old {
          recorder = self.new.recorder;
          fault = self.new.fault;
          taken = true;
        } }
    {
        self.taken = true;
        note(&mut self.recorder, &mut self.fault, self.moment, happening)
    }

    /// Whether an end has to wait for another turn.
    fn has_to_wait(&self) -> bool
        ensures may { result ≡ false
            → may_be_taken_while_recording (is_some self.now.fault) self.now.taken (is_recording self.now.recorder)
            ≡ true }
        ensures exact { result ≡ not (may_be_taken_while_recording (is_some self.now.fault) self.now.taken
            (is_recording self.now.recorder)) }
    {
        !self.may_take_a_happening()
    }

    /// Passes on what a call answered. One that failed is counted, and the record ends there.
    fn pass_on(&mut self, done: Result<(), SocketCallFailed>) -> Result<(), SocketCallFailed>
        ensures value { result ≡ done }
        ensures sockets { self.new.sockets ≡ self.old.sockets }
        ensures fault { self.new.fault ≡ self.old.fault }
        ensures accepts { self.new.accepts ≡ self.old.accepts }
        ensures reads { self.new.reads ≡ self.old.reads }
        ensures failures { CountRisesBy self.old.failures self.new.failures (failed done) }
        ensures noted { self.new.recorder
            ≡ cond (is_ok done) self.old.recorder (record_ended_if_any self.old.recorder) }
        ensures now { self.new.moment ≡ self.old.moment }
        ensures taken { self.new.taken ≡ self.old.taken }
    {
        if done.is_err() {
            self.failures = self.failures.saturating_add(1);
            if let Some(recorder) = &mut self.recorder {
                recorder.end();
            }
        }
        done
    }
}

impl<K: Sockets + Drop, W: Write + Drop> Sockets for RecordedSockets<K, W> {
    ghost Did = { λ s made t. (is_some s.fault ≡ true → is_some t.fault ≡ true) × (below : List Call)
        × K.Did s.sockets below t.sockets × CallsArePassedOn (is_some t.fault) made below
        × (is_some t.fault ≡ false → TurnIsRecorded s.moment s.recorder s.taken made t.moment t.recorder t.taken)
        × (t.moment ≡ s.moment) };

    ghost accepts = { λ s. s.accepts };

    ghost reads = { λ s. s.reads };

    ghost failures = { λ s. s.failures };

    ghost none = { λ s. (
      λ failed. failed,
      [],
      K.none s.sockets,
      refl,
      λ ok. turn_with_no_call_is_recorded s.moment s.recorder s.taken,
      refl,
    ) };

    ghost joined = { λ s t u a b first then. (
      λ failed. then.0 (first.0 failed),
      first.1
          ++ then.1,
      K.joined s.sockets t.sockets u.sockets first.1 then.1 first.2 then.2,
      passed_on_calls_concatenate (is_some t.fault)
          (is_some u.fault) a b first.1 then.1 then.0 first.3 then.3,
      λ ok. recorded_turns_concatenate s.moment t.moment u.moment s.recorder t.recorder u.recorder s.taken t.taken
          u.taken a b
          (first.4 (recording_had_not_failed (is_some t.fault) (is_some u.fault) then.0 ok)) (then.4 ok),
      then.5
          ∙ first.5,
    ) };

    fn accept(&mut self, n: u64) -> Result<bool, SocketCallFailed> {
        self.accepts = self.accepts.saturating_add(1);
        if !self.may_take_a_happening() {
            self.passed = true;
            return Ok(false);
        }
        match self.sockets.accept(n) {
            Ok(true) => {
                self.taken = true;
                let came = Happening::Accept(n);
                Ok(note(&mut self.recorder, &mut self.fault, self.moment, came))
            }
            Ok(false) => Ok(false),
            Err(failed) => {
                self.failures = self.failures.saturating_add(1);
                Err(failed)
            }
        }
    }

    fn read(&mut self, end: End, buf: &mut [u8]) -> Result<Received, SocketCallFailed> {
        self.reads = self.reads.saturating_add(1);
        if self.has_to_wait() {
            self.passed = true;
            return Ok(Received::Nothing);
        }
        let received = self.sockets.read(end, buf);
        match happening_of_read(end, &received, buf) {
            Some(happening) => {
                self.taken = true;
                if !note(&mut self.recorder, &mut self.fault, self.moment, happening) {
                    return Ok(Received::Nothing);
                }
            }
            None => {}
        }
        if received.is_err() {
            self.failures = self.failures.saturating_add(1);
        }
        received
    }

    fn write(
        &mut self,
        end: End,
        bytes: &[u8],
        replied: Option<&ReplyData>,
    ) -> Result<(), SocketCallFailed> {
        let written = self.sockets.write(end, bytes, replied);
        self.pass_on(written)
    }

    fn connect(&mut self, link: u64, address: SocketAddrV4) -> Result<(), SocketCallFailed> {
        let connected = self.sockets.connect(link, address);
        self.pass_on(connected)
    }

    fn shut(&mut self, end: End) -> Result<(), SocketCallFailed> {
        let shut = self.sockets.shut(end);
        self.pass_on(shut)
    }
}
