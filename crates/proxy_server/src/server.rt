//! A server: a wait, what failed or was silent since the last turn, and a turn, again and again.
ghost use Rattle.std.specs.Prelude.{◌≡◌, ◌<◌, ◌||◌, Bool, true, false, [], length, Some, IfOk, IfSome};
ghost use Rattle.std.specs.Prelude.{option_copied, option_map};
ghost use Rattle.proxy_engine.specs.Happenings.{Overdues, Retires};
ghost use Rattle.hx_allow.specs.Tables.{TableWasRead};
ghost use Rattle.hx_fields.specs.declared.limits.TheConstants.{START_OF_YEAR_10000};
ghost use Rattle.proxy_engine.specs.Beginnings.{ResponsesMayBeHeldAtStart, engine_model_at_start};
ghost use Rattle.proxy_engine.specs.EngineModel.{EngineModel};
ghost use Rattle.proxy_engine.specs.State.{EngineRepresents, new_engine_model};
ghost use Rattle.proxy_turn.specs.Served.{EngineHasServedAGoodRun, EngineContinues};
ghost use Rattle.proxy_server.specs.Losses.{EndLossOfKindIsTaken, EndLossIfAnyIsTakenOrRefused, ServerTakesEndLosses};
ghost use Rattle.proxy_log.specs.Asked.{asked_words};
ghost use Rattle.proxy_server.specs.OpenRequests.{open_request_of_end, words_of_open_request};
ghost use Rattle.proxy_server.specs.Paces.{work_left_after_turn};
ghost use Rattle.proxy_server.specs.ServerState.{may_take_an_end_loss};
ghost use Rattle.proxy_server.specs.Serving.{turn_left_no_act_due, ServeTurnResultIsTruthful, ServerServesTurn};

use crate::pace::{WorkLeftForNextTurn, milliseconds_of_duration, moment_and_milliseconds};
use crate::sockets::live_sockets::LiveSockets;
use hx_allow::Table;
use hx_fields::START_OF_YEAR_10000;
use hx_hop::Asked;
use hx_status::FailKind;
use hx_store::Shelf;
use proxy_ends::{MOST_ACCEPTED_PER_TURN, MOST_ENDS_READ_PER_TURN, MOST_OPEN_CONNECTIONS};
use proxy_engine::Engine;
use proxy_figures::TroubleCounts;
use proxy_log::{Lines, LoggedRequest, LoggedTarget};
use proxy_record::{RecordFault, RecordedSockets, Recorder};
use proxy_script::Happening;
use proxy_turn::laws::{a_reachable_engine_stays_reachable, a_turn_is_served_after_end_losses};
use proxy_turn::{
    End, PIECE, Report, TurnAcceptBounds, TurnFault, happening_of_lost_end, turn_over_given_ends,
};
use std::alloc::Global;
use std::io::{ErrorKind, Write};
use std::marker::Model;
use std::net::Net;
use std::time::Clock;

/// Ends that are looked at in a turn, at most: whether a time of theirs is over. Each that is handed in costs the
/// others some 30 microseconds.
const MOST_LOOKS: u64 = 256;

/// What is looked for between two turns.
#[derive(Clone, Copy)]
enum Sweep {
    /// Ends of which a time is over.
    Overdue,
    /// Clients that have sent their end, where links to an origin are short: their answers are given up.
    Departed,
    /// Incomplete requests, where a connection waits to be taken for which there is no room: one gives way to it.
    GiveWay,
    /// Connections that are open once no more are taken: each is to end.
    Retire,
    /// Clients between two requests, once no more connections are taken.
    LetGo,
}

/// Why a server ends.
#[derive(Clone, Copy, Debug, PartialEq, Eq)]
pub enum ServeFault {
    /// The system can't tell what is ready.
    Socket,
    /// A clock can't be read.
    Clock,
    /// What happens can't be recorded.
    Record(RecordFault),
    /// The last number of a link is used.
    Spent,
}

/// A turn that was served.
#[derive(Clone, Copy)]
pub struct ServedTurn {
    /// Its moment, in Unix seconds.
    pub moment: u64,
    /// What it told. Where it ended early, the next one does what is left.
    pub reported: Result<Report, TurnFault>,
}

/// An engine over sockets of the system. Contracts see the engine's state, and whatever the sockets do, its core's
/// steps are a good run of the requests that its clients' bytes spell. They see the record of what the engine takes,
/// too, where one is kept.
#[derive(Drop)]
pub struct Server<'a, S: Shelf + Drop, R: Net, W: Write + Drop> {
    alloc: Global,
    engine: Engine<S>,
    pub(crate) ends: RecordedSockets<LiveSockets<'a, R>, W>,
    pace: WorkLeftForNextTurn,
    /// The ends that a turn reads.
    ready: Vec<End>,
    /// What the reads of each turn go into.
    piece: [u8; PIECE],
}

impl<'a, S: Shelf + Drop, R: Net, W: Write + Drop> Model for Server<'a, S, R, W> {
    ghost use Rattle.std.specs.Prelude.{◌<◌, is_some};
    ghost use Rattle.hx_fields.specs.declared.limits.TheConstants.{START_OF_YEAR_10000};
    ghost use Rattle.proxy_turn.specs.Counts.{calls};
    ghost use Rattle.proxy_turn.specs.Served.{EngineIsReachable};
    ghost use Rattle.proxy_server.specs.ServerState.{ServerState};

    ghost Value = { ServerState };

    ghost view = { λ s. record {
      engine = s.engine;
      recorder = s.ends.recorder;
      failed = is_some s.ends.fault;
      moment = s.ends.moment;
      taken = s.ends.taken;
      settled = s.pace.settled;
      calls = calls s.ends.accepts s.ends.reads s.ends.failures;
    } };

    ghost invariant = { λ s. EngineIsReachable s.engine × (s.ends.moment < START_OF_YEAR_10000) };
}

/// The moment of a clock, in Unix seconds, and its milliseconds; 0 before 1970.
fn moment<C: Clock>(clock: &C) -> Result<(u64, u64), ServeFault>
    ensures { IfOk result (λ now. now.0 < START_OF_YEAR_10000) }
{
    match clock.since_1970() {
        Ok(now) => Ok(moment_and_milliseconds(now)),
        Err(e) if e.kind() == ErrorKind::InvalidData => Ok((0, 0)),
        Err(_) => Err(ServeFault::Clock),
    }
}

/// Milliseconds of the clock that never goes back.
fn elapsed<C: Clock>(clock: &C) -> Result<u64, ServeFault> {
    match clock.monotonic() {
        Ok(now) => Ok(milliseconds_of_duration(now)),
        Err(_) => Err(ServeFault::Clock),
    }
}

/// Whether the next turn has to wait, by what this one told and what is left to be taken: an end that
/// was passed over waits for none.
fn look_ahead<R: Net, W: Write + Drop>(
    pace: &mut WorkLeftForNextTurn,
    ends: &RecordedSockets<LiveSockets<'_, R>, W>,
    reported: Result<Report, TurnFault>,
)
    ensures { (free : Bool) × (pace.new ≡ work_left_after_turn pace.old reported (free || ends.now.passed)) }
{
    let free = ends.sockets.has_more();
    pace.note(reported, free || ends.has_skipped_a_readable_end());
}

/// What an open request asks for, as a line of the log names it.
fn logged_request(asked: Option<&Asked>) -> Option<LoggedRequest<'_>>
    ensures { option_map asked_words result ≡ option_map words_of_open_request (option_copied asked.entry) }
{
    let asked = asked?;
    Some(LoggedRequest {
        method: asked.method.as_str().as_bytes(),
        target: LoggedTarget::Uri(&asked.target.key),
    })
}

/// What the request of an end asks for that is open.
fn logged_open_request<S: Shelf + Drop>(engine: &Engine<S>, end: End) -> Option<LoggedRequest<'_>>
    ensures { (s : EngineModel) → EngineRepresents engine.now s
        → option_map asked_words result ≡ option_map words_of_open_request (open_request_of_end end s) }
{
    match end {
        End::Client(n) => logged_request(engine.asked(n)),
        _ => None,
    }
}

/// The client that a sweep finds next.
fn next_client<R: Net>(sockets: &mut LiveSockets<'_, R>, sweep: Sweep) -> Option<u64>
    ensures { sockets.new.calls ≡ sockets.old.calls }
{
    match sweep {
        Sweep::Overdue => None,
        Sweep::Departed => sockets.next_half_closed_when_crowded(),
        Sweep::GiveWay => sockets.next_to_drop_for_room(),
        Sweep::Retire => sockets.next_to_retire(),
        Sweep::LetGo => sockets.next_idle_to_close(),
    }
}

/// The end that a sweep finds next.
fn next_end<R: Net>(
    pace: &mut WorkLeftForNextTurn,
    sockets: &mut LiveSockets<'_, R>,
    sweep: Sweep,
) -> Option<End>
    ensures pace { pace.new ≡ record pace.old { sweeping = pace.new.sweeping } }
    ensures calls { sockets.new.calls ≡ sockets.old.calls }
{
    if let Sweep::Overdue = sweep {
        if pace.sweeping {
            let end = sockets.next_to_check_timeout();
            pace.sweeping = end.is_some();
            return end;
        }
    }
    let n = next_client(sockets, sweep)?;
    Some(End::Client(n))
}

impl<'a, S: Shelf + Drop, R: Net, W: Write + Drop> Server<'a, S, R, W> {
    /// A server to which nothing has happened. The shelf is empty and has the capacity of the operator's table; serials
    /// of stored responses and numbers of links begin at 1. The first turn doesn't wait.
    pub fn new(
        alloc: Global,
        config: Table,
        shelf: S,
        sockets: LiveSockets<'a, R>,
        recorder: Option<Recorder<W>>,
    ) -> Server<'a, S, R, W>
        requires empty { S.entries shelf ≡ [] }
        requires capacity { S.limit shelf ≡ config.capacity }
        ensures table { result.engine.core.table ≡ config }
        ensures read { TableWasRead result.engine.core.table }
        ensures record { result.recorder ≡ recorder }
        ensures free { (result.failed ≡ false) × (result.taken ≡ false) × (result.settled ≡ true) }
        ensures begins { EngineRepresents result.engine
            (new_engine_model (record {
              table = config;
              limit = config.capacity;
              entries = [];
              exchanges = [];
              next = Some 1;
            }) 1) }
    {
        a_reachable_engine_stays_reachable();
        config.was_read();
        Server {
            alloc,
            engine: Engine::new(alloc, config, shelf, 1, 1),
            ends: RecordedSockets::new(sockets, recorder),
            pace: WorkLeftForNextTurn {
                busy: true,
                settled: true,
                sweeping: false,
                starved: false,
            },
            ready: Vec::new(alloc),
            piece: [0; PIECE],
        }
    }

    /// The same over a shelf that holds what was read of a store: no serial twice, each below `first_serial`, from
    /// which the serials go on, and within the bounds of the table.
    pub fn with_store(
        alloc: Global,
        config: Table,
        shelf: S,
        first_serial: u64,
        sockets: LiveSockets<'a, R>,
        recorder: Option<Recorder<W>>,
    ) -> Server<'a, S, R, W>
        requires held { ResponsesMayBeHeldAtStart config (S.entries shelf) first_serial }
        requires capacity { S.limit shelf ≡ config.capacity }
        ensures table { result.engine.core.table ≡ config }
        ensures read { TableWasRead result.engine.core.table }
        ensures record { result.recorder ≡ recorder }
        ensures free { (result.failed ≡ false) × (result.taken ≡ false) × (result.settled ≡ true) }
        ensures begins { EngineRepresents result.engine
            (engine_model_at_start config (S.entries shelf) first_serial 1) }
    {
        a_reachable_engine_stays_reachable();
        config.was_read();
        let ends = RecordedSockets::new(sockets, recorder);
        Server {
            alloc,
            engine: Engine::with_store(alloc, config, shelf, first_serial, 1),
            ends,
            pace: WorkLeftForNextTurn {
                busy: true,
                settled: true,
                sweeping: false,
                starved: false,
            },
            ready: Vec::new(alloc),
            piece: [0; PIECE],
        }
    }

    /// How many requests are open: forwarded, or waiting for another's answer.
    pub fn open_requests(&self) -> usize
        ensures { result ≡ length self.now.engine.core.exchanges }
    {
        self.engine.open_exchanges()
    }

    /// Ends the server, and gives its shelf with what it holds, and the next serial if one is left: what another server
    /// may begin with, where no request is open.
    pub fn into_shelf_and_next_serial(self) -> (S, Option<u64>)
        ensures entries { S.entries result.0 ≡ self.entry.engine.core.entries }
        ensures limit { S.limit result.0 ≡ self.entry.engine.core.limit }
        ensures next { result.1 ≡ self.entry.engine.core.next }
    {
        let Server {
            alloc: _,
            engine,
            ends: _,
            pace: _,
            ready: _,
            piece: _,
        } = self;
        engine.into_shelf_and_next_serial()
    }

    /// Seconds of the clock that never goes back, at the last turn.
    pub fn second(&self) -> u64 {
        self.ends.sockets.second()
    }

    /// What the server couldn't do that was asked of it, since its start.
    pub fn troubles(&self) -> TroubleCounts {
        self.ends.sockets.troubles()
    }

    /// Whether a record has ended before the limit of a script.
    pub fn record_has_ended(&self) -> bool {
        self.ends.has_ended()
    }

    /// The lines about replies since they were last cleared, where the sockets keep a log.
    pub fn log(&self) -> Option<&Lines> {
        self.ends.sockets.log()
    }

    /// Drops the lines about replies, which were written or can't be.
    pub fn clear_log(&mut self)
        ensures { self.new ≡ self.old }
    {
        self.ends.sockets.clear_log();
    }

    /// Waits until something is ready, for a second at most, and serves a turn: what failed or was silent since the
    /// last one is taken, and then the turn.
    ///
    /// The turn is one over the server's own sockets: what they gave is what the engine took, and the bytes of its
    /// effects went to them. Where a record is kept, what was taken is recorded, and while one is written it is one
    /// thing at most.
    ///
    /// After it, also after an `Err`, what the engine had lived through has gone on by the steps of that turn and no
    /// others, and the steps of its core are a good run by its table, over a store of its capacity, with the headline.
    pub fn wait_and_serve_turn<C: Clock>(&mut self, clock: &C) -> Result<ServedTurn, ServeFault>
        ensures served { ServeTurnResultIsTruthful self.old self.new result }
        ensures goes_on { EngineContinues self.old.engine self.new.engine }
        ensures serves { EngineHasServedAGoodRun self.new.engine }
        ensures table { self.new.engine.core.table ≡ self.old.engine.core.table }
        ensures limit { self.new.engine.core.limit ≡ self.old.engine.core.limit }
    {
        a_reachable_engine_stays_reachable();
        let _before = &self.engine;
        let served = self.serve_next(clock);
        let _engine = &self.engine;
        served
    }

    /// Waits, and serves a turn.
    fn serve_next<C: Clock>(&mut self, clock: &C) -> Result<ServedTurn, ServeFault>
        ensures { ServeTurnResultIsTruthful self.old self.new result }
    {
        let waited = self.ends.sockets.wait(self.pace.busy, self.pace.starved);
        if waited.is_err() {
            return Err(ServeFault::Socket);
        }
        let Ok(elapsed) = elapsed(clock) else {
            return Err(ServeFault::Clock);
        };
        let Ok(now) = moment(clock) else {
            return Err(ServeFault::Clock);
        };
        self.serve_at(elapsed, now.0, now.1)
    }

    /// Serves a turn at so many milliseconds of the clock that never goes back, and a moment with its milliseconds.
    fn serve_at(
        &mut self,
        elapsed: u64,
        now: u64,
        milliseconds: u64,
    ) -> Result<ServedTurn, ServeFault>
        requires { now < START_OF_YEAR_10000 }
        ensures { ServeTurnResultIsTruthful self.old self.new result }
    {
        if self.ends.sockets.refresh(elapsed) {
            // What came before counts before an end is called silent, though the proxy was halted meanwhile.
            if self.ends.sockets.poll_without_waiting().is_err() {
                return Err(ServeFault::Socket);
            }
            self.pace.sweeping = true;
        }
        let moment = self.ends.begin(now, self.pace.settled);
        self.ends.sockets.set_moment(moment, now, milliseconds);
        let reported = self.turn_at(moment);
        if let Some(fault) = self.ends.fault() {
            return Err(ServeFault::Record(fault));
        }
        self.look_ahead(reported);
        match reported {
            Ok(_) => Ok(ServedTurn { moment, reported }),
            Err(TurnFault::Listener) => Ok(ServedTurn { moment, reported }),
            Err(TurnFault::NoMemory) => Ok(ServedTurn { moment, reported }),
            Err(TurnFault::Spent) => Err(ServeFault::Spent),
        }
    }

    /// Hands in what happened since the last turn, and then takes one at a moment.
    fn turn_at(&mut self, now: u64) -> Result<Report, TurnFault>
        requires early { now < START_OF_YEAR_10000 }
        requires moment { now ≡ self.old.moment }
        ensures { ServerServesTurn self.old self.new result }
    {
        a_reachable_engine_stays_reachable();
        a_turn_is_served_after_end_losses();
        self.hand_in();
        self.take_ready_ends();
        let bounds = TurnAcceptBounds {
            most_open: MOST_OPEN_CONNECTIONS,
            most_accepts: MOST_ACCEPTED_PER_TURN,
        };
        turn_over_given_ends(
            &mut self.engine,
            &mut self.ends,
            self.alloc,
            now,
            bounds,
            &mut self.ready,
            &mut self.piece,
        )
    }

    /// Takes the ends that the turn is to read. While a record is written one end gives something in a turn, and none
    /// where something is due.
    fn take_ready_ends(&mut self)
        ensures { self.new ≡ self.old }
    {
        let most = if !self.ends.is_recording() {
            MOST_ENDS_READ_PER_TURN
        } else if self.ends.may_take_a_happening() {
            1
        } else {
            0
        };
        self.ends.sockets.take_ready_ends(most, &mut self.ready);
    }

    /// Whether the next turn has to wait, by what this one told.
    fn look_ahead(&mut self, reported: Result<Report, TurnFault>)
        ensures { self.new ≡ record self.old { settled = turn_left_no_act_due reported } }
    {
        self.ends
            .sockets
            .requeue_ends_after_turn(&self.ready, reported);
        look_ahead(&mut self.pace, &self.ends, reported);
    }

    /// The engine takes that an end is lost, and that is recorded.
    fn disconnect(&mut self, end: End, kind: FailKind)
        requires { may_take_an_end_loss self.old ≡ true }
        ensures loses { EndLossOfKindIsTaken end kind self.old self.new }
        ensures on { ServerTakesEndLosses self.old self.new }
    {
        a_reachable_engine_stays_reachable();
        a_turn_is_served_after_end_losses();
        if let Some(happening) = happening_of_lost_end(end, kind) {
            let link = match end {
                End::Client(n) => self.engine.link_of_client(n),
                _ => None,
            };
            let request = logged_open_request(&self.engine, end);
            self.ends.sockets.note_lost_end(end, link, request);
            // To take this allocates nothing, and the end was there.
            if self.engine.take(self.alloc, happening).is_ok() {
                // Where that can't be recorded, the server ends after this turn.
                self.ends.record_between_turns(happening);
            }
        }
    }

    /// The engine takes that a client's connection is to end, and that is recorded.
    fn retire(&mut self, n: u64)
        requires { may_take_an_end_loss self.old ≡ true }
        ensures retires { EndLossIfAnyIsTakenOrRefused (Some (Retires n)) self.old self.new }
        ensures on { ServerTakesEndLosses self.old self.new }
    {
        a_reachable_engine_stays_reachable();
        a_turn_is_served_after_end_losses();
        // To take this allocates nothing, and the client was there.
        if self.engine.take(self.alloc, Happening::Retire(n)).is_ok() {
            self.ends.record_between_turns(Happening::Retire(n));
        }
    }

    /// The engine takes that the request of a client has waited for the answer to another as long as it is to wait, and
    /// that is recorded.
    fn overdue(&mut self, n: u64)
        requires { may_take_an_end_loss self.old ≡ true }
        ensures overdue { EndLossIfAnyIsTakenOrRefused (Some (Overdues n)) self.old self.new }
        ensures on { ServerTakesEndLosses self.old self.new }
    {
        a_reachable_engine_stays_reachable();
        a_turn_is_served_after_end_losses();
        // To take this allocates nothing, and the request waits.
        if self.engine.take(self.alloc, Happening::Overdue(n)).is_ok() {
            self.ends.record_between_turns(Happening::Overdue(n));
        }
    }

    /// A client of which no byte waits gives the room for its next ones back.
    fn release_room(&mut self, end: End)
        ensures { ServerTakesEndLosses self.old self.new }
    {
        a_reachable_engine_stays_reachable();
        a_turn_is_served_after_end_losses();
        if let End::Client(n) = end {
            self.engine.release_room(self.alloc, n);
        }
    }

    /// The ends that the last turn read keep no room: who is idle costs little, and each read goes into memory that was
    /// used just now. Whose request waits for the answer to another is looked at once that has lasted long enough.
    fn release_rooms(&mut self)
        ensures { ServerTakesEndLosses self.old self.new }
    {
        a_turn_is_served_after_end_losses();
        for _ in 0..self.ready.len() {
            let Some(end) = self.ready.pop() else {
                return;
            };
            self.release_room(end);
            let _ = self.has_waited_seconds_for_another(end);
        }
    }

    /// Hands in the ends that failed since the last turn.
    fn hand_in_lost(&mut self)
        ensures { ServerTakesEndLosses self.old self.new }
    {
        a_turn_is_served_after_end_losses();
        for _ in 0..self.ends.sockets.lost_count().min(MOST_ENDS_READ_PER_TURN) {
            if !self.ends.may_take_a_happening() {
                return;
            }
            if let Some((end, kind)) = self.ends.sockets.take_lost_end() {
                self.disconnect(end, kind);
            }
        }
    }

    /// Hands in what is lost, whose time is over, and who is to end or let go.
    fn hand_in(&mut self)
        ensures { ServerTakesEndLosses self.old self.new }
    {
        a_turn_is_served_after_end_losses();
        self.release_rooms();
        self.hand_in_lost();
        self.hand_in_found(Sweep::Overdue);
        self.hand_in_found(Sweep::Departed);
        self.hand_in_found(Sweep::GiveWay);
        self.hand_in_found(Sweep::Retire);
        self.hand_in_found(Sweep::LetGo);
    }

    /// Whether the time of an end is over.
    fn is_over(&mut self, end: End) -> bool
        ensures { self.new ≡ self.old }
    {
        let (now, limits) = (self.ends.sockets.now, self.ends.sockets.limits);
        match end {
            End::Listener => false,
            End::Link(l) => {
                self.engine.may_read(end) && self.ends.sockets.links.is_over(l, now, &limits)
            }
            End::Client(n) => {
                if self.engine.is_client_between_requests(n) {
                    self.ends.sockets.clients.is_silent(n, now)
                } else if self.engine.may_read(end) {
                    self.ends.sockets.clients.is_late_or_silent(n, now)
                } else {
                    self.ends.sockets.clients.is_half_closed_too_long(n, now)
                }
            }
        }
    }

    /// Drops the stream of an end whose time is over: the engine takes that it is lost, a link as timed out.
    fn release(&mut self, end: End)
        requires { may_take_an_end_loss self.old ≡ true }
        ensures loses { EndLossOfKindIsTaken end FailKind.TimedOut self.old self.new }
        ensures on { ServerTakesEndLosses self.old self.new }
    {
        self.ends.sockets.forget(end);
        self.disconnect(end, FailKind::TimedOut);
    }

    /// The end that a sweep finds next, if it can be handed in.
    fn next_found(&mut self, sweep: Sweep) -> Option<End>
        ensures same { self.new ≡ self.old }
        ensures may { IfSome result (λ end. may_take_an_end_loss self.old ≡ true) }
    {
        if !self.ends.may_take_a_happening() {
            return None;
        }
        next_end(&mut self.pace, &mut self.ends.sockets, sweep)
    }

    /// The origin of a link is given the seconds that the line says over which its request went forward.
    fn set_origin_timeout_seconds(&mut self, end: End)
        ensures { self.new ≡ self.old }
    {
        if let End::Link(l) = end {
            let seconds = self.engine.origin_timeout(l);
            self.ends
                .sockets
                .links
                .set_origin_timeout_seconds(l, seconds);
        }
    }

    /// Whether the request of a client has waited for the answer to another as long as the line over which it came
    /// says. One that hasn't is looked at once it has.
    fn has_waited_seconds_for_another(&mut self, end: End) -> bool
        ensures { self.new ≡ self.old }
    {
        let End::Client(n) = end else {
            return false;
        };
        match self.engine.wait_timeout(n) {
            Some(seconds) => {
                let now = self.ends.sockets.now;
                self.ends
                    .sockets
                    .clients
                    .has_waited_seconds_for_another(n, seconds, now)
            }
            None => false,
        }
    }

    /// Hands in that a client's request waits no longer, if it has waited for long enough.
    fn end_wait(&mut self, end: End)
        requires { may_take_an_end_loss self.old ≡ true }
        ensures { ServerTakesEndLosses self.old self.new }
    {
        a_turn_is_served_after_end_losses();
        if self.has_waited_seconds_for_another(end) {
            if let End::Client(n) = end {
                self.overdue(n);
            }
        }
    }

    /// Hands in an end whose time is over: a link as timed out, a client as gone, a request that waits for another's
    /// answer as overdue.
    fn look_at(&mut self, end: End)
        requires { may_take_an_end_loss self.old ≡ true }
        ensures { ServerTakesEndLosses self.old self.new }
    {
        a_turn_is_served_after_end_losses();
        self.set_origin_timeout_seconds(end);
        if self.is_over(end) {
            self.release(end);
        } else {
            self.ends.sockets.schedule_check_of_end(end);
            self.end_wait(end);
        }
    }

    /// Gives up the answer of a client that has sent its end, if it waits for one.
    fn give_up(&mut self, n: u64)
        requires { may_take_an_end_loss self.old ≡ true }
        ensures { ServerTakesEndLosses self.old self.new }
    {
        a_turn_is_served_after_end_losses();
        if self.engine.may_read(End::Client(n)) {
            self.ends.sockets.check_half_closed_later(n);
        } else {
            self.release(End::Client(n));
        }
    }

    /// Closes the connection of a client whose request isn't whole. One whose request is whole waits for its answer:
    /// that one stays.
    fn cut_incomplete(&mut self, n: u64)
        requires { may_take_an_end_loss self.old ≡ true }
        ensures { ServerTakesEndLosses self.old self.new }
    {
        a_turn_is_served_after_end_losses();
        if self.engine.may_read(End::Client(n)) {
            self.ends.sockets.drop_client_giving_way(n);
            self.disconnect(End::Client(n), FailKind::Closed);
        }
    }

    /// Lets a client go that is between two requests.
    fn let_go(&mut self, n: u64)
        requires { may_take_an_end_loss self.old ≡ true }
        ensures { ServerTakesEndLosses self.old self.new }
    {
        let now = self.ends.sockets.now;
        self.ends.sockets.clients.close(n, now);
        self.disconnect(End::Client(n), FailKind::Closed);
    }

    /// Hands in an end that a sweep has found. A link is found by its time alone.
    fn take_found(&mut self, sweep: Sweep, end: End)
        requires { may_take_an_end_loss self.old ≡ true }
        ensures { ServerTakesEndLosses self.old self.new }
    {
        let End::Client(n) = end else {
            return self.look_at(end);
        };
        match sweep {
            Sweep::Overdue => self.look_at(end),
            Sweep::Departed => self.give_up(n),
            Sweep::GiveWay => self.cut_incomplete(n),
            Sweep::Retire => self.retire(n),
            Sweep::LetGo => self.let_go(n),
        }
    }

    /// Hands in what a sweep finds.
    fn hand_in_found(&mut self, sweep: Sweep)
        ensures { ServerTakesEndLosses self.old self.new }
    {
        a_turn_is_served_after_end_losses();
        for _ in 0..MOST_LOOKS {
            let Some(end) = self.next_found(sweep) else {
                return;
            };
            self.take_found(sweep, end);
        }
    }

    /// No more connections are taken but those that wait now. The answer to the next request on each says that it
    /// closes; who is between two requests for a second is let go.
    pub fn drain(&mut self)
        ensures { self.new ≡ self.old }
    {
        self.ends.sockets.drain();
    }

    /// Whether no more connections are taken, and nobody waits for anything.
    pub fn is_drained(&self) -> bool {
        self.ends.sockets.is_draining() && self.ends.sockets.is_drained()
    }
}
