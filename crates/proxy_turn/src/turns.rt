//! A turn, in three parts: connections are accepted, each end of a list from which bytes may come is read once, and
//! what is then due is done.
ghost use Rattle.std.specs.Prelude.{◌<◌, ◌≤◌, ◌≡◌, ◌^◌, length, filter, IfOk, IfErr};
ghost use Rattle.hx_fields.specs.declared.limits.TheConstants.{START_OF_YEAR_10000};
ghost use Rattle.proxy_engine.specs.EngineModel.{EngineModel};
ghost use Rattle.proxy_engine.specs.State.{EngineRepresents};
ghost use Rattle.proxy_engine.specs.Orderly.{ModelIsConsistent};
ghost use Rattle.proxy_engine.specs.Reading.{end_may_send};
ghost use Rattle.proxy_turn.specs.Counts.{calls};
ghost use Rattle.proxy_turn.specs.Turn.{EngineTurnsWithCalls};
ghost use Rattle.proxy_turn.specs.Parts.{EndNumberWasGiven, EndNumbersWereGiven, OneEndIsRead, OutOfMemoryBeforeRead};
ghost use Rattle.proxy_turn.specs.Parts.{DueActsAreDone};
ghost use Rattle.proxy_turn.specs.Over.{EngineTurnsOverGivenEndsWithCalls};
ghost use Rattle.proxy_turn.specs.OverParts.{ListenerIsAskedAtMostOnce, ConnectionsAreAccepted, EndsOfListAreRead};

use crate::bounds::TurnAcceptBounds;
use crate::effects::{carry_out, take};
use crate::happenings::happening_of_read;
use crate::limits::{MOST_ACTS_OF_A_TURN, MOST_CONNECTIONS_OF_A_TURN, MOST_EFFECTS_OF_AN_ACT};
use crate::report::{Report, TurnFault};
use crate::sockets::Sockets;
use hx_store::Shelf;
use proxy_engine::laws::{
    an_act_has_three_effects_at_most, effects_name_open_ends,
    ended_connections_and_links_stay_ended, readable_ends_may_send,
};
use proxy_engine::{End, Engine, Happening, Work};
use proxy_reads::PIECE;
use std::alloc::Global;

/// Asks for a connection, where fewer than `most_open` are open and a number is left; answers whether one came. Its end
/// goes behind the others.
fn accept<S: Shelf, K: Sockets>(
    engine: &mut Engine<S>,
    sockets: &mut K,
    alloc: Global,
    most_open: usize,
    ends: &mut Vec<End>,
) -> Result<bool, TurnFault>
    ensures { (s : EngineModel) → EngineRepresents engine.old s
        → ListenerIsAskedAtMostOnce most_open s ends.old.items engine.new ends.new.items
        (λ made. K.Did sockets.old made sockets.new)
        (calls (K.accepts sockets.old) (K.reads sockets.old) (K.failures sockets.old))
        (calls (K.accepts sockets.new) (K.reads sockets.new) (K.failures sockets.new)) result }
{
    if !engine.has_fewer_connections(most_open) {
        return Ok(false);
    }
    let Some(n) = engine.number_of_next_connection() else {
        return Ok(false);
    };
    // Room comes first, so no connection that came is lost.
    if ends.reserve(1).is_err() {
        return Err(TurnFault::NoMemory);
    }
    engine.reserve(alloc, End::Listener)?;
    match sockets.accept(n) {
        Ok(false) => Ok(false),
        Ok(true) => {
            take(engine, alloc, Some(Happening::Accept(n)))?;
            match ends.push(End::Client(n)) {
                Ok(()) => Ok(true),
                Err(_) => Err(TurnFault::NoMemory),
            }
        }
        Err(_) => Err(TurnFault::Listener),
    }
}

/// Asks for connections until none waits, no other may be open, or it has asked as often as it may; answers how many
/// came.
fn accept_all<S: Shelf, K: Sockets>(
    engine: &mut Engine<S>,
    sockets: &mut K,
    alloc: Global,
    bounds: TurnAcceptBounds,
    ends: &mut Vec<End>,
) -> Result<u64, TurnFault>
    ensures { (s : EngineModel) → EngineRepresents engine.old s
        → ConnectionsAreAccepted bounds s ends.old.items engine.new ends.new.items
        (λ made. K.Did sockets.old made sockets.new)
        (calls (K.accepts sockets.old) (K.reads sockets.old) (K.failures sockets.old))
        (calls (K.accepts sockets.new) (K.reads sockets.new) (K.failures sockets.new)) result }
{
    for accepted in 0..bounds.most_accepts {
        match accept(engine, sockets, alloc, bounds.most_open, ends) {
            Ok(true) => {}
            Ok(false) => return Ok(accepted),
            Err(fault) => return Err(fault),
        }
    }
    Ok(bounds.most_accepts)
}

/// Leaves of the ends those from which bytes may come.
fn keep_readable<S: Shelf>(engine: &Engine<S>, ends: &mut Vec<End>)
    ensures { (s : EngineModel) → EngineRepresents engine.now s → ends.new.items
        ≡ filter (end_may_send s) ends.old.items }
{
    ends.retain(|end| engine.may_read(*end));
}

/// Reads once from an end, and takes what it gave; answers how many calls failed. Its memory is found before the read,
/// so nothing that was read is lost.
fn read_from_end<S: Shelf, K: Sockets>(
    engine: &mut Engine<S>,
    sockets: &mut K,
    alloc: Global,
    end: End,
    buf: &mut [u8],
) -> Result<u64, TurnFault>
    requires { length buf.old ≡ 4096 }
    ensures length { length buf.new ≡ length buf.old }
    ensures few { IfOk result (λ count. count ≤ 1) }
    ensures ok { IfOk result (λ count. (s : EngineModel) → EngineRepresents engine.old s → EndNumberWasGiven s end
        → OneEndIsRead s end engine.new (λ made. K.Did sockets.old made sockets.new)
        (calls (K.accepts sockets.old) (K.reads sockets.old) (K.failures sockets.old))
        (calls (K.accepts sockets.new) (K.reads sockets.new) (K.failures sockets.new)) count) }
    ensures err { IfErr result (λ fault. (s : EngineModel) → EngineRepresents engine.old s → EndNumberWasGiven s end
        → OutOfMemoryBeforeRead s engine.new (λ made. K.Did sockets.old made sockets.new)
        (calls (K.accepts sockets.old) (K.reads sockets.old) (K.failures sockets.old))
        (calls (K.accepts sockets.new) (K.reads sockets.new) (K.failures sockets.new)) fault) }
{
    engine.reserve(alloc, end)?;
    let received = sockets.read(end, buf);
    take(engine, alloc, happening_of_read(end, &received, buf))?;
    Ok(u64::from(received.is_err()))
}

/// Reads once from each of the ends; answers how often, and how many calls failed.
fn read_all<S: Shelf, K: Sockets>(
    engine: &mut Engine<S>,
    sockets: &mut K,
    alloc: Global,
    ends: &[End],
    buf: &mut [u8],
) -> Result<(u64, u64), TurnFault>
    requires { length buf.old ≡ 4096 }
    ensures length { length buf.new ≡ length buf.old }
    ensures few { IfOk result (λ counts. counts.1 < 2 ^ 63) }
    ensures reads { (s : EngineModel) → EngineRepresents engine.old s → EndNumbersWereGiven s ends.now
        → EndsOfListAreRead s ends.now engine.new (λ made. K.Did sockets.old made sockets.new)
        (calls (K.accepts sockets.old) (K.reads sockets.old) (K.failures sockets.old))
        (calls (K.accepts sockets.new) (K.reads sockets.new) (K.failures sockets.new)) result }
{
    ended_connections_and_links_stay_ended();
    let mut faults = 0u64;
    for end in ends {
        match read_from_end(engine, sockets, alloc, *end, buf) {
            Ok(more) => faults = faults.saturating_add(more),
            Err(fault) => return Err(fault),
        }
    }
    Ok((ends.len() as u64, faults))
}

/// Works until nothing is due, or a thousand times; answers how often, and how many calls failed.
fn work_all<S: Shelf, K: Sockets>(
    engine: &mut Engine<S>,
    sockets: &mut K,
    alloc: Global,
    now: u64,
) -> Result<(u64, u64), TurnFault>
    requires { now < START_OF_YEAR_10000 }
    ensures { (s : EngineModel) → EngineRepresents engine.old s → ModelIsConsistent s
        → DueActsAreDone now s engine.new (λ made. K.Did sockets.old made sockets.new)
        (calls (K.accepts sockets.old) (K.reads sockets.old) (K.failures sockets.old))
        (calls (K.accepts sockets.new) (K.reads sockets.new) (K.failures sockets.new)) result }
{
    effects_name_open_ends();
    ended_connections_and_links_stay_ended();
    an_act_has_three_effects_at_most();
    let Ok(mut failed) = engine.failed_links(alloc) else {
        return Err(TurnFault::NoMemory);
    };
    let mut faults = 0u64;
    for works in 0..MOST_ACTS_OF_A_TURN {
        // Room comes first: what an act did has to be carried out whole.
        if failed.reserve(MOST_EFFECTS_OF_AN_ACT).is_err() {
            return Err(TurnFault::NoMemory);
        }
        match engine.work(alloc, now) {
            Ok(Work::Idle) => return Ok((works, faults)),
            Ok(Work::Did(effects)) => {
                match carry_out(engine, sockets, alloc, &effects, &mut failed) {
                    Ok(more) => faults = faults.saturating_add(more),
                    Err(fault) => return Err(fault),
                }
            }
            Err(fault) => return Err(TurnFault::from(fault)),
        }
    }
    Ok((MOST_ACTS_OF_A_TURN, faults))
}

/// Serves one turn over ends that are handed in, in any order: those, say, that are told to be ready. `now` is in Unix
/// seconds, up to the end of the year 9999. `buf` has 4,096 bytes; each read goes into it.
///
/// Connections are accepted within the bounds, and their ends go behind those that are handed in. Each of these from
/// which bytes may come is then read once, and the others are passed over; so which have nothing to say may be handed
/// in too. `ends` has those that were to be read, also after a fault.
///
/// A failed call on a client is taken as its going away, a failed `connect` as a refusal by the origin, any other on a
/// link as its closing. After a fault the engine stands where the whole takes and works of the turn left it.
///
/// What each read gave is what the engine takes, and each effect's bytes go to its end, whole, once and in order: the
/// calls on the sockets are those of the turn (`calls_of_turn_over_given_ends`), and no others.
pub fn turn_over_given_ends<S: Shelf, K: Sockets>(
    engine: &mut Engine<S>,
    sockets: &mut K,
    alloc: Global,
    now: u64,
    bounds: TurnAcceptBounds,
    ends: &mut Vec<End>,
    buf: &mut [u8],
) -> Result<Report, TurnFault>
    requires early { now < START_OF_YEAR_10000 }
    requires piece { length buf.old ≡ 4096 }
    ensures length { length buf.new ≡ length buf.old }
    ensures turns { (s : EngineModel) → EngineRepresents engine.old s → ModelIsConsistent s
        → EngineTurnsOverGivenEndsWithCalls now bounds s ends.old.items engine.new ends.new.items
        (λ made. K.Did sockets.old made sockets.new)
        (calls (K.accepts sockets.old) (K.reads sockets.old) (K.failures sockets.old))
        (calls (K.accepts sockets.new) (K.reads sockets.new) (K.failures sockets.new)) result }
{
    effects_name_open_ends();
    readable_ends_may_send();
    let asked = accept_all(engine, sockets, alloc, bounds, ends);
    keep_readable(engine, ends);
    let accepted = match asked {
        Ok(accepted) => accepted,
        Err(fault) => return Err(fault),
    };
    let (reads, unread) = match read_all(engine, sockets, alloc, ends, buf) {
        Ok(counts) => counts,
        Err(fault) => return Err(fault),
    };
    let (works, undone) = match work_all(engine, sockets, alloc, now) {
        Ok(counts) => counts,
        Err(fault) => return Err(fault),
    };
    Ok(Report {
        accepted,
        reads,
        works,
        faults: unread.saturating_add(undone),
    })
}

/// Serves one turn over each end from which bytes may come: one connection is asked for, where fewer than 256 are open.
/// `now` is in Unix seconds, up to the end of the year 9999.
///
/// The rest is as `turn_over_given_ends` says; the calls on the sockets are those of the turn (`calls_of_turn`), and no
/// others.
pub fn turn<S: Shelf, K: Sockets>(
    engine: &mut Engine<S>,
    sockets: &mut K,
    alloc: Global,
    now: u64,
) -> Result<Report, TurnFault>
    requires { now < START_OF_YEAR_10000 }
    ensures { (s : EngineModel) → EngineRepresents engine.old s → ModelIsConsistent s
        → EngineTurnsWithCalls now s engine.new (λ made. K.Did sockets.old made sockets.new)
        (calls (K.accepts sockets.old) (K.reads sockets.old) (K.failures sockets.old))
        (calls (K.accepts sockets.new) (K.reads sockets.new) (K.failures sockets.new)) result }
{
    let mut buf = [0u8; PIECE];
    turn_with_buffer(engine, sockets, alloc, now, &mut buf)
}

/// The same by a buffer of 4,096 bytes, into which each read goes. Who serves many turns clears it once.
pub fn turn_with_buffer<S: Shelf, K: Sockets>(
    engine: &mut Engine<S>,
    sockets: &mut K,
    alloc: Global,
    now: u64,
    buf: &mut [u8],
) -> Result<Report, TurnFault>
    requires early { now < START_OF_YEAR_10000 }
    requires piece { length buf.old ≡ 4096 }
    ensures length { length buf.new ≡ length buf.old }
    ensures turns { (s : EngineModel) → EngineRepresents engine.old s → ModelIsConsistent s
        → EngineTurnsWithCalls now s engine.new (λ made. K.Did sockets.old made sockets.new)
        (calls (K.accepts sockets.old) (K.reads sockets.old) (K.failures sockets.old))
        (calls (K.accepts sockets.new) (K.reads sockets.new) (K.failures sockets.new)) result }
{
    readable_ends_may_send();
    let Ok(mut ends) = engine.readable_ends(alloc) else {
        return Err(TurnFault::NoMemory);
    };
    let bounds = TurnAcceptBounds {
        most_open: MOST_CONNECTIONS_OF_A_TURN,
        most_accepts: 1,
    };
    turn_over_given_ends(engine, sockets, alloc, now, bounds, &mut ends, buf)
}
