//! One step of a replay: what an item tells the engine, and what is then done and written.
ghost use Rattle.std.specs.Prelude.{◌≡◌, ◌<◌, ◌++◌, IfOk, IfErr, OnOk, Some, option_map};
ghost use Rattle.hx_fields.specs.declared.limits.TheConstants.{START_OF_YEAR_10000};
ghost use Rattle.proxy_engine.specs.Happenings.{model_of_happening};
ghost use Rattle.proxy_engine.specs.EngineModel.{EngineModel};
ghost use Rattle.proxy_engine.specs.State.{EngineRepresents};
ghost use Rattle.proxy_script.specs.Script.{model_of_item as item_said};
ghost use Rattle.proxy_replay.specs.Played.{happening_of_item, moment_after_item, DueActsStopAtFault};
ghost use Rattle.proxy_replay.specs.Steps.{EngineDidAllDueActs, ItemWasPlayedAndWritten, ItemWasNotPlayed};

use crate::bytes::put;
use crate::replay_fault::ReplayFault;
use hx_store::Shelf;
use proxy_engine::{Engine, EngineFault, Work};
use proxy_script::{Effect, Happening, Item, effects_text};
use std::alloc::{AllocError, Global};
use std::io::Write;

/// What an item says has happened.
fn happening_of_item(item: Item<'_>) -> Option<Happening<'_>>
    ensures { option_map model_of_happening result ≡ happening_of_item (item_said item.entry) }
{
    match item {
        Item::Happens(happening) => Some(happening),
        _ => None,
    }
}

/// The moment behind an item, where this one stands before it.
pub(crate) fn moment_after_item(now: u64, item: Item<'_>) -> u64
    ensures { result ≡ moment_after_item now (item_said item.entry) }
{
    match item {
        Item::At(moment) => moment,
        _ => now,
    }
}

/// Puts effects behind others.
fn join(done: &mut Vec<Effect>, effects: Vec<Effect>) -> Result<(), AllocError>
    ensures { OnOk result (done.new.items ≡ done.old.items ++ effects.items) }
{
    let mut effects = effects;
    if done.is_empty() {
        *done = effects;
        return Ok(());
    }
    done.append(&mut effects)
}

/// Does all that is due, and gives the effects in order.
fn settle<S: Shelf>(
    alloc: Global,
    engine: &mut Engine<S>,
    now: u64,
) -> Result<Vec<Effect>, EngineFault>
    requires { now < START_OF_YEAR_10000 }
    ensures ok { IfOk result (λ effects. (s : EngineModel) → EngineRepresents engine.old s
        → EngineDidAllDueActs s now effects.items engine.new) }
    ensures fault { IfErr result (λ fault. (s : EngineModel) → EngineRepresents engine.old s
        → DueActsStopAtFault s now fault) }
{
    let mut done = Vec::new(alloc);
    'acts: loop {
        match engine.work(alloc, now) {
            Ok(Work::Idle) => return Ok(done),
            Ok(Work::Did(effects)) => match join(&mut done, effects) {
                Ok(()) => {}
                Err(_) => return Err(EngineFault::OutOfMemory),
            },
            Err(fault) => return Err(fault),
        }
    }
}

/// Takes what happened, does what is then due, and writes the text of it whole.
fn write<S: Shelf, W: Write>(
    alloc: Global,
    engine: &mut Engine<S>,
    now: u64,
    happening: Happening<'_>,
    writer: &mut W,
) -> Result<(), ReplayFault>
    requires { now < START_OF_YEAR_10000 }
    ensures ok { OnOk result ((s : EngineModel) → EngineRepresents engine.old s
        → ItemWasPlayedAndWritten s now (Some (model_of_happening happening.entry)) engine.new (W.contents writer.old)
        (W.contents writer.new)) }
    ensures fault { IfErr result (λ fault. (s : EngineModel) → EngineRepresents engine.old s
        → ItemWasNotPlayed s now (Some (model_of_happening happening.entry)) fault (W.contents writer.old)
        (W.contents writer.new)) }
{
    match engine.take(alloc, happening) {
        Ok(()) => {}
        Err(fault) => return Err(ReplayFault::replay_fault_of_engine_fault(fault)),
    }
    let effects = match settle(alloc, engine, now) {
        Ok(effects) => effects,
        Err(fault) => return Err(ReplayFault::replay_fault_of_engine_fault(fault)),
    };
    let text = match effects_text(alloc, effects.as_slice()) {
        Ok(text) => text,
        Err(_) => return Err(ReplayFault::OutOfMemory),
    };
    match put(writer, text.as_slice()) {
        Ok(()) => Ok(()),
        Err(_) => Err(ReplayFault::Write),
    }
}

/// Plays an item at the moment that stands behind it.
pub(crate) fn play_item<S: Shelf, W: Write>(
    alloc: Global,
    engine: &mut Engine<S>,
    now: u64,
    item: Item<'_>,
    writer: &mut W,
) -> Result<(), ReplayFault>
    requires { now < START_OF_YEAR_10000 }
    ensures ok { OnOk result ((s : EngineModel) → EngineRepresents engine.old s
        → ItemWasPlayedAndWritten s now (happening_of_item (item_said item.entry)) engine.new (W.contents writer.old)
        (W.contents writer.new)) }
    ensures fault { IfErr result (λ fault. (s : EngineModel) → EngineRepresents engine.old s
        → ItemWasNotPlayed s now (happening_of_item (item_said item.entry)) fault (W.contents writer.old)
        (W.contents writer.new)) }
{
    match happening_of_item(item) {
        Some(happening) => write(alloc, engine, now, happening, writer),
        None => Ok(()),
    }
}
