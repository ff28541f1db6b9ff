//! The socket calls of an act's effects. No call is made on an end on which one has failed.

ghost use Rattle.std.specs.Prelude.{◌≡◌, ◌<◌, ◌≤◌, ◌+◌, ◌⊎◌, length, map, option_map, IfOk, IfErr, OnOk, OnErr};
ghost use Rattle.std.specs.Prelude.{vec_len, vec_capacity};
ghost use Rattle.hx_status.specs.declared.cause.FailKind.TheVariants.{Refused, Closed};
ghost use Rattle.proxy_script.specs.declared.effect_list.Effect.TheVariants.{Forward};
ghost use Rattle.proxy_engine.specs.Happenings.{model_of_happening};
ghost use Rattle.proxy_engine.specs.EngineModel.{EngineModel};
ghost use Rattle.proxy_engine.specs.State.{EngineRepresents};
ghost use Rattle.proxy_turn.specs.Counts.{CountRisesBy, calls, failed};
ghost use Rattle.proxy_turn.specs.Turn.{end_of_effect, end_has_failed, FailedEffectHasFailKind, calls_of_effect};
ghost use Rattle.proxy_turn.specs.Parts.{HappeningIfAnyWasTaken, HappeningCanBeTaken, HappeningIfAnyFindsMemory};
ghost use Rattle.proxy_turn.specs.Parts.{EndNumberWasGiven, EndNumbersWereGiven, fate_of_effect_result};
ghost use Rattle.proxy_turn.specs.Parts.{EffectWasHandled};
ghost use Rattle.proxy_turn.specs.Parts.{EffectsWereHandled};

use crate::happenings::happening_of_lost_end;
use crate::report::TurnFault;
use crate::sockets::Sockets;
use hx_status::FailKind;
use hx_store::Shelf;
use proxy_engine::laws::ended_connections_and_links_stay_ended;
use proxy_engine::{End, Engine, Happening};
use proxy_script::Effect;
use std::alloc::Global;
use std::net::SocketAddrV4;

/// Takes what happened, if anything did.
pub(crate) fn take<S: Shelf>(
    engine: &mut Engine<S>,
    alloc: Global,
    happening: Option<Happening<'_>>,
) -> Result<(), TurnFault>
    ensures ok { OnOk result ((s : EngineModel) → EngineRepresents engine.old s
        → HappeningIfAnyWasTaken s (option_map model_of_happening happening.entry) engine.new) }
    ensures never { OnErr result ((s : EngineModel) → EngineRepresents engine.old s
        → HappeningCanBeTaken s (option_map model_of_happening happening.entry) → HappeningIfAnyFindsMemory engine.old
        (option_map model_of_happening happening.entry) → ⊥) }
{
    if let Some(happening) = happening {
        engine.take(alloc, happening)?;
    }
    Ok(())
}

/// The end that an effect speaks of.
fn end_of_effect(effect: &Effect) -> End
    ensures { result ≡ end_of_effect effect.now }
{
    match effect {
        Effect::Client(n, _, _) => End::Client(*n),
        Effect::Forward(l, _, _) => End::Link(*l),
        Effect::Close(n) => End::Client(*n),
        Effect::Drop(l) => End::Link(*l),
    }
}

/// Whether a call on that end has failed.
fn end_has_failed(failed: &[End], end: End) -> bool
    ensures { result ≡ end_has_failed failed.now end }
{
    failed.contains(&end)
}

/// Opens a link and writes its request.
fn open<K: Sockets>(
    sockets: &mut K,
    link: u64,
    address: SocketAddrV4,
    bytes: &[u8],
) -> Result<(), FailKind>
    ensures did { K.Did sockets.old (calls_of_effect (Forward link address bytes.now)
        (fate_of_effect_result result)) sockets.new }
    ensures kinds { IfErr result (λ kind. (kind ≡ Refused) ⊎ (kind ≡ Closed)) }
    ensures accepts { K.accepts sockets.new ≡ K.accepts sockets.old }
    ensures reads { K.reads sockets.new ≡ K.reads sockets.old }
    ensures failures { CountRisesBy (K.failures sockets.old) (K.failures sockets.new) (failed result) }
{
    if sockets.connect(link, address).is_err() {
        return Err(FailKind::Refused);
    }
    if sockets.write(End::Link(link), bytes, None).is_err() {
        return Err(FailKind::Closed);
    }
    Ok(())
}

/// Makes the calls of an effect. The error says as what a failed call on a link counts.
fn call<K: Sockets>(sockets: &mut K, effect: &Effect) -> Result<(), FailKind>
    ensures did { K.Did sockets.old (calls_of_effect effect.now (fate_of_effect_result result)) sockets.new }
    ensures kinds { IfErr result (FailedEffectHasFailKind effect.now) }
    ensures accepts { K.accepts sockets.new ≡ K.accepts sockets.old }
    ensures reads { K.reads sockets.new ≡ K.reads sockets.old }
    ensures failures { CountRisesBy (K.failures sockets.old) (K.failures sockets.new) (failed result) }
{
    let done = match effect {
        Effect::Client(n, bytes, replied) => {
            sockets.write(End::Client(*n), bytes.as_slice(), replied.as_ref())
        }
        Effect::Forward(l, address, bytes) => {
            return open(sockets, *l, *address, bytes.as_slice());
        }
        Effect::Close(n) => sockets.shut(End::Client(*n)),
        Effect::Drop(l) => sockets.shut(End::Link(*l)),
    };
    match done {
        Ok(()) => Ok(()),
        Err(_) => Err(FailKind::Closed),
    }
}

/// Carries out an effect, unless a call on its end has failed; answers how many calls failed. Where there is room for
/// one more end in `failed`, nothing is allocated.
fn carry_out_effect<S: Shelf, K: Sockets>(
    engine: &mut Engine<S>,
    sockets: &mut K,
    alloc: Global,
    effect: &Effect,
    failed: &mut Vec<End>,
) -> Result<u64, TurnFault>
    ensures ok { IfOk result (λ count. (s : EngineModel) → EngineRepresents engine.old s → EndNumberWasGiven s
        (end_of_effect effect.now)
        → EffectWasHandled s failed.old.items effect.now engine.new failed.new.items
        (λ made. K.Did sockets.old made sockets.new)
        (calls (K.accepts sockets.old) (K.reads sockets.old) (K.failures sockets.old))
        (calls (K.accepts sockets.new) (K.reads sockets.new) (K.failures sockets.new)) count) }
    ensures never { OnErr result (vec_len failed.old < vec_capacity failed.old → (s : EngineModel)
        → EngineRepresents engine.old s → EndNumberWasGiven s (end_of_effect effect.now) → ⊥) }
    ensures room { vec_capacity failed.old ≤ vec_capacity failed.new }
    ensures one { vec_len failed.new ≤ vec_len failed.old + 1 }
    ensures few { IfOk result (λ count. count ≤ 1) }
{
    let end = end_of_effect(effect);
    if end_has_failed(failed, end) {
        return Ok(0);
    }
    let Err(kind) = call(sockets, effect) else {
        return Ok(0);
    };
    take(engine, alloc, happening_of_lost_end(end, kind))?;
    match failed.push(end) {
        Ok(()) => Ok(1),
        Err(_) => Err(TurnFault::NoMemory),
    }
}

/// Carries out the effects of an act, in order; answers how many calls failed. Where there is room in `failed` for
/// their ends, nothing is allocated.
pub(crate) fn carry_out<S: Shelf, K: Sockets>(
    engine: &mut Engine<S>,
    sockets: &mut K,
    alloc: Global,
    effects: &[Effect],
    failed: &mut Vec<End>,
) -> Result<u64, TurnFault>
    ensures ok { IfOk result (λ count. (s : EngineModel) → EngineRepresents engine.old s → EndNumbersWereGiven s
        (map end_of_effect effects.now)
        → EffectsWereHandled s failed.old.items effects.now engine.new failed.new.items
        (λ made. K.Did sockets.old made sockets.new)
        (calls (K.accepts sockets.old) (K.reads sockets.old) (K.failures sockets.old))
        (calls (K.accepts sockets.new) (K.reads sockets.new) (K.failures sockets.new)) count) }
    ensures never { OnErr result (vec_len failed.old + length effects.now ≤ vec_capacity failed.old → (s : EngineModel)
        → EngineRepresents engine.old s → EndNumbersWereGiven s (map end_of_effect effects.now) → ⊥) }
    ensures few { IfOk result (λ count. count ≤ length effects.now) }
{
    ended_connections_and_links_stay_ended();
    let mut faults = 0u64;
    for effect in effects {
        let more = carry_out_effect(engine, sockets, alloc, effect, failed)?;
        faults = faults.saturating_add(more);
    }
    Ok(faults)
}
