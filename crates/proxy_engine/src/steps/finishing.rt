//! An exchange ends: its origin has answered or failed, or its client is gone.
ghost use Rattle.std.specs.Prelude.{◌≡◌, ℕ, ◌+◌, ◌<◌, ◌^◌, nat_le, None, length};
ghost use Rattle.std.specs.Prelude.{true, false, Some, is_some, IfOk, IfErr, OnOk, OnErr, slice_index_or};
ghost use Rattle.hx_fields.specs.declared.limits.TheConstants.{START_OF_YEAR_10000};
ghost use Rattle.proxy_core.specs.declared.event.Event.TheVariants.{Fail};
ghost use Rattle.proxy_core.specs.State.{StepIsAccepted};
ghost use Rattle.proxy_engine.specs.EngineModel.{EngineModel};
ghost use Rattle.proxy_engine.specs.Due.{Abandons, LinkResult, Finishes, fail_kind_of_fault, IsFirstDueAct};
ghost use Rattle.proxy_engine.specs.State.{EngineRepresents, link_result_at, is_gone_if_connection};
ghost use Rattle.proxy_engine.specs.State.{NoDisconnectedClientHasExchange};
ghost use Rattle.proxy_engine.specs.State.{work_left_of_state, EngineDoesAct, NoActWasDoneBecauseOf};
ghost use Rattle.proxy_core.specs.AnsweredRequests.{request_of_exchange, request_answered};
ghost use Rattle.proxy_core.specs.Outcomes.{find_exchange};
ghost use Rattle.proxy_engine.specs.Activities.{link_place_of_activity, has_exchange};
ghost use Rattle.proxy_engine.specs.Pairing.{activity_at, activities_of_connections, is_forwarded_if_open};
ghost use Rattle.proxy_engine.specs.Acts.{request_is_head};
ghost use Rattle.proxy_engine.specs.Actions.{ExchangeIsFinishedBy, link_result_is_answer, IsFaultOfFinishingExchange};

use crate::endpoints::activities::Activity;
use crate::endpoints::ends::Link;
use crate::endpoints::numbers::{ConnectionPlace, LinkPlace};
use crate::engine::Engine;
use crate::steps::outcomes::{
    core_fault_as_alloc_error, effects_with_capacity, end_exchange_of_link,
    free_link_of_gone_client, free_waiting_of_gone_client, put,
};
use crate::work::EngineFault;
use hx_framing::{FrameFault, Next};
use hx_status::FailKind;
use hx_store::Shelf;
use proxy_core::{Core, Step, is_head};
use proxy_script::Effect;
use std::alloc::{AllocError, Global};

/// The failure that a fault in an answer is.
fn fail_kind_of_fault(fault: FrameFault) -> FailKind
    ensures { result ≡ fail_kind_of_fault fault }
{
    match fault {
        FrameFault::Truncated => FailKind::Closed,
        FrameFault::TooLarge => FailKind::TooLarge,
        _ => FailKind::BadAnswer,
    }
}

/// Whether the request of an open exchange is a HEAD.
pub(crate) fn exchange_asks_head<S: Shelf>(core: &Core<S>, id: u64) -> bool
    ensures { result ≡ request_is_head (request_of_exchange (find_exchange id core.now.exchanges)) }
{
    match core.exchange(id) {
        Some(exchange) => is_head(&exchange.asked),
        None => false,
    }
}

/// The origin failed.
fn fail<S: Shelf>(
    core: &mut Core<S>,
    alloc: Global,
    now: u64,
    id: u64,
    kind: FailKind,
) -> Result<Step, AllocError>
    requires open { is_forwarded_if_open id core.old.exchanges ≡ Some true }
    requires early { now < START_OF_YEAR_10000 }
    ensures ok { IfOk result (λ step. StepIsAccepted core.old (Fail now id kind) step.outcome core.new) }
    ensures asked { IfOk result (λ step. step.asked
        ≡ request_answered (find_exchange id core.old.exchanges) step.outcome) }
    ensures err { OnErr result (core.new ≡ core.old) }
{
    match core.fail(alloc, now, id, kind) {
        Ok(step) => Ok(step),
        Err(fault) => Err(core_fault_as_alloc_error(fault)),
    }
}

/// The core's step for what stands on a link.
fn end<S: Shelf>(
    link: &Link,
    core: &mut Core<S>,
    alloc: Global,
    now: u64,
    id: u64,
) -> Result<Step, AllocError>
    requires due { is_some (link_result_at (Some link.now)) ≡ true }
    requires open { is_forwarded_if_open id core.old.exchanges ≡ Some true }
    requires early { now < START_OF_YEAR_10000 }
    ensures ok { IfOk result (λ step. (f : LinkResult) × (link_result_at (Some link.now) ≡ Some f)
        × ExchangeIsFinishedBy core.old now id f step.outcome core.new) }
    ensures asked { IfOk result (λ step. step.asked
        ≡ request_answered (find_exchange id core.old.exchanges) step.outcome) }
    ensures err { OnErr result (core.new ≡ core.old) }
{
    match link.reader.peek() {
        Some(next) => match next {
            Next::Message(response) => match core.answer(alloc, now, id, response) {
                Ok(step) => Ok(step),
                Err(fault) => Err(core_fault_as_alloc_error(fault)),
            },
            Next::Refused(fault) => fail(core, alloc, now, id, fail_kind_of_fault(*fault)),
            Next::NeedsContinue => fail(core, alloc, now, id, FailKind::BadAnswer),
            Next::End => fail(core, alloc, now, id, FailKind::Closed),
            Next::More => unreachable!(),
        },
        None => match link.failed {
            Some(kind) => fail(core, alloc, now, id, kind),
            None => unreachable!(),
        },
    }
}

/// Whether a whole answer stands on a link. Its exchange may go forward once more, and then needs a link.
fn is_answered(link: &Link) -> bool
    requires { is_some (link_result_at (Some link.now)) ≡ true }
    ensures { (f : LinkResult) → link_result_at (Some link.now) ≡ Some f → result ≡ link_result_is_answer f }
{
    match link.reader.peek() {
        Some(next) => match next {
            Next::Message(_) => true,
            Next::Refused(_) => false,
            Next::NeedsContinue => false,
            Next::End => false,
            Next::More => false,
        },
        None => false,
    }
}

impl<S: Shelf> Engine<S> {
    /// The exchange of a connection that is gone is abandoned, and its link is dropped, if its request went forward.
    pub(crate) fn abandon(
        &mut self,
        alloc: Global,
        i: ConnectionPlace,
        link: Option<LinkPlace>,
    ) -> Result<Vec<Effect>, AllocError>
        requires open { has_exchange (activity_at (activities_of_connections self.old.connections) i) ≡ true }
        requires linked { link_place_of_activity (activity_at (activities_of_connections self.old.connections) i)
            ≡ link }
        requires gone { is_gone_if_connection (slice_index_or self.old.connections i None) ≡ Some true }
        ensures ok { IfOk result (λ effects. (s : EngineModel) → (now : ℕ) → EngineRepresents self.old s
            → EngineDoesAct s now (Abandons i link) effects.items self.new) }
        ensures less { OnOk result (work_left_of_state self.new < work_left_of_state self.old) }
        ensures err { OnErr result (self.new ≡ self.old) }
    {
        match link {
            Some(l) => self.abandon_link(alloc, i, l),
            None => self.abandon_waiting(alloc, i),
        }
    }

    /// The exchange of a connection that is gone is abandoned, whose request waits.
    fn abandon_waiting(
        &mut self,
        alloc: Global,
        i: ConnectionPlace,
    ) -> Result<Vec<Effect>, AllocError>
        requires waiting { activity_at (activities_of_connections self.old.connections) i ≡ Activity.Waiting }
        requires gone { is_gone_if_connection (slice_index_or self.old.connections i None) ≡ Some true }
        ensures ok { IfOk result (λ effects. (s : EngineModel) → (now : ℕ) → EngineRepresents self.old s
            → EngineDoesAct s now (Abandons i None) effects.items self.new) }
        ensures less { OnOk result (work_left_of_state self.new < work_left_of_state self.old) }
        ensures err { OnErr result (self.new ≡ self.old) }
    {
        let effects = effects_with_capacity(alloc)?;
        let id = self.ends.connections.number_at(i);
        match self.core.abandon(id) {
            Ok(_) => {}
            Err(fault) => return Err(core_fault_as_alloc_error(fault)),
        }
        free_waiting_of_gone_client(&mut self.ends.connections, i);
        Ok(effects)
    }

    /// The exchange of a connection that is gone is abandoned, and its link is dropped.
    fn abandon_link(
        &mut self,
        alloc: Global,
        i: ConnectionPlace,
        l: LinkPlace,
    ) -> Result<Vec<Effect>, AllocError>
        requires linked { link_place_of_activity (activity_at (activities_of_connections self.old.connections) i)
            ≡ Some l }
        requires gone { is_gone_if_connection (slice_index_or self.old.connections i None) ≡ Some true }
        ensures ok { IfOk result (λ effects. (s : EngineModel) → (now : ℕ) → EngineRepresents self.old s
            → EngineDoesAct s now (Abandons i (Some l)) effects.items self.new) }
        ensures less { OnOk result (work_left_of_state self.new < work_left_of_state self.old) }
        ensures err { OnErr result (self.new ≡ self.old) }
    {
        let mut effects = effects_with_capacity(alloc)?;
        let id = self.ends.connections.number_at(i);
        match self.core.abandon(id) {
            Ok(_) => {}
            Err(fault) => return Err(core_fault_as_alloc_error(fault)),
        }
        free_link_of_gone_client(&mut self.ends.connections, &mut self.ends.links, l, i);
        put(&mut effects, Effect::Drop(self.ends.number_at(l)));
        Ok(effects)
    }

    /// The exchange of a link is finished by what stands on it, or goes forward once more on a new one; the link is
    /// dropped. There is a number for it.
    fn complete(&mut self, alloc: Global, now: u64, j: LinkPlace) -> Result<Vec<Effect>, AllocError>
        requires due { is_some (link_result_at (slice_index_or self.old.links j None)) ≡ true }
        requires here { NoDisconnectedClientHasExchange self.old.connections }
        requires left { (f : LinkResult) → link_result_at (slice_index_or self.old.links j None) ≡ Some f
            → link_result_is_answer f ≡ true
            → self.old.first + length self.old.links < 2 ^ 64 }
        requires early { now < START_OF_YEAR_10000 }
        ensures ok { IfOk result (λ effects. (s : EngineModel) → (f : LinkResult)
            → link_result_at (slice_index_or self.old.links j None) ≡ Some f
            → EngineRepresents self.old s → EngineDoesAct s now (Finishes j f) effects.items self.new) }
        ensures less { OnOk result (work_left_of_state self.new < work_left_of_state self.old) }
        ensures err { OnErr result (self.new ≡ self.old) }
    {
        let mut effects = effects_with_capacity(alloc)?;
        self.ends.links.reserve_place(alloc)?;
        let i = self.ends.links.at(j).connection;
        let id = self.ends.connections.number_at(i);
        let to_head = exchange_asks_head(&self.core, id);
        let step = end(self.ends.links.at(j), &mut self.core, alloc, now, id)?;
        end_exchange_of_link(&mut self.ends.connections, &mut self.ends.links, j, i);
        put(&mut effects, Effect::Drop(self.ends.number_at(j)));
        let config = self.core.config();
        self.ends.carry_out(
            &mut effects,
            alloc,
            config,
            i,
            to_head,
            step.asked,
            step.outcome,
        );
        Ok(effects)
    }

    /// The exchange of a link is finished, unless it may go forward once more and no link number is left. That is told
    /// before any memory is asked for.
    pub(crate) fn finish(
        &mut self,
        alloc: Global,
        now: u64,
        j: LinkPlace,
    ) -> Result<Vec<Effect>, EngineFault>
        requires due { is_some (link_result_at (slice_index_or self.old.links j None)) ≡ true }
        requires here { NoDisconnectedClientHasExchange self.old.connections }
        requires early { now < START_OF_YEAR_10000 }
        ensures ok { IfOk result (λ effects. (s : EngineModel) → (f : LinkResult)
            → link_result_at (slice_index_or self.old.links j None) ≡ Some f
            → EngineRepresents self.old s → EngineDoesAct s now (Finishes j f) effects.items self.new) }
        ensures less { OnOk result (work_left_of_state self.new < work_left_of_state self.old) }
        ensures exhausted { IfErr result
            (λ fault. (f : LinkResult) → link_result_at (slice_index_or self.old.links j None) ≡ Some f
            → IsFaultOfFinishingExchange (nat_le (2 ^ 64) (self.old.first + length self.old.links)) f fault) }
        ensures fault { IfErr result (λ fault. (s : EngineModel) → (f : LinkResult)
            → link_result_at (slice_index_or self.old.links j None) ≡ Some f → IsFirstDueAct s (Some (Finishes j f))
            → EngineRepresents self.old s → NoActWasDoneBecauseOf s fault) }
        ensures err { OnErr result (self.new ≡ self.old) }
    {
        if self.ends.has_no_link_number_left() && is_answered(self.ends.links.at(j)) {
            return Err(EngineFault::Spent);
        }
        match self.complete(alloc, now, j) {
            Ok(effects) => Ok(effects),
            Err(_) => Err(EngineFault::OutOfMemory),
        }
    }
}
