//! A request that waited for the answer to another is judged anew.
ghost use Rattle.std.specs.Prelude.{◌≡◌, ◌+◌, ◌<◌, ◌^◌, length, Some, IfOk, IfErr, OnOk, OnErr};
ghost use Rattle.hx_fields.specs.declared.limits.TheConstants.{START_OF_YEAR_10000};
ghost use Rattle.proxy_core.specs.Waiting.{ExchangeMayBeWoken};
ghost use Rattle.proxy_engine.specs.ConnectionNumbers.{connection_number_of_place};
ghost use Rattle.proxy_engine.specs.EngineModel.{EngineModel};
ghost use Rattle.proxy_engine.specs.Due.{Wakes, IsFirstDueAct};
ghost use Rattle.proxy_engine.specs.State.{EngineRepresents, NoDisconnectedClientHasExchange, work_left_of_state};
ghost use Rattle.proxy_engine.specs.State.{EngineDoesAct};
ghost use Rattle.proxy_engine.specs.State.{NoActWasDoneBecauseOf};

use crate::endpoints::marks;
use crate::endpoints::numbers::ConnectionPlace;
use crate::engine::Engine;
use crate::steps::finishing::exchange_asks_head;
use crate::steps::outcomes::{core_fault_as_alloc_error, effects_with_capacity};
use crate::work::EngineFault;
use hx_store::Shelf;
use proxy_script::Effect;
use std::alloc::{AllocError, Global};

impl<S: Shelf> Engine<S> {
    /// The request of the connection at a place is judged anew, where a link number is left for it. All that can fail
    /// comes before the core's step, or is that step.
    fn wake_at(
        &mut self,
        alloc: Global,
        now: u64,
        i: ConnectionPlace,
    ) -> Result<Vec<Effect>, AllocError>
        requires ready { ExchangeMayBeWoken (connection_number_of_place i) self.old.core.exchanges }
        requires here { NoDisconnectedClientHasExchange self.old.connections }
        requires left { self.old.first + length self.old.links < 2 ^ 64 }
        requires early { now < START_OF_YEAR_10000 }
        ensures ok { IfOk result (λ effects. (s : EngineModel) → EngineRepresents self.old s
            → EngineDoesAct s now (Wakes i) effects.items self.new) }
        ensures less { OnOk result (work_left_of_state self.new < work_left_of_state self.old) }
        ensures err { OnErr result (self.new ≡ self.old) }
    {
        let mut effects = effects_with_capacity(alloc)?;
        self.ends.links.reserve_place(alloc)?;
        let id = self.ends.connections.number_at(i);
        let to_head = exchange_asks_head(&self.core, id);
        let step = match self.core.wake(alloc, now, id) {
            Ok(step) => step,
            Err(fault) => return Err(core_fault_as_alloc_error(fault)),
        };
        marks::mark_exchange_ended_at(&mut self.ends.connections, i);
        let config = self.core.config();
        self.ends.carry_out(
            &mut effects,
            alloc,
            config,
            i,
            to_head,
            step.asked,
            step.outcome,
        );
        Ok(effects)
    }

    /// The request of the connection at a place is judged anew, unless no link number is left for it. That is told
    /// before any memory is asked for.
    pub(crate) fn wake(
        &mut self,
        alloc: Global,
        now: u64,
        i: ConnectionPlace,
    ) -> Result<Vec<Effect>, EngineFault>
        requires ready { ExchangeMayBeWoken (connection_number_of_place i) self.old.core.exchanges }
        requires here { NoDisconnectedClientHasExchange self.old.connections }
        requires early { now < START_OF_YEAR_10000 }
        ensures ok { IfOk result (λ effects. (s : EngineModel) → EngineRepresents self.old s
            → EngineDoesAct s now (Wakes i) effects.items self.new) }
        ensures less { OnOk result (work_left_of_state self.new < work_left_of_state self.old) }
        ensures exhausted { result ≡ Err EngineFault.OutOfMemory → self.old.first + length self.old.links < 2 ^ 64 }
        ensures fault { IfErr result (λ fault. (s : EngineModel) → IsFirstDueAct s (Some (Wakes i))
            → EngineRepresents self.old s → NoActWasDoneBecauseOf s fault) }
        ensures err { OnErr result (self.new ≡ self.old) }
    {
        if self.ends.has_no_link_number_left() {
            return Err(EngineFault::Spent);
        }
        match self.wake_at(alloc, now, i) {
            Ok(effects) => Ok(effects),
            Err(_) => Err(EngineFault::OutOfMemory),
        }
    }
}
