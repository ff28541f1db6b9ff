//! The first act that is due: an exchange is abandoned, else one is finished, else a request that waited is woken, else
//! a connection is served.
ghost use Rattle.std.specs.Prelude.{◌≡◌, ◌<◌, ◌≤◌, Err, IfOk, IfErr, OnErr};
ghost use Rattle.hx_fields.specs.declared.limits.TheConstants.{START_OF_YEAR_10000};
ghost use Rattle.proxy_engine.specs.EngineModel.{EngineModel};
ghost use Rattle.proxy_engine.specs.State.{EngineRepresents, work_left_of_state, FirstDueActIfAnyWasDone};
ghost use Rattle.proxy_engine.specs.State.{NoActWasDoneBecauseOf};
ghost use Rattle.proxy_engine.specs.State.{EachActLeavesLessWork};
ghost use Rattle.proxy_engine.specs.Exhausted.{LinkNumberIsLeftIfActMayForward};
ghost use Rattle.proxy_engine.specs.DueActs.{IsFirstDueActFound};

use crate::endpoints::numbers::{ConnectionPlace, LinkPlace};
use crate::engine::Engine;
use crate::work::{EngineFault, Work};
use hx_store::Shelf;
use std::alloc::{AllocError, Global};

/// The first act that is due, or that none is. Places are those of connections, or of the link that is finished.
#[derive(Clone, Copy)]
pub(crate) enum DueAct {
    /// The client at a place is gone, and its exchange is open: on this link, if its request went forward.
    Abandon(ConnectionPlace, Option<LinkPlace>),
    /// An answer or a failure stands on the link at a place.
    Finish(LinkPlace),
    /// The request of the client at a place waited, and may be judged anew.
    Wake(ConnectionPlace),
    /// The stream of the client at a place asks for something.
    Serve(ConnectionPlace),
    Nothing,
}

impl<S: Shelf> Engine<S> {
    /// The first act that is due, in the order of the variants. What the looks find is kept.
    fn first_due_act(&mut self, alloc: Global) -> Result<DueAct, AllocError>
        ensures found { IfOk result (λ act. IsFirstDueActFound self.old self.new act) }
        ensures exhausted { OnErr result ((s : EngineModel) → EngineRepresents self.old s
            → LinkNumberIsLeftIfActMayForward s self.new) }
        ensures represents { (s : EngineModel) → EngineRepresents self.old s → EngineRepresents self.new s }
        ensures load { work_left_of_state self.new ≤ work_left_of_state self.old }
    {
        if let Some((place, link)) = self.ends.connections.find_disconnected_exchange() {
            return Ok(DueAct::Abandon(place, link));
        }
        if let Some(place) = self.ends.links.find_finished_link(alloc)? {
            return Ok(DueAct::Finish(place));
        }
        if let Some(id) = self.core.first_wakeable() {
            prove!(id > 0);
            return Ok(DueAct::Wake(ConnectionPlace::of_number(id)));
        }
        match self.ends.connections.find_due(alloc)? {
            Some(place) => Ok(DueAct::Serve(place)),
            None => Ok(DueAct::Nothing),
        }
    }

    /// Does the first act that is due, and at most one step of the core. `now` is in Unix seconds, up to the end of the
    /// year 9999. After an `Err` the engine stands for the models that it stood for. Out of memory hides no `Spent`,
    /// where looks have found that an answer or a waiting request is due. A request that arrives is judged before that,
    /// which allocates.
    pub fn work(&mut self, alloc: Global, now: u64) -> Result<Work, EngineFault>
        requires { now < START_OF_YEAR_10000 }
        ensures ok { IfOk result (λ work. (s : EngineModel) → EngineRepresents self.old s
            → FirstDueActIfAnyWasDone s now work self.new) }
        ensures less { IfOk result (λ work. EachActLeavesLessWork self.old work self.new) }
        ensures fault { IfErr result (λ fault. (s : EngineModel) → EngineRepresents self.old s
            → NoActWasDoneBecauseOf s fault) }
        ensures exhausted { result ≡ Err EngineFault.OutOfMemory → (s : EngineModel) → EngineRepresents self.old s
            → LinkNumberIsLeftIfActMayForward s self.new }
        ensures unchanged { OnErr result ((s : EngineModel) → EngineRepresents self.old s
            → EngineRepresents self.new s) }
        ensures no_more { OnErr result (work_left_of_state self.new ≤ work_left_of_state self.old) }
    {
        let act = match self.first_due_act(alloc) {
            Ok(act) => act,
            Err(_) => return Err(EngineFault::OutOfMemory),
        };
        match act {
            DueAct::Abandon(place, link) => match self.abandon(alloc, place, link) {
                Ok(effects) => Ok(Work::Did(effects)),
                Err(_) => Err(EngineFault::OutOfMemory),
            },
            DueAct::Finish(place) => match self.finish(alloc, now, place) {
                Ok(effects) => Ok(Work::Did(effects)),
                Err(fault) => Err(fault),
            },
            DueAct::Wake(place) => match self.wake(alloc, now, place) {
                Ok(effects) => Ok(Work::Did(effects)),
                Err(fault) => Err(fault),
            },
            DueAct::Serve(place) => match self.serve(alloc, now, place) {
                Ok(effects) => Ok(Work::Did(effects)),
                Err(fault) => Err(fault),
            },
            DueAct::Nothing => Ok(Work::Idle),
        }
    }
}
