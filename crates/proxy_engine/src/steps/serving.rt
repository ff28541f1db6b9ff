//! What a client's stream asks for is done.
ghost use Rattle.std.specs.Prelude.{◌≡◌, ℕ, ◌+◌, ◌<◌, ◌^◌, List, length, sum_by, true, Option, None, Some};
ghost use Rattle.std.specs.Prelude.{is_some, IfOk, IfErr, OnOk, OnErr, Ok, Err, slice_index_or};
ghost use Rattle.hx_fields.specs.declared.limits.TheConstants.{START_OF_YEAR_10000};
ghost use Rattle.hx_framing.specs.declared.messages.Request.{Request};
ghost use Rattle.hx_framing.specs.declared.messages.Next.{Next};
ghost use Rattle.hx_framing.specs.declared.messages.Next.TheVariants as next;
ghost use Rattle.proxy_engine.specs.Admitted.{asked_closing_if_retired, CoreIsHandedRequest};
ghost use Rattle.hx_hop.specs.Moments.{date_text_of};
ghost use Rattle.proxy_core.specs.Abouts.{report_of_refusal_reply};
ghost use Rattle.proxy_core.specs.Replies.{refusal_reply_text};
ghost use Rattle.proxy_core.specs.State.{State as CoreState};
ghost use Rattle.proxy_engine.specs.EngineModel.{EngineModel};
ghost use Rattle.proxy_engine.specs.Due.{Serves, IsFirstDueAct};
ghost use Rattle.proxy_engine.specs.State.{EngineRepresents, engine_state_of_parts, due_request_at};
ghost use Rattle.proxy_engine.specs.State.{connection_is_open_and_idle};
ghost use Rattle.proxy_engine.specs.State.{is_retired_connection};
ghost use Rattle.proxy_engine.specs.State.{work_left_of_connection, work_left_of_state, EngineDoesAct};
ghost use Rattle.proxy_engine.specs.State.{NoActWasDoneBecauseOf};
ghost use Rattle.proxy_engine.specs.Pairing.{activities_of_connections};
ghost use Rattle.proxy_engine.specs.Actions.{IsActionForReaderAnswer};
ghost use Rattle.proxy_engine.specs.declared.endpoints.ends.Link.{Link};

use crate::endpoints::connections::Connections;
use crate::endpoints::marks;
use crate::endpoints::numbers::ConnectionPlace;
use crate::engine::Engine;
use crate::steps::actions::{Action, action_of};
use crate::steps::outcomes::{core_fault_as_alloc_error, effects_with_capacity, put, send_reply};
use crate::work::EngineFault;
use hx_fields::Bytes;
use hx_framing::write_continue;
use hx_hop::Asked;
use hx_status::{Cause, MethodAndTarget, ReplyData};
use hx_store::Shelf;
use proxy_core::{ReplyTextAndAbout, is_head, refused};
use proxy_script::Effect;
use std::alloc::{AllocError, Global};

/// The client may send the content of its request.
fn send_continue(
    connections: &mut Connections,
    alloc: Global,
    i: ConnectionPlace,
) -> Result<Vec<Effect>, AllocError>
    requires { is_some (due_request_at (slice_index_or connections.old.items i None)) ≡ true }
    ensures ok { IfOk result (λ effects. (s : EngineModel) → (links : List (Option Link)) → (core : CoreState)
        → (first now : ℕ) → due_request_at (slice_index_or connections.old.items i None) ≡ Some next.NeedsContinue
        → EngineRepresents (engine_state_of_parts connections.old.items links core first) s
        → EngineDoesAct s now (Serves i next.NeedsContinue) effects.items
        (engine_state_of_parts connections.new.items links core first)) }
    ensures less { OnOk result (due_request_at (slice_index_or connections.old.items i None) ≡ Some next.NeedsContinue
        → sum_by work_left_of_connection connections.new.items < sum_by work_left_of_connection connections.old.items) }
    ensures activities { activities_of_connections connections.new.items
        ≡ activities_of_connections connections.old.items }
    ensures err { OnErr result (connections.new ≡ connections.old) }
{
    let mut effects = effects_with_capacity(alloc)?;
    let number = connections.number_at(i);
    let bytes = write_continue(alloc)?;
    marks::use_due_answer_at(connections, i);
    put(&mut effects, Effect::Client(number, bytes, None));
    Ok(effects)
}

/// The proxy's own answer, which closes the connection.
fn proxys_own_answer(
    alloc: Global,
    now: u64,
    why: Cause,
    head: bool,
) -> Result<ReplyTextAndAbout, AllocError>
    requires { now < START_OF_YEAR_10000 }
    ensures text { IfOk result (λ sent. sent.bytes ≡ refusal_reply_text (date_text_of now) why true head) }
    ensures about { IfOk result (λ sent. sent.about ≡ report_of_refusal_reply why head) }
{
    refused(alloc, now, why, true, head)
}

/// The proxy answers this question by itself, and closes.
fn refuse(
    connections: &mut Connections,
    alloc: Global,
    now: u64,
    i: ConnectionPlace,
    why: Cause,
    head: bool,
    question: Option<MethodAndTarget>,
) -> Result<Vec<Effect>, AllocError>
    requires free { connection_is_open_and_idle (slice_index_or connections.old.items i None) ≡ true }
    requires early { now < START_OF_YEAR_10000 }
    ensures ok { IfOk result (λ effects. (s : EngineModel) → (links : List (Option Link)) → (core : CoreState)
        → (first : ℕ) → (a : Next Request) → IsActionForReaderAnswer a (Action.Refuse why head question)
        → EngineRepresents (engine_state_of_parts connections.old.items links core first) s
        → EngineDoesAct s now (Serves i a) effects.items
        (engine_state_of_parts connections.new.items links core first)) }
    ensures less { OnOk result
        (sum_by work_left_of_connection connections.new.items < sum_by work_left_of_connection connections.old.items) }
    ensures activities { activities_of_connections connections.new.items
        ≡ activities_of_connections connections.old.items }
    ensures err { OnErr result (connections.new ≡ connections.old) }
{
    let mut effects = effects_with_capacity(alloc)?;
    let own = proxys_own_answer(alloc, now, why, head)?;
    send_reply(
        connections,
        &mut effects,
        i,
        own.bytes,
        ReplyData {
            about: own.about,
            question,
        },
        true,
    );
    Ok(effects)
}

/// The connection is closed without an answer.
fn shut(
    connections: &mut Connections,
    alloc: Global,
    i: ConnectionPlace,
) -> Result<Vec<Effect>, AllocError>
    requires { connection_is_open_and_idle (slice_index_or connections.old.items i None) ≡ true }
    ensures ok { IfOk result (λ effects. (s : EngineModel) → (links : List (Option Link)) → (core : CoreState)
        → (first now : ℕ) → (a : Next Request) → IsActionForReaderAnswer a Action.Close
        → EngineRepresents (engine_state_of_parts connections.old.items links core first) s
        → EngineDoesAct s now (Serves i a) effects.items
        (engine_state_of_parts connections.new.items links core first)) }
    ensures less { OnOk result
        (sum_by work_left_of_connection connections.new.items < sum_by work_left_of_connection connections.old.items) }
    ensures activities { activities_of_connections connections.new.items
        ≡ activities_of_connections connections.old.items }
    ensures err { OnErr result (connections.new ≡ connections.old) }
{
    let mut effects = effects_with_capacity(alloc)?;
    let number = connections.number_at(i);
    marks::close_at(connections, i, true);
    put(&mut effects, Effect::Close(number));
    Ok(effects)
}

/// A request of a connection that is to end, or isn't: its answer closes one that is.
fn asked_closing_if_retired(mut asked: Asked, retired: bool) -> Asked
    ensures { result ≡ asked_closing_if_retired retired asked }
{
    asked.close = asked.close || retired;
    asked
}

impl<S: Shelf> Engine<S> {
    /// A request arrives at the core, where a link number is left for it. All that can fail comes before the core's
    /// step, or is that step.
    fn admit(
        &mut self,
        alloc: Global,
        now: u64,
        i: ConnectionPlace,
        asked: Asked,
    ) -> Result<Vec<Effect>, AllocError>
        requires due { is_some (due_request_at (slice_index_or self.old.connections i None)) ≡ true }
        requires left { self.old.first + length self.old.links < 2 ^ 64 }
        requires early { now < START_OF_YEAR_10000 }
        ensures ok { IfOk result (λ effects. (s : EngineModel) → (r : Request)
            → CoreIsHandedRequest (is_retired_connection (slice_index_or self.old.connections i None)) r asked
            → due_request_at (slice_index_or self.old.connections i None) ≡ Some (next.Message r)
            → EngineRepresents self.old s → EngineDoesAct s now (Serves i (next.Message r)) effects.items self.new) }
        ensures less { OnOk result ((r : Request) → due_request_at (slice_index_or self.old.connections i None)
            ≡ Some (next.Message r)
            → work_left_of_state self.new < work_left_of_state self.old) }
        ensures err { OnErr result (self.new ≡ self.old) }
    {
        let mut effects = effects_with_capacity(alloc)?;
        self.ends.links.reserve_place(alloc)?;
        let id = self.ends.connections.number_at(i);
        let outcome = match self.core.arrive(alloc, now, id, &asked) {
            Ok(outcome) => outcome,
            Err(fault) => return Err(core_fault_as_alloc_error(fault)),
        };
        marks::use_due_answer_at(&mut self.ends.connections, i);
        let to_head = is_head(&asked);
        let config = self.core.config();
        self.ends.carry_out(
            &mut effects,
            alloc,
            config,
            i,
            to_head,
            Some(asked),
            outcome,
        );
        Ok(effects)
    }

    /// A request arrives at the core, unless no link number is left for it. That is told before any memory is asked
    /// for.
    fn arrive(
        &mut self,
        alloc: Global,
        now: u64,
        i: ConnectionPlace,
        asked: Asked,
    ) -> Result<Vec<Effect>, EngineFault>
        requires due { is_some (due_request_at (slice_index_or self.old.connections i None)) ≡ true }
        requires early { now < START_OF_YEAR_10000 }
        ensures ok { IfOk result (λ effects. (s : EngineModel) → (r : Request)
            → CoreIsHandedRequest (is_retired_connection (slice_index_or self.old.connections i None)) r asked
            → due_request_at (slice_index_or self.old.connections i None) ≡ Some (next.Message r)
            → EngineRepresents self.old s → EngineDoesAct s now (Serves i (next.Message r)) effects.items self.new) }
        ensures less { OnOk result ((r : Request) → due_request_at (slice_index_or self.old.connections i None)
            ≡ Some (next.Message r)
            → work_left_of_state self.new < work_left_of_state self.old) }
        ensures exhausted { result ≡ Err EngineFault.OutOfMemory → self.old.first + length self.old.links < 2 ^ 64 }
        ensures fault { IfErr result (λ fault. (s : EngineModel) → (r : Request)
            → CoreIsHandedRequest (is_retired_connection (slice_index_or self.old.connections i None)) r asked
            → IsFirstDueAct s (Some (Serves i (next.Message r)))
            → EngineRepresents self.old s → NoActWasDoneBecauseOf s fault) }
        ensures err { OnErr result (self.new ≡ self.old) }
    {
        if self.ends.has_no_link_number_left() {
            return Err(EngineFault::Spent);
        }
        match self.admit(alloc, now, i, asked) {
            Ok(effects) => Ok(effects),
            Err(_) => Err(EngineFault::OutOfMemory),
        }
    }

    /// Does what is due on the connection at a place.
    pub(crate) fn serve(
        &mut self,
        alloc: Global,
        now: u64,
        i: ConnectionPlace,
    ) -> Result<Vec<Effect>, EngineFault>
        requires due { is_some (due_request_at (slice_index_or self.old.connections i None)) ≡ true }
        requires early { now < START_OF_YEAR_10000 }
        ensures ok { IfOk result (λ effects. (s : EngineModel) → (a : Next Request)
            → due_request_at (slice_index_or self.old.connections i None) ≡ Some a
            → EngineRepresents self.old s → EngineDoesAct s now (Serves i a) effects.items self.new) }
        ensures less { OnOk result (work_left_of_state self.new < work_left_of_state self.old) }
        ensures fault { IfErr result (λ fault. (s : EngineModel) → (a : Next Request)
            → due_request_at (slice_index_or self.old.connections i None) ≡ Some a → IsFirstDueAct s (Some (Serves i a))
            → EngineRepresents self.old s → NoActWasDoneBecauseOf s fault) }
        ensures err { OnErr result (self.new ≡ self.old) }
    {
        let action = match action_of(self.ends.connections.at(i), alloc) {
            Ok(action) => action,
            Err(_) => return Err(EngineFault::OutOfMemory),
        };
        match action {
            Action::Continue => match send_continue(&mut self.ends.connections, alloc, i) {
                Ok(effects) => Ok(effects),
                Err(_) => Err(EngineFault::OutOfMemory),
            },
            Action::Arrive(asked) => {
                let retired = self.ends.connections.is_retired(i);
                let asked = asked_closing_if_retired(asked, retired);
                self.arrive(alloc, now, i, asked)
            }
            Action::Refuse(why, head, question) => match refuse(
                &mut self.ends.connections,
                alloc,
                now,
                i,
                why,
                head,
                question,
            ) {
                Ok(effects) => Ok(effects),
                Err(_) => Err(EngineFault::OutOfMemory),
            },
            Action::Close => match shut(&mut self.ends.connections, alloc, i) {
                Ok(effects) => Ok(effects),
                Err(_) => Err(EngineFault::OutOfMemory),
            },
        }
    }
}
