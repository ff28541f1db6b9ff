//! What an outcome of the core does on the proxy's ends. Room is made first, so nothing here allocates.
ghost use Rattle.std.specs.Prelude.{◌≡◌, ℕ, ◌+◌, ◌<◌, ◌≤◌, ◌^◌, nat_le, ◌++◌, ◌∷◌, [], length, sum_by};
ghost use Rattle.std.specs.Prelude.{true, false, is_some, IfOk, None, Some, vec_len, vec_capacity};
ghost use Rattle.std.specs.Prelude.{slice_index_or, slice_set};
ghost use Rattle.std.specs.Option.{option_map};
ghost use Rattle.proxy_core.specs.State.{State as CoreState};
ghost use Rattle.proxy_engine.specs.ConnectionNumbers.{link_number_of_place};
ghost use Rattle.proxy_engine.specs.EngineModel.{EngineModel};
ghost use Rattle.proxy_engine.specs.Acts.{connection_with_closed, connection_with_activity, origin_address_of_line};
ghost use Rattle.proxy_engine.specs.Questions.{question_of_request};
ghost use Rattle.proxy_engine.specs.Acts.{outcome_with_origin_address, effects_of_outcome, model_after_outcome};
ghost use Rattle.proxy_engine.specs.Acts.{model_after_link_freed};
ghost use Rattle.proxy_engine.specs.Acts.{model_with_opened_link};
ghost use Rattle.proxy_engine.specs.Acts.OutcomeOnConnection.{Replies};
ghost use Rattle.proxy_engine.specs.Pairing.{activities_of_connections, owners_of_links, activities_after_outcome};
ghost use Rattle.proxy_engine.specs.Pairing.{owners_after_outcome};
ghost use Rattle.proxy_engine.specs.Actions.{outcome_needs_link, due_act_count_after_outcome};
ghost use Rattle.proxy_engine.specs.State.{EngineRepresents, engine_state_of_parts, connection_is_open_and_idle};
ghost use Rattle.proxy_engine.specs.EndChanges.{ConnectionChangesAtPlace, ConnectionsAndLinksChange};
ghost use Rattle.proxy_engine.specs.State.{is_gone_if_connection, work_left_of_connection};
ghost use Rattle.proxy_engine.specs.State.{work_left_of_link, engine_work_left};
ghost use Rattle.proxy_engine.specs.OpenEnds.{engine_state_of_ends_and_core, work_left_of_ends};

use crate::endpoints::activities::Activity;
use crate::endpoints::connections::Connections;
use crate::endpoints::ends::Link;
use crate::endpoints::links::Links;
use crate::endpoints::marks;
use crate::endpoints::numbers::{ConnectionPlace, LinkPlace};
use crate::endpoints::open_ends::Ends;
use crate::endpoints::peeked::PeekableReader;
use crate::steps::questions::question_of_asked_if_any;
use hx_allow::{RouteOverLine, Table};
use hx_fields::Bytes;
use hx_framing::ResponseReader;
use hx_hop::Asked;
use hx_status::ReplyData;
use proxy_core::{CoreFault, Outcome};
use proxy_script::Effect;
use std::alloc::{AllocError, Global};
use std::net::{Ipv4Addr, SocketAddrV4};

/// Puts an effect at the end.
pub(crate) fn put(effects: &mut Vec<Effect>, effect: Effect)
    requires { vec_len effects.old < vec_capacity effects.old }
    ensures items { effects.new.items ≡ effects.old.items ++ effect ∷ [] }
    ensures len { vec_len effects.new ≡ vec_len effects.old + 1 }
    ensures capacity { vec_capacity effects.old ≤ vec_capacity effects.new }
{
    let _ = effects.push(effect);
}

/// Room for the effects of one act.
pub(crate) fn effects_with_capacity(alloc: Global) -> Result<Vec<Effect>, AllocError>
    ensures items { IfOk result (λ v. v.items ≡ []) }
    ensures room { IfOk result (λ v. vec_len v + 3 ≤ vec_capacity v) }
{
    Vec::with_capacity(alloc, 3)
}

/// A step of the core that is refused found no memory: the engine asks for no step that another fault stands against.
pub(crate) fn core_fault_as_alloc_error(fault: CoreFault) -> AllocError
    requires { fault ≡ CoreFault.OutOfMemory }
{
    match fault {
        CoreFault::OutOfMemory => AllocError,
        CoreFault::IdTaken => unreachable!(),
        CoreFault::UnknownId => unreachable!(),
        CoreFault::MomentTooLate => unreachable!(),
        CoreFault::NotForwarded => unreachable!(),
        CoreFault::NotReady => unreachable!(),
        CoreFault::NotWaiting => unreachable!(),
    }
}

/// A reply goes to the client, with what it is and what it answers, and the connection closes after it or doesn't.
pub(crate) fn send_reply(
    connections: &mut Connections,
    effects: &mut Vec<Effect>,
    i: ConnectionPlace,
    bytes: Bytes,
    replied: ReplyData,
    close: bool,
)
    requires free { connection_is_open_and_idle (slice_index_or connections.old.items i None) ≡ true }
    requires room { vec_len effects.old + 2 ≤ vec_capacity effects.old }
    ensures effects { effects.new.items ≡ effects.old.items ++ effects_of_outcome i 0 replied.question
        (Replies bytes replied.about close) }
    ensures represents { ConnectionChangesAtPlace i connections.old.items connections.new.items
        (connection_with_closed close) }
    ensures activities { activities_of_connections connections.new.items
        ≡ activities_of_connections connections.old.items }
    ensures load { sum_by work_left_of_connection connections.new.items
        ≤ sum_by work_left_of_connection connections.old.items }
    ensures less { close ≡ true
        → sum_by work_left_of_connection connections.new.items < sum_by work_left_of_connection connections.old.items }
{
    let number = connections.number_at(i);
    marks::close_at(connections, i, close);
    put(effects, Effect::Client(number, bytes, Some(replied)));
    if close {
        put(effects, Effect::Close(number));
    }
}

/// A link is opened for the connection at a place. It answers a HEAD or not.
fn open_link(
    connections: &mut Connections,
    links: &mut Links,
    alloc: Global,
    max_body: u64,
    to_head: bool,
    i: ConnectionPlace,
)
    requires free { connection_is_open_and_idle (slice_index_or connections.old.items i None) ≡ true }
    requires room { links.old.has_room ≡ true }
    ensures represents { (s : EngineModel) → (core : CoreState) → (first : ℕ) → core.table.max_body ≡ max_body
        → first + length links.old.items < 2 ^ 64
        → EngineRepresents (engine_state_of_parts connections.old.items links.old.items core first) s
        → EngineRepresents (engine_state_of_parts connections.new.items links.new.items core first)
        (model_with_opened_link s i to_head) }
    ensures activities { activities_of_connections connections.new.items
        ≡ slice_set (activities_of_connections connections.old.items) i (Activity.Forwarded (length links.old.items)) }
    ensures owners { owners_of_links links.new.items ≡ owners_of_links links.old.items ++ Some i ∷ [] }
    ensures load { engine_work_left connections.new.items links.new.items
        ≤ engine_work_left connections.old.items links.old.items + 1 }
{
    marks::link_at(connections, i, links.next_place());
    links.put(Link {
        reader: PeekableReader::new(ResponseReader::new(alloc, max_body, to_head)),
        ended: false,
        failed: None,
        connection: i,
    });
}

/// Where the requests of a line go. Each comes by a line that has an origin.
fn origin_address(config: &Table, line: RouteOverLine) -> SocketAddrV4
    ensures { result ≡ origin_address_of_line config.now line }
{
    match config.origin_address(line.number) {
        Some(address) => address,
        None => SocketAddrV4::new(Ipv4Addr::new(0, 0, 0, 0), 0),
    }
}

/// The exchange of a link is over, and its connection goes on.
pub(crate) fn end_exchange_of_link(
    connections: &mut Connections,
    links: &mut Links,
    j: LinkPlace,
    i: ConnectionPlace,
)
    requires link { is_some (slice_index_or links.old.items j None) ≡ true }
    requires connection { is_gone_if_connection (slice_index_or connections.old.items i None) ≡ Some false }
    ensures represents { ConnectionsAndLinksChange connections.old.items links.old.items connections.new.items
        links.new.items (λ s.
        model_after_link_freed s j i) }
    ensures activities { activities_of_connections connections.new.items
        ≡ slice_set (activities_of_connections connections.old.items) i Activity.Free }
    ensures owners { owners_of_links links.new.items ≡ slice_set (owners_of_links links.old.items) j None }
    ensures load { engine_work_left connections.new.items links.new.items + work_left_of_link
        (slice_index_or links.old.items j None) ≤ engine_work_left connections.old.items links.old.items }
    ensures free { connection_is_open_and_idle (slice_index_or connections.new.items i None) ≡ true }
    ensures room { links.new.has_room ≡ links.old.has_room }
    ensures links { length links.new.items ≡ length links.old.items }
{
    links.release(j);
    marks::mark_exchange_ended_at(connections, i);
}

/// The exchange of a request that waited is over, and so is its connection, which is gone.
pub(crate) fn free_waiting_of_gone_client(connections: &mut Connections, i: ConnectionPlace)
    requires { is_gone_if_connection (slice_index_or connections.old.items i None) ≡ Some true }
    ensures represents { ConnectionChangesAtPlace i connections.old.items connections.new.items
        (connection_with_activity
        Activity.Free) }
    ensures activities { activities_of_connections connections.new.items
        ≡ slice_set (activities_of_connections connections.old.items) i Activity.Free }
    ensures load { sum_by work_left_of_connection connections.new.items
        < sum_by work_left_of_connection connections.old.items }
{
    connections.release(i);
}

/// The exchange of a link is over, and so is its connection, which is gone.
pub(crate) fn free_link_of_gone_client(
    connections: &mut Connections,
    links: &mut Links,
    j: LinkPlace,
    i: ConnectionPlace,
)
    requires link { is_some (slice_index_or links.old.items j None) ≡ true }
    requires connection { is_gone_if_connection (slice_index_or connections.old.items i None) ≡ Some true }
    ensures represents { ConnectionsAndLinksChange connections.old.items links.old.items connections.new.items
        links.new.items (λ s.
        model_after_link_freed s j i) }
    ensures activities { activities_of_connections connections.new.items
        ≡ slice_set (activities_of_connections connections.old.items) i Activity.Free }
    ensures owners { owners_of_links links.new.items ≡ slice_set (owners_of_links links.old.items) j None }
    ensures load { engine_work_left connections.new.items links.new.items < engine_work_left connections.old.items
        links.old.items }
{
    links.release(j);
    connections.release(i);
}

impl Ends {
    /// The number of the link at a place.
    pub(crate) fn number_at(&self, place: LinkPlace) -> u64
        ensures { link_number_of_place self.now.first_link place < 2 ^ 64
            → result ≡ link_number_of_place self.now.first_link place }
    {
        place.number(self.first_link)
    }

    /// Whether no link number is left.
    pub(crate) fn has_no_link_number_left(&self) -> bool
        ensures { result ≡ nat_le (2 ^ 64) (self.now.first_link + length self.now.links.items) }
    {
        self.links.len() > u64::MAX - self.first_link
    }

    /// Does what an outcome says, for the connection at a place. A reply answers this request, whose words go into its
    /// effect, and a link that is opened answers a HEAD or not.
    pub(crate) fn carry_out(
        &mut self,
        effects: &mut Vec<Effect>,
        alloc: Global,
        config: &Table,
        i: ConnectionPlace,
        to_head: bool,
        asked: Option<Asked>,
        outcome: Outcome,
    )
        requires free { connection_is_open_and_idle (slice_index_or self.old.connections.items i None) ≡ true }
        requires room_for_link { self.old.links.has_room ≡ true }
        requires room { vec_len effects.old + 2 ≤ vec_capacity effects.old }
        requires left { outcome_needs_link outcome ≡ true → self.old.first_link + length self.old.links.items < 2 ^ 64 }
        ensures effects { effects.new.items ≡ effects.old.items
            ++ effects_of_outcome i (self.old.first_link + length self.old.links.items)
            (option_map question_of_request asked)
            (outcome_with_origin_address config.now outcome) }
        ensures represents { (s : EngineModel) → (core : CoreState) → core.table.max_body ≡ config.now.max_body
            → EngineRepresents (engine_state_of_ends_and_core self.old core) s
            → EngineRepresents (engine_state_of_ends_and_core self.new core)
            (model_after_outcome i to_head (outcome_with_origin_address config.now outcome) s) }
        ensures first { self.new.first_link ≡ self.old.first_link }
        ensures activities { activities_of_connections self.new.connections.items
            ≡ activities_after_outcome i (length self.old.links.items) outcome
            (activities_of_connections self.old.connections.items) }
        ensures owners { owners_of_links self.new.links.items
            ≡ owners_after_outcome i outcome (owners_of_links self.old.links.items) }
        ensures load { work_left_of_ends self.new ≤ work_left_of_ends self.old + due_act_count_after_outcome outcome }
    {
        match outcome {
            Outcome::Reply(reply) => {
                send_reply(
                    &mut self.connections,
                    effects,
                    i,
                    reply.bytes,
                    ReplyData {
                        about: reply.about,
                        question: question_of_asked_if_any(alloc, asked),
                    },
                    reply.close,
                );
            }
            Outcome::Forward(line, bytes) => {
                let number = self.number_at(self.links.next_place());
                open_link(
                    &mut self.connections,
                    &mut self.links,
                    alloc,
                    config.max_body(),
                    to_head,
                    i,
                );
                let address = origin_address(config, line);
                put(effects, Effect::Forward(number, address, bytes));
            }
            Outcome::Waits(_) => marks::mark_waiting_at(&mut self.connections, i),
            Outcome::Ended => {}
            Outcome::WaitsNoMore => {}
        }
    }
}
