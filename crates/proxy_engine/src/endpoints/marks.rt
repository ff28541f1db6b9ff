//! Changes of one connection. No change allocates.
ghost use Rattle.std.specs.Prelude.{◌≡◌, ℕ, ◌+◌, ◌*◌, ◌<◌, ◌≤◌, List, sum_by, true, false, Option, Some, None, is_some};
ghost use Rattle.std.specs.Prelude.{slice_index_or, slice_set};
ghost use Rattle.hx_framing.specs.declared.messages.Request.{Request};
ghost use Rattle.hx_framing.specs.declared.messages.Next.{Next};
ghost use Rattle.proxy_core.specs.State.{State as CoreState};
ghost use Rattle.proxy_engine.specs.declared.endpoints.lookahead.Lookahead.TheVariants.{Due};
ghost use Rattle.proxy_engine.specs.Lookahead.{one_if_message_or_continue};
ghost use Rattle.proxy_engine.specs.EngineModel.{EngineModel, ConnectionModel, with_changed_connection};
ghost use Rattle.proxy_engine.specs.Acts.{connection_with_closed, connection_with_activity};
ghost use Rattle.proxy_engine.specs.Acts.{connection_with_due_answer_used};
ghost use Rattle.proxy_engine.specs.Pairing.{activity_of_connection, activities_of_connections};
ghost use Rattle.proxy_engine.specs.State.{EngineRepresents, ConnectionRepresents, engine_state_of_parts};
ghost use Rattle.proxy_engine.specs.State.{due_request_at};
ghost use Rattle.proxy_engine.specs.EndChanges.{ConnectionChangesAtPlace};
ghost use Rattle.proxy_engine.specs.State.{is_gone_if_connection, connection_is_open_and_idle};
ghost use Rattle.proxy_engine.specs.State.{work_left_of_connection, work_left_of_waiting, work_left_of_due_request};
ghost use Rattle.proxy_engine.specs.declared.endpoints.ends.Link.{Link};

use crate::endpoints::activities::Activity;
use crate::endpoints::connections::Connections;
use crate::endpoints::ends::Connection;
use crate::endpoints::numbers::{ConnectionPlace, LinkPlace};

/// The connection, which isn't gone, has no open exchange any more.
fn mark_free(connection: &mut Connection)
    requires { connection.old.gone ≡ false }
    ensures represents { (c : ConnectionModel) → ConnectionRepresents (Some connection.old) c
        → ConnectionRepresents (Some connection.new) (connection_with_activity Activity.Free c) }
    ensures activity { connection.new.activity ≡ Activity.Free }
    ensures gone { connection.new.gone ≡ false }
    ensures load { work_left_of_connection (Some connection.new) + work_left_of_waiting connection.old.activity
        ≡ work_left_of_connection (Some connection.old) }
{
    connection.activity = Activity::Free;
}

/// The connection's request, which isn't gone, waits for the answer to another.
fn queue(connection: &mut Connection)
    requires { connection.old.activity ≡ Activity.Free }
    ensures represents { (c : ConnectionModel) → ConnectionRepresents (Some connection.old) c
        → ConnectionRepresents (Some connection.new) (connection_with_activity Activity.Waiting c) }
    ensures activity { connection.new.activity ≡ Activity.Waiting }
    ensures load { work_left_of_connection (Some connection.new) ≡ work_left_of_connection (Some connection.old) + 2 }
{
    connection.activity = Activity::Waiting;
}

/// The connection's request went forward on the link at a place.
fn mark_forwarded(connection: &mut Connection, place: LinkPlace)
    requires { connection.old.activity ≡ Activity.Free }
    ensures represents { (c : ConnectionModel) → ConnectionRepresents (Some connection.old) c
        → ConnectionRepresents (Some connection.new) (connection_with_activity (Activity.Forwarded place) c) }
    ensures activity { connection.new.activity ≡ Activity.Forwarded place }
    ensures load { work_left_of_connection (Some connection.new) ≡ work_left_of_connection (Some connection.old) }
{
    connection.activity = Activity::Forwarded(place);
}

/// What was due on the connection is done.
fn pass(connection: &mut Connection)
    ensures represents { (c : ConnectionModel) → (a : Next Request) → connection.old.reader.ahead ≡ Due a
        → ConnectionRepresents (Some connection.old) c → ConnectionRepresents (Some connection.new)
        (connection_with_due_answer_used a c) }
    ensures activity { connection.new.activity ≡ connection.old.activity }
    ensures gone { connection.new.gone ≡ connection.old.gone }
    ensures load { work_left_of_connection (Some connection.new)
        + 3 * one_if_message_or_continue connection.old.reader.ahead
        ≤ work_left_of_connection
        (Some connection.old) }
{
    connection.reader.pass();
}

/// What was due on the connection at a place is done.
pub(crate) fn use_due_answer_at(connections: &mut Connections, i: ConnectionPlace)
    requires { is_some (due_request_at (slice_index_or connections.old.items i None)) ≡ true }
    ensures represents { (s : EngineModel) → (a : Next Request) → (links : List (Option Link)) → (core : CoreState)
        → (first : ℕ) → due_request_at (slice_index_or connections.old.items i None) ≡ Some a
        → EngineRepresents (engine_state_of_parts connections.old.items links core first) s
        → EngineRepresents (engine_state_of_parts connections.new.items links core first)
        (with_changed_connection s i (connection_with_due_answer_used a)) }
    ensures activities { activities_of_connections connections.new.items
        ≡ activities_of_connections connections.old.items }
    ensures free { connection_is_open_and_idle (slice_index_or connections.new.items i None) ≡ true }
    ensures load { sum_by work_left_of_connection connections.new.items + 3 * work_left_of_due_request
        (due_request_at (slice_index_or connections.old.items i None))
        ≤ sum_by work_left_of_connection connections.old.items }
{
    match connections.at_mut(i) {
        Some(connection) => pass(connection),
        None => unreachable!(),
    }
}

/// The connection at a place has the link at another one.
pub(crate) fn link_at(connections: &mut Connections, i: ConnectionPlace, place: LinkPlace)
    requires { connection_is_open_and_idle (slice_index_or connections.old.items i None) ≡ true }
    ensures represents { ConnectionChangesAtPlace i connections.old.items connections.new.items
        (connection_with_activity
        (Activity.Forwarded place)) }
    ensures activities { activities_of_connections connections.new.items
        ≡ slice_set (activities_of_connections connections.old.items) i (Activity.Forwarded place) }
    ensures load { sum_by work_left_of_connection connections.new.items
        ≡ sum_by work_left_of_connection connections.old.items }
{
    match connections.at_mut(i) {
        Some(connection) => mark_forwarded(connection, place),
        None => unreachable!(),
    }
}

/// The request of the connection at a place waits for the answer to another.
pub(crate) fn mark_waiting_at(connections: &mut Connections, i: ConnectionPlace)
    requires { connection_is_open_and_idle (slice_index_or connections.old.items i None) ≡ true }
    ensures represents { ConnectionChangesAtPlace i connections.old.items connections.new.items
        (connection_with_activity
        Activity.Waiting) }
    ensures activities { activities_of_connections connections.new.items
        ≡ slice_set (activities_of_connections connections.old.items) i Activity.Waiting }
    ensures load { sum_by work_left_of_connection connections.new.items
        ≡ sum_by work_left_of_connection connections.old.items + 2 }
{
    match connections.at_mut(i) {
        Some(connection) => queue(connection),
        None => unreachable!(),
    }
}

/// The connection at a place, which isn't gone, has no open exchange any more.
pub(crate) fn mark_exchange_ended_at(connections: &mut Connections, i: ConnectionPlace)
    requires { is_gone_if_connection (slice_index_or connections.old.items i None) ≡ Some false }
    ensures represents { ConnectionChangesAtPlace i connections.old.items connections.new.items
        (connection_with_activity
        Activity.Free) }
    ensures activities { activities_of_connections connections.new.items
        ≡ slice_set (activities_of_connections connections.old.items) i Activity.Free }
    ensures free { connection_is_open_and_idle (slice_index_or connections.new.items i None) ≡ true }
    ensures load { sum_by work_left_of_connection connections.new.items + work_left_of_waiting
        (activity_of_connection (slice_index_or connections.old.items i None))
        ≡ sum_by work_left_of_connection connections.old.items }
{
    match connections.at_mut(i) {
        Some(connection) => mark_free(connection),
        None => unreachable!(),
    }
}

/// The proxy closes the connection at a place, which is over then, or leaves it as it is.
pub(crate) fn close_at(connections: &mut Connections, i: ConnectionPlace, close: bool)
    requires free { connection_is_open_and_idle (slice_index_or connections.old.items i None) ≡ true }
    ensures represents { ConnectionChangesAtPlace i connections.old.items connections.new.items
        (connection_with_closed close) }
    ensures activities { activities_of_connections connections.new.items
        ≡ activities_of_connections connections.old.items }
    ensures load { sum_by work_left_of_connection connections.new.items
        ≤ sum_by work_left_of_connection connections.old.items }
    ensures less { close ≡ true
        → sum_by work_left_of_connection connections.new.items < sum_by work_left_of_connection connections.old.items }
{
    if close {
        connections.release(i);
    }
}
