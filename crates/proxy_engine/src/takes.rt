//! Taking what happened. Each refusal changes nothing.
ghost use Rattle.std.specs.Prelude.{◌≡◌, ◌≢◌, ℕ, ◌+◌, ◌-◌, ◌<◌, ◌≤◌, ◌&&◌, ◌||◌, nat_lt, nat_le, ◌==◌, ◌++◌, ◌∷◌, []};
ghost use Rattle.std.specs.Prelude.{List, length, true, false, is_some, IsOk, IfErr, OnOk};
ghost use Rattle.std.specs.Prelude.{OnErr, Option, Some, None, Err, MatchOption, slice_index_or};
ghost use Rattle.proxy_core.specs.State.{State as CoreState};
ghost use Rattle.proxy_engine.specs.ConnectionNumbers.{connection_number_of_place, place_of_connection_number};
ghost use Rattle.proxy_engine.specs.ConnectionNumbers.{link_place};
ghost use Rattle.proxy_engine.specs.Happenings.{Accepts, Sends, Hears, Ends, Leaves, Retires, Overdues, Shuts, Fails};
ghost use Rattle.proxy_engine.specs.EngineModel.{EngineModel, ConnectionModel, LinkModel, connection_after_bytes};
ghost use Rattle.proxy_engine.specs.EngineModel.{connection_after_end, connection_after_disconnect};
ghost use Rattle.proxy_engine.specs.EngineModel.{connection_after_retirement, link_after_bytes};
ghost use Rattle.proxy_engine.specs.EngineModel.{link_after_end, link_after_its_failure};
ghost use Rattle.proxy_engine.specs.Activities.{has_exchange};
ghost use Rattle.proxy_engine.specs.Pairing.{activities_of_connections, owners_of_links};
ghost use Rattle.proxy_engine.specs.Room.{ConnectionReaderHasRoomFor, LinkReaderHasRoomFor};
ghost use Rattle.proxy_engine.specs.State.{EngineRepresents, ConnectionRepresents, LinkRepresents};
ghost use Rattle.proxy_engine.specs.State.{engine_state_of_parts};
ghost use Rattle.proxy_engine.specs.State.{EngineTakesHappening};
ghost use Rattle.proxy_engine.specs.EndChanges.{ConnectionsTakeHappening, ConnectionsRefuseHappening};
ghost use Rattle.proxy_engine.specs.EndChanges.{HappeningAddsToConnections};
ghost use Rattle.proxy_engine.specs.EndChanges.{LinksTakeHappening, LinksRefuseHappening, HappeningAddsBytesToLinks};

use crate::endpoints::activities::Activity;
use crate::endpoints::connections::Connections;
use crate::endpoints::ends::{Connection, Link};
use crate::endpoints::links::Links;
use crate::endpoints::numbers::{ConnectionPlace, LinkPlace};
use crate::endpoints::peeked::PeekableReader;
use crate::work::EngineFault;
use hx_framing::RequestReader;
use hx_status::FailKind;
use std::alloc::{AllocError, Global};

/// Where the connection of this number stands.
fn find_connection(connections: &Connections, n: u64) -> Option<ConnectionPlace>
    ensures { MatchOption result (nat_lt 0 n && nat_le n (length connections.now.items) ≡ false)
        (λ i. (nat_lt 0 n && nat_le n (length connections.now.items) ≡ true) × (i ≡ place_of_connection_number n)
        × (i < length connections.now.items)) }
{
    if 0 < n && n <= connections.len() {
        Some(ConnectionPlace::of_number(n))
    } else {
        None
    }
}

/// Where the link of this number stands.
fn find_link(links: &Links, first: u64, l: u64) -> Option<LinkPlace>
    ensures { MatchOption result (nat_le first l && nat_lt (link_place first l) (length links.now.items) ≡ false)
        (λ j. (nat_le first l && nat_lt (link_place first l) (length links.now.items) ≡ true)
        × (j ≡ link_place first l) × (j < length links.now.items)) }
{
    let place = LinkPlace::of_number(l, first);
    if first <= l && place.key() < links.len() {
        Some(place)
    } else {
        None
    }
}

fn feed_connection(connection: &mut Connection, bytes: &[u8]) -> Result<(), AllocError>
    ensures represents { OnOk result ((s : ConnectionModel) → ConnectionRepresents (Some connection.old) s
        → ConnectionRepresents (Some connection.new) (connection_after_bytes bytes.now s)) }
    ensures err { OnErr result (connection.new ≡ connection.old) }
    ensures kept { OnErr result (connection.old.gone || connection.old.ended ≡ false) }
    ensures reserved { length bytes.now ≤ connection.old.reader.inner.spare → IsOk result }
    ensures activity { connection.new.activity ≡ connection.old.activity }
{
    if connection.gone || connection.ended {
        return Ok(());
    }
    connection.reader.inner.feed(bytes)?;
    connection.reader.forget_quiet_lookahead();
    Ok(())
}

fn feed_link(link: &mut Link, bytes: &[u8]) -> Result<(), AllocError>
    ensures represents { OnOk result ((s : LinkModel) → LinkRepresents (Some link.old) s
        → LinkRepresents (Some link.new) (link_after_bytes bytes.now s)) }
    ensures err { OnErr result (link.new ≡ link.old) }
    ensures kept { OnErr result (is_some link.old.failed || link.old.ended ≡ false) }
    ensures reserved { length bytes.now ≤ link.old.reader.inner.spare → IsOk result }
    ensures connection { link.new.connection ≡ link.old.connection }
{
    if link.failed.is_some() || link.ended {
        return Ok(());
    }
    link.reader.inner.feed(bytes)?;
    link.reader.forget_quiet_lookahead();
    Ok(())
}

fn end(connection: &mut Connection)
    ensures represents { (s : ConnectionModel) → ConnectionRepresents (Some connection.old) s
        → ConnectionRepresents (Some connection.new) (connection_after_end s) }
    ensures activity { connection.new.activity ≡ connection.old.activity }
{
    if !connection.gone {
        connection.reader.inner.finish();
        connection.reader.forget_quiet_lookahead();
        connection.ended = true;
    }
}

/// A client with an open exchange goes away.
fn disconnect(connection: &mut Connection)
    ensures represents { has_exchange connection.old.activity ≡ true → (s : ConnectionModel)
        → ConnectionRepresents (Some connection.old) s → ConnectionRepresents (Some connection.new)
        (connection_after_disconnect s) }
    ensures activity { connection.new.activity ≡ connection.old.activity }
{
    connection.gone = true;
}

/// The answer to the connection's next request closes it.
fn retire(connection: &mut Connection)
    ensures represents { (s : ConnectionModel) → ConnectionRepresents (Some connection.old) s
        → ConnectionRepresents (Some connection.new) (connection_after_retirement s) }
    ensures activity { connection.new.activity ≡ connection.old.activity }
{
    connection.retired = true;
}

fn close_link(link: &mut Link)
    ensures represents { (s : LinkModel) → LinkRepresents (Some link.old) s → LinkRepresents (Some link.new)
        (link_after_end s) }
    ensures connection { link.new.connection ≡ link.old.connection }
{
    if link.failed.is_none() {
        link.reader.inner.finish();
        link.reader.forget_quiet_lookahead();
        link.ended = true;
    }
}

fn fail_link(link: &mut Link, kind: FailKind)
    ensures represents { (s : LinkModel) → LinkRepresents (Some link.old) s
        → LinkRepresents (Some link.new) (link_after_its_failure kind s) }
    ensures connection { link.new.connection ≡ link.old.connection }
{
    if link.failed.is_none() {
        link.failed = Some(kind);
    }
}

/// Whether that is the next number.
fn is_next(connections: &Connections, n: u64) -> bool
    ensures { result ≡ (n == connection_number_of_place (length connections.now.items)) }
{
    n != 0 && ConnectionPlace::of_number(n).key() == connections.len()
}

pub(crate) fn accept(
    connections: &mut Connections,
    alloc: Global,
    max_body: u64,
    n: u64,
) -> Result<(), EngineFault>
    ensures ok { OnOk result ((s : EngineModel) → (links : List (Option Link)) → (core : CoreState) → (first : ℕ)
        → core.table.max_body ≡ max_body
        → EngineRepresents (engine_state_of_parts connections.old.items links core first) s
        → EngineTakesHappening s (Accepts n) (engine_state_of_parts connections.new.items links core first)) }
    ensures fault { IfErr result (ConnectionsRefuseHappening connections.old.items (Accepts n)) }
    ensures activities { OnOk result
        (activities_of_connections connections.new.items ≡ activities_of_connections connections.old.items
        ++ Activity.Free ∷ []) }
    ensures reserved { connections.old.has_room ≡ true → result ≢ Err EngineFault.OutOfMemory }
    ensures err { OnErr result (connections.new ≡ connections.old) }
{
    if !is_next(connections, n) {
        return Err(EngineFault::WrongNumber);
    }
    let reader = PeekableReader::new(RequestReader::new(alloc, max_body));
    let connection = Connection {
        reader,
        ended: false,
        gone: false,
        retired: false,
        activity: Activity::Free,
    };
    match connections.accept(alloc, connection) {
        Ok(()) => Ok(()),
        Err(_) => Err(EngineFault::OutOfMemory),
    }
}

pub(crate) fn take_client_bytes(
    connections: &mut Connections,
    n: u64,
    bytes: &[u8],
) -> Result<(), EngineFault>
    ensures ok { OnOk result
        (ConnectionsTakeHappening connections.old.items connections.new.items (Sends n bytes.now)) }
    ensures fault { IfErr result (ConnectionsRefuseHappening connections.old.items (Sends n bytes.now)) }
    ensures kept { result ≡ Err EngineFault.OutOfMemory
        → HappeningAddsToConnections connections.old.items (Sends n bytes.now) }
    ensures reserved { ConnectionReaderHasRoomFor
        (slice_index_or connections.old.items (place_of_connection_number n) None)
        (length bytes.now)
        → result ≢ Err EngineFault.OutOfMemory }
    ensures activities { activities_of_connections connections.new.items
        ≡ activities_of_connections connections.old.items }
    ensures err { OnErr result (connections.new ≡ connections.old) }
{
    let Some(i) = find_connection(connections, n) else {
        return Err(EngineFault::NotAccepted);
    };
    let Some(connection) = connections.at_mut(i) else {
        return Ok(());
    };
    match feed_connection(connection, bytes) {
        Ok(()) => Ok(()),
        Err(_) => Err(EngineFault::OutOfMemory),
    }
}

pub(crate) fn note_end_of_client_input(
    connections: &mut Connections,
    n: u64,
) -> Result<(), EngineFault>
    ensures ok { OnOk result (ConnectionsTakeHappening connections.old.items connections.new.items (Ends n)) }
    ensures fault { IfErr result (ConnectionsRefuseHappening connections.old.items (Ends n)) }
    ensures memory { IfErr result (λ e. e ≡ EngineFault.NotAccepted) }
    ensures activities { activities_of_connections connections.new.items
        ≡ activities_of_connections connections.old.items }
    ensures err { OnErr result (connections.new ≡ connections.old) }
{
    let Some(i) = find_connection(connections, n) else {
        return Err(EngineFault::NotAccepted);
    };
    if let Some(connection) = connections.at_mut(i) {
        end(connection);
    }
    Ok(())
}

pub(crate) fn note_client_left(connections: &mut Connections, n: u64) -> Result<(), EngineFault>
    ensures ok { OnOk result (ConnectionsTakeHappening connections.old.items connections.new.items (Leaves n)) }
    ensures fault { IfErr result (ConnectionsRefuseHappening connections.old.items (Leaves n)) }
    ensures memory { IfErr result (λ e. e ≡ EngineFault.NotAccepted) }
    ensures activities { activities_of_connections connections.new.items
        ≡ activities_of_connections connections.old.items }
    ensures err { OnErr result (connections.new ≡ connections.old) }
{
    let Some(i) = find_connection(connections, n) else {
        return Err(EngineFault::NotAccepted);
    };
    if !connections.has_exchange(i) {
        connections.release(i);
    } else if let Some(connection) = connections.at_mut(i) {
        disconnect(connection);
    }
    Ok(())
}

pub(crate) fn retire_client(connections: &mut Connections, n: u64) -> Result<(), EngineFault>
    ensures ok { OnOk result (ConnectionsTakeHappening connections.old.items connections.new.items (Retires n)) }
    ensures fault { IfErr result (ConnectionsRefuseHappening connections.old.items (Retires n)) }
    ensures memory { IfErr result (λ e. e ≡ EngineFault.NotAccepted) }
    ensures activities { activities_of_connections connections.new.items
        ≡ activities_of_connections connections.old.items }
    ensures err { OnErr result (connections.new ≡ connections.old) }
{
    let Some(i) = find_connection(connections, n) else {
        return Err(EngineFault::NotAccepted);
    };
    if let Some(connection) = connections.at_mut(i) {
        retire(connection);
    }
    Ok(())
}

pub(crate) fn take_link_bytes(
    links: &mut Links,
    first: u64,
    l: u64,
    bytes: &[u8],
) -> Result<(), EngineFault>
    ensures ok { OnOk result (LinksTakeHappening first links.old.items links.new.items (Hears l bytes.now)) }
    ensures fault { IfErr result (LinksRefuseHappening first links.old.items (Hears l bytes.now)) }
    ensures kept { result ≡ Err EngineFault.OutOfMemory
        → HappeningAddsBytesToLinks first links.old.items (Hears l bytes.now) }
    ensures reserved { LinkReaderHasRoomFor (slice_index_or links.old.items (link_place first l) None)
        (length bytes.now)
        → result ≢ Err EngineFault.OutOfMemory }
    ensures owners { owners_of_links links.new.items ≡ owners_of_links links.old.items }
    ensures err { OnErr result (links.new.items ≡ links.old.items) }
{
    let Some(j) = find_link(links, first, l) else {
        return Err(EngineFault::WrongNumber);
    };
    let Some(link) = links.at_mut(j) else {
        return Ok(());
    };
    match feed_link(link, bytes) {
        Ok(()) => Ok(()),
        Err(_) => Err(EngineFault::OutOfMemory),
    }
}

pub(crate) fn note_end_of_link_input(
    links: &mut Links,
    first: u64,
    l: u64,
) -> Result<(), EngineFault>
    ensures ok { OnOk result (LinksTakeHappening first links.old.items links.new.items (Shuts l)) }
    ensures fault { IfErr result (LinksRefuseHappening first links.old.items (Shuts l)) }
    ensures memory { IfErr result (λ e. e ≡ EngineFault.WrongNumber) }
    ensures owners { owners_of_links links.new.items ≡ owners_of_links links.old.items }
    ensures err { OnErr result (links.new.items ≡ links.old.items) }
{
    let Some(j) = find_link(links, first, l) else {
        return Err(EngineFault::WrongNumber);
    };
    if let Some(link) = links.at_mut(j) {
        close_link(link);
    }
    Ok(())
}

pub(crate) fn note_link_failure(
    links: &mut Links,
    first: u64,
    l: u64,
    kind: FailKind,
) -> Result<(), EngineFault>
    ensures ok { OnOk result (LinksTakeHappening first links.old.items links.new.items (Fails l kind)) }
    ensures fault { IfErr result (LinksRefuseHappening first links.old.items (Fails l kind)) }
    ensures memory { IfErr result (λ e. e ≡ EngineFault.WrongNumber) }
    ensures owners { owners_of_links links.new.items ≡ owners_of_links links.old.items }
    ensures err { OnErr result (links.new.items ≡ links.old.items) }
{
    let Some(j) = find_link(links, first, l) else {
        return Err(EngineFault::WrongNumber);
    };
    if let Some(link) = links.at_mut(j) {
        fail_link(link, kind);
    }
    Ok(())
}
