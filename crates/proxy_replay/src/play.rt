//! The replay of a script: its table is read, and its items are played one by one.
ghost use Rattle.std.specs.Prelude.{◌≡◌, ◌≤◌, length, false, [], IfOk, IfErr, MatchOption};
ghost use Rattle.proxy_script.specs.ScriptLines.{is_config};
ghost use Rattle.proxy_script.specs.Script.{model_of_item, line_of_item, Table as TableItem};
ghost use Rattle.proxy_replay.specs.Bytes.{script_limit};
ghost use Rattle.proxy_replay.specs.Replay.{ReplayWritesAndEnds, IsStreamReplayOverEmptyStore};
ghost use Rattle.proxy_replay.specs.Replay.{ReplayOverAStoreReadsAndEnds};
ghost use Rattle.proxy_replay.specs.Replay.{ReplayStoreIsRead};
ghost use Rattle.proxy_replay.specs.Steps.{TableIsReadFirst, TableIsNotRead, EngineBeginsOverOpenedStore};
ghost use Rattle.proxy_replay.specs.Steps.{EngineBeginningFails};

use crate::bytes::read_script_bytes;
use crate::new_shelf::NewShelf;
use crate::openings::{EmptyStoreOpening, KeptStoreOpening, StoreOpening};
use crate::playing_items::{moment_after_item, play_item};
use crate::replay_fault::ReplayFault;
use hx_allow::Table;
use hx_store::{IndexedShelf, ListShelf};
use proxy_engine::Engine;
use proxy_script::{Item, LeadingItemReading, read_item};
use std::alloc::Global;
use std::io::{Read, Write};

/// The bytes of a table, where the item is one.
fn table_of_item(item: Item<'_>) -> Option<&[u8]>
    ensures { MatchOption result (is_config (line_of_item (model_of_item item.entry)) ≡ false)
        (λ table. model_of_item item.entry ≡ TableItem table.now) }
{
    match item {
        Item::Config(table) => Some(table),
        _ => None,
    }
}

/// The operator's table, which stands first, and what follows it.
fn read_table(alloc: Global, bytes: &[u8], ended: bool) -> Result<(Table, &[u8]), ReplayFault>
    ensures ok { IfOk result (λ r. TableIsReadFirst bytes.now r.0 r.1.now) }
    ensures fault { IfErr result (TableIsNotRead bytes.now ended) }
{
    match read_item(true, bytes) {
        LeadingItemReading::Found(item, rest) => match table_of_item(item) {
            Some(table) => match Table::read(alloc, table) {
                Ok(config) => Ok((config, rest)),
                Err(fault) => Err(ReplayFault::replay_fault_of_table_fault(fault)),
            },
            None => Err(ReplayFault::Line(1)),
        },
        LeadingItemReading::Wrong => Err(ReplayFault::Line(1)),
        LeadingItemReading::Cut if ended => Err(ReplayFault::Line(1)),
        LeadingItemReading::Cut => Err(ReplayFault::Read),
    }
}

/// The engine of a table, to which nothing has happened, over a store that is opened.
fn begin<S: NewShelf + Drop, O: StoreOpening>(
    alloc: Global,
    config: Table,
    opening: &mut O,
) -> Result<Engine<S>, ReplayFault>
    ensures ok { IfOk result (EngineBeginsOverOpenedStore (O.opens opening.old) config) }
    ensures fault { IfErr result (EngineBeginningFails (O.opens opening.old) config) }
{
    let mut shelf = match S::with_capacity(alloc, config.capacity()) {
        Ok(shelf) => shelf,
        Err(_) => return Err(ReplayFault::OutOfMemory),
    };
    match opening.open(alloc, &config, &mut shelf) {
        Ok(first) => Ok(Engine::with_store(alloc, config, shelf, first, 1)),
        Err(fault) => Err(ReplayFault::replay_fault_of_store_fault(fault)),
    }
}

/// Plays a script, or the part of it that was read.
fn play<S: NewShelf + Drop, O: StoreOpening, W: Write>(
    alloc: Global,
    bytes: &[u8],
    ended: bool,
    opening: &mut O,
    writer: &mut W,
) -> Result<(), ReplayFault>
    requires { length bytes.now ≤ script_limit }
    ensures { ReplayWritesAndEnds (O.opens opening.old) bytes.now ended (W.contents writer.old) (W.contents writer.new)
        result }
{
    let (config, mut rest) = match read_table(alloc, bytes, ended) {
        Ok(opened) => opened,
        Err(fault) => return Err(fault),
    };
    let mut engine = match begin::<S, O>(alloc, config, opening) {
        Ok(engine) => engine,
        Err(fault) => return Err(fault),
    };
    let mut now = 0u64;
    let mut line = 2u64;
    'items: loop {
        match read_item(false, rest) {
            LeadingItemReading::Found(item, more) => {
                now = moment_after_item(now, item);
                match play_item(alloc, &mut engine, now, item, writer) {
                    Ok(()) => {}
                    Err(fault) => return Err(fault),
                }
                rest = more;
                line += 1;
            }
            LeadingItemReading::Wrong => return Err(ReplayFault::Line(line)),
            LeadingItemReading::Cut => {
                if !ended {
                    return Err(ReplayFault::Read);
                }
                if rest.is_empty() {
                    return Ok(());
                }
                return Err(ReplayFault::Line(line));
            }
        }
    }
}

/// Replays a script over a shelf of this kind, and a store that is opened.
fn replay_on<S: NewShelf + Drop, O: StoreOpening, R: Read, W: Write>(
    alloc: Global,
    opening: &mut O,
    reader: &mut R,
    writer: &mut W,
) -> Result<(), ReplayFault>
    ensures { ReplayOverAStoreReadsAndEnds (O.opens opening.old) (R.remaining reader.old) (R.remaining reader.new)
        (W.contents writer.old) (W.contents writer.new) result }
{
    match read_script_bytes(alloc, reader) {
        Ok((bytes, ended)) => play::<S, O, W>(alloc, bytes.as_slice(), ended, opening, writer),
        Err(_) => Err(ReplayFault::OutOfMemory),
    }
}

/// Replays the script that a reader gives, and writes the text of its effects. The script has at most 16,777,216
/// bytes.
///
/// Effects of the happenings before a fault have been written; after `Write` a prefix of the text may have gone out.
pub fn replay<R: Read, W: Write>(
    alloc: Global,
    reader: &mut R,
    writer: &mut W,
) -> Result<(), ReplayFault>
    ensures { IsStreamReplayOverEmptyStore (R.remaining reader.old) (R.remaining reader.new) (W.contents writer.old)
        (W.contents writer.new) result }
{
    replay_on::<IndexedShelf, EmptyStoreOpening, R, W>(
        alloc,
        &mut EmptyStoreOpening,
        reader,
        writer,
    )
}

/// The same over a shelf that is a list, to compare what both give.
pub fn replay_over_list_shelf<R: Read, W: Write>(
    alloc: Global,
    reader: &mut R,
    writer: &mut W,
) -> Result<(), ReplayFault>
    ensures { IsStreamReplayOverEmptyStore (R.remaining reader.old) (R.remaining reader.new) (W.contents writer.old)
        (W.contents writer.new) result }
{
    replay_on::<ListShelf, EmptyStoreOpening, R, W>(alloc, &mut EmptyStoreOpening, reader, writer)
}

/// The same over the store that another reader gives, as a server that read it begins: what the file of the store
/// holds is held at first, and serials go on from there. It is read after the table, within its bounds. Where it is
/// refused nothing is played.
pub fn replay_over_store<Q: Read + Drop, R: Read, W: Write>(
    alloc: Global,
    store: Q,
    reader: &mut R,
    writer: &mut W,
) -> Result<(), ReplayFault>
    ensures { ReplayOverAStoreReadsAndEnds (ReplayStoreIsRead (Q.remaining store)) (R.remaining reader.old)
        (R.remaining reader.new)
        (W.contents writer.old) (W.contents writer.new) result }
{
    let mut kept = KeptStoreOpening { reader: store };
    replay_on::<IndexedShelf, KeptStoreOpening<Q>, R, W>(alloc, &mut kept, reader, writer)
}
