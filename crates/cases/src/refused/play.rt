//! A script, played by the engine's calls.
ghost use Rattle.std.specs.Prelude.{◌≡◌, ◌<◌, [], IfOk};

use super::stop::Stop;
use hx_allow::{Table, TableFault};
use hx_store::IndexedShelf;
use proxy_engine::{Engine, EngineFault, Work};
use proxy_script::{Effect, Happening, Item, LeadingItemReading, effects_text, read_item};
use std::alloc::Global;
use std::io;
use std::io::{Read, Write};

/// How often a call is made that finds no memory: once more is enough where one request is refused.
const TRIES: u8 = 2;

/// How many bytes are asked for at a time.
const PIECE: usize = 4096;

/// The end of the moments that a script may tell.
const END_OF_MOMENTS: u64 = 253_402_300_800;

type Proxy = Engine<IndexedShelf>;

fn append_bytes(script: &mut Vec<u8>, bytes: &[u8]) -> Result<(), Stop> {
    for _ in 0..TRIES {
        if script.extend_from_slice(bytes).is_ok() {
            return Ok(());
        }
    }
    Err(Stop::NoMemory)
}

/// What stands on standard input.
fn script<R: Input + AllocGlobal>(rt: &R) -> Result<Vec<u8>, Stop> {
    let mut reader = rt.reader();
    let mut script = Vec::new(rt.alloc());
    let mut buffer = [0u8; PIECE];
    for _ in 0..u64::MAX {
        match reader.read(&mut buffer) {
            Ok(0) => return Ok(script),
            Ok(n) => append_bytes(&mut script, &buffer[..n])?,
            Err(_) => return Err(Stop::Script),
        }
    }
    Ok(script)
}

fn config(alloc: Global, table: &[u8]) -> Result<Table, Stop> {
    for _ in 0..TRIES {
        match Table::read(alloc, table) {
            Ok(config) => return Ok(config),
            Err(TableFault::OutOfMemory) => {}
            Err(_) => return Err(Stop::Script),
        }
    }
    Err(Stop::NoMemory)
}

fn shelf(alloc: Global, capacity: usize) -> Result<IndexedShelf, Stop>
    ensures { IfOk result (λ shelf. shelf ≡ record { limit = capacity; entries = []; room = 0 }) }
{
    match IndexedShelf::new(alloc, capacity) {
        Ok(shelf) => Ok(shelf),
        Err(_) => Ok(IndexedShelf::new(alloc, capacity)?),
    }
}

fn proxy(alloc: Global, table: &[u8]) -> Result<Proxy, Stop> {
    let config = config(alloc, table)?;
    let shelf = shelf(alloc, config.capacity())?;
    Ok(Engine::new(alloc, config, shelf, 1, 1))
}

/// A connection takes memory, and bytes do. No end and no failure does.
fn may_run_out_of_memory(happening: Happening<'_>) -> bool {
    matches!(
        happening,
        Happening::Accept(_) | Happening::Client(_, _) | Happening::Link(_, _)
    )
}

fn take(alloc: Global, proxy: &mut Proxy, happening: Happening<'_>) -> Result<(), Stop> {
    for _ in 0..TRIES {
        match proxy.take(alloc, happening) {
            Ok(()) => return Ok(()),
            Err(EngineFault::OutOfMemory) => {
                if !may_run_out_of_memory(happening) {
                    return Err(Stop::Wrong);
                }
            }
            Err(_) => return Err(Stop::Script),
        }
    }
    Err(Stop::NoMemory)
}

/// Does the act that is due, if one is.
fn work(alloc: Global, proxy: &mut Proxy, now: u64) -> Result<Option<Vec<Effect>>, Stop>
    requires { now < 253402300800 }
{
    for _ in 0..TRIES {
        match proxy.work(alloc, now) {
            Ok(Work::Idle) => return Ok(None),
            Ok(Work::Did(effects)) => return Ok(Some(effects)),
            Err(EngineFault::OutOfMemory) => {}
            Err(_) => return Err(Stop::Script),
        }
    }
    Err(Stop::NoMemory)
}

fn text_of(alloc: Global, effects: &[Effect]) -> Result<Vec<u8>, Stop> {
    match effects_text(alloc, effects) {
        Ok(text) => Ok(text),
        Err(_) => Ok(effects_text(alloc, effects)?),
    }
}

/// The moment, which no script puts past the last.
fn moment(now: u64) -> u64
    ensures { result < 253402300800 }
{
    if now < END_OF_MOMENTS {
        now
    } else {
        END_OF_MOMENTS - 1
    }
}

/// Does all that is due, and writes the effects of each act.
fn settle<R: Print + AllocGlobal>(rt: &R, proxy: &mut Proxy, now: u64) -> Result<(), Stop> {
    let now = moment(now);
    for _ in 0..u64::MAX {
        let Some(effects) = work(rt.alloc(), proxy, now)? else {
            break;
        };
        let text = text_of(rt.alloc(), effects.as_slice())?;
        if io::writer(rt).write_all(text.as_slice()).is_err() {
            return Err(Stop::Script);
        }
    }
    Ok(())
}

/// Plays what follows the table.
fn play<R: Print + AllocGlobal>(rt: &R, proxy: &mut Proxy, items: &[u8]) -> Result<(), Stop> {
    let mut now = 0u64;
    let mut rest = items;
    // Each item has a byte at least.
    for _ in 0..items.len() {
        let LeadingItemReading::Found(item, more) = read_item(false, rest) else {
            break;
        };
        match item {
            Item::At(told) => now = told,
            Item::Happens(happening) => {
                take(rt.alloc(), proxy, happening)?;
                settle(rt, proxy, now)?;
            }
            Item::Config(_) => return Err(Stop::Script),
        }
        rest = more;
    }
    if rest.is_empty() {
        Ok(())
    } else {
        Err(Stop::Script)
    }
}

/// Plays the script on standard input.
pub fn run<R: Input + Print + AllocGlobal>(rt: &R) -> Result<(), Stop> {
    let script = script(rt)?;
    match read_item(true, script.as_slice()) {
        LeadingItemReading::Found(Item::Config(table), items) => {
            let mut proxy = proxy(rt.alloc(), table)?;
            play(rt, &mut proxy, items)
        }
        _ => Err(Stop::Script),
    }
}
