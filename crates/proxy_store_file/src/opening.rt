//! What stands in front of the entries: the first line, the next serial and the number of entries.
ghost use Rattle.std.specs.Prelude.{◌≡◌, ◌≤◌, ℕ, [], Option, IfOk, IfErr, MatchOption, length};
ghost use Rattle.proxy_store_file.specs.Stores.{reading_of_entries, read_store};
ghost use Rattle.proxy_store_file.specs.Streams.{FileFrontIsRead, ReaderIsRefusedFor, bounds_of, fault_of_stop};
ghost use Rattle.proxy_store_file.specs.Streams.{first_line_fault};

use crate::pieces::{ReadStop, read_bytes, read_number};
use crate::store_faults::StoreReadFault;
use std::alloc::Global;
use std::hash::DefaultHasher;
use std::io::Read;

/// The format and its version, and LF.
pub(crate) const FIRST_LINE: &[u8] = b"revcache store 1\n";

/// The format alone.
const FIRST_WORDS: &[u8] = b"revcache store ";

/// What the reader's stop means behind so many whole entries.
pub(crate) fn fault_of_stop(entries: u64, stop: ReadStop) -> StoreReadFault
    ensures { result ≡ fault_of_stop entries stop }
{
    match stop {
        ReadStop::Ended => StoreReadFault::Short(entries),
        ReadStop::Failed => StoreReadFault::Read,
        ReadStop::OutOfMemory => StoreReadFault::OutOfMemory,
    }
}

/// Why a first line isn't that of such a file.
fn first_line_fault(line: &[u8]) -> Option<StoreReadFault>
    requires { length line.now ≡ 17 }
    ensures { result ≡ first_line_fault line.now }
{
    if line == FIRST_LINE {
        None
    } else if &line[..FIRST_WORDS.len()] == FIRST_WORDS {
        Some(StoreReadFault::Version)
    } else {
        Some(StoreReadFault::NotAStore)
    }
}

/// The next serial and how many entries follow, at most `capacity`.
pub(crate) fn read_opening<R: Read>(
    alloc: Global,
    capacity: usize,
    reader: &mut R,
    hasher: &mut DefaultHasher,
) -> Result<(u64, u64), StoreReadFault>
    ensures ok { IfOk result (λ r. (most : Option ℕ) → FileFrontIsRead (read_store (bounds_of capacity most))
        (λ text more. reading_of_entries text most r.0 r.1 [] more) (R.remaining reader.old) (R.remaining reader.new)
        hasher.old hasher.new) }
    ensures few { IfOk result (λ r. r.1 ≤ capacity) }
    ensures fault { IfErr result (λ fault. (most : Option ℕ) → ReaderIsRefusedFor (read_store (bounds_of capacity most))
        (R.remaining reader.old) (R.remaining reader.new) fault) }
{
    let line = match read_bytes(alloc, reader, hasher, FIRST_LINE.len() as u64) {
        Ok(line) => line,
        Err(stop) => return Err(fault_of_stop(0, stop)),
    };
    if let Some(fault) = first_line_fault(line.as_slice()) {
        return Err(fault);
    }
    let next = match read_number(alloc, reader, hasher) {
        Ok(next) => next,
        Err(stop) => return Err(fault_of_stop(0, stop)),
    };
    let number = match read_number(alloc, reader, hasher) {
        Ok(number) => number,
        Err(stop) => return Err(fault_of_stop(0, stop)),
    };
    if number > capacity as u64 {
        return Err(StoreReadFault::Entries);
    }
    Ok((next, number))
}
