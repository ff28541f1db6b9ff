//! A whole file of a store, read from a reader into a shelf (`specs/Stores.antt`).
ghost use Rattle.std.specs.Prelude.{◌≡◌, ◌<◌, ◌≤◌, ◌+◌, ◌-◌, ◌^◌, [], List, length, Ok, IfOk, IfErr, IfSome, OnOk};
ghost use Rattle.std.specs.Prelude.{OnErr};
ghost use Rattle.hx_store.specs.Stored.{Stored};
ghost use Rattle.proxy_store_file.specs.Stores.{entry_fault, store_weight_exceeds_bound, read_store};
ghost use Rattle.proxy_store_file.specs.Streams.{FileEndIsRead, FileEndIsRefused, EntryIsRefused, NextEntryIsRead};
ghost use Rattle.proxy_store_file.specs.Streams.{ReaderGaveReading};
ghost use Rattle.proxy_store_file.specs.Streams.{ReaderIsRefusedFor, bounds_of, store_contents_of};

use crate::entry_parts::first_invalid_part;
use crate::entry_reading::read_entry;
use crate::opening::{fault_of_stop, read_opening};
use crate::pieces::{ReadStop, read_bytes, read_number};
use crate::store_faults::{EntryPart, StoreReadFault};
use hx_store::{Entry, Shelf, evict_to_weight};
use std::alloc::Global;
use std::hash::{DefaultHasher, Hasher};
use std::io::Read;

fn store_weight_exceeds_bound(most: Option<u64>, held: u64, entry: u64) -> bool
    requires { IfSome most (λ most. most < 2 ^ 64 - 1) }
    ensures { result ≡ store_weight_exceeds_bound most (entry + held) }
{
    match most {
        None => false,
        Some(most) => held.saturating_add(entry) > most,
    }
}

/// Why an entry of this number may not stand in front of those that are held. No memory is taken.
fn entry_fault<S: Shelf>(
    shelf: &S,
    most: Option<u64>,
    next: u64,
    number: u64,
    entry: &Entry,
) -> Option<StoreReadFault>
    requires { IfSome most (λ most. most < 2 ^ 64 - 1) }
    ensures { result ≡ entry_fault number most next (S.entries shelf.now) entry.now }
{
    if let Some(part) = first_invalid_part(entry) {
        return Some(StoreReadFault::Entry(number, part));
    }
    if shelf.contains(entry.serial) || next <= entry.serial {
        return Some(StoreReadFault::Serial(number));
    }
    if store_weight_exceeds_bound(most, shelf.weight(), entry.weight()) {
        return Some(StoreReadFault::Weight(number));
    }
    None
}

/// Reads the next entry, of this number, and puts it in front of those that are held.
fn take_entry<S: Shelf, R: Read>(
    alloc: Global,
    most: Option<u64>,
    next: u64,
    number: u64,
    shelf: &mut S,
    reader: &mut R,
    hasher: &mut DefaultHasher,
) -> Result<(), StoreReadFault>
    requires bounded { IfSome most (λ most. most < 2 ^ 64 - 1) }
    requires number { number ≡ length (S.entries shelf.old) + 1 }
    requires room { number ≤ S.limit shelf.old }
    ensures ok { OnOk result (NextEntryIsRead most next (S.entries shelf.old) (S.entries shelf.new)
        (R.remaining reader.old) (R.remaining reader.new) hasher.old hasher.new) }
    ensures number { OnOk result (length (S.entries shelf.new) ≡ length (S.entries shelf.old) + 1) }
    ensures fault { IfErr result (λ fault. EntryIsRefused most next (S.entries shelf.old)
        (R.remaining reader.old) (R.remaining reader.new) fault) }
    ensures limit { S.limit shelf.new ≡ S.limit shelf.old }
{
    let entry = match read_entry(alloc, reader, hasher) {
        Ok(Some(entry)) => entry,
        Ok(None) => return Err(StoreReadFault::Entry(number, EntryPart::Head)),
        Err(stop) => return Err(fault_of_stop(number - 1, stop)),
    };
    if let Some(fault) = entry_fault(shelf, most, next, number, &entry) {
        return Err(fault);
    }
    match shelf.put(entry, &[]) {
        Ok(_) => Ok(()),
        Err(_) => Err(StoreReadFault::OutOfMemory),
    }
}

/// Reads the digest of what was read before, and the end of the file.
fn read_end<R: Read>(
    alloc: Global,
    held: u64,
    reader: &mut R,
    hasher: &mut DefaultHasher,
) -> Result<(), StoreReadFault>
    ensures ok { OnOk result ((entries : List Stored) → length entries ≡ held
        → FileEndIsRead entries (R.remaining reader.old) (R.remaining reader.new) hasher.old) }
    ensures fault { IfErr result (λ fault. (entries : List Stored) → length entries ≡ held
        → FileEndIsRefused entries (R.remaining reader.old) (R.remaining reader.new) hasher.old fault) }
{
    let digest = hasher.finish();
    let written = match read_number(alloc, reader, hasher) {
        Ok(written) => written,
        Err(stop) => return Err(fault_of_stop(held, stop)),
    };
    if written != digest {
        return Err(StoreReadFault::Digest);
    }
    match read_bytes(alloc, reader, hasher, 1) {
        Ok(_) => Err(StoreReadFault::Long),
        Err(ReadStop::Ended) => Ok(()),
        Err(ReadStop::Failed) => Err(StoreReadFault::Read),
        Err(ReadStop::OutOfMemory) => Err(StoreReadFault::OutOfMemory),
    }
}

/// Fills a shelf. After a fault it has what was read before it.
fn fill<S: Shelf, R: Read>(
    alloc: Global,
    most: Option<u64>,
    shelf: &mut S,
    reader: &mut R,
) -> Result<u64, StoreReadFault>
    requires bounded { IfSome most (λ most. most < 2 ^ 64 - 1) }
    requires empty { S.entries shelf.old ≡ [] }
    ensures ok { IfOk result (λ next. ReaderGaveReading (read_store (bounds_of (S.limit shelf.old) most))
        (R.remaining reader.old) (R.remaining reader.new) (Ok (store_contents_of (S.entries shelf.new) next))) }
    ensures fault { IfErr result (λ fault. ReaderIsRefusedFor (read_store (bounds_of (S.limit shelf.old) most))
        (R.remaining reader.old) (R.remaining reader.new) fault) }
    ensures limit { S.limit shelf.new ≡ S.limit shelf.old }
{
    let mut hasher = DefaultHasher::new();
    let (next, number) = match read_opening(alloc, shelf.capacity(), reader, &mut hasher) {
        Ok(opening) => opening,
        Err(fault) => return Err(fault),
    };
    'entries: for i in 0..number {
        match take_entry(alloc, most, next, i + 1, shelf, reader, &mut hasher) {
            Ok(()) => {}
            Err(fault) => return Err(fault),
        }
    }
    match read_end(alloc, number, reader, &mut hasher) {
        Ok(()) => Ok(next),
        Err(fault) => Err(fault),
    }
}

/// Reads the file of a store into an empty shelf, and answers the next serial. The shelf's capacity bounds the entries,
/// `most` the bytes that they weigh together, if it is there.
///
/// The entries then stand in the order of use that they had. After a fault the shelf is empty: nothing of the file
/// was used. The fault at the earliest place is answered, but for `OutOfMemory`, which comes where memory runs out.
/// Beside the store one entry's head is held, of at most 524,288 bytes, and 16,384 bytes of what was read.
pub fn read_store<S: Shelf, R: Read>(
    alloc: Global,
    most: Option<u64>,
    shelf: &mut S,
    reader: &mut R,
) -> Result<u64, StoreReadFault>
    requires bounded { IfSome most (λ most. most < 2 ^ 64 - 1) }
    requires empty { S.entries shelf.old ≡ [] }
    ensures ok { IfOk result (λ next. ReaderGaveReading (read_store (bounds_of (S.limit shelf.old) most))
        (R.remaining reader.old) (R.remaining reader.new) (Ok (store_contents_of (S.entries shelf.new) next))) }
    ensures fault { IfErr result (λ fault. ReaderIsRefusedFor (read_store (bounds_of (S.limit shelf.old) most))
        (R.remaining reader.old) (R.remaining reader.new) fault) }
    ensures emptied { OnErr result (S.entries shelf.new ≡ []) }
    ensures limit { S.limit shelf.new ≡ S.limit shelf.old }
{
    match fill(alloc, most, shelf, reader) {
        Ok(next) => Ok(next),
        Err(fault) => {
            evict_to_weight(shelf, 0);
            Err(fault)
        }
    }
}
