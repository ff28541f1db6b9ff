//! A whole file of a store, written from a shelf (`specs/Stores.antt`).
ghost use Rattle.std.specs.Prelude.{◌≡◌, ◌++◌, [], None, IfOk, IfErr, OnOk, OnErr, List, length};
ghost use Rattle.std.specs.Io.KnownBytes.{Appends};
ghost use Rattle.hx_store.specs.Stored.{Stored};
ghost use Rattle.proxy_store_file.specs.Heads.{head_spelling, head_of_entry};
ghost use Rattle.proxy_store_file.specs.Stores.{entries_spelling, entry_spelling, opening_spelling, store_spelling};
ghost use Rattle.proxy_store_file.specs.Streams.{store_contents_of};
ghost use Rattle.proxy_store_file.specs.Writing.{StoreWasNotWritten, WriterTookBytes, store_write_fault};
ghost use Rattle.proxy_store_file.specs.Writing.{entry_write_fault};

use crate::entry_parts::first_invalid_part;
use crate::head_writing::head_text;
use crate::limits::MOST_HEAD_BYTES;
use crate::opening::FIRST_LINE;
use crate::pieces_written::{put, put_and_hash, put_text};
use crate::store_faults::{EntryPart, WriteFault};
use crate::texts::{number_text, push_number};
use hx_store::{Entry, Shelf};
use std::alloc::{AllocError, Global};
use std::hash::{DefaultHasher, Hasher};
use std::io::Write;

/// What stands in front of the entries. Fails only where memory runs out.
fn opening_text(alloc: Global, next: u64, number: u64) -> Result<Vec<u8>, AllocError>
    ensures { IfOk result (λ text. text.items ≡ opening_spelling next number) }
{
    let mut out = Vec::from_slice(alloc, FIRST_LINE)?;
    push_number(&mut out, next)?;
    push_number(&mut out, number)?;
    Ok(out)
}

/// Why the entry of this number, and of this head, can't be told. No memory is taken.
fn entry_write_fault(number: u64, next: u64, entry: &Entry, head: &[u8]) -> Option<WriteFault>
    requires { head.now ≡ head_spelling (head_of_entry entry.now) }
    ensures { result ≡ entry_write_fault number next entry.now }
{
    if head.len() > MOST_HEAD_BYTES {
        return Some(WriteFault::Entry(number, EntryPart::Head));
    }
    if let Some(part) = first_invalid_part(entry) {
        return Some(WriteFault::Entry(number, part));
    }
    if next <= entry.serial {
        return Some(WriteFault::Serial(number));
    }
    None
}

/// Writes the entry of this number.
fn write_entry<W: Write>(
    alloc: Global,
    number: u64,
    next: u64,
    entry: &Entry,
    writer: &mut W,
    hasher: &mut DefaultHasher,
) -> Result<(), WriteFault>
    ensures ok { OnOk result (WriterTookBytes (W.contents writer.old) (W.contents writer.new) hasher.old hasher.new
        (entry_spelling entry.now)) }
    ensures told { OnOk result (entry_write_fault number next entry.now ≡ None) }
    ensures err { IfErr result (StoreWasNotWritten (W.contents writer.old) (W.contents writer.new)
        (entry_spelling entry.now) (entry_write_fault number next entry.now)) }
{
    let head = match head_text(alloc, entry) {
        Ok(head) => head,
        Err(_) => return Err(WriteFault::OutOfMemory),
    };
    if let Some(fault) = entry_write_fault(number, next, entry, head.as_slice()) {
        return Err(fault);
    }
    match put_text(writer, hasher, head.as_slice()) {
        Ok(()) => {}
        Err(_) => return Err(WriteFault::Write),
    }
    match put_and_hash(writer, hasher, entry.content.as_slice()) {
        Ok(()) => Ok(()),
        Err(_) => Err(WriteFault::Write),
    }
}

/// Writes the entries, and takes each out of the shelf, the least recently used first.
fn write_entries<S: Shelf, W: Write>(
    alloc: Global,
    next: u64,
    shelf: &mut S,
    writer: &mut W,
    hasher: &mut DefaultHasher,
) -> Result<(), WriteFault>
    ensures ok { OnOk result (WriterTookBytes (W.contents writer.old) (W.contents writer.new) hasher.old hasher.new
        (entries_spelling (S.entries shelf.old))) }
    ensures told { OnOk result (store_write_fault next (S.entries shelf.old) ≡ None) }
    ensures emptied { OnOk result (S.entries shelf.new ≡ []) }
    ensures err { IfErr result (StoreWasNotWritten (W.contents writer.old) (W.contents writer.new)
        (entries_spelling (S.entries shelf.old)) (store_write_fault next (S.entries shelf.old))) }
    ensures left { (gone : List Stored) × (S.entries shelf.new ++ gone ≡ S.entries shelf.old) }
{
    let mut number = 0u64;
    let _entries = shelf.len();
    while let Some(entry) = shelf.evict_last_beyond_weight(0) {
        number += 1;
        match write_entry(alloc, number, next, &entry, writer, hasher) {
            Ok(()) => {}
            Err(fault) => return Err(fault),
        }
    }
    Ok(())
}

/// Writes what a shelf holds, with the next serial, as the file of a store, and takes each entry out once it is
/// written, or its writing began: no memory is needed beside one entry's head.
///
/// Where it answers `Ok` the whole was handed to the writer, and the shelf is empty; else a front of it, and the shelf
/// has a front of what it had. The writer isn't flushed.
pub fn write_and_empty_store<S: Shelf, W: Write>(
    alloc: Global,
    next: u64,
    shelf: &mut S,
    writer: &mut W,
) -> Result<(), WriteFault>
    ensures ok { OnOk result (Appends (W.contents writer.old) (W.contents writer.new)
        (store_spelling (store_contents_of (S.entries shelf.old) next))) }
    ensures told { OnOk result (store_write_fault next (S.entries shelf.old) ≡ None) }
    ensures emptied { OnOk result (S.entries shelf.new ≡ []) }
    ensures err { IfErr result (StoreWasNotWritten (W.contents writer.old) (W.contents writer.new)
        (store_spelling (store_contents_of (S.entries shelf.old) next))
        (store_write_fault next (S.entries shelf.old))) }
    ensures left { (gone : List Stored) × (S.entries shelf.new ++ gone ≡ S.entries shelf.old) }
{
    let opening = match opening_text(alloc, next, shelf.len() as u64) {
        Ok(opening) => opening,
        Err(_) => return Err(WriteFault::OutOfMemory),
    };
    let mut hasher = DefaultHasher::new();
    match put_and_hash(writer, &mut hasher, opening.as_slice()) {
        Ok(()) => {}
        Err(_) => return Err(WriteFault::Write),
    }
    match write_entries(alloc, next, shelf, writer, &mut hasher) {
        Ok(()) => {}
        Err(fault) => return Err(fault),
    }
    match put(writer, &number_text(hasher.finish())) {
        Ok(()) => Ok(()),
        Err(_) => Err(WriteFault::Write),
    }
}
