//! One entry, read from a reader (`specs/Stores.antt`).
ghost use Rattle.std.specs.Prelude.{IfOk, IfErr};
ghost use Rattle.proxy_store_file.specs.Streams.{EntryIsRead, IsLessThanAnEntry, ReaderStoppedShort, reading_of_entry};

use crate::head_reading::{HeadStop, head_spelled_in};
use crate::limits::MOST_HEAD_BYTES;
use crate::pieces::{ReadStop, read_bytes, read_number};
use hx_store::Entry;
use std::alloc::Global;
use std::hash::DefaultHasher;
use std::io::Read;

/// The next entry of a reader; none where its head hasn't the shape of one.
pub(crate) fn read_entry<R: Read>(
    alloc: Global,
    reader: &mut R,
    hasher: &mut DefaultHasher,
) -> Result<Option<Entry>, ReadStop>
    ensures ok { IfOk result (λ read. EntryIsRead (R.remaining reader.old) (R.remaining reader.new)
        hasher.old hasher.new (reading_of_entry read)) }
    ensures stop { IfErr result (λ why. ReaderStoppedShort IsLessThanAnEntry (R.remaining reader.old)
        (R.remaining reader.new) why) }
{
    let n = match read_number(alloc, reader, hasher) {
        Ok(n) => n,
        Err(stop) => return Err(stop),
    };
    if n > MOST_HEAD_BYTES as u64 {
        return Ok(None);
    }
    let text = match read_bytes(alloc, reader, hasher, n) {
        Ok(text) => text,
        Err(stop) => return Err(stop),
    };
    let head = match head_spelled_in(alloc, text.as_slice()) {
        Ok(head) => head,
        Err(HeadStop::Shapeless) => return Ok(None),
        Err(HeadStop::OutOfMemory) => return Err(ReadStop::OutOfMemory),
    };
    let content = match read_bytes(alloc, reader, hasher, head.content_length) {
        Ok(content) => content,
        Err(stop) => return Err(stop),
    };
    match head.into_entry_with_content(alloc, content) {
        Ok(entry) => Ok(Some(entry)),
        Err(_) => Err(ReadStop::OutOfMemory),
    }
}
