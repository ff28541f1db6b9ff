//! The bytes of a script from a reader, and the text of effects to a writer.
//!
//! Our own loops over `read` and `write`: after an error of `write_all` or of a buffer nobody knows what went out.
ghost use Rattle.std.specs.Prelude.{◌≡◌, ℕ, List, take, IfOk, OnOk, OnErr};
ghost use Rattle.std.specs.Io.KnownBytes.{Consumes, Appends};
ghost use Rattle.proxy_replay.specs.Bytes.{ReaderGaveAtMost, script_limit};

use proxy_script::MOST_SCRIPT_BYTES;
use std::alloc::{AllocError, Global};
use std::io::{ErrorKind, Read, Write};

/// How many bytes are asked for at a time.
const PIECE: usize = 4096;

/// What a reader gives, up to its end, a failure or the limit, and whether it came to its end.
pub(crate) fn read_script_bytes<R: Read>(
    alloc: Global,
    reader: &mut R,
) -> Result<(Vec<u8>, bool), AllocError>
    ensures ok { IfOk result (λ r. ReaderGaveAtMost script_limit r.0.items r.1 (R.remaining reader.old)
        (R.remaining reader.new)) }
    ensures err { OnErr result ((read : List ℕ) × Consumes (R.remaining reader.old) (R.remaining reader.new) read) }
{
    let mut bytes = Vec::new(alloc);
    let mut buffer = [0u8; PIECE];
    for _turn in 0..u64::MAX {
        match reader.read(&mut buffer) {
            Ok(0) => return Ok((bytes, true)),
            Ok(n) if n <= MOST_SCRIPT_BYTES - bytes.len() => bytes.extend_from_slice(&buffer[..n])?,
            Ok(_) => {
                bytes.extend_from_slice(&buffer[..MOST_SCRIPT_BYTES - bytes.len()])?;
                return Ok((bytes, false));
            }
            Err(e) if e.kind() == ErrorKind::Interrupted => {}
            Err(_) => return Ok((bytes, false)),
        }
    }
    Ok((bytes, false))
}

/// The writer failed, or took no bytes.
#[derive(Clone, Copy, Debug, PartialEq, Eq)]
pub(crate) struct WriteFailed;

/// Writes all of the bytes, or some first ones of them.
pub(crate) fn put<W: Write>(writer: &mut W, bytes: &[u8]) -> Result<(), WriteFailed>
    ensures ok { OnOk result (Appends (W.contents writer.old) (W.contents writer.new) bytes.now) }
    ensures err { OnErr result ((k : ℕ) × Appends (W.contents writer.old) (W.contents writer.new) (take k bytes.now)) }
{
    let mut at = 0usize;
    for _turn in 0..u64::MAX {
        if at >= bytes.len() {
            return Ok(());
        }
        match writer.write(&bytes[at..]) {
            Ok(0) => return Err(WriteFailed),
            Ok(n) => at += n,
            Err(e) if e.kind() == ErrorKind::Interrupted => {}
            Err(_) => return Err(WriteFailed),
        }
    }
    Err(WriteFailed)
}
