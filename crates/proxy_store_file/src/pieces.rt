//! Bytes from a reader, by which a hasher is fed.
//!
//! Our own loop over `read`: after an error of `read_exact` nobody knows what was read.
ghost use Rattle.std.specs.Prelude.{◌≡◌, ◌<◌, length, IfOk, IfErr};
ghost use Rattle.proxy_store_file.specs.Streams.{ReaderGaveBytes, EightBytesGaveNumber, ReaderStoppedShort};

use crate::limits::PIECE;
use crate::texts::number_of;
use std::alloc::{AllocError, Global};
use std::hash::{DefaultHasher, Hasher};
use std::io::{ErrorKind, Read};

/// Why a reader gave less than was asked for.
#[derive(Clone, Copy, PartialEq, Eq)]
pub(crate) enum ReadStop {
    /// It came to its end.
    Ended,
    /// It failed.
    Failed,
    /// Memory ran out.
    OutOfMemory,
}

impl From<AllocError> for ReadStop {
    ghost use Rattle.std.specs.Prelude.{◌≡◌};
    ghost use Rattle.proxy_store_file.specs.declared.pieces.ReadStop.TheVariants.{OutOfMemory};

    ghost from_gives = { λ _ stop. stop ≡ OutOfMemory };

    fn from(_: AllocError) -> ReadStop {
        ReadStop::OutOfMemory
    }
}

/// So many bytes of a reader. Room for many is taken as they come: a number may be damaged.
pub(crate) fn read_bytes<R: Read>(
    alloc: Global,
    reader: &mut R,
    hasher: &mut DefaultHasher,
    n: u64,
) -> Result<Vec<u8>, ReadStop>
    ensures ok { IfOk result (λ bytes. ReaderGaveBytes (R.remaining reader.old) (R.remaining reader.new)
        hasher.old hasher.new bytes.items) }
    ensures all { IfOk result (λ bytes. length bytes.items ≡ n) }
    ensures stop { IfErr result (λ why. ReaderStoppedShort (λ bytes. length bytes < n) (R.remaining reader.old)
        (R.remaining reader.new) why) }
{
    let mut bytes = Vec::with_capacity(alloc, n.min(PIECE as u64) as usize)?;
    let mut piece = [0u8; PIECE];
    let mut left = n;
    'reads: for _turn in 0..u64::MAX {
        if left == 0 {
            break;
        }
        let room = &mut piece[..left.min(PIECE as u64) as usize];
        match reader.read(room) {
            Ok(0) => return Err(ReadStop::Ended),
            Ok(k) => {
                let given = &room[..k];
                hasher.write(given);
                bytes.extend_from_slice(given)?;
                left -= k as u64;
            }
            Err(e) => {
                if e.kind() != ErrorKind::Interrupted {
                    return Err(ReadStop::Failed);
                }
            }
        }
    }
    if left > 0 {
        return Err(ReadStop::Failed);
    }
    Ok(bytes)
}

/// A number of a reader.
pub(crate) fn read_number<R: Read>(
    alloc: Global,
    reader: &mut R,
    hasher: &mut DefaultHasher,
) -> Result<u64, ReadStop>
    ensures ok { IfOk result (λ n. EightBytesGaveNumber (R.remaining reader.old) (R.remaining reader.new)
        hasher.old hasher.new n) }
    ensures stop { IfErr result (λ why. ReaderStoppedShort (λ bytes. length bytes < 8) (R.remaining reader.old)
        (R.remaining reader.new) why) }
{
    match read_bytes(alloc, reader, hasher, 8) {
        Ok(bytes) => Ok(number_of(bytes.as_slice())),
        Err(stop) => Err(stop),
    }
}
