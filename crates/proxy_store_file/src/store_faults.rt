//! Why the file of a store is refused, or isn't written.

ghost use Rattle.std.specs.Prelude.{◌≡◌};

use std::alloc::AllocError;

/// A part of an entry, in the order in which parts are judged.
#[derive(Clone, Copy, Debug, PartialEq, Eq)]
pub enum EntryPart {
    /// Its head: longer than 524,288 bytes, a part longer than the head, a number out of its range,
    /// or bytes that no part takes.
    Head,
    /// No final status of three digits.
    Status,
    /// A moment that no date can tell, or an age above the cap.
    Times,
    /// No host in lower case, no port, or no path.
    Key,
    /// A nominated name that is no token, or a value that no request can have.
    Nominated,
    /// A field line that no message can have.
    Lines,
}

/// Why the file of a store is refused. The fault at the earliest place is answered. Entries are counted from 1, in the
/// order of the file.
#[derive(Clone, Copy, Debug, PartialEq, Eq)]
pub enum StoreReadFault {
    /// It doesn't begin with the first line of such a file.
    NotAStore,
    /// It begins with the first line of another version.
    Version,
    /// It has more entries than the store holds.
    Entries,
    /// It ends early, with so many whole entries.
    Short(u64),
    /// A part of this entry isn't what it must be.
    Entry(u64, EntryPart),
    /// The serial of this entry stood before, or isn't below the next one.
    Serial(u64),
    /// With this entry the store would weigh more than it may.
    Weight(u64),
    /// The digest isn't that of the bytes in front of it.
    Digest,
    /// Bytes follow the digest.
    Long,
    /// The reader failed.
    Read,
    /// Memory ran out.
    OutOfMemory,
}

/// Why a store wasn't written whole.
#[derive(Clone, Copy, Debug, PartialEq, Eq)]
pub enum WriteFault {
    /// A part of this entry isn't what it must be, so the file couldn't be read.
    Entry(u64, EntryPart),
    /// The serial of this entry isn't below the next one.
    Serial(u64),
    /// The writer failed, or took no bytes.
    Write,
    /// Memory ran out.
    OutOfMemory,
}

impl From<AllocError> for WriteFault {
    ghost use Rattle.proxy_store_file.specs.declared.store_faults.WriteFault.TheVariants.{OutOfMemory};

    ghost from_gives = { λ _ fault. fault ≡ OutOfMemory };

    fn from(_: AllocError) -> WriteFault {
        WriteFault::OutOfMemory
    }
}
