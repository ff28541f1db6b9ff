//! A reply that was made, and what it will do to the store.
ghost use Rattle.std.specs.Prelude.{◌≡◌};
ghost use Rattle.proxy_core.specs.Pending.{serial_stored_by_change, serial_used_by_change, outcome_of_pending_reply};

use crate::outcome::{Outcome, Reply};
use hx_fields::Bytes;
use hx_status::StatusAndReason;
use hx_store::{Entry, Serials};

/// What becomes of the store.
#[derive(Drop)]
pub(crate) enum Change {
    /// Nothing is added, and none comes first.
    Keep,
    /// The response of this serial was sent: it comes first.
    Use(u64),
    /// A response was freshened and sent: it takes the place of the one of its serial, and comes first.
    Freshen(Entry),
    /// The response of this serial was sent for the last time.
    Remove(u64),
    /// A response is stored.
    Store(Entry),
}

impl Change {
    /// The serial that will be stored.
    pub(crate) fn stored(&self) -> Option<u64>
        ensures { result ≡ serial_stored_by_change self.now }
    {
        match self {
            Change::Store(entry) => Some(entry.serial),
            _ => None,
        }
    }

    /// The serial that was sent.
    pub(crate) fn used(&self) -> Option<u64>
        ensures { result ≡ serial_used_by_change self.now }
    {
        match self {
            Change::Use(serial) => Some(*serial),
            Change::Freshen(entry) => Some(entry.serial),
            Change::Remove(serial) => Some(*serial),
            _ => None,
        }
    }
}

/// A reply, and what it will do. Nothing is done yet.
#[derive(Drop)]
pub(crate) struct PendingReply {
    /// The whole message.
    pub(crate) bytes: Bytes,
    /// Whether the connection closes behind it.
    pub(crate) close: bool,
    pub(crate) about: StatusAndReason,
    pub(crate) change: Change,
    /// The serials that go, ascending.
    pub(crate) removed: Serials,
}

/// What follows an answer.
#[derive(Drop)]
pub(crate) enum AfterAnswer {
    /// The exchange ends.
    Ends(PendingReply),
    /// The client's own request goes forward once more.
    GoesOn(Bytes),
}

impl PendingReply {
    /// The outcome that it is.
    pub(crate) fn into_reply_outcome(self) -> Outcome
        ensures { result ≡ outcome_of_pending_reply self }
    {
        Outcome::Reply(Reply {
            bytes: self.bytes,
            close: self.close,
            about: self.about,
            stored: self.change.stored(),
            used: self.change.used(),
            removed: self.removed,
            expired: None,
            purged: false,
        })
    }
}
