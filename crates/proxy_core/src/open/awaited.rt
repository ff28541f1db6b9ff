//! What a request could be sent of the answer to another.

/// What a request could be sent of the answer to another that is at the origin.
#[derive(Clone, Copy, Debug, PartialEq, Eq)]
pub enum Awaited {
    /// A response that is yet to be stored: nothing is held for its key.
    Missing,
    /// The held response of this serial, freshened or replaced: its lifetime is over.
    Expired(u64),
}
