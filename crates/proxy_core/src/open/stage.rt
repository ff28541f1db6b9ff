//! Where an open exchange stands. The head of `lib.rt` has a picture of how it goes from one to another.

/// Whether its request is at the origin, or waits for the answer to another for its target.
#[derive(Clone, Copy, Debug, PartialEq, Eq)]
pub enum Stage {
    /// The request is at the origin.
    Forwarded,
    /// It waits for the answer to the exchange of this id, which leads.
    Waiting(u64),
    /// The one that it waited for has ended, or its time to wait is over: it may be woken.
    Released,
}
