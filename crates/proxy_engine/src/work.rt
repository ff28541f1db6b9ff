//! The ends of a proxy, and what taking a happening, or working, comes to.

use proxy_script::Effect;

/// An end of a proxy: where connections come from, a client by its connection's number, or an origin by its link's.
#[derive(Clone, Copy, Debug, PartialEq, Eq)]
pub enum End {
    Listener,
    Client(u64),
    Link(u64),
}

/// Why a happening isn't taken, or an act isn't done. Each changes nothing.
#[derive(Clone, Copy, Debug, PartialEq, Eq)]
pub enum EngineFault {
    /// A connection that isn't the next, or a link that was never opened.
    WrongNumber = 1,
    /// A connection that was never accepted.
    NotAccepted,
    /// Memory ran out.
    OutOfMemory,
    /// The act may need a link, and the last number is used.
    Spent,
    /// A connection whose request doesn't wait for the answer to another, or that was never accepted.
    NotWaiting,
}

/// What one call of `work` did.
#[derive(Drop)]
pub enum Work {
    /// Nothing is due.
    Idle,
    /// The first act that was due, with its effects.
    Did(Vec<Effect>),
}
