//! How many connections a turn takes on.

/// The bounds of the connections that a turn accepts.
#[derive(Clone, Copy, PartialEq, Eq)]
pub struct TurnAcceptBounds {
    /// How many connections may be open. While as many are, no other is asked for.
    pub most_open: usize,
    /// How often a turn asks for a connection.
    pub most_accepts: u64,
}
