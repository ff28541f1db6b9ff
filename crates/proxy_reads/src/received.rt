//! What a read gives.

/// Bytes of one read, at most.
pub const PIECE: usize = 4096;

/// What a read gave.
#[derive(Clone, Copy, PartialEq, Eq)]
pub enum Received {
    /// Nothing yet.
    Nothing,
    /// So many bytes, at least one, at the front of the buffer.
    Bytes(usize),
    /// No more will come.
    End,
}
