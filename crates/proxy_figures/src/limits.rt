//! What counts as silence.

/// Exchanges with an origin in a row that were timed out or couldn't connect, from which on it counts as silent.
pub const SILENT_EXCHANGES: u64 = 3;
