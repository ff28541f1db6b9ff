//! The limit of scripts.

/// Bytes of a script: what is read of one ends there, and so does a record.
pub const MOST_SCRIPT_BYTES: usize = 16_777_216;
