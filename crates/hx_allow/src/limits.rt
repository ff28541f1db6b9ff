//! The limits of tables. The definitions have the same in `specs/Tables.antt`.

/// Bytes of a table. A longer text is refused as `NotToml`.
pub const MOST_TABLE_BYTES: usize = 1_048_576;

/// Lines of a table. A table with more is refused as `NoLines`, one of a version before the fourth with more than 256.
pub const MOST_LINES: u16 = 4_096;

/// Bytes that all stored responses may weigh together at most, 2^40. A greater `max_store` is refused.
pub(crate) const MOST_STORE_BYTES: u64 = 1_099_511_627_776;
