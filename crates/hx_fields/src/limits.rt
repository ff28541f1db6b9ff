//! The limit of what a field can say of time, and how many bytes are kept in which way.

/// The first second that no HTTP-date tells, since its year has four digits: the year 10000 begins,
/// in Unix seconds (RFC 9110, section 5.6.7).
pub const START_OF_YEAR_10000: u64 = 253_402_300_800;

/// So many bytes are worth a count of their owners. Fewer are copied at less cost.
pub(crate) const LEAST_SHARED_BYTES: usize = 4096;

/// So many bytes at most stand in the value itself: as much room as the vector takes that would hold them.
pub(crate) const MOST_SHORT_BYTES: usize = 16;
