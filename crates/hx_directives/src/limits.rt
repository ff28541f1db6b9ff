//! The limits of numbers of seconds, and of names.

/// In seconds; every larger number counts as this one (RFC 9111, section 1.2.2).
pub const MOST_SECONDS: u64 = 2_147_483_648;

/// No directive that a rule reads has a shorter name, in bytes.
pub(crate) const SHORTEST_DIRECTIVE_NAME_BYTES: usize = 6;
