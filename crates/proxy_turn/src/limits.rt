//! The limits of a turn. The definitions have the same in `specs/Turn.antt` and `specs/Parts.antt`.

/// Connections that are open at a time. While as many are, no other is asked for.
pub(crate) const MOST_CONNECTIONS_OF_A_TURN: usize = 256;

/// Acts of a turn. After as many, more may be due.
pub const MOST_ACTS_OF_A_TURN: u64 = 1000;

/// Effects of an act.
pub(crate) const MOST_EFFECTS_OF_AN_ACT: usize = 3;
