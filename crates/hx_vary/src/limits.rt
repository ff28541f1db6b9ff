//! How many names a response may nominate.

/// Of so many members of Vary each is compared. With more it counts as `*`. One that stands again counts again.
pub const MOST_VARY_NAMES: usize = 64;
