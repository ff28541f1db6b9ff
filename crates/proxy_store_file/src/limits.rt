//! The limits of what is read. `specs/Parts.antt` has the same.

/// Bytes of an entry's head, of each text in it, and how many lines it may have.
pub(crate) const MOST_HEAD_BYTES: usize = 524_288;

/// Bytes of a path with its query.
pub(crate) const MOST_PATH_BYTES: usize = 8_192;

/// How many bytes are asked for at a time.
pub(crate) const PIECE: usize = 16_384;
