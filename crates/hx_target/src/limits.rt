//! The limit of what is read. The definition has the same in `specs/Judgement.antt`.

/// Bytes of a target. A longer one is refused as `TooLong`.
pub(crate) const MOST_TARGET_BYTES: usize = 8_192;
