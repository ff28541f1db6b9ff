//! The limits of what is read, and what past each is answered. The definitions have the same in
//! `specs/HeadEnd.antt`, `specs/SizeLine.antt`, `specs/Chunks.antt` and `specs/Lengths.antt`. How
//! long a content may be is the reader's caller to say.

/// Bytes of a head, with the empty lines in front of it. Each interim head has as many. A longer head is refused as
/// `Head`; so is the stream at the first byte past it, where no head has ended.
pub(crate) const MOST_HEAD_BYTES: usize = 32768;

/// Field lines of a head. A head with more is refused as `Head`.
pub(crate) const MOST_FIELD_LINES: usize = 100;

/// Field lines for which there is room at first: a short head seldom has more, and room for all
/// would be cleared each time.
pub(crate) const INITIAL_FIELD_LINES: usize = 32;

/// Bytes of a short head. To clear room for all the lines of a longer one costs little beside reading it.
pub(crate) const SHORT_HEAD_BYTES: usize = 2048;

/// Hexadecimal digits of a chunk's size, leading zeros counted. A size of more is refused as `Chunk`.
pub(crate) const MOST_CHUNK_SIZE_DIGITS: usize = 15;

/// Bytes behind the digits of a chunk's size, without the CRLF. A line with more is refused as `Chunk`.
pub(crate) const MOST_CHUNK_EXTENSION_BYTES: usize = 256;

/// Bytes of a size line, with its CRLF. A line that hasn't ended by then is refused as `Chunk` at
/// the first byte past it.
pub(crate) const MOST_CHUNK_SIZE_LINE_BYTES: usize = MOST_CHUNK_SIZE_DIGITS
    + MOST_CHUNK_EXTENSION_BYTES
    + 2;

/// Bytes of all trailer lines of a content, with the empty line behind them. The first byte past it
/// is refused as `Chunk`.
pub(crate) const MOST_TRAILER_BYTES: usize = 32768;

/// Bytes of content that an answer to HEAD announces. A greater length isn't kept; nothing is refused for it.
pub(crate) const MOST_BYTES_ANNOUNCED_TO_HEAD: u64 = u64::MAX;
