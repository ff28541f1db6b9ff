//! How much of what a client sent is handed in at a time: no more than what ends the head of one request.
//!
//! Requests that come behind one another in one read (RFC 9112, section 9.3.2) would all be answered in one turn,
//! whether or not their client takes the answers. So a piece ends behind the first head that begins in it, and what
//! follows waits for another turn. Where a piece is cut changes nothing of what a stream spells. A content may spell
//! heads as well: so while a request is incomplete, a piece has some bytes at least, and such a content costs a few
//! turns and not one for each of them.
ghost use Rattle.std.specs.Prelude.{◌<◌, ◌≤◌, length};

use memchr::memchr;

/// The bytes of a version, as `HTTP/1.1`.
const VERSION: usize = 8;

/// Inside a request a piece has at least this many bytes, if as many have come. They hold no more than a dozen
/// requests.
pub const LEAST_PIECE_BYTES: usize = 256;

/// Whether a line ends in a version, as a request line does that isn't refused (RFC 9112, section 3).
fn ends_in_version(line: &[u8]) -> bool {
    let text = match line {
        [text @ .., b'\r'] => text,
        text => text,
    };
    match text.get(text.len().saturating_sub(VERSION)..) {
        Some(version) => version.len() == VERSION && version.starts_with(b"HTTP/1."),
        None => false,
    }
}

/// Where the first head ends whose request line ends at an index or later: behind the first empty line that follows it.
fn head_end_from(bytes: &[u8], from: usize) -> Option<usize> {
    let mut at = from;
    let mut is_begun = false;
    for _line in 0..bytes.len() {
        let left = bytes.get(at..)?;
        let length = memchr(b'\n', left)?;
        is_begun = is_begun || ends_in_version(left.get(..length)?);
        at = at.saturating_add(length).saturating_add(1);
        if is_begun {
            match bytes.get(at..)? {
                [b'\n', ..] => return Some(at.saturating_add(1)),
                [b'\r', b'\n', ..] => return Some(at.saturating_add(2)),
                _ => {}
            }
        }
    }
    None
}

/// How many of the bytes are handed in: as far as the first empty line behind a request line that ends at an index or
/// later, or all.
pub fn head_end(bytes: &[u8], from: usize) -> usize
    ensures within { result ≤ length bytes.now }
    ensures some { 0 < length bytes.now → 0 < result }
{
    match head_end_from(bytes, from) {
        Some(end) => end.max(1).min(bytes.len()),
        None => bytes.len(),
    }
}
