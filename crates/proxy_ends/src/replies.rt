//! What is told of a reply that was written.

use hx_status::ReplyData;

/// A reply that was written.
#[derive(Clone, Copy)]
pub struct Reply<'a> {
    /// When, in milliseconds since 1970.
    pub moment: u64,
    /// What it is, and what it answers.
    pub replied: &'a ReplyData,
    /// Milliseconds since the first byte of its request came.
    pub took: u64,
    /// The address of the origin that was asked for it; empty where none was.
    pub origin: &'a [u8],
}
