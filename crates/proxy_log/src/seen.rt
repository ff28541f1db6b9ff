//! What is seen of a reply, or of a request that never had one.

/// What is known of a reply beside what it tells, or of a request that never had one.
#[derive(Clone, Copy, Debug)]
pub struct ReplyObservation<'a> {
    /// When it was written, or its client had gone, in milliseconds since 1970.
    pub moment: u64,
    /// The client's address and port.
    pub client: &'a [u8],
    /// From the request's first byte to that, in milliseconds.
    pub took: u64,
    /// The address of the origin that was asked; empty where none was.
    pub origin: &'a [u8],
}
