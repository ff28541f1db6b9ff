//! What a stream of the system is, to a client or an origin, and what is known of it: bytes that it is still to take,
//! whether something may have come, and when a byte last came or went. No call waits.
//!
//! What passes between a peer and its stream is said over the trait `Stream`; the system answers for its own.
#![tactic(auto)]

pub mod laws;
mod peer;
mod peer_cases;
mod socket;
mod stream;
mod unsent;

pub use crate::peer::{Peer, held_bytes_after_change};
pub use crate::socket::Socket;
pub use crate::stream::Stream;
