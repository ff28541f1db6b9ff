//! What a read of a socket gives, and how many bytes it takes at most.
#![tactic(auto)]

mod received;

pub use crate::received::{PIECE, Received};
