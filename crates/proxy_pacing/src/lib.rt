//! How much of what a client sent is handed in at a time, who comes next by moments, and the queues of those that were
//! closed. No socket is used here.
#![tactic(auto)]

pub mod laws;
mod moments;
mod pieces;
mod rest;
mod stream_queues;

pub use crate::moments::{Moment, Moments};
pub use crate::pieces::{LEAST_PIECE_BYTES, head_end};
pub use crate::rest::InputNotHandedIn;
pub use crate::stream_queues::{ClosedStreamQueue, ClosedStreamQueues};
