//! The record of what happens to an engine over sockets, as a script that can be replayed.
//!
//! Sockets are wrapped: what their calls give is recorded before the engine takes it. Nothing here has a socket of its
//! own.
#![tactic(auto)]

pub mod laws;
mod record_laws;
mod recorder;
mod recording;

pub use crate::recorder::{RecordFault, Recorder};
pub use crate::recording::RecordedSockets;
