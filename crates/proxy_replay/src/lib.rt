//! The replay: a script of what happened is played through an engine, and its effects are written.
//! It opens no socket and reads no clock; the server that does is `proxy_server`.
//!
//! What a play of a script is stands in `specs/Played.antt`, and what a replay gives in `specs/Replay.antt`. The
//! reader is read to its end first; then the items are played one by one, and the effects of each happening are
//! written whole. A fault's line on standard error is in `specs/FaultLines.antt`.
#![tactic(auto)]

mod bytes;
mod fault_lines;
pub mod laws;
mod memory;
mod new_shelf;
mod openings;
mod play;
mod playing_items;
pub mod program;
mod replay_fault;
mod replay_laws;

pub use crate::memory::replayed;
pub use crate::play::{replay, replay_over_list_shelf, replay_over_store};
pub use crate::replay_fault::ReplayFault;
