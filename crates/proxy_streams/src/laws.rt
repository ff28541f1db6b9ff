//! What always holds of what this crate does, and worked cases.

pub use crate::peer_cases::worked_peer_read_outcomes;
