//! What a line of the operator's table says of caching, and the statuses that a cache may give a lifetime.
//!
//! A `Policy` is handed to the rules of storing and reuse, which say what each of its words does. Nothing here reads a
//! table, a message or a clock, and no memory is taken.
#![tactic(auto)]

mod heuristics;
pub mod laws;
mod words;

pub use crate::heuristics::is_heuristic_status;
pub use crate::words::Policy;
