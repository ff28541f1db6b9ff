//! Worked cases of what this crate's definitions say.

pub use crate::server_cases::worked_turns;
