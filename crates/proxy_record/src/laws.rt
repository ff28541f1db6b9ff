//! What always holds of what this crate does, and worked cases.

pub use crate::record_laws::{a_record_is_a_script, what_a_turn_takes_is_recorded};
