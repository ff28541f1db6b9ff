//! Worked cases of what this crate's definitions say.

pub use crate::end_cases::{
    worked_clients_with_input, worked_ends_of_waits, worked_times_of_clients, worked_times_of_links,
};
