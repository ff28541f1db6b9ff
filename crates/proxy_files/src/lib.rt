//! The operator's files: a table and its faults, questions, the store that outlives a restart, a log and figures; and
//! what the system tells in files of its own. What can't be done with one is a fault of the command, with its words.
#![tactic(auto)]

mod command_fault;
mod descriptors;
mod files;
mod journal;
mod kept_store;
mod memory;
mod mistakes;
mod stats_file;

pub use crate::command_fault::{CommandFailure, fault_of, print_words, system_call_words};
pub use crate::descriptors::{
    connections_within_descriptors, descriptors_allowed, descriptors_open, descriptors_wanted,
};
pub use crate::files::{no_table_is_truncated, read_questions, read_start, read_table};
pub use crate::journal::{Journal, LogTarget, open_log_file};
pub use crate::kept_store::KeptStore;
pub use crate::memory::{
    megabytes, memory_allowed, most_bytes_held_beside_store, most_store_bytes, print_store_memory,
};
pub use crate::mistakes::config_of;
pub use crate::stats_file::{StatsFile, warn_of_other_writer};
