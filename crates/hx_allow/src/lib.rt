//! The operator's table: which requests go to which origin, and the limits of the store.
//!
//! `Table::read` takes a TOML text or names its first fault; `judge` names the first line that matches a
//! request. What a table is and when a line matches is in `specs/`.
#![tactic(auto)]

mod addresses;
mod config;
mod config_faults;
mod config_reading;
mod cookie_cases;
mod cookie_laws;
mod cookies;
mod fault_text_cases;
mod fault_texts;
mod host_index;
pub mod laws;
mod limits;
mod line_hosts;
mod line_paths;
mod line_tables;
mod line_word_cases;
mod line_words;
mod lines;
mod list_cases;
mod list_laws;
mod loop_cases;
mod loop_laws;
mod matching;
mod origins;
mod path_tails;
mod purge_cases;
mod purge_laws;
mod purge_mode_cases;
mod purge_modes;
mod purges;
mod range_cases;
mod rows;
mod shadows;
mod table_cases;
mod table_laws;
mod tables;
mod tag_cases;
mod tags;
mod timeout_cases;
mod values;
mod vary_cases;
mod verdicts;
mod via;
mod wait_cases;
mod worked_cases;

pub use config::Table;
pub use config_faults::{LineOption, NumberKey, TableFault};
pub use limits::{MOST_LINES, MOST_TABLE_BYTES};
pub use purge_modes::{PurgeMode, request_purge_mode_or_remove};
pub use purges::{PurgeScope, purge_scope_of_request};
pub use tags::{purge_tag_or_none, response_names_tag};
pub use verdicts::{RouteOverLine, Verdict};
