//! What a request asks for: the target and the Host field, read into a cache key and a path for the
//! operator's table (RFC 9110, section 7.1; RFC 9112, section 3.2).
//!
//! A target is judged in one way, by `TargetIsJudged` in `specs/Judgement.antt`; the least of the numbered faults
//! is answered. Nothing here knows the operator's table or the store.
#![tactic(auto)]

mod escapes;
mod hosts;
mod key_hash;
mod key_order;
mod keys;
pub mod laws;
mod limits;
mod origin_form;
mod paths;
mod sharing;
mod target_fault;
mod target_reading;
mod targets;

pub use escapes::{has_bad_escape, table_path};
pub use hosts::{is_host, number_of_few_digits};
pub use keys::Key;
pub use paths::{has_dot_segment, table_path_has_dot_segment};
pub use target_fault::TargetFault;
pub use target_reading::read_target;
pub use targets::Target;
