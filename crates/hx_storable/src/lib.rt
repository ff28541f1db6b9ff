//! Whether a response may be stored, and which rule is the first against it (RFC 9111, sections 3 and 3.5).
//!
//! The rules and their order stand in `specs/Rules.antt`; what they come to, in the standard's own list, is
//! `specs/Storable.antt`, and `laws` proves it. What the store and the operator know of an answer is handed in as
//! `StoringFacts`: nothing here reads a clock, a store or a table, and no memory is taken.
#![tactic(auto)]

mod known_facts;
pub mod laws;
mod rule;
mod storing_rules;

pub use crate::known_facts::StoringFacts;
pub use crate::rule::StoreRule;
pub use crate::storing_rules::first_rule_against;
