//! Whether a stored response may answer a request, and which rule is the first against it (RFC
//! 9111, section 4), under what the request's line of the operator's table says of caching.
//!
//! The rules and their order stand in `specs/Rules.antt`, those after an error in
//! `specs/ErrorRules.antt`, what is sent while one asks the origin about it in `specs/WhileRevalidating.antt`, their
//! words in `specs/RuleNames.antt`. What they come to, in the standards' own lists, is
//! `specs/Reusable.antt` and `specs/OnError.antt`, what an origin can rely on `specs/Promises.antt`, and what
//! the words of a line change `specs/LineWordsInReuse.antt`; `laws` proves it. `specs/Conditions.antt` says
//! whose matter the conditions of a client are, `specs/FilledRanges.antt` whose its ranges are. Nothing here reads a
//! clock or changes a store.
#![tactic(auto)]

mod chosen;
mod conditions;
mod decision;
mod filled_ranges;
pub mod laws;
mod lifetimes;
mod on_error;
mod reuse_rules;
mod rule;
mod while_revalidating;
mod worked_cases;

pub use crate::conditions::{forwards_client_condition, withholds_conditions};
pub use crate::decision::{Decision, decide};
pub use crate::filled_ranges::{fetches_whole_for_range, forwards_range, request_without_range};
pub use crate::lifetimes::{lifetime_of_stored_response, lifetime_under_policy};
pub use crate::on_error::may_serve_on_error;
pub use crate::rule::{ErrorRule, ReuseRule};
pub use crate::while_revalidating::may_serve_while_revalidating;
