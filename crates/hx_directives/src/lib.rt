//! Cache-Control: which directives occur in a message, and what they say (RFC 9111, section 5.2).
//!
//! Contracts see `Directives` as the list of occurrences, `occurrences_of` the message's fields; what is
//! asked of them is defined in `specs/Answers.antt`. Which rule reads which directive is decided above.
#![tactic(auto)]

mod answers;
mod arguments;
mod cache_control;
pub mod laws;
mod limits;
mod names;
mod numbers;
mod occurrences;

pub use answers::{MaxStale, Seconds};
pub use arguments::Argument;
pub use cache_control::Directives;
pub use limits::MOST_SECONDS;
pub use names::Directive;
pub use numbers::capped_seconds;
pub use occurrences::Occurrence;
