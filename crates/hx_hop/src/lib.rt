//! Messages between their two connections: what every later rule sees of a request and of a response, and what goes
//! to the origin (RFC 9110, section 7.6).
//!
//! `ask` and `answered` take out what concerns one connection alone, which `strip` says; `answered` gives a response
//! one valid Date; `forward_request` adds what the next connection needs. The law is in `specs/`: `Asking.antt`,
//! `Answering.antt`, `Stripping.antt`, `Moments.antt` and `Forwarding.antt`, with what they mean in
//! `PassedOnFields.antt`.
//! Nothing here knows the store or the operator's table, and no clock is read.
#![tactic(auto)]

mod asking;
mod conditions;
mod dated_responses;
mod forwarding;
pub mod laws;
mod named_lines;
mod request_view;
mod response_view;
mod stripping;

pub use asking::ask;
pub use conditions::Conditions;
pub use dated_responses::{answered, date_text, dated};
pub use forwarding::forward_request;
pub use request_view::Asked;
pub use response_view::Answered;
pub use stripping::{connection_names_caching_field, strip};
