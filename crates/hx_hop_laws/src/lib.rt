//! Laws on what goes on of a message: it is one message still, whatever it was (RFC 9112, sections 6.3 and 11.2).
//!
//! They join what `hx_framing` says of reading and writing, `hx_target` of targets, and `hx_hop` of
//! what goes forward. Each function's contract is a law, and its body is empty. Nothing here runs.
#![tactic(auto)]

mod message_laws;

pub use crate::message_laws::{
    a_read_request_has_writable_parts, one_request_goes_forward, one_response_is_passed_on,
};
