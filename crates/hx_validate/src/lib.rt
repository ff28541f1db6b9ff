//! Validation: which conditions ask an origin about a stored response, whether a 304 answers it and what it makes of
//! it, and when a client gets a 304 itself (RFC 9111, section 4.3; RFC 9110, sections 8.8 and 13).
//!
//! The definitions are in `specs/EntityTags.antt`, `specs/Validators.antt`, `specs/Answering.antt`,
//! `specs/NotModified.antt`, `specs/Ranges.antt` and `specs/Room.antt`. Nothing here knows whether an entry is held, or
//! which rule forwarded a request.
#![tactic(auto)]

mod client_conditions;
mod entity_tags;
mod freshening;
pub mod laws;
mod matching_304;
pub mod range_laws;
mod ranges;
mod room;
mod stored_validators;

pub use client_conditions::{
    client_wants_304, client_wants_304_for_answer, not_modified_fields,
    not_modified_fields_of_answer,
};
pub use entity_tags::{strong_eq, weak_eq};
pub use freshening::freshened;
pub use matching_304::answers;
pub use ranges::{
    ByteRange, RangeAnswer, answer_to_range, answer_unsatisfied_fields, fields_of_206_part,
    range_answer, range_answer_of, range_asked, unsatisfiable_range_fields,
};
pub use room::head_leaves_room;
pub use stored_validators::{conditions, has_validator};
