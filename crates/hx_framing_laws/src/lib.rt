//! Laws on heads of messages: what is taken as a head is what the standard writes, both ways (RFC 9112,
//! sections 2 to 5).
//!
//! `specs/Characters.antt`, `Lines.antt` and `Heads.antt` have the standard's ABNF, production by production, with what
//! this proxy chooses where the standard leaves a choice. `hx_framing` says which bytes are a head by the grammar of
//! `httparse`; here that grammar and the ABNF are shown to be the same. Nothing here runs.
#![tactic(auto)]

mod head_laws;
mod line_cases;

pub use crate::head_laws::{
    a_read_request_begins_with_its_head, a_read_response_begins_with_its_head,
    field_values_have_no_blanks_at_their_ends, request_heads_taken_are_those_of_the_grammar,
    response_heads_taken_are_those_of_the_grammar,
};
pub use crate::line_cases::{worked_field_lines, worked_heads, worked_request_lines};
