//! Laws on turns over sockets, and on what an engine's clients are told, above what `proxy_engine_laws` says of an
//! engine. Each function's contract is a law, and its body calls the laws that it follows from. Nothing here runs.
#![tactic(auto)]

mod dialogue_laws;
mod turn_laws;

pub use crate::dialogue_laws::{
    each_reply_answers_its_own_request, no_dialogue_has_a_reply_out_of_turn,
};
pub use crate::turn_laws::{
    a_turn_without_failure_does_acts_in_order, a_turn_writes_its_effects,
    a_turn_writes_only_whole_messages, each_write_of_a_turn_is_one_message,
    each_write_reports_its_effect,
};
