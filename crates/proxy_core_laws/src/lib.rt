//! Laws on what the definitions of `proxy_core` come to, in the words of the RFCs, beside those that stand there. Each
//! function's contract is a law, and its body is empty. Nothing here runs.
#![tactic(auto)]

mod answer_laws;
mod cookie_laws;
mod loop_laws;
mod message_laws;
mod tag_laws;
mod vary_laws;

pub use crate::answer_laws::{
    a_client_gets_its_304_where_it_may, a_client_gets_one_response,
    a_head_with_room_is_sent_as_one_response, a_held_head_has_a_bound,
    a_stored_response_is_sent_as_one, held_responses_can_be_sent_after_a_restart,
};
pub use crate::cookie_laws::{
    a_cookie_is_sent_only_to_its_requester, a_named_cookie_bypasses_the_store,
};
pub use crate::loop_laws::a_looped_request_is_recognized;
pub use crate::message_laws::{
    a_core_sends_at_most_one_message_each_time, what_was_read_can_be_sent,
};
pub use crate::tag_laws::hidden_tags_are_sent_to_no_client;
pub use crate::vary_laws::a_sent_response_has_the_requests_vary_values;
