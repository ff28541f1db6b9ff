//! Laws on a server: each of its writes is one message, and a replay of its record does what was done. Each function's
//! contract is a law, and its body calls the laws that it follows from. Nothing here runs.
#![tactic(auto)]

mod record_laws;

pub use crate::record_laws::{
    a_record_is_played_as_far_as_its_turns, a_record_replays_what_was_served,
    a_recorded_turn_sends_its_effects, a_server_lives_by_its_turns,
    a_turn_takes_at_most_one_happening, a_whole_play_extends_the_play_so_far,
    each_write_of_a_server_is_one_message, replies_of_a_server_follow_requests,
};
