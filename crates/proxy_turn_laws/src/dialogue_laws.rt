//! Laws on what is said on a connection: which reply answers which request.
ghost use Rattle.proxy_turn_laws.specs.Dialogue.{RepliesFollowRequests, RepliesEqualRequestsOrOneFewer};
ghost use Rattle.proxy_turn_laws.specs.Dialogue.{NoRequestIsAnsweredTwice, NoReplyWithoutARequest};
ghost use Rattle.proxy_turn_laws.specs.Dialogue.{NoRequestIsPassedOverByALaterOne, NothingFollowsALeave};
ghost use Rattle.proxy_turn_laws.specs.Dialogue.{NoActRepliesTwiceToAClient};

use proxy_engine::laws::{effects_name_open_ends, ended_connections_and_links_stay_ended};

/// Whatever an engine lives through, on each connection each reply follows its own request (RFC 9112, section 9.3.2):
/// a request is served only where each before it was answered, the nth reply answers the nth request, none is answered
/// twice, and behind a client that went away nothing is said. So no client is handed the answer to another request.
pub fn each_reply_answers_its_own_request()
    ensures { RepliesFollowRequests }
{
    effects_name_open_ends();
    ended_connections_and_links_stay_ended();
}

/// So a client has as many replies as it sent requests, or one fewer. A trace in which two replies come for one request
/// is refused, and so are a reply that nobody asked for, a request that a later one passes over, and anything that is
/// said behind a client that went away. No engine lives by an act that tells its client two replies.
pub fn no_dialogue_has_a_reply_out_of_turn()
    ensures counts { RepliesEqualRequestsOrOneFewer }
    ensures twice { NoRequestIsAnsweredTwice }
    ensures unasked { NoReplyWithoutARequest }
    ensures passed_over { NoRequestIsPassedOverByALaterOne }
    ensures behind { NothingFollowsALeave }
    ensures life { NoActRepliesTwiceToAClient }
{
    each_reply_answers_its_own_request();
}
