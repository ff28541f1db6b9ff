//! Laws on what a server writes, and on what a replay of its record does.
ghost use Rattle.proxy_record_laws.specs.LivesOfAServer.{AServerBegins, NewServerBeginsRecordedLife};
ghost use Rattle.proxy_record_laws.specs.LivesOfAServer.{ALifeIsAnExecution};
ghost use Rattle.proxy_record_laws.specs.LivesOfAServer.{AServedTurnContinuesTheLife};
ghost use Rattle.proxy_record_laws.specs.LivesOfAServer.{ATurnOutOfLinkNumbersContinuesTheLife};
ghost use Rattle.proxy_record_laws.specs.LivesOfAServer.{ARecordedTurnSendsItsEffects};
ghost use Rattle.proxy_record_laws.specs.LivesOfAServer.{ARecordReplaysWhatWasServed};
ghost use Rattle.proxy_record_laws.specs.LivesOfAServer.{AnEndedRecordReplaysWhatWasServed};
ghost use Rattle.proxy_record_laws.specs.MessagesOfAServer.{EachWriteOfAServerIsOneMessage};
ghost use Rattle.proxy_record_laws.specs.MessagesOfAServer.{EachWriteOfALifeIsOneMessage};
ghost use Rattle.proxy_record_laws.specs.MessagesOfAServer.{RepliesOfAServerFollowRequests};
ghost use Rattle.proxy_record_laws.specs.OneThing.{ATurnTakesAtMostOneHappening, ATurnTakesNoSecondHappening};
ghost use Rattle.proxy_record_laws.specs.PlaysOfARecord.{ATurnContinuesThePlay, AnEndLossContinuesThePlay};
ghost use Rattle.proxy_record_laws.specs.PlaysOfARecord.{AWholePlayExtendsThePlaySoFar};

use hx_allow::laws::reading_of_a_table_is_unique;
use proxy_engine::laws::{an_act_is_done_in_one_way, one_act_is_due_first};
use proxy_record::laws::{a_record_is_a_script, what_a_turn_takes_is_recorded};
use proxy_replay::laws::a_script_has_one_play;
use proxy_script::laws::items_are_found_as_they_are_spelled;
use proxy_turn::laws::{a_reachable_engine_stays_reachable, turns_execute_their_steps};
use proxy_turn_laws::{
    a_turn_without_failure_does_acts_in_order, a_turn_writes_its_effects,
    each_reply_answers_its_own_request, each_write_of_a_turn_is_one_message,
};

/// A turn of whose calls one thing at most is taken, and none failed, takes it first, and then does acts one after
/// another, each the first that was due: so as a script has a happening, and what is due behind it.
pub fn a_turn_takes_at_most_one_happening()
    ensures turn { ATurnTakesAtMostOneHappening }
    ensures second { ATurnTakesNoSecondHappening }
{
    a_turn_without_failure_does_acts_in_order();
}

/// The play of a record comes as far as the turns that were recorded, and the ends that were lost between them: all
/// that was noted, each thing with what was due behind it at its moment, and of the last one as much as was done.
pub fn a_record_is_played_as_far_as_its_turns()
    ensures turn { ATurnContinuesThePlay }
    ensures loss { AnEndLossContinuesThePlay }
{
    a_turn_without_failure_does_acts_in_order();
    one_act_is_due_first();
    turns_execute_their_steps();
}

/// Whoever plays all that was noted has the effects of what was played of it so far first, in order, and then those of
/// what was still due. Where nothing was due there are no others.
pub fn a_whole_play_extends_the_play_so_far()
    ensures { AWholePlayExtendsThePlaySoFar }
{
    a_script_has_one_play();
    one_act_is_due_first();
    an_act_is_done_in_one_way();
}

/// A server that `Server::new` makes is at the beginning of its life; each call of `wait_and_serve_turn` that served a
/// turn is
/// one more turn of it; and what its engine has lived through are the steps of that life.
pub fn a_server_lives_by_its_turns()
    ensures server { AServerBegins }
    ensures begins { NewServerBeginsRecordedLife }
    ensures executed { ALifeIsAnExecution }
    ensures turn { AServedTurnContinuesTheLife }
    ensures spent { ATurnOutOfLinkNumbersContinuesTheLife }
{
    a_reachable_engine_stays_reachable();
}

/// While a record is written, each turn of its server writes the effects of its acts: each reply to its client and each
/// request on its new link whole, once, in order, and nothing else. No call of them failed.
pub fn a_recorded_turn_sends_its_effects()
    ensures { ARecordedTurnSendsItsEffects }
{
    a_turn_writes_its_effects();
    what_a_turn_takes_is_recorded();
    turns_execute_their_steps();
    a_reachable_engine_stays_reachable();
}

/// Where a server that began with a record has served turns, a replay of the record writes what was served: the text of
/// the effects of all steps that the server lived through, each in order, and more only where something is still due.
/// Where the record has ended, it does so for all that was served while it was being written.
///
/// It is a law on records that were handed on to their writer without a fault, whose numbers and failures a script can
/// spell, and that a replay plays to their end.
pub fn a_record_replays_what_was_served()
    ensures whole { ARecordReplaysWhatWasServed }
    ensures ended { AnEndedRecordReplaysWhatWasServed }
{
    what_a_turn_takes_is_recorded();
    a_record_is_a_script();
    a_turn_without_failure_does_acts_in_order();
    turns_execute_their_steps();
    one_act_is_due_first();
    a_whole_play_extends_the_play_so_far();
    reading_of_a_table_is_unique();
    items_are_found_as_they_are_spelled();
}

/// Each write of a server's turn is one message (RFC 9112, sections 11.1 and 11.2): a request on a link, a continue
/// or a response to a client. No byte of a client's or of an origin's ends it early, or stands behind it.
///
/// So it is of each turn in the life of a server that began with a table that was read.
pub fn each_write_of_a_server_is_one_message()
    ensures turn { EachWriteOfAServerIsOneMessage }
    ensures life { EachWriteOfALifeIsOneMessage }
{
    each_write_of_a_turn_is_one_message();
    a_reachable_engine_stays_reachable();
    a_server_lives_by_its_turns();
}

/// Whatever a server lives through, on each connection each reply follows its own request (RFC 9112, section 9.3.2): no
/// request is answered twice, and none is passed over by a later one.
pub fn replies_of_a_server_follow_requests()
    ensures { RepliesOfAServerFollowRequests }
{
    each_reply_answers_its_own_request();
    a_server_lives_by_its_turns();
}
