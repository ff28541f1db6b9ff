//! Laws on what a turn writes, and on the order in which it acts.
ghost use Rattle.proxy_turn_laws.specs.ActsOfATurn.{RoundsWithoutFailureAreActsInOrder};
ghost use Rattle.proxy_turn_laws.specs.ActsOfATurn.{ATurnWithoutFailureDoesActsInOrder, ATurnWritesItsEffects};
ghost use Rattle.proxy_turn_laws.specs.ToldOfATurn.{EachWriteReportsItsEffect};
ghost use Rattle.proxy_turn_laws.specs.WritesOfATurn.{EachWriteOfATurnIsOneMessage};
ghost use Rattle.proxy_turn_laws.specs.WritesOfATurn.{EachWriteOfATurnOverAllIsOneMessage};
ghost use Rattle.proxy_turn_laws.specs.WritesOfATurn.{ATurnWritesOnlyWholeMessages, NoRequestIsEmpty};
ghost use Rattle.proxy_turn_laws.specs.WritesOfATurn.{NoWriteHoldsTwoRequests};
ghost use Rattle.proxy_turn_laws.specs.WritesOfATurn.{NothingIsWrittenToTheListener};

use proxy_core_laws::a_core_sends_at_most_one_message_each_time;
use proxy_engine::laws::{effects_name_open_ends, ended_connections_and_links_stay_ended};
use proxy_engine_laws::{each_forward_is_one_request, each_reply_is_one_response};
use proxy_turn::laws::turns_execute_their_steps;

/// Where an engine whose table was read has lived by some steps, each write of its next turn is one message: on a link
/// one request, to a client a continue or one response (RFC 9112, sections 11.1 and 11.2).
pub fn each_write_of_a_turn_is_one_message()
    ensures over { EachWriteOfATurnIsOneMessage }
    ensures whole { EachWriteOfATurnOverAllIsOneMessage }
{
    each_forward_is_one_request();
    each_reply_is_one_response();
    turns_execute_their_steps();
}

/// So a turn among whose calls stands one that writes no message, or more than one, is none: a write of no bytes on a
/// link, a write of two requests, and any to the listener.
pub fn a_turn_writes_only_whole_messages()
    ensures turn { ATurnWritesOnlyWholeMessages }
    ensures empty { NoRequestIsEmpty }
    ensures two { NoWriteHoldsTwoRequests }
    ensures listener { NothingIsWrittenToTheListener }
{
    each_write_of_a_turn_is_one_message();
    a_core_sends_at_most_one_message_each_time();
}

/// A turn amid which no call fails does its acts one after another, each the first that was due, as the play of a
/// script does them (`FirstDueActsAreDoneInOrder` of proxy_replay). No end is lost in it.
pub fn a_turn_without_failure_does_acts_in_order()
    ensures rounds { RoundsWithoutFailureAreActsInOrder }
    ensures turn { ATurnWithoutFailureDoesActsInOrder }
{}

/// And then the turn of an engine that has lived by some steps writes the effects of its acts: each reply to its client
/// and each request on its new link whole, once, in order, and nothing else. It leaves out no more than the shutting of
/// a link that had failed before.
pub fn a_turn_writes_its_effects()
    ensures { ATurnWritesItsEffects }
{
    effects_name_open_ends();
    ended_connections_and_links_stay_ended();
    turns_execute_their_steps();
}

/// What sockets are told of bytes to a client is what the effect tells whose bytes they are, and `proxy_engine` says
/// that this is what the reply is (`effects_report_replies_truthfully`). Of a request on a link they are told nothing.
pub fn each_write_reports_its_effect()
    ensures { EachWriteReportsItsEffect }
{}
