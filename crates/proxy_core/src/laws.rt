//! What the definitions of a good trace come to, for a reader who has to believe them.

ghost use Rattle.proxy_core.specs.TraceMeaning.{ExchangeIsOpenFromArrivalToEnd, ExchangeOpensByArrivalAlone};
ghost use Rattle.proxy_core.specs.TraceMeaning.{OpenExchangeHasItsRequest, OpenExchangeKeepsItsRule};
ghost use Rattle.proxy_core.specs.TraceMeaning.{ExchangeIsOvertakenWhereInvalidated, NextSerialIsFirstPlusStoredCount};
ghost use Rattle.proxy_core.specs.TraceMeaning.{StoredResponseHasTheNextSerial, EventsDetermineTheTrace};
ghost use Rattle.proxy_core.specs.TraceMeaning.{GoodOverStoreListIsGoodOverSerials, GoodOverSerialsIsGoodOverStoreList};
ghost use Rattle.proxy_core.specs.TraceMeaning.{CoreHasTheHeldResponsesOfItsTrace, CoreKeepsTheOpenExchanges};
ghost use Rattle.proxy_core.specs.TraceMeaning.{CoreHasTheNextSerialOfItsTrace};
ghost use Rattle.proxy_core.specs.Bounds.{WithoutByteBoundHeldIsByNumber, HeldResponsesAreWithinTheBounds};
ghost use Rattle.proxy_core.specs.Bounds.{StoreChangesFollowFromOutcomes};
ghost use Rattle.proxy_core.specs.Bounds.{StoredResponseIsHeldIfRoom, StoredWeighsNoMoreThanTheStore};
ghost use Rattle.proxy_core.specs.Carrying.{OpenExchangeRecordsHowItWasJudged, ExchangesAreOpenInOrderOfArrival};
ghost use Rattle.proxy_core.specs.Driving.{EachDrivenCoreKeepsThePromises};
ghost use Rattle.proxy_core.specs.Headline.{EveryGoodTraceHasTheHeadline, NoOtherTraceHasTheHeadline};
ghost use Rattle.proxy_core.specs.FilledRanges.{FilledRangeIsForwardedAsTheWhole, FilledRangeForwardsNoRangeField};
ghost use Rattle.proxy_core.specs.FilledRanges.{FilledRangeLeadsLikeTheWhole, AnswerIsCutLikeAStoredResponse};
ghost use Rattle.proxy_core.specs.FilledRanges.{PartialAnswerHasRangeBytes};
ghost use Rattle.proxy_core.specs.FilledRanges.{UnsatisfiableRangeOfAnswerGets416, OnlyA200AnswerIsCutToTheRange};
ghost use Rattle.proxy_core.specs.FilledRanges.{IfRangeMismatchGetsWholeAnswer};
ghost use Rattle.proxy_core.specs.FilledRanges.{AnswerIsWholeUnlessRangeIsFilled, WholeAnswerIsStored};
ghost use Rattle.proxy_core.specs.KeptConditions.{FalseConditionGetsA304, TrueOrNoConditionGetsTheAnswer};
ghost use Rattle.proxy_core.specs.KeptConditions.{NoClientsConditionGoesForward, WithheldConditionLeadsLikeNone};
ghost use Rattle.proxy_core.specs.KeptConditions.{Unrequested304IsAnOriginFailure};
ghost use Rattle.proxy_core.specs.Naming.{EachAnswerNotFromStoreNamesFirstRule};
ghost use Rattle.proxy_core.specs.RangeReplies.{ConditionIsJudgedBeforeRange, LineForwardingRangesSendsWhole};
ghost use Rattle.proxy_core.specs.RangeReplies.{RequestWithoutSingleRangeGetsWhole, StoredPartialReplyHasRangeBytes};
ghost use Rattle.proxy_core.specs.RangeReplies.{UnsatisfiableRangeOfStoredGets416};
ghost use Rattle.proxy_core.specs.Restarts.{TraceSplitsAtARestart, RestartedTraceLeavesSameState};
ghost use Rattle.proxy_core.specs.Restarts.{TracesAroundARestartJoin};
ghost use Rattle.proxy_core.specs.Sending.{StoredResponseIsSentWhereverItMayBe, StoredResponseIsSentOnlyWhereItMayBe};
ghost use Rattle.proxy_core.specs.Sending.{SentReplyIsTheHeldResponse};
ghost use Rattle.proxy_core.specs.Sending.{ArrivalIsForwardedWhereverItMayBe, ArrivalIsForwardedOnlyWhereItMayBe};
ghost use Rattle.proxy_core.specs.Sending.{AllowedRequestReachesCacheOrOrigin};
ghost use Rattle.proxy_core.specs.Sending.{RequestNotAllowedIsRefused, PurgeRemovesOrExpiresItsScope};
ghost use Rattle.proxy_core.specs.Waiting.{RequestWaitsWhereALeaderIsOpen, RequestWaitsOnlyWhereALeaderIsOpen};
ghost use Rattle.proxy_core.specs.Waiting.{OnlyOneGetPerKeyGoesForward};
ghost use Rattle.proxy_core.specs.Waiting.{RequestWaitsUntilLeaderEndsOrTimeout};
ghost use Rattle.proxy_core.specs.Waiting.{RequestIsWokenOnceAfterLeaderOrTimeout, TimeoutIsAcceptedExactlyForWaiters};
ghost use Rattle.proxy_core.specs.Waiting.{OverdueRequestMayBeWoken, FirstWaiterBecomesLeader};
ghost use Rattle.proxy_core.specs.Waiting.{NoWaiterLeadsWhereNoneMay, NoWaiterLeadsWhereWaitsAreUnlimited};
ghost use Rattle.proxy_core.specs.Waiting.{ReleasedAreInOrderOfArrival};
ghost use Rattle.proxy_core.specs.Waiting.{WakeIsAcceptedExactlyWhereReady, WokenRequestIsJudgedAnew};
ghost use Rattle.proxy_core.specs.Waiting.{LineWithoutWaitWaitsForMissesOnly};
ghost use Rattle.proxy_core.specs.Awaiting.{WaiterIsServedUnlessTheResponseForbids};
ghost use Rattle.proxy_core.specs.StoredAnswers.{ItemRemovesExactlyWhatItMust, ItemPurgesWhereItsRequestPurges};
ghost use Rattle.proxy_core.specs.StoredAnswers.{ItemExpiresExactlyWhatItMust, OnlyWhatMayBeStoredIsStored};
ghost use Rattle.proxy_core.specs.StoredAnswers.{AnswerIsStoredWhereItMayBe, FreshenedIsKeptWhereAllowed};
ghost use Rattle.proxy_core.specs.StoredAnswers.{NothingElseFreshenedIsKept};
ghost use Rattle.proxy_core.specs.Uncached.{NothingIsStoredOverUncachedLine, NothingStoredIsSentOverUncachedLine};
ghost use Rattle.proxy_core.specs.Uncached.{RequestGoesForwardOverUncachedLine};

mod about_cases;
mod bound_cases;
mod cookie_cases;
mod event_cases;
mod expiring_cases;
mod headline_cases;
mod leader_cases;
mod promise_cases;
mod purge_cases;
mod purged_cases;
mod range_cases;
mod tag_cases;
mod worked_cases;

pub use about_cases::a_reply_shows_its_status_and_cache_status;
pub use bound_cases::{
    worked_answers_too_large_for_the_store, worked_store_at_the_start,
    worked_store_bounded_by_bytes, worked_weights_of_answers,
};
pub use cookie_cases::{worked_cookies_removed_on_storing, worked_cookies_that_are_sent};
pub use event_cases::{worked_counts_of_traces, worked_kinds_of_events, worked_kinds_of_outcomes};
pub use headline_cases::{
    the_headline_refuses_altered_requests, the_headline_refuses_impossible_events,
    the_headline_refuses_missing_answers, the_headline_refuses_what_may_not_be_sent,
    the_headline_refuses_what_the_table_forbids, the_headline_refuses_wrong_purges,
    the_headline_refuses_wrong_reports, the_headline_refuses_wrong_rule_names,
    the_headline_refuses_wrong_storing, the_headline_refuses_wrong_waits,
};
pub use leader_cases::{
    at_most_512_follow_the_next_leader, worked_followers_of_the_next_leader, worked_next_leaders,
};
pub use promise_cases::{
    a_denied_request_leaves_no_trace, an_exchange_goes_twice_and_replies_once,
    no_run_stops_without_a_fault, sending_what_is_invalidated_is_refused,
    worked_invalidations_by_tag, worked_requests_that_go_forward,
};
pub use purge_cases::{
    a_purge_selects_what_is_within_its_scope, worked_purge_scopes, worked_purges_with_a_tag,
};
pub use purged_cases::worked_ttl_after_a_purge;
pub use range_cases::{worked_parts_of_answers, worked_ranges_that_lead};
pub use tag_cases::{
    hidden_tags_are_never_sent, worked_tags_of_partial_replies, worked_tags_that_are_hidden,
};
pub use worked_cases::{
    worked_304_asked_for, worked_fallbacks_after_failure, worked_invalidating_answers,
    worked_leaders_for_stale_responses, worked_leaders_of_requests,
    worked_open_exchanges_after_a_step, worked_outcomes_of_answers, worked_outcomes_of_arrivals,
    worked_passed_answers, worked_requests_that_do_not_wait, worked_stale_if_error_statuses,
    worked_step_faults_and_serials, worked_storable_answers, worked_stored_replies,
    worked_stored_responses, worked_stored_responses_after_a_304,
    worked_stored_responses_after_a_step,
};

/// After a good trace an exchange is open from its arrival to its end and not else, with the
/// request and the rule of its arrival.
pub fn exchanges_are_open_from_arrival_to_end()
    ensures ends { ExchangeIsOpenFromArrivalToEnd }
    ensures alone { ExchangeOpensByArrivalAlone }
    ensures request { OpenExchangeHasItsRequest }
    ensures rule { OpenExchangeKeepsItsRule }
{}

/// After a good trace an open exchange goes to the line that allows its request, names the least
/// rule that stood at its arrival, or when it was woken, and has the conditions and the moment with
/// which it went forward last. Open exchanges stand in the order of arrival.
pub fn an_open_exchange_records_how_it_was_judged()
    ensures carries { OpenExchangeRecordsHowItWasJudged }
    ensures order { ExchangesAreOpenInOrderOfArrival }
{}

/// After a good trace an open exchange is overtaken exactly where its key was invalidated since it last went forward.
pub fn exchanges_are_overtaken_where_invalidated()
    ensures { ExchangeIsOvertakenWhereInvalidated }
{}

/// After a good trace the next serial is the first plus the number stored, and what is stored has it.
pub fn serials_are_counted()
    ensures next { NextSerialIsFirstPlusStoredCount }
    ensures stored { StoredResponseHasTheNextSerial }
{}

/// Two good traces of the same events have the same outcomes.
pub fn events_determine_the_good_trace()
    ensures { EventsDetermineTheTrace }
{}

/// The list that a core keeps has exactly what is held by the count over its history, so a trace is good over the one
/// where it is good over the other.
pub fn a_cores_entries_are_the_held_responses()
    ensures held { GoodOverStoreListIsGoodOverSerials }
    ensures listed { GoodOverSerialsIsGoodOverStoreList }
    ensures entries { CoreHasTheHeldResponsesOfItsTrace }
    ensures exchanges { CoreKeepsTheOpenExchanges }
    ensures next { CoreHasTheNextSerialOfItsTrace }
{}

/// What is held is within both bounds of the store at each moment. What is stored weighs no more than the store may,
/// and is held after the item that stores it. Where the table bounds no bytes, what is held is what is held by number.
pub fn held_responses_are_within_the_bounds()
    ensures within { HeldResponsesAreWithinTheBounds }
    ensures stored { StoredResponseIsHeldIfRoom }
    ensures weighs { StoredWeighsNoMoreThanTheStore }
    ensures by_number { WithoutByteBoundHeldIsByNumber }
    ensures changes { StoreChangesFollowFromOutcomes }
{}

/// In a good trace a request goes to the origin of a line exactly where the table allows it by that line, a rule stands
/// against a stored response, and the request takes others too.
pub fn a_request_goes_forward_where_it_is_allowed()
    ensures every { ArrivalIsForwardedWhereverItMayBe }
    ensures only { ArrivalIsForwardedOnlyWhereItMayBe }
{}

/// In a good trace a request reaches cache or origin exactly where the table allows it, and the cache alone where it
/// purges: then what is held within its scope goes. Any other is refused.
pub fn a_request_reaches_cache_or_origin_where_it_is_allowed()
    ensures allowed { AllowedRequestReachesCacheOrOrigin }
    ensures refused { RequestNotAllowedIsRefused }
    ensures purged { PurgeRemovesOrExpiresItsScope }
{}

/// In a good trace a stored response is sent exactly where one is held that RFC 9111, section 4
/// lets be reused for that request then, that a 304 validates, or that RFC 5861, section 4 lets be
/// sent in place of an error. What is sent is that response.
pub fn a_stored_response_is_sent_where_one_may_be()
    ensures every { StoredResponseIsSentWhereverItMayBe }
    ensures only { StoredResponseIsSentOnlyWhereItMayBe }
    ensures itself { SentReplyIsTheHeldResponse }
{}

/// Where a stored response is sent to a request for a range, over a line that doesn't forward ranges, its part has just
/// the bytes that are asked for of what would be sent whole, and says which they are; or a 416 says that none is there.
/// A condition that is false comes first. Over another line, and without a range, the whole is sent (RFC 9110, sections
/// 13.2.2 and 14.2).
pub fn a_part_is_cut_from_the_whole()
    ensures conditions { ConditionIsJudgedBeforeRange }
    ensures forwarded { LineForwardingRangesSendsWhole }
    ensures whole { RequestWithoutSingleRangeGetsWhole }
    ensures part { StoredPartialReplyHasRangeBytes }
    ensures unsatisfiable { UnsatisfiableRangeOfStoredGets416 }
{}

/// In a good trace each answer that isn't a stored response names the first rule against one: the
/// line of the table, the least reuse rule that stands now with the least error rule, or where the
/// answer is passed on the least that stood at the arrival, or when the request was woken.
pub fn each_answer_names_its_first_rule()
    ensures { EachAnswerNotFromStoreNamesFirstRule }
{}

/// In a good trace nothing that goes over a line without cache is stored, and no request over it is
/// answered from the store: each goes forward, and one that takes no response but a stored one is
/// told the operator's rule.
pub fn a_line_without_cache_touches_no_stored_response()
    ensures stores { NothingIsStoredOverUncachedLine }
    ensures sends { NothingStoredIsSentOverUncachedLine }
    ensures forwards { RequestGoesForwardOverUncachedLine }
{}

/// In a good trace a GET waits exactly where it could be sent the answer to another: nothing is held
/// for its key, or where its line says so the lifetime of what is held is over; and a GET for that
/// key is at the origin for this. It waits for the first of these to arrive. So while one that
/// arrived is at the origin, none that could be sent its answer goes there too. One that another rule
/// sends forward, as a GET with Range, doesn't wait.
pub fn requests_for_one_target_wait_for_the_first()
    ensures waits { RequestWaitsWhereALeaderIsOpen }
    ensures only { RequestWaitsOnlyWhereALeaderIsOpen }
    ensures one { OnlyOneGetPerKeyGoesForward }
{}

/// Over a line that doesn't let them wait for what is stale, GETs wait where nothing is held for
/// their key, and nowhere else; for any that went forward for that.
pub fn a_line_without_wait_waits_for_misses()
    ensures { LineWithoutWaitWaitsForMissesOnly }
{}

/// Over a line that lets requests wait for what is stale, one that could be sent the answer to
/// another is sent a response that is held for its key, or a rule keeps it back that looks at the
/// response: whatever is held by then, and whenever that is. Nothing of its own keeps it back, so
/// nobody waits for what could not be sent to it.
pub fn a_waiter_is_served_unless_the_response_forbids()
    ensures { WaiterIsServedUnlessTheResponseForbids }
{}

/// In a good trace a request that waits does so for one exchange that leads, and where the client of that one goes away
/// for the next that leads on, if it could be sent the answer to it; until the last of them has ended, or its own time
/// to wait is over. From then on it may be woken, once; those that may be woken stand in the order of arrival. What a
/// woken one gets is decided anew, and it doesn't wait again.
pub fn a_waiting_request_is_woken_once_after_its_leader()
    ensures waits { RequestWaitsUntilLeaderEndsOrTimeout }
    ensures once { RequestIsWokenOnceAfterLeaderOrTimeout }
    ensures order { ReleasedAreInOrderOfArrival }
    ensures ready { WakeIsAcceptedExactlyWhereReady }
    ensures anew { WokenRequestIsJudgedAnew }
{}

/// In a good trace the client of an exchange goes away before its answer. The first of those that wait for it, for a
/// limited time, and whose answer others could be sent, leads on: it may be woken. Each other waits for that one
/// exactly where it could be sent its answer, and else may be woken, too. Where none may lead on all may be woken, and
/// who waited for another exchange, or for none, stays as it was. Over a table whose waits have no end nobody leads on.
pub fn the_first_that_waits_leads_on()
    ensures leads { FirstWaiterBecomesLeader }
    ensures nobody { NoWaiterLeadsWhereNoneMay }
    ensures alone { NoWaiterLeadsWhereWaitsAreUnlimited }
{}

/// In a good trace the time to wait is over of a request that waits for the answer to another, and of no other. Then it
/// may be woken, and nothing else has changed: who waits beside it waits on, and nothing is sent yet.
pub fn an_overdue_request_may_be_woken()
    ensures waits { TimeoutIsAcceptedExactlyForWaiters }
    ensures released { OverdueRequestMayBeWoken }
{}

/// In a good trace the answer to an open exchange is stored exactly where RFC 9111, section 3 lets
/// it be, with the choices that the definition marks *own*, and no stored response is sent in its
/// place: under the next serial. What goes with a step is what a stored answer takes the place of,
/// what an unsafe request invalidates, what a 304 freshens and may not be kept, and what a request purges, which
/// expires it instead where it says so.
pub fn an_answer_is_stored_where_it_may_be()
    ensures every { AnswerIsStoredWhereItMayBe }
    ensures only { OnlyWhatMayBeStoredIsStored }
    ensures removed { ItemRemovesExactlyWhatItMust }
    ensures purges { ItemPurgesWhereItsRequestPurges }
    ensures expired { ItemExpiresExactlyWhatItMust }
{}

/// What a 304 makes of a held response is kept exactly where a response with its lines could be
/// stored (RFC 9111, sections 3 and 4.3.4), with the choices that the definition marks *own*.
pub fn a_freshened_response_is_kept_where_allowed()
    ensures every { FreshenedIsKeptWhereAllowed }
    ensures only { NothingElseFreshenedIsKept }
{}

/// No trace but a good one has the headline, where each answer of an origin has a final status: the
/// record leaves no outcome open.
pub fn no_other_trace_has_the_headline()
    ensures { NoOtherTraceHasTheHeadline }
{}

/// Every good trace has the headline.
pub fn every_good_trace_has_the_headline()
    ensures { EveryGoodTraceHasTheHeadline }
{}

/// A restart is no event: what went before it and left nothing open, and what came after it over what was held then,
/// are together one trace with the headline. The other way round a trace is two where nothing is open.
pub fn a_restart_changes_no_outcome()
    ensures one { TracesAroundARestartJoin }
    ensures two { TraceSplitsAtARestart }
    ensures left { RestartedTraceLeavesSameState }
{}

/// A client's own condition that stays with the proxy doesn't go forward, and in a good trace who set it is sent a 304
/// in place of the answer exactly where the condition is false of it. Such a request leads others as one without
/// conditions, and a 304 that comes to it unasked is a failure of its origin.
pub fn a_kept_condition_is_judged_on_the_answer()
    ensures is_false { FalseConditionGetsA304 }
    ensures other { TrueOrNoConditionGetsTheAnswer }
    ensures forward { NoClientsConditionGoesForward }
    ensures leads { WithheldConditionLeadsLikeNone }
    ensures unasked { Unrequested304IsAnOriginFailure }
{}

/// Over a line that fills ranges what goes to the origin for a range is, to the byte, what would go there for the
/// whole, without Range and If-Range, and its answer may serve others as that to the whole.
pub fn a_filled_range_goes_forward_as_the_whole()
    ensures whole { FilledRangeIsForwardedAsTheWhole }
    ensures no_range { FilledRangeForwardsNoRangeField }
    ensures leads { FilledRangeLeadsLikeTheWhole }
{}

/// Of an answer to such a request its client is sent what it would be sent of a held response that is like the answer:
/// the part that it asks for, or a 416; the whole where the answer isn't a 200, or where If-Range names another one.
/// What is stored is the whole. To any other request an answer is passed on as it came.
pub fn a_filled_range_is_cut_from_the_answer()
    ensures as_held { AnswerIsCutLikeAStoredResponse }
    ensures part { PartialAnswerHasRangeBytes }
    ensures unsatisfiable { UnsatisfiableRangeOfAnswerGets416 }
    ensures status { OnlyA200AnswerIsCutToTheRange }
    ensures if_range { IfRangeMismatchGetsWholeAnswer }
    ensures others { AnswerIsWholeUnlessRangeIsFilled }
    ensures stored { WholeAnswerIsStored }
{}

/// Whoever drives a core by its public calls has gone through a good trace, with all that each good trace keeps.
pub fn a_driven_core_keeps_the_promises()
    ensures { EachDrivenCoreKeepsThePromises }
{}
