//! What the words of the promises say of each kind of event and outcome, and of a trace, computed
//! from them: each function's contract is the cases, and its body is empty.

ghost use Rattle.std.specs.Prelude.{◌≡◌, ◌∷◌, [], Some, None, true, false, codes};
ghost use Rattle.hx_status.specs.declared.cause.FailKind.TheVariants as kinds;
ghost use Rattle.proxy_core.specs.declared.event.Event.TheVariants.{Arrive, Answer, Fail, Wake, Abandon, Overdue};
ghost use Rattle.proxy_core.specs.declared.outcome.Outcome.TheVariants.{Forward, Waits, Ended, WaitsNoMore};
ghost use Rattle.proxy_core.specs.Traces.{trace_of_events};
ghost use Rattle.proxy_core.specs.Promises.{latest_request_of, outcome_ends_exchange, outcome_goes_forward};
ghost use Rattle.proxy_core.specs.Promises.{is_arrival_event, outcome_is_reply, reply_uses_no_stored_response};
ghost use Rattle.proxy_core.specs.Promises.{some_item_overtakes_key, count_of_outcomes_of_id};
ghost use Rattle.proxy_core.specs.TraceMeaning.{exchange_has_ended, count_of_items_that_store, outcome_opens_exchange};
ghost use Rattle.proxy_core.specs.Carrying.{is_arrival_or_wake};
ghost use Rattle.proxy_core.specs.Waiting.{open_exchange_has_ended, is_wake_event, request_wait_timed_out};
ghost use Rattle.proxy_core.specs.Waiting.{request_was_woken};
ghost use Rattle.proxy_core.specs.Cases.{key_of_path, response_with};
ghost use Rattle.proxy_core.specs.WrongTraces.{response_fresh_for_a_minute, get_a, get_b, forward_over_line_3};
ghost use Rattle.proxy_core.specs.WrongTraces.{trace_that_sends_invalidated_a, trace_that_sends_stored_a_after_delete};
ghost use Rattle.proxy_core.specs.WrongTraces.{item_with_outcome};
ghost use Rattle.proxy_core.specs.WrongTraces.{reply_without_store, reply_that_sends_stored, trace_with_two_replies};

/// Which events are arrivals, which are wakes, and which judge a request.
pub fn worked_kinds_of_events()
    ensures arrival_arrives { is_arrival_event (Arrive 1 2 get_a) ≡ true }
    ensures answer_arrives { is_arrival_event (Answer 1 2 response_fresh_for_a_minute) ≡ false }
    ensures failure_arrives { is_arrival_event (Fail 1 2 kinds.Refused) ≡ false }
    ensures wake_arrives { is_arrival_event (Wake 1 2) ≡ false }
    ensures abandoning_arrives { is_arrival_event (Abandon 2) ≡ false }
    ensures overdue_arrives { is_arrival_event (Overdue 2) ≡ false }
    ensures arrival_wakes { is_wake_event (Arrive 1 2 get_a) ≡ false }
    ensures answer_wakes { is_wake_event (Answer 1 2 response_fresh_for_a_minute) ≡ false }
    ensures failure_wakes { is_wake_event (Fail 1 2 kinds.Refused) ≡ false }
    ensures wake_wakes { is_wake_event (Wake 1 2) ≡ true }
    ensures abandoning_wakes { is_wake_event (Abandon 2) ≡ false }
    ensures overdue_wakes { is_wake_event (Overdue 2) ≡ false }
    ensures arrival_judges { is_arrival_or_wake (Arrive 1 2 get_a) ≡ true }
    ensures answer_judges { is_arrival_or_wake (Answer 1 2 response_fresh_for_a_minute) ≡ false }
    ensures failure_judges { is_arrival_or_wake (Fail 1 2 kinds.Refused) ≡ false }
    ensures wake_judges { is_arrival_or_wake (Wake 1 2) ≡ true }
    ensures abandoning_judges { is_arrival_or_wake (Abandon 2) ≡ false }
    ensures overdue_judges { is_arrival_or_wake (Overdue 2) ≡ false }
{}

/// Which outcomes go forward, reply, open an exchange and end one, and which send nothing that is held.
pub fn worked_kinds_of_outcomes()
    ensures reply_goes { outcome_goes_forward (reply_without_store []) ≡ false }
    ensures forward_goes { outcome_goes_forward forward_over_line_3 ≡ true }
    ensures wait_goes { outcome_goes_forward (Waits 1) ≡ false }
    ensures end_goes { outcome_goes_forward Ended ≡ false }
    ensures reply_replies { outcome_is_reply (reply_without_store []) ≡ true }
    ensures forward_replies { outcome_is_reply forward_over_line_3 ≡ false }
    ensures wait_replies { outcome_is_reply (Waits 1) ≡ false }
    ensures end_replies { outcome_is_reply Ended ≡ false }
    ensures reply_starts { outcome_opens_exchange (reply_without_store []) ≡ false }
    ensures forward_starts { outcome_opens_exchange forward_over_line_3 ≡ true }
    ensures wait_starts { outcome_opens_exchange (Waits 1) ≡ true }
    ensures end_starts { outcome_opens_exchange Ended ≡ false }
    ensures reply_ends { outcome_ends_exchange (reply_without_store []) ≡ true }
    ensures forward_ends { outcome_ends_exchange forward_over_line_3 ≡ false }
    ensures wait_ends { outcome_ends_exchange (Waits 1) ≡ false }
    ensures end_ends { outcome_ends_exchange Ended ≡ true }
    ensures no_more_goes { outcome_goes_forward WaitsNoMore ≡ false }
    ensures no_more_replies { outcome_is_reply WaitsNoMore ≡ false }
    ensures no_more_starts { outcome_opens_exchange WaitsNoMore ≡ false }
    ensures no_more_ends { outcome_ends_exchange WaitsNoMore ≡ false }
    ensures own_is_not_held { reply_uses_no_stored_response (reply_without_store []) ≡ true }
    ensures stored_is_held { reply_uses_no_stored_response (reply_that_sends_stored 1 []) ≡ false }
    ensures forward_sends_nothing { reply_uses_no_stored_response forward_over_line_3 ≡ false }
{}

/// What is counted in a trace: by id, and no other's.
pub fn worked_counts_of_traces()
    ensures latest_first { trace_of_events (Arrive 1 1 get_a ∷ Arrive 2 2 get_b ∷ [])
        (forward_over_line_3 ∷ reply_without_store [] ∷ [])
        ≡ item_with_outcome (Arrive 2 2 get_b) (reply_without_store [])
        ∷ item_with_outcome (Arrive 1 1 get_a) forward_over_line_3 ∷ [] }
    ensures forwards { count_of_outcomes_of_id outcome_goes_forward 1 trace_with_two_replies ≡ 1 }
    ensures replies { count_of_outcomes_of_id outcome_is_reply 1 trace_with_two_replies ≡ 2 }
    ensures of_another { count_of_outcomes_of_id outcome_is_reply 2 trace_with_two_replies ≡ 0 }
    ensures stored { count_of_items_that_store trace_that_sends_invalidated_a ≡ 1 }
    ensures asked { latest_request_of 1 trace_with_two_replies ≡ Some get_a }
    ensures asked_last { latest_request_of 1 (item_with_outcome (Arrive 9 1 get_b) forward_over_line_3
        ∷ trace_with_two_replies)
        ≡ Some get_b }
    ensures asked_by_nobody { latest_request_of 2 trace_with_two_replies ≡ None }
    ensures ended { exchange_has_ended 1 trace_with_two_replies ≡ true }
    ensures another_ended { exchange_has_ended 2 trace_with_two_replies ≡ false }
    ensures closed { open_exchange_has_ended 1 trace_with_two_replies ≡ true }
    ensures not_by_its_arrival { open_exchange_has_ended 1
        (item_with_outcome (Arrive 1 1 get_a) (reply_without_store [])
        ∷ [])
        ≡ false }
    ensures another_closed { open_exchange_has_ended 2 trace_with_two_replies ≡ false }
    ensures woken { request_was_woken 2 (item_with_outcome (Wake 5 2) forward_over_line_3 ∷ trace_with_two_replies)
        ≡ true }
    ensures another_woken { request_was_woken 1 (item_with_outcome (Wake 5 2) forward_over_line_3
        ∷ trace_with_two_replies) ≡ false }
    ensures overdue { request_wait_timed_out 2 (item_with_outcome (Overdue 2) WaitsNoMore ∷ trace_with_two_replies)
        ≡ true }
    ensures another_overdue { request_wait_timed_out 1 (item_with_outcome (Overdue 2) WaitsNoMore
        ∷ trace_with_two_replies) ≡ false }
    ensures woken_is_not_overdue { request_wait_timed_out 2 (item_with_outcome (Wake 5 2) forward_over_line_3
        ∷ trace_with_two_replies)
        ≡ false }
    ensures not_woken { request_was_woken 2 (item_with_outcome (Abandon 2) Ended ∷ trace_with_two_replies) ≡ false }
    ensures invalidated { some_item_overtakes_key (key_of_path (codes "/a")) trace_that_sends_invalidated_a [] ≡ true }
    ensures another_key { some_item_overtakes_key (key_of_path (codes "/b")) trace_that_sends_invalidated_a [] ≡ false }
    ensures by_a_304 { some_item_overtakes_key (key_of_path (codes "/a"))
        (trace_that_sends_stored_a_after_delete (response_with 304 [])) []
        ≡ true }
    ensures by_no_error { some_item_overtakes_key (key_of_path (codes "/a"))
        (trace_that_sends_stored_a_after_delete (response_with 404 [])) []
        ≡ false }
{}
