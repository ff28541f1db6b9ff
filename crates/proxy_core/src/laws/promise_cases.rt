//! Traces that the parts of the headline refuse by themselves, where no other part is asked: each
//! function's contract is that they do, one clause a trace, and its body is empty.

ghost use Rattle.std.specs.Prelude.{◌≡◌, ◌∷◌, [], Some, None, true, false, codes};
ghost use Rattle.hx_status.specs.declared.cause.FailKind.TheVariants as kinds;
ghost use Rattle.proxy_core.specs.declared.event.Event.TheVariants.{Arrive, Answer, Fail, Wake};
ghost use Rattle.proxy_core.specs.declared.outcome.Outcome.TheVariants.{Forward, Waits, Ended, WaitsNoMore};
ghost use Rattle.proxy_core.specs.declared.core_fault.CoreFault.TheVariants.{IdTaken, NotForwarded, OutOfMemory};
ghost use Rattle.proxy_core.specs.Outcomes.{forward_text};
ghost use Rattle.proxy_core.specs.Traces.{DeniedRequestsLeaveNoTrace};
ghost use Rattle.proxy_core.specs.Histories.{HistoryStopsWithFault};
ghost use Rattle.proxy_core.specs.Promises.{NothingInvalidatedIsSent, TwiceForwardOneReply};
ghost use Rattle.proxy_core.specs.Promises.{NothingInvalidatedSinceTheStartIsSent, invalidates_response};
ghost use Rattle.proxy_core.specs.Promises.{item_overtakes_key};
ghost use Rattle.proxy_core.specs.Starts.{empty_store};
ghost use Rattle.proxy_core.specs.Headline.{RequestGoesForwardOnlyWhereAllowed};
ghost use Rattle.proxy_core.specs.Cases.{cache_tag, key_of_path, response_with, stored_of_fields};
ghost use Rattle.proxy_core.specs.WrongTraces.{three_line_table, response_fresh_for_a_minute, get_a, get_admin};
ghost use Rattle.proxy_core.specs.WrongTraces.{events_that_store_a};
ghost use Rattle.proxy_core.specs.WrongTraces.{item_with_outcome, proxys_condition_with_etag_v, post_a};
ghost use Rattle.proxy_core.specs.WrongTraces.{reply_that_stores, reply_that_sends_stored, trace_of_good_events};
ghost use Rattle.proxy_core.specs.WrongTraces.{trace_that_sends_invalidated_a, trace_that_sends_stored_a_after_delete};
ghost use Rattle.proxy_core.specs.WrongTraces.{response_304};
ghost use Rattle.proxy_core.specs.WrongTraces.{trace_that_sends_invalidated_held_at_start};
ghost use Rattle.proxy_core.specs.WrongTraces.{trace_that_sends_start_after_purge_of_tag};
ghost use Rattle.proxy_core.specs.WrongTraces.{trace_that_sends_a_after_purge_of_tag};
ghost use Rattle.proxy_core.specs.WrongTraces.{trace_that_stores_a_after_purge_of_tag};
ghost use Rattle.proxy_core.specs.WrongTraces.{trace_that_stores_a_with_two_tags, item_of_purge_removing_nothing};
ghost use Rattle.proxy_core.specs.WrongTraces.{purge_item_that_expires};
ghost use Rattle.proxy_core.specs.WrongTraces.{trace_that_stores_overtaken_a, trace_with_three_forwards};
ghost use Rattle.proxy_core.specs.WrongTraces.{trace_with_two_replies, GoingForwardIsWrong};
ghost use Rattle.hx_allow.specs.Matching.{route_over_line};

/// What goes forward is the request's text, with its conditions, to its line: no other text, no
/// other line, no conditions that it hasn't, none at all where it has, and nothing that a failure
/// sends.
pub fn worked_requests_that_go_forward()
    ensures another_target { GoingForwardIsWrong [] (Arrive 100 1 get_a)
        (Forward (route_over_line 3) (forward_text three_line_table (route_over_line 3) get_admin None)) }
    ensures another_line { GoingForwardIsWrong [] (Arrive 100 1 get_a)
        (Forward (route_over_line 2) (forward_text three_line_table (route_over_line 2) get_a None)) }
    ensures denied { GoingForwardIsWrong [] (Arrive 100 1 get_admin)
        (Forward (route_over_line 1) (forward_text three_line_table (route_over_line 1) get_admin None)) }
    ensures conditions_of_nothing { GoingForwardIsWrong [] (Arrive 100 1 get_a)
        (Forward (route_over_line 3)
        (forward_text three_line_table (route_over_line 3) get_a proxys_condition_with_etag_v)) }
    ensures without_conditions { GoingForwardIsWrong (trace_of_good_events events_that_store_a) (Arrive 200 2 get_a)
        (Forward (route_over_line 3) (forward_text three_line_table (route_over_line 3) get_a None)) }
    ensures by_a_failure { GoingForwardIsWrong
        (item_with_outcome (Arrive 100 1 get_a)
        (Forward (route_over_line 3) (forward_text three_line_table (route_over_line 3) get_a None)) ∷ [])
        (Fail 101 1 kinds.Refused)
        (Forward (route_over_line 3) (forward_text three_line_table (route_over_line 3) get_a None)) }
    ensures conditions_a_second_time { GoingForwardIsWrong
        (trace_of_good_events (Arrive 200 2 get_a ∷ events_that_store_a)) (Answer 201 2 (response_with 304 []))
        (Forward (route_over_line 3)
        (forward_text three_line_table (route_over_line 3) get_a proxys_condition_with_etag_v)) }
    ensures of_nobody { GoingForwardIsWrong [] (Answer 101 1 response_fresh_for_a_minute)
        (Forward (route_over_line 3) (forward_text three_line_table (route_over_line 3) get_a None)) }
{}

/// A denied request neither goes forward nor waits nor is left, and its reply stores, sends and takes away nothing.
pub fn a_denied_request_leaves_no_trace()
    ensures forwarded { DeniedRequestsLeaveNoTrace three_line_table (item_with_outcome (Arrive 100 1 get_admin)
        (Forward (route_over_line 1) []) ∷ [])
        → ⊥ }
    ensures waits { DeniedRequestsLeaveNoTrace three_line_table (item_with_outcome (Arrive 100 1 get_admin) (Waits 1)
        ∷ []) → ⊥ }
    ensures left { DeniedRequestsLeaveNoTrace three_line_table (item_with_outcome (Arrive 100 1 get_admin) Ended ∷ [])
        → ⊥ }
    ensures sent { DeniedRequestsLeaveNoTrace three_line_table
        (item_with_outcome (Arrive 100 1 get_admin) (reply_that_sends_stored 1 []) ∷ []) → ⊥ }
    ensures stored { DeniedRequestsLeaveNoTrace three_line_table
        (item_with_outcome (Arrive 100 1 get_admin) (reply_that_stores [] (Some 1) []) ∷ []) → ⊥ }
    ensures removed { DeniedRequestsLeaveNoTrace three_line_table
        (item_with_outcome (Arrive 100 1 get_admin) (reply_that_stores [] None (1 ∷ [])) ∷ []) → ⊥ }
    ensures an_earlier_one { DeniedRequestsLeaveNoTrace three_line_table (item_with_outcome (Arrive 101 2 get_a)
        (Forward (route_over_line 3) [])
        ∷ item_with_outcome (Arrive 100 1 get_admin) (Forward (route_over_line 1) []) ∷ []) → ⊥ }
{}

/// An exchange goes forward twice at most, and has one reply at most, until a request of its id arrives anew.
pub fn an_exchange_goes_twice_and_replies_once()
    ensures thrice { TwiceForwardOneReply trace_with_three_forwards → ⊥ }
    ensures replies_twice { TwiceForwardOneReply trace_with_two_replies → ⊥ }
{}

/// What was invalidated since its request went forward isn't sent: neither between its storing and
/// its sending, nor on its way.
pub fn sending_what_is_invalidated_is_refused()
    ensures since_stored { NothingInvalidatedIsSent three_line_table (empty_store 2) trace_that_sends_invalidated_a
        → ⊥ }
    ensures on_its_way { NothingInvalidatedIsSent three_line_table (empty_store 2) trace_that_stores_overtaken_a → ⊥ }
    ensures behind_a_304 { NothingInvalidatedIsSent three_line_table (empty_store 2)
        (trace_that_sends_stored_a_after_delete (response_304 [])) → ⊥ }
    ensures behind_a_redirect { NothingInvalidatedIsSent three_line_table (empty_store 2)
        (trace_that_sends_stored_a_after_delete (response_with 303 [])) → ⊥ }
    ensures by_its_tag { NothingInvalidatedIsSent three_line_table (empty_store 2)
        (trace_that_sends_a_after_purge_of_tag (codes "news")) → ⊥ }
    ensures on_its_way_by_any_tag { NothingInvalidatedIsSent three_line_table (empty_store 2)
        (trace_that_stores_a_after_purge_of_tag (codes "sport")) → ⊥ }
    ensures since_the_start { NothingInvalidatedSinceTheStartIsSent three_line_table
        (record { limit = 2; entries = stored_of_fields 1 [] ∷ [] }) trace_that_sends_invalidated_held_at_start → ⊥ }
    ensures since_the_start_by_its_tag { NothingInvalidatedSinceTheStartIsSent three_line_table
        (record { limit = 2; entries = stored_of_fields 1 (cache_tag (codes "sport, news") ∷ []) ∷ [] })
        (trace_that_sends_start_after_purge_of_tag (codes "news")) → ⊥ }
{}

/// A purge with a tag invalidates of what is held within its scope what names the tag, and leaves the rest to be sent;
/// of what is on its way it overtakes all that is within its scope.
pub fn worked_invalidations_by_tag()
    ensures its_own { invalidates_response three_line_table (empty_store 2) 1 (key_of_path (codes "/a"))
        (item_of_purge_removing_nothing (codes "news")) trace_that_stores_a_with_two_tags ≡ true }
    ensures another { invalidates_response three_line_table (empty_store 2) 1 (key_of_path (codes "/a"))
        (item_of_purge_removing_nothing (codes "sport")) trace_that_stores_a_with_two_tags ≡ false }
    ensures on_its_way { item_overtakes_key (key_of_path (codes "/a"))
        (item_of_purge_removing_nothing (codes "sport")) trace_that_stores_a_with_two_tags
        ≡ true }
{}

/// A purge that expires invalidates nothing that is held: it is left to be sent as a stale one. What is on its way it
/// overtakes as any purge.
pub fn worked_expiring_purge_only_overtakes()
    ensures held { invalidates_response three_line_table (empty_store 2) 1
        (key_of_path (codes "/a")) purge_item_that_expires
        trace_that_stores_a_with_two_tags ≡ false }
    ensures on_its_way { item_overtakes_key
        (key_of_path (codes "/a")) purge_item_that_expires trace_that_stores_a_with_two_tags ≡ true }
{}

/// No run stops after its last event, nor at one that no fault stands against, but where memory runs out.
pub fn no_run_stops_without_a_fault()
    ensures behind_the_last { HistoryStopsWithFault [] None OutOfMemory → ⊥ }
    ensures at_a_good_event { HistoryStopsWithFault [] (Some (Arrive 100 1 get_a)) IdTaken → ⊥ }
    ensures by_another_fault { HistoryStopsWithFault [] (Some (Answer 100 1 response_fresh_for_a_minute)) NotForwarded
        → ⊥ }
{}
