//! Traces of one, two or more items that the headline must not let by, and doesn't: each function's
//! contract is that it refuses them, one clause a trace, and its body is empty. All but the last
//! item of each go well.

ghost use Rattle.std.specs.Prelude.{◌∷◌, [], Some, None, true, false, codes};
ghost use Rattle.hx_policy.specs.Policies.{plain};
ghost use Rattle.hx_fields.specs.Examples.{line};
ghost use Rattle.hx_reuse.specs.declared.rule.ReuseRule.TheVariants as rules;
ghost use Rattle.hx_status.specs.declared.cause.FailKind.TheVariants as kinds;
ghost use Rattle.hx_status.specs.declared.cause.Cause.TheVariants.{Denied, NoLine, OnlyIfCached, Origin};
ghost use Rattle.proxy_core.specs.declared.event.Event.TheVariants.{Arrive, Answer, Fail, Wake, Abandon, Overdue};
ghost use Rattle.proxy_core.specs.declared.outcome.Outcome.TheVariants.{Reply, Forward, Waits, Ended, WaitsNoMore};
ghost use Rattle.proxy_core.specs.Replies.{passed_answer_text};
ghost use Rattle.proxy_core.specs.Outcomes.{forward_text, outcome_of_purge, outcome_of_refusal};
ghost use Rattle.proxy_core.specs.Cases.{response_with, cache_control, etag_field, forwarded_on_miss};
ghost use Rattle.proxy_core.specs.WrongTraces.{purge_all_to_expire, purge_reply_that_expires};
ghost use Rattle.proxy_core.specs.WrongTraces.{arbitrary_report_of_reply};
ghost use Rattle.proxy_core.specs.WrongTraces.{HeadlineRefuses, get_a_in_language, request_by_method};
ghost use Rattle.proxy_core.specs.WrongTraces.{events_that_revalidate, answer_varying_by_language, three_line_table};
ghost use Rattle.proxy_core.specs.WrongTraces.{response_fresh_for_a_minute};
ghost use Rattle.proxy_core.specs.WrongTraces.{answer_with_stale_if_error, get_a, get_admin, purge_admin, get_b, get_c};
ghost use Rattle.proxy_core.specs.WrongTraces.{get_raw};
ghost use Rattle.proxy_core.specs.WrongTraces.{events_that_store_a, events_that_store_english_and_default};
ghost use Rattle.proxy_core.specs.WrongTraces.{events_before_a_wake, response_304, events_where_one_waits};
ghost use Rattle.proxy_core.specs.WrongTraces.{get_a_only_if_cached, post_a, reply_that_stores, reply_without_store};
ghost use Rattle.proxy_core.specs.WrongTraces.{events_with_second_forward, reply_that_sends_stored};
ghost use Rattle.proxy_core.specs.WrongTraces.{events_that_invalidate_a_by_a_304, delete_a};
ghost use Rattle.proxy_core.specs.WrongTraces.{report_as_refused, report_without_origin_line};
ghost use Rattle.proxy_core.specs.WrongTraces.{report_with_origin_line_3};
ghost use Rattle.proxy_core.specs.WrongTraces.{right_outcome_with_changed_about, trace_with_wrong_item};
ghost use Rattle.proxy_core.specs.WrongTraces.{report_with_status_304, report_without_content};
ghost use Rattle.hx_allow.specs.Matching.{route_over_line};

/// A request that the table denies reaches neither origin nor store, and is told its line; one that
/// it allows isn't denied.
pub fn the_headline_refuses_what_the_table_forbids()
    ensures forwarded { HeadlineRefuses (trace_with_wrong_item [] (Arrive 100 1 get_admin)
        (Forward (route_over_line 1) (forward_text three_line_table (route_over_line 1) get_admin None))) }
    ensures forwarded_by_another_line { HeadlineRefuses
        (trace_with_wrong_item [] (Arrive 100 1 get_admin) (Forward (route_over_line 3) (forward_text three_line_table
        (route_over_line 3) get_admin None))) }
    ensures sent_from_the_store { HeadlineRefuses (trace_with_wrong_item events_that_store_a (Arrive 110 2 get_admin)
        (reply_that_sends_stored 1 (codes "x"))) }
    ensures named_another_line { HeadlineRefuses (trace_with_wrong_item [] (Arrive 100 1 get_admin)
        (outcome_of_refusal 100 (Denied 2) get_admin)) }
    ensures named_none_that_matches { HeadlineRefuses (trace_with_wrong_item [] (Arrive 100 1 get_admin)
        (outcome_of_refusal 100 NoLine get_admin)) }
    ensures made_to_wait { HeadlineRefuses (trace_with_wrong_item (Arrive 100 1 get_a ∷ []) (Arrive 100 2 get_admin)
        (Waits 1)) }
    ensures left_without_answer { HeadlineRefuses (trace_with_wrong_item [] (Arrive 100 1 get_admin) Ended) }
    ensures allowed_is_denied { HeadlineRefuses (trace_with_wrong_item [] (Arrive 100 1 get_a)
        (outcome_of_refusal 100 (Denied 1) get_a)) }
{}

/// A request purges by its key alone, and what it takes away is held for its target.
pub fn the_headline_refuses_wrong_purges()
    ensures denied_purges { HeadlineRefuses (trace_with_wrong_item events_that_store_a (Arrive 110 2 get_admin)
        (outcome_of_purge [] 110 get_admin)) }
    ensures with_its_key_is_denied { HeadlineRefuses (trace_with_wrong_item events_that_store_a
        (Arrive 110 2 purge_admin) (outcome_of_refusal 110 (Denied 1) purge_admin)) }
    ensures another_goes { HeadlineRefuses (trace_with_wrong_item events_that_store_a (Arrive 110 2 purge_admin)
        (reply_that_stores [] None (1 ∷ []))) }
    ensures expires_without_the_word { HeadlineRefuses (trace_with_wrong_item events_that_store_a
        (Arrive 110 2 purge_admin) (purge_reply_that_expires [])) }
    ensures goes_though_it_stays { HeadlineRefuses (trace_with_wrong_item events_that_store_a
        (Arrive 110 2 purge_all_to_expire) (reply_that_stores [] None (1 ∷ []))) }
    ensures expires_nothing { HeadlineRefuses (trace_with_wrong_item events_that_store_a
        (Arrive 110 2 purge_all_to_expire) (purge_reply_that_expires [])) }
    ensures expires_by_a_get { HeadlineRefuses (trace_with_wrong_item events_that_store_a
        (Arrive 110 2 get_a) (purge_reply_that_expires (1 ∷ []))) }
{}

/// What goes forward is the client's request, to the origin of its line, with the proxy's
/// conditions where and when it has some.
pub fn the_headline_refuses_altered_requests()
    ensures another_target { HeadlineRefuses (trace_with_wrong_item [] (Arrive 100 1 get_a)
        (Forward (route_over_line 3) (forward_text three_line_table (route_over_line 3) get_admin None))) }
    ensures another_origin { HeadlineRefuses (trace_with_wrong_item [] (Arrive 100 1 get_a)
        (Forward (route_over_line 2) (forward_text three_line_table (route_over_line 2) get_a None))) }
    ensures without_conditions { HeadlineRefuses
        (trace_with_wrong_item events_that_store_a (Arrive 200 2 get_a)
        (Forward (route_over_line 3) (forward_text three_line_table (route_over_line 3) get_a None))) }
    ensures with_conditions_of_nothing { HeadlineRefuses (trace_with_wrong_item [] (Arrive 100 1 get_a)
        (Forward (route_over_line 3) (forward_text three_line_table (route_over_line 3) get_a
        (Some (record { serial = 1; sent = record { etag = Some (codes "\"v\""); modified = None } }))))) }
    ensures with_conditions_a_second_time { HeadlineRefuses
        (trace_with_wrong_item events_that_revalidate (Answer 201 2 (response_304 (etag_field (codes "\"w\"") ∷ [])))
        (Forward (route_over_line 3) (forward_text three_line_table (route_over_line 3) get_a
        (Some (record { serial = 1; sent = record { etag = Some (codes "\"v\""); modified = None } }))))) }
    ensures another_origin_at_a_wake { HeadlineRefuses
        (trace_with_wrong_item events_before_a_wake (Wake 102 2)
        (Forward (route_over_line 2) (forward_text three_line_table
        (route_over_line 2) get_a None))) }
    ensures another_target_at_a_wake { HeadlineRefuses
        (trace_with_wrong_item events_before_a_wake (Wake 102 2)
        (Forward (route_over_line 3) (forward_text three_line_table
        (route_over_line 3) get_b None))) }
    ensures one_that_takes_no_answer { HeadlineRefuses
        (trace_with_wrong_item [] (Arrive 100 1 get_a_only_if_cached)
        (Forward (route_over_line 3) (forward_text three_line_table (route_over_line 3) get_a_only_if_cached None))) }
{}

/// No client is left without its answer: its request reaches cache or origin, and each step of its
/// exchange brings the answer, but for one second forward.
pub fn the_headline_refuses_missing_answers()
    ensures waits_for_nobody { HeadlineRefuses (trace_with_wrong_item [] (Arrive 100 1 get_a) (Waits 7)) }
    ensures ends_at_its_arrival { HeadlineRefuses (trace_with_wrong_item [] (Arrive 100 1 get_a) Ended) }
    ensures ends_at_its_answer { HeadlineRefuses (trace_with_wrong_item (Arrive 100 1 get_a ∷ [])
        (Answer 101 1 response_fresh_for_a_minute) Ended) }
    ensures waits_behind_its_answer { HeadlineRefuses (trace_with_wrong_item (Arrive 100 1 get_a ∷ [])
        (Answer 101 1 response_fresh_for_a_minute) (Waits 3)) }
    ensures goes_again_for_nothing { HeadlineRefuses
        (trace_with_wrong_item (Arrive 100 1 get_a ∷ []) (Answer 101 1 response_fresh_for_a_minute)
        (Forward (route_over_line 3) (forward_text three_line_table (route_over_line 3) get_a None))) }
    ensures goes_a_third_time { HeadlineRefuses (trace_with_wrong_item events_with_second_forward
        (Answer 202 2 (response_304 (etag_field (codes "\"w\"") ∷ [])))
        (Forward (route_over_line 3) (forward_text three_line_table (route_over_line 3) get_a None))) }
    ensures ends_at_a_failure { HeadlineRefuses (trace_with_wrong_item (Arrive 100 1 get_a ∷ [])
        (Fail 101 1 kinds.Refused) Ended) }
    ensures goes_again_at_a_failure { HeadlineRefuses
        (trace_with_wrong_item (Arrive 100 1 get_a ∷ []) (Fail 101 1 kinds.Refused)
        (Forward (route_over_line 3) (forward_text three_line_table (route_over_line 3) get_a None))) }
    ensures ends_at_its_wake { HeadlineRefuses (trace_with_wrong_item events_before_a_wake (Wake 102 2) Ended) }
    ensures answers_who_is_gone { HeadlineRefuses (trace_with_wrong_item (Arrive 100 1 get_a ∷ []) (Abandon 1)
        (reply_without_store (codes "x"))) }
{}

/// Each event comes to an exchange that is open for it.
pub fn the_headline_refuses_impossible_events()
    ensures id_taken { HeadlineRefuses (trace_with_wrong_item (Arrive 100 1 get_a ∷ []) (Arrive 101 1 get_b)
        (Forward (route_over_line 3) (forward_text three_line_table (route_over_line 3) get_b None))) }
    ensures answer_to_nobody { HeadlineRefuses (trace_with_wrong_item [] (Answer 101 1 response_fresh_for_a_minute)
        (reply_without_store (codes "x"))) }
    ensures two_replies { HeadlineRefuses
        (trace_with_wrong_item events_that_store_a (Answer 102 1 response_fresh_for_a_minute)
        (reply_without_store (codes "x"))) }
    ensures answer_to_one_that_waits { HeadlineRefuses (trace_with_wrong_item events_where_one_waits
        (Answer 101 2 response_fresh_for_a_minute) (reply_without_store (codes "x"))) }
    ensures failure_of_one_that_waits { HeadlineRefuses (trace_with_wrong_item events_where_one_waits
        (Fail 101 2 kinds.Refused) (reply_without_store (codes "x"))) }
    ensures released_while_its_leader_is_open { HeadlineRefuses
        (trace_with_wrong_item events_where_one_waits (Wake 101 2)
        (Forward (route_over_line 3) (forward_text three_line_table
        (route_over_line 3) get_a None))) }
    ensures woken_at_its_origin { HeadlineRefuses
        (trace_with_wrong_item (Arrive 100 1 get_a ∷ []) (Wake 101 1)
        (Forward (route_over_line 3) (forward_text three_line_table (route_over_line 3) get_a None))) }
    ensures gone_though_never_there { HeadlineRefuses (trace_with_wrong_item [] (Abandon 1) Ended) }
    ensures after_the_end_of_time { HeadlineRefuses
        (trace_with_wrong_item [] (Arrive 253402300800 1 get_a)
        (Forward (route_over_line 3) (forward_text three_line_table
        (route_over_line 3) get_a None))) }
{}

/// A stored response is sent where the rules let it be, that one and as it is, and nowhere else.
pub fn the_headline_refuses_what_may_not_be_sent()
    ensures stale { HeadlineRefuses (trace_with_wrong_item events_that_store_a (Arrive 200 2 get_a)
        (reply_that_sends_stored 1 (codes "x"))) }
    ensures another_variant { HeadlineRefuses (trace_with_wrong_item (Answer 101 1 answer_varying_by_language
        ∷ Arrive 100 1
        (get_a_in_language (codes "de")) ∷ [])
        (Arrive 110 2 (get_a_in_language (codes "en"))) (reply_that_sends_stored 1 (codes "x"))) }
    ensures default_that_hides_a_variant { HeadlineRefuses
        (trace_with_wrong_item events_that_store_english_and_default (Arrive 120 3 (get_a_in_language (codes "en")))
        (reply_that_sends_stored 2 (codes "x"))) }
    ensures variant_of_no_such_request { HeadlineRefuses
        (trace_with_wrong_item events_that_store_english_and_default (Arrive 120 3 (get_a_in_language (codes "de")))
        (reply_that_sends_stored 1 (codes "x"))) }
    ensures another_key { HeadlineRefuses (trace_with_wrong_item events_that_store_a (Arrive 110 2 get_b)
        (reply_that_sends_stored 1 (codes "x"))) }
    ensures invalidated { HeadlineRefuses (trace_with_wrong_item (Answer 111 2 (response_with 200 [])
        ∷ Arrive 110 2 post_a ∷ events_that_store_a)
        (Arrive 112 3 get_a) (reply_that_sends_stored 1 (codes "x"))) }
    ensures invalidated_by_a_304 { HeadlineRefuses (trace_with_wrong_item events_that_invalidate_a_by_a_304
        (Arrive 112 3 get_a) (reply_that_sends_stored 1 (codes "x"))) }
    ensures crowded_out { HeadlineRefuses (trace_with_wrong_item (Answer 105 3 response_fresh_for_a_minute
        ∷ Arrive 104 3 get_c
        ∷ Answer 103 2 response_fresh_for_a_minute
        ∷ Arrive 102 2 get_b ∷ events_that_store_a) (Arrive 110 4 get_a) (reply_that_sends_stored 1 (codes "x"))) }
    ensures never_stored { HeadlineRefuses (trace_with_wrong_item [] (Arrive 100 1 get_a)
        (reply_that_sends_stored 9 (codes "x"))) }
    ensures over_a_line_without_cache { HeadlineRefuses
        (trace_with_wrong_item (Answer 101 1 response_fresh_for_a_minute ∷ Arrive 100 1 get_raw
        ∷ []) (Arrive 110 2 get_raw)
        (reply_that_sends_stored 1 (codes "x"))) }
    ensures though_the_request_forbids { HeadlineRefuses (trace_with_wrong_item events_that_store_a
        (Arrive 110 2 (request_by_method (codes "GET") (codes "/a") (cache_control (codes "no-cache") ∷ [])))
        (reply_that_sends_stored 1 (codes "x"))) }
    ensures in_place_of_an_error { HeadlineRefuses (trace_with_wrong_item events_that_revalidate
        (Answer 201 2 (response_with 503 [])) (reply_that_sends_stored 1 (codes "x"))) }
    ensures fresh_is_asked_about { HeadlineRefuses
        (trace_with_wrong_item events_that_store_a (Arrive 110 2 get_a)
        (Forward (route_over_line 3) (forward_text three_line_table (route_over_line 3) get_a None))) }
    ensures error_is_passed_on { HeadlineRefuses
        (trace_with_wrong_item (Arrive 200 2 get_a ∷ Answer 101 1 answer_with_stale_if_error
        ∷ Arrive 100 1 get_a ∷ []) (Answer 201 2 (response_with 503 []))
        (reply_without_store (passed_answer_text (plain true) (codes "edge") (forwarded_on_miss get_a)
        (response_with 503 []) 201 false None))) }
    ensures other_bytes { HeadlineRefuses (trace_with_wrong_item events_that_store_a (Arrive 110 2 get_a)
        (reply_that_sends_stored 1 (codes "x"))) }
    ensures closing_its_connection { HeadlineRefuses (trace_with_wrong_item events_that_store_a (Arrive 110 2 get_a)
        (Reply (record {
          bytes = [];
          close = true;
          about = arbitrary_report_of_reply;
          stored = None;
          used = Some 1;
          removed = [];
          expired = None;
          purged = false;
        }))) }
    ensures to_a_woken_one_that_it_may_not_answer { HeadlineRefuses (trace_with_wrong_item events_before_a_wake
        (Wake 102 2) (reply_that_sends_stored 1 (codes "x"))) }
{}

/// What isn't a stored response names the first rule against one, and says of itself what it is.
pub fn the_headline_refuses_wrong_rule_names()
    ensures a_miss_named_as_a_hit { HeadlineRefuses (trace_with_wrong_item (Arrive 100 1 get_a ∷ [])
        (Answer 101 1 response_fresh_for_a_minute)
        (reply_that_stores (codes "HTTP/1.1 200 \r\nCache-Status: edge;hit\r\n\r\n") (Some 1) [])) }
    ensures the_second_rule { HeadlineRefuses (trace_with_wrong_item (Arrive 100 1 get_a ∷ [])
        (Fail 101 1 kinds.Refused)
        (outcome_of_refusal 101 (Origin kinds.Refused rules.VaryMiss None) get_a)) }
    ensures another_failure { HeadlineRefuses (trace_with_wrong_item (Arrive 100 1 get_a ∷ [])
        (Fail 101 1 kinds.Refused)
        (outcome_of_refusal 101 (Origin kinds.TimedOut rules.UriMiss None) get_a)) }
    ensures another_rule_to_one_that_takes_no_answer { HeadlineRefuses
        (trace_with_wrong_item [] (Arrive 100 1 get_a_only_if_cached)
        (outcome_of_refusal 100 (OnlyIfCached rules.VaryMiss) get_a_only_if_cached)) }
    ensures not_the_rule_of_its_arrival { HeadlineRefuses
        (trace_with_wrong_item (Arrive 100 1 get_a ∷ []) (Answer 101 1 response_fresh_for_a_minute)
        (reply_that_stores (passed_answer_text (plain true) (codes "edge")
        (record (forwarded_on_miss get_a) { rule = rules.VaryMiss }) response_fresh_for_a_minute 101 true None)
        (Some 1) [])) }
    ensures said_to_be_stored { HeadlineRefuses (trace_with_wrong_item (Arrive 100 1 get_a ∷ [])
        (Answer 101 1 (response_with 200 []))
        (reply_without_store (passed_answer_text (plain true) (codes "edge") (forwarded_on_miss get_a)
        (response_with 200 []) 101 true None))) }
{}

/// What is told of a reply as data is what it is: its status, why it is sent, the length of its content, and whose
/// origin was asked.
pub fn the_headline_refuses_wrong_reports()
    ensures another_status { HeadlineRefuses (trace_with_wrong_item events_that_store_a (Arrive 110 2 get_a)
        (right_outcome_with_changed_about report_with_status_304 events_that_store_a (Arrive 110 2 get_a))) }
    ensures a_hit_told_as_refused { HeadlineRefuses (trace_with_wrong_item events_that_store_a (Arrive 110 2 get_a)
        (right_outcome_with_changed_about report_as_refused events_that_store_a (Arrive 110 2 get_a))) }
    ensures a_content_told_as_none { HeadlineRefuses (trace_with_wrong_item events_that_store_a (Arrive 110 2 get_a)
        (right_outcome_with_changed_about report_without_content events_that_store_a (Arrive 110 2 get_a))) }
    ensures an_origin_that_was_not_asked { HeadlineRefuses
        (trace_with_wrong_item events_that_store_a (Arrive 110 2 get_a)
        (right_outcome_with_changed_about report_with_origin_line_3 events_that_store_a (Arrive 110 2 get_a))) }
    ensures no_origin_that_failed { HeadlineRefuses
        (trace_with_wrong_item (Arrive 100 1 get_a ∷ []) (Fail 101 1 kinds.Refused)
        (right_outcome_with_changed_about report_without_origin_line (Arrive 100 1 get_a
        ∷ []) (Fail 101 1 kinds.Refused))) }
{}

/// What is stored may be, under the next serial; what may be is; and what has to go goes.
pub fn the_headline_refuses_wrong_storing()
    ensures private { HeadlineRefuses (trace_with_wrong_item (Arrive 100 1 get_a ∷ [])
        (Answer 101 1 (response_with 200 (cache_control (codes "private, max-age=60") ∷ []))) (reply_that_stores [] (Some 1) [])) }
    ensures no_store { HeadlineRefuses (trace_with_wrong_item (Arrive 100 1 get_a ∷ [])
        (Answer 101 1 (response_with 200 (cache_control (codes "no-store, max-age=60") ∷ []))) (reply_that_stores [] (Some 1) [])) }
    ensures to_authorization { HeadlineRefuses
        (trace_with_wrong_item (Arrive 100 1 (request_by_method (codes "GET") (codes "/a")
        (line (codes "Authorization") (codes "x") ∷ []))
        ∷ []) (Answer 101 1 response_fresh_for_a_minute) (reply_that_stores [] (Some 1) [])) }
    ensures over_a_line_without_cache { HeadlineRefuses
        (trace_with_wrong_item (Arrive 100 1 get_raw ∷ []) (Answer 101 1 response_fresh_for_a_minute)
        (reply_that_stores [] (Some 1) [])) }
    ensures an_answer_to_post { HeadlineRefuses
        (trace_with_wrong_item (Arrive 100 1 post_a ∷ []) (Answer 101 1 response_fresh_for_a_minute)
        (reply_that_stores [] (Some 1) [])) }
    ensures overtaken { HeadlineRefuses (trace_with_wrong_item (Answer 102 2 (response_with 200 [])
        ∷ Arrive 101 2 post_a ∷ Arrive 100 1 get_a ∷ [])
        (Answer 103 1 response_fresh_for_a_minute) (reply_that_stores [] (Some 1) [])) }
    ensures overtaken_before_another_went { HeadlineRefuses (trace_with_wrong_item (Arrive 103 3 get_b
        ∷ Answer 102 2 (response_with 200 []) ∷ Arrive 101 2 post_a ∷ Arrive 100 1 get_a ∷ [])
        (Answer 104 1 response_fresh_for_a_minute) (reply_that_stores [] (Some 1) [])) }
    ensures not_stored_though_it_went_later { HeadlineRefuses (trace_with_wrong_item (Arrive 103 1 get_a
        ∷ Answer 102 2 (response_with 200 []) ∷ Arrive 101 2 post_a ∷ [])
        (Answer 104 1 response_fresh_for_a_minute) (reply_that_stores [] None [])) }
    ensures too_large { HeadlineRefuses (trace_with_wrong_item (Arrive 100 1 get_a ∷ [])
        (Answer 101 1 (record response_fresh_for_a_minute { content = codes "eleven byte" })) (reply_that_stores [] (Some 1) [])) }
    ensures another_serial { HeadlineRefuses (trace_with_wrong_item (Arrive 100 1 get_a ∷ [])
        (Answer 101 1 response_fresh_for_a_minute) (reply_that_stores [] (Some 2) [])) }
    ensures not_stored_though_it_may { HeadlineRefuses
        (trace_with_wrong_item (Arrive 100 1 get_a ∷ []) (Answer 101 1 response_fresh_for_a_minute)
        (reply_that_stores [] None [])) }
    ensures replaced_stays { HeadlineRefuses (trace_with_wrong_item events_that_revalidate
        (Answer 201 2 response_fresh_for_a_minute) (reply_that_stores [] (Some 2) [])) }
    ensures invalidated_stays { HeadlineRefuses
        (trace_with_wrong_item (Arrive 110 2 post_a ∷ events_that_store_a) (Answer 111 2 (response_with 200 []))
        (reply_that_stores [] None [])) }
    ensures invalidated_by_a_304_stays { HeadlineRefuses
        (trace_with_wrong_item (Arrive 110 2 delete_a ∷ events_that_store_a) (Answer 111 2 (response_304 []))
        (reply_that_stores [] None [])) }
    ensures another_goes { HeadlineRefuses (trace_with_wrong_item (Arrive 110 2 get_b ∷ events_that_store_a)
        (Answer 111 2 response_fresh_for_a_minute)
        (reply_that_stores [] (Some 2) (1 ∷ []))) }
    ensures kept_after_a_304_that_forbids { HeadlineRefuses (trace_with_wrong_item events_that_revalidate
        (Answer 201 2 (response_304 (etag_field (codes "\"v\"") ∷ cache_control (codes "no-store") ∷ [])))
        (reply_that_sends_stored 1 [])) }
{}

/// A request waits for the first that its answer may come from, and for none else, once.
pub fn the_headline_refuses_wrong_waits()
    ensures forward_beside_its_leader { HeadlineRefuses
        (trace_with_wrong_item (Arrive 100 1 get_a ∷ []) (Arrive 100 2 get_a)
        (Forward (route_over_line 3) (forward_text three_line_table (route_over_line 3) get_a None))) }
    ensures for_another_key { HeadlineRefuses (trace_with_wrong_item (Arrive 100 2 get_b ∷ Arrive 100 1 get_a ∷ [])
        (Arrive 100 3 get_b) (Waits 1)) }
    ensures for_one_that_waits { HeadlineRefuses (trace_with_wrong_item events_where_one_waits (Arrive 100 3 get_a)
        (Waits 2)) }
    ensures a_head { HeadlineRefuses (trace_with_wrong_item (Arrive 100 1 get_a ∷ [])
        (Arrive 100 2 (request_by_method (codes "HEAD") (codes "/a") [])) (Waits 1)) }
    ensures though_one_is_held { HeadlineRefuses (trace_with_wrong_item events_that_revalidate (Arrive 201 3 get_a)
        (Waits 2)) }
    ensures though_it_takes_no_answer { HeadlineRefuses (trace_with_wrong_item (Arrive 100 1 get_a ∷ [])
        (Arrive 100 2 get_a_only_if_cached) (Waits 1)) }
    ensures a_second_time { HeadlineRefuses (trace_with_wrong_item events_before_a_wake (Wake 102 2) (Waits 1)) }
    ensures behind_its_wake { HeadlineRefuses (trace_with_wrong_item (Wake 102 2 ∷ events_before_a_wake)
        (Arrive 103 3 get_a)
        (Forward (route_over_line 3) (forward_text three_line_table (route_over_line 3) get_a None))) }
{}
