//! What the definitions give on worked cases, computed from them: each function's contract is the
//! cases, and its body is empty.

ghost use Rattle.std.specs.Prelude.{◌≡◌, ◌∷◌, [], Some, None, true, false, codes, ℕ, ◌+◌, List, length, nat_le, pos};
ghost use Rattle.std.specs.Prelude.{negsuc};
ghost use Rattle.hx_policy.specs.Policies.{plain};
ghost use Rattle.hx_fields.specs.Examples.{line};
ghost use Rattle.hx_allow.specs.declared.verdicts.Verdict.TheVariants as verdict;
ghost use Rattle.hx_allow.specs.Matching.{route_over_line};
ghost use Rattle.hx_store.specs.Shelf.{serials};
ghost use Rattle.hx_reuse.specs.declared.decision.Decision.TheVariants as decision;
ghost use Rattle.hx_reuse.specs.declared.rule.ReuseRule.TheVariants.{UriMiss, VaryMiss, ResponseNoCache};
ghost use Rattle.hx_reuse.specs.declared.rule.ReuseRule.TheVariants.{RequestNoCache, MustRevalidate, NoLifetime};
ghost use Rattle.hx_reuse.specs.declared.rule.ReuseRule.TheVariants.{StaleNoCache, NoMaxStale, PastMaxStale};
ghost use Rattle.hx_reuse.specs.declared.rule.ReuseRule.TheVariants.{StaleMaxAge, StaleMinFresh};
ghost use Rattle.hx_reuse.specs.declared.rule.ErrorRule.TheVariants as on_error;
ghost use Rattle.hx_status.specs.declared.status.Detail.TheVariants.{StaleIfError, ReuseAfterError};
ghost use Rattle.hx_status.specs.declared.cause.FailKind.TheVariants.{BadAnswer, Refused};
ghost use Rattle.hx_status.specs.declared.cause.Cause.TheVariants.{Denied, NoLine, Looped, OnlyIfCached, Origin};
ghost use Rattle.hx_status.specs.Abouts.{purge_status_and_reason};
ghost use Rattle.proxy_core.specs.declared.steps.fallback.FallbackDecision.TheVariants.{Sends, Refuses};
ghost use Rattle.proxy_core.specs.declared.event.Event.TheVariants.{Arrive, Answer, Fail, Wake, Abandon, Overdue};
ghost use Rattle.proxy_core.specs.declared.outcome.Outcome.TheVariants.{Reply, Forward, Waits, Ended, WaitsNoMore};
ghost use Rattle.proxy_core.specs.declared.open.stage.Stage.TheVariants.{Waiting, Released};
ghost use Rattle.proxy_core.specs.declared.core_fault.CoreFault.TheVariants.{IdTaken, UnknownId, MomentTooLate};
ghost use Rattle.proxy_core.specs.declared.core_fault.CoreFault.TheVariants.{NotForwarded, NotReady, NotWaiting};
ghost use Rattle.hx_storable.specs.declared.rule.StoreRule.TheVariants.{NothingToReuse};
ghost use Rattle.proxy_core.specs.Replies.{passed_answer_text, refusal_reply_text, stored_reply_text, ttl_of_stored};
ghost use Rattle.proxy_core.specs.Storing.{answer_invalidates, is_storable, is_304_without_condition};
ghost use Rattle.proxy_core.specs.Storing.{stored_response_made, serials_replaced_by_storing, storing_rule_to_explain};
ghost use Rattle.proxy_core.specs.Validating.{condition_to_revalidate_stored, stored_response_is_answered_by_304};
ghost use Rattle.proxy_core.specs.Validating.{freshened_may_be_kept, is_304_to_own_conditions, freshened_by_304};
ghost use Rattle.hx_validate.specs.Cases.{many_lines};
ghost use Rattle.proxy_core.specs.Awaiting.{leader_of_request};
ghost use Rattle.proxy_core.specs.Outcomes.{outcome_of_answer, outcome_of_arrival, hit_status_info};
ghost use Rattle.proxy_core.specs.Outcomes.{fallback_for_failed_answer};
ghost use Rattle.proxy_core.specs.Outcomes.{fault_at_exchange, sent_after_forward_status_info};
ghost use Rattle.proxy_core.specs.Outcomes.{is_stale_if_error_status, outcome_of_passing_on_or_stale};
ghost use Rattle.proxy_core.specs.Outcomes.{outcome_of_refusal};
ghost use Rattle.proxy_core.specs.Outcomes.{reply_after_origin_was_asked, outcome_of_purge};
ghost use Rattle.proxy_core.specs.Outcomes.{serials_removed_by_answer, outcome_of_sending_freshened, outcome_of_wake};
ghost use Rattle.proxy_core.specs.State.{next_serial_after_storing, serial_after_this, open_exchanges_after_event};
ghost use Rattle.proxy_core.specs.State.{serials_removed_by_outcome, serial_stored_by_outcome};
ghost use Rattle.proxy_core.specs.State.{entries_after_removal_and_storing};
ghost use Rattle.proxy_core.specs.State.{cut_to_bounds_if_stored_or_used};
ghost use Rattle.proxy_core.specs.State.{serial_used_by_outcome};
ghost use Rattle.proxy_core.specs.State.{entries_after_use};
ghost use Rattle.proxy_core.specs.Cases.{response_with, exchange_that_revalidates_e, request_for_path};
ghost use Rattle.proxy_core.specs.Cases.{get_a_with_authorization};
ghost use Rattle.proxy_core.specs.Cases.{bytes_of_outcome, connection_field, cache_control};
ghost use Rattle.proxy_core.specs.Cases.{keeps_conditions_policy, get_a_with_cookie, lifetime_at_most_15_policy};
ghost use Rattle.proxy_core.specs.Cases.{lifetime_60_but_not_to_cookies_policy, get_a_by_scheme};
ghost use Rattle.proxy_core.specs.Cases.{exchange_varying_by_scheme, table_varying_by_scheme};
ghost use Rattle.proxy_core.specs.Cases.{set_cookie_field, date_at_101, policy_explaining_storing, first_answer_fields};
ghost use Rattle.proxy_core.specs.Cases.{stored_from_first_answer, get_a_with, lifetime_60_policy, head_request_for_a};
ghost use Rattle.proxy_core.specs.Cases.{key_of_path, wait_for_stale_policy, lines_of_origins_304};
ghost use Rattle.proxy_core.specs.Cases.{stores_no_cookies_policy};
ghost use Rattle.proxy_core.specs.Cases.{stores_no_errors_policy, exchange_forwarded_over_line_2, post_exchange};
ghost use Rattle.proxy_core.specs.Cases.{exchange_forwarded_on_stale, accept_language_line, stored_without_lifetime};
ghost use Rattle.proxy_core.specs.Cases.{stored_of_fields};
ghost use Rattle.proxy_core.specs.Cases.{table, table_with_policy, three_held_responses, etag_field};
ghost use Rattle.proxy_core.specs.Cases.{vary_field, waiting, forwarded_on_miss, exchange_forwarded_on_stale_for};
ghost use Rattle.proxy_core.specs.Cases.{stale_stored_with_directives};
ghost use Rattle.proxy_core.specs.Cases.{held_with_lifetime_10, get_a_if_changed, get_a_with_no_cache};
ghost use Rattle.proxy_core.specs.Cases.{get_a_with_no_store};

/// The stored response of the first run at 130: whole, to HEAD, and to a client that has it (RFC
/// 9110, section 15.4.5); one that a 304 validated (RFC 9211, section 2.3); one of status 204 (RFC
/// 9110, section 8.6).
pub fn worked_stored_replies()
    ensures whole { stored_reply_text (codes "edge") stored_from_first_answer 130 (hit_status_info (plain true))
        (get_a_with [])
        ≡ codes "HTTP/1.1 200 \r\nDate: Thu, 01 Jan 1970 00:01:41 GMT\r\nCache-Control: max-age=60\r\nETag: \"v1\"\r\nAge: 30\r\nCache-Status: edge;hit;ttl=30\r\nContent-Length: 2\r\n\r\nhi" }
    ensures to_head { stored_reply_text (codes "edge") stored_from_first_answer 130
        (hit_status_info (plain true)) head_request_for_a
        ≡ codes "HTTP/1.1 200 \r\nDate: Thu, 01 Jan 1970 00:01:41 GMT\r\nCache-Control: max-age=60\r\nETag: \"v1\"\r\nAge: 30\r\nCache-Status: edge;hit;ttl=30\r\nContent-Length: 2\r\n\r\n" }
    ensures has_it { stored_reply_text (codes "edge") stored_from_first_answer 130 (hit_status_info (plain true))
        (get_a_with (line (codes "If-None-Match") (codes "W/\"v1\"") ∷ [])) ≡ codes "HTTP/1.1 304 \r\nDate: Thu, 01 Jan 1970 00:01:41 GMT\r\nCache-Control: max-age=60\r\nETag: \"v1\"\r\nAge: 30\r\nCache-Status: edge;hit;ttl=30\r\n\r\n" }
    ensures validated { stored_reply_text (codes "edge") stored_from_first_answer 130
        (sent_after_forward_status_info (plain true) (exchange_that_revalidates_e (get_a_with [])) (Some 304) None)
        (get_a_with [])
        ≡ codes "HTTP/1.1 200 \r\nDate: Thu, 01 Jan 1970 00:01:41 GMT\r\nCache-Control: max-age=60\r\nETag: \"v1\"\r\nAge: 30\r\nCache-Status: edge;fwd=stale;fwd-status=304;ttl=30;detail=no-lifetime\r\nContent-Length: 2\r\n\r\nhi" }
    ensures no_content { stored_reply_text (codes "edge") (record (stored_of_fields 1
        (cache_control (codes "max-age=60") ∷ [])) { status = 204; content = [] }) 102 (hit_status_info (plain true))
        (get_a_with [])
        ≡ codes "HTTP/1.1 204 \r\nCache-Control: max-age=60\r\nAge: 2\r\nCache-Status: edge;hit;ttl=58\r\n\r\n" }
{}

/// The answer of the first run at 101, stored and not; to HEAD with the length that the origin
/// announced (RFC 9110, section 8.6). To a client whose condition stayed here a 304 in its place, where that is false.
/// And the proxy's own, with its content but to HEAD.
pub fn worked_passed_answers()
    ensures stored { passed_answer_text (plain true) (codes "edge") (forwarded_on_miss (get_a_with []))
        (response_with 200 first_answer_fields) 101 true None
        ≡ codes "HTTP/1.1 200 \r\nDate: Thu, 01 Jan 1970 00:01:41 GMT\r\nCache-Control: max-age=60\r\nETag: \"v1\"\r\nCache-Status: edge;fwd=uri-miss;ttl=59;stored\r\nContent-Length: 2\r\n\r\nhi" }
    ensures not_stored { passed_answer_text (plain true) (codes "edge") (forwarded_on_miss (get_a_with []))
        (response_with 200 (date_at_101 ∷ [])) 101 false
        None ≡ codes "HTTP/1.1 200 \r\nDate: Thu, 01 Jan 1970 00:01:41 GMT\r\nCache-Status: edge;fwd=uri-miss\r\nContent-Length: 2\r\n\r\nhi" }
    ensures to_head { passed_answer_text (plain true) (codes "edge") (forwarded_on_miss head_request_for_a)
        (record (response_with 200 (date_at_101 ∷ [])) { content = []; announced = Some 6 }) 101 false None ≡ codes "HTTP/1.1 200 \r\nDate: Thu, 01 Jan 1970 00:01:41 GMT\r\nCache-Status: edge;fwd=uri-miss\r\nContent-Length: 6\r\n\r\n" }
    ensures to_head_of_unknown_length { passed_answer_text (plain true) (codes "edge")
        (forwarded_on_miss head_request_for_a)
        (record (response_with 200 (date_at_101 ∷ [])) { content = [] }) 101 false None
        ≡ codes "HTTP/1.1 200 \r\nDate: Thu, 01 Jan 1970 00:01:41 GMT\r\nCache-Status: edge;fwd=uri-miss\r\n\r\n" }
    ensures kept { passed_answer_text keeps_conditions_policy (codes "edge")
        (forwarded_on_miss (get_a_with (line (codes "If-None-Match") (codes "\"v1\"")
        ∷ []))) (response_with 200 first_answer_fields) 101 true None
        ≡ codes "HTTP/1.1 304 \r\nDate: Thu, 01 Jan 1970 00:01:41 GMT\r\nCache-Control: max-age=60\r\nETag: \"v1\"\r\nCache-Status: edge;fwd=uri-miss;fwd-status=200;ttl=59;stored\r\n\r\n" }
    ensures kept_and_changed { passed_answer_text keeps_conditions_policy (codes "edge")
        (forwarded_on_miss (get_a_with (line (codes "If-None-Match") (codes "\"v0\"")
        ∷ []))) (response_with 200 first_answer_fields) 101 true None
        ≡ codes "HTTP/1.1 200 \r\nDate: Thu, 01 Jan 1970 00:01:41 GMT\r\nCache-Control: max-age=60\r\nETag: \"v1\"\r\nCache-Status: edge;fwd=uri-miss;ttl=59;stored\r\nContent-Length: 2\r\n\r\nhi" }
    ensures kept_and_not_stored { passed_answer_text keeps_conditions_policy (codes "edge")
        (forwarded_on_miss (get_a_with (line (codes "If-None-Match") (codes "*") ∷ []))) (response_with 200 (date_at_101
        ∷ [])) 101 false None
        ≡ codes "HTTP/1.1 304 \r\nDate: Thu, 01 Jan 1970 00:01:41 GMT\r\nCache-Status: edge;fwd=uri-miss;fwd-status=200\r\n\r\n" }
    ensures kept_and_missing { passed_answer_text keeps_conditions_policy (codes "edge")
        (forwarded_on_miss (get_a_with (line (codes "If-None-Match") (codes "*") ∷ []))) (response_with 404 (date_at_101
        ∷ [])) 101 false None
        ≡ codes "HTTP/1.1 404 \r\nDate: Thu, 01 Jan 1970 00:01:41 GMT\r\nCache-Status: edge;fwd=uri-miss\r\nContent-Length: 2\r\n\r\nhi" }
    ensures forwarded { passed_answer_text (plain true) (codes "edge")
        (forwarded_on_miss (get_a_with (line (codes "If-None-Match") (codes "\"v1\"")
        ∷ []))) (response_with 200 first_answer_fields) 101 true None
        ≡ codes "HTTP/1.1 200 \r\nDate: Thu, 01 Jan 1970 00:01:41 GMT\r\nCache-Control: max-age=60\r\nETag: \"v1\"\r\nCache-Status: edge;fwd=uri-miss;ttl=59;stored\r\nContent-Length: 2\r\n\r\nhi" }
    ensures own { refusal_reply_text (codes "Thu, 01 Jan 1970 00:01:10 GMT")
        (Origin Refused MustRevalidate (Some on_error.MustRevalidate)) true false ≡ codes "HTTP/1.1 502 \r\nDate: Thu, 01 Jan 1970 00:01:10 GMT\r\nContent-Type: text/plain\r\nRefusal: origin refused;fwd=stale;detail=must-revalidate;stale-if-error=must-revalidate\r\nContent-Length: 78\r\nConnection: close\r\n\r\norigin refused;fwd=stale;detail=must-revalidate;stale-if-error=must-revalidate" }
    ensures own_to_head { refusal_reply_text (codes "Thu, 01 Jan 1970 00:01:10 GMT") NoLine false true ≡ codes "HTTP/1.1 403 \r\nDate: Thu, 01 Jan 1970 00:01:10 GMT\r\nContent-Type: text/plain\r\nRefusal: no line allows it\r\nContent-Length: 17\r\n\r\n" }
{}

/// The statuses in whose place a stored response may be sent (RFC 5861, section 4), and others.
pub fn worked_stale_if_error_statuses()
    ensures status_500 { is_stale_if_error_status 500 ≡ true }
    ensures status_501 { is_stale_if_error_status 501 ≡ false }
    ensures status_502 { is_stale_if_error_status 502 ≡ true }
    ensures status_503 { is_stale_if_error_status 503 ≡ true }
    ensures status_504 { is_stale_if_error_status 504 ≡ true }
    ensures status_505 { is_stale_if_error_status 505 ≡ false }
    ensures status_200 { is_stale_if_error_status 200 ≡ false }
    ensures status_404 { is_stale_if_error_status 404 ≡ false }
{}

/// A 304 that the client asked for and one that nobody did (RFC 9110, section 15.4.5); a 304
/// validates where the proxy had asked.
pub fn worked_304_asked_for()
    ensures nobody { is_304_without_condition (plain true) (get_a_with []) (response_with 304 []) ≡ true }
    ensures by_tag { is_304_without_condition (plain true) (get_a_with (line (codes "If-None-Match") (codes "\"e\"") ∷ []))
        (response_with 304 []) ≡ false }
    ensures by_date { is_304_without_condition (plain true) (get_a_with (line (codes "If-Modified-Since") (codes "x") ∷ []))
        (response_with 304 []) ≡ false }
    ensures kept { is_304_without_condition keeps_conditions_policy (get_a_with (line (codes "If-None-Match") (codes "\"e\"") ∷ []))
        (response_with 304 []) ≡ true }
    ensures kept_date { is_304_without_condition keeps_conditions_policy (get_a_with (line (codes "If-Modified-Since") (codes "x") ∷ []))
        (response_with 304 []) ≡ true }
    ensures of_a_range { is_304_without_condition keeps_conditions_policy (get_a_with (line (codes "Range") (codes "bytes=0-1")
        ∷ line (codes "If-None-Match") (codes "\"e\"") ∷ [])) (response_with 304 []) ≡ false }
    ensures other_status { is_304_without_condition (plain true) (get_a_with []) (response_with 200 []) ≡ false }
    ensures by_the_proxy { is_304_to_own_conditions (exchange_that_revalidates_e (get_a_with []))
        (response_with 304 []) ≡ true }
    ensures not_by_the_proxy { is_304_to_own_conditions (forwarded_on_miss (get_a_with [])) (response_with 304 [])
        ≡ false }
    ensures no_304 { is_304_to_own_conditions (exchange_that_revalidates_e (get_a_with [])) (response_with 200 [])
        ≡ false }
{}

/// An unsafe method that isn't refused invalidates, whatever it is called (RFC 9111, section 4.4;
/// RFC 9110, section 9.2.1).
pub fn worked_invalidating_answers()
    ensures post { answer_invalidates (forwarded_on_miss (request_for_path (codes "POST") (codes "/a") []))
        (response_with 200 []) ≡ true }
    ensures unknown { answer_invalidates (forwarded_on_miss (request_for_path (codes "BREW") (codes "/a") []))
        (response_with 204 []) ≡ true }
    ensures redirected { answer_invalidates (forwarded_on_miss (request_for_path (codes "DELETE") (codes "/a") []))
        (response_with 399 []) ≡ true }
    ensures by_a_304 { answer_invalidates (forwarded_on_miss (request_for_path (codes "DELETE") (codes "/a") []))
        (response_with 304 []) ≡ true }
    ensures interim { answer_invalidates (forwarded_on_miss (request_for_path (codes "DELETE") (codes "/a") []))
        (response_with 199 []) ≡ false }
    ensures refusal { answer_invalidates (forwarded_on_miss (request_for_path (codes "POST") (codes "/a") []))
        (response_with 400 []) ≡ false }
    ensures failed { answer_invalidates (forwarded_on_miss (request_for_path (codes "POST") (codes "/a") []))
        (response_with 503 []) ≡ false }
    ensures by_get { answer_invalidates (forwarded_on_miss (get_a_with [])) (response_with 200 []) ≡ false }
    ensures by_head { answer_invalidates (forwarded_on_miss head_request_for_a) (response_with 200 []) ≡ false }
    ensures options { answer_invalidates (forwarded_on_miss (request_for_path (codes "OPTIONS") (codes "/a") []))
        (response_with 200 []) ≡ false }
    ensures query { answer_invalidates (forwarded_on_miss (request_for_path (codes "QUERY") (codes "/a") []))
        (response_with 200 []) ≡ false }
    ensures trace { answer_invalidates (forwarded_on_miss (request_for_path (codes "TRACE") (codes "/a") []))
        (response_with 200 []) ≡ false }
{}

/// An answer to a GET of /a at 101, with something against it in each of the cases but `whole`,
/// `tag_alone` and `lasts`.
#[tactic(auto, unfolding(httpdate::proofs::OnLiterals::httpdate_on_literals, hx_storable::specs::Rules::rule_against_storing, hx_allow::specs::Matching::policy_of))]
pub fn worked_storable_answers()
    ensures whole { is_storable table (forwarded_on_miss (get_a_with [])) (response_with 200 first_answer_fields) 101
        (Some 4) ≡ true }
    ensures lasts { is_storable table (forwarded_on_miss (get_a_with []))
        (response_with 200 (cache_control (codes "max-age=60") ∷ [])) 101 (Some 4) ≡ true }
    ensures tag_alone { is_storable table (forwarded_on_miss (get_a_with []))
        (response_with 200 (etag_field (codes "\"e\"") ∷ [])) 101 (Some 4) ≡ true }
    ensures neither { is_storable table (forwarded_on_miss (get_a_with [])) (response_with 200 []) 101 (Some 4)
        ≡ false }
    ensures star { is_storable table (forwarded_on_miss (get_a_with []))
        (response_with 200 (vary_field (codes "*") ∷ first_answer_fields)) 101 (Some 4) ≡ false }
    ensures for_one_connection { is_storable table (forwarded_on_miss (get_a_with []))
        (response_with 200 (connection_field (codes "ETag") ∷ first_answer_fields)) 101 (Some 4) ≡ false }
    ensures longer { is_storable table (forwarded_on_miss (get_a_with []))
        (record (response_with 200 first_answer_fields) { content = codes "hi!" }) 101
        (Some 4) ≡ false }
    ensures overtaken { is_storable table (record (forwarded_on_miss (get_a_with [])) { overtaken = true })
        (response_with 200 first_answer_fields) 101
        (Some 4) ≡ false }
    ensures no_serial { is_storable table (forwarded_on_miss (get_a_with []))
        (response_with 200 first_answer_fields) 101 None ≡ false }
    ensures without_cache { is_storable table exchange_forwarded_over_line_2 (response_with 200 first_answer_fields) 101
        (Some 4) ≡ false }
{}

/// What is stored of a 404 with Age and with a field of its connection, for a request in German
/// (RFC 9111, sections 3, 3.1, 4.1 and 4.2.3); and of the stored responses of the path the one in
/// German whose place it takes.
#[tactic(auto, unfolding(httpdate::proofs::OnLiterals::httpdate_on_literals, hx_storable::specs::Rules::rule_against_storing, hx_allow::specs::Matching::policy_of))]
pub fn worked_stored_responses()
    ensures whole { stored_response_made 4 (forwarded_on_miss (get_a_with (accept_language_line (codes "de") ∷ [])))
        (response_with 404 (connection_field (codes "X-A") ∷ line (codes "X-A") (codes "1") ∷ vary_field (codes "Accept-Language")
        ∷ line (codes "Age") (codes "5") ∷ first_answer_fields)) 102
        ≡ record {
          serial = 4;
          key = key_of_path (codes "/a");
          nominated = record { name = codes "Accept-Language"; value = Some (codes "de") } ∷ [];
          status = 404;
          fields = vary_field (codes "Accept-Language") ∷ first_answer_fields;
          content = codes "hi";
          times = record { date = 101; age_value = 5; request_time = 100; response_time = 102; expired = None };
        } }
    ensures varied { (stored_response_made 4
        (exchange_varying_by_scheme (forwarded_on_miss (get_a_by_scheme (codes "https"))))
        (response_with 200 (vary_field (codes "Accept-Language") ∷ first_answer_fields)) 102).nominated
        ≡ record { name = codes "Accept-Language"; value = None }
        ∷ record { name = codes "X-Forwarded-Proto"; value = Some (codes "https") } ∷ [] }
    ensures told_as_it_came { (stored_response_made 4
        (exchange_varying_by_scheme (forwarded_on_miss (get_a_by_scheme (codes "https"))))
        (response_with 200 first_answer_fields) 102).fields ≡ first_answer_fields }
    ensures other_scheme { serials_replaced_by_storing (stored_response_made 4
        (exchange_varying_by_scheme (forwarded_on_miss (get_a_by_scheme (codes "https"))))
        (response_with 200 first_answer_fields) 102
        ∷ []) (get_a_by_scheme (codes "http")) ≡ [] }
    ensures same_scheme { serials_replaced_by_storing (stored_response_made 4
        (exchange_varying_by_scheme (forwarded_on_miss (get_a_by_scheme (codes "https"))))
        (response_with 200 first_answer_fields) 102
        ∷ []) (get_a_by_scheme (codes "https")) ≡ 4 ∷ [] }
    ensures replaced { serials_replaced_by_storing three_held_responses (get_a_with (accept_language_line (codes "de")
        ∷ [])) ≡ 3 ∷ [] }
    ensures stored { serial_stored_by_outcome (outcome_of_passing_on_or_stale table [] 101
        (forwarded_on_miss (get_a_with [])) (response_with 200 first_answer_fields) (Some 4) false
        (Refuses UriMiss None)) ≡ Some 4 }
    ensures error { serial_stored_by_outcome (outcome_of_passing_on_or_stale table [] 101
        (forwarded_on_miss (get_a_with [])) (response_with 503 (etag_field (codes "\"e\"") ∷ []))
        (Some 4) true (Refuses UriMiss None)) ≡ None }
    ensures lasting_error { serial_stored_by_outcome (outcome_of_passing_on_or_stale table [] 101
        (forwarded_on_miss (get_a_with [])) (response_with 503 first_answer_fields) (Some 4) true
        (Refuses UriMiss None)) ≡ Some 4 }
    ensures not_stored { serial_stored_by_outcome (outcome_of_passing_on_or_stale table [] 101
        (forwarded_on_miss (get_a_with [])) (response_with 200 []) (Some 4) false
        (Refuses UriMiss None)) ≡ None }
{}

/// With what condition a stored response is revalidated (RFC 9111, section 4.3.1), when that response is kept after a
/// 304 (section 4.3.4), and from when on it is as old as the 304.
#[tactic(auto, unfolding(httpdate::proofs::OnLiterals::httpdate_on_literals, hx_storable::specs::Rules::rule_against_storing, hx_allow::specs::Matching::policy_of, hx_validate::specs::Answering::freshened_of))]
pub fn worked_stored_responses_after_a_304()
    ensures asked_about { condition_to_revalidate_stored (stored_of_fields 3 (etag_field (codes "\"e\"") ∷ []))
        ≡ Some (record { serial = 3; sent = record { etag = Some (codes "\"e\""); modified = None } }) }
    ensures not_asked_about { condition_to_revalidate_stored
        (stored_of_fields 3 (cache_control (codes "max-age=60") ∷ [])) ≡ None }
    ensures times { (freshened_by_304 (exchange_that_revalidates_e (get_a_with [])) (response_with 304 (date_at_101
        ∷ [])) 105
        (stored_of_fields 1 (etag_field (codes "\"e\"") ∷ []))).times
        ≡ record { date = 101; age_value = 0; request_time = 100; response_time = 105; expired = None } }
    ensures varied { (freshened_by_304
        (exchange_varying_by_scheme (exchange_that_revalidates_e (get_a_by_scheme (codes "https"))))
        (response_with 304 (date_at_101 ∷ [])) 105
        (stored_of_fields 1 (etag_field (codes "\"e\"") ∷ []))).nominated
        ≡ record { name = codes "X-Forwarded-Proto"; value = Some (codes "https") } ∷ [] }
    ensures whole { freshened_may_be_kept table (exchange_that_revalidates_e (get_a_with []))
        (response_with 304 []) stored_from_first_answer
        ≡ true }
    ensures to_head { freshened_may_be_kept table (exchange_that_revalidates_e head_request_for_a)
        (response_with 304 []) stored_from_first_answer ≡ true }
    ensures tag_alone { freshened_may_be_kept table (exchange_that_revalidates_e (get_a_with [])) (response_with 304 [])
        (stored_of_fields 1 (etag_field (codes "\"e\"") ∷ [])) ≡ true }
    ensures neither { freshened_may_be_kept table (exchange_that_revalidates_e (get_a_with [])) (response_with 304 [])
        (stored_of_fields 1 []) ≡ false }
    ensures star { freshened_may_be_kept table (exchange_that_revalidates_e (get_a_with [])) (response_with 304 [])
        (stored_of_fields 1 (vary_field (codes "*") ∷ first_answer_fields)) ≡ false }
    ensures for_one_connection { freshened_may_be_kept table (exchange_that_revalidates_e (get_a_with []))
        (response_with 304 (connection_field (codes "ETag") ∷ []))
        stored_from_first_answer ≡ false }
    ensures longer { freshened_may_be_kept table (exchange_that_revalidates_e (get_a_with [])) (response_with 304 [])
        (record stored_from_first_answer { content = codes "hi!" }) ≡ false }
    ensures without_cache { freshened_may_be_kept table exchange_forwarded_over_line_2
        (response_with 304 []) stored_from_first_answer
        ≡ false }
    ensures lines_96 { freshened_may_be_kept table (exchange_that_revalidates_e (get_a_with [])) (response_with 304 [])
        (stored_of_fields 1 (etag_field (codes "\"e\"") ∷ many_lines 95)) ≡ true }
    ensures lines_97 { freshened_may_be_kept table (exchange_that_revalidates_e (get_a_with [])) (response_with 304 [])
        (stored_of_fields 1 (etag_field (codes "\"e\"") ∷ many_lines 96)) ≡ false }
    ensures bytes { (value : List ℕ) → freshened_may_be_kept table (exchange_that_revalidates_e (get_a_with []))
        (response_with 304 [])
        (stored_of_fields 1 (line (codes "X") value ∷ etag_field (codes "\"e\"") ∷ [])) ≡ nat_le (length value + 11) 32507 }
    ensures kept { serials_removed_by_outcome
        (outcome_of_sending_freshened table (exchange_that_revalidates_e (get_a_with []))
        (response_with 304 []) 105 stored_from_first_answer) ≡ [] }
    ensures release { serials_removed_by_outcome
        (outcome_of_sending_freshened table (exchange_that_revalidates_e (get_a_with []))
        (response_with 304 []) 105
        (stored_of_fields 1 (vary_field (codes "*") ∷ first_answer_fields))) ≡ 1 ∷ [] }
    ensures too_many { serials_removed_by_outcome
        (outcome_of_sending_freshened table (exchange_that_revalidates_e (get_a_with []))
        (response_with 304 []) 105
        (stored_of_fields 1 (etag_field (codes "\"e\"") ∷ many_lines 96))) ≡ 1 ∷ [] }
{}

/// What the words of the line change: an answer that isn't stored says why where its line explains
/// it (RFC 9211, section 2.8), a stored response without a lifetime has the operator's (RFC 9111,
/// section 4.2.2), as one with a long lifetime has his most; a page for one visitor isn't stored by the lifetime alone,
/// nor kept after his 304; and a 304 keeps neither a cookie nor an error whose line stores none.
#[tactic(auto, unfolding(httpdate::proofs::OnLiterals::httpdate_on_literals, hx_storable::specs::Rules::rule_against_storing, hx_allow::specs::Matching::policy_of))]
pub fn worked_line_options_in_storing()
    ensures explained { storing_rule_to_explain (table_with_policy policy_explaining_storing)
        (forwarded_on_miss (get_a_with [])) (response_with 200 []) 101 (Some 4)
        ≡ Some NothingToReuse }
    ensures not_explained { storing_rule_to_explain table (forwarded_on_miss (get_a_with []))
        (response_with 200 []) 101 (Some 4) ≡ None }
    ensures nothing_to_explain { storing_rule_to_explain (table_with_policy policy_explaining_storing)
        (forwarded_on_miss (get_a_with [])) (response_with 200 first_answer_fields) 101 (Some 4)
        ≡ None }
    ensures given { ttl_of_stored lifetime_60_policy stored_without_lifetime 110 ≡ pos 50 }
    ensures given_to_errors { ttl_of_stored (record lifetime_60_policy { error_lifetime = Some 15 })
        (record stored_without_lifetime { status = 404 }) 110 ≡ pos 5 }
    ensures none_given_to_errors { ttl_of_stored lifetime_60_policy
        (record stored_without_lifetime { status = 404 }) 110 ≡ negsuc 9 }
    ensures none_given { ttl_of_stored (plain true) stored_without_lifetime 110 ≡ negsuc 9 }
    ensures stated { ttl_of_stored lifetime_60_policy (stored_of_fields 1 (cache_control (codes "max-age=20") ∷ [])) 110
        ≡ pos 10 }
    ensures at_most { ttl_of_stored lifetime_at_most_15_policy (stored_of_fields 1 (cache_control (codes "max-age=31536000") ∷ [])) 110
        ≡ pos 5 }
    ensures for_one { is_storable (table_with_policy lifetime_60_but_not_to_cookies_policy)
        (forwarded_on_miss get_a_with_cookie)
        (response_with 200 []) 101 (Some 4) ≡ false }
    ensures for_all { is_storable (table_with_policy lifetime_60_but_not_to_cookies_policy)
        (forwarded_on_miss (get_a_with []))
        (response_with 200 []) 101 (Some 4) ≡ true }
    ensures for_one_who_shares { is_storable (table_with_policy lifetime_60_policy)
        (forwarded_on_miss get_a_with_cookie) (response_with 200 []) 101 (Some 4) ≡ true }
    ensures for_one_of_his_own { is_storable (table_with_policy lifetime_60_but_not_to_cookies_policy)
        (forwarded_on_miss get_a_with_cookie) (response_with 200 (cache_control (codes "max-age=60") ∷ [])) 101
        (Some 4) ≡ true }
    ensures freshened_for_one { freshened_may_be_kept (table_with_policy lifetime_60_but_not_to_cookies_policy)
        (exchange_that_revalidates_e get_a_with_cookie) (response_with 304 [])
        (stored_of_fields 1 (etag_field (codes "\"e\"") ∷ [])) ≡ false }
    ensures freshened_for_all { freshened_may_be_kept (table_with_policy lifetime_60_but_not_to_cookies_policy)
        (exchange_that_revalidates_e (get_a_with [])) (response_with 304 []) (stored_of_fields 1 (etag_field (codes "\"e\"")
        ∷ [])) ≡ true }
    ensures cookie_kept { freshened_may_be_kept table (exchange_that_revalidates_e (get_a_with []))
        (response_with 304 [])
        (stored_of_fields 1 (set_cookie_field ∷ first_answer_fields))
        ≡ true }
    ensures cookie_not_kept { freshened_may_be_kept (table_with_policy stores_no_cookies_policy)
        (exchange_that_revalidates_e (get_a_with [])) (response_with 304 [])
        (stored_of_fields 1 (set_cookie_field ∷ first_answer_fields)) ≡ false }
    ensures without_cookie { freshened_may_be_kept (table_with_policy stores_no_cookies_policy)
        (exchange_that_revalidates_e (get_a_with [])) (response_with 304 []) stored_from_first_answer
        ≡ true }
    ensures error_kept { freshened_may_be_kept table (exchange_that_revalidates_e (get_a_with []))
        (response_with 304 [])
        (record stored_from_first_answer { status = 503 })
        ≡ true }
    ensures error_not_kept { freshened_may_be_kept (table_with_policy stores_no_errors_policy)
        (exchange_that_revalidates_e (get_a_with []))
        (response_with 304 [])
        (record stored_from_first_answer { status = 503 }) ≡ false }
{}

/// What is held is sent after a failure: what may be reused, what stale-if-error allows (RFC 5861,
/// section 4), each by its word, or nothing, by the rules against it.
#[tactic(auto, unfolding(hx_reuse::specs::ErrorRules::error_rule_against))]
pub fn worked_fallbacks_after_failure()
    ensures reusable { fallback_for_failed_answer (plain true) [] (get_a_with []) 130 (decision.Hit 1)
        ≡ Sends 1 ReuseAfterError }
    ensures allowed { fallback_for_failed_answer (plain true) (stored_of_fields 1 (cache_control (codes "max-age=10, stale-if-error=60") ∷ [])
        ∷ []) (get_a_with []) 130 (decision.Forward NoMaxStale (Some 1)) ≡ Sends 1 StaleIfError }
    ensures not_allowed { fallback_for_failed_answer (plain true) (stored_of_fields 1 (cache_control (codes "max-age=10") ∷ [])
        ∷ []) (get_a_with []) 130 (decision.Forward NoMaxStale (Some 1)) ≡ Refuses NoMaxStale
        (Some on_error.NoDirective) }
    ensures nothing_held { fallback_for_failed_answer (plain true) [] (get_a_with []) 130
        (decision.Forward UriMiss None)
        ≡ Refuses UriMiss None }
{}

/// For whom a request waits: for the first GET of its key that went forward since nothing was held,
/// where it is one as well. Over a line without the word nothing else counts.
pub fn worked_leaders_of_requests()
    ensures first { leader_of_request (plain true) [] (forwarded_on_miss (get_a_with []) ∷ record
        (forwarded_on_miss (get_a_with [])) { id = 2 } ∷ []) (get_a_with []) UriMiss
        ≡ Some 1 }
    ensures a_head { leader_of_request (plain true) [] (forwarded_on_miss (get_a_with [])
        ∷ []) head_request_for_a UriMiss
        ≡ None }
    ensures another_rule { leader_of_request (plain true) [] (forwarded_on_miss (get_a_with []) ∷ [])
        (get_a_with []) VaryMiss ≡ None }
    ensures another_path { leader_of_request (plain true) [] (forwarded_on_miss (get_a_with []) ∷ [])
        (request_for_path (codes "GET") (codes "/b") []) UriMiss
        ≡ None }
    ensures behind_a_head { leader_of_request (plain true) [] (forwarded_on_miss head_request_for_a
        ∷ []) (get_a_with []) UriMiss
        ≡ None }
    ensures behind_another_rule { leader_of_request (plain true) [] (exchange_forwarded_on_stale
        ∷ []) (get_a_with []) UriMiss
        ≡ None }
    ensures behind_one_that_waits { leader_of_request (plain true) [] (waiting ∷ []) (get_a_with []) UriMiss ≡ None }
    ensures stale { leader_of_request (plain true) held_with_lifetime_10 (exchange_forwarded_on_stale
        ∷ []) (get_a_with []) NoMaxStale
        ≡ None }
    ensures behind_authorization { leader_of_request (plain true) [] (forwarded_on_miss get_a_with_authorization ∷ [])
        (get_a_with []) UriMiss ≡ Some 1 }
    ensures behind_no_store { leader_of_request (plain true) [] (forwarded_on_miss get_a_with_no_store ∷ [])
        (get_a_with []) UriMiss ≡ Some 1 }
    ensures behind_a_condition { leader_of_request (plain true) [] (forwarded_on_miss get_a_if_changed ∷ [])
        (get_a_with []) UriMiss ≡ Some 1 }
    ensures behind_one_overtaken { leader_of_request (plain true) []
        (record (forwarded_on_miss (get_a_with [])) { overtaken = true } ∷ []) (get_a_with []) UriMiss ≡ Some 1 }
    ensures with_no_cache { leader_of_request (plain true) [] (forwarded_on_miss (get_a_with []) ∷ [])
        get_a_with_no_cache UriMiss ≡ Some 1 }
{}

/// And where its line lets a request wait for what is stale: for the first GET of its key whose rule
/// names the chosen response, whichever rule that is, where that had a lifetime, which is over.
#[tactic(auto, unfolding(hx_age::specs::Lifetime::lifetime_of))]
pub fn worked_leaders_for_stale_responses()
    ensures first { leader_of_request wait_for_stale_policy held_with_lifetime_10 (exchange_forwarded_on_stale
        ∷ record exchange_forwarded_on_stale { id = 2 } ∷ []) (get_a_with []) NoMaxStale ≡ Some 1 }
    ensures must_revalidate { leader_of_request wait_for_stale_policy
        (stale_stored_with_directives (codes "max-age=10, must-revalidate") ∷ []) (exchange_forwarded_on_stale ∷ []) (get_a_with []) MustRevalidate
        ≡ Some 1 }
    ensures past_max_stale { leader_of_request wait_for_stale_policy held_with_lifetime_10 (exchange_forwarded_on_stale
        ∷ [])
        (get_a_with []) PastMaxStale ≡ Some 1 }
    ensures max_age { leader_of_request wait_for_stale_policy held_with_lifetime_10 (exchange_forwarded_on_stale ∷ [])
        (get_a_with []) StaleMaxAge ≡ Some 1 }
    ensures min_fresh { leader_of_request wait_for_stale_policy held_with_lifetime_10 (exchange_forwarded_on_stale ∷ [])
        (get_a_with []) StaleMinFresh ≡ Some 1 }
    ensures behind_no_cache { leader_of_request wait_for_stale_policy held_with_lifetime_10
        (record (forwarded_on_miss get_a_with_no_cache) { rule = StaleNoCache; named = Some 1 } ∷ []) (get_a_with [])
        NoMaxStale ≡ Some 1 }
    ensures stale_behind_missing { leader_of_request wait_for_stale_policy held_with_lifetime_10
        (forwarded_on_miss (get_a_with []) ∷ []) (get_a_with []) NoMaxStale ≡ None }
    ensures missing_behind_stale { leader_of_request wait_for_stale_policy [] (exchange_forwarded_on_stale ∷ [])
        (get_a_with []) UriMiss ≡ None }
    ensures no_lifetime { leader_of_request wait_for_stale_policy (stale_stored_with_directives (codes "must-revalidate") ∷ [])
        (exchange_forwarded_on_stale ∷ []) (get_a_with []) MustRevalidate ≡ None }
    ensures lifetime_of_0 { leader_of_request wait_for_stale_policy
        (stale_stored_with_directives (codes "public, max-age=0, must-revalidate") ∷ []) (exchange_forwarded_on_stale ∷ []) (get_a_with [])
        MustRevalidate ≡ None }
    ensures lifetime_of_the_line { leader_of_request (record wait_for_stale_policy { lifetime = Some 10 })
        (stale_stored_with_directives (codes "must-revalidate") ∷ []) (exchange_forwarded_on_stale
        ∷ []) (get_a_with []) MustRevalidate ≡ Some 1 }
    ensures never_stated { leader_of_request wait_for_stale_policy (stored_without_lifetime ∷ [])
        (record exchange_forwarded_on_stale { rule = NoLifetime } ∷ []) (get_a_with []) NoLifetime ≡ None }
    ensures asked_each_time { leader_of_request wait_for_stale_policy
        (stale_stored_with_directives (codes "max-age=10, no-cache")
        ∷ []) (record exchange_forwarded_on_stale { rule = ResponseNoCache } ∷ [])
        (get_a_with []) ResponseNoCache ≡ None }
    ensures stale_no_cache { leader_of_request wait_for_stale_policy held_with_lifetime_10 (exchange_forwarded_on_stale
        ∷ [])
        get_a_with_no_cache StaleNoCache ≡ None }
    ensures a_head { leader_of_request wait_for_stale_policy held_with_lifetime_10 (exchange_forwarded_on_stale
        ∷ []) head_request_for_a NoMaxStale
        ≡ None }
    ensures another_path { leader_of_request wait_for_stale_policy held_with_lifetime_10 (exchange_forwarded_on_stale
        ∷ [])
        (request_for_path (codes "GET") (codes "/b") []) NoMaxStale ≡ None }
{}

/// Over such a line a request waits for none whose answer could not be sent to it: not for one about
/// another variant, nor for one with no-store, with a condition of the client's own, of a key that
/// was invalidated since, or with Authorization where it has none; nor where no-cache keeps all that
/// is held from it.
#[tactic(auto, unfolding(hx_age::specs::Lifetime::lifetime_of))]
pub fn worked_requests_that_do_not_wait()
    ensures another_variant { leader_of_request wait_for_stale_policy held_with_lifetime_10
        (record exchange_forwarded_on_stale { named = Some 2 } ∷ []) (get_a_with []) NoMaxStale ≡ None }
    ensures a_missing_variant { leader_of_request wait_for_stale_policy held_with_lifetime_10
        (record (forwarded_on_miss (get_a_with [])) { rule = VaryMiss } ∷ []) (get_a_with []) VaryMiss ≡ None }
    ensures behind_a_head { leader_of_request wait_for_stale_policy held_with_lifetime_10
        (exchange_forwarded_on_stale_for head_request_for_a ∷ []) (get_a_with []) NoMaxStale ≡ None }
    ensures behind_one_that_waits { leader_of_request wait_for_stale_policy held_with_lifetime_10
        (record exchange_forwarded_on_stale { stage = Waiting 7 } ∷ []) (get_a_with []) NoMaxStale ≡ None }
    ensures behind_one_released { leader_of_request wait_for_stale_policy held_with_lifetime_10
        (record exchange_forwarded_on_stale { stage = Released } ∷ []) (get_a_with []) NoMaxStale ≡ None }
    ensures behind_no_store { leader_of_request wait_for_stale_policy held_with_lifetime_10
        (exchange_forwarded_on_stale_for get_a_with_no_store ∷ []) (get_a_with []) NoMaxStale ≡ None }
    ensures behind_a_condition { leader_of_request wait_for_stale_policy []
        (forwarded_on_miss get_a_if_changed ∷ []) (get_a_with []) UriMiss ≡ None }
    ensures behind_a_kept_condition { leader_of_request
        (record wait_for_stale_policy { forwards_conditions = false }) []
        (forwarded_on_miss get_a_if_changed ∷ []) (get_a_with []) UriMiss ≡ Some 1 }
    ensures behind_a_condition_about_stale { leader_of_request wait_for_stale_policy held_with_lifetime_10
        (exchange_forwarded_on_stale_for get_a_if_changed ∷ []) (get_a_with []) NoMaxStale ≡ None }
    ensures behind_a_condition_of_the_proxy { leader_of_request wait_for_stale_policy held_with_lifetime_10
        (record (exchange_that_revalidates_e get_a_if_changed) { rule = NoMaxStale } ∷ []) (get_a_with []) NoMaxStale
        ≡ Some 1 }
    ensures behind_one_overtaken { leader_of_request wait_for_stale_policy []
        (record (forwarded_on_miss (get_a_with [])) { overtaken = true } ∷ []) (get_a_with []) UriMiss ≡ None }
    ensures behind_authorization { leader_of_request wait_for_stale_policy held_with_lifetime_10
        (exchange_forwarded_on_stale_for get_a_with_authorization ∷ []) (get_a_with []) NoMaxStale ≡ None }
    ensures with_authorization { leader_of_request wait_for_stale_policy held_with_lifetime_10
        (exchange_forwarded_on_stale ∷ [])
        get_a_with_authorization NoMaxStale ≡ None }
    ensures both_with_authorization { leader_of_request wait_for_stale_policy held_with_lifetime_10
        (exchange_forwarded_on_stale_for get_a_with_authorization ∷ []) get_a_with_authorization NoMaxStale ≡ Some 1 }
    ensures both_with_authorization_at_a_miss { leader_of_request wait_for_stale_policy []
        (forwarded_on_miss get_a_with_authorization ∷ []) get_a_with_authorization UriMiss ≡ Some 1 }
    ensures past_authorization { leader_of_request wait_for_stale_policy held_with_lifetime_10
        (exchange_forwarded_on_stale_for get_a_with_authorization ∷ record exchange_forwarded_on_stale { id = 2 }
        ∷ []) (get_a_with [])
        NoMaxStale ≡ Some 2 }
    ensures missing { leader_of_request wait_for_stale_policy [] (forwarded_on_miss (get_a_with []) ∷ [])
        (get_a_with []) UriMiss ≡ Some 1 }
    ensures no_cache_at_a_miss { leader_of_request wait_for_stale_policy [] (forwarded_on_miss (get_a_with []) ∷ [])
        get_a_with_no_cache UriMiss ≡ None }
    ensures no_cache_that_is_not_heeded { leader_of_request (record wait_for_stale_policy { heeds_requests = false })
        [] (forwarded_on_miss (get_a_with []) ∷ []) get_a_with_no_cache UriMiss ≡ Some 1 }
    ensures no_cache_about_stale { leader_of_request wait_for_stale_policy
        (stale_stored_with_directives (codes "max-age=10, must-revalidate") ∷ []) (exchange_forwarded_on_stale ∷ []) get_a_with_no_cache
        MustRevalidate ≡ None }
{}

/// The faults of steps, the least of those that stand; and the serial after a serial, while there is one.
pub fn worked_step_faults_and_serials()
    ensures taken { fault_at_exchange (Some (forwarded_on_miss (get_a_with []))) (Arrive 5 1 (get_a_with []))
        ≡ Some IdTaken }
    ensures arrives { fault_at_exchange None (Arrive 253402300799 1 (get_a_with [])) ≡ None }
    ensures arrives_late { fault_at_exchange None (Arrive 253402300800 1 (get_a_with [])) ≡ Some MomentTooLate }
    ensures unknown { fault_at_exchange None (Answer 5 1 (response_with 200 [])) ≡ Some UnknownId }
    ensures late { fault_at_exchange (Some waiting) (Answer 253402300800 2 (response_with 200 []))
        ≡ Some MomentTooLate }
    ensures an_answer { fault_at_exchange (Some waiting) (Answer 5 2 (response_with 200 [])) ≡ Some NotForwarded }
    ensures a_failure { fault_at_exchange (Some waiting) (Fail 5 2 Refused) ≡ Some NotForwarded }
    ensures a_wake { fault_at_exchange (Some waiting) (Wake 5 2) ≡ Some NotReady }
    ensures ready { fault_at_exchange (Some (record waiting { stage = Released })) (Wake 5 2) ≡ None }
    ensures overdue { fault_at_exchange (Some waiting) (Overdue 2) ≡ None }
    ensures overdue_at_its_origin { fault_at_exchange (Some (forwarded_on_miss (get_a_with []))) (Overdue 1)
        ≡ Some NotWaiting }
    ensures overdue_twice { fault_at_exchange (Some (record waiting { stage = Released })) (Overdue 2)
        ≡ Some NotWaiting }
    ensures overdue_unknown { fault_at_exchange None (Overdue 2) ≡ Some UnknownId }
    ensures second { serial_after_this 1 ≡ Some 2 }
    ensures last { serial_after_this 18446744073709551614 ≡ Some 18446744073709551615 }
    ensures none_left { serial_after_this 18446744073709551615 ≡ None }
    ensures stored { next_serial_after_storing (Some 4) (Some 4) ≡ Some 5 }
    ensures not_stored { next_serial_after_storing (Some 4) None ≡ Some 4 }
{}

/// What a request gets that arrives: the line that denies it, the stored response, its origin, the
/// answer to another, or the rule where it takes no response but a stored one; and a request that
/// waited, when it is woken.
#[tactic(auto, unfolding(hx_reuse::specs::Rules::decision_of, hx_reuse::specs::Rules::least_reuse_rule_of, hx_allow::specs::Matching::policy_of, hx_hop::specs::Forwarding::forwarded_of, httpdate::proofs::OnLiterals::httpdate_on_literals))]
pub fn worked_outcomes_of_arrivals()
    ensures denied { outcome_of_arrival table (stored_from_first_answer
        ∷ []) [] 130 (get_a_with []) (verdict.DeniedBy 3)
        ≡ outcome_of_refusal 130 (Denied 3) (get_a_with []) }
    ensures unmatched { outcome_of_arrival table (stored_from_first_answer ∷ []) [] 130 (get_a_with []) verdict.NoLine
        ≡ outcome_of_refusal 130 NoLine (get_a_with []) }
    ensures looped { outcome_of_arrival table (stored_from_first_answer ∷ []) [] 130 (get_a_with []) (verdict.Looped 3)
        ≡ outcome_of_refusal 130 (Looped 3) (get_a_with []) }
    ensures purges { outcome_of_arrival table (stored_from_first_answer ∷ []) [] 130 (get_a_with []) (verdict.Purged 3)
        ≡ Reply (record {
          bytes = codes "HTTP/1.1 204 \r\nDate: Thu, 01 Jan 1970 00:02:10 GMT\r\nPurged: 1\r\n\r\n";
          close = false;
          about = purge_status_and_reason 1;
          stored = None;
          used = None;
          removed = 1 ∷ [];
          expired = None;
          purged = true;
        }) }
    ensures purges_nothing { serials_removed_by_outcome
        (outcome_of_arrival table [] [] 130 (get_a_with []) (verdict.Purged 3)) ≡ [] }
    ensures hit { serial_used_by_outcome (outcome_of_arrival table (stored_from_first_answer
        ∷ []) [] 130 (get_a_with [])
        (verdict.Allowed (route_over_line 1))) ≡ Some 1 }
    ensures stays { serials_removed_by_outcome (outcome_of_arrival table (stored_from_first_answer
        ∷ []) [] 130 (get_a_with [])
        (verdict.Allowed (route_over_line 1))) ≡ [] }
    ensures without_cache { outcome_of_arrival table (stored_from_first_answer ∷ []) [] 130 (get_a_with [])
        (verdict.Allowed (route_over_line 2))
        ≡ Forward (route_over_line 2) (codes "GET /a HTTP/1.1\r\nHost: h\r\nVia: 1.1 edge\r\nConnection: close\r\n\r\n") }
    ensures validates { outcome_of_arrival table (stored_without_lifetime ∷ []) [] 130 (get_a_with [])
        (verdict.Allowed (route_over_line 1)) ≡ Forward (route_over_line 1) (codes "GET /a HTTP/1.1\r\nHost: h\r\nIf-None-Match: \"e\"\r\nVia: 1.1 edge\r\nConnection: close\r\n\r\n") }
    ensures conditional { outcome_of_arrival table [] [] 130 (get_a_with (line (codes "If-None-Match") (codes "\"v0\"") ∷ []))
        (verdict.Allowed (route_over_line 1)) ≡ Forward (route_over_line 1) (codes "GET /a HTTP/1.1\r\nHost: h\r\nIf-None-Match: \"v0\"\r\nVia: 1.1 edge\r\nConnection: close\r\n\r\n") }
    ensures conditional_kept { outcome_of_arrival (table_with_policy keeps_conditions_policy) [] [] 130
        (get_a_with (line (codes "If-None-Match") (codes "\"v0\"") ∷ [])) (verdict.Allowed (route_over_line 1))
        ≡ Forward (route_over_line 1) (codes "GET /a HTTP/1.1\r\nHost: h\r\nVia: 1.1 edge\r\nConnection: close\r\n\r\n") }
    ensures waits { outcome_of_arrival table [] (forwarded_on_miss (get_a_with []) ∷ []) 130 (get_a_with [])
        (verdict.Allowed (route_over_line 1)) ≡ Waits 1 }
    ensures only_if_cached { outcome_of_arrival table [] [] 130
        (get_a_with (cache_control (codes "only-if-cached") ∷ [])) (verdict.Allowed (route_over_line 1))
        ≡ outcome_of_refusal 130 (OnlyIfCached UriMiss) (get_a_with (cache_control (codes "only-if-cached") ∷ [])) }
    ensures woken_hit { bytes_of_outcome (outcome_of_wake table (stored_from_first_answer
        ∷ []) 130 waiting (decision.Hit 1))
        ≡ codes "HTTP/1.1 200 \r\nDate: Thu, 01 Jan 1970 00:01:41 GMT\r\nCache-Control: max-age=60\r\nETag: \"v1\"\r\nAge: 30\r\nCache-Status: edge;fwd=uri-miss;ttl=30;collapsed\r\nContent-Length: 2\r\n\r\nhi" }
    ensures woken_goes_forward { outcome_of_wake table (stored_without_lifetime ∷ []) 130 waiting
        (decision.Forward NoLifetime (Some 1))
        ≡ Forward (route_over_line 1) (codes "GET /a HTTP/1.1\r\nHost: h\r\nIf-None-Match: \"e\"\r\nVia: 1.1 edge\r\nConnection: close\r\n\r\n") }
{}

/// What an answer of the origin gives: a 304 sends the stored response that was revalidated, with
/// its new lines, and where it has another tag the request goes forward once more without
/// conditions (RFC 9111, section 4.3.4); one that nobody asked for is a failure; in place of a 503
/// a stored response is sent (RFC 5861, section 4).
#[tactic(auto, unfolding(hx_hop::specs::Forwarding::forwarded_of, hx_validate::specs::Answering::freshened_of, httpdate::proofs::OnLiterals::httpdate_on_literals))]
pub fn worked_outcomes_of_answers()
    ensures validated { bytes_of_outcome (outcome_of_answer table (stored_without_lifetime ∷ []) 105
        (exchange_that_revalidates_e (get_a_with [])) (response_with 304 lines_of_origins_304)
        (Some 4) (decision.Forward NoLifetime (Some 1))) ≡ codes "HTTP/1.1 200 \r\nDate: Thu, 01 Jan 1970 00:01:41 GMT\r\nCache-Control: max-age=60\r\nETag: \"e\"\r\nAge: 5\r\nCache-Status: edge;fwd=stale;fwd-status=304;ttl=55;detail=no-lifetime\r\nContent-Length: 2\r\n\r\nhi" }
    ensures another_tag { outcome_of_answer table (stored_without_lifetime
        ∷ []) 105 (exchange_that_revalidates_e (get_a_with []))
        (response_with 304 (etag_field (codes "\"f\"") ∷ [])) (Some 4) (decision.Forward NoLifetime (Some 1))
        ≡ Forward (route_over_line 1) (codes "GET /a HTTP/1.1\r\nHost: h\r\nVia: 1.1 edge\r\nConnection: close\r\n\r\n") }
    ensures another_response { stored_response_is_answered_by_304 (exchange_that_revalidates_e (get_a_with []))
        (response_with 304 lines_of_origins_304) 105
        (record stored_without_lifetime { serial = 2 }) ≡ false }
    ensures unasked { outcome_of_answer table [] 105 (forwarded_on_miss (get_a_with [])) (response_with 304 [])
        (Some 4) (decision.Forward UriMiss None)
        ≡ reply_after_origin_was_asked (forwarded_on_miss (get_a_with [])).line []
        (outcome_of_refusal 105 (Origin BadAnswer UriMiss None) (get_a_with [])) }
    ensures error { serial_used_by_outcome (outcome_of_passing_on_or_stale table (stored_from_first_answer ∷ []) 130
        (forwarded_on_miss (get_a_with [])) (response_with 503 []) (Some 4) true
        (Sends 1 StaleIfError)) ≡ Some 1 }
    ensures invalidated { serials_removed_by_answer three_held_responses (post_exchange 1 (codes "/a"))
        (response_with 204 []) None ≡ 2 ∷ 3 ∷ [] }
    ensures in_place { serials_removed_by_answer three_held_responses
        (forwarded_on_miss (get_a_with (accept_language_line (codes "en") ∷ []))) (response_with 200 first_answer_fields)
        (Some 4)
        ≡ 2 ∷ [] }
{}

/// What a step leaves of the open exchanges: an end releases those that waited for it, an
/// invalidation overtakes those of its key (RFC 9111, section 4.4), what arrives stands behind the
/// others, and what goes forward has the moment and the rule of that.
#[tactic(auto, unfolding(hx_reuse::specs::Rules::decision_of, hx_reuse::specs::Rules::least_reuse_rule_of, hx_allow::specs::Matching::policy_of, hx_allow::specs::Matching::verdict_of, hx_allow::specs::Matching::verdict_of_request, hx_allow::specs::Matching::matches_line, httpdate::proofs::OnLiterals::httpdate_on_literals))]
pub fn worked_open_exchanges_after_a_step()
    ensures gone { open_exchanges_after_event table [] (forwarded_on_miss (get_a_with []) ∷ waiting
        ∷ record waiting { id = 3; stage = Waiting 9 } ∷ [])
        (Abandon 1) Ended ≡ record waiting { stage = Released } ∷ record waiting { id = 3; stage = Waiting 9 } ∷ [] }
    ensures failed { open_exchanges_after_event table [] (forwarded_on_miss (get_a_with []) ∷ waiting ∷ [])
        (Fail 130 1 Refused) Ended
        ≡ record waiting { stage = Released } ∷ [] }
    ensures invalidated { open_exchanges_after_event table [] (post_exchange 1 (codes "/a") ∷ post_exchange 2 (codes "/a")
        ∷ post_exchange 3 (codes "/b")
        ∷ []) (Answer 130 1 (response_with 204 [])) Ended
        ≡ record (post_exchange 2 (codes "/a")) { overtaken = true } ∷ post_exchange 3 (codes "/b") ∷ [] }
    ensures purged { open_exchanges_after_event table [] (record (post_exchange 1 (codes "/a")) { overtaken = false }
        ∷ post_exchange 2 (codes "/b") ∷ []) (Arrive 130 3 (get_a_with [])) (outcome_of_purge [] 130 (get_a_with []))
        ≡ record (post_exchange 1 (codes "/a")) { overtaken = true } ∷ post_exchange 2 (codes "/b") ∷ [] }
    ensures denied { open_exchanges_after_event table [] (post_exchange 1 (codes "/a") ∷ [])
        (Arrive 130 3 (get_a_with []))
        (outcome_of_refusal 130 (Denied 1) (get_a_with [])) ≡ post_exchange 1 (codes "/a") ∷ [] }
    ensures behind { open_exchanges_after_event table [] (post_exchange 1 (codes "/b") ∷ [])
        (Arrive 130 2 (get_a_with []))
        (Forward (route_over_line 1) [])
        ≡ post_exchange 1 (codes "/b") ∷ record (forwarded_on_miss (get_a_with [])) { id = 2; request_time = 130 } ∷ [] }
    ensures varied { open_exchanges_after_event table_varying_by_scheme [] [] (Arrive 130 1 (get_a_with []))
        (Forward (route_over_line 1) [])
        ≡ record (exchange_varying_by_scheme (forwarded_on_miss (get_a_with []))) { request_time = 130 } ∷ [] }
    ensures waits { open_exchanges_after_event table [] (forwarded_on_miss (get_a_with []) ∷ [])
        (Arrive 130 2 (get_a_with [])) (Waits 1)
        ≡ forwarded_on_miss (get_a_with []) ∷ record waiting { request_time = 130 } ∷ [] }
    ensures to_be_stored { open_exchanges_after_event table [] [] (Arrive 130 1 get_a_with_authorization)
        (Forward (route_over_line 1) [])
        ≡ record (forwarded_on_miss get_a_with_authorization) { request_time = 130; no_store = false } ∷ [] }
    ensures not_to_be_stored { open_exchanges_after_event table [] [] (Arrive 130 1 get_a_with_no_store)
        (Forward (route_over_line 1) [])
        ≡ record (forwarded_on_miss get_a_with_no_store) { request_time = 130; no_store = true } ∷ [] }
    ensures names_what_is_held { open_exchanges_after_event table (stored_without_lifetime ∷ []) []
        (Arrive 130 1 (get_a_with [])) (Forward (route_over_line 1) [])
        ≡ record (exchange_that_revalidates_e (get_a_with [])) { request_time = 130; named = Some 1 } ∷ [] }
    ensures woken_on { open_exchanges_after_event table (stored_without_lifetime ∷ [])
        (record waiting { overtaken = true }
        ∷ []) (Wake 130 2)
        (Forward (route_over_line 1) [])
        ≡ record (exchange_that_revalidates_e (get_a_with [])) { id = 2; request_time = 130 } ∷ [] }
    ensures again { open_exchanges_after_event table []
        (record (exchange_that_revalidates_e (get_a_with [])) { overtaken = true }
        ∷ []) (Answer 130 1 (response_with 304 [])) (Forward (route_over_line 1) [])
        ≡ record (exchange_that_revalidates_e (get_a_with [])) { request_time = 130; condition = None } ∷ [] }
{}

/// And of the stored responses: what is stored or used comes first, the last goes beyond the limit, and a 304 freshens.
#[tactic(auto, unfolding(hx_validate::specs::Answering::freshened_of, httpdate::proofs::OnLiterals::httpdate_on_literals))]
pub fn worked_stored_responses_after_a_step()
    ensures stored { serials (entries_after_removal_and_storing (Some (forwarded_on_miss (get_a_with [])))
        (Answer 101 1 (response_with 200 first_answer_fields)) (Some 4)
        (3 ∷ []) three_held_responses) ≡ 4 ∷ 2 ∷ 1 ∷ [] }
    ensures cut { serials (cut_to_bounds_if_stored_or_used (record { entries = 2; bytes = None }) (Some 4) None
        (entries_after_removal_and_storing (Some (forwarded_on_miss (get_a_with [])))
        (Answer 101 1 (response_with 200 first_answer_fields)) (Some 4) (3 ∷ []) three_held_responses)) ≡ 4 ∷ 2 ∷ [] }
    ensures used { serials (entries_after_use (Some waiting) (Wake 130 2) (Some 2) three_held_responses) ≡ 2 ∷ 3 ∷ 1
        ∷ [] }
    ensures freshened { entries_after_use (Some (exchange_that_revalidates_e (get_a_with [])))
        (Answer 105 1 (response_with 304 lines_of_origins_304)) (Some 1)
        (stored_without_lifetime ∷ []) ≡ record (stored_of_fields 1 lines_of_origins_304) {
          times = record { date = 101; age_value = 0; request_time = 100; response_time = 105; expired = None };
        } ∷ [] }
{}
