//! What becomes of Set-Cookie over a line that removes it, computed from the definitions: each function's contract is
//! the cases, and its body is empty.

ghost use Rattle.std.specs.Prelude.{◌≡◌, ◌∷◌, [], Some, None, true, false, codes};
ghost use Rattle.hx_policy.specs.Policies.{plain};
ghost use Rattle.hx_fields.specs.Examples.{line};
ghost use Rattle.hx_allow.specs.Matching.{route_over_line};
ghost use Rattle.proxy_core.specs.Outcomes.{sent_after_forward_status_info, hit_status_info};
ghost use Rattle.proxy_core.specs.Replies.{passed_answer_text, stored_reply_text};
ghost use Rattle.proxy_core.specs.State.{forwarded_exchange};
ghost use Rattle.proxy_core.specs.Storing.{is_storable, stored_response_made};
ghost use Rattle.proxy_core.specs.Validating.{freshened_by_304};
ghost use Rattle.proxy_core.specs.Cases.{cache_control, etag_field, first_answer_fields, forwarded_on_miss, get_a_with};
ghost use Rattle.proxy_core.specs.Cases.{head_request_for_a, lines_of_origins_304, exchange_removing_cookies};
ghost use Rattle.proxy_core.specs.Cases.{removes_cookies_policy};
ghost use Rattle.proxy_core.specs.Cases.{response_with};
ghost use Rattle.proxy_core.specs.Cases.{exchange_that_revalidates_e, set_cookie_field, stored_of_fields};
ghost use Rattle.proxy_core.specs.Cases.{table_with_policy};

/// Who asked gets the answer with its cookies. Others get what is stored without them: at a hit, behind a 304, and
/// where it was stored over another line.
pub fn worked_cookies_that_are_sent()
    ensures asker { passed_answer_text removes_cookies_policy (codes "edge")
        (exchange_removing_cookies (forwarded_on_miss (get_a_with [])))
        (response_with 200 (set_cookie_field ∷ first_answer_fields)) 101 true None
        ≡ codes "HTTP/1.1 200 \r\nSet-Cookie: a=1\r\nDate: Thu, 01 Jan 1970 00:01:41 GMT\r\nCache-Control: max-age=60\r\nETag: \"v1\"\r\nCache-Status: edge;fwd=uri-miss;ttl=59;stored\r\nContent-Length: 2\r\n\r\nhi" }
    ensures hit { stored_reply_text (codes "edge") (stored_of_fields 1 (set_cookie_field ∷ first_answer_fields)) 130
        (hit_status_info removes_cookies_policy) (get_a_with [])
        ≡ codes "HTTP/1.1 200 \r\nDate: Thu, 01 Jan 1970 00:01:41 GMT\r\nCache-Control: max-age=60\r\nETag: \"v1\"\r\nAge: 30\r\nCache-Status: edge;hit;ttl=30\r\nContent-Length: 2\r\n\r\nhi" }
    ensures to_head { stored_reply_text (codes "edge") (stored_of_fields 1 (set_cookie_field ∷ first_answer_fields)) 130
        (hit_status_info removes_cookies_policy) head_request_for_a
        ≡ codes "HTTP/1.1 200 \r\nDate: Thu, 01 Jan 1970 00:01:41 GMT\r\nCache-Control: max-age=60\r\nETag: \"v1\"\r\nAge: 30\r\nCache-Status: edge;hit;ttl=30\r\nContent-Length: 2\r\n\r\n" }
    ensures validated { stored_reply_text (codes "edge") (stored_of_fields 1 (set_cookie_field ∷ first_answer_fields)) 130
        (sent_after_forward_status_info removes_cookies_policy (exchange_that_revalidates_e (get_a_with []))
        (Some 304) None)
        (get_a_with [])
        ≡ codes "HTTP/1.1 200 \r\nDate: Thu, 01 Jan 1970 00:01:41 GMT\r\nCache-Control: max-age=60\r\nETag: \"v1\"\r\nAge: 30\r\nCache-Status: edge;fwd=stale;fwd-status=304;ttl=30;detail=no-lifetime\r\nContent-Length: 2\r\n\r\nhi" }
    ensures each_line { stored_reply_text (codes "edge") (stored_of_fields 1 (line (codes "set-cookie") (codes "b=2")
        ∷ cache_control (codes "max-age=60") ∷ set_cookie_field
        ∷ [])) 102 (hit_status_info removes_cookies_policy) (get_a_with [])
        ≡ codes "HTTP/1.1 200 \r\nCache-Control: max-age=60\r\nAge: 2\r\nCache-Status: edge;hit;ttl=58\r\nContent-Length: 2\r\n\r\nhi" }
    ensures without_the_word { stored_reply_text (codes "edge") (stored_of_fields 1 (set_cookie_field
        ∷ cache_control (codes "max-age=60") ∷ [])) 102 (hit_status_info (plain true)) (get_a_with [])
        ≡ codes "HTTP/1.1 200 \r\nSet-Cookie: a=1\r\nCache-Control: max-age=60\r\nAge: 2\r\nCache-Status: edge;hit;ttl=58\r\nContent-Length: 2\r\n\r\nhi" }
{}

/// What is stored of an answer, and what a 304 leaves of it, has none: neither the one that came nor one that was held.
#[tactic(auto, unfolding(httpdate::proofs::OnLiterals::httpdate_on_literals, hx_storable::specs::Rules::rule_against_storing, hx_allow::specs::Matching::policy_of, hx_validate::specs::Answering::freshened_of))]
pub fn worked_cookies_removed_on_storing()
    ensures is_stored { is_storable (table_with_policy removes_cookies_policy)
        (exchange_removing_cookies (forwarded_on_miss (get_a_with [])))
        (response_with 200 (set_cookie_field ∷ first_answer_fields)) 101 (Some 4) ≡ true }
    ensures made { (stored_response_made 4 (exchange_removing_cookies (forwarded_on_miss (get_a_with [])))
        (response_with 200 (set_cookie_field ∷ first_answer_fields)) 101).fields ≡ first_answer_fields }
    ensures each_line { (stored_response_made 4 (exchange_removing_cookies (forwarded_on_miss (get_a_with [])))
        (response_with 200 (line (codes "set-cookie") (codes "b=2") ∷ first_answer_fields)) 101).fields
        ≡ first_answer_fields }
    ensures made_without_the_word { (stored_response_made 4 (forwarded_on_miss (get_a_with []))
        (response_with 200 (set_cookie_field ∷ first_answer_fields)) 101).fields
        ≡ set_cookie_field ∷ first_answer_fields }
    ensures freshened { (freshened_by_304 (exchange_removing_cookies (exchange_that_revalidates_e (get_a_with [])))
        (response_with 304 (set_cookie_field ∷ lines_of_origins_304)) 105
        (stored_of_fields 1 (etag_field (codes "\"e\"") ∷ []))).fields ≡ lines_of_origins_304 }
    ensures freshened_of_another_line { (freshened_by_304
        (exchange_removing_cookies (exchange_that_revalidates_e (get_a_with [])))
        (response_with 304 lines_of_origins_304) 105
        (stored_of_fields 1 (set_cookie_field ∷ etag_field (codes "\"e\"") ∷ []))).fields ≡ lines_of_origins_304 }
    ensures freshened_without_the_word { (freshened_by_304 (exchange_that_revalidates_e (get_a_with []))
        (response_with 304 (set_cookie_field ∷ lines_of_origins_304)) 105
        (stored_of_fields 1 (etag_field (codes "\"e\"") ∷ []))).fields ≡ set_cookie_field ∷ lines_of_origins_304 }
    ensures of_its_line { (forwarded_exchange (table_with_policy removes_cookies_policy) [] 100 1 (get_a_with [])
        (route_over_line 1)).removes_set_cookie ≡ true }
    ensures of_a_plain_line { (forwarded_exchange (table_with_policy (plain true)) [] 100 1 (get_a_with [])
        (route_over_line 1)).removes_set_cookie ≡ false }
{}
