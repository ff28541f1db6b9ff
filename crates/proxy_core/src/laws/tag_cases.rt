//! What becomes of Cache-Tag over a line that hides it: each function's contract is a law or worked cases, computed
//! from the definitions, and its body is empty.

ghost use Rattle.std.specs.Prelude.{◌≡◌, ◌∷◌, ◌++◌, [], ℕ, Bool, List, Option, Some, None, true, false, codes};
ghost use Rattle.hx_fields.specs.Line.{Field};
ghost use Rattle.hx_fields.specs.Examples.{line};
ghost use Rattle.hx_fields.specs.FieldLines.{has_field};
ghost use Rattle.hx_policy.specs.Policies.{plain};
ghost use Rattle.hx_policy.specs.declared.words.Policy.{Policy};
ghost use Rattle.hx_status.specs.Member.{member_text};
ghost use Rattle.hx_storable.specs.declared.rule.StoreRule.{StoreRule};
ghost use Rattle.hx_store.specs.Stored.{Stored};
ghost use Rattle.proxy_core.specs.Outcomes.{sent_after_forward_status_info, hit_status_info};
ghost use Rattle.proxy_core.specs.Replies.{cache_status_in_place_of_answer, cache_status_of_passed_answer};
ghost use Rattle.proxy_core.specs.Replies.{fields_in_place_of_answer, fields_of_passed_answer, fields_of_sent_response};
ghost use Rattle.proxy_core.specs.Replies.{fields_with_age_and_status, passed_answer_text, stored_reply_text};
ghost use Rattle.proxy_core.specs.Storing.{stored_response_made};
ghost use Rattle.proxy_core.specs.Cases.{cache_control, cache_tag, first_answer_fields, forwarded_on_miss};
ghost use Rattle.proxy_core.specs.Cases.{get_a_for_range, get_a_with, head_request_for_a, hides_tags_policy};
ghost use Rattle.proxy_core.specs.Cases.{response_with};
ghost use Rattle.proxy_core.specs.Cases.{exchange_that_revalidates_e, stored_of_fields};
ghost use Rattle.proxy_core.specs.declared.open.exchange.Exchange.{Exchange};
ghost use Rattle.proxy_core.specs.declared.replies.stored_reply.StoredCacheStatusInfo.{StoredCacheStatusInfo};

/// Over a line that hides tags the lines of an answer have none: neither those of a stored response, whatever it is
/// sent as, nor those of an answer of the origin, whole or in its place. Over each other line nothing is changed.
pub fn hidden_tags_are_never_sent()
    ensures stored { (name : List ℕ) (status : ℕ) (fields : List Field) (e : Stored) (now : ℕ)
        (info : StoredCacheStatusInfo)
        → info.policy.hides_tags ≡ true
        → has_field (fields_of_sent_response name status fields e now info) (codes "Cache-Tag") ≡ false }
    ensures passed { (policy : Policy) (name : List ℕ) (x : Exchange) (status : ℕ) (fields : List Field) (now : ℕ)
        (stored : Bool) (rule : Option StoreRule) → policy.hides_tags ≡ true
        → has_field (fields_of_passed_answer policy name x status fields now stored rule) (codes "Cache-Tag") ≡ false }
    ensures in_its_place { (policy : Policy) (name : List ℕ) (x : Exchange) (status : ℕ) (fields : List Field) (now : ℕ)
        (stored : Bool) (rule : Option StoreRule) (own : List Field) → policy.hides_tags ≡ true
        → has_field (fields_in_place_of_answer policy name x status fields now stored rule own) (codes "Cache-Tag")
        ≡ false }
    ensures stored_elsewhere { (name : List ℕ) (status : ℕ) (fields : List Field) (e : Stored) (now : ℕ)
        (info : StoredCacheStatusInfo) → info.policy.hides_tags ≡ false
        → fields_of_sent_response name status fields e now info
        ≡ fields_with_age_and_status name status fields e now info }
    ensures passed_elsewhere { (policy : Policy) (name : List ℕ) (x : Exchange) (status : ℕ) (fields : List Field)
        (now : ℕ) (stored : Bool) (rule : Option StoreRule) → policy.hides_tags ≡ false
        → fields_of_passed_answer policy name x status fields now stored rule
        ≡ fields ++ line (codes "Cache-Status")
        (member_text name (cache_status_of_passed_answer policy x status fields now stored rule)) ∷ [] }
    ensures in_its_place_elsewhere { (policy : Policy) (name : List ℕ) (x : Exchange) (status : ℕ) (fields : List Field)
        (now : ℕ) (stored : Bool) (rule : Option StoreRule) (own : List Field) → policy.hides_tags ≡ false
        → fields_in_place_of_answer policy name x status fields now stored rule own
        ≡ own ++ line (codes "Cache-Status")
        (member_text name (cache_status_in_place_of_answer policy x status fields now stored rule)) ∷ [] }
{}

/// Each line of Cache-Tag stays with the proxy: at a hit, to HEAD, behind a 304 and of an answer that is passed on,
/// stored or not; over a line of an earlier version it is sent as before. In the store it stays.
pub fn worked_tags_that_are_hidden()
    ensures hit { stored_reply_text (codes "edge") (stored_of_fields 1 (cache_tag (codes "news") ∷ first_answer_fields)) 130
        (hit_status_info hides_tags_policy) (get_a_with [])
        ≡ codes "HTTP/1.1 200 \r\nDate: Thu, 01 Jan 1970 00:01:41 GMT\r\nCache-Control: max-age=60\r\nETag: \"v1\"\r\nAge: 30\r\nCache-Status: edge;hit;ttl=30\r\nContent-Length: 2\r\n\r\nhi" }
    ensures to_head { stored_reply_text (codes "edge") (stored_of_fields 1 (cache_tag (codes "news") ∷ first_answer_fields)) 130
        (hit_status_info hides_tags_policy) head_request_for_a
        ≡ codes "HTTP/1.1 200 \r\nDate: Thu, 01 Jan 1970 00:01:41 GMT\r\nCache-Control: max-age=60\r\nETag: \"v1\"\r\nAge: 30\r\nCache-Status: edge;hit;ttl=30\r\nContent-Length: 2\r\n\r\n" }
    ensures validated { stored_reply_text (codes "edge")
        (stored_of_fields 1 (cache_tag (codes "news") ∷ first_answer_fields)) 130
        (sent_after_forward_status_info hides_tags_policy (exchange_that_revalidates_e (get_a_with [])) (Some 304) None)
        (get_a_with [])
        ≡ codes "HTTP/1.1 200 \r\nDate: Thu, 01 Jan 1970 00:01:41 GMT\r\nCache-Control: max-age=60\r\nETag: \"v1\"\r\nAge: 30\r\nCache-Status: edge;fwd=stale;fwd-status=304;ttl=30;detail=no-lifetime\r\nContent-Length: 2\r\n\r\nhi" }
    ensures who_has_it { stored_reply_text (codes "edge")
        (stored_of_fields 1 (cache_tag (codes "news") ∷ first_answer_fields)) 130
        (hit_status_info hides_tags_policy) (get_a_with (line (codes "If-None-Match") (codes "\"v1\"") ∷ []))
        ≡ codes "HTTP/1.1 304 \r\nDate: Thu, 01 Jan 1970 00:01:41 GMT\r\nCache-Control: max-age=60\r\nETag: \"v1\"\r\nAge: 30\r\nCache-Status: edge;hit;ttl=30\r\n\r\n" }
    ensures each_line { stored_reply_text (codes "edge") (stored_of_fields 1 (line (codes "cache-tag") (codes "a")
        ∷ cache_control (codes "max-age=60") ∷ cache_tag (codes "b, c") ∷ [])) 102 (hit_status_info hides_tags_policy)
        (get_a_with [])
        ≡ codes "HTTP/1.1 200 \r\nCache-Control: max-age=60\r\nAge: 2\r\nCache-Status: edge;hit;ttl=58\r\nContent-Length: 2\r\n\r\nhi" }
    ensures in_an_earlier_version { stored_reply_text (codes "edge") (stored_of_fields 1 (cache_tag (codes "news")
        ∷ cache_control (codes "max-age=60") ∷ [])) 102 (hit_status_info (plain true)) (get_a_with [])
        ≡ codes "HTTP/1.1 200 \r\nCache-Tag: news\r\nCache-Control: max-age=60\r\nAge: 2\r\nCache-Status: edge;hit;ttl=58\r\nContent-Length: 2\r\n\r\nhi" }
    ensures asker { passed_answer_text hides_tags_policy (codes "edge") (forwarded_on_miss (get_a_with []))
        (response_with 200 (cache_tag (codes "news") ∷ first_answer_fields)) 101 true None
        ≡ codes "HTTP/1.1 200 \r\nDate: Thu, 01 Jan 1970 00:01:41 GMT\r\nCache-Control: max-age=60\r\nETag: \"v1\"\r\nCache-Status: edge;fwd=uri-miss;ttl=59;stored\r\nContent-Length: 2\r\n\r\nhi" }
    ensures not_stored { passed_answer_text hides_tags_policy (codes "edge") (forwarded_on_miss (get_a_with []))
        (response_with 200 (cache_tag (codes "news") ∷ first_answer_fields)) 101 false None
        ≡ codes "HTTP/1.1 200 \r\nDate: Thu, 01 Jan 1970 00:01:41 GMT\r\nCache-Control: max-age=60\r\nETag: \"v1\"\r\nCache-Status: edge;fwd=uri-miss\r\nContent-Length: 2\r\n\r\nhi" }
    ensures asker_in_an_earlier_version { passed_answer_text (plain true) (codes "edge") (forwarded_on_miss (get_a_with []))
        (response_with 200 (cache_tag (codes "news") ∷ first_answer_fields)) 101 false None
        ≡ codes "HTTP/1.1 200 \r\nCache-Tag: news\r\nDate: Thu, 01 Jan 1970 00:01:41 GMT\r\nCache-Control: max-age=60\r\nETag: \"v1\"\r\nCache-Status: edge;fwd=uri-miss\r\nContent-Length: 2\r\n\r\nhi" }
    ensures in_the_store { (stored_response_made 4 (forwarded_on_miss (get_a_with []))
        (response_with 200 (cache_tag (codes "news") ∷ first_answer_fields)) 101).fields
        ≡ cache_tag (codes "news") ∷ first_answer_fields }
{}

/// So it does where a part is sent: out of the store, and of an answer that is passed on.
pub fn worked_tags_of_partial_replies()
    ensures stored { stored_reply_text (codes "edge") (stored_of_fields 1 (cache_tag (codes "news") ∷ first_answer_fields)) 130
        (hit_status_info (record hides_tags_policy { forwards_ranges = false })) (get_a_for_range (codes "bytes=1-1") [])
        ≡ codes "HTTP/1.1 206 \r\nDate: Thu, 01 Jan 1970 00:01:41 GMT\r\nCache-Control: max-age=60\r\nETag: \"v1\"\r\nContent-Range: bytes 1-1/2\r\nAge: 30\r\nCache-Status: edge;hit;ttl=30\r\nContent-Length: 1\r\n\r\ni" }
    ensures passed { passed_answer_text (record hides_tags_policy { forwards_ranges = false; fills_ranges = true })
        (codes "edge") (forwarded_on_miss (get_a_for_range (codes "bytes=1-1") []))
        (response_with 200 (cache_tag (codes "news") ∷ first_answer_fields)) 101 true None
        ≡ codes "HTTP/1.1 206 \r\nDate: Thu, 01 Jan 1970 00:01:41 GMT\r\nCache-Control: max-age=60\r\nETag: \"v1\"\r\nContent-Range: bytes 1-1/2\r\nCache-Status: edge;fwd=uri-miss;fwd-status=200;ttl=59;stored\r\nContent-Length: 1\r\n\r\ni" }
{}
