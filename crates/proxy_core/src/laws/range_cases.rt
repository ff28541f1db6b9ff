//! What of an answer is sent to a request whose range stayed with the proxy, computed from the definitions: each
//! function's contract is the cases, and its body is empty.

ghost use Rattle.std.specs.Prelude.{◌≡◌, ◌∷◌, [], None, true, false, codes};
ghost use Rattle.hx_fields.specs.Examples.{line};
ghost use Rattle.proxy_core.specs.Leading.{is_leader_for_request};
ghost use Rattle.proxy_core.specs.Replies.{passed_answer_text};
ghost use Rattle.proxy_core.specs.Cases.{date_at_101, fills_ranges_policy, first_answer_fields, forwarded_on_miss};
ghost use Rattle.proxy_core.specs.Cases.{get_a_for_range, get_a_with, response_with, serves_ranges_policy};
ghost use Rattle.proxy_core.specs.Cases.{set_cookie_field};
ghost use Rattle.proxy_core.specs.declared.open.awaited.Awaited.TheVariants.{Missing};

/// The second byte of the answer of the first run, stored and not; none of its bytes, with its cookie; by If-Range of
/// this answer and of another; of an error; and where the range went to the origin (RFC 9110, sections 13.1.5, 14.2,
/// 15.3.7 and 15.5.17).
pub fn worked_parts_of_answers()
    ensures stored { passed_answer_text fills_ranges_policy (codes "edge")
        (forwarded_on_miss (get_a_for_range (codes "bytes=1-1") [])) (response_with 200 first_answer_fields) 101 true None
        ≡ codes "HTTP/1.1 206 \r\nDate: Thu, 01 Jan 1970 00:01:41 GMT\r\nCache-Control: max-age=60\r\nETag: \"v1\"\r\nContent-Range: bytes 1-1/2\r\nCache-Status: edge;fwd=uri-miss;fwd-status=200;ttl=59;stored\r\nContent-Length: 1\r\n\r\ni" }
    ensures not_stored { passed_answer_text fills_ranges_policy (codes "edge")
        (forwarded_on_miss (get_a_for_range (codes "bytes=0-0") [])) (response_with 200 (date_at_101 ∷ [])) 101 false None
        ≡ codes "HTTP/1.1 206 \r\nDate: Thu, 01 Jan 1970 00:01:41 GMT\r\nContent-Range: bytes 0-0/2\r\nCache-Status: edge;fwd=uri-miss;fwd-status=200\r\nContent-Length: 1\r\n\r\nh" }
    ensures beyond { passed_answer_text fills_ranges_policy (codes "edge")
        (forwarded_on_miss (get_a_for_range (codes "bytes=2-") []))
        (response_with 200 (set_cookie_field ∷ date_at_101 ∷ [])) 101 false None
        ≡ codes "HTTP/1.1 416 \r\nSet-Cookie: a=1\r\nDate: Thu, 01 Jan 1970 00:01:41 GMT\r\nContent-Range: bytes */2\r\nCache-Status: edge;fwd=uri-miss;fwd-status=200\r\nContent-Length: 0\r\n\r\n" }
    ensures if_range { passed_answer_text fills_ranges_policy (codes "edge")
        (forwarded_on_miss (get_a_for_range (codes "bytes=1-1") (line (codes "If-Range") (codes "\"v1\"") ∷ [])))
        (response_with 200 first_answer_fields) 101 true None
        ≡ codes "HTTP/1.1 206 \r\nDate: Thu, 01 Jan 1970 00:01:41 GMT\r\nCache-Control: max-age=60\r\nETag: \"v1\"\r\nContent-Range: bytes 1-1/2\r\nCache-Status: edge;fwd=uri-miss;fwd-status=200;ttl=59;stored\r\nContent-Length: 1\r\n\r\ni" }
    ensures another_if_range { passed_answer_text fills_ranges_policy (codes "edge")
        (forwarded_on_miss (get_a_for_range (codes "bytes=1-1") (line (codes "If-Range") (codes "\"v0\"") ∷ [])))
        (response_with 200 first_answer_fields) 101 true None
        ≡ codes "HTTP/1.1 200 \r\nDate: Thu, 01 Jan 1970 00:01:41 GMT\r\nCache-Control: max-age=60\r\nETag: \"v1\"\r\nCache-Status: edge;fwd=uri-miss;ttl=59;stored\r\nContent-Length: 2\r\n\r\nhi" }
    ensures missing { passed_answer_text fills_ranges_policy (codes "edge")
        (forwarded_on_miss (get_a_for_range (codes "bytes=1-1") [])) (response_with 404 (date_at_101 ∷ [])) 101 false None
        ≡ codes "HTTP/1.1 404 \r\nDate: Thu, 01 Jan 1970 00:01:41 GMT\r\nCache-Status: edge;fwd=uri-miss\r\nContent-Length: 2\r\n\r\nhi" }
    ensures forwarded { passed_answer_text serves_ranges_policy (codes "edge")
        (forwarded_on_miss (get_a_for_range (codes "bytes=1-1") [])) (response_with 200 (date_at_101 ∷ [])) 101 false None
        ≡ codes "HTTP/1.1 200 \r\nDate: Thu, 01 Jan 1970 00:01:41 GMT\r\nCache-Status: edge;fwd=uri-miss\r\nContent-Length: 2\r\n\r\nhi" }
{}

/// Who waits for the answer to a range: over a line that fills it each GET that misses, else nobody.
pub fn worked_ranges_that_lead()
    ensures filled { is_leader_for_request fills_ranges_policy Missing (get_a_with [])
        (forwarded_on_miss (get_a_for_range (codes "bytes=1-1") [])) ≡ true }
    ensures for_a_range { is_leader_for_request fills_ranges_policy Missing (get_a_for_range (codes "bytes=0-0") [])
        (forwarded_on_miss (get_a_for_range (codes "bytes=1-1") [])) ≡ true }
    ensures beside_if_match { is_leader_for_request fills_ranges_policy Missing (get_a_with [])
        (forwarded_on_miss (get_a_for_range (codes "bytes=1-1") (line (codes "If-Match") (codes "*") ∷ []))) ≡ false }
    ensures served { is_leader_for_request serves_ranges_policy Missing (get_a_with [])
        (forwarded_on_miss (get_a_for_range (codes "bytes=1-1") [])) ≡ false }
{}
