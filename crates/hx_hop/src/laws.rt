//! What the definitions of `specs/` say together, and what they give on the first example: each function's
//! contract is a law, and its body is empty.
ghost use Rattle.std.specs.Prelude.{◌≡◌, Result, None, Some, [], ◌∷◌, codes, length, true, false, decimal, ◌++◌};
ghost use Rattle.hx_framing.specs.declared.messages.Request.{Request};
ghost use Rattle.hx_framing.specs.Text.{request_text};
ghost use Rattle.hx_target.specs.declared.target_fault.TargetFault.{TargetFault};
ghost use Rattle.hx_hop.specs.declared.request_view.Asked.{Asked as AskedFor};
ghost use Rattle.hx_hop.specs.Answering.{answered_of, fields_with_valid_date};
ghost use Rattle.hx_hop.specs.Bypass.{asks_for_range, request_has_content, has_precondition_for_origin};
ghost use Rattle.hx_hop.specs.Asking.{RequestIsReadAsAsked, asked_with_target, client_connection_closes};
ghost use Rattle.hx_hop.specs.Asking.{fields_passed_on_of};
ghost use Rattle.hx_hop.specs.Examples.{request_in_absolute_form, target_of_absolute_form, example_asked_with_content};
ghost use Rattle.hx_hop.specs.Examples.{example_http_1_0_request};
ghost use Rattle.hx_hop.specs.Examples.{first_example_asked_with_line, first_example_conditions};
ghost use Rattle.hx_hop.specs.Examples.{conditions_by_tag_and_date, connection_fields_naming, date_line};
ghost use Rattle.hx_hop.specs.Examples.{first_example_asked};
ghost use Rattle.hx_hop.specs.Examples.{example_hop_by_hop_and_similar_fields, response_with_fields};
ghost use Rattle.hx_hop.specs.Forwarding.{line, host_text, forwarded_client_lines, via_text, forwarded_lines};
ghost use Rattle.hx_hop.specs.Forwarding.{forwarded_of};
ghost use Rattle.hx_hop.specs.Moments.{date_text_of};
ghost use Rattle.hx_hop.specs.Stripping.{connection_has_option, is_hop_by_hop_name, connection_names_caching_field};
ghost use Rattle.hx_hop.specs.Stripping.{stripped};
ghost use Rattle.hx_hop.specs.PassedOnFields.{HopByHopFieldsAreRemoved, EndToEndFieldsAreKept, StrippingIsIdempotent};
ghost use Rattle.hx_hop.specs.PassedOnFields.{DateTextReadsBackAsItsMoment, DatedHasOneDate};
ghost use Rattle.hx_hop.specs.PassedOnFields.{DatingIsIdempotent, ExactlyOneHostIsForwarded, ForwardEndsWithVia};
ghost use Rattle.hx_hop.specs.PassedOnFields.{NoHopFieldIsInForwardedRequest, NoExpectIsForwarded};
ghost use Rattle.hx_hop.specs.PassedOnFields.{NoLengthFieldIsForwarded, MethodTargetAndContentAreForwarded};
ghost use Rattle.hx_hop.specs.PassedOnFields.{DefaultPortIsLeftOut};
ghost use Rattle.hx_hop.specs.PassedOnFields.{NonDefaultPortsAreWritten, WithheldConditionsAreNotForwarded};
ghost use Rattle.hx_hop.specs.PassedOnFields.{ViaShowsTheVersion, ConnectionClosesWhereAsked};
ghost use Rattle.hx_hop.specs.PassedOnFields.{ConnectionStaysOpenWithoutClose};
ghost use Rattle.hx_hop.specs.PassedOnFields.{AnswerKeepsItsStatus};

use hx_target::laws::judgement_of_a_target_is_unique;

/// A request is asked in one way.
pub fn request_is_asked_in_one_way()
    ensures { (request : Request) (r s : Result AskedFor TargetFault) → RequestIsReadAsAsked request r
        → RequestIsReadAsAsked request s → r ≡ s }
{
    judgement_of_a_target_is_unique();
}

/// The forward of the first example, its forward with a condition, and one to another port.
#[tactic(auto, unfolding(crate::specs::Forwarding::forwarded_of))]
pub fn worked_first_forwarded_request()
    ensures text { request_text (forwarded_of false first_example_asked (codes "edge") None) ≡ codes "GET /a HTTP/1.1\r\nHost: h\r\nVia: 1.1 edge\r\nConnection: close\r\n\r\n" }
    ensures size { length (request_text (forwarded_of false first_example_asked (codes "edge") None)) ≡ 62 }
    ensures conditional { request_text
        (forwarded_of false first_example_asked (codes "edge") (Some first_example_conditions))
        ≡ codes "GET /a HTTP/1.1\r\nHost: h\r\nIf-None-Match: \"v1\"\r\nVia: 1.1 edge\r\nConnection: close\r\n\r\n" }
    ensures conditional_size { length
        (request_text (forwarded_of false first_example_asked (codes "edge") (Some first_example_conditions)))
        ≡ 83 }
    ensures other_port { host_text example_http_1_0_request.target.key ≡ codes "h:" ++ decimal 81 }
    ensures replaced { forwarded_client_lines true example_http_1_0_request.fields ≡ line (codes "Accept") (codes "*/*") ∷ [] }
    ensures older { via_text example_http_1_0_request.minor (codes "edge") ≡ codes "1.0 edge" }
{}

/// What goes on is what concerns no connection, and with that nothing is left to take out.
pub fn only_hop_by_hop_fields_are_removed()
    ensures theirs { HopByHopFieldsAreRemoved }
    ensures others { EndToEndFieldsAreKept }
    ensures once { StrippingIsIdempotent }
{}

/// A response gets one valid Date, and keeps it.
pub fn a_dated_response_has_one_date()
    ensures moment { DateTextReadsBackAsItsMoment }
    ensures one { DatedHasOneDate }
    ensures once { DatingIsIdempotent }
{}

/// A request goes forward with one Host line, and ends with Via.
pub fn forward_has_one_host_and_ends_with_via()
    ensures host { ExactlyOneHostIsForwarded }
    ensures via { ForwardEndsWithVia }
{}

/// A target in absolute form replaces Host, and a member of Connection takes its field with it.
#[tactic(auto, unfolding(crate::specs::Forwarding::forwarded_of))]
pub fn worked_absolute_form_is_rewritten()
    ensures kept { fields_passed_on_of request_in_absolute_form.fields ≡ line (codes "X-B") (codes "2") ∷ [] }
    ensures text { request_text (forwarded_of false (asked_with_target request_in_absolute_form target_of_absolute_form)
        (codes "edge") None)
        ≡ codes "GET / HTTP/1.1\r\nHost: h\r\nX-B: 2\r\nVia: 1.1 edge\r\nConnection: close\r\n\r\n" }
    ensures size { length
        (request_text (forwarded_of false (asked_with_target request_in_absolute_form target_of_absolute_form)
        (codes "edge") None))
        ≡ 69 }
    ensures open { client_connection_closes request_in_absolute_form ≡ false }
{}

/// Names go without case and whole; several Connection lines count; a comma in quotes separates nothing.
pub fn worked_connection_members_removed()
    ensures stripped { stripped example_hop_by_hop_and_similar_fields ≡ line (codes "Proxy-Authenticat") (codes "2")
        ∷ line (codes "B") (codes "3") ∷ [] }
    ensures close { connection_has_option example_hop_by_hop_and_similar_fields (codes "close") ≡ true }
    ensures quoted { connection_has_option example_hop_by_hop_and_similar_fields (codes "b") ≡ false }
    ensures tag { connection_names_caching_field example_hop_by_hop_and_similar_fields ≡ true }
    ensures no_cache_field { connection_names_caching_field request_in_absolute_form.fields ≡ false }
{}

/// A response received at 101 without Date, with two, with one that is none, and with one.
#[tactic(auto, unfolding(httpdate::proofs::OnLiterals::httpdate_on_literals, crate::specs::Moments::part_and_day_within_it))]
pub fn missing_date_is_added()
    ensures missing { answered_of (response_with_fields (line (codes "X") (codes "1") ∷ [])) 101
        ≡ record { status = 200; fields = line (codes "X") (codes "1") ∷ date_line (codes "Thu, 01 Jan 1970 00:01:41 GMT") ∷ [] } }
    ensures twice { fields_with_valid_date (date_line (codes "Thu, 01 Jan 1970 00:00:00 GMT") ∷ date_line (codes "Thu, 01 Jan 1970 00:00:00 GMT") ∷ []) 101
        ≡ date_line (codes "Thu, 01 Jan 1970 00:01:41 GMT") ∷ [] }
    ensures no_date { fields_with_valid_date (date_line (codes "Thu, 4 Jan 2018 00:00:00 GMT") ∷ []) 101
        ≡ date_line (codes "Thu, 01 Jan 1970 00:01:41 GMT") ∷ [] }
    ensures stays { fields_with_valid_date (date_line (codes "Sun, 06 Nov 1994 08:49:37 GMT") ∷ line (codes "X") (codes "1") ∷ []) 101
        ≡ date_line (codes "Sun, 06 Nov 1994 08:49:37 GMT") ∷ line (codes "X") (codes "1") ∷ [] }
{}

/// The standard's date, a leap day, and the last second of the year 9999.
#[tactic(auto, unfolding(httpdate::proofs::OnLiterals::httpdate_on_literals, crate::specs::Moments::part_and_day_within_it))]
pub fn worked_date_texts()
    ensures standard { date_text_of 784111777 ≡ codes "Sun, 06 Nov 1994 08:49:37 GMT" }
    ensures leap_day { date_text_of 951782400 ≡ codes "Tue, 29 Feb 2000 00:00:00 GMT" }
    ensures last { date_text_of 253402300799 ≡ codes "Fri, 31 Dec 9999 23:59:59 GMT" }
{}

/// The client's own conditions don't go forward where the proxy keeps them, and then none does but the proxy's.
pub fn withheld_conditions_are_not_forwarded()
    ensures { WithheldConditionsAreNotForwarded }
{}

/// What concerns the client's connection doesn't go forward, nor do Expect and the client's length;
/// what was asked does.
pub fn only_what_was_asked_goes_forward()
    ensures hop { NoHopFieldIsInForwardedRequest }
    ensures expect { NoExpectIsForwarded }
    ensures length { NoLengthFieldIsForwarded }
    ensures asked { MethodTargetAndContentAreForwarded }
{}

/// Host has the port unless it is 80, and Via the version that was received.
pub fn host_and_via_show_port_and_version()
    ensures default_port { DefaultPortIsLeftOut }
    ensures other_port { NonDefaultPortsAreWritten }
    ensures version { ViaShowsTheVersion }
{}

/// A client's connection closes where the client is of HTTP/1.0 or says close, and not else.
pub fn connections_close_where_asked()
    ensures closes { ConnectionClosesWhereAsked }
    ensures stays { ConnectionStaysOpenWithoutClose }
{}

/// An answer keeps its status.
pub fn an_answer_keeps_its_status()
    ensures { AnswerKeepsItsStatus }
{}

/// The fields of one connection (RFC 9110, section 7.6.1), and the four that this proxy adds to them.
pub fn worked_hop_by_hop_names()
    ensures connection { is_hop_by_hop_name (codes "Connection") ≡ true }
    ensures proxy_connection { is_hop_by_hop_name (codes "Proxy-Connection") ≡ true }
    ensures keep_alive { is_hop_by_hop_name (codes "Keep-Alive") ≡ true }
    ensures te { is_hop_by_hop_name (codes "TE") ≡ true }
    ensures transfer_encoding { is_hop_by_hop_name (codes "Transfer-Encoding") ≡ true }
    ensures upgrade { is_hop_by_hop_name (codes "Upgrade") ≡ true }
    ensures trailer { is_hop_by_hop_name (codes "Trailer") ≡ true }
    ensures proxy_authenticate { is_hop_by_hop_name (codes "Proxy-Authenticate") ≡ true }
    ensures proxy_authentication_info { is_hop_by_hop_name (codes "Proxy-Authentication-Info") ≡ true }
    ensures proxy_authorization { is_hop_by_hop_name (codes "Proxy-Authorization") ≡ true }
{}

/// Other fields go on, among them those of the origin's own authentication, and what a cache reads.
pub fn worked_names_not_hop_by_hop()
    ensures via { is_hop_by_hop_name (codes "Via") ≡ false }
    ensures host { is_hop_by_hop_name (codes "Host") ≡ false }
    ensures authorization { is_hop_by_hop_name (codes "Authorization") ≡ false }
    ensures www_authenticate { is_hop_by_hop_name (codes "WWW-Authenticate") ≡ false }
    ensures authentication_info { is_hop_by_hop_name (codes "Authentication-Info") ≡ false }
    ensures cache_control { is_hop_by_hop_name (codes "Cache-Control") ≡ false }
    ensures set_cookie { is_hop_by_hop_name (codes "Set-Cookie") ≡ false }
    ensures cookie { is_hop_by_hop_name (codes "Cookie") ≡ false }
    ensures content_length { is_hop_by_hop_name (codes "Content-Length") ≡ false }
    ensures content_type { is_hop_by_hop_name (codes "Content-Type") ≡ false }
    ensures date { is_hop_by_hop_name (codes "Date") ≡ false }
    ensures age { is_hop_by_hop_name (codes "Age") ≡ false }
    ensures etag { is_hop_by_hop_name (codes "ETag") ≡ false }
    ensures expires { is_hop_by_hop_name (codes "Expires") ≡ false }
    ensures last_modified { is_hop_by_hop_name (codes "Last-Modified") ≡ false }
    ensures vary { is_hop_by_hop_name (codes "Vary") ≡ false }
    ensures location { is_hop_by_hop_name (codes "Location") ≡ false }
    ensures warning { is_hop_by_hop_name (codes "Warning") ≡ false }
    ensures accept { is_hop_by_hop_name (codes "Accept") ≡ false }
    ensures range { is_hop_by_hop_name (codes "Range") ≡ false }
    ensures expect { is_hop_by_hop_name (codes "Expect") ≡ false }
{}

/// The fields by which a cache decides (RFC 9111, sections 3 and 4), and others, named by Connection.
pub fn worked_caching_fields_in_connection()
    ensures age { connection_names_caching_field (connection_fields_naming (codes "Age")) ≡ true }
    ensures cache_control { connection_names_caching_field (connection_fields_naming (codes "Cache-Control")) ≡ true }
    ensures date { connection_names_caching_field (connection_fields_naming (codes "Date")) ≡ true }
    ensures etag { connection_names_caching_field (connection_fields_naming (codes "ETag")) ≡ true }
    ensures expires { connection_names_caching_field (connection_fields_naming (codes "Expires")) ≡ true }
    ensures last_modified { connection_names_caching_field (connection_fields_naming (codes "Last-Modified")) ≡ true }
    ensures set_cookie { connection_names_caching_field (connection_fields_naming (codes "Set-Cookie")) ≡ true }
    ensures vary { connection_names_caching_field (connection_fields_naming (codes "Vary")) ≡ true }
    ensures not_cookie { connection_names_caching_field (connection_fields_naming (codes "Cookie")) ≡ false }
    ensures not_content_type { connection_names_caching_field (connection_fields_naming (codes "Content-Type")) ≡ false }
    ensures not_content_length { connection_names_caching_field (connection_fields_naming (codes "Content-Length")) ≡ false }
    ensures not_via { connection_names_caching_field (connection_fields_naming (codes "Via")) ≡ false }
    ensures not_accept { connection_names_caching_field (connection_fields_naming (codes "Accept")) ≡ false }
    ensures not_close { connection_names_caching_field (connection_fields_naming (codes "close")) ≡ false }
{}

/// Content, ranges and the preconditions that only the origin can judge (RFC 9110, sections 13.1.1,
/// 13.1.4, 13.1.5 and 14.2); the two that a cache judges aren't among them.
pub fn worked_requests_past_the_cache()
    ensures range { asks_for_range (first_example_asked_with_line (codes "Range") (codes "bytes=0-1")) ≡ true }
    ensures if_range { asks_for_range (first_example_asked_with_line (codes "If-Range") (codes "\"e\"")) ≡ true }
    ensures no_range { asks_for_range (first_example_asked_with_line (codes "Accept-Ranges") (codes "bytes")) ≡ false }
    ensures if_match { has_precondition_for_origin (first_example_asked_with_line (codes "If-Match") (codes "*")) ≡ true }
    ensures if_unmodified_since { has_precondition_for_origin
        (first_example_asked_with_line (codes "If-Unmodified-Since") (codes "x")) ≡ true }
    ensures if_none_match { has_precondition_for_origin (first_example_asked_with_line (codes "If-None-Match") (codes "*")) ≡ false }
    ensures if_modified_since { has_precondition_for_origin
        (first_example_asked_with_line (codes "If-Modified-Since") (codes "x")) ≡ false }
    ensures content { request_has_content (example_asked_with_content (Some (codes "x"))) ≡ true }
    ensures empty { request_has_content (example_asked_with_content (Some [])) ≡ false }
    ensures none { request_has_content (example_asked_with_content None) ≡ false }
{}

/// The proxy's conditions stand behind the client's lines, the tag first (RFC 9110, sections 13.1.2
/// and 13.1.3); without them the client's own go forward, unless the proxy keeps them.
pub fn worked_forwarded_conditions()
    ensures both { forwarded_lines false example_http_1_0_request (codes "edge") (Some conditions_by_tag_and_date)
        ≡ line (codes "Host") (codes "h:" ++ decimal 81) ∷ line (codes "Accept") (codes "*/*") ∷ line (codes "If-None-Match") (codes "\"v1\"")
        ∷ line (codes "If-Modified-Since") (codes "Thu, 01 Jan 1970 00:00:05 GMT") ∷ line (codes "Via") (codes "1.0 edge") ∷ [] }
    ensures the_clients { forwarded_client_lines false example_http_1_0_request.fields
        ≡ example_http_1_0_request.fields }
    ensures kept { forwarded_lines true example_http_1_0_request (codes "edge") None
        ≡ line (codes "Host") (codes "h:" ++ decimal 81) ∷ line (codes "Accept") (codes "*/*") ∷ line (codes "Via") (codes "1.0 edge") ∷ [] }
    ensures kept_beside { forwarded_lines true example_http_1_0_request (codes "edge") (Some conditions_by_tag_and_date)
        ≡ forwarded_lines false example_http_1_0_request (codes "edge") (Some conditions_by_tag_and_date) }
{}

/// A response is stripped, and dated once Connection's names are gone.
#[tactic(auto, unfolding(httpdate::proofs::OnLiterals::httpdate_on_literals, crate::specs::Moments::part_and_day_within_it))]
pub fn worked_response_stripped_then_dated()
    ensures stripped { (answered_of (response_with_fields (line (codes "Connection") (codes "X-A")
        ∷ line (codes "X-A") (codes "1") ∷ date_line (codes "Sun, 06 Nov 1994 08:49:37 GMT") ∷ [])) 101).fields
        ≡ date_line (codes "Sun, 06 Nov 1994 08:49:37 GMT") ∷ [] }
    ensures named { (answered_of (response_with_fields (line (codes "Connection") (codes "date") ∷ date_line
        (codes "Sun, 06 Nov 1994 08:49:37 GMT") ∷ [])) 101).fields
        ≡ date_line (codes "Thu, 01 Jan 1970 00:01:41 GMT") ∷ [] }
{}
