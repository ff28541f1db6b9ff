//! The laws: each function's contract is one, and its body is empty.
ghost use Rattle.hx_hop_laws.specs.OneMessage.{ForwardedRequestReadsBackAsOne, ReadRequestHasWritableParts};
ghost use Rattle.hx_hop_laws.specs.OneMessage.{ForwardedRequestHasWritableParts};
ghost use Rattle.hx_hop_laws.specs.OneResponse.{PassedOnResponseReadsBackAsOne};

/// What a client's bytes spell as a request goes forward as one request, within the limits of a
/// reader: no part of it can end a line or the head, its content is told by one length, and read
/// again it is what was sent, with what stands behind it left. This is the law against request
/// smuggling.
pub fn one_request_goes_forward()
    ensures parts { ForwardedRequestHasWritableParts }
    ensures request { ForwardedRequestReadsBackAsOne }
{}

/// What a client's bytes spell as a request has parts that can be written again as they are (RFC
/// 9110, sections 5 and 9.1).
pub fn a_read_request_has_writable_parts()
    ensures { ReadRequestHasWritableParts }
{}

/// What an origin's bytes spell as a response goes on as one response, within the limits of a
/// reader: read again, by a client that knows what it asked, it is what was sent, with what stands
/// behind it left. This is the law against response splitting.
pub fn one_response_is_passed_on()
    ensures { PassedOnResponseReadsBackAsOne }
{}
