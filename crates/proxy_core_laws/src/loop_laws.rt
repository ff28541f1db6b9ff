//! Laws on requests that come back to the proxy. Each function's contract is a law, and its body is empty.
ghost use Rattle.proxy_core_laws.specs.ComingBack.{EachForwardAddsOneVia, LoopedRequestWaitsForNobody};

/// A request that goes forward names the proxy in Via once more than it did (RFC 9110, section 7.6.3), so one that
/// comes back again and again is refused in the end; and one that came back once waits for no answer, which could be
/// its own.
pub fn a_looped_request_is_recognized()
    ensures named { EachForwardAddsOneVia }
    ensures waits { LoopedRequestWaitsForNobody }
{}
