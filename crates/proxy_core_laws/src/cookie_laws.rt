//! Laws on requests with a cookie that their line names, and on cookies that are set over a line that removes them.
//! Each function's contract is a law, and its body is empty.
ghost use Rattle.proxy_core_laws.specs.PastStore.{NamedCookieBypassesTheStore, BypassingRequestLeadsNobody};
ghost use Rattle.proxy_core_laws.specs.PastStore.{BypassingAnswerReportsTheCookie};
ghost use Rattle.proxy_core_laws.specs.RemovedCookies.{NoCookieIsSentOutOfTheStore, NoCookieIsLeftInTheStore};
ghost use Rattle.proxy_core_laws.specs.RemovedCookies.{RequesterGetsTheCookies};

/// Who has a cookie that the line names (RFC 6265, section 4.2.1) goes past the store: nothing stored is sent to it,
/// nothing is stored of its answer, it waits for no other and leads none, and its answer tells of the cookie.
pub fn a_named_cookie_bypasses_the_store()
    ensures passes { NamedCookieBypassesTheStore }
    ensures leads { BypassingRequestLeadsNobody }
    ensures told { BypassingAnswerReportsTheCookie }
{}

/// Over a line that removes cookies a cookie stays with the one whom it was set for (RFC 6265, section 3): nobody is
/// sent a Set-Cookie out of the store, none is left there for other lines, and who asked gets each that came.
pub fn a_cookie_is_sent_only_to_its_requester()
    ensures sent { NoCookieIsSentOutOfTheStore }
    ensures left { NoCookieIsLeftInTheStore }
    ensures asker { RequesterGetsTheCookies }
{}
