//! The words of a line.
ghost use Rattle.std.specs.Prelude.{◌≡◌};
ghost use Rattle.hx_policy.specs.Policies.{plain, lifetime_given_by_policy};

use crate::heuristics::{is_error, is_heuristic_status};

/// What a line says of caching. Each word but the first needs version 3 of the table, those of errors, of the most
/// seconds, of cookies that stay with one, of conditions, of ranges, and of what is sent while it is validated
/// version 4. That tags are hidden has no word: each line of a table of version 4 does it, and no other.
#[derive(Clone, Copy, Debug, PartialEq, Eq)]
pub struct Policy {
    /// Requests may be answered from the store, and their responses stored.
    pub caches: bool,
    /// The lifetime of a response of a heuristically cacheable status below 400 that states none, in
    /// seconds, 1 to 2147483648 (RFC 9111, section 4.2.2).
    pub lifetime: Option<u32>,
    /// The same of a status from 400 on, which tells an error. In a table of a version before the fourth it is that of
    /// all others.
    pub error_lifetime: Option<u32>,
    /// The most seconds that the lifetime which a response states counts for (RFC 9111, section 4.2.1).
    pub lifetime_most: Option<u32>,
    /// The stale-if-error of a response, in seconds, where neither the response nor the request has that directive (RFC
    /// 5861, section 4).
    pub stale_if_error: Option<u32>,
    /// The stale-while-revalidate of a response, in seconds, where it doesn't have that directive (RFC 5861, section
    /// 3).
    pub stale_while_revalidate: Option<u32>,
    /// A response with Set-Cookie is stored though it has no public (RFC 9111, section 7.3).
    pub stores_cookies: bool,
    /// A response is stored without its Set-Cookie lines, and none is sent out of the store: each stays with the one
    /// whom it was set for (RFC 9111, section 7.3).
    pub removes_set_cookie: bool,
    /// The lifetimes of the line are also given to a response with Set-Cookie. Else such a response that has neither a
    /// lifetime of its own nor public isn't stored where the line would give it one.
    pub gives_to_set_cookie: bool,
    /// The lifetimes of the line are also given to the response to a request with Cookie or Authorization. Else such a
    /// response that has neither a lifetime of its own nor public isn't stored where the line would give it one.
    pub gives_to_cookies: bool,
    /// A response of status 400 or above is stored though its status isn't heuristically cacheable.
    pub stores_errors: bool,
    /// A request's no-cache, max-age and min-fresh count (RFC 9111, section 5.2.1, calls them advisory).
    pub heeds_requests: bool,
    /// A GET that goes forward since what is held is stale waits for another that did, as one for
    /// which nothing is held does; and a request whose own answer may not be stored leads nobody
    /// (RFC 9111, section 4).
    pub waits_for_stale: bool,
    /// While a GET is at the origin for a stale response, others that would wait for it are sent that response, for as
    /// long as it or the line says (RFC 5861, section 3).
    pub sends_while_revalidating: bool,
    /// An answer that is passed on, isn't stored and tells no other detail tells the first storing
    /// rule against it (RFC 9211, section 2.8).
    pub explains_storing: bool,
    /// The If-None-Match and If-Modified-Since of a GET that a stored response could answer go to the origin, which
    /// judges them. Else they stay with the proxy, which judges them on what it sends (RFC 9111, section 4.3.2).
    pub forwards_conditions: bool,
    /// A request with Range or If-Range goes to the origin. Else a stored response may answer it, from which one range
    /// is cut (RFC 9110, section 14.2).
    pub forwards_ranges: bool,
    /// A GET with Range that a stored response could answer, and for which nothing may be sent, goes to the origin
    /// without Range and If-Range. What comes is stored where it may be, and the range is cut from it for this client
    /// (RFC 9110, section 14.2).
    pub fills_ranges: bool,
    /// No answer has a line of Cache-Tag, which stays between the origin and the store: by what it names the operator
    /// purges.
    pub hides_tags: bool,
}

impl Policy {
    /// The policy of a line that has no word, in a table of a version before the fourth.
    pub fn plain(caches: bool) -> Policy
        ensures { result ≡ plain caches }
    {
        Policy {
            caches,
            lifetime: None,
            error_lifetime: None,
            lifetime_most: None,
            stale_if_error: None,
            stale_while_revalidate: None,
            stores_cookies: true,
            removes_set_cookie: false,
            gives_to_set_cookie: true,
            gives_to_cookies: true,
            stores_errors: true,
            heeds_requests: true,
            waits_for_stale: false,
            sends_while_revalidating: false,
            explains_storing: false,
            forwards_conditions: true,
            forwards_ranges: true,
            fills_ranges: false,
            hides_tags: false,
        }
    }

    /// The lifetime that the operator gives a response of a status that states none, in seconds.
    pub fn lifetime_given_by_policy(self, status: u16) -> Option<u32>
        ensures { result ≡ lifetime_given_by_policy self status }
    {
        if !is_heuristic_status(status) {
            None
        } else if is_error(status) {
            self.error_lifetime
        } else {
            self.lifetime
        }
    }
}
