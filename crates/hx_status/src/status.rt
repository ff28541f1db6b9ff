//! What Cache-Status says of an answer.

use hx_reuse::ReuseRule;
use hx_storable::StoreRule;

/// Whether the answer is a stored response that no rule forbade, or the rule that sent the request forward
/// (RFC 9211, sections 2.1 and 2.2).
#[derive(Clone, Copy, Debug, PartialEq, Eq)]
pub enum How {
    Hit,
    Fwd(ReuseRule),
}

/// What is told in place of the rule's detail: why a stored response was sent though the request had gone forward, or
/// though it was stale; or why the operator keeps the request from the store.
#[derive(Clone, Copy, Debug, PartialEq, Eq)]
pub enum Detail {
    /// The origin failed, and stale-if-error allows it (RFC 5861, section 4).
    StaleIfError,
    /// The origin failed, and no reuse rule stands any more.
    ReuseAfterError,
    /// A 304 validated nothing that is held, and no reuse rule stands any more.
    ReuseAfter304,
    /// A GET is at the origin for it, and stale-while-revalidate allows it (RFC 5861, section 3).
    StaleWhileRevalidate,
    /// The request has a cookie with which its line lets it go past the store.
    SessionCookie,
}

/// How a request was handled (RFC 9211, section 2).
#[derive(Clone, Copy, Debug, PartialEq, Eq)]
pub struct Status {
    pub how: How,
    /// The status of the origin's answer in this step, where it isn't the one sent. A hit has none:
    /// it would be told all the same.
    pub fwd_status: Option<u16>,
    /// Seconds of freshness left, below 0 where it is stale.
    pub ttl: Option<i64>,
    pub stored: bool,
    pub collapsed: bool,
    /// Named in place of the detail of the rule. A hit has none but `StaleWhileRevalidate`.
    pub detail: Option<Detail>,
    /// The first storing rule against an answer that is passed on and isn't stored, where it is to
    /// be told. It is named where no other detail is.
    pub not_stored: Option<StoreRule>,
}
