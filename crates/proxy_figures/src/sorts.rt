//! What a reply counts as, by what it tells of itself: none of its bytes is read.
//!
//! Each count has its place in a closed list: so nothing that a client or an origin sends makes a new one.
ghost use Rattle.std.specs.Prelude.{◌≡◌, ◌<◌};
ghost use Rattle.proxy_figures.specs.ReplyCounts.{reason_row, detail_column, cause_place};
ghost use Rattle.proxy_figures.specs.ReplySorts.{reason_of_rule, reason_of_handling, reason_of_refusal};
ghost use Rattle.proxy_figures.specs.ReplySorts.{detail_of_rule, detail_of_step, detail_of_handling};
ghost use Rattle.proxy_figures.specs.ReplySorts.{detail_told_by_status};
ghost use Rattle.proxy_figures.specs.ReplySorts.{cause_of_failure, cause_of_message, cause_of_target_fault};
ghost use Rattle.proxy_figures.specs.ReplySorts.{cause_of_refusal};
ghost use Rattle.proxy_figures.specs.ReplySorts.{reply_sort_without_detail, reply_sort_of_handled};
ghost use Rattle.proxy_figures.specs.ReplySorts.{reply_sort_of_refusal, reply_sort_of_told};
ghost use Rattle.proxy_figures.specs.Sorts.{reason_name, detail_name, cause_name, source_of_reply_sort};
ghost use Rattle.proxy_figures.specs.Sorts.{is_failure_covered_by_store};
ghost use Rattle.proxy_figures.specs.declared.sorts.TheConstants.{REASON_COUNT, DETAIL_COUNT, CAUSE_COUNT};

use hx_framing::FrameFault;
use hx_reuse::ReuseRule;
use hx_status::{Cause as Refusal, Detail as StepDetail, FailKind, How, Status, Told};
use hx_storable::StoreRule;
use hx_target::TargetFault;

/// Why a request was answered as it was.
#[derive(Clone, Copy, PartialEq, Eq)]
pub enum Reason {
    Hit,
    UriMiss,
    VaryMiss,
    Stale,
    Request,
    Method,
    Bypass,
    Denied,
    OnlyIfCached,
    OriginFailed,
    Refused,
    /// What was held for its target went, by the operator's word.
    Purged,
}

/// What a reason says besides.
#[derive(Clone, Copy, PartialEq, Eq)]
pub enum Detail {
    Nothing,
    Operator,
    Content,
    Range,
    Precondition,
    ResponseNoCache,
    MustRevalidate,
    NoLifetime,
    NoCache,
    MaxStale,
    MaxAge,
    MinFresh,
    StaleIfError,
    ReuseAfterError,
    ReuseAfter304,
    StaleWhileRevalidate,
    SessionCookie,
    /// A storing rule, which has a figure of its own.
    Other,
}

/// Why the proxy answered by itself.
#[derive(Clone, Copy, PartialEq, Eq)]
pub enum Cause {
    Denied,
    NoLine,
    Loop,
    OnlyIfCached,
    OriginRefused,
    OriginTimedOut,
    OriginClosed,
    OriginBadAnswer,
    OriginTooLarge,
    Head,
    Version,
    BothLengths,
    Length,
    Coding,
    Chunk,
    TooLarge,
    Expect,
    Form,
    Scheme,
    Host,
    Port,
    Userinfo,
    Escape,
    DotSegment,
    TooLong,
}

/// All of them, each at its place.
pub(crate) const ALL_REASONS: &[Reason] = &[
    Reason::Hit,
    Reason::UriMiss,
    Reason::VaryMiss,
    Reason::Stale,
    Reason::Request,
    Reason::Method,
    Reason::Bypass,
    Reason::Denied,
    Reason::OnlyIfCached,
    Reason::OriginFailed,
    Reason::Refused,
    Reason::Purged,
];

pub(crate) const ALL_DETAILS: &[Detail] = &[
    Detail::Nothing,
    Detail::Operator,
    Detail::Content,
    Detail::Range,
    Detail::Precondition,
    Detail::ResponseNoCache,
    Detail::MustRevalidate,
    Detail::NoLifetime,
    Detail::NoCache,
    Detail::MaxStale,
    Detail::MaxAge,
    Detail::MinFresh,
    Detail::StaleIfError,
    Detail::ReuseAfterError,
    Detail::ReuseAfter304,
    Detail::StaleWhileRevalidate,
    Detail::SessionCookie,
    Detail::Other,
];

pub(crate) const ALL_CAUSES: &[Cause] = &[
    Cause::Denied,
    Cause::NoLine,
    Cause::Loop,
    Cause::OnlyIfCached,
    Cause::OriginRefused,
    Cause::OriginTimedOut,
    Cause::OriginClosed,
    Cause::OriginBadAnswer,
    Cause::OriginTooLarge,
    Cause::Head,
    Cause::Version,
    Cause::BothLengths,
    Cause::Length,
    Cause::Coding,
    Cause::Chunk,
    Cause::TooLarge,
    Cause::Expect,
    Cause::Form,
    Cause::Scheme,
    Cause::Host,
    Cause::Port,
    Cause::Userinfo,
    Cause::Escape,
    Cause::DotSegment,
    Cause::TooLong,
];

/// How many there are of each.
pub(crate) const REASON_COUNT: usize = ALL_REASONS.len();

pub(crate) const DETAIL_COUNT: usize = ALL_DETAILS.len();

pub(crate) const CAUSE_COUNT: usize = ALL_CAUSES.len();

impl Reason {
    pub(crate) fn name(self) -> &'static str
        ensures { result.now ≡ reason_name self }
    {
        match self {
            Reason::Hit => "hit",
            Reason::UriMiss => "uri-miss",
            Reason::VaryMiss => "vary-miss",
            Reason::Stale => "stale",
            Reason::Request => "request",
            Reason::Method => "method",
            Reason::Bypass => "bypass",
            Reason::Denied => "denied",
            Reason::OnlyIfCached => "only-if-cached",
            Reason::OriginFailed => "origin-failed",
            Reason::Refused => "refused",
            Reason::Purged => "purged",
        }
    }

    /// Its row among the counts.
    pub(crate) fn row(self) -> usize
        ensures place { result ≡ reason_row self }
        ensures within { result < REASON_COUNT }
    {
        match self {
            Reason::Hit => 0,
            Reason::UriMiss => 1,
            Reason::VaryMiss => 2,
            Reason::Stale => 3,
            Reason::Request => 4,
            Reason::Method => 5,
            Reason::Bypass => 6,
            Reason::Denied => 7,
            Reason::OnlyIfCached => 8,
            Reason::OriginFailed => 9,
            Reason::Refused => 10,
            Reason::Purged => 11,
        }
    }

    /// Why a request went forward, by the rule that sent it.
    fn of_rule(rule: ReuseRule) -> Reason
        ensures { result ≡ reason_of_rule rule }
    {
        match rule {
            ReuseRule::Method => Reason::Method,
            ReuseRule::Operator | ReuseRule::Content | ReuseRule::Range | ReuseRule::Precondition =>
                Reason::Bypass,
            ReuseRule::UriMiss => Reason::UriMiss,
            ReuseRule::VaryMiss => Reason::VaryMiss,
            ReuseRule::RequestNoCache | ReuseRule::AboveMaxAge | ReuseRule::BelowMinFresh => {
                Reason::Request
            }
            ReuseRule::ResponseNoCache
            | ReuseRule::MustRevalidate
            | ReuseRule::NoLifetime
            | ReuseRule::StaleNoCache
            | ReuseRule::NoMaxStale
            | ReuseRule::PastMaxStale
            | ReuseRule::StaleMaxAge
            | ReuseRule::StaleMinFresh => Reason::Stale,
        }
    }

    /// Of an answer of an origin or of the store.
    fn of_handling(how: How) -> Reason
        ensures { result ≡ reason_of_handling how }
    {
        match how {
            How::Hit => Reason::Hit,
            How::Fwd(rule) => Reason::of_rule(rule),
        }
    }

    /// Of an answer of the proxy's own.
    fn of_refusal(cause: Refusal) -> Reason
        ensures { result ≡ reason_of_refusal cause }
    {
        match cause {
            Refusal::Denied(_) | Refusal::NoLine | Refusal::Looped(_) => Reason::Denied,
            Refusal::OnlyIfCached(_) => Reason::OnlyIfCached,
            Refusal::Origin(_, _, _) => Reason::OriginFailed,
            Refusal::Frame(_) | Refusal::Target(_) => Reason::Refused,
        }
    }
}

impl Detail {
    pub(crate) fn name(self) -> &'static str
        ensures { result.now ≡ detail_name self }
    {
        match self {
            Detail::Nothing => "",
            Detail::Operator => "operator",
            Detail::Content => "content",
            Detail::Range => "range",
            Detail::Precondition => "precondition",
            Detail::ResponseNoCache => "response-no-cache",
            Detail::MustRevalidate => "must-revalidate",
            Detail::NoLifetime => "no-lifetime",
            Detail::NoCache => "no-cache",
            Detail::MaxStale => "max-stale",
            Detail::MaxAge => "max-age",
            Detail::MinFresh => "min-fresh",
            Detail::StaleIfError => "stale-if-error",
            Detail::ReuseAfterError => "reuse-after-error",
            Detail::ReuseAfter304 => "reuse-after-304",
            Detail::StaleWhileRevalidate => "stale-while-revalidate",
            Detail::SessionCookie => "cookie",
            Detail::Other => "other",
        }
    }

    /// Its place in a row.
    pub(crate) fn column(self) -> usize
        ensures place { result ≡ detail_column self }
        ensures within { result < DETAIL_COUNT }
    {
        match self {
            Detail::Nothing => 0,
            Detail::Operator => 1,
            Detail::Content => 2,
            Detail::Range => 3,
            Detail::Precondition => 4,
            Detail::ResponseNoCache => 5,
            Detail::MustRevalidate => 6,
            Detail::NoLifetime => 7,
            Detail::NoCache => 8,
            Detail::MaxStale => 9,
            Detail::MaxAge => 10,
            Detail::MinFresh => 11,
            Detail::StaleIfError => 12,
            Detail::ReuseAfterError => 13,
            Detail::ReuseAfter304 => 14,
            Detail::StaleWhileRevalidate => 15,
            Detail::SessionCookie => 16,
            Detail::Other => 17,
        }
    }

    /// What tells a rule from others of its reason, if it needs that.
    fn of_rule(rule: ReuseRule) -> Option<Detail>
        ensures { result ≡ detail_of_rule rule }
    {
        match rule {
            ReuseRule::Method | ReuseRule::UriMiss | ReuseRule::VaryMiss | ReuseRule::NoMaxStale =>
                { None }
            ReuseRule::Operator => Some(Detail::Operator),
            ReuseRule::Content => Some(Detail::Content),
            ReuseRule::Range => Some(Detail::Range),
            ReuseRule::Precondition => Some(Detail::Precondition),
            ReuseRule::ResponseNoCache => Some(Detail::ResponseNoCache),
            ReuseRule::RequestNoCache | ReuseRule::StaleNoCache => Some(Detail::NoCache),
            ReuseRule::AboveMaxAge | ReuseRule::StaleMaxAge => Some(Detail::MaxAge),
            ReuseRule::BelowMinFresh | ReuseRule::StaleMinFresh => Some(Detail::MinFresh),
            ReuseRule::MustRevalidate => Some(Detail::MustRevalidate),
            ReuseRule::NoLifetime => Some(Detail::NoLifetime),
            ReuseRule::PastMaxStale => Some(Detail::MaxStale),
        }
    }

    /// Why a stored response was sent after all, or while it is validated, or that a cookie kept the request from the
    /// store.
    fn of_step(step: StepDetail) -> Detail
        ensures { result ≡ detail_of_step step }
    {
        match step {
            StepDetail::StaleIfError => Detail::StaleIfError,
            StepDetail::ReuseAfterError => Detail::ReuseAfterError,
            StepDetail::ReuseAfter304 => Detail::ReuseAfter304,
            StepDetail::StaleWhileRevalidate => Detail::StaleWhileRevalidate,
            StepDetail::SessionCookie => Detail::SessionCookie,
        }
    }

    /// The detail of a rule, if a rule sent the request forward.
    fn of_handling(how: How) -> Option<Detail>
        ensures { result ≡ detail_of_handling how }
    {
        match how {
            How::Hit => None,
            How::Fwd(rule) => Detail::of_rule(rule),
        }
    }

    /// What Cache-Status tells besides, but for a storing rule: that of a step stands in place of the rule's.
    fn told(status: &Status) -> Option<Detail>
        ensures { result ≡ detail_told_by_status status.now }
    {
        match status.detail {
            Some(step) => Some(Detail::of_step(step)),
            None => Detail::of_handling(status.how),
        }
    }
}

impl Cause {
    pub(crate) fn name(self) -> &'static str
        ensures { result.now ≡ cause_name self }
    {
        match self {
            Cause::Denied => "denied",
            Cause::NoLine => "no-line",
            Cause::Loop => "loop",
            Cause::OnlyIfCached => "only-if-cached",
            Cause::OriginRefused => "origin-refused",
            Cause::OriginTimedOut => "origin-timed-out",
            Cause::OriginClosed => "origin-closed",
            Cause::OriginBadAnswer => "origin-bad-answer",
            Cause::OriginTooLarge => "origin-too-large",
            Cause::Head => "head",
            Cause::Version => "version",
            Cause::BothLengths => "both-lengths",
            Cause::Length => "length",
            Cause::Coding => "coding",
            Cause::Chunk => "chunk",
            Cause::TooLarge => "too-large",
            Cause::Expect => "expect",
            Cause::Form => "form",
            Cause::Scheme => "scheme",
            Cause::Host => "host",
            Cause::Port => "port",
            Cause::Userinfo => "userinfo",
            Cause::Escape => "escape",
            Cause::DotSegment => "dot-segment",
            Cause::TooLong => "too-long",
        }
    }

    /// Its place among the counts.
    pub(crate) fn place(self) -> usize
        ensures place { result ≡ cause_place self }
        ensures within { result < CAUSE_COUNT }
    {
        match self {
            Cause::Denied => 0,
            Cause::NoLine => 1,
            Cause::Loop => 2,
            Cause::OnlyIfCached => 3,
            Cause::OriginRefused => 4,
            Cause::OriginTimedOut => 5,
            Cause::OriginClosed => 6,
            Cause::OriginBadAnswer => 7,
            Cause::OriginTooLarge => 8,
            Cause::Head => 9,
            Cause::Version => 10,
            Cause::BothLengths => 11,
            Cause::Length => 12,
            Cause::Coding => 13,
            Cause::Chunk => 14,
            Cause::TooLarge => 15,
            Cause::Expect => 16,
            Cause::Form => 17,
            Cause::Scheme => 18,
            Cause::Host => 19,
            Cause::Port => 20,
            Cause::Userinfo => 21,
            Cause::Escape => 22,
            Cause::DotSegment => 23,
            Cause::TooLong => 24,
        }
    }

    /// How an origin failed.
    fn of_failure(kind: FailKind) -> Cause
        ensures { result ≡ cause_of_failure kind }
    {
        match kind {
            FailKind::Refused => Cause::OriginRefused,
            FailKind::TimedOut => Cause::OriginTimedOut,
            FailKind::Closed => Cause::OriginClosed,
            FailKind::BadAnswer => Cause::OriginBadAnswer,
            FailKind::TooLarge => Cause::OriginTooLarge,
        }
    }

    /// What is wrong with a message. No request is answered for the others.
    fn of_message(fault: FrameFault) -> Option<Cause>
        ensures { result ≡ cause_of_message fault }
    {
        match fault {
            FrameFault::Head => Some(Cause::Head),
            FrameFault::Version => Some(Cause::Version),
            FrameFault::BothLengths => Some(Cause::BothLengths),
            FrameFault::Length => Some(Cause::Length),
            FrameFault::Coding => Some(Cause::Coding),
            FrameFault::Chunk => Some(Cause::Chunk),
            FrameFault::TooLarge => Some(Cause::TooLarge),
            FrameFault::Expect => Some(Cause::Expect),
            FrameFault::Truncated | FrameFault::Status => None,
        }
    }

    /// What is wrong with a target. No request is answered for want of memory.
    fn of_target(fault: TargetFault) -> Option<Cause>
        ensures { result ≡ cause_of_target_fault fault }
    {
        match fault {
            TargetFault::Form => Some(Cause::Form),
            TargetFault::Scheme => Some(Cause::Scheme),
            TargetFault::Host => Some(Cause::Host),
            TargetFault::Port => Some(Cause::Port),
            TargetFault::Userinfo => Some(Cause::Userinfo),
            TargetFault::Escape => Some(Cause::Escape),
            TargetFault::DotSegment => Some(Cause::DotSegment),
            TargetFault::TooLong => Some(Cause::TooLong),
            TargetFault::OutOfMemory => None,
        }
    }

    /// Why the proxy answered by itself.
    fn of_refusal(cause: Refusal) -> Option<Cause>
        ensures { result ≡ cause_of_refusal cause }
    {
        match cause {
            Refusal::Denied(_) => Some(Cause::Denied),
            Refusal::NoLine => Some(Cause::NoLine),
            Refusal::Looped(_) => Some(Cause::Loop),
            Refusal::OnlyIfCached(_) => Some(Cause::OnlyIfCached),
            Refusal::Origin(kind, _, _) => Some(Cause::of_failure(kind)),
            Refusal::Frame(fault) => Cause::of_message(fault),
            Refusal::Target(fault) => Cause::of_target(fault),
        }
    }
}

/// What a reply counts as.
#[derive(Clone, Copy, PartialEq, Eq)]
pub struct ReplySort {
    pub reason: Reason,
    pub detail: Detail,
    /// Why, where the proxy answered by itself.
    pub cause: Option<Cause>,
    /// The status of the origin's answer, where another was sent.
    pub fwd_status: Option<u16>,
    pub stored: bool,
    pub collapsed: bool,
    /// The storing rule that it names, where it wasn't stored.
    pub not_stored: Option<StoreRule>,
}

/// Who an answer comes from.
#[derive(Clone, Copy, PartialEq, Eq)]
pub enum Source {
    /// A stored response, for which no origin was asked.
    Store,
    /// An origin was asked.
    Origin,
    /// The proxy refused or denied the request, or purged by it.
    Proxy,
}

impl ReplySort {
    /// A reply for this reason, of which nothing else is said.
    fn plain(reason: Reason) -> ReplySort
        ensures { result ≡ reply_sort_without_detail reason }
    {
        ReplySort {
            reason,
            detail: Detail::Nothing,
            cause: None,
            fwd_status: None,
            stored: false,
            collapsed: false,
            not_stored: None,
        }
    }

    /// An answer of an origin or of the store. A storing rule is named where no other detail is.
    fn of_handled(status: &Status) -> ReplySort
        ensures { result ≡ reply_sort_of_handled status.now }
    {
        let (detail, not_stored) = match (Detail::told(status), status.not_stored) {
            (Some(detail), _) => (detail, None),
            (None, Some(rule)) => (Detail::Other, Some(rule)),
            (None, None) => (Detail::Nothing, None),
        };
        ReplySort {
            reason: Reason::of_handling(status.how),
            detail,
            cause: None,
            fwd_status: status.fwd_status,
            stored: status.stored,
            collapsed: status.collapsed,
            not_stored,
        }
    }

    /// An answer of the proxy's own.
    fn of_refusal(cause: Refusal) -> ReplySort
        ensures { result ≡ reply_sort_of_refusal cause }
    {
        let mut sort = ReplySort::plain(Reason::of_refusal(cause));
        sort.cause = Cause::of_refusal(cause);
        sort
    }

    pub fn source(&self) -> Source
        ensures { result ≡ source_of_reply_sort self.now }
    {
        match self.reason {
            Reason::Hit => Source::Store,
            Reason::Denied => Source::Proxy,
            Reason::OnlyIfCached => Source::Proxy,
            Reason::Refused => Source::Proxy,
            Reason::Purged => Source::Proxy,
            _ => if self.collapsed {
                Source::Store
            } else {
                Source::Origin
            },
        }
    }

    /// Whether a stored response was sent in place of a failure of the origin.
    pub fn is_failure_covered_by_store(&self) -> bool
        ensures { result ≡ is_failure_covered_by_store self.now }
    {
        let after_failure = match self.detail {
            Detail::StaleIfError => true,
            Detail::ReuseAfterError => true,
            _ => false,
        };
        after_failure && self.fwd_status.is_none()
    }
}

/// What a reply counts as, by what it tells of itself.
pub fn reply_sort_of(told: &Told) -> ReplySort
    ensures { result ≡ reply_sort_of_told told.now }
{
    match told {
        Told::Handled(status) => ReplySort::of_handled(status),
        Told::Refused(cause) => ReplySort::of_refusal(*cause),
        Told::Purged(_) => ReplySort::plain(Reason::Purged),
    }
}
