//! The rules that keep a stored response from being sent, by their numbers, and the words that name them.
ghost use Rattle.std.specs.Prelude.{◌≡◌, option_copied};
ghost use Rattle.hx_reuse.specs.RuleNames.{reuse_rule_number, reuse_rule_reason, reuse_rule_detail, error_rule_number};
ghost use Rattle.hx_reuse.specs.RuleNames.{error_rule_word};

/// A rule against sending a stored response (RFC 9111, sections 4 and 5.2.1), in the order in which they are asked.
#[derive(Clone, Copy, Debug, PartialEq, Eq)]
pub enum ReuseRule {
    /// The operator keeps what the request asks for from the store.
    Operator = 0,
    /// The method is neither GET nor HEAD.
    Method,
    /// The request has content of at least one byte.
    Content,
    /// The request has Range or If-Range, and the operator's line has those answered by the origin.
    Range,
    /// The request has If-Match or If-Unmodified-Since.
    Precondition,
    /// Nothing is held for the request's key.
    UriMiss,
    /// No held response of the key was asked for with the same nominated values.
    VaryMiss,
    /// The response has no-cache.
    ResponseNoCache,
    /// The response is fresh, and the request has no-cache; this and the other rules on no-cache,
    /// max-age and min-fresh of a request stand only where the operator's line heeds them.
    RequestNoCache,
    /// The response is fresh, and its age is above the request's max-age.
    AboveMaxAge,
    /// The response is fresh for less than the request's min-fresh.
    BelowMinFresh,
    /// The response is stale, and has must-revalidate, proxy-revalidate or s-maxage.
    MustRevalidate,
    /// The response is stale, states no lifetime, and the operator gives it none.
    NoLifetime,
    /// The response is stale, and the request has no-cache.
    StaleNoCache,
    /// The response is stale, and the request has no max-stale.
    NoMaxStale,
    /// The response is staler than the request's max-stale.
    PastMaxStale,
    /// The response is stale, and its age is above the request's max-age.
    StaleMaxAge,
    /// The response is stale, and the request has min-fresh.
    StaleMinFresh,
}

impl ReuseRule {
    /// The number, from 0.
    pub fn number(self) -> u8
        ensures { result ≡ reuse_rule_number self }
    {
        self as u8
    }

    /// The reason that Cache-Status names (RFC 9211, section 2.2).
    pub fn reason(self) -> &'static str
        ensures { result.now ≡ reuse_rule_reason self }
    {
        match self {
            ReuseRule::Method => "method",
            ReuseRule::Operator | ReuseRule::Content | ReuseRule::Range | ReuseRule::Precondition =>
                "bypass",
            ReuseRule::UriMiss => "uri-miss",
            ReuseRule::VaryMiss => "vary-miss",
            ReuseRule::RequestNoCache | ReuseRule::AboveMaxAge | ReuseRule::BelowMinFresh => {
                "request"
            }
            ReuseRule::ResponseNoCache
            | ReuseRule::MustRevalidate
            | ReuseRule::NoLifetime
            | ReuseRule::StaleNoCache
            | ReuseRule::NoMaxStale
            | ReuseRule::PastMaxStale
            | ReuseRule::StaleMaxAge
            | ReuseRule::StaleMinFresh => "stale",
        }
    }

    /// The detail that tells it from the other rules of its reason (RFC 9211, section 2.8), if it needs one.
    pub fn detail(self) -> Option<&'static str>
        ensures { option_copied result ≡ reuse_rule_detail self }
    {
        match self {
            ReuseRule::Method | ReuseRule::UriMiss | ReuseRule::VaryMiss | ReuseRule::NoMaxStale =>
                { None }
            ReuseRule::Operator => Some("operator"),
            ReuseRule::Content => Some("content"),
            ReuseRule::Range => Some("range"),
            ReuseRule::Precondition => Some("precondition"),
            ReuseRule::ResponseNoCache => Some("response-no-cache"),
            ReuseRule::RequestNoCache | ReuseRule::StaleNoCache => Some("no-cache"),
            ReuseRule::AboveMaxAge | ReuseRule::StaleMaxAge => Some("max-age"),
            ReuseRule::BelowMinFresh | ReuseRule::StaleMinFresh => Some("min-fresh"),
            ReuseRule::MustRevalidate => Some("must-revalidate"),
            ReuseRule::NoLifetime => Some("no-lifetime"),
            ReuseRule::PastMaxStale => Some("max-stale"),
        }
    }
}

/// A rule against sending a stored response in place of an error (RFC 5861, section 4), in the
/// order in which they are asked.
#[derive(Clone, Copy, Debug, PartialEq, Eq)]
pub enum ErrorRule {
    /// The response has no-cache.
    NoCache = 1,
    /// The response has must-revalidate, proxy-revalidate or s-maxage.
    MustRevalidate,
    /// The response states no lifetime, and the operator gives it none.
    NoLifetime,
    /// The request has no-cache, and the operator's line heeds it.
    RequestNoCache,
    /// Neither has a valid stale-if-error, nor does the operator's line have one that counts.
    NoDirective,
    /// The response is staler than a valid stale-if-error allows, or the operator's where it counts.
    TooStale,
}

impl ErrorRule {
    /// The number, from 1.
    pub fn number(self) -> u8
        ensures { result ≡ error_rule_number self }
    {
        self as u8
    }

    /// The word that an answer names it by.
    pub fn word(self) -> &'static str
        ensures { result.now ≡ error_rule_word self }
    {
        match self {
            ErrorRule::NoCache => "no-cache",
            ErrorRule::MustRevalidate => "must-revalidate",
            ErrorRule::NoLifetime => "no-lifetime",
            ErrorRule::RequestNoCache => "request-no-cache",
            ErrorRule::NoDirective => "no-directive",
            ErrorRule::TooStale => "too-stale",
        }
    }
}
