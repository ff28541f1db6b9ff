//! Why the proxy answers by itself.

use hx_framing::FrameFault;
use hx_reuse::{ErrorRule, ReuseRule};
use hx_target::TargetFault;

/// How an origin failed.
#[derive(Clone, Copy, Debug, PartialEq, Eq)]
pub enum FailKind {
    /// No connection could be made.
    Refused,
    /// No answer came in time.
    TimedOut,
    /// The connection ended before a whole answer.
    Closed,
    /// The answer isn't one of HTTP/1.1, or answers nothing that was asked.
    BadAnswer,
    /// The answer's content is longer than the operator allows.
    TooLarge,
}

/// Why a request is answered by the proxy itself.
#[derive(Clone, Copy, Debug, PartialEq, Eq)]
pub enum Cause {
    /// This line of the operator's table denies it; lines are numbered from 1.
    Denied(u16),
    /// No line of the table allows it.
    NoLine,
    /// This line of the table refuses loops, and the request was here twice already (RFC 9110, section 7.6.3).
    Looped(u16),
    /// It may not go forward, and this rule keeps it from being answered by a stored response (RFC
    /// 9111, section 5.2.1.7).
    OnlyIfCached(ReuseRule),
    /// The origin failed. Against a stored response stands the reuse rule, and with one on that
    /// response the error rule.
    Origin(FailKind, ReuseRule, Option<ErrorRule>),
    /// The client's bytes are no request (RFC 9112).
    Frame(FrameFault),
    /// The request names no resource (RFC 9112, section 3.2).
    Target(TargetFault),
}
