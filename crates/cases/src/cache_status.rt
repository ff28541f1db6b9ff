//! What the proxy says of an answer: its member of Cache-Status, and its own answers.
//!
//! A case is its input: `hit; ttl 30`, `forward UriMiss; stored`, `origin: refused, NoMaxStale, TooStale`.

use crate::case_file::Case;
use crate::lines::{Fault, Line};
use crate::parts::only_line;
use crate::text::push_shown;
use crate::words::{fail_kind, frame_fault_word, named, target_fault_word};
use hx_framing::FrameFault;
use hx_reuse::{ErrorRule, ReuseRule};
use hx_status::{Cause, Detail, How, Status, member, refusal};
use hx_storable::StoreRule;
use hx_target::TargetFault;

static REUSE_RULES: [(&str, ReuseRule); 18] = [
    ("Operator", ReuseRule::Operator),
    ("Method", ReuseRule::Method),
    ("Content", ReuseRule::Content),
    ("Range", ReuseRule::Range),
    ("Precondition", ReuseRule::Precondition),
    ("UriMiss", ReuseRule::UriMiss),
    ("VaryMiss", ReuseRule::VaryMiss),
    ("ResponseNoCache", ReuseRule::ResponseNoCache),
    ("RequestNoCache", ReuseRule::RequestNoCache),
    ("AboveMaxAge", ReuseRule::AboveMaxAge),
    ("BelowMinFresh", ReuseRule::BelowMinFresh),
    ("MustRevalidate", ReuseRule::MustRevalidate),
    ("NoLifetime", ReuseRule::NoLifetime),
    ("StaleNoCache", ReuseRule::StaleNoCache),
    ("NoMaxStale", ReuseRule::NoMaxStale),
    ("PastMaxStale", ReuseRule::PastMaxStale),
    ("StaleMaxAge", ReuseRule::StaleMaxAge),
    ("StaleMinFresh", ReuseRule::StaleMinFresh),
];

static ERROR_RULES: [(&str, ErrorRule); 6] = [
    ("NoCache", ErrorRule::NoCache),
    ("MustRevalidate", ErrorRule::MustRevalidate),
    ("NoLifetime", ErrorRule::NoLifetime),
    ("RequestNoCache", ErrorRule::RequestNoCache),
    ("NoDirective", ErrorRule::NoDirective),
    ("TooStale", ErrorRule::TooStale),
];

static FRAME_FAULTS: [FrameFault; 8] = [
    FrameFault::Head,
    FrameFault::Version,
    FrameFault::BothLengths,
    FrameFault::Length,
    FrameFault::Coding,
    FrameFault::Chunk,
    FrameFault::TooLarge,
    FrameFault::Expect,
];

static TARGET_FAULTS: [TargetFault; 8] = [
    TargetFault::Form,
    TargetFault::Scheme,
    TargetFault::Host,
    TargetFault::Port,
    TargetFault::Userinfo,
    TargetFault::Escape,
    TargetFault::DotSegment,
    TargetFault::TooLong,
];

static STORING_RULES: [(&str, StoreRule); 19] = [
    ("Operator", StoreRule::Operator),
    ("Method", StoreRule::Method),
    ("Bypass", StoreRule::Bypass),
    ("Status", StoreRule::Status),
    ("MustUnderstand", StoreRule::MustUnderstand),
    ("ResponseNoStore", StoreRule::ResponseNoStore),
    ("RequestNoStore", StoreRule::RequestNoStore),
    ("Private", StoreRule::Private),
    ("Authorization", StoreRule::Authorization),
    ("NothingAllows", StoreRule::NothingAllows),
    ("VaryStar", StoreRule::VaryStar),
    ("ConnectionField", StoreRule::ConnectionField),
    ("NothingToReuse", StoreRule::NothingToReuse),
    ("TooLarge", StoreRule::TooLarge),
    ("Overtaken", StoreRule::Overtaken),
    ("Serials", StoreRule::Serials),
    ("SetCookie", StoreRule::SetCookie),
    ("ErrorStatus", StoreRule::ErrorStatus),
    ("RequestCookie", StoreRule::RequestCookie),
];

fn frame_fault(name: &str) -> Option<FrameFault> {
    for fault in &FRAME_FAULTS {
        if frame_fault_word(*fault) == name {
            return Some(*fault);
        }
    }
    None
}

fn target_fault(name: &str) -> Option<TargetFault> {
    for fault in &TARGET_FAULTS {
        if target_fault_word(*fault) == name {
            return Some(*fault);
        }
    }
    None
}

static DETAILS: [(&str, Detail); 5] = [
    ("StaleIfError", Detail::StaleIfError),
    ("ReuseAfterError", Detail::ReuseAfterError),
    ("ReuseAfter304", Detail::ReuseAfter304),
    ("StaleWhileRevalidate", Detail::StaleWhileRevalidate),
    ("SessionCookie", Detail::SessionCookie),
];

fn how_of(text: &str) -> Option<How> {
    match text.strip_prefix("forward ") {
        Some(rule) => Some(How::Fwd(named(&REUSE_RULES, rule)?)),
        None if text == "hit" => Some(How::Hit),
        None => None,
    }
}

/// A value with its word, or a word alone.
fn add_word(status: &mut Status, text: &str) -> Option<()> {
    match text.split_once(' ') {
        Some(("ttl", seconds)) => status.ttl = Some(seconds.parse::<i64>().ok()?),
        Some(("status", code)) => status.fwd_status = Some(code.parse::<u16>().ok()?),
        Some(("not-stored", rule)) => status.not_stored = Some(named(&STORING_RULES, rule)?),
        Some(_) => return None,
        None if text == "stored" => status.stored = true,
        None if text == "collapsed" => status.collapsed = true,
        None => status.detail = Some(named(&DETAILS, text)?),
    }
    Some(())
}

fn status_of(text: &str) -> Option<Status> {
    let mut words = text.split("; ");
    let mut status = Status {
        how: how_of(words.next()?)?,
        fwd_status: None,
        ttl: None,
        stored: false,
        collapsed: false,
        detail: None,
        not_stored: None,
    };
    for word in words {
        add_word(&mut status, word)?;
    }
    Some(status)
}

/// The member of Cache-Status for what is told of an answer.
pub fn members(text: &mut String, front: &[Line<'_>], case: &Case<'_>) -> Result<(), Fault> {
    let line = only_line(front, case)?;
    let Some(status) = status_of(line.text) else {
        return Err(line.fault("nothing that Cache-Status tells"));
    };
    let member = member(*text.allocator(), "edge", &status)?;
    Ok(push_shown(text, member.as_slice())?)
}

/// How an origin failed, the reuse rule, and the error rule if one follows.
fn origin_cause(text: &str) -> Option<Cause> {
    let (kind, rules) = text.split_once(", ")?;
    let (rule, error) = match rules.split_once(", ") {
        Some((rule, error)) => (rule, Some(named(&ERROR_RULES, error)?)),
        None => (rules, None),
    };
    let kind = fail_kind(kind)?;
    Some(Cause::Origin(kind, named(&REUSE_RULES, rule)?, error))
}

fn cause_of(text: &str) -> Option<Cause> {
    if text == "no line" {
        return Some(Cause::NoLine);
    }
    let (what, which) = text.split_once(": ")?;
    match what {
        "denied by line" => Some(Cause::Denied(which.parse::<u16>().ok()?)),
        "loop refused by line" => Some(Cause::Looped(which.parse::<u16>().ok()?)),
        "only-if-cached" => Some(Cause::OnlyIfCached(named(&REUSE_RULES, which)?)),
        "origin" => origin_cause(which),
        "stream" => Some(Cause::Frame(frame_fault(which)?)),
        "target" => Some(Cause::Target(target_fault(which)?)),
        _ => None,
    }
}

/// The status and the text of the proxy's own answer.
pub fn refusals(text: &mut String, front: &[Line<'_>], case: &Case<'_>) -> Result<(), Fault> {
    let line = only_line(front, case)?;
    let Some(cause) = cause_of(line.text) else {
        return Err(line.fault("no cause of an answer of the proxy's own"));
    };
    let (status, answer) = refusal(*text.allocator(), cause)?;
    write!(text, "{status} ")?;
    Ok(push_shown(text, answer.as_slice())?)
}
