//! The proxy's own answers.
ghost use Rattle.std.specs.Prelude.{◌≡◌, ◌+◌, ◌<◌, ◌≤◌, ◌++◌, IfOk, OnErr, OnOk, codes, length, take, vec_capacity};
ghost use Rattle.std.specs.Fmt.{decimal};
ghost use Rattle.hx_status.specs.Refusals.{refusal_status, refusal_text, fwd_parameters_of_rule, error_rule_text};
ghost use Rattle.hx_status.specs.Refusals.{fail_kind_word, origin_failure_text};
ghost use Rattle.hx_status.specs.Refusals.{status_of_origin_failure, frame_fault_word, frame_fault_status};
ghost use Rattle.hx_status.specs.Refusals.{target_fault_word, target_fault_status};

use crate::cache_status::push_detail;
use crate::cause::{Cause, FailKind};
use hx_fields::Bytes;
use hx_framing::FrameFault;
use hx_reuse::{ErrorRule, ReuseRule};
use hx_target::TargetFault;
use itoa::Buffer;
use std::alloc::{AllocError, Global};

fn fail_kind_word(kind: FailKind) -> &'static str
    ensures { result.now ≡ fail_kind_word kind }
{
    match kind {
        FailKind::Refused => "refused",
        FailKind::TimedOut => "timed-out",
        FailKind::Closed => "closed",
        FailKind::BadAnswer => "bad-answer",
        FailKind::TooLarge => "too-large",
    }
}

fn frame_fault_word(fault: FrameFault) -> &'static str
    ensures { result.now ≡ frame_fault_word fault }
{
    match fault {
        FrameFault::Head => "head",
        FrameFault::Version => "version",
        FrameFault::BothLengths => "both-lengths",
        FrameFault::Length => "length",
        FrameFault::Coding => "coding",
        FrameFault::Chunk => "chunk",
        FrameFault::TooLarge => "too-large",
        FrameFault::Expect => "expect",
        FrameFault::Truncated => "truncated",
        FrameFault::Status => "status",
    }
}

fn target_fault_word(fault: TargetFault) -> &'static str
    ensures { result.now ≡ target_fault_word fault }
{
    match fault {
        TargetFault::Form => "form",
        TargetFault::Scheme => "scheme",
        TargetFault::Host => "host",
        TargetFault::Port => "port",
        TargetFault::Userinfo => "userinfo",
        TargetFault::Escape => "escape",
        TargetFault::DotSegment => "dot-segment",
        TargetFault::TooLong => "too-long",
        TargetFault::OutOfMemory => "out-of-memory",
    }
}

fn frame_fault_status(fault: FrameFault) -> u16
    ensures { result ≡ frame_fault_status fault }
{
    match fault {
        FrameFault::Version => 505,
        FrameFault::Coding => 501,
        FrameFault::TooLarge => 413,
        FrameFault::Expect => 417,
        FrameFault::Head
        | FrameFault::BothLengths
        | FrameFault::Length
        | FrameFault::Chunk
        | FrameFault::Truncated
        | FrameFault::Status => 400,
    }
}

pub(crate) fn refusal_status(cause: Cause) -> u16
    ensures { result ≡ refusal_status cause }
{
    match cause {
        Cause::Denied(_) | Cause::NoLine => 403,
        Cause::Looped(_) => 508,
        Cause::OnlyIfCached(_) => 504,
        Cause::Origin(FailKind::TimedOut, _, _) => 504,
        Cause::Origin(FailKind::Refused, _, _) => 502,
        Cause::Origin(FailKind::Closed, _, _) => 502,
        Cause::Origin(FailKind::BadAnswer, _, _) => 502,
        Cause::Origin(FailKind::TooLarge, _, _) => 502,
        Cause::Frame(fault) => frame_fault_status(fault),
        Cause::Target(TargetFault::TooLong) => 414,
        Cause::Target(_) => 400,
    }
}

fn push_rule(out: &mut Vec<u8>, rule: ReuseRule) -> Result<(), AllocError>
    ensures ok { OnOk result (out.new.items ≡ out.old.items ++ fwd_parameters_of_rule rule) }
    ensures full { OnErr result (vec_capacity out.old < length out.old.items + length (fwd_parameters_of_rule rule)) }
    ensures capacity { vec_capacity out.old ≤ vec_capacity out.new }
    ensures front { take (length out.old.items) out.new.items ≡ out.old.items }
{
    out.extend_from_slice(b";fwd=")?;
    out.extend_from_slice(rule.reason().as_bytes())?;
    push_detail(out, rule.detail())
}

fn push_error(out: &mut Vec<u8>, rule: Option<ErrorRule>) -> Result<(), AllocError>
    ensures ok { OnOk result (out.new.items ≡ out.old.items ++ error_rule_text rule) }
    ensures full { OnErr result (vec_capacity out.old < length out.old.items + length (error_rule_text rule)) }
    ensures capacity { vec_capacity out.old ≤ vec_capacity out.new }
    ensures front { take (length out.old.items) out.new.items ≡ out.old.items }
{
    match rule {
        None => Ok(()),
        Some(rule) => {
            out.extend_from_slice(b";stale-if-error=")?;
            out.extend_from_slice(rule.word().as_bytes())
        }
    }
}

/// Adds the number of a line of the table.
fn push_line_number(out: &mut Vec<u8>, line: u16) -> Result<(), AllocError>
    ensures ok { OnOk result (out.new.items ≡ out.old.items ++ decimal line) }
    ensures full { OnErr result (vec_capacity out.old < length out.old.items + length (decimal line)) }
    ensures capacity { vec_capacity out.old ≤ vec_capacity out.new }
    ensures front { take (length out.old.items) out.new.items ≡ out.old.items }
{
    let mut digits = Buffer::new();
    out.extend_from_slice(digits.format(line).as_bytes())
}

/// Adds how an origin failed.
fn push_kind(out: &mut Vec<u8>, kind: FailKind) -> Result<(), AllocError>
    ensures ok { OnOk result (out.new.items ≡ out.old.items ++ (codes "origin " ++ fail_kind_word kind)) }
    ensures full { OnErr result (vec_capacity out.old < length out.old.items
        + length (codes "origin " ++ fail_kind_word kind)) }
    ensures capacity { vec_capacity out.old ≤ vec_capacity out.new }
    ensures front { take (length out.old.items) out.new.items ≡ out.old.items }
{
    out.extend_from_slice(b"origin ")?;
    out.extend_from_slice(fail_kind_word(kind).as_bytes())
}

/// Adds that an origin failed, the rule by which its request went forward, and why nothing stale is sent.
fn push_origin_failure(
    out: &mut Vec<u8>,
    kind: FailKind,
    rule: ReuseRule,
    error: Option<ErrorRule>,
) -> Result<(), AllocError>
    ensures ok { OnOk result (out.new.items ≡ out.old.items ++ origin_failure_text kind rule error) }
    ensures full { OnErr result (vec_capacity out.old < length out.old.items
        + length (origin_failure_text kind rule error)) }
    ensures capacity { vec_capacity out.old ≤ vec_capacity out.new }
    ensures front { take (length out.old.items) out.new.items ≡ out.old.items }
{
    push_kind(out, kind)?;
    push_rule(out, rule)?;
    push_error(out, error)
}

/// Adds the text of Refusal.
pub(crate) fn push_refusal_text(out: &mut Vec<u8>, cause: Cause) -> Result<(), AllocError>
    ensures ok { OnOk result (out.new.items ≡ out.old.items ++ refusal_text cause) }
    ensures full { OnErr result (vec_capacity out.old < length out.old.items + length (refusal_text cause)) }
    ensures capacity { vec_capacity out.old ≤ vec_capacity out.new }
    ensures front { take (length out.old.items) out.new.items ≡ out.old.items }
{
    match cause {
        Cause::Denied(line) => {
            out.extend_from_slice(b"denied by line ")?;
            push_line_number(out, line)?;
        }
        Cause::NoLine => out.extend_from_slice(b"no line allows it")?,
        Cause::Looped(line) => {
            out.extend_from_slice(b"loop refused by line ")?;
            push_line_number(out, line)?;
        }
        Cause::OnlyIfCached(rule) => {
            out.extend_from_slice(b"only-if-cached")?;
            push_rule(out, rule)?;
        }
        Cause::Origin(kind, rule, error) => push_origin_failure(out, kind, rule, error)?,
        Cause::Frame(fault) => {
            out.extend_from_slice(b"refused: ")?;
            out.extend_from_slice(frame_fault_word(fault).as_bytes())?;
        }
        Cause::Target(fault) => {
            out.extend_from_slice(b"refused: ")?;
            out.extend_from_slice(target_fault_word(fault).as_bytes())?;
        }
    }
    Ok(())
}

fn refusal_text(alloc: Global, cause: Cause) -> Result<Bytes, AllocError>
    ensures { IfOk result (λ text. text ≡ refusal_text cause) }
{
    let mut out = Vec::new(alloc);
    push_refusal_text(&mut out, cause)?;
    Ok(Bytes::from_vec(out))
}

/// The status and the text of the proxy's own answer.
pub fn refusal(alloc: Global, cause: Cause) -> Result<(u16, Bytes), AllocError>
    ensures status { IfOk result (λ own. own.0 ≡ refusal_status cause) }
    ensures text { IfOk result (λ own. own.1 ≡ refusal_text cause) }
{
    Ok((refusal_status(cause), refusal_text(alloc, cause)?))
}
