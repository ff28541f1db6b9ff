//! The member of Cache-Status that this proxy adds (RFC 9211).
ghost use Rattle.std.specs.Prelude.{◌≡◌, ◌+◌, ◌<◌, ◌≤◌, ◌++◌, IfOk, OnErr, OnOk, Bool, length, option_copied, take};
ghost use Rattle.std.specs.Prelude.{vec_capacity};
ghost use Rattle.std.specs.Fmt.{decimal, signed_decimal};
ghost use Rattle.hx_reuse.specs.RuleNames.{reuse_rule_reason, reuse_rule_detail};
ghost use Rattle.hx_status.specs.Member.{member_text, hit_or_forward_text, fwd_status_text, ttl_text, text_if_flag};
ghost use Rattle.hx_status.specs.Abouts.{cache_status_parameters_text, handling_text};
ghost use Rattle.hx_status.specs.Member.{parameter_of_detail_word};
ghost use Rattle.hx_status.specs.Member.{detail_of_step_or_rule, detail_of_status, detail_word, not_stored_word};

use crate::status::{Detail, How, Status};
use hx_fields::Bytes;
use hx_storable::StoreRule;
use itoa::Buffer;
use std::alloc::{AllocError, Global};

/// Room for what mostly stands behind the name, in bytes.
const MEMBER_ROOM: usize = 64;

fn push_how(out: &mut Vec<u8>, how: How) -> Result<(), AllocError>
    ensures { OnOk result (out.new.items ≡ out.old.items ++ hit_or_forward_text how) }
{
    match how {
        How::Hit => out.extend_from_slice(b";hit"),
        How::Fwd(rule) => {
            out.extend_from_slice(b";fwd=")?;
            out.extend_from_slice(rule.reason().as_bytes())
        }
    }
}

/// A hit, or the reason for going forward, with no semicolon in front.
fn push_handling(out: &mut Vec<u8>, how: How) -> Result<(), AllocError>
    ensures ok { OnOk result (out.new.items ≡ out.old.items ++ handling_text how) }
    ensures full { OnErr result (vec_capacity out.old < length out.old.items + length (handling_text how)) }
    ensures capacity { vec_capacity out.old ≤ vec_capacity out.new }
    ensures front { take (length out.old.items) out.new.items ≡ out.old.items }
{
    match how {
        How::Hit => out.extend_from_slice(b"hit"),
        How::Fwd(rule) => {
            out.extend_from_slice(b"fwd=")?;
            out.extend_from_slice(rule.reason().as_bytes())
        }
    }
}

fn push_fwd_status(out: &mut Vec<u8>, status: Option<u16>) -> Result<(), AllocError>
    ensures ok { OnOk result (out.new.items ≡ out.old.items ++ fwd_status_text status) }
    ensures full { OnErr result (vec_capacity out.old < length out.old.items + length (fwd_status_text status)) }
    ensures capacity { vec_capacity out.old ≤ vec_capacity out.new }
    ensures front { take (length out.old.items) out.new.items ≡ out.old.items }
{
    match status {
        None => Ok(()),
        Some(status) => {
            let mut digits = Buffer::new();
            out.extend_from_slice(b";fwd-status=")?;
            out.extend_from_slice(digits.format(status).as_bytes())
        }
    }
}

fn push_ttl(out: &mut Vec<u8>, ttl: Option<i64>) -> Result<(), AllocError>
    ensures ok { OnOk result (out.new.items ≡ out.old.items ++ ttl_text ttl) }
    ensures full { OnErr result (vec_capacity out.old < length out.old.items + length (ttl_text ttl)) }
    ensures capacity { vec_capacity out.old ≤ vec_capacity out.new }
    ensures front { take (length out.old.items) out.new.items ≡ out.old.items }
{
    match ttl {
        None => Ok(()),
        Some(seconds) => {
            let mut digits = Buffer::new();
            out.extend_from_slice(b";ttl=")?;
            out.extend_from_slice(digits.format(seconds).as_bytes())
        }
    }
}

fn push_flag(out: &mut Vec<u8>, is_set: bool, text: &str) -> Result<(), AllocError>
    ensures ok { OnOk result (out.new.items ≡ out.old.items ++ text_if_flag is_set text.now) }
    ensures full { OnErr result (vec_capacity out.old < length out.old.items + length (text_if_flag is_set text.now)) }
    ensures capacity { vec_capacity out.old ≤ vec_capacity out.new }
    ensures front { take (length out.old.items) out.new.items ≡ out.old.items }
{
    if is_set {
        out.extend_from_slice(text.as_bytes())
    } else {
        Ok(())
    }
}

fn word(detail: Detail) -> &'static str
    ensures { result.now ≡ detail_word detail }
{
    match detail {
        Detail::StaleIfError => "stale-if-error",
        Detail::ReuseAfterError => "reuse-after-error",
        Detail::ReuseAfter304 => "reuse-after-304",
        Detail::StaleWhileRevalidate => "stale-while-revalidate",
        Detail::SessionCookie => "cookie",
    }
}

/// The detail of a step in place of the rule's, else the rule's.
fn detail_of_rule(status: &Status) -> Option<&'static str>
    ensures { option_copied result ≡ detail_of_step_or_rule status.now.detail status.now.how }
{
    match status.detail {
        Some(detail) => Some(word(detail)),
        None => match status.how {
            How::Hit => None,
            How::Fwd(rule) => rule.detail(),
        },
    }
}

/// That detail, else why the answer isn't stored.
fn detail_of_status(status: &Status) -> Option<&'static str>
    ensures { option_copied result ≡ detail_of_status status.now }
{
    match detail_of_rule(status) {
        Some(word) => Some(word),
        None => status.not_stored.map(not_stored_word),
    }
}

/// Why an answer isn't stored.
fn not_stored_word(rule: StoreRule) -> &'static str
    ensures { result.now ≡ not_stored_word rule }
{
    match rule {
        StoreRule::Operator => "not-stored-operator",
        StoreRule::Method => "not-stored-method",
        StoreRule::Bypass => "not-stored-bypass",
        StoreRule::Status => "not-stored-status",
        StoreRule::MustUnderstand => "not-stored-must-understand",
        StoreRule::ResponseNoStore => "not-stored-no-store",
        StoreRule::RequestNoStore => "not-stored-request-no-store",
        StoreRule::Private => "not-stored-private",
        StoreRule::Authorization => "not-stored-authorization",
        StoreRule::NothingAllows => "not-stored-nothing-allows",
        StoreRule::VaryStar => "not-stored-vary-star",
        StoreRule::ConnectionField => "not-stored-connection-field",
        StoreRule::NothingToReuse => "not-stored-no-lifetime",
        StoreRule::TooLarge => "not-stored-too-large",
        StoreRule::Overtaken => "not-stored-overtaken",
        StoreRule::Serials => "not-stored-no-serial",
        StoreRule::SetCookie => "not-stored-set-cookie",
        StoreRule::ErrorStatus => "not-stored-error-status",
        StoreRule::RequestCookie => "not-stored-request-cookie",
    }
}

/// Adds `;detail=WORD` where there is one.
pub(crate) fn push_detail(out: &mut Vec<u8>, word: Option<&'static str>) -> Result<(), AllocError>
    ensures ok { OnOk result (out.new.items ≡ out.old.items ++ parameter_of_detail_word (option_copied word.entry)) }
    ensures full { OnErr result (vec_capacity out.old < length out.old.items
        + length (parameter_of_detail_word (option_copied word.entry))) }
    ensures capacity { vec_capacity out.old ≤ vec_capacity out.new }
    ensures front { take (length out.old.items) out.new.items ≡ out.old.items }
{
    match word {
        None => Ok(()),
        Some(word) => {
            out.extend_from_slice(b";detail=")?;
            out.extend_from_slice(word.as_bytes())
        }
    }
}

/// The member that the proxy of this name adds to Cache-Status.
pub fn member(alloc: Global, name: &str, status: &Status) -> Result<Bytes, AllocError>
    ensures { IfOk result (λ text. text ≡ member_text name.now status.now) }
{
    let mut out = Vec::with_capacity(alloc, name.len().saturating_add(MEMBER_ROOM))?;
    out.extend_from_slice(name.as_bytes())?;
    push_how(&mut out, status.how)?;
    push_fwd_status(&mut out, status.fwd_status)?;
    push_ttl(&mut out, status.ttl)?;
    push_flag(&mut out, status.stored, ";stored")?;
    push_flag(&mut out, status.collapsed, ";collapsed")?;
    push_detail(&mut out, detail_of_status(status))?;
    Ok(Bytes::from_vec(out))
}

/// Adds the parameters of a member, with no semicolon in front.
pub(crate) fn push_status_parameters(out: &mut Vec<u8>, status: &Status) -> Result<(), AllocError>
    ensures ok { OnOk result (out.new.items ≡ out.old.items ++ cache_status_parameters_text status.now) }
    ensures full { OnErr result (vec_capacity out.old < length out.old.items
        + length (cache_status_parameters_text status.now)) }
    ensures capacity { vec_capacity out.old ≤ vec_capacity out.new }
    ensures front { take (length out.old.items) out.new.items ≡ out.old.items }
{
    push_handling(out, status.how)?;
    push_fwd_status(out, status.fwd_status)?;
    push_ttl(out, status.ttl)?;
    push_flag(out, status.stored, ";stored")?;
    push_flag(out, status.collapsed, ";collapsed")?;
    push_detail(out, detail_of_status(status))
}
