//! What is sent in place of an answer that failed (RFC 5861, section 4).
ghost use Rattle.std.specs.Prelude.{◌≡◌, ◌<◌, Some, None, IfOk};
ghost use Rattle.hx_directives.specs.Occurrences.{occurrences_of};
ghost use Rattle.hx_allow.specs.Matching.{policy_of};
ghost use Rattle.hx_reuse.specs.Rules.{decision_of};
ghost use Rattle.proxy_core.specs.Outcomes.{error_rule_against_serial, fallback_by_error_rule};
ghost use Rattle.proxy_core.specs.Outcomes.{fallback_for_failed_answer};
ghost use Rattle.proxy_core.specs.Outcomes.{outcome_of_failure};
ghost use Rattle.proxy_core.specs.Outcomes.{serials_invalidated_by_status, reply_after_origin_was_asked};
ghost use Rattle.proxy_core.specs.Outcomes.{outcome_of_refusal};
ghost use Rattle.proxy_core.specs.Pending.{outcome_of_pending_reply, ChangeOnlyKeepsOrUses};

use crate::core_state::Core;
use crate::open::exchange::Exchange;
use crate::replies::origin_answer::status_invalidates;
use crate::replies::pending::{Change, PendingReply};
use crate::replies::stored_reply::StoredCacheStatusInfo;
use crate::steps::sending::refuse;
use hx_directives::Directives;
use hx_hop::Asked;
use hx_policy::Policy;
use hx_reuse::{Decision, ErrorRule, ReuseRule, decide, may_serve_on_error};
use hx_status::{Cause, Detail, FailKind, StatusAndReason};
use hx_store::{Serials, Shelf};
use std::alloc::{AllocError, Global};

/// What a failure comes to.
#[derive(Clone, Copy, Debug, PartialEq, Eq)]
pub enum FallbackDecision {
    /// The held response of this serial is sent, and this word tells why.
    Sends(u64, Detail),
    /// The reuse rule that stands now, and with one on the chosen response the error rule.
    Refuses(ReuseRule, Option<ErrorRule>),
}

/// The error rule against the held response of a serial.
fn error_rule_against_serial<S: Shelf>(
    shelf: &S,
    serial: u64,
    asked: &Asked,
    asked_directives: &Directives,
    now: u64,
    policy: Policy,
) -> Option<ErrorRule>
    requires { asked_directives.now ≡ occurrences_of asked.now.fields }
    ensures { result ≡ error_rule_against_serial policy (S.entries shelf.now) serial asked.now now }
{
    match shelf.peek(serial) {
        Some(entry) => may_serve_on_error(asked_directives, entry, now, policy).err(),
        None => None,
    }
}

fn fallback_by_error_rule(
    rule: ReuseRule,
    serial: u64,
    error: Option<ErrorRule>,
) -> FallbackDecision
    ensures { result ≡ fallback_by_error_rule rule serial error }
{
    match error {
        Some(error) => FallbackDecision::Refuses(rule, Some(error)),
        None => FallbackDecision::Sends(serial, Detail::StaleIfError),
    }
}

/// What is held instead of an answer that failed.
pub(crate) fn fallback_for_failed_answer<S: Shelf>(
    alloc: Global,
    shelf: &S,
    asked: &Asked,
    now: u64,
    policy: Policy,
) -> Result<FallbackDecision, AllocError>
    ensures { IfOk result (λ fallback. fallback ≡ fallback_for_failed_answer policy (S.entries shelf.now) asked.now now
        (decision_of policy (S.entries shelf.now) asked.now now)) }
{
    let directives = Directives::of(alloc, &asked.fields)?;
    match decide(alloc, asked, &directives, shelf, now, policy)? {
        Decision::Hit(serial) => Ok(FallbackDecision::Sends(serial, Detail::ReuseAfterError)),
        Decision::Forward(rule, None) => Ok(FallbackDecision::Refuses(rule, None)),
        Decision::Forward(rule, Some(serial)) => {
            let error = error_rule_against_serial(shelf, serial, asked, &directives, now, policy);
            Ok(fallback_by_error_rule(rule, serial, error))
        }
    }
}

/// What goes for the status of an answer that is a failure, if one came.
fn removed_by_status<S: Shelf>(
    alloc: Global,
    shelf: &S,
    asked: &Asked,
    came: Option<u16>,
) -> Result<Serials, AllocError>
    ensures { IfOk result (λ removed. removed ≡ serials_invalidated_by_status (S.entries shelf.now) asked.now came) }
{
    if let Some(status) = came {
        if status_invalidates(asked, status) {
            return shelf.find(alloc, &asked.target.key);
        }
    }
    Ok(Serials::new(alloc))
}

/// The proxy's own reply after the origin of a line was asked, by which these are held no longer.
fn refuse_after_origin(
    alloc: Global,
    now: u64,
    cause: Cause,
    exchange: &Exchange,
    removed: Serials,
) -> Result<PendingReply, AllocError>
    requires { now < 253_402_300_800 }
    ensures outcome { IfOk result (λ pending. outcome_of_pending_reply pending
        ≡ reply_after_origin_was_asked exchange.now.line removed (outcome_of_refusal now cause exchange.now.asked)) }
    ensures change { IfOk result (λ pending. pending.change ≡ Change.Keep) }
{
    let PendingReply {
        bytes,
        close,
        about,
        change,
        removed: _,
    } = refuse(alloc, now, cause, &exchange.asked)?;
    let about = StatusAndReason {
        origin_line: Some(exchange.line.number),
        ..about
    };
    Ok(PendingReply {
        bytes,
        close,
        about,
        change,
        removed,
    })
}

impl<S: Shelf> Core<S> {
    /// What a failure leads to, where an answer of some status came or none.
    pub(crate) fn reply_to_failure(
        &self,
        alloc: Global,
        exchange: &Exchange,
        kind: FailKind,
        came: Option<u16>,
        now: u64,
    ) -> Result<PendingReply, AllocError>
        requires { now < 253_402_300_800 }
        ensures outcome { IfOk result (λ pending. outcome_of_pending_reply pending
            ≡ outcome_of_failure self.now.table self.now.entries now exchange.now kind came
            (fallback_for_failed_answer
            (policy_of self.now.table.lines exchange.now.line) self.now.entries exchange.now.asked now
            (decision_of (policy_of self.now.table.lines exchange.now.line) self.now.entries exchange.now.asked now))) }
        ensures plain { IfOk result (λ pending. ChangeOnlyKeepsOrUses pending.change) }
    {
        let asked = &exchange.asked;
        let policy = self.config.policy(exchange.line);
        match fallback_for_failed_answer(alloc, &self.shelf, asked, now, policy)? {
            FallbackDecision::Sends(serial, detail) => {
                let info = StoredCacheStatusInfo::forwarded(policy, exchange, came, Some(detail));
                self.send(alloc, serial, now, info, asked)
            }
            FallbackDecision::Refuses(rule, error) => {
                let removed = removed_by_status(alloc, &self.shelf, asked, came)?;
                let cause = Cause::Origin(kind, rule, error);
                refuse_after_origin(alloc, now, cause, exchange, removed)
            }
        }
    }
}
