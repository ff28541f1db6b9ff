//! The origin of an exchange answers.
ghost use Rattle.std.specs.Prelude.{◌≡◌, ◌<◌, Some, None, is_some, IfOk, IfErr, IfSome, OnErr};
ghost use Rattle.hx_directives.specs.Occurrences.{occurrences_of};
ghost use Rattle.hx_hop.specs.Answering.{answered_of};
ghost use Rattle.hx_allow.specs.Matching.{policy_of};
ghost use Rattle.hx_reuse.specs.Rules.{decision_of};
ghost use Rattle.hx_vary.specs.Vary.{nominated_values_with_further_names};
ghost use Rattle.proxy_core.specs.Abouts.{report_of_passed_answer};
ghost use Rattle.proxy_core.specs.Replies.{passed_answer_text};
ghost use Rattle.proxy_core.specs.Storing.{storing_rule_to_explain};
ghost use Rattle.proxy_core.specs.Outcomes.{is_stale_if_error_status, outcome_of_passing_on};
ghost use Rattle.proxy_core.specs.Outcomes.{outcome_of_passing_on_or_stale};
ghost use Rattle.proxy_core.specs.Outcomes.{fallback_for_failed_answer, outcome_of_answer};
ghost use Rattle.proxy_core.specs.AnsweredRequests.{request_answered};
ghost use Rattle.proxy_core.specs.Outcomes.{find_exchange, serial_of_stored_answer};
ghost use Rattle.proxy_core.specs.declared.event.Event.TheVariants.{Answer};
ghost use Rattle.proxy_core.specs.State.{StepIsAccepted, StepIsRefusedWith};
ghost use Rattle.proxy_core.specs.Pending.{outcome_of_pending_reply, StoresUnderNextSerial, ChangeIsMadeByAnswer};
ghost use Rattle.proxy_core.specs.State.{bounds_of};
ghost use Rattle.proxy_core.specs.Pending.{outcome_after_answer, HeldAfterAnswerIsThatOfStep, AnswerChangeIsApplicable};

use crate::core_fault::CoreFault;
use crate::core_state::Core;
use crate::moments::fault_if_moment_too_late;
use crate::outcome::Step;
use crate::replies::origin_answer::OriginAnswer;
use crate::replies::pending::{AfterAnswer, Change, PendingReply};
use crate::replies::reply_text::{PassedAnswerInfo, passed_answer_text, ttl_of_passed_answer};
use crate::replies::stored_reply::{ReplyTextAndAbout, StoredCacheStatusInfo};
use crate::steps::fallback::{FallbackDecision, fallback_for_failed_answer};
use crate::steps::storing::{
    NewEntry, StorageDecision, serials_removed_if_not_stored, serials_replaced_by_storing,
};
use hx_directives::Directives;
use hx_framing::Response;
use hx_hop::Answered;
use hx_status::FailKind;
use hx_storable::StoreRule;
use hx_store::Shelf;
use std::alloc::{AllocError, Global};

fn is_stale_if_error_status(status: u16) -> bool
    ensures { result ≡ is_stale_if_error_status status }
{
    status == 500 || status == 502 || status == 503 || status == 504
}

impl<S: Shelf> Core<S> {
    /// An answer that is passed on, and stored with these directives where there are any: its head is
    /// handed in as rules see it.
    fn passed_text(
        &self,
        alloc: Global,
        answer: &OriginAnswer<'_>,
        head: &Answered,
        rule: Option<StoreRule>,
        stored: Option<&Directives>,
    ) -> Result<ReplyTextAndAbout, AllocError>
        requires head { head.now ≡ answered_of answer.now.response.now answer.now.response_time }
        requires directives { IfSome stored (λ directives. directives.now ≡ occurrences_of head.now.fields) }
        ensures text { IfOk result (λ sent. sent.bytes ≡ passed_answer_text
            (policy_of self.now.table.lines answer.now.exchange.now.line)
            self.now.table.name answer.now.exchange.now answer.now.response.now answer.now.response_time
            (is_some stored.entry) rule) }
        ensures about { IfOk result (λ sent. sent.about ≡ report_of_passed_answer
            (policy_of self.now.table.lines answer.now.exchange.now.line)
            answer.now.exchange.now answer.now.response.now answer.now.response_time (is_some stored.entry) rule) }
    {
        let policy = self.config.policy(answer.exchange.line);
        let shown = PassedAnswerInfo {
            policy,
            stored: stored.is_some(),
            rule,
            ttl: ttl_of_passed_answer(answer, head, policy, stored),
        };
        passed_answer_text(alloc, self.config.name(), answer, head, shown)
    }

    /// Passes on an answer that isn't stored, and tells the rule against that.
    fn pass_on_unstored(
        &self,
        alloc: Global,
        answer: &OriginAnswer<'_>,
        head: &Answered,
        rule: Option<StoreRule>,
    ) -> Result<PendingReply, AllocError>
        requires { head.now ≡ answered_of answer.now.response.now answer.now.response_time }
        ensures outcome { IfOk result (λ pending. outcome_of_pending_reply pending
            ≡ outcome_of_passing_on self.now.table self.now.entries
            answer.now.response_time answer.now.exchange.now answer.now.response.now rule None) }
        ensures change { IfOk result (λ pending. pending.change ≡ Change.Keep) }
    {
        let sent = self.passed_text(alloc, answer, head, rule, None)?;
        Ok(PendingReply {
            bytes: sent.bytes,
            close: answer.exchange.asked.close,
            about: sent.about,
            change: Change::Keep,
            removed: serials_removed_if_not_stored(alloc, &self.shelf, answer)?,
        })
    }

    /// Passes on an answer, and stores it.
    fn pass_and_store(
        &self,
        alloc: Global,
        answer: &OriginAnswer<'_>,
        head: Answered,
        rule: Option<StoreRule>,
        new_entry: NewEntry,
    ) -> Result<PendingReply, AllocError>
        requires head { head ≡ answered_of answer.now.response.now answer.now.response_time }
        requires nominated { new_entry.nominated
            ≡ nominated_values_with_further_names answer.now.exchange.now.vary head.fields
            answer.now.exchange.now.asked.fields }
        requires directives { new_entry.directives ≡ occurrences_of head.fields }
        ensures outcome { IfOk result (λ pending. outcome_of_pending_reply pending
            ≡ outcome_of_passing_on self.now.table self.now.entries
            answer.now.response_time answer.now.exchange.now answer.now.response.now rule (Some new_entry.serial)) }
        ensures next { IfOk result (λ pending. StoresUnderNextSerial (Some new_entry.serial) pending.change) }
        ensures makes { IfOk result
            (λ pending. ChangeIsMadeByAnswer answer.now.exchange.now answer.now.response.now answer.now.response_time
            pending.change) }
    {
        let asked = &answer.exchange.asked;
        let sent = self.passed_text(alloc, answer, &head, rule, Some(&new_entry.directives))?;
        let removed = serials_replaced_by_storing(alloc, &self.shelf, asked)?;
        let entry = new_entry.into_entry(alloc, answer, head)?;
        Ok(PendingReply {
            bytes: sent.bytes,
            close: asked.close,
            about: sent.about,
            change: Change::Store(entry),
            removed,
        })
    }

    /// Passes on an answer, and stores it where it may be.
    fn pass_on(&self, alloc: Global, answer: &OriginAnswer<'_>) -> Result<PendingReply, AllocError>
        requires { answer.now.response_time < 253_402_300_800 }
        ensures outcome { IfOk result (λ pending. outcome_of_pending_reply pending
            ≡ outcome_of_passing_on self.now.table self.now.entries answer.now.response_time answer.now.exchange.now
            answer.now.response.now
            (storing_rule_to_explain self.now.table answer.now.exchange.now answer.now.response.now
            answer.now.response_time
            self.now.next)
            (serial_of_stored_answer self.now.table answer.now.exchange.now answer.now.response.now
            answer.now.response_time
            self.now.next)) }
        ensures next { IfOk result (λ pending. StoresUnderNextSerial self.now.next pending.change) }
        ensures makes { IfOk result
            (λ pending. ChangeIsMadeByAnswer answer.now.exchange.now answer.now.response.now answer.now.response_time
            pending.change) }
    {
        let head = answer.head(alloc)?;
        let StorageDecision { rule, new_entry } = self.decide_storage(alloc, answer, &head)?;
        match new_entry {
            None => self.pass_on_unstored(alloc, answer, &head, rule),
            Some(new_entry) => self.pass_and_store(alloc, answer, head, rule, new_entry),
        }
    }

    /// Passes on an answer, or sends a held response in place of an error where one may be.
    fn pass_on_or_send_stale(
        &self,
        alloc: Global,
        answer: &OriginAnswer<'_>,
    ) -> Result<PendingReply, AllocError>
        requires { answer.now.response_time < 253_402_300_800 }
        ensures outcome { IfOk result (λ pending. outcome_of_pending_reply pending
            ≡ outcome_of_passing_on_or_stale self.now.table self.now.entries answer.now.response_time
            answer.now.exchange.now
            answer.now.response.now self.now.next (is_stale_if_error_status answer.now.response.now.status)
            (fallback_for_failed_answer (policy_of self.now.table.lines answer.now.exchange.now.line) self.now.entries
            answer.now.exchange.now.asked answer.now.response_time (decision_of (policy_of self.now.table.lines
            answer.now.exchange.now.line) self.now.entries answer.now.exchange.now.asked answer.now.response_time))) }
        ensures next { IfOk result (λ pending. StoresUnderNextSerial self.now.next pending.change) }
        ensures makes { IfOk result
            (λ pending. ChangeIsMadeByAnswer answer.now.exchange.now answer.now.response.now answer.now.response_time
            pending.change) }
    {
        let status = answer.response.status;
        if !is_stale_if_error_status(status) {
            return self.pass_on(alloc, answer);
        }
        let exchange = answer.exchange;
        let asked = &exchange.asked;
        let now = answer.response_time;
        let policy = self.config.policy(exchange.line);
        match fallback_for_failed_answer(alloc, &self.shelf, asked, now, policy)? {
            FallbackDecision::Sends(serial, detail) => {
                let info = StoredCacheStatusInfo::forwarded(
                    policy,
                    exchange,
                    Some(status),
                    Some(detail),
                );
                self.send(alloc, serial, now, info, asked)
            }
            FallbackDecision::Refuses(_, _) => self.pass_on(alloc, answer),
        }
    }

    /// What follows an answer.
    fn follow_answer(
        &self,
        alloc: Global,
        answer: &OriginAnswer<'_>,
    ) -> Result<AfterAnswer, AllocError>
        requires { answer.now.response_time < 253_402_300_800 }
        ensures outcome { IfOk result (λ after. outcome_after_answer answer.now.exchange.now after
            ≡ outcome_of_answer self.now.table self.now.entries answer.now.response_time answer.now.exchange.now
            answer.now.response.now self.now.next (decision_of (policy_of self.now.table.lines
            answer.now.exchange.now.line) self.now.entries answer.now.exchange.now.asked answer.now.response_time)) }
        ensures leaves { IfOk result
            (λ after. HeldAfterAnswerIsThatOfStep (bounds_of self.now.table self.now.limit) self.now.entries
            answer.now.exchange.now
            (Answer answer.now.response_time answer.now.exchange.now.id answer.now.response.now) after) }
        ensures fits { IfOk result (λ after. AnswerChangeIsApplicable self.now.next self.now.entries after) }
    {
        if answer.is_304_to_own_conditions() {
            return self.decide_after_304(alloc, answer);
        }
        if answer.is_304_without_condition(self.config.policy(answer.exchange.line)) {
            let kind = FailKind::BadAnswer;
            let came = Some(answer.response.status);
            let exchange = answer.exchange;
            let now = answer.response_time;
            let pending = self.reply_to_failure(alloc, exchange, kind, came, now)?;
            return Ok(AfterAnswer::Ends(pending));
        }
        let pending = self.pass_on_or_send_stale(alloc, answer)?;
        Ok(AfterAnswer::Ends(pending))
    }

    /// The origin answered. A 304 to the proxy's conditions sends the response that it answers; where it answers
    /// none, a held one is sent or the client's own request goes forward once more. Any other 304 that nobody asked
    /// for is a failure. In place of 500, 502, 503 and 504 a held response is sent where one may be. Else the answer
    /// is passed on, and stored where no storing rule stands. `now` is in Unix seconds. The answer is lent, so that a
    /// refusal loses nothing.
    pub fn answer(
        &mut self,
        alloc: Global,
        now: u64,
        id: u64,
        response: &Response,
    ) -> Result<Step, CoreFault>
        ensures ok { IfOk result
            (λ step. StepIsAccepted self.old (Answer now id response.now) step.outcome self.new) }
        ensures asked { IfOk result (λ step. step.asked
            ≡ request_answered (find_exchange id self.old.exchanges) step.outcome) }
        ensures err { IfErr result (λ fault. StepIsRefusedWith self.old (Answer now id response.now) fault) }
        ensures unchanged { OnErr result (self.new ≡ self.old) }
    {
        let x = self.exchange_at_origin(now, id)?;
        let answer = OriginAnswer {
            exchange: x,
            response,
            response_time: now,
        };
        let invalidated = answer.key_invalidated(alloc)?;
        let line = x.line;
        match self.follow_answer(alloc, &answer)? {
            AfterAnswer::Ends(pending) => Ok(self.finish(id, pending, invalidated)?),
            AfterAnswer::GoesOn(bytes) => Ok(Step {
                outcome: self.go_on(id, now, line, bytes)?,
                asked: None,
            }),
        }
    }
}
