//! A request that waited for the answer to another is judged anew.
ghost use Rattle.std.specs.Prelude.{◌≡◌, ◌<◌, map, IfOk, IfErr, OnErr};
ghost use Rattle.hx_allow.specs.Matching.{policy_of};
ghost use Rattle.hx_reuse.specs.Rules.{decision_of};
ghost use Rattle.hx_reuse.specs.declared.decision.Decision.TheVariants as decision;
ghost use Rattle.proxy_core.specs.AnsweredRequests.{request_answered};
ghost use Rattle.proxy_core.specs.Outcomes.{find_exchange, outcome_of_wake};
ghost use Rattle.proxy_core.specs.Pending.{ChangeOnlyKeepsOrUses};
ghost use Rattle.proxy_core.specs.Waking.{AfterWakeMatchesDecision};
ghost use Rattle.proxy_core.specs.declared.event.Event.TheVariants.{Wake};
ghost use Rattle.proxy_core.specs.State.{StepIsAccepted, StepIsRefusedWith, exchange_sent_forward_if_of_id};

use crate::core_fault::CoreFault;
use crate::core_state::Core;
use crate::moments::fault_if_moment_too_late;
use crate::open::exchange::Exchange;
use crate::outcome::{Outcome, Step};
use crate::replies::pending::PendingReply;
use crate::replies::stored_reply::StoredCacheStatusInfo;
use crate::steps::condition::{Condition, condition_to_revalidate_serial};
use crate::steps::judging::judge;
use crate::steps::sending::forward_text;
use hx_fields::Bytes;
use hx_reuse::{Decision, ReuseRule};
use hx_store::Shelf;
use std::alloc::{AllocError, Global};

/// What follows a wake.
#[derive(Drop)]
pub(crate) enum AfterWake {
    /// A stored response is sent.
    Ends(PendingReply),
    /// The request goes forward, with this rule, the held response that it names, and these conditions of the proxy.
    GoesOut(ReuseRule, Option<u64>, Option<Condition>, Bytes),
}

impl<S: Shelf> Core<S> {
    /// What a request that waited gets now.
    fn follow_wake(
        &self,
        alloc: Global,
        exchange: &Exchange,
        now: u64,
    ) -> Result<AfterWake, AllocError>
        ensures { IfOk result (λ after. AfterWakeMatchesDecision self.now.table self.now.entries now exchange.now
            (decision_of (policy_of self.now.table.lines exchange.now.line) self.now.entries exchange.now.asked now)
            after) }
    {
        let asked = &exchange.asked;
        let policy = self.config.policy(exchange.line);
        match judge(alloc, &self.shelf, asked, now, policy)? {
            Decision::Hit(serial) => {
                let info = StoredCacheStatusInfo::collapsed(policy, exchange);
                let pending = self.send(alloc, serial, now, info, asked)?;
                Ok(AfterWake::Ends(pending))
            }
            Decision::Forward(rule, named) => {
                let condition = condition_to_revalidate_serial(alloc, &self.shelf, named)?;
                let bytes = forward_text(
                    alloc,
                    &self.config,
                    exchange.line,
                    asked,
                    condition.as_ref(),
                )?;
                Ok(AfterWake::GoesOut(rule, named, condition, bytes))
            }
        }
    }

    /// The exchange that a request waited for has ended: a stored response is sent where no reuse
    /// rule stands now, else the request goes forward. `now` is in Unix seconds.
    pub fn wake(&mut self, alloc: Global, now: u64, id: u64) -> Result<Step, CoreFault>
        ensures ok { IfOk result (λ step. StepIsAccepted self.old (Wake now id) step.outcome self.new) }
        ensures asked { IfOk result (λ step. step.asked
            ≡ request_answered (find_exchange id self.old.exchanges) step.outcome) }
        ensures err { IfErr result (λ fault. StepIsRefusedWith self.old (Wake now id) fault) }
        ensures unchanged { OnErr result (self.new ≡ self.old) }
    {
        let x = self.exchange_to_wake(now, id)?;
        let line = x.line;
        match self.follow_wake(alloc, x, now)? {
            AfterWake::Ends(pending) => Ok(self.finish(id, pending, None)?),
            AfterWake::GoesOut(rule, named, condition, bytes) => {
                self.exchanges
                    .send_forward(id, now, rule, named, condition)?;
                Ok(Step {
                    outcome: Outcome::Forward(line, bytes),
                    asked: None,
                })
            }
        }
    }
}
