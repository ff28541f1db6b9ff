//! A request arrives.
ghost use Rattle.std.specs.Prelude.{◌≡◌, ◌<◌, ◌++◌, ◌∷◌, [], map, None, IfOk, IfErr, OnOk, OnErr};
ghost use Rattle.hx_directives.specs.Occurrences.{occurrences_of};
ghost use Rattle.hx_allow.specs.Matching.{policy_of};
ghost use Rattle.proxy_core.specs.Allowing.{verdict_of_asked, exchanges_to_wait_for};
ghost use Rattle.hx_allow.specs.declared.verdicts.Verdict.TheVariants.{Allowed};
ghost use Rattle.hx_store.specs.Shelf.{entries_with_promoted};
ghost use Rattle.hx_store.specs.Weights.{cut_to_bounds};
ghost use Rattle.hx_reuse.specs.Rules.{decision_of};
ghost use Rattle.hx_reuse.specs.declared.decision.Decision.TheVariants as decision;
ghost use Rattle.proxy_core.specs.Leading.{leader_id_if_awaited};
ghost use Rattle.proxy_core.specs.Awaiting.{response_awaited_by_request};
ghost use Rattle.proxy_core.specs.Revalidating.{stale_serial_may_be_sent, serial_sent_while_awaited};
ghost use Rattle.proxy_core.specs.Revalidating.{serial_sent_while_revalidating};
ghost use Rattle.proxy_core.specs.Outcomes.{hit_status_info, stale_while_revalidating_info, find_exchange};
ghost use Rattle.proxy_core.specs.Outcomes.{outcome_of_refusal, outcome_of_sending_stored};
ghost use Rattle.proxy_core.specs.Outcomes.{outcome_of_allowed_request, outcome_of_waiting_or_forwarding, forward_text};
ghost use Rattle.proxy_core.specs.Outcomes.{is_only_if_cached};
ghost use Rattle.proxy_core.specs.declared.event.Event.TheVariants.{Arrive};
ghost use Rattle.proxy_core.specs.declared.open.stage.Stage.TheVariants.{Forwarded};
ghost use Rattle.proxy_core.specs.State.{StepIsAccepted, StepIsRefusedWith, state_after_event};
ghost use Rattle.proxy_core.specs.State.{exchange_waiting_if_leader};
ghost use Rattle.proxy_core.specs.State.{bounds_of};

use crate::core_fault::CoreFault;
use crate::core_state::Core;
use crate::moments::fault_if_moment_too_late;
use crate::open::awaited::Awaited;
use crate::open::exchange::Exchange;
use crate::open::leading::{request_has_no_store, response_awaited_by_request};
use crate::open::stage::Stage;
use crate::outcome::{Outcome, Reply};
use crate::replies::stored_reply::StoredCacheStatusInfo;
use crate::steps::condition::condition_to_revalidate_serial;
use crate::steps::finishing::cut;
use crate::steps::sending::{forward_text, refuse};
use hx_allow::{RouteOverLine, Verdict};
use hx_directives::{Directive, Directives};
use hx_hop::Asked;
use hx_policy::Policy;
use hx_reuse::{Decision, ReuseRule, decide, may_serve_while_revalidating};
use hx_status::{Cause, Detail, How};
use hx_store::Shelf;
use hx_vary::FieldNames;
use std::alloc::{AllocError, Global};

/// Why a request isn't sent what is held: over a line of this policy this rule stands, which names that held response.
#[derive(Clone, Copy)]
struct Judged {
    policy: Policy,
    rule: ReuseRule,
    named: Option<u64>,
}

/// A stored response that no rule keeps back.
fn hit_status_info(policy: Policy) -> StoredCacheStatusInfo
    ensures { result ≡ hit_status_info policy }
{
    StoredCacheStatusInfo {
        policy,
        how: How::Hit,
        came: None,
        detail: None,
        collapsed: false,
        origin_line: None,
    }
}

/// A stale response that is sent while one asks the origin about it.
fn stale_while_revalidating_info(policy: Policy) -> StoredCacheStatusInfo
    ensures { result ≡ stale_while_revalidating_info policy }
{
    StoredCacheStatusInfo {
        policy,
        how: How::Hit,
        came: None,
        detail: Some(Detail::StaleWhileRevalidate),
        collapsed: false,
        origin_line: None,
    }
}

fn is_only_if_cached(asked_directives: &Directives, asked: &Asked) -> bool
    requires { asked_directives.now ≡ occurrences_of asked.now.fields }
    ensures { result ≡ is_only_if_cached asked.now }
{
    asked_directives.has(Directive::OnlyIfCached)
}

/// A request that the table doesn't allow.
fn deny_request(alloc: Global, now: u64, cause: Cause, asked: &Asked) -> Result<Outcome, CoreFault>
    requires { now < 253_402_300_800 }
    ensures outcome { IfOk result (λ outcome. outcome ≡ outcome_of_refusal now cause asked.now) }
    ensures fault { IfErr result (λ fault. fault ≡ CoreFault.OutOfMemory) }
{
    Ok(refuse(alloc, now, cause, asked)?.into_reply_outcome())
}

impl<S: Shelf> Core<S> {
    /// A request arrives: the operator's table is asked first, then the store. `now` is in Unix seconds; `id`
    /// names the exchange until its reply. The request is lent, so that a refusal loses nothing.
    pub fn arrive(
        &mut self,
        alloc: Global,
        now: u64,
        id: u64,
        asked: &Asked,
    ) -> Result<Outcome, CoreFault>
        ensures ok { IfOk result (λ outcome. StepIsAccepted self.old (Arrive now id asked.now) outcome self.new) }
        ensures err { IfErr result (λ fault. StepIsRefusedWith self.old (Arrive now id asked.now) fault) }
        ensures unchanged { OnErr result (self.new ≡ self.old) }
    {
        match self.exchanges.find(id) {
            Some(_) => return Err(CoreFault::IdTaken),
            None => {}
        }
        match fault_if_moment_too_late(now) {
            None => {}
            Some(fault) => return Err(fault),
        }
        let verdict = self
            .config
            .judge(&asked.method, &asked.target, &asked.fields);
        match verdict {
            Verdict::Allowed(line) => Ok(self.serve_allowed(alloc, now, id, asked, line)?),
            Verdict::DeniedBy(line) => deny_request(alloc, now, Cause::Denied(line), asked),
            Verdict::NoLine => deny_request(alloc, now, Cause::NoLine, asked),
            Verdict::Looped(line) => deny_request(alloc, now, Cause::Looped(line), asked),
            Verdict::Purged(_) => Ok(self.purge(alloc, now, asked)?),
        }
    }

    /// A request that the table allows.
    fn serve_allowed(
        &mut self,
        alloc: Global,
        now: u64,
        id: u64,
        asked: &Asked,
        line: RouteOverLine,
    ) -> Result<Outcome, AllocError>
        requires early { now < 253_402_300_800 }
        requires free { find_exchange id self.old.exchanges ≡ None }
        requires line { verdict_of_asked self.old.table asked.now ≡ Allowed line }
        ensures outcome { IfOk result
            (λ outcome. outcome ≡ outcome_of_allowed_request self.old.table self.old.entries self.old.exchanges
            line now asked.now (decision_of (policy_of self.old.table.lines line) self.old.entries asked.now now)) }
        ensures after { IfOk result (λ outcome. self.new
            ≡ state_after_event self.old (Arrive now id asked.now) outcome) }
        ensures unchanged { OnErr result (self.new ≡ self.old) }
    {
        let directives = Directives::of(alloc, &asked.fields)?;
        let policy = self.config.policy(line);
        match decide(alloc, asked, &directives, &self.shelf, now, policy)? {
            Decision::Hit(serial) => {
                self.serve_stored(alloc, now, serial, hit_status_info(policy), asked)
            }
            Decision::Forward(rule, named) => {
                if is_only_if_cached(&directives, asked) {
                    let pending = refuse(alloc, now, Cause::OnlyIfCached(rule), asked)?;
                    return Ok(pending.into_reply_outcome());
                }
                let judged = Judged {
                    policy,
                    rule,
                    named,
                };
                let awaited = self.awaited(alloc, now, asked, &directives, judged)?;
                let beside = self.serial_sent_while_revalidating(
                    now,
                    asked,
                    &directives,
                    policy,
                    awaited,
                    line,
                );
                if let Some(serial) = beside {
                    let info = stale_while_revalidating_info(policy);
                    return self.serve_stored(alloc, now, serial, info, asked);
                }
                let exchange = Exchange {
                    id,
                    asked: asked.copy(alloc)?,
                    line,
                    vary: FieldNames::copy_of(alloc, self.config.vary(line.number))?,
                    removes_set_cookie: policy.removes_set_cookie,
                    rule,
                    named,
                    request_time: now,
                    condition: condition_to_revalidate_serial(alloc, &self.shelf, named)?,
                    overtaken: false,
                    no_store: request_has_no_store(&directives, asked),
                    stage: Stage::Forwarded,
                };
                self.wait_or_forward(alloc, policy, awaited, exchange)
            }
        }
    }

    /// A stored response is sent to a request that arrives, and is the latest used.
    fn serve_stored(
        &mut self,
        alloc: Global,
        now: u64,
        serial: u64,
        info: StoredCacheStatusInfo,
        asked: &Asked,
    ) -> Result<Outcome, AllocError>
        ensures outcome { IfOk result (λ outcome. outcome
            ≡ outcome_of_sending_stored self.old.table self.old.entries serial now info asked.now) }
        ensures after { OnOk result (self.new ≡ record self.old {
          entries = cut_to_bounds (bounds_of self.old.table self.old.limit)
              (entries_with_promoted serial self.old.entries);
        }) }
        ensures unchanged { OnErr result (self.new ≡ self.old) }
    {
        let pending = self.send(alloc, serial, now, info, asked)?;
        self.shelf.promote(serial);
        cut(&mut self.shelf, self.config.max_store());
        Ok(pending.into_reply_outcome())
    }

    /// Whether the held response of a serial may be sent while one asks the origin about it.
    fn stale_serial_may_be_sent(
        &self,
        now: u64,
        asked: &Asked,
        directives: &Directives,
        policy: Policy,
        serial: u64,
    ) -> bool
        requires { directives.now ≡ occurrences_of asked.now.fields }
        ensures { result ≡ stale_serial_may_be_sent policy self.now.entries asked.now now serial }
    {
        match self.shelf.peek(serial) {
            Some(entry) => may_serve_while_revalidating(directives, entry, now, policy),
            None => false,
        }
    }

    /// What is awaited, where it may be sent while one asks the origin about it.
    fn serial_sent_while_awaited(
        &self,
        now: u64,
        asked: &Asked,
        directives: &Directives,
        policy: Policy,
        awaited: Option<Awaited>,
    ) -> Option<u64>
        requires { directives.now ≡ occurrences_of asked.now.fields }
        ensures { result ≡ serial_sent_while_awaited policy self.now.entries asked.now now awaited }
    {
        match awaited {
            Some(Awaited::Expired(serial)) => {
                if self.stale_serial_may_be_sent(now, asked, directives, policy, serial) {
                    Some(serial)
                } else {
                    None
                }
            }
            Some(Awaited::Missing) => None,
            None => None,
        }
    }

    /// The stale response that is sent in place of waiting for the exchange that leads over this line (RFC 5861,
    /// section 3).
    fn serial_sent_while_revalidating(
        &self,
        now: u64,
        asked: &Asked,
        directives: &Directives,
        policy: Policy,
        awaited: Option<Awaited>,
        line: RouteOverLine,
    ) -> Option<u64>
        requires { directives.now ≡ occurrences_of asked.now.fields }
        ensures { result ≡ serial_sent_while_revalidating policy self.now.entries asked.now now awaited
            (leader_id_if_awaited policy asked.now
            (exchanges_to_wait_for self.now.table line asked.now self.now.exchanges) awaited) }
    {
        match self.leader_for(policy, awaited, asked, line) {
            Some(_) => self.serial_sent_while_awaited(now, asked, directives, policy, awaited),
            None => None,
        }
    }

    /// What a request could be sent of the answer to another, which a rule keeps from the response that it names.
    fn awaited(
        &self,
        alloc: Global,
        now: u64,
        asked: &Asked,
        directives: &Directives,
        judged: Judged,
    ) -> Result<Option<Awaited>, AllocError>
        requires directives { directives.now ≡ occurrences_of asked.now.fields }
        requires decided { decision_of judged.policy self.now.entries asked.now now
            ≡ decision.Forward judged.rule judged.named }
        ensures { IfOk result (λ awaited. awaited
            ≡ response_awaited_by_request judged.policy self.now.entries asked.now judged.rule) }
    {
        let chosen = match judged.named {
            Some(serial) => self.shelf.peek(serial),
            None => None,
        };
        response_awaited_by_request(alloc, judged.policy, asked, directives, judged.rule, chosen)
    }

    /// The first of the open exchanges that has asked for what a request could be sent.
    fn leader_among(&self, policy: Policy, awaited: Option<Awaited>, asked: &Asked) -> Option<u64>
        ensures { result ≡ leader_id_if_awaited policy asked.now self.now.exchanges awaited }
    {
        self.exchanges.leader(policy, awaited?, asked)
    }

    /// The open exchange for whose answer a request waits over this line. One that came back waits for none.
    fn leader_for(
        &self,
        policy: Policy,
        awaited: Option<Awaited>,
        asked: &Asked,
        line: RouteOverLine,
    ) -> Option<u64>
        ensures { result ≡ leader_id_if_awaited policy asked.now
            (exchanges_to_wait_for self.now.table line asked.now self.now.exchanges) awaited }
    {
        if self.config.is_refused_as_loop(line, &asked.fields) {
            None
        } else {
            self.leader_among(policy, awaited, asked)
        }
    }

    /// The exchange of a request opens, which waits or goes forward.
    fn wait_or_forward(
        &mut self,
        alloc: Global,
        policy: Policy,
        awaited: Option<Awaited>,
        exchange: Exchange,
    ) -> Result<Outcome, AllocError>
        requires free { find_exchange exchange.id self.old.exchanges ≡ None }
        requires stage { exchange.stage ≡ Forwarded }
        ensures outcome { IfOk result
            (λ outcome. outcome ≡ outcome_of_waiting_or_forwarding self.old.table exchange.line exchange.asked
            exchange.condition (leader_id_if_awaited policy exchange.asked
            (exchanges_to_wait_for self.old.table exchange.line exchange.asked self.old.exchanges) awaited)) }
        ensures after { OnOk result (self.new ≡ record self.old {
          exchanges = self.old.exchanges
              ++ exchange_waiting_if_leader
              (leader_id_if_awaited policy exchange.asked
              (exchanges_to_wait_for self.old.table exchange.line exchange.asked self.old.exchanges) awaited)
              exchange ∷ [];
        }) }
        ensures unchanged { OnErr result (self.new ≡ self.old) }
    {
        match self.leader_for(policy, awaited, &exchange.asked, exchange.line) {
            Some(leader) => {
                let mut waiting = exchange;
                waiting.stage = Stage::Waiting(leader);
                self.exchanges.open(waiting)?;
                Ok(Outcome::Waits(leader))
            }
            None => self.forward(alloc, exchange),
        }
    }

    /// A request goes forward, and its exchange opens.
    fn forward(&mut self, alloc: Global, exchange: Exchange) -> Result<Outcome, AllocError>
        requires { find_exchange exchange.id self.old.exchanges ≡ None }
        ensures outcome { IfOk result (λ outcome. outcome
            ≡ Outcome.Forward exchange.line
            (forward_text self.old.table exchange.line exchange.asked exchange.condition)) }
        ensures after { OnOk result (self.new ≡ record self.old { exchanges = self.old.exchanges ++ exchange ∷ [] }) }
        ensures unchanged { OnErr result (self.new ≡ self.old) }
    {
        let line = exchange.line;
        let condition = exchange.condition.as_ref();
        let bytes = forward_text(alloc, &self.config, line, &exchange.asked, condition)?;
        self.exchanges.open(exchange)?;
        Ok(Outcome::Forward(line, bytes))
    }
}
