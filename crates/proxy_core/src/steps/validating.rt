//! What a 304 to the proxy's conditions does (RFC 9111, section 4.3).
ghost use Rattle.std.specs.Prelude.{◌≡◌, ◌<◌, ◌∷◌, [], None, IfOk, option_copied, cond};
ghost use Rattle.hx_hop.specs.Answering.{answered_of};
ghost use Rattle.hx_vary.specs.Vary.{vary_counts_as_star};
ghost use Rattle.hx_allow.specs.Matching.{policy_of};
ghost use Rattle.hx_reuse.specs.Rules.{decision_of};
ghost use Rattle.proxy_core.specs.declared.event.Event.TheVariants.{Answer};
ghost use Rattle.proxy_core.specs.Outcomes.{outcome_of_sending_freshened, outcome_of_304};
ghost use Rattle.proxy_core.specs.Pending.{outcome_of_pending_reply, outcome_after_answer, HeldAfterAnswerIsThatOfStep};
ghost use Rattle.proxy_core.specs.Pending.{AnswerChangeIsApplicable, AnswerOnlyKeepsOrUsesStored};
ghost use Rattle.proxy_core.specs.Pending.{IsChangeAfterFreshening};
ghost use Rattle.proxy_core.specs.Validating.{stored_response_is_answered_by_304, stored_response_asked_about};
ghost use Rattle.proxy_core.specs.Validating.{stored_response_validated_by_304, times_after_304, freshened_by_304};
ghost use Rattle.proxy_core.specs.Validating.{as_get_request};
ghost use Rattle.proxy_core.specs.Validating.{head_of_stored, stored_without_cookies};
ghost use Rattle.proxy_core.specs.Validating.{storing_facts_of_freshened, freshened_may_be_kept, stored_is_too_large};
ghost use Rattle.proxy_core.specs.State.{bounds_of};

use crate::core_state::Core;
use crate::open::exchange::Exchange;
use crate::replies::origin_answer::OriginAnswer;
use crate::replies::pending::{AfterAnswer, Change, PendingReply};
use crate::replies::stored_reply::{StoredCacheStatusInfo, StoredReply};
use crate::steps::judging::judge;
use crate::steps::sending::forward_text;
use crate::steps::storing::weight_exceeds_optional_bound;
use http::Method;
use hx_age::Times;
use hx_allow::Table;
use hx_directives::Directives;
use hx_framing::Response;
use hx_hop::{Answered, Asked, connection_names_caching_field};
use hx_reuse::{Decision, lifetime_under_policy};
use hx_status::Detail;
use hx_storable::{StoringFacts, first_rule_against};
use hx_store::{Entry, Serials, Shelf};
use hx_target::laws::same_keys_are_equal_records;
use hx_validate::{answers, freshened, has_validator, head_leaves_room};
use hx_vary::{Nominated, Nomination};
use std::alloc::{AllocError, Global};

/// Whether an answer with this head answers a held response.
fn stored_response_is_answered_by_304(
    answer: &OriginAnswer<'_>,
    head: &Answered,
    entry: &Entry,
) -> bool
    requires { head.now ≡ answered_of answer.now.response.now answer.now.response_time }
    ensures { result
        ≡ stored_response_is_answered_by_304 answer.now.exchange.now answer.now.response.now answer.now.response_time
        entry.now }
{
    match &answer.exchange.condition {
        Some(condition) => {
            answer.response.status == 304
                && (condition.serial == entry.serial && answers(entry, &condition.sent, head))
        }
        None => false,
    }
}

/// The held response that an exchange asks about.
fn stored_response_asked_about<'a, S: Shelf>(shelf: &'a S, exchange: &Exchange) -> Option<&'a Entry>
    ensures { option_copied result ≡ stored_response_asked_about (S.entries shelf.now) exchange.now }
{
    match &exchange.condition {
        Some(condition) => shelf.peek(condition.serial),
        None => None,
    }
}

/// The held response that a 304 answers.
fn stored_response_validated_by_304<'a, S: Shelf>(
    shelf: &'a S,
    answer: &OriginAnswer<'_>,
    head: &Answered,
) -> Option<&'a Entry>
    requires { head.now ≡ answered_of answer.now.response.now answer.now.response_time }
    ensures { option_copied result
        ≡ stored_response_validated_by_304
        (S.entries shelf.now) answer.now.exchange.now answer.now.response.now answer.now.response_time }
{
    match stored_response_asked_about(shelf, answer.exchange) {
        Some(entry) if stored_response_is_answered_by_304(answer, head, entry) => Some(entry),
        _ => None,
    }
}

/// The times that a 304 leaves a held response. One to a request that a purge overtook leaves it expired.
fn times_after_304(answer: &OriginAnswer<'_>, head: &Answered, entry: &Entry) -> Times
    requires { head.now ≡ answered_of answer.now.response.now answer.now.response_time }
    ensures { result
        ≡ times_after_304 answer.now.exchange.now answer.now.response.now answer.now.response_time entry.now }
{
    let exchange = answer.exchange;
    let times = Times::of(&head.fields, exchange.request_time, answer.response_time);
    Times {
        expired: if exchange.overtaken {
            entry.times.expired
        } else {
            None
        },
        ..times
    }
}

/// What the held response becomes that a 304 answers.
fn freshened_by_304(
    alloc: Global,
    answer: &OriginAnswer<'_>,
    head: &Answered,
    entry: &Entry,
) -> Result<Entry, AllocError>
    requires { head.now ≡ answered_of answer.now.response.now answer.now.response_time }
    ensures { IfOk result (λ fresh. fresh
        ≡ freshened_by_304 answer.now.exchange.now answer.now.response.now answer.now.response_time entry.now) }
{
    let exchange = answer.exchange;
    let times = times_after_304(answer, head, entry);
    let fresh = freshened(alloc, &exchange.vary, entry, head, &exchange.asked, times)?;
    without_set_cookie_if(alloc, exchange, fresh)
}

/// What an exchange leaves of a response in the store. Mostly that is the whole of it, and nothing is copied.
#[tactic(auto, using(crate::proofs::Cookies::stays_whole))]
fn without_set_cookie_if(
    alloc: Global,
    exchange: &Exchange,
    entry: Entry,
) -> Result<Entry, AllocError>
    ensures { IfOk result (λ kept. kept ≡ stored_without_cookies exchange.now entry) }
{
    if !(exchange.removes_set_cookie && entry.fields.has(b"Set-Cookie")) {
        return Ok(entry);
    }
    let mut fields = entry.fields.copy(alloc)?;
    fields.remove_named(b"Set-Cookie");
    let fields = fields.copy(alloc)?;
    let directives = Directives::of(alloc, &fields)?.copy(alloc)?;
    Ok(Entry {
        serial: entry.serial,
        key: entry.key.copy(alloc)?,
        nominated: entry.nominated.copy(alloc)?,
        status: entry.status,
        fields,
        directives,
        content: entry.content.copy(alloc)?,
        times: entry.times,
    })
}

/// The same request, of method GET.
fn as_get_request(alloc: Global, asked: &Asked) -> Result<Asked, AllocError>
    ensures { IfOk result (λ get. get ≡ as_get_request asked.now) }
{
    let mut get = asked.copy(alloc)?;
    get.method = Method::GET;
    Ok(get)
}

fn head_of_stored(alloc: Global, entry: &Entry) -> Result<Answered, AllocError>
    ensures { IfOk result (λ head. head ≡ head_of_stored entry.now) }
{
    Ok(Answered {
        status: entry.status,
        fields: entry.fields.copy(alloc)?,
    })
}

/// Whether a response is above the limit of one content, or alone above that of the whole store.
fn stored_is_too_large(config: &Table, entry: &Entry) -> bool
    ensures { result ≡ stored_is_too_large config.now entry.now }
{
    entry.content.len() as u64 > config.max_stored()
        || weight_exceeds_optional_bound(config.max_store(), entry.weight())
}

/// What the storing rules ask of a freshened response.
fn storing_facts_of_freshened(
    alloc: Global,
    config: &Table,
    exchange: &Exchange,
    response: &Response,
    entry: &Entry,
) -> Result<StoringFacts, AllocError>
    ensures { IfOk result (λ facts. facts ≡ storing_facts_of_freshened config.now exchange.now response.now entry.now) }
{
    let policy = config.policy(exchange.line);
    let lifetime = lifetime_under_policy(policy, entry.status, &entry.fields, &entry.directives);
    Ok(StoringFacts {
        policy,
        vary_star: nominates_a_star_there(alloc, &exchange.asked, entry)?,
        listed: connection_names_caching_field(&response.fields),
        explicit: lifetime.explicit,
        validator: has_validator(&entry.fields),
        too_large: stored_is_too_large(config, entry),
        overtaken: false,
        no_serial: false,
    })
}

/// Whether no request but its own may be answered by a response (RFC 9111, section 4.1).
fn nominates_a_star_there(alloc: Global, asked: &Asked, entry: &Entry) -> Result<bool, AllocError>
    ensures { IfOk result (λ is. is ≡ vary_counts_as_star entry.now.fields) }
{
    match Nominated::of(alloc, &entry.fields, &asked.fields)? {
        Nomination::Star => Ok(true),
        Nomination::Names(_) => Ok(false),
    }
}

/// Whether a freshened response is kept: its head leaves room for what is added to it, and no
/// storing rule stands against it.
fn freshened_may_be_kept(
    alloc: Global,
    config: &Table,
    exchange: &Exchange,
    response: &Response,
    entry: &Entry,
) -> Result<bool, AllocError>
    ensures { IfOk result (λ is. is ≡ freshened_may_be_kept config.now exchange.now response.now entry.now) }
{
    if !head_leaves_room(&entry.fields) {
        return Ok(false);
    }
    let asked = as_get_request(alloc, &exchange.asked)?;
    let asked_directives = Directives::of(alloc, &asked.fields)?;
    let head = head_of_stored(alloc, entry)?;
    let facts = storing_facts_of_freshened(alloc, config, exchange, response, entry)?;
    let rule = first_rule_against(&asked, &asked_directives, &head, &entry.directives, facts);
    Ok(rule.is_none())
}

/// What becomes of a freshened response: it is kept where it may be kept.
fn change_after(entry: Entry, kept: bool) -> Change
    ensures { IsChangeAfterFreshening kept entry result }
{
    if kept {
        Change::Freshen(entry)
    } else {
        Change::Remove(entry.serial)
    }
}

/// The serials that a freshened response takes with it: its own, where it isn't kept.
fn removed_after(alloc: Global, serial: u64, kept: bool) -> Result<Serials, AllocError>
    ensures { IfOk result (λ removed. removed ≡ cond kept [] (serial ∷ [])) }
{
    let mut removed = Serials::new(alloc);
    if !kept {
        removed.push(serial)?;
    }
    Ok(removed)
}

impl<S: Shelf> Core<S> {
    /// Sends a freshened response, and keeps it where it may be kept.
    fn send_refreshed(
        &self,
        alloc: Global,
        answer: &OriginAnswer<'_>,
        entry: Entry,
    ) -> Result<PendingReply, AllocError>
        ensures outcome { IfOk result (λ pending. outcome_of_pending_reply pending
            ≡ outcome_of_sending_freshened self.now.table
            answer.now.exchange.now answer.now.response.now answer.now.response_time entry) }
        ensures change { IfOk result (λ pending. IsChangeAfterFreshening
            (freshened_may_be_kept self.now.table answer.now.exchange.now answer.now.response.now entry) entry
            pending.change) }
    {
        let exchange = answer.exchange;
        let response = answer.response;
        let kept = freshened_may_be_kept(alloc, &self.config, exchange, response, &entry)?;
        let removed = removed_after(alloc, entry.serial, kept)?;
        let policy = self.config.policy(exchange.line);
        let reply = StoredReply {
            name: self.config.name(),
            entry: &entry,
            asked: &exchange.asked,
            info: StoredCacheStatusInfo::forwarded(policy, exchange, Some(response.status), None),
            sent_at: answer.response_time,
        };
        let sent = reply.text(alloc)?;
        Ok(PendingReply {
            bytes: sent.bytes,
            close: exchange.asked.close,
            about: sent.about,
            change: change_after(entry, kept),
            removed,
        })
    }

    /// What follows a 304 to the proxy's conditions.
    pub(crate) fn decide_after_304(
        &self,
        alloc: Global,
        answer: &OriginAnswer<'_>,
    ) -> Result<AfterAnswer, AllocError>
        requires { answer.now.response_time < 253_402_300_800 }
        ensures outcome { IfOk result (λ after. outcome_after_answer answer.now.exchange.now after
            ≡ outcome_of_304 self.now.table self.now.entries answer.now.response_time answer.now.exchange.now
            answer.now.response.now
            (stored_response_validated_by_304 self.now.entries answer.now.exchange.now answer.now.response.now
            answer.now.response_time) (decision_of (policy_of self.now.table.lines answer.now.exchange.now.line)
            self.now.entries answer.now.exchange.now.asked answer.now.response_time)) }
        ensures leaves { IfOk result
            (λ after. HeldAfterAnswerIsThatOfStep (bounds_of self.now.table self.now.limit) self.now.entries
            answer.now.exchange.now
            (Answer answer.now.response_time answer.now.exchange.now.id answer.now.response.now) after) }
        ensures fits { IfOk result (λ after. AnswerChangeIsApplicable self.now.next self.now.entries after) }
    {
        let head = answer.head(alloc)?;
        same_keys_are_equal_records();
        match stored_response_validated_by_304(&self.shelf, answer, &head) {
            Some(entry) => {
                let fresh = freshened_by_304(alloc, answer, &head, entry)?;
                let pending = self.send_refreshed(alloc, answer, fresh)?;
                Ok(AfterAnswer::Ends(pending))
            }
            None => self.reuse_or_go_on(alloc, answer),
        }
    }

    /// What follows a 304 that answers no held response.
    fn reuse_or_go_on(
        &self,
        alloc: Global,
        answer: &OriginAnswer<'_>,
    ) -> Result<AfterAnswer, AllocError>
        ensures outcome { IfOk result (λ after. outcome_after_answer answer.now.exchange.now after
            ≡ outcome_of_304 self.now.table self.now.entries answer.now.response_time answer.now.exchange.now
            answer.now.response.now None (decision_of (policy_of self.now.table.lines answer.now.exchange.now.line)
            self.now.entries answer.now.exchange.now.asked answer.now.response_time)) }
        ensures plain { IfOk result AnswerOnlyKeepsOrUsesStored }
    {
        let exchange = answer.exchange;
        let asked = &exchange.asked;
        let now = answer.response_time;
        let policy = self.config.policy(exchange.line);
        match judge(alloc, &self.shelf, asked, now, policy)? {
            Decision::Hit(serial) => {
                let came = Some(answer.response.status);
                let detail = Some(Detail::ReuseAfter304);
                let info = StoredCacheStatusInfo::forwarded(policy, exchange, came, detail);
                let pending = self.send(alloc, serial, now, info, asked)?;
                Ok(AfterAnswer::Ends(pending))
            }
            Decision::Forward(_, _) => {
                let bytes = forward_text(alloc, &self.config, exchange.line, asked, None)?;
                Ok(AfterAnswer::GoesOn(bytes))
            }
        }
    }
}
