//! Whether an answer is stored, the stored response that it makes, and what goes for it.
ghost use Rattle.std.specs.Prelude.{◌≡◌, ◌<◌, ◌-◌, ◌^◌, ℕ, min, Some, None, IfOk, IfSome, option_map};
ghost use Rattle.hx_directives.specs.Occurrences.{occurrences_of};
ghost use Rattle.hx_hop.specs.Answering.{answered_of};
ghost use Rattle.hx_vary.specs.Vary.{nominated_values_with_further_names, nomination_with_further_names};
ghost use Rattle.hx_storable.specs.Rules.{rule_against_storing};
ghost use Rattle.proxy_core.specs.Storing.{nomination_is_star, storing_facts_of_answer, storing_rule_to_explain};
ghost use Rattle.proxy_core.specs.Storing.{stored_response_made, serials_replaced_by_storing};
ghost use Rattle.proxy_core.specs.Storing.{answer_is_too_large_to_store};
ghost use Rattle.proxy_core.specs.Validating.{weight_exceeds_optional_bound};
ghost use Rattle.proxy_core.specs.Outcomes.{serial_of_stored_answer, serials_removed_by_answer};

use crate::core_state::Core;
use crate::replies::origin_answer::OriginAnswer;
use hx_age::Times;
use hx_directives::Directives;
use hx_hop::{Answered, Asked, connection_names_caching_field};
use hx_reuse::lifetime_under_policy;
use hx_storable::laws::the_least_storage_rule_is_named;
use hx_storable::{StoreRule, StoringFacts, first_rule_against};
use hx_store::{Entry, Serials, Shelf, weight_of_entry_parts};
use hx_validate::has_validator;
use hx_vary::{Nominated, Nomination};
use std::alloc::{AllocError, Global};

/// What a new stored response has beside the answer: its serial, what it nominates, and the directives of its head.
#[derive(Drop)]
pub(crate) struct NewEntry {
    pub(crate) serial: u64,
    pub(crate) nominated: Nominated,
    pub(crate) directives: Directives,
}

/// Whether an answer is stored.
#[derive(Drop)]
pub(crate) struct StorageDecision {
    /// What is told of the first storing rule against it.
    pub(crate) rule: Option<StoreRule>,
    /// What it has as a stored response, where it is stored.
    pub(crate) new_entry: Option<NewEntry>,
}

impl StorageDecision {
    fn not_stored(rule: Option<StoreRule>) -> StorageDecision
        ensures rule { result.rule ≡ rule }
        ensures new_entry { result.new_entry ≡ None }
    {
        StorageDecision {
            rule,
            new_entry: None,
        }
    }
}

impl NewEntry {
    /// The stored response that an answer with this head makes.
    pub(crate) fn into_entry(
        self,
        alloc: Global,
        answer: &OriginAnswer<'_>,
        head: Answered,
    ) -> Result<Entry, AllocError>
        requires head { head ≡ answered_of answer.now.response.now answer.now.response_time }
        requires nominated { self.nominated
            ≡ nominated_values_with_further_names answer.now.exchange.now.vary head.fields
            answer.now.exchange.now.asked.fields }
        requires directives { self.directives ≡ occurrences_of head.fields }
        ensures { IfOk result (λ entry. entry
            ≡ stored_response_made self.serial answer.now.exchange.now answer.now.response.now
            answer.now.response_time) }
    {
        let NewEntry {
            serial,
            nominated,
            directives,
        } = self;
        let Answered { status, mut fields } = head;
        let exchange = answer.exchange;
        let key = exchange.asked.target.key.copy_in_own_buffers(alloc)?;
        let content = answer.response.content.copy(alloc)?;
        let times = Times::of(&fields, exchange.request_time, answer.response_time);
        if exchange.removes_set_cookie {
            fields.remove_named(b"Set-Cookie");
        }
        fields.remove_named(b"Age");
        // What is stored stays long: its lists get room for just what they have.
        let fields = fields.copy(alloc)?;
        let directives = directives.copy(alloc)?;
        Ok(Entry {
            serial,
            key,
            nominated,
            status,
            fields,
            directives,
            content,
            times,
        })
    }
}

/// Whether no request but its own may be answered by the response (RFC 9111, section 4.1).
fn nominates_a_star_there(nomination: &Nomination) -> bool
    ensures { result ≡ nomination_is_star nomination.now }
{
    match nomination {
        Nomination::Star => true,
        Nomination::Names(_) => false,
    }
}

/// Whether a weight, of which 2^64 - 1 stands for what is more, is above a bound.
#[tactic(auto, using(crate::proofs::Cutting::above_counted))]
pub(crate) fn weight_exceeds_optional_bound(most: Option<u64>, weight: u64) -> bool
    requires { IfSome most (λ most. most < 2 ^ 64 - 1) }
    ensures { (exact : ℕ) → weight ≡ min exact (2 ^ 64 - 1) → result ≡ weight_exceeds_optional_bound most exact }
{
    match most {
        Some(most) => weight > most,
        None => false,
    }
}

impl<S: Shelf> Core<S> {
    /// Whether an answer is above the limit of one content, or alone above that of the whole store.
    fn is_too_large(
        &self,
        answer: &OriginAnswer<'_>,
        head: &Answered,
        nomination: &Nomination,
    ) -> bool
        requires head { head.now ≡ answered_of answer.now.response.now answer.now.response_time }
        requires nomination { nomination.now
            ≡ nomination_with_further_names answer.now.exchange.now.vary head.now.fields
            answer.now.exchange.now.asked.fields }
        ensures { result ≡ answer_is_too_large_to_store self.now.table answer.now.exchange.now answer.now.response.now
            answer.now.response_time }
    {
        let content = answer.response.content.len();
        if content as u64 > self.config.max_stored() {
            return true;
        }
        let nominated = match nomination {
            Nomination::Star => return false,
            Nomination::Names(nominated) => nominated,
        };
        let key = &answer.exchange.asked.target.key;
        let lines = head.fields.as_slice();
        let weight = weight_of_entry_parts(key, nominated.as_slice(), lines, content);
        weight_exceeds_optional_bound(self.config.max_store(), weight)
    }

    /// What the storing rules ask of an answer beside the heads. What it nominates is handed in.
    fn facts(
        &self,
        answer: &OriginAnswer<'_>,
        head: &Answered,
        directives: &Directives,
        nomination: &Nomination,
    ) -> StoringFacts
        requires head { head.now ≡ answered_of answer.now.response.now answer.now.response_time }
        requires directives { directives.now ≡ occurrences_of head.now.fields }
        requires nomination { nomination.now
            ≡ nomination_with_further_names answer.now.exchange.now.vary head.now.fields
            answer.now.exchange.now.asked.fields }
        ensures { result ≡ storing_facts_of_answer self.now.table answer.now.exchange.now answer.now.response.now
            answer.now.response_time self.now.next }
    {
        let response = answer.response;
        let policy = self.config.policy(answer.exchange.line);
        let lifetime = lifetime_under_policy(policy, head.status, &head.fields, directives);
        StoringFacts {
            policy,
            vary_star: nominates_a_star_there(nomination),
            listed: connection_names_caching_field(&response.fields),
            explicit: lifetime.explicit,
            validator: has_validator(&head.fields),
            too_large: self.is_too_large(answer, head, nomination),
            overtaken: answer.exchange.overtaken,
            no_serial: self.next.is_none(),
        }
    }

    /// The least storing rule that stands. The directives of the head are handed in.
    fn rule_against(
        &self,
        alloc: Global,
        answer: &OriginAnswer<'_>,
        head: &Answered,
        directives: &Directives,
        nomination: &Nomination,
    ) -> Result<Option<StoreRule>, AllocError>
        requires head { head.now ≡ answered_of answer.now.response.now answer.now.response_time }
        requires directives { directives.now ≡ occurrences_of head.now.fields }
        requires nomination { nomination.now
            ≡ nomination_with_further_names answer.now.exchange.now.vary head.now.fields
            answer.now.exchange.now.asked.fields }
        ensures { IfOk result (λ rule. rule ≡ rule_against_storing answer.now.exchange.now.asked head.now
            (storing_facts_of_answer self.now.table answer.now.exchange.now answer.now.response.now
            answer.now.response_time
            self.now.next)) }
    {
        let asked = &answer.exchange.asked;
        let asked_directives = Directives::of(alloc, &asked.fields)?;
        let facts = self.facts(answer, head, directives, nomination);
        let rule = first_rule_against(asked, &asked_directives, head, directives, facts);
        Ok(rule)
    }

    /// What is told of the storing rule that stands against an answer.
    fn rule_shown(&self, answer: &OriginAnswer<'_>, rule: Option<StoreRule>) -> Option<StoreRule>
        requires { rule ≡ rule_against_storing answer.now.exchange.now.asked
            (answered_of answer.now.response.now answer.now.response_time) (storing_facts_of_answer self.now.table
            answer.now.exchange.now answer.now.response.now answer.now.response_time self.now.next) }
        ensures { result ≡ storing_rule_to_explain self.now.table answer.now.exchange.now answer.now.response.now
            answer.now.response_time self.now.next }
    {
        if self.config.policy(answer.exchange.line).explains_storing {
            rule
        } else {
            None
        }
    }

    /// Whether an answer is stored: the serial, the nominated values and the directives of the stored response that
    /// it makes, or what is told of why it isn't.
    pub(crate) fn decide_storage(
        &self,
        alloc: Global,
        answer: &OriginAnswer<'_>,
        head: &Answered,
    ) -> Result<StorageDecision, AllocError>
        requires { head.now ≡ answered_of answer.now.response.now answer.now.response_time }
        ensures rule { IfOk result
            (λ admission. admission.rule ≡ storing_rule_to_explain self.now.table answer.now.exchange.now
            answer.now.response.now answer.now.response_time self.now.next) }
        ensures serial { IfOk result (λ admission. option_map (λ n. n.serial) admission.new_entry
            ≡ serial_of_stored_answer
            self.now.table answer.now.exchange.now answer.now.response.now answer.now.response_time self.now.next) }
        ensures nominated { IfOk result (λ admission. IfSome admission.new_entry
            (λ n. n.nominated ≡ nominated_values_with_further_names answer.now.exchange.now.vary head.now.fields
            answer.now.exchange.now.asked.fields)) }
        ensures directives { IfOk result (λ admission. IfSome admission.new_entry
            (λ n. n.directives ≡ occurrences_of head.now.fields)) }
    {
        let exchange = answer.exchange;
        let nomination = Nominated::with(
            alloc,
            &exchange.vary,
            &head.fields,
            &exchange.asked.fields,
        )?;
        let directives = Directives::of(alloc, &head.fields)?;
        let rule = self.rule_against(alloc, answer, head, &directives, &nomination)?;
        let shown = self.rule_shown(answer, rule);
        if rule.is_some() {
            return Ok(StorageDecision::not_stored(shown));
        }
        the_least_storage_rule_is_named();
        let serial = match self.next {
            Some(serial) => serial,
            None => return Ok(StorageDecision::not_stored(shown)),
        };
        match nomination {
            Nomination::Names(nominated) => Ok(StorageDecision {
                rule: shown,
                new_entry: Some(NewEntry {
                    serial,
                    nominated,
                    directives,
                }),
            }),
            Nomination::Star => Ok(StorageDecision::not_stored(shown)),
        }
    }
}

/// The serials of the held responses that a stored one takes the place of.
pub(crate) fn serials_replaced_by_storing<S: Shelf>(
    alloc: Global,
    shelf: &S,
    asked: &Asked,
) -> Result<Serials, AllocError>
    ensures { IfOk result (λ replaced. replaced ≡ serials_replaced_by_storing (S.entries shelf.now) asked.now) }
{
    shelf.find_matching_serials(alloc, &asked.target.key, &asked.fields)
}

/// What goes for an answer that isn't stored.
pub(crate) fn serials_removed_if_not_stored<S: Shelf>(
    alloc: Global,
    shelf: &S,
    answer: &OriginAnswer<'_>,
) -> Result<Serials, AllocError>
    ensures { IfOk result (λ removed. removed
        ≡ serials_removed_by_answer (S.entries shelf.now) answer.now.exchange.now answer.now.response.now None) }
{
    if answer.invalidates() {
        shelf.find(alloc, &answer.exchange.asked.target.key)
    } else {
        Ok(Serials::new(alloc))
    }
}
