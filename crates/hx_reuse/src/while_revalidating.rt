//! Whether a stale response may be sent while a GET is at the origin for it (RFC 5861, section 3).
//!
//! What keeps it back stands in `specs/WhileRevalidating.antt`. That such a GET is there, and that the request could
//! wait for it, is the caller's matter.
ghost use Rattle.std.specs.Prelude.{◌≡◌, nat_le, if◌then◌else◌, find, false};
ghost use Rattle.hx_directives.specs.Answers.{directive_occurs, seconds_of_directive};
ghost use Rattle.hx_directives.specs.declared.names.Directive.TheVariants.{StaleWhileRevalidate};
ghost use Rattle.hx_age.specs.Age.{is_fresh_of};
ghost use Rattle.hx_reuse.specs.Rules.{is_some_and, reuse_rule_condition, situation_with};
ghost use Rattle.hx_reuse.specs.ErrorRules.{seconds_stated_once};
ghost use Rattle.hx_reuse.specs.WhileRevalidating.{stale_while_revalidate_rules};
ghost use Rattle.hx_reuse.specs.WhileRevalidating.{situation_allows_stale_while_revalidate};
ghost use Rattle.hx_reuse.specs.WhileRevalidating.{may_be_sent_while_revalidating};

use crate::lifetimes::lifetime_of_stored_response;
use crate::reuse_rules::{
    forbids_sending_stale, heeded_request_has_min_fresh, heeded_request_has_no_cache,
    is_past_max_stale_of_request, request_max_age_is_exceeded,
};
use crate::rule::ReuseRule;
use hx_age::{Lifetime, current_age, is_fresh, staleness};
use hx_directives::{Directive, Directives, Seconds};
use hx_policy::Policy;
use hx_store::Entry;

/// The staleness that a response states, in seconds.
fn stated_limit(response: &Directives) -> Option<u32>
    ensures { result ≡ seconds_stated_once (seconds_of_directive response.now StaleWhileRevalidate) }
{
    match response.seconds(Directive::StaleWhileRevalidate) {
        Seconds::Value(most) => Some(most),
        Seconds::Absent | Seconds::Bad | Seconds::Repeated => None,
    }
}

/// The staleness that a response states, or where it doesn't have the directive the operator's line, in seconds.
fn limit_of_stale_while_revalidate(policy: Policy, response: &Directives) -> Option<u32>
    ensures { result ≡ (if directive_occurs response.now StaleWhileRevalidate
        then seconds_stated_once (seconds_of_directive response.now StaleWhileRevalidate)
        else policy.stale_while_revalidate) }
{
    if response.has(Directive::StaleWhileRevalidate) {
        stated_limit(response)
    } else {
        policy.stale_while_revalidate
    }
}

fn is_within(stale_by: u32, limit: Option<u32>) -> bool
    ensures { result ≡ is_some_and (λ most. nat_le stale_by most) limit }
{
    match limit {
        Some(most) => stale_by <= most,
        None => false,
    }
}

/// The first rule that keeps a stale response back all the same.
fn rule_while_revalidating(
    policy: Policy,
    lifetime: Lifetime,
    age: u32,
    response: &Directives,
    request: &Directives,
) -> Option<ReuseRule>
    requires stale { is_fresh_of lifetime age ≡ false }
    ensures { result ≡ find
        (λ r. reuse_rule_condition r
        (situation_with policy lifetime age response.now request.now)) stale_while_revalidate_rules }
{
    if response.has(Directive::NoCache) {
        return Some(ReuseRule::ResponseNoCache);
    }
    if forbids_sending_stale(response) {
        return Some(ReuseRule::MustRevalidate);
    }
    if !lifetime.explicit {
        return Some(ReuseRule::NoLifetime);
    }
    if heeded_request_has_no_cache(policy, request) {
        return Some(ReuseRule::StaleNoCache);
    }
    if is_past_max_stale_of_request(lifetime, age, request) {
        return Some(ReuseRule::PastMaxStale);
    }
    if request_max_age_is_exceeded(policy, age, request) {
        return Some(ReuseRule::StaleMaxAge);
    }
    if heeded_request_has_min_fresh(policy, request) {
        return Some(ReuseRule::StaleMinFresh);
    }
    None
}

/// Whether a response may be sent, by its lifetime and age and by the directives of both.
fn situation_allows_stale_while_revalidate(
    policy: Policy,
    lifetime: Lifetime,
    age: u32,
    response: &Directives,
    request: &Directives,
) -> bool
    ensures { result
        ≡ situation_allows_stale_while_revalidate (situation_with policy lifetime age response.now request.now) }
{
    if !policy.sends_while_revalidating || is_fresh(lifetime, age) {
        return false;
    }
    rule_while_revalidating(policy, lifetime, age, response, request).is_none()
        && is_within(
            staleness(lifetime, age),
            limit_of_stale_while_revalidate(policy, response),
        )
}

/// Whether a stale response may be sent while a GET is at the origin for it, at a moment in Unix seconds and under what
/// the request's line says of caching. The request's directives are handed in. No memory is taken.
#[tactic(auto, unfolding(crate::specs::WhileRevalidating::may_be_sent_while_revalidating))]
pub fn may_serve_while_revalidating(
    asked_directives: &Directives,
    entry: &Entry,
    now: u64,
    policy: Policy,
) -> bool
    ensures { result ≡ may_be_sent_while_revalidating policy entry.now asked_directives.now now }
{
    let lifetime = lifetime_of_stored_response(policy, entry);
    let age = current_age(&entry.times, now);
    situation_allows_stale_while_revalidate(
        policy,
        lifetime,
        age,
        &entry.directives,
        asked_directives,
    )
}
