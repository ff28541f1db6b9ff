//! The least rule against a request, and against the response that was chosen for it.
ghost use Rattle.std.specs.Prelude.{◌≡◌, ℕ, List, false, find, ◌&&◌, ◌||◌, nat_lt, ◌+◌, is_some};
ghost use Rattle.hx_directives.specs.Occurrences.{occurrences_of};
ghost use Rattle.hx_directives.specs.Answers.{first_valid_seconds, directive_occurs, max_stale};
ghost use Rattle.hx_directives.specs.declared.names.Directive.TheVariants.{MaxAge, MinFresh, NoCache, MustRevalidate};
ghost use Rattle.hx_directives.specs.declared.names.Directive.TheVariants.{ProxyRevalidate, SMaxage};
ghost use Rattle.hx_age.specs.Age.{is_fresh_of, staleness_of};
ghost use Rattle.hx_store.specs.Stored.{Stored};
ghost use Rattle.hx_reuse.specs.Rules.{is_some_and, reuse_rule_condition, reuse_rule_applies, is_past_max_stale};
ghost use Rattle.hx_reuse.specs.Rules.{max_stale_is_present, situation_with};
ghost use Rattle.hx_reuse.specs.Rules.{situation_of_request};
ghost use Rattle.hx_reuse.specs.Rules.{request_bypass_rules, rules_on_chosen};

use crate::lifetimes::lifetime_of_stored_response;
use crate::rule::ReuseRule;
use hx_age::{Lifetime, current_age, is_fresh, staleness};
use hx_directives::{Directive, Directives, MaxStale};
use hx_hop::Asked;
use hx_policy::Policy;
use hx_store::Entry;

/// The least rule on the request alone.
pub(crate) fn least_rule_on_request(asked: &Asked, policy: Policy) -> Option<ReuseRule>
    ensures { (held : List Stored) (now : ℕ)
        → result ≡ find (λ r. reuse_rule_applies r policy held asked.now now) request_bypass_rules }
{
    if asked.method.as_str() != "GET" && asked.method.as_str() != "HEAD" {
        return Some(ReuseRule::Method);
    }
    if asked.has_content() {
        return Some(ReuseRule::Content);
    }
    if policy.forwards_ranges && asked.asks_for_range() {
        return Some(ReuseRule::Range);
    }
    if asked.has_precondition_for_origin() {
        return Some(ReuseRule::Precondition);
    }
    None
}

/// Whether a request has no-cache, where the operator's line heeds it.
pub(crate) fn heeded_request_has_no_cache(policy: Policy, request: &Directives) -> bool
    ensures { result ≡ (policy.heeds_requests && directive_occurs request.now NoCache) }
{
    policy.heeds_requests && request.has(Directive::NoCache)
}

/// Whether an age is above a request's max-age, where the operator's line heeds it.
pub(crate) fn request_max_age_is_exceeded(policy: Policy, age: u32, request: &Directives) -> bool
    ensures { result
        ≡ (policy.heeds_requests && is_some_and (λ most. nat_lt most age) (first_valid_seconds request.now MaxAge)) }
{
    policy.heeds_requests && is_above_max_age_of(age, request)
}

fn is_above_max_age_of(age: u32, request: &Directives) -> bool
    ensures { result ≡ is_some_and (λ most. nat_lt most age) (first_valid_seconds request.now MaxAge) }
{
    match request.first_valid_seconds(Directive::MaxAge) {
        Some(most) => most < age,
        None => false,
    }
}

/// Whether a lifetime is over before a request's min-fresh is, where the operator's line heeds it.
fn is_below_min_fresh(policy: Policy, lifetime: Lifetime, age: u32, request: &Directives) -> bool
    ensures { result ≡ (policy.heeds_requests
        && is_some_and (λ least. nat_lt lifetime.seconds (age + least)) (first_valid_seconds request.now MinFresh)) }
{
    policy.heeds_requests && is_below_min_fresh_of(lifetime, age, request)
}

fn is_below_min_fresh_of(lifetime: Lifetime, age: u32, request: &Directives) -> bool
    ensures { result
        ≡ is_some_and (λ least. nat_lt lifetime.seconds (age + least)) (first_valid_seconds request.now MinFresh) }
{
    match request.first_valid_seconds(Directive::MinFresh) {
        Some(least) => u64::from(lifetime.seconds) < u64::from(age) + u64::from(least),
        None => false,
    }
}

/// Whether a request has min-fresh, where the operator's line heeds it.
pub(crate) fn heeded_request_has_min_fresh(policy: Policy, request: &Directives) -> bool
    ensures { result ≡ (policy.heeds_requests && is_some (first_valid_seconds request.now MinFresh)) }
{
    policy.heeds_requests && request.first_valid_seconds(Directive::MinFresh).is_some()
}

pub(crate) fn is_past_max_stale_of_request(
    lifetime: Lifetime,
    age: u32,
    request: &Directives,
) -> bool
    ensures { result ≡ is_past_max_stale (staleness_of lifetime age) (max_stale request.now) }
{
    match request.max_stale() {
        MaxStale::UpTo(limit) => limit < staleness(lifetime, age),
        MaxStale::Absent => false,
        MaxStale::Any => false,
    }
}

fn max_stale_is_present(request: &Directives) -> bool
    ensures { result ≡ max_stale_is_present (max_stale request.now) }
{
    request.max_stale() != MaxStale::Absent
}

pub(crate) fn forbids_sending_stale(response: &Directives) -> bool
    ensures { result
        ≡ ((directive_occurs response.now MustRevalidate || directive_occurs response.now ProxyRevalidate)
        || directive_occurs response.now SMaxage) }
{
    response.has(Directive::MustRevalidate)
        || response.has(Directive::ProxyRevalidate)
        || response.has(Directive::SMaxage)
}

/// The least rule on a response that would be sent.
fn rule_against(
    policy: Policy,
    lifetime: Lifetime,
    age: u32,
    response: &Directives,
    request: &Directives,
) -> Option<ReuseRule>
    ensures { result ≡ find
        (λ r. reuse_rule_condition r (situation_with policy lifetime age response.now request.now)) rules_on_chosen }
{
    if response.has(Directive::NoCache) {
        return Some(ReuseRule::ResponseNoCache);
    }
    let fresh = is_fresh(lifetime, age);
    if fresh && heeded_request_has_no_cache(policy, request) {
        return Some(ReuseRule::RequestNoCache);
    }
    if fresh && request_max_age_is_exceeded(policy, age, request) {
        return Some(ReuseRule::AboveMaxAge);
    }
    if fresh && is_below_min_fresh(policy, lifetime, age, request) {
        return Some(ReuseRule::BelowMinFresh);
    }
    if fresh {
        return None;
    }
    stale_rule(policy, lifetime, age, response, request)
}

/// The least rule on a stale response without no-cache.
fn stale_rule(
    policy: Policy,
    lifetime: Lifetime,
    age: u32,
    response: &Directives,
    request: &Directives,
) -> Option<ReuseRule>
    requires validated_not { directive_occurs response.now NoCache ≡ false }
    requires stale { is_fresh_of lifetime age ≡ false }
    ensures { result ≡ find
        (λ r. reuse_rule_condition r (situation_with policy lifetime age response.now request.now)) rules_on_chosen }
{
    if forbids_sending_stale(response) {
        return Some(ReuseRule::MustRevalidate);
    }
    if !lifetime.explicit {
        return Some(ReuseRule::NoLifetime);
    }
    if heeded_request_has_no_cache(policy, request) {
        return Some(ReuseRule::StaleNoCache);
    }
    if !max_stale_is_present(request) {
        return Some(ReuseRule::NoMaxStale);
    }
    if is_past_max_stale_of_request(lifetime, age, request) {
        return Some(ReuseRule::PastMaxStale);
    }
    if request_max_age_is_exceeded(policy, age, request) {
        return Some(ReuseRule::StaleMaxAge);
    }
    if heeded_request_has_min_fresh(policy, request) {
        return Some(ReuseRule::StaleMinFresh);
    }
    None
}

/// The least rule on the chosen response.
pub(crate) fn least_rule_on_chosen(
    entry: &Entry,
    asked: &Asked,
    asked_directives: &Directives,
    now: u64,
    policy: Policy,
) -> Option<ReuseRule>
    requires { asked_directives.now ≡ occurrences_of asked.now.fields }
    ensures { result ≡ find
        (λ r. reuse_rule_condition r (situation_of_request policy entry.now asked.now now)) rules_on_chosen }
{
    let lifetime = lifetime_of_stored_response(policy, entry);
    let age = current_age(&entry.times, now);
    rule_against(policy, lifetime, age, &entry.directives, asked_directives)
}
