//! Whether a stored response may be sent in place of an error (RFC 5861, section 4).
//!
//! The rules and their order stand in `specs/ErrorRules.antt`. Which response is asked about, and that no rule stands
//! that asks of the request alone, is the caller's matter.
ghost use Rattle.std.specs.Prelude.{◌≡◌, ◌||◌, ◌&&◌, nat_lt, if◌then◌else◌, find, None, is_none};
ghost use Rattle.hx_directives.specs.Answers.{directive_occurs, seconds_of_directive, first_valid_seconds};
ghost use Rattle.hx_directives.specs.declared.names.Directive.TheVariants.{StaleIfError};
ghost use Rattle.hx_reuse.specs.Rules.{is_some_and, situation_with};
ghost use Rattle.hx_reuse.specs.ErrorRules.{seconds_stated_once, error_rules, error_rule_condition, error_rule_against};
ghost use Rattle.hx_reuse.specs.ErrorRules.{permission_on_error};

use crate::lifetimes::lifetime_of_stored_response;
use crate::reuse_rules::{forbids_sending_stale, heeded_request_has_no_cache};
use crate::rule::ErrorRule;
use hx_age::{Lifetime, current_age, staleness};
use hx_directives::{Directive, Directives, Seconds};
use hx_policy::Policy;
use hx_store::Entry;

/// The staleness that a response allows, in seconds.
fn stale_if_error_limit_of_response(response: &Directives) -> Option<u32>
    ensures { result ≡ seconds_stated_once (seconds_of_directive response.now StaleIfError) }
{
    match response.seconds(Directive::StaleIfError) {
        Seconds::Value(most) => Some(most),
        Seconds::Absent | Seconds::Bad | Seconds::Repeated => None,
    }
}

/// The staleness that the operator's line allows, in seconds, where neither the response nor the request says any.
fn operator_stale_if_error_limit(
    policy: Policy,
    response: &Directives,
    request: &Directives,
) -> Option<u32>
    ensures { result
        ≡ (if directive_occurs response.now StaleIfError || directive_occurs request.now StaleIfError then None
        else policy.stale_if_error) }
{
    if response.has(Directive::StaleIfError) || request.has(Directive::StaleIfError) {
        None
    } else {
        policy.stale_if_error
    }
}

fn is_stale_beyond_limit(stale_by: u32, limit: Option<u32>) -> bool
    ensures { result ≡ is_some_and (λ most. nat_lt most stale_by) limit }
{
    match limit {
        Some(most) => most < stale_by,
        None => false,
    }
}

fn allows_no_staleness(policy: Policy, response: &Directives, request: &Directives) -> bool
    ensures { result
        ≡ ((is_none (seconds_stated_once (seconds_of_directive response.now StaleIfError)) && is_none
        (first_valid_seconds request.now StaleIfError))
        && is_none (if directive_occurs response.now StaleIfError || directive_occurs request.now StaleIfError then None
        else policy.stale_if_error)) }
{
    stale_if_error_limit_of_response(response).is_none()
        && request
            .first_valid_seconds(Directive::StaleIfError)
            .is_none()
        && operator_stale_if_error_limit(policy, response, request).is_none()
}

/// Whether a response is staler than itself, the request or the operator's line allows.
fn is_too_stale(policy: Policy, stale_by: u32, response: &Directives, request: &Directives) -> bool
    ensures { result ≡
        ((is_some_and (λ most. nat_lt most stale_by)
        (seconds_stated_once (seconds_of_directive response.now StaleIfError))
        || is_some_and (λ most. nat_lt most stale_by) (first_valid_seconds request.now StaleIfError))
        || is_some_and (λ most. nat_lt most stale_by) (if directive_occurs response.now StaleIfError
        || directive_occurs request.now StaleIfError
        then None else policy.stale_if_error)) }
{
    is_stale_beyond_limit(stale_by, stale_if_error_limit_of_response(response))
        || is_stale_beyond_limit(
            stale_by,
            request.first_valid_seconds(Directive::StaleIfError),
        )
        || is_stale_beyond_limit(
            stale_by,
            operator_stale_if_error_limit(policy, response, request),
        )
}

/// The least rule on a response that would be sent in place of an error.
fn rule_on_error(
    policy: Policy,
    lifetime: Lifetime,
    age: u32,
    response: &Directives,
    request: &Directives,
) -> Option<ErrorRule>
    ensures { result
        ≡ find (λ r. error_rule_condition r (situation_with policy lifetime age response.now request.now)) error_rules }
{
    if response.has(Directive::NoCache) {
        Some(ErrorRule::NoCache)
    } else if forbids_sending_stale(response) {
        Some(ErrorRule::MustRevalidate)
    } else if !lifetime.explicit {
        Some(ErrorRule::NoLifetime)
    } else if heeded_request_has_no_cache(policy, request) {
        Some(ErrorRule::RequestNoCache)
    } else if allows_no_staleness(policy, response, request) {
        Some(ErrorRule::NoDirective)
    } else if is_too_stale(policy, staleness(lifetime, age), response, request) {
        Some(ErrorRule::TooStale)
    } else {
        None
    }
}

/// The least rule on the response that was chosen for a request.
#[tactic(auto, unfolding(crate::specs::ErrorRules::error_rule_against))]
fn least_rule_on_chosen(
    asked_directives: &Directives,
    entry: &Entry,
    now: u64,
    policy: Policy,
) -> Option<ErrorRule>
    ensures { result ≡ error_rule_against policy entry.now asked_directives.now now }
{
    let lifetime = lifetime_of_stored_response(policy, entry);
    let age = current_age(&entry.times, now);
    rule_on_error(policy, lifetime, age, &entry.directives, asked_directives)
}

/// Whether the response that was chosen for a request may be sent in place of an error, at a moment
/// in Unix seconds and under what the request's line says of caching; if not, the least rule
/// against it. The request's directives are handed in. No memory is taken.
pub fn may_serve_on_error(
    asked_directives: &Directives,
    entry: &Entry,
    now: u64,
    policy: Policy,
) -> Result<(), ErrorRule>
    ensures { result ≡ permission_on_error policy entry.now asked_directives.now now }
{
    match least_rule_on_chosen(asked_directives, entry, now, policy) {
        Some(rule) => Err(rule),
        None => Ok(()),
    }
}
