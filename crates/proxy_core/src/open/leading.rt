//! Which open exchange others wait for.
ghost use Rattle.std.specs.Prelude.{◌≡◌, option_copied, IfOk};
ghost use Rattle.hx_directives.specs.Occurrences.{occurrences_of};
ghost use Rattle.proxy_core.specs.Leading.{is_forwarded, is_waiting, is_released, waits_for, is_get, is_uri_miss};
ghost use Rattle.proxy_core.specs.Leading.{has_authorization, request_has_no_store, exchange_went_forward_for_awaited};
ghost use Rattle.proxy_core.specs.Leading.{sends_clients_condition};
ghost use Rattle.proxy_core.specs.Leading.{answer_may_be_shared_with, answer_may_serve, is_leader_for_request};
ghost use Rattle.proxy_core.specs.Awaiting.{is_staleness_rule, no_cache_request_is_heeded, awaited_for_chosen_response};
ghost use Rattle.proxy_core.specs.Awaiting.{response_awaited_by_rule};

use crate::open::awaited::Awaited;
use crate::open::exchange::Exchange;
use crate::open::stage::Stage;
use http::Method;
use hx_directives::{Directive, Directives};
use hx_hop::Asked;
use hx_policy::Policy;
use hx_reuse::{ReuseRule, forwards_client_condition, forwards_range, lifetime_under_policy};
use hx_store::Entry;
use std::alloc::{AllocError, Global};

/// Whether the request is at the origin.
pub(crate) fn is_forwarded(stage: Stage) -> bool
    ensures { result ≡ is_forwarded stage }
{
    match stage {
        Stage::Forwarded => true,
        Stage::Waiting(_) | Stage::Released => false,
    }
}

/// Whether it waits for the answer to another.
pub(crate) fn is_waiting(stage: Stage) -> bool
    ensures { result ≡ is_waiting stage }
{
    match stage {
        Stage::Waiting(_) => true,
        Stage::Forwarded | Stage::Released => false,
    }
}

/// Whether it may be woken.
pub(crate) fn is_released(stage: Stage) -> bool
    ensures { result ≡ is_released stage }
{
    match stage {
        Stage::Released => true,
        Stage::Waiting(_) | Stage::Forwarded => false,
    }
}

/// Whether it waits for the exchange of this id.
pub(crate) fn waits_for(stage: Stage, id: u64) -> bool
    ensures { result ≡ waits_for id stage }
{
    match stage {
        Stage::Waiting(leader) => leader == id,
        Stage::Forwarded | Stage::Released => false,
    }
}

pub(crate) fn is_get(asked: &Asked) -> bool
    ensures { result ≡ is_get asked.now }
{
    asked.method == Method::GET
}

fn is_uri_miss(rule: ReuseRule) -> bool
    ensures { result ≡ is_uri_miss rule }
{
    matches!(rule, ReuseRule::UriMiss)
}

/// Whether the chosen response is stale by this rule, and nothing but its age keeps it back.
fn is_staleness_rule(rule: ReuseRule) -> bool
    ensures { result ≡ is_staleness_rule rule }
{
    matches!(
        rule,
        ReuseRule::MustRevalidate
            | ReuseRule::NoMaxStale
            | ReuseRule::PastMaxStale
            | ReuseRule::StaleMaxAge
            | ReuseRule::StaleMinFresh
    )
}

/// What an exchange went forward for is what a request could be sent.
fn exchange_went_forward_for_awaited(exchange: &Exchange, awaited: Awaited) -> bool
    ensures { result ≡ exchange_went_forward_for_awaited awaited exchange.now }
{
    match awaited {
        Awaited::Missing => is_uri_miss(exchange.rule),
        Awaited::Expired(serial) => match exchange.named {
            Some(named) => named == serial,
            None => false,
        },
    }
}

pub(crate) fn has_authorization(asked: &Asked) -> bool
    ensures { result ≡ has_authorization asked.now }
{
    asked.fields.has(b"Authorization")
}

/// Whether a condition of the client's own is at the origin, so that a 304 may be for it alone.
fn sends_clients_condition(exchange: &Exchange, policy: Policy) -> bool
    ensures { result ≡ sends_clients_condition policy exchange.now }
{
    exchange.condition.is_none() && forwards_client_condition(policy, &exchange.asked)
}

/// Whether nothing that is known of an exchange keeps its answer from this request.
fn answer_may_be_shared_with(exchange: &Exchange, policy: Policy, asked: &Asked) -> bool
    ensures { result ≡ answer_may_be_shared_with policy asked.now exchange.now }
{
    !exchange.no_store
        && !exchange.overtaken
        && !sends_clients_condition(exchange, policy)
        && has_authorization(&exchange.asked) == has_authorization(asked)
}

/// Whether no range went to the origin for an exchange, and nothing that is looked at over this line keeps its answer
/// back.
fn answer_may_serve(exchange: &Exchange, policy: Policy, asked: &Asked) -> bool
    ensures { result ≡ answer_may_serve policy asked.now exchange.now }
{
    !forwards_range(policy, &exchange.asked)
        && (!policy.waits_for_stale || answer_may_be_shared_with(exchange, policy, asked))
}

/// Whether a GET that could be sent this, over a line of this policy, waits for an exchange.
pub(crate) fn is_leader_for_request(
    exchange: &Exchange,
    policy: Policy,
    awaited: Awaited,
    asked: &Asked,
) -> bool
    ensures { result ≡ is_leader_for_request policy awaited asked.now exchange.now }
{
    exchange.asked.target.key.is_same(&asked.target.key)
        && is_get(&exchange.asked)
        && is_forwarded(exchange.stage)
        && exchange_went_forward_for_awaited(exchange, awaited)
        && answer_may_serve(exchange, policy, asked)
}

/// Whether a request has no-store (RFC 9111, section 5.2.1.5).
pub(crate) fn request_has_no_store(asked_directives: &Directives, asked: &Asked) -> bool
    requires { asked_directives.now ≡ occurrences_of asked.now.fields }
    ensures { result ≡ request_has_no_store asked.now }
{
    asked_directives.has(Directive::NoStore)
}

/// Whether a request has no-cache, where the operator's line heeds it.
fn no_cache_request_is_heeded(policy: Policy, asked_directives: &Directives, asked: &Asked) -> bool
    requires { asked_directives.now ≡ occurrences_of asked.now.fields }
    ensures { result ≡ no_cache_request_is_heeded policy asked.now }
{
    policy.heeds_requests && asked_directives.has(Directive::NoCache)
}

/// What is awaited of the chosen response, which is stale: it, where it had a lifetime.
fn awaited_for_chosen_response(
    alloc: Global,
    policy: Policy,
    chosen: Option<&Entry>,
) -> Result<Option<Awaited>, AllocError>
    ensures { IfOk result (λ awaited. awaited ≡ awaited_for_chosen_response policy (option_copied chosen.entry)) }
{
    let Some(entry) = chosen else {
        return Ok(None);
    };
    let directives = Directives::of(alloc, &entry.fields)?;
    if lifetime_under_policy(policy, entry.status, &entry.fields, &directives).seconds > 0 {
        Ok(Some(Awaited::Expired(entry.serial)))
    } else {
        Ok(None)
    }
}

/// What a request could be sent of the answer to another, which this rule keeps from the chosen response.
pub(crate) fn response_awaited_by_request(
    alloc: Global,
    policy: Policy,
    asked: &Asked,
    asked_directives: &Directives,
    rule: ReuseRule,
    chosen: Option<&Entry>,
) -> Result<Option<Awaited>, AllocError>
    requires { asked_directives.now ≡ occurrences_of asked.now.fields }
    ensures { IfOk result
        (λ awaited. awaited ≡ response_awaited_by_rule policy (option_copied chosen.entry) asked.now rule) }
{
    if !is_get(asked)
        || (policy.waits_for_stale && no_cache_request_is_heeded(policy, asked_directives, asked))
    {
        return Ok(None);
    }
    if is_uri_miss(rule) {
        return Ok(Some(Awaited::Missing));
    }
    if policy.waits_for_stale && is_staleness_rule(rule) {
        awaited_for_chosen_response(alloc, policy, chosen)
    } else {
        Ok(None)
    }
}
