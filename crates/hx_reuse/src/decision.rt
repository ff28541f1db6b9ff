//! What is done with a request: the least rule that stands, or the response that may be sent.
ghost use Rattle.std.specs.Prelude.{◌≡◌, ◌==◌, if◌then◌else◌, length, true, IfOk};
ghost use Rattle.hx_directives.specs.Occurrences.{occurrences_of};
ghost use Rattle.hx_store.specs.Shelf.{serials_of_key};
ghost use Rattle.hx_reuse.specs.declared.rule.ReuseRule.TheVariants.{UriMiss, VaryMiss};
ghost use Rattle.hx_reuse.specs.Rules.{decision_of};

use crate::chosen::preferred_of_serials;
use crate::reuse_rules::{least_rule_on_chosen, least_rule_on_request};
use crate::rule::ReuseRule;
use hx_directives::Directives;
use hx_hop::Asked;
use hx_policy::Policy;
use hx_store::Shelf;
use hx_target::Key;
use std::alloc::{AllocError, Global};

/// What the reuse rules say of a request.
#[derive(Clone, Copy, Debug, PartialEq, Eq)]
pub enum Decision {
    /// No rule stands against the stored response of this serial.
    Hit(u64),
    /// The least rule that stands, and the serial of the response that it stands against, where it stands against one.
    Forward(ReuseRule, Option<u64>),
}

/// What is done with a request at a moment in Unix seconds: its directives, and what its line of
/// the operator's table says of caching, are handed in.
pub fn decide<S: Shelf>(
    alloc: Global,
    asked: &Asked,
    asked_directives: &Directives,
    shelf: &S,
    now: u64,
    policy: Policy,
) -> Result<Decision, AllocError>
    requires { asked_directives.now ≡ occurrences_of asked.now.fields }
    ensures { IfOk result (λ decision. decision ≡ decision_of policy (S.entries shelf.now) asked.now now) }
{
    if policy.caches {
        decide_from_store(alloc, asked, asked_directives, shelf, now, policy)
    } else {
        Ok(Decision::Forward(ReuseRule::Operator, None))
    }
}

/// The same, where a stored response may answer the request.
fn decide_from_store<S: Shelf>(
    alloc: Global,
    asked: &Asked,
    asked_directives: &Directives,
    shelf: &S,
    now: u64,
    policy: Policy,
) -> Result<Decision, AllocError>
    requires directives { asked_directives.now ≡ occurrences_of asked.now.fields }
    requires caches { policy.caches ≡ true }
    ensures { IfOk result (λ decision. decision ≡ decision_of policy (S.entries shelf.now) asked.now now) }
{
    if let Some(rule) = least_rule_on_request(asked, policy) {
        return Ok(Decision::Forward(rule, None));
    }
    let key = &asked.target.key;
    let matching = shelf.find_matching_serials(alloc, key, &asked.fields)?;
    let Some(entry) = preferred_of_serials(shelf, matching.as_slice()) else {
        return Ok(Decision::Forward(miss_rule(shelf, key), None));
    };
    match least_rule_on_chosen(entry, asked, asked_directives, now, policy) {
        Some(rule) => Ok(Decision::Forward(rule, Some(entry.serial))),
        None => Ok(Decision::Hit(entry.serial)),
    }
}

/// What a request misses whose key no held response matches: the key itself, or its values.
fn miss_rule<S: Shelf>(shelf: &S, key: &Key) -> ReuseRule
    ensures { result ≡ (if length (serials_of_key key.now (S.entries shelf.now)) == 0 then UriMiss else VaryMiss) }
{
    if shelf.has_key(key) {
        ReuseRule::VaryMiss
    } else {
        ReuseRule::UriMiss
    }
}
