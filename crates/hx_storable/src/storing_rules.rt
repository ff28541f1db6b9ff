//! The least rule against storing a response.
ghost use Rattle.std.specs.Prelude.{◌≡◌, ◌==◌, ◌||◌, ◌&&◌, not, codes, bytes_eq, find, ◌++◌, ◌∷◌, []};
ghost use Rattle.hx_fields.specs.FieldLines.{has_field as has_line};
ghost use Rattle.hx_directives.specs.Occurrences.{occurrences_of};
ghost use Rattle.hx_directives.specs.Answers.{directive_occurs};
ghost use Rattle.hx_directives.specs.declared.names.Directive.TheVariants as directive;
ghost use Rattle.hx_hop.specs.declared.request_view.Asked.{Asked as AskedFor};
ghost use Rattle.hx_hop.specs.declared.response_view.Answered.{Answered as AnsweredWith};
ghost use Rattle.hx_hop.specs.Bypass.{request_has_content, has_precondition_for_origin};
ghost use Rattle.hx_storable.specs.declared.known_facts.StoringFacts.{StoringFacts as Known};
ghost use Rattle.hx_policy.specs.Policies.{is_heuristic_status};
ghost use Rattle.hx_storable.specs.Rules.{response_has_directive, request_has_cookie_or_authorization};
ghost use Rattle.hx_storable.specs.Rules.{response_states_lifetime};
ghost use Rattle.hx_storable.specs.Rules.{has_lifetime_only_by_policy};
ghost use Rattle.hx_storable.specs.Rules.{is_understood_status, allows_authorized, response_allows_storing};
ghost use Rattle.hx_storable.specs.Rules.{sets_cookie_without_public};
ghost use Rattle.hx_storable.specs.Rules.{answer_may_depend_on_range, is_error_not_heuristically_cacheable};
ghost use Rattle.hx_storable.specs.Rules.{storing_rule_applies, storing_rules_on_facts_alone};
ghost use Rattle.hx_storable.specs.Rules.{storage_rules_from_policy, rule_against_storing, policy_forbids_set_cookie};

use crate::{StoreRule, StoringFacts};
use hx_directives::{Directive, Directives};
use hx_hop::{Answered, Asked};
use hx_policy::{Policy, is_heuristic_status};

fn is_get(asked: &Asked) -> bool
    ensures { result ≡ bytes_eq asked.now.method (codes "GET") }
{
    asked.method.as_str() == "GET"
}

/// Whether an answer is for the range of its request alone.
fn answer_may_depend_on_range(policy: Policy, asked: &Asked, answered: &Answered) -> bool
    ensures { result ≡ answer_may_depend_on_range policy asked.now answered.now }
{
    (policy.forwards_ranges || answered.status == 416) && asked.asks_for_range()
}

fn goes_past_the_cache(policy: Policy, asked: &Asked, answered: &Answered) -> bool
    ensures { result ≡ ((request_has_content asked.now || answer_may_depend_on_range policy asked.now answered.now)
        || has_precondition_for_origin asked.now) }
{
    asked.has_content()
        || answer_may_depend_on_range(policy, asked, answered)
        || asked.has_precondition_for_origin()
}

/// Neither a part of a representation nor a 304 is stored.
fn is_not_whole(status: u16) -> bool
    ensures { result ≡ ((status == 206) || (status == 304)) }
{
    status == 206 || status == 304
}

fn is_understood_status(status: u16) -> bool
    ensures { result ≡ is_understood_status status }
{
    is_heuristic_status(status) && status != 206
}

fn is_not_understood(status: u16, directives: &Directives) -> bool
    ensures { result ≡ (directive_occurs directives.now directive.MustUnderstand && not (is_understood_status status)) }
{
    directives.has(Directive::MustUnderstand) && !is_understood_status(status)
}

fn forbids_storing(directives: &Directives) -> bool
    ensures { result ≡ (directive_occurs directives.now directive.NoStore && not
        (directive_occurs directives.now directive.MustUnderstand)) }
{
    directives.has(Directive::NoStore) && !directives.has(Directive::MustUnderstand)
}

/// Whether a directive lets a shared cache store what was asked for with Authorization.
fn allows_authorized(directives: &Directives) -> bool
    ensures { result ≡ allows_authorized directives.now }
{
    directives.has(Directive::MustRevalidate)
        || directives.has(Directive::Public)
        || directives.has(Directive::SMaxage)
}

fn is_authorized_alone(asked: &Asked, directives: &Directives) -> bool
    ensures { result ≡ (has_line asked.now.fields (codes "Authorization") && not (allows_authorized directives.now)) }
{
    asked.fields.has(b"Authorization") && !allows_authorized(directives)
}

/// Whether something in the response allows it to be stored.
fn response_allows_storing(answered: &Answered, directives: &Directives) -> bool
    requires { directives.now ≡ occurrences_of answered.now.fields }
    ensures { result ≡ response_allows_storing answered.now }
{
    directives.has(Directive::Public)
        || answered.fields.has(b"Expires")
        || directives.has(Directive::MaxAge)
        || directives.has(Directive::SMaxage)
        || is_heuristic_status(answered.status)
}

/// Whether a response sets a cookie, and doesn't say that it is for all.
fn sets_cookie_without_public(answered: &Answered, directives: &Directives) -> bool
    requires { directives.now ≡ occurrences_of answered.now.fields }
    ensures { result ≡ sets_cookie_without_public answered.now }
{
    answered.fields.has(b"Set-Cookie") && !directives.has(Directive::Public)
}

/// Whether a status tells an error that isn't heuristically cacheable.
fn is_error_not_heuristically_cacheable(status: u16) -> bool
    ensures { result ≡ is_error_not_heuristically_cacheable status }
{
    status >= 400 && !is_heuristic_status(status)
}

/// Whether a request tells who asks, by a cookie or by credentials.
fn request_has_cookie_or_authorization(asked: &Asked) -> bool
    ensures { result ≡ request_has_cookie_or_authorization asked.now }
{
    asked.fields.has(b"Cookie") || asked.fields.has(b"Authorization")
}

/// Whether a response says how long it is fresh.
fn response_states_lifetime(answered: &Answered, directives: &Directives) -> bool
    requires { directives.now ≡ occurrences_of answered.now.fields }
    ensures { result ≡ response_states_lifetime answered.now }
{
    directives.has(Directive::SMaxage)
        || directives.has(Directive::MaxAge)
        || answered.fields.has(b"Expires")
}

/// Whether a response doesn't, and the operator's line gives it a lifetime.
fn has_lifetime_only_by_policy(policy: Policy, answered: &Answered, directives: &Directives) -> bool
    requires { directives.now ≡ occurrences_of answered.now.fields }
    ensures { result ≡ has_lifetime_only_by_policy policy answered.now }
{
    !response_states_lifetime(answered, directives)
        && policy.lifetime_given_by_policy(answered.status).is_some()
}

/// Whether a cookie for one keeps a response from the store.
fn policy_forbids_set_cookie(answered: &Answered, directives: &Directives, policy: Policy) -> bool
    requires { directives.now ≡ occurrences_of answered.now.fields }
    ensures { result ≡ policy_forbids_set_cookie policy answered.now }
{
    !policy.stores_cookies
        || (!policy.gives_to_set_cookie
            && has_lifetime_only_by_policy(policy, answered, directives))
}

/// Whether only the line lets a response be fresh that may be for the one who asked, and the line doesn't give it that.
fn is_given_to_someone(
    asked: &Asked,
    answered: &Answered,
    directives: &Directives,
    policy: Policy,
) -> bool
    requires { directives.now ≡ occurrences_of answered.now.fields }
    ensures { result ≡ ((not policy.gives_to_cookies && request_has_cookie_or_authorization asked.now)
        && (has_lifetime_only_by_policy policy answered.now
        && not (response_has_directive answered.now directive.Public))) }
{
    !policy.gives_to_cookies
        && request_has_cookie_or_authorization(asked)
        && has_lifetime_only_by_policy(policy, answered, directives)
        && !directives.has(Directive::Public)
}

fn is_of_no_use(facts: StoringFacts) -> bool
    ensures { result ≡ (not facts.explicit && not facts.validator) }
{
    !facts.explicit && !facts.validator
}

/// The least rule against storing the response to a request, or None where it is stored. The directives of both are
/// handed in. No memory is taken.
#[tactic(auto, unfolding(crate::specs::Rules::rule_against_storing))]
pub fn first_rule_against(
    asked: &Asked,
    asked_directives: &Directives,
    answered: &Answered,
    directives: &Directives,
    facts: StoringFacts,
) -> Option<StoreRule>
    requires request { asked_directives.now ≡ occurrences_of asked.now.fields }
    requires response { directives.now ≡ occurrences_of answered.now.fields }
    ensures { result ≡ rule_against_storing asked.now answered.now facts }
{
    if !facts.policy.caches {
        Some(StoreRule::Operator)
    } else if !is_get(asked) {
        Some(StoreRule::Method)
    } else if goes_past_the_cache(facts.policy, asked, answered) {
        Some(StoreRule::Bypass)
    } else if is_not_whole(answered.status) {
        Some(StoreRule::Status)
    } else if is_not_understood(answered.status, directives) {
        Some(StoreRule::MustUnderstand)
    } else if forbids_storing(directives) {
        Some(StoreRule::ResponseNoStore)
    } else if asked_directives.has(Directive::NoStore) {
        Some(StoreRule::RequestNoStore)
    } else if directives.has(Directive::Private) {
        Some(StoreRule::Private)
    } else if is_authorized_alone(asked, directives) {
        Some(StoreRule::Authorization)
    } else if !response_allows_storing(answered, directives) {
        Some(StoreRule::NothingAllows)
    } else {
        rule_after_the_head(asked, answered, directives, facts)
    }
}

/// The least of the rules on what is known besides the head, and of those that the words of a line add.
fn rule_after_the_head(
    asked: &Asked,
    answered: &Answered,
    directives: &Directives,
    facts: StoringFacts,
) -> Option<StoreRule>
    requires { directives.now ≡ occurrences_of answered.now.fields }
    ensures { result
        ≡ find (λ r. storing_rule_applies r asked.now answered.now facts) (storing_rules_on_facts_alone
        ++ storage_rules_from_policy) }
{
    match rule_on_facts(facts) {
        Some(rule) => Some(rule),
        None => rule_of_words(asked, answered, directives, facts.policy),
    }
}

/// The least of the rules that ask for nothing but what is known besides the head.
fn rule_on_facts(facts: StoringFacts) -> Option<StoreRule>
    ensures { (asked : AskedFor) (answered : AnsweredWith)
        → result ≡ find (λ r. storing_rule_applies r asked answered facts) storing_rules_on_facts_alone }
{
    if facts.vary_star {
        Some(StoreRule::VaryStar)
    } else if facts.listed {
        Some(StoreRule::ConnectionField)
    } else if is_of_no_use(facts) {
        Some(StoreRule::NothingToReuse)
    } else if facts.too_large {
        Some(StoreRule::TooLarge)
    } else if facts.overtaken {
        Some(StoreRule::Overtaken)
    } else if facts.no_serial {
        Some(StoreRule::Serials)
    } else {
        None
    }
}

/// The least of the rules that the words of a line add.
fn rule_of_words(
    asked: &Asked,
    answered: &Answered,
    directives: &Directives,
    policy: Policy,
) -> Option<StoreRule>
    requires { directives.now ≡ occurrences_of answered.now.fields }
    ensures { (facts : Known) → facts.policy ≡ policy
        → result ≡ find (λ r. storing_rule_applies r asked.now answered.now facts) storage_rules_from_policy }
{
    if policy_forbids_set_cookie(answered, directives, policy)
        && sets_cookie_without_public(answered, directives)
    {
        Some(StoreRule::SetCookie)
    } else if !policy.stores_errors && is_error_not_heuristically_cacheable(answered.status) {
        Some(StoreRule::ErrorStatus)
    } else if is_given_to_someone(asked, answered, directives, policy) {
        Some(StoreRule::RequestCookie)
    } else {
        None
    }
}
