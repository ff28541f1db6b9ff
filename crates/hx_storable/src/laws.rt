//! What the definitions that `first_rule_against` is held to say of every request and response, and what they give on
//! worked cases: each function's contract is a law, and its body is empty.
ghost use Rattle.std.specs.Prelude.{◌≡◌, ◌∷◌, [], codes, Some, None, true, false};
ghost use Rattle.hx_fields.specs.Examples.{line};
ghost use Rattle.hx_storable.specs.StoringRuleTables.{StoringRulesAreInOrder, EachStoringRuleIsListed};
ghost use Rattle.hx_storable.specs.StoringRuleTables.{PolicyRulesComeLast};
ghost use Rattle.hx_storable.specs.StoringRuleNames.{WordsOfStoringRulesDiffer};
ghost use Rattle.hx_storable.specs.Rules.{rule_against_storing};
ghost use Rattle.hx_storable.specs.Storable.{OnlyStorableResponseIsStored, StorableResponseIsStored};
ghost use Rattle.hx_storable.specs.Storable.{NamedStoringRuleIsLeast};
ghost use Rattle.hx_storable.specs.Storable.{StoringRuleThatIsLeastIsNamed, StoredOnlyWhereNoRuleApplies};
ghost use Rattle.hx_storable.specs.Storable.{NoStoreAloneForbidsStoring};
ghost use Rattle.hx_storable.specs.Storable.{NoStoreForbidsUnlessUnderstood, RequestNoStoreForbidsStoring};
ghost use Rattle.hx_storable.specs.Storable.{PrivateForbidsStoring};
ghost use Rattle.hx_storable.specs.Storable.{AuthorizationForbidsStoring, A206Or304IsNeverStored};
ghost use Rattle.hx_storable.specs.Storable.{OnlyAnswersToGetAreStored};
ghost use Rattle.hx_storable.specs.Storable.{CachingOffForbidsStoring};
ghost use Rattle.hx_storable.specs.LineWordsInStoring.{PolicyForbidsStoringSetCookieUnlessPublic};
ghost use Rattle.hx_storable.specs.LineWordsInStoring.{PolicyForbidsStoringErrorStatus};
ghost use Rattle.hx_storable.specs.LineWordsInStoring.{PolicyOnlyForbidsStoring};
ghost use Rattle.hx_storable.specs.LineWordsInStoring.{StoredWherePolicyAllowsIt, RequestCredentialsGetNoLifetime};
ghost use Rattle.hx_storable.specs.LineWordsInStoring.{DefaultPolicyForbidsOnlyByCachingOff};
ghost use Rattle.hx_storable.specs.LineWordsInStoring.{DefaultPolicyStoresSetCookie};
ghost use Rattle.hx_storable.specs.LineWordsInStoring.{DefaultPolicyStoresErrors, DefaultPolicyStoresForRequestCookies};
ghost use Rattle.hx_storable.specs.LineWordsInStoring.{DefaultPolicyNeedsNoPolicyRules};
ghost use Rattle.hx_storable.specs.LineWordsInStoring.{DefaultPolicyStoresNothingForARange};
ghost use Rattle.hx_storable.specs.LineWordsInStoring.{SetCookieIsNotStoredByLineLifetime};
ghost use Rattle.hx_storable.specs.Cases.{get_of_a_range, facts_of_served_ranges};
ghost use Rattle.hx_storable.specs.Cases.{cache_control_fields, get_a_with, get_with_authorization, answer_with};
ghost use Rattle.hx_storable.specs.Cases.{storable_facts, facts_with_vary_star};
ghost use Rattle.hx_storable.specs.Cases.{facts_with_vary_star_and_field_in_connection};
ghost use Rattle.hx_storable.specs.Cases.{facts_of_uncached_line, facts_with_caching_on, login_page};
ghost use Rattle.hx_storable.specs.Cases.{answer_fresh_a_minute};
ghost use Rattle.hx_storable.specs.Cases.{facts_without_cookie_storing, facts_without_error_storing, get_with_cookie};
ghost use Rattle.hx_storable.specs.Cases.{facts_without_lifetime_for_request_cookies};
ghost use Rattle.hx_storable.specs.Cases.{facts_with_lifetime_for_request_cookies, page_with_cookie};
ghost use Rattle.hx_storable.specs.Cases.{facts_without_cookie_lifetime};
ghost use Rattle.hx_storable.specs.Cases.{facts_with_cookies_removed};

use crate::{StoreRule, StoringFacts};

/// A response is stored exactly where RFC 9111, section 3 lets a shared cache store it, and this cache has a use and
/// room for it.
pub fn stored_where_it_may_be_stored()
    ensures every { StorableResponseIsStored }
    ensures only { OnlyStorableResponseIsStored }
{}

/// The rule that is named stands, and none of a smaller number does; where none is named none stands.
pub fn the_least_storage_rule_is_named()
    ensures least { NamedStoringRuleIsLeast }
    ensures every { StoringRuleThatIsLeastIsNamed }
    ensures none { StoredOnlyWhereNoRuleApplies }
{}

/// no-store forbids storing, whether the response has it (where must-understand doesn't lift it) or the request.
pub fn no_store_is_never_stored()
    ensures response { NoStoreAloneForbidsStoring }
    ensures not_understood { NoStoreForbidsUnlessUnderstood }
    ensures request { RequestNoStoreForbidsStoring }
{}

/// What is for one user alone is never stored.
pub fn private_and_authorization_forbid_storing()
    ensures private { PrivateForbidsStoring }
    ensures authorized { AuthorizationForbidsStoring }
{}

/// No part of a representation is stored, and nothing that another method than GET asked for.
pub fn only_whole_answers_to_get_are_stored()
    ensures part { A206Or304IsNeverStored }
    ensures method { OnlyAnswersToGetAreStored }
{}

/// What the operator keeps from the store is never stored, whatever the origin says of it.
pub fn nothing_is_stored_with_caching_off()
    ensures { CachingOffForbidsStoring }
{}

/// Where the operator stores no cookies, none is stored for others than the one whom it was set for.
#[tactic(auto, unfolding(crate::specs::Rules::rule_against_storing))]
pub fn set_cookie_is_not_stored_where_policy_forbids()
    ensures every { PolicyForbidsStoringSetCookieUnlessPublic }
    ensures login_page { rule_against_storing (get_a_with []) (login_page (codes "max-age=60")) facts_without_cookie_storing
        ≡ Some StoreRule.SetCookie }
    ensures public { rule_against_storing (get_a_with []) (login_page (codes "public, max-age=60")) facts_without_cookie_storing ≡ None }
    ensures without_the_word { rule_against_storing (get_a_with []) (login_page (codes "max-age=60")) storable_facts ≡ None }
    ensures public_without_the_word { rule_against_storing (get_a_with [])
        (login_page (codes "public, max-age=60")) storable_facts ≡ None }
    ensures no_cookie { rule_against_storing (get_a_with []) (answer_fresh_a_minute 200) facts_without_cookie_storing
        ≡ None }
    ensures errors_alone { rule_against_storing (get_a_with [])
        (login_page (codes "max-age=60")) facts_without_error_storing ≡ None }
{}

/// Where the operator gives his lifetimes to no response with Set-Cookie, one that has no public isn't stored for
/// others where nothing but the line would let it be sent to them. Where he has cookies removed it is stored as any.
#[tactic(auto, unfolding(crate::specs::Rules::rule_against_storing))]
pub fn set_cookie_is_not_stored_by_policy_lifetime()
    ensures every { SetCookieIsNotStoredByLineLifetime }
    ensures page { rule_against_storing (get_a_with []) (page_with_cookie 200 []) facts_without_cookie_lifetime
        ≡ Some StoreRule.SetCookie }
    ensures redirect { rule_against_storing (get_a_with []) (page_with_cookie 301 []) facts_without_cookie_lifetime
        ≡ Some StoreRule.SetCookie }
    ensures with_a_tag { rule_against_storing (get_a_with []) (page_with_cookie 200 (line (codes "ETag") (codes "\"a\"") ∷ []))
        facts_without_cookie_lifetime ≡ Some StoreRule.SetCookie }
    ensures public { rule_against_storing (get_a_with []) (login_page (codes "public")) facts_without_cookie_lifetime ≡ None }
    ensures max_age { rule_against_storing (get_a_with []) (login_page (codes "max-age=60")) facts_without_cookie_lifetime
        ≡ None }
    ensures s_maxage { rule_against_storing (get_a_with []) (login_page (codes "s-maxage=60")) facts_without_cookie_lifetime
        ≡ None }
    ensures expires { rule_against_storing (get_a_with [])
        (page_with_cookie 200 (line (codes "Expires") (codes "0") ∷ [])) facts_without_cookie_lifetime ≡ None }
    ensures not_given { rule_against_storing (get_a_with []) (page_with_cookie 404 []) facts_without_cookie_lifetime
        ≡ None }
    ensures no_cookie { rule_against_storing (get_a_with []) (answer_with 200 []) facts_without_cookie_lifetime ≡ None }
    ensures given { rule_against_storing (get_a_with [])
        (page_with_cookie 200 []) facts_with_lifetime_for_request_cookies
        ≡ None }
    ensures removed { rule_against_storing (get_a_with []) (page_with_cookie 200 []) facts_with_cookies_removed ≡ None }
    ensures removed_private { rule_against_storing (get_a_with []) (login_page (codes "private")) facts_with_cookies_removed
        ≡ Some StoreRule.Private }
{}

/// Where the operator stores no errors, none is stored whose status isn't heuristically cacheable,
/// however long it lasts.
#[tactic(auto, unfolding(crate::specs::Rules::rule_against_storing))]
pub fn errors_are_not_stored_where_policy_forbids()
    ensures every { PolicyForbidsStoringErrorStatus }
    ensures bad_request { rule_against_storing (get_a_with []) (answer_fresh_a_minute 400) facts_without_error_storing
        ≡ Some StoreRule.ErrorStatus }
    ensures unauthorized { rule_against_storing (get_a_with []) (answer_fresh_a_minute 401) facts_without_error_storing
        ≡ Some StoreRule.ErrorStatus }
    ensures forbidden { rule_against_storing (get_a_with []) (answer_fresh_a_minute 403) facts_without_error_storing
        ≡ Some StoreRule.ErrorStatus }
    ensures server_error { rule_against_storing (get_a_with []) (answer_fresh_a_minute 500) facts_without_error_storing
        ≡ Some StoreRule.ErrorStatus }
    ensures unavailable { rule_against_storing (get_a_with []) (answer_fresh_a_minute 503) facts_without_error_storing
        ≡ Some StoreRule.ErrorStatus }
    ensures not_found { rule_against_storing (get_a_with []) (answer_fresh_a_minute 404) facts_without_error_storing
        ≡ None }
    ensures not_allowed { rule_against_storing (get_a_with []) (answer_fresh_a_minute 405) facts_without_error_storing
        ≡ None }
    ensures gone { rule_against_storing (get_a_with []) (answer_fresh_a_minute 410) facts_without_error_storing ≡ None }
    ensures too_long { rule_against_storing (get_a_with []) (answer_fresh_a_minute 414) facts_without_error_storing
        ≡ None }
    ensures not_implemented { rule_against_storing (get_a_with [])
        (answer_fresh_a_minute 501) facts_without_error_storing
        ≡ None }
    ensures found { rule_against_storing (get_a_with []) (answer_fresh_a_minute 302) facts_without_error_storing
        ≡ None }
    ensures found_without_the_word { rule_against_storing (get_a_with []) (answer_fresh_a_minute 302) storable_facts
        ≡ None }
    ensures bad_request_without_the_word { rule_against_storing (get_a_with [])
        (answer_fresh_a_minute 400) storable_facts
        ≡ None }
    ensures cookies_alone { rule_against_storing (get_a_with [])
        (answer_fresh_a_minute 400) facts_without_cookie_storing
        ≡ None }
{}

/// Over a line that has ranges cut from what is stored the whole answer to a request for one is stored as any, which an
/// origin without ranges gives; a part isn't, nor that a range is wrong (RFC 9110, sections 14.2 and 15.5.17).
#[tactic(auto, unfolding(crate::specs::Rules::rule_against_storing))]
pub fn worked_whole_answers_to_ranges()
    ensures whole { rule_against_storing get_of_a_range (answer_fresh_a_minute 200) facts_of_served_ranges ≡ None }
    ensures not_found { rule_against_storing get_of_a_range (answer_fresh_a_minute 404) facts_of_served_ranges ≡ None }
    ensures part { rule_against_storing get_of_a_range (answer_fresh_a_minute 206) facts_of_served_ranges
        ≡ Some StoreRule.Status }
    ensures unsatisfied { rule_against_storing get_of_a_range (answer_fresh_a_minute 416) facts_of_served_ranges
        ≡ Some StoreRule.Bypass }
    ensures unsatisfied_without_a_range { rule_against_storing (get_a_with [])
        (answer_fresh_a_minute 416) facts_of_served_ranges
        ≡ None }
    ensures forwarded { rule_against_storing get_of_a_range (answer_fresh_a_minute 200) storable_facts
        ≡ Some StoreRule.Bypass }
{}

/// Where the operator gives his lifetimes to no request with Cookie or Authorization, the response to one that has no
/// public isn't stored for others where nothing but the line would let it be sent to them.
#[tactic(auto, unfolding(crate::specs::Rules::rule_against_storing))]
pub fn cookie_requests_are_not_stored_by_policy_lifetime()
    ensures every { RequestCredentialsGetNoLifetime }
    ensures cookie { rule_against_storing get_with_cookie
        (answer_with 200 []) facts_without_lifetime_for_request_cookies
        ≡ Some StoreRule.RequestCookie }
    ensures authorization { rule_against_storing get_with_authorization
        (answer_with 200 (cache_control_fields (codes "must-revalidate"))) facts_without_lifetime_for_request_cookies
        ≡ Some StoreRule.RequestCookie }
    ensures redirect { rule_against_storing get_with_cookie
        (answer_with 301 []) facts_without_lifetime_for_request_cookies
        ≡ Some StoreRule.RequestCookie }
    ensures public { rule_against_storing get_with_cookie (answer_with 200 (cache_control_fields (codes "public")))
        facts_without_lifetime_for_request_cookies ≡ None }
    ensures max_age { rule_against_storing get_with_cookie
        (answer_fresh_a_minute 200) facts_without_lifetime_for_request_cookies
        ≡ None }
    ensures unreadable { rule_against_storing get_with_cookie (answer_with 200 (cache_control_fields (codes "max-age=x")))
        facts_without_lifetime_for_request_cookies ≡ None }
    ensures s_maxage { rule_against_storing get_with_authorization
        (answer_with 200 (cache_control_fields (codes "s-maxage=60"))) facts_without_lifetime_for_request_cookies ≡ None }
    ensures expires { rule_against_storing get_with_cookie (answer_with 200 (line (codes "Expires") (codes "0") ∷ []))
        facts_without_lifetime_for_request_cookies ≡ None }
    ensures no_cookie { rule_against_storing (get_a_with [])
        (answer_with 200 []) facts_without_lifetime_for_request_cookies ≡ None }
    ensures not_given { rule_against_storing get_with_cookie
        (answer_with 404 []) facts_without_lifetime_for_request_cookies ≡ None }
    ensures without_a_lifetime { rule_against_storing get_with_cookie (answer_with 200 []) storable_facts ≡ None }
    ensures shared { rule_against_storing get_with_cookie (answer_with 200 []) facts_with_lifetime_for_request_cookies
        ≡ None }
    ensures private_first { rule_against_storing get_with_cookie (answer_with 200 (cache_control_fields (codes "private")))
        facts_without_lifetime_for_request_cookies ≡ Some StoreRule.Private }
{}

/// The words of a line but that on ranges keep a response from the store, or do nothing: what is stored with them is
/// stored without them, and what they allow is stored as without them.
pub fn policy_only_forbids_storing()
    ensures only { PolicyOnlyForbidsStoring }
    ensures no_more { StoredWherePolicyAllowsIt }
{}

/// With a line that has no words the least rule is what it would be if there were none: the
/// operator's stands where the line doesn't cache, those of the words never, and a request for a range goes past the
/// store.
pub fn default_policy_follows_the_standard_alone()
    ensures operator { DefaultPolicyForbidsOnlyByCachingOff }
    ensures cookies { DefaultPolicyStoresSetCookie }
    ensures errors { DefaultPolicyStoresErrors }
    ensures requests_with_cookies { DefaultPolicyStoresForRequestCookies }
    ensures ranges { DefaultPolicyStoresNothingForARange }
    ensures others { DefaultPolicyNeedsNoPolicyRules }
{}

/// The least number, where several rules stand, and the operator's doesn't.
#[tactic(auto, unfolding(crate::specs::Rules::rule_against_storing))]
pub fn worked_least_storage_rules(facts: StoringFacts)
    ensures status { rule_against_storing (get_a_with []) (answer_with 206 (cache_control_fields (codes "must-understand")))
        (facts_with_caching_on facts)
        ≡ Some StoreRule.Status }
    ensures must_understand { rule_against_storing (get_a_with (cache_control_fields (codes "no-store")))
        (answer_with 299 (cache_control_fields (codes "must-understand"))) (facts_with_caching_on facts)
        ≡ Some StoreRule.MustUnderstand }
    ensures response_no_store { rule_against_storing (get_a_with (cache_control_fields (codes "no-store")))
        (answer_with 200 (cache_control_fields (codes "no-store"))) (facts_with_caching_on facts)
        ≡ Some StoreRule.ResponseNoStore }
    ensures request_no_store { rule_against_storing (get_a_with (cache_control_fields (codes "no-store")))
        (answer_with 200 (cache_control_fields (codes "private"))) (facts_with_caching_on facts)
        ≡ Some StoreRule.RequestNoStore }
    ensures private { rule_against_storing get_with_authorization (answer_with 200 (cache_control_fields (codes "private")))
        (facts_with_caching_on facts)
        ≡ Some StoreRule.Private }
    ensures authorization { rule_against_storing get_with_authorization (answer_with 299 [])
        (facts_with_caching_on facts)
        ≡ Some StoreRule.Authorization }
    ensures nothing_allows { rule_against_storing (get_a_with [])
        (answer_with 299 (line (codes "Vary") (codes "*") ∷ [])) facts_with_vary_star
        ≡ Some StoreRule.NothingAllows }
    ensures vary_star { rule_against_storing (get_a_with [])
        (answer_with 200 (line (codes "Vary") (codes "*") ∷ [])) facts_with_vary_star_and_field_in_connection
        ≡ Some StoreRule.VaryStar }
{}

/// With a status that is understood, must-understand lifts no-store.
#[tactic(auto, unfolding(crate::specs::Rules::rule_against_storing))]
pub fn must_understand_overrides_no_store()
    ensures { rule_against_storing (get_a_with [])
        (answer_with 200 (cache_control_fields (codes "must-understand, no-store, max-age=60"))) storable_facts ≡ None }
{}

/// For a request with Authorization max-age isn't enough, and public is. A qualified private is a private.
#[tactic(auto, unfolding(crate::specs::Rules::rule_against_storing))]
pub fn authorization_and_private()
    ensures max_age { rule_against_storing get_with_authorization
        (answer_with 200 (cache_control_fields (codes "max-age=60"))) storable_facts
        ≡ Some StoreRule.Authorization }
    ensures public { rule_against_storing get_with_authorization
        (answer_with 200 (cache_control_fields (codes "public, max-age=60"))) storable_facts ≡ None }
    ensures private { rule_against_storing (get_a_with [])
        (answer_with 200 (cache_control_fields (codes "private=\"Set-Cookie, X\", max-age=60"))) storable_facts ≡ Some StoreRule.Private }
{}

/// An answer that nothing else stands against, and one that a later rule stands against too.
#[tactic(auto, unfolding(crate::specs::Rules::rule_against_storing))]
pub fn line_without_cache()
    ensures lasting { rule_against_storing (get_a_with [])
        (answer_with 200 (cache_control_fields (codes "max-age=60"))) facts_of_uncached_line ≡ Some StoreRule.Operator }
    ensures private { rule_against_storing (get_a_with [])
        (answer_with 200 (cache_control_fields (codes "private"))) facts_of_uncached_line ≡ Some StoreRule.Operator }
    ensures with_cache { rule_against_storing (get_a_with [])
        (answer_with 200 (cache_control_fields (codes "max-age=60"))) storable_facts ≡ None }
{}

/// An answer that states nothing is stored where its status alone allows it, and isn't where it doesn't.
#[tactic(auto, unfolding(crate::specs::Rules::rule_against_storing))]
pub fn worked_status_alone_allows_storing()
    ensures not_found { rule_against_storing (get_a_with []) (answer_with 404 []) storable_facts ≡ None }
    ensures found { rule_against_storing (get_a_with []) (answer_with 302 []) storable_facts
        ≡ Some StoreRule.NothingAllows }
{}

/// Each rule is listed once, in the order of the numbers, and those of the line's words come last.
pub fn storing_rule_lists_are_complete_and_in_order()
    ensures numbers { StoringRulesAreInOrder }
    ensures listed { EachStoringRuleIsListed }
    ensures words { PolicyRulesComeLast }
{}

/// The word of a rule tells it from each other.
pub fn words_tell_storing_rules_apart()
    ensures { WordsOfStoringRulesDiffer }
{}
