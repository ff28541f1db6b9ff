//! What the rules give on worked cases, computed from the definitions: each function's contract is the cases, and its
//! body is empty.
#![tactic(auto, unfolding(crate::specs::Rules::least_reuse_rule_of, crate::specs::Rules::decision_of, crate::specs::ErrorRules::error_rule_against, crate::specs::WhileRevalidating::may_be_sent_while_revalidating))]

ghost use Rattle.std.specs.Prelude.{◌≡◌, ◌∷◌, [], Some, None, Ok, Err, true, false, codes};
ghost use Rattle.hx_fields.specs.Examples.{line};
ghost use Rattle.hx_directives.specs.Answers.{directive_occurs};
ghost use Rattle.hx_directives.specs.declared.names.Directive.TheVariants.{OnlyIfCached};
ghost use Rattle.hx_policy.specs.Policies.{plain};
ghost use Rattle.hx_reuse.specs.Conditions.{withholds_conditions, forwards_client_condition};
ghost use Rattle.hx_reuse.specs.FilledRanges.{fetches_whole_for_range, forwards_range, request_without_filled_range};
ghost use Rattle.hx_reuse.specs.Rules.{decision_of, least_reuse_rule_of};
ghost use Rattle.hx_reuse.specs.ErrorRules.{permission_on_error, least_error_rule_of};
ghost use Rattle.hx_reuse.specs.WhileRevalidating.{may_be_sent_while_revalidating};
ghost use Rattle.hx_reuse.specs.Cases.{while_revalidating_policy, stale_while_revalidate_policy};
ghost use Rattle.hx_reuse.specs.Cases.{cache_control_fields, accept_language_line, get_a_with, get_b_in_german};
ghost use Rattle.hx_reuse.specs.Cases.{get_a_with_content};
ghost use Rattle.hx_reuse.specs.Cases.{purged_at, example_response_stored_at, stored_with_cache_control};
ghost use Rattle.hx_reuse.specs.Cases.{one_held_with_cache_control};
ghost use Rattle.hx_reuse.specs.Cases.{one_held_in_german, one_held_with_etag, request_directives};
ghost use Rattle.hx_reuse.specs.Cases.{policy_with_lifetime};
ghost use Rattle.hx_reuse.specs.Cases.{policy_with_error_lifetime, policy_with_greatest_lifetime};
ghost use Rattle.hx_reuse.specs.Cases.{policy_with_stale_if_error, ignore_directives_policy, stored_with_status};
ghost use Rattle.hx_reuse.specs.Cases.{one_held_of_status, language_variant_made_at, no_vary_made_at};
ghost use Rattle.hx_reuse.specs.Cases.{held_english_and_default};
ghost use Rattle.hx_reuse.specs.Cases.{get_a_in_this_language, withhold_conditions_policy, get_a_if_none_match};
ghost use Rattle.hx_reuse.specs.Cases.{serve_ranges_policy, fill_ranges_policy, range_field_of_two_bytes};

use crate::{Decision, ErrorRule, ReuseRule};

/// Stored for a request in German: the same value, none, two lines, and another path.
pub fn vary_values_are_compared()
    ensures same { decision_of (plain true) one_held_in_german (get_a_with (accept_language_line (codes "de") ∷ [])) 1
        ≡ Decision.Hit 1 }
    ensures absent { decision_of (plain true) one_held_in_german (get_a_with []) 1
        ≡ Decision.Forward ReuseRule.VaryMiss None }
    ensures two_lines { decision_of (plain true) one_held_in_german
        (get_a_with (accept_language_line (codes "de") ∷ accept_language_line (codes "en") ∷ [])) 1
        ≡ Decision.Forward ReuseRule.VaryMiss None }
    ensures another_path { decision_of (plain true) one_held_in_german get_b_in_german 1
        ≡ Decision.Forward ReuseRule.UriMiss None }
{}

/// English with a Vary was stored at 100, a default without at 110. An English client gets what was made for it,
/// whatever the order in the store, and its twin in German the default, as who asks in no language.
pub fn worked_response_with_vary_is_preferred()
    ensures english { decision_of (plain true) held_english_and_default (get_a_in_this_language (codes "en")) 120
        ≡ Decision.Hit 1 }
    ensures another_order { decision_of (plain true) (language_variant_made_at 100 1 (codes "en")
        ∷ no_vary_made_at 110 2 ∷ [])
        (get_a_in_this_language (codes "en")) 120 ≡ Decision.Hit 1 }
    ensures german { decision_of (plain true) held_english_and_default (get_a_in_this_language (codes "de")) 120
        ≡ Decision.Hit 2 }
    ensures no_language { decision_of (plain true) held_english_and_default (get_a_with []) 120 ≡ Decision.Hit 2 }
    ensures expired { decision_of (plain true) held_english_and_default (get_a_in_this_language (codes "en")) 165
        ≡ Decision.Forward ReuseRule.NoMaxStale (Some 1) }
{}

/// Two that are alike in this: with a Vary, and without, of two Dates and of one.
pub fn worked_later_response_is_preferred()
    ensures with_vary { decision_of (plain true)
        (language_variant_made_at 110 1 (codes "en") ∷ language_variant_made_at 100 2 (codes "en") ∷ [])
        (get_a_in_this_language (codes "en")) 120 ≡ Decision.Hit 1 }
    ensures with_vary_of_one_date { decision_of (plain true)
        (language_variant_made_at 100 1 (codes "en") ∷ language_variant_made_at 100 2 (codes "en") ∷ [])
        (get_a_in_this_language (codes "en")) 120 ≡ Decision.Hit 2 }
    ensures without { decision_of (plain true) (no_vary_made_at 110 1 ∷ no_vary_made_at 100 2 ∷ []) (get_a_with []) 120
        ≡ Decision.Hit 1 }
    ensures without_of_one_date { decision_of (plain true) (no_vary_made_at 100 2 ∷ no_vary_made_at 100 1 ∷ [])
        (get_a_with []) 120 ≡ Decision.Hit 2 }
{}

/// A response of a minute at 90, stored at 101: it was a second on the way.
pub fn moment_goes_backwards()
    ensures { decision_of (plain true) (example_response_stored_at 101 [] (cache_control_fields (codes "max-age=60")) ∷ [])
        (get_a_with []) 90 ≡ Decision.Hit 1 }
{}

/// A response of a minute, at a minute and a second before.
pub fn age_equal_to_lifetime_is_stale()
    ensures stale { decision_of (plain true) (one_held_with_cache_control (codes "max-age=60")) (get_a_with []) 60
        ≡ Decision.Forward ReuseRule.NoMaxStale (Some 1) }
    ensures fresh { decision_of (plain true) (one_held_with_cache_control (codes "max-age=60")) (get_a_with []) 59
        ≡ Decision.Hit 1 }
{}

/// A response of 6 seconds, asked for with max-age=5. Whether the origin may be asked is no matter of the rule.
pub fn exceeded_request_max_age_forwards()
    ensures max_age { decision_of (plain true) (one_held_with_cache_control (codes "max-age=60"))
        (get_a_with (cache_control_fields (codes "max-age=5"))) 6
        ≡ Decision.Forward ReuseRule.AboveMaxAge (Some 1) }
    ensures only_if_cached { decision_of (plain true) (one_held_with_cache_control (codes "max-age=60"))
        (get_a_with (cache_control_fields (codes "max-age=5, only-if-cached"))) 6 ≡ Decision.Forward ReuseRule.AboveMaxAge (Some 1) }
    ensures is_asked { directive_occurs (request_directives (codes "max-age=5, only-if-cached")) OnlyIfCached ≡ true }
{}

/// Content, a range and a precondition, in this order, with nothing held.
pub fn bypass_rules_in_order()
    ensures content { decision_of (plain true) [] (get_a_with_content (codes "x") (line (codes "Range") (codes "bytes=0-1") ∷ []))
        0 ≡ Decision.Forward ReuseRule.Content None }
    ensures range { decision_of (plain true) [] (get_a_with (line (codes "Range") (codes "bytes=0-1")
        ∷ line (codes "If-Match") (codes "*") ∷ [])) 0 ≡ Decision.Forward ReuseRule.Range None }
    ensures precondition { decision_of (plain true) [] (get_a_with (line (codes "If-Match") (codes "*") ∷ [])) 0
        ≡ Decision.Forward ReuseRule.Precondition None }
    ensures no_byte { decision_of (plain true) [] (get_a_with_content [] []) 0
        ≡ Decision.Forward ReuseRule.UriMiss None }
{}

/// Where the operator keeps a request from the store its rule is the first, with a fresh response
/// at hand and before content.
pub fn line_without_cache()
    ensures fresh { decision_of (plain false) (one_held_with_cache_control (codes "max-age=60")) (get_a_with []) 1
        ≡ Decision.Forward ReuseRule.Operator None }
    ensures content { decision_of (plain false) [] (get_a_with_content (codes "x") []) 0
        ≡ Decision.Forward ReuseRule.Operator None }
    ensures with_cache { decision_of (plain true) (one_held_with_cache_control (codes "max-age=60")) (get_a_with []) 1
        ≡ Decision.Hit 1 }
{}

/// A response that states no lifetime, with an entity tag, at 5.
pub fn no_lifetime_is_only_validated()
    ensures { decision_of (plain true) (one_held_with_etag []) (get_a_with []) 5
        ≡ Decision.Forward ReuseRule.NoLifetime (Some 1) }
{}

/// The least rule, where several stand.
pub fn worked_least_reuse_rules()
    ensures response_no_cache { decision_of (plain true) (one_held_with_cache_control (codes "no-cache, max-age=60"))
        (get_a_with (cache_control_fields (codes "no-cache"))) 1 ≡ Decision.Forward ReuseRule.ResponseNoCache (Some 1) }
    ensures request_no_cache { decision_of (plain true) (one_held_with_cache_control (codes "max-age=60"))
        (get_a_with (cache_control_fields (codes "no-cache, max-age=0"))) 1 ≡ Decision.Forward ReuseRule.RequestNoCache (Some 1) }
    ensures must_revalidate { decision_of (plain true)
        (one_held_with_etag (cache_control_fields (codes "must-revalidate"))) (get_a_with []) 5
        ≡ Decision.Forward ReuseRule.MustRevalidate (Some 1) }
    ensures past_max_stale { decision_of (plain true) (one_held_with_cache_control (codes "max-age=60"))
        (get_a_with (cache_control_fields (codes "max-stale=5, max-age=0"))) 66 ≡ Decision.Forward ReuseRule.PastMaxStale (Some 1) }
{}

/// Of 10 seconds, with stale-if-error=60: stale by 60 and by 61, and with must-revalidate too.
pub fn stale_if_error_of_response()
    ensures stale { decision_of (plain true) (one_held_with_cache_control (codes "max-age=10, stale-if-error=60")) (get_a_with []) 70
        ≡ Decision.Forward ReuseRule.NoMaxStale (Some 1) }
    ensures within { permission_on_error (plain true) (stored_with_cache_control (codes "max-age=10, stale-if-error=60")) [] 70 ≡ Ok tt }
    ensures past { permission_on_error (plain true)
        (stored_with_cache_control (codes "max-age=10, stale-if-error=60")) [] 71 ≡ Err ErrorRule.TooStale }
    ensures forbidden { permission_on_error (plain true)
        (stored_with_cache_control (codes "max-age=10, stale-if-error=60, must-revalidate")) [] 70 ≡ Err ErrorRule.MustRevalidate }
    ensures of_the_chosen { least_error_rule_of (plain true)
        (one_held_with_cache_control (codes "max-age=10, stale-if-error=60")) (get_a_with []) 71 ≡ Some ErrorRule.TooStale }
{}

/// Of 10 seconds, stale by 10: without the directive, and by the request's.
pub fn worked_stale_if_error_of_request()
    ensures none { permission_on_error (plain true) (stored_with_cache_control (codes "max-age=10")) [] 20
        ≡ Err ErrorRule.NoDirective }
    ensures within { permission_on_error (plain true) (stored_with_cache_control (codes "max-age=10"))
        (request_directives (codes "stale-if-error=10")) 20 ≡ Ok tt }
    ensures past { permission_on_error (plain true) (stored_with_cache_control (codes "max-age=10"))
        (request_directives (codes "stale-if-error=9")) 20 ≡ Err ErrorRule.TooStale }
{}

/// The least rule after an error, where several stand; a limit that stands twice is none.
pub fn worked_least_error_rule()
    ensures no_cache { permission_on_error (plain true) (stored_with_cache_control (codes "no-cache, must-revalidate"))
        (request_directives (codes "no-cache")) 20 ≡ Err ErrorRule.NoCache }
    ensures s_maxage { permission_on_error (plain true)
        (stored_with_cache_control (codes "s-maxage=10, stale-if-error=60")) [] 20 ≡ Err ErrorRule.MustRevalidate }
    ensures no_lifetime { permission_on_error (plain true) (stored_with_cache_control (codes "stale-if-error=60"))
        (request_directives (codes "no-cache"))
        20 ≡ Err ErrorRule.NoLifetime }
    ensures request_no_cache { permission_on_error (plain true) (stored_with_cache_control (codes "max-age=10"))
        (request_directives (codes "no-cache"))
        20 ≡ Err ErrorRule.RequestNoCache }
    ensures repeated { permission_on_error (plain true)
        (stored_with_cache_control (codes "max-age=10, stale-if-error=60, stale-if-error=60")) [] 20 ≡ Err ErrorRule.NoDirective }
    ensures lesser { permission_on_error (plain true)
        (stored_with_cache_control (codes "max-age=10, stale-if-error=60")) (request_directives (codes "stale-if-error=x, stale-if-error=9")) 20 ≡ Err ErrorRule.TooStale }
{}

/// A response that states no lifetime, under a line that gives it a minute: fresh at 59 and stale
/// at 60, when a max-stale takes it. One of status 302 isn't given any, nor a 404 by a line that gives
/// errors none, and one of 10 seconds keeps its own.
pub fn worked_lifetime_from_the_line()
    ensures fresh { decision_of (policy_with_lifetime 60) (one_held_of_status 200) (get_a_with []) 59 ≡ Decision.Hit 1 }
    ensures stale { decision_of (policy_with_lifetime 60) (one_held_of_status 200) (get_a_with []) 60
        ≡ Decision.Forward ReuseRule.NoMaxStale (Some 1) }
    ensures taken_stale { decision_of (policy_with_lifetime 60) (one_held_of_status 200)
        (get_a_with (cache_control_fields (codes "max-stale=5"))) 65 ≡ Decision.Hit 1 }
    ensures not_found { decision_of (policy_with_lifetime 60) (one_held_of_status 404) (get_a_with []) 0
        ≡ Decision.Forward ReuseRule.NoLifetime (Some 1) }
    ensures found { decision_of (policy_with_lifetime 60) (one_held_of_status 302) (get_a_with []) 0
        ≡ Decision.Forward ReuseRule.NoLifetime (Some 1) }
    ensures failed { decision_of (policy_with_lifetime 60) (one_held_of_status 500) (get_a_with []) 0
        ≡ Decision.Forward ReuseRule.NoLifetime (Some 1) }
    ensures stated { decision_of (policy_with_lifetime 60) (one_held_with_cache_control (codes "max-age=10")) (get_a_with []) 10
        ≡ Decision.Forward ReuseRule.NoMaxStale (Some 1) }
    ensures stated_for_longer { decision_of (policy_with_lifetime 60) (one_held_with_cache_control (codes "max-age=90"))
        (get_a_with []) 89 ≡ Decision.Hit 1 }
    ensures unreadable { decision_of (policy_with_lifetime 60) (one_held_with_cache_control (codes "max-age=x"))
        (get_a_with []) 0
        ≡ Decision.Forward ReuseRule.NoMaxStale (Some 1) }
    ensures no_cache { decision_of (policy_with_lifetime 60) (one_held_with_cache_control (codes "no-cache")) (get_a_with []) 0
        ≡ Decision.Forward ReuseRule.ResponseNoCache (Some 1) }
    ensures must_revalidate { decision_of (policy_with_lifetime 60) (one_held_with_cache_control (codes "must-revalidate"))
        (get_a_with (cache_control_fields (codes "max-stale"))) 60 ≡ Decision.Forward ReuseRule.MustRevalidate (Some 1) }
    ensures without_the_word { decision_of (plain true) (one_held_of_status 200) (get_a_with []) 0
        ≡ Decision.Forward ReuseRule.NoLifetime (Some 1) }
    ensures on_error { permission_on_error (policy_with_lifetime 10)
        (stored_with_cache_control (codes "stale-if-error=60")) [] 70 ≡ Ok tt }
    ensures past_on_error { permission_on_error (policy_with_lifetime 10)
        (stored_with_cache_control (codes "stale-if-error=60")) [] 71 ≡ Err ErrorRule.TooStale }
    ensures found_on_error { permission_on_error (policy_with_lifetime 10)
        (stored_with_status 302 (cache_control_fields (codes "stale-if-error=60"))) [] 5
        ≡ Err ErrorRule.NoLifetime }
{}

/// Under a line that gives a minute, and errors five seconds: a 404 is fresh at 4 and stale at 5,
/// when a 200 is fresh. A 500 isn't given any, and a 404 of 10 seconds keeps its own.
pub fn worked_lifetime_of_error_statuses()
    ensures fresh { decision_of (policy_with_error_lifetime 60 5) (one_held_of_status 404) (get_a_with []) 4
        ≡ Decision.Hit 1 }
    ensures stale { decision_of (policy_with_error_lifetime 60 5) (one_held_of_status 404) (get_a_with []) 5
        ≡ Decision.Forward ReuseRule.NoMaxStale (Some 1) }
    ensures gone { decision_of (policy_with_error_lifetime 60 5) (one_held_of_status 410) (get_a_with []) 5
        ≡ Decision.Forward ReuseRule.NoMaxStale (Some 1) }
    ensures not_implemented { decision_of (policy_with_error_lifetime 60 5) (one_held_of_status 501) (get_a_with []) 4
        ≡ Decision.Hit 1 }
    ensures found { decision_of (policy_with_error_lifetime 60 5) (one_held_of_status 200) (get_a_with []) 5
        ≡ Decision.Hit 1 }
    ensures failed { decision_of (policy_with_error_lifetime 60 5) (one_held_of_status 500) (get_a_with []) 0
        ≡ Decision.Forward ReuseRule.NoLifetime (Some 1) }
    ensures stated { decision_of (policy_with_error_lifetime 60 5)
        (stored_with_status 404 (cache_control_fields (codes "max-age=10")) ∷ []) (get_a_with []) 9 ≡ Decision.Hit 1 }
    ensures on_error { permission_on_error (policy_with_error_lifetime 60 5)
        (stored_with_status 404 (cache_control_fields (codes "stale-if-error=60"))) [] 65 ≡ Ok tt }
    ensures past_on_error { permission_on_error (policy_with_error_lifetime 60 5)
        (stored_with_status 404 (cache_control_fields (codes "stale-if-error=60"))) [] 66 ≡ Err ErrorRule.TooStale }
{}

/// Under a line that gives an hour and takes a minute at most of what is stated: a response of a year is fresh at 59
/// and stale at 60, when it isn't sent in place of an error for longer than it allows; one of ten seconds keeps its
/// own, one that states none has the hour, and one of no second is stale.
pub fn worked_lifetime_limited_by_the_line()
    ensures fresh { decision_of (policy_with_greatest_lifetime 3600 60) (one_held_with_cache_control (codes "max-age=31536000"))
        (get_a_with []) 59 ≡ Decision.Hit 1 }
    ensures stale { decision_of (policy_with_greatest_lifetime 3600 60) (one_held_with_cache_control (codes "max-age=31536000"))
        (get_a_with []) 60 ≡ Decision.Forward ReuseRule.NoMaxStale (Some 1) }
    ensures shared { decision_of (policy_with_greatest_lifetime 3600 60)
        (one_held_with_cache_control (codes "max-age=5, s-maxage=31536000")) (get_a_with []) 59 ≡ Decision.Hit 1 }
    ensures shared_stale { decision_of (policy_with_greatest_lifetime 3600 60)
        (one_held_with_cache_control (codes "s-maxage=31536000")) (get_a_with []) 60
        ≡ Decision.Forward ReuseRule.MustRevalidate (Some 1) }
    ensures as_stated { decision_of (policy_with_greatest_lifetime 3600 60) (one_held_with_cache_control (codes "max-age=60"))
        (get_a_with []) 59 ≡ Decision.Hit 1 }
    ensures shorter { decision_of (policy_with_greatest_lifetime 3600 60) (one_held_with_cache_control (codes "max-age=10"))
        (get_a_with []) 10 ≡ Decision.Forward ReuseRule.NoMaxStale (Some 1) }
    ensures no_second { decision_of (policy_with_greatest_lifetime 3600 60) (one_held_with_cache_control (codes "max-age=0"))
        (get_a_with []) 0 ≡ Decision.Forward ReuseRule.NoMaxStale (Some 1) }
    ensures given { decision_of (policy_with_greatest_lifetime 3600 60) (one_held_of_status 200) (get_a_with []) 3599
        ≡ Decision.Hit 1 }
    ensures given_stale { decision_of (policy_with_greatest_lifetime 3600 60) (one_held_of_status 200)
        (get_a_with []) 3600
        ≡ Decision.Forward ReuseRule.NoMaxStale (Some 1) }
    ensures taken_stale { decision_of (policy_with_greatest_lifetime 3600 60) (one_held_with_cache_control (codes "max-age=31536000"))
        (get_a_with (cache_control_fields (codes "max-stale=5"))) 65 ≡ Decision.Hit 1 }
    ensures past_stale { decision_of (policy_with_greatest_lifetime 3600 60) (one_held_with_cache_control (codes "max-age=31536000"))
        (get_a_with (cache_control_fields (codes "max-stale=5"))) 66 ≡ Decision.Forward ReuseRule.PastMaxStale (Some 1) }
    ensures on_error { permission_on_error (policy_with_greatest_lifetime 3600 60)
        (stored_with_cache_control (codes "max-age=31536000, stale-if-error=60")) [] 120 ≡ Ok tt }
    ensures past_on_error { permission_on_error (policy_with_greatest_lifetime 3600 60)
        (stored_with_cache_control (codes "max-age=31536000, stale-if-error=60")) [] 121 ≡ Err ErrorRule.TooStale }
    ensures without_the_word { decision_of (policy_with_lifetime 3600) (one_held_with_cache_control (codes "max-age=31536000"))
        (get_a_with []) 31535999 ≡ Decision.Hit 1 }
{}

/// A line that heeds no advice of requests, and a response of a minute: what is fresh is sent, what
/// is stale only to a max-stale.
pub fn worked_ignored_request_directives()
    ensures no_cache { decision_of ignore_directives_policy (one_held_with_cache_control (codes "max-age=60"))
        (get_a_with (cache_control_fields (codes "no-cache"))) 1 ≡ Decision.Hit 1 }
    ensures max_age { decision_of ignore_directives_policy (one_held_with_cache_control (codes "max-age=60"))
        (get_a_with (cache_control_fields (codes "max-age=0"))) 1 ≡ Decision.Hit 1 }
    ensures min_fresh { decision_of ignore_directives_policy (one_held_with_cache_control (codes "max-age=60"))
        (get_a_with (cache_control_fields (codes "min-fresh=60"))) 1 ≡ Decision.Hit 1 }
    ensures stale { decision_of ignore_directives_policy (one_held_with_cache_control (codes "max-age=60"))
        (get_a_with (cache_control_fields (codes "no-cache"))) 60
        ≡ Decision.Forward ReuseRule.NoMaxStale (Some 1) }
    ensures max_stale { decision_of ignore_directives_policy (one_held_with_cache_control (codes "max-age=60"))
        (get_a_with (cache_control_fields (codes "max-stale=5"))) 65 ≡ Decision.Hit 1 }
    ensures past_max_stale { decision_of ignore_directives_policy (one_held_with_cache_control (codes "max-age=60"))
        (get_a_with (cache_control_fields (codes "max-stale=5"))) 66
        ≡ Decision.Forward ReuseRule.PastMaxStale (Some 1) }
    ensures max_stale_and_others { decision_of ignore_directives_policy (one_held_with_cache_control (codes "max-age=60"))
        (get_a_with (cache_control_fields (codes "max-stale=5, no-cache, max-age=0, min-fresh=9"))) 65 ≡ Decision.Hit 1 }
    ensures the_responses_own { decision_of ignore_directives_policy
        (one_held_with_cache_control (codes "max-age=60, no-cache")) (get_a_with []) 1
        ≡ Decision.Forward ReuseRule.ResponseNoCache (Some 1) }
    ensures on_error { permission_on_error ignore_directives_policy
        (stored_with_cache_control (codes "max-age=10, stale-if-error=60")) (request_directives (codes "no-cache")) 20 ≡ Ok tt }
    ensures limit_on_error { permission_on_error ignore_directives_policy
        (stored_with_cache_control (codes "max-age=10")) (request_directives (codes "stale-if-error=9"))
        20 ≡ Err ErrorRule.TooStale }
    ensures heeded { decision_of (plain true) (one_held_with_cache_control (codes "max-age=60"))
        (get_a_with (cache_control_fields (codes "max-age=0"))) 1
        ≡ Decision.Forward ReuseRule.AboveMaxAge (Some 1) }
{}

/// A line that allows a minute of staleness after an error, and a response of 10 seconds: stale by
/// 60 and by 61; with a limit of its own, or of the request, or one of these that can't be read;
/// and with what forbids it.
pub fn worked_stale_if_error_of_line()
    ensures within { permission_on_error (policy_with_stale_if_error 60)
        (stored_with_cache_control (codes "max-age=10")) [] 70 ≡ Ok tt }
    ensures past { permission_on_error (policy_with_stale_if_error 60)
        (stored_with_cache_control (codes "max-age=10")) [] 71 ≡ Err ErrorRule.TooStale }
    ensures its_own { permission_on_error (policy_with_stale_if_error 60)
        (stored_with_cache_control (codes "max-age=10, stale-if-error=5")) [] 16 ≡ Err ErrorRule.TooStale }
    ensures its_own_is_longer { permission_on_error (policy_with_stale_if_error 60)
        (stored_with_cache_control (codes "max-age=10, stale-if-error=90")) [] 100 ≡ Ok tt }
    ensures the_requests { permission_on_error (policy_with_stale_if_error 60) (stored_with_cache_control (codes "max-age=10"))
        (request_directives (codes "stale-if-error=5")) 16 ≡ Err ErrorRule.TooStale }
    ensures the_requests_is_longer { permission_on_error (policy_with_stale_if_error 60)
        (stored_with_cache_control (codes "max-age=10")) (request_directives (codes "stale-if-error=90")) 100 ≡ Ok tt }
    ensures unreadable { permission_on_error (policy_with_stale_if_error 60)
        (stored_with_cache_control (codes "max-age=10, stale-if-error=x")) [] 20 ≡ Err ErrorRule.NoDirective }
    ensures the_requests_is_unreadable { permission_on_error (policy_with_stale_if_error 60)
        (stored_with_cache_control (codes "max-age=10"))
        (request_directives (codes "stale-if-error=x")) 20 ≡ Err ErrorRule.NoDirective }
    ensures no_cache { permission_on_error (policy_with_stale_if_error 60)
        (stored_with_cache_control (codes "max-age=10, no-cache")) [] 20 ≡ Err ErrorRule.NoCache }
    ensures must_revalidate { permission_on_error (policy_with_stale_if_error 60)
        (stored_with_cache_control (codes "max-age=10, must-revalidate")) [] 20 ≡ Err ErrorRule.MustRevalidate }
    ensures s_maxage { permission_on_error (policy_with_stale_if_error 60)
        (stored_with_cache_control (codes "s-maxage=10")) [] 20 ≡ Err ErrorRule.MustRevalidate }
    ensures no_lifetime { permission_on_error (policy_with_stale_if_error 60) (stored_with_status 200 []) [] 1
        ≡ Err ErrorRule.NoLifetime }
    ensures the_requests_no_cache { permission_on_error (policy_with_stale_if_error 60)
        (stored_with_cache_control (codes "max-age=10"))
        (request_directives (codes "no-cache")) 20 ≡ Err ErrorRule.RequestNoCache }
    ensures stale_all_the_same { decision_of (policy_with_stale_if_error 60)
        (one_held_with_cache_control (codes "max-age=10")) (get_a_with []) 20
        ≡ Decision.Forward ReuseRule.NoMaxStale (Some 1) }
    ensures with_a_lifetime { permission_on_error (record (policy_with_stale_if_error 60) { lifetime = Some 10 })
        (stored_with_status 200 []) [] 70
        ≡ Ok tt }
{}

/// Of ten minutes, received at 0 and expired by a purge at 100: a moment before, at that moment, and to requests that
/// take what is stale by 5. Stale by 30 and by 31 with what allows 30 after an error or while it is validated; and with
/// what forbids to send it stale.
pub fn worked_purged_response()
    ensures before { decision_of (plain true) (purged_at 100 (stored_with_cache_control (codes "max-age=600")) ∷ [])
        (get_a_with []) 99 ≡ Decision.Hit 1 }
    ensures at_once { decision_of (plain true) (purged_at 100 (stored_with_cache_control (codes "max-age=600")) ∷ [])
        (get_a_with []) 100 ≡ Decision.Forward ReuseRule.NoMaxStale (Some 1) }
    ensures by_5 { decision_of (plain true) (purged_at 100 (stored_with_cache_control (codes "max-age=600")) ∷ [])
        (get_a_with (cache_control_fields (codes "max-stale=5"))) 105 ≡ Decision.Hit 1 }
    ensures by_6 { decision_of (plain true) (purged_at 100 (stored_with_cache_control (codes "max-age=600")) ∷ [])
        (get_a_with (cache_control_fields (codes "max-stale=5"))) 106
        ≡ Decision.Forward ReuseRule.PastMaxStale (Some 1) }
    ensures must_revalidate { decision_of (plain true)
        (purged_at 100 (stored_with_cache_control (codes "max-age=600, must-revalidate")) ∷ [])
        (get_a_with (cache_control_fields (codes "max-stale"))) 100
        ≡ Decision.Forward ReuseRule.MustRevalidate (Some 1) }
    ensures given { decision_of (policy_with_lifetime 600) (purged_at 100 (stored_with_cache_control (codes "")) ∷ [])
        (get_a_with []) 100 ≡ Decision.Forward ReuseRule.NoMaxStale (Some 1) }
    ensures error_by_30 { permission_on_error (plain true)
        (purged_at 100 (stored_with_cache_control (codes "max-age=600, stale-if-error=30"))) [] 130 ≡ Ok tt }
    ensures error_by_31 { permission_on_error (plain true)
        (purged_at 100 (stored_with_cache_control (codes "max-age=600, stale-if-error=30"))) [] 131
        ≡ Err ErrorRule.TooStale }
    ensures error_of_purged_stale { permission_on_error (plain true)
        (purged_at 700 (stored_with_cache_control (codes "max-age=600, stale-if-error=30"))) [] 700
        ≡ Err ErrorRule.TooStale }
    ensures meanwhile_before { may_be_sent_while_revalidating while_revalidating_policy
        (purged_at 100 (stored_with_cache_control (codes "max-age=600, stale-while-revalidate=30"))) [] 99 ≡ false }
    ensures meanwhile_by_30 { may_be_sent_while_revalidating while_revalidating_policy
        (purged_at 100 (stored_with_cache_control (codes "max-age=600, stale-while-revalidate=30"))) [] 130 ≡ true }
    ensures meanwhile_by_31 { may_be_sent_while_revalidating while_revalidating_policy
        (purged_at 100 (stored_with_cache_control (codes "max-age=600, stale-while-revalidate=30"))) [] 131 ≡ false }
{}

/// Of ten minutes and thirty seconds more, the example of RFC 5861, section 3, while a GET is at the origin for it:
/// fresh, stale by 0, by 30 and by 31; with what forbids it, and to requests that don't take it.
pub fn worked_stale_while_revalidate_of_response()
    ensures fresh { may_be_sent_while_revalidating while_revalidating_policy
        (stored_with_cache_control (codes "max-age=600, stale-while-revalidate=30")) [] 599 ≡ false }
    ensures just_stale { may_be_sent_while_revalidating while_revalidating_policy
        (stored_with_cache_control (codes "max-age=600, stale-while-revalidate=30")) [] 600 ≡ true }
    ensures within { may_be_sent_while_revalidating while_revalidating_policy
        (stored_with_cache_control (codes "max-age=600, stale-while-revalidate=30")) [] 630 ≡ true }
    ensures past { may_be_sent_while_revalidating while_revalidating_policy
        (stored_with_cache_control (codes "max-age=600, stale-while-revalidate=30")) [] 631 ≡ false }
    ensures without { may_be_sent_while_revalidating while_revalidating_policy
        (stored_with_cache_control (codes "max-age=600")) [] 600 ≡ false }
    ensures over_a_plain_line { may_be_sent_while_revalidating (plain true)
        (stored_with_cache_control (codes "max-age=600, stale-while-revalidate=30")) [] 630 ≡ false }
    ensures twice { may_be_sent_while_revalidating while_revalidating_policy
        (stored_with_cache_control (codes "max-age=600, stale-while-revalidate=30, stale-while-revalidate=30")) [] 630
        ≡ false }
    ensures without_seconds { may_be_sent_while_revalidating while_revalidating_policy
        (stored_with_cache_control (codes "max-age=600, stale-while-revalidate")) [] 600 ≡ false }
    ensures no_cache { may_be_sent_while_revalidating while_revalidating_policy
        (stored_with_cache_control (codes "max-age=600, stale-while-revalidate=30, no-cache")) [] 630 ≡ false }
    ensures must_revalidate { may_be_sent_while_revalidating while_revalidating_policy
        (stored_with_cache_control (codes "max-age=600, stale-while-revalidate=30, must-revalidate")) [] 630 ≡ false }
    ensures proxy_revalidate { may_be_sent_while_revalidating while_revalidating_policy
        (stored_with_cache_control (codes "max-age=600, stale-while-revalidate=30, proxy-revalidate")) [] 630 ≡ false }
    ensures s_maxage { may_be_sent_while_revalidating while_revalidating_policy
        (stored_with_cache_control (codes "s-maxage=600, stale-while-revalidate=30")) [] 630 ≡ false }
    ensures no_lifetime { may_be_sent_while_revalidating while_revalidating_policy
        (stored_with_cache_control (codes "stale-while-revalidate=30")) [] 1 ≡ false }
    ensures to_no_cache { may_be_sent_while_revalidating while_revalidating_policy
        (stored_with_cache_control (codes "max-age=600, stale-while-revalidate=30")) (request_directives (codes "no-cache"))
        630 ≡ false }
    ensures to_max_age { may_be_sent_while_revalidating while_revalidating_policy
        (stored_with_cache_control (codes "max-age=600, stale-while-revalidate=30"))
        (request_directives (codes "max-age=629")) 630 ≡ false }
    ensures to_a_longer_max_age { may_be_sent_while_revalidating while_revalidating_policy
        (stored_with_cache_control (codes "max-age=600, stale-while-revalidate=30"))
        (request_directives (codes "max-age=630")) 630 ≡ true }
    ensures to_min_fresh { may_be_sent_while_revalidating while_revalidating_policy
        (stored_with_cache_control (codes "max-age=600, stale-while-revalidate=30"))
        (request_directives (codes "min-fresh=0")) 630 ≡ false }
    ensures to_max_stale { may_be_sent_while_revalidating while_revalidating_policy
        (stored_with_cache_control (codes "max-age=600, stale-while-revalidate=30"))
        (request_directives (codes "max-stale=29")) 630 ≡ false }
    ensures to_a_longer_max_stale { may_be_sent_while_revalidating while_revalidating_policy
        (stored_with_cache_control (codes "max-age=600, stale-while-revalidate=30"))
        (request_directives (codes "max-stale=31")) 631 ≡ false }
    ensures not_heeded { may_be_sent_while_revalidating (record while_revalidating_policy { heeds_requests = false })
        (stored_with_cache_control (codes "max-age=600, stale-while-revalidate=30"))
        (request_directives (codes "no-cache, max-age=0, min-fresh=1")) 630 ≡ true }
{}

/// Under a line that allows a minute, of ten seconds: stale by 60 and by 61, with a limit of its own, and one that
/// can't be read; without a lifetime but the line's; and over one that doesn't send so.
pub fn worked_stale_while_revalidate_of_line()
    ensures within { may_be_sent_while_revalidating (stale_while_revalidate_policy 60)
        (stored_with_cache_control (codes "max-age=10")) [] 70 ≡ true }
    ensures past { may_be_sent_while_revalidating (stale_while_revalidate_policy 60)
        (stored_with_cache_control (codes "max-age=10")) [] 71 ≡ false }
    ensures its_own { may_be_sent_while_revalidating (stale_while_revalidate_policy 60)
        (stored_with_cache_control (codes "max-age=10, stale-while-revalidate=5")) [] 16 ≡ false }
    ensures its_own_is_longer { may_be_sent_while_revalidating (stale_while_revalidate_policy 60)
        (stored_with_cache_control (codes "max-age=10, stale-while-revalidate=90")) [] 100 ≡ true }
    ensures unreadable { may_be_sent_while_revalidating (stale_while_revalidate_policy 60)
        (stored_with_cache_control (codes "max-age=10, stale-while-revalidate=x")) [] 20 ≡ false }
    ensures must_revalidate { may_be_sent_while_revalidating (stale_while_revalidate_policy 60)
        (stored_with_cache_control (codes "max-age=10, must-revalidate")) [] 20 ≡ false }
    ensures of_the_lines_lifetime { may_be_sent_while_revalidating
        (record (stale_while_revalidate_policy 60) { lifetime = Some 10 }) (stored_with_status 200 []) [] 70 ≡ true }
    ensures no_second { may_be_sent_while_revalidating (stale_while_revalidate_policy 0)
        (stored_with_cache_control (codes "max-age=10")) [] 10 ≡ true }
    ensures past_no_second { may_be_sent_while_revalidating (stale_while_revalidate_policy 0)
        (stored_with_cache_control (codes "max-age=10")) [] 11 ≡ false }
    ensures another_word { may_be_sent_while_revalidating
        (record while_revalidating_policy { stale_if_error = Some 60 })
        (stored_with_cache_control (codes "max-age=10, stale-if-error=60")) [] 20 ≡ false }
    ensures over_a_line_that_does_not { may_be_sent_while_revalidating
        (record (stale_while_revalidate_policy 60) { sends_while_revalidating = false })
        (stored_with_cache_control (codes "max-age=10")) [] 20 ≡ false }
{}

/// Requests for a range over a line that has them cut from what is stored, of a fresh response, a stale one and none;
/// and over a line that forwards them.
pub fn worked_answered_ranges()
    ensures fresh { decision_of serve_ranges_policy (one_held_with_cache_control (codes "max-age=60"))
        (get_a_with range_field_of_two_bytes) 1 ≡ Decision.Hit 1 }
    ensures if_range_alone { decision_of serve_ranges_policy (one_held_with_cache_control (codes "max-age=60"))
        (get_a_with (line (codes "If-Range") (codes "\"e\"") ∷ [])) 1 ≡ Decision.Hit 1 }
    ensures stale { decision_of serve_ranges_policy (one_held_with_cache_control (codes "max-age=60"))
        (get_a_with range_field_of_two_bytes) 60 ≡ Decision.Forward ReuseRule.NoMaxStale (Some 1) }
    ensures missing { decision_of serve_ranges_policy [] (get_a_with range_field_of_two_bytes) 0
        ≡ Decision.Forward ReuseRule.UriMiss None }
    ensures with_precondition { decision_of serve_ranges_policy (one_held_with_cache_control (codes "max-age=60"))
        (get_a_with (line (codes "If-Match") (codes "*") ∷ range_field_of_two_bytes)) 1
        ≡ Decision.Forward ReuseRule.Precondition None }
    ensures forwarded { decision_of (plain true) (one_held_with_cache_control (codes "max-age=60"))
        (get_a_with range_field_of_two_bytes) 1 ≡ Decision.Forward ReuseRule.Range None }
    ensures if_range_forwarded { decision_of (plain true) (one_held_with_cache_control (codes "max-age=60"))
        (get_a_with (line (codes "If-Range") (codes "\"e\"") ∷ [])) 1 ≡ Decision.Forward ReuseRule.Range None }
{}

/// Ranges over a line that fills them: those of a GET that a stored response could answer, and what goes to the origin
/// in place of its request.
pub fn worked_filled_ranges()
    ensures range { fetches_whole_for_range fill_ranges_policy (get_a_with range_field_of_two_bytes) ≡ true }
    ensures if_range { fetches_whole_for_range fill_ranges_policy (get_a_with (line (codes "If-Range") (codes "\"e\"")
        ∷ [])) ≡ true }
    ensures whole { fetches_whole_for_range fill_ranges_policy (get_a_with []) ≡ false }
    ensures of_a_head { fetches_whole_for_range fill_ranges_policy
        (record (get_a_with range_field_of_two_bytes) { method = codes "HEAD" })
        ≡ false }
    ensures with_content { fetches_whole_for_range fill_ranges_policy
        (get_a_with_content (codes "x") range_field_of_two_bytes) ≡ false }
    ensures beside_if_match { fetches_whole_for_range fill_ranges_policy (get_a_with (line (codes "If-Match") (codes "*")
        ∷ range_field_of_two_bytes)) ≡ false }
    ensures without_cache { fetches_whole_for_range (record fill_ranges_policy { caches = false })
        (get_a_with range_field_of_two_bytes)
        ≡ false }
    ensures served { fetches_whole_for_range serve_ranges_policy (get_a_with range_field_of_two_bytes) ≡ false }
    ensures stays { forwards_range fill_ranges_policy (get_a_with range_field_of_two_bytes) ≡ false }
    ensures goes { forwards_range serve_ranges_policy (get_a_with range_field_of_two_bytes) ≡ true }
    ensures none_goes { forwards_range serve_ranges_policy (get_a_with []) ≡ false }
    ensures forwarded { request_without_filled_range fill_ranges_policy (get_a_with (line (codes "range") (codes "bytes=0-1")
        ∷ accept_language_line (codes "de") ∷ line (codes "If-Range") (codes "\"e\"") ∷ []))
        ≡ get_a_with (accept_language_line (codes "de") ∷ []) }
    ensures forwarded_as_it_is { request_without_filled_range serve_ranges_policy (get_a_with range_field_of_two_bytes)
        ≡ get_a_with range_field_of_two_bytes }
    ensures missing { decision_of fill_ranges_policy [] (get_a_with range_field_of_two_bytes) 0
        ≡ Decision.Forward ReuseRule.UriMiss None }
    ensures condition { withholds_conditions (record fill_ranges_policy { forwards_conditions = false })
        (get_a_if_none_match range_field_of_two_bytes) ≡ true }
{}

/// Conditions of clients over a line that keeps those of a GET that a stored response could answer: which stay, and
/// which go to the origin.
pub fn worked_withheld_conditions()
    ensures kept { withholds_conditions withhold_conditions_policy (get_a_if_none_match []) ≡ true }
    ensures without_any { withholds_conditions withhold_conditions_policy (get_a_with []) ≡ true }
    ensures of_a_head { withholds_conditions withhold_conditions_policy (record
        (get_a_if_none_match []) { method = codes "HEAD" }) ≡ false }
    ensures of_a_range { withholds_conditions withhold_conditions_policy (get_a_if_none_match (line (codes "Range")
        (codes "bytes=0-1") ∷ [])) ≡ false }
    ensures beside_if_match { withholds_conditions withhold_conditions_policy (get_a_if_none_match (line (codes "If-Match")
        (codes "*") ∷ [])) ≡ false }
    ensures with_content { withholds_conditions withhold_conditions_policy (get_a_with_content (codes "x") []) ≡ false }
    ensures without_cache { withholds_conditions (record withhold_conditions_policy { caches = false })
        (get_a_if_none_match [])
        ≡ false }
    ensures by_a_plain_line { withholds_conditions (plain true) (get_a_if_none_match []) ≡ false }
    ensures kept_behind { forwards_client_condition withhold_conditions_policy (get_a_if_none_match []) ≡ false }
    ensures tag { forwards_client_condition (plain true) (get_a_if_none_match []) ≡ true }
    ensures date { forwards_client_condition (plain true) (get_a_with (line (codes "If-Modified-Since") (codes "x") ∷ [])) ≡ true }
    ensures none { forwards_client_condition (plain true) (get_a_with (accept_language_line (codes "de") ∷ [])) ≡ false }
    ensures range { forwards_client_condition withhold_conditions_policy (get_a_if_none_match (line (codes "Range")
        (codes "bytes=0-1") ∷ [])) ≡ true }
{}
