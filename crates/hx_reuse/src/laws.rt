//! What the definitions that `decide`, `may_serve_on_error` and `may_serve_while_revalidating` are held to say of every
//! list of held responses, request and moment.
ghost use Rattle.hx_reuse.specs.ChosenAndNamed.{ChosenIsPreferredCandidate, ChosenHasAVaryWhereOneHas};
ghost use Rattle.hx_reuse.specs.ChosenAndNamed.{ChosenIsLatestOfThoseAlikeInVary};
ghost use Rattle.hx_reuse.specs.ChosenAndNamed.{AResponseIsChosenIfAnyMatches, PreferredCandidateIsChosen};
ghost use Rattle.hx_reuse.specs.ChosenAndNamed.{SendableResponseIsSent, OnlySendableResponseIsSent};
ghost use Rattle.hx_reuse.specs.ChosenAndNamed.{AHitIsAStoredResponse};
ghost use Rattle.hx_reuse.specs.ChosenAndNamed.{AHitIsFoundInTheStore};
ghost use Rattle.hx_reuse.specs.ChosenAndNamed.{LeastReuseRuleIsNamed, LeastReuseRuleForwards, UncachedLineForwards};
ghost use Rattle.hx_reuse.specs.ChosenAndNamed.{WordsOfReuseRulesDiffer, WordsOfErrorRulesDiffer};
ghost use Rattle.hx_reuse.specs.Conditions.{ConditionsOfACacheableGetAreWithheld};
ghost use Rattle.hx_reuse.specs.Conditions.{OnlyConditionsOfACacheableGetAreWithheld};
ghost use Rattle.hx_reuse.specs.Conditions.{DefaultPolicyWithholdsNoConditions};
ghost use Rattle.hx_reuse.specs.FilledRanges.{RangeOfACacheableGetFetchesWhole, OnlyRangeOfACacheableGetFetchesWhole};
ghost use Rattle.hx_reuse.specs.FilledRanges.{DefaultPolicyFetchesNoWholeForRange, WholeIsFetchedWithoutRange};
ghost use Rattle.hx_reuse.specs.FilledRanges.{FieldsButRangeAreForwardedUnchanged};
ghost use Rattle.hx_reuse.specs.FilledRanges.{FilledRangeConditionsAreAsForTheWhole};
ghost use Rattle.hx_reuse.specs.Ranges.{RangeDoesNotChangeTheDecision, ForwardedRangesGoPastTheStore};
ghost use Rattle.hx_reuse.specs.Reusable.{ReusableResponseIsSent, OnlyReusableResponseIsSent};
ghost use Rattle.hx_reuse.specs.OnError.{SendableResponseIsSentOnError, OnlySendableResponseIsSentOnError};
ghost use Rattle.hx_reuse.specs.OnError.{NamedErrorRuleIsLeast};
ghost use Rattle.hx_reuse.specs.OnError.{ErrorRuleThatIsLeastIsNamed};
ghost use Rattle.std.specs.Prelude.{◌≡◌, Some, None, codes};
ghost use Rattle.hx_reuse.specs.declared.rule.ReuseRule.TheVariants as rule;
ghost use Rattle.hx_reuse.specs.declared.rule.ErrorRule.TheVariants as on_error;
ghost use Rattle.hx_reuse.specs.RuleNames.{reuse_rule_detail, error_rule_word, reuse_rule_reason};
ghost use Rattle.hx_reuse.specs.PlainLines.{DefaultPolicyLifetimeIsTheStatedOne};
ghost use Rattle.hx_reuse.specs.PlainLines.{DefaultPolicyRuleConditionsAreStandard, DefaultPolicyDecisionIsStandard};
ghost use Rattle.hx_reuse.specs.PlainLines.{DefaultPolicyErrorRulesAreStandard};
ghost use Rattle.hx_reuse.specs.PlainLines.{DefaultPolicyPermissionOnErrorIsStandard};
ghost use Rattle.hx_reuse.specs.LineWordsInReuse.{LifetimeBelowMaximumIsUnchanged, LifetimeAboveMaximumIsTheMaximum};
ghost use Rattle.hx_reuse.specs.LineWordsInReuse.{StatedLifetimeIsNeverLengthened};
ghost use Rattle.hx_reuse.specs.LineWordsInReuse.{StatedLifetimeOverridesOperators};
ghost use Rattle.hx_reuse.specs.LineWordsInReuse.{NonHeuristicStatusGetsNoGivenLifetime};
ghost use Rattle.hx_reuse.specs.LineWordsInReuse.{OperatorsLifetimeCounts, OperatorsErrorLifetimeCounts};
ghost use Rattle.hx_reuse.specs.LineWordsInReuse.{ErrorsGetNoLifetimeWithoutErrorLifetime};
ghost use Rattle.hx_reuse.specs.LineWordsInReuse.{IgnoredRequestDirectivesNeverApply};
ghost use Rattle.hx_reuse.specs.LineWordsInReuse.{IgnoredRequestNoCacheNeverAppliesOnError};
ghost use Rattle.hx_reuse.specs.LineWordsInReuse.{IgnoredRequestDirectivesDecideNothing, OperatorsStaleIfErrorAllows};
ghost use Rattle.hx_reuse.specs.LineWordsInReuse.{OperatorsStaleIfErrorEnds};
ghost use Rattle.hx_reuse.specs.LineWordsInReuse.{StatedStaleIfErrorOverridesOperators};
ghost use Rattle.hx_reuse.specs.Promises.{HitWasStoredForTheSameNominatedValues, HitHasTheNominatedValues};
ghost use Rattle.hx_reuse.specs.Promises.{StaleForbiddenHitIsFresh};
ghost use Rattle.hx_reuse.specs.Promises.{StaleForbiddenHitIsWithinItsOwnLifetime, NoCacheResponseIsNeverAHit};
ghost use Rattle.hx_reuse.specs.Promises.{ForbiddenResponseIsNeverSentOnError};
ghost use Rattle.hx_reuse.specs.Promises.{UnpurgedLifetimeIsUnchanged, StaleForbiddenPurgedIsNeverAHit};
ghost use Rattle.hx_reuse.specs.Promises.{PurgedHitIsSentOnlyWhereStaleMayBe};
ghost use Rattle.hx_reuse.specs.WhileRevalidating.{SendableIsSentWhileRevalidating};
ghost use Rattle.hx_reuse.specs.WhileRevalidating.{OnlySendableIsSentWhileRevalidating};
ghost use Rattle.hx_reuse.specs.WhileRevalidating.{NeverSentWhileRevalidatingWhereForbidden};
ghost use Rattle.hx_reuse.specs.WhileRevalidating.{NothingIsSentWithoutStaleWhileRevalidate};
ghost use Rattle.hx_reuse.specs.WhileRevalidating.{PlainLineSendsNothingWhileRevalidating};
ghost use Rattle.hx_reuse.specs.WhileRevalidating.{StatedWhileRevalidateOverridesOperators};
ghost use Rattle.hx_reuse.specs.RuleTables.{ReuseRulesAreInOrder, EachReuseRuleIsListed, ReuseRulesAreInGroups};
ghost use Rattle.hx_reuse.specs.RuleTables.{RulesOnChosenAreThoseThatNameIt, RulesOnChosenApplyByTheirConditions};
ghost use Rattle.hx_reuse.specs.RuleTables.{RulesNotOnChosenHaveNoCondition};
ghost use Rattle.hx_reuse.specs.RuleTables.{ErrorRulesAreInOrder, EachErrorRuleIsListed};

pub use crate::worked_cases::{
    age_equal_to_lifetime_is_stale, bypass_rules_in_order, exceeded_request_max_age_forwards,
    line_without_cache, moment_goes_backwards, no_lifetime_is_only_validated,
    stale_if_error_of_response, vary_values_are_compared, worked_answered_ranges,
    worked_filled_ranges, worked_ignored_request_directives, worked_later_response_is_preferred,
    worked_least_error_rule, worked_least_reuse_rules, worked_lifetime_from_the_line,
    worked_lifetime_limited_by_the_line, worked_lifetime_of_error_statuses, worked_purged_response,
    worked_response_with_vary_is_preferred, worked_stale_if_error_of_line,
    worked_stale_if_error_of_request, worked_stale_while_revalidate_of_line,
    worked_stale_while_revalidate_of_response, worked_withheld_conditions,
};
use hx_vary::laws::nominated_values_decide_as_the_request_does;

/// The chosen response is held, has the request's key and nominated values, and none that has is
/// preferred to it: it has a Vary where one of them has, and of those that are like it in this none
/// has a later Date. None is chosen only where none has them.
pub fn preferred_of_matching_is_chosen()
    ensures preferred { ChosenIsPreferredCandidate }
    ensures with_vary { ChosenHasAVaryWhereOneHas }
    ensures by_date { ChosenIsLatestOfThoseAlikeInVary }
    ensures some { AResponseIsChosenIfAnyMatches }
    ensures no_other { PreferredCandidateIsChosen }
{}

/// The chosen response is sent exactly where no rule stands.
pub fn chosen_is_sent_iff_no_rule_applies()
    ensures every { SendableResponseIsSent }
    ensures only { OnlySendableResponseIsSent }
{}

/// The serial of a hit is that of a held response, the one that is chosen for the request; the store finds it by that.
pub fn a_hit_is_held()
    ensures held { AHitIsAStoredResponse }
    ensures found { AHitIsFoundInTheStore }
{}

/// A request goes forward exactly where a rule stands, by the least that does; and a rule on a response names it.
pub fn forward_names_the_least_rule()
    ensures least { LeastReuseRuleIsNamed }
    ensures every { LeastReuseRuleForwards }
{}

/// What the operator keeps from the store is never answered from it: the request goes forward, by that rule.
pub fn nothing_is_reused_with_caching_off()
    ensures { UncachedLineForwards }
{}

/// A response is sent exactly where RFC 9111, section 4 lets one be reused that isn't validated first,
/// and the operator doesn't keep the request from the store.
pub fn sent_where_it_may_be_reused()
    ensures every { ReusableResponseIsSent }
    ensures only { OnlyReusableResponseIsSent }
{}

/// In place of an error a response is sent exactly where RFC 5861, section 4 lets it be, and it doesn't forbid that.
pub fn sent_on_error_where_it_may_be()
    ensures every { SendableResponseIsSentOnError }
    ensures only { OnlySendableResponseIsSentOnError }
{}

/// The rule that is named after an error stands, and none of a smaller number does.
pub fn the_least_error_rule_is_named()
    ensures least { NamedErrorRuleIsLeast }
    ensures every { ErrorRuleThatIsLeastIsNamed }
{}

/// A response that is sent without the origin was asked for with the values that the request has of
/// its nominated fields.
pub fn no_other_variant_is_sent()
    ensures { HitHasTheNominatedValues }
{}

/// Of a response that was stored with what its own request had, only a request gets it that has the
/// same values of all that it nominates.
pub fn no_other_requests_variant_is_sent()
    ensures { HitWasStoredForTheSameNominatedValues }
{
    nominated_values_decide_as_the_request_does();
}

/// Whatever a request and the operator's line say, a response with must-revalidate,
/// proxy-revalidate or s-maxage is never sent stale, and one with no-cache never unvalidated; after
/// an error, or while one asks the origin about it, neither is sent.
pub fn forbidden_responses_are_never_sent_unvalidated()
    ensures stale { StaleForbiddenHitIsFresh }
    ensures stated { StaleForbiddenHitIsWithinItsOwnLifetime }
    ensures no_cache { NoCacheResponseIsNeverAHit }
    ensures error { ForbiddenResponseIsNeverSentOnError }
    ensures while_revalidating { NeverSentWhileRevalidatingWhereForbidden }
{}

/// A response that a purge expired is sent from that moment on only where a stale one may be, so never where it forbids
/// to be sent stale. What no purge expired lasts as long as it would without purges.
pub fn a_purged_response_is_sent_only_as_stale()
    ensures stale { PurgedHitIsSentOnlyWhereStaleMayBe }
    ensures forbidden { StaleForbiddenPurgedIsNeverAHit }
    ensures others { UnpurgedLifetimeIsUnchanged }
{}

/// With a line that has no words nothing is asked but what the standards' conditions say, and a
/// response lasts as long as it states; the conditions of clients and their ranges are the origin's.
pub fn default_policy_follows_the_standard_alone()
    ensures lifetime { DefaultPolicyLifetimeIsTheStatedOne }
    ensures rules { DefaultPolicyRuleConditionsAreStandard }
    ensures decision { DefaultPolicyDecisionIsStandard }
    ensures error_rules { DefaultPolicyErrorRulesAreStandard }
    ensures leave { DefaultPolicyPermissionOnErrorIsStandard }
    ensures while_revalidating { PlainLineSendsNothingWhileRevalidating }
    ensures conditions { DefaultPolicyWithholdsNoConditions }
    ensures ranges { DefaultPolicyFetchesNoWholeForRange }
{}

/// The conditions of a client stay with the proxy exactly where its request is a GET that a stored response could
/// answer, the operator lets the store answer it, and the line doesn't forward them.
pub fn conditions_of_a_cacheable_get_are_withheld()
    ensures every { ConditionsOfACacheableGetAreWithheld }
    ensures only { OnlyConditionsOfACacheableGetAreWithheld }
{}

/// A request for a range is decided as one for the whole, over a line that doesn't forward ranges: by the same rules it
/// is sent a stored response, of which its range is a part. Over another line it is sent none (RFC 9110, section 14.2).
pub fn a_range_request_is_decided_as_for_the_whole()
    ensures alike { RangeDoesNotChangeTheDecision }
    ensures forwarded { ForwardedRangesGoPastTheStore }
{}

/// A range is filled exactly where its request is a GET that a stored response could answer, the operator lets the
/// store answer it, and the line says that ranges are filled. Then what goes to the origin is the request for the
/// whole: it has neither Range nor If-Range, each other line of it is as it was, and the conditions of the client stay
/// where those of the request for the whole would (RFC 9110, section 14.2).
pub fn a_range_fetches_the_whole()
    ensures every { RangeOfACacheableGetFetchesWhole }
    ensures only { OnlyRangeOfACacheableGetFetchesWhole }
    ensures forwarded { WholeIsFetchedWithoutRange }
    ensures others { FieldsButRangeAreForwardedUnchanged }
    ensures conditions { FilledRangeConditionsAreAsForTheWhole }
{}

/// The lifetime that a line gives changes nothing of a response that states its own, nor of any other
/// whose status isn't heuristically cacheable, nor of any other error where the line gives errors none.
pub fn operators_lifetime_never_replaces_a_stated_one()
    ensures stated { StatedLifetimeOverridesOperators }
    ensures other_status { NonHeuristicStatusGetsNoGivenLifetime }
    ensures errors { ErrorsGetNoLifetimeWithoutErrorLifetime }
{}

/// What a response states counts up to the line's most, and as the most beyond it: it never counts for longer than it
/// states.
pub fn a_stated_lifetime_is_capped_by_the_line()
    ensures within { LifetimeBelowMaximumIsUnchanged }
    ensures beyond { LifetimeAboveMaximumIsTheMaximum }
    ensures never_longer { StatedLifetimeIsNeverLengthened }
{}

/// To any other response it gives a lifetime that counts as stated.
pub fn operators_lifetime_counts_as_stated()
    ensures others { OperatorsLifetimeCounts }
    ensures errors { OperatorsErrorLifetimeCounts }
{}

/// Where a line doesn't heed what requests want, no rule on a request's no-cache, max-age or
/// min-fresh stands, and requests that differ in nothing else are answered alike.
pub fn ignored_request_directives_decide_nothing()
    ensures rules { IgnoredRequestDirectivesNeverApply }
    ensures on_error { IgnoredRequestNoCacheNeverAppliesOnError }
    ensures decision { IgnoredRequestDirectivesDecideNothing }
{}

/// The staleness that a line allows after an error counts where neither the response nor the
/// request has stale-if-error, and changes nothing where either has.
pub fn the_operators_stale_if_error_counts()
    ensures within { OperatorsStaleIfErrorAllows }
    ensures past { OperatorsStaleIfErrorEnds }
    ensures stated { StatedStaleIfErrorOverridesOperators }
{}

/// While one asks the origin about it a stale response is sent exactly where RFC 5861, section 3 lets it be, over a
/// line that says so, it doesn't forbid that and the request takes it.
pub fn sent_while_revalidating_where_it_may_be()
    ensures every { SendableIsSentWhileRevalidating }
    ensures only { OnlySendableIsSentWhileRevalidating }
{}

/// The staleness that a line allows meanwhile counts where the response doesn't have stale-while-revalidate, and
/// changes nothing where it has; where neither says one nothing is sent.
pub fn the_operators_stale_while_revalidate_counts()
    ensures without { NothingIsSentWithoutStaleWhileRevalidate }
    ensures stated { StatedWhileRevalidateOverridesOperators }
{}

/// Each rule is listed once, in the order of the numbers. Those on the chosen response are named with it, and each of
/// them stands by its own condition; no other rule has a condition on a response.
pub fn rule_lists_are_complete_and_in_order()
    ensures numbers { ReuseRulesAreInOrder }
    ensures listed { EachReuseRuleIsListed }
    ensures groups { ReuseRulesAreInGroups }
    ensures named { RulesOnChosenAreThoseThatNameIt }
    ensures chosen { RulesOnChosenApplyByTheirConditions }
    ensures others { RulesNotOnChosenHaveNoCondition }
    ensures error_numbers { ErrorRulesAreInOrder }
    ensures error_listed { EachErrorRuleIsListed }
{}

/// No two reuse rules have the same reason and detail, and no two rules after an error the same word.
pub fn cache_status_words_tell_rules_apart()
    ensures reuse { WordsOfReuseRulesDiffer }
    ensures error { WordsOfErrorRulesDiffer }
{}

/// The reason of each rule (RFC 9211, section 2.2).
pub fn worked_reasons_of_reuse_rules()
    ensures operator { reuse_rule_reason rule.Operator ≡ codes "bypass" }
    ensures method { reuse_rule_reason rule.Method ≡ codes "method" }
    ensures content { reuse_rule_reason rule.Content ≡ codes "bypass" }
    ensures range { reuse_rule_reason rule.Range ≡ codes "bypass" }
    ensures precondition { reuse_rule_reason rule.Precondition ≡ codes "bypass" }
    ensures uri_miss { reuse_rule_reason rule.UriMiss ≡ codes "uri-miss" }
    ensures vary_miss { reuse_rule_reason rule.VaryMiss ≡ codes "vary-miss" }
    ensures response_no_cache { reuse_rule_reason rule.ResponseNoCache ≡ codes "stale" }
    ensures request_no_cache { reuse_rule_reason rule.RequestNoCache ≡ codes "request" }
    ensures above_max_age { reuse_rule_reason rule.AboveMaxAge ≡ codes "request" }
    ensures below_min_fresh { reuse_rule_reason rule.BelowMinFresh ≡ codes "request" }
    ensures must_revalidate { reuse_rule_reason rule.MustRevalidate ≡ codes "stale" }
    ensures no_lifetime { reuse_rule_reason rule.NoLifetime ≡ codes "stale" }
    ensures stale_no_cache { reuse_rule_reason rule.StaleNoCache ≡ codes "stale" }
    ensures no_max_stale { reuse_rule_reason rule.NoMaxStale ≡ codes "stale" }
    ensures past_max_stale { reuse_rule_reason rule.PastMaxStale ≡ codes "stale" }
    ensures stale_max_age { reuse_rule_reason rule.StaleMaxAge ≡ codes "stale" }
    ensures stale_min_fresh { reuse_rule_reason rule.StaleMinFresh ≡ codes "stale" }
{}

/// And the detail that tells it from others of its reason (RFC 9211, section 2.8).
pub fn worked_details_of_reuse_rules()
    ensures operator { reuse_rule_detail rule.Operator ≡ Some (codes "operator") }
    ensures method { reuse_rule_detail rule.Method ≡ None }
    ensures content { reuse_rule_detail rule.Content ≡ Some (codes "content") }
    ensures range { reuse_rule_detail rule.Range ≡ Some (codes "range") }
    ensures precondition { reuse_rule_detail rule.Precondition ≡ Some (codes "precondition") }
    ensures uri_miss { reuse_rule_detail rule.UriMiss ≡ None }
    ensures vary_miss { reuse_rule_detail rule.VaryMiss ≡ None }
    ensures response_no_cache { reuse_rule_detail rule.ResponseNoCache ≡ Some (codes "response-no-cache") }
    ensures request_no_cache { reuse_rule_detail rule.RequestNoCache ≡ Some (codes "no-cache") }
    ensures above_max_age { reuse_rule_detail rule.AboveMaxAge ≡ Some (codes "max-age") }
    ensures below_min_fresh { reuse_rule_detail rule.BelowMinFresh ≡ Some (codes "min-fresh") }
    ensures must_revalidate { reuse_rule_detail rule.MustRevalidate ≡ Some (codes "must-revalidate") }
    ensures no_lifetime { reuse_rule_detail rule.NoLifetime ≡ Some (codes "no-lifetime") }
    ensures stale_no_cache { reuse_rule_detail rule.StaleNoCache ≡ Some (codes "no-cache") }
    ensures no_max_stale { reuse_rule_detail rule.NoMaxStale ≡ None }
    ensures past_max_stale { reuse_rule_detail rule.PastMaxStale ≡ Some (codes "max-stale") }
    ensures stale_max_age { reuse_rule_detail rule.StaleMaxAge ≡ Some (codes "max-age") }
    ensures stale_min_fresh { reuse_rule_detail rule.StaleMinFresh ≡ Some (codes "min-fresh") }
{}

/// The words of the rules after an error.
pub fn worked_words_of_error_rules()
    ensures no_cache { error_rule_word on_error.NoCache ≡ codes "no-cache" }
    ensures must_revalidate { error_rule_word on_error.MustRevalidate ≡ codes "must-revalidate" }
    ensures no_lifetime { error_rule_word on_error.NoLifetime ≡ codes "no-lifetime" }
    ensures request_no_cache { error_rule_word on_error.RequestNoCache ≡ codes "request-no-cache" }
    ensures no_directive { error_rule_word on_error.NoDirective ≡ codes "no-directive" }
    ensures too_stale { error_rule_word on_error.TooStale ≡ codes "too-stale" }
{}
