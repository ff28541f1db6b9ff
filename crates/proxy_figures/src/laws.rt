//! What a reply tells of itself is what it counts as: each function's contract is the law, and its body is empty.
ghost use Rattle.proxy_figures.specs.Counted.{ReasonLabelsMatchCacheStatus, DetailLabelsMatchCacheStatus};
ghost use Rattle.proxy_figures.specs.Counted.{StepDetailLabelsMatchCacheStatus, FailureLabelsMatchRefusal};
ghost use Rattle.proxy_figures.specs.Counted.{MessageFaultLabelsMatchRefusal, TargetFaultLabelsMatchRefusal};
ghost use Rattle.proxy_figures.specs.Counted.{AHitCountsAsAHit, OnlyAHitCountsAsAHit};
ghost use Rattle.proxy_figures.specs.Counted.{ARefusalCountsAtItsCause, OnlyARefusalCountsAtItsCause};
ghost use Rattle.proxy_figures.specs.Counted.{AStoringRuleCountsWhereReported, OnlyItsReportCountsAtAStoringRule};
ghost use Rattle.proxy_figures.specs.Counted.{EachReasonIsListedAtItsRow, EachDetailIsListedAtItsColumn};
ghost use Rattle.proxy_figures.specs.Counted.{EachCauseIsListedAtItsPlace, EachStoringRuleIsListedAtItsPlace};
ghost use Rattle.proxy_figures.specs.Counted.{EachUnansweredCauseIsListedAtItsPlace};
ghost use Rattle.proxy_figures.specs.Counted.{ReplyPlacesAreWithin, CausePlacesAreWithin, StoringRulePlacesAreWithin};
ghost use Rattle.proxy_figures.specs.Counted.{UnansweredPlacesAreWithin};
ghost use Rattle.proxy_figures.specs.Counted.{ReplyPlacesDiffer, CausePlacesDiffer, StoringRulePlacesDiffer};
ghost use Rattle.proxy_figures.specs.LineOrigins.{EachLineHasItsOrigin};

/// A figure has the label that an answer has in Cache-Status, or a refusal in Refusal.
pub fn labels_match_cache_status_and_refusal()
    ensures reason { ReasonLabelsMatchCacheStatus }
    ensures detail { DetailLabelsMatchCacheStatus }
    ensures step { StepDetailLabelsMatchCacheStatus }
    ensures failure { FailureLabelsMatchRefusal }
    ensures message { MessageFaultLabelsMatchRefusal }
    ensures target { TargetFaultLabelsMatchRefusal }
{}

/// A hit counts as a hit, and nothing else does: no answer that went forward, no refusal and no purge.
pub fn only_a_hit_counts_as_a_hit()
    ensures hit { AHitCountsAsAHit }
    ensures only { OnlyAHitCountsAsAHit }
{}

/// A refusal counts at its own cause and at no other, and nothing but a refusal counts at a cause.
pub fn a_refusal_counts_at_its_own_cause()
    ensures own { ARefusalCountsAtItsCause }
    ensures only { OnlyARefusalCountsAtItsCause }
{}

/// An answer that wasn't stored counts at the storing rule that it tells, and nothing else counts there.
pub fn an_answer_counts_at_the_storing_rule_it_reports()
    ensures told { AStoringRuleCountsWhereReported }
    ensures only { OnlyItsReportCountsAtAStoringRule }
{}

/// Each figure stands on the page, and has a place among the counts: a further one with too few of them is refused.
pub fn each_figure_has_a_place()
    ensures reasons { EachReasonIsListedAtItsRow }
    ensures details { EachDetailIsListedAtItsColumn }
    ensures causes { EachCauseIsListedAtItsPlace }
    ensures storing_rules { EachStoringRuleIsListedAtItsPlace }
    ensures unanswered { EachUnansweredCauseIsListedAtItsPlace }
    ensures reply_within { ReplyPlacesAreWithin }
    ensures cause_within { CausePlacesAreWithin }
    ensures storing_rule_within { StoringRulePlacesAreWithin }
    ensures unanswered_within { UnansweredPlacesAreWithin }
{}

/// No two reasons with their details share a place, nor do two causes or two storing rules.
pub fn no_two_figures_share_a_place()
    ensures replies { ReplyPlacesDiffer }
    ensures causes { CausePlacesDiffer }
    ensures storing_rules { StoringRulePlacesDiffer }
{}

/// What is looked up for a line of the table is the place of its own origin.
pub fn each_line_has_its_origin()
    ensures { EachLineHasItsOrigin }
{}
