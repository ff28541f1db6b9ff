//! What the texts tell their reader.
ghost use Rattle.hx_status.specs.Abouts.{CacheStatusMemberHasTheReason, RefusalTextIsTheReason};
ghost use Rattle.hx_status.specs.Member.{NotStoredNamesTheRule};
ghost use Rattle.hx_status.specs.Refusals.{WordsOfFrameFaultsDiffer, WordsOfFailKindsDiffer};
ghost use Rattle.hx_status.specs.Refusals.{Status403IsOnlyForDenialByTheTable};
ghost use Rattle.hx_status.specs.Refusals.{OnlyALoopHas508};
ghost use Rattle.hx_status.specs.Refusals.{WordsOfTargetFaultsDiffer, TextsOfReuseRulesDiffer, DenialByTheTableHas403};

pub use crate::worked_cases::{
    line_without_cache, stale_if_error_of_response, worked_collapsed_answer_text,
    worked_least_reuse_rules, worked_not_stored_details, worked_stale_if_error_of_request,
    worked_statuses_of_frame_faults, worked_statuses_of_origin_failures,
    worked_statuses_of_target_faults, worked_stored_is_spelled_before_collapsed,
    worked_text_while_revalidating, worked_texts, worked_texts_after_validation,
    worked_texts_of_bypass_rules, worked_texts_of_frame_faults, worked_texts_of_target_faults,
};

/// No two reuse rules are named by the same text, in a refusal as in Cache-Status.
pub fn texts_tell_reuse_rules_apart()
    ensures { TextsOfReuseRulesDiffer }
{}

/// No two faults of messages, of targets or of origins are told by the same word.
pub fn words_tell_faults_apart()
    ensures frame { WordsOfFrameFaultsDiffer }
    ensures target { WordsOfTargetFaultsDiffer }
    ensures kind { WordsOfFailKindsDiffer }
{}

/// 403 is given exactly where no line of the operator's table allows a request (RFC 9110, section 15.5.4), and 508 to
/// loops alone (RFC 5842, section 7.2).
pub fn only_denials_by_the_table_have_403()
    ensures only { Status403IsOnlyForDenialByTheTable }
    ensures loops { OnlyALoopHas508 }
    ensures every { DenialByTheTableHas403 }
{}

/// An answer that isn't stored tells its rule by `not-stored-` and the word of that rule.
pub fn not_stored_names_the_rule()
    ensures { NotStoredNamesTheRule }
{}

/// What is told of a reply as data is what its own line says: the member of Cache-Status has it behind the proxy's
/// name, and Refusal as it stands.
pub fn reason_is_the_text_of_its_header_line()
    ensures member { CacheStatusMemberHasTheReason }
    ensures refusal { RefusalTextIsTheReason }
{}
