//! What the definitions of `specs/` say together, and what they give on worked cases: each function's contract is a
//! law, and its body is empty.
ghost use Rattle.std.specs.Prelude.{◌≡◌, [], ◌∷◌, codes, true, false, Some, None};
ghost use Rattle.hx_fields.specs.Examples.{line};
ghost use Rattle.hx_age.specs.Age.{lifetime_shortened_by_purge, times_of_message};
ghost use Rattle.hx_age.specs.Lifetime.{explicit_lifetime, lifetime_of};
ghost use Rattle.hx_validate.specs.Answering.{freshened_fields, freshened_of};
ghost use Rattle.hx_validate.specs.Cases.{answered_304_with, asked_get_with, first_304_fields, first_stored_fields};
ghost use Rattle.hx_validate.specs.Cases.{first_stored_expired_at_130};
ghost use Rattle.hx_validate.specs.Cases.{stored_fields_validated_by_304, many_lines};
ghost use Rattle.hx_validate.specs.Cases.{last_modified_line, example_304_lines, if_none_match_line};
ghost use Rattle.hx_validate.specs.Cases.{example_stored_lines};
ghost use Rattle.hx_validate.specs.Cases.{if_modified_since_line, stored_with_fields};
ghost use Rattle.hx_validate.specs.Cases.{etag_line, asked_and_stored_fields_give_304};
ghost use Rattle.hx_validate.specs.EntityTags.{is_tag_byte, strong_eq, entity_tag_of, weak_eq};
ghost use Rattle.hx_validate.specs.Identified.{A304AnswersOnlyTheStoredItIdentifies, A304AnswersTheStoredItIdentifies};
ghost use Rattle.hx_validate.specs.Identified.{A304FreshensOnlyAStoredOfItsTag};
ghost use Rattle.hx_validate.specs.Identified.{A304WithSeveralTagsAnswersNothing};
ghost use Rattle.hx_validate.specs.TagsAndFreshening.{EqualityIsSymmetric, LengthAndAgeAreUnchangedBy304};
ghost use Rattle.hx_validate.specs.TagsAndFreshening.{OtherStoredFieldsAreUnchanged};
ghost use Rattle.hx_validate.specs.TagsAndFreshening.{FresheningChangesOnlyFieldsAndTimes};
ghost use Rattle.hx_validate.specs.TagsAndFreshening.{FreshenedIsNominatedByNewFields};
ghost use Rattle.hx_validate.specs.TagsAndFreshening.{FreshenedWithVaryStarNominatesNothing};
ghost use Rattle.hx_validate.specs.TagsAndFreshening.{EachEntityTagSpellingIsRead};
ghost use Rattle.hx_validate.specs.TagsAndFreshening.{EntityTagIsOfTheGrammar, FieldsOf304ReplaceStoredOnes};
ghost use Rattle.hx_validate.specs.TagsAndFreshening.{StrongEqualityImpliesWeak, A304WithTheSameTagAnswers};
ghost use Rattle.hx_validate.specs.ClientConditions.{FalseClientConditionGets304, OnlyFalseClientConditionGets304};
ghost use Rattle.hx_validate.specs.ClientConditions.{AnswerThatGets304GetsItFromTheStore};
ghost use Rattle.hx_validate.specs.NotModified.{fields_of_304, stored_gets_304, answer_gets_304};
ghost use Rattle.hx_validate.specs.NotModified.{fields_of_304_from_answer};
ghost use Rattle.hx_validate.specs.Room.{LeftRoomHoldsAddedLines, FittingLinesLeaveRoom, HeadRoomIsExactToTheByte};
ghost use Rattle.hx_validate.specs.Room.{head_leaves_room};
ghost use Rattle.hx_validate.specs.Validators.{validating_conditions_of, has_validator};

/// Entity tags are those of the grammar, and no others.
pub fn entity_tags_are_those_of_the_grammar()
    ensures only_these { EntityTagIsOfTheGrammar }
    ensures each { EachEntityTagSpellingIsRead }
{}

/// Strong equality is the narrower of the two, and both go both ways.
pub fn entity_tag_equality_is_symmetric()
    ensures narrower { StrongEqualityImpliesWeak }
    ensures turned { EqualityIsSymmetric }
{}

/// A 304 replaces the lines of its names and no others.
pub fn a_304_replaces_the_fields_it_has()
    ensures replaced { FieldsOf304ReplaceStoredOnes }
    ensures others { OtherStoredFieldsAreUnchanged }
    ensures own { LengthAndAgeAreUnchangedBy304 }
{}

/// A 304 that gives the entity tag back answers.
pub fn a_304_with_the_same_tag_answers()
    ensures { A304WithTheSameTagAnswers }
{}

/// A 304 answers exactly the stored response whose validators were sent and that it names (RFC 9111, section 4.3.4).
pub fn a_304_answers_what_it_identifies()
    ensures every { A304AnswersTheStoredItIdentifies }
    ensures only { A304AnswersOnlyTheStoredItIdentifies }
{}

/// So it never freshens one whose own tag doesn't agree with its tag, and with two tags none.
pub fn a_304_never_freshens_another()
    ensures another { A304FreshensOnlyAStoredOfItsTag }
    ensures several { A304WithSeveralTagsAnswersNothing }
{}

/// The standard's four pairs, and values that are no entity tags.
pub fn worked_entity_tag_comparisons()
    ensures both_weak { strong_eq (codes "W/\"1\"") (codes "W/\"1\"") ≡ false }
    ensures both_weak_weakly { weak_eq (codes "W/\"1\"") (codes "W/\"1\"") ≡ true }
    ensures other_weak { strong_eq (codes "W/\"1\"") (codes "W/\"2\"") ≡ false }
    ensures other_weakly { weak_eq (codes "W/\"1\"") (codes "W/\"2\"") ≡ false }
    ensures one_weak { strong_eq (codes "W/\"1\"") (codes "\"1\"") ≡ false }
    ensures one_weakly { weak_eq (codes "W/\"1\"") (codes "\"1\"") ≡ true }
    ensures strong { strong_eq (codes "\"1\"") (codes "\"1\"") ≡ true }
    ensures strong_weakly { weak_eq (codes "\"1\"") (codes "\"1\"") ≡ true }
    ensures bare { weak_eq (codes "1") (codes "1") ≡ false }
    ensures lower_case { entity_tag_of (codes "w/\"1\"") ≡ None }
    ensures a_space { entity_tag_of (codes "\"a b\"") ≡ None }
    ensures inner_quote { entity_tag_of (codes "\"a\"b\"") ≡ None }
    ensures one_quote { entity_tag_of (codes "\"") ≡ None }
    ensures empty { entity_tag_of (codes "\"\"") ≡ Some (record { weak = false; opaque = [] }) }
{}

/// A validator stands once, and is well formed.
#[tactic(auto, unfolding(httpdate::proofs::OnLiterals::httpdate_on_literals))]
pub fn worked_validators()
    ensures tag { validating_conditions_of (etag_line (codes "W/\"e\"") ∷ [])
        ≡ record { etag = Some (codes "W/\"e\""); modified = None } }
    ensures date { validating_conditions_of (last_modified_line (codes "Thu, 01 Jan 1970 00:00:05 GMT") ∷ [])
        ≡ record { etag = None; modified = Some (codes "Thu, 01 Jan 1970 00:00:05 GMT") } }
    ensures has_tag { has_validator (etag_line (codes "W/\"e\"") ∷ []) ≡ true }
    ensures has_date { has_validator (last_modified_line (codes "Thu, 01 Jan 1970 00:00:05 GMT") ∷ []) ≡ true }
    ensures tags { has_validator (etag_line (codes "\"e\"") ∷ etag_line (codes "\"e\"") ∷ []) ≡ false }
    ensures no_tag { has_validator (etag_line (codes "e") ∷ []) ≡ false }
    ensures no_date { has_validator (last_modified_line (codes "Thu, 1 Jan 1970 00:00:05 GMT") ∷ []) ≡ false }
{}

/// A stored response with a weak tag: a 304 with the same tag, a strong one, two, one that is none, and none at all.
/// With a Last-Modified: a 304 of the same, of a later one, in two halves, with a tag.
#[tactic(auto, unfolding(httpdate::proofs::OnLiterals::httpdate_on_literals))]
pub fn worked_304s_that_validate()
    ensures same { stored_fields_validated_by_304 (etag_line (codes "W/\"e\"") ∷ []) (etag_line (codes "W/\"e\"") ∷ []) ≡ true }
    ensures strong { stored_fields_validated_by_304 (etag_line (codes "W/\"e\"") ∷ []) (etag_line (codes "\"e\"") ∷ []) ≡ false }
    ensures two { stored_fields_validated_by_304 (etag_line (codes "W/\"e\"") ∷ []) (etag_line (codes "\"e\"") ∷ etag_line
        (codes "\"e\"") ∷ []) ≡ false }
    ensures malformed { stored_fields_validated_by_304 (etag_line (codes "W/\"e\"") ∷ []) (etag_line (codes "e") ∷ []) ≡ false }
    ensures none { stored_fields_validated_by_304 (etag_line (codes "W/\"e\"") ∷ []) [] ≡ true }
    ensures weak { stored_fields_validated_by_304 (etag_line (codes "\"e\"") ∷ []) (etag_line (codes "W/\"e\"") ∷ []) ≡ true }
    ensures other { stored_fields_validated_by_304 (etag_line (codes "\"foo\"") ∷ []) (etag_line (codes "\"bar\"") ∷ []) ≡ false }
    ensures same_date { stored_fields_validated_by_304 (last_modified_line (codes "Thu, 01 Jan 1970 00:00:05 GMT") ∷ [])
        (last_modified_line (codes "Thu, 01 Jan 1970 00:00:05 GMT") ∷ []) ≡ true }
    ensures later { stored_fields_validated_by_304 (last_modified_line (codes "Thu, 01 Jan 1970 00:00:05 GMT") ∷ [])
        (last_modified_line (codes "Thu, 01 Jan 1970 00:00:06 GMT") ∷ []) ≡ false }
    ensures halves { stored_fields_validated_by_304 (last_modified_line (codes "Thu, 01 Jan 1970 00:00:05 GMT")
        ∷ []) (last_modified_line (codes "Thu") ∷ last_modified_line (codes "01 Jan 1970 00:00:05 GMT") ∷ []) ≡ false }
    ensures first_tag { stored_fields_validated_by_304 (last_modified_line (codes "Thu, 01 Jan 1970 00:00:05 GMT")
        ∷ []) (last_modified_line (codes "Thu, 01 Jan 1970 00:00:05 GMT") ∷ etag_line (codes "\"foo\"") ∷ []) ≡ false }
{}

/// Lines of a name go by those of the 304, whatever their number; the length and the age stay.
pub fn worked_freshened_fields()
    ensures { freshened_fields example_stored_lines example_304_lines
        ≡ line (codes "X") (codes "2") ∷ line (codes "Age") (codes "3") ∷ line (codes "Content-Length") (codes "5")
        ∷ line (codes "foo") (codes "6") ∷ line (codes "Foo") (codes "8") ∷ line (codes "Y") (codes "9") ∷ [] }
{}

/// The client sent the tag that the 304 gave back: it gets a 304 of the freshened lines.
#[tactic(auto, unfolding(httpdate::proofs::OnLiterals::httpdate_on_literals, crate::specs::Answering::freshened_of))]
pub fn client_304_after_validation()
    ensures answered { stored_fields_validated_by_304 first_stored_fields first_304_fields ≡ true }
    ensures freshened { (freshened_of [] (stored_with_fields first_stored_fields) (answered_304_with first_304_fields)
        (asked_get_with []) (times_of_message first_304_fields 160 160)).fields ≡ first_304_fields }
    ensures wanted { stored_gets_304 (asked_get_with (line (codes "If-None-Match") (codes "\"v1\"")
        ∷ [])) (stored_with_fields first_304_fields) ≡ true }
    ensures sent { fields_of_304 first_304_fields ≡ first_304_fields }
    ensures no_modified { fields_of_304 (last_modified_line (codes "x") ∷ etag_line (codes "e")
        ∷ line (codes "Content-Type") (codes "text/plain") ∷ line (codes "vary") (codes "a") ∷ [])
        ≡ etag_line (codes "e") ∷ line (codes "vary") (codes "a") ∷ [] }
    ensures modified { fields_of_304 (last_modified_line (codes "x") ∷ []) ≡ last_modified_line (codes "x") ∷ [] }
{}

/// A purge at 130 left half a minute of a minute. The 304 at 160 ends that: its moments are without a purge.
#[tactic(auto, unfolding(httpdate::proofs::OnLiterals::httpdate_on_literals, crate::specs::Answering::freshened_of))]
pub fn worked_304_ends_effect_of_purge()
    ensures purged { lifetime_shortened_by_purge first_stored_expired_at_130.times
        (lifetime_of first_stored_expired_at_130.fields)
        ≡ explicit_lifetime 30 }
    ensures moments { (freshened_of [] first_stored_expired_at_130 (answered_304_with first_304_fields)
        (asked_get_with [])
        (times_of_message first_304_fields 160 160)).times
        ≡ record { date = 160; age_value = 0; request_time = 160; response_time = 160; expired = None } }
    ensures fresh { lifetime_shortened_by_purge (times_of_message first_304_fields 160 160)
        (lifetime_of first_304_fields)
        ≡ explicit_lifetime 60 }
{}

/// If-None-Match decides alone where it stands: by a star, or by weak equality with a member.
#[tactic(auto, unfolding(httpdate::proofs::OnLiterals::httpdate_on_literals))]
pub fn worked_if_none_match()
    ensures star { asked_and_stored_fields_give_304 (if_none_match_line (codes "*") ∷ []) [] ≡ true }
    ensures equal { asked_and_stored_fields_give_304 (if_none_match_line (codes "\"e\"") ∷ [])
        (etag_line (codes "\"e\"") ∷ []) ≡ true }
    ensures weak { asked_and_stored_fields_give_304 (if_none_match_line (codes "W/\"e\"") ∷ [])
        (etag_line (codes "\"e\"") ∷ []) ≡ true }
    ensures second { asked_and_stored_fields_give_304 (if_none_match_line (codes "\"a, b\", \"e\"") ∷ [])
        (etag_line (codes "W/\"e\"") ∷ []) ≡ true }
    ensures second_line { asked_and_stored_fields_give_304
        (if_none_match_line (codes "\"a\"") ∷ if_none_match_line (codes "\"e\"")
        ∷ []) (etag_line (codes "\"e\"") ∷ []) ≡ true }
    ensures other { asked_and_stored_fields_give_304 (if_none_match_line (codes "\"f\"") ∷ [])
        (etag_line (codes "\"e\"") ∷ []) ≡ false }
    ensures star_among { asked_and_stored_fields_give_304 (if_none_match_line (codes "*, \"f\"") ∷ [])
        (etag_line (codes "\"e\"") ∷ []) ≡ false }
    ensures two_stars { asked_and_stored_fields_give_304
        (if_none_match_line (codes "*") ∷ if_none_match_line (codes "*") ∷ [])
        (etag_line (codes "\"e\"") ∷ [])
        ≡ false }
    ensures no_tag { asked_and_stored_fields_give_304 (if_none_match_line (codes "e") ∷ []) (etag_line (codes "e") ∷ [])
        ≡ false }
    ensures hides { asked_and_stored_fields_give_304 (if_none_match_line (codes "\"f\"") ∷ if_modified_since_line
        (codes "Thu, 01 Jan 1970 00:00:05 GMT") ∷ []) (last_modified_line (codes "Thu, 01 Jan 1970 00:00:05 GMT") ∷ []) ≡ false }
    ensures hides_empty { asked_and_stored_fields_give_304 (if_none_match_line [] ∷ if_modified_since_line
        (codes "Thu, 01 Jan 1970 00:00:05 GMT") ∷ []) (last_modified_line (codes "Thu, 01 Jan 1970 00:00:05 GMT") ∷ []) ≡ false }
    ensures hides_earlier { asked_and_stored_fields_give_304
        (if_none_match_line (codes "\"e\"") ∷ if_modified_since_line (codes "Thu, 01 Jan 1970 00:00:04 GMT")
        ∷ []) (etag_line (codes "\"e\"") ∷ last_modified_line (codes "Thu, 01 Jan 1970 00:00:05 GMT") ∷ []) ≡ true }
{}

/// If-Modified-Since is held against Last-Modified, and against the date 100 where that is no validator.
#[tactic(auto, unfolding(httpdate::proofs::OnLiterals::httpdate_on_literals))]
pub fn worked_if_modified_since()
    ensures equal { asked_and_stored_fields_give_304 (if_modified_since_line (codes "Thu, 01 Jan 1970 00:00:05 GMT") ∷ [])
        (last_modified_line (codes "Thu, 01 Jan 1970 00:00:05 GMT") ∷ []) ≡ true }
    ensures later { asked_and_stored_fields_give_304 (if_modified_since_line (codes "Thu, 01 Jan 1970 00:00:06 GMT") ∷ [])
        (last_modified_line (codes "Thu, 01 Jan 1970 00:00:05 GMT") ∷ []) ≡ true }
    ensures earlier { asked_and_stored_fields_give_304 (if_modified_since_line (codes "Thu, 01 Jan 1970 00:00:04 GMT") ∷ [])
        (last_modified_line (codes "Thu, 01 Jan 1970 00:00:05 GMT") ∷ []) ≡ false }
    ensures by_date { asked_and_stored_fields_give_304
        (if_modified_since_line (codes "Thu, 01 Jan 1970 00:01:40 GMT") ∷ []) (etag_line (codes "\"e\"") ∷ []) ≡ true }
    ensures before_date { asked_and_stored_fields_give_304 (if_modified_since_line (codes "Thu, 01 Jan 1970 00:01:39 GMT") ∷ []) [] ≡ false }
    ensures two { asked_and_stored_fields_give_304 (if_modified_since_line (codes "Thu, 01 Jan 1970 00:01:40 GMT")
        ∷ if_modified_since_line (codes "Thu, 01 Jan 1970 00:01:40 GMT") ∷ []) [] ≡ false }
    ensures no_date { asked_and_stored_fields_give_304 (if_modified_since_line (codes "yesterday") ∷ []) [] ≡ false }
    ensures none { asked_and_stored_fields_give_304 [] [] ≡ false }
    ensures other_status { stored_gets_304 (asked_get_with (if_none_match_line (codes "*") ∷ []))
        (record (stored_with_fields []) { status = 404 }) ≡ false }
{}

/// An answer of the origin gets the client a 304 exactly where the client's own condition is false of it; and who gets
/// one for it gets one for it out of the store.
pub fn client_gets_304_where_its_condition_is_false()
    ensures every { FalseClientConditionGets304 }
    ensures only { OnlyFalseClientConditionGets304 }
    ensures alike { AnswerThatGets304GetsItFromTheStore }
{}

/// Conditions held against an answer: the tag in front of the date, a status of 200 alone, and no date but
/// Last-Modified.
#[tactic(auto, unfolding(httpdate::proofs::OnLiterals::httpdate_on_literals))]
pub fn worked_304_for_answers()
    ensures star { answer_gets_304 (asked_get_with (if_none_match_line (codes "*") ∷ [])) 200 [] ≡ true }
    ensures weak { answer_gets_304 (asked_get_with (if_none_match_line (codes "W/\"e\"")
        ∷ [])) 200 (etag_line (codes "\"e\"") ∷ []) ≡ true }
    ensures second { answer_gets_304 (asked_get_with (if_none_match_line (codes "\"a\", \"e\"")
        ∷ [])) 200 (etag_line (codes "\"e\"") ∷ []) ≡ true }
    ensures other { answer_gets_304 (asked_get_with (if_none_match_line (codes "\"f\"")
        ∷ [])) 200 (etag_line (codes "\"e\"") ∷ []) ≡ false }
    ensures other_status { answer_gets_304 (asked_get_with (if_none_match_line (codes "*") ∷ [])) 404 [] ≡ false }
    ensures partial { answer_gets_304 (asked_get_with (if_none_match_line (codes "*") ∷ [])) 206 [] ≡ false }
    ensures hides { answer_gets_304 (asked_get_with (if_none_match_line (codes "\"f\"") ∷ if_modified_since_line
        (codes "Thu, 01 Jan 1970 00:00:05 GMT") ∷ [])) 200 (last_modified_line (codes "Thu, 01 Jan 1970 00:00:05 GMT") ∷ []) ≡ false }
    ensures equal { answer_gets_304 (asked_get_with (if_modified_since_line (codes "Thu, 01 Jan 1970 00:00:05 GMT") ∷ [])) 200
        (last_modified_line (codes "Thu, 01 Jan 1970 00:00:05 GMT") ∷ []) ≡ true }
    ensures earlier { answer_gets_304 (asked_get_with (if_modified_since_line (codes "Thu, 01 Jan 1970 00:00:04 GMT") ∷ [])) 200
        (last_modified_line (codes "Thu, 01 Jan 1970 00:00:05 GMT") ∷ []) ≡ false }
    ensures unstated { answer_gets_304 (asked_get_with (if_modified_since_line (codes "Thu, 01 Jan 1970 00:01:40 GMT") ∷ [])) 200
        (line (codes "Date") (codes "Thu, 01 Jan 1970 00:01:40 GMT") ∷ []) ≡ false }
    ensures no_date { answer_gets_304 (asked_get_with (if_modified_since_line (codes "yesterday") ∷ [])) 200
        (last_modified_line (codes "Thu, 01 Jan 1970 00:00:05 GMT") ∷ []) ≡ false }
    ensures none { answer_gets_304 (asked_get_with []) 200 (etag_line (codes "\"e\"") ∷ []) ≡ false }
{}

/// What isn't a line of it stays, but for the moments; what is kept of the request goes by the new lines.
pub fn a_304_changes_only_fields_and_times()
    ensures rest { FresheningChangesOnlyFieldsAndTimes }
    ensures nominated { FreshenedIsNominatedByNewFields }
    ensures star { FreshenedWithVaryStarNominatesNothing }
{}

/// The bytes of an opaque tag (RFC 9110, section 8.8.3).
pub fn worked_bytes_of_entity_tags()
    ensures blank { is_tag_byte 32 ≡ false }
    ensures exclamation_mark { is_tag_byte 33 ≡ true }
    ensures quote { is_tag_byte 34 ≡ false }
    ensures hash { is_tag_byte 35 ≡ true }
    ensures tilde { is_tag_byte 126 ≡ true }
    ensures delete { is_tag_byte 127 ≡ false }
    ensures least_above { is_tag_byte 128 ≡ true }
    ensures greatest { is_tag_byte 255 ≡ true }
    ensures no_byte { is_tag_byte 256 ≡ false }
{}

/// The lines that a 304 carries (RFC 9110, section 15.4.5), and others that it doesn't.
pub fn worked_fields_of_304()
    ensures cache_control { fields_of_304 (line (codes "cache-control") (codes "a") ∷ []) ≡ line (codes "cache-control") (codes "a") ∷ [] }
    ensures content_location { fields_of_304 (line (codes "Content-Location") (codes "a") ∷ []) ≡ line (codes "Content-Location") (codes "a") ∷ [] }
    ensures date { fields_of_304 (line (codes "Date") (codes "a") ∷ []) ≡ line (codes "Date") (codes "a") ∷ [] }
    ensures etag { fields_of_304 (line (codes "ETag") (codes "a") ∷ []) ≡ line (codes "ETag") (codes "a") ∷ [] }
    ensures expires { fields_of_304 (line (codes "Expires") (codes "a") ∷ []) ≡ line (codes "Expires") (codes "a") ∷ [] }
    ensures vary { fields_of_304 (line (codes "Vary") (codes "a") ∷ []) ≡ line (codes "Vary") (codes "a") ∷ [] }
    ensures others { fields_of_304 (line (codes "Set-Cookie") (codes "a") ∷ line (codes "Content-Type") (codes "b")
        ∷ line (codes "Content-Length") (codes "1") ∷ line (codes "Server") (codes "c") ∷ []) ≡ [] }
{}

/// The lines that a 304 in place of an answer carries beside them: its Age and its cookies.
pub fn worked_fields_of_304_replacing_answer()
    ensures age { fields_of_304_from_answer (line (codes "Age") (codes "1") ∷ []) ≡ line (codes "Age") (codes "1") ∷ [] }
    ensures cookies { fields_of_304_from_answer (line (codes "Set-Cookie") (codes "a") ∷ line (codes "set-cookie") (codes "b") ∷ [])
        ≡ line (codes "Set-Cookie") (codes "a") ∷ line (codes "set-cookie") (codes "b") ∷ [] }
    ensures etag { fields_of_304_from_answer (last_modified_line (codes "b") ∷ etag_line (codes "a") ∷ [])
        ≡ etag_line (codes "a") ∷ [] }
    ensures modified { fields_of_304_from_answer (last_modified_line (codes "b") ∷ [])
        ≡ last_modified_line (codes "b") ∷ [] }
    ensures others { fields_of_304_from_answer (line (codes "Content-Type") (codes "b") ∷ line (codes "Content-Encoding") (codes "c")
        ∷ line (codes "Server") (codes "c") ∷ []) ≡ [] }
{}

/// What is added to lines that leave room for it stays within the limits of a head: whatever it is,
/// and no line and no byte more.
pub fn head_room_is_exact_for_added_lines()
    ensures all { LeftRoomHoldsAddedLines }
    ensures no_more { FittingLinesLeaveRoom }
    ensures bytes { HeadRoomIsExactToTheByte }
    ensures none { head_leaves_room [] ≡ true }
    ensures lines_96 { head_leaves_room (many_lines 96) ≡ true }
    ensures lines_97 { head_leaves_room (many_lines 97) ≡ false }
{}
