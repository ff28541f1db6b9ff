//! What the definitions say of the standard's cases and of worked ones.

ghost use Rattle.std.specs.Prelude.{◌≡◌, true, false, [], ◌∷◌, ◌++◌, codes, Some, None};
ghost use Rattle.hx_vary.specs.Vary.{EachVaryNameIsNominated, VaryStarIsNominatedAsStar};
ghost use Rattle.hx_vary.specs.Vary.{NominatedValuesDecideAsTheRequestDoes};
ghost use Rattle.hx_vary.specs.Vary.{RequestMatchesItsOwnNominatedValues, AMemberOfVaryNominates};
ghost use Rattle.hx_vary.specs.Vary.{names_without_repeats};
ghost use Rattle.hx_vary.specs.Vary.{nominates_any_field};
ghost use Rattle.hx_vary.specs.Vary.{vary_counts_as_star, nominated_values_of, nomination_of, vary_matches};
ghost use Rattle.hx_vary.specs.Vary.{nominated_values_with_further_names};
ghost use Rattle.hx_vary.specs.Vary.{nomination_with_further_names};
ghost use Rattle.hx_vary.specs.Vary.{TooManyVaryNamesCountAsStar, VaryNamesUpToMostAreCompared};
ghost use Rattle.hx_vary.specs.Vary.{FurtherNamesCountAsVary, FurtherNamesAreCompared, WithoutFurtherNamesVaryDecides};
ghost use Rattle.hx_vary.specs.Marks.{MarksMissNoMatch, TagOfAValueIsNever0};
ghost use Rattle.hx_vary.specs.Cases.{nominated_values_for_language, accept_language_line, vary_fields};
ghost use Rattle.hx_vary.specs.Cases.{value_of_repeated_members};

use crate::nominations::Nomination;

/// What is kept of a request decides just as the whole request would.
pub fn nominated_values_decide_as_the_request_does()
    ensures { NominatedValuesDecideAsTheRequestDoes }
{}

/// The request that was answered has each value that is kept of it.
pub fn a_request_matches_its_own_nominated_values()
    ensures { RequestMatchesItsOwnNominatedValues }
{}

/// What a request matches is not passed over by its mark.
pub fn marks_miss_no_match()
    ensures { MarksMissNoMatch }
{}

/// A value that is there has a mark.
pub fn tag_of_a_value_is_never_0()
    ensures { TagOfAValueIsNever0 }
{}

/// Nothing is kept for a response with a star, and else each nominated name with its value (RFC 9111, section 4.1).
pub fn vary_names_are_nominated_unless_star()
    ensures star { VaryStarIsNominatedAsStar }
    ensures names { EachVaryNameIsNominated }
{}

/// A response nominates a field exactly where its Vary has a member; by one without members it
/// nominates none.
pub fn a_member_of_vary_nominates()
    ensures every { AMemberOfVaryNominates }
    ensures a_name { nominates_any_field (nominated_values_for_language []) ≡ true }
    ensures no_member { nominates_any_field (nominated_values_of (vary_fields (codes ", ,")) []) ≡ false }
    ensures no_vary { nominates_any_field (nominated_values_of [] []) ≡ false }
{}

/// Further names count as if the response's Vary had them: what is kept is the same as by one more line of Vary, and a
/// later request has to have the same values of all of them (RFC 9111, section 4.1). A star stays one.

pub fn further_names_count_as_vary()
    ensures as_vary { FurtherNamesCountAsVary }
    ensures compared { FurtherNamesAreCompared }
    ensures without { WithoutFurtherNamesVaryDecides }
    ensures star { nomination_with_further_names (codes "Accept-Language" ∷ []) (vary_fields (codes "*")) [] ≡ Nomination.Star }
    ensures kept { nominated_values_with_further_names (codes "X-Forwarded-Proto" ∷ codes "ACCEPT-LANGUAGE" ∷ []) (vary_fields (codes "accept-language"))
        (accept_language_line (codes "de") ∷ []) ≡ record { name = codes "accept-language"; value = Some (codes "de") }
        ∷ record { name = codes "X-Forwarded-Proto"; value = None } ∷ [] }
    ensures other { vary_matches
        (nominated_values_with_further_names (codes "Accept-Language" ∷ []) [] (accept_language_line (codes "de") ∷ []))
        (accept_language_line (codes "en") ∷ []) ≡ false }
    ensures same { vary_matches
        (nominated_values_with_further_names (codes "Accept-Language" ∷ []) [] (accept_language_line (codes "de") ∷ []))
        (accept_language_line (codes "de") ∷ []) ≡ true }
    ensures absent { vary_matches
        (nominated_values_with_further_names (codes "Accept-Language" ∷ []) [] (accept_language_line (codes "de") ∷ [])) []
        ≡ false }
{}

/// Stored for a request in German: the same value, none, an empty one, two lines, and a response without Vary.
pub fn vary_values_are_compared()
    ensures same { vary_matches (nominated_values_for_language (accept_language_line (codes "de") ∷ []))
        (accept_language_line (codes "de") ∷ []) ≡ true }
    ensures absent { vary_matches (nominated_values_for_language (accept_language_line (codes "de") ∷ [])) [] ≡ false }
    ensures empty { vary_matches (nominated_values_for_language []) (accept_language_line [] ∷ []) ≡ false }
    ensures both_absent { vary_matches (nominated_values_for_language []) [] ≡ true }
    ensures two_lines { vary_matches (nominated_values_for_language (accept_language_line (codes "de") ∷ []))
        (accept_language_line (codes "de") ∷ accept_language_line (codes "en") ∷ [])
        ≡ false }
    ensures twice { names_without_repeats (codes "a" ∷ codes "B" ∷ codes "A" ∷ codes "b" ∷ []) ≡ codes "a" ∷ codes "B" ∷ [] }
    ensures no_vary { nomination_of [] (accept_language_line (codes "de") ∷ []) ≡ Nomination.Names [] }
{}

/// A star among names, and a member that is no token.
pub fn worked_vary_stars()
    ensures star { vary_counts_as_star (vary_fields (codes "Accept, *")) ≡ true }
    ensures no_token { vary_counts_as_star (vary_fields (codes "\"Accept\"")) ≡ true }
    ensures names { vary_counts_as_star (vary_fields (codes "Accept, *a")) ≡ false }
{}

/// By up to 64 members of Vary a response varies. With more it counts as one with a star: over all lines together, also
/// where one name stands again and again. Empty members don't count.
pub fn over_64_vary_names_count_as_star()
    ensures many { TooManyVaryNamesCountAsStar }
    ensures few { VaryNamesUpToMostAreCompared }
    ensures at_the_bound { vary_counts_as_star (vary_fields (value_of_repeated_members 64)) ≡ false }
    ensures beyond_it { vary_counts_as_star (vary_fields (value_of_repeated_members 65)) ≡ true }
    ensures lines_at_the_bound { vary_counts_as_star (vary_fields (value_of_repeated_members 33)
        ++ vary_fields (value_of_repeated_members 31))
        ≡ false }
    ensures lines_beyond_it { vary_counts_as_star (vary_fields (value_of_repeated_members 33)
        ++ vary_fields (value_of_repeated_members 32))
        ≡ true }
    ensures kept { nomination_of (vary_fields (value_of_repeated_members 64)) []
        ≡ Nomination.Names (record { name = codes "a"; value = None } ∷ []) }
    ensures empty_ones { vary_counts_as_star (vary_fields (value_of_repeated_members 64 ++ codes ",,,")) ≡ false }
    ensures a_star_at_the_bound { vary_counts_as_star (vary_fields (value_of_repeated_members 63 ++ codes "*")) ≡ true }
{}
