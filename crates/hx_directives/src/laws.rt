//! What the definitions say of the standard's cases and of worked ones, computed.

ghost use Rattle.std.specs.Prelude.{◌≡◌, ℕ, true, false, List, [], ◌∷◌, codes, Some, None};
ghost use Rattle.hx_fields.specs.Line.{Field};
ghost use Rattle.hx_directives.specs.Occurrences.{directive_of, directive_name, occurrences_of};
ghost use Rattle.hx_directives.specs.declared.names.Directive.{Directive as Read};
ghost use Rattle.hx_directives.specs.declared.names.Directive.TheVariants as directive;
ghost use Rattle.hx_directives.specs.declared.arguments.Argument.TheVariants as argument;
ghost use Rattle.hx_directives.specs.Answers.{directive_occurs, seconds_of_directive, first_valid_seconds, max_stale};
ghost use Rattle.hx_directives.specs.Arguments.{seconds_of_argument, text_without_quotes};
ghost use Rattle.hx_directives.specs.Seconds.{capped, seconds_of};
ghost use Rattle.hx_directives.specs.Cases.{cache_control_line, directives_of_value, quoted_text};

use crate::answers::{MaxStale, Seconds};
use crate::names::Directive;

/// A directive that stands twice, one without a number, a quoted one, and one inside quotes.
pub fn repeated_and_bad_seconds()
    ensures repeated { seconds_of_directive (directives_of_value (codes "max-age=60, max-age=60")) Directive.MaxAge
        ≡ Seconds.Repeated }
    ensures bad { seconds_of_directive (directives_of_value (codes "max-age=1x")) Directive.MaxAge ≡ Seconds.Bad }
    ensures quoted { seconds_of_directive (directives_of_value (codes "max-age=\"60\"")) Directive.MaxAge ≡ Seconds.Value 60 }
    ensures shared { seconds_of_directive (directives_of_value (codes "s-maxage=5, max-age=60")) Directive.SMaxage
        ≡ Seconds.Value 5 }
    ensures inside_quotes { directive_occurs (directives_of_value (codes "a=\"x, no-store\"")) Directive.NoStore ≡ false }
    ensures two_lines { seconds_of_directive (occurrences_of (cache_control_line (codes "max-age=1")
        ∷ cache_control_line (codes "MAX-AGE=2") ∷ [])) Directive.MaxAge
        ≡ Seconds.Repeated }
{}

/// A number that fits no type counts as 2147483648 seconds, and so does each above that.
pub fn seconds_are_capped()
    ensures unbounded { seconds_of (codes "99999999999") ≡ Some 99999999999 }
    ensures capped { seconds_of_directive (directives_of_value (codes "max-age=99999999999")) Directive.MaxAge
        ≡ Seconds.Value 2147483648 }
    ensures least_capped { seconds_of_directive (directives_of_value (codes "max-age=2147483649")) Directive.MaxAge
        ≡ Seconds.Value 2147483648 }
{}

/// Both directives are seen, so the rule can set one against the other.
pub fn must_understand_and_no_store_are_both_read()
    ensures must_understand { directive_occurs (directives_of_value (codes "must-understand, no-store, max-age=60")) Directive.MustUnderstand
        ≡ true }
    ensures no_store { directive_occurs (directives_of_value (codes "must-understand, no-store, max-age=60")) Directive.NoStore
        ≡ true }
    ensures max_age { seconds_of_directive (directives_of_value (codes "must-understand, no-store, max-age=60")) Directive.MaxAge
        ≡ Seconds.Value 60 }
{}

/// The requests and responses of the least reuse rules, read.
pub fn worked_directive_readings()
    ensures no_cache { directive_occurs (directives_of_value (codes "no-cache, max-age=60")) Directive.NoCache ≡ true }
    ensures no_age { first_valid_seconds (directives_of_value (codes "no-cache, max-age=0")) Directive.MaxAge ≡ Some 0 }
    ensures must_revalidate { directive_occurs (directives_of_value (codes "must-revalidate")) Directive.MustRevalidate ≡ true }
    ensures up_to { max_stale (directives_of_value (codes "max-stale=5, max-age=0")) ≡ MaxStale.UpTo 5 }
    ensures any { max_stale (directives_of_value (codes "max-stale=x, max-stale")) ≡ MaxStale.Any }
    ensures none { max_stale (directives_of_value (codes "max-stale=")) ≡ MaxStale.Absent }
{}

/// Every text comes back from its quoted string, each of whose bytes stands after a backslash.
pub fn quoted_text_reads_back()
    ensures { (text : List ℕ) → text_without_quotes (quoted_text text) ≡ text }
{}

/// Each directive is read by its own name, so no two have one.
pub fn each_directive_is_read_by_its_name()
    ensures { (d : Read) → directive_of (directive_name d) ≡ Some d }
{}

/// The names, in any case (RFC 9111, sections 5.2.1 and 5.2.2; RFC 5861, sections 3 and 4), and one that no rule reads.
pub fn worked_names_of_directives()
    ensures max_age { directive_of (codes "max-age") ≡ Some directive.MaxAge }
    ensures s_maxage { directive_of (codes "s-maxage") ≡ Some directive.SMaxage }
    ensures max_stale { directive_of (codes "max-stale") ≡ Some directive.MaxStale }
    ensures min_fresh { directive_of (codes "min-fresh") ≡ Some directive.MinFresh }
    ensures stale_if_error { directive_of (codes "stale-if-error") ≡ Some directive.StaleIfError }
    ensures stale_while_revalidate { directive_of (codes "stale-while-revalidate") ≡ Some directive.StaleWhileRevalidate }
    ensures no_cache { directive_of (codes "no-cache") ≡ Some directive.NoCache }
    ensures no_store { directive_of (codes "no-store") ≡ Some directive.NoStore }
    ensures only_if_cached { directive_of (codes "only-if-cached") ≡ Some directive.OnlyIfCached }
    ensures must_revalidate { directive_of (codes "must-revalidate") ≡ Some directive.MustRevalidate }
    ensures proxy_revalidate { directive_of (codes "proxy-revalidate") ≡ Some directive.ProxyRevalidate }
    ensures must_understand { directive_of (codes "must-understand") ≡ Some directive.MustUnderstand }
    ensures private { directive_of (codes "private") ≡ Some directive.Private }
    ensures public { directive_of (codes "public") ≡ Some directive.Public }
    ensures upper_case { directive_of (codes "Max-AGE") ≡ Some directive.MaxAge }
    ensures another { directive_of (codes "no-transform") ≡ None }
    ensures a_part { directive_of (codes "max") ≡ None }
{}

/// What stands behind the first equals sign is the argument, without blanks; there may be none, or
/// one that says no seconds.
pub fn worked_arguments()
    ensures none { seconds_of_argument None ≡ argument.Absent }
    ensures seconds { seconds_of_argument (Some (codes "60")) ≡ argument.Delta 60 }
    ensures empty { seconds_of_argument (Some []) ≡ argument.Other }
    ensures signed { seconds_of_argument (Some (codes "+60")) ≡ argument.Other }
    ensures most { seconds_of_argument (Some (codes "2147483648")) ≡ argument.Delta 2147483648 }
    ensures above { seconds_of_argument (Some (codes "2147483649")) ≡ argument.Delta 2147483648 }
    ensures blanks { seconds_of_directive (directives_of_value (codes "max-age = 60")) Directive.MaxAge ≡ Seconds.Value 60 }
    ensures second_equals { seconds_of_directive (directives_of_value (codes "max-age=6=0")) Directive.MaxAge ≡ Seconds.Bad }
    ensures missing { seconds_of_directive (directives_of_value (codes "max-age")) Directive.MaxAge ≡ Seconds.Bad }
    ensures absent { seconds_of_directive (directives_of_value (codes "public")) Directive.MaxAge ≡ Seconds.Absent }
    ensures second_directive { directive_occurs (directives_of_value (codes "public, no-store")) Directive.NoStore ≡ true }
    ensures another { directive_occurs (directives_of_value (codes "public")) Directive.NoStore ≡ false }
{}

/// Of a request's directive the first valid seconds count, and no max-stale takes no stale response.
pub fn worked_first_valid_seconds()
    ensures first { first_valid_seconds (directives_of_value (codes "max-age=x, max-age=5, max-age=6")) Directive.MaxAge ≡ Some 5 }
    ensures without { first_valid_seconds (directives_of_value (codes "max-age, min-fresh=5")) Directive.MaxAge ≡ None }
    ensures another { first_valid_seconds (directives_of_value (codes "max-age=1, min-fresh=5")) Directive.MinFresh ≡ Some 5 }
    ensures no_max_stale { max_stale (directives_of_value (codes "max-age=1")) ≡ MaxStale.Absent }
    ensures any { max_stale (directives_of_value (codes "max-stale")) ≡ MaxStale.Any }
    ensures first_limit { max_stale (directives_of_value (codes "max-stale=1, max-stale=2")) ≡ MaxStale.UpTo 1 }
{}

/// A quoted string ends with the text (RFC 9110, section 5.6.4); a text that only begins as one stands as it is.
pub fn worked_quoted_strings()
    ensures whole { text_without_quotes (codes "\"60\"") ≡ codes "60" }
    ensures pair { text_without_quotes (codes "\"6\\0\"") ≡ codes "60" }
    ensures open { text_without_quotes (codes "\"60") ≡ codes "\"60" }
    ensures closed_early { text_without_quotes (codes "\"6\"0") ≡ codes "\"6\"0" }
    ensures bare { text_without_quotes (codes "60") ≡ codes "60" }
{}

/// So many seconds are counted at most, and fewer as they are (RFC 9111, section 1.2.2).
pub fn worked_capped_seconds()
    ensures below { capped 2147483647 ≡ 2147483647 }
    ensures most { capped 2147483648 ≡ 2147483648 }
    ensures above { capped 2147483649 ≡ 2147483648 }
    ensures digits { seconds_of (codes "0123456789") ≡ Some 123456789 }
    ensures none { seconds_of [] ≡ None }
    ensures not_digits { seconds_of (codes "1:") ≡ None }
{}
