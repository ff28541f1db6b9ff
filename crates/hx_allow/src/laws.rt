//! What the definitions of `specs/` say together, and what they give on tables of a few lines: each
//! function's contract is a law, and its body is empty.
ghost use Rattle.std.specs.Prelude.{◌≡◌, ◌+◌, ◌++◌, List, ℕ, Result, Ok, Err, Some, None, [], ◌∷◌, true, false, codes};
ghost use Rattle.std.specs.Prelude.{◌≤◌, ◌^◌, IfSome, length, option_map, is_some};
ghost use Rattle.std.specs.List.{All, position_from};
ghost use Rattle.toml.specs.Data.{Members, get_member};
ghost use Rattle.toml.specs.Parse.{parse_document};
ghost use Rattle.hx_target.specs.declared.targets.Target.{Target};
ghost use Rattle.hx_target.specs.Judgement.{TargetIsJudged};
ghost use Rattle.hx_target.specs.Paths.{table_path_of};
ghost use Rattle.hx_policy.specs.Policies.{plain};
ghost use Rattle.hx_allow.specs.TableLines.{Line, Table};
ghost use Rattle.hx_allow.specs.LineTables.{line_fault, line_of_members, first_fault_of_lines, items_of_tables};
ghost use Rattle.hx_allow.specs.LineWords.{text_of_key_equals, line_caches};
ghost use Rattle.hx_allow.specs.LineTables.{line_has_lowercase_method, line_has_path_with_star};
ghost use Rattle.hx_allow.specs.Matching.{matches_line, verdict_of, deciding_line_number, line_policy, policy_of};
ghost use Rattle.hx_allow.specs.NeverReached.{first_line_covering_line};
ghost use Rattle.hx_allow.specs.Rows.{has_keys_of, word_row};
ghost use Rattle.hx_allow.specs.Tables.{table_version_of, config_or_fault_of_table, BytesReadAsTable};
ghost use Rattle.hx_allow.specs.Versions.{LineHasNoOptionKey, LineHasNoKeyOfVersionFour, LineIsAsInVersionThree};
ghost use Rattle.hx_allow.specs.Versions.{LineWithCachingKeysCaches};
ghost use Rattle.hx_allow.specs.Versions.{LineHasNoLowercaseMethodOrStar, LineReadsAsInVersionThree};
ghost use Rattle.hx_allow.specs.Versions.{LineHasOneHostAndPath};
ghost use Rattle.hx_allow.specs.declared.config_faults.TableFault.{TableFault as Fault};
ghost use Rattle.hx_allow.specs.declared.config_faults.LineOption.{LineOption as Word};
ghost use Rattle.hx_allow.specs.declared.line_hosts.LineHost.TheVariants.{Every, One as OneHost};
ghost use Rattle.hx_allow.specs.declared.config_faults.NumberKey.TheVariants.{Version, MaxStore};
ghost use Rattle.hx_allow.specs.declared.values.TableVersion.{TableVersion};
ghost use Rattle.hx_allow.specs.declared.values.TableVersion.TheVariants.{One, Two, Three, Four};

pub use crate::cookie_cases::{
    worked_cookie_field_lines, worked_names_of_session_cookies, worked_requests_past_the_store,
    worked_session_cookies_of_lines,
};
pub use crate::cookie_laws::{
    a_cookie_field_is_read_as_it_is_written, a_request_goes_past_the_store_by_its_cookies,
};
pub use crate::fault_text_cases::{
    worked_places_of_faults, worked_requirements_at_the_top, worked_requirements_of_line_keys,
    worked_requirements_of_word_keys,
};
pub use crate::line_word_cases::{
    worked_client_conditions_by_version, worked_cookies_by_config_version,
    worked_cookies_of_responses_by_version, worked_error_lifetimes_by_version,
    worked_keys_of_words, worked_places_of_words, worked_policies_of_words,
    worked_seconds_of_a_line, worked_stale_while_revalidate_by_version,
    worked_table_of_version_four, worked_table_of_version_three, worked_texts_of_a_line,
};
pub use crate::list_cases::{
    worked_faults_of_lists, worked_hosts_by_version, worked_lines_with_lists,
    worked_lists_never_reached, worked_texts_of_hosts, worked_verdicts_of_lines_with_lists,
};
pub use crate::list_laws::{
    a_text_alone_is_a_list_of_one, lists_mean_the_same_as_many_lines,
    subdomains_end_with_dot_and_host, worked_hosts_below_others,
};
pub use crate::loop_cases::{
    worked_lines_of_via, worked_loops_of_lines, worked_requests_that_loop,
};
pub use crate::loop_laws::{
    a_line_of_via_is_read_as_it_is_written, a_loop_is_refused_where_its_line_refuses,
    only_refused_loops_change_the_verdict,
};
pub use crate::purge_cases::{
    worked_purge_keys, worked_purging_lines, worked_requests_that_purge,
    worked_requests_with_purge_keys, worked_scopes,
};
pub use crate::purge_laws::{
    a_line_with_purge_key_has_no_origin, a_request_purges_where_it_shows_the_key_of_its_line,
    purge_scopes_cover_what_they_name,
};
pub use crate::table_cases::{
    a_table_has_1_to_256_or_4096_lines, worked_cache_of_a_line, worked_faults_of_store_bound,
    worked_faults_of_texts, worked_faults_that_allocate, worked_lines,
    worked_missing_keys_of_a_line, worked_order_of_line_faults, worked_order_of_lines,
    worked_order_of_table_faults, worked_refused_spellings_of_lines, worked_store_bounds,
    worked_tables, worked_versions_of_tables,
};
pub use crate::table_laws::{
    a_table_is_toml_within_the_limit, lines_behind_or_of_other_hosts_change_nothing,
    the_least_unknown_key_is_named,
};
pub use crate::timeout_cases::{worked_origin_timeouts_of_lines, worked_timeouts_of_line_numbers};
pub use crate::vary_cases::{worked_names_of_vary, worked_vary_of_lines};
pub use crate::wait_cases::{worked_waits_of_line_numbers, worked_waits_of_lines};
pub use crate::worked_cases::{
    a_line_has_1_to_32_methods, worked_addresses_of_origins, worked_addresses_that_are_read,
    worked_bounds_of_config_numbers, worked_first_line_denies, worked_hosts_of_lines,
    worked_hosts_that_match, worked_keys_at_the_top, worked_keys_of_a_line, worked_keys_of_numbers,
    worked_last_bytes_of_paths, worked_lines_never_reached, worked_lines_with_cache,
    worked_methods_of_lines, worked_methods_that_match, worked_names_of_proxies,
    worked_numbers_in_addresses, worked_numbers_within_bounds, worked_origins_of_line_numbers,
    worked_origins_of_lines, worked_paths_of_lines, worked_paths_that_match,
    worked_table_fault_numbers, worked_texts_of_config_keys, worked_verdicts_of_indexed_lines,
    worked_verdicts_of_several_lines,
};
use hx_target::laws::normalising_a_path_is_idempotent;

/// A text is read in one way.
pub fn reading_of_a_table_is_unique()
    ensures { (bytes : List ℕ) (r s : Result Table Fault) → BytesReadAsTable bytes r → BytesReadAsTable bytes s → r
        ≡ s }
{}

/// The line that a verdict names is the first that matches; where none is named, none matches.
pub fn the_first_line_that_matches_decides()
    ensures { (lines : List Line) (method : List ℕ) (target : Target)
        → deciding_line_number (verdict_of lines method target)
        ≡ position_from (λ line. matches_line line method target) 1 lines }
{}

/// A verdict rests on a target's host and table path alone, for requests that are read too: whatever its port, its
/// query and the spelling of its path. What it is compared with is a table path as well: each path of a line of a
/// table that is read is its own table path.
pub fn verdict_rests_on_host_and_table_path()
    ensures alike { (lines : List Line) (method : List ℕ) (a b : Target) → a.key.host ≡ b.key.host
        → a.table_path ≡ b.table_path → verdict_of lines method a ≡ verdict_of lines method b }
    ensures read { (lines : List Line) (method : List ℕ) (target also : List ℕ) (hosts others : List (List ℕ))
        (a b : Target) → TargetIsJudged target hosts (Ok a) → TargetIsJudged also others (Ok b) → a.key.host
        ≡ b.key.host
        → a.table_path ≡ b.table_path → verdict_of lines method a ≡ verdict_of lines method b }
    ensures lines { (bytes : List ℕ) (table : Table) → BytesReadAsTable bytes (Ok table)
        → All (λ (line : Line). All (λ path. table_path_of path ≡ path) line.paths) table.lines }
{
    normalising_a_path_is_idempotent();
}

/// Where the lines in front have no fault, a fault of a line is told by that line's number, whatever follows.
pub fn the_first_line_at_fault_is_named()
    ensures { (version : TableVersion) (before : List Members) (members : Members) (after : List Members)
        (fault : Fault) → first_fault_of_lines version 1 (items_of_tables before) ≡ None → line_fault version
        (1 + length before) members
        ≡ Some fault → first_fault_of_lines version 1 (items_of_tables (before ++ members ∷ after)) ≡ Some fault }
{}

/// A table of the first version is never refused for `cache`, and each of its lines is cached,
/// without a word of the third. A line without the keys that later versions add is read alike in
/// all, but that the fourth refuses some spellings, and reads lists and `*.` and a host.
pub fn version_one_reads_as_before()
    ensures never { (t : Members) (line : ℕ) → table_version_of t ≡ One
        → ¬ (config_or_fault_of_table t ≡ Err (Fault.BadCache line)) }
    ensures cached { (t : Members) (table : Table) → table_version_of t ≡ One → config_or_fault_of_table t ≡ Ok table
        → All (λ (line : Line). line.policy ≡ plain true) table.lines }
    ensures alike { (version : TableVersion) (n : ℕ) (members : Members) → has_keys_of version Four ≡ false
        → get_member (codes "cache") members ≡ None → LineHasNoOptionKey members
        → line_fault version n members ≡ line_fault One n members }
    ensures alike_in_four { (n : ℕ) (members : Members) → get_member (codes "cache") members ≡ None
        → LineHasNoOptionKey members → LineHasNoLowercaseMethodOrStar members → LineReadsAsInVersionThree members
        → line_fault Four n members ≡ line_fault One n members }
{}

/// A table of the first two versions is never refused for a word of the third, and none of its
/// lines has one. A line without them is read alike in the last two.
pub fn version_two_reads_as_before()
    ensures never { (t : Members) (line : ℕ) (word : Word) → has_keys_of (table_version_of t) Three ≡ false
        → ¬ (config_or_fault_of_table t ≡ Err (Fault.BadWord line word)) }
    ensures plain { (t : Members) (table : Table) → has_keys_of (table_version_of t) Three ≡ false
        → config_or_fault_of_table t
        ≡ Ok table
        → All (λ (line : Line). line.policy ≡ plain line.policy.caches) table.lines }
    ensures alike { (n : ℕ) (members : Members) → LineHasNoOptionKey members
        → line_fault Three n members ≡ line_fault Two n members }
{}

/// A table of the first three versions is never refused for what the fourth adds: for the bound of the store's
/// bytes, of which it has none, so that what is stored is bounded by its number alone, as before; and for a word of
/// the fourth, of which none of its lines has one, so that errors have the lifetime of all others, each stated
/// lifetime counts as it is, requests and responses with a cookie are given the lifetimes of all others, no cookie is
/// removed, the conditions of clients and their ranges go to the origin, nothing stale is sent while it is validated,
/// requests that loop go on, no origin has a time-out of its own, and no line purges, as before. Nor is it refused for
/// a method in lower case or a `*` in a path. Each of its lines has one path, and one host or every one. A line without
/// such a word, such a spelling, a list, `*.` and a host, `set-cookie = "removed"` and `origin = "purge"` is read alike
/// in the fourth; what the third reads has none of the last four.
pub fn version_three_reads_as_before()
    ensures never { (t : Members) → has_keys_of (table_version_of t) Four ≡ false
        → ¬ (config_or_fault_of_table t ≡ Err (Fault.BadNumber MaxStore)) }
    ensures unbounded { (t : Members) (table : Table) → has_keys_of (table_version_of t) Four ≡ false
        → config_or_fault_of_table t ≡ Ok table → table.max_store ≡ None }
    ensures never_for_words { (t : Members) (line : ℕ) (word : Word) → (word_row word).since ≡ Four
        → has_keys_of (table_version_of t) Four ≡ false
        → ¬ (config_or_fault_of_table t ≡ Err (Fault.BadWord line word)) }
    ensures words { (t : Members) (table : Table) → has_keys_of (table_version_of t) Four ≡ false
        → config_or_fault_of_table t ≡ Ok table → All LineIsAsInVersionThree table.lines }
    ensures never_for_methods { (t : Members) (line : ℕ) → has_keys_of (table_version_of t) Four ≡ false
        → ¬ (config_or_fault_of_table t ≡ Err (Fault.MethodInLowerCase line)) }
    ensures never_for_stars { (t : Members) (line : ℕ) → has_keys_of (table_version_of t) Four ≡ false
        → ¬ (config_or_fault_of_table t ≡ Err (Fault.StarInPath line)) }
    ensures one_host { (t : Members) (table : Table) → has_keys_of (table_version_of t) Four ≡ false
        → config_or_fault_of_table t ≡ Ok table → All LineHasOneHostAndPath table.lines }
    ensures alike { (n : ℕ) (members : Members) → LineHasNoKeyOfVersionFour members
        → LineHasNoLowercaseMethodOrStar members
        → LineReadsAsInVersionThree members → line_fault Four n members ≡ line_fault Three n members }
    ensures still_read { (n : ℕ) (members : Members) → LineHasNoKeyOfVersionFour members
        → LineHasNoLowercaseMethodOrStar members
        → line_fault Three n members ≡ None → line_fault Four n members ≡ None }
{}

/// A line of version 4 without fault has no method in lower case and no `*` in its path. One whose
/// spelling alone keeps it from being read as in version 3 is told the spelling's fault, the
/// method's first.
pub fn version_four_refuses_lowercase_methods_and_stars()
    ensures refused { (n : ℕ) (members : Members) → line_fault Four n members ≡ None
        → LineHasNoLowercaseMethodOrStar members }
    ensures method { (n : ℕ) (members : Members) → LineHasNoKeyOfVersionFour members → line_fault Three n members ≡ None
        → line_has_lowercase_method members ≡ true → line_fault Four n members ≡ Some (Fault.MethodInLowerCase n) }
    ensures star { (n : ℕ) (members : Members) → LineHasNoKeyOfVersionFour members → line_fault Three n members ≡ None
        → line_has_lowercase_method members ≡ false → line_has_path_with_star members ≡ true
        → line_fault Four n members ≡ Some (Fault.StarInPath n) }
{}

/// Over a line of version 4 that has an origin and its cache on the conditions of clients stay with the proxy, exactly
/// where the line doesn't say that they are forwarded.
#[tactic(auto, unfolding(crate::specs::LineTables::line_of_members))]
pub fn version_four_forwards_conditions_only_if_told()
    ensures { (members : Members) → line_caches members ≡ true
        → (line_of_members Four members).policy.forwards_conditions
        ≡ text_of_key_equals (codes "conditions") (codes "forwarded") members }
{}

/// Over a line of version 4 that has an origin and its cache on the response to a request with a cookie is given the
/// line's lifetimes exactly where the line says that they are shared.
#[tactic(auto, unfolding(crate::specs::LineTables::line_of_members))]
pub fn version_four_shares_pages_of_cookies_only_if_told()
    ensures { (members : Members) → line_caches members ≡ true
        → (line_of_members Four members).policy.gives_to_cookies ≡ text_of_key_equals (codes "cookies") (codes "shared") members }
{}

/// Over a line of version 4 that has an origin and its cache on a response with Set-Cookie is given the line's
/// lifetimes exactly where the line says what becomes of such a response. It is stored without its cookies exactly
/// where the line says that they are removed, and in no earlier version.
#[tactic(auto, unfolding(crate::specs::LineTables::line_of_members))]
pub fn version_four_gives_set_cookie_lifetime_only_if_told()
    ensures lifetimes { (members : Members) → line_caches members ≡ true
        → (line_of_members Four members).policy.gives_to_set_cookie ≡ is_some (get_member (codes "set-cookie") members) }
    ensures removed { (members : Members) → (line_of_members Four members).policy.removes_set_cookie
        ≡ text_of_key_equals (codes "set-cookie") (codes "removed") members }
    ensures before { (members : Members) → (line_of_members Three members).policy.removes_set_cookie ≡ false }
{}

/// Each line of version 4 hides the tags of answers, also on the way past the store, and no line of an earlier version
/// does (`version_three_reads_as_before`).
#[tactic(auto, unfolding(crate::specs::LineTables::line_of_members, crate::specs::Matching::policy_of))]
pub fn tags_are_hidden_in_version_four()
    ensures hidden { (members : Members) → (line_of_members Four members).policy.hides_tags ≡ true }
    ensures before { (members : Members) → (line_of_members Three members).policy.hides_tags ≡ false }
    ensures past_the_store { (lines : List Line) (n : ℕ)
        → (policy_of lines (record { number = n; past_store = true })).hides_tags ≡ (line_policy lines n).hides_tags }
{}

/// Where a table bounds the bytes of its store, the bound is in its range, and no content that may be
/// stored is above it.
pub fn store_bound_is_no_less_than_content_bound()
    ensures { (t : Members) (table : Table) → config_or_fault_of_table t ≡ Ok table
        → IfSome table.max_store (λ most. (65536 ≤ most) × (most ≤ 2 ^ 40) × (table.max_stored ≤ most)) }
{}

/// A line that has a word on caching of the third version or the fourth allows, and has its cache on.
pub fn caching_keys_need_origin_and_cache()
    ensures { (t : Members) (table : Table) → config_or_fault_of_table t ≡ Ok table
        → All LineWithCachingKeysCaches table.lines }
{}

/// A line that one in front of it takes never decides on a request.
pub fn a_covered_line_never_decides()
    ensures { (lines : List Line) (method : List ℕ) (target : Target) (n k : ℕ) → first_line_covering_line lines n
        ≡ Some k
        → deciding_line_number (verdict_of lines method target) ≡ Some n → ⊥ }
{}

/// The table of the first example.
#[tactic(auto, unfolding(toml::proofs::OnLiterals::toml_on_literals, crate::specs::Tables::config_or_fault_of_table, crate::specs::Tables::table_fault, crate::specs::Tables::table_of_members, crate::specs::Tables::is_name, crate::specs::LineTables::line_fault, crate::specs::LineTables::line_of_members, crate::specs::LineTables::is_line_host, crate::specs::LineTables::is_line_method, crate::specs::LineTables::is_line_path, crate::specs::Addresses::address_of, hx_target::specs::Hosts::number_of_few_digits, hx_target::specs::Paths::has_dot_segment))]
pub fn worked_whole_table()
    ensures { option_map config_or_fault_of_table (parse_document (codes "version = 1\nname = \"edge\"\ncapacity = 2\nmax_body = 1000\nmax_stored = 1000\n\n[[line]]\nhost = \"*\"\nmethods = [\"GET\", \"HEAD\", \"POST\"]\npath = \"/\"\norigin = \"127.0.0.1:8081\"\n")) ≡ Some (Ok (record {
      name = codes "edge";
      capacity = 2;
      max_body = 1000;
      max_stored = 1000;
      max_store = None;
      lines = record {
        hosts = Every ∷ [];
        methods = codes "GET" ∷ codes "HEAD" ∷ codes "POST" ∷ [];
        paths = codes "/" ∷ [];
        origin = Some (codes "127.0.0.1:8081");
        policy = plain true;
        refuses_loops = false;
        session_cookies = [];
        vary = [];
        origin_timeout = None;
        purge_key = None;
        wait_timeout = None;
      } ∷ [];
    })) }
{}

/// A table of two lines, in their order: the first denies a path, the second allows what is left.
#[tactic(auto, unfolding(toml::proofs::OnLiterals::toml_on_literals, crate::specs::Tables::config_or_fault_of_table, crate::specs::Tables::table_fault, crate::specs::Tables::table_of_members, crate::specs::Tables::is_name, crate::specs::LineTables::line_fault, crate::specs::LineTables::line_of_members, crate::specs::LineTables::is_line_host, crate::specs::LineTables::is_line_method, crate::specs::LineTables::is_line_path, crate::specs::Addresses::address_of, hx_target::specs::Hosts::is_host, hx_target::specs::Hosts::number_of_few_digits, hx_target::specs::Paths::has_dot_segment))]
pub fn worked_table_of_two_lines()
    ensures { option_map config_or_fault_of_table (parse_document (codes "version = 1\nname = \"edge\"\ncapacity = 2\nmax_body = 1000\nmax_stored = 1000\n\n[[line]]\nhost = \"*\"\nmethods = [\"*\"]\npath = \"/admin\"\norigin = \"deny\"\n\n[[line]]\nhost = \"x\"\nmethods = [\"GET\"]\npath = \"/\"\norigin = \"127.0.0.1:8081\"\n")) ≡ Some (Ok (record {
      name = codes "edge";
      capacity = 2;
      max_body = 1000;
      max_stored = 1000;
      max_store = None;
      lines = record {
        hosts = Every ∷ [];
        methods = codes "*" ∷ [];
        paths = codes "/admin" ∷ [];
        origin = None;
        policy = plain true;
        refuses_loops = false;
        session_cookies = [];
        vary = [];
        origin_timeout = None;
        purge_key = None;
        wait_timeout = None;
      } ∷ record {
        hosts = OneHost (codes "x") ∷ [];
        methods = codes "GET" ∷ [];
        paths = codes "/" ∷ [];
        origin = Some (codes "127.0.0.1:8081");
        policy = plain true;
        refuses_loops = false;
        session_cookies = [];
        vary = [];
        origin_timeout = None;
        purge_key = None;
        wait_timeout = None;
      } ∷ [];
    })) }
{}

/// A fault of the second line has its number, and the first in the order of looking is named.
#[tactic(auto, unfolding(toml::proofs::OnLiterals::toml_on_literals, crate::specs::Tables::config_or_fault_of_table, crate::specs::Tables::table_fault, crate::specs::Tables::table_of_members, crate::specs::Tables::is_name, crate::specs::LineTables::line_fault, crate::specs::LineTables::line_of_members, crate::specs::LineTables::is_line_host, crate::specs::LineTables::is_line_method, crate::specs::LineTables::is_line_path, crate::specs::Addresses::address_of, hx_target::specs::Hosts::is_host, hx_target::specs::Hosts::number_of_few_digits, hx_target::specs::Paths::has_dot_segment))]
pub fn worked_fault_of_the_second_line()
    ensures { option_map config_or_fault_of_table (parse_document (codes "version = 1\nname = \"edge\"\ncapacity = 2\nmax_body = 1000\nmax_stored = 1000\n\n[[line]]\nhost = \"*\"\nmethods = [\"*\"]\npath = \"/admin\"\norigin = \"deny\"\n\n[[line]]\nhost = \"x\"\nmethods = [\"GET\"]\npath = \"/a/\"\norigin = \"allow\"\n")) ≡ Some (Err (Fault.BadPath 2)) }
{}

/// A table of the second version: a line without cache, one that says that it has one, and one that says nothing.
#[tactic(auto, unfolding(toml::proofs::OnLiterals::toml_on_literals, crate::specs::Tables::config_or_fault_of_table, crate::specs::Tables::table_fault, crate::specs::Tables::table_of_members, crate::specs::Tables::is_name, crate::specs::LineTables::line_fault, crate::specs::LineTables::line_of_members, crate::specs::LineTables::is_line_host, crate::specs::LineTables::is_line_method, crate::specs::LineTables::is_line_path, crate::specs::Addresses::address_of, hx_target::specs::Hosts::is_host, hx_target::specs::Hosts::number_of_few_digits, hx_target::specs::Paths::has_dot_segment))]
pub fn worked_lines_without_cache()
    ensures { option_map config_or_fault_of_table (parse_document (codes "version = 2\nname = \"edge\"\ncapacity = 2\nmax_body = 1000\nmax_stored = 1000\n\n[[line]]\nhost = \"*\"\nmethods = [\"*\"]\npath = \"/live\"\norigin = \"127.0.0.1:8081\"\ncache = \"off\"\n\n[[line]]\nhost = \"*\"\nmethods = [\"GET\"]\npath = \"/shop\"\norigin = \"127.0.0.1:8081\"\ncache = \"on\"\n\n[[line]]\nhost = \"*\"\nmethods = [\"GET\"]\npath = \"/\"\norigin = \"127.0.0.1:8081\"\n")) ≡ Some (Ok (record {
      name = codes "edge";
      capacity = 2;
      max_body = 1000;
      max_stored = 1000;
      max_store = None;
      lines = record {
        hosts = Every ∷ [];
        methods = codes "*" ∷ [];
        paths = codes "/live" ∷ [];
        origin = Some (codes "127.0.0.1:8081");
        policy = plain false;
        refuses_loops = false;
        session_cookies = [];
        vary = [];
        origin_timeout = None;
        purge_key = None;
        wait_timeout = None;
      } ∷ record {
        hosts = Every ∷ [];
        methods = codes "GET" ∷ [];
        paths = codes "/shop" ∷ [];
        origin = Some (codes "127.0.0.1:8081");
        policy = plain true;
        refuses_loops = false;
        session_cookies = [];
        vary = [];
        origin_timeout = None;
        purge_key = None;
        wait_timeout = None;
      } ∷ record {
        hosts = Every ∷ [];
        methods = codes "GET" ∷ [];
        paths = codes "/" ∷ [];
        origin = Some (codes "127.0.0.1:8081");
        policy = plain true;
        refuses_loops = false;
        session_cookies = [];
        vary = [];
        origin_timeout = None;
        purge_key = None;
        wait_timeout = None;
      } ∷ [];
    })) }
{}

/// The first fault of tables that differ in their version and in the `cache` of their line: a version that isn't known,
/// the key in a table of the first version, a word that isn't known, and the key in a line that denies.
#[tactic(auto, unfolding(toml::proofs::OnLiterals::toml_on_literals, crate::specs::Tables::config_or_fault_of_table, crate::specs::Tables::table_fault, crate::specs::Tables::table_of_members, crate::specs::Tables::is_name, crate::specs::LineTables::line_fault, crate::specs::LineTables::line_of_members, crate::specs::LineTables::is_line_host, crate::specs::LineTables::is_line_method, crate::specs::LineTables::is_line_path, crate::specs::Addresses::address_of, hx_target::specs::Hosts::is_host, hx_target::specs::Hosts::number_of_few_digits, hx_target::specs::Paths::has_dot_segment))]
pub fn worked_table_versions()
    ensures unknown { option_map config_or_fault_of_table
        (parse_document (codes "version = 5\nname = \"edge\"\ncapacity = 2\nmax_body = 1000\nmax_stored = 1000\n\n[[line]]\nhost = \"*\"\nmethods = [\"*\"]\npath = \"/live\"\norigin = \"127.0.0.1:8081\"\n")) ≡ Some (Err (Fault.BadNumber Version)) }
    ensures first { option_map config_or_fault_of_table
        (parse_document (codes "version = 1\nname = \"edge\"\ncapacity = 2\nmax_body = 1000\nmax_stored = 1000\n\n[[line]]\nhost = \"*\"\nmethods = [\"*\"]\npath = \"/live\"\norigin = \"127.0.0.1:8081\"\ncache = \"off\"\n")) ≡ Some (Err (Fault.UnknownKey (codes "cache"))) }
    ensures word { option_map config_or_fault_of_table (parse_document (codes "version = 2\nname = \"edge\"\ncapacity = 2\nmax_body = 1000\nmax_stored = 1000\n\n[[line]]\nhost = \"*\"\nmethods = [\"*\"]\npath = \"/live\"\norigin = \"127.0.0.1:8081\"\ncache = \"no\"\n")) ≡ Some (Err (Fault.BadCache 1)) }
    ensures denying { option_map config_or_fault_of_table (parse_document (codes "version = 2\nname = \"edge\"\ncapacity = 2\nmax_body = 1000\nmax_stored = 1000\n\n[[line]]\nhost = \"*\"\nmethods = [\"*\"]\npath = \"/live\"\norigin = \"deny\"\ncache = \"off\"\n")) ≡ Some (Err (Fault.BadCache 1)) }
{}
