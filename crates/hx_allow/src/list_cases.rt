//! What the definitions give on worked lines with lists of hosts and paths, computed from them: each
//! function's contract is the cases, and its body is empty.
ghost use Rattle.std.specs.Prelude.{◌≡◌, ◌∷◌, ◌++◌, [], Some, None, Ok, true, false, codes, option_map, pos};
ghost use Rattle.toml.specs.Data.{array, integer, string, no_items};
ghost use Rattle.toml.specs.Parse.{parse_document};
ghost use Rattle.hx_policy.specs.Policies.{default_policy_with_hidden_tags};
ghost use Rattle.hx_allow.specs.Examples.{table_of_host_and_path, list_of_texts, lines_with_several_hosts};
ghost use Rattle.hx_allow.specs.Examples.{line_with_hosts_and_paths};
ghost use Rattle.hx_allow.specs.Examples.{example_line_with_method, origin_8081};
ghost use Rattle.hx_allow.specs.Examples.{repeated_value, array_of_values, target_for_path};
ghost use Rattle.hx_allow.specs.Index.{parent_domains_of, line_host_is_exactly, is_wildcard_of, is_for_every_host};
ghost use Rattle.hx_allow.specs.Index.{numbers_of_lines_with_host};
ghost use Rattle.hx_allow.specs.LineHosts.{line_host_of, line_host_matches};
ghost use Rattle.hx_allow.specs.LineTables.{is_line_host, line_fault, line_of_members};
ghost use Rattle.hx_allow.specs.Matching.{verdict_of, route_over_line};
ghost use Rattle.hx_allow.specs.NeverReached.{line_covers_line, first_line_covering_line};
ghost use Rattle.hx_allow.specs.Tables.{config_or_fault_of_table};
ghost use Rattle.hx_allow.specs.declared.config_faults.TableFault.TheVariants.{BadHost, BadPath};
ghost use Rattle.hx_allow.specs.declared.config_faults.TableFault.TheVariants.{BadMethod, StarInPath};
ghost use Rattle.hx_allow.specs.declared.line_hosts.LineHost.TheVariants.{Every, One as OneHost, Below};
ghost use Rattle.hx_allow.specs.declared.values.TableVersion.TheVariants.{One, Two, Three, Four};
ghost use Rattle.hx_allow.specs.declared.verdicts.Verdict.TheVariants.{Allowed, DeniedBy, NoLine};

/// What may stand as a host in the fourth version, and what before.
#[tactic(auto, unfolding(crate::specs::LineTables::is_line_host, hx_target::specs::Hosts::is_host))]
pub fn worked_hosts_by_version()
    ensures below { is_line_host Four (codes "*.example") ≡ true }
    ensures below_two_labels { is_line_host Four (codes "*.b.example") ≡ true }
    ensures final_dot { is_line_host Four (codes "*.example.") ≡ true }
    ensures of_three { is_line_host Three (codes "*.example") ≡ false }
    ensures of_one { is_line_host One (codes "*.example") ≡ false }
    ensures star_alone { is_line_host Four (codes "*") ≡ true }
    ensures a_host { is_line_host Four (codes "example") ≡ true }
    ensures nothing { is_line_host Four (codes "*.") ≡ false }
    ensures two_stars { is_line_host Four (codes "*.*.example") ≡ false }
    ensures star_in_a_label { is_line_host Four (codes "a*.example") ≡ false }
    ensures star_in_the_first { is_line_host Four (codes "*a.example") ≡ false }
    ensures no_dot { is_line_host Four (codes "*example") ≡ false }
    ensures star_inside { is_line_host Four (codes "a.*.example") ≡ false }
    ensures star_behind { is_line_host Four (codes "example.*") ≡ false }
    ensures upper { is_line_host Four (codes "*.Example") ≡ false }
    ensures port { is_line_host Four (codes "*.example:80") ≡ false }
    ensures address { is_line_host Four (codes "*.0.0.1") ≡ false }
    ensures in_brackets { is_line_host Four (codes "*.[::a]") ≡ false }
    ensures letter_and_number { is_line_host Four (codes "*.a1") ≡ true }
    ensures empty { is_line_host Four [] ≡ false }
{}

/// What a text names.
pub fn worked_texts_of_hosts()
    ensures every { line_host_of (codes "*") ≡ Every }
    ensures one { line_host_of (codes "example") ≡ OneHost (codes "example") }
    ensures below { line_host_of (codes "*.example") ≡ Below (codes "example") }
    ensures matches_below { line_host_matches (Below (codes "example")) (codes "a.b.example") ≡ true }
    ensures not_itself { line_host_matches (Below (codes "example")) (codes "example") ≡ false }
    ensures looked_up { parent_domains_of (codes "a.b.example") ≡ codes "b.example" ∷ codes "example" ∷ [] }
    ensures looked_up_at_dots { parent_domains_of (codes ".x..") ≡ codes "x.." ∷ codes "." ∷ [] ∷ [] }
    ensures none_above { parent_domains_of (codes "example") ≡ [] }
{}

/// Faults of lists: in the fourth version alone they stand, of 1 to 32 texts, and each entry has the fault
/// of its key, in the order of the keys.
#[tactic(auto, unfolding(crate::specs::LineTables::line_fault, crate::specs::LineTables::is_line_host, crate::specs::LineTables::is_line_method, crate::specs::LineTables::is_line_path, crate::specs::Addresses::address_of, hx_target::specs::Hosts::is_host, hx_target::specs::Hosts::number_of_few_digits, hx_target::specs::Paths::has_dot_segment))]
pub fn worked_faults_of_lists()
    ensures none { line_fault Four 3 (table_of_host_and_path (list_of_texts (codes "a" ∷ codes "*.a" ∷ codes "*" ∷ []))
        (list_of_texts (codes "/a" ∷ codes "/" ∷ [])))
        ≡ None }
    ensures alone { line_fault Four 3 (table_of_host_and_path (string (codes "*.a")) (string (codes "/a"))) ≡ None }
    ensures of_one_text { line_fault Four 3 (table_of_host_and_path (list_of_texts (codes "a" ∷ []))
        (list_of_texts (codes "/" ∷ [])))
        ≡ None }
    ensures no_host { line_fault Four 3 (table_of_host_and_path (array no_items) (string (codes "/")))
        ≡ Some (BadHost 3) }
    ensures no_path { line_fault Four 3 (table_of_host_and_path (string (codes "a")) (array no_items))
        ≡ Some (BadPath 3) }
    ensures hosts_32 { line_fault Four 3 (table_of_host_and_path (array (repeated_value 32 (string (codes "a"))))
        (string (codes "/")))
        ≡ None }
    ensures hosts_33 { line_fault Four 3 (table_of_host_and_path (array (repeated_value 33 (string (codes "a"))))
        (string (codes "/")))
        ≡ Some (BadHost 3) }
    ensures paths_32 { line_fault Four 3 (table_of_host_and_path (string (codes "a")) (array (repeated_value 32
        (string (codes "/")))))
        ≡ None }
    ensures paths_33 { line_fault Four 3 (table_of_host_and_path (string (codes "a")) (array (repeated_value 33
        (string (codes "/")))))
        ≡ Some (BadPath 3) }
    ensures second_host { line_fault Four 3 (table_of_host_and_path (list_of_texts (codes "a" ∷ codes "B" ∷ []))
        (string (codes "/")))
        ≡ Some (BadHost 3) }
    ensures second_path { line_fault Four 3 (table_of_host_and_path (string (codes "a"))
        (list_of_texts (codes "/" ∷ codes "/a/" ∷ [])))
        ≡ Some (BadPath 3) }
    ensures a_number { line_fault Four 3 (table_of_host_and_path (array (array_of_values (integer (pos 1) ∷ [])))
        (string (codes "/")))
        ≡ Some (BadHost 3) }
    ensures number_alone { line_fault Four 3 (table_of_host_and_path (integer (pos 1)) (string (codes "/")))
        ≡ Some (BadHost 3) }
    ensures host_first { line_fault Four 3 (table_of_host_and_path (array no_items) (array no_items))
        ≡ Some (BadHost 3) }
    ensures star_in_a_path { line_fault Four 3 (table_of_host_and_path (string (codes "a"))
        (list_of_texts (codes "/" ∷ codes "/a*" ∷ [])))
        ≡ Some (StarInPath 3) }
    ensures hosts_of_three { line_fault Three 3
        (table_of_host_and_path (list_of_texts (codes "a" ∷ [])) (string (codes "/")))
        ≡ Some (BadHost 3) }
    ensures paths_of_three { line_fault Three 3
        (table_of_host_and_path (string (codes "a")) (list_of_texts (codes "/" ∷ [])))
        ≡ Some (BadPath 3) }
    ensures hosts_of_one { line_fault One 3 (table_of_host_and_path (list_of_texts (codes "a" ∷ [])) (string (codes "/")))
        ≡ Some (BadHost 3) }
{}

/// What lines with lists say.
#[tactic(auto, unfolding(crate::specs::LineTables::line_of_members, crate::specs::Addresses::address_of, hx_target::specs::Hosts::number_of_few_digits))]
pub fn worked_lines_with_lists()
    ensures lists { line_of_members Four (table_of_host_and_path (list_of_texts (codes "a" ∷ codes "*.a" ∷ codes "*" ∷ []))
        (list_of_texts (codes "/%61" ∷ codes "/" ∷ [])))
        ≡ record {
          hosts = OneHost (codes "a") ∷ Below (codes "a") ∷ Every ∷ [];
          methods = codes "GET" ∷ [];
          paths = codes "/a" ∷ codes "/" ∷ [];
          origin = None;
          policy = default_policy_with_hidden_tags true true;
          refuses_loops = true;
          session_cookies = [];
          vary = [];
          origin_timeout = None;
          purge_key = None;
          wait_timeout = None;
        } }
    ensures alone { line_of_members Four (table_of_host_and_path (string (codes "a")) (string (codes "/")))
        ≡ record (example_line_with_method (Some (codes "a")) (codes "GET") (codes "/") None) {
          policy = default_policy_with_hidden_tags true true;
          refuses_loops = true;
        } }
    ensures of_one { line_of_members Four
        (table_of_host_and_path (list_of_texts (codes "a" ∷ [])) (list_of_texts (codes "/"
        ∷ [])))
        ≡ record (example_line_with_method (Some (codes "a")) (codes "GET") (codes "/") None) {
          policy = default_policy_with_hidden_tags true true;
          refuses_loops = true;
        } }
{}

/// A line decides where one of its hosts and one of its paths match, and the first such line does.
#[tactic(auto, unfolding(crate::specs::Matching::verdict_of, crate::specs::Matching::matches_line))]
pub fn worked_verdicts_of_lines_with_lists()
    ensures first { verdict_of lines_with_several_hosts (codes "GET") (target_for_path (codes "a") (codes "/p"))
        ≡ DeniedBy 1 }
    ensures second { verdict_of lines_with_several_hosts (codes "GET") (target_for_path (codes "b") (codes "/q/x"))
        ≡ DeniedBy 1 }
    ensures below { verdict_of lines_with_several_hosts (codes "GET") (target_for_path (codes "x.c") (codes "/q"))
        ≡ DeniedBy 1 }
    ensures further_below { verdict_of lines_with_several_hosts (codes "GET") (target_for_path (codes "y.x.c") (codes "/"))
        ≡ Allowed (route_over_line 2) }
    ensures not_itself { verdict_of lines_with_several_hosts (codes "GET") (target_for_path (codes "c") (codes "/p"))
        ≡ Allowed (route_over_line 3) }
    ensures other_path { verdict_of lines_with_several_hosts (codes "GET") (target_for_path (codes "a") (codes "/r"))
        ≡ Allowed (route_over_line 3) }
    ensures other_host { verdict_of lines_with_several_hosts (codes "GET") (target_for_path (codes "d") (codes "/p"))
        ≡ Allowed (route_over_line 3) }
    ensures connect { verdict_of lines_with_several_hosts (codes "CONNECT") (target_for_path (codes "a") (codes "/p"))
        ≡ NoLine }
    ensures named { numbers_of_lines_with_host (line_host_is_exactly (codes "b")) lines_with_several_hosts ≡ 1 ∷ [] }
    ensures named_below { numbers_of_lines_with_host (is_wildcard_of (codes "c")) lines_with_several_hosts ≡ 1 ∷ 2 ∷ [] }
    ensures every { numbers_of_lines_with_host is_for_every_host lines_with_several_hosts ≡ 3 ∷ [] }
    ensures twice { numbers_of_lines_with_host (line_host_is_exactly (codes "a"))
        (line_with_hosts_and_paths (OneHost (codes "a") ∷ OneHost (codes "a") ∷ []) (codes "/" ∷ []) None ∷ [])
        ≡ 1 ∷ 1 ∷ [] }
{}

/// A line in front takes another where each host of that is one of its hosts, and each path one that its
/// paths take.
#[tactic(auto, unfolding(crate::specs::NeverReached::line_covers_line))]
pub fn worked_lists_never_reached()
    ensures fewer { line_covers_line
        (line_with_hosts_and_paths (OneHost (codes "a") ∷ OneHost (codes "b") ∷ []) (codes "/p" ∷ codes "/q" ∷ []) None)
        (line_with_hosts_and_paths (OneHost (codes "b") ∷ []) (codes "/q/x" ∷ []) None) ≡ true }
    ensures more_hosts { line_covers_line (line_with_hosts_and_paths (OneHost (codes "a") ∷ []) (codes "/" ∷ []) None)
        (line_with_hosts_and_paths (OneHost (codes "a") ∷ OneHost (codes "b") ∷ []) (codes "/" ∷ []) None) ≡ false }
    ensures more_paths { line_covers_line (line_with_hosts_and_paths (OneHost (codes "a") ∷ []) (codes "/p" ∷ []) None)
        (line_with_hosts_and_paths (OneHost (codes "a") ∷ []) (codes "/p" ∷ codes "/q" ∷ []) None) ≡ false }
    ensures one_below { line_covers_line (line_with_hosts_and_paths (Below (codes "c") ∷ []) (codes "/" ∷ []) None)
        (line_with_hosts_and_paths (OneHost (codes "x.c") ∷ []) (codes "/" ∷ []) None) ≡ true }
    ensures not_itself { line_covers_line (line_with_hosts_and_paths (Below (codes "c") ∷ []) (codes "/" ∷ []) None)
        (line_with_hosts_and_paths (OneHost (codes "c") ∷ []) (codes "/" ∷ []) None) ≡ false }
    ensures same_below { line_covers_line (line_with_hosts_and_paths (Below (codes "c") ∷ []) (codes "/" ∷ []) None)
        (line_with_hosts_and_paths (Below (codes "c") ∷ []) (codes "/" ∷ []) None) ≡ true }
    ensures further_below { line_covers_line (line_with_hosts_and_paths (Below (codes "c") ∷ []) (codes "/" ∷ []) None)
        (line_with_hosts_and_paths (Below (codes "x.c") ∷ []) (codes "/" ∷ []) None) ≡ true }
    ensures above { line_covers_line (line_with_hosts_and_paths (Below (codes "x.c") ∷ []) (codes "/" ∷ []) None)
        (line_with_hosts_and_paths (Below (codes "c") ∷ []) (codes "/" ∷ []) None) ≡ false }
    ensures one_takes_no_below { line_covers_line (line_with_hosts_and_paths (OneHost (codes "c") ∷ []) (codes "/"
        ∷ []) None)
        (line_with_hosts_and_paths (Below (codes "c") ∷ []) (codes "/" ∷ []) None) ≡ false }
    ensures below_takes_not_every { line_covers_line (line_with_hosts_and_paths (Below (codes "c") ∷ []) (codes "/"
        ∷ []) None)
        (line_with_hosts_and_paths (Every ∷ []) (codes "/" ∷ []) None) ≡ false }
    ensures every { line_covers_line (line_with_hosts_and_paths (OneHost (codes "a") ∷ Every ∷ []) (codes "/" ∷ []) None)
        (line_with_hosts_and_paths (Below (codes "c") ∷ OneHost (codes "b") ∷ []) (codes "/" ∷ []) None) ≡ true }
    ensures none_taken { first_line_covering_line lines_with_several_hosts 2 ≡ None }
{}
