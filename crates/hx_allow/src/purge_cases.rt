//! Worked cases of purges: each function's contract is the cases, and its body is empty.
ghost use Rattle.std.specs.Prelude.{◌≡◌, ◌∷◌, [], true, false, codes, None, Some};
ghost use Rattle.hx_fields.specs.Examples.{line};
ghost use Rattle.hx_allow.specs.Examples.{key_of_host_and_path, key_with_text, key_with_number, line_table_with_keys};
ghost use Rattle.hx_allow.specs.Examples.{purging_line_table_with, table_with_purging_line, target_for_path, purge_key};
ghost use Rattle.hx_allow.specs.LineTables.{is_line_origin, line_fault, line_of_members};
ghost use Rattle.hx_allow.specs.Keys.{key_of_line_option};
ghost use Rattle.hx_allow.specs.Matching.{verdict_of, verdict_of_request};
ghost use Rattle.hx_allow.specs.Purges.{is_purge_key, request_shows_purge_key, has_invalid_purge_field};
ghost use Rattle.hx_allow.specs.Purges.{purge_scope_of_request};
ghost use Rattle.hx_allow.specs.Purges.{is_in_purge_scope};
ghost use Rattle.hx_allow.specs.declared.purges.PurgeScope.TheVariants.{Target, Prefix, Host, All};
ghost use Rattle.hx_allow.specs.Values.{is_known_key};
ghost use Rattle.hx_allow.specs.declared.config_faults.TableFault.TheVariants.{BadWord, UnknownKey};
ghost use Rattle.hx_allow.specs.declared.config_faults.TableFault.TheVariants.{BadCache, BadOrigin};
ghost use Rattle.hx_allow.specs.declared.config_faults.LineOption.TheVariants.{Lifetime, Loops, OriginTimeout};
ghost use Rattle.hx_allow.specs.declared.config_faults.LineOption.TheVariants.{PurgeKey};
ghost use Rattle.hx_allow.specs.declared.values.Scope.TheVariants.{Top, Line};
ghost use Rattle.hx_allow.specs.declared.values.TableVersion.TheVariants.{Three, Four};
ghost use Rattle.hx_allow.specs.declared.verdicts.Verdict.TheVariants.{DeniedBy, NoLine, Purged};

/// Keys: 16 to 64 letters and digits.
pub fn worked_purge_keys()
    ensures sixteen { is_purge_key (codes "0123456789abcXYZ") ≡ true }
    ensures fifteen { is_purge_key (codes "0123456789abcXY") ≡ false }
    ensures sixty_four { is_purge_key
        (codes "0123456789abcdef0123456789abcdef0123456789abcdef0123456789abcdef") ≡ true }
    ensures sixty_five { is_purge_key
        (codes "0123456789abcdef0123456789abcdef0123456789abcdef0123456789abcdef0") ≡ false }
    ensures with_a_hyphen { is_purge_key (codes "0123456789-abcXYZ") ≡ false }
    ensures with_a_blank { is_purge_key (codes "0123456789 abcXYZ") ≡ false }
    ensures empty { is_purge_key [] ≡ false }
{}

/// Which requests show a key, and which ask for what isn't known.
pub fn worked_requests_with_purge_keys()
    ensures shown { request_shows_purge_key purge_key (line (codes "Purge-Key") purge_key ∷ []) ≡ true }
    ensures any_case_of_the_name { request_shows_purge_key purge_key (line (codes "purge-key") purge_key ∷ []) ≡ true }
    ensures in_a_later_line { request_shows_purge_key purge_key (line (codes "Purge-Key") (codes "x") ∷ line (codes "Host") (codes "h")
        ∷ line (codes "Purge-Key") purge_key ∷ []) ≡ true }
    ensures none { request_shows_purge_key purge_key (line (codes "Host") (codes "h") ∷ []) ≡ false }
    ensures another_field { request_shows_purge_key purge_key (line (codes "Key") purge_key ∷ []) ≡ false }
    ensures the_last_letter { request_shows_purge_key purge_key (line (codes "Purge-Key") (codes "0123456789abcXYz") ∷ []) ≡ false }
    ensures the_first_letter { request_shows_purge_key purge_key (line (codes "Purge-Key") (codes "1123456789abcXYZ") ∷ []) ≡ false }
    ensures its_beginning { request_shows_purge_key purge_key (line (codes "Purge-Key") (codes "0123456789abcXY") ∷ []) ≡ false }
    ensures longer { request_shows_purge_key purge_key (line (codes "Purge-Key") (codes "0123456789abcXYZ0") ∷ []) ≡ false }
    ensures empty { request_shows_purge_key purge_key (line (codes "Purge-Key") [] ∷ []) ≡ false }
    ensures quoted { request_shows_purge_key purge_key (line (codes "Purge-Key") (codes "\"0123456789abcXYZ\"") ∷ []) ≡ false }
    ensures no_more { has_invalid_purge_field (line (codes "Purge-Key") purge_key ∷ line (codes "Host") (codes "h") ∷ []) ≡ false }
    ensures a_scope { has_invalid_purge_field (line (codes "Purge-Scope") (codes "prefix") ∷ []) ≡ false }
    ensures any_case_of_scope { has_invalid_purge_field (line (codes "purge-scope") (codes "host") ∷ []) ≡ false }
    ensures an_unknown_scope { has_invalid_purge_field (line (codes "Purge-Scope") (codes "site") ∷ []) ≡ true }
    ensures a_scope_in_capitals { has_invalid_purge_field (line (codes "Purge-Scope") (codes "ALL") ∷ []) ≡ true }
    ensures an_empty_scope { has_invalid_purge_field (line (codes "Purge-Scope") [] ∷ []) ≡ true }
    ensures two_scopes { has_invalid_purge_field (line (codes "Purge-Scope") (codes "all") ∷ line (codes "Purge-Scope")
        (codes "all") ∷ []) ≡ true }
    ensures listed_scopes { has_invalid_purge_field (line (codes "Purge-Scope") (codes "host, all") ∷ []) ≡ true }
    ensures a_longer_scope { has_invalid_purge_field (line (codes "Purge-Scopes") (codes "all") ∷ []) ≡ true }
    ensures a_tag { has_invalid_purge_field (line (codes "purge-tag") (codes "news") ∷ []) ≡ false }
    ensures a_longer_tag { has_invalid_purge_field (line (codes "Purge-Tags") (codes "news") ∷ []) ≡ true }
    ensures an_empty_tag { has_invalid_purge_field (line (codes "Purge-Tag") [] ∷ []) ≡ true }
    ensures two_tags { has_invalid_purge_field (line (codes "Purge-Tag") (codes "news") ∷ line (codes "Purge-Tag")
        (codes "news") ∷ []) ≡ true }
    ensures listed_tags { has_invalid_purge_field (line (codes "Purge-Tag") (codes "news,sport") ∷ []) ≡ true }
    ensures a_tag_with_a_blank { has_invalid_purge_field (line (codes "Purge-Tag") (codes "old news") ∷ []) ≡ true }
    ensures a_tag_and_a_scope { has_invalid_purge_field (line (codes "Purge-Tag") (codes "news") ∷ line (codes "Purge-Scope")
        (codes "host") ∷ []) ≡ false }
    ensures a_tag_and_an_unknown_scope { has_invalid_purge_field (line (codes "Purge-Tag") (codes "news")
        ∷ line (codes "Purge-Scope") (codes "site") ∷ []) ≡ true }
    ensures an_unknown_field { has_invalid_purge_field (line (codes "PURGE-AGE") (codes "stale") ∷ []) ≡ true }
    ensures any { has_invalid_purge_field (line (codes "Host") (codes "h") ∷ line (codes "Purge-") [] ∷ []) ≡ true }
    ensures a_longer_key { has_invalid_purge_field (line (codes "Purge-Keys") purge_key ∷ []) ≡ true }
    ensures its_begin { has_invalid_purge_field (line (codes "Purge") (codes "x") ∷ []) ≡ false }
{}

/// Which targets are within the scope of a purge.
pub fn worked_scopes()
    ensures by_default { purge_scope_of_request [] ≡ Target }
    ensures of_a_tag { purge_scope_of_request (line (codes "Purge-Tag") (codes "news") ∷ []) ≡ All }
    ensures of_a_tag_of_a_host { purge_scope_of_request (line (codes "Purge-Scope") (codes "host")
        ∷ line (codes "Purge-Tag") (codes "news") ∷ []) ≡ Host }
    ensures of_a_prefix { purge_scope_of_request (line (codes "Purge-Scope") (codes "prefix") ∷ []) ≡ Prefix }
    ensures of_a_host { purge_scope_of_request (line (codes "Purge-Scope") (codes "host") ∷ []) ≡ Host }
    ensures of_all { purge_scope_of_request (line (codes "Purge-Scope") (codes "all") ∷ []) ≡ All }
    ensures the_path { is_in_purge_scope Prefix (key_of_host_and_path (codes "h") 80 (codes "/a"))
        (key_of_host_and_path (codes "h") 80 (codes "/a")) ≡ true }
    ensures below { is_in_purge_scope Prefix (key_of_host_and_path (codes "h") 80 (codes "/a"))
        (key_of_host_and_path (codes "h") 80 (codes "/a/b")) ≡ true }
    ensures the_folder { is_in_purge_scope Prefix (key_of_host_and_path (codes "h") 80 (codes "/a"))
        (key_of_host_and_path (codes "h") 80 (codes "/a/")) ≡ true }
    ensures no_segment_of_it { is_in_purge_scope Prefix (key_of_host_and_path (codes "h") 80 (codes "/a"))
        (key_of_host_and_path (codes "h") 80 (codes "/ab")) ≡ false }
    ensures above { is_in_purge_scope Prefix (key_of_host_and_path (codes "h") 80 (codes "/a/b"))
        (key_of_host_and_path (codes "h") 80 (codes "/a")) ≡ false }
    ensures with_a_query { is_in_purge_scope Prefix (key_of_host_and_path (codes "h") 80 (codes "/a"))
        (key_of_host_and_path (codes "h") 80 (codes "/a?b")) ≡ true }
    ensures for_a_query { is_in_purge_scope Prefix (key_of_host_and_path (codes "h") 80 (codes "/a?b"))
        (key_of_host_and_path (codes "h") 80 (codes "/a/c?d")) ≡ true }
    ensures a_slash_of_a_query { is_in_purge_scope Prefix (key_of_host_and_path (codes "h") 80 (codes "/a"))
        (key_of_host_and_path (codes "h") 80 (codes "/b?/a/c")) ≡ false }
    ensures below_a_folder { is_in_purge_scope Prefix (key_of_host_and_path (codes "h") 80 (codes "/a/"))
        (key_of_host_and_path (codes "h") 80 (codes "/a/b")) ≡ true }
    ensures beside_a_folder { is_in_purge_scope Prefix (key_of_host_and_path (codes "h") 80 (codes "/a/"))
        (key_of_host_and_path (codes "h") 80 (codes "/a")) ≡ false }
    ensures below_the_root { is_in_purge_scope Prefix (key_of_host_and_path (codes "h") 80 (codes "/"))
        (key_of_host_and_path (codes "h") 80 (codes "/a/b?c")) ≡ true }
    ensures on_another_port { is_in_purge_scope Prefix (key_of_host_and_path (codes "h") 80 (codes "/"))
        (key_of_host_and_path (codes "h") 81 (codes "/a")) ≡ false }
    ensures on_another_host { is_in_purge_scope Prefix (key_of_host_and_path (codes "h") 80 (codes "/"))
        (key_of_host_and_path (codes "g") 80 (codes "/a")) ≡ false }
    ensures of_the_host { is_in_purge_scope Host (key_of_host_and_path (codes "h") 80 (codes "/a"))
        (key_of_host_and_path (codes "h") 81 (codes "/b")) ≡ true }
    ensures of_another_host { is_in_purge_scope Host (key_of_host_and_path (codes "h") 80 (codes "/a"))
        (key_of_host_and_path (codes "g.h") 80 (codes "/a")) ≡ false }
    ensures all { is_in_purge_scope All (key_of_host_and_path (codes "h") 80 (codes "/a"))
        (key_of_host_and_path (codes "g") 81 (codes "/b")) ≡ true }
    ensures the_target { is_in_purge_scope Target (key_of_host_and_path (codes "h") 80 (codes "/a"))
        (key_of_host_and_path (codes "h") 80 (codes "/a")) ≡ true }
    ensures another_target { is_in_purge_scope Target (key_of_host_and_path (codes "h") 80 (codes "/a"))
        (key_of_host_and_path (codes "h") 80 (codes "/a/b")) ≡ false }
{}

/// What a table says of requests to a line that purges, behind which another allows.
#[tactic(auto, unfolding(crate::specs::Matching::verdict_of, crate::specs::Matching::verdict_of_request, crate::specs::Matching::matches_line))]
pub fn worked_requests_that_purge()
    ensures with_the_key { verdict_of_request table_with_purging_line (codes "PURGE") (target_for_path (codes "x") (codes "/a"))
        (line (codes "Purge-Key") purge_key ∷ []) ≡ Purged 1 }
    ensures without { verdict_of_request table_with_purging_line (codes "PURGE") (target_for_path (codes "x") (codes "/a"))
        (line (codes "Host") (codes "x") ∷ []) ≡ DeniedBy 1 }
    ensures with_another { verdict_of_request table_with_purging_line (codes "PURGE") (target_for_path (codes "x") (codes "/a"))
        (line (codes "Purge-Key") (codes "0123456789abcXYz") ∷ []) ≡ DeniedBy 1 }
    ensures with_a_scope { verdict_of_request table_with_purging_line (codes "PURGE") (target_for_path (codes "x") (codes "/a"))
        (line (codes "Purge-Key") purge_key ∷ line (codes "Purge-Scope") (codes "prefix") ∷ []) ≡ Purged 1 }
    ensures with_another_scope { verdict_of_request table_with_purging_line (codes "PURGE")
        (target_for_path (codes "x") (codes "/a")) (line (codes "Purge-Key") purge_key
        ∷ line (codes "Purge-Scope") (codes "prefix/") ∷ []) ≡ DeniedBy 1 }
    ensures with_a_tag { verdict_of_request table_with_purging_line (codes "PURGE") (target_for_path (codes "x") (codes "/a"))
        (line (codes "Purge-Key") purge_key ∷ line (codes "Purge-Tag") (codes "news") ∷ []) ≡ Purged 1 }
    ensures with_two_tags { verdict_of_request table_with_purging_line (codes "PURGE")
        (target_for_path (codes "x") (codes "/a"))
        (line (codes "Purge-Key") purge_key ∷ line (codes "Purge-Tag") (codes "news")
        ∷ line (codes "Purge-Tag") (codes "sport") ∷ []) ≡ DeniedBy 1 }
    ensures with_a_mode { verdict_of_request table_with_purging_line (codes "PURGE") (target_for_path (codes "x") (codes "/a"))
        (line (codes "Purge-Key") purge_key ∷ line (codes "Purge-Mode") (codes "stale") ∷ []) ≡ Purged 1 }
    ensures with_another_mode { verdict_of_request table_with_purging_line (codes "PURGE")
        (target_for_path (codes "x") (codes "/a")) (line (codes "Purge-Key") purge_key
        ∷ line (codes "Purge-Mode") (codes "soft") ∷ []) ≡ DeniedBy 1 }
    ensures with_two_modes { verdict_of_request table_with_purging_line (codes "PURGE")
        (target_for_path (codes "x") (codes "/a"))
        (line (codes "Purge-Key") purge_key ∷ line (codes "Purge-Mode") (codes "stale")
        ∷ line (codes "purge-mode") (codes "stale") ∷ []) ≡ DeniedBy 1 }
    ensures with_a_mode_and_no_key { verdict_of_request table_with_purging_line (codes "PURGE")
        (target_for_path (codes "x") (codes "/a")) (line (codes "Purge-Mode") (codes "stale") ∷ []) ≡ DeniedBy 1 }
    ensures with_a_mode_a_scope_and_a_tag { verdict_of_request table_with_purging_line (codes "PURGE")
        (target_for_path (codes "x") (codes "/a")) (line (codes "Purge-Key") purge_key
        ∷ line (codes "Purge-Scope") (codes "host") ∷ line (codes "Purge-Tag") (codes "news")
        ∷ line (codes "Purge-Mode") (codes "stale") ∷ []) ≡ Purged 1 }
    ensures another_path { verdict_of_request table_with_purging_line (codes "PURGE") (target_for_path (codes "x") (codes "/b"))
        (line (codes "Purge-Key") purge_key ∷ []) ≡ NoLine }
    ensures with_the_key_of_another_line { verdict_of_request table_with_purging_line (codes "PURGE")
        (target_for_path (codes "x") (codes "/p")) (line (codes "Purge-Key") purge_key ∷ []) ≡ DeniedBy 2 }
    ensures by_method_and_target { verdict_of table_with_purging_line.lines (codes "PURGE")
        (target_for_path (codes "x") (codes "/a")) ≡ DeniedBy 1 }
{}

/// Lines with `origin = "purge"`: in version 4 alone, with a key and no word but it.
#[tactic(auto, unfolding(crate::specs::LineTables::line_fault, crate::specs::LineTables::line_of_members, crate::specs::LineTables::is_line_host, crate::specs::LineTables::is_line_method, crate::specs::LineTables::is_line_path, crate::specs::Addresses::address_of, hx_target::specs::Hosts::is_host, hx_target::specs::Hosts::number_of_few_digits, hx_target::specs::Paths::has_dot_segment))]
pub fn worked_purging_lines()
    ensures known { is_known_key (Line Four) (key_of_line_option PurgeKey) ≡ true }
    ensures of_three { is_known_key (Line Three) (codes "key") ≡ false }
    ensures at_the_top { is_known_key (Top Four) (codes "key") ≡ false }
    ensures text { key_of_line_option PurgeKey ≡ codes "key" }
    ensures origin { is_line_origin Four (codes "purge") ≡ true }
    ensures origin_of_three { is_line_origin Three (codes "purge") ≡ false }
    ensures upper { is_line_origin Four (codes "Purge") ≡ false }
    ensures good { line_fault Four 1 (purging_line_table_with (key_with_text (codes "key") purge_key ∷ [])) ≡ None }
    ensures no_key { line_fault Four 1 (purging_line_table_with []) ≡ Some (BadWord 1 PurgeKey) }
    ensures short { line_fault Four 1 (purging_line_table_with
        (key_with_text (codes "key") (codes "0123456789abcXY") ∷ [])) ≡ Some (BadWord 1 PurgeKey) }
    ensures a_number { line_fault Four 1 (purging_line_table_with (key_with_number (codes "key") 1234567890123456 ∷ []))
        ≡ Some (BadWord 1 PurgeKey) }
    ensures with_cache { line_fault Four 1 (purging_line_table_with (key_with_text (codes "cache") (codes "on")
        ∷ key_with_text (codes "key") purge_key ∷ [])) ≡ Some (BadCache 1) }
    ensures with_a_lifetime { line_fault Four 1 (purging_line_table_with (key_with_text (codes "key") purge_key
        ∷ key_with_number (codes "lifetime") 5 ∷ [])) ≡ Some (BadWord 1 Lifetime) }
    ensures with_loops { line_fault Four 1 (purging_line_table_with (key_with_text (codes "key") purge_key
        ∷ key_with_text (codes "loops") (codes "refused") ∷ [])) ≡ Some (BadWord 1 Loops) }
    ensures with_a_timeout { line_fault Four 1 (purging_line_table_with (key_with_text (codes "key") purge_key
        ∷ key_with_number (codes "origin-timeout") 5 ∷ [])) ≡ Some (BadWord 1 OriginTimeout) }
    ensures elsewhere { line_fault Four 1 (line_table_with_keys (key_with_text (codes "key") purge_key ∷ []))
        ≡ Some (BadWord 1 PurgeKey) }
    ensures in_three { line_fault Three 1 (purging_line_table_with []) ≡ Some (BadOrigin 1) }
    ensures unknown { line_fault Three 1 (purging_line_table_with (key_with_text (codes "key") purge_key ∷ []))
        ≡ Some (UnknownKey (codes "key")) }
    ensures says { (line_of_members Four (purging_line_table_with (key_with_text (codes "key") purge_key ∷ []))).purge_key
        ≡ Some purge_key }
    ensures has_no_origin { (line_of_members Four
        (purging_line_table_with (key_with_text (codes "key") purge_key ∷ []))).origin ≡ None }
    ensures default { (line_of_members Four (line_table_with_keys [])).purge_key ≡ None }
{}
