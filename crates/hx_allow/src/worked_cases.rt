//! What the definitions give on worked cases of values, addresses, lines and matching, computed
//! from them: each function's contract is the cases, and its body is empty.
ghost use Rattle.std.specs.Prelude.{◌≡◌, ◌∷◌, ◌++◌, [], Some, None, true, false, codes, pos, negsuc};
ghost use Rattle.toml.specs.Data.{string, integer, boolean, array, table, no_items, no_members};
ghost use Rattle.hx_policy.specs.Policies.{plain};
ghost use Rattle.hx_allow.specs.Addresses.{address_of, address_of_numbers, is_ipv4_and_port, is_decimal_within};
ghost use Rattle.hx_allow.specs.Examples.{target_for_path, repeated_byte, lines_with_denying_line_first};
ghost use Rattle.hx_allow.specs.Examples.{example_lines_to_index};
ghost use Rattle.hx_allow.specs.Examples.{lines_without_and_with_cache, repeated_value};
ghost use Rattle.hx_allow.specs.Examples.{key_with_number, array_of_values, table_of_pairs, origin_8081};
ghost use Rattle.hx_allow.specs.Examples.{example_line_with_method, several_lines, key_with_text};
ghost use Rattle.hx_allow.specs.Index.{line_host_is_exactly, is_for_every_host, numbers_of_lines_with_host};
ghost use Rattle.hx_allow.specs.Index.{verdict_by_line_numbers};
ghost use Rattle.hx_allow.specs.Keys.{table_fault_number, key_text};
ghost use Rattle.hx_allow.specs.LineHosts.{line_host_matches};
ghost use Rattle.hx_allow.specs.LineTables.{are_texts_of_kind, is_line_host, is_line_method, is_line_origin};
ghost use Rattle.hx_allow.specs.LineTables.{is_line_path};
ghost use Rattle.hx_allow.specs.Matching.{line_policy, route_over_line, matches_method, matches_path};
ghost use Rattle.hx_allow.specs.Matching.{origin_of, origin_address_of, verdict_of};
ghost use Rattle.hx_allow.specs.PathTails.{path_may_match_tail, path_length_and_end_of};
ghost use Rattle.hx_allow.specs.NeverReached.{first_line_covering_line, line_covers_line};
ghost use Rattle.hx_allow.specs.Rows.{some_methods};
ghost use Rattle.hx_allow.specs.Tables.{is_name, number_of_key};
ghost use Rattle.hx_allow.specs.Values.{is_known_key, items_of_key, number_between, text_of_key};
ghost use Rattle.hx_allow.specs.declared.config_faults.TableFault.TheVariants.{NotToml, UnknownKey, BadName};
ghost use Rattle.hx_allow.specs.declared.config_faults.TableFault.TheVariants.{BadNumber};
ghost use Rattle.hx_allow.specs.declared.config_faults.TableFault.TheVariants.{BadHost, BadMethod, BadPath, BadOrigin};
ghost use Rattle.hx_allow.specs.declared.config_faults.TableFault.TheVariants.{NoLines, OutOfMemory, BadCache};
ghost use Rattle.hx_allow.specs.declared.config_faults.TableFault.TheVariants.{BadWord, MethodInLowerCase, StarInPath};
ghost use Rattle.hx_allow.specs.declared.config_faults.LineOption.TheVariants.{Lifetime};
ghost use Rattle.hx_allow.specs.declared.config_faults.NumberKey.TheVariants.{Version, Capacity, MaxBody, MaxStored};
ghost use Rattle.hx_allow.specs.declared.config_faults.NumberKey.TheVariants.{MaxStore};
ghost use Rattle.hx_allow.specs.declared.line_hosts.LineHost.TheVariants.{Every, One as OneHost};
ghost use Rattle.hx_allow.specs.declared.values.Scope.TheVariants.{Top, Line};
ghost use Rattle.hx_allow.specs.declared.values.TableVersion.TheVariants.{One, Two, Three, Four};
ghost use Rattle.hx_allow.specs.declared.verdicts.Verdict.TheVariants.{Allowed, DeniedBy, NoLine};

/// The numbers of the faults.
pub fn worked_table_fault_numbers()
    ensures not_toml { table_fault_number NotToml ≡ 1 }
    ensures unknown_key { table_fault_number (UnknownKey []) ≡ 2 }
    ensures bad_name { table_fault_number BadName ≡ 3 }
    ensures bad_number { table_fault_number (BadNumber Version) ≡ 4 }
    ensures bad_host { table_fault_number (BadHost 1) ≡ 5 }
    ensures bad_method { table_fault_number (BadMethod 1) ≡ 6 }
    ensures bad_path { table_fault_number (BadPath 1) ≡ 7 }
    ensures bad_origin { table_fault_number (BadOrigin 1) ≡ 8 }
    ensures no_lines { table_fault_number NoLines ≡ 9 }
    ensures out_of_memory { table_fault_number OutOfMemory ≡ 10 }
    ensures bad_cache { table_fault_number (BadCache 1) ≡ 11 }
    ensures bad_word { table_fault_number (BadWord 1 Lifetime) ≡ 12 }
    ensures method_in_lower_case { table_fault_number (MethodInLowerCase 1) ≡ 13 }
    ensures star_in_path { table_fault_number (StarInPath 1) ≡ 14 }
{}

/// The keys at the top of a table, and others.
pub fn worked_keys_at_the_top()
    ensures version { is_known_key (Top Four) (codes "version") ≡ true }
    ensures name { is_known_key (Top Four) (codes "name") ≡ true }
    ensures capacity { is_known_key (Top Four) (codes "capacity") ≡ true }
    ensures max_body { is_known_key (Top Four) (codes "max_body") ≡ true }
    ensures max_stored { is_known_key (Top Four) (codes "max_stored") ≡ true }
    ensures max_store { is_known_key (Top Four) (codes "max_store") ≡ true }
    ensures max_store_of_three { is_known_key (Top Three) (codes "max_store") ≡ false }
    ensures max_store_of_one { is_known_key (Top One) (codes "max_store") ≡ false }
    ensures max_stored_of_one { is_known_key (Top One) (codes "max_stored") ≡ true }
    ensures line { is_known_key (Top Four) (codes "line") ≡ true }
    ensures colour { is_known_key (Top Four) (codes "colour") ≡ false }
    ensures host { is_known_key (Top Four) (codes "host") ≡ false }
    ensures methods { is_known_key (Top Four) (codes "methods") ≡ false }
    ensures path { is_known_key (Top Four) (codes "path") ≡ false }
    ensures origin { is_known_key (Top Four) (codes "origin") ≡ false }
    ensures cache { is_known_key (Top Four) (codes "cache") ≡ false }
    ensures upper { is_known_key (Top Four) (codes "Version") ≡ false }
    ensures shorter { is_known_key (Top Four) (codes "lin") ≡ false }
    ensures longer { is_known_key (Top Four) (codes "lines") ≡ false }
    ensures empty { is_known_key (Top Four) [] ≡ false }
{}

/// The keys of a line: `cache` is one from the second version on.
pub fn worked_keys_of_a_line()
    ensures host { is_known_key (Line One) (codes "host") ≡ true }
    ensures methods { is_known_key (Line One) (codes "methods") ≡ true }
    ensures path { is_known_key (Line One) (codes "path") ≡ true }
    ensures origin { is_known_key (Line One) (codes "origin") ≡ true }
    ensures cache { is_known_key (Line One) (codes "cache") ≡ false }
    ensures cache_of_two { is_known_key (Line Two) (codes "cache") ≡ true }
    ensures host_of_two { is_known_key (Line Two) (codes "host") ≡ true }
    ensures methods_of_two { is_known_key (Line Two) (codes "methods") ≡ true }
    ensures path_of_two { is_known_key (Line Two) (codes "path") ≡ true }
    ensures origin_of_two { is_known_key (Line Two) (codes "origin") ≡ true }
    ensures name { is_known_key (Line Two) (codes "name") ≡ false }
    ensures version { is_known_key (Line Two) (codes "version") ≡ false }
    ensures line { is_known_key (Line Two) (codes "line") ≡ false }
    ensures one { is_known_key (Line Two) (codes "method") ≡ false }
{}

/// The text of a key is a string; a number isn't one.
pub fn worked_texts_of_config_keys()
    ensures is_present { text_of_key (codes "name")
        (table_of_pairs (key_with_number (codes "capacity") 2 ∷ key_with_text (codes "name") (codes "edge") ∷ [])) ≡ Some (codes "edge") }
    ensures missing { text_of_key (codes "name") (table_of_pairs (key_with_number (codes "capacity") 2 ∷ [])) ≡ None }
    ensures a_number { text_of_key (codes "name") (table_of_pairs (key_with_number (codes "name") 2 ∷ [])) ≡ None }
    ensures a_list { text_of_key (codes "name") (table_of_pairs
        ((codes "name", array (array_of_values (string (codes "edge") ∷ []))) ∷ [])) ≡ None }
    ensures items { items_of_key (codes "line") (table_of_pairs ((codes "line", array no_items) ∷ [])) ≡ Some no_items }
    ensures no_items { items_of_key (codes "line") (table_of_pairs ((codes "line", table no_members) ∷ [])) ≡ None }
{}

/// Numbers within bounds, and beside them.
pub fn worked_numbers_within_bounds()
    ensures least { number_between 1 65536 (Some (integer (pos 1))) ≡ Some 1 }
    ensures greatest { number_between 1 65536 (Some (integer (pos 65536))) ≡ Some 65536 }
    ensures below { number_between 1 65536 (Some (integer (pos 0))) ≡ None }
    ensures above { number_between 1 65536 (Some (integer (pos 65537))) ≡ None }
    ensures negative { number_between 0 65536 (Some (integer (negsuc 0))) ≡ None }
    ensures in_quotes { number_between 1 65536 (Some (string (codes "2"))) ≡ None }
    ensures a_word { number_between 0 1 (Some (boolean true)) ≡ None }
    ensures missing { number_between 0 1 None ≡ None }
{}

/// The least and the greatest number of each key, and those beside them.
pub fn worked_bounds_of_config_numbers()
    ensures version_0 { number_of_key Version (table_of_pairs (key_with_number (codes "version") 0 ∷ [])) ≡ None }
    ensures version_1 { number_of_key Version (table_of_pairs (key_with_number (codes "version") 1 ∷ [])) ≡ Some 1 }
    ensures version_2 { number_of_key Version (table_of_pairs (key_with_number (codes "version") 2 ∷ [])) ≡ Some 2 }
    ensures version_3 { number_of_key Version (table_of_pairs (key_with_number (codes "version") 3 ∷ [])) ≡ Some 3 }
    ensures version_4 { number_of_key Version (table_of_pairs (key_with_number (codes "version") 4 ∷ [])) ≡ Some 4 }
    ensures version_5 { number_of_key Version (table_of_pairs (key_with_number (codes "version") 5 ∷ [])) ≡ None }
    ensures capacity_0 { number_of_key Capacity (table_of_pairs (key_with_number (codes "capacity") 0 ∷ [])) ≡ None }
    ensures capacity_1 { number_of_key Capacity (table_of_pairs (key_with_number (codes "capacity") 1 ∷ [])) ≡ Some 1 }
    ensures capacity_65536 { number_of_key Capacity (table_of_pairs (key_with_number (codes "capacity") 65536 ∷ []))
        ≡ Some 65536 }
    ensures capacity_65537 { number_of_key Capacity (table_of_pairs (key_with_number (codes "capacity") 65537 ∷ [])) ≡ None }
    ensures max_body_0 { number_of_key MaxBody (table_of_pairs (key_with_number (codes "max_body") 0 ∷ [])) ≡ Some 0 }
    ensures max_body_16777216 { number_of_key MaxBody (table_of_pairs (key_with_number (codes "max_body") 16777216 ∷ []))
        ≡ Some 16777216 }
    ensures max_body_16777217 { number_of_key MaxBody (table_of_pairs (key_with_number (codes "max_body") 16777217
        ∷ [])) ≡ None }
    ensures max_stored_0 { number_of_key MaxStored (table_of_pairs (key_with_number (codes "max_stored") 0 ∷ [])) ≡ Some 0 }
    ensures max_stored_16777216 { number_of_key MaxStored
        (table_of_pairs (key_with_number (codes "max_stored") 16777216 ∷ [])) ≡ Some 16777216 }
    ensures max_stored_16777217 { number_of_key MaxStored
        (table_of_pairs (key_with_number (codes "max_stored") 16777217 ∷ [])) ≡ None }
    ensures max_store_65535 { number_of_key MaxStore (table_of_pairs (key_with_number (codes "max_store") 65535 ∷ [])) ≡ None }
    ensures max_store_65536 { number_of_key MaxStore (table_of_pairs (key_with_number (codes "max_store") 65536 ∷ []))
        ≡ Some 65536 }
    ensures max_store_1099511627776 { number_of_key MaxStore
        (table_of_pairs (key_with_number (codes "max_store") 1099511627776 ∷ [])) ≡ Some 1099511627776 }
    ensures max_store_1099511627777 { number_of_key MaxStore
        (table_of_pairs (key_with_number (codes "max_store") 1099511627777 ∷ [])) ≡ None }
{}

/// Names of proxies.
#[tactic(auto, unfolding(crate::specs::Tables::is_name))]
pub fn worked_names_of_proxies()
    ensures edge { is_name (codes "edge") ≡ true }
    ensures one_letter { is_name (codes "a") ≡ true }
    ensures last_letter { is_name (codes "z") ≡ true }
    ensures all_kinds { is_name (codes "az-09") ≡ true }
    ensures of_32 { is_name (repeated_byte 32 97) ≡ true }
    ensures of_33 { is_name (repeated_byte 33 97) ≡ false }
    ensures empty { is_name [] ≡ false }
    ensures digit_first { is_name (codes "1a") ≡ false }
    ensures hyphen_first { is_name (codes "-a") ≡ false }
    ensures upper { is_name (codes "eDge") ≡ false }
    ensures underscore { is_name (codes "a_b") ≡ false }
    ensures dot { is_name (codes "a.b") ≡ false }
{}

/// Hosts of lines: `*`, or a host in lower case without a port.
#[tactic(auto, unfolding(crate::specs::LineTables::is_line_host, hx_target::specs::Hosts::is_host))]
pub fn worked_hosts_of_lines()
    ensures any { is_line_host Three (codes "*") ≡ true }
    ensures name { is_line_host Three (codes "a-b.c_9") ≡ true }
    ensures address { is_line_host Three (codes "[::1]") ≡ true }
    ensures upper { is_line_host Three (codes "sHop") ≡ false }
    ensures upper_address { is_line_host Three (codes "[::A]") ≡ false }
    ensures port { is_line_host Three (codes "h:80") ≡ false }
    ensures open { is_line_host Three (codes "[::1") ≡ false }
    ensures pattern { is_line_host Three (codes "*.h") ≡ false }
    ensures twice { is_line_host Three (codes "**") ≡ false }
    ensures empty { is_line_host Three [] ≡ false }
{}

/// Methods of lines: `*`, or a token of at most 15 bytes (RFC 9110, section 9.1) other than the
/// three that no line allows.
#[tactic(auto, unfolding(crate::specs::LineTables::is_line_method))]
pub fn worked_methods_of_lines()
    ensures any { is_line_method (codes "*") ≡ true }
    ensures get { is_line_method (codes "GET") ≡ true }
    ensures lower { is_line_method (codes "get") ≡ true }
    ensures of_15 { is_line_method (codes "VERSION-CONTROL") ≡ true }
    ensures of_16 { is_line_method (codes "VERSION-CONTROLS") ≡ false }
    ensures connect { is_line_method (codes "CONNECT") ≡ false }
    ensures trace { is_line_method (codes "TRACE") ≡ false }
    ensures options { is_line_method (codes "OPTIONS") ≡ false }
    ensures two { is_line_method (codes "GET, HEAD") ≡ false }
    ensures empty { is_line_method [] ≡ false }
{}

/// A line has 1 to 32 methods, each of which is good.
#[tactic(auto, unfolding(crate::specs::LineTables::is_line_method))]
pub fn a_line_has_1_to_32_methods()
    ensures none { are_texts_of_kind One some_methods no_items ≡ false }
    ensures one { are_texts_of_kind One some_methods (repeated_value 1 (string (codes "GET"))) ≡ true }
    ensures of_32 { are_texts_of_kind One some_methods (repeated_value 32 (string (codes "GET"))) ≡ true }
    ensures of_33 { are_texts_of_kind One some_methods (repeated_value 33 (string (codes "GET"))) ≡ false }
    ensures second_bad { are_texts_of_kind One some_methods
        (array_of_values (string (codes "GET") ∷ string (codes "TRACE") ∷ [])) ≡ false }
    ensures first_bad { are_texts_of_kind One some_methods
        (array_of_values (integer (pos 1) ∷ string (codes "GET") ∷ [])) ≡ false }
{}

/// Paths of lines (RFC 3986, sections 2.1, 3.3 and 5.2.4).
#[tactic(auto, unfolding(crate::specs::LineTables::is_line_path, hx_target::specs::Paths::has_dot_segment))]
pub fn worked_paths_of_lines()
    ensures all { is_line_path (codes "/") ≡ true }
    ensures one { is_line_path (codes "/a") ≡ true }
    ensures closed { is_line_path (codes "/a/") ≡ false }
    ensures two_slashes { is_line_path (codes "//") ≡ false }
    ensures doubled { is_line_path (codes "//a") ≡ true }
    ensures no_slash { is_line_path (codes "a") ≡ false }
    ensures empty { is_line_path [] ≡ false }
    ensures query { is_line_path (codes "/a?b") ≡ false }
    ensures fragment { is_line_path (codes "/a#b") ≡ false }
    ensures blank { is_line_path (codes "/a b") ≡ false }
    ensures first_byte { is_line_path (47 ∷ 0x21 ∷ []) ≡ true }
    ensures last_byte { is_line_path (47 ∷ 0x7E ∷ []) ≡ true }
    ensures delete { is_line_path (47 ∷ 0x7F ∷ []) ≡ false }
    ensures escape { is_line_path (codes "/%41%2f") ≡ true }
    ensures short_escape { is_line_path (codes "/%4") ≡ false }
    ensures no_escape { is_line_path (codes "/%zz") ≡ false }
    ensures dots { is_line_path (codes "/x/../admin") ≡ false }
    ensures escaped_dots { is_line_path (codes "/x/%2e%2e/admin") ≡ false }
    ensures dot { is_line_path (codes "/a/.") ≡ false }
    ensures three_dots { is_line_path (codes "/...") ≡ true }
{}

/// Numbers in addresses are decimal, without leading zeros.
#[tactic(auto, unfolding(hx_target::specs::Hosts::number_of_few_digits))]
pub fn worked_numbers_in_addresses()
    ensures zero { is_decimal_within 0 255 (codes "0") ≡ true }
    ensures greatest { is_decimal_within 0 255 (codes "255") ≡ true }
    ensures above { is_decimal_within 0 255 (codes "256") ≡ false }
    ensures below { is_decimal_within 1 65535 (codes "0") ≡ false }
    ensures leading_zero { is_decimal_within 0 255 (codes "01") ≡ false }
    ensures two_zeros { is_decimal_within 0 255 (codes "00") ≡ false }
    ensures ten { is_decimal_within 0 255 (codes "10") ≡ true }
    ensures hexadecimal { is_decimal_within 0 255 (codes "ff") ≡ false }
    ensures sign { is_decimal_within 0 255 (codes "+1") ≡ false }
    ensures empty { is_decimal_within 0 255 [] ≡ false }
{}

/// Addresses of origins.
#[tactic(auto, unfolding(crate::specs::Addresses::address_of, hx_target::specs::Hosts::number_of_few_digits))]
pub fn worked_addresses_of_origins()
    ensures first_run { is_ipv4_and_port (codes "127.0.0.1:8081") ≡ true }
    ensures least { is_ipv4_and_port (codes "0.0.0.0:1") ≡ true }
    ensures greatest { is_ipv4_and_port (codes "255.255.255.255:65535") ≡ true }
    ensures port_0 { is_ipv4_and_port (codes "1.2.3.4:0") ≡ false }
    ensures port_65536 { is_ipv4_and_port (codes "1.2.3.4:65536") ≡ false }
    ensures port_with_zero { is_ipv4_and_port (codes "1.2.3.4:080") ≡ false }
    ensures no_port { is_ipv4_and_port (codes "1.2.3.4") ≡ false }
    ensures empty_port { is_ipv4_and_port (codes "1.2.3.4:") ≡ false }
    ensures blank { is_ipv4_and_port (codes "1.2.3.4:80 ") ≡ false }
    ensures first_256 { is_ipv4_and_port (codes "256.2.3.4:80") ≡ false }
    ensures second_256 { is_ipv4_and_port (codes "1.256.3.4:80") ≡ false }
    ensures third_256 { is_ipv4_and_port (codes "1.2.256.4:80") ≡ false }
    ensures fourth_256 { is_ipv4_and_port (codes "1.2.3.256:80") ≡ false }
    ensures three { is_ipv4_and_port (codes "1.2.3:80") ≡ false }
    ensures five { is_ipv4_and_port (codes "1.2.3.4.5:80") ≡ false }
    ensures name { is_ipv4_and_port (codes "localhost:80") ≡ false }
    ensures colons { is_ipv4_and_port (codes "1:2:3:4:80") ≡ false }
    ensures dots { is_ipv4_and_port (codes "1.2.3.4.80") ≡ false }
{}

/// The addresses that texts and lines spell.
#[tactic(auto, unfolding(crate::specs::Addresses::address_of, hx_target::specs::Hosts::number_of_few_digits))]
pub fn worked_addresses_that_are_read()
    ensures first_run { address_of (codes "127.0.0.1:8081") ≡ Some (address_of_numbers 127 0 0 1 8081) }
    ensures five_numbers { address_of (codes "1.20.255.0:65535") ≡ Some (address_of_numbers 1 20 255 0 65535) }
    ensures none { address_of (codes "1.2.3.4:0") ≡ None }
    ensures allowing { origin_address_of lines_with_denying_line_first 2 ≡ Some (address_of_numbers 127 0 0 1 8081) }
    ensures denying { origin_address_of lines_with_denying_line_first 1 ≡ None }
{}

/// Origins of lines: `deny`, or an address.
#[tactic(auto, unfolding(crate::specs::Addresses::address_of, hx_target::specs::Hosts::number_of_few_digits))]
pub fn worked_origins_of_lines()
    ensures deny { is_line_origin Four (codes "deny") ≡ true }
    ensures address { is_line_origin Four (codes "127.0.0.1:8081") ≡ true }
    ensures upper { is_line_origin Four (codes "Deny") ≡ false }
    ensures allow { is_line_origin Four (codes "allow") ≡ false }
    ensures empty { is_line_origin Four [] ≡ false }
{}

/// Hosts compare by their bytes, and a line without one matches each.
pub fn worked_hosts_that_match()
    ensures any { line_host_matches Every (codes "h") ≡ true }
    ensures same { line_host_matches (OneHost (codes "x")) (codes "x") ≡ true }
    ensures other { line_host_matches (OneHost (codes "x")) (codes "h") ≡ false }
    ensures longer { line_host_matches (OneHost (codes "x")) (codes "xy") ≡ false }
    ensures within { line_host_matches (OneHost (codes "x.y")) (codes "a.x.y") ≡ false }
    ensures final_dot { line_host_matches (OneHost (codes "x")) (codes "x.") ≡ false }
{}

/// Methods compare with their case (RFC 9110, section 9.1); `*` is every method but three.
pub fn worked_methods_that_match()
    ensures same { matches_method (codes "GET" ∷ []) (codes "GET") ≡ true }
    ensures second { matches_method (codes "GET" ∷ codes "HEAD" ∷ []) (codes "HEAD") ≡ true }
    ensures other { matches_method (codes "GET" ∷ []) (codes "HEAD") ≡ false }
    ensures lower { matches_method (codes "GET" ∷ []) (codes "get") ≡ false }
    ensures none { matches_method [] (codes "GET") ≡ false }
    ensures any { matches_method (codes "*" ∷ []) (codes "BREW") ≡ true }
    ensures any_of_two { matches_method (codes "GET" ∷ codes "*" ∷ []) (codes "POST") ≡ true }
    ensures connect { matches_method (codes "*" ∷ []) (codes "CONNECT") ≡ false }
    ensures trace { matches_method (codes "*" ∷ []) (codes "TRACE") ≡ false }
    ensures options { matches_method (codes "*" ∷ []) (codes "OPTIONS") ≡ false }
    ensures named_options { matches_method (codes "OPTIONS" ∷ []) (codes "OPTIONS") ≡ false }
{}

/// A path matches itself and what continues it with a slash; `/` matches all.
pub fn worked_paths_that_match()
    ensures same { matches_path (codes "/admin") (codes "/admin") ≡ true }
    ensures continued { matches_path (codes "/admin") (codes "/admin/x") ≡ true }
    ensures closed { matches_path (codes "/admin") (codes "/admin/") ≡ true }
    ensures longer { matches_path (codes "/admin") (codes "/admins") ≡ false }
    ensures shorter { matches_path (codes "/admin") (codes "/admi") ≡ false }
    ensures upper { matches_path (codes "/admin") (codes "/Admin") ≡ false }
    ensures within { matches_path (codes "/admin") (codes "/x/admin") ≡ false }
    ensures of_one_length { matches_path (codes "/admin") (codes "/other/x") ≡ false }
    ensures root { matches_path (codes "/admin") (codes "/") ≡ false }
    ensures all { matches_path (codes "/") (codes "/x") ≡ true }
    ensures all_of_root { matches_path (codes "/") (codes "/") ≡ true }
    ensures two_slashes { matches_path (codes "/admin") (codes "//admin") ≡ false }
{}

/// The first line decides, also against a later one that allows; an escape in the asked path hides nothing.
#[tactic(auto, unfolding(crate::specs::Matching::verdict_of, crate::specs::Matching::matches_line))]
pub fn worked_first_line_denies()
    ensures escaped { verdict_of lines_with_denying_line_first (codes "GET")
        (target_for_path (codes "h") (codes "/%61dmin")) ≡ DeniedBy 1 }
    ensures head { verdict_of lines_with_denying_line_first (codes "HEAD")
        (target_for_path (codes "h") (codes "/%61dmin")) ≡ DeniedBy 1 }
    ensures other_path { verdict_of lines_with_denying_line_first (codes "GET") (target_for_path (codes "h") (codes "/admins"))
        ≡ Allowed (route_over_line 2) }
    ensures other_method { verdict_of lines_with_denying_line_first (codes "POST")
        (target_for_path (codes "h") (codes "/x")) ≡ NoLine }
    ensures connect { verdict_of lines_with_denying_line_first (codes "CONNECT")
        (target_for_path (codes "h") (codes "/admin")) ≡ NoLine }
    ensures no_lines { verdict_of [] (codes "GET") (target_for_path (codes "h") (codes "/x")) ≡ NoLine }
{}

/// A line for every host and one for one of them.
#[tactic(auto, unfolding(crate::specs::Matching::verdict_of, crate::specs::Matching::matches_line))]
pub fn worked_verdicts_of_several_lines()
    ensures denied { verdict_of several_lines (codes "GET") (target_for_path (codes "h") (codes "/admin/x")) ≡ DeniedBy 1 }
    ensures allowed { verdict_of several_lines (codes "GET") (target_for_path (codes "x") (codes "/admins"))
        ≡ Allowed (route_over_line 2) }
    ensures no_line { verdict_of several_lines (codes "GET") (target_for_path (codes "h") (codes "/b")) ≡ NoLine }
    ensures other_port { verdict_of several_lines (codes "GET") (record (target_for_path (codes "x") (codes "/b")) {
      key = record { host = codes "x"; port = 8080; path_query = codes "/b?q" };
    }) ≡ Allowed (route_over_line 2) }
{}

/// Lines of one host around one for every host: those that a host can match, and which of them decides.
#[tactic(auto, unfolding(crate::specs::Matching::verdict_of, crate::specs::Matching::matches_line))]
pub fn worked_verdicts_of_indexed_lines()
    ensures denied { verdict_of example_lines_to_index (codes "GET") (target_for_path (codes "x") (codes "/p/q")) ≡ DeniedBy 1 }
    ensures for_every_host { verdict_of example_lines_to_index (codes "GET") (target_for_path (codes "x") (codes "/"))
        ≡ Allowed (route_over_line 2) }
    ensures behind_it { verdict_of example_lines_to_index (codes "POST") (target_for_path (codes "x") (codes "/"))
        ≡ Allowed (route_over_line 3) }
    ensures other_host { verdict_of example_lines_to_index (codes "POST") (target_for_path (codes "y") (codes "/")) ≡ NoLine }
    ensures numbers { numbers_of_lines_with_host (line_host_is_exactly (codes "x")) example_lines_to_index ≡ 1 ∷ 3 ∷ [] }
    ensures numbers_of_others { numbers_of_lines_with_host (line_host_is_exactly (codes "y")) example_lines_to_index
        ≡ [] }
    ensures numbers_for_every_host { numbers_of_lines_with_host is_for_every_host example_lines_to_index ≡ 2 ∷ [] }
    ensures among { verdict_by_line_numbers example_lines_to_index (1 ∷ 2 ∷ 3 ∷ []) (codes "POST") (codes "/") NoLine
        ≡ Allowed (route_over_line 3) }
    ensures among_others { verdict_by_line_numbers example_lines_to_index (2 ∷ []) (codes "POST") (codes "/") NoLine
        ≡ NoLine }
    ensures among_none { verdict_by_line_numbers example_lines_to_index (0 ∷ 4 ∷ []) (codes "GET") (codes "/") NoLine
        ≡ NoLine }
    ensures behind_a_missing_one { verdict_by_line_numbers example_lines_to_index (4 ∷ 2 ∷ []) (codes "GET")
        (codes "/") NoLine
        ≡ Allowed (route_over_line 2) }
    ensures among_denied { verdict_by_line_numbers example_lines_to_index (1 ∷ 2 ∷ []) (codes "GET") (codes "/p/q") NoLine
        ≡ DeniedBy 1 }
    ensures in_front { verdict_by_line_numbers example_lines_to_index (2 ∷ []) (codes "GET") (codes "/")
        (Allowed (route_over_line 3))
        ≡ Allowed (route_over_line 2) }
    ensures found_in_front { verdict_by_line_numbers example_lines_to_index (2 ∷ []) (codes "GET") (codes "/") (DeniedBy 1)
        ≡ DeniedBy 1 }
    ensures found_alone { verdict_by_line_numbers example_lines_to_index (2 ∷ []) (codes "POST") (codes "/")
        (Allowed (route_over_line 3))
        ≡ Allowed (route_over_line 3) }
{}

/// Which lines are cached, and which say nothing.
pub fn worked_lines_with_cache()
    ensures off { line_policy lines_without_and_with_cache 1 ≡ plain false }
    ensures on { line_policy lines_without_and_with_cache 2 ≡ plain true }
    ensures behind_the_last { line_policy lines_without_and_with_cache 3 ≡ plain false }
    ensures none { line_policy lines_with_denying_line_first 0 ≡ plain false }
{}

/// The origin of a line.
pub fn worked_origins_of_line_numbers()
    ensures denying { origin_of lines_with_denying_line_first 1 ≡ None }
    ensures allowing { origin_of lines_with_denying_line_first 2 ≡ origin_8081 }
    ensures behind_the_last { origin_of lines_with_denying_line_first 3 ≡ None }
    ensures none { origin_of lines_without_and_with_cache 0 ≡ None }
{}

/// The last byte of a line's path has to stand where it stands there; `/` asks for none.
pub fn worked_last_bytes_of_paths()
    ensures tail { path_length_and_end_of (codes "/admin") ≡ record { size = 6; last = 110 } }
    ensures root { path_length_and_end_of (codes "/") ≡ record { size = 0; last = 0 } }
    ensures is_present { path_may_match_tail (path_length_and_end_of (codes "/admin")) (codes "/login/x") ≡ true }
    ensures other { path_may_match_tail (path_length_and_end_of (codes "/admin")) (codes "/admit") ≡ false }
    ensures short { path_may_match_tail (path_length_and_end_of (codes "/admin")) (codes "/a") ≡ false }
    ensures all { path_may_match_tail (path_length_and_end_of (codes "/")) (codes "/x") ≡ true }
{}

/// The keys of numbers, as a table spells them.
pub fn worked_keys_of_numbers()
    ensures version { key_text Version ≡ codes "version" }
    ensures capacity { key_text Capacity ≡ codes "capacity" }
    ensures max_body { key_text MaxBody ≡ codes "max_body" }
    ensures max_stored { key_text MaxStored ≡ codes "max_stored" }
    ensures max_store { key_text MaxStore ≡ codes "max_store" }
{}

/// A line in front takes another where its host, its methods and its path take those.
#[tactic(auto, unfolding(crate::specs::NeverReached::line_covers_line))]
pub fn worked_lines_never_reached()
    ensures same { line_covers_line (example_line_with_method None (codes "GET") (codes "/a") origin_8081)
        (example_line_with_method None (codes "GET") (codes "/a") None) ≡ true }
    ensures below { line_covers_line (example_line_with_method None (codes "GET") (codes "/a") origin_8081)
        (example_line_with_method None (codes "GET") (codes "/a/b") None) ≡ true }
    ensures above { line_covers_line (example_line_with_method None (codes "GET") (codes "/a/b") origin_8081)
        (example_line_with_method None (codes "GET") (codes "/a") None) ≡ false }
    ensures beside { line_covers_line (example_line_with_method None (codes "GET") (codes "/a") origin_8081)
        (example_line_with_method None (codes "GET") (codes "/ab") None) ≡ false }
    ensures root { line_covers_line (example_line_with_method None (codes "GET") (codes "/") origin_8081)
        (example_line_with_method None (codes "GET") (codes "/admin") None) ≡ true }
    ensures under_root { line_covers_line (example_line_with_method None (codes "GET") (codes "/a") origin_8081)
        (example_line_with_method None (codes "GET") (codes "/") None) ≡ false }
    ensures any_method { line_covers_line (example_line_with_method None (codes "*") (codes "/") origin_8081)
        (example_line_with_method None (codes "POST") (codes "/") None) ≡ true }
    ensures other_method { line_covers_line (example_line_with_method None (codes "GET") (codes "/") origin_8081)
        (example_line_with_method None (codes "POST") (codes "/") None) ≡ false }
    ensures one_of_all { line_covers_line (example_line_with_method None (codes "GET") (codes "/") origin_8081)
        (example_line_with_method None (codes "*") (codes "/") None) ≡ false }
    ensures any_host { line_covers_line (example_line_with_method None (codes "GET") (codes "/") origin_8081)
        (example_line_with_method (Some (codes "x")) (codes "GET") (codes "/") None) ≡ true }
    ensures one_host { line_covers_line (example_line_with_method (Some (codes "x")) (codes "GET") (codes "/") origin_8081)
        (example_line_with_method None (codes "GET") (codes "/") None) ≡ false }
    ensures other_host { line_covers_line (example_line_with_method (Some (codes "x")) (codes "GET") (codes "/") origin_8081)
        (example_line_with_method (Some (codes "y")) (codes "GET") (codes "/") None) ≡ false }
    ensures denial_in_front { first_line_covering_line lines_with_denying_line_first 2 ≡ None }
    ensures denial_behind { first_line_covering_line (example_line_with_method None (codes "*") (codes "/") origin_8081
        ∷ example_line_with_method None (codes "*") (codes "/admin") None ∷ []) 2 ≡ Some 1 }
    ensures first { first_line_covering_line lines_with_denying_line_first 1 ≡ None }
    ensures missing { first_line_covering_line lines_with_denying_line_first 3 ≡ None }
{}
