//! What the definitions give on worked tables and lines, computed from them: each function's
//! contract is the cases, and its body is empty.
ghost use Rattle.std.specs.Prelude.{◌≡◌, ◌∷◌, [], Some, None, Ok, Err, true, false, codes, option_map, pos, map};
ghost use Rattle.toml.specs.Data.{array, boolean, integer, no_items, no_members, string, table};
ghost use Rattle.toml.specs.Parse.{parse_document};
ghost use Rattle.hx_policy.specs.Policies.{plain};
ghost use Rattle.hx_allow.specs.Examples.{denying_line_table_with, line_table, repeated_value};
ghost use Rattle.hx_allow.specs.Examples.{methods_key_of_one_method};
ghost use Rattle.hx_allow.specs.Examples.{key_with_number, array_of_values, table_of_pairs, example_line_with_method};
ghost use Rattle.hx_allow.specs.Examples.{origin_8081, key_with_text, table_with_lines, table_with_bounds};
ghost use Rattle.hx_allow.specs.Examples.{line_table_with_keys};
ghost use Rattle.hx_allow.specs.Examples.{line_of_version_four, policy_of_version_four};
ghost use Rattle.hx_allow.specs.LineTables.{line_fault, line_of_members, first_fault_of_lines, lines_of_tables};
ghost use Rattle.hx_allow.specs.Tables.{config_or_fault_of_table, most_lines_of_version, line_tables_of_toml};
ghost use Rattle.hx_allow.specs.Tables.{table_version_of};
ghost use Rattle.hx_allow.specs.Tables.{out_of_memory_may_precede_fault};
ghost use Rattle.hx_allow.specs.declared.config_faults.TableFault.TheVariants.{UnknownKey, BadName, BadNumber};
ghost use Rattle.hx_allow.specs.declared.config_faults.TableFault.TheVariants.{BadHost};
ghost use Rattle.hx_allow.specs.declared.config_faults.TableFault.TheVariants.{BadMethod, BadPath, BadOrigin, NoLines};
ghost use Rattle.hx_allow.specs.declared.config_faults.TableFault.TheVariants.{BadCache, MethodInLowerCase};
ghost use Rattle.hx_allow.specs.declared.config_faults.TableFault.TheVariants.{StarInPath};
ghost use Rattle.hx_allow.specs.declared.config_faults.NumberKey.TheVariants.{Version, Capacity, MaxBody, MaxStored};
ghost use Rattle.hx_allow.specs.declared.config_faults.NumberKey.TheVariants.{MaxStore};
ghost use Rattle.hx_allow.specs.declared.line_hosts.LineHost.TheVariants.{Every};
ghost use Rattle.hx_allow.specs.declared.values.TableVersion.TheVariants.{One, Two, Three, Four};

/// The faults of a line in their order: with each that is mended the next one is told.
#[tactic(auto, unfolding(crate::specs::LineTables::line_fault, crate::specs::LineTables::is_line_host, crate::specs::LineTables::is_line_method, crate::specs::LineTables::is_line_path, crate::specs::Addresses::address_of, hx_target::specs::Hosts::is_host, hx_target::specs::Hosts::number_of_few_digits, hx_target::specs::Paths::has_dot_segment))]
pub fn worked_order_of_line_faults()
    ensures unknown { line_fault One 3 (table_of_pairs (key_with_text (codes "colour") (codes "red") ∷ key_with_text
        (codes "host") (codes "H")
        ∷ [])) ≡ Some (UnknownKey (codes "colour")) }
    ensures host { line_fault One 3 (line_table (codes "H") (codes "TRACE") (codes "/a/") (codes "allow")) ≡ Some (BadHost 3) }
    ensures method { line_fault One 3 (line_table (codes "h") (codes "TRACE") (codes "/a/") (codes "allow")) ≡ Some (BadMethod 3) }
    ensures path { line_fault One 3 (line_table (codes "h") (codes "GET") (codes "/a/") (codes "allow")) ≡ Some (BadPath 3) }
    ensures origin { line_fault One 3 (line_table (codes "h") (codes "GET") (codes "/a") (codes "allow")) ≡ Some (BadOrigin 3) }
    ensures none { line_fault One 3 (line_table (codes "h") (codes "GET") (codes "/a") (codes "deny")) ≡ None }
{}

/// What the fourth version refuses of a line whose keys are good: a method in lower case, and a `*`
/// in a path.
#[tactic(auto, unfolding(crate::specs::LineTables::line_fault, crate::specs::LineTables::is_line_host, crate::specs::LineTables::is_line_method, crate::specs::LineTables::is_line_path, crate::specs::Addresses::address_of, hx_target::specs::Hosts::is_host, hx_target::specs::Hosts::number_of_few_digits, hx_target::specs::Paths::has_dot_segment))]
pub fn worked_refused_spellings_of_lines()
    ensures none { line_fault Four 3 (line_table (codes "h") (codes "GET") (codes "/a") (codes "deny")) ≡ None }
    ensures every { line_fault Four 3 (line_table (codes "*") (codes "*") (codes "/") (codes "deny")) ≡ None }
    ensures method { line_fault Four 3 (line_table (codes "h") (codes "get") (codes "/a") (codes "deny"))
        ≡ Some (MethodInLowerCase 3) }
    ensures mixed { line_fault Four 3 (line_table (codes "h") (codes "Get") (codes "/a") (codes "deny"))
        ≡ Some (MethodInLowerCase 3) }
    ensures star { line_fault Four 3 (line_table (codes "h") (codes "GET") (codes "/a*") (codes "deny"))
        ≡ Some (StarInPath 3) }
    ensures both { line_fault Four 3 (line_table (codes "h") (codes "get") (codes "/*") (codes "deny"))
        ≡ Some (MethodInLowerCase 3) }
    ensures escaped { line_fault Four 3 (line_table (codes "h") (codes "GET") (codes "/%2A") (codes "deny")) ≡ None }
    ensures behind_the_keys { line_fault Four 3 (line_table (codes "h") (codes "get") (codes "/*") (codes "allow"))
        ≡ Some (BadOrigin 3) }
    ensures of_three { line_fault Three 3 (line_table (codes "h") (codes "get") (codes "/*") (codes "deny")) ≡ None }
    ensures of_one { line_fault One 3 (line_table (codes "h") (codes "get") (codes "/*") (codes "deny")) ≡ None }
{}

/// A key that is missing has the fault of that key, as one of another type.
#[tactic(auto, unfolding(crate::specs::LineTables::line_fault, crate::specs::LineTables::is_line_host, crate::specs::LineTables::is_line_method, crate::specs::LineTables::is_line_path, crate::specs::Addresses::address_of, hx_target::specs::Hosts::is_host, hx_target::specs::Hosts::number_of_few_digits, hx_target::specs::Paths::has_dot_segment))]
pub fn worked_missing_keys_of_a_line()
    ensures all { line_fault One 1 no_members ≡ Some (BadHost 1) }
    ensures methods { line_fault One 1 (table_of_pairs (key_with_text (codes "host") (codes "*") ∷ key_with_text
        (codes "origin") (codes "deny")
        ∷ key_with_text (codes "path") (codes "/") ∷ [])) ≡ Some (BadMethod 1) }
    ensures path { line_fault One 1
        (table_of_pairs (key_with_text (codes "host") (codes "*") ∷ methods_key_of_one_method (codes "GET")
        ∷ key_with_text (codes "origin") (codes "deny") ∷ [])) ≡ Some (BadPath 1) }
    ensures origin { line_fault One 1
        (table_of_pairs (key_with_text (codes "host") (codes "*") ∷ methods_key_of_one_method (codes "GET")
        ∷ key_with_text (codes "path") (codes "/") ∷ [])) ≡ Some (BadOrigin 1) }
    ensures no_text { line_fault One 1
        (table_of_pairs (key_with_number (codes "host") 1 ∷ methods_key_of_one_method (codes "GET")
        ∷ key_with_text (codes "origin") (codes "deny") ∷ key_with_text (codes "path") (codes "/") ∷ [])) ≡ Some (BadHost 1) }
    ensures no_list { line_fault One 1 (table_of_pairs (key_with_text (codes "host") (codes "*") ∷ key_with_text
        (codes "methods") (codes "GET")
        ∷ key_with_text (codes "origin") (codes "deny") ∷ key_with_text (codes "path") (codes "/") ∷ [])) ≡ Some (BadMethod 1) }
{}

/// `cache` in a line: two words, in the second version, and not in a line that denies. It is looked
/// at after the origin.
#[tactic(auto, unfolding(crate::specs::LineTables::line_fault, crate::specs::LineTables::is_line_host, crate::specs::LineTables::is_line_method, crate::specs::LineTables::is_line_path, crate::specs::Addresses::address_of, hx_target::specs::Hosts::is_host, hx_target::specs::Hosts::number_of_few_digits, hx_target::specs::Paths::has_dot_segment))]
pub fn worked_cache_of_a_line()
    ensures on { line_fault Two 1 (line_table_with_keys (key_with_text (codes "cache") (codes "on") ∷ [])) ≡ None }
    ensures off { line_fault Two 1 (line_table_with_keys (key_with_text (codes "cache") (codes "off") ∷ [])) ≡ None }
    ensures missing { line_fault Two 1 (line_table_with_keys []) ≡ None }
    ensures no { line_fault Two 1 (line_table_with_keys (key_with_text (codes "cache") (codes "no") ∷ [])) ≡ Some
        (BadCache 1) }
    ensures upper { line_fault Two 1 (line_table_with_keys (key_with_text (codes "cache") (codes "Off") ∷ [])) ≡ Some
        (BadCache 1) }
    ensures no_text { line_fault Two 1 (line_table_with_keys ((codes "cache", boolean false) ∷ [])) ≡ Some (BadCache 1) }
    ensures denying { line_fault Two 1 (denying_line_table_with (key_with_text (codes "cache") (codes "on") ∷ []))
        ≡ Some (BadCache 1) }
    ensures denying_without { line_fault Two 1 (denying_line_table_with []) ≡ None }
    ensures of_version_one { line_fault One 1 (line_table_with_keys (key_with_text (codes "cache") (codes "on") ∷ []))
        ≡ Some (UnknownKey (codes "cache")) }
    ensures behind_the_origin { line_fault Two 1
        (table_of_pairs (key_with_text (codes "cache") (codes "no") ∷ key_with_text (codes "host") (codes "*")
        ∷ methods_key_of_one_method (codes "GET")
        ∷ key_with_text (codes "origin") (codes "allow") ∷ key_with_text (codes "path") (codes "/") ∷ [])) ≡ Some (BadOrigin 1) }
{}

/// What lines say: `*` is no host, `deny` no origin, a path is a table path, and each is cached that doesn't say `off`.
#[tactic(auto, unfolding(crate::specs::LineTables::line_of_members, crate::specs::Addresses::address_of, hx_target::specs::Hosts::number_of_few_digits))]
pub fn worked_lines()
    ensures every_host { line_of_members Three (line_table (codes "*") (codes "GET") (codes "/") (codes "127.0.0.1:8081"))
        ≡ example_line_with_method None (codes "GET") (codes "/") origin_8081 }
    ensures one_host { line_of_members Three (line_table (codes "x") (codes "*") (codes "/%61dmin%2f") (codes "deny"))
        ≡ example_line_with_method (Some (codes "x")) (codes "*") (codes "/admin%2F") None }
    ensures off { line_of_members Three (line_table_with_keys (key_with_text (codes "cache") (codes "off") ∷ []))
        ≡ record (example_line_with_method None (codes "GET") (codes "/") origin_8081) { policy = plain false } }
    ensures on { line_of_members Three (line_table_with_keys (key_with_text (codes "cache") (codes "on") ∷ []))
        ≡ example_line_with_method None (codes "GET") (codes "/") origin_8081 }
    ensures two_methods { line_of_members Three (table_of_pairs (key_with_text (codes "host") (codes "*")
        ∷ (codes "methods", array (array_of_values (string (codes "GET") ∷ string (codes "HEAD") ∷ [])))
        ∷ key_with_text (codes "origin") (codes "deny") ∷ key_with_text (codes "path") (codes "/") ∷ [])) ≡ record {
          hosts = Every ∷ [];
          methods = codes "GET" ∷ codes "HEAD" ∷ [];
          paths = codes "/" ∷ [];
          origin = None;
          policy = plain true;
          refuses_loops = false;
          session_cookies = [];
          vary = [];
          origin_timeout = None;
          purge_key = None;
          wait_timeout = None;
        } }
{}

/// Lines are read in their order and counted from 1, and the first at fault is told.
#[tactic(auto, unfolding(crate::specs::LineTables::line_fault, crate::specs::LineTables::line_of_members, crate::specs::LineTables::is_line_host, crate::specs::LineTables::is_line_method, crate::specs::LineTables::is_line_path, crate::specs::Addresses::address_of, hx_target::specs::Hosts::is_host, hx_target::specs::Hosts::number_of_few_digits, hx_target::specs::Paths::has_dot_segment))]
pub fn worked_order_of_lines()
    ensures first { first_fault_of_lines One 1 (array_of_values (table (line_table (codes "*") (codes "GET") (codes "/a/")
        (codes "deny")) ∷ table (line_table (codes "H") (codes "GET") (codes "/") (codes "deny")) ∷ []))
        ≡ Some (BadPath 1) }
    ensures second { first_fault_of_lines One 1
        (array_of_values (table (line_table (codes "*") (codes "GET") (codes "/a") (codes "deny"))
        ∷ table (line_table (codes "H") (codes "GET") (codes "/") (codes "deny")) ∷ [])) ≡ Some (BadHost 2) }
    ensures none { first_fault_of_lines One 1 (array_of_values (table (line_table_with_keys []) ∷ table
        (denying_line_table_with []) ∷ [])) ≡ None }
    ensures both { lines_of_tables Three (array_of_values (table (denying_line_table_with [])
        ∷ table (line_table_with_keys [])
        ∷ []))
        ≡ example_line_with_method None (codes "GET") (codes "/") None ∷ example_line_with_method None (codes "GET")
        (codes "/") origin_8081 ∷ [] }
{}

/// A table has 1 to 256 lines, or 1 to 4,096 in the fourth version, each of which is a table.
pub fn a_table_has_1_to_256_or_4096_lines()
    ensures one { line_tables_of_toml (table_with_lines 1 2 (repeated_value 1 (table no_members))) ≡ Some
        (repeated_value 1 (table no_members)) }
    ensures of_256 { line_tables_of_toml (table_with_lines 1 2 (repeated_value 256 (table no_members))) ≡ Some
        (repeated_value 256 (table no_members)) }
    ensures of_257 { line_tables_of_toml (table_with_lines 1 2 (repeated_value 257 (table no_members))) ≡ None }
    ensures of_257_in_three { line_tables_of_toml (table_with_lines 3 2 (repeated_value 257 (table no_members)))
        ≡ None }
    ensures of_257_in_four { line_tables_of_toml (table_with_lines 4 2 (repeated_value 257 (table no_members))) ≡ Some
        (repeated_value 257 (table no_members)) }
    ensures limits { map most_lines_of_version (One ∷ Two ∷ Three ∷ Four ∷ []) ≡ 256 ∷ 256 ∷ 256 ∷ 4096 ∷ [] }
    ensures none { line_tables_of_toml (table_with_lines 1 2 no_items) ≡ None }
    ensures a_text { line_tables_of_toml (table_with_lines 1 2 (array_of_values (table no_members
        ∷ string (codes "line") ∷ [])))
        ≡ None }
    ensures missing { line_tables_of_toml no_members ≡ None }
    ensures one_table { line_tables_of_toml (table_of_pairs ((codes "line", table no_members) ∷ [])) ≡ None }
{}

/// The version of a table decides on the keys of its lines.
pub fn worked_versions_of_tables()
    ensures one { table_version_of (table_with_lines 1 2 no_items) ≡ One }
    ensures two { table_version_of (table_with_lines 2 2 no_items) ≡ Two }
    ensures three { table_version_of (table_with_lines 3 2 no_items) ≡ Three }
    ensures four { table_version_of (table_with_lines 4 2 no_items) ≡ Four }
    ensures five { table_version_of (table_with_lines 5 2 no_items) ≡ One }
    ensures missing { table_version_of no_members ≡ One }
{}

/// The faults of a table in their order: with each that is mended the next one is told.
#[tactic(auto, unfolding(crate::specs::Tables::config_or_fault_of_table, crate::specs::Tables::table_fault, crate::specs::Tables::is_name, crate::specs::LineTables::line_fault, crate::specs::LineTables::is_line_host, crate::specs::LineTables::is_line_method, crate::specs::LineTables::is_line_path, crate::specs::Addresses::address_of, hx_target::specs::Hosts::is_host, hx_target::specs::Hosts::number_of_few_digits, hx_target::specs::Paths::has_dot_segment))]
pub fn worked_order_of_table_faults()
    ensures unknown { config_or_fault_of_table (table_of_pairs (key_with_number (codes "colour") 1 ∷ []))
        ≡ Err (UnknownKey (codes "colour")) }
    ensures name { config_or_fault_of_table no_members ≡ Err BadName }
    ensures bad_name { config_or_fault_of_table (table_of_pairs (key_with_text (codes "name") (codes "Edge") ∷ []))
        ≡ Err BadName }
    ensures version { config_or_fault_of_table (table_of_pairs (key_with_text (codes "name") (codes "edge") ∷ [])) ≡ Err
        (BadNumber Version) }
    ensures capacity { config_or_fault_of_table (table_of_pairs (key_with_text (codes "name") (codes "edge") ∷ key_with_number
        (codes "version") 1 ∷ []))
        ≡ Err (BadNumber Capacity) }
    ensures max_body { config_or_fault_of_table
        (table_of_pairs (key_with_number (codes "capacity") 2 ∷ key_with_text (codes "name") (codes "edge")
        ∷ key_with_number (codes "version") 1 ∷ [])) ≡ Err (BadNumber MaxBody) }
    ensures max_stored { config_or_fault_of_table
        (table_of_pairs (key_with_number (codes "capacity") 2 ∷ key_with_number (codes "max_body") 0
        ∷ key_with_text (codes "name") (codes "edge") ∷ key_with_number (codes "version") 1 ∷ [])) ≡ Err (BadNumber MaxStored) }
    ensures no_lines { config_or_fault_of_table
        (table_of_pairs (key_with_number (codes "capacity") 2 ∷ key_with_number (codes "max_body") 0
        ∷ key_with_number (codes "max_stored") 0 ∷ key_with_text (codes "name") (codes "edge") ∷ key_with_number (codes "version") 1 ∷ []))
        ≡ Err NoLines }
    ensures empty_lines { config_or_fault_of_table (table_with_lines 1 2 no_items) ≡ Err NoLines }
    ensures first_line { config_or_fault_of_table (table_with_lines 1 2 (repeated_value 1 (table no_members)))
        ≡ Err (BadHost 1) }
    ensures cache_of_one { config_or_fault_of_table (table_with_lines 1 2
        (repeated_value 1 (table (line_table_with_keys (key_with_text (codes "cache") (codes "on") ∷ []))))) ≡ Err
        (UnknownKey (codes "cache")) }
    ensures cache_of_two { config_or_fault_of_table (table_with_lines 2 2
        (repeated_value 1 (table (line_table_with_keys (key_with_text (codes "cache") (codes "no") ∷ []))))) ≡ Err
        (BadCache 1) }
    ensures capacity_0 { config_or_fault_of_table
        (table_with_lines 1 0 (repeated_value 1 (table (line_table_with_keys [])))) ≡ Err
        (BadNumber Capacity) }
    ensures version_5 { config_or_fault_of_table
        (table_with_lines 5 2 (repeated_value 1 (table (line_table_with_keys [])))) ≡ Err
        (BadNumber Version) }
{}

/// What a table without a fault says.
#[tactic(auto, unfolding(crate::specs::Tables::config_or_fault_of_table, crate::specs::Tables::table_fault, crate::specs::Tables::table_of_members, crate::specs::Tables::is_name, crate::specs::LineTables::line_fault, crate::specs::LineTables::line_of_members, crate::specs::LineTables::is_line_host, crate::specs::LineTables::is_line_method, crate::specs::LineTables::is_line_path, crate::specs::Addresses::address_of, hx_target::specs::Hosts::is_host, hx_target::specs::Hosts::number_of_few_digits, hx_target::specs::Paths::has_dot_segment))]
pub fn worked_tables()
    ensures first { config_or_fault_of_table (table_with_lines 1 2 (repeated_value 1 (table (line_table_with_keys []))))
        ≡ Ok (record {
          name = codes "edge";
          capacity = 2;
          max_body = 1000;
          max_stored = 1000;
          max_store = None;
          lines = example_line_with_method None (codes "GET") (codes "/") origin_8081 ∷ [];
        }) }
    ensures second { config_or_fault_of_table (table_with_lines 2 65536
        (repeated_value 1 (table (line_table_with_keys (key_with_text (codes "cache") (codes "off") ∷ []))))) ≡ Ok (record {
          name = codes "edge";
          capacity = 65536;
          max_body = 1000;
          max_stored = 1000;
          max_store = None;
          lines = record (example_line_with_method None (codes "GET") (codes "/") origin_8081) { policy = plain false }
              ∷ [];
        }) }
    ensures limits { config_or_fault_of_table (table_of_pairs (key_with_number (codes "capacity") 1
        ∷ (codes "line", array (repeated_value 1 (table (line_table_with_keys [])))) ∷ key_with_number (codes "max_body") 7
        ∷ key_with_number (codes "max_stored") 5 ∷ key_with_text (codes "name") (codes "a") ∷ key_with_number (codes "version") 1 ∷ []))
        ≡ Ok (record {
          name = codes "a";
          capacity = 1;
          max_body = 7;
          max_stored = 5;
          max_store = None;
          lines = example_line_with_method None (codes "GET") (codes "/") origin_8081 ∷ [];
        }) }
{}

/// The bound of the store's bytes: a key of version 4, which needn't stand. It is looked at after `max_stored` and
/// before the lines.
#[tactic(auto, unfolding(crate::specs::Tables::config_or_fault_of_table, crate::specs::Tables::table_fault, crate::specs::Tables::is_name, crate::specs::LineTables::line_fault, crate::specs::LineTables::is_line_host, crate::specs::LineTables::is_line_method, crate::specs::LineTables::is_line_path, crate::specs::Addresses::address_of, hx_target::specs::Hosts::is_host, hx_target::specs::Hosts::number_of_few_digits, hx_target::specs::Paths::has_dot_segment))]
pub fn worked_faults_of_store_bound()
    ensures below { config_or_fault_of_table (table_with_bounds 4 1000 (integer (pos 65535)) no_items)
        ≡ Err (BadNumber MaxStore) }
    ensures above { config_or_fault_of_table (table_with_bounds 4 1000 (integer (pos 1099511627777)) no_items)
        ≡ Err (BadNumber MaxStore) }
    ensures a_text { config_or_fault_of_table (table_with_bounds 4 1000 (string (codes "65536")) no_items)
        ≡ Err (BadNumber MaxStore) }
    ensures below_max_stored { config_or_fault_of_table (table_with_bounds 4 65537 (integer (pos 65536)) no_items)
        ≡ Err (BadNumber MaxStore) }
    ensures behind_max_stored { config_or_fault_of_table (table_with_bounds 4 16777217 (integer (pos 1)) no_items)
        ≡ Err (BadNumber MaxStored) }
    ensures least { config_or_fault_of_table (table_with_bounds 4 65536 (integer (pos 65536)) no_items) ≡ Err NoLines }
    ensures most { config_or_fault_of_table (table_with_bounds 4 1000 (integer (pos 1099511627776)) no_items)
        ≡ Err NoLines }
    ensures missing { config_or_fault_of_table (table_with_lines 4 2 no_items) ≡ Err NoLines }
    ensures of_three { config_or_fault_of_table (table_with_bounds 3 1000 (integer (pos 65536)) no_items)
        ≡ Err (UnknownKey (codes "max_store")) }
    ensures of_two { config_or_fault_of_table (table_with_bounds 2 1000 (integer (pos 65536)) no_items)
        ≡ Err (UnknownKey (codes "max_store")) }
    ensures of_one { config_or_fault_of_table (table_with_bounds 1 1000 (integer (pos 65536)) no_items)
        ≡ Err (UnknownKey (codes "max_store")) }
    ensures of_five { config_or_fault_of_table (table_with_bounds 5 1000 (integer (pos 65536)) no_items)
        ≡ Err (UnknownKey (codes "max_store")) }
{}

/// What tables of version 4 say of the bytes of the store.
#[tactic(auto, unfolding(crate::specs::Tables::config_or_fault_of_table, crate::specs::Tables::table_fault, crate::specs::Tables::table_of_members, crate::specs::Tables::is_name, crate::specs::LineTables::line_fault, crate::specs::LineTables::line_of_members, crate::specs::LineTables::is_line_host, crate::specs::LineTables::is_line_method, crate::specs::LineTables::is_line_path, crate::specs::Addresses::address_of, hx_target::specs::Hosts::is_host, hx_target::specs::Hosts::number_of_few_digits, hx_target::specs::Paths::has_dot_segment))]
pub fn worked_store_bounds()
    ensures bounded { config_or_fault_of_table (table_with_bounds 4 1000 (integer (pos 65536)) (repeated_value 1
        (table (line_table_with_keys [])))) ≡ Ok (record {
          name = codes "edge";
          capacity = 2;
          max_body = 1000;
          max_stored = 1000;
          max_store = Some 65536;
          lines = line_of_version_four ∷ [];
        }) }
    ensures unbounded { config_or_fault_of_table
        (table_with_lines 4 2 (repeated_value 1 (table (line_table_with_keys []))))
        ≡ Ok (record {
          name = codes "edge";
          capacity = 2;
          max_body = 1000;
          max_stored = 1000;
          max_store = None;
          lines = line_of_version_four ∷ [];
        }) }
    ensures with_a_word { config_or_fault_of_table (table_with_lines 4 2 (repeated_value 1
        (table (line_table_with_keys (key_with_number (codes "lifetime") 60 ∷ []))))) ≡ Ok (record {
          name = codes "edge";
          capacity = 2;
          max_body = 1000;
          max_stored = 1000;
          max_store = None;
          lines = record line_of_version_four { policy = record policy_of_version_four { lifetime = Some 60 } } ∷ [];
        }) }
{}

/// Of the faults, that of an unknown key alone allocates, for the bytes of the key, before it is told.
pub fn worked_faults_that_allocate()
    ensures none { out_of_memory_may_precede_fault None ≡ true }
    ensures unknown { out_of_memory_may_precede_fault (Some (UnknownKey [])) ≡ true }
    ensures name { out_of_memory_may_precede_fault (Some BadName) ≡ false }
    ensures number { out_of_memory_may_precede_fault (Some (BadNumber Version)) ≡ false }
    ensures lines { out_of_memory_may_precede_fault (Some NoLines) ≡ false }
    ensures host { out_of_memory_may_precede_fault (Some (BadHost 1)) ≡ false }
{}

/// The faults of whole texts: a key that isn't known in front of others, a path that ends with a slash, and no line.
#[tactic(auto, unfolding(toml::proofs::OnLiterals::toml_on_literals, crate::specs::Tables::config_or_fault_of_table, crate::specs::Tables::table_fault, crate::specs::Tables::is_name, crate::specs::LineTables::line_fault, crate::specs::LineTables::is_line_host, crate::specs::LineTables::is_line_method, crate::specs::LineTables::is_line_path, crate::specs::Addresses::address_of, hx_target::specs::Hosts::is_host, hx_target::specs::Hosts::number_of_few_digits, hx_target::specs::Paths::has_dot_segment))]
pub fn worked_faults_of_texts()
    ensures unknown { option_map config_or_fault_of_table
        (parse_document (codes "colour = 1\nversion = 1\nname = \"edge\"\ncapacity = 2\nmax_body = 1000\nmax_stored = 1000\n\n[[line]]\nhost = \"*\"\nmethods = [\"GET\", \"HEAD\", \"POST\"]\npath = \"/\"\norigin = \"127.0.0.1:8081\"\n")) ≡ Some (Err (UnknownKey (codes "colour"))) }
    ensures least { option_map config_or_fault_of_table (parse_document (codes "zeta = 1\nalpha = 2\n"))
        ≡ Some (Err (UnknownKey (codes "alpha"))) }
    ensures path { option_map config_or_fault_of_table (parse_document (codes "version = 1\nname = \"edge\"\ncapacity = 2\nmax_body = 1000\nmax_stored = 1000\n\n[[line]]\nhost = \"*\"\nmethods = [\"GET\"]\npath = \"/a/\"\norigin = \"127.0.0.1:8081\"\n")) ≡ Some (Err (BadPath 1)) }
    ensures no_lines { option_map config_or_fault_of_table (parse_document (codes "version = 1\nname = \"edge\"\ncapacity = 2\nmax_body = 1000\nmax_stored = 1000\n\n")) ≡ Some (Err NoLines) }
{}
