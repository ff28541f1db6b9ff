//! Worked cases of the time-outs of origins: each function's contract is the cases, and its body is empty.
ghost use Rattle.std.specs.Prelude.{◌≡◌, ◌∷◌, [], true, false, codes, None, Some, negsuc};
ghost use Rattle.toml.specs.Data.{integer};
ghost use Rattle.hx_allow.specs.Examples.{key_with_text, key_with_number, line_table_with_keys};
ghost use Rattle.hx_allow.specs.Examples.{denying_line_table_with, lines_with_origin_timeouts};
ghost use Rattle.hx_allow.specs.LineTables.{line_fault, line_of_members};
ghost use Rattle.hx_allow.specs.Keys.{key_of_line_option};
ghost use Rattle.hx_allow.specs.Matching.{origin_timeout_of};
ghost use Rattle.hx_allow.specs.Values.{is_known_key};
ghost use Rattle.hx_allow.specs.declared.config_faults.TableFault.TheVariants.{BadWord, UnknownKey};
ghost use Rattle.hx_allow.specs.declared.config_faults.LineOption.TheVariants.{StaleWhileRevalidate, OriginTimeout};
ghost use Rattle.hx_allow.specs.declared.values.Scope.TheVariants.{Top, Line};
ghost use Rattle.hx_allow.specs.declared.values.TableVersion.TheVariants.{Three, Four};

/// The key `origin-timeout`: whole seconds from 1 to 86,400, in version 4 alone, in each line that has an origin, and
/// looked at last.
#[tactic(auto, unfolding(crate::specs::LineTables::line_fault, crate::specs::LineTables::line_of_members, crate::specs::LineTables::is_line_host, crate::specs::LineTables::is_line_method, crate::specs::LineTables::is_line_path, crate::specs::Addresses::address_of, hx_target::specs::Hosts::is_host, hx_target::specs::Hosts::number_of_few_digits, hx_target::specs::Paths::has_dot_segment))]
pub fn worked_origin_timeouts_of_lines()
    ensures known { is_known_key (Line Four) (key_of_line_option OriginTimeout) ≡ true }
    ensures of_three { is_known_key (Line Three) (codes "origin-timeout") ≡ false }
    ensures at_the_top { is_known_key (Top Four) (codes "origin-timeout") ≡ false }
    ensures text { key_of_line_option OriginTimeout ≡ codes "origin-timeout" }
    ensures least { line_fault Four 1 (line_table_with_keys (key_with_number (codes "origin-timeout") 1 ∷ [])) ≡ None }
    ensures most { line_fault Four 1 (line_table_with_keys (key_with_number (codes "origin-timeout") 86400 ∷ [])) ≡ None }
    ensures zero { line_fault Four 1 (line_table_with_keys (key_with_number (codes "origin-timeout") 0 ∷ []))
        ≡ Some (BadWord 1 OriginTimeout) }
    ensures above { line_fault Four 1 (line_table_with_keys (key_with_number (codes "origin-timeout") 86401 ∷ []))
        ≡ Some (BadWord 1 OriginTimeout) }
    ensures negative { line_fault Four 1 (line_table_with_keys ((codes "origin-timeout", integer (negsuc 0)) ∷ []))
        ≡ Some (BadWord 1 OriginTimeout) }
    ensures a_text { line_fault Four 1 (line_table_with_keys (key_with_text (codes "origin-timeout") (codes "5") ∷ []))
        ≡ Some (BadWord 1 OriginTimeout) }
    ensures without_cache { line_fault Four 1 (line_table_with_keys (key_with_text (codes "cache") (codes "off")
        ∷ key_with_number (codes "origin-timeout") 5 ∷ [])) ≡ None }
    ensures denying { line_fault Four 1 (denying_line_table_with (key_with_number (codes "origin-timeout") 5 ∷ []))
        ≡ Some (BadWord 1 OriginTimeout) }
    ensures unknown { line_fault Three 1 (line_table_with_keys (key_with_number (codes "origin-timeout") 5 ∷ []))
        ≡ Some (UnknownKey (codes "origin-timeout")) }
    ensures staleness_first { line_fault Four 1
        (line_table_with_keys (key_with_text (codes "origin-timeout") (codes "x")
        ∷ key_with_text (codes "stale-while-revalidate") (codes "x") ∷ [])) ≡ Some (BadWord 1 StaleWhileRevalidate) }
    ensures default { (line_of_members Four (line_table_with_keys [])).origin_timeout ≡ None }
    ensures says { (line_of_members Four
        (line_table_with_keys (key_with_number (codes "origin-timeout") 5 ∷ []))).origin_timeout ≡ Some 5 }
    ensures says_without_cache { (line_of_members Four (line_table_with_keys (key_with_text (codes "cache") (codes "off")
        ∷ key_with_number (codes "origin-timeout") 86400 ∷ []))).origin_timeout ≡ Some 86400 }
{}

/// The time-outs of the lines of a table, by their numbers.
pub fn worked_timeouts_of_line_numbers()
    ensures first { origin_timeout_of lines_with_origin_timeouts 1 ≡ Some 5 }
    ensures second { origin_timeout_of lines_with_origin_timeouts 2 ≡ None }
    ensures third { origin_timeout_of lines_with_origin_timeouts 3 ≡ Some 7 }
    ensures no_line { origin_timeout_of lines_with_origin_timeouts 0 ≡ None }
    ensures behind_the_last { origin_timeout_of lines_with_origin_timeouts 4 ≡ None }
{}
