//! Worked cases of the time for which a request waits: each function's contract is the cases, and its body is empty.
ghost use Rattle.std.specs.Prelude.{◌≡◌, ◌∷◌, [], true, false, codes, None, Some};
ghost use Rattle.hx_allow.specs.Examples.{key_with_text, key_with_number, line_table_with_keys};
ghost use Rattle.hx_allow.specs.Examples.{denying_line_table_with, lines_with_wait_timeouts};
ghost use Rattle.hx_allow.specs.LineTables.{line_fault, line_of_members};
ghost use Rattle.hx_allow.specs.Keys.{key_of_line_option};
ghost use Rattle.hx_allow.specs.Matching.{wait_timeout_of};
ghost use Rattle.hx_allow.specs.Values.{is_known_key};
ghost use Rattle.hx_allow.specs.declared.config_faults.TableFault.TheVariants.{BadWord, UnknownKey};
ghost use Rattle.hx_allow.specs.declared.config_faults.LineOption.TheVariants.{Ranges, WaitTimeout};
ghost use Rattle.hx_allow.specs.declared.values.Scope.TheVariants.{Top, Line};
ghost use Rattle.hx_allow.specs.declared.values.TableVersion.TheVariants.{Three, Four};

/// The key `wait-timeout`: whole seconds from 1 to 86,400, in version 4 alone, in each line that has an origin and its
/// cache on, and looked at last. Such a line that says nothing of it has 5 seconds, and any other line has none.
#[tactic(auto, unfolding(crate::specs::LineTables::line_fault, crate::specs::LineTables::line_of_members, crate::specs::LineTables::is_line_host, crate::specs::LineTables::is_line_method, crate::specs::LineTables::is_line_path, crate::specs::Addresses::address_of, hx_target::specs::Hosts::is_host, hx_target::specs::Hosts::number_of_few_digits, hx_target::specs::Paths::has_dot_segment))]
pub fn worked_waits_of_lines()
    ensures known { is_known_key (Line Four) (key_of_line_option WaitTimeout) ≡ true }
    ensures of_three { is_known_key (Line Three) (codes "wait-timeout") ≡ false }
    ensures at_the_top { is_known_key (Top Four) (codes "wait-timeout") ≡ false }
    ensures text { key_of_line_option WaitTimeout ≡ codes "wait-timeout" }
    ensures least { line_fault Four 1 (line_table_with_keys (key_with_number (codes "wait-timeout") 1 ∷ [])) ≡ None }
    ensures most { line_fault Four 1 (line_table_with_keys (key_with_number (codes "wait-timeout") 86400 ∷ [])) ≡ None }
    ensures zero { line_fault Four 1 (line_table_with_keys (key_with_number (codes "wait-timeout") 0 ∷ []))
        ≡ Some (BadWord 1 WaitTimeout) }
    ensures above { line_fault Four 1 (line_table_with_keys (key_with_number (codes "wait-timeout") 86401 ∷ []))
        ≡ Some (BadWord 1 WaitTimeout) }
    ensures a_text { line_fault Four 1 (line_table_with_keys (key_with_text (codes "wait-timeout") (codes "5") ∷ []))
        ≡ Some (BadWord 1 WaitTimeout) }
    ensures without_cache { line_fault Four 1 (line_table_with_keys (key_with_text (codes "cache") (codes "off")
        ∷ key_with_number (codes "wait-timeout") 5 ∷ [])) ≡ Some (BadWord 1 WaitTimeout) }
    ensures denying { line_fault Four 1 (denying_line_table_with (key_with_number (codes "wait-timeout") 5 ∷ []))
        ≡ Some (BadWord 1 WaitTimeout) }
    ensures unknown { line_fault Three 1 (line_table_with_keys (key_with_number (codes "wait-timeout") 5 ∷ []))
        ≡ Some (UnknownKey (codes "wait-timeout")) }
    ensures ranges_first { line_fault Four 1 (line_table_with_keys (key_with_text (codes "wait-timeout") (codes "x")
        ∷ key_with_text (codes "ranges") (codes "x") ∷ [])) ≡ Some (BadWord 1 Ranges) }
    ensures default { (line_of_members Four (line_table_with_keys [])).wait_timeout ≡ Some 5 }
    ensures says { (line_of_members Four
        (line_table_with_keys (key_with_number (codes "wait-timeout") 1 ∷ []))).wait_timeout ≡ Some 1 }
    ensures uncached { (line_of_members Four
        (line_table_with_keys (key_with_text (codes "cache") (codes "off") ∷ []))).wait_timeout ≡ None }
    ensures denied { (line_of_members Four (denying_line_table_with [])).wait_timeout ≡ None }
    ensures default_of_three { (line_of_members Three (line_table_with_keys [])).wait_timeout ≡ None }
{}

/// The times of the lines of a table, by their numbers.
pub fn worked_waits_of_line_numbers()
    ensures first { wait_timeout_of lines_with_wait_timeouts 1 ≡ Some 5 }
    ensures second { wait_timeout_of lines_with_wait_timeouts 2 ≡ None }
    ensures third { wait_timeout_of lines_with_wait_timeouts 3 ≡ Some 7 }
    ensures no_line { wait_timeout_of lines_with_wait_timeouts 0 ≡ None }
    ensures behind_the_last { wait_timeout_of lines_with_wait_timeouts 4 ≡ None }
{}
