//! Worked cases of the word on ranges, and its law: each function's contract says them, and its body is empty.
ghost use Rattle.std.specs.Prelude.{◌≡◌, ◌&&◌, ◌∷◌, [], true, false, codes, None, Some};
ghost use Rattle.toml.specs.Data.{Members, boolean};
ghost use Rattle.hx_policy.specs.Policies.{plain, default_policy_with_hidden_tags};
ghost use Rattle.hx_allow.specs.Examples.{key_with_text, line_table_with_keys, denying_line_table_with};
ghost use Rattle.hx_allow.specs.Examples.{policy_of_version_four};
ghost use Rattle.hx_allow.specs.LineTables.{line_fault, line_of_members};
ghost use Rattle.hx_allow.specs.LineWords.{line_caches, text_of_key_equals};
ghost use Rattle.hx_allow.specs.Keys.{key_of_line_option};
ghost use Rattle.hx_allow.specs.Rows.{has_keys_of};
ghost use Rattle.hx_allow.specs.Values.{is_known_key};
ghost use Rattle.hx_allow.specs.declared.config_faults.TableFault.TheVariants.{BadWord, UnknownKey};
ghost use Rattle.hx_allow.specs.declared.config_faults.LineOption.TheVariants.{OriginTimeout, Ranges};
ghost use Rattle.hx_allow.specs.declared.values.Scope.TheVariants.{Top, Line};
ghost use Rattle.hx_allow.specs.declared.values.TableVersion.{TableVersion};
ghost use Rattle.hx_allow.specs.declared.values.TableVersion.TheVariants.{Three, Four};

/// Over a line of version 4 that has an origin and its cache on requests for a range go to the origin, whatever is
/// stored, exactly where the line says so.
#[tactic(auto, unfolding(crate::specs::LineTables::line_of_members))]
pub fn version_four_forwards_ranges_only_if_told()
    ensures { (members : Members) → line_caches members ≡ true
        → (line_of_members Four members).policy.forwards_ranges ≡ text_of_key_equals (codes "ranges") (codes "forwarded") members }
{}

/// Over a line of any version the whole is asked for, for who asks for a range of what is missing, exactly where the
/// table is of version 4 and the line says so.
#[tactic(auto, unfolding(crate::specs::LineTables::line_of_members))]
pub fn ranges_are_filled_only_if_the_line_says_so()
    ensures { (version : TableVersion) (members : Members) → (line_of_members version members).policy.fills_ranges
        ≡ (has_keys_of version Four && text_of_key_equals (codes "ranges") (codes "filled") members) }
{}

/// The key `ranges`: one of three words, in version 4 alone, in each line that has an origin and its cache on, and
/// looked at last.
#[tactic(auto, unfolding(crate::specs::LineTables::line_fault, crate::specs::LineTables::is_line_host, crate::specs::LineTables::is_line_method, crate::specs::LineTables::is_line_path, crate::specs::Addresses::address_of, hx_target::specs::Hosts::is_host, hx_target::specs::Hosts::number_of_few_digits, hx_target::specs::Paths::has_dot_segment))]
pub fn worked_words_on_ranges()
    ensures known { is_known_key (Line Four) (key_of_line_option Ranges) ≡ true }
    ensures of_three { is_known_key (Line Three) (codes "ranges") ≡ false }
    ensures at_the_top { is_known_key (Top Four) (codes "ranges") ≡ false }
    ensures text { key_of_line_option Ranges ≡ codes "ranges" }
    ensures served { line_fault Four 1 (line_table_with_keys (key_with_text (codes "ranges") (codes "served") ∷ [])) ≡ None }
    ensures forwarded { line_fault Four 1 (line_table_with_keys (key_with_text (codes "ranges") (codes "forwarded") ∷ []))
        ≡ None }
    ensures filled { line_fault Four 1 (line_table_with_keys (key_with_text (codes "ranges") (codes "filled") ∷ []))
        ≡ None }
    ensures other { line_fault Four 1 (line_table_with_keys (key_with_text (codes "ranges") (codes "missing") ∷ []))
        ≡ Some (BadWord 1 Ranges) }
    ensures no_text { line_fault Four 1 (line_table_with_keys ((codes "ranges", boolean true) ∷ []))
        ≡ Some (BadWord 1 Ranges) }
    ensures without_cache { line_fault Four 1 (line_table_with_keys (key_with_text (codes "cache") (codes "off")
        ∷ key_with_text (codes "ranges") (codes "served") ∷ [])) ≡ Some (BadWord 1 Ranges) }
    ensures denying { line_fault Four 1 (denying_line_table_with (key_with_text (codes "ranges") (codes "served") ∷ []))
        ≡ Some (BadWord 1 Ranges) }
    ensures unknown { line_fault Three 1 (line_table_with_keys (key_with_text (codes "ranges") (codes "served") ∷ []))
        ≡ Some (UnknownKey (codes "ranges")) }
    ensures timeout_first { line_fault Four 1 (line_table_with_keys (key_with_text (codes "ranges") (codes "x")
        ∷ key_with_text (codes "origin-timeout") (codes "x") ∷ [])) ≡ Some (BadWord 1 OriginTimeout) }
{}

/// In the fourth version ranges are cut from what is stored, unless the line says else, denies or has its cache off; in
/// the third they are the origin's. They are filled where the line says that.
#[tactic(auto, unfolding(crate::specs::LineTables::line_of_members))]
pub fn worked_ranges_by_config_version()
    ensures of_three { (line_of_members Three (line_table_with_keys [])).policy.forwards_ranges ≡ true }
    ensures of_four { (line_of_members Four (line_table_with_keys [])).policy.forwards_ranges ≡ false }
    ensures served { (line_of_members Four (line_table_with_keys (key_with_text (codes "ranges") (codes "served") ∷ []))).policy
        ≡ policy_of_version_four }
    ensures forwarded { (line_of_members Four (line_table_with_keys (key_with_text (codes "ranges") (codes "forwarded") ∷ []))).policy
        ≡ record policy_of_version_four { forwards_ranges = true } }
    ensures filled { (line_of_members Four (line_table_with_keys (key_with_text (codes "ranges") (codes "filled") ∷ []))).policy
        ≡ record policy_of_version_four { fills_ranges = true } }
    ensures filled_of_three { (line_of_members Three
        (line_table_with_keys (key_with_text (codes "ranges") (codes "filled") ∷ []))).policy
        ≡ plain true }
    ensures off { (line_of_members Four (line_table_with_keys (key_with_text (codes "cache") (codes "off") ∷ []))).policy
        ≡ default_policy_with_hidden_tags true false }
    ensures denying { (line_of_members Four (denying_line_table_with [])).policy
        ≡ default_policy_with_hidden_tags true true }
{}
