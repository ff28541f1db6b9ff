//! Worked cases of the fields that a line names for Vary: each function's contract is the cases, and its body is empty.
ghost use Rattle.std.specs.Prelude.{◌≡◌, ◌∷◌, [], true, codes, None, Some};
ghost use Rattle.toml.specs.Data.{boolean};
ghost use Rattle.hx_allow.specs.Examples.{key_with_text, line_table_with_keys, denying_line_table_with, list_of_texts};
ghost use Rattle.hx_allow.specs.Examples.{eight_vary_names, table_with_vary_lines};
ghost use Rattle.hx_allow.specs.Keys.{key_of_line_option};
ghost use Rattle.hx_allow.specs.LineTables.{line_fault, line_of_members};
ghost use Rattle.hx_allow.specs.Matching.{vary_names_of_line};
ghost use Rattle.hx_allow.specs.declared.config_faults.TableFault.TheVariants.{BadWord, UnknownKey};
ghost use Rattle.hx_allow.specs.declared.config_faults.LineOption.TheVariants.{SessionCookies, StaleWhileRevalidate};
ghost use Rattle.hx_allow.specs.declared.config_faults.LineOption.TheVariants.{Vary};
ghost use Rattle.hx_allow.specs.declared.values.TableVersion.TheVariants.{Three, Four};

/// What may stand there: 1 to 8 tokens but `*`, in a line of version 4 that has an origin and its cache on. It is
/// looked at behind `stale-while-revalidate`. A `*` among the names of cookies is none either.
#[tactic(auto, unfolding(crate::specs::LineTables::line_fault, crate::specs::LineTables::is_line_host, crate::specs::LineTables::is_line_method, crate::specs::LineTables::is_line_path, crate::specs::Addresses::address_of, hx_target::specs::Hosts::is_host, hx_target::specs::Hosts::number_of_few_digits, hx_target::specs::Paths::has_dot_segment))]
pub fn worked_names_of_vary()
    ensures key { key_of_line_option Vary ≡ codes "vary" }
    ensures one { line_fault Four 1
        (line_table_with_keys ((codes "vary", list_of_texts (codes "X-Forwarded-Proto" ∷ [])) ∷ [])) ≡ None }
    ensures eight { line_fault Four 1 (line_table_with_keys ((codes "vary", list_of_texts eight_vary_names) ∷ [])) ≡ None }
    ensures nine { line_fault Four 1 (line_table_with_keys ((
      codes "vary",
      list_of_texts (codes "q"
          ∷ eight_vary_names),
    ) ∷ []))
        ≡ Some (BadWord 1 Vary) }
    ensures none { line_fault Four 1 (line_table_with_keys ((codes "vary", list_of_texts []) ∷ []))
        ≡ Some (BadWord 1 Vary) }
    ensures star { line_fault Four 1 (line_table_with_keys ((codes "vary", list_of_texts (codes "X-Device" ∷ codes "*" ∷ [])) ∷ []))
        ≡ Some (BadWord 1 Vary) }
    ensures star_of_cookies { line_fault Four 1
        (line_table_with_keys ((codes "session-cookies", list_of_texts (codes "*" ∷ [])) ∷ []))
        ≡ Some (BadWord 1 SessionCookies) }
    ensures star_in_a_name { line_fault Four 1 (line_table_with_keys ((codes "vary", list_of_texts (codes "*a" ∷ [])) ∷ []))
        ≡ None }
    ensures no_token { line_fault Four 1
        (line_table_with_keys ((codes "vary", list_of_texts (codes "Accept, X-Device" ∷ [])) ∷ [])) ≡ Some (BadWord 1 Vary) }
    ensures empty_name { line_fault Four 1 (line_table_with_keys ((codes "vary", list_of_texts ([] ∷ [])) ∷ []))
        ≡ Some (BadWord 1 Vary) }
    ensures a_text { line_fault Four 1 (line_table_with_keys (key_with_text (codes "vary") (codes "X-Device") ∷ []))
        ≡ Some (BadWord 1 Vary) }
    ensures no_text { line_fault Four 1 (line_table_with_keys ((codes "vary", boolean true) ∷ [])) ≡ Some (BadWord 1 Vary) }
    ensures of_three { line_fault Three 1 (line_table_with_keys ((codes "vary", list_of_texts (codes "X-Device" ∷ [])) ∷ []))
        ≡ Some (UnknownKey (codes "vary")) }
    ensures denying { line_fault Four 2 (denying_line_table_with ((codes "vary", list_of_texts (codes "X-Device" ∷ [])) ∷ []))
        ≡ Some (BadWord 2 Vary) }
    ensures without_cache { line_fault Four 2 (line_table_with_keys (key_with_text (codes "cache") (codes "off")
        ∷ (codes "vary", list_of_texts (codes "X-Device" ∷ [])) ∷ [])) ≡ Some (BadWord 2 Vary) }
    ensures behind_staleness { line_fault Four 1 (line_table_with_keys (key_with_text (codes "stale-while-revalidate") (codes "x")
        ∷ key_with_text (codes "vary") (codes "x") ∷ [])) ≡ Some (BadWord 1 StaleWhileRevalidate) }
{}

/// What a line names: nothing where it doesn't say so.
#[tactic(auto, unfolding(crate::specs::LineTables::line_of_members))]
pub fn worked_vary_of_lines()
    ensures named { (line_of_members Four (line_table_with_keys ((
      codes "vary",
      list_of_texts (codes "X-Forwarded-Proto" ∷ codes "X-Device" ∷ []),
    ) ∷ []))).vary
        ≡ codes "X-Forwarded-Proto" ∷ codes "X-Device" ∷ [] }
    ensures none { (line_of_members Four (line_table_with_keys [])).vary ≡ [] }
    ensures of_the_first { vary_names_of_line table_with_vary_lines.lines 1 ≡ codes "X-Forwarded-Proto" ∷ codes "X-Device" ∷ [] }
    ensures of_the_second { vary_names_of_line table_with_vary_lines.lines 2 ≡ [] }
    ensures of_no_line { vary_names_of_line table_with_vary_lines.lines 3 ≡ [] }
    ensures of_number_0 { vary_names_of_line table_with_vary_lines.lines 0 ≡ [] }
{}
