//! What the definitions give on worked lines with the words of versions 3 and 4, computed from them: each
//! function's contract is the cases, and its body is empty.
ghost use Rattle.std.specs.Prelude.{◌≡◌, ◌∷◌, [], Some, None, Ok, true, false, codes, option_map, negsuc};
ghost use Rattle.toml.specs.Data.{boolean, integer};
ghost use Rattle.toml.specs.Parse.{parse_document};
ghost use Rattle.hx_policy.specs.Policies.{plain, default_policy_with_hidden_tags};
ghost use Rattle.hx_allow.specs.Examples.{denying_line_table_with, key_with_number, example_line_with_method};
ghost use Rattle.hx_allow.specs.Examples.{origin_8081};
ghost use Rattle.hx_allow.specs.Examples.{key_with_text, line_table_with_keys, line_of_version_four};
ghost use Rattle.hx_allow.specs.Examples.{policy_of_version_four};
ghost use Rattle.hx_allow.specs.Keys.{key_of_line_option};
ghost use Rattle.hx_allow.specs.LineTables.{line_fault, line_of_members};
ghost use Rattle.hx_allow.specs.Tables.{config_or_fault_of_table};
ghost use Rattle.hx_allow.specs.Values.{is_known_key};
ghost use Rattle.hx_allow.specs.declared.config_faults.TableFault.TheVariants.{BadCache, BadWord, UnknownKey};
ghost use Rattle.hx_allow.specs.declared.config_faults.LineOption.TheVariants.{Lifetime, ErrorLifetime, StaleIfError};
ghost use Rattle.hx_allow.specs.declared.config_faults.LineOption.TheVariants.{SetCookie, Errors, RequestDirectives};
ghost use Rattle.hx_allow.specs.declared.config_faults.LineOption.TheVariants.{Wait, Explain, Conditions};
ghost use Rattle.hx_allow.specs.declared.config_faults.LineOption.TheVariants.{LifetimeMost, Cookies};
ghost use Rattle.hx_allow.specs.declared.config_faults.LineOption.TheVariants.{StaleWhileRevalidate};
ghost use Rattle.hx_allow.specs.declared.values.Scope.TheVariants.{Top, Line};
ghost use Rattle.hx_allow.specs.declared.values.TableVersion.TheVariants.{One, Two, Three, Four};

/// The keys of the words, which lines have from the third version on, and the top never has.
pub fn worked_keys_of_words()
    ensures lifetime { is_known_key (Line Three) (key_of_line_option Lifetime) ≡ true }
    ensures stale_if_error { is_known_key (Line Three) (key_of_line_option StaleIfError) ≡ true }
    ensures set_cookie { is_known_key (Line Three) (key_of_line_option SetCookie) ≡ true }
    ensures errors { is_known_key (Line Three) (key_of_line_option Errors) ≡ true }
    ensures request_directives { is_known_key (Line Three) (key_of_line_option RequestDirectives) ≡ true }
    ensures wait { is_known_key (Line Three) (key_of_line_option Wait) ≡ true }
    ensures explain { is_known_key (Line Three) (key_of_line_option Explain) ≡ true }
    ensures cache { is_known_key (Line Three) (codes "cache") ≡ true }
    ensures host { is_known_key (Line Three) (codes "host") ≡ true }
    ensures underscore { is_known_key (Line Three) (codes "stale_if_error") ≡ false }
    ensures of_two { is_known_key (Line Two) (codes "lifetime") ≡ false }
    ensures of_one { is_known_key (Line One) (codes "set-cookie") ≡ false }
    ensures at_the_top { is_known_key (Top Four) (codes "lifetime") ≡ false }
    ensures text_of_lifetime { key_of_line_option Lifetime ≡ codes "lifetime" }
    ensures text_of_stale_if_error { key_of_line_option StaleIfError ≡ codes "stale-if-error" }
    ensures text_of_set_cookie { key_of_line_option SetCookie ≡ codes "set-cookie" }
    ensures text_of_errors { key_of_line_option Errors ≡ codes "errors" }
    ensures text_of_request_directives { key_of_line_option RequestDirectives ≡ codes "request-directives" }
    ensures text_of_wait { key_of_line_option Wait ≡ codes "wait" }
    ensures wait_of_two { is_known_key (Line Two) (codes "wait") ≡ false }
    ensures error_lifetime { is_known_key (Line Four) (key_of_line_option ErrorLifetime) ≡ true }
    ensures lifetime_of_four { is_known_key (Line Four) (key_of_line_option Lifetime) ≡ true }
    ensures error_lifetime_of_three { is_known_key (Line Three) (codes "error-lifetime") ≡ false }
    ensures error_lifetime_of_two { is_known_key (Line Two) (codes "error-lifetime") ≡ false }
    ensures error_lifetime_of_one { is_known_key (Line One) (codes "error-lifetime") ≡ false }
    ensures error_lifetime_at_the_top { is_known_key (Top Four) (codes "error-lifetime") ≡ false }
    ensures text_of_error_lifetime { key_of_line_option ErrorLifetime ≡ codes "error-lifetime" }
    ensures text_of_explain { key_of_line_option Explain ≡ codes "explain" }
    ensures conditions { is_known_key (Line Four) (key_of_line_option Conditions) ≡ true }
    ensures conditions_of_three { is_known_key (Line Three) (codes "conditions") ≡ false }
    ensures conditions_at_the_top { is_known_key (Top Four) (codes "conditions") ≡ false }
    ensures text_of_conditions { key_of_line_option Conditions ≡ codes "conditions" }
    ensures lifetime_most { is_known_key (Line Four) (key_of_line_option LifetimeMost) ≡ true }
    ensures lifetime_most_of_three { is_known_key (Line Three) (codes "lifetime-most") ≡ false }
    ensures lifetime_most_at_the_top { is_known_key (Top Four) (codes "lifetime-most") ≡ false }
    ensures text_of_lifetime_most { key_of_line_option LifetimeMost ≡ codes "lifetime-most" }
    ensures cookies { is_known_key (Line Four) (key_of_line_option Cookies) ≡ true }
    ensures cookies_of_three { is_known_key (Line Three) (codes "cookies") ≡ false }
    ensures cookies_at_the_top { is_known_key (Top Four) (codes "cookies") ≡ false }
    ensures text_of_cookies { key_of_line_option Cookies ≡ codes "cookies" }
    ensures stale_while_revalidate { is_known_key (Line Four) (key_of_line_option StaleWhileRevalidate) ≡ true }
    ensures stale_while_revalidate_of_three { is_known_key (Line Three) (codes "stale-while-revalidate") ≡ false }
    ensures stale_while_revalidate_at_the_top { is_known_key (Top Four) (codes "stale-while-revalidate") ≡ false }
    ensures text_of_stale_while_revalidate { key_of_line_option StaleWhileRevalidate ≡ codes "stale-while-revalidate" }
{}

/// Seconds of a line: whole numbers within their bounds, and no text.
#[tactic(auto, unfolding(crate::specs::LineTables::line_fault, crate::specs::LineTables::is_line_host, crate::specs::LineTables::is_line_method, crate::specs::LineTables::is_line_path, crate::specs::Addresses::address_of, hx_target::specs::Hosts::is_host, hx_target::specs::Hosts::number_of_few_digits, hx_target::specs::Paths::has_dot_segment))]
pub fn worked_seconds_of_a_line()
    ensures least { line_fault Three 1 (line_table_with_keys (key_with_number (codes "lifetime") 1 ∷ [])) ≡ None }
    ensures most { line_fault Three 1 (line_table_with_keys (key_with_number (codes "lifetime") 2147483648 ∷ [])) ≡ None }
    ensures zero { line_fault Three 1 (line_table_with_keys (key_with_number (codes "lifetime") 0 ∷ [])) ≡ Some
        (BadWord 1 Lifetime) }
    ensures above { line_fault Three 1 (line_table_with_keys (key_with_number (codes "lifetime") 2147483649 ∷ []))
        ≡ Some (BadWord 1 Lifetime) }
    ensures negative { line_fault Three 1 (line_table_with_keys ((codes "lifetime", integer (negsuc 0)) ∷ []))
        ≡ Some (BadWord 1 Lifetime) }
    ensures a_text { line_fault Three 1 (line_table_with_keys (key_with_text (codes "lifetime") (codes "60") ∷ []))
        ≡ Some (BadWord 1 Lifetime) }
    ensures of_two { line_fault Two 1 (line_table_with_keys (key_with_number (codes "lifetime") 60 ∷ [])) ≡ Some
        (UnknownKey (codes "lifetime")) }
    ensures no_staleness { line_fault Three 1 (line_table_with_keys (key_with_number (codes "stale-if-error") 0 ∷ [])) ≡ None }
    ensures most_staleness { line_fault Three 1
        (line_table_with_keys (key_with_number (codes "stale-if-error") 2147483648 ∷ [])) ≡ None }
    ensures above_staleness { line_fault Three 1 (line_table_with_keys (key_with_number (codes "stale-if-error") 2147483649 ∷ []))
        ≡ Some (BadWord 1 StaleIfError) }
    ensures staleness_of_two { line_fault Two 1
        (line_table_with_keys (key_with_number (codes "stale-if-error") 60 ∷ [])) ≡ Some (UnknownKey (codes "stale-if-error")) }
    ensures least_of_errors { line_fault Four 1 (line_table_with_keys (key_with_number (codes "error-lifetime") 1 ∷ [])) ≡ None }
    ensures most_of_errors { line_fault Four 1
        (line_table_with_keys (key_with_number (codes "error-lifetime") 2147483648 ∷ [])) ≡ None }
    ensures zero_of_errors { line_fault Four 1 (line_table_with_keys (key_with_number (codes "error-lifetime") 0 ∷ []))
        ≡ Some (BadWord 1 ErrorLifetime) }
    ensures above_of_errors { line_fault Four 1
        (line_table_with_keys (key_with_number (codes "error-lifetime") 2147483649 ∷ [])) ≡ Some (BadWord 1 ErrorLifetime) }
    ensures a_text_of_errors { line_fault Four 1
        (line_table_with_keys (key_with_text (codes "error-lifetime") (codes "60") ∷ [])) ≡ Some (BadWord 1 ErrorLifetime) }
    ensures of_errors_of_three { line_fault Three 1
        (line_table_with_keys (key_with_number (codes "error-lifetime") 60 ∷ [])) ≡ Some (UnknownKey (codes "error-lifetime")) }
    ensures least_most { line_fault Four 1 (line_table_with_keys (key_with_number (codes "lifetime-most") 1 ∷ [])) ≡ None }
    ensures most_most { line_fault Four 1
        (line_table_with_keys (key_with_number (codes "lifetime-most") 2147483648 ∷ [])) ≡ None }
    ensures zero_most { line_fault Four 1 (line_table_with_keys (key_with_number (codes "lifetime-most") 0 ∷ []))
        ≡ Some (BadWord 1 LifetimeMost) }
    ensures above_most { line_fault Four 1
        (line_table_with_keys (key_with_number (codes "lifetime-most") 2147483649 ∷ [])) ≡ Some (BadWord 1 LifetimeMost) }
    ensures a_text_of_most { line_fault Four 1
        (line_table_with_keys (key_with_text (codes "lifetime-most") (codes "1d") ∷ [])) ≡ Some (BadWord 1 LifetimeMost) }
    ensures most_of_three { line_fault Three 1
        (line_table_with_keys (key_with_number (codes "lifetime-most") 60 ∷ [])) ≡ Some (UnknownKey (codes "lifetime-most")) }
    ensures no_staleness_meanwhile { line_fault Four 1
        (line_table_with_keys (key_with_number (codes "stale-while-revalidate") 0 ∷ [])) ≡ None }
    ensures most_staleness_meanwhile { line_fault Four 1
        (line_table_with_keys (key_with_number (codes "stale-while-revalidate") 2147483648 ∷ [])) ≡ None }
    ensures above_staleness_meanwhile { line_fault Four 1
        (line_table_with_keys (key_with_number (codes "stale-while-revalidate") 2147483649 ∷ []))
        ≡ Some (BadWord 1 StaleWhileRevalidate) }
    ensures a_text_of_staleness_meanwhile { line_fault Four 1
        (line_table_with_keys (key_with_text (codes "stale-while-revalidate") (codes "60") ∷ []))
        ≡ Some (BadWord 1 StaleWhileRevalidate) }
    ensures staleness_meanwhile_of_three { line_fault Three 1
        (line_table_with_keys (key_with_number (codes "stale-while-revalidate") 60 ∷ []))
        ≡ Some (UnknownKey (codes "stale-while-revalidate")) }
{}

/// Texts of a line: two words each, in lower case.
#[tactic(auto, unfolding(crate::specs::LineTables::line_fault, crate::specs::LineTables::is_line_host, crate::specs::LineTables::is_line_method, crate::specs::LineTables::is_line_path, crate::specs::Addresses::address_of, hx_target::specs::Hosts::is_host, hx_target::specs::Hosts::number_of_few_digits, hx_target::specs::Paths::has_dot_segment))]
pub fn worked_texts_of_a_line()
    ensures cookies_stored { line_fault Three 1
        (line_table_with_keys (key_with_text (codes "set-cookie") (codes "stored") ∷ [])) ≡ None }
    ensures cookies_not_stored { line_fault Three 1
        (line_table_with_keys (key_with_text (codes "set-cookie") (codes "not-stored") ∷ [])) ≡ None }
    ensures cookies_off { line_fault Three 1 (line_table_with_keys (key_with_text (codes "set-cookie") (codes "off") ∷ []))
        ≡ Some (BadWord 1 SetCookie) }
    ensures cookies_upper { line_fault Three 1 (line_table_with_keys (key_with_text (codes "set-cookie") (codes "Stored") ∷ []))
        ≡ Some (BadWord 1 SetCookie) }
    ensures cookies_no_text { line_fault Three 1 (line_table_with_keys ((codes "set-cookie", boolean false) ∷ []))
        ≡ Some (BadWord 1 SetCookie) }
    ensures cookies_removed { line_fault Four 1
        (line_table_with_keys (key_with_text (codes "set-cookie") (codes "removed") ∷ [])) ≡ None }
    ensures cookies_removed_in_three { line_fault Three 1
        (line_table_with_keys (key_with_text (codes "set-cookie") (codes "removed") ∷ [])) ≡ Some (BadWord 1 SetCookie) }
    ensures cookies_stored_in_four { line_fault Four 1
        (line_table_with_keys (key_with_text (codes "set-cookie") (codes "stored") ∷ [])) ≡ None }
    ensures cookies_not_stored_in_four { line_fault Four 1
        (line_table_with_keys (key_with_text (codes "set-cookie") (codes "not-stored") ∷ [])) ≡ None }
    ensures cookies_hidden { line_fault Four 1 (line_table_with_keys (key_with_text (codes "set-cookie") (codes "hidden") ∷ []))
        ≡ Some (BadWord 1 SetCookie) }
    ensures errors_stored { line_fault Three 1 (line_table_with_keys (key_with_text (codes "errors") (codes "stored")
        ∷ [])) ≡ None }
    ensures errors_not_stored { line_fault Three 1
        (line_table_with_keys (key_with_text (codes "errors") (codes "not-stored") ∷ [])) ≡ None }
    ensures errors_heeded { line_fault Three 1 (line_table_with_keys (key_with_text (codes "errors") (codes "heeded")
        ∷ [])) ≡ Some (BadWord 1 Errors) }
    ensures directives_heeded { line_fault Three 1
        (line_table_with_keys (key_with_text (codes "request-directives") (codes "heeded") ∷ [])) ≡ None }
    ensures directives_ignored { line_fault Three 1
        (line_table_with_keys (key_with_text (codes "request-directives") (codes "ignored") ∷ [])) ≡ None }
    ensures wait_missing { line_fault Three 1 (line_table_with_keys (key_with_text (codes "wait") (codes "missing") ∷ [])) ≡ None }
    ensures wait_stale { line_fault Three 1 (line_table_with_keys (key_with_text (codes "wait") (codes "missing-or-stale") ∷ [])) ≡ None }
    ensures wait_stale_alone { line_fault Three 1 (line_table_with_keys (key_with_text (codes "wait") (codes "stale") ∷ []))
        ≡ Some (BadWord 1 Wait) }
    ensures wait_no_text { line_fault Three 1 (line_table_with_keys ((codes "wait", boolean true) ∷ [])) ≡ Some
        (BadWord 1 Wait) }
    ensures explain_reuse { line_fault Three 1 (line_table_with_keys (key_with_text (codes "explain") (codes "reuse")
        ∷ [])) ≡ None }
    ensures explain_storing { line_fault Three 1
        (line_table_with_keys (key_with_text (codes "explain") (codes "storing") ∷ [])) ≡ None }
    ensures explain_all { line_fault Three 1 (line_table_with_keys (key_with_text (codes "explain") (codes "all")
        ∷ [])) ≡ Some (BadWord 1 Explain) }
    ensures conditions_answered { line_fault Four 1
        (line_table_with_keys (key_with_text (codes "conditions") (codes "answered") ∷ [])) ≡ None }
    ensures conditions_forwarded { line_fault Four 1
        (line_table_with_keys (key_with_text (codes "conditions") (codes "forwarded") ∷ [])) ≡ None }
    ensures conditions_kept { line_fault Four 1 (line_table_with_keys (key_with_text (codes "conditions") (codes "kept") ∷ []))
        ≡ Some (BadWord 1 Conditions) }
    ensures conditions_of_three { line_fault Three 1
        (line_table_with_keys (key_with_text (codes "conditions") (codes "forwarded") ∷ [])) ≡ Some (UnknownKey (codes "conditions")) }
    ensures cookies_private { line_fault Four 1
        (line_table_with_keys (key_with_text (codes "cookies") (codes "private") ∷ [])) ≡ None }
    ensures cookies_shared { line_fault Four 1
        (line_table_with_keys (key_with_text (codes "cookies") (codes "shared") ∷ [])) ≡ None }
    ensures cookies_ignored { line_fault Four 1 (line_table_with_keys (key_with_text (codes "cookies") (codes "ignored") ∷ []))
        ≡ Some (BadWord 1 Cookies) }
    ensures cookies_of_three { line_fault Three 1
        (line_table_with_keys (key_with_text (codes "cookies") (codes "shared") ∷ [])) ≡ Some (UnknownKey (codes "cookies")) }
    ensures directives_stored { line_fault Three 1 (line_table_with_keys (key_with_text (codes "request-directives") (codes "stored") ∷ []))
        ≡ Some (BadWord 1 RequestDirectives) }
{}

/// A line that denies or has its cache off takes no word. The words are looked at in the table's order, after `cache`.
#[tactic(auto, unfolding(crate::specs::LineTables::line_fault, crate::specs::LineTables::is_line_host, crate::specs::LineTables::is_line_method, crate::specs::LineTables::is_line_path, crate::specs::Addresses::address_of, hx_target::specs::Hosts::is_host, hx_target::specs::Hosts::number_of_few_digits, hx_target::specs::Paths::has_dot_segment))]
pub fn worked_places_of_words()
    ensures denying { line_fault Three 2 (denying_line_table_with (key_with_number (codes "lifetime") 60 ∷ [])) ≡ Some
        (BadWord 2 Lifetime) }
    ensures denying_default { line_fault Three 2 (denying_line_table_with (key_with_text (codes "errors") (codes "stored") ∷ []))
        ≡ Some (BadWord 2 Errors) }
    ensures without_cache { line_fault Three 2 (line_table_with_keys (key_with_text (codes "cache") (codes "off")
        ∷ key_with_number (codes "stale-if-error") 60 ∷ [])) ≡ Some (BadWord 2 StaleIfError) }
    ensures with_cache { line_fault Three 2
        (line_table_with_keys (key_with_text (codes "cache") (codes "on") ∷ key_with_number (codes "stale-if-error") 60 ∷ [])) ≡ None }
    ensures behind_cache { line_fault Three 2
        (line_table_with_keys (key_with_text (codes "cache") (codes "no") ∷ key_with_number (codes "lifetime") 0 ∷ []))
        ≡ Some (BadCache 2) }
    ensures lifetime_first { line_fault Three 2 (line_table_with_keys (key_with_number (codes "lifetime") 0
        ∷ key_with_text (codes "stale-if-error") (codes "x") ∷ key_with_text (codes "set-cookie") (codes "x")
        ∷ key_with_text (codes "errors") (codes "x") ∷ key_with_text (codes "request-directives") (codes "x") ∷ []))
        ≡ Some (BadWord 2 Lifetime) }
    ensures stale_if_error_next { line_fault Three 2 (line_table_with_keys (key_with_number (codes "lifetime") 1
        ∷ key_with_text (codes "stale-if-error") (codes "x") ∷ key_with_text (codes "set-cookie") (codes "x")
        ∷ key_with_text (codes "errors") (codes "x") ∷ key_with_text (codes "request-directives") (codes "x") ∷ []))
        ≡ Some (BadWord 2 StaleIfError) }
    ensures error_lifetime_next { line_fault Four 2 (line_table_with_keys (key_with_number (codes "error-lifetime") 0
        ∷ key_with_number (codes "lifetime") 1 ∷ key_with_text (codes "stale-if-error") (codes "x") ∷ []))
        ≡ Some (BadWord 2 ErrorLifetime) }
    ensures lifetime_before_that_of_errors { line_fault Four 2
        (line_table_with_keys (key_with_number (codes "error-lifetime") 0 ∷ key_with_number (codes "lifetime") 0 ∷ []))
        ≡ Some (BadWord 2 Lifetime) }
    ensures error_lifetime_denying { line_fault Four 2
        (denying_line_table_with (key_with_number (codes "error-lifetime") 60 ∷ [])) ≡ Some (BadWord 2 ErrorLifetime) }
    ensures error_lifetime_without_cache { line_fault Four 2 (line_table_with_keys (key_with_text (codes "cache") (codes "off")
        ∷ key_with_number (codes "error-lifetime") 60 ∷ [])) ≡ Some (BadWord 2 ErrorLifetime) }
    ensures lifetime_most_next { line_fault Four 2 (line_table_with_keys (key_with_number (codes "lifetime-most") 0
        ∷ key_with_number (codes "error-lifetime") 1 ∷ key_with_text (codes "stale-if-error") (codes "x") ∷ []))
        ≡ Some (BadWord 2 LifetimeMost) }
    ensures error_lifetime_before_most { line_fault Four 2 (line_table_with_keys (key_with_number (codes "lifetime-most") 0
        ∷ key_with_number (codes "error-lifetime") 0 ∷ [])) ≡ Some (BadWord 2 ErrorLifetime) }
    ensures lifetime_most_denying { line_fault Four 2
        (denying_line_table_with (key_with_number (codes "lifetime-most") 60 ∷ [])) ≡ Some (BadWord 2 LifetimeMost) }
    ensures cookies_next { line_fault Four 2 (line_table_with_keys (key_with_text (codes "cookies") (codes "x")
        ∷ key_with_text (codes "errors") (codes "x") ∷ [])) ≡ Some (BadWord 2 Cookies) }
    ensures set_cookie_before_cookies { line_fault Four 2 (line_table_with_keys (key_with_text (codes "cookies") (codes "x")
        ∷ key_with_text (codes "set-cookie") (codes "x") ∷ [])) ≡ Some (BadWord 2 SetCookie) }
    ensures cookies_without_cache { line_fault Four 2 (line_table_with_keys (key_with_text (codes "cache") (codes "off")
        ∷ key_with_text (codes "cookies") (codes "private") ∷ [])) ≡ Some (BadWord 2 Cookies) }
    ensures set_cookie_next { line_fault Three 2 (line_table_with_keys (key_with_text (codes "set-cookie") (codes "x")
        ∷ key_with_text (codes "errors") (codes "x") ∷ key_with_text (codes "request-directives") (codes "x") ∷ []))
        ≡ Some (BadWord 2 SetCookie) }
    ensures errors_next { line_fault Three 2 (line_table_with_keys (key_with_text (codes "errors") (codes "x")
        ∷ key_with_text (codes "request-directives") (codes "x") ∷ [])) ≡ Some (BadWord 2 Errors) }
    ensures directives_next { line_fault Three 2 (line_table_with_keys (key_with_text (codes "explain") (codes "x")
        ∷ key_with_text (codes "request-directives") (codes "x") ∷ [])) ≡ Some (BadWord 2 RequestDirectives) }
    ensures wait_next { line_fault Three 2 (line_table_with_keys (key_with_text (codes "explain") (codes "x")
        ∷ key_with_text (codes "wait") (codes "x") ∷ [])) ≡ Some (BadWord 2 Wait) }
    ensures wait_denying { line_fault Three 2 (denying_line_table_with (key_with_text (codes "wait") (codes "missing")
        ∷ [])) ≡ Some (BadWord 2 Wait) }
    ensures explain_next { line_fault Four 2 (line_table_with_keys (key_with_text (codes "conditions") (codes "x")
        ∷ key_with_text (codes "explain") (codes "x") ∷ [])) ≡ Some (BadWord 2 Explain) }
    ensures conditions_last { line_fault Four 2 (line_table_with_keys (key_with_text (codes "conditions") (codes "x") ∷ []))
        ≡ Some (BadWord 2 Conditions) }
    ensures conditions_before_staleness { line_fault Four 2
        (line_table_with_keys (key_with_text (codes "stale-while-revalidate") (codes "x")
        ∷ key_with_text (codes "conditions") (codes "x") ∷ [])) ≡ Some (BadWord 2 Conditions) }
    ensures staleness_last { line_fault Four 2 (line_table_with_keys (key_with_text (codes "stale-while-revalidate") (codes "x")
        ∷ [])) ≡ Some (BadWord 2 StaleWhileRevalidate) }
    ensures staleness_without_cache { line_fault Four 2 (line_table_with_keys (key_with_text (codes "cache") (codes "off")
        ∷ key_with_number (codes "stale-while-revalidate") 60 ∷ [])) ≡ Some (BadWord 2 StaleWhileRevalidate) }
    ensures staleness_denying { line_fault Four 2
        (denying_line_table_with (key_with_number (codes "stale-while-revalidate") 60 ∷ []))
        ≡ Some (BadWord 2 StaleWhileRevalidate) }
    ensures conditions_denying { line_fault Four 2 (denying_line_table_with (key_with_text (codes "conditions") (codes "answered")
        ∷ [])) ≡ Some (BadWord 2 Conditions) }
{}

/// What lines say by their words; each that doesn't stand is as in the versions before.
#[tactic(auto, unfolding(crate::specs::LineTables::line_of_members))]
pub fn worked_policies_of_words()
    ensures none { (line_of_members Three (line_table_with_keys [])).policy ≡ plain true }
    ensures off { (line_of_members Three (line_table_with_keys (key_with_text (codes "cache") (codes "off") ∷ []))).policy
        ≡ plain false }
    ensures lifetime { (line_of_members Three (line_table_with_keys (key_with_number (codes "lifetime") 60 ∷ []))).policy
        ≡ record (plain true) { lifetime = Some 60; error_lifetime = Some 60 } }
    ensures stale_if_error { (line_of_members Three (line_table_with_keys (key_with_number (codes "stale-if-error") 600 ∷ []))).policy
        ≡ record (plain true) { stale_if_error = Some 600 } }
    ensures cookies { (line_of_members Three (line_table_with_keys (key_with_text (codes "set-cookie") (codes "not-stored") ∷ []))).policy
        ≡ record (plain true) { stores_cookies = false } }
    ensures cookies_stored { (line_of_members Three (line_table_with_keys (key_with_text (codes "set-cookie") (codes "stored")
        ∷ []))).policy ≡ plain true }
    ensures errors { (line_of_members Three (line_table_with_keys (key_with_text (codes "errors") (codes "not-stored") ∷ []))).policy
        ≡ record (plain true) { stores_errors = false } }
    ensures errors_stored { (line_of_members Three (line_table_with_keys (key_with_text (codes "errors") (codes "stored")
        ∷ []))).policy ≡ plain true }
    ensures directives { (line_of_members Three
        (line_table_with_keys (key_with_text (codes "request-directives") (codes "ignored") ∷ []))).policy
        ≡ record (plain true) { heeds_requests = false } }
    ensures wait { (line_of_members Three (line_table_with_keys (key_with_text (codes "wait") (codes "missing-or-stale") ∷ []))).policy
        ≡ record (plain true) { waits_for_stale = true } }
    ensures wait_missing { (line_of_members Three (line_table_with_keys (key_with_text (codes "wait") (codes "missing")
        ∷ []))).policy ≡ plain true }
    ensures explain { (line_of_members Three (line_table_with_keys (key_with_text (codes "explain") (codes "storing") ∷ []))).policy
        ≡ record (plain true) { explains_storing = true } }
    ensures explain_reuse { (line_of_members Three (line_table_with_keys (key_with_text (codes "explain") (codes "reuse")
        ∷ []))).policy ≡ plain true }
    ensures directives_heeded { (line_of_members Three (line_table_with_keys (key_with_text (codes "request-directives")
        (codes "heeded") ∷ []))).policy ≡ plain true }
{}

/// In the fourth version errors have a lifetime of their own, or none; in the third they have that of all others.
#[tactic(auto, unfolding(crate::specs::LineTables::line_of_members))]
pub fn worked_error_lifetimes_by_version()
    ensures none { (line_of_members Four (line_table_with_keys [])).policy ≡ policy_of_version_four }
    ensures lifetime { (line_of_members Four (line_table_with_keys (key_with_number (codes "lifetime") 60 ∷ []))).policy
        ≡ record policy_of_version_four { lifetime = Some 60 } }
    ensures of_errors { (line_of_members Four (line_table_with_keys (key_with_number (codes "error-lifetime") 5 ∷ []))).policy
        ≡ record policy_of_version_four { error_lifetime = Some 5 } }
    ensures both { (line_of_members Four (line_table_with_keys (key_with_number (codes "error-lifetime") 5
        ∷ key_with_number (codes "lifetime") 60 ∷ []))).policy
        ≡ record policy_of_version_four { lifetime = Some 60; error_lifetime = Some 5 } }
    ensures of_three { (line_of_members Three (line_table_with_keys (key_with_number (codes "lifetime") 60 ∷ []))).policy
        ≡ record (plain true) { lifetime = Some 60; error_lifetime = Some 60 } }
    ensures most { (line_of_members Four (line_table_with_keys (key_with_number (codes "lifetime-most") 600 ∷ []))).policy
        ≡ record policy_of_version_four { lifetime_most = Some 600 } }
    ensures most_beside { (line_of_members Four (line_table_with_keys (key_with_number (codes "lifetime-most") 600
        ∷ key_with_number (codes "lifetime") 3600 ∷ []))).policy
        ≡ record policy_of_version_four { lifetime = Some 3600; lifetime_most = Some 600 } }
    ensures others { (line_of_members Four (line_table_with_keys (key_with_text (codes "errors") (codes "not-stored")
        ∷ []))).policy ≡ record policy_of_version_four { stores_errors = false } }
{}

/// In the fourth version the conditions of clients stay with the proxy, unless the line says else, denies or has its
/// cache off; in the third they are the origin's.
#[tactic(auto, unfolding(crate::specs::LineTables::line_of_members))]
pub fn worked_client_conditions_by_version()
    ensures of_three { (line_of_members Three (line_table_with_keys [])).policy.forwards_conditions ≡ true }
    ensures of_four { (line_of_members Four (line_table_with_keys [])).policy.forwards_conditions ≡ false }
    ensures answered { (line_of_members Four (line_table_with_keys (key_with_text (codes "conditions") (codes "answered") ∷ []))).policy
        ≡ policy_of_version_four }
    ensures forwarded { (line_of_members Four (line_table_with_keys (key_with_text (codes "conditions") (codes "forwarded") ∷ []))).policy
        ≡ record policy_of_version_four { forwards_conditions = true } }
    ensures off { (line_of_members Four (line_table_with_keys (key_with_text (codes "cache") (codes "off") ∷ []))).policy
        ≡ default_policy_with_hidden_tags true false }
    ensures denying { (line_of_members Four (denying_line_table_with [])).policy
        ≡ default_policy_with_hidden_tags true true }
{}

/// In the fourth version a line gives its lifetimes to no request with a cookie, unless it says else, denies or has its
/// cache off; in the third it gives them to each.
#[tactic(auto, unfolding(crate::specs::LineTables::line_of_members))]
pub fn worked_cookies_by_config_version()
    ensures of_three { (line_of_members Three
        (line_table_with_keys (key_with_number (codes "lifetime") 60 ∷ []))).policy.gives_to_cookies ≡ true }
    ensures of_four { (line_of_members Four
        (line_table_with_keys (key_with_number (codes "lifetime") 60 ∷ []))).policy.gives_to_cookies ≡ false }
    ensures private { (line_of_members Four (line_table_with_keys (key_with_text (codes "cookies") (codes "private") ∷ []))).policy
        ≡ policy_of_version_four }
    ensures shared { (line_of_members Four (line_table_with_keys (key_with_text (codes "cookies") (codes "shared") ∷ []))).policy
        ≡ record policy_of_version_four { gives_to_cookies = true } }
    ensures off { (line_of_members Four (line_table_with_keys (key_with_text (codes "cache") (codes "off") ∷ []))).policy
        ≡ default_policy_with_hidden_tags true false }
    ensures denying { (line_of_members Four (denying_line_table_with [])).policy
        ≡ default_policy_with_hidden_tags true true }
{}

/// In the fourth version a line gives its lifetimes to no response with Set-Cookie, unless it says what becomes of
/// those, denies or has its cache off; in the third it gives them to each. Only the fourth has `removed`.
#[tactic(auto, unfolding(crate::specs::LineTables::line_of_members))]
pub fn worked_cookies_of_responses_by_version()
    ensures of_three { (line_of_members Three
        (line_table_with_keys (key_with_number (codes "lifetime") 60 ∷ []))).policy.gives_to_set_cookie ≡ true }
    ensures of_four { (line_of_members Four
        (line_table_with_keys (key_with_number (codes "lifetime") 60 ∷ []))).policy.gives_to_set_cookie ≡ false }
    ensures stored { (line_of_members Four (line_table_with_keys (key_with_text (codes "set-cookie") (codes "stored") ∷ []))).policy
        ≡ record policy_of_version_four { gives_to_set_cookie = true } }
    ensures not_stored { (line_of_members Four (line_table_with_keys (key_with_text (codes "set-cookie") (codes "not-stored")
        ∷ []))).policy ≡ record policy_of_version_four { stores_cookies = false; gives_to_set_cookie = true } }
    ensures removed { (line_of_members Four (line_table_with_keys (key_with_text (codes "set-cookie") (codes "removed") ∷ []))).policy
        ≡ record policy_of_version_four { removes_set_cookie = true; gives_to_set_cookie = true } }
    ensures removed_in_three { (line_of_members Three
        (line_table_with_keys (key_with_text (codes "set-cookie") (codes "removed") ∷ []))).policy ≡ plain true }
    ensures off { (line_of_members Four (line_table_with_keys (key_with_text (codes "cache") (codes "off") ∷ []))).policy
        ≡ default_policy_with_hidden_tags true false }
    ensures denying { (line_of_members Four (denying_line_table_with [])).policy
        ≡ default_policy_with_hidden_tags true true }
{}

/// In the fourth version a line that lets others wait for what is stale sends it while it is validated, for as long as
/// it or the line says; in the third it doesn't.
#[tactic(auto, unfolding(crate::specs::LineTables::line_of_members))]
pub fn worked_stale_while_revalidate_by_version()
    ensures of_three { (line_of_members Three (line_table_with_keys (key_with_text (codes "wait") (codes "missing-or-stale")
        ∷ []))).policy.sends_while_revalidating ≡ false }
    ensures of_four { (line_of_members Four (line_table_with_keys (key_with_text (codes "wait") (codes "missing-or-stale") ∷ []))).policy
        ≡ record policy_of_version_four { waits_for_stale = true; sends_while_revalidating = true } }
    ensures with_the_word { (line_of_members Four (line_table_with_keys (key_with_text (codes "wait") (codes "missing-or-stale")
        ∷ key_with_number (codes "stale-while-revalidate") 60 ∷ []))).policy
        ≡ record policy_of_version_four {
          waits_for_stale = true;
          sends_while_revalidating = true;
          stale_while_revalidate = Some 60;
        } }
    ensures the_word_alone { (line_of_members Four (line_table_with_keys (key_with_number (codes "stale-while-revalidate") 60
        ∷ []))).policy ≡ record policy_of_version_four { stale_while_revalidate = Some 60 } }
    ensures where_missing { (line_of_members Four (line_table_with_keys (key_with_text (codes "wait") (codes "missing")
        ∷ []))).policy
        ≡ policy_of_version_four }
    ensures beside_stale_if_error { (line_of_members Four (line_table_with_keys (key_with_number (codes "stale-if-error") 600
        ∷ key_with_number (codes "stale-while-revalidate") 60 ∷ []))).policy
        ≡ record policy_of_version_four { stale_if_error = Some 600; stale_while_revalidate = Some 60 } }
{}

/// A whole table of version 3.
#[tactic(auto, unfolding(toml::proofs::OnLiterals::toml_on_literals, crate::specs::Tables::config_or_fault_of_table, crate::specs::Tables::table_fault, crate::specs::Tables::table_of_members, crate::specs::Tables::is_name, crate::specs::LineTables::line_fault, crate::specs::LineTables::line_of_members, crate::specs::LineTables::is_line_host, crate::specs::LineTables::is_line_method, crate::specs::LineTables::is_line_path, crate::specs::Addresses::address_of, hx_target::specs::Hosts::is_host, hx_target::specs::Hosts::number_of_few_digits, hx_target::specs::Paths::has_dot_segment))]
pub fn worked_table_of_version_three()
    ensures { option_map config_or_fault_of_table (parse_document (codes "version = 3\nname = \"edge\"\ncapacity = 2\nmax_body = 1000\nmax_stored = 1000\n\n[[line]]\nhost = \"*\"\nmethods = [\"GET\"]\npath = \"/\"\norigin = \"127.0.0.1:8081\"\nlifetime = 60\nstale-if-error = 600\nset-cookie = \"not-stored\"\nerrors = \"not-stored\"\nrequest-directives = \"ignored\"\nwait = \"missing-or-stale\"\nexplain = \"storing\"\n")) ≡ Some (Ok (record {
      name = codes "edge";
      capacity = 2;
      max_body = 1000;
      max_stored = 1000;
      max_store = None;
      lines = record (example_line_with_method None (codes "GET") (codes "/") origin_8081) {
        policy = record {
          caches = true;
          lifetime = Some 60;
          error_lifetime = Some 60;
          lifetime_most = None;
          stale_if_error = Some 600;
          stale_while_revalidate = None;
          stores_cookies = false;
          removes_set_cookie = false;
          gives_to_set_cookie = true;
          gives_to_cookies = true;
          stores_errors = false;
          heeds_requests = false;
          waits_for_stale = true;
          sends_while_revalidating = false;
          explains_storing = true;
          forwards_conditions = true;
          forwards_ranges = true;
          fills_ranges = false;
          hides_tags = false;
        };
      } ∷ [];
    })) }
{}

/// A whole table of version 4.
#[tactic(auto, unfolding(toml::proofs::OnLiterals::toml_on_literals, crate::specs::Tables::config_or_fault_of_table, crate::specs::Tables::table_fault, crate::specs::Tables::table_of_members, crate::specs::Tables::is_name, crate::specs::LineTables::line_fault, crate::specs::LineTables::line_of_members, crate::specs::LineTables::is_line_host, crate::specs::LineTables::is_line_method, crate::specs::LineTables::is_line_path, crate::specs::Addresses::address_of, hx_target::specs::Hosts::is_host, hx_target::specs::Hosts::number_of_few_digits, hx_target::specs::Paths::has_dot_segment))]
pub fn worked_table_of_version_four()
    ensures { option_map config_or_fault_of_table (parse_document (codes "version = 4\nname = \"edge\"\ncapacity = 2\nmax_body = 1000\nmax_stored = 1000\n\n[[line]]\nhost = \"*\"\nmethods = [\"GET\"]\npath = \"/\"\norigin = \"127.0.0.1:8081\"\nlifetime = 60\nerror-lifetime = 5\n")) ≡ Some (Ok (record {
      name = codes "edge";
      capacity = 2;
      max_body = 1000;
      max_stored = 1000;
      max_store = None;
      lines = record line_of_version_four {
        policy = record policy_of_version_four { lifetime = Some 60; error_lifetime = Some 5 };
      } ∷ [];
    })) }
{}
