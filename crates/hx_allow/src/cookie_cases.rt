//! Worked cases of cookies and of requests that go past the store: each function's contract is the cases, and its body
//! is empty.
ghost use Rattle.std.specs.Prelude.{◌≡◌, ◌∷◌, [], true, false, codes, None, Some};
ghost use Rattle.toml.specs.Data.{boolean};
ghost use Rattle.hx_fields.specs.Examples.{line};
ghost use Rattle.hx_policy.specs.Policies.{plain};
ghost use Rattle.hx_allow.specs.Cookies.{line_has_cookie_among, has_cookie_among};
ghost use Rattle.hx_allow.specs.Examples.{key_with_text, line_table_with_keys, denying_line_table_with, list_of_texts};
ghost use Rattle.hx_allow.specs.Examples.{loop_refusing_table, session_cookie_table, sixteen_cookie_names};
ghost use Rattle.hx_allow.specs.Examples.{target_for_path};
ghost use Rattle.hx_allow.specs.Keys.{key_of_line_option};
ghost use Rattle.hx_allow.specs.LineTables.{line_fault, line_of_members};
ghost use Rattle.hx_allow.specs.Matching.{route_over_line, policy_of, verdict_of_request};
ghost use Rattle.hx_allow.specs.declared.config_faults.TableFault.TheVariants.{BadWord, UnknownKey};
ghost use Rattle.hx_allow.specs.declared.config_faults.LineOption.TheVariants.{Cookies, SessionCookies, Errors};
ghost use Rattle.hx_allow.specs.declared.values.TableVersion.TheVariants.{Three, Four};
ghost use Rattle.hx_allow.specs.declared.verdicts.Verdict.TheVariants.{Allowed, DeniedBy, Looped};

/// Which lines of Cookie have a cookie of these names, among them the example of RFC 6265, section 3.1.
pub fn worked_cookie_field_lines()
    ensures first_of_the_rfc { line_has_cookie_among (codes "SID" ∷ []) (codes "SID=31d4d96e407aad42; lang=en-US") ≡ true }
    ensures second_of_the_rfc { line_has_cookie_among (codes "lang" ∷ []) (codes "SID=31d4d96e407aad42; lang=en-US") ≡ true }
    ensures another { line_has_cookie_among (codes "sid" ∷ []) (codes "SID=31d4d96e407aad42; lang=en-US") ≡ false }
    ensures one_of_two { line_has_cookie_among (codes "sid" ∷ codes "login" ∷ []) (codes "_ga=1; login=2") ≡ true }
    ensures a_value { line_has_cookie_among (codes "sid" ∷ []) (codes "a=sid; b=sid=1") ≡ false }
    ensures longer { line_has_cookie_among (codes "sid" ∷ []) (codes "sid2=1; xsid=2; s=3") ≡ false }
    ensures empty_value { line_has_cookie_among (codes "sid" ∷ []) (codes "sid=") ≡ true }
    ensures without_equals_sign { line_has_cookie_among (codes "sid" ∷ []) (codes "a=1; sid") ≡ true }
    ensures blanks { line_has_cookie_among (codes "sid" ∷ []) (codes "a=1 ;\tsid =2") ≡ true }
    ensures no_blank { line_has_cookie_among (codes "sid" ∷ []) (codes "a=1;sid=2") ≡ true }
    ensures comma { line_has_cookie_among (codes "sid" ∷ []) (codes "a=1, sid=2") ≡ false }
    ensures empty { line_has_cookie_among (codes "sid" ∷ []) [] ≡ false }
    ensures no_names { line_has_cookie_among [] (codes "sid=1") ≡ false }
{}

/// Which requests go past the store, over a line that names two cookies in front of one that names none; and what
/// counts there.
#[tactic(auto, unfolding(crate::specs::Matching::verdict_of, crate::specs::Matching::verdict_of_request, crate::specs::Matching::matches_line, crate::specs::Matching::policy_of))]
pub fn worked_requests_past_the_store()
    ensures with_one { verdict_of_request session_cookie_table (codes "GET") (target_for_path (codes "x") (codes "/shop"))
        (line (codes "Cookie") (codes "_ga=1; sid=2") ∷ []) ≡ Allowed (record { number = 1; past_store = true }) }
    ensures in_the_second_line { verdict_of_request session_cookie_table (codes "GET")
        (target_for_path (codes "x") (codes "/shop"))
        (line (codes "Cookie") (codes "_ga=1") ∷ line (codes "cookie") (codes "login=2") ∷ [])
        ≡ Allowed (record { number = 1; past_store = true }) }
    ensures with_another { verdict_of_request session_cookie_table (codes "GET") (target_for_path (codes "x") (codes "/shop"))
        (line (codes "Cookie") (codes "_ga=1; Sid=2") ∷ []) ≡ Allowed (route_over_line 1) }
    ensures with_none { verdict_of_request session_cookie_table (codes "GET") (target_for_path (codes "x") (codes "/shop"))
        (line (codes "Set-Cookie") (codes "sid=2") ∷ []) ≡ Allowed (route_over_line 1) }
    ensures over_the_second_line { verdict_of_request session_cookie_table (codes "GET")
        (target_for_path (codes "x") (codes "/"))
        (line (codes "Cookie") (codes "sid=2") ∷ []) ≡ Allowed (route_over_line 2) }
    ensures a_loop { verdict_of_request session_cookie_table (codes "GET") (target_for_path (codes "x") (codes "/shop"))
        (line (codes "Cookie") (codes "sid=2") ∷ line (codes "Via") (codes "1.1 edge, 1.1 edge") ∷ []) ≡ Looped 1 }
    ensures denied { verdict_of_request loop_refusing_table (codes "GET") (target_for_path (codes "x") (codes "/p"))
        (line (codes "Cookie") (codes "sid=2") ∷ []) ≡ DeniedBy 1 }
    ensures past_the_store { policy_of session_cookie_table.lines (record { number = 1; past_store = true })
        ≡ plain false }
    ensures by_the_store { policy_of session_cookie_table.lines (route_over_line 1) ≡ plain true }
{}

/// What may stand there: 1 to 16 tokens, in a line of version 4 that has an origin and its cache on. It is looked at
/// behind `cookies`, in front of `errors`.
#[tactic(auto, unfolding(crate::specs::LineTables::line_fault, crate::specs::LineTables::is_line_host, crate::specs::LineTables::is_line_method, crate::specs::LineTables::is_line_path, crate::specs::Addresses::address_of, hx_target::specs::Hosts::is_host, hx_target::specs::Hosts::number_of_few_digits, hx_target::specs::Paths::has_dot_segment))]
pub fn worked_names_of_session_cookies()
    ensures key { key_of_line_option SessionCookies ≡ codes "session-cookies" }
    ensures two { line_fault Four 1
        (line_table_with_keys ((codes "session-cookies", list_of_texts (codes "sid" ∷ codes "login" ∷ [])) ∷ []))
        ≡ None }
    ensures sixteen { line_fault Four 1
        (line_table_with_keys ((codes "session-cookies", list_of_texts sixteen_cookie_names) ∷ [])) ≡ None }
    ensures seventeen { line_fault Four 1
        (line_table_with_keys ((codes "session-cookies", list_of_texts (codes "q" ∷ sixteen_cookie_names)) ∷ []))
        ≡ Some (BadWord 1 SessionCookies) }
    ensures none { line_fault Four 1 (line_table_with_keys ((codes "session-cookies", list_of_texts []) ∷ []))
        ≡ Some (BadWord 1 SessionCookies) }
    ensures no_token { line_fault Four 1 (line_table_with_keys ((codes "session-cookies", list_of_texts (codes "a b" ∷ [])) ∷ []))
        ≡ Some (BadWord 1 SessionCookies) }
    ensures empty_name { line_fault Four 1 (line_table_with_keys ((codes "session-cookies", list_of_texts ([] ∷ [])) ∷ []))
        ≡ Some (BadWord 1 SessionCookies) }
    ensures a_text { line_fault Four 1 (line_table_with_keys (key_with_text (codes "session-cookies") (codes "sid") ∷ []))
        ≡ Some (BadWord 1 SessionCookies) }
    ensures no_text { line_fault Four 1 (line_table_with_keys ((codes "session-cookies", boolean true) ∷ []))
        ≡ Some (BadWord 1 SessionCookies) }
    ensures of_three { line_fault Three 1 (line_table_with_keys ((codes "session-cookies", list_of_texts (codes "sid" ∷ [])) ∷ []))
        ≡ Some (UnknownKey (codes "session-cookies")) }
    ensures denying { line_fault Four 2 (denying_line_table_with ((codes "session-cookies", list_of_texts (codes "sid" ∷ [])) ∷ []))
        ≡ Some (BadWord 2 SessionCookies) }
    ensures without_cache { line_fault Four 2 (line_table_with_keys (key_with_text (codes "cache") (codes "off")
        ∷ (codes "session-cookies", list_of_texts (codes "sid" ∷ [])) ∷ [])) ≡ Some (BadWord 2 SessionCookies) }
    ensures behind_cookies { line_fault Four 1 (line_table_with_keys (key_with_text (codes "cookies") (codes "x")
        ∷ key_with_text (codes "session-cookies") (codes "x") ∷ [])) ≡ Some (BadWord 1 Cookies) }
    ensures before_errors { line_fault Four 1 (line_table_with_keys (key_with_text (codes "errors") (codes "x")
        ∷ key_with_text (codes "session-cookies") (codes "x") ∷ [])) ≡ Some (BadWord 1 SessionCookies) }
{}

/// What a line names: nothing where it doesn't say so.
#[tactic(auto, unfolding(crate::specs::LineTables::line_of_members))]
pub fn worked_session_cookies_of_lines()
    ensures named { (line_of_members Four (line_table_with_keys ((
      codes "session-cookies",
      list_of_texts (codes "sid" ∷ codes "login" ∷ []),
    ) ∷ []))).session_cookies
        ≡ codes "sid" ∷ codes "login" ∷ [] }
    ensures none { (line_of_members Four (line_table_with_keys [])).session_cookies ≡ [] }
{}
