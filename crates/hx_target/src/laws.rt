//! What the definitions of `specs/` say together: each function's contract is a law, and its body is empty.
ghost use Rattle.std.specs.Prelude.{◌≡◌, ◌<◌, ◌≤◌, List, ℕ, length, Result, Ok, Some, None, true, false, codes, []};
ghost use Rattle.std.specs.Prelude.{◌∷◌};
ghost use Rattle.std.specs.List.{list_all};
ghost use Rattle.hx_target.specs.declared.target_fault.TargetFault.{TargetFault as Fault};
ghost use Rattle.hx_target.specs.declared.targets.Target.{Target as Aim};
ghost use Rattle.hx_target.specs.declared.keys.Key.{Key as StoreKey};
ghost use Rattle.hx_target.specs.declared.target_fault.TargetFault.TheVariants.{Form, Scheme, Host, Port, Userinfo};
ghost use Rattle.hx_target.specs.declared.target_fault.TargetFault.TheVariants.{Escape};
ghost use Rattle.hx_target.specs.declared.target_fault.TargetFault.TheVariants.{DotSegment, TooLong};
ghost use Rattle.hx_target.specs.Examples.{target_in_origin_form, target_in_absolute_form, target_of_slash_and_text};
ghost use Rattle.hx_target.specs.Hosts.{begins_with_valid_host, host_part, is_host, is_name, is_name_byte, lowercase};
ghost use Rattle.hx_target.specs.Hosts.{port_of_text};
ghost use Rattle.hx_target.specs.Hosts.{port_of_host_value};
ghost use Rattle.hx_target.specs.Keys.{same_key};
ghost use Rattle.hx_target.specs.Paths.{has_bad_escape, has_dot_segment, has_only_normal_escapes, table_path_of};
ghost use Rattle.hx_target.specs.Judgement.{TargetIsJudged, TargetParts, is_malformed, judged_of};

/// A target and its Host lines are judged in one way.
pub fn judgement_of_a_target_is_unique()
    ensures { (target : List ℕ) (hosts : List (List ℕ)) (r s : Result Aim Fault) → TargetIsJudged target hosts r
        → TargetIsJudged target hosts s → r ≡ s }
{}

/// The table path of a target that is read has no dot segment.
pub fn no_table_path_has_a_dot_segment()
    ensures { (target : List ℕ) (hosts : List (List ℕ)) (aim : Aim) → TargetIsJudged target hosts (Ok aim)
        → has_dot_segment aim.table_path ≡ false }
{}

/// The table path of a target that is read has no escape of an unreserved character, and each escape in it
/// is in upper case; so it is its own table path.
pub fn a_targets_table_path_is_normal()
    ensures normal { (target : List ℕ) (hosts : List (List ℕ)) (aim : Aim) → TargetIsJudged target hosts (Ok aim)
        → has_only_normal_escapes aim.table_path ≡ true }
    ensures stays { (target : List ℕ) (hosts : List (List ℕ)) (aim : Aim) → TargetIsJudged target hosts (Ok aim)
        → table_path_of aim.table_path ≡ aim.table_path }
{}

/// A path is normalised once: where each of its `%` begins an escape, its table path is normal and is its
/// own table path.
pub fn normalising_a_path_is_idempotent()
    ensures normal { (path : List ℕ) → has_bad_escape path ≡ false → has_only_normal_escapes (table_path_of path)
        ≡ true }
    ensures stays { (path : List ℕ) → has_only_normal_escapes path ≡ true → table_path_of path ≡ path }
    ensures once { (path : List ℕ) → has_bad_escape path ≡ false
        → table_path_of (table_path_of path) ≡ table_path_of path }
{}

/// Worked paths (RFC 3986, sections 5.2.4 and 6.2.2): what the operator's table sees of them.
#[tactic(auto, unfolding(crate::specs::Paths::has_dot_segment))]
pub fn worked_paths_are_normalised()
    ensures decoded { table_path_of (codes "/%41dmin%2fa%7e") ≡ codes "/Admin%2Fa~" }
    ensures once { table_path_of (codes "/%2541%20") ≡ codes "/%2541%20" }
    ensures bad { table_path_of (codes "/%zz%4") ≡ codes "/%zz%4" }
    ensures bad_is_found { has_bad_escape (codes "/a%4") ≡ true }
    ensures good_is_found { has_bad_escape (codes "/%2fa%C3") ≡ false }
    ensures escaped_dots { has_dot_segment (table_path_of (codes "/a/%2e%2E/b")) ≡ true }
    ensures three_dots { has_dot_segment (table_path_of (codes "/.%2e./.%2F.")) ≡ false }
    ensures lower_digits { has_only_normal_escapes (codes "/%2f") ≡ false }
    ensures upper_digits { has_only_normal_escapes (codes "/%2F") ≡ true }
{}

/// Worked targets (RFC 9112, sections 3.2.1 and 3.2.2; RFC 3986, section 3.2): what their parts ask for.
#[tactic(auto, unfolding(crate::specs::Judgement::judged_of, crate::specs::Hosts::is_host, crate::specs::Hosts::number_of_few_digits, crate::specs::Hosts::port_of_text, crate::specs::Paths::has_dot_segment))]
pub fn worked_targets_are_judged()
    ensures origin_form { judged_of (target_in_origin_form (codes "/%61?%") (codes "H:08080"))
        ≡ Ok (record {
          key = record { host = codes "h"; port = 8080; path_query = codes "/%61?%" };
          table_path = codes "/a";
        }) }
    ensures absolute_form { judged_of (target_in_absolute_form (codes "HTTP") (codes "[::1]:") (codes "?x") (codes "h"))
        ≡ Ok (record {
          key = record { host = codes "[::1]"; port = 80; path_query = codes "/?x" };
          table_path = codes "/";
        }) }
    ensures scheme { judged_of (target_in_absolute_form (codes "https") (codes "h") (codes "/") (codes "")) ≡ Err Scheme }
    ensures empty_scheme { judged_of (target_in_absolute_form [] (codes "h") (codes "/") (codes "h")) ≡ Err Scheme }
    ensures host { judged_of (target_in_absolute_form (codes "http") (codes "h:0") (codes "/..") (codes "")) ≡ Err Host }
    ensures port { judged_of (target_in_absolute_form (codes "http") (codes "u@h:65536") (codes "/..") (codes "h")) ≡ Err Port }
    ensures userinfo { judged_of (target_in_absolute_form (codes "http") (codes "u@h") (codes "/%/..") (codes "h")) ≡ Err Userinfo }
    ensures escape { judged_of (target_in_origin_form (codes "/%/..") (codes "h")) ≡ Err Escape }
    ensures dot_segment { judged_of (target_in_origin_form (codes "/%2e./a") (codes "h")) ≡ Err DotSegment }
{}

/// The case of the letters of a scheme, of an authority and of a Host line changes nothing (RFC 3986,
/// section 6.2.2.1).
pub fn case_of_scheme_and_host_is_ignored()
    ensures scheme { (q : TargetParts) (a b : List ℕ) → lowercase a ≡ lowercase b
        → judged_of (record q { scheme = Some a }) ≡ judged_of (record q { scheme = Some b }) }
    ensures authority { (q : TargetParts) (a b : List ℕ) → lowercase a ≡ lowercase b
        → judged_of (record q { authority = Some a }) ≡ judged_of (record q { authority = Some b }) }
    ensures host_line { (q : TargetParts) (a b : List ℕ) → lowercase a ≡ lowercase b
        → judged_of (record q { hosts = a ∷ [] }) ≡ judged_of (record q { hosts = b ∷ [] }) }
{}

/// Keys that are the same are one, and a key is the same as itself.
pub fn same_keys_are_equal_records()
    ensures equal { (a b : StoreKey) → same_key a b ≡ true → a ≡ b }
    ensures itself { (a : StoreKey) → same_key a a ≡ true }
{}

/// Names of letters, digits, hyphens, dots and underscores, and addresses in brackets of 2 to 45
/// bytes (RFC 3986, section 3.2.2).
#[tactic(auto, unfolding(crate::specs::Hosts::is_host))]
pub fn worked_hosts()
    ensures name { is_host (codes "A-b_c.d1") ≡ true }
    ensures empty { is_host [] ≡ false }
    ensures blank { is_host (codes "a b") ≡ false }
    ensures at_sign { is_host (codes "a@b") ≡ false }
    ensures escape { is_host (codes "a%62") ≡ false }
    ensures address { is_host (codes "[2001:dB8::1]") ≡ true }
    ensures dotted { is_host (codes "[::1.2.3.4]") ≡ true }
    ensures least { is_host (codes "[::]") ≡ true }
    ensures too_short { is_host (codes "[:]") ≡ false }
    ensures longest { is_host (codes "[0000:0000:0000:0000:0000:0000:255.255.255.255]") ≡ true }
    ensures too_long { is_host (codes "[00000:0000:0000:0000:0000:0000:255.255.255.255]") ≡ false }
    ensures letter { is_host (codes "[g::1]") ≡ false }
    ensures open { is_host (codes "[::11") ≡ false }
    ensures behind { is_host (codes "[::1]a") ≡ false }
{}

/// A host ends at the first colon, an address at its bracket; a port is 1 to 65535, of five digits
/// at most, and 80 where it is empty.
#[tactic(auto, unfolding(crate::specs::Hosts::is_host, crate::specs::Hosts::number_of_few_digits, crate::specs::Hosts::port_of_text))]
pub fn worked_ports()
    ensures before_port { host_part (codes "h:80") ≡ codes "h" }
    ensures before_port_of_address { host_part (codes "[::1]:80") ≡ codes "[::1]" }
    ensures without { begins_with_valid_host (codes "h") ≡ true }
    ensures with_port { begins_with_valid_host (codes "[::1]:x") ≡ true }
    ensures behind_address { begins_with_valid_host (codes "[::1]80") ≡ false }
    ensures no_host { begins_with_valid_host (codes ":80") ≡ false }
    ensures empty { port_of_text [] ≡ Some 80 }
    ensures zero { port_of_text (codes "0") ≡ None }
    ensures one { port_of_text (codes "1") ≡ Some 1 }
    ensures greatest { port_of_text (codes "65535") ≡ Some 65535 }
    ensures too_great { port_of_text (codes "65536") ≡ None }
    ensures zeros { port_of_text (codes "00443") ≡ Some 443 }
    ensures six_digits { port_of_text (codes "000443") ≡ None }
    ensures letter { port_of_text (codes "8a") ≡ None }
    ensures of_a_value { port_of_host_value (codes "h:8080") ≡ Some 8080 }
    ensures none_of_a_value { port_of_host_value (codes "h:") ≡ Some 80 }
{}

/// Bytes that no target has: blanks, controls, those above 7E (hex) and the hash sign (RFC 3986, section 2).
#[tactic(auto, unfolding(crate::specs::Judgement::is_malformed))]
pub fn worked_bytes_of_targets()
    ensures exclamation_mark { is_malformed (codes "/!") ≡ false }
    ensures tilde { is_malformed (codes "/~") ≡ false }
    ensures blank { is_malformed (codes "/a b") ≡ true }
    ensures delete { is_malformed (47 ∷ 127 ∷ []) ≡ true }
    ensures above { is_malformed (47 ∷ 195 ∷ []) ≡ true }
    ensures hash { is_malformed (codes "/a#b") ≡ true }
{}

/// Segments are cut at slashes alone; of escapes those of unreserved characters are undone, and no others.
#[tactic(auto, unfolding(crate::specs::Paths::has_dot_segment))]
pub fn worked_segments_and_escapes()
    ensures one_dot { has_dot_segment (codes "/a/./b") ≡ true }
    ensures two_dots { has_dot_segment (codes "/a/..") ≡ true }
    ensures three_dots { has_dot_segment (codes "/.../a") ≡ false }
    ensures backslash { has_dot_segment (codes "/a\\..\\b") ≡ false }
    ensures unreserved { table_path_of (codes "/%2D%2E%5F%7e%61%5a%39") ≡ codes "/-._~aZ9" }
    ensures reserved { table_path_of (codes "/%2f%3b%25%c3") ≡ codes "/%2F%3B%25%C3" }
    ensures second_digit { has_bad_escape (codes "/%4g") ≡ true }
    ensures later { has_bad_escape (codes "/%41%") ≡ true }
{}

/// One Host line has to stand, whatever the target; the forms of CONNECT and OPTIONS aren't read;
/// an authority replaces Host.
#[tactic(auto, unfolding(crate::specs::Judgement::judged_of, crate::specs::Hosts::is_host, crate::specs::Hosts::number_of_few_digits, crate::specs::Hosts::port_of_text, crate::specs::Paths::has_dot_segment))]
pub fn worked_forms_are_judged()
    ensures no_host { judged_of (record (target_in_origin_form (codes "/a") []) { hosts = [] }) ≡ Err Host }
    ensures two_hosts { judged_of (record (target_in_origin_form (codes "/a") []) { hosts = codes "h" ∷ codes "h" ∷ [] })
        ≡ Err Host }
    ensures bad_host_line { judged_of (target_in_absolute_form (codes "http") (codes "h") (codes "/a") (codes "x y")) ≡ Err Host }
    ensures bad_host_of_authority { judged_of (target_in_absolute_form (codes "http") (codes "a%62") (codes "/a") (codes "h"))
        ≡ Err Host }
    ensures bad_port_of_host_line { judged_of (target_in_absolute_form (codes "http") (codes "h") (codes "/a") (codes "x:0"))
        ≡ Err Port }
    ensures authority_form { judged_of
        (record (target_in_origin_form (codes "h:80") (codes "h")) { authority = Some (codes "h:80") }) ≡ Err Form }
    ensures asterisk_form { judged_of (target_in_origin_form (codes "*") (codes "h")) ≡ Err Form }
    ensures scheme_alone { judged_of
        (record (target_in_origin_form (codes "mailto:a") (codes "h")) { scheme = Some (codes "mailto") }) ≡ Err Form }
    ensures authority { judged_of (target_in_absolute_form (codes "http") (codes "H:81") (codes "/%41?b") (codes "x"))
        ≡ Ok (record {
          key = record { host = codes "h"; port = 81; path_query = codes "/%41?b" };
          table_path = codes "/A";
        }) }
{}

/// A name has 1 to 253 bytes (own). A target has 8,192 at most (own; RFC 9110, section 4.1 wants
/// 8,000 to be read), and what is wrong with its path is told before that.
pub fn host_names_and_targets_have_length_limits()
    ensures names { (text : List ℕ) → is_name text ≡ true → length text ≤ 253 }
    ensures each_name { (text : List ℕ) → list_all is_name_byte text ≡ true → 1 ≤ length text → length text ≤ 253
        → is_name text ≡ true }
    ensures longer { (text : List ℕ) → 8192 < length (47 ∷ text) → judged_of (target_of_slash_and_text text (codes "/a"))
        ≡ Err TooLong }
    ensures longest { (text : List ℕ) → length (47 ∷ text) ≤ 8192
        → judged_of (target_of_slash_and_text text (codes "/a")) ≡ Ok
        (record { key = record { host = codes "h"; port = 80; path_query = codes "/a" }; table_path = codes "/a" }) }
    ensures dots { (text : List ℕ) → judged_of (target_of_slash_and_text text (codes "/..")) ≡ Err DotSegment }
{}
