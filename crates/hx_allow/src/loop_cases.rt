//! Worked cases of Via and of requests that loop: each function's contract is the cases, and its body is empty.
ghost use Rattle.std.specs.Prelude.{◌≡◌, ◌∷◌, [], true, false, codes, None, Some};
ghost use Rattle.hx_fields.specs.Examples.{line};
ghost use Rattle.hx_allow.specs.Examples.{key_with_text, line_table_with_keys, denying_line_table_with};
ghost use Rattle.hx_allow.specs.Examples.{loop_refusing_table, target_for_path};
ghost use Rattle.hx_allow.specs.LineTables.{line_fault, line_of_members};
ghost use Rattle.hx_allow.specs.Keys.{key_of_line_option};
ghost use Rattle.hx_allow.specs.Matching.{verdict_of_request, request_is_refused_as_loop, route_over_line};
ghost use Rattle.hx_allow.specs.Values.{is_known_key};
ghost use Rattle.hx_allow.specs.Via.{times_in_via_line, via_names_proxy_twice};
ghost use Rattle.hx_allow.specs.declared.config_faults.TableFault.TheVariants.{BadWord, UnknownKey};
ghost use Rattle.hx_allow.specs.declared.config_faults.LineOption.TheVariants.{Conditions, Loops};
ghost use Rattle.hx_allow.specs.declared.values.Scope.TheVariants.{Top, Line};
ghost use Rattle.hx_allow.specs.declared.values.TableVersion.TheVariants.{Three, Four};
ghost use Rattle.hx_allow.specs.declared.verdicts.Verdict.TheVariants.{Allowed, DeniedBy, NoLine, Looped};

/// How often lines of Via name a proxy, among them the examples of RFC 9110, section 7.6.3; and what stands in
/// comments (section 5.6.5) and in quotes.
pub fn worked_lines_of_via()
    ensures one { times_in_via_line (codes "edge") (codes "1.1 edge") ≡ 1 }
    ensures of_the_rfc { times_in_via_line (codes "fred") (codes "1.0 fred, 1.1 p.example.net") ≡ 1 }
    ensures second_of_the_rfc { times_in_via_line (codes "p.example.net") (codes "1.0 fred, 1.1 p.example.net") ≡ 1 }
    ensures combined_of_the_rfc { times_in_via_line (codes "ricky") (codes "1.0 ricky, 1.1 ethel, 1.1 fred, 1.0 lucy") ≡ 1 }
    ensures twice { times_in_via_line (codes "edge") (codes "1.1 edge, 1.0 other, 1.1 edge") ≡ 2 }
    ensures with_its_protocol { times_in_via_line (codes "edge") (codes "HTTP/1.1 edge") ≡ 1 }
    ensures any_case { times_in_via_line (codes "edge") (codes "1.1 EDGE,1.1 Edge") ≡ 2 }
    ensures another { times_in_via_line (codes "edge") (codes "1.1 edge2, 1.1 an-edge, 1.1 edg") ≡ 0 }
    ensures with_a_port { times_in_via_line (codes "edge") (codes "1.1 edge:8080") ≡ 0 }
    ensures the_protocol { times_in_via_line (codes "edge") (codes "edge 1.1") ≡ 0 }
    ensures alone { times_in_via_line (codes "edge") (codes "edge") ≡ 0 }
    ensures none { times_in_via_line (codes "edge") [] ≡ 0 }
    ensures empty_members { times_in_via_line (codes "edge") (codes ", ,1.1 edge,,") ≡ 1 }
    ensures tabs { times_in_via_line (codes "edge") (codes "\t1.1 \t edge\t,1.1\tedge") ≡ 2 }
    ensures behind { times_in_via_line (codes "edge") (codes "1.1 other edge") ≡ 0 }
    ensures before_a_comment { times_in_via_line (codes "edge") (codes "1.1 edge (a proxy)") ≡ 1 }
    ensures comma { times_in_via_line (codes "edge") (codes "1.1 other (a, 1.1 edge, b)") ≡ 0 }
    ensures then_another { times_in_via_line (codes "edge") (codes "1.1 other (a, 1.1 edge), 1.1 edge") ≡ 1 }
    ensures within { times_in_via_line (codes "edge") (codes "1.1 other (a (b), 1.1 edge), 1.1 edge") ≡ 1 }
    ensures quoted_end { times_in_via_line (codes "edge") (codes "1.1 other (a \\), 1.1 edge), 1.1 edge") ≡ 1 }
    ensures quoted_begin { times_in_via_line (codes "edge") (codes "1.1 other (a \\(), 1.1 edge") ≡ 1 }
    ensures quote { times_in_via_line (codes "edge") (codes "1.1 other (a \" b), 1.1 edge") ≡ 1 }
    ensures quoted_comma { times_in_via_line (codes "edge") (codes "1.1 \"other, 1.1 edge\", 1.1 edge") ≡ 1 }
    ensures quoted_pair { times_in_via_line (codes "edge") (codes "1.1 \"other\\\", 1.1 edge\", 1.1 edge") ≡ 1 }
    ensures unclosed { times_in_via_line (codes "edge") (codes "1.1 other (a, 1.1 edge") ≡ 0 }
    ensures at_once { times_in_via_line (codes "edge") (codes "1.1 edge(a proxy)") ≡ 1 }
    ensures end_alone { times_in_via_line (codes "edge") (codes "1.1 other), 1.1 edge") ≡ 1 }
{}

/// Which requests loop, and which were here before; and what a table says of them whose first line denies, whose second
/// refuses loops, and whose third lets them go on.
#[tactic(auto, unfolding(crate::specs::Matching::verdict_of, crate::specs::Matching::verdict_of_request, crate::specs::Matching::matches_line))]
pub fn worked_requests_that_loop()
    ensures none { via_names_proxy_twice (codes "edge") (line (codes "Host") (codes "h") ∷ []) ≡ false }
    ensures once { via_names_proxy_twice (codes "edge") (line (codes "Via") (codes "1.1 edge") ∷ []) ≡ false }
    ensures twice { via_names_proxy_twice (codes "edge") (line (codes "Via") (codes "1.1 edge, 1.1 edge") ∷ []) ≡ true }
    ensures two_lines { via_names_proxy_twice (codes "edge") (line (codes "Via") (codes "1.1 edge") ∷ line (codes "Host") (codes "h")
        ∷ line (codes "via") (codes "1.0 edge") ∷ []) ≡ true }
    ensures one_unclosed { via_names_proxy_twice (codes "edge") (line (codes "Via") (codes "1.1 other (a")
        ∷ line (codes "Via") (codes "1.1 edge") ∷ line (codes "Via") (codes "1.1 edge") ∷ []) ≡ true }
    ensures another_field { via_names_proxy_twice (codes "edge") (line (codes "Received") (codes "1.1 edge, 1.1 edge") ∷ []) ≡ false }
    ensures another_name { via_names_proxy_twice (codes "edge") (line (codes "Via") (codes "1.1 core, 1.1 edge, 1.1 core") ∷ []) ≡ false }
    ensures told_refused { verdict_of_request loop_refusing_table (codes "GET") (target_for_path (codes "x") (codes "/"))
        (line (codes "Via") (codes "1.1 edge, 1.1 edge") ∷ []) ≡ Looped 2 }
    ensures told_once { verdict_of_request loop_refusing_table (codes "GET") (target_for_path (codes "x") (codes "/"))
        (line (codes "Via") (codes "1.1 edge") ∷ []) ≡ Allowed (route_over_line 2) }
    ensures told_forwarded { verdict_of_request loop_refusing_table (codes "POST") (target_for_path (codes "x") (codes "/"))
        (line (codes "Via") (codes "1.1 edge, 1.1 edge") ∷ []) ≡ Allowed (route_over_line 3) }
    ensures told_denied { verdict_of_request loop_refusing_table (codes "GET") (target_for_path (codes "x") (codes "/p"))
        (line (codes "Via") (codes "1.1 edge, 1.1 edge") ∷ []) ≡ DeniedBy 1 }
    ensures told_unmatched { verdict_of_request loop_refusing_table (codes "POST") (target_for_path (codes "y") (codes "/"))
        (line (codes "Via") (codes "1.1 edge, 1.1 edge") ∷ []) ≡ NoLine }
    ensures came_back_once { request_is_refused_as_loop loop_refusing_table (route_over_line 2)
        (line (codes "Via") (codes "1.0 core, 1.1 edge") ∷ []) ≡ true }
    ensures came_back_twice { request_is_refused_as_loop loop_refusing_table (route_over_line 2)
        (line (codes "Via") (codes "1.1 edge, 1.1 edge") ∷ []) ≡ true }
    ensures came_back_another { request_is_refused_as_loop loop_refusing_table (route_over_line 2)
        (line (codes "Via") (codes "1.0 core") ∷ [])
        ≡ false }
    ensures came_back_without_via { request_is_refused_as_loop loop_refusing_table (route_over_line 2) [] ≡ false }
    ensures came_back_forwarded { request_is_refused_as_loop loop_refusing_table (route_over_line 3)
        (line (codes "Via") (codes "1.1 edge") ∷ [])
        ≡ false }
    ensures came_back_no_line { request_is_refused_as_loop loop_refusing_table (route_over_line 4)
        (line (codes "Via") (codes "1.1 edge") ∷ [])
        ≡ false }
{}

/// The key `loops`: in version 4 alone, in each line that has an origin, and looked at last.
#[tactic(auto, unfolding(crate::specs::LineTables::line_fault, crate::specs::LineTables::line_of_members, crate::specs::LineTables::is_line_host, crate::specs::LineTables::is_line_method, crate::specs::LineTables::is_line_path, crate::specs::Addresses::address_of, hx_target::specs::Hosts::is_host, hx_target::specs::Hosts::number_of_few_digits, hx_target::specs::Paths::has_dot_segment))]
pub fn worked_loops_of_lines()
    ensures known { is_known_key (Line Four) (key_of_line_option Loops) ≡ true }
    ensures of_three { is_known_key (Line Three) (codes "loops") ≡ false }
    ensures at_the_top { is_known_key (Top Four) (codes "loops") ≡ false }
    ensures text { key_of_line_option Loops ≡ codes "loops" }
    ensures refused { line_fault Four 1 (line_table_with_keys (key_with_text (codes "loops") (codes "refused") ∷ [])) ≡ None }
    ensures forwarded { line_fault Four 1 (line_table_with_keys (key_with_text (codes "loops") (codes "forwarded") ∷ [])) ≡ None }
    ensures allowed { line_fault Four 1 (line_table_with_keys (key_with_text (codes "loops") (codes "allowed") ∷ []))
        ≡ Some (BadWord 1 Loops) }
    ensures without_cache { line_fault Four 1 (line_table_with_keys (key_with_text (codes "cache") (codes "off")
        ∷ key_with_text (codes "loops") (codes "forwarded") ∷ [])) ≡ None }
    ensures denying { line_fault Four 1 (denying_line_table_with (key_with_text (codes "loops") (codes "refused") ∷ []))
        ≡ Some (BadWord 1 Loops) }
    ensures unknown { line_fault Three 1 (line_table_with_keys (key_with_text (codes "loops") (codes "refused") ∷ []))
        ≡ Some (UnknownKey (codes "loops")) }
    ensures conditions_first { line_fault Four 1 (line_table_with_keys (key_with_text (codes "conditions") (codes "x")
        ∷ key_with_text (codes "loops") (codes "x") ∷ [])) ≡ Some (BadWord 1 Conditions) }
    ensures default { (line_of_members Four (line_table_with_keys [])).refuses_loops ≡ true }
    ensures default_without_cache { (line_of_members Four
        (line_table_with_keys (key_with_text (codes "cache") (codes "off") ∷ []))).refuses_loops ≡ true }
    ensures default_of_three { (line_of_members Three (line_table_with_keys [])).refuses_loops ≡ false }
    ensures says_refused { (line_of_members Four
        (line_table_with_keys (key_with_text (codes "loops") (codes "refused") ∷ []))).refuses_loops ≡ true }
    ensures says_forwarded { (line_of_members Four
        (line_table_with_keys (key_with_text (codes "loops") (codes "forwarded") ∷ []))).refuses_loops ≡ false }
{}
