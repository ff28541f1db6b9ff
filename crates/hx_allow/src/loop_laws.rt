//! What the table says of requests that loop: each function's contract is a law, and its body is empty.
ghost use Rattle.std.specs.Prelude.{◌≡◌, ◌≤◌, ◌+◌, ◌++◌, ◌∷◌, ℕ, List, true, false, not, codes, count_by, Ok};
ghost use Rattle.std.specs.List.{list_all};
ghost use Rattle.toml.specs.Data.{Members};
ghost use Rattle.hx_fields.specs.Line.{Field};
ghost use Rattle.hx_fields.specs.Names.{is_same_name};
ghost use Rattle.hx_target.specs.declared.targets.Target.{Target};
ghost use Rattle.hx_allow.specs.TableLines.{Table};
ghost use Rattle.hx_allow.specs.LineTables.{line_of_members};
ghost use Rattle.hx_allow.specs.LineWords.{text_of_key_equals};
ghost use Rattle.hx_allow.specs.Matching.{line_refuses_loops, verdict_of, verdict_routed_by_session_cookies};
ghost use Rattle.hx_allow.specs.Matching.{verdict_after_purge};
ghost use Rattle.hx_allow.specs.Matching.{verdict_of_request};
ghost use Rattle.hx_allow.specs.declared.verdicts.RouteOverLine.{RouteOverLine};
ghost use Rattle.hx_allow.specs.Rows.{has_keys_of};
ghost use Rattle.hx_allow.specs.Tables.{table_version_of, config_or_fault_of_table};
ghost use Rattle.hx_allow.specs.Via.{times_in_via, times_in_via_line, ViaMember, is_wellformed_via_member};
ghost use Rattle.hx_allow.specs.Via.{via_line_text};
ghost use Rattle.hx_allow.specs.declared.values.TableVersion.TheVariants.{Four};
ghost use Rattle.hx_allow.specs.declared.verdicts.Verdict.TheVariants.{Allowed, Looped};

/// A line of Via that is written as RFC 9110, section 7.6.3 says is read so: it names a proxy as often as a member's
/// received-by is its name, whatever stands in comments. Several lines count together.
pub fn a_line_of_via_is_read_as_it_is_written()
    ensures written { (name : List ℕ) (member : ViaMember) (more : List ViaMember)
        → list_all is_wellformed_via_member (member ∷ more) ≡ true → times_in_via_line name (via_line_text member more)
        ≡ count_by (λ (m : ViaMember). is_same_name m.by name) (member ∷ more) }
    ensures together { (name : List ℕ) (fields more : List Field) → times_in_via name (fields ++ more)
        ≡ times_in_via name fields + times_in_via name more }
{}

/// A request is refused as a loop exactly where its Via names the proxy twice, and the line that would take it
/// refuses loops. One of version 4 does exactly where it doesn't say that they are forwarded.
#[tactic(auto, unfolding(crate::specs::LineTables::line_of_members))]
pub fn a_loop_is_refused_where_its_line_refuses()
    ensures refused { (table : Table) (method : List ℕ) (target : Target) (fields : List Field) (route : RouteOverLine)
        → verdict_of table.lines method target ≡ Allowed route → line_refuses_loops table.lines route.number ≡ true
        → 2 ≤ times_in_via table.name fields → verdict_of_request table method target fields ≡ Looped route.number }
    ensures nothing_else { (table : Table) (method : List ℕ) (target : Target) (fields : List Field) (line : ℕ)
        → verdict_of_request table method target fields ≡ Looped line
        → (route : RouteOverLine) × (verdict_of table.lines method target ≡ Allowed route) × (route.number ≡ line)
        × (line_refuses_loops table.lines line ≡ true) × (2 ≤ times_in_via table.name fields) }
    ensures version_four { (members : Members) → (line_of_members Four members).refuses_loops
        ≡ not (text_of_key_equals (codes "loops") (codes "forwarded") members) }
{}

/// A request whose Via doesn't name the proxy twice has the verdict on its method and target, but for the store past
/// which its cookies may bring it and the key that it may show, and so has each request over a line that lets loops go
/// on. All lines of tables of the first three versions do, none of them looks at cookies, and none purges.
pub fn only_refused_loops_change_the_verdict()
    ensures seldom { (table : Table) (method : List ℕ) (target : Target) (fields : List Field)
        → times_in_via table.name fields ≤ 1 → verdict_of_request table method target fields
        ≡ verdict_after_purge table.lines fields
        (verdict_routed_by_session_cookies table.lines fields (verdict_of table.lines method target)) }
    ensures forwarded { (table : Table) (method : List ℕ) (target : Target) (fields : List Field)
        → ((route : RouteOverLine) → verdict_of table.lines method target ≡ Allowed route
        → line_refuses_loops table.lines route.number ≡ false) → verdict_of_request table method target fields
        ≡ verdict_after_purge table.lines fields
        (verdict_routed_by_session_cookies table.lines fields (verdict_of table.lines method target)) }
    ensures earlier_versions { (t : Members) (table : Table) (method : List ℕ) (target : Target) (fields : List Field)
        → has_keys_of (table_version_of t) Four ≡ false → config_or_fault_of_table t ≡ Ok table
        → verdict_of_request table method target fields ≡ verdict_of table.lines method target }
{}
