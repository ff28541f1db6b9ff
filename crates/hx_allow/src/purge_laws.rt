//! What the table says of requests that purge: each function's contract is a law, and its body is empty.
ghost use Rattle.std.specs.Prelude.{Decides, ◌≡◌, ◌&&◌, ◌||◌, ◌++◌, ℕ, List, true, false, not, Some, None, Ok};
ghost use Rattle.std.specs.List.{All};
ghost use Rattle.toml.specs.Data.{Members};
ghost use Rattle.hx_fields.specs.Line.{Field};
ghost use Rattle.hx_target.specs.declared.keys.Key.{Key};
ghost use Rattle.hx_target.specs.declared.targets.Target.{Target as Aim};
ghost use Rattle.hx_allow.specs.TableLines.{Table};
ghost use Rattle.hx_allow.specs.Matching.{purge_key_of, verdict_of, verdict_of_request};
ghost use Rattle.hx_allow.specs.Purges.{request_shows_purge_key, has_invalid_purge_field, is_at_or_below};
ghost use Rattle.hx_allow.specs.Purges.{is_in_purge_scope};
ghost use Rattle.hx_allow.specs.Scopes.{PathIsAtOrBelow, KeyIsOfSameTarget, KeyIsAtOrBelowAskedTarget};
ghost use Rattle.hx_allow.specs.declared.purges.PurgeScope.TheVariants.{Target, Prefix, Host, All as Everything};
ghost use Rattle.hx_allow.specs.Rows.{has_keys_of};
ghost use Rattle.hx_allow.specs.Tables.{table_version_of, config_or_fault_of_table};
ghost use Rattle.hx_allow.specs.Versions.{OnlyPurgingLineHasPurgeKey};
ghost use Rattle.hx_allow.specs.declared.values.TableVersion.TheVariants.{Four};
ghost use Rattle.hx_allow.specs.declared.verdicts.Verdict.TheVariants.{DeniedBy, Purged};

/// A request purges exactly where the first line that matches purges, the request shows its key, and it asks for
/// nothing that isn't known. Any other that comes to such a line is denied by it.
pub fn a_request_purges_where_it_shows_the_key_of_its_line()
    ensures purged { (table : Table) (method : List ℕ) (target : Aim) (fields : List Field) (line : ℕ) (key : List ℕ)
        → verdict_of table.lines method target ≡ DeniedBy line → purge_key_of table.lines line ≡ Some key
        → request_shows_purge_key key fields ≡ true → has_invalid_purge_field fields ≡ false
        → verdict_of_request table method target fields ≡ Purged line }
    ensures nothing_else { (table : Table) (method : List ℕ) (target : Aim) (fields : List Field) (line : ℕ)
        → verdict_of_request table method target fields ≡ Purged line
        → (verdict_of table.lines method target ≡ DeniedBy line)
        × ((key : List ℕ) × (purge_key_of table.lines line ≡ Some key) × (request_shows_purge_key key fields ≡ true)
        × (has_invalid_purge_field fields ≡ false)) }
    ensures denied { (table : Table) (method : List ℕ) (target : Aim) (fields : List Field) (line : ℕ) (key : List ℕ)
        → verdict_of table.lines method target ≡ DeniedBy line → purge_key_of table.lines line ≡ Some key
        → (request_shows_purge_key key fields && not (has_invalid_purge_field fields)) ≡ false
        → verdict_of_request table method target fields ≡ DeniedBy line }
{}

/// A line that has a key has no origin, and the key is 16 to 64 letters and digits. Before the fourth version none has
/// one.
pub fn a_line_with_purge_key_has_no_origin()
    ensures keys { (t : Members) (table : Table) → config_or_fault_of_table t ≡ Ok table
        → All OnlyPurgingLineHasPurgeKey table.lines }
    ensures earlier_versions { (t : Members) (table : Table) (line : ℕ) → has_keys_of (table_version_of t) Four ≡ false
        → config_or_fault_of_table t ≡ Ok table → purge_key_of table.lines line ≡ None }
{}

/// Without a scope a purge takes its target; by a prefix what is at and below its path, on its host and port; by a host
/// what that has, on each port; and else all.
pub fn purge_scopes_cover_what_they_name()
    ensures target { (asked : Key) (key : Key)
        → Decides (is_in_purge_scope Target asked key) (KeyIsOfSameTarget asked key) }
    ensures below { (path : List ℕ) (other : List ℕ)
        → Decides (is_at_or_below path other) (PathIsAtOrBelow path other) }
    ensures prefix { (asked : Key) (key : Key) → Decides (is_in_purge_scope Prefix asked key)
        (KeyIsAtOrBelowAskedTarget asked key) }
    ensures host { (asked : Key) (key : Key) → Decides (is_in_purge_scope Host asked key) (key.host ≡ asked.host) }
    ensures all { (asked : Key) (key : Key) → is_in_purge_scope Everything asked key ≡ true }
{}
