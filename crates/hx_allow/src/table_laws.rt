//! What the definitions say together of a whole table and of its lines: each function's contract is
//! a law, and its body is empty.
ghost use Rattle.std.specs.Prelude.{◌≡◌, ◌<◌, ◌≤◌, ◌++◌, List, ℕ, Result, Ok, Err, Some, None, length, find, true};
ghost use Rattle.std.specs.Prelude.{false, IsSome, IsUtf8};
ghost use Rattle.toml.specs.Data.{Members, members_are_sorted};
ghost use Rattle.toml.specs.Parse.{parse_document};
ghost use Rattle.hx_target.specs.declared.targets.Target.{Target};
ghost use Rattle.hx_allow.specs.Deciding.{deciding_line, lines_that_match_host};
ghost use Rattle.hx_allow.specs.TableLines.{Line as PlainLine, Table};
ghost use Rattle.hx_allow.specs.LineTables.{line_fault};
ghost use Rattle.hx_allow.specs.Matching.{matches_line, verdict_of};
ghost use Rattle.hx_allow.specs.Tables.{BytesAreToml, config_or_fault_of_table, table_version_of, BytesReadAsTable};
ghost use Rattle.hx_allow.specs.Unknown.{KeyIsInTable, IsLeastUnknownKey};
ghost use Rattle.hx_allow.specs.Values.{is_known_key, first_unknown};
ghost use Rattle.hx_allow.specs.declared.config_faults.TableFault.{TableFault as Fault};
ghost use Rattle.hx_allow.specs.declared.values.Scope.{Scope};
ghost use Rattle.hx_allow.specs.declared.values.Scope.TheVariants.{Top, Line};
ghost use Rattle.hx_allow.specs.declared.values.TableVersion.{TableVersion};

/// Of several keys that aren't known the least is told, at the top before any other fault of the
/// table, and in a line before any other of the line; where none is told each key is known. It is
/// so for every text: the keys of each table that it writes ascend by their bytes.
pub fn the_least_unknown_key_is_named()
    ensures found { (scope : Scope) (ms : Members) (key : List ℕ) → members_are_sorted ms ≡ true
        → first_unknown scope ms ≡ Some key → IsLeastUnknownKey scope ms key }
    ensures none { (scope : Scope) (ms : Members) (key : List ℕ) → first_unknown scope ms ≡ None → KeyIsInTable key ms
        → is_known_key scope key ≡ true }
    ensures top { (t : Members) (key : List ℕ) → members_are_sorted t ≡ true
        → IsLeastUnknownKey (Top (table_version_of t)) t key
        → config_or_fault_of_table t ≡ Err (Fault.UnknownKey key) }
    ensures line { (version : TableVersion) (n : ℕ) (ms : Members) (key : List ℕ) → members_are_sorted ms ≡ true
        → IsLeastUnknownKey (Line version) ms key → line_fault version n ms ≡ Some (Fault.UnknownKey key) }
    ensures sorted { (text : List ℕ) (t : Members) → parse_document text ≡ Some t → members_are_sorted t ≡ true }
    ensures read { (text : List ℕ) (t : Members) (key : List ℕ) → BytesAreToml text t
        → IsLeastUnknownKey (Top (table_version_of t)) t key → BytesReadAsTable text (Err (Fault.UnknownKey key)) }
{}

/// What is taken as a table is UTF-8 text of at most 1,048,576 bytes that is TOML; such a text is
/// judged by what it says, and any other is NotToml.
pub fn a_table_is_toml_within_the_limit()
    ensures taken { (bytes : List ℕ) (table : Table) → BytesReadAsTable bytes (Ok table)
        → (length bytes ≤ 1048576) × IsUtf8 bytes × IsSome (parse_document bytes) }
    ensures judged { (bytes : List ℕ) (t : Members) → length bytes ≤ 1048576 → IsUtf8 bytes
        → parse_document bytes ≡ Some t → BytesReadAsTable bytes (config_or_fault_of_table t) }
    ensures too_long { (bytes : List ℕ) → 1048576 < length bytes → BytesReadAsTable bytes (Err Fault.NotToml) }
    ensures no_text { (bytes : List ℕ) → (IsUtf8 bytes → ⊥) → BytesReadAsTable bytes (Err Fault.NotToml) }
    ensures no_toml { (bytes : List ℕ) → parse_document bytes ≡ None → BytesReadAsTable bytes (Err Fault.NotToml) }
{}

/// The line that decides is the first that matches. Lines behind it change no verdict, and lines of
/// other hosts don't change which line decides.
pub fn lines_behind_or_of_other_hosts_change_nothing()
    ensures first { (lines : List PlainLine) (method : List ℕ) (target : Target)
        → deciding_line lines method target ≡ find (λ line. matches_line line method target) lines }
    ensures behind { (before after : List PlainLine) (method : List ℕ) (target : Target)
        → IsSome (deciding_line before method target)
        → verdict_of (before ++ after) method target ≡ verdict_of before method target }
    ensures other_hosts { (lines : List PlainLine) (method : List ℕ) (target : Target)
        → deciding_line (lines_that_match_host target.key.host lines) method target
        ≡ deciding_line lines method target }
{}
