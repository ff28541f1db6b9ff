//! What the operator's table reads of a TOML table: keys, texts, numbers and arrays.
ghost use Rattle.std.specs.Prelude.{◌≡◌, ◌<◌, ◌≤◌, ◌^◌, length, true, codes, find, not, string_bytes, option_map};
ghost use Rattle.std.specs.Prelude.{IfSome};
ghost use Rattle.std.specs.BTreeMap.{keys};
ghost use Rattle.std.specs.Option.{option_copied};
ghost use Rattle.toml.specs.Data.{get_member};
ghost use Rattle.toml.specs.View.{table_view, array_view, items_view, view};
ghost use Rattle.hx_allow.specs.Rows.{definition_of_source_row, value_kind_of_source_kind, greatest_number};
ghost use Rattle.hx_allow.specs.Values.{is_known_key, is_row_key_in_version, first_unknown, text_of_key, items_of_key};
ghost use Rattle.hx_allow.specs.Values.{number_between, number_in, count_is_from_1_to};

use crate::rows::{KeyDefinition, LINE_KEYS, TOP_KEYS};
use toml::value::Array;
use toml::{Table as TomlTable, Value};

/// The version of the table's format, which is the number of its key `version`.
#[derive(Clone, Copy, Debug, PartialEq, Eq)]
pub enum TableVersion {
    /// No line has the key `cache`.
    One,
    /// A line may have the key `cache`.
    Two,
    /// A line may have that key and those of `LineOption`, but for `error-lifetime`.
    Three,
    /// A line may have that one too, and the top may have `max_store`.
    Four,
}

/// Which part of the table keys stand in.
#[derive(Clone, Copy, Debug, PartialEq, Eq)]
pub enum Scope {
    /// The top of a table of this version.
    Top(TableVersion),
    /// One of the lines of a table of this version.
    Line(TableVersion),
}

fn is_known_key(scope: Scope, key: &[u8]) -> bool
    ensures { result ≡ is_known_key scope key.now }
{
    match scope {
        Scope::Top(version) => is_top_key(version, key),
        Scope::Line(version) => is_line_key(version, key),
    }
}

fn is_top_key(version: TableVersion, key: &[u8]) -> bool
    ensures { result ≡ is_known_key (Scope.Top version) key.now }
{
    TOP_KEYS
        .iter()
        .any(|known| is_row_of(version, key, known.row()))
}

/// Whether a version has the key of the row, and this is it.
fn is_row_of(version: TableVersion, key: &[u8], row: KeyDefinition) -> bool
    ensures { result ≡ is_row_key_in_version version key.now (definition_of_source_row row) }
{
    row.is_known_in(version) && key == row.key.as_bytes()
}

fn is_line_key(version: TableVersion, key: &[u8]) -> bool
    ensures { result ≡ is_known_key (Scope.Line version) key.now }
{
    LINE_KEYS
        .iter()
        .any(|known| is_row_of(version, key, known.row()))
}

fn unknown_key(scope: Scope, table: &TomlTable) -> Option<&String>
    ensures { option_copied result ≡ find (λ k. not (is_known_key scope (string_bytes k))) (keys table.now) }
{
    table
        .keys()
        .find(|k| !is_known_key(scope, k.as_str().as_bytes()))
}

/// The first key that isn't known. Keys ascend by their bytes, so it is the least.
pub fn first_unknown(scope: Scope, table: &TomlTable) -> Option<&str>
    ensures { option_copied result ≡ first_unknown scope (table_view table.now) }
{
    match unknown_key(scope, table) {
        Some(key) => Some(key.as_str()),
        None => None,
    }
}

/// The value of a key, where it stands.
pub fn value_of_key<'a>(table: &'a TomlTable, key: &str) -> Option<&'a Value>
    ensures { option_map (λ v. view v.now) result ≡ get_member key.now (table_view table.now) }
{
    table.get(key)
}

/// The text of a key, where it has one.
pub fn text_of_key<'a>(table: &'a TomlTable, key: &str) -> Option<&'a str>
    ensures { option_copied result ≡ text_of_key key.now (table_view table.now) }
{
    match value_of_key(table, key) {
        Some(value) => value.as_str(),
        None => None,
    }
}

/// The array of a key, where it has one.
pub fn array_of_key<'a>(table: &'a TomlTable, key: &str) -> Option<&'a Array>
    ensures { option_map (λ a. array_view a.now) result ≡ items_of_key key.now (table_view table.now) }
{
    match value_of_key(table, key) {
        Some(value) => value.as_array(),
        None => None,
    }
}

/// The number of a key, where it is whole and within bounds.
pub fn number_between(table: &TomlTable, key: &str, low: u64, high: u64) -> Option<u64>
    ensures number { result ≡ number_between low high (get_member key.now (table_view table.now)) }
    ensures bounded { IfSome result (λ n. n ≤ high) }
{
    match value_of_key(table, key) {
        Some(value) => within(low, high, value.as_integer()),
        None => None,
    }
}

/// The number of a row's key, where it is whole and within its bounds.
pub(crate) fn number_in(row: KeyDefinition, table: &TomlTable) -> Option<u64>
    ensures number { result ≡ number_in (definition_of_source_row row) (table_view table.now) }
    ensures bounded { IfSome result (λ n. n ≤ greatest_number (value_kind_of_source_kind row.kind)) }
{
    let (low, high) = row.kind.bounds();
    number_between(table, row.key, low, high)
}

fn within(low: u64, high: u64, number: Option<i64>) -> Option<u64>
    ensures number { result ≡ Rattle.hx_allow.specs.Values.within low high number }
    ensures bounded { IfSome result (λ n. n ≤ high) }
{
    match number {
        Some(n) if n >= 0 && low <= n as u64 && n as u64 <= high => Some(n as u64),
        _ => None,
    }
}

/// The seconds of a row's key, where they are whole and within its bounds.
pub(crate) fn seconds_of_row(row: KeyDefinition, table: &TomlTable) -> Option<u32>
    requires { greatest_number (value_kind_of_source_kind row.kind) < 2 ^ 32 }
    ensures { result ≡ number_in (definition_of_source_row row) (table_view table.now) }
{
    match number_in(row, table) {
        Some(seconds) => Some(seconds as u32),
        None => None,
    }
}

/// Whether there are 1 to `most` values.
#[tactic(auto, using(crate::proofs::Items::item_count_view))]
pub fn count_is_from_1_to(most: usize, values: &[Value]) -> bool
    ensures within { result ≡ count_is_from_1_to most (items_view values.now) }
    ensures few { result ≡ true → length values.now ≤ most }
{
    1 <= values.len() && values.len() <= most
}
