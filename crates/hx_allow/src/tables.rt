//! The top of the operator's table: its first fault, and what it says.
ghost use Rattle.std.specs.Prelude.{◌≡◌, ◌≤◌, IfOk, Err, Some, true, codes, is_some, length, IfSome, MatchResult};
ghost use Rattle.std.specs.Option.{option_map, option_copied};
ghost use Rattle.std.specs.List.{list_all};
ghost use Rattle.toml.specs.Data.{as_table};
ghost use Rattle.toml.specs.View.{table_view, array_view, items_view, view};
ghost use Rattle.hx_allow.specs.Values.{is_some_and, text_of_key};
ghost use Rattle.hx_allow.specs.LineTables.{table_fault_of_borrowed};
ghost use Rattle.hx_allow.specs.Tables.{is_name_byte, is_name, number_of_key, table_version_of, is_line_table_array};
ghost use Rattle.hx_allow.specs.Tables.{line_tables_of_toml};
ghost use Rattle.hx_allow.specs.Tables.{table_fault};
ghost use Rattle.hx_allow.specs.Tables.{most_lines_of_version};
ghost use Rattle.hx_allow.specs.Rows.{greatest_number, number_key_row};
ghost use Rattle.hx_allow.specs.Tables.{table_of_members, config_or_fault_of_table, top_key_has_good_value};
ghost use Rattle.hx_allow.specs.Tables.{first_bad_top_key};
ghost use Rattle.hx_allow.specs.Tables.{out_of_memory_may_precede_fault};
ghost use Rattle.hx_allow.specs.Tables.{MembersAreOfSomeToml, top_number_key_has_good_value, store_bound_is_good};

use crate::config_faults::BorrowedTableFault;
use crate::host_index::HostIndex;
use crate::limits::MOST_LINES;
use crate::line_tables::{first_fault_of_lines, lines_of_tables};
use crate::rows::{TOP_KEYS, TopKey};
use crate::values::{
    Scope, TableVersion, array_of_key, count_is_from_1_to, first_unknown, number_in, text_of_key,
    value_of_key,
};
use crate::{NumberKey, Table, TableFault};
use hx_fields::Bytes;
use std::alloc::{AllocError, Global};
use toml::value::Array;
use toml::{Table as TomlTable, Value};

fn is_name_byte(b: u8) -> bool
    ensures { result ≡ is_name_byte b }
{
    b.is_ascii_lowercase() || b.is_ascii_digit() || b == b'-'
}

fn are_name_bytes(text: &[u8]) -> bool
    ensures { result ≡ list_all is_name_byte text.now }
{
    text.iter().all(|b| is_name_byte(*b))
}

#[tactic(auto, unfolding(crate::specs::Tables::is_name))]
fn is_name(text: &[u8]) -> bool
    ensures { result ≡ is_name text.now }
{
    match text.first() {
        Some(b) => text.len() <= 32 && b.is_ascii_lowercase() && are_name_bytes(text),
        None => false,
    }
}

fn is_good_name(text: Option<&str>) -> bool
    ensures { result ≡ is_some_and is_name (option_copied text.entry) }
{
    match text {
        Some(text) => is_name(text.as_bytes()),
        None => false,
    }
}

fn number_of_key(table: &TomlTable, key: NumberKey) -> Option<u64>
    ensures number { result ≡ number_of_key key (table_view table.now) }
    ensures bounded { IfSome result (λ n. n ≤ greatest_number (number_key_row key).kind) }
{
    number_in(key.row(), table)
}

fn table_version_of(table: &TomlTable) -> TableVersion
    ensures { result ≡ table_version_of (table_view table.now) }
{
    match number_of_key(table, NumberKey::Version) {
        Some(2) => TableVersion::Two,
        Some(3) => TableVersion::Three,
        Some(4) => TableVersion::Four,
        _ => TableVersion::One,
    }
}

/// The most lines of a table of a version.
fn most_lines_of_version(version: TableVersion) -> usize
    ensures limit { result ≡ most_lines_of_version version }
    ensures bounded { result ≤ 4096 }
{
    match version {
        TableVersion::Four => usize::from(MOST_LINES),
        _ => 256,
    }
}

fn is_line_table_array(version: TableVersion, values: &[Value]) -> bool
    ensures lines { result ≡ is_line_table_array version (items_view values.now) }
    ensures few { result ≡ true → length values.now ≤ 4096 }
{
    if !count_is_from_1_to(most_lines_of_version(version), values) {
        return false;
    }
    for value in values {
        if !value.is_table() {
            return false;
        }
    }
    true
}

/// The array of lines, where it has tables and nothing else, as many as the version lets it.
fn line_tables_of_toml(table: &TomlTable) -> Option<&Array>
    ensures found { option_map (λ a. array_view a.now) result ≡ line_tables_of_toml (table_view table.now) }
    ensures few { IfSome result (λ a. length a.now.items ≤ 4096) }
{
    match array_of_key(table, "line") {
        Some(values) => {
            if is_line_table_array(table_version_of(table), values) {
                Some(values)
            } else {
                None
            }
        }
        None => None,
    }
}

/// Whether the bytes of the store aren't bounded, or their bound is in its range and no less than that of one content.
fn store_bound_is_good(table: &TomlTable) -> bool
    ensures { result ≡ store_bound_is_good (table_view table.now) }
{
    if value_of_key(table, NumberKey::MaxStore.row().key).is_none() {
        return true;
    }
    match number_of_key(table, NumberKey::MaxStore) {
        Some(most) => number_of_key(table, NumberKey::MaxStored).unwrap_or(0) <= most,
        None => false,
    }
}

fn top_number_key_has_good_value(key: NumberKey, table: &TomlTable) -> bool
    ensures { result ≡ top_number_key_has_good_value (table_view table.now) key }
{
    match key {
        NumberKey::MaxStore => store_bound_is_good(table),
        _ => number_of_key(table, key).is_some(),
    }
}

fn top_key_has_good_value(key: TopKey, table: &TomlTable) -> bool
    ensures { result ≡ top_key_has_good_value (table_view table.now) key }
{
    match key {
        TopKey::Name => is_good_name(text_of_key(table, "name")),
        TopKey::Number(key) => top_number_key_has_good_value(key, table),
        TopKey::Lines => line_tables_of_toml(table).is_some(),
    }
}

/// The first key at the top that is missing or isn't good, in the order in which they are looked at.
fn first_bad_top_key(table: &TomlTable) -> Option<TopKey>
    ensures { result ≡ first_bad_top_key (table_view table.now) }
{
    TOP_KEYS
        .iter()
        .copied()
        .find(|key| !top_key_has_good_value(*key, table))
}

/// The first fault of a table.
#[tactic(auto, unfolding(crate::specs::Tables::table_fault))]
fn table_fault(table: &TomlTable) -> Option<BorrowedTableFault<'_>>
    ensures first { option_map table_fault_of_borrowed result ≡ table_fault (table_view table.now) }
    ensures found_fault { ¬ (result ≡ Some (BorrowedTableFault.Other TableFault.OutOfMemory)) }
{
    let version = table_version_of(table);
    if let Some(key) = first_unknown(Scope::Top(version), table) {
        return Some(BorrowedTableFault::UnknownKey(key));
    }
    if let Some(key) = first_bad_top_key(table) {
        return Some(BorrowedTableFault::Other(key.fault()));
    }
    let values = line_tables_of_toml(table)?;
    first_fault_of_lines(version, values)
}

/// What a table without fault says.
#[tactic(auto, unfolding(crate::specs::Tables::table_of_members), using(crate::proofs::Readings::said_by_a_text))]
fn config_of(alloc: Global, table: &TomlTable) -> Result<Table, AllocError>
    requires toml { MembersAreOfSomeToml (table_view table.now) }
    requires faultless { table_fault (table_view table.now) ≡ None }
    ensures { IfOk result (λ config. config ≡ table_of_members (table_view table.now)) }
{
    let lines = match line_tables_of_toml(table) {
        Some(values) => lines_of_tables(alloc, table_version_of(table), values)?,
        None => Vec::new(alloc),
    };
    Ok(Table {
        name: String::from_str(alloc, text_of_key(table, "name").unwrap_or(""))?,
        capacity: number_of_key(table, NumberKey::Capacity).unwrap_or(0) as usize,
        max_body: number_of_key(table, NumberKey::MaxBody).unwrap_or(0),
        max_stored: number_of_key(table, NumberKey::MaxStored).unwrap_or(0),
        max_store: number_of_key(table, NumberKey::MaxStore),
        by_host: HostIndex::of(alloc, &lines)?,
        lines,
    })
}

/// The fault of a key that isn't known, whose bytes were copied. Out of memory is told where the copy found none.
fn fault_of_key(copied: Result<Bytes, AllocError>) -> TableFault
    ensures { MatchResult copied (λ key. result ≡ TableFault.UnknownKey key) (λ _. result ≡ TableFault.OutOfMemory) }
{
    match copied {
        Ok(key) => TableFault::UnknownKey(key),
        Err(_) => TableFault::OutOfMemory,
    }
}

/// What a table says, or its first fault. Only the bytes of an unknown key are copied for a fault.
#[tactic(auto, unfolding(crate::specs::Tables::config_or_fault_of_table))]
pub fn config_or_fault_of_table(alloc: Global, table: &TomlTable) -> Result<Table, TableFault>
    requires { MembersAreOfSomeToml (table_view table.now) }
    ensures judged { ¬ (result ≡ Err TableFault.OutOfMemory) → result
        ≡ config_or_fault_of_table (table_view table.now) }
    ensures memory_last { result ≡ Err TableFault.OutOfMemory
        → out_of_memory_may_precede_fault (table_fault (table_view table.now)) ≡ true }
{
    match table_fault(table) {
        Some(BorrowedTableFault::UnknownKey(key)) => {
            Err(fault_of_key(Bytes::copy_of(alloc, key.as_bytes())))
        }
        Some(BorrowedTableFault::Other(fault)) => Err(fault),
        None => Ok(config_of(alloc, table)?),
    }
}
