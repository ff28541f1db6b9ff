//! Where in a table its fault is: the line of the file where it stops being TOML, or where a key stands that isn't
//! known.
ghost use Rattle.proxy_files.specs.TableFiles.{BytesAreTableOrFault};

use crate::command_fault::CommandFailure;
use hx_allow::{Table, TableFault};
use proxy_replay::ReplayFault;
use std::alloc::Global;
use toml::{Table as TomlTable, Value};

/// The keys at the top of a table.
const TOP_KEYS: [&str; 6] = [
    "version",
    "name",
    "capacity",
    "max_body",
    "max_stored",
    "line",
];

/// What a text that is no TOML is told as: the line of the file, the column, and what is expected there.
fn place_of_break(alloc: Global, table: &[u8]) -> Option<String> {
    match toml::table_from_slice(alloc, table) {
        Ok(_) => None,
        Err(error) => format!(in alloc; "{error}").ok(),
    }
}

fn has_key(line: &Value, key: &str) -> bool {
    match line.as_table() {
        Some(line) => line.contains_key(key),
        None => false,
    }
}

/// The number of the first line that has a key, from 1.
fn line_with(table: &TomlTable, key: &str) -> Option<usize> {
    let lines = table.get("line")?.as_array()?;
    for (place, line) in lines.iter().enumerate() {
        if has_key(line, key) {
            return Some(place.saturating_add(1));
        }
    }
    None
}

/// Whether the top of a table has a key: `max_store` is one of version 4.
fn is_known_at_top(table: &TomlTable, key: &str) -> bool {
    TOP_KEYS.contains(&key)
        || (key == "max_store" && table.get("version").and_then(Value::as_integer) == Some(4))
}

/// Where a key that isn't known stands.
fn place_of_key(alloc: Global, table: &[u8], key: &[u8]) -> Option<String> {
    let table = toml::table_from_slice(alloc, table).ok()?;
    let key = str::from_utf8(key).ok()?;
    if table.contains_key(key) && !is_known_at_top(&table, key) {
        return format!(in alloc; "the key {key} stands at the top of the table").ok();
    }
    let line = line_with(&table, key)?;
    format!(in alloc; "the key {key} stands in [[line]] number {line}").ok()
}

/// Where a table's fault is, where the fault itself doesn't say it.
fn place_of(alloc: Global, table: &[u8], fault: &TableFault) -> Option<String> {
    match fault {
        TableFault::NotToml => place_of_break(alloc, table),
        TableFault::UnknownKey(key) => place_of_key(alloc, table, key.as_slice()),
        _ => None,
    }
}

/// Reads a table; a fault says where it is.
pub fn config_of(alloc: Global, table: &[u8]) -> Result<Table, CommandFailure>
    ensures { BytesAreTableOrFault table.now result }
{
    match Table::read(alloc, table) {
        Ok(config) => Ok(config),
        Err(fault) => {
            let place = place_of(alloc, table, &fault);
            Err(CommandFailure::Table(ReplayFault::Config(fault), place))
        }
    }
}
