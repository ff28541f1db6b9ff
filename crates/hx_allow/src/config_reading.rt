//! Reading the operator's table.
ghost use Rattle.std.specs.Prelude.{◌≡◌, ◌≤◌, Err, IfErr, IfOk, length, true};
ghost use Rattle.toml.specs.Errors.{IsMemory};
ghost use Rattle.toml.specs.View.{table_view};
ghost use Rattle.hx_allow.specs.Tables.{BytesReadAsTable, MembersAreOfSomeToml, config_or_fault_of_table, table_fault};
ghost use Rattle.hx_allow.specs.Tables.{out_of_memory_may_precede_fault};

use crate::limits::MOST_TABLE_BYTES;
use crate::tables::config_or_fault_of_table;
use crate::{Table, TableFault};
use std::alloc::Global;
use toml::Table as TomlTable;

/// Reads a table.
pub fn read(alloc: Global, bytes: &[u8]) -> Result<Table, TableFault>
    ensures table { ¬ (result ≡ Err TableFault.OutOfMemory) → BytesReadAsTable bytes.now result }
    ensures memory_last { result ≡ Err TableFault.OutOfMemory → length bytes.now ≤ 1048576 }
{
    if bytes.len() > MOST_TABLE_BYTES {
        return Err(TableFault::NotToml);
    }
    judge_parsed(alloc, toml::table_from_slice(alloc, bytes))
}

/// What a table that was parsed says, or the first fault. Out of memory is told where the parser found none, and of a
/// table that it read only where no fault of it can be told without.
fn judge_parsed(
    alloc: Global,
    parsed: Result<TomlTable, toml::de::Error>,
) -> Result<Table, TableFault>
    requires { IfOk parsed (λ table. MembersAreOfSomeToml (table_view table)) }
    ensures judged { IfOk parsed (λ table. ¬ (result ≡ Err TableFault.OutOfMemory)
        → result ≡ config_or_fault_of_table (table_view table)) }
    ensures memory_last { IfOk parsed (λ table. result ≡ Err TableFault.OutOfMemory
        → out_of_memory_may_precede_fault (table_fault (table_view table)) ≡ true) }
    ensures no_table { IfErr parsed (λ error. ¬ (IsMemory error) → result ≡ Err TableFault.NotToml) }
    ensures no_memory { IfErr parsed (λ error. IsMemory error → result ≡ Err TableFault.OutOfMemory) }
{
    match parsed {
        Ok(table) => config_or_fault_of_table(alloc, &table),
        Err(error) if error.is_memory() => Err(TableFault::OutOfMemory),
        Err(_) => Err(TableFault::NotToml),
    }
}
