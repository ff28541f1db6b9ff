//! The text of an operator's table.

use std::alloc::{AllocError, Global};

/// The table of the first run: room for two responses, and a line for all hosts and paths.
pub const FIRST_TABLE: &str = "version = 1
name = \"edge\"
capacity = 2
max_body = 1000
max_stored = 1000

[[line]]
host = \"*\"
methods = [\"GET\", \"HEAD\", \"POST\"]
path = \"/\"
origin = \"127.0.0.1:8081\"
";

/// Appends a line of a table.
fn push_table_line(table: &mut String, line: &[&str; 5]) -> Result<(), AllocError> {
    let [host, methods, path, origin, words] = *line;
    let methods = methods.replace(*table.allocator(), ", ", "\", \"")?;
    write!(
        table,
        "\n[[line]]\nhost = \"{host}\"\nmethods = [\"{methods}\"]\n"
    )?;
    write!(table, "path = \"{path}\"\norigin = \"{origin}\"\n{words}")
}

/// The table of a proxy `edge` that reads contents of 1,000 bytes at most. Of each line are given the host, the methods
/// with `, ` between them, the path, the origin or `deny`, and below them the lines of its words on caching.
pub fn table_text(
    alloc: Global,
    version: u64,
    capacity: u64,
    max_stored: u64,
    lines: &[[&str; 5]],
) -> Result<String, AllocError> {
    let mut table = String::new(alloc);
    write!(
        table,
        "version = {version}\nname = \"edge\"\ncapacity = {capacity}\n"
    )?;
    write!(table, "max_body = 1000\nmax_stored = {max_stored}\n")?;
    for line in lines {
        push_table_line(&mut table, line)?;
    }
    Ok(table)
}
