//! Field lines as HTTP writes them: `Name: value`.

use crate::lines::{Fault, Line, bytes_spelled};
use hx_fields::Fields;
use std::alloc::Global;

/// The name and the value of a field line. A value may be empty: `Name:`.
fn name_and_value<'a>(line: Line<'a>) -> Result<(&'a str, &'a str), Fault> {
    match line.text.split_once(':') {
        Some((name, value)) => Ok((name, value.strip_prefix(' ').unwrap_or(value))),
        None => Err(line.fault("not a field line, `Name: value`")),
    }
}

/// Appends a field line.
pub fn push_field(alloc: Global, fields: &mut Fields, line: Line<'_>) -> Result<(), Fault> {
    let (name, value) = name_and_value(line)?;
    let name = bytes_spelled(alloc, line, name)?;
    let value = bytes_spelled(alloc, line, value)?;
    Ok(fields.push(name.as_slice(), value.as_slice())?)
}

/// Appends each field line.
pub fn push_fields(alloc: Global, fields: &mut Fields, lines: &[Line<'_>]) -> Result<(), Fault> {
    for line in lines {
        push_field(alloc, fields, *line)?;
    }
    Ok(())
}

/// The fields of these lines.
pub fn fields_of(alloc: Global, lines: &[Line<'_>]) -> Result<Fields, Fault> {
    let mut fields = Fields::new(alloc);
    push_fields(alloc, &mut fields, lines)?;
    Ok(fields)
}
