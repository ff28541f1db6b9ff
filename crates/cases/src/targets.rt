//! Targets, with the values of the Host lines behind bars, and paths.
//!
//! A target is answered by its host, port, path with query, and path for the operator's table.

use crate::case_file::Case;
use crate::lines::{Fault, Line, bytes_spelled};
use crate::parts::{only_line, write_word_answer};
use crate::text::push_shown;
use crate::words::target_fault_word;
use hx_fields::{Bytes, Fields};
use hx_target::{
    Target, TargetFault, has_bad_escape, has_dot_segment, read_target, table_path,
    table_path_has_dot_segment,
};
use std::alloc::{AllocError, Global};

/// Reads the target of a line with its Host lines, behind a line of another field.
fn read_target_line(alloc: Global, line: Line<'_>) -> Result<Result<Target, TargetFault>, Fault> {
    let mut values = line.text.split(" | ");
    let target = bytes_spelled(alloc, line, values.next().unwrap_or(""))?;
    let mut fields = Fields::new(alloc);
    fields.push(b"Accept", b"*/*")?;
    for value in values {
        fields.push(b"hOST", bytes_spelled(alloc, line, value)?.as_slice())?;
    }
    Ok(read_target(alloc, &Bytes::from_vec(target), &fields))
}

fn write_target(text: &mut String, target: &Target) -> Result<(), AllocError> {
    push_shown(text, target.key.host.as_slice())?;
    write!(text, " {} ", target.key.port)?;
    push_shown(text, target.key.path_query.as_slice())?;
    text.push(' ')?;
    push_shown(text, target.table_path.as_slice())
}

/// A refused target as an answer.
pub fn write_refused(text: &mut String, fault: TargetFault) -> Result<(), AllocError> {
    text.push_str("refused ")?;
    text.push_str(target_fault_word(fault))
}

/// What is read of a target.
pub fn targets(text: &mut String, front: &[Line<'_>], case: &Case<'_>) -> Result<(), Fault> {
    match read_target_line(*text.allocator(), only_line(front, case)?)? {
        Ok(target) => Ok(write_target(text, &target)?),
        Err(fault) => Ok(write_refused(text, fault)?),
    }
}

/// Whether a target is read.
pub fn target_faults(text: &mut String, front: &[Line<'_>], case: &Case<'_>) -> Result<(), Fault> {
    match read_target_line(*text.allocator(), only_line(front, case)?)? {
        Ok(_) => write_word_answer(text, "read"),
        Err(fault) => Ok(write_refused(text, fault)?),
    }
}

/// What is told of a path's dot segments before its escapes are decoded and behind.
fn dot_segments_answer(before: bool, behind: bool) -> &'static str {
    match (before, behind) {
        (true, true) => ", a dot segment",
        (false, false) => "",
        _ => ", a dot segment in one form alone",
    }
}

/// Writes what is found of a path, and what is wrong with it.
fn write_path(text: &mut String, path: &[u8], found: &[u8]) -> Result<(), AllocError> {
    if found.is_empty() {
        text.push_str("\\.")?;
    }
    push_shown(text, found)?;
    if has_bad_escape(path) {
        text.push_str(", a bad escape")?;
    }
    text.push_str(dot_segments_answer(table_path_has_dot_segment(path), has_dot_segment(found)))
}

/// The path for the table, and what is wrong with it.
pub fn paths(text: &mut String, front: &[Line<'_>], case: &Case<'_>) -> Result<(), Fault> {
    let line = only_line(front, case)?;
    let path = bytes_spelled(*text.allocator(), line, line.text)?;
    let found = table_path(*text.allocator(), path.as_slice())?;
    Ok(write_path(text, path.as_slice(), found.as_slice())?)
}
