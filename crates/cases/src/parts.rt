//! Cases of field lines: parts of a line that says what begins, and of the field lines behind it.

use crate::case_file::Case;
use crate::field_lines::push_field;
use crate::lines::{Fault, Line};
use crate::text::push_shown;
use hx_fields::{Field, Fields, is_token};
use std::alloc::{AllocError, Global};

/// The lines of a case behind its group's front, or in place of the front's line `…`.
pub fn lines_of<'a>(
    alloc: Global,
    front: &[Line<'a>],
    case: &Case<'a>,
) -> Result<Vec<Line<'a>>, AllocError> {
    let mut lines = Vec::new(alloc);
    let mut placed = false;
    for line in front {
        if line.text == "…" {
            lines.extend_from_slice(case.input)?;
            placed = true;
        } else {
            lines.push(*line)?;
        }
    }
    if !placed {
        lines.extend_from_slice(case.input)?;
    }
    Ok(lines)
}

/// The only line of a case whose group has no front.
pub fn only_line<'a>(front: &[Line<'a>], case: &Case<'a>) -> Result<Line<'a>, Fault> {
    match (front, case.input) {
        ([], [line]) => Ok(*line),
        _ => Err(
            case.label
                .fault("either more than one line, or a front of the group"),
        ),
    }
}

/// A line that begins something, and the field lines behind it.
pub struct Part<'a> {
    pub head: Line<'a>,
    pub fields: Fields,
}

// By hand, so that a scope that ends is one call to the prover and not the drop of each part.
impl Drop for Part<'_> {
    fn drop(self) {
        let Part { head: _, fields: _ } = self;
    }
}

impl<'a> Part<'a> {
    /// A fault where the part begins with other words.
    pub fn begins(&self, words: &str) -> Result<(), Fault> {
        if self.head.text == words {
            Ok(())
        } else {
            Err(self.head.fault("something else has to begin here"))
        }
    }
}

/// Whether a line is a field line: a token stands before its colon.
fn is_field(line: Line<'_>) -> bool {
    match line.text.split_once(':') {
        Some((name, _)) => is_token(name.as_bytes()),
        None => false,
    }
}

/// A line that spells nothing, which stands where there are no lines.
fn is_empty(line: Line<'_>) -> bool {
    line.text == "\\."
}

fn push_head<'a>(
    alloc: Global,
    parts: &mut Vec<Part<'a>>,
    head: Line<'a>,
) -> Result<(), AllocError> {
    let fields = Fields::new(alloc);
    Ok(parts.push(Part { head, fields })?)
}

fn push_line<'a>(alloc: Global, parts: &mut Vec<Part<'a>>, line: Line<'a>) -> Result<(), Fault> {
    if is_empty(line) {
        return Ok(());
    }
    if !is_field(line) {
        return Ok(push_head(alloc, parts, line)?);
    }
    match parts.last_mut() {
        Some(part) => push_field(alloc, &mut part.fields, line),
        None => Err(line.fault("a field line before anything begins")),
    }
}

/// The parts of a case.
pub fn parts_of<'a>(
    alloc: Global,
    front: &[Line<'a>],
    case: &Case<'a>,
) -> Result<Vec<Part<'a>>, Fault> {
    let lines = lines_of(alloc, front, case)?;
    let mut parts = Vec::new(alloc);
    for line in &lines {
        push_line(alloc, &mut parts, *line)?;
    }
    Ok(parts)
}

fn push_field_line(text: &mut String, line: &Field) -> Result<(), AllocError> {
    if !text.is_empty() {
        text.push_str(" | ")?;
    }
    push_shown(text, line.name())?;
    text.push(':')?;
    if line.value().is_empty() {
        return Ok(());
    }
    text.push(' ')?;
    push_shown(text, line.value())
}

/// Writes the field lines into an empty text, with a bar between them.
pub fn write_fields(text: &mut String, fields: &Fields) -> Result<(), AllocError> {
    for line in fields.as_slice() {
        push_field_line(text, line)?;
    }
    if text.is_empty() {
        text.push_str("no lines")?;
    }
    Ok(())
}

/// Writes a word as an answer.
pub fn write_word_answer(text: &mut String, word: &str) -> Result<(), Fault> {
    Ok(text.push_str(word)?)
}
