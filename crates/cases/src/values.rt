//! Single values. The front of a group says of what kind they are.

use crate::case_file::Case;
use crate::lines::{Fault, Line, bytes_spelled};
use crate::parts::write_word_answer;
use crate::requests::asked_of;
use hx_directives::capped_seconds;
use hx_fields::{Fields, is_token};
use hx_hop::connection_names_caching_field;
use hx_target::{is_host, number_of_few_digits};
use hx_validate::{strong_eq, weak_eq};
use std::alloc::{AllocError, Global};

fn either<'a>(is_so: bool, yes: &'a str, no: &'a str) -> &'a str {
    if is_so { yes } else { no }
}

fn number(text: &mut String, value: Option<u32>) -> Result<(), Fault> {
    match value {
        Some(value) => Ok(write!(text, "{value}")?),
        None => write_word_answer(text, "no number"),
    }
}

fn compared(one: &[u8], other: &[u8]) -> &'static str {
    match (strong_eq(one, other), weak_eq(one, other)) {
        (false, false) => "different",
        (false, true) => "weakly equal",
        (true, true) => "strongly equal",
        (true, false) => "strongly equal and not weakly",
    }
}

/// How two entity tags compare, both ways.
fn compared_both_ways(one: &[u8], other: &[u8]) -> &'static str {
    let shown = compared(one, other);
    if shown == compared(other, one) {
        shown
    } else {
        "different when they are turned"
    }
}

fn tags(text: &mut String, line: Line<'_>) -> Result<(), Fault> {
    let Some((one, other)) = line.text.split_once(" | ") else {
        return Err(line.fault("no two entity tags"));
    };
    let one = bytes_spelled(*text.allocator(), line, one)?;
    let other = bytes_spelled(*text.allocator(), line, other)?;
    write_word_answer(text, compared_both_ways(one.as_slice(), other.as_slice()))
}

/// Field lines with this value of Connection.
fn connection(alloc: Global, value: &[u8]) -> Result<Fields, AllocError> {
    let mut fields = Fields::new(alloc);
    fields.push(b"ETag", b"\"v1\"")?;
    fields.push(b"Connection", value)?;
    Ok(fields)
}

fn naming(text: &mut String, value: &[u8]) -> Result<(), Fault> {
    let names = connection_names_caching_field(&connection(*text.allocator(), value)?);
    write_word_answer(text, either(names, "a cache field", "no cache field"))
}

fn closing(text: &mut String, line: Line<'_>, request: &str, value: &[u8]) -> Result<(), Fault> {
    let fields = connection(*text.allocator(), value)?;
    let asked = asked_of(*text.allocator(), line, request, &fields)?;
    write_word_answer(text, either(asked.close, "closes", "stays open"))
}

/// Writes what is told of a value of this kind, which a line spells.
fn write_value(
    text: &mut String,
    kind: Line<'_>,
    line: Line<'_>,
    value: &[u8],
) -> Result<(), Fault> {
    match kind.text {
        "a token?" => write_word_answer(text, either(is_token(value), "yes", "no")),
        "a host?" => write_word_answer(text, either(is_host(value), "yes", "no")),
        "seconds" => number(text, capped_seconds(value)),
        "a short number" => number(text, number_of_few_digits(value)),
        "two entity tags" => tags(text, line),
        "what Connection names" => naming(text, value),
        "Connection of HTTP/1.0" => closing(text, line, "GET / HTTP/1.0", value),
        "Connection of HTTP/1.1" => closing(text, line, "GET / HTTP/1.1", value),
        _ => Err(kind.fault("no kind of value")),
    }
}

/// What is told of a value of the kind that the front names.
pub fn values(text: &mut String, front: &[Line<'_>], case: &Case<'_>) -> Result<(), Fault> {
    let ([kind], [line]) = (front, case.input) else {
        return Err(
            case.label
                .fault("neither one line of the front nor one of the case"),
        );
    };
    let spelled = bytes_spelled(*text.allocator(), *line, line.text)?;
    write_value(text, *kind, *line, spelled.as_slice())
}
