//! Which part of a response, stored or just come, answers a request for a range (RFC 9110, sections 13.1.5 and 14).
//!
//! The definitions are in `specs/Ranges.antt`. Whether the response may be sent at all is decided before.
ghost use Rattle.std.specs.Prelude.{◌≡◌, ◌++◌, IfOk, OnOk, decimal, length};
ghost use Rattle.std.specs.List.{list_all};
ghost use Rattle.std.specs.Char.{is_ascii_digit};
ghost use Rattle.std.specs.Str.Parse.{digits_value};
ghost use Rattle.hx_validate.specs.Ranges.{counted, range_number_of_digits, byte_range_of_texts, byte_range_of_value};
ghost use Rattle.hx_validate.specs.Ranges.{if_range_equals_tag, if_range_equals_last_modified};
ghost use Rattle.hx_validate.specs.Validators.{date_validator, etag_validator};
ghost use Rattle.hx_validate.specs.Ranges.{byte_range_of_positions, range_asked, last_modified_is_strong};
ghost use Rattle.hx_validate.specs.Ranges.{if_range_holds, answer_to_range};
ghost use Rattle.hx_validate.specs.Ranges.{PartLiesWithinTotal, range_is_answered, range_answer, part_text};
ghost use Rattle.hx_validate.specs.Ranges.{unsatisfied_text};
ghost use Rattle.hx_validate.specs.Ranges.{range_answer_of, fields_of_206, is_field_of_416, fields_of_416};
ghost use Rattle.hx_validate.specs.Ranges.{is_field_of_416_to_answer, fields_of_416_to_answer};

use crate::entity_tags::strong_eq;
use crate::stored_validators::{date_validator, etag_validator};
use hx_age::moment_of_single_date;
use hx_fields::{Bytes, Field, Fields, digits_value_if_at_most, is_same_name, split_at_first_byte};
use hx_hop::Asked;
use hx_store::Entry;
use itoa::Buffer;
use std::alloc::{AllocError, Global};

/// The status of a response that has parts.
const OK: u16 = 200;

/// In front of the ranges of bytes.
const UNIT: &[u8] = b"bytes=";

/// How many seconds after Last-Modified a response is made whose date is a strong validator.
const SECONDS_LATER: u64 = 60;

/// Room for what Content-Range tells, in bytes.
const TEXT_ROOM: usize = 64;

/// One range of bytes that is asked for. A larger number counts as 2^64 - 1.
#[derive(Clone, Copy, Debug, PartialEq, Eq)]
pub enum ByteRange {
    /// From the first to the last, which isn't less.
    FromTo(u64, u64),
    /// From the first to the end.
    From(u64),
    /// So many at the end.
    Last(u64),
}

/// What of a response answers a request.
#[derive(Clone, Copy, Debug, PartialEq, Eq)]
pub enum RangeAnswer {
    /// All of it.
    Whole,
    /// The bytes of its content from the first to the last, counted from 0.
    Part(usize, usize),
    /// None of the bytes that are asked for is there.
    Unsatisfiable,
}

fn are_digits(text: &[u8]) -> bool
    ensures { result ≡ list_all is_ascii_digit text.now }
{
    text.iter().all(|b| b.is_ascii_digit())
}

fn counted(digits: &[u8]) -> u64
    ensures { result ≡ counted (digits_value 10 digits.now) }
{
    match digits_value_if_at_most(u64::MAX, 10, digits) {
        Some(number) => number,
        None => u64::MAX,
    }
}

/// The position or the number that digits spell.
fn range_number_of_digits(digits: &[u8]) -> Option<u64>
    ensures { result ≡ range_number_of_digits digits.now }
{
    if digits.is_empty() || !are_digits(digits) {
        return None;
    }
    Some(counted(digits))
}

fn byte_range_of_positions(first: Option<u64>, last: Option<u64>) -> Option<ByteRange>
    ensures { result ≡ byte_range_of_positions first last }
{
    match (first, last) {
        (Some(first), Some(last)) if first <= last => Some(ByteRange::FromTo(first, last)),
        _ => None,
    }
}

/// The range that stands before and behind a hyphen.
fn byte_range_of_texts(first: &[u8], last: &[u8]) -> Option<ByteRange>
    ensures { result ≡ byte_range_of_texts first.now last.now }
{
    if first.is_empty() {
        range_number_of_digits(last).map(ByteRange::Last)
    } else if last.is_empty() {
        range_number_of_digits(first).map(ByteRange::From)
    } else {
        byte_range_of_positions(range_number_of_digits(first), range_number_of_digits(last))
    }
}

/// The one range of bytes that a Range asks for.
fn byte_range_of_value(value: &[u8]) -> Option<ByteRange>
    ensures { result ≡ byte_range_of_value value.now }
{
    let (unit, range) = value.split_at(value.len().min(UNIT.len()));
    if !is_same_name(unit, UNIT) {
        return None;
    }
    match split_at_first_byte(b'-', range) {
        Some((first, last)) => byte_range_of_texts(first, last),
        None => None,
    }
}

/// The one range of bytes that a request asks for. None of any other Range, which asks for the whole.
pub fn range_asked(request: &Fields) -> Option<ByteRange>
    ensures { result ≡ range_asked request.now }
{
    match request.only_value(b"Range") {
        Some(value) => byte_range_of_value(value),
        None => None,
    }
}

fn last_modified_is_strong(date: u64, fields: &Fields) -> bool
    ensures { result ≡ last_modified_is_strong date fields.now }
{
    match moment_of_single_date(fields, b"Last-Modified") {
        Some(changed) => SECONDS_LATER <= date.saturating_sub(changed),
        None => false,
    }
}

fn is_current_tag(value: &[u8], fields: &Fields) -> bool
    ensures { result ≡ if_range_equals_tag value.now (etag_validator fields.now) }
{
    match etag_validator(fields) {
        Some(held) => strong_eq(value, held),
        None => false,
    }
}

fn is_current_date(value: &[u8], fields: &Fields) -> bool
    ensures { result ≡ if_range_equals_last_modified value.now (date_validator fields.now) }
{
    match date_validator(fields) {
        Some(held) => value == held,
        None => false,
    }
}

/// Whether a response of a Date and of lines is the one that If-Range names, where it stands (RFC 9110, section
/// 13.1.5).
fn if_range_holds(request: &Fields, date: u64, fields: &Fields) -> bool
    ensures { result ≡ if_range_holds request.now date fields.now }
{
    if !request.has(b"If-Range") {
        return true;
    }
    match request.only_value(b"If-Range") {
        Some(value) => {
            is_current_tag(value, fields)
                || (last_modified_is_strong(date, fields) && is_current_date(value, fields))
        }
        None => false,
    }
}

/// What of a content of so many bytes answers a range (RFC 9110, section 14.1.2). No memory is taken.
pub fn answer_to_range(total: usize, range: ByteRange) -> RangeAnswer
    ensures { result ≡ answer_to_range total range }
{
    match range {
        ByteRange::FromTo(first, last) => {
            if first < total as u64 {
                RangeAnswer::Part(first as usize, last.min(total as u64 - 1) as usize)
            } else {
                RangeAnswer::Unsatisfiable
            }
        }
        ByteRange::From(first) => {
            if first < total as u64 {
                RangeAnswer::Part(first as usize, total - 1)
            } else {
                RangeAnswer::Unsatisfiable
            }
        }
        ByteRange::Last(0) => RangeAnswer::Unsatisfiable,
        ByteRange::Last(most) => {
            if total == 0 {
                RangeAnswer::Whole
            } else {
                RangeAnswer::Part((total as u64).saturating_sub(most) as usize, total - 1)
            }
        }
    }
}

fn range_is_answered(asked: &Asked, status: u16, date: u64, fields: &Fields) -> bool
    ensures { result ≡ range_is_answered asked.now status date fields.now }
{
    asked.method.as_str() == "GET" && status == OK && if_range_holds(&asked.fields, date, fields)
}

/// What of a response answers a request, for a range or not: a part of a 200 to a GET that asks for one range of bytes,
/// and whose If-Range names it. The response has this status, these lines, this Date in Unix seconds, and a content of
/// so many bytes. No memory is taken.
pub fn range_answer_of(
    asked: &Asked,
    status: u16,
    date: u64,
    fields: &Fields,
    total: usize,
) -> RangeAnswer
    ensures answer { result ≡ range_answer_of asked.now status date fields.now total }
    ensures part { PartLiesWithinTotal result total }
{
    if !range_is_answered(asked, status, date, fields) {
        return RangeAnswer::Whole;
    }
    match range_asked(&asked.fields) {
        Some(range) => answer_to_range(total, range),
        None => RangeAnswer::Whole,
    }
}

/// The same of a stored response. No memory is taken.
pub fn range_answer(asked: &Asked, entry: &Entry) -> RangeAnswer
    ensures answer { result ≡ range_answer asked.now entry.now }
    ensures part { PartLiesWithinTotal result (length entry.now.content) }
{
    range_answer_of(
        asked,
        entry.status,
        entry.times.date,
        &entry.fields,
        entry.content.len(),
    )
}

fn push_number(out: &mut Vec<u8>, number: usize) -> Result<(), AllocError>
    ensures { OnOk result (out.new.items ≡ out.old.items ++ decimal number) }
{
    let mut digits = Buffer::new();
    out.extend_from_slice(digits.format(number).as_bytes())
}

fn part_text(alloc: Global, first: usize, last: usize, total: usize) -> Result<Bytes, AllocError>
    ensures { IfOk result (λ text. text ≡ part_text first last total) }
{
    let mut out = Vec::with_capacity(alloc, TEXT_ROOM)?;
    out.extend_from_slice(b"bytes ")?;
    push_number(&mut out, first)?;
    out.extend_from_slice(b"-")?;
    push_number(&mut out, last)?;
    out.extend_from_slice(b"/")?;
    push_number(&mut out, total)?;
    Ok(Bytes::from_vec(out))
}

fn unsatisfied_text(alloc: Global, total: usize) -> Result<Bytes, AllocError>
    ensures { IfOk result (λ text. text ≡ unsatisfied_text total) }
{
    let mut out = Vec::with_capacity(alloc, TEXT_ROOM)?;
    out.extend_from_slice(b"bytes */")?;
    push_number(&mut out, total)?;
    Ok(Bytes::from_vec(out))
}

/// The lines of the 206 that has the bytes from the first to the last of a response of these lines and of so many bytes
/// (RFC 9110, sections 14.4 and 15.3.7). Its only error is out of memory.
pub fn fields_of_206_part(
    alloc: Global,
    fields: &Fields,
    first: usize,
    last: usize,
    total: usize,
) -> Result<Fields, AllocError>
    ensures { IfOk result (λ lines. lines ≡ fields_of_206 fields.now first last total) }
{
    let text = part_text(alloc, first, last, total)?;
    let mut lines = fields.copy(alloc)?;
    lines.remove_named(b"Content-Range");
    lines.push(b"Content-Range", text.as_slice())?;
    Ok(lines)
}

fn is_field_of_416(line: &Field) -> bool
    ensures { result ≡ is_field_of_416 line.now }
{
    let name = line.name();
    is_same_name(name, b"Date") || is_same_name(name, b"ETag") || is_same_name(name, b"Vary")
}

/// The lines of the 416 that tells how long a response is (RFC 9110, sections 14.4 and 15.5.17). Its only error is out
/// of memory.
pub fn unsatisfiable_range_fields(alloc: Global, entry: &Entry) -> Result<Fields, AllocError>
    ensures { IfOk result (λ fields. fields ≡ fields_of_416 entry.now.fields (length entry.now.content)) }
{
    let text = unsatisfied_text(alloc, entry.content.len())?;
    let mut carried = Fields::new(alloc);
    for line in entry.fields.as_slice() {
        if is_field_of_416(line) {
            carried.push(line.name(), line.value())?;
        }
    }
    carried.push(b"Content-Range", text.as_slice())?;
    Ok(carried)
}

fn is_field_of_416_to_answer(line: &Field) -> bool
    ensures { result ≡ is_field_of_416_to_answer line.now }
{
    let name = line.name();
    is_field_of_416(line) || is_same_name(name, b"Age") || is_same_name(name, b"Set-Cookie")
}

/// The lines of the 416 in place of an answer of these lines and of so many bytes. Its only error is out of memory.
pub fn answer_unsatisfied_fields(
    alloc: Global,
    fields: &Fields,
    total: usize,
) -> Result<Fields, AllocError>
    ensures { IfOk result (λ lines. lines ≡ fields_of_416_to_answer fields.now total) }
{
    let text = unsatisfied_text(alloc, total)?;
    let mut carried = Fields::new(alloc);
    for line in fields.as_slice() {
        if is_field_of_416_to_answer(line) {
            carried.push(line.name(), line.value())?;
        }
    }
    carried.push(b"Content-Range", text.as_slice())?;
    Ok(carried)
}
