//! Whether an entry is one that can have been stored (`specs/Parts.antt`).
ghost use Rattle.std.specs.Prelude.{◌≡◌, ◌==◌, slice_index};
ghost use Rattle.std.specs.List.{list_all};
ghost use Rattle.proxy_store_file.specs.Parts.{first_invalid_part, is_three_digit_final_status, is_valid_stored_key};
ghost use Rattle.proxy_store_file.specs.Parts.{is_valid_moment};
ghost use Rattle.proxy_store_file.specs.Parts.{are_valid_times, is_valid_moment_if_any};
ghost use Rattle.proxy_store_file.specs.Parts.{is_valid_value_byte, are_valid_value_bytes, is_valid_field_name};
ghost use Rattle.proxy_store_file.specs.Parts.{is_valid_nominated_text, is_valid_nominated_value};
ghost use Rattle.proxy_store_file.specs.Parts.{are_valid_nominated_values, is_valid_field_line, are_valid_field_lines};
ghost use Rattle.proxy_store_file.specs.Parts.{has_uppercase_letter};

use crate::limits::{MOST_HEAD_BYTES, MOST_PATH_BYTES};
use crate::store_faults::EntryPart;
use hx_age::Times;
use hx_directives::MOST_SECONDS;
use hx_fields::{Bytes, Field, START_OF_YEAR_10000, is_token, trim_blanks};
use hx_store::Entry;
use hx_target::{Key, is_host};
use hx_vary::NominatedValue;

fn is_three_digit_final_status(status: u16) -> bool
    ensures { result ≡ is_three_digit_final_status status }
{
    200 <= status && status <= 999
}

fn has_uppercase_letter(text: &[u8]) -> bool
    ensures { result ≡ has_uppercase_letter text.now }
{
    text.iter().any(|b| b.is_ascii_uppercase())
}

fn is_absolute(path_query: &[u8]) -> bool
    ensures { result ≡ (slice_index path_query.now 0 == 47) }
{
    path_query.first() == Some(&b'/')
}

fn is_valid_stored_key(key: &Key) -> bool
    ensures { result ≡ is_valid_stored_key key.now }
{
    let host = key.host.as_slice();
    let path_query = key.path_query.as_slice();
    is_host(host)
        && host.len() <= 253
        && !has_uppercase_letter(host)
        && 1 <= key.port
        && is_absolute(path_query)
        && path_query.len() <= MOST_PATH_BYTES
}

fn is_valid_moment(seconds: u64) -> bool
    ensures { result ≡ is_valid_moment seconds }
{
    seconds < START_OF_YEAR_10000
}

fn is_valid_moment_if_any(seconds: Option<u64>) -> bool
    ensures { result ≡ is_valid_moment_if_any seconds }
{
    match seconds {
        Some(seconds) => is_valid_moment(seconds),
        None => true,
    }
}

fn are_valid_times(times: Times) -> bool
    ensures { result ≡ are_valid_times times }
{
    is_valid_moment(times.date)
        && is_valid_moment(times.request_time)
        && is_valid_moment(times.response_time)
        && (times.age_value as u64) <= MOST_SECONDS
        && is_valid_moment_if_any(times.expired)
}

fn is_valid_value_byte(b: u8) -> bool
    ensures { result ≡ is_valid_value_byte b }
{
    b == b'\t' || (32 <= b && b != 127)
}

fn all_value_bytes(value: &[u8]) -> bool
    ensures { result ≡ list_all is_valid_value_byte value.now }
{
    value.iter().all(|b| is_valid_value_byte(*b))
}

fn are_valid_value_bytes(value: &[u8]) -> bool
    ensures { result ≡ are_valid_value_bytes value.now }
{
    value.len() <= MOST_HEAD_BYTES && all_value_bytes(value)
}

fn is_valid_field_name(name: &[u8]) -> bool
    ensures { result ≡ is_valid_field_name name.now }
{
    name.len() <= MOST_HEAD_BYTES && is_token(name)
}

fn is_valid_nominated_text(value: &Option<Bytes>) -> bool
    ensures { result ≡ is_valid_nominated_text value.now }
{
    match value {
        Some(value) => are_valid_value_bytes(value.as_slice()),
        None => true,
    }
}

fn is_valid_nominated_value(kept: &NominatedValue) -> bool
    ensures { result ≡ is_valid_nominated_value kept.now }
{
    is_valid_field_name(kept.name.as_slice()) && is_valid_nominated_text(&kept.value)
}

fn all_nominated_values_are_valid(values: &[NominatedValue]) -> bool
    ensures { result ≡ list_all is_valid_nominated_value values.now }
{
    values.iter().all(|kept| is_valid_nominated_value(kept))
}

fn are_valid_nominated_values(values: &[NominatedValue]) -> bool
    ensures { result ≡ are_valid_nominated_values values.now }
{
    values.len() <= MOST_HEAD_BYTES && all_nominated_values_are_valid(values)
}

fn is_valid_field_line(line: &Field) -> bool
    ensures { result ≡ is_valid_field_line line.now }
{
    let value = line.value();
    is_valid_field_name(line.name()) && are_valid_value_bytes(value) && trim_blanks(value) == value
}

fn all_are_stored_lines(lines: &[Field]) -> bool
    ensures { result ≡ list_all is_valid_field_line lines.now }
{
    lines.iter().all(|line| is_valid_field_line(line))
}

fn are_valid_field_lines(lines: &[Field]) -> bool
    ensures { result ≡ are_valid_field_lines lines.now }
{
    lines.len() <= MOST_HEAD_BYTES && all_are_stored_lines(lines)
}

/// The first part of an entry that isn't what it must be. No memory is taken.
#[tactic(auto, unfolding(crate::specs::Parts::first_invalid_part))]
pub(crate) fn first_invalid_part(entry: &Entry) -> Option<EntryPart>
    ensures { result ≡ first_invalid_part entry.now }
{
    if !is_three_digit_final_status(entry.status) {
        return Some(EntryPart::Status);
    }
    if !are_valid_times(entry.times) {
        return Some(EntryPart::Times);
    }
    if !is_valid_stored_key(&entry.key) {
        return Some(EntryPart::Key);
    }
    if !are_valid_nominated_values(entry.nominated.as_slice()) {
        return Some(EntryPart::Nominated);
    }
    if !are_valid_field_lines(entry.fields.as_slice()) {
        return Some(EntryPart::Lines);
    }
    None
}
