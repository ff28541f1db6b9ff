//! What an entry weighs in the store: the bytes by which the operator bounds it.
//!
//! The law is in `specs/Weights.antt`. Nothing here asks the system what memory it gave.

ghost use Rattle.std.specs.Prelude.{◌≡◌, ◌+◌, ◌-◌, ◌^◌, min, option_copied};
ghost use Rattle.hx_store.specs.Weights.{weight_of_entry, weight_of_key, weight_of_field_line, weight_of_lines};
ghost use Rattle.hx_store.specs.Weights.{length_if_any};
ghost use Rattle.hx_store.specs.Weights.{total_weight, weight_of_nominated, weight_of_nominated_value};
ghost use Rattle.hx_store.specs.Weights.{overhead_bytes_of_an_entry};

use crate::entries::Entry;
use hx_fields::{Bytes, Field};
use hx_target::Key;
use hx_vary::NominatedValue;

/// What an entry takes beside its bytes.
const BYTES_OF_AN_ENTRY: u64 = 1200;

/// Between name and value of a line, and behind it.
const BYTES_OF_A_LINE: u64 = 4;

impl Entry {
    /// The bytes that it weighs in the store, 2^64 - 1 where they are more. No memory is taken.
    pub fn weight(&self) -> u64
        ensures { result ≡ min (weight_of_entry self.now) (2 ^ 64 - 1) }
    {
        weight_of_entry_parts(
            &self.key,
            self.nominated.as_slice(),
            self.fields.as_slice(),
            self.content.len(),
        )
    }
}

/// The bytes that an entry of this key weighs in the store, with these nominated values, lines and so many bytes of
/// content; 2^64 - 1 where they are more. No memory is taken.
pub fn weight_of_entry_parts(
    key: &Key,
    nominated: &[NominatedValue],
    lines: &[Field],
    content: usize,
) -> u64
    ensures { result ≡ min (content + weight_of_lines lines.now + weight_of_nominated nominated.now
        + weight_of_key key.now + weight_of_key key.now + overhead_bytes_of_an_entry) (2 ^ 64 - 1) }
{
    let key = weight_of_key(key);
    (content as u64)
        .saturating_add(weight_of_lines(lines))
        .saturating_add(weight_of_nominated(nominated))
        .saturating_add(key)
        .saturating_add(key)
        .saturating_add(BYTES_OF_AN_ENTRY)
}

fn weight_of_field_line(line: &Field) -> u64
    ensures { result ≡ min (weight_of_field_line line.now) (2 ^ 64 - 1) }
{
    (line.name().len() as u64)
        .saturating_add(line.value().len() as u64)
        .saturating_add(BYTES_OF_A_LINE)
}

fn weight_of_lines(lines: &[Field]) -> u64
    ensures { result ≡ min (weight_of_lines lines.now) (2 ^ 64 - 1) }
{
    let mut weight: u64 = 0;
    for line in lines {
        weight = weight.saturating_add(weight_of_field_line(line));
    }
    weight
}

fn weight_of_key(key: &Key) -> u64
    ensures { result ≡ min (weight_of_key key.now) (2 ^ 64 - 1) }
{
    (key.host.len() as u64).saturating_add(key.path_query.len() as u64)
}

fn length_if_any(value: &Option<Bytes>) -> usize
    ensures { result ≡ length_if_any value.now }
{
    match value {
        Some(value) => value.len(),
        None => 0,
    }
}

fn weight_of_nominated_value(kept: &NominatedValue) -> u64
    ensures { result ≡ min (weight_of_nominated_value kept.now) (2 ^ 64 - 1) }
{
    (kept.name.len() as u64).saturating_add(length_if_any(&kept.value) as u64)
}

fn weight_of_nominated(values: &[NominatedValue]) -> u64
    ensures { result ≡ min (weight_of_nominated values.now) (2 ^ 64 - 1) }
{
    let mut weight: u64 = 0;
    for kept in values {
        weight = weight.saturating_add(weight_of_nominated_value(kept));
    }
    weight
}

/// The bytes that some entries weigh together, 2^64 - 1 where they are more.
pub(crate) fn total_weight(entries: &[Entry]) -> u64
    ensures { result ≡ min (total_weight entries.now) (2 ^ 64 - 1) }
{
    let mut weight: u64 = 0;
    for entry in entries {
        weight = weight.saturating_add(entry.weight());
    }
    weight
}
