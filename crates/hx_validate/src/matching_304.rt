//! Whether a 304 answers a stored response (RFC 9111, section 4.3.4).
//!
//! The definition is in `specs/Answering.antt`. No function here takes memory.
ghost use Rattle.std.specs.Prelude.{◌≡◌, codes, option_copied};
ghost use Rattle.hx_vary.specs.Vary.{is_same_value};
ghost use Rattle.hx_validate.specs.EntityTags.{entity_tag_of};
ghost use Rattle.hx_validate.specs.Validators.{validating_conditions_of};
ghost use Rattle.hx_validate.specs.Answering.{validators_match_sent, tag_matches_by_strength, is_validated_by_304};
ghost use Rattle.hx_validate.specs.Answering.{last_modified_matches_sent};
ghost use Rattle.hx_validate.specs.Answering.{held_conditions_equal_sent};
ghost use Rattle.hx_validate.specs.Answering.{etag_matches_sent};

use crate::entity_tags::{EntityTag, strong_eq, weak_eq};
use crate::stored_validators::{date_validator, etag_validator};
use hx_fields::{Bytes, Fields};
use hx_hop::{Answered, Conditions};
use hx_store::Entry;

fn is_same_value(held: Option<&[u8]>, sent: Option<&Bytes>) -> bool
    ensures { result ≡ is_same_value (option_copied held.entry) (option_copied sent.entry) }
{
    match (held, sent) {
        (None, None) => true,
        (Some(held), Some(sent)) => held == sent.as_slice(),
        _ => false,
    }
}

/// Whether the validators that were sent are those of these fields.
fn validators_are_as_sent(fields: &Fields, sent: &Conditions) -> bool
    ensures { result ≡ held_conditions_equal_sent (validating_conditions_of fields.now) sent.now }
{
    is_same_value(etag_validator(fields), sent.etag.as_ref())
        && is_same_value(date_validator(fields), sent.modified.as_ref())
}

/// Whether a tag of a 304 is equal to the one that was sent, by the strength of its own.
fn tag_matches_by_strength(held: &[u8], given: &[u8]) -> bool
    ensures { result ≡ tag_matches_by_strength (entity_tag_of given.now) held.now given.now }
{
    match EntityTag::of(given) {
        Some(tag) => {
            if tag.weak {
                weak_eq(held, given)
            } else {
                strong_eq(held, given)
            }
        }
        None => false,
    }
}

fn etag_matches_sent(held: Option<&Bytes>, given: Option<&[u8]>) -> bool
    ensures { result ≡ etag_matches_sent (option_copied held.entry) (option_copied given.entry) }
{
    match (held, given) {
        (Some(held), Some(given)) => tag_matches_by_strength(held.as_slice(), given),
        _ => false,
    }
}

fn last_modified_matches_sent(held: Option<&Bytes>, given: Option<&[u8]>) -> bool
    ensures { result ≡ last_modified_matches_sent (option_copied held.entry) (option_copied given.entry) }
{
    match (held, given) {
        (Some(held), Some(given)) => held.as_slice() == given,
        _ => false,
    }
}

/// Whether the validators of a 304 are those that were sent.
fn validators_match_sent(sent: &Conditions, fields: &Fields) -> bool
    ensures { result ≡ validators_match_sent sent.now fields.now }
{
    if fields.has(b"ETag") {
        etag_matches_sent(sent.etag.as_ref(), fields.only_value(b"ETag"))
    } else if fields.has(b"Last-Modified") {
        last_modified_matches_sent(sent.modified.as_ref(), fields.only_value(b"Last-Modified"))
    } else {
        true
    }
}

/// Whether a 304 to these conditions answers a stored response, which the caller knows to be held: its validators
/// are still those that were sent, and those of the 304, if it has any, agree with them.
pub fn answers(entry: &Entry, sent: &Conditions, answered: &Answered) -> bool
    ensures { result ≡ is_validated_by_304 entry.now sent.now answered.now }
{
    validators_are_as_sent(&entry.fields, sent) && validators_match_sent(sent, &answered.fields)
}
