//! Conditions of clients, judged against a stored response or an answer of the origin (RFC 9110, sections 13.1.2,
//! 13.1.3 and 15.4.5).
//!
//! The definitions are in `specs/NotModified.antt`. Whether a stored response may be sent at all is decided before.
ghost use Rattle.std.specs.Prelude.{◌≡◌, codes, IfOk, Some, option_map};
ghost use Rattle.std.specs.List.{list_any};
ghost use Rattle.hx_fields.specs.FieldLines.{members_of};
ghost use Rattle.hx_fields.specs.Names.{members_of_value};
ghost use Rattle.hx_validate.specs.EntityTags.{tagged};
ghost use Rattle.hx_validate.specs.NotModified.{last_modified_or_date, etag_of_fields, is_field_of_304};
ghost use Rattle.hx_validate.specs.NotModified.{moment_is_not_before};
ghost use Rattle.hx_validate.specs.NotModified.{is_weakly_equal_tag, if_none_match_lists};
ghost use Rattle.hx_validate.specs.NotModified.{if_none_match_matches_fields, fields_of_304};
ghost use Rattle.hx_validate.specs.NotModified.{is_unmodified_by_if_modified_since};
ghost use Rattle.hx_validate.specs.NotModified.{stored_gets_304};
ghost use Rattle.hx_validate.specs.NotModified.{are_known_and_not_before, answer_states_no_change_since};
ghost use Rattle.hx_validate.specs.NotModified.{answer_gets_304};
ghost use Rattle.hx_validate.specs.NotModified.{is_field_of_304_to_answer, fields_of_304_from_answer};

use crate::entity_tags::EntityTag;
use crate::stored_validators::etag_validator;
use hx_age::moment_of_single_date;
use hx_fields::{Field, Fields, is_same_name, next_member};
use hx_hop::Asked;
use hx_store::Entry;
use std::alloc::{AllocError, Global};

/// The status of a response that a 304 can stand for.
const OK: u16 = 200;

/// The entity tag of a stored response, if it has one.
fn etag_of_fields(fields: &Fields) -> Option<EntityTag<'_>>
    ensures { option_map (λ tag. tagged tag.weak tag.opaque.now) result ≡ etag_of_fields fields.now }
{
    match etag_validator(fields) {
        Some(value) => EntityTag::of(value),
        None => None,
    }
}

fn is_weakly_equal_tag(held: EntityTag, member: &[u8]) -> bool
    ensures { result ≡ is_weakly_equal_tag (tagged held.entry.weak held.entry.opaque.now) member.now }
{
    match EntityTag::of(member) {
        Some(tag) => held.opaque == tag.opaque,
        None => false,
    }
}

/// Whether a member of this value is the entity tag that is held.
fn value_lists_tag(value: &[u8], held: EntityTag) -> bool
    ensures { result
        ≡ list_any (is_weakly_equal_tag (tagged held.entry.weak held.entry.opaque.now)) (members_of_value value.now) }
{
    let mut rest = value;
    while let Some((member, behind)) = next_member(rest) {
        if is_weakly_equal_tag(held, member) {
            return true;
        }
        rest = behind;
    }
    false
}

/// Whether a member of If-None-Match is the entity tag that is held.
fn if_none_match_lists(request: &Fields, held: EntityTag) -> bool
    ensures { result ≡ if_none_match_lists request.now (Some (tagged held.entry.weak held.entry.opaque.now)) }
{
    for line in request.as_slice() {
        if is_same_name(line.name(), b"If-None-Match") && value_lists_tag(line.value(), held) {
            return true;
        }
    }
    false
}

/// Whether a member of If-None-Match is the entity tag of a stored response.
fn if_none_match_lists_tag_of(request: &Fields, fields: &Fields) -> bool
    ensures { result ≡ if_none_match_lists request.now (etag_of_fields fields.now) }
{
    match etag_of_fields(fields) {
        Some(held) => if_none_match_lists(request, held),
        None => false,
    }
}

/// Whether If-None-Match names a stored response.
fn if_none_match_matches_fields(request: &Fields, fields: &Fields) -> bool
    ensures { result ≡ if_none_match_matches_fields request.now fields.now }
{
    request.only_value(b"If-None-Match") == Some(b"*".as_slice())
        || if_none_match_lists_tag_of(request, fields)
}

/// When a stored response last changed, in Unix seconds.
fn last_modified_or_date(entry: &Entry) -> u64
    ensures { result ≡ last_modified_or_date entry.now }
{
    moment_of_single_date(&entry.fields, b"Last-Modified").unwrap_or(entry.times.date)
}

fn moment_is_not_before(moment: Option<u64>, changed: u64) -> bool
    ensures { result ≡ moment_is_not_before moment changed }
{
    match moment {
        Some(moment) => changed <= moment,
        None => false,
    }
}

/// Whether If-Modified-Since finds a stored response unchanged.
fn is_unmodified_by_if_modified_since(request: &Fields, entry: &Entry) -> bool
    ensures { result ≡ is_unmodified_by_if_modified_since request.now entry.now }
{
    moment_is_not_before(
        moment_of_single_date(request, b"If-Modified-Since"),
        last_modified_or_date(entry),
    )
}

/// Whether a client has a stored response already, so that a 304 is sent in its place. No memory is taken.
pub fn client_wants_304(asked: &Asked, entry: &Entry) -> bool
    ensures { result ≡ stored_gets_304 asked.now entry.now }
{
    if entry.status != OK {
        false
    } else if asked.fields.has(b"If-None-Match") {
        if_none_match_matches_fields(&asked.fields, &entry.fields)
    } else {
        is_unmodified_by_if_modified_since(&asked.fields, entry)
    }
}

fn are_known_and_not_before(moment: Option<u64>, changed: Option<u64>) -> bool
    ensures { result ≡ are_known_and_not_before moment changed }
{
    match changed {
        Some(changed) => moment_is_not_before(moment, changed),
        None => false,
    }
}

/// Whether an answer states that it hasn't changed since If-Modified-Since.
fn answer_states_no_change_since(request: &Fields, fields: &Fields) -> bool
    ensures { result ≡ answer_states_no_change_since request.now fields.now }
{
    are_known_and_not_before(
        moment_of_single_date(request, b"If-Modified-Since"),
        moment_of_single_date(fields, b"Last-Modified"),
    )
}

/// Whether a client has an answer of the origin already, so that a 304 is sent in its place: the status and the lines
/// of the answer, as rules see them, are handed in. Without Last-Modified its If-Modified-Since is ignored (RFC 9110,
/// section 13.1.3). No memory is taken.
pub fn client_wants_304_for_answer(asked: &Asked, status: u16, fields: &Fields) -> bool
    ensures { result ≡ answer_gets_304 asked.now status fields.now }
{
    if status != OK {
        false
    } else if asked.fields.has(b"If-None-Match") {
        if_none_match_matches_fields(&asked.fields, fields)
    } else {
        answer_states_no_change_since(&asked.fields, fields)
    }
}

/// Whether a 304 carries a line of a stored response, which has an ETag line or not.
fn is_field_of_304(line: &Field, tagged: bool) -> bool
    ensures { result ≡ is_field_of_304 tagged line.now }
{
    let name = line.name();
    is_same_name(name, b"Cache-Control")
        || is_same_name(name, b"Content-Location")
        || is_same_name(name, b"Date")
        || is_same_name(name, b"ETag")
        || is_same_name(name, b"Expires")
        || is_same_name(name, b"Vary")
        || (!tagged && is_same_name(name, b"Last-Modified"))
}

/// The lines of the 304 that stands for a stored response. Its only error is out of memory.
pub fn not_modified_fields(alloc: Global, entry: &Entry) -> Result<Fields, AllocError>
    ensures { IfOk result (λ fields. fields ≡ fields_of_304 entry.now.fields) }
{
    let tagged = entry.fields.has(b"ETag");
    let mut carried = Fields::new(alloc);
    for line in entry.fields.as_slice() {
        if is_field_of_304(line, tagged) {
            carried.push(line.name(), line.value())?;
        }
    }
    Ok(carried)
}

/// Whether a 304 in place of an answer carries a line of it.
fn is_field_of_304_to_answer(line: &Field, tagged: bool) -> bool
    ensures { result ≡ is_field_of_304_to_answer tagged line.now }
{
    let name = line.name();
    is_field_of_304(line, tagged) || is_same_name(name, b"Age") || is_same_name(name, b"Set-Cookie")
}

/// The lines of the 304 that stands for an answer of these lines. Its only error is out of memory.
pub fn not_modified_fields_of_answer(alloc: Global, fields: &Fields) -> Result<Fields, AllocError>
    ensures { IfOk result (λ carried. carried ≡ fields_of_304_from_answer fields.now) }
{
    let tagged = fields.has(b"ETag");
    let mut carried = Fields::new(alloc);
    for line in fields.as_slice() {
        if is_field_of_304_to_answer(line, tagged) {
            carried.push(line.name(), line.value())?;
        }
    }
    Ok(carried)
}
