//! The validators of a response (RFC 9110, section 8.8).
//!
//! The definitions are in `specs/Validators.antt`. A validator that is repeated or malformed is none, and no
//! condition is sent for it.
ghost use Rattle.std.specs.Prelude.{◌≡◌, IfOk, option_copied};
ghost use Rattle.hx_validate.specs.Validators.{validating_conditions_of, has_validator, value_is_http_date};
ghost use Rattle.hx_validate.specs.Validators.{is_entity_tag};
ghost use Rattle.hx_validate.specs.Validators.{date_validator};
ghost use Rattle.hx_validate.specs.Validators.{etag_validator};

use crate::entity_tags::EntityTag;
use httpdate::HttpDate;
use hx_fields::{Bytes, Fields};
use hx_hop::Conditions;
use hx_store::Entry;
use std::alloc::{AllocError, Global};

fn is_entity_tag(value: &[u8]) -> bool
    ensures { result ≡ is_entity_tag value.now }
{
    EntityTag::of(value).is_some()
}

fn value_is_http_date(value: &[u8]) -> bool
    ensures { result ≡ value_is_http_date value.now }
{
    HttpDate::parse_ascii(value).is_ok()
}

/// The ETag that is a validator.
pub(crate) fn etag_validator(fields: &Fields) -> Option<&[u8]>
    ensures { option_copied result ≡ etag_validator fields.now }
{
    match fields.only_value(b"ETag") {
        Some(value) if is_entity_tag(value) => Some(value),
        _ => None,
    }
}

/// The Last-Modified that is a validator.
pub(crate) fn date_validator(fields: &Fields) -> Option<&[u8]>
    ensures { option_copied result ≡ date_validator fields.now }
{
    match fields.only_value(b"Last-Modified") {
        Some(value) if value_is_http_date(value) => Some(value),
        _ => None,
    }
}

/// Whether a response can be validated: it has one ETag that is an entity tag, or one Last-Modified that is a date.
pub fn has_validator(fields: &Fields) -> bool
    ensures { result ≡ has_validator fields.now }
{
    etag_validator(fields).is_some() || date_validator(fields).is_some()
}

fn copied_value(alloc: Global, value: Option<&[u8]>) -> Result<Option<Bytes>, AllocError>
    ensures { IfOk result (λ copied. copied ≡ option_copied value.entry) }
{
    match value {
        Some(value) => Ok(Some(Bytes::copy_of(alloc, value)?)),
        None => Ok(None),
    }
}

/// The conditions that ask an origin whether a stored response is still current: the values of its validators.
/// Its only error is out of memory.
pub fn conditions(alloc: Global, entry: &Entry) -> Result<Conditions, AllocError>
    ensures { IfOk result (λ conditions. conditions ≡ validating_conditions_of entry.now.fields) }
{
    Ok(Conditions {
        etag: copied_value(alloc, etag_validator(&entry.fields))?,
        modified: copied_value(alloc, date_validator(&entry.fields))?,
    })
}
