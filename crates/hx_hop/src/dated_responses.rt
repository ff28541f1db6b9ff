//! From a response that was read to the head that rules see.
//!
//! The definitions are in `specs/Answering.antt`, the date of a moment in `specs/Moments.antt`. No clock is
//! read: the moment of receipt is handed in.
ghost use Rattle.std.specs.Prelude.{◌≡◌, ◌<◌, ◌++◌, ◌∷◌, [], codes, IfOk, OnOk};
ghost use Rattle.hx_fields.specs.FieldLines.{values_of};
ghost use Rattle.hx_hop.specs.Answering.{answered_of, fields_with_valid_date, has_one_date, is_http_date};
ghost use Rattle.hx_hop.specs.Forwarding.{line};
ghost use Rattle.hx_hop.specs.Moments.{date_text_of};

use crate::Answered;
use crate::stripping::strip;
use httpdate::HttpDate;
use hx_fields::Fields;
use hx_framing::Response;
use std::alloc::{AllocError, Global};

fn is_http_date(text: &[u8]) -> bool
    ensures { result ≡ is_http_date text.now }
{
    HttpDate::parse_ascii(text).is_ok()
}

/// Whether exactly one Date line stands, and is a date.
fn has_one_date(fields: &Fields) -> bool
    ensures { result ≡ has_one_date fields.now }
{
    match fields.only_value(b"Date") {
        Some(value) => is_http_date(value),
        None => false,
    }
}

/// The date of a moment in Unix seconds, below the year 10000, as IMF-fixdate. No memory is taken.
pub fn date_text(now: u64) -> [u8; 29]
    requires { now < 253_402_300_800 }
    ensures { result ≡ date_text_of now }
{
    match HttpDate::from_unix_secs(now) {
        Ok(date) => date.to_bytes(),
        Err(_) => unreachable!(),
    }
}

/// The fields with one valid Date: unless one stands, all Date lines go, and one of the moment of
/// receipt comes last. The moment is in Unix seconds, below the year 10000. Its only error is out
/// of memory, which drops the fields: whoever needs them afterwards hands in a copy.
pub fn dated(mut fields: Fields, now: u64) -> Result<Fields, AllocError>
    requires { now < 253_402_300_800 }
    ensures { IfOk result (λ dated. dated ≡ fields_with_valid_date fields now) }
{
    if has_one_date(&fields) {
        return Ok(fields);
    }
    fields.remove_named(b"Date");
    fields.push(b"Date", &date_text(now))?;
    Ok(fields)
}

/// The head of a response that was received at a moment, in Unix seconds, below the year 10000. Its only error
/// is out of memory.
pub fn answered(alloc: Global, response: &Response, now: u64) -> Result<Answered, AllocError>
    requires { now < 253_402_300_800 }
    ensures { IfOk result (λ answered. answered ≡ answered_of response.now now) }
{
    Ok(Answered {
        status: response.status,
        fields: dated(strip(alloc, &response.fields)?, now)?,
    })
}
