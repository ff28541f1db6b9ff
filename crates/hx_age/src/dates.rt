//! Dates of fields, in whole seconds since 1970.

ghost use Rattle.std.specs.Prelude.{◌≡◌};
ghost use Rattle.httpdate.specs.Date.{parse_secs};
ghost use Rattle.hx_fields.specs.FieldLines.{values_of};
ghost use Rattle.hx_age.specs.Dates.{moment_of_single_date};

use httpdate::HttpDate;
use hx_fields::Fields;

/// The moment of a name that has one line, where that line is a date.
pub fn moment_of_single_date(fields: &Fields, name: &[u8]) -> Option<u64>
    ensures { result ≡ moment_of_single_date (values_of fields.now name.now) }
{
    match fields.only_value(name) {
        Some(text) => date_seconds(text),
        None => None,
    }
}

fn date_seconds(text: &[u8]) -> Option<u64>
    ensures { result ≡ parse_secs text.now }
{
    match HttpDate::parse_ascii(text) {
        Ok(date) => Some(date.unix_secs()),
        Err(_) => None,
    }
}
