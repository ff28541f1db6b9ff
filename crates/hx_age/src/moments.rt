//! The moments from which an age is counted.

ghost use Rattle.std.specs.Prelude.{◌≡◌};
ghost use Rattle.hx_age.specs.Age.{received_age_value, times_once_purged, times_of_message};

use crate::dates::moment_of_single_date;
use hx_directives::capped_seconds;
use hx_fields::Fields;

/// When a response was made, asked for and received, and whether a purge ended its lifetime, in seconds since 1970.
#[derive(Clone, Copy, Debug, PartialEq, Eq)]
pub struct Times {
    /// By its Date.
    pub date: u64,
    /// Its age on the way, in seconds, as its Age says; at most 2147483648.
    pub age_value: u32,
    /// When the request last went forward.
    pub request_time: u64,
    /// When the response was received.
    pub response_time: u64,
    /// When a purge ended its lifetime, in seconds since 1970.
    pub expired: Option<u64>,
}

impl Times {
    /// The times of a response, which the caller has given a valid Date.
    pub fn of(fields: &Fields, request_time: u64, response_time: u64) -> Times
        ensures { result ≡ times_of_message fields.now request_time response_time }
    {
        Times {
            date: moment_of_single_date(fields, b"Date").unwrap_or(0),
            age_value: age_value(fields),
            request_time,
            response_time,
            expired: None,
        }
    }

    /// The times of the same response, once a purge ended its lifetime at a moment. Where an earlier purge did, that
    /// one counts.
    pub fn times_once_purged_at(self, now: u64) -> Times
        ensures { result ≡ times_once_purged self now }
    {
        Times {
            expired: Some(self.expired.unwrap_or(now)),
            ..self
        }
    }
}

fn age_value(fields: &Fields) -> u32
    ensures { result ≡ received_age_value fields.now }
{
    match fields.first_member(b"Age") {
        Some(member) => capped_seconds(member).unwrap_or(0),
        None => 0,
    }
}
