//! How long a response is fresh.

ghost use Rattle.std.specs.Prelude.{◌≡◌};
ghost use Rattle.hx_directives.specs.Seconds.{capped};
ghost use Rattle.hx_directives.specs.Occurrences.{occurrences_of};
ghost use Rattle.hx_age.specs.Lifetime.{explicit_lifetime, seconds_or_zero, seconds_from_date_to_expires, lifetime_of};

use crate::dates::moment_of_single_date;
use hx_directives::{Directive, Directives, MOST_SECONDS, Seconds};
use hx_fields::Fields;

/// A freshness lifetime.
#[derive(Clone, Copy, Debug, PartialEq, Eq)]
pub struct Lifetime {
    /// The response states it.
    pub explicit: bool,
    /// Seconds, at most 2147483648.
    pub seconds: u32,
}

impl Lifetime {
    /// The lifetime of a response, whose directives the caller has read from the same fields.
    pub fn of(fields: &Fields, directives: &Directives) -> Lifetime
        requires { directives.now ≡ occurrences_of fields.now }
        ensures { result ≡ lifetime_of fields.now }
    {
        if directives.has(Directive::SMaxage) {
            Lifetime::explicit_of(seconds_or_zero(directives.seconds(Directive::SMaxage)))
        } else if directives.has(Directive::MaxAge) {
            Lifetime::explicit_of(seconds_or_zero(directives.seconds(Directive::MaxAge)))
        } else if fields.has(b"Expires") {
            Lifetime::explicit_of(seconds_from_date_to_expires(fields))
        } else {
            Lifetime {
                explicit: false,
                seconds: 0,
            }
        }
    }

    fn explicit_of(seconds: u64) -> Lifetime
        ensures { result ≡ explicit_lifetime seconds }
    {
        Lifetime {
            explicit: true,
            seconds: capped(seconds),
        }
    }
}

/// Seconds that can't be read, or stand twice, are 0.
fn seconds_or_zero(seconds: Seconds) -> u64
    ensures { result ≡ seconds_or_zero seconds }
{
    match seconds {
        Seconds::Value(n) => u64::from(n),
        _ => 0,
    }
}

fn seconds_from_date_to_expires(fields: &Fields) -> u64
    ensures { result ≡ seconds_from_date_to_expires fields.now }
{
    let expires = moment_of_single_date(fields, b"Expires").unwrap_or(0);
    let date = moment_of_single_date(fields, b"Date").unwrap_or(0);
    expires.saturating_sub(date)
}

/// At most 2147483648 seconds.
pub(crate) fn capped(seconds: u64) -> u32
    ensures { result ≡ capped seconds }
{
    seconds.min(MOST_SECONDS) as u32
}
