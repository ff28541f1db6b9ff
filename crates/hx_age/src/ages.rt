//! Ages, and what they leave of a lifetime.

ghost use Rattle.std.specs.Prelude.{◌≡◌};
ghost use Rattle.hx_age.specs.Age.{age_of, is_fresh_of, lifetime_shortened_by_purge, staleness_of, ttl_of};

use crate::lifetimes::{Lifetime, capped};
use crate::moments::Times;

/// The age at a moment, in seconds, at most 2147483648.
pub fn current_age(times: &Times, now: u64) -> u32
    ensures { result ≡ age_of times.now now }
{
    let apparent = times.response_time.saturating_sub(times.date);
    let delay = times.response_time.saturating_sub(times.request_time);
    // Saturating is exact enough: what is lost lies above the cap.
    let corrected = u64::from(times.age_value).saturating_add(delay);
    let resident = now.saturating_sub(times.response_time);
    capped(apparent.max(corrected).saturating_add(resident))
}

/// What a purge leaves of the lifetime of a response: at most the age that it had at that moment. Without a purge the
/// whole lifetime.
pub fn lifetime_shortened_by_purge(times: &Times, lifetime: Lifetime) -> Lifetime
    ensures { result ≡ lifetime_shortened_by_purge times.now lifetime }
{
    match times.expired {
        Some(moment) => Lifetime {
            explicit: lifetime.explicit,
            seconds: lifetime.seconds.min(current_age(times, moment)),
        },
        None => lifetime,
    }
}

/// Whether a response of this age, in seconds, is within its lifetime. At its end it no longer is.
pub fn is_fresh(lifetime: Lifetime, age: u32) -> bool
    ensures { result ≡ is_fresh_of lifetime age }
{
    age < lifetime.seconds
}

/// By how many seconds this age is past the lifetime, 0 if it isn't.
pub fn staleness(lifetime: Lifetime, age: u32) -> u32
    ensures { result ≡ staleness_of lifetime age }
{
    age.saturating_sub(lifetime.seconds)
}

/// The seconds that are left of the lifetime at this age, negative once it is past.
pub fn ttl(lifetime: Lifetime, age: u32) -> i64
    ensures { result ≡ ttl_of lifetime age }
{
    i64::from(lifetime.seconds) - i64::from(age)
}
