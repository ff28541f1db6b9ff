//! How long a response is fresh under what a line of the operator's table says of caching.
ghost use Rattle.std.specs.Prelude.{◌≡◌};
ghost use Rattle.hx_directives.specs.Occurrences.{occurrences_of};
ghost use Rattle.hx_reuse.specs.Lifetimes.{lifetime_capped_at, lifetime_of_stored_response, lifetime_under_policy};

use hx_age::{Lifetime, lifetime_shortened_by_purge};
use hx_directives::{Directives, MOST_SECONDS};
use hx_fields::Fields;
use hx_policy::Policy;
use hx_store::Entry;

/// A stated lifetime, as far as the operator lets it count.
fn lifetime_capped_at(most: Option<u32>, lifetime: Lifetime) -> Lifetime
    ensures { result ≡ lifetime_capped_at most lifetime }
{
    match most {
        Some(most) => Lifetime {
            explicit: lifetime.explicit,
            seconds: lifetime.seconds.min(most),
        },
        None => lifetime,
    }
}

/// The lifetime that a response states, as far as the operator lets it count, or else the one that he gives its
/// status, which then counts as stated (RFC 9111, sections 4.2.1 and 4.2.2). Its directives are handed in.
pub fn lifetime_under_policy(
    policy: Policy,
    status: u16,
    fields: &Fields,
    directives: &Directives,
) -> Lifetime
    requires { directives.now ≡ occurrences_of fields.now }
    ensures { result ≡ lifetime_under_policy policy status fields.now }
{
    let lifetime = Lifetime::of(fields, directives);
    if lifetime.explicit {
        return lifetime_capped_at(policy.lifetime_most, lifetime);
    }
    match policy.lifetime_given_by_policy(status) {
        Some(seconds) => Lifetime {
            explicit: true,
            seconds: u64::from(seconds).min(MOST_SECONDS) as u32,
        },
        None => lifetime,
    }
}

/// The lifetime of a held response under a policy. One that a purge expired is over as of then.
pub fn lifetime_of_stored_response(policy: Policy, entry: &Entry) -> Lifetime
    ensures { result ≡ lifetime_of_stored_response policy entry.now }
{
    let lifetime = lifetime_under_policy(policy, entry.status, &entry.fields, &entry.directives);
    lifetime_shortened_by_purge(&entry.times, lifetime)
}
