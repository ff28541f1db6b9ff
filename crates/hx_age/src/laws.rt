//! What the definitions say of worked cases, computed.

ghost use Rattle.std.specs.Prelude.{◌≡◌, ℕ, ◌-◌, ◌^◌, ◌<◌, ◌≤◌, true, false, List, [], ◌++◌, codes, pos, negsuc, None};
ghost use Rattle.std.specs.Prelude.{Some};
ghost use Rattle.hx_fields.specs.Line.{Field};
ghost use Rattle.hx_age.specs.declared.moments.Times.{Times as Moments};
ghost use Rattle.hx_age.specs.declared.lifetimes.Lifetime.{Lifetime as StatedLifetime};
ghost use Rattle.hx_age.specs.Dates.{date_of};
ghost use Rattle.hx_age.specs.Age.{age_of, apparent_age, corrected_age_value, is_fresh_of, staleness_of};
ghost use Rattle.hx_age.specs.Age.{times_of_message};
ghost use Rattle.hx_age.specs.Age.{times_once_purged, lifetime_shortened_by_purge, ttl_of};
ghost use Rattle.hx_age.specs.Lifetime.{explicit_lifetime, lifetime_of};
ghost use Rattle.hx_age.specs.Cases.{fields_with_age, fields_with_cache_control, fields_with_two_dates};
ghost use Rattle.hx_age.specs.Cases.{fields_with_expires, purged_at, times_from_parts};

/// Made at 100, asked for at 105, received at 110 with an Age of 3, looked at at 120.
pub fn worked_age_sums()
    ensures apparent { apparent_age (times_from_parts 100 3 105 110) ≡ 10 }
    ensures corrected { corrected_age_value (times_from_parts 100 3 105 110) ≡ 8 }
    ensures age { age_of (times_from_parts 100 3 105 110) 120 ≡ 20 }
    ensures fresh { is_fresh_of (explicit_lifetime 15) 20 ≡ false }
    ensures staleness { staleness_of (explicit_lifetime 15) 20 ≡ 5 }
    ensures left { ttl_of (explicit_lifetime 15) 20 ≡ negsuc 4 }
    ensures equal { is_fresh_of (explicit_lifetime 60) 60 ≡ false }
{}

/// Asked for at 100, made and received at 101, looked at at 90: the age stays what it was on the way, and 59
/// seconds of a minute are left.
pub fn moment_goes_backwards()
    ensures age { age_of (times_from_parts 101 0 100 101) 90 ≡ 1 }
    ensures left { ttl_of (explicit_lifetime 60) 1 ≡ pos 59 }
{}

/// Both numbers are capped to one, so nothing is left of the lifetime.
#[tactic(auto, unfolding(httpdate::proofs::OnLiterals::httpdate_on_literals))]
pub fn seconds_are_capped()
    ensures lifetime { lifetime_of (fields_with_cache_control (codes "max-age=99999999999"))
        ≡ record { explicit = true; seconds = 2147483648 } }
    ensures times { times_of_message (fields_with_age (codes "4294967296")) 0 0 ≡ times_from_parts 0 2147483648 0 0 }
    ensures age { age_of (times_from_parts 0 2147483648 0 0) 0 ≡ 2147483648 }
    ensures greatest_sum { age_of (times_from_parts 0 2147483648 0 (2 ^ 64 - 1)) (2 ^ 64 - 1) ≡ 2147483648 }
    ensures left { ttl_of (explicit_lifetime 2147483648) 2147483648 ≡ pos 0 }
    ensures stale { is_fresh_of (explicit_lifetime 2147483648) 2147483648 ≡ false }
{}

/// Seconds that stand twice or can't be read state a lifetime of 0; those of a shared cache come first.
pub fn repeated_or_bad_seconds_state_lifetime_0()
    ensures repeated { lifetime_of (fields_with_cache_control (codes "max-age=60, max-age=60")) ≡ explicit_lifetime 0 }
    ensures bad { lifetime_of (fields_with_cache_control (codes "max-age=1x")) ≡ explicit_lifetime 0 }
    ensures quoted { lifetime_of (fields_with_cache_control (codes "max-age=\"60\"")) ≡ explicit_lifetime 60 }
    ensures shared { lifetime_of (fields_with_cache_control (codes "s-maxage=5, max-age=60")) ≡ explicit_lifetime 5 }
    ensures shared_bad { lifetime_of (fields_with_cache_control (codes "max-age=60, s-maxage=x")) ≡ explicit_lifetime 0 }
    ensures none { lifetime_of (fields_with_cache_control (codes "public"))
        ≡ record { explicit = false; seconds = 0 } }
{}

/// A minute after Date; an Expires that is no date is over at once; max-age comes first.
#[tactic(auto, unfolding(httpdate::proofs::OnLiterals::httpdate_on_literals))]
pub fn worked_lifetimes_by_expires()
    ensures minute { lifetime_of (fields_with_expires (codes "Thu, 01 Jan 1970 00:02:41 GMT"))
        ≡ explicit_lifetime 60 }
    ensures past { lifetime_of (fields_with_expires (codes "Thu, 01 Jan 1970 00:01:40 GMT")) ≡ explicit_lifetime 0 }
    ensures no_date { lifetime_of (fields_with_expires (codes "0")) ≡ explicit_lifetime 0 }
    ensures max_age_first { lifetime_of (fields_with_expires (codes "Thu, 01 Jan 1970 00:02:41 GMT") ++ fields_with_cache_control (codes "max-age=5"))
        ≡ explicit_lifetime 5 }
{}

/// The moments of a message without Date and Age, with an Age that is no number, with two, and with
/// two Dates, which are none.
#[tactic(auto, unfolding(httpdate::proofs::OnLiterals::httpdate_on_literals))]
pub fn worked_times_of_fields()
    ensures none { times_of_message [] 5 7 ≡ times_from_parts 0 0 5 7 }
    ensures bad { times_of_message (fields_with_age (codes "x")) 5 7 ≡ times_from_parts 0 0 5 7 }
    ensures negative { times_of_message (fields_with_age (codes "-1")) 5 7 ≡ times_from_parts 0 0 5 7 }
    ensures first { times_of_message (fields_with_age (codes "3, 4")) 5 7 ≡ times_from_parts 0 3 5 7 }
    ensures two_dates { date_of fields_with_two_dates ≡ None }
    ensures date { date_of (fields_with_age (codes "3")) ≡ Some 0 }
{}

/// Received at 100, fresh for a minute, and expired by a purge at 120, a second one at 140 aside: at 130 it is 30
/// seconds old and 10 seconds stale. What was stale already is as stale as it was.
pub fn worked_lifetime_ended_by_purge()
    ensures whole { lifetime_shortened_by_purge (times_from_parts 100 0 100 100) (explicit_lifetime 60)
        ≡ explicit_lifetime 60 }
    ensures ended { lifetime_shortened_by_purge (purged_at 120) (explicit_lifetime 60) ≡ explicit_lifetime 20 }
    ensures again { times_once_purged (purged_at 120) 140 ≡ purged_at 120 }
    ensures age { age_of (purged_at 120) 130 ≡ 30 }
    ensures at_once { is_fresh_of (lifetime_shortened_by_purge (purged_at 120) (explicit_lifetime 60)) 20 ≡ false }
    ensures staleness { staleness_of (lifetime_shortened_by_purge (purged_at 120) (explicit_lifetime 60)) 30 ≡ 10 }
    ensures left { ttl_of (lifetime_shortened_by_purge (purged_at 120) (explicit_lifetime 60)) 30 ≡ negsuc 9 }
    ensures earlier { is_fresh_of (lifetime_shortened_by_purge (purged_at 120) (explicit_lifetime 60)) 19 ≡ true }
    ensures stale_already { lifetime_shortened_by_purge (purged_at 200) (explicit_lifetime 60) ≡ explicit_lifetime 60 }
    ensures as_received { lifetime_shortened_by_purge (purged_at 100) (explicit_lifetime 60) ≡ explicit_lifetime 0 }
    ensures not_stated { lifetime_shortened_by_purge (purged_at 120) (record { explicit = false; seconds = 60 })
        ≡ record { explicit = false; seconds = 20 } }
{}

/// From the moment of a purge on a response isn't fresh, at any moment that isn't before it.
pub fn a_purged_response_is_never_fresh()
    ensures { (times : Moments) (lifetime : StatedLifetime) (purge now : ℕ) → times.expired ≡ Some purge → purge ≤ now
        → is_fresh_of (lifetime_shortened_by_purge times lifetime) (age_of times now) ≡ false }
{}

/// Its staleness counts from the purge, as long as its age isn't at the cap: it is at least the seconds since, and
/// exactly those where the response was fresh then.
pub fn staleness_counts_from_the_purge()
    ensures least { (times : Moments) (lifetime : StatedLifetime) (purge now : ℕ) → times.expired ≡ Some purge
        → times.response_time ≤ purge → purge ≤ now → age_of times now < 2147483648
        → now - purge ≤ staleness_of (lifetime_shortened_by_purge times lifetime) (age_of times now) }
    ensures exact { (times : Moments) (lifetime : StatedLifetime) (purge now : ℕ) → times.expired ≡ Some purge
        → times.response_time ≤ purge → purge ≤ now → age_of times now < 2147483648
        → is_fresh_of lifetime (age_of times purge) ≡ true
        → staleness_of (lifetime_shortened_by_purge times lifetime) (age_of times now) ≡ now - purge }
{}

/// Without a purge a lifetime stays what it is. A purge makes none longer, none explicit, and no age another; at a
/// lesser age than that of the purge the response is as fresh as before. The first of several counts.
pub fn a_purge_only_shortens_the_lifetime()
    ensures without { (times : Moments) (lifetime : StatedLifetime) → times.expired ≡ None
        → lifetime_shortened_by_purge times lifetime ≡ lifetime }
    ensures not_longer { (times : Moments) (lifetime : StatedLifetime)
        → (lifetime_shortened_by_purge times lifetime).seconds ≤ lifetime.seconds }
    ensures explicit { (times : Moments) (lifetime : StatedLifetime)
        → (lifetime_shortened_by_purge times lifetime).explicit ≡ lifetime.explicit }
    ensures younger { (times : Moments) (lifetime : StatedLifetime) (purge age : ℕ) → times.expired ≡ Some purge
        → age < age_of times purge
        → is_fresh_of (lifetime_shortened_by_purge times lifetime) age ≡ is_fresh_of lifetime age }
    ensures age { (times : Moments) (purge now : ℕ) → age_of (times_once_purged times purge) now ≡ age_of times now }
    ensures marked { (times : Moments) (purge : ℕ) → times.expired ≡ None
        → (times_once_purged times purge).expired ≡ Some purge }
    ensures first { (times : Moments) (purge later : ℕ)
        → times_once_purged (times_once_purged times purge) later ≡ times_once_purged times purge }
{}

/// No age and no lifetime is above 2147483648 seconds, also by an Expires of a far year (RFC 9111, section 1.2.2).
#[tactic(auto, unfolding(httpdate::proofs::OnLiterals::httpdate_on_literals))]
pub fn ages_and_lifetimes_are_capped()
    ensures age { (times : Moments) (now : ℕ) → age_of times now ≤ 2147483648 }
    ensures far { lifetime_of (fields_with_expires (codes "Fri, 31 Dec 9999 23:59:59 GMT")) ≡ record { explicit = true; seconds = 2147483648 } }
    ensures lifetime { (fields : List Field) → (lifetime_of fields).seconds ≤ 2147483648 }
{}
