//! How long a stored response is fresh, and how old it is at a moment (RFC 9111, section 4.2).
//!
//! The sums are in `specs/Age.antt`, over numbers without bound; the lifetime is in `specs/Lifetime.antt`.
//! Moments are whole seconds since 1970 and are handed in: no clock is read, and no memory is taken.
#![tactic(auto)]

mod ages;
mod dates;
pub mod laws;
mod lifetimes;
mod moments;

pub use ages::{current_age, is_fresh, lifetime_shortened_by_purge, staleness, ttl};
pub use dates::moment_of_single_date;
pub use lifetimes::Lifetime;
pub use moments::Times;
