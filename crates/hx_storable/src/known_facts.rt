//! What is known of an answer besides its head.

use hx_policy::Policy;

/// What is known of an answer besides its head and the request.
#[derive(Clone, Copy, Debug, PartialEq, Eq)]
pub struct StoringFacts {
    /// What the line of its exchange says of caching.
    pub policy: Policy,
    /// A member of its Vary is `*` or no token (RFC 9111, section 4.1).
    pub vary_star: bool,
    /// Its Connection, as it was received, names a cache field, such as Cache-Control or Vary.
    pub listed: bool,
    /// It states its lifetime, or the operator gives it one (RFC 9111, sections 4.2.1 and 4.2.2).
    pub explicit: bool,
    /// It has a validator (RFC 9110, section 8.8).
    pub validator: bool,
    /// Its content is longer than the operator lets be stored.
    pub too_large: bool,
    /// What is held for its key was invalidated since its request last went forward (RFC 9111, section 4.4).
    pub overtaken: bool,
    /// No number is left for it.
    pub no_serial: bool,
}
