//! What a client asked for, as data.

use http::Method;
use hx_fields::Bytes;
use hx_target::Key;

/// The target of a request.
#[derive(Drop)]
pub enum AskedTarget {
    /// The target URI, without its scheme, which is always `http` (RFC 9110, section 7.1).
    Uri(Key),
    /// As it came in the request line, where it spells no target URI (RFC 9112, section 3.2).
    AsItCame(Bytes),
}

/// What a client asked for: the words of its request that name it.
#[derive(Drop)]
pub struct MethodAndTarget {
    /// Methods compare with their case (RFC 9110, section 9.1).
    pub method: Method,
    pub target: AskedTarget,
}
