//! The head of a response as every later rule sees it.
use hx_fields::Fields;

/// The head of an origin's response as every later rule sees it: without the fields of its connection, and with
/// one valid Date (RFC 9110, sections 6.6.1 and 7.6.1).
#[derive(Drop)]
pub struct Answered {
    /// 200 to 599 (RFC 9110, section 15).
    pub status: u16,
    /// The lines that go on, in order.
    pub fields: Fields,
}
