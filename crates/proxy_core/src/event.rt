//! What can happen to the core.

use hx_framing::Response;
use hx_hop::Asked;
use hx_status::FailKind;

/// A step, with its moment in Unix seconds where it has one, and the id of its exchange.
#[derive(Drop)]
pub enum Event {
    Arrive(u64, u64, Asked),
    Answer(u64, u64, Response),
    Fail(u64, u64, FailKind),
    /// A request that waited may be answered from the store now, or goes forward.
    Wake(u64, u64),
    Abandon(u64),
    /// A request has waited for another's answer as long as it is to wait.
    Overdue(u64),
}
