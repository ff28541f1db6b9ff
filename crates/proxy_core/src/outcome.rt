//! What a step gives.

use crate::core_fault::CoreFault;
use hx_allow::RouteOverLine;
use hx_fields::Bytes;
use hx_hop::Asked;
use hx_status::StatusAndReason;
use hx_store::Serials;

/// An answer to the client, with what the step did to the store.
#[derive(Drop)]
pub struct Reply {
    /// The whole message.
    pub bytes: Bytes,
    /// Whether the connection closes behind it.
    pub close: bool,
    /// What it is: who counts or logs replies reads none of its bytes.
    pub about: StatusAndReason,
    /// The serial that was stored.
    pub stored: Option<u64>,
    /// The serial that was sent.
    pub used: Option<u64>,
    /// The serials that were taken out, ascending. An evicted one isn't among them.
    pub removed: Serials,
    /// The serials that a purge expired, ascending, where it is one that expires. They are held still.
    pub expired: Option<Serials>,
    /// Whether the request purged what was held within its scope.
    pub purged: bool,
}

/// What a step gives.
#[derive(Drop)]
pub enum Outcome {
    Reply(Reply),
    /// A request for the origin of this line of the table.
    Forward(RouteOverLine, Bytes),
    /// The request waits for the answer to the exchange of this id.
    Waits(u64),
    /// The exchange was abandoned.
    Ended,
    /// The request waits no more, and nothing is sent yet: it may be woken.
    WaitsNoMore,
}

/// What a step of an open exchange gave.
#[derive(Drop)]
pub struct Step {
    pub outcome: Outcome,
    /// The request that it answered, where it ended the exchange by a reply.
    pub asked: Option<Asked>,
}

/// What a run gave: the outcomes of the events in order, and the fault of the first that was refused.
#[derive(Drop)]
pub struct Run {
    pub outcomes: Vec<Outcome>,
    pub stopped: Option<CoreFault>,
}
