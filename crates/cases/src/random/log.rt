//! What happened, as the script has it, and what the engine did.

use super::requests::Asked;
use super::tables::RandomTable;
use std::alloc::Global;

/// What the check has to know of a happening.
#[derive(Clone, Copy)]
pub enum Occurred {
    /// The connection of this number was accepted.
    Accepted(u64),
    /// The client of this connection sent bytes or its end; so many of its requests have come whole.
    Client(u64, u64),
    /// The client of this connection went away.
    Gone(u64),
    /// The connection of this number is to end.
    Retired(u64),
    /// The request of this client has waited for another's answer long enough.
    Overdue(u64),
    /// On this link bytes came, or its end, or a failure.
    Link(u64),
    /// What was told of an end that is over.
    Late,
}

/// A happening, its moment, and how many bytes the text of its effects has.
#[derive(Clone, Copy)]
pub struct Step {
    pub occurred: Occurred,
    pub now: u64,
    pub length: usize,
}

/// A script, and the run of it.
pub struct Log {
    pub script: Vec<u8>,
    pub effects: Vec<u8>,
    pub steps: Vec<Step>,
    /// The requests of all connections, those of each in their order.
    pub asked: Vec<Asked>,
    pub table: RandomTable,
}

// By hand, so that a scope that ends is one call to the prover and not the drop of each part.
impl Drop for Log {
    fn drop(self) {
        let Log {
            script: _,
            effects: _,
            steps: _,
            asked: _,
            table: _,
        } = self;
    }
}

impl Log {
    pub fn new(alloc: Global, table: RandomTable) -> Self {
        Log {
            script: Vec::new(alloc),
            effects: Vec::new(alloc),
            steps: Vec::new(alloc),
            asked: Vec::new(alloc),
            table,
        }
    }
}
