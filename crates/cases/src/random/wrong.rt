//! What a check finds.

use std::alloc::AllocError;

/// What doesn't hold, with the connection or link at which it doesn't.
#[derive(Clone, Copy)]
pub enum Wrong {
    OutOfMemory,
    Rule(&'static str, u64),
}

impl From<AllocError> for Wrong {
    fn from(_: AllocError) -> Self {
        Wrong::OutOfMemory
    }
}
