//! The steps of the core: an arrival, an answer, a failure, a wake; what each judges, sends and stores.

pub(crate) mod answering;
pub(crate) mod arriving;
pub(crate) mod condition;
pub(crate) mod failing;
pub(crate) mod fallback;
pub(crate) mod finishing;
pub(crate) mod judging;
pub(crate) mod purging;
pub(crate) mod sending;
pub(crate) mod storing;
pub(crate) mod validating;
pub(crate) mod waking;
