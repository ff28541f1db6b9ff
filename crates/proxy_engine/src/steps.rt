//! The acts of an engine: how the first that is due is found, what each does, and its effects.

pub(crate) mod actions;
pub(crate) mod acts;
pub(crate) mod finds;
pub(crate) mod finishing;
pub(crate) mod outcomes;
pub(crate) mod questions;
pub(crate) mod serving;
pub(crate) mod waking;
