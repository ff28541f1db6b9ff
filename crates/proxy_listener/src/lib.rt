//! What is asked of the system's sockets beyond reading and writing: the socket that clients connect to, one that is
//! bound here or that a supervisor bound and handed on, the next connection of one, and the end of one by a reset.
#![tactic(auto)]

mod accepting;
mod listening;
mod resetting;
mod stream_options;

pub use crate::accepting::accept;
pub use crate::listening::{ListenAt, listen};
pub use crate::resetting::reset;
