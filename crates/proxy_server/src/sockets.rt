//! The sockets of the system: those of clients and links by their numbers, and the listener.

mod accepting;
mod call_counts;
mod connecting;
mod draining;
mod holding;
pub(crate) mod live_sockets;
pub(crate) mod reply_log;
mod table_origins;
