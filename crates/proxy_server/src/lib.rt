//! The server: the proxy over sockets of the system, with its waits and time-outs. What a turn does with ready sockets
//! is in `proxy_turn`; what is counted in `proxy_figures`; the record of what happened in `proxy_record`.
//!
//! No call of `LiveSockets` waits: which end is ready is known from `wait`, which stands between the turns. A failure
//! that is seen while effects are carried out is kept, and handed to the engine before the next turn, as silence is; so
//! a turn's effects are those of what happened before it, and a record can be replayed. The handle `Net` is used here
//! alone. Where a log is kept, the sockets note each reply behind its write; who serves writes the lines between the
//! turns.
#![tactic(auto)]

mod fault_texts;
pub mod laws;
mod pace;
mod server;
mod server_cases;
mod sockets;
mod stats;

pub use crate::server::{ServeFault, ServedTurn, Server};
pub use crate::sockets::live_sockets::LiveSockets;
pub use proxy_ends::Limits;
pub use proxy_figures::{CountedShelf, ProcessFigures, ProgramFacts, StoreCounts, TroubleCounts};
pub use proxy_listener::ListenAt;
pub use proxy_record::{RecordFault, RecordedSockets, Recorder};
