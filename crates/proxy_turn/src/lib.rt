//! Turns of a proxy over sockets: connections are accepted, each end of a list is read from once, and what is then due
//! is done.
//!
//! `Sockets` are the calls that a turn makes, each of which may fail; contracts see each with its bytes and what came
//! of it (`specs/Calls.antt`), and how many failed (`specs/Counts.antt`). Nothing here opens a socket, waits or reads a
//! clock.
#![tactic(auto)]

mod bounds;
mod copies;
mod effects;
mod happenings;
pub mod laws;
mod limits;
mod logged;
mod over_cases;
mod report;
mod sockets;
mod turn_cases;
mod turns;

pub use crate::bounds::TurnAcceptBounds;
pub use crate::happenings::{
    happening_of_bytes_read_from_end, happening_of_end_of_input, happening_of_lost_end,
    happening_of_read,
};
pub use crate::limits::MOST_ACTS_OF_A_TURN;
pub use crate::logged::{LoggedCall, LoggedReadOutcome, LoggedSockets, turn_with_call_log};
pub use crate::report::{Report, TurnFault};
pub use crate::sockets::{SocketCallFailed, Sockets};
pub use crate::turns::{turn, turn_over_given_ends, turn_with_buffer};
pub use proxy_engine::End;
pub use proxy_reads::{PIECE, Received};
