//! Who is at the two ends of a server: all streams of clients and all links to origins, with what each waits for, who
//! gives way, whose time is over, and how one is closed. No call waits, and nothing here knows of an engine.
#![tactic(auto)]

mod clients;
mod end_cases;
pub mod laws;
mod limits;
mod links;
mod replies;
mod socket_tokens;

pub use crate::clients::Clients;
pub use crate::clients::client::Client;
pub use crate::clients::departures::UnansweredDeparture;
pub use crate::limits::{
    LONGEST_WAIT_MILLISECONDS, Limits, MOST_ACCEPTED_PER_TURN, MOST_ENDS_READ_PER_TURN,
    MOST_EVENTS_PER_POLL, MOST_OPEN_CONNECTIONS, SECOND,
};
pub use crate::links::Links;
pub use crate::links::link::Link;
pub use crate::replies::Reply;
pub use crate::socket_tokens::TokenHolder;
