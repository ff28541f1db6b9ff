//! The proxy as a machine without sockets: what each arrival, answer and failure gives, and what it leaves.
//!
//! ```text
//! arrive: denied -> 403 | no rule -> the stored response        no exchange opens
//!         a rule applies -> FORWARDED
//!         a GET, and one that went forward for the same reason leads -> WAITING
//!             (the reason: nothing is held for its key or, where its line says so, what is held has expired)
//!
//! FORWARDED -- answer or fail --> a reply                        the id is free again
//!           -- 304 that validates nothing held, and nothing else may be sent
//!              --> FORWARDED, without the proxy's conditions
//! WAITING   -- the leader was answered, or has ended --> RELEASED
//!           -- overdue: its time to wait is over --> RELEASED
//!           -- the leader was abandoned --> RELEASED, the first that may lead; WAITING for it, those that follow
//! RELEASED  -- wake --> the stored response                      the id is free again
//!                   --> FORWARDED
//! any       -- abandon --> nothing                               the id is free again
//! ```
//! `specs/Outcomes.antt` says what a step gives, over the held responses and the open exchanges;
//! `specs/State.antt` what it leaves. Nothing here reads a clock: each step is handed its moment.
#![tactic(auto)]

mod core_fault;
mod core_state;
mod event;
pub mod laws;
mod moments;
mod open;
mod outcome;
mod replies;
mod runs;
mod steps;

pub use crate::core_fault::CoreFault;
pub use crate::core_state::Core;
pub use crate::event::Event;
pub use crate::open::awaited::Awaited;
pub use crate::open::exchange::Exchange;
pub use crate::open::ids::Ids;
pub use crate::open::stage::Stage;
pub use crate::outcome::{Outcome, Reply, Run, Step};
pub use crate::replies::reply_text::{is_head, refused};
pub use crate::replies::stored_reply::ReplyTextAndAbout;
pub use crate::runs::run;
pub use crate::steps::condition::Condition;
pub use crate::steps::fallback::FallbackDecision;
