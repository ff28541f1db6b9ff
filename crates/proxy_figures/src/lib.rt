//! The figures of a server: what it counts of replies, connections, turns, origins and the store, and the page of all
//! of them in Prometheus' text format.
//!
//! Nothing here has a socket or a clock. Who serves notes what was done, and hands in what it holds for a page.
#![tactic(auto)]

mod accept_counts;
mod counted_shelf;
mod counts;
mod endings;
mod figures;
pub mod laws;
mod limits;
mod line_origins;
mod link_timeouts;
mod not_stored;
mod origins;
mod page;
mod process;
mod reply_counts;
mod sorts;
mod turn_counts;
mod unanswered;

pub use crate::accept_counts::{
    ConnectionAttemptCounts, TroubleCounts, is_out_of_descriptors, is_out_of_ports,
};
pub use crate::counted_shelf::{CountedShelf, StoreCounts};
pub use crate::endings::{ClientEndCounts, CutReason, ExceededClientLimit};
pub use crate::figures::{ClientFigures, Figures, LinkFigures, ProgramFacts, RecordState};
pub use crate::line_origins::LineOrigins;
pub use crate::link_timeouts::{ExceededLinkLimit, LinkTimeouts};
pub use crate::origins::{LinkAdmission, Origin, Origins};
pub use crate::process::ProcessFigures;
pub use crate::reply_counts::ReplyCounts;
pub use crate::sorts::{ReplySort, Source, reply_sort_of};
pub use crate::turn_counts::{TurnEnd, Turns};
pub use crate::unanswered::{UnansweredCause, UnansweredCounts};
