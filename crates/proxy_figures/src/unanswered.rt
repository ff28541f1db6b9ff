//! Requests that were never answered: how many, and why.
ghost use Rattle.std.specs.Prelude.{◌≡◌, unwrap_or, slice_get, replicate};
ghost use Rattle.proxy_figures.specs.Counts.{counts_with_one_more};
ghost use Rattle.proxy_figures.specs.Unanswered.{unanswered_place, unanswered_name, cause_of_cut, cause_of_lateness};
ghost use Rattle.proxy_figures.specs.declared.unanswered.TheConstants.{UNANSWERED_CAUSE_COUNT};

use crate::counts::{count, count_at};
use crate::endings::{CutReason, ExceededClientLimit};

/// Why a request was never answered.
#[derive(Clone, Copy, PartialEq, Eq)]
pub enum UnansweredCause {
    /// Its client broke the connection off, or closed it before the request was whole.
    Closed,
    /// Its client had closed the connection, and nothing was written for as long as is waited then.
    AbandonTimeout,
    /// The request took too long to come.
    RequestTimeout,
    /// The client was silent in the middle of the request.
    ClientTimeout,
    /// More is held for requests and answers than may be, and the most for this one.
    ContentLimit,
    Memory,
    /// It was incomplete, no byte of it came for a second, and its connection's place was wanted for another.
    Room,
}

/// All of them, each at its place.
pub(crate) const ALL_UNANSWERED_CAUSES: &[UnansweredCause] = &[
    UnansweredCause::Closed,
    UnansweredCause::AbandonTimeout,
    UnansweredCause::RequestTimeout,
    UnansweredCause::ClientTimeout,
    UnansweredCause::ContentLimit,
    UnansweredCause::Memory,
    UnansweredCause::Room,
];

/// How many there are.
const UNANSWERED_CAUSE_COUNT: usize = ALL_UNANSWERED_CAUSES.len();

impl UnansweredCause {
    /// Its place among the counts.
    fn place(self) -> usize
        ensures { result ≡ unanswered_place self }
    {
        match self {
            UnansweredCause::Closed => 0,
            UnansweredCause::AbandonTimeout => 1,
            UnansweredCause::RequestTimeout => 2,
            UnansweredCause::ClientTimeout => 3,
            UnansweredCause::ContentLimit => 4,
            UnansweredCause::Memory => 5,
            UnansweredCause::Room => 6,
        }
    }

    /// Its word in figures and in the log.
    pub fn name(self) -> &'static str
        ensures { result.now ≡ unanswered_name self }
    {
        match self {
            UnansweredCause::Closed => "closed",
            UnansweredCause::AbandonTimeout => "abandon-timeout",
            UnansweredCause::RequestTimeout => "request-timeout",
            UnansweredCause::ClientTimeout => "client-timeout",
            UnansweredCause::ContentLimit => "content-limit",
            UnansweredCause::Memory => "memory",
            UnansweredCause::Room => "room",
        }
    }

    /// Of a connection that was cut.
    pub fn of_cut(cut: CutReason) -> UnansweredCause
        ensures { result ≡ cause_of_cut cut }
    {
        match cut {
            CutReason::Room => UnansweredCause::Room,
            CutReason::Content => UnansweredCause::ContentLimit,
            CutReason::Memory => UnansweredCause::Memory,
        }
    }

    /// Of a client whose time was over.
    pub fn of_late_client(lateness: ExceededClientLimit) -> UnansweredCause
        ensures { result ≡ cause_of_lateness lateness }
    {
        match lateness {
            ExceededClientLimit::Client => UnansweredCause::ClientTimeout,
            ExceededClientLimit::Request => UnansweredCause::RequestTimeout,
            ExceededClientLimit::Abandon => UnansweredCause::AbandonTimeout,
        }
    }
}

/// How many requests were never answered, by cause.
#[derive(Clone, Copy)]
pub struct UnansweredCounts {
    counts: [u64; UNANSWERED_CAUSE_COUNT],
}

impl UnansweredCounts {
    pub fn new() -> UnansweredCounts
        ensures { result.counts ≡ replicate UNANSWERED_CAUSE_COUNT 0 }
    {
        UnansweredCounts {
            counts: [0; UNANSWERED_CAUSE_COUNT],
        }
    }

    /// One more was not answered.
    pub fn add(&mut self, cause: UnansweredCause)
        ensures { self.new.counts ≡ counts_with_one_more self.old.counts (unanswered_place cause) }
    {
        count(&mut self.counts, cause.place());
    }

    /// How many weren't for this cause.
    pub fn with(&self, cause: UnansweredCause) -> u64
        ensures { result ≡ unwrap_or (slice_get self.now.counts (unanswered_place cause)) 0 }
    {
        count_at(&self.counts, cause.place())
    }
}
