//! Counts of replies: by reason, status and cause, and how long they took.
ghost use Rattle.std.specs.Prelude.{◌≡◌, ◌-◌, unwrap_or, slice_get, replicate};
ghost use Rattle.proxy_figures.specs.Counts.{counts_with_one_more, count_plus_one_if};
ghost use Rattle.proxy_figures.specs.NotStored.{not_stored_counts_with, storing_rule_place};
ghost use Rattle.proxy_figures.specs.ReplyCounts.{reply_place, cause_place, cause_counts_with, empty_reply_times};
ghost use Rattle.proxy_figures.specs.ReplyCounts.{reply_times_with};
ghost use Rattle.proxy_figures.specs.ReplyCounts.{times_with_reply_if_from_store, times_with_reply_if_from_origin};
ghost use Rattle.proxy_figures.specs.ReplyCounts.{times_with_reply_if_by_proxy};
ghost use Rattle.proxy_figures.specs.Sorts.{source_of_reply_sort};
ghost use Rattle.proxy_figures.specs.Times.{time_bucket_of};
ghost use Rattle.proxy_figures.specs.declared.not_stored.TheConstants.{STORING_RULE_COUNT};
ghost use Rattle.proxy_figures.specs.declared.reply_counts.TheConstants.{REPLY_PLACE_COUNT, STATUS_COUNT};
ghost use Rattle.proxy_figures.specs.declared.sorts.TheConstants.{CAUSE_COUNT};

use crate::counts::{count, count_at, count_plus_one_if};
use crate::not_stored::{STORING_RULE_COUNT, storing_rule_place};
use crate::sorts::{
    CAUSE_COUNT, Cause, DETAIL_COUNT, Detail, REASON_COUNT, Reason, ReplySort, Source,
};
use hx_storable::StoreRule;

/// The least status of a reply, the greatest, and how many there may be.
pub(crate) const FIRST_STATUS: u16 = 200;

const LAST_STATUS: u16 = 599;

pub(crate) const STATUS_COUNT: usize = (LAST_STATUS - FIRST_STATUS) as usize + 1;

/// Bounds of times, in seconds; behind the last one all that took longer is counted.
pub(crate) const TIME_BOUNDS_IN_SECONDS: &[&str] = &[
    "0.001", "0.005", "0.01", "0.05", "0.1", "0.5", "1", "5", "10", "30", "60",
];

const TIME_BUCKET_COUNT: usize = TIME_BOUNDS_IN_SECONDS.len() + 1;

/// Of each reason and each detail.
const REPLY_PLACE_COUNT: usize = REASON_COUNT * DETAIL_COUNT;

/// How many replies of one source, or links to one origin, took how long.
#[derive(Clone, Copy)]
pub struct ReplyTimes {
    /// By the first bound that isn't below it.
    pub buckets: [u64; TIME_BUCKET_COUNT],
    /// Milliseconds of all together.
    pub sum: u64,
}

/// Counts of replies.
#[derive(Clone, Copy)]
pub struct ReplyCounts {
    /// By reason, and in a row of each by detail.
    reasons: [u64; REPLY_PLACE_COUNT],
    causes: [u64; CAUSE_COUNT],
    /// Answers that weren't stored, by storing rule.
    not_stored: [u64; STORING_RULE_COUNT],
    statuses: [u64; STATUS_COUNT],
    pub stored: u64,
    pub collapsed: u64,
    pub from_store: ReplyTimes,
    pub from_origin: ReplyTimes,
    pub from_proxy: ReplyTimes,
}

/// The place of a time among the bounds.
fn time_bucket_of(milliseconds: u64) -> usize
    ensures { result ≡ time_bucket_of milliseconds }
{
    match milliseconds {
        0..=1 => 0,
        2..=5 => 1,
        6..=10 => 2,
        11..=50 => 3,
        51..=100 => 4,
        101..=500 => 5,
        501..=1000 => 6,
        1001..=5000 => 7,
        5001..=10_000 => 8,
        10_001..=30_000 => 9,
        30_001..=60_000 => 10,
        _ => 11,
    }
}

fn place_of(reason: Reason, detail: Detail) -> usize
    ensures { result ≡ reply_place reason detail }
{
    DETAIL_COUNT * reason.row() + detail.column()
}

impl ReplyTimes {
    pub(crate) fn new() -> ReplyTimes
        ensures { result ≡ empty_reply_times }
    {
        ReplyTimes {
            buckets: [0; TIME_BUCKET_COUNT],
            sum: 0,
        }
    }

    pub(crate) fn add(&mut self, milliseconds: u64)
        ensures { self.new ≡ reply_times_with milliseconds self.old }
    {
        count(&mut self.buckets, time_bucket_of(milliseconds));
        self.sum = self.sum.saturating_add(milliseconds);
    }
}

impl ReplyCounts {
    pub fn new() -> ReplyCounts
        ensures reasons { result.reasons ≡ replicate REPLY_PLACE_COUNT 0 }
        ensures causes { result.causes ≡ replicate CAUSE_COUNT 0 }
        ensures not_stored { result.not_stored ≡ replicate STORING_RULE_COUNT 0 }
        ensures statuses { result.statuses ≡ replicate STATUS_COUNT 0 }
        ensures words { (result.stored ≡ 0) × (result.collapsed ≡ 0) }
        ensures from_store { result.from_store ≡ empty_reply_times }
        ensures from_origin { result.from_origin ≡ empty_reply_times }
        ensures from_proxy { result.from_proxy ≡ empty_reply_times }
    {
        ReplyCounts {
            reasons: [0; REPLY_PLACE_COUNT],
            causes: [0; CAUSE_COUNT],
            not_stored: [0; STORING_RULE_COUNT],
            statuses: [0; STATUS_COUNT],
            stored: 0,
            collapsed: 0,
            from_store: ReplyTimes::new(),
            from_origin: ReplyTimes::new(),
            from_proxy: ReplyTimes::new(),
        }
    }

    /// Counts a reply that took so many milliseconds.
    pub fn add(&mut self, status: u16, sort: &ReplySort, milliseconds: u64)
        ensures reasons { self.new.reasons ≡ counts_with_one_more self.old.reasons
            (reply_place sort.now.reason sort.now.detail) }
        ensures causes { self.new.causes ≡ cause_counts_with sort.now.cause self.old.causes }
        ensures not_stored { self.new.not_stored ≡ not_stored_counts_with sort.now.not_stored self.old.not_stored }
        ensures statuses { self.new.statuses ≡ counts_with_one_more self.old.statuses (status - 200) }
        ensures stored { self.new.stored ≡ count_plus_one_if sort.now.stored self.old.stored }
        ensures collapsed { self.new.collapsed ≡ count_plus_one_if sort.now.collapsed self.old.collapsed }
        ensures from_store { self.new.from_store
            ≡ times_with_reply_if_from_store (source_of_reply_sort sort.now) milliseconds
            self.old.from_store }
        ensures from_origin { self.new.from_origin ≡ times_with_reply_if_from_origin (source_of_reply_sort sort.now)
            milliseconds
            self.old.from_origin }
        ensures from_proxy { self.new.from_proxy
            ≡ times_with_reply_if_by_proxy (source_of_reply_sort sort.now) milliseconds
            self.old.from_proxy }
    {
        count(&mut self.reasons, place_of(sort.reason, sort.detail));
        count(
            &mut self.statuses,
            status.saturating_sub(FIRST_STATUS) as usize,
        );
        if let Some(cause) = sort.cause {
            count(&mut self.causes, cause.place());
        }
        if let Some(rule) = sort.not_stored {
            count(&mut self.not_stored, storing_rule_place(rule));
        }
        self.stored = count_plus_one_if(sort.stored, self.stored);
        self.collapsed = count_plus_one_if(sort.collapsed, self.collapsed);
        match sort.source() {
            Source::Store => self.from_store.add(milliseconds),
            Source::Origin => self.from_origin.add(milliseconds),
            Source::Proxy => self.from_proxy.add(milliseconds),
        }
    }

    pub(crate) fn replies_with_reason(&self, reason: Reason, detail: Detail) -> u64
        ensures { result ≡ unwrap_or (slice_get self.now.reasons (reply_place reason detail)) 0 }
    {
        count_at(&self.reasons, place_of(reason, detail))
    }

    pub(crate) fn replies_with_cause(&self, cause: Cause) -> u64
        ensures { result ≡ unwrap_or (slice_get self.now.causes (cause_place cause)) 0 }
    {
        count_at(&self.causes, cause.place())
    }

    pub(crate) fn replies_with_storing_rule(&self, rule: StoreRule) -> u64
        ensures { result ≡ unwrap_or (slice_get self.now.not_stored (storing_rule_place rule)) 0 }
    {
        count_at(&self.not_stored, storing_rule_place(rule))
    }

    pub(crate) fn replies_with_status(&self, status: u16) -> u64
        ensures { result ≡ unwrap_or (slice_get self.now.statuses (status - 200)) 0 }
    {
        count_at(&self.statuses, status.saturating_sub(FIRST_STATUS) as usize)
    }
}
