//! Where among the open exchanges the released ones stand.
//!
//! The first of them is known, so nothing is looked for where it is asked for. It is looked for
//! anew where it goes: from there on, and no farther than the last. So those that one close
//! releases cost one walk over what stands between them, however many they are.
ghost use Rattle.std.specs.Prelude.{◌≡◌, ℕ, true, Some, if◌then◌else◌};
ghost use Rattle.std.specs.Ordering.{nat_cmp};
ghost use Rattle.std.specs.BTreeSet.{contains};
ghost use Rattle.proxy_core.specs.Leading.{is_released as is_free};
ghost use Rattle.proxy_core.specs.Releases.{first_released_arrival, is_between_arrivals, arrival_may_be_released};
ghost use Rattle.proxy_core.specs.Releases.{released_arrival_range_with, ReleasedArrivalsPassTest};
ghost use Rattle.proxy_core.specs.Releases.{ReleasedStatesFirstReleasedArrival};
ghost use Rattle.proxy_core.specs.Releases.{FirstReleasedIsNone, ReleasedRangeIsNotNarrowed, ReleasedNumbersCoverRange};
ghost use Rattle.proxy_core.specs.Releases.{ReleasedRangeIsWidenedToSet};

use crate::open::exchange::Exchange;
use crate::open::leading::is_released;
use crate::open::stage::Stage;
use std::collections::{BTreeMap, BTreeSet};

/// The number of the first that is released, and one that none of them exceeds.
pub(crate) struct Released {
    first: Option<u64>,
    last: u64,
}

/// One call drops it, wherever that is.
impl Drop for Released {
    fn drop(self) {
        let Released { first: _, last: _ } = self;
    }
}

impl Released {
    /// None is released.
    pub(crate) fn new() -> Self
        ensures { FirstReleasedIsNone result }
    {
        Released {
            first: None,
            last: 0,
        }
    }

    /// The number of the first that is released.
    pub(crate) fn first(&self) -> Option<u64>
        ensures { result ≡ self.now.first }
    {
        self.first
    }

    /// The exchange of this number may be released.
    pub(crate) fn enter(&mut self, stage: Stage, arrival: u64)
        ensures widened { ReleasedRangeIsNotNarrowed self.old self.new }
        ensures entered { is_free stage ≡ true → arrival_may_be_released self.new arrival ≡ true }
        ensures reach { self.new
            ≡ (if is_free stage then released_arrival_range_with arrival arrival self.old else self.old) }
    {
        if is_released(stage) {
            self.widen(arrival, arrival);
        }
    }

    /// The exchanges of these numbers may be released.
    pub(crate) fn enter_all(&mut self, arrivals: &BTreeSet<u64>)
        ensures widened { ReleasedRangeIsNotNarrowed self.old self.new }
        ensures entered { (n : ℕ) → contains nat_cmp arrivals.now n ≡ true → arrival_may_be_released self.new n ≡ true }
        ensures reach { ReleasedRangeIsWidenedToSet arrivals.now self.old self.new }
    {
        if let Some(first) = arrivals.first() {
            if let Some(last) = arrivals.last() {
                self.widen(*first, *last);
            }
        }
    }

    /// Those from the one number to the other may be released.
    fn widen(&mut self, first: u64, last: u64)
        ensures widened { ReleasedRangeIsNotNarrowed self.old self.new }
        ensures by { ReleasedNumbersCoverRange first last self.new }
        ensures reach { self.new ≡ released_arrival_range_with first last self.old }
    {
        match self.first {
            Some(other) => {
                self.first = Some(first.min(other));
                self.last = last.max(self.last);
            }
            None => {
                self.first = Some(first);
                self.last = last;
            }
        }
    }

    /// Looks for the first of them.
    pub(crate) fn settle(&mut self, by_arrival: &BTreeMap<u64, Exchange>)
        requires { ReleasedArrivalsPassTest (arrival_may_be_released self.old) by_arrival.now.entries }
        ensures settled { ReleasedStatesFirstReleasedArrival self.new by_arrival.now.entries }
        ensures last { self.new.last ≡ self.old.last }
    {
        if let Some(first) = self.first {
            self.first = first_between(by_arrival, first, self.last);
        }
    }
}

/// The number of the first that is released, where none stands before or behind these numbers.
fn first_between(by_arrival: &BTreeMap<u64, Exchange>, first: u64, last: u64) -> Option<u64>
    requires { ReleasedArrivalsPassTest (is_between_arrivals (Some first) last) by_arrival.now.entries }
    ensures first { result ≡ first_released_arrival by_arrival.now.entries }
    ensures from { ReleasedArrivalsPassTest (is_between_arrivals result last) by_arrival.now.entries }
{
    if last < first {
        return None;
    }
    for (arrival, x) in by_arrival.range(first..=last) {
        if is_released(x.stage) {
            return Some(*arrival);
        }
    }
    None
}
