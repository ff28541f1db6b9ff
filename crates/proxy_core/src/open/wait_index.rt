//! Which arrivals wait for which exchange.
//!
//! A call costs the logarithm of how many wait.
ghost use Rattle.std.specs.Prelude.{◌≡◌, ◌||◌, ℕ, false, option_copied, IfOk, OnOk, OnErr};
ghost use Rattle.std.specs.Ordering.{nat_cmp};
ghost use Rattle.std.specs.BTreeMap.{get};
ghost use Rattle.std.specs.BTreeSet.{contains};
ghost use Rattle.std.specs.Bool.{OnFalse, OnTrue};
ghost use Rattle.proxy_core.specs.declared.open.stage.Stage.TheVariants as staged;
ghost use Rattle.proxy_core.specs.Waiters.{arrival_is_in_wait_index, set_contains, ArrivalIsAddedIfWaiting};
ghost use Rattle.proxy_core.specs.Waiters.{WaiterIsAddedIfSetExists};
ghost use Rattle.proxy_core.specs.Waiters.{ArrivalIsRemovedIfWaiting, WaitersAreRemoved, WaitIndexesHaveSameMembers};
ghost use Rattle.proxy_core.specs.Waiters.{WaitIndexHasNoEmptySet, OtherIdsHaveNoEmptyWaiterSet, IsEmptyWaitIndex};
ghost use Rattle.proxy_core.specs.Waiters.{SetHoldsAllWaitersOfLeader, SetIsNotEmpty, WaitersAreEntered};

use crate::open::stage::Stage;
use std::alloc::{AllocError, Global};
use std::collections::{BTreeMap, BTreeSet};

/// The numbers of the arrivals that wait, by the id that they wait for, of which none stands there without an arrival.
pub(crate) struct WaitIndex {
    pub(crate) alloc: Global,
    arrivals: BTreeMap<u64, BTreeSet<u64>>,
}

/// One call drops it, wherever that is.
impl Drop for WaitIndex {
    fn drop(self) {
        let WaitIndex {
            alloc: _,
            arrivals: _,
        } = self;
    }
}

impl WaitIndex {
    /// Nothing waits.
    pub(crate) fn new(alloc: Global) -> Self
        ensures none { IsEmptyWaitIndex result }
        ensures trim { WaitIndexHasNoEmptySet result }
    {
        WaitIndex {
            alloc,
            arrivals: BTreeMap::new(alloc),
        }
    }

    /// Enters an arrival, if its exchange waits. Out of memory changes nothing.
    pub(crate) fn enter(&mut self, stage: Stage, arrival: u64) -> Result<(), AllocError>
        ensures ok { OnOk result (ArrivalIsAddedIfWaiting stage arrival self.old self.new) }
        ensures err { OnErr result (WaitIndexesHaveSameMembers self.old self.new) }
        ensures trim { WaitIndexHasNoEmptySet self.old → WaitIndexHasNoEmptySet self.new }
    {
        match stage {
            Stage::Waiting(leader) => self.insert(leader, arrival),
            Stage::Forwarded | Stage::Released => Ok(()),
        }
    }

    /// Takes an arrival out, if its exchange waits. Nothing is allocated.
    pub(crate) fn remove_arrival(&mut self, stage: Stage, arrival: u64)
        ensures left { ArrivalIsRemovedIfWaiting stage arrival self.old self.new }
        ensures trim { WaitIndexHasNoEmptySet self.old → WaitIndexHasNoEmptySet self.new }
    {
        match stage {
            Stage::Waiting(leader) => self.remove(leader, arrival),
            Stage::Forwarded | Stage::Released => {}
        }
    }

    /// Takes all out that wait for the exchange of an id. Nothing is allocated.
    pub(crate) fn take(&mut self, id: u64) -> Option<BTreeSet<u64>>
        ensures all { SetHoldsAllWaitersOfLeader result id self.old }
        ensures emptied { WaitersAreRemoved id self.old self.new }
        ensures trim { WaitIndexHasNoEmptySet self.old → WaitIndexHasNoEmptySet self.new }
    {
        self.arrivals.remove(&id)
    }

    /// Those that wait for the exchange of an id.
    pub(crate) fn find(&self, id: u64) -> Option<&BTreeSet<u64>>
        ensures { option_copied result ≡ get nat_cmp self.now.arrivals id }
    {
        self.arrivals.get(&id)
    }

    /// Enters arrivals as of those that wait for the exchange of an id, beside those that do. Out of memory changes
    /// nothing.
    pub(crate) fn enter_all(&mut self, id: u64, arrivals: BTreeSet<u64>) -> Result<(), AllocError>
        ensures ok { OnOk result (WaitersAreEntered id arrivals self.old self.new) }
        ensures err { OnErr result (WaitIndexesHaveSameMembers self.old self.new) }
        ensures trim { WaitIndexHasNoEmptySet self.old → WaitIndexHasNoEmptySet self.new }
    {
        if arrivals.is_empty() {
            return Ok(());
        }
        let all = self.with_those_of(id, arrivals)?;
        self.arrivals.insert(id, all)?;
        Ok(())
    }

    /// These arrivals, and those that wait for the exchange of an id.
    fn with_those_of(&self, id: u64, arrivals: BTreeSet<u64>) -> Result<BTreeSet<u64>, AllocError>
        requires { SetIsNotEmpty arrivals }
        ensures members { IfOk result (λ all. SetIsNotEmpty all) }
        ensures all { IfOk result (λ all. (m : ℕ) → contains nat_cmp all m ≡ (contains nat_cmp arrivals m
            || arrival_is_in_wait_index self.now id m)) }
    {
        let mut all = arrivals;
        if let Some(others) = self.arrivals.get(&id) {
            insert_each(&mut all, others)?;
        }
        Ok(all)
    }

    fn insert(&mut self, id: u64, arrival: u64) -> Result<(), AllocError>
        ensures ok { OnOk result (ArrivalIsAddedIfWaiting (staged.Waiting id) arrival self.old self.new) }
        ensures err { OnErr result (WaitIndexesHaveSameMembers self.old self.new) }
        ensures trim { WaitIndexHasNoEmptySet self.old → WaitIndexHasNoEmptySet self.new }
    {
        if self.insert_beside(id, arrival)? {
            return Ok(());
        }
        let mut arrivals = BTreeSet::new(self.alloc);
        arrivals.insert(arrival)?;
        self.arrivals.insert(id, arrivals)?;
        Ok(())
    }

    /// Enters an arrival where others wait for that exchange, and says whether some do.
    fn insert_beside(&mut self, id: u64, arrival: u64) -> Result<bool, AllocError>
        ensures ok { IfOk result (λ has. WaiterIsAddedIfSetExists has id arrival self.old self.new) }
        ensures err { OnErr result (WaitIndexesHaveSameMembers self.old self.new) }
        ensures trim { WaitIndexHasNoEmptySet self.old → WaitIndexHasNoEmptySet self.new }
    {
        match self.arrivals.get_mut(&id) {
            Some(arrivals) => {
                arrivals.insert(arrival)?;
                Ok(true)
            }
            None => Ok(false),
        }
    }

    fn remove(&mut self, id: u64, arrival: u64)
        ensures left { ArrivalIsRemovedIfWaiting (staged.Waiting id) arrival self.old self.new }
        ensures trim { WaitIndexHasNoEmptySet self.old → WaitIndexHasNoEmptySet self.new }
    {
        if self.remove_from_index(id, arrival) {
            self.arrivals.remove(&id);
        }
    }

    /// Takes an arrival out, and says whether it was the last that waited for that exchange.
    fn remove_from_index(&mut self, id: u64, arrival: u64) -> bool
        ensures left { ArrivalIsRemovedIfWaiting (staged.Waiting id) arrival self.old self.new }
        ensures last { OnTrue result ((m : ℕ) → arrival_is_in_wait_index self.new id m ≡ false) }
        ensures trim_beside { WaitIndexHasNoEmptySet self.old → OtherIdsHaveNoEmptyWaiterSet id self.new }
        ensures trim { WaitIndexHasNoEmptySet self.old → OnFalse result (WaitIndexHasNoEmptySet self.new) }
    {
        match self.arrivals.get_mut(&id) {
            Some(arrivals) => {
                arrivals.remove(&arrival);
                arrivals.is_empty()
            }
            None => false,
        }
    }
}

/// Puts each of the others into a set. Where memory runs out some may be in it.
fn insert_each(set: &mut BTreeSet<u64>, others: &BTreeSet<u64>) -> Result<(), AllocError>
    requires { SetIsNotEmpty set.old }
    ensures members { SetIsNotEmpty set.new }
    ensures all { OnOk result ((m : ℕ) → contains nat_cmp set.new m ≡ (contains nat_cmp set.old m
        || contains nat_cmp others.now m)) }
{
    for arrival in others {
        set.insert(*arrival)?;
    }
    Ok(())
}
