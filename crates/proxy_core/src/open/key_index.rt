//! Which arrivals ask for which key.
//!
//! A call costs the logarithm of how many are open.
ghost use Rattle.std.specs.Prelude.{◌≡◌, ℕ, false, IfOk, OnOk, OnErr, option_copied};
ghost use Rattle.std.specs.Bool.{OnFalse, OnTrue};
ghost use Rattle.std.specs.BTreeMap.{get};
ghost use Rattle.hx_target.specs.KeyOrder.{key_cmp};
ghost use Rattle.proxy_core.specs.ByKey.{arrival_is_in_key_index, IsEmptyKeyIndex, ArrivalIsAddedAtKey};
ghost use Rattle.proxy_core.specs.ByKey.{ArrivalIsAddedIfKeyIsIndexed};
ghost use Rattle.proxy_core.specs.ByKey.{ArrivalIsRemovedAtKey, KeyIndexesHaveSameMembers, KeyIndexHasNoEmptySet};
ghost use Rattle.proxy_core.specs.ByKey.{OtherKeysHaveNoEmptySet};

use hx_target::Key;
use std::alloc::{AllocError, Global};
use std::collections::{BTreeMap, BTreeSet};

/// The numbers of arrivals, by the key that they ask for, of which none stands there without an arrival.
pub(crate) struct ArrivalKeyIndex {
    alloc: Global,
    arrivals: BTreeMap<Key, BTreeSet<u64>>,
}

/// One call drops it, wherever that is.
impl Drop for ArrivalKeyIndex {
    fn drop(self) {
        let ArrivalKeyIndex {
            alloc: _,
            arrivals: _,
        } = self;
    }
}

impl ArrivalKeyIndex {
    /// No arrivals.
    pub(crate) fn new(alloc: Global) -> Self
        ensures none { IsEmptyKeyIndex result }
        ensures trim { KeyIndexHasNoEmptySet result }
    {
        ArrivalKeyIndex {
            alloc,
            arrivals: BTreeMap::new(alloc),
        }
    }

    /// The arrivals for a key.
    pub(crate) fn find(&self, key: &Key) -> Option<&BTreeSet<u64>>
        ensures { option_copied result ≡ get key_cmp self.now.arrivals key.now }
    {
        self.arrivals.get(key)
    }

    /// Enters an arrival at a key. Out of memory changes nothing.
    pub(crate) fn insert(&mut self, key: &Key, arrival: u64) -> Result<(), AllocError>
        ensures ok { OnOk result (ArrivalIsAddedAtKey key.now arrival self.old self.new) }
        ensures err { OnErr result (KeyIndexesHaveSameMembers self.old self.new) }
        ensures trim { KeyIndexHasNoEmptySet self.old → KeyIndexHasNoEmptySet self.new }
    {
        if self.insert_beside(key, arrival)? {
            return Ok(());
        }
        let mut arrivals = BTreeSet::new(self.alloc);
        arrivals.insert(arrival)?;
        self.arrivals.insert(key.copy(self.alloc)?, arrivals)?;
        Ok(())
    }

    /// Enters an arrival where others ask for that key, and says whether some do.
    fn insert_beside(&mut self, key: &Key, arrival: u64) -> Result<bool, AllocError>
        ensures ok { IfOk result (λ has. ArrivalIsAddedIfKeyIsIndexed has key.now arrival self.old self.new) }
        ensures err { OnErr result (KeyIndexesHaveSameMembers self.old self.new) }
        ensures trim { KeyIndexHasNoEmptySet self.old → KeyIndexHasNoEmptySet self.new }
    {
        match self.arrivals.get_mut(key) {
            Some(arrivals) => {
                arrivals.insert(arrival)?;
                Ok(true)
            }
            None => Ok(false),
        }
    }

    /// Takes an arrival out at a key. Nothing is allocated.
    pub(crate) fn remove(&mut self, key: &Key, arrival: u64)
        ensures taken { ArrivalIsRemovedAtKey key.now arrival self.old self.new }
        ensures trim { KeyIndexHasNoEmptySet self.old → KeyIndexHasNoEmptySet self.new }
    {
        if self.remove_from_index(key, arrival) {
            self.arrivals.remove(key);
        }
    }

    /// Takes an arrival out, and says whether it was the last that asked for that key.
    fn remove_from_index(&mut self, key: &Key, arrival: u64) -> bool
        ensures taken { ArrivalIsRemovedAtKey key.now arrival self.old self.new }
        ensures last { OnTrue result ((m : ℕ) → arrival_is_in_key_index self.new key.now m ≡ false) }
        ensures trim_beside { KeyIndexHasNoEmptySet self.old → OtherKeysHaveNoEmptySet key.now self.new }
        ensures trim { KeyIndexHasNoEmptySet self.old → OnFalse result (KeyIndexHasNoEmptySet self.new) }
    {
        match self.arrivals.get_mut(key) {
            Some(arrivals) => {
                arrivals.remove(&arrival);
                arrivals.is_empty()
            }
            None => false,
        }
    }
}
