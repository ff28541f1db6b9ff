//! Which arrivals ask for which key: the GETs at the origin, of which one may lead, apart from all others.
//!
//! So no crowd of those that wait, or of other requests, stands between a GET and its leader. A call costs the
//! logarithm of how many are open.
ghost use Rattle.std.specs.Prelude.{◌≡◌, OnOk, OnErr};
ghost use Rattle.proxy_core.specs.ByKey.{ArrivalIsAddedToItsKeyIndex, ArrivalIsRemovedFromItsKeyIndex};
ghost use Rattle.proxy_core.specs.ByKey.{ArrivalsByKeyAreUnchanged};
ghost use Rattle.proxy_core.specs.ByKey.{NoIndexOfArrivalsHasEmptySet};
ghost use Rattle.proxy_core.specs.ByKey.{IsEmptyKeyIndex, ArrivalIsMovedToOrigin};
ghost use Rattle.proxy_core.specs.ByKey.{is_get_at_origin, is_get_not_at_origin};

use crate::open::exchange::Exchange;
use crate::open::key_index::ArrivalKeyIndex;
use crate::open::leading::{is_forwarded, is_get};
use std::alloc::{AllocError, Global};

/// The numbers of the arrivals, by the key that they ask for.
pub(crate) struct ArrivalsByKey {
    /// Those of the GETs that are at the origin.
    pub(crate) gets: ArrivalKeyIndex,
    /// Those of other methods, and of the GETs that wait or were released.
    pub(crate) others: ArrivalKeyIndex,
}

/// One call drops it, wherever that is.
impl Drop for ArrivalsByKey {
    fn drop(self) {
        let ArrivalsByKey { gets: _, others: _ } = self;
    }
}

impl ArrivalsByKey {
    /// No arrivals.
    pub(crate) fn new(alloc: Global) -> Self
        ensures no_gets { IsEmptyKeyIndex result.gets }
        ensures no_others { IsEmptyKeyIndex result.others }
        ensures trim { NoIndexOfArrivalsHasEmptySet result }
    {
        ArrivalsByKey {
            gets: ArrivalKeyIndex::new(alloc),
            others: ArrivalKeyIndex::new(alloc),
        }
    }

    /// Enters the arrival of an exchange. Out of memory changes nothing.
    pub(crate) fn enter(&mut self, exchange: &Exchange, arrival: u64) -> Result<(), AllocError>
        ensures ok { OnOk result (ArrivalIsAddedToItsKeyIndex exchange.now arrival self.old self.new) }
        ensures err { OnErr result (ArrivalsByKeyAreUnchanged self.old self.new) }
        ensures trim { NoIndexOfArrivalsHasEmptySet self.old → NoIndexOfArrivalsHasEmptySet self.new }
    {
        if is_get_at_origin(exchange) {
            self.gets.insert(&exchange.asked.target.key, arrival)
        } else {
            self.others.insert(&exchange.asked.target.key, arrival)
        }
    }

    /// The exchange of an arrival is about to go forward. Out of memory changes nothing.
    pub(crate) fn move_to_origin(
        &mut self,
        exchange: &Exchange,
        arrival: u64,
    ) -> Result<(), AllocError>
        ensures ok { OnOk result (ArrivalIsMovedToOrigin exchange.now arrival self.old self.new) }
        ensures err { OnErr result (ArrivalsByKeyAreUnchanged self.old self.new) }
        ensures trim { NoIndexOfArrivalsHasEmptySet self.old → NoIndexOfArrivalsHasEmptySet self.new }
    {
        if !is_get_not_at_origin(exchange) {
            return Ok(());
        }
        let key = &exchange.asked.target.key;
        self.gets.insert(key, arrival)?;
        self.others.remove(key, arrival);
        Ok(())
    }

    /// Takes the arrival of an exchange out. Nothing is allocated.
    pub(crate) fn remove_arrival(&mut self, exchange: &Exchange, arrival: u64)
        ensures left { ArrivalIsRemovedFromItsKeyIndex exchange.now arrival self.old self.new }
        ensures trim { NoIndexOfArrivalsHasEmptySet self.old → NoIndexOfArrivalsHasEmptySet self.new }
    {
        if is_get_at_origin(exchange) {
            self.gets.remove(&exchange.asked.target.key, arrival);
        } else {
            self.others.remove(&exchange.asked.target.key, arrival);
        }
    }
}

fn is_get_at_origin(exchange: &Exchange) -> bool
    ensures { result ≡ is_get_at_origin exchange.now }
{
    is_get(&exchange.asked) && is_forwarded(exchange.stage)
}

fn is_get_not_at_origin(exchange: &Exchange) -> bool
    ensures { result ≡ is_get_not_at_origin exchange.now }
{
    is_get(&exchange.asked) && !is_forwarded(exchange.stage)
}
