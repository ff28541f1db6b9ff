//! The open exchanges, in the order of arrival.
//!
//! Each has the number of its arrival, and a second map tells the number of an id. So one is found,
//! opened and closed in the logarithm of how many are open, and each that a close releases costs
//! that too. The first that may be woken is known: `first_wakeable` costs that logarithm where there
//! is one, and nothing where there is none (see `released`). `leader` looks through the GETs of its
//! key that are at the origin, up to the one that leads, and an invalidation goes through all
//! exchanges of its key. `ready` goes through all of them, as does a purge of more than its target.
ghost use Rattle.std.specs.Prelude.{◌≡◌, ◌<◌, ◌++◌, ◌∷◌, ℕ, [], map, filter, not, ◌==◌, None, Some, IfOk, OnOk, OnErr};
ghost use Rattle.std.specs.Prelude.{◌&&◌, false, length};
ghost use Rattle.std.specs.Prelude.{option_copied, option_map, slice_get, IfSome};
ghost use Rattle.proxy_core.specs.Waiting.{ExchangeMayBeWoken};
ghost use Rattle.std.specs.List.{All};
ghost use Rattle.std.specs.Ordering.{nat_cmp};
ghost use Rattle.std.specs.Map.{remove_entry};
ghost use Rattle.std.specs.Option.{ForNone, ForSome};
ghost use Rattle.std.specs.BTreeMap.{get, keys, values, is_at};
ghost use Rattle.proxy_core.specs.ByKey.{ArrivalsOfGetsAtOriginPassTest, ArrivalIsAddedToItsKeyIndex};
ghost use Rattle.proxy_core.specs.ByKey.{ArrivalIsRemovedFromItsKeyIndex};
ghost use Rattle.proxy_core.specs.ByKey.{ArrivalsByKeyAreUnchanged};
ghost use Rattle.proxy_core.specs.ByKey.{ArrivalIsInNeitherKeyIndex, NoIndexOfArrivalsHasEmptySet};
ghost use Rattle.proxy_core.specs.ByKey.{arrival_is_in_key_index};
ghost use Rattle.proxy_core.specs.ByKey.{ArrivalIsMovedToOrigin};
ghost use Rattle.std.specs.BTreeSet.{contains};
ghost use Rattle.proxy_core.specs.Arrivals.{WaitingArrivalsPassTest, exchanges_each_changed};
ghost use Rattle.proxy_core.specs.Arrivals.{map_exchanges_where_number_passes};
ghost use Rattle.proxy_core.specs.Arrivals.{is_arrival_of_selected};
ghost use Rattle.proxy_core.specs.Waiters.{ArrivalIsAddedIfWaiting, ArrivalIsRemovedIfWaiting};
ghost use Rattle.proxy_core.specs.Waiters.{WaitIndexesHaveSameMembers};
ghost use Rattle.proxy_core.specs.Waiters.{ArrivalIsNotInWaitIndex};
ghost use Rattle.proxy_core.specs.Waiters.{WaitIndexHasNoEmptySet};
ghost use Rattle.proxy_core.specs.Outcomes.{find_exchange};
ghost use Rattle.proxy_core.specs.Leading.{leader, wakeable_ids};
ghost use Rattle.proxy_core.specs.Scopes.{scope_without_tag, scope_of_target_alone};
ghost use Rattle.proxy_core.specs.State.{exchanges_after_end_and_release, exchange_released_from_leader};
ghost use Rattle.proxy_core.specs.State.{exchange_overtaken_if_in_scope};
ghost use Rattle.proxy_core.specs.State.{exchanges_after_exchange_end, exchange_after_second_forward};
ghost use Rattle.proxy_core.specs.State.{exchange_sent_forward_if_of_id};
ghost use Rattle.proxy_core.specs.State.{exchange_after_wait_timeout};
ghost use Rattle.proxy_core.specs.LeadingOn.{next_leader, first_waiter_to_lead as first_of_list, exchanges_without};
ghost use Rattle.proxy_core.specs.LeadingOn.{exchanges_after_abandon};
ghost use Rattle.proxy_core.specs.LeadingOn.{waiter_after_abandon, follows_next_leader as is_follower};

use crate::open::arrivals_by_key::ArrivalsByKey;
use crate::open::as_next_leader::{
    MOST_FOLLOWERS_LED_ON, NextLeader, follows_next_leader, may_become_next_leader,
};
use crate::open::awaited::Awaited;
use crate::open::exchange::Exchange;
use crate::open::ids::Ids;
use crate::open::key_index::ArrivalKeyIndex;
use crate::open::leading::{is_leader_for_request, is_released, is_waiting};
use crate::open::released::Released;
use crate::open::stage::Stage;
use crate::open::wait_index::WaitIndex;
use crate::steps::condition::Condition;
use hx_allow::{PurgeScope, Table};
use hx_hop::Asked;
use hx_policy::Policy;
use hx_reuse::ReuseRule;
use hx_target::Key;
use std::alloc::{AllocError, Global};
use std::collections::{BTreeMap, BTreeSet};
use std::marker::Model;

/// The open exchanges. Contracts see their list.
pub(crate) struct Exchanges {
    /// By the number of the arrival: a later one has a greater number.
    by_arrival: BTreeMap<u64, Exchange>,
    /// The number of each id's arrival.
    arrivals: BTreeMap<u64, u64>,
    /// Those that wait, by the id that they wait for.
    waiting: WaitIndex,
    /// Where the released ones stand.
    released: Released,
    /// All of them, by the key that they ask for: those that may lead apart from the rest.
    by_key: ArrivalsByKey,
}

/// One call drops it, wherever that is.
impl Drop for Exchanges {
    fn drop(self) {
        let Exchanges {
            by_arrival: _,
            arrivals: _,
            waiting: _,
            released: _,
            by_key: _,
        } = self;
    }
}

impl Model for Exchanges {
    ghost use Rattle.std.specs.Prelude.{List};
    ghost use Rattle.std.specs.Ordering.{nat_cmp};
    ghost use Rattle.std.specs.BTreeMap.{get, values};
    ghost use Rattle.proxy_core.specs.declared.open.exchange.Exchange.{Exchange};
    ghost use Rattle.proxy_core.specs.ExchangeIndexes.{ExchangeIndexesAreExact};

    ghost Value = { List Exchange };

    ghost view = { λ x. values x.by_arrival };

    ghost invariant = { λ x. ExchangeIndexesAreExact x.by_arrival.entries (λ id. get nat_cmp x.arrivals id) x.waiting
        x.released x.by_key };
}

impl Exchanges {
    pub(crate) fn new(alloc: Global) -> Self
        ensures { result ≡ [] }
    {
        Exchanges {
            by_arrival: BTreeMap::new(alloc),
            arrivals: BTreeMap::new(alloc),
            waiting: WaitIndex::new(alloc),
            released: Released::new(),
            by_key: ArrivalsByKey::new(alloc),
        }
    }

    /// How many are open.
    pub(crate) fn count(&self) -> usize
        ensures { result ≡ length self.now }
    {
        self.by_arrival.len()
    }

    /// The open exchange of an id.
    pub(crate) fn find(&self, id: u64) -> Option<&Exchange>
        ensures { option_copied result ≡ find_exchange id self.now }
    {
        self.by_arrival.get(self.arrivals.get(&id)?)
    }

    /// Opens an exchange. Where there is no memory for it nothing has changed.
    pub(crate) fn open(&mut self, exchange: Exchange) -> Result<(), AllocError>
        requires { find_exchange exchange.id self.old ≡ None }
        ensures ok { OnOk result (self.new ≡ self.old ++ exchange ∷ []) }
        ensures err { OnErr result (self.new ≡ self.old) }
    {
        let (id, stage) = (exchange.id, exchange.stage);
        let arrival = arrival_after(&self.by_arrival)?;
        self.arrivals.insert(id, arrival)?;
        match enter(
            &mut self.by_arrival,
            &mut self.waiting,
            &mut self.by_key,
            arrival,
            exchange,
        ) {
            Ok(()) => {
                self.released.enter(stage, arrival);
                self.released.settle(&self.by_arrival);
                Ok(())
            }
            Err(error) => {
                self.arrivals.remove(&id);
                Err(error)
            }
        }
    }

    /// The first exchange to arrive for whose answer a GET waits that could be sent this, over a
    /// line of this policy. It looks through the GETs of its key that are at the origin, up to that
    /// one, which mostly is the first of them.
    pub(crate) fn leader(&self, policy: Policy, awaited: Awaited, asked: &Asked) -> Option<u64>
        ensures { result ≡ leader policy awaited asked.now self.now }
    {
        match self.by_key.gets.find(&asked.target.key) {
            Some(arrivals) => first_to_lead(&self.by_arrival, arrivals, policy, awaited, asked),
            None => None,
        }
    }

    /// The first exchange that may be woken. Nothing is allocated.
    pub(crate) fn first_wakeable(&self) -> Option<u64>
        ensures value { result ≡ slice_get (wakeable_ids self.now) 0 }
        ensures ready { IfSome result (λ id. ExchangeMayBeWoken id self.now) }
    {
        Some(self.by_arrival.get(&self.released.first()?)?.id)
    }

    /// Those that may be woken, in the order of arrival. Fails only where memory runs out.
    pub(crate) fn ready(&self, alloc: Global) -> Result<Ids, AllocError>
        ensures { IfOk result (λ ids. ids ≡ wakeable_ids self.now) }
    {
        let mut ids = Ids::new(alloc);
        for (_, x) in &self.by_arrival {
            if is_released(x.stage) {
                ids.push(x.id)?;
            }
        }
        Ok(ids)
    }

    /// The exchange of an id ends, and releases those that wait for it. Gives it. Nothing is allocated.
    pub(crate) fn close(&mut self, id: u64) -> Option<Exchange>
        ensures after { self.new ≡ exchanges_after_end_and_release id self.old }
        ensures taken { result ≡ find_exchange id self.old }
    {
        let taken = self.remove_from_index(id);
        self.release(id);
        taken
    }

    /// The client of the exchange of an id goes away before its answer. The first of those that wait for it and may
    /// lead on may be woken, and those wait for that one that could be sent its answer. Where memory runs out nothing
    /// has changed. It costs one walk over those that wait for it.
    pub(crate) fn abandon(&mut self, config: &Table, id: u64) -> Result<(), AllocError>
        ensures ok { OnOk result (self.new ≡ exchanges_after_abandon config.now id self.old) }
        ensures err { OnErr result (self.new ≡ self.old) }
    {
        match self.next_leader(config, id) {
            Some(next) => {
                self.lead_on(config, next, id)?;
                let _ = self.remove_from_index(id);
            }
            None => {
                let _ = self.close(id);
            }
        }
        Ok(())
    }

    /// The first of those that wait for the exchange of an id that may lead on, where not too many wait.
    fn next_leader(&self, config: &Table, id: u64) -> Option<NextLeader>
        ensures next { result ≡ next_leader config.now id self.now }
        ensures another { IfSome result (λ next. (next.id == id) ≡ false) }
    {
        match self.waiting.find(id) {
            Some(waiting) => {
                if waiting.len() > MOST_FOLLOWERS_LED_ON {
                    return None;
                }
                first_waiter_to_lead(&self.by_arrival, waiting, config, id)
            }
            None => None,
        }
    }

    /// Those that wait for the exchange of an id wait for the next leader, or no longer. Where memory runs out nothing
    /// has changed.
    fn lead_on(&mut self, config: &Table, next: NextLeader, id: u64) -> Result<(), AllocError>
        requires { (next.id == id) ≡ false }
        ensures ok { OnOk result (self.new ≡ map (waiter_after_abandon config.now (Some next) id) self.old) }
        ensures err { OnErr result (self.new ≡ self.old) }
    {
        let alloc = self.waiting.alloc;
        let followers = match self.waiting.find(id) {
            Some(waiting) => followers(alloc, &self.by_arrival, waiting, config, next)?,
            None => return Ok(()),
        };
        self.waiting.enter_all(next.id, followers)?;
        if let Some(waiting) = self.waiting.take(id) {
            lead_each_on(&mut self.by_arrival, &waiting, config, next, id);
            self.released.enter_all(&waiting);
            self.released.settle(&self.by_arrival);
        }
        Ok(())
    }

    /// Takes the exchange of an id out.
    fn remove_from_index(&mut self, id: u64) -> Option<Exchange>
        ensures after { self.new ≡ filter (λ x. not (x.id == id)) self.old }
        ensures taken { result ≡ find_exchange id self.old }
    {
        let arrival = self.arrivals.remove(&id)?;
        let taken = remove(
            &mut self.by_arrival,
            &mut self.waiting,
            &mut self.by_key,
            arrival,
        );
        self.released.settle(&self.by_arrival);
        taken
    }

    /// Those that wait for the exchange of an id wait no longer.
    fn release(&mut self, leader: u64)
        ensures { self.new ≡ map (exchange_released_from_leader leader) self.old }
    {
        if let Some(waiting) = self.waiting.take(leader) {
            release_each(&mut self.by_arrival, &waiting, leader);
            self.released.enter_all(&waiting);
            self.released.settle(&self.by_arrival);
        }
    }

    /// The exchange of an id waits no longer, if it waits. Nothing is allocated.
    pub(crate) fn end_wait_on_timeout(&mut self, id: u64)
        ensures { self.new ≡ map (exchange_after_wait_timeout id) self.old }
    {
        let Some(arrival) = self.arrivals.get(&id) else {
            return;
        };
        let Some(x) = self.by_arrival.get_mut(arrival) else {
            return;
        };
        if is_waiting(x.stage) {
            self.waiting.remove_arrival(x.stage, *arrival);
            x.stop_waiting();
            self.released.enter(Stage::Released, *arrival);
            self.released.settle(&self.by_arrival);
        }
    }

    /// The exchange of an id goes forward once more, in its place. Where memory runs out nothing has changed.
    pub(crate) fn go_forward(&mut self, id: u64, now: u64) -> Result<(), AllocError>
        ensures ok { OnOk result (self.new ≡ map (exchange_after_second_forward id now) self.old) }
        ensures err { OnErr result (self.new ≡ self.old) }
    {
        let Some(arrival) = self.arrivals.get(&id) else {
            return Ok(());
        };
        let Some(x) = self.by_arrival.get_mut(arrival) else {
            return Ok(());
        };
        leave_for_origin(&mut self.waiting, &mut self.by_key, *arrival, x)?;
        let (rule, named) = (x.rule, x.named);
        x.go_forward(now, rule, named, None);
        self.released.settle(&self.by_arrival);
        Ok(())
    }

    /// The exchange of an id goes forward in its place, with this rule, the held response that it names, and these
    /// conditions. Where memory runs out nothing has changed.
    pub(crate) fn send_forward(
        &mut self,
        id: u64,
        now: u64,
        rule: ReuseRule,
        named: Option<u64>,
        condition: Option<Condition>,
    ) -> Result<(), AllocError>
        ensures ok { OnOk result
            (self.new ≡ map (exchange_sent_forward_if_of_id id now rule named condition) self.old) }
        ensures err { OnErr result (self.new ≡ self.old) }
    {
        let Some(arrival) = self.arrivals.get(&id) else {
            return Ok(());
        };
        let Some(x) = self.by_arrival.get_mut(arrival) else {
            return Ok(());
        };
        leave_for_origin(&mut self.waiting, &mut self.by_key, *arrival, x)?;
        x.go_forward(now, rule, named, condition);
        self.released.settle(&self.by_arrival);
        Ok(())
    }

    /// The exchange of an id ends, and the others of an invalidated key are overtaken. Gives it. Nothing is allocated.
    pub(crate) fn end_exchange(&mut self, id: u64, invalidated: Option<&Key>) -> Option<Exchange>
        ensures after { self.new
            ≡ exchanges_after_exchange_end
            (option_map scope_of_target_alone (option_copied invalidated.entry)) id self.old }
        ensures taken { result ≡ find_exchange id self.old }
    {
        let taken = self.close(id);
        match invalidated {
            Some(key) => self.overtake(key),
            None => {}
        }
        taken
    }

    /// Marks each exchange of a key that was invalidated or purged. It goes through those alone.
    pub(crate) fn overtake(&mut self, key: &Key)
        ensures { self.new ≡ map (exchange_overtaken_if_in_scope (scope_of_target_alone key.now)) self.old }
    {
        overtake_indexed(&mut self.by_arrival, &self.by_key.gets, key);
        overtake_indexed(&mut self.by_arrival, &self.by_key.others, key);
        self.released.settle(&self.by_arrival);
    }

    /// Marks each exchange within the scope of a purge that was asked for a key. For one target it goes through the
    /// exchanges of that key alone, else through all that are open.
    pub(crate) fn overtake_within(&mut self, reach: PurgeScope, asked: &Key)
        ensures { self.new ≡ map (exchange_overtaken_if_in_scope (scope_without_tag reach asked.now)) self.old }
    {
        match reach {
            PurgeScope::Target => self.overtake(asked),
            PurgeScope::Prefix | PurgeScope::Host | PurgeScope::All => {
                self.overtake_all(reach, asked)
            }
        }
    }

    fn overtake_all(&mut self, reach: PurgeScope, asked: &Key)
        ensures { self.new ≡ map (exchange_overtaken_if_in_scope (scope_without_tag reach asked.now)) self.old }
    {
        overtake_each_within(&mut self.by_arrival, reach, asked);
        self.released.settle(&self.by_arrival);
    }
}

/// The number of the next arrival: one more than that of the last exchange. Where there is none left, that counts as
/// out of memory: 2^64 exchanges would have to arrive and at no time all be closed.
fn arrival_after(by_arrival: &BTreeMap<u64, Exchange>) -> Result<u64, AllocError>
    ensures { IfOk result (λ n. All (λ k. k < n) (keys by_arrival.now)) }
{
    match by_arrival.last_key_value() {
        Some((last, _)) => last.checked_add(1).ok_or(AllocError),
        None => Ok(0),
    }
}

/// Puts an exchange behind the others, and into the index of keys. Out of memory changes nothing.
fn push(
    by_arrival: &mut BTreeMap<u64, Exchange>,
    by_key: &mut ArrivalsByKey,
    arrival: u64,
    exchange: Exchange,
) -> Result<(), AllocError>
    requires last { All (λ k. k < arrival) (keys by_arrival.old) }
    requires asks_not { ArrivalIsInNeitherKeyIndex arrival by_key.old }
    ensures ok { OnOk result (by_arrival.new.entries ≡ by_arrival.old.entries ++ (arrival, exchange) ∷ []) }
    ensures entered { OnOk result (ArrivalIsAddedToItsKeyIndex exchange arrival by_key.old by_key.new) }
    ensures err { OnErr result (by_arrival.new.entries ≡ by_arrival.old.entries) }
    ensures left { OnErr result (ArrivalsByKeyAreUnchanged by_key.old by_key.new) }
    ensures trim { NoIndexOfArrivalsHasEmptySet by_key.old → NoIndexOfArrivalsHasEmptySet by_key.new }
{
    by_key.enter(&exchange, arrival)?;
    match by_arrival.insert(arrival, exchange) {
        Ok(_) => Ok(()),
        Err(refused) => {
            let (_, exchange) = refused.value;
            by_key.remove_arrival(&exchange, arrival);
            Err(AllocError)
        }
    }
}

/// Puts an exchange behind the others, and into the indexes of keys and of those that wait. Out of memory changes
/// nothing.
fn enter(
    by_arrival: &mut BTreeMap<u64, Exchange>,
    waiting: &mut WaitIndex,
    by_key: &mut ArrivalsByKey,
    arrival: u64,
    exchange: Exchange,
) -> Result<(), AllocError>
    requires last { All (λ k. k < arrival) (keys by_arrival.old) }
    requires waits_not { ArrivalIsNotInWaitIndex arrival waiting.old }
    requires asks_not { ArrivalIsInNeitherKeyIndex arrival by_key.old }
    ensures ok { OnOk result (by_arrival.new.entries ≡ by_arrival.old.entries ++ (arrival, exchange) ∷ []) }
    ensures entered { OnOk result (ArrivalIsAddedIfWaiting exchange.stage arrival waiting.old waiting.new) }
    ensures asks { OnOk result (ArrivalIsAddedToItsKeyIndex exchange arrival by_key.old by_key.new) }
    ensures err { OnErr result (by_arrival.new.entries ≡ by_arrival.old.entries) }
    ensures left { OnErr result (WaitIndexesHaveSameMembers waiting.old waiting.new) }
    ensures asks_no_more { OnErr result (ArrivalsByKeyAreUnchanged by_key.old by_key.new) }
    ensures no_empty_waiter_sets { WaitIndexHasNoEmptySet waiting.old → WaitIndexHasNoEmptySet waiting.new }
    ensures no_empty_keys { NoIndexOfArrivalsHasEmptySet by_key.old → NoIndexOfArrivalsHasEmptySet by_key.new }
{
    let stage = exchange.stage;
    waiting.enter(stage, arrival)?;
    match push(by_arrival, by_key, arrival, exchange) {
        Ok(()) => Ok(()),
        Err(error) => {
            waiting.remove_arrival(stage, arrival);
            Err(error)
        }
    }
}

/// The exchange of an arrival is about to go forward: it leaves those that wait, and comes among those at the origin.
/// Out of memory changes nothing.
fn leave_for_origin(
    waiting: &mut WaitIndex,
    by_key: &mut ArrivalsByKey,
    arrival: u64,
    exchange: &Exchange,
) -> Result<(), AllocError>
    ensures left { OnOk result (ArrivalIsRemovedIfWaiting exchange.now.stage arrival waiting.old waiting.new) }
    ensures asks { OnOk result (ArrivalIsMovedToOrigin exchange.now arrival by_key.old by_key.new) }
    ensures waits_still { OnErr result (WaitIndexesHaveSameMembers waiting.old waiting.new) }
    ensures asks_still { OnErr result (ArrivalsByKeyAreUnchanged by_key.old by_key.new) }
    ensures no_empty_waiter_sets { WaitIndexHasNoEmptySet waiting.old → WaitIndexHasNoEmptySet waiting.new }
    ensures no_empty_keys { NoIndexOfArrivalsHasEmptySet by_key.old → NoIndexOfArrivalsHasEmptySet by_key.new }
{
    by_key.move_to_origin(exchange, arrival)?;
    waiting.remove_arrival(exchange.stage, arrival);
    Ok(())
}

/// Takes the exchange of an arrival out, also of the indexes of keys and of those that wait. Gives it.
fn remove(
    by_arrival: &mut BTreeMap<u64, Exchange>,
    waiting: &mut WaitIndex,
    by_key: &mut ArrivalsByKey,
    arrival: u64,
) -> Option<Exchange>
    ensures taken { result ≡ get nat_cmp by_arrival.old arrival }
    ensures entries { by_arrival.new.entries ≡ remove_entry (is_at (nat_cmp arrival)) by_arrival.old.entries }
    ensures left { ForSome (get nat_cmp by_arrival.old arrival)
        (λ x. ArrivalIsRemovedIfWaiting x.stage arrival waiting.old waiting.new) }
    ensures asks_no_more { ForSome (get nat_cmp by_arrival.old arrival)
        (λ x. ArrivalIsRemovedFromItsKeyIndex x arrival by_key.old by_key.new) }
    ensures waits_still { ForNone (get nat_cmp by_arrival.old arrival)
        (WaitIndexesHaveSameMembers waiting.old waiting.new) }
    ensures asks_still { ForNone (get nat_cmp by_arrival.old arrival)
        (ArrivalsByKeyAreUnchanged by_key.old by_key.new) }
    ensures no_empty_waiter_sets { WaitIndexHasNoEmptySet waiting.old → WaitIndexHasNoEmptySet waiting.new }
    ensures no_empty_keys { NoIndexOfArrivalsHasEmptySet by_key.old → NoIndexOfArrivalsHasEmptySet by_key.new }
{
    let taken = by_arrival.remove(&arrival)?;
    waiting.remove_arrival(taken.stage, arrival);
    by_key.remove_arrival(&taken, arrival);
    Some(taken)
}

/// The first of these arrivals, among which all GETs of a key are that are at the origin, that others wait for.
fn first_to_lead(
    by_arrival: &BTreeMap<u64, Exchange>,
    arrivals: &BTreeSet<u64>,
    policy: Policy,
    awaited: Awaited,
    asked: &Asked,
) -> Option<u64>
    requires { ArrivalsOfGetsAtOriginPassTest asked.now.target.key
        (contains nat_cmp arrivals.now) by_arrival.now.entries }
    ensures { result ≡ leader policy awaited asked.now (values by_arrival.now) }
{
    // It is said of the length that the numbers ascend.
    let _open = by_arrival.len();
    for arrival in arrivals {
        if let Some(x) = by_arrival.get(arrival) {
            if is_leader_for_request(x, policy, awaited, asked) {
                return Some(x.id);
            }
        }
    }
    None
}

/// Releases those of these arrivals that wait for the exchange of an id.
fn release_each(by_arrival: &mut BTreeMap<u64, Exchange>, waiting: &BTreeSet<u64>, leader: u64)
    requires { WaitingArrivalsPassTest leader (contains nat_cmp waiting.now) by_arrival.old.entries }
    ensures { by_arrival.new.entries
        ≡ exchanges_each_changed (exchange_released_from_leader leader) by_arrival.old.entries }
{
    for arrival in waiting {
        if let Some(x) = by_arrival.get_mut(arrival) {
            x.release(leader);
        }
    }
}

/// The first of these arrivals, among which all are that wait for the exchange of an id, that may lead on.
fn first_waiter_to_lead(
    by_arrival: &BTreeMap<u64, Exchange>,
    waiting: &BTreeSet<u64>,
    config: &Table,
    id: u64,
) -> Option<NextLeader>
    requires { WaitingArrivalsPassTest id (contains nat_cmp waiting.now) by_arrival.now.entries }
    ensures next { result ≡ first_of_list config.now id (exchanges_without id (values by_arrival.now)) }
    ensures another { IfSome result (λ next. (next.id == id) ≡ false) }
{
    // It is said of the length that the numbers ascend.
    let _open = by_arrival.len();
    for arrival in waiting {
        if let Some(x) = by_arrival.get(arrival) {
            if may_become_next_leader(config, id, x) {
                return Some(NextLeader::of(x));
            }
        }
    }
    None
}

/// Those of these arrivals whose exchanges could be sent the answer to the next leader.
fn followers(
    alloc: Global,
    by_arrival: &BTreeMap<u64, Exchange>,
    waiting: &BTreeSet<u64>,
    config: &Table,
    next: NextLeader,
) -> Result<BTreeSet<u64>, AllocError>
    ensures { IfOk result (λ set. (n : ℕ) → contains nat_cmp set n ≡ (contains nat_cmp waiting.now n
        && is_arrival_of_selected (is_follower config.now next) by_arrival.now.entries n)) }
{
    let mut set = BTreeSet::new(alloc);
    for arrival in waiting {
        if let Some(x) = by_arrival.get(arrival) {
            if follows_next_leader(config, next, x) {
                set.insert(*arrival)?;
            }
        }
    }
    Ok(set)
}

/// Leads on those of these arrivals that wait for the exchange of an id.
fn lead_each_on(
    by_arrival: &mut BTreeMap<u64, Exchange>,
    waiting: &BTreeSet<u64>,
    config: &Table,
    next: NextLeader,
    leader: u64,
)
    requires waits { WaitingArrivalsPassTest leader (contains nat_cmp waiting.now) by_arrival.old.entries }
    requires another { (next.id == leader) ≡ false }
    ensures { by_arrival.new.entries
        ≡ exchanges_each_changed (waiter_after_abandon config.now (Some next) leader) by_arrival.old.entries }
{
    for arrival in waiting {
        if let Some(x) = by_arrival.get_mut(arrival) {
            x.lead_on(config, next, leader);
        }
    }
}

/// Marks those of a key that an index tells.
fn overtake_indexed(by_arrival: &mut BTreeMap<u64, Exchange>, index: &ArrivalKeyIndex, key: &Key)
    ensures { by_arrival.new.entries ≡ map_exchanges_where_number_passes (arrival_is_in_key_index index.now key.now)
        (exchange_overtaken_if_in_scope (scope_of_target_alone key.now))
        by_arrival.old.entries }
{
    if let Some(arrivals) = index.find(key) {
        overtake_each(by_arrival, arrivals, key);
    }
}

/// Marks those of these arrivals that are of a key.
fn overtake_each(by_arrival: &mut BTreeMap<u64, Exchange>, arrivals: &BTreeSet<u64>, key: &Key)
    ensures { by_arrival.new.entries ≡ map_exchanges_where_number_passes (contains nat_cmp arrivals.now)
        (exchange_overtaken_if_in_scope (scope_of_target_alone key.now))
        by_arrival.old.entries }
{
    for arrival in arrivals {
        if let Some(x) = by_arrival.get_mut(arrival) {
            x.overtake(key);
        }
    }
}

/// Marks those within the scope of a purge that was asked for a key.
fn overtake_each_within(by_arrival: &mut BTreeMap<u64, Exchange>, reach: PurgeScope, asked: &Key)
    ensures { by_arrival.new.entries
        ≡ exchanges_each_changed
        (exchange_overtaken_if_in_scope (scope_without_tag reach asked.now)) by_arrival.old.entries }
{
    // All are retained: the contract of `retain` says what is written to each.
    by_arrival.retain(|_, x| {
        x.overtake_within(reach, asked);
        true
    });
}
