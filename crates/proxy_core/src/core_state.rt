//! The core: the operator's table, a shelf, the open exchanges and the next serial.
ghost use Rattle.std.specs.Prelude.{◌≡◌, ◌≤◌, [], length, None, Some, IfOk, IfErr, OnErr, OnOk};
ghost use Rattle.std.specs.Prelude.{option_copied, slice_get};
ghost use Rattle.std.specs.Prelude.{IfSome};
ghost use Rattle.hx_framing.specs.declared.messages.Response.{Response};
ghost use Rattle.hx_status.specs.declared.cause.FailKind.{FailKind};
ghost use Rattle.proxy_core.specs.Moments.{moment_too_late_fault};
ghost use Rattle.proxy_core.specs.Waiting.{ExchangeMayBeWoken};
ghost use Rattle.proxy_core.specs.Leading.{wakeable_ids};
ghost use Rattle.proxy_core.specs.Outcomes.{find_exchange, step_fault, fault_if_not_forwarded, fault_if_not_released};
ghost use Rattle.proxy_core.specs.Outcomes.{fault_of_exchange_or_moment, fault_if_not_waiting};
ghost use Rattle.proxy_core.specs.declared.event.Event.TheVariants.{Abandon, Answer, Fail, Overdue, Wake};
ghost use Rattle.proxy_core.specs.State.{State, StepIsAccepted, StepIsRefusedWith, bounds_of};
ghost use Rattle.proxy_core.specs.Starts.{StoreAtStartIsValid};
ghost use Rattle.proxy_core.specs.Traces.{initial_state};

use crate::core_fault::CoreFault;
use crate::event::Event;
use crate::moments::fault_if_moment_too_late;
use crate::open::exchange::Exchange;
use crate::open::exchanges::Exchanges;
use crate::open::ids::Ids;
use crate::open::leading::{is_forwarded, is_released, is_waiting};
use crate::open::stage::Stage;
use crate::outcome::Outcome;
use hx_allow::Table;
use hx_store::Shelf;
use std::alloc::{AllocError, Global};
use std::marker::Model;

/// The fault of an answer or a failure where no origin was asked.
fn fault_if_not_forwarded(stage: Stage) -> Option<CoreFault>
    ensures { result ≡ fault_if_not_forwarded stage }
{
    if is_forwarded(stage) {
        None
    } else {
        Some(CoreFault::NotForwarded)
    }
}

/// The fault of a wake where nothing waits, or what it waits for is open.
fn fault_if_not_released(stage: Stage) -> Option<CoreFault>
    ensures { result ≡ fault_if_not_released stage }
{
    if is_released(stage) {
        None
    } else {
        Some(CoreFault::NotReady)
    }
}

/// The fault of a time that is over where nothing waits for another's answer.
fn fault_if_not_waiting(stage: Stage) -> Option<CoreFault>
    ensures { result ≡ fault_if_not_waiting stage }
{
    if is_waiting(stage) {
        None
    } else {
        Some(CoreFault::NotWaiting)
    }
}

/// One thread's proxy. Contracts see its `State`.
pub struct Core<S: Shelf> {
    pub(crate) config: Table,
    pub(crate) shelf: S,
    pub(crate) exchanges: Exchanges,
    pub(crate) next: Option<u64>,
}

/// One call drops it, wherever that is.
impl<S: Shelf + Drop> Drop for Core<S> {
    fn drop(self) {
        let Core {
            config: _,
            shelf: _,
            exchanges: _,
            next: _,
        } = self;
    }
}

impl<S: Shelf> Model for Core<S> {
    ghost use Rattle.proxy_core.specs.State.{State, NoSerialIsHeldFrom};

    ghost Value = { State };

    ghost view = { λ c. record {
      table = c.config;
      limit = S.limit c.shelf;
      entries = S.entries c.shelf;
      exchanges = c.exchanges;
      next = c.next;
    } };

    ghost invariant = { λ c. NoSerialIsHeldFrom c.next (S.entries c.shelf) };
}

impl<S: Shelf> Core<S> {
    /// A core with an empty shelf of the configured capacity. Serials begin at `first_serial`, 1 or more.
    #[tactic(auto, using(crate::proofs::Beginning::nothing_stands))]
    pub fn new(alloc: Global, config: Table, shelf: S, first_serial: u64) -> Self
        requires { S.entries shelf ≡ [] }
        ensures { result
            ≡ record { table = config; limit = S.limit shelf; entries = []; exchanges = []; next = Some first_serial } }
    {
        Core::with_store(alloc, config, shelf, first_serial)
    }

    /// A core over a shelf of the configured capacity that holds what a store held before: no serial twice, each below
    /// `first_serial`, from which the serials go on, and within the bounds of the shelf and of the table's `max_store`.
    pub fn with_store(alloc: Global, config: Table, shelf: S, first_serial: u64) -> Self
        requires { StoreAtStartIsValid (bounds_of config (S.limit shelf)) (Some first_serial) (S.entries shelf) }
        ensures { result
            ≡ initial_state config (record { limit = S.limit shelf; entries = S.entries shelf }) first_serial }
    {
        Core {
            config,
            shelf,
            exchanges: Exchanges::new(alloc),
            next: Some(first_serial),
        }
    }

    /// The shelf with what it holds, and the next serial if one is left: what another core may begin with, where no
    /// exchange is open.
    pub fn into_shelf_and_next_serial(self) -> (S, Option<u64>)
        ensures entries { S.entries result.0 ≡ self.entries }
        ensures limit { S.limit result.0 ≡ self.limit }
        ensures next { result.1 ≡ self.next }
    {
        let Core {
            config: _,
            shelf,
            exchanges: _,
            next,
        } = self;
        (shelf, next)
    }

    /// The operator's table, as `new` was given it.
    pub fn config(&self) -> &Table
        ensures { result.now ≡ self.now.table }
    {
        &self.config
    }

    /// How many exchanges are open.
    pub fn open_count(&self) -> usize
        ensures { result ≡ length self.now.exchanges }
    {
        self.exchanges.count()
    }

    /// The open exchange of an id, if there is one.
    pub fn exchange(&self, id: u64) -> Option<&Exchange>
        ensures { option_copied result ≡ find_exchange id self.now.exchanges }
    {
        self.exchanges.find(id)
    }

    /// The exchanges that waited and may be woken, in the order of arrival. Fails only where memory runs out.
    pub fn ready(&self, alloc: Global) -> Result<Ids, AllocError>
        ensures { IfOk result (λ ids. ids ≡ wakeable_ids self.now.exchanges) }
    {
        self.exchanges.ready(alloc)
    }

    /// The first exchange that waited and may be woken. Nothing is allocated.
    pub fn first_wakeable(&self) -> Option<u64>
        ensures value { result ≡ slice_get (wakeable_ids self.now.exchanges) 0 }
        ensures ready { IfSome result (λ id. ExchangeMayBeWoken id self.now.exchanges) }
    {
        self.exchanges.first_wakeable()
    }

    /// The open exchange of an id, for an event at a moment; else the first fault against any.
    fn exchange_at(&self, now: u64, id: u64) -> Result<&Exchange, CoreFault>
        ensures found { IfOk result (λ x. find_exchange id self.now.exchanges ≡ Some x.now) }
        ensures moment { OnOk result (moment_too_late_fault now ≡ None) }
        ensures err { IfErr result
            (λ fault. fault_of_exchange_or_moment (find_exchange id self.now.exchanges) now ≡ Some fault) }
    {
        let Some(x) = self.exchanges.find(id) else {
            return Err(CoreFault::UnknownId);
        };
        match fault_if_moment_too_late(now) {
            None => Ok(x),
            Some(fault) => Err(fault),
        }
    }

    /// The open exchange to which an answer or a failure comes; else the first fault against it.
    pub(crate) fn exchange_at_origin(&self, now: u64, id: u64) -> Result<&Exchange, CoreFault>
        ensures found { IfOk result (λ x. find_exchange id self.now.exchanges ≡ Some x.now) }
        ensures moment { OnOk result (moment_too_late_fault now ≡ None) }
        ensures forwarded { IfOk result (λ x. fault_if_not_forwarded x.now.stage ≡ None) }
        ensures err { IfErr result (λ fault. (kind : FailKind) → step_fault self.now.exchanges (Fail now id kind)
            ≡ Some fault) }
        ensures err_of_answer { IfErr result (λ fault. (response : Response)
            → step_fault self.now.exchanges (Answer now id response) ≡ Some fault) }
    {
        let x = self.exchange_at(now, id)?;
        match fault_if_not_forwarded(x.stage) {
            None => Ok(x),
            Some(fault) => Err(fault),
        }
    }

    /// The open exchange that is woken; else the first fault against it.
    pub(crate) fn exchange_to_wake(&self, now: u64, id: u64) -> Result<&Exchange, CoreFault>
        ensures found { IfOk result (λ x. find_exchange id self.now.exchanges ≡ Some x.now) }
        ensures moment { OnOk result (moment_too_late_fault now ≡ None) }
        ensures released { IfOk result (λ x. fault_if_not_released x.now.stage ≡ None) }
        ensures err { IfErr result (λ fault. step_fault self.now.exchanges (Wake now id) ≡ Some fault) }
    {
        let x = self.exchange_at(now, id)?;
        match fault_if_not_released(x.stage) {
            None => Ok(x),
            Some(fault) => Err(fault),
        }
    }

    /// The least fault that stands at an event, out of memory aside.
    pub fn fault(&self, event: &Event) -> Option<CoreFault>
        ensures { result ≡ step_fault self.now.exchanges event.now }
    {
        match event {
            Event::Arrive(now, id, _) => match self.exchanges.find(*id) {
                Some(_) => Some(CoreFault::IdTaken),
                None => fault_if_moment_too_late(*now),
            },
            Event::Answer(now, id, _) => self.exchange_at_origin(*now, *id).err(),
            Event::Fail(now, id, _) => self.exchange_at_origin(*now, *id).err(),
            Event::Wake(now, id) => self.exchange_to_wake(*now, *id).err(),
            Event::Abandon(id) => match self.exchanges.find(*id) {
                Some(_) => None,
                None => Some(CoreFault::UnknownId),
            },
            Event::Overdue(id) => self.fault_of_overdue(*id),
        }
    }

    /// The least fault that stands where the time of a wait is over.
    fn fault_of_overdue(&self, id: u64) -> Option<CoreFault>
        ensures { result ≡ step_fault self.now.exchanges (Overdue id) }
    {
        match self.exchanges.find(id) {
            Some(x) => fault_if_not_waiting(x.stage),
            None => Some(CoreFault::UnknownId),
        }
    }

    /// The client went away: its exchange ends without an answer. The first of those that wait for it leads on, if one
    /// may, and nothing but that allocates.
    pub fn abandon(&mut self, id: u64) -> Result<Outcome, CoreFault>
        ensures ok { IfOk result (λ outcome. StepIsAccepted self.old (Abandon id) outcome self.new) }
        ensures err { IfErr result (λ fault. StepIsRefusedWith self.old (Abandon id) fault) }
        ensures unchanged { OnErr result (self.new ≡ self.old) }
    {
        match self.exchanges.find(id) {
            None => Err(CoreFault::UnknownId),
            Some(_) => {
                self.exchanges.abandon(&self.config, id)?;
                Ok(Outcome::Ended)
            }
        }
    }

    /// A request has waited for another's answer as long as it is to wait: it may be woken from now on, as if its
    /// leader had ended, and others wait as before. Nothing is allocated.
    pub fn end_wait_on_timeout(&mut self, id: u64) -> Result<Outcome, CoreFault>
        ensures ok { IfOk result (λ outcome. StepIsAccepted self.old (Overdue id) outcome self.new) }
        ensures err { IfErr result (λ fault. step_fault self.old.exchanges (Overdue id) ≡ Some fault) }
        ensures unchanged { OnErr result (self.new ≡ self.old) }
    {
        match self.fault_of_overdue(id) {
            Some(fault) => Err(fault),
            None => {
                self.exchanges.end_wait_on_timeout(id);
                Ok(Outcome::WaitsNoMore)
            }
        }
    }
}
