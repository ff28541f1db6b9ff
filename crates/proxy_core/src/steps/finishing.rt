//! What a pending reply does to the core.
ghost use Rattle.std.specs.Prelude.{◌≡◌, ◌<◌, ◌-◌, ◌^◌, ◌∷◌, [], map, false, IfOk, IfSome, OnOk, OnErr, option_copied};
ghost use Rattle.hx_store.specs.Shelf.{holds_serial, without_serials};
ghost use Rattle.hx_store.specs.Weights.{cut_to_bounds, prefix_of_weight_if_any, weight_of_entry};
ghost use Rattle.proxy_core.specs.AnsweredRequests.{request_of_exchange};
ghost use Rattle.proxy_core.specs.Outcomes.{find_exchange};
ghost use Rattle.proxy_core.specs.State.{entries_without_serials, next_serial_after_storing};
ghost use Rattle.proxy_core.specs.State.{exchange_after_second_forward};
ghost use Rattle.proxy_core.specs.State.{exchange_sent_forward_if_of_id};
ghost use Rattle.proxy_core.specs.Pending.{outcome_of_pending_reply, entries_after_change, state_after_reply};
ghost use Rattle.proxy_core.specs.Pending.{StoresUnderNextSerial, StoresNewSerial, FreshensHeldResponse};

use crate::core_state::Core;
use crate::open::exchange::Exchange;
use crate::open::serial_numbers::serial_after;
use crate::outcome::{Outcome, Reply, Step};
use crate::replies::pending::{Change, PendingReply};
use hx_allow::RouteOverLine;
use hx_fields::Bytes;
use hx_hop::Asked;
use hx_store::{Entry, Shelf, evict_to_weight};
use hx_target::Key;
use std::alloc::AllocError;

/// Lets the least recently used go until the others weigh no more than `most` bytes together. Nothing is allocated.
fn evict_to_weight_if_bounded<S: Shelf>(shelf: &mut S, most: Option<u64>)
    requires { IfSome most (λ most. most < 2 ^ 64 - 1) }
    ensures entries { S.entries shelf.new ≡ prefix_of_weight_if_any weight_of_entry most (S.entries shelf.old) }
    ensures limit { S.limit shelf.new ≡ S.limit shelf.old }
{
    if let Some(most) = most {
        evict_to_weight(shelf, most);
    }
}

/// Lets the least recently used go until both bounds of the store hold. Nothing is allocated.
#[tactic(auto, using(crate::proofs::Cutting::shed_is_cut))]
pub(crate) fn cut<S: Shelf>(shelf: &mut S, most: Option<u64>)
    requires { IfSome most (λ most. most < 2 ^ 64 - 1) }
    ensures entries { S.entries shelf.new
        ≡ cut_to_bounds (record { entries = S.limit shelf.old; bytes = most }) (S.entries shelf.old) }
    ensures limit { S.limit shelf.new ≡ S.limit shelf.old }
{
    // A shelf keeps to its capacity of itself.
    let _held = shelf.len();
    evict_to_weight_if_bounded(shelf, most);
}

/// Stores an entry. What is evicted is let go.
fn put_in<S: Shelf>(
    shelf: &mut S,
    entry: Entry,
    removed: &[u64],
    most: Option<u64>,
) -> Result<(), AllocError>
    requires new { holds_serial entry.serial (S.entries shelf.old) ≡ false }
    requires bounded { IfSome most (λ most. most < 2 ^ 64 - 1) }
    ensures ok { OnOk result (S.entries shelf.new
        ≡ cut_to_bounds (record { entries = S.limit shelf.old; bytes = most })
        (entry ∷ without_serials removed.now (S.entries shelf.old))) }
    ensures err { OnErr result (S.entries shelf.new ≡ S.entries shelf.old) }
    ensures limit { S.limit shelf.new ≡ S.limit shelf.old }
{
    match shelf.put(entry, removed) {
        Ok(_) => {
            evict_to_weight_if_bounded(shelf, most);
            Ok(())
        }
        Err(_) => Err(AllocError),
    }
}

/// Takes out the responses of these serials. Nothing is allocated.
pub(crate) fn remove_each<S: Shelf>(shelf: &mut S, removed: &[u64])
    ensures entries { S.entries shelf.new ≡ entries_without_serials removed.now (S.entries shelf.old) }
    ensures limit { S.limit shelf.new ≡ S.limit shelf.old }
{
    for serial in removed {
        shelf.remove(*serial);
    }
}

/// Changes what is held, within the capacity and so many bytes. Where memory runs out nothing has changed.
fn change_shelf<S: Shelf>(
    shelf: &mut S,
    change: Change,
    removed: &[u64],
    most: Option<u64>,
) -> Result<(), AllocError>
    requires new { StoresNewSerial change (S.entries shelf.old) }
    requires held { FreshensHeldResponse change (S.entries shelf.old) }
    requires bounded { IfSome most (λ most. most < 2 ^ 64 - 1) }
    ensures ok { OnOk result (S.entries shelf.new
        ≡ entries_after_change (record { entries = S.limit shelf.old; bytes = most }) removed.now change
        (S.entries shelf.old)) }
    ensures err { OnErr result (S.entries shelf.new ≡ S.entries shelf.old) }
    ensures limit { S.limit shelf.new ≡ S.limit shelf.old }
{
    match change {
        Change::Keep => {
            remove_each(shelf, removed);
            Ok(())
        }
        Change::Use(serial) => {
            shelf.promote(serial);
            remove_each(shelf, removed);
            cut(shelf, most);
            Ok(())
        }
        Change::Freshen(entry) => {
            shelf.freshen(entry);
            remove_each(shelf, removed);
            cut(shelf, most);
            Ok(())
        }
        Change::Remove(serial) => {
            shelf.remove(serial);
            remove_each(shelf, removed);
            cut(shelf, most);
            Ok(())
        }
        Change::Store(entry) => put_in(shelf, entry, removed, most),
    }
}

/// The next serial, after one may have been stored.
fn next_serial_after_storing(next: Option<u64>, stored: Option<u64>) -> Option<u64>
    ensures { result ≡ next_serial_after_storing next stored }
{
    match stored {
        Some(serial) => serial_after(serial),
        None => next,
    }
}

/// The request of an exchange that has ended.
fn request_of_exchange(ended: Option<Exchange>) -> Option<Asked>
    ensures { result ≡ request_of_exchange ended }
{
    match ended {
        Some(exchange) => Some(exchange.into_request_view()),
        None => None,
    }
}

impl<S: Shelf> Core<S> {
    /// The exchange of an id goes forward once more, with the client's own request.
    pub(crate) fn go_on(
        &mut self,
        id: u64,
        now: u64,
        line: RouteOverLine,
        bytes: Bytes,
    ) -> Result<Outcome, AllocError>
        ensures outcome { IfOk result (λ outcome. outcome ≡ Outcome.Forward line bytes) }
        ensures after { OnOk result (self.new ≡ record self.old {
          exchanges = map
              (exchange_after_second_forward id now) self.old.exchanges;
        }) }
        ensures unchanged { OnErr result (self.new ≡ self.old) }
    {
        self.exchanges.go_forward(id, now)?;
        Ok(Outcome::Forward(line, bytes))
    }

    /// Does what a pending reply says, and ends the exchange of an id, whose request it answers. Where a key was
    /// invalidated, its other exchanges are overtaken.
    pub(crate) fn finish(
        &mut self,
        id: u64,
        pending: PendingReply,
        invalidated: Option<Key>,
    ) -> Result<Step, AllocError>
        requires next { StoresUnderNextSerial self.old.next pending.change }
        requires held { FreshensHeldResponse pending.change self.old.entries }
        ensures outcome { IfOk result (λ step. step.outcome ≡ outcome_of_pending_reply pending) }
        ensures asked { IfOk result (λ step. step.asked
            ≡ request_of_exchange (find_exchange id self.old.exchanges)) }
        ensures after { OnOk result (self.new ≡ state_after_reply self.old id pending invalidated) }
        ensures unchanged { OnErr result (self.new ≡ self.old) }
    {
        let PendingReply {
            bytes,
            close,
            about,
            change,
            removed,
        } = pending;
        let stored = change.stored();
        let used = change.used();
        let most = self.config.max_store();
        match change_shelf(&mut self.shelf, change, removed.as_slice(), most) {
            Ok(()) => {}
            Err(error) => return Err(error),
        }
        let ended = self.exchanges.end_exchange(id, invalidated.as_ref());
        self.next = next_serial_after_storing(self.next, stored);
        let outcome = Outcome::Reply(Reply {
            bytes,
            close,
            about,
            stored,
            used,
            removed,
            expired: None,
            purged: false,
        });
        Ok(Step {
            outcome,
            asked: request_of_exchange(ended),
        })
    }
}
