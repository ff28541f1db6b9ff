//! A request that purges.
ghost use Rattle.std.specs.Prelude.{◌≡◌, ◌<◌, map, IfOk, OnOk, OnErr, Some};
ghost use Rattle.hx_allow.specs.Tags.{is_purged_by_tag_if_any};
ghost use Rattle.proxy_core.specs.Scopes.{scope_without_tag, scope_of_purge, serials_purged_by_request};
ghost use Rattle.proxy_core.specs.Scopes.{serials_within_scope};
ghost use Rattle.proxy_core.specs.Outcomes.{outcome_of_purge, outcome_of_purge_reply};
ghost use Rattle.proxy_core.specs.State.{entries_after_purge, entries_after_purging_serials};
ghost use Rattle.proxy_core.specs.State.{exchange_overtaken_if_in_scope};

use crate::core_state::Core;
use crate::open::exchanges::Exchanges;
use crate::outcome::{Outcome, Reply};
use crate::replies::reply_text::purged;
use crate::steps::finishing::remove_each;
use hx_allow::{
    PurgeMode, PurgeScope, purge_scope_of_request, purge_tag_or_none, request_purge_mode_or_remove,
    response_names_tag,
};
use hx_fields::{Bytes, Fields};
use hx_hop::Asked;
use hx_status::StatusAndReason;
use hx_store::{Entry, EntryTest, Serials, Shelf};
use hx_target::Key;
use std::alloc::{AllocError, Global};

/// Whether a purge takes a held response.
#[derive(Drop)]
struct WithinScope {
    reach: PurgeScope,
    /// What the purge was asked for.
    asked: Key,
    /// What a response has to name.
    tag: Option<Bytes>,
}

/// Whether a response names a tag, where one is asked for.
fn is_purged_by_tag_if_any(tag: &Option<Bytes>, fields: &Fields) -> bool
    ensures { result ≡ is_purged_by_tag_if_any tag.now fields.now }
{
    match tag {
        None => true,
        Some(tag) => response_names_tag(tag.as_slice(), fields),
    }
}

impl EntryTest for WithinScope {
    ghost use Rattle.proxy_core.specs.Scopes.{scope_includes_response};

    ghost takes = { λ scope e. scope_includes_response
        (record { reach = scope.reach; asked = scope.asked; tag = scope.tag }) e.key e.fields };

    // Most are told apart by the key, and to compare that costs less.
    fn entry_passes_test(&self, entry: &Entry) -> bool {
        let within = self.reach.has(&self.asked, &entry.key);
        within && is_purged_by_tag_if_any(&self.tag, &entry.fields)
    }
}

/// The serials of what a purge takes, ascending. Of one target without a tag those are found by its key, and else each
/// held response is looked at once. Fails only where memory runs out.
fn find_purged<S: Shelf>(shelf: &S, alloc: Global, asked: &Asked) -> Result<Serials, AllocError>
    ensures { IfOk result (λ found. found ≡ serials_purged_by_request asked.now (S.entries shelf.now)) }
{
    let reach = purge_scope_of_request(&asked.fields);
    let key = &asked.target.key;
    match purge_tag_or_none(&asked.fields) {
        None => find_by_key(shelf, alloc, reach, key),
        Some(tag) => find_tagged(shelf, alloc, reach, key, tag),
    }
}

fn find_by_key<S: Shelf>(
    shelf: &S,
    alloc: Global,
    reach: PurgeScope,
    asked: &Key,
) -> Result<Serials, AllocError>
    ensures { IfOk result (λ found. found
        ≡ serials_within_scope (scope_without_tag reach asked.now) (S.entries shelf.now)) }
{
    match reach {
        PurgeScope::Target => shelf.find(alloc, asked),
        PurgeScope::Prefix | PurgeScope::Host | PurgeScope::All => {
            find_within(shelf, alloc, reach, asked, None)
        }
    }
}

fn find_tagged<S: Shelf>(
    shelf: &S,
    alloc: Global,
    reach: PurgeScope,
    asked: &Key,
    tag: &[u8],
) -> Result<Serials, AllocError>
    ensures { IfOk result (λ found. found ≡ serials_within_scope
        (record { reach = reach; asked = asked.now; tag = Some tag.now }) (S.entries shelf.now)) }
{
    let tag = Bytes::copy_of(alloc, tag)?;
    find_within(shelf, alloc, reach, asked, Some(tag))
}

fn find_within<S: Shelf>(
    shelf: &S,
    alloc: Global,
    reach: PurgeScope,
    asked: &Key,
    tag: Option<Bytes>,
) -> Result<Serials, AllocError>
    ensures { IfOk result (λ found. found ≡ serials_within_scope
        (record { reach = reach; asked = asked.now; tag = tag }) (S.entries shelf.now)) }
{
    let scope = WithinScope {
        reach,
        asked: asked.copy(alloc)?,
        tag,
    };
    shelf.find_serials_where(alloc, &scope)
}

/// Marks what was asked for within the scope of a purge: by its key, whatever the tag.
fn overtake_purged(exchanges: &mut Exchanges, asked: &Asked)
    ensures { exchanges.new ≡ map (exchange_overtaken_if_in_scope (scope_of_purge asked.now)) exchanges.old }
{
    let reach = purge_scope_of_request(&asked.fields);
    exchanges.overtake_within(reach, &asked.target.key);
}

/// Removes what a purge takes, or expires it. No memory is taken.
fn take_each<S: Shelf>(shelf: &mut S, mode: PurgeMode, taken: &[u64], now: u64)
    ensures entries { S.entries shelf.new ≡ entries_after_purging_serials mode taken.now now (S.entries shelf.old) }
    ensures limit { S.limit shelf.new ≡ S.limit shelf.old }
{
    match mode {
        PurgeMode::Remove => remove_each(shelf, taken),
        PurgeMode::Stale => shelf.expire(taken, now),
    }
}

/// The answer to a request that purges.
fn purge_reply(alloc: Global, bytes: Bytes, close: bool, mode: PurgeMode, taken: Serials) -> Outcome
    ensures { result ≡ outcome_of_purge_reply bytes close mode taken }
{
    let about = StatusAndReason::purge(taken.as_slice().len() as u64);
    let (removed, expired) = match mode {
        PurgeMode::Remove => (taken, None),
        PurgeMode::Stale => (Serials::new(alloc), Some(taken)),
    };
    Outcome::Reply(Reply {
        bytes,
        close,
        about,
        stored: None,
        used: None,
        removed,
        expired,
        purged: true,
    })
}

impl<S: Shelf> Core<S> {
    /// A request that purges: what is held within its scope and names its tag goes, or is expired, and what was asked
    /// for within its scope before isn't stored.
    pub(crate) fn purge(
        &mut self,
        alloc: Global,
        now: u64,
        asked: &Asked,
    ) -> Result<Outcome, AllocError>
        requires { now < 253_402_300_800 }
        ensures outcome { IfOk result (λ outcome. outcome ≡ outcome_of_purge self.old.entries now asked.now) }
        ensures after { OnOk result (self.new ≡ record self.old {
          entries = entries_after_purge asked.now now self.old.entries;
          exchanges = map (exchange_overtaken_if_in_scope (scope_of_purge asked.now)) self.old.exchanges;
        }) }
        ensures unchanged { OnErr result (self.new ≡ self.old) }
    {
        let taken = find_purged(&self.shelf, alloc, asked)?;
        let bytes = purged(alloc, now, taken.as_slice().len(), asked.close)?;
        let mode = request_purge_mode_or_remove(&asked.fields);
        take_each(&mut self.shelf, mode, taken.as_slice(), now);
        overtake_purged(&mut self.exchanges, asked);
        Ok(purge_reply(alloc, bytes, asked.close, mode, taken))
    }
}
