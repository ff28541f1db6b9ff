//! What a replay begins over: an empty store, or one that was kept.
ghost use Rattle.std.specs.Prelude.{◌≡◌, ℕ, [], Ok, Err, IfOk, IfErr};
ghost use Rattle.hx_allow.specs.TableLines.{Table};
ghost use Rattle.proxy_engine.specs.Beginnings.{ResponsesMayBeHeldAtStart};
ghost use Rattle.proxy_store_file.specs.Stores.{StoreReading};
ghost use Rattle.proxy_store_file.specs.Streams.{store_contents_of};
ghost use Rattle.proxy_replay.specs.Replay.{OpensEmptyStore, ReplayStoreIsRead};

use hx_allow::Table;
use hx_store::Shelf;
use proxy_kept_store::{a_server_may_begin_empty, read_kept_store};
use proxy_store_file::StoreReadFault;
use std::alloc::Global;
use std::io::Read;

/// What fills the store of a replay before anything happens.
pub(crate) trait StoreOpening {
    /// What the store of a table holds then, with the serial that the next stored response gets, or why it isn't
    /// opened.
    ghost opens: { Self → Table → StoreReading → Type 0 };

    /// Fills the empty store of a table; answers the serial that the first response gets that is stored.
    fn open<S: Shelf>(
        &mut self,
        alloc: Global,
        config: &Table,
        shelf: &mut S,
    ) -> Result<u64, StoreReadFault>
        requires empty { S.entries shelf.old ≡ [] }
        requires capacity { S.limit shelf.old ≡ config.now.capacity }
        ensures opens { IfOk result (λ first. opens self.old config.now
            (Ok (store_contents_of (S.entries shelf.new) first))) }
        ensures may { IfOk result (λ first. ResponsesMayBeHeldAtStart config.now (S.entries shelf.new) first) }
        ensures refused { IfErr result (λ fault. opens self.old config.now (Err fault)) }
        ensures limit { S.limit shelf.new ≡ S.limit shelf.old };
}

/// Nothing is held at first, and serials begin at 1.
#[derive(Clone, Copy)]
pub(crate) struct EmptyStoreOpening;

impl StoreOpening for EmptyStoreOpening {
    ghost opens = { λ empty. OpensEmptyStore };

    fn open<S: Shelf>(
        &mut self,
        alloc: Global,
        config: &Table,
        shelf: &mut S,
    ) -> Result<u64, StoreReadFault> {
        a_server_may_begin_empty();
        Ok(1)
    }
}

/// What the file of a store says, which a reader gives.
#[derive(Drop)]
pub(crate) struct KeptStoreOpening<Q: Read + Drop> {
    pub(crate) reader: Q,
}

impl<Q: Read + Drop> StoreOpening for KeptStoreOpening<Q> {
    ghost opens = { λ kept. ReplayStoreIsRead (Q.remaining kept.reader) };

    fn open<S: Shelf>(
        &mut self,
        alloc: Global,
        config: &Table,
        shelf: &mut S,
    ) -> Result<u64, StoreReadFault> {
        read_kept_store(alloc, config, shelf, &mut self.reader)
    }
}
