//! What a server begins with: a store that was kept in a file.
ghost use Rattle.std.specs.Prelude.{◌≡◌, ℕ, List, [], Ok, IfOk, IfErr, OnErr};
ghost use Rattle.hx_allow.specs.TableLines.{Table};
ghost use Rattle.hx_store.specs.Stored.{Stored};
ghost use Rattle.proxy_engine.specs.Beginnings.{ResponsesMayBeHeldAtStart};
ghost use Rattle.proxy_store_file.specs.Stores.{read_store};
ghost use Rattle.proxy_store_file.specs.Streams.{ReaderGaveReading, ReaderIsRefusedFor, bounds_of, store_contents_of};

use hx_allow::Table;
use hx_store::Shelf;
use proxy_store_file::laws::read_stores_are_valid;
use proxy_store_file::{StoreReadFault, read_store};
use std::alloc::Global;
use std::io::Read;

/// Reads the file of a store into an empty shelf of the table's capacity, within its `max_store`, and answers the
/// serial that the next stored response gets. Then `Server::with_store` may begin with the shelf and that serial. After
/// a fault the shelf is empty.
pub fn read_kept_store<S: Shelf, R: Read>(
    alloc: Global,
    config: &Table,
    shelf: &mut S,
    reader: &mut R,
) -> Result<u64, StoreReadFault>
    requires empty { S.entries shelf.old ≡ [] }
    requires capacity { S.limit shelf.old ≡ config.now.capacity }
    ensures ok { IfOk result
        (λ next. ReaderGaveReading (read_store (bounds_of config.now.capacity config.now.max_store))
        (R.remaining reader.old) (R.remaining reader.new) (Ok (store_contents_of (S.entries shelf.new) next))) }
    ensures may { IfOk result (λ next. ResponsesMayBeHeldAtStart config.now (S.entries shelf.new) next) }
    ensures fault { IfErr result
        (λ fault. ReaderIsRefusedFor (read_store (bounds_of config.now.capacity config.now.max_store))
        (R.remaining reader.old) (R.remaining reader.new) fault) }
    ensures emptied { OnErr result (S.entries shelf.new ≡ []) }
    ensures limit { S.limit shelf.new ≡ S.limit shelf.old }
{
    read_stores_are_valid();
    read_store(alloc, config.max_store(), shelf, reader)
}

/// A server may begin with an empty store.
pub fn a_server_may_begin_empty()
    ensures { (table : Table) (held : List Stored) (first : ℕ) → held ≡ []
        → ResponsesMayBeHeldAtStart table held first }
{}
