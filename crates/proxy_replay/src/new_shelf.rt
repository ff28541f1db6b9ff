//! The shelf that a replay keeps its responses on.
ghost use Rattle.std.specs.Prelude.{◌≡◌, [], IfOk};

use hx_store::{IndexedShelf, ListShelf, Shelf};
use std::alloc::{AllocError, Global};

/// A shelf that can be made for a table.
pub(crate) trait NewShelf: Shelf {
    /// An empty shelf that holds at most `capacity` responses, if memory is found for it.
    fn with_capacity(alloc: Global, capacity: usize) -> Result<Self, AllocError>
        ensures empty { IfOk result (λ shelf. Self.entries shelf ≡ []) }
        ensures limit { IfOk result (λ shelf. Self.limit shelf ≡ capacity) };
}

impl NewShelf for IndexedShelf {
    fn with_capacity(alloc: Global, capacity: usize) -> Result<Self, AllocError> {
        IndexedShelf::new(alloc, capacity)
    }
}

impl NewShelf for ListShelf {
    fn with_capacity(alloc: Global, capacity: usize) -> Result<Self, AllocError> {
        Ok(ListShelf::new(alloc, capacity))
    }
}
