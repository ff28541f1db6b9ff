//! The bounded store of responses.
//!
//! A `Shelf` is seen as the list of its entries, the latest stored or used first; each call says exactly
//! which list it leaves (`specs/Shelf.antt`). How entries are kept and found is the shelf's own matter.
//! What may be stored or reused is decided above.
#![tactic(auto)]

mod entries;
mod entry_cache;
mod indexed_entries;
mod indexed_shelf;
mod key_hashing;
mod key_index;
mod key_marks;
pub mod laws;
mod list_shelf;
mod serial_list;
mod shedding;
mod shelves;
mod weight_laws;
mod weights;

pub use entries::Entry;
pub use indexed_shelf::IndexedShelf;
pub use list_shelf::ListShelf;
pub use serial_list::Serials;
pub use shedding::evict_to_weight;
pub use shelves::{EntryTest, Shelf};
pub use weights::weight_of_entry_parts;
