//! The file of a store: what is held is written at the end of a drain, and read at the next start.
//!
//! How a store is spelled, and what a text is read as, stand in `specs/Stores.antt`. Laws say that what was written is
//! read as it was, and that every other text is refused. Here are the spelling of an entry's head and the reader of one
//! entry; nothing here opens a file.
#![tactic(auto)]

mod entry_parts;
mod entry_reading;
mod head_reading;
mod head_writing;
mod heads;
pub mod laws;
mod limits;
mod opening;
mod pieces;
mod pieces_written;
mod store_faults;
mod store_reading;
mod store_writing;
mod texts;

pub use store_faults::{EntryPart, StoreReadFault, WriteFault};
pub use store_reading::read_store;
pub use store_writing::write_and_empty_store;
