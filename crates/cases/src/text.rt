//! The texts of cases, of scripts' items, of effects and of operators' tables, and what lies in a folder.
//!
//! The text of a case is bytes as people write them, with escapes for what a line of text can't hold.
//!
//! `↵` is CR LF, `\r`, `\n`, `\t` and `\\` are as in Rust, `\xHH` is a byte, `\{TEXT*N}` is TEXT so many times, and
//! `\.` nothing at all. Every other character stands for its bytes in UTF-8.

mod effects;
mod folder;
mod items;
mod reading;
mod showing;
mod tables;

pub use effects::{Effect, first_shown, number_of, read_effect};
pub use folder::{files_in, folders_in};
pub use items::{block_of, push_item, push_words};
pub use reading::{TextFault, push_bytes};
pub use showing::push_shown;
pub use tables::{FIRST_TABLE, table_text};
