//! Field lines of HTTP messages: names, combined values and list members (RFC 9110, section 5); the
//! bytes that messages share, the numbers that digits spell, and the end of time.
//!
//! `specs/Names.antt` says how bytes are read, `specs/FieldLines.antt` what a list of lines says of a
//! name. `specs/SpelledNumbers.antt` says what digits spell. Nothing here knows what any field means, but
//! for the last second that a date can tell.
#![tactic(auto)]

mod byte_string;
mod cutting;
mod digits;
mod field_line;
mod field_lines;
mod first_bytes;
mod folded_names;
pub mod laws;
mod limits;
mod member_list;
mod name_buckets;
mod name_places;
mod tokens;

pub use crate::byte_string::Bytes;
pub use crate::cutting::{
    is_same_name, next_long_member, next_member, next_member_with_first_byte_in,
    split_at_first_byte, trim_blanks,
};
pub use crate::digits::{digit_value, digits_value_if_at_most};
pub use crate::field_line::Field;
pub use crate::field_lines::Fields;
pub use crate::first_bytes::FirstBytes;
pub use crate::folded_names::FoldedName;
pub use crate::limits::START_OF_YEAR_10000;
pub use crate::member_list::Members;
pub use crate::name_buckets::NameBuckets;
pub use crate::tokens::is_token;
