//! Vary: what is kept of the request that a stored response answered, and whether a later request has the
//! same (RFC 9111, section 4.1).
//!
//! The definitions are in `specs/Vary.antt`, with the law that what is kept decides as the whole earlier
//! request would. Values compare as bytes: nothing here knows what a nominated field means.
#![tactic(auto)]

mod field_names;
pub mod laws;
mod limits;
mod marks;
mod nominated_values;
mod nominations;
mod request_values;

pub use field_names::FieldNames;
pub use limits::MOST_VARY_NAMES;
pub use marks::VariantMark;
pub use nominated_values::NominatedValue;
pub use nominations::{Nominated, Nomination, matches};
pub use request_values::RequestValues;
