//! Scripts and effects as bytes: what a proxy is told happens, and what it does.
//!
//! A script is lines ended by LF, some with a block of bytes behind them; `read_item` finds the item at its
//! front. `specs/Script.antt` says how an item is spelled. A law says that each item found is spelled there, and
//! each one spelled is found. The text of effects is in `specs/Effects.antt`. Nothing here knows
//! connections or links.
#![tactic(auto)]

mod digits;
mod effect_list;
mod first_words;
mod happening;
mod items;
pub mod laws;
mod limits;
mod line_parser;
mod parser;
mod script_cases;
mod spelling;

pub use effect_list::{Effect, effects_text};
pub use happening::Happening;
pub use items::Item;
pub use limits::MOST_SCRIPT_BYTES;
pub use parser::{LeadingItemReading, read_item};
pub use spelling::item_text;
