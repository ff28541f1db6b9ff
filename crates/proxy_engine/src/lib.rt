//! The proxy over connections and links: it takes what happens, and does what is due, one act after another.
//!
//! `specs/EngineModel.antt` says what an engine has lived through, `specs/Due.antt` which act is due first, and
//! `specs/Acts.antt` what each act does. Its readers are asked ahead: what one answers is kept until it is used.
//! `specs/PeekableReader.antt` says for which streams such a reader stands. Nothing here opens a socket.
#![tactic(auto)]

mod endpoints;
mod engine;
pub mod laws;
mod readable_ends;
mod steps;
mod takes;
mod work;

pub use crate::endpoints::lookahead::Lookahead;
pub use crate::endpoints::peeked::PeekableReader;
pub use crate::endpoints::readers::Reader;
pub use crate::engine::Engine;
pub use crate::work::{End, EngineFault, Work};
pub use proxy_script::Happening;
