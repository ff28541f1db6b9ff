//! A test of refused memory: `play` replays the script on standard input as `revcache` does, but by the engine's calls,
//! each of which is made again where it found no memory. `calls` makes the calls that take none, over what it prepared.
//!
//! `tools/refused_memory` runs them with each request for memory refused in turn: what is written is then what is
//! written with ample memory, or, where all behind one are refused, the effects of what came before. Status 1 says that
//! memory ran out, 2 that the script or a stream is at fault, 3 that a call gave what it mustn't.

pub mod calls;
mod entries;
pub mod play;
pub mod stop;
