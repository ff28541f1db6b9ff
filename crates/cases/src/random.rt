//! Plays 10,000 random happenings by a table whose lines all have a cache, 10,000 by one with lines without, and 10,000
//! by one whose lines have words on caching, and checks what the proxy does of them.
//!
//! A `World` of clients and origins makes happenings, the same in each run, one after another: requests and answers,
//! whole, cut, faulty and too late, failures, ends, and moments that go forward and back. An engine beside it tells
//! which links there are, so that what comes next can be of use. The script of all is then replayed, and of each effect
//! is checked what `check.rt` says.
//!
//! Then the same by each table with restarts: now and then all clients go away, and another engine goes on over the
//! store that this one wrote. All of them together have to do what the replay of the whole script does.

mod answers;
mod check;
mod clients;
mod counts;
mod dice;
mod fields;
mod life;
mod log;
mod past_store;
mod replies;
mod requests;
mod stored_answers;
mod tables;
mod told;
pub mod trial;
mod waiting;
mod words;
mod world;
mod wrong;
