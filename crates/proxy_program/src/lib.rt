//! The program's logic: its command line, and what each of its three forms does. No request is decided here:
//! `proxy_server` serves, `proxy_replay` replays, and `hx_allow` reads the table.
//!
//! One line on standard error names a fault, and the exit status tells its kind.
#![tactic(auto)]

mod clock_watch;
mod command_line;
mod commit;
mod fault;
mod figures;
mod heap;
mod process;
mod program;
mod serving;
mod warnings;
mod watch;

pub use crate::program::run;
