//! The core, the engine, scripts and replays, with ample memory: what clauses say can only be refused by memory is
//! found here.

mod cores;
mod engines;
mod first_run;
mod held;
mod memory_sockets;
mod records;
mod replays;
mod streams;
mod turns;
mod waiting;
