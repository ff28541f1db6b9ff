//! Tests of what no contract and no table of cases says: the order of calls, what a refusal leaves, that memory is
//! found, and readers and writers that fail.
//!
//! They stand in one crate so that no library is proved again for its tests, and what all tests need is loaded once.
//! Tables of inputs and answers, and whole scripts, are data: see `crates/cases/data`.
#![tactic(auto)]

#[cfg(test)]
mod failing_streams;
#[cfg(test)]
mod framing;
#[cfg(test)]
mod hx;
#[cfg(test)]
mod loopback;
#[cfg(test)]
mod proxy;
#[cfg(test)]
mod store_file;
