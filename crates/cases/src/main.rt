//! Plays what people wrote down of the proxy as data, and what it makes by itself.
//!
//! - Cases: small inputs with the answer that is expected of one part, in the files `*.cases` (`case_file.rt`).
//!   `data/README.md` has the format. A line a file tells how many cases hold, and a line each what doesn't.
//! - Examples: whole scripts with their effects, in the folders of `examples` (`examples.rt`). A line each.
//! - Happenings: 30,000 at random, and what the proxy does of them (`random.rt`).
//! - Refused calls: the script on standard input by the engine's calls, and calls that take no memory (`refused.rt`).
//!
//! Without words it plays them all, in this order. With words it plays the files that they name; with `script` or
//! `calls` a half of the last, for `tools/refused_memory`.
#![tactic(auto)]

mod ages;
mod cache_status;
mod case_file;
mod driver;
mod examples;
mod field_lines;
mod files;
mod lines;
mod parts;
mod passing;
mod policies;
mod random;
mod refused;
mod requests;
mod reuse;
mod scripts;
mod steps;
mod storing;
mod streams;
mod tables;
mod targets;
mod text;
mod validation;
mod values;
mod words;

use crate::refused::stop::Stop;
use crate::refused::{calls, play};
use std::process::ExitCode;
use std::rt::Env;

/// Plays what the first word says of refused memory, if it says something, and takes no memory to see it.
fn play_refused<R: Env + Input + Print + AllocGlobal>(rt: &R) -> Option<Result<(), Stop>> {
    let mut buffer = [0u8; 8];
    let length = rt.arg(1, &mut buffer).ok()?;
    match buffer.get(..length)? {
        b"script" => Some(play::run(rt)),
        b"calls" => Some(calls::run(rt.alloc())),
        _ => None,
    }
}

fn main(rt: HostRuntime) -> ExitCode {
    match play_refused(&rt) {
        Some(Ok(())) => return ExitCode::SUCCESS,
        Some(Err(stop)) => {
            let _ = eprintln!(&rt; "{stop}");
            return ExitCode::from(stop.exit_status());
        }
        None => {}
    }
    match files::play(&rt) {
        Ok(true) => ExitCode::SUCCESS,
        Ok(false) => ExitCode::FAILURE,
        Err(e) => {
            let _ = eprintln!(&rt; "it can't be played: {e}");
            ExitCode::FAILURE
        }
    }
}
