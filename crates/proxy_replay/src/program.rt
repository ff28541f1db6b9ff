//! The program: the script on standard input is replayed to standard output.
//!
//! One line on standard error names a fault, and the exit status tells its kind.

use crate::play::{replay, replay_over_store};
use crate::replay_fault::ReplayFault;
use std::env::FillError;
use std::io;
use std::io::Read;
use std::process::ExitCode;
use std::rt::Env;

/// The exit status of a command line that isn't one of the program's.
const USAGE: u8 = 64;

/// Whether a word follows the program's name.
fn has_words<R: Env>(rt: &R) -> bool {
    match rt.arg(1, &mut []) {
        Err(FillError::NotPresent) => false,
        Ok(_) => true,
        Err(FillError::TooLong) => true,
    }
}

fn fail<R: Eprint>(rt: &R, fault: &ReplayFault) -> ExitCode {
    // Where standard error fails too there is nobody left to tell.
    let _ = eprintln!(rt; "{fault}");
    ExitCode::from(fault.exit_status())
}

/// The exit status of a replay, whose fault is told.
fn ended<R: Eprint>(rt: &R, replayed: Result<(), ReplayFault>) -> ExitCode {
    match replayed {
        Ok(()) => ExitCode::SUCCESS,
        Err(fault) => fail(rt, &fault),
    }
}

/// Replays the script on standard input to standard output.
pub fn run_script<R: Input + Print + Eprint + AllocGlobal>(rt: &R) -> ExitCode {
    let mut reader = rt.reader();
    let mut writer = io::writer(rt);
    ended(rt, replay(rt.alloc(), &mut reader, &mut writer))
}

/// The same over the store that a reader gives.
pub fn run_script_over_store<R: Input + Print + Eprint + AllocGlobal, Q: Read + Drop>(
    rt: &R,
    store: Q,
) -> ExitCode {
    let mut reader = rt.reader();
    let mut writer = io::writer(rt);
    ended(
        rt,
        replay_over_store(rt.alloc(), store, &mut reader, &mut writer),
    )
}

/// Does what the command line asks for: without a word, replays standard input to standard output.
pub fn run<R: Env + Input + Print + Eprint + AllocGlobal>(rt: &R) -> ExitCode {
    if has_words(rt) {
        let _ = rt.eprintln("usage fault");
        return ExitCode::from(USAGE);
    }
    run_script(rt)
}
