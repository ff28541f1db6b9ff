//! What is played: the files that the words name, or all that lies where the program runs and what it makes by itself.

use crate::case_file::play_text;
use crate::examples::folder::{play_case, play_row};
use crate::lines::Fault;
use crate::random::trial;
use crate::refused::{calls, play as script};
use crate::text::{files_in, folders_in};
use std::rt::{Env, Files};
use std::{env, fs, io};

/// The folder of the examples, where the program runs.
const EXAMPLES: &str = "examples";

/// Plays a file of cases, prints what doesn't hold and how many do, and tells whether all do.
fn play_cases<R: Files + Print + AllocGlobal>(rt: &R, name: &str) -> io::Result<bool> {
    let text = fs::read_to_string(rt, name)?;
    let mut report = String::new(rt.alloc());
    let played = play_text(rt.alloc(), name, text.as_str(), &mut report);
    print!(rt; "{report}")?;
    match played {
        Ok((hold, 0)) => println!(rt; "{name}: {hold} cases hold")?,
        Ok((hold, differ)) => println!(rt; "{name}: {hold} cases hold, {differ} do not")?,
        Err(Fault::At(line, why)) => println!(rt; "{name}:{line}: {why}")?,
        Err(Fault::OutOfMemory) => println!(rt; "{name}: no memory")?,
    }
    Ok(matches!(played, Ok((_, 0))))
}

/// Whether a file belongs to a row or a case beside it. `rt try` hands a program only the files that its arguments
/// name.
fn is_beside(path: &str) -> bool {
    path.ends_with(".effects")
        || path.ends_with(".stderr")
        || path.ends_with(".status")
        || path.ends_with(".refusal")
}

/// Plays the file that a path names, by its ending.
fn play_path<R: Files + Print + AllocGlobal>(rt: &R, path: &str) -> io::Result<bool> {
    if path.ends_with(".cases") {
        play_cases(rt, path)
    } else if let Some(name) = path.strip_suffix(".case") {
        play_case(rt, name)
    } else if let Some(name) = path.strip_suffix(".script") {
        play_row(rt, name)
    } else {
        if !is_beside(path) {
            println!(rt; "{path}: neither cases nor a case nor a script")?;
        }
        Ok(is_beside(path))
    }
}

/// The same; a file that can't be read is one that doesn't hold.
fn play_named<R: Files + Print + AllocGlobal>(rt: &R, path: &str) -> io::Result<bool> {
    match play_path(rt, path) {
        Ok(holds) => Ok(holds),
        Err(fault) => {
            println!(rt; "{path}: {fault}")?;
            Ok(false)
        }
    }
}

/// Plays all of a folder of examples: the rows first, and then the cases.
fn play_folder<R: Files + Print + AllocGlobal + Clone + Drop>(
    rt: &R,
    folder: &str,
) -> io::Result<bool> {
    let mut all = true;
    for ending in [".script", ".case"] {
        for file in &files_in(rt, folder, ending)? {
            let path = format!(in rt.alloc(); "{folder}/{file}")?;
            all &= play_named(rt, path.as_str())?;
        }
    }
    Ok(all)
}

/// Plays all case files and examples that lie here.
fn play_here<R: Files + Print + AllocGlobal + Clone + Drop>(rt: &R) -> io::Result<bool> {
    let mut all = true;
    for file in &files_in(rt, ".", ".cases")? {
        all &= play_named(rt, file.as_str())?;
    }
    for folder in &folders_in(rt, EXAMPLES)? {
        let path = format!(in rt.alloc(); "{EXAMPLES}/{folder}")?;
        all &= play_folder(rt, path.as_str())?;
    }
    Ok(all)
}

/// Plays the script on standard input by the engine's calls, and calls that take no memory.
fn play_calls<R: Input + Print + AllocGlobal>(rt: &R) -> io::Result<bool> {
    for stop in [script::run(rt), calls::run(rt.alloc())] {
        if let Err(stop) = stop {
            println!(rt; "{stop}")?;
            return Ok(false);
        }
    }
    Ok(true)
}

/// Plays each file that the arguments name, or all there is, prints what became of it, and tells whether all holds.
pub fn play<R>(rt: &R) -> io::Result<bool>
where
    R: Env + Eprint + Files + Input + Print + AllocGlobal + Clone + Drop,
{
    let mut all = true;
    let mut is_named = false;
    for path in env::args(rt)?.skip(1) {
        is_named = true;
        all &= play_named(rt, path.as_str())?;
    }
    if is_named {
        return Ok(all);
    }
    Ok(play_here(rt)? & trial::run(rt)? & play_calls(rt)?)
}
