//! A row or a case, by the name that its files have.

use super::cases::{Play, judge};
use super::rows::{Row, file, file_or_nothing};
use std::io;
use std::rt::Files;

/// Plays a row, and prints whether it holds.
pub fn play_row<R: Files + Print + AllocGlobal>(rt: &R, name: &str) -> io::Result<bool> {
    let row = Row::read(rt, name)?;
    let holds = row.holds(rt.alloc())?;
    println!(rt; "{name} {}", if holds { "ok" } else { "differs" })?;
    Ok(holds)
}

/// Whether a case spells the row that stands beside it under its name; without one there is nothing to compare.
fn is_as_row<R: Files + AllocGlobal>(rt: &R, name: &str, play: &Play) -> io::Result<bool> {
    let script = file_or_nothing(rt, name, "script")?;
    if script.is_empty() {
        return Ok(true);
    }
    let effects = file(rt, name, "effects")?;
    Ok(play.spells(script.as_slice(), effects.as_slice()))
}

/// What there is to tell of a case that doesn't hold, each line without the file's name; nothing of one that does.
fn told_of<R: Files + AllocGlobal>(rt: &R, name: &str) -> io::Result<String> {
    let case = file(rt, name, "case")?;
    let told = match judge(rt.alloc(), case.as_slice()) {
        Err(fault) => fault.told(rt.alloc()),
        Ok(play) if is_as_row(rt, name, &play)? => Ok(String::new(rt.alloc())),
        Ok(_) => String::from_str(rt.alloc(), "1: the row of this name has other bytes\n"),
    };
    Ok(told?)
}

/// Plays a case, and prints whether it holds, or is refused as it is to be: what is told then is written down.
pub fn play_case<R: Files + Print + AllocGlobal>(rt: &R, name: &str) -> io::Result<bool> {
    let told = told_of(rt, name)?;
    let wanted = file_or_nothing(rt, name, "refusal")?;
    if told.as_bytes() == wanted.as_slice() {
        println!(rt; "{name}.case ok")?;
        return Ok(true);
    }
    if told.is_empty() {
        println!(rt; "{name}.case holds, and is to be refused")?;
    }
    for line in told.lines() {
        println!(rt; "{name}.case:{line}")?;
    }
    Ok(false)
}
