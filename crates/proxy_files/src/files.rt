//! The operator's table, from its file, and the front of a file of the system.
ghost use Rattle.std.specs.Prelude.{IfOk, IfSome};
ghost use Rattle.proxy_files.specs.TableFiles.{IsWholeOrTooLong, NoTableIsTruncated};

use crate::command_fault::{CommandFailure, fault_of, system_call_words};
use hx_allow::MOST_TABLE_BYTES;
use hx_allow::laws::a_table_is_toml_within_the_limit;
use std::alloc::Global;
use std::io::{ErrorKind, Read};
use std::rt::Files;
use std::{fs, io};

/// The most bytes of a table, and one more: what is longer is no table, however long it is.
const MOST_FILE_BYTES: u64 = MOST_TABLE_BYTES as u64 + 1;

/// What was read of a file, and is taken as a table, is all of that file.
pub fn no_table_is_truncated()
    ensures { NoTableIsTruncated }
{
    a_table_is_toml_within_the_limit();
}

/// All that a reader gives, or so much of it that it is none of a table.
fn read_most<F: Read + Drop>(alloc: Global, file: F) -> io::Result<Vec<u8>>
    ensures { IfOk result (λ text. IfSome (F.remaining file) (IsWholeOrTooLong text.items)) }
{
    let mut text = Vec::new(alloc);
    let mut front = file.take(MOST_FILE_BYTES);
    front.read_to_end(&mut text)?;
    Ok(text)
}

/// The most bytes of a file of questions.
const MOST_QUESTION_BYTES: u64 = 16_777_216;

fn read_text<R: Files + AllocGlobal>(rt: &R, path: &str) -> io::Result<String> {
    let mut text = String::new(rt.alloc());
    let file = fs::open(rt, path)?;
    file.take(MOST_QUESTION_BYTES + 1)
        .read_to_string(&mut text)?;
    if text.len() as u64 > MOST_QUESTION_BYTES {
        return Err(io::Error::from(ErrorKind::InvalidData));
    }
    Ok(text)
}

/// The text of a file of questions, of 16 MiB at most.
pub fn read_questions<R: Files + AllocGlobal>(
    rt: &R,
    path: &str,
) -> Result<String, CommandFailure> {
    match read_text(rt, path) {
        Ok(text) => Ok(text),
        Err(e) => {
            let words = system_call_words(rt.alloc(), "the questions ", path, " can't be read", &e);
            Err(fault_of(&e, CommandFailure::Read(words)))
        }
    }
}

fn read_some<R: Files + AllocGlobal>(rt: &R, path: &str) -> io::Result<Vec<u8>> {
    read_most(rt.alloc(), fs::open(rt, path)?)
}

/// The most that is read of a file of the system.
const MOST_START_BYTES: u64 = 4096;

/// The first bytes of a file of the system, if it can be read.
pub fn read_start<R: Files + AllocGlobal>(rt: &R, path: &str) -> Option<Vec<u8>> {
    let mut text = Vec::new(rt.alloc());
    let file = fs::open(rt, path).ok()?;
    file.take(MOST_START_BYTES).read_to_end(&mut text).ok()?;
    Some(text)
}

/// The bytes of a table's file, as far as they matter.
pub fn read_table<R: Files + AllocGlobal>(rt: &R, path: &str) -> Result<Vec<u8>, CommandFailure> {
    match read_some(rt, path) {
        Ok(text) => Ok(text),
        Err(e) => {
            let words = system_call_words(rt.alloc(), "the table ", path, " can't be read", &e);
            Err(fault_of(&e, CommandFailure::Read(words)))
        }
    }
}
