//! The commit that the program was built from, which no build can know.

use std::alloc::{AllocError, Global};
use std::fs;
use std::io::Read;
use std::rt::Files;

/// Where `tools/stamp` writes the commit into a program that was built. It stands there once, and has as many bytes as
/// a hash.
const COMMIT: &[u8] = b"-the-commit-is-written-here-by-its-tool-";

/// How many bytes can be read where there are none.
fn count_read_of_nothing<R: Files>(rt: &R) -> usize {
    let mut buf = [0u8; 1];
    match fs::open(rt, "/dev/null") {
        Ok(mut file) => file.read(&mut buf).unwrap_or(0),
        Err(_) => 0,
    }
}

/// A text that isn't what stands in a program for its commit; else an empty one.
fn commit_if_written(alloc: Global, text: String) -> String {
    if text.as_str().starts_with('-') {
        String::new(alloc)
    } else {
        text
    }
}

/// The commit; empty where none was written in. Its only error is out of memory.
pub(crate) fn commit_of<R: Files + AllocGlobal>(rt: &R) -> Result<String, AllocError> {
    // A compiler that knows from where on the bytes are taken puts their values into the code, where a tool doesn't
    // find them.
    let bytes = COMMIT.get(count_read_of_nothing(rt)..).unwrap_or(COMMIT);
    let text = Vec::from_slice(rt.alloc(), bytes)?;
    match String::from_utf8(text) {
        Ok(text) => Ok(commit_if_written(rt.alloc(), text)),
        Err(_error) => Ok(String::new(rt.alloc())),
    }
}
