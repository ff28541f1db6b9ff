//! Scripts: the item at the front of a text, and whole replays.

use crate::text::{block_of, push_words};
use crate::words::push_shown_in_brackets;
use proxy_replay::{ReplayFault, replay};
use proxy_script::{Item, LeadingItemReading, read_item};
use std::alloc::AllocError;

fn write_item(text: &mut String, item: Item<'_>) -> Result<(), AllocError> {
    push_words(text, item)?;
    match block_of(item) {
        Some(bytes) => {
            text.push(' ')?;
            push_shown_in_brackets(text, bytes)
        }
        None => Ok(()),
    }
}

/// Writes the item at the front of a script or of its rest, with its bytes in brackets, and what is behind it.
pub fn write_front(text: &mut String, first: bool, script: &[u8]) -> Result<(), AllocError> {
    match read_item(first, script) {
        LeadingItemReading::Found(item, rest) => {
            write_item(text, item)?;
            write_behind(text, " then ", rest)
        }
        LeadingItemReading::Cut => text.push_str("cut"),
        LeadingItemReading::Wrong => text.push_str("wrong"),
    }
}

/// Writes bytes in brackets behind a word, where there are any.
fn write_behind(text: &mut String, word: &str, bytes: &[u8]) -> Result<(), AllocError> {
    if bytes.is_empty() {
        return Ok(());
    }
    text.push_str(word)?;
    push_shown_in_brackets(text, bytes)
}

/// Writes how a replay ends, with the exit status of a fault.
fn write_end(text: &mut String, ended: &Result<(), ReplayFault>) -> Result<(), AllocError> {
    match ended {
        Ok(()) => text.push_str("done"),
        Err(fault) => write!(text, "{fault}, status {}", fault.exit_status()),
    }
}

/// Replays a script, and writes how that ends and the text of its effects.
pub fn write_replay(text: &mut String, script: &[u8]) -> Result<(), AllocError> {
    let alloc = *text.allocator();
    let mut reader = script;
    let mut effects = Vec::new(alloc);
    let ended = replay(alloc, &mut reader, &mut effects);
    write_end(text, &ended)?;
    write_behind(text, " ", effects.as_slice())
}
