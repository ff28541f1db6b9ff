//! What the replay of a script gives.

use crate::text::Effect;
use proxy_replay::{ReplayFault, replay, replay_over_list_shelf};
use std::alloc::{AllocError, Global};

/// The text of a replay; the line of its fault stands behind it as a last effect.
fn with_end(text: Vec<u8>, end: Result<(), ReplayFault>) -> Result<Vec<u8>, AllocError> {
    let mut text = text;
    if let Err(fault) = end {
        let status = fault.exit_status();
        let line = format!(in *text.allocator(); "stops with status {status}: {fault}")?;
        Effect::Stop(line.as_bytes()).push_text(&mut text)?;
    }
    Ok(text)
}

/// What the replay of a script gives.
pub fn played(alloc: Global, script: &[u8]) -> Result<Vec<u8>, AllocError> {
    let mut reader = script;
    let mut text = Vec::new(alloc);
    let end = replay(alloc, &mut reader, &mut text);
    with_end(text, end)
}

/// The same over a shelf that is a list.
pub fn played_on_list(alloc: Global, script: &[u8]) -> Result<Vec<u8>, AllocError> {
    let mut reader = script;
    let mut text = Vec::new(alloc);
    let end = replay_over_list_shelf(alloc, &mut reader, &mut text);
    with_end(text, end)
}
