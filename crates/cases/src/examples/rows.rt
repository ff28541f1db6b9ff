//! Rows: scripts with their effects in a file beside them.

use super::pieces::byte_by_byte;
use super::played::{played, played_on_list};
use bstr::ByteSlice;
use std::alloc::{AllocError, Global};
use std::io::ErrorKind;
use std::rt::Files;
use std::{fs, io};

/// What is written down under this name and ending.
pub fn file<R: Files + AllocGlobal>(rt: &R, name: &str, ending: &str) -> io::Result<Vec<u8>> {
    let path = format!(in rt.alloc(); "{name}.{ending}")?;
    fs::read(rt, path.as_str())
}

/// The same, or nothing where there is no such file.
pub fn file_or_nothing<R: Files + AllocGlobal>(
    rt: &R,
    name: &str,
    ending: &str,
) -> io::Result<Vec<u8>> {
    match file(rt, name, ending) {
        Err(e) if e.kind() == ErrorKind::NotFound => Ok(Vec::new(rt.alloc())),
        read => read,
    }
}

/// The line of the fault by which a row ends, as a last effect, or nothing.
fn stop_of<R: Files + AllocGlobal>(rt: &R, name: &str) -> io::Result<Vec<u8>> {
    let line = file_or_nothing(rt, name, "stderr")?;
    let status = file_or_nothing(rt, name, "status")?;
    let mut stop = Vec::new(rt.alloc());
    if !line.is_empty() || !status.is_empty() {
        stop.extend_from_slice(b"stops with status ")?;
        stop.extend_from_slice(status.strip_suffix(b"\n").unwrap_or(b"without a line"))?;
        stop.extend_from_slice(b": ")?;
        stop.extend_from_slice(line.as_slice())?;
    }
    Ok(stop)
}

/// What is written down of a row: its script, the text of its effects, and the line of its fault.
pub struct Row {
    script: Vec<u8>,
    effects: Vec<u8>,
    stop: Vec<u8>,
}

// By hand, so that a scope that ends is one call to the prover and not the drop of each part.
impl Drop for Row {
    fn drop(self) {
        let Row {
            script: _,
            effects: _,
            stop: _,
        } = self;
    }
}

/// The front of a stop, with its status, without the words that may name a line of the script.
fn front_of_stop(stop: &[u8]) -> &[u8] {
    match stop.split_once_str(b": ") {
        Some((front, _)) => front,
        None => stop,
    }
}

impl Row {
    /// The row of this name.
    pub fn read<R: Files + AllocGlobal>(rt: &R, name: &str) -> io::Result<Row> {
        Ok(Row {
            script: file(rt, name, "script")?,
            effects: file(rt, name, "effects")?,
            stop: stop_of(rt, name)?,
        })
    }

    /// Whether a replay gave what is written down.
    fn is_played(&self, text: &[u8]) -> bool {
        text.strip_prefix(self.effects.as_slice()) == Some(self.stop.as_slice())
    }

    /// Whether it did but for the words of the fault: where bytes come one at a time a script has other lines.
    fn is_played_cut(&self, text: &[u8]) -> bool {
        match text.strip_prefix(self.effects.as_slice()) {
            Some(stop) => front_of_stop(stop) == front_of_stop(self.stop.as_slice()),
            None => false,
        }
    }

    /// Whether the replay gives what is written down, over a shelf that is a list too, and writes the same and ends
    /// alike where all bytes come one at a time.
    pub fn holds(&self, alloc: Global) -> Result<bool, AllocError> {
        let whole = played(alloc, self.script.as_slice())?;
        let listed = played_on_list(alloc, self.script.as_slice())?;
        let pieces = byte_by_byte(alloc, self.script.as_slice())?;
        let cut = played(alloc, pieces.as_slice())?;
        Ok(
            self.is_played(whole.as_slice())
                && self.is_played(listed.as_slice())
                && self.is_played_cut(cut.as_slice()),
        )
    }
}
