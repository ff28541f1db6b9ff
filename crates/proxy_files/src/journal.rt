//! Where the lines of the log go. A write that fails is counted, and never stops a reply.

use std::fs::{OpenFile, OpenOptions};
use std::io::Write;
use std::os::unix::fs::{MetadataExt, OpenOptionsExt};
use std::rt::Files;
use std::{fs, io};

/// A log's file, or standard output.
#[derive(Drop)]
pub enum LogTarget<F: Write + Drop, P: Write + Drop> {
    File(F),
    Print(P),
}

impl<F: Write + Drop, P: Write + Drop> LogTarget<F, P> {
    fn write_all(&mut self, bytes: &[u8]) -> io::Result<()> {
        match self {
            LogTarget::File(file) => file.write_all(bytes),
            LogTarget::Print(writer) => writer.write_all(bytes),
        }
    }
}

/// A writer of lines.
pub struct Journal<F: Write + Drop, P: Write + Drop> {
    target: LogTarget<F, P>,
    /// The lines that couldn't be written.
    lost: u64,
    /// The last write failed, and may have left a part of a line.
    torn: bool,
    /// Nothing names the file any more, and it can't be opened anew: what is written to it is read by nobody.
    is_gone: bool,
    /// Why a write failed, the last one that did, or why the file can't be opened anew.
    why: Option<io::Error>,
    /// How many bytes the file has behind the last line of ours, where that is known.
    length: Option<u64>,
    /// The file was once longer than that.
    is_shared: bool,
}

/// One call drops it, wherever that is.
impl<F: Write + Drop, P: Write + Drop> Drop for Journal<F, P> {
    fn drop(self) {
        let Journal {
            target: _,
            lost: _,
            torn: _,
            is_gone: _,
            why: _,
            length: _,
            is_shared: _,
        } = self;
    }
}

/// The file of a log, to whose end lines are added. A new one is read by its user and group alone: a query may have a
/// password in it.
pub fn open_log_file<R: Files>(rt: &R, path: &str) -> io::Result<R::File> {
    let mut how = OpenOptions::new();
    how.append(true).create(true).mode(0o640);
    how.open(rt, path)
}

/// Whether a path doesn't name this file any more.
fn has_moved<R: Files>(rt: &R, path: &str, file: &R::File) -> bool {
    match (fs::metadata(rt, path), file.metadata()) {
        (Ok(named), Ok(open)) => named.dev() != open.dev() || named.ino() != open.ino(),
        (Err(e), _) => e.kind() == io::ErrorKind::NotFound,
        _ => false,
    }
}

/// Whether no name is left of this file.
fn is_removed<R: Files>(_rt: &R, file: &R::File) -> bool {
    match file.metadata() {
        Ok(open) => open.nlink() == 0,
        Err(_) => false,
    }
}

impl<F: Write + Drop, P: Write + Drop> Journal<F, P> {
    pub fn new(target: LogTarget<F, P>) -> Journal<F, P> {
        Journal {
            target,
            lost: 0,
            torn: false,
            is_gone: false,
            why: None,
            length: None,
            is_shared: false,
        }
    }

    /// How many lines couldn't be written.
    pub fn lost(&self) -> u64 {
        self.lost
    }

    /// Why lines couldn't be written.
    pub fn why(&self) -> Option<&io::Error> {
        self.why.as_ref()
    }

    /// Writes whole lines; an LF in front of them ends what a failed write has left.
    fn write_whole(&mut self, lines: &[u8]) -> io::Result<()> {
        if self.torn {
            // (what was written of the line before isn't known)
            self.length = None;
            self.target.write_all(b"\n")?;
        }
        self.target.write_all(lines)?;
        self.length = match self.length {
            Some(length) => Some(length.saturating_add(lines.len() as u64)),
            None => None,
        };
        Ok(())
    }

    /// Whether it is seen for the first time that another program adds lines to the file: it is longer than what stood
    /// there at the last look and the lines since.
    pub fn finds_lines_of_another_program(&mut self) -> bool
    where
        F: OpenFile,
    {
        let LogTarget::File(file) = &self.target else {
            return false;
        };
        let Ok(open) = file.metadata() else {
            return false;
        };
        let is_longer = self.length.is_some_and(|it| open.len() > it);
        self.length = Some(open.len());
        let is_new = is_longer && !self.is_shared;
        self.is_shared = self.is_shared || is_longer;
        is_new
    }

    /// Writes whole lines, or counts them as lost.
    pub fn write(&mut self, lines: &[u8]) {
        if lines.is_empty() {
            return;
        }
        if !self.is_gone {
            let Err(e) = self.write_whole(lines) else {
                self.torn = false;
                return;
            };
            self.torn = true;
            self.why = Some(e);
        }
        self.count_lost(lines);
    }

    /// Counts whole lines as lost.
    fn count_lost(&mut self, lines: &[u8]) {
        for b in lines {
            if *b == b'\n' {
                self.lost = self.lost.saturating_add(1);
            }
        }
    }

    /// Opens the file anew where its path doesn't name it any more. Where that fails, lines go on into the old one, or
    /// are lost if that was removed.
    pub fn follow<R: Files<File = F>>(&mut self, rt: &R, path: &str) {
        let LogTarget::File(file) = &self.target else {
            return;
        };
        if !has_moved(rt, path, file) {
            return;
        }
        let is_removed = is_removed(rt, file);
        match open_log_file(rt, path) {
            Ok(file) => {
                self.target = LogTarget::File(file);
                self.torn = false;
                self.is_gone = false;
                self.length = None;
            }
            Err(e) if is_removed => {
                self.is_gone = true;
                self.why = Some(e);
            }
            Err(_) => {}
        }
    }
}
