//! The file of figures, which is written once a second: whole under another name, and then renamed, so that nobody
//! reads a part of one.

use crate::files::read_start;
use std::alloc::AllocError;
use std::fs::OpenOptions;
use std::io::Write;
use std::net::SocketAddr;
use std::os::unix::fs::OpenOptionsExt;
use std::rt::{Clock, Files};
use std::{fs, io, str};

/// How old a page of figures is at most whose program still writes it: one is written each second.
const FRESH_SECONDS: u64 = 3;

/// The program that wrote a page of figures, by its address, if that was so many seconds ago at most.
fn writer_of(page: &str, now: u64) -> Option<&str> {
    for line in page.lines() {
        if let Some(rest) = line.strip_prefix("revcache_stats_time_seconds{listen=\"") {
            let (address, value) = rest.split_once("\"} ")?;
            let (seconds, _) = value.split_once('.')?;
            let written = seconds.parse::<u64>().ok()?;
            return if now.abs_diff(written) <= FRESH_SECONDS {
                Some(address)
            } else {
                None
            };
        }
    }
    None
}

fn tell_of_writer<R: Eprint>(rt: &R, other: &str, path: &str) {
    let _ = eprintln!(rt;
        "warning: the program on {other} writes its figures into {path}, too: give each a file of its own"
    );
}

/// Tells where another program writes its figures into the same file: they would be those of the one that wrote last.
pub fn warn_of_other_writer<R: Files + Clock + Eprint + AllocGlobal>(
    rt: &R,
    path: Option<&str>,
    address: SocketAddr,
) {
    let (Some(path), Ok(now)) = (path, rt.since_1970()) else {
        return;
    };
    let (Some(front), Ok(own)) = (read_start(rt, path), address.to_string(rt.alloc())) else {
        return;
    };
    let page = str::from_utf8(front.as_slice()).unwrap_or("");
    let Some(other) = writer_of(page, now.as_secs()) else {
        return;
    };
    if other != own.as_str() {
        tell_of_writer(rt, other, path);
    }
}

/// Where the figures are written.
#[derive(Drop)]
pub struct StatsFile<'a> {
    path: &'a str,
    /// What it is called until it is whole.
    part: String,
}

impl<'a> StatsFile<'a> {
    pub fn new<R: AllocGlobal>(rt: &R, path: &'a str) -> Result<StatsFile<'a>, AllocError> {
        Ok(StatsFile {
            path,
            part: format!(in rt.alloc(); "{path}.tmp")?,
        })
    }

    /// Writes a page in place of the one before.
    pub fn write<R: Files>(&self, rt: &R, page: &[u8]) -> io::Result<()> {
        let mut how = OpenOptions::new();
        // Whoever watches may read it, and nobody else write it, whatever the umask.
        how.write(true).create(true).truncate(true).mode(0o644);
        let mut file = how.open(rt, self.part.as_str())?;
        file.write_all(page)?;
        fs::rename(rt, self.part.as_str(), self.path)
    }
}
