//! How many descriptors the process may have, and how many it may want.
ghost use Rattle.std.specs.Prelude.{◌≡◌};
ghost use Rattle.proxy_files.specs.Descriptors.{descriptors_wanted, connections_within_descriptors};

use crate::files::read_start;
use std::rt::Files;
use std::{fs, str};

/// The listener, the log, the record, the table, and what the system wants besides.
const OTHER_DESCRIPTORS: u64 = 16;

/// The most descriptors for so many connections of clients, and so many to an origin.
pub fn descriptors_wanted(connections: u64, links: u64) -> u64
    ensures { result ≡ descriptors_wanted connections links }
{
    connections
        .saturating_add(links)
        .saturating_add(OTHER_DESCRIPTORS)
}

/// How many connections of clients there can be where so many descriptors are allowed: a quarter of them at most is for
/// origins.
pub fn connections_within_descriptors(allows: u64, links: u64) -> u64
    ensures { result ≡ connections_within_descriptors allows links }
{
    allows
        .saturating_sub(links.min(allows / 4))
        .saturating_sub(OTHER_DESCRIPTORS)
        .max(1)
}

/// The number behind the words of a line of the system.
fn number_of(text: &str) -> Option<u64> {
    for line in text.lines() {
        if let Some(rest) = line.strip_prefix("Max open files") {
            let word = rest.split_whitespace().next()?;
            return word.parse::<u64>().ok();
        }
    }
    None
}

/// The descriptors that are open, where the system tells: since Linux 6.2 it is the size of this folder, else 0. To go
/// over its names would hold everything up where there are tens of thousands.
pub fn descriptors_open<R: Files>(rt: &R) -> Option<u64> {
    let size = fs::metadata(rt, "/proc/self/fd").ok()?.len();
    if size > 0 { Some(size) } else { None }
}

/// The descriptors that the process may have, where the system tells.
pub fn descriptors_allowed<R: Files + AllocGlobal>(rt: &R) -> Option<u64> {
    let text = read_start(rt, "/proc/self/limits")?;
    number_of(str::from_utf8(text.as_slice()).ok()?)
}
