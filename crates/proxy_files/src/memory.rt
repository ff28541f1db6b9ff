//! How much memory the bounds of a table and of a server allow, and how much there is.
ghost use Rattle.std.specs.Prelude.{◌≡◌};
ghost use Rattle.proxy_files.specs.Memory.{most_store_bytes, most_bytes_held_beside_store, megabytes};

use crate::files::read_start;
use hx_allow::Table;
use std::alloc::AllocError;
use std::rt::Files;
use std::{io, str};

/// Bytes of a stored response beside its content, at most: its head, its target twice, and the values that its Vary
/// nominates. A Vary of thousands of names takes more.
const BESIDE_CONTENT: u64 = 80_000;

/// Bytes of a connection, at most.
const CONNECTION: u64 = 16_384;

const MEGABYTE: u64 = 1_000_000;

/// Cgroups that stand inside one another, at most.
const MOST_CGROUPS: u8 = 32;

/// Megabytes, rounded up.
pub fn megabytes(bytes: u64) -> u64
    ensures { result ≡ megabytes bytes }
{
    let whole = bytes / MEGABYTE;
    if bytes % MEGABYTE == 0 {
        whole
    } else {
        whole + 1
    }
}

/// Bytes that the store takes, at most: by the number of its responses, and by what they weigh, where that is bounded.
pub fn most_store_bytes(config: &Table) -> u64
    ensures { result ≡ most_store_bytes config.now.capacity config.now.max_stored config.now.max_store }
{
    let each = (config.max_stored() as u64).saturating_add(BESIDE_CONTENT);
    let by_number = each.saturating_mul(config.capacity() as u64);
    match config.max_store() {
        Some(weight) => by_number.min(weight + weight / 10),
        None => by_number,
    }
}

/// Bytes that are held beside the store, at most: what is in progress, whose room is up to twice its size, and
/// connections.
pub fn most_bytes_held_beside_store(content: usize, connections: usize) -> u64
    ensures { result ≡ most_bytes_held_beside_store content connections }
{
    let contents = (content as u64).saturating_mul(2);
    contents.saturating_add((connections as u64).saturating_mul(CONNECTION))
}

/// Who bounds the memory of this process, and to how many bytes.
#[derive(Clone, Copy)]
pub enum MemoryBound {
    Machine(u64),
    Cgroup(u64),
}

impl MemoryBound {
    pub fn bytes(self) -> u64 {
        match self {
            MemoryBound::Machine(bytes) => bytes,
            MemoryBound::Cgroup(bytes) => bytes,
        }
    }

    /// Who it is, in words.
    pub fn owner(self) -> &'static str {
        match self {
            MemoryBound::Machine(_) => "this machine has",
            MemoryBound::Cgroup(_) => "this cgroup may have",
        }
    }
}

/// The number that stands alone in a file. A cgroup without a bound has a word there.
fn number_in<R: Files + AllocGlobal>(rt: &R, path: &str) -> Option<u64> {
    let text = read_start(rt, path)?;
    let text = str::from_utf8(text.as_slice()).ok()?;
    text.trim().parse::<u64>().ok()
}

/// The memory of the machine, in bytes.
fn machine_memory<R: Files + AllocGlobal>(rt: &R) -> Option<u64> {
    let text = read_start(rt, "/proc/meminfo")?;
    let text = str::from_utf8(text.as_slice()).ok()?;
    for line in text.lines() {
        if let Some(rest) = line.strip_prefix("MemTotal:") {
            let kibibytes = rest.split_whitespace().next()?.parse::<u64>().ok()?;
            return Some(kibibytes.saturating_mul(1024));
        }
    }
    None
}

/// Where the bounds of a cgroup stand.
#[derive(Clone, Copy)]
struct Cgroups<'a> {
    /// The folder of all of them.
    top: &'static str,
    /// The file with the bound of one.
    file: &'static str,
    /// The one of this process, from the top.
    path: &'a str,
}

/// The cgroup that bounds the memory of this process, by a line of what the system tells of it. It is that of the one
/// hierarchy, or of the one for memory.
fn cgroups_of_line(line: &str) -> Option<Cgroups<'_>> {
    let (_, rest) = line.split_once(':')?;
    let (controllers, path) = rest.split_once(':')?;
    if controllers.is_empty() {
        return Some(Cgroups {
            top: "/sys/fs/cgroup",
            file: "memory.max",
            path,
        });
    }
    if controllers.split(',').any(|it| it == "memory") {
        return Some(Cgroups {
            top: "/sys/fs/cgroup/memory",
            file: "memory.limit_in_bytes",
            path,
        });
    }
    None
}

/// The least of two bounds, of which either may be missing.
fn least(a: Option<u64>, b: Option<u64>) -> Option<u64> {
    match (a, b) {
        (Some(a), Some(b)) => Some(a.min(b)),
        (Some(a), None) => Some(a),
        (None, b) => b,
    }
}

/// The least bound of a cgroup and of those that it stands in.
fn bound_of_cgroups<R: Files + AllocGlobal>(
    rt: &R,
    cgroups: &Cgroups<'_>,
) -> Result<Option<u64>, AllocError> {
    let mut found = None;
    let mut path = cgroups.path.trim_end_matches('/');
    for _ in 0..MOST_CGROUPS {
        let name = format!(in rt.alloc(); "{}{path}/{}", cgroups.top, cgroups.file)?;
        found = least(found, number_in(rt, name.as_str()));
        match path.rsplit_once('/') {
            Some((above, _)) => path = above,
            None => return Ok(found),
        }
    }
    Ok(found)
}

/// The least bound of the cgroups of this process.
fn cgroup_memory<R: Files + AllocGlobal>(rt: &R) -> Option<u64> {
    let text = read_start(rt, "/proc/self/cgroup")?;
    let text = str::from_utf8(text.as_slice()).ok()?;
    let mut found = None;
    for line in text.lines() {
        if let Some(cgroups) = cgroups_of_line(line) {
            found = least(found, bound_of_cgroups(rt, &cgroups).ok()?);
        }
    }
    found
}

/// The memory that this process may have, as far as the system tells.
pub fn memory_allowed<R: Files + AllocGlobal>(rt: &R) -> Option<MemoryBound> {
    let machine = machine_memory(rt);
    match cgroup_memory(rt) {
        Some(bytes) if bytes < machine.unwrap_or(u64::MAX) => Some(MemoryBound::Cgroup(bytes)),
        _ => Some(MemoryBound::Machine(machine?)),
    }
}

/// Tells what the store of a table takes, and where that is more than there is.
pub fn print_store_memory<R: Print + Files + AllocGlobal>(
    rt: &R,
    config: &Table,
) -> io::Result<()> {
    let most = most_store_bytes(config);
    println!(rt; "the store takes {} MB at most", megabytes(most))?;
    match memory_allowed(rt) {
        Some(allowed) if allowed.bytes() < most => println!(rt;
            "that is more than the {} MB that {}: lower capacity, max_stored or max_store",
            megabytes(allowed.bytes()),
            allowed.owner()
        ),
        _ => Ok(()),
    }
}
