//! What a table would decide otherwise than another one, of the requests in a log.

use crate::meeting::{RequestToCheck, TableVerdict, parse_question, verdict_in_table};
use hx_allow::Table;
use hx_fields::Bytes;
use hx_policy::Policy;
use proxy_files::{CommandFailure, fault_of, system_call_words};
use std::alloc::Global;
use std::collections::BTreeMap;
use std::io::{BufRead, BufReader};
use std::net::SocketAddrV4;
use std::rt::Files;
use std::{fs, io, str};

/// Kinds of changes that are told, at most.
const MOST_TOLD: usize = 100;

/// Where a request goes.
#[derive(Clone, Copy, PartialEq, Eq)]
enum Way {
    /// To this origin, by these words of its line.
    To(SocketAddrV4, Policy),
    Denied,
    Purged,
    Refused,
}

fn way_of(config: &Table, met: TableVerdict) -> Way {
    match met {
        TableVerdict::Allowed(line) => match config.origin_address(line) {
            Some(origin) => Way::To(origin, config.line_policy(line)),
            None => Way::Denied,
        },
        TableVerdict::DeniedBy(_) => Way::Denied,
        TableVerdict::NoLine => Way::Denied,
        TableVerdict::Looped(_) => Way::Denied,
        TableVerdict::Purged(_) => Way::Purged,
        TableVerdict::Refused => Way::Refused,
    }
}

/// Requests that the tables decide in the same two ways: how many, and the first of them.
#[derive(Drop)]
struct Change {
    count: u64,
    first: String,
}

/// What was found in a log.
#[derive(Drop)]
struct Found {
    /// Lines that have a request.
    asked: u64,
    /// Lines whose request can't be asked about: none was read, or it has bytes that the log doesn't show.
    passed_over: u64,
    changes: BTreeMap<(TableVerdict, TableVerdict), Change>,
}

/// The request of a line of the log: its third and fourth words, a method and a URL.
fn question_of_line(line: &str) -> Option<RequestToCheck<'_>> {
    let (_moment, rest) = line.split_once(' ')?;
    let (_client, rest) = rest.split_once(' ')?;
    let (method, behind) = rest.split_once(' ')?;
    let (target, _) = behind.split_once(' ')?;
    let length = method.len().saturating_add(1).saturating_add(target.len());
    let asked = rest.get(..length)?;
    if asked.contains('\\') {
        return None;
    }
    parse_question(asked)
}

/// The two tables: the one that is checked, and the one that it is compared with.
#[derive(Clone, Copy)]
struct Tables<'a> {
    new: &'a Table,
    old: &'a Table,
}

/// The cookies whose requests go past the store, where they go on.
fn session_cookies(config: &Table, met: TableVerdict) -> &[Bytes] {
    match met {
        TableVerdict::Allowed(line) => config.session_cookies(line),
        _ => &[],
    }
}

/// The fields that count as if the Vary of its answer named them.
fn vary(config: &Table, met: TableVerdict) -> &[Bytes] {
    match met {
        TableVerdict::Allowed(line) => config.vary(line),
        _ => &[],
    }
}

fn are_same(names: &[Bytes], others: &[Bytes]) -> bool {
    let mut pairs = names.iter().zip(others.iter());
    names.len() == others.len() && pairs.all(|(name, other)| name.as_slice() == other.as_slice())
}

/// Whether a request goes the same way in both tables, whatever its cookies, and its answer varies alike.
fn goes_alike(tables: Tables<'_>, new: TableVerdict, old: TableVerdict) -> bool {
    way_of(tables.new, new) == way_of(tables.old, old)
        && are_same(
            session_cookies(tables.new, new),
            session_cookies(tables.old, old),
        )
        && are_same(vary(tables.new, new), vary(tables.old, old))
}

/// Compares what a request meets in the two tables.
fn compare_question(
    alloc: Global,
    tables: Tables<'_>,
    question: &RequestToCheck<'_>,
    found: &mut Found,
) -> Result<(), CommandFailure> {
    let new = verdict_in_table(alloc, tables.new, question)?;
    let old = verdict_in_table(alloc, tables.old, question)?;
    if goes_alike(tables, new, old) {
        return Ok(());
    }
    if let Some(change) = found.changes.get_mut(&(old, new)) {
        change.count = change.count.saturating_add(1);
        return Ok(());
    }
    let first = String::from_str(alloc, question.text)?;
    match found.changes.insert((old, new), Change { count: 1, first }) {
        Ok(_) => Ok(()),
        Err(_) => Err(CommandFailure::NoMemory),
    }
}

/// Compares what the request of a line of the log meets.
fn compare_line(
    alloc: Global,
    tables: Tables<'_>,
    line: &[u8],
    found: &mut Found,
) -> Result<(), CommandFailure> {
    found.asked = found.asked.saturating_add(1);
    let question = match str::from_utf8(line) {
        Ok(line) => question_of_line(line),
        Err(_) => None,
    };
    match question {
        Some(question) => compare_question(alloc, tables, &question, found),
        None => {
            found.passed_over = found.passed_over.saturating_add(1);
            Ok(())
        }
    }
}

/// Why a log can't be read.
fn log_fault(alloc: Global, path: &str, error: &io::Error) -> CommandFailure {
    let words = system_call_words(alloc, "the log ", path, " can't be read", error);
    fault_of(error, CommandFailure::Read(words))
}

/// Compares what the requests of a log meet.
fn compare_log<R: Files + AllocGlobal>(
    rt: &R,
    tables: Tables<'_>,
    path: &str,
) -> Result<Found, CommandFailure> {
    let alloc = rt.alloc();
    let mut found = Found {
        asked: 0,
        passed_over: 0,
        changes: BTreeMap::new(alloc),
    };
    let file = match fs::open(rt, path) {
        Ok(file) => file,
        Err(e) => return Err(log_fault(alloc, path, &e)),
    };
    let Ok(mut reader) = BufReader::new(alloc, file) else {
        return Err(CommandFailure::NoMemory);
    };
    let mut line = Vec::new(alloc);
    for _ in 0..u64::MAX {
        line.clear();
        match reader.read_until(b'\n', &mut line) {
            Ok(0) => return Ok(found),
            Ok(_) => compare_line(alloc, tables, line.as_slice(), &mut found)?,
            Err(e) => return Err(log_fault(alloc, path, &e)),
        }
    }
    Ok(found)
}

/// Tells what a request meets, and where it goes.
fn print_met<R: Print>(rt: &R, word: &str, config: &Table, met: TableVerdict) -> io::Result<()> {
    match met {
        TableVerdict::Allowed(line) => println!(rt;
            "    {word} {met}, origin {}",
            config.origin(line)
        ),
        _ => println!(rt; "    {word} {met}"),
    }
}

/// Tells what was found.
fn print_found<R: Print>(rt: &R, tables: Tables<'_>, found: &Found) -> io::Result<()> {
    let mut differ = 0u64;
    for (_, change) in found.changes.iter() {
        differ = differ.saturating_add(change.count);
    }
    println!(rt;
        "of {} requests in the log {differ} would be decided otherwise",
        found.asked
    )?;
    if found.passed_over > 0 {
        println!(rt;
            "{} lines have no request that can be asked about",
            found.passed_over
        )?;
    }
    for (met, change) in found.changes.iter().take(MOST_TOLD) {
        println!(rt; "{} as {}", change.count, change.first)?;
        print_met(rt, "before", tables.old, met.0)?;
        print_met(rt, "now", tables.new, met.1)?;
    }
    Ok(())
}

/// Tells which requests of a log a table decides otherwise than another one: they go to another origin, their line has
/// other words, or one of the tables denies them.
pub fn print_comparison_of_tables<R: Print + Files + AllocGlobal>(
    rt: &R,
    new: &Table,
    old: &Table,
    log: &str,
) -> Result<(), CommandFailure> {
    let tables = Tables { new, old };
    let found = compare_log(rt, tables, log)?;
    match print_found(rt, tables, &found) {
        Ok(()) => Ok(()),
        Err(_) => Err(CommandFailure::Write(None)),
    }
}
