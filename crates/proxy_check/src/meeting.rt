//! A request that is asked about, and what it meets in a table.
ghost use Rattle.std.specs.Prelude.{◌≡◌};
ghost use Rattle.proxy_check.specs.Meeting.{table_verdict_from_verdict};

use http::Method;
use hx_allow::{Table, Verdict};
use hx_fields::{Bytes, Fields};
use hx_target::{Target, TargetFault, read_target};
use proxy_files::CommandFailure;
use std::alloc::Global;
use std::fmt;
use std::fmt::Formatter;

/// A request that is asked about.
#[derive(Clone, Copy)]
pub struct RequestToCheck<'a> {
    /// As it was typed: a method, a blank and a URL.
    pub text: &'a str,
    pub method: &'a str,
    pub host: &'a str,
    /// The path and the query.
    pub path: &'a str,
}

/// The host and the path of a URL. A front takes https away, so both schemes are one here.
fn parts_of(url: &str) -> Option<(&str, &str)> {
    let rest = match url.strip_prefix("http://") {
        Some(rest) => rest,
        None => url.strip_prefix("https://")?,
    };
    match rest.split_once('/') {
        Some((host, _)) => Some((host, rest.strip_prefix(host)?)),
        None => Some((rest, "/")),
    }
}

/// What is asked about, or none where it is no method, blank and URL.
pub fn parse_question(text: &str) -> Option<RequestToCheck<'_>> {
    let (method, url) = text.split_once(' ')?;
    let (host, path) = parts_of(url)?;
    Some(RequestToCheck {
        text,
        method,
        host,
        path,
    })
}

impl<'a> RequestToCheck<'a> {
    /// Whether its URL is one of https.
    pub(crate) fn is_secure(&self) -> bool {
        match self.text.split_once(' ') {
            Some((_, url)) => url.starts_with("https://"),
            None => false,
        }
    }
}

pub(crate) fn target_of(
    alloc: Global,
    question: &RequestToCheck<'_>,
) -> Result<Target, TargetFault> {
    let mut fields = Fields::new(alloc);
    fields.push(b"Host", question.host.as_bytes())?;
    let target = Bytes::copy_of(alloc, question.path.as_bytes())?;
    read_target(alloc, &target, &fields)
}

/// What a request meets in a table. Lines are counted from 1.
#[derive(Clone, Copy, PartialEq, Eq, PartialOrd, Ord)]
pub(crate) enum TableVerdict {
    /// This line allows it.
    Allowed(u16),
    /// This line denies it.
    DeniedBy(u16),
    /// No line allows it.
    NoLine,
    /// This line refuses it, since it loops.
    Looped(u16),
    /// This line purges for it, since it shows the key.
    Purged(u16),
    /// It is refused before the table is asked.
    Refused,
}

impl TableVerdict {
    /// By what the table says.
    pub(crate) fn by(verdict: Verdict) -> TableVerdict
        ensures { result ≡ table_verdict_from_verdict verdict }
    {
        match verdict {
            Verdict::Allowed(route) => TableVerdict::Allowed(route.number),
            Verdict::DeniedBy(line) => TableVerdict::DeniedBy(line),
            Verdict::NoLine => TableVerdict::NoLine,
            Verdict::Looped(line) => TableVerdict::Looped(line),
            Verdict::Purged(line) => TableVerdict::Purged(line),
        }
    }
}

impl fmt::Display for TableVerdict {
    fn fmt<W: fmt::Write>(&self, f: &mut Formatter<W>) -> fmt::Result {
        match self {
            TableVerdict::Allowed(line) => write!(f, "allowed by line {line}"),
            TableVerdict::DeniedBy(line) => write!(f, "denied by line {line}"),
            TableVerdict::NoLine => write!(f, "denied: no line allows it"),
            TableVerdict::Looped(line) => write!(f, "refused by line {line} as a loop"),
            TableVerdict::Purged(line) => write!(f, "purged by line {line}"),
            TableVerdict::Refused => write!(f, "refused before the table is asked"),
        }
    }
}

/// What a request meets in a table. Fails where it has no method, or for want of memory.
pub(crate) fn verdict_in_table(
    alloc: Global,
    config: &Table,
    question: &RequestToCheck<'_>,
) -> Result<TableVerdict, CommandFailure> {
    let Ok(method) = Method::from_bytes(alloc, question.method.as_bytes()) else {
        return Ok(TableVerdict::Refused);
    };
    match target_of(alloc, question) {
        Ok(target) => Ok(TableVerdict::by(config.judge_target(&method, &target))),
        Err(TargetFault::OutOfMemory) => Err(CommandFailure::NoMemory),
        Err(_) => Ok(TableVerdict::Refused),
    }
}
