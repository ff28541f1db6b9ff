//! Stored responses that may be sent. A case has them one by one: `stored 1 at 0`, with the number that is answered and
//! the moment when it came, or `stored 1 at 2, asked for at 0`, and its lines; `, purged at 5` behind it where a purge
//! expired it then; behind `for` the lines of the request that it answered. Last comes the request, as `at 59 GET`.
//!
//! `cache off` may stand in front of all: the request then goes over a line without cache; or `words` with the words of
//! its line.
//!
//! A response without a Date is given that of its moment. `hit 1` is answered, or `forward` with the number and the
//! name of the least rule against it, and which response that one is about.

use crate::lines::{Fault, Line};
use crate::parts::{Part, write_word_answer};
use crate::policies::policy_of;
use crate::requests::asked_of;
use hx_age::Times;
use hx_directives::Directives;
use hx_fields::{Bytes, Fields, START_OF_YEAR_10000};
use hx_hop::{Asked, dated};
use hx_policy::Policy;
use hx_reuse::{Decision, ErrorRule, decide, may_serve_on_error};
use hx_store::{Entry, ListShelf, Shelf};
use hx_vary::{Nominated, Nomination};
use std::alloc::{AllocError, Global};

/// The most responses of a case.
const MOST_STORED: usize = 9;

/// What the line of a stored response says.
#[derive(Clone, Copy)]
struct Stored {
    serial: u64,
    asked_at: u64,
    stored_at: u64,
    purged_at: Option<u64>,
}

/// What stands in front of `, purged at SECOND`, and that second.
pub fn before_purge(text: &str) -> Option<(&str, Option<u64>)> {
    match text.split_once(", purged at ") {
        Some((before, moment)) => Some((before, Some(moment.parse::<u64>().ok()?))),
        None => Some((text, None)),
    }
}

/// The times of a response that a purge expired at a moment, if any did.
pub fn purged(times: Times, purged_at: Option<u64>) -> Times {
    match purged_at {
        Some(moment) => times.times_once_purged_at(moment),
        None => times,
    }
}

fn stored_line(text: &str) -> Option<Stored> {
    let (text, purged_at) = before_purge(text)?;
    let (serial, moments) = text.strip_prefix("stored ")?.split_once(" at ")?;
    let (stored_at, asked_at) = moments
        .split_once(", asked for at ")
        .unwrap_or((moments, moments));
    Some(Stored {
        serial: serial.parse::<u64>().ok()?,
        asked_at: asked_at.parse::<u64>().ok()?,
        stored_at: stored_at.parse::<u64>().ok()?,
        purged_at,
    })
}

fn nominated(
    alloc: Global,
    line: Line<'_>,
    fields: &Fields,
    asked: &Asked,
) -> Result<Nominated, Fault> {
    match Nominated::of(alloc, fields, &asked.fields)? {
        Nomination::Names(nominated) => Ok(nominated),
        Nomination::Star => Err(line.fault("with a star in Vary it is never stored")),
    }
}

/// A stored response of the content `hi`, which answered this request. Faults name `line`.
pub fn entry_of(
    alloc: Global,
    line: Line<'_>,
    serial: u64,
    asked: &Asked,
    fields: Fields,
    times: Times,
) -> Result<Entry, Fault> {
    let nominated = nominated(alloc, line, &fields, asked)?;
    let directives = Directives::of(alloc, &fields)?;
    Ok(Entry {
        serial,
        key: asked.target.key.copy(alloc)?,
        nominated,
        status: 200,
        times,
        fields,
        directives,
        content: Bytes::copy_of(alloc, b"hi")?,
    })
}

/// A copy of the lines, with a Date.
fn dated_at(alloc: Global, line: Line<'_>, fields: &Fields, now: u64) -> Result<Fields, Fault> {
    if now < START_OF_YEAR_10000 {
        Ok(dated(fields.copy(alloc)?, now)?)
    } else {
        Err(line.fault("a moment that no date names"))
    }
}

/// The response of a part that begins with `stored`, which answered a GET of these lines.
fn stored_of(alloc: Global, part: &Part<'_>, asked: &Fields) -> Result<Entry, Fault> {
    let line = part.head;
    let Some(stored) = stored_line(line.text) else {
        return Err(line.fault("no `stored NUMBER at SECOND`"));
    };
    let asked = asked_of(alloc, line, "GET", asked)?;
    let fields = dated_at(alloc, line, &part.fields, stored.stored_at)?;
    let times = Times::of(&fields, stored.asked_at, stored.stored_at);
    let times = purged(times, stored.purged_at);
    entry_of(alloc, line, stored.serial, &asked, fields, times)
}

fn put_in_shelf(shelf: &mut ListShelf, line: Line<'_>, entry: Entry) -> Result<(), Fault> {
    if shelf.contains(entry.serial) {
        return Err(line.fault("a number that stands twice"));
    }
    match shelf.put(entry, &[]) {
        Ok(None) => Ok(()),
        Ok(Some(_)) => Err(line.fault("more than nine stored responses")),
        Err(_) => Err(Fault::OutOfMemory),
    }
}

fn is_for(parts: &[Part<'_>], i: usize) -> bool {
    match parts.get(i) {
        Some(part) => part.head.text == "for",
        None => false,
    }
}

/// The lines of the request that the response at a place answered.
fn request_behind_response(
    alloc: Global,
    parts: &[Part<'_>],
    i: usize,
) -> Result<Fields, AllocError> {
    match parts.get(i.saturating_add(1)) {
        Some(part) if part.head.text == "for" => part.fields.copy(alloc),
        _ => Ok(Fields::new(alloc)),
    }
}

fn shelf_of(alloc: Global, parts: &[Part<'_>]) -> Result<ListShelf, Fault> {
    let mut shelf = ListShelf::new(alloc, MOST_STORED);
    for (i, part) in parts.iter().enumerate() {
        if part.head.text != "for" {
            let asked = request_behind_response(alloc, parts, i)?;
            put_in_shelf(&mut shelf, part.head, stored_of(alloc, part, &asked)?)?;
        } else if i == 0 || is_for(parts, i.saturating_sub(1)) {
            return Err(part.head.fault("`for` without a stored response before it"));
        }
    }
    Ok(shelf)
}

/// The moment and the request of a part that begins with `at`.
fn asked_at(alloc: Global, part: &Part<'_>) -> Result<(u64, Asked), Fault> {
    let Some((now, request)) = at_line(part.head.text) else {
        return Err(part.head.fault("no `at SECOND` with a request"));
    };
    Ok((now, asked_of(alloc, part.head, request, &part.fields)?))
}

fn at_line(text: &str) -> Option<(u64, &str)> {
    let (now, request) = text.strip_prefix("at ")?.split_once(' ')?;
    Some((now.parse::<u64>().ok()?, request))
}

fn decision_on(
    alloc: Global,
    shelf: &ListShelf,
    asked: &Asked,
    now: u64,
    policy: Policy,
) -> Result<Decision, AllocError> {
    let directives = Directives::of(alloc, &asked.fields)?;
    decide(alloc, asked, &directives, shelf, now, policy)
}

fn write_decision(text: &mut String, decision: Decision) -> Result<(), AllocError> {
    match decision {
        Decision::Hit(serial) => write!(text, "hit {serial}"),
        Decision::Forward(rule, None) => write!(text, "forward {} {:?}", rule.number(), rule),
        Decision::Forward(rule, Some(serial)) => {
            write!(text, "forward {} {:?} {serial}", rule.number(), rule)
        }
    }
}

/// Writes what is decided of the request that stands behind the stored responses.
fn write_decided(
    text: &mut String,
    label: Line<'_>,
    parts: &[Part<'_>],
    policy: Policy,
) -> Result<(), Fault> {
    let [stored @ .., request] = parts else {
        return Err(label.fault("no request"));
    };
    let shelf = shelf_of(*text.allocator(), stored)?;
    let (now, asked) = asked_at(*text.allocator(), request)?;
    let decision = decision_on(*text.allocator(), &shelf, &asked, now, policy)?;
    Ok(write_decision(text, decision)?)
}

/// What the line of the request says of caching, and what follows.
pub fn said_in_front<'a, 'b>(parts: &'a [Part<'b>]) -> Result<(Policy, &'a [Part<'b>]), Fault> {
    let [first, rest @ ..] = parts else {
        return Ok((Policy::plain(true), parts));
    };
    let said = match first.head.text {
        "cache off" => Some(Policy::plain(false)),
        text => policy_of(text),
    };
    match said {
        Some(_) if first.fields.len() > 0 => Err(
            first.head.fault("field lines behind what a line says"),
        ),
        Some(policy) => Ok((policy, rest)),
        None => Ok((Policy::plain(true), parts)),
    }
}

/// What is decided of a request.
pub fn reuse(text: &mut String, label: Line<'_>, parts: &[Part<'_>]) -> Result<(), Fault> {
    let (policy, rest) = said_in_front(parts)?;
    write_decided(text, label, rest, policy)
}

fn on_error_at(
    alloc: Global,
    stored: &Part<'_>,
    request: &Part<'_>,
    policy: Policy,
) -> Result<Result<(), ErrorRule>, Fault> {
    let entry = stored_of(alloc, stored, &Fields::new(alloc))?;
    let (now, asked) = asked_at(alloc, request)?;
    let directives = Directives::of(alloc, &asked.fields)?;
    Ok(may_serve_on_error(&directives, &entry, now, policy))
}

/// Whether a stored response may be sent in place of an error.
pub fn on_error(text: &mut String, label: Line<'_>, parts: &[Part<'_>]) -> Result<(), Fault> {
    let (policy, parts) = said_in_front(parts)?;
    let [stored, request] = parts else {
        return Err(label.fault("not a stored response and a request"));
    };
    match on_error_at(*text.allocator(), stored, request, policy)? {
        Ok(()) => write_word_answer(text, "sent"),
        Err(rule) => Ok(write!(text, "{} {:?}", rule.number(), rule)?),
    }
}
