//! Steps of the core, one after another, each with what it must give.
//!
//! The group's front is the operator's table. A case is a scenario: `at MOMENT, ID asks METHOD PATH`, `at MOMENT, ID is
//! answered STATUS`, `at MOMENT, ID fails KIND`, `at MOMENT, ID is woken`, `at MOMENT, ID is overdue` or `at MOMENT, ID
//! is abandoned`, the first two perhaps `with content TEXT` and with field lines below; then `gives forward`, by the
//! table's first line, or `gives forward by line N`, `gives reply` with what is stored, used and removed, each with the
//! message below, `gives a wait for ID`, `gives the end of its wait`, `gives refusal` with the core's fault, or `gives
//! an end`. The answer is the number of steps.

use crate::case_file::{Case, push_lines};
use crate::field_lines::fields_of;
use crate::lines::{Fault, Line, bytes_spelled};
use crate::requests::asked_of;
use crate::tables::text_of;
use crate::text::push_shown;
use crate::words::fail_kind;
use hx_allow::Table;
use hx_fields::Bytes;
use hx_framing::Response;
use hx_hop::Asked;
use hx_status::FailKind;
use hx_store::ListShelf;
use proxy_core::{Core, CoreFault, Outcome, Reply};
use std::alloc::{AllocError, Global};

/// What happens to an exchange.
#[derive(Clone, Copy)]
enum What<'a> {
    /// A request: its method and its path.
    Asks(&'a str),
    /// The origin's answer: its status, and its content.
    Answered(u16, &'a str),
    /// The origin fails.
    Fails(FailKind),
    /// It was released, and is decided now.
    Woken,
    /// The client is gone.
    Abandoned,
    /// It has waited for another's answer as long as it is to wait.
    Overdue,
}

/// The moment, the exchange and what happens to it.
#[derive(Clone, Copy)]
struct Happens<'a> {
    now: u64,
    id: u64,
    what: What<'a>,
}

/// A step as it is written.
#[derive(Clone, Copy)]
struct Step<'a> {
    happens: Line<'a>,
    fields: &'a [Line<'a>],
    gives: Line<'a>,
    message: &'a [Line<'a>],
}

/// A status, and the content behind it.
fn answered_of(words: &str) -> Option<What<'_>> {
    let (status, content) = words.split_once(" with content ").unwrap_or((words, ""));
    Some(What::Answered(status.parse::<u16>().ok()?, content))
}

fn what_of(words: &str) -> Option<What<'_>> {
    if let Some(request) = words.strip_prefix("asks ") {
        return Some(What::Asks(request));
    }
    if let Some(answer) = words.strip_prefix("is answered ") {
        return answered_of(answer);
    }
    match words {
        "is woken" => return Some(What::Woken),
        "is abandoned" => return Some(What::Abandoned),
        "is overdue" => return Some(What::Overdue),
        _ => {}
    }
    Some(What::Fails(fail_kind(words.strip_prefix("fails ")?)?))
}

fn happens_of(text: &str) -> Option<Happens<'_>> {
    let (now, rest) = text.strip_prefix("at ")?.split_once(", ")?;
    let (id, words) = rest.split_once(' ')?;
    Some(Happens {
        now: now.parse::<u64>().ok()?,
        id: id.parse::<u64>().ok()?,
        what: what_of(words)?,
    })
}

/// Where the first line from a place on stands that begins with this word, or else the end.
fn place_of(lines: &[Line<'_>], from: usize, word: &str) -> usize {
    for (place, line) in lines.iter().enumerate() {
        if place >= from && line.text.starts_with(word) {
            return place;
        }
    }
    lines.len()
}

/// The step that stands from one place to another.
fn step_of<'a>(lines: &'a [Line<'a>], from: usize, to: usize) -> Result<Step<'a>, Fault> {
    let Some(happens) = lines.get(from).copied() else {
        return Err(Fault::At(0, "no step"));
    };
    let behind = from.saturating_add(1);
    let place = place_of(lines, behind, "gives ");
    match lines.get(place).copied() {
        Some(gives) if place < to => Ok(Step {
            happens,
            fields: lines.get(behind..place).unwrap_or(&[]),
            gives,
            message: lines.get(place.saturating_add(1)..to).unwrap_or(&[]),
        }),
        _ => Err(happens.fault("a step that gives nothing")),
    }
}

fn asked_by(alloc: Global, step: &Step<'_>, request: &str) -> Result<Asked, Fault> {
    let fields = fields_of(alloc, step.fields)?;
    asked_of(alloc, step.happens, request, &fields)
}

fn response_of(
    alloc: Global,
    step: &Step<'_>,
    status: u16,
    content: &str,
) -> Result<Response, Fault> {
    Ok(Response {
        status,
        fields: fields_of(alloc, step.fields)?,
        content: Bytes::from_vec(bytes_spelled(alloc, step.happens, content)?),
        announced: None,
    })
}

/// What a step gives, or the core's refusal.
fn outcome_of(
    alloc: Global,
    core: &mut Core<ListShelf>,
    step: &Step<'_>,
) -> Result<Result<Outcome, CoreFault>, Fault> {
    let Some(happens) = happens_of(step.happens.text) else {
        return Err(step.happens.fault("not `at MOMENT, ID` with what happens"));
    };
    match happens.what {
        What::Asks(request) => {
            let asked = asked_by(alloc, step, request)?;
            Ok(core.arrive(alloc, happens.now, happens.id, &asked))
        }
        What::Answered(status, content) => {
            let response = response_of(alloc, step, status, content)?;
            Ok(
                core.answer(alloc, happens.now, happens.id, &response)
                    .map(|done| done.outcome),
            )
        }
        _ if !step.fields.is_empty() => Err(
            step.happens.fault("field lines where there is no message"),
        ),
        What::Fails(kind) => Ok(
            core.fail(alloc, happens.now, happens.id, kind)
                .map(|done| done.outcome),
        ),
        What::Woken => Ok(
            core.wake(alloc, happens.now, happens.id)
                .map(|done| done.outcome),
        ),
        What::Abandoned => Ok(core.abandon(happens.id)),
        What::Overdue => Ok(core.end_wait_on_timeout(happens.id)),
    }
}

/// Writes these serials behind a word, where there are any.
fn write_serials(text: &mut String, word: &str, serials: &[u64]) -> Result<(), AllocError> {
    if !serials.is_empty() {
        text.push_str(word)?;
    }
    for serial in serials {
        write!(text, " {serial}")?;
    }
    Ok(())
}

/// Writes what a reply stores, uses, removes and expires.
fn write_changes(text: &mut String, reply: &Reply) -> Result<(), AllocError> {
    text.push_str("gives reply")?;
    for (word, serial) in [(", stored ", reply.stored), (", used ", reply.used)] {
        if let Some(serial) = serial {
            write!(text, "{word}{serial}")?;
        }
    }
    write_serials(text, ", removed", reply.removed.as_slice())?;
    match &reply.expired {
        None => Ok(()),
        Some(expired) => write_serials(text, ", expired", expired.as_slice()),
    }
}

/// Writes what a step gives. Its message is handed out, empty where there is none.
fn write_given<'a>(
    text: &mut String,
    given: &'a Result<Outcome, CoreFault>,
) -> Result<&'a [u8], AllocError> {
    match given {
        Ok(Outcome::Reply(reply)) => {
            write_changes(text, reply)?;
            return Ok(reply.bytes.as_slice());
        }
        Ok(Outcome::Forward(route, bytes)) => {
            text.push_str("gives forward")?;
            if route.number != 1 {
                write!(text, " by line {}", route.number)?;
            }
            return Ok(bytes.as_slice());
        }
        Ok(Outcome::Waits(leader)) => write!(text, "gives a wait for {leader}")?,
        Ok(Outcome::Ended) => text.push_str("gives an end")?,
        Ok(Outcome::WaitsNoMore) => text.push_str("gives the end of its wait")?,
        Err(fault) => write!(text, "gives refusal {fault:?}")?,
    }
    Ok(&[])
}

/// Whether a step gave what it is to give. Else it is written what that was.
fn is_given(
    text: &mut String,
    step: &Step<'_>,
    given: &Result<Outcome, CoreFault>,
) -> Result<bool, Fault> {
    let mut wanted = Vec::new(*text.allocator());
    push_lines(&mut wanted, step.message)?;
    let mut gives = String::new(*text.allocator());
    let message = write_given(&mut gives, given)?;
    if gives.as_str() == step.gives.text && message == wanted.as_slice() {
        return Ok(true);
    }
    write!(text, "at line {}: {gives} ", step.happens.number)?;
    push_shown(text, message)?;
    Ok(false)
}

/// Does a step, and tells whether it gives what it is to give. Else it is written what it gives.
fn step_holds(
    text: &mut String,
    core: &mut Core<ListShelf>,
    step: &Step<'_>,
) -> Result<bool, Fault> {
    let given = outcome_of(*text.allocator(), core, step)?;
    is_given(text, step, &given)
}

fn core_of(alloc: Global, front: &[Line<'_>], case: &Case<'_>) -> Result<Core<ListShelf>, Fault> {
    let table = text_of(alloc, front)?;
    match Table::read(alloc, table.as_slice()) {
        Ok(config) => {
            let shelf = ListShelf::new(alloc, config.capacity());
            Ok(Core::new(alloc, config, shelf, 1))
        }
        Err(_) => Err(case.label.fault("the group's front is no table")),
    }
}

/// Does these steps, and writes their number or the first that gives something else. The core is lent: each `?` beside
/// an owned one would let go of all that it holds.
fn write_steps(
    text: &mut String,
    core: &mut Core<ListShelf>,
    lines: &[Line<'_>],
) -> Result<(), Fault> {
    let mut from = 0usize;
    let mut count = 0usize;
    for _ in 0..lines.len() {
        let end = place_of(lines, from.saturating_add(1), "at ");
        if from == end {
            break;
        }
        if !step_holds(text, core, &step_of(lines, from, end)?)? {
            return Ok(());
        }
        count = count.saturating_add(1);
        from = end;
    }
    Ok(write!(text, "{count} steps")?)
}

/// Does the steps of a case by the table of its group's front.
pub fn steps(text: &mut String, front: &[Line<'_>], case: &Case<'_>) -> Result<(), Fault> {
    let mut core = core_of(*text.allocator(), front, case)?;
    write_steps(text, &mut core, case.input)
}
