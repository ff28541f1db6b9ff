//! Validation: a stored response that came at 100, under `stored`, and what a 304 or a client's condition makes of it.

use crate::lines::{Fault, Line};
use crate::parts::{Part, write_fields, write_word_answer};
use crate::requests::{asked_by, asked_of};
use crate::reuse::entry_of;
use crate::storing::answered_of;
use hx_age::Times;
use hx_fields::{Bytes, Fields};
use hx_hop::{Answered, Conditions};
use hx_store::Entry;
use hx_validate::{
    answers, client_wants_304, client_wants_304_for_answer, conditions, freshened, has_validator,
    not_modified_fields, not_modified_fields_of_answer,
};
use hx_vary::FieldNames;
use std::alloc::{AllocError, Global};

/// The moments of a response that was made, asked for and received in this second.
fn times_at(moment: u64) -> Times {
    Times {
        date: moment,
        age_value: 0,
        request_time: moment,
        response_time: moment,
        expired: None,
    }
}

/// The stored response, which answered a GET without lines.
fn stored_of(alloc: Global, part: &Part<'_>) -> Result<Entry, Fault> {
    part.begins("stored")?;
    let asked = asked_of(alloc, part.head, "GET", &Fields::new(alloc))?;
    let fields = part.fields.copy(alloc)?;
    entry_of(alloc, part.head, 7, &asked, fields, times_at(100))
}

fn answer_of(alloc: Global, part: &Part<'_>) -> Result<Answered, Fault> {
    part.begins("304")?;
    answered_of(alloc, part)
}

fn value_of(alloc: Global, fields: &Fields, name: &[u8]) -> Result<Option<Bytes>, AllocError> {
    match fields.value(name) {
        Some(value) => Ok(Some(Bytes::copy_of(alloc, value)?)),
        None => Ok(None),
    }
}

/// Conditions as the proxy sends them: an If-None-Match and an If-Modified-Since.
pub fn conditions_of(alloc: Global, part: &Part<'_>) -> Result<Conditions, Fault> {
    part.begins("conditions")?;
    let etag = value_of(alloc, &part.fields, b"If-None-Match")?;
    let modified = value_of(alloc, &part.fields, b"If-Modified-Since")?;
    let known = usize::from(etag.is_some()).saturating_add(usize::from(modified.is_some()));
    if part.fields.len() == known {
        Ok(Conditions { etag, modified })
    } else {
        Err(part.head.fault("other lines than one If-None-Match and one If-Modified-Since"))
    }
}

/// What a 304 to these conditions says of the stored response.
fn answers_or_not(entry: &Entry, sent: &Conditions, answered: &Answered) -> &'static str {
    if !has_validator(&entry.fields) {
        "no validator"
    } else if answers(entry, sent, answered) {
        "answers"
    } else {
        "answers nothing"
    }
}

fn write_outcome(
    text: &mut String,
    entry: &Entry,
    sent: &Conditions,
    answer: &Part<'_>,
) -> Result<(), Fault> {
    let answered = answer_of(*text.allocator(), answer)?;
    write_word_answer(text, answers_or_not(entry, sent, &answered))
}

/// Whether a 304 answers the stored response, to its own conditions or to those that are given.
pub fn validating(text: &mut String, label: Line<'_>, parts: &[Part<'_>]) -> Result<(), Fault> {
    let (stored, given, answer) = match parts {
        [stored, answer] => (stored, None, answer),
        [stored, given, answer] => (stored, Some(given), answer),
        _ => return Err(label.fault("no stored response with a 304")),
    };
    let entry = stored_of(*text.allocator(), stored)?;
    let sent = match given {
        Some(given) => conditions_of(*text.allocator(), given)?,
        None => conditions(*text.allocator(), &entry)?,
    };
    write_outcome(text, &entry, &sent, answer)
}

fn freshened_by(
    alloc: Global,
    entry: &Entry,
    request: &Part<'_>,
    answer: &Part<'_>,
) -> Result<Entry, Fault> {
    let asked = asked_by(alloc, request)?;
    let answered = answer_of(alloc, answer)?;
    Ok(freshened(
        alloc,
        &FieldNames::new(alloc),
        entry,
        &answered,
        &asked,
        times_at(160),
    )?)
}

/// The lines of the stored response behind a 304 that came at 160 to the request between them.
pub fn freshening(text: &mut String, label: Line<'_>, parts: &[Part<'_>]) -> Result<(), Fault> {
    let [stored, request, answer] = parts else {
        return Err(label.fault("not a stored response, a request and a 304"));
    };
    let entry = stored_of(*text.allocator(), stored)?;
    let entry = freshened_by(*text.allocator(), &entry, request, answer)?;
    Ok(write_fields(text, &entry.fields)?)
}

/// The status and the lines of an answer of the origin, `answer 200` and its lines, if the part is one.
fn status_of_answer(part: &Part<'_>) -> Option<u16> {
    part.head.text.strip_prefix("answer ")?.parse::<u16>().ok()
}

/// Whether a client gets the stored response, or the answer of the origin, or a 304.
pub fn client_conditions(
    text: &mut String,
    label: Line<'_>,
    parts: &[Part<'_>],
) -> Result<(), Fault> {
    let [stored, request] = parts else {
        return Err(label.fault("not a stored response and a request"));
    };
    let asked = asked_by(*text.allocator(), request)?;
    let is_304 = match status_of_answer(stored) {
        Some(status) => client_wants_304_for_answer(&asked, status, &stored.fields),
        None => {
            let entry = stored_of(*text.allocator(), stored)?;
            client_wants_304(&asked, &entry)
        }
    };
    write_word_answer(text, if is_304 { "304" } else { "200" })
}

/// The lines of the 304 that a client gets for the stored response, or for the answer of the origin.
pub fn not_modified_lines(
    text: &mut String,
    label: Line<'_>,
    parts: &[Part<'_>],
) -> Result<(), Fault> {
    let [stored] = parts else {
        return Err(label.fault("not one stored response"));
    };
    if status_of_answer(stored).is_some() {
        let fields = not_modified_fields_of_answer(*text.allocator(), &stored.fields)?;
        return Ok(write_fields(text, &fields)?);
    }
    let entry = stored_of(*text.allocator(), stored)?;
    let fields = not_modified_fields(*text.allocator(), &entry)?;
    Ok(write_fields(text, &fields)?)
}
