//! What a line of a case says.

use super::case_lines::{Entry, number_of};
use super::form::FormFault;
use crate::text::Effect;
use hx_fields::START_OF_YEAR_10000;
use hx_status::FailKind;
use proxy_script::{Happening, Item};

/// What a line of a case says.
#[derive(Clone, Copy)]
pub enum Statement<'a> {
    Plays(Item<'a>),
    Expects(Effect<'a>),
}

/// What is said by a line without bytes.
fn bare<'a>(entry: &Entry<'_>, said: Statement<'a>) -> Result<Statement<'a>, FormFault> {
    if entry.has_bytes {
        Err(FormFault::NoPlace)
    } else {
        Ok(said)
    }
}

/// The bytes behind a line, which has to have some.
fn bytes_of<'a>(entry: &'a Entry<'_>) -> Result<&'a [u8], FormFault> {
    if entry.has_bytes {
        Ok(entry.bytes.as_slice())
    } else {
        Err(FormFault::Missing)
    }
}

fn happens(happening: Happening<'_>) -> Statement<'_> {
    Statement::Plays(Item::Happens(happening))
}

fn moment<'a>(entry: &'a Entry<'_>, text: &str) -> Result<Statement<'a>, FormFault> {
    let moment = number_of(text)?;
    if moment >= START_OF_YEAR_10000 {
        return Err(FormFault::Number);
    }
    bare(entry, Statement::Plays(Item::At(moment)))
}

/// What a line says of a client.
fn client<'a>(entry: &'a Entry<'_>, n: u64, verb: &str) -> Result<Statement<'a>, FormFault> {
    match verb {
        "connects" => bare(entry, happens(Happening::Accept(n))),
        "sends" => Ok(happens(Happening::Client(n, bytes_of(entry)?))),
        "ends" => bare(entry, happens(Happening::End(n))),
        "leaves" => bare(entry, happens(Happening::Gone(n))),
        "is to end" => bare(entry, happens(Happening::Retire(n))),
        "has waited long enough" => bare(entry, happens(Happening::Overdue(n))),
        "gets" => Ok(Statement::Expects(Effect::Client(n, bytes_of(entry)?))),
        "is closed" => bare(entry, Statement::Expects(Effect::Close(n))),
        _ => Err(FormFault::Unknown),
    }
}

fn failure_of(word: &str) -> Result<FailKind, FormFault> {
    match word {
        "refused" => Ok(FailKind::Refused),
        "timed-out" => Ok(FailKind::TimedOut),
        "closed" => Ok(FailKind::Closed),
        _ => Err(FormFault::Unknown),
    }
}

/// What a line says of a link.
fn link<'a>(entry: &'a Entry<'_>, l: u64, verb: &'a str) -> Result<Statement<'a>, FormFault> {
    if let Some(word) = verb.strip_prefix("fails ") {
        return bare(entry, happens(Happening::Fail(l, failure_of(word)?)));
    }
    if let Some(address) = verb.strip_prefix("is opened to ") {
        let bytes = bytes_of(entry)?;
        return Ok(Statement::Expects(Effect::Forward(l, address.as_bytes(), bytes)));
    }
    match verb {
        "sends" => Ok(happens(Happening::Link(l, bytes_of(entry)?))),
        "ends" => bare(entry, happens(Happening::Shut(l))),
        "is dropped" => bare(entry, Statement::Expects(Effect::Drop(l))),
        _ => Err(FormFault::Unknown),
    }
}

/// What a line says of the client or the link of a number.
fn of_end<'a>(entry: &'a Entry<'_>, word: &str, rest: &'a str) -> Result<Statement<'a>, FormFault> {
    let Some((number, verb)) = rest.split_once(' ') else {
        return Err(FormFault::Unknown);
    };
    let number = number_of(number)?;
    match word {
        "client" => client(entry, number, verb),
        "link" => link(entry, number, verb),
        _ => Err(FormFault::Unknown),
    }
}

/// What a line says.
pub fn read_statement<'a>(entry: &'a Entry<'_>) -> Result<Statement<'a>, FormFault> {
    if entry.words == "table" {
        return Ok(Statement::Plays(Item::Config(bytes_of(entry)?)));
    }
    let Some((word, rest)) = entry.words.split_once(' ') else {
        return Err(FormFault::Unknown);
    };
    match word {
        "at" => moment(entry, rest),
        "stops" => {
            let stop = Effect::Stop(entry.words.as_bytes());
            bare(entry, Statement::Expects(stop))
        }
        _ => of_end(entry, word, rest),
    }
}
