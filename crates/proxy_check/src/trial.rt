//! Whether an answer of an origin would be stored. It is asked of the proxy itself: a script of the request and the
//! answer is played by the table, as standard input's is, and what Cache-Status says of it is told.
ghost use Rattle.std.specs.Prelude.{◌≡◌};

use crate::meeting::RequestToCheck;
use proxy_files::CommandFailure;
use proxy_replay::{ReplayFault, replayed};
use std::alloc::{AllocError, Global};
use std::str;

/// What is tried: an answer by a table, at a moment in Unix seconds.
#[derive(Clone, Copy)]
pub struct AnswerTrial<'a> {
    pub table: &'a [u8],
    pub now: u64,
    /// A status, 200 where there is none, and lines of a head, with `|` between them.
    pub answer: &'a str,
}

/// What became of an answer.
#[derive(Drop)]
pub(crate) struct TrialResult {
    /// What Cache-Status says of it behind the proxy's name; where it is no answer, what Refusal says.
    pub(crate) reason: String,
    pub(crate) is_stored: bool,
}

/// The status in front of the lines of an answer, and these lines.
fn status_and_lines(answer: &str) -> (u16, &str) {
    let (first, behind) = answer.split_once('|').unwrap_or((answer, ""));
    match first.trim().parse::<u16>() {
        Ok(status) => (status, behind),
        Err(_) => (200, answer),
    }
}

/// Whether an answer is spelled as one: each of its lines is a name, a colon and a value.
pub fn answer_has_only_field_lines(answer: &str) -> bool {
    let (status, lines) = status_and_lines(answer);
    if !(200..=599).contains(&status) {
        return false;
    }
    lines.trim().is_empty()
        || lines
            .split('|')
            .all(|it| it.trim().find(':').is_some_and(|at| at > 0))
}

/// The message of an origin.
fn answer_text(alloc: Global, answer: &str) -> Result<String, AllocError> {
    let (status, lines) = status_and_lines(answer);
    let mut text = format!(in alloc; "HTTP/1.1 {status} OK\r\n")?;
    for line in lines.split('|') {
        let line = line.trim();
        if !line.is_empty() {
            text.push_str(line)?;
            text.push_str("\r\n")?;
        }
    }
    text.push_str("Content-Length: 1\r\n\r\nx")?;
    Ok(text)
}

/// The script: the table, the request, and the answer on the first link.
fn script_of(
    alloc: Global,
    question: &RequestToCheck<'_>,
    trial: &AnswerTrial<'_>,
) -> Result<Vec<u8>, AllocError> {
    let (method, path, host) = (question.method, question.path, question.host);
    let request = format!(in alloc; "{method} {path} HTTP/1.1\r\nHost: {host}\r\n\r\n")?;
    let answer = answer_text(alloc, trial.answer)?;
    let (now, table, asked, told) = (trial.now, trial.table.len(), request.len(), answer.len());
    let head = format!(in alloc; "config {table}\n")?;
    let happenings = format!(in alloc;
        "\nat {now}\naccept 1\nclient 1 {asked}\n{request}\nat {now}\nlink 1 {told}\n{answer}\n"
    )?;
    let mut script = Vec::from_slice(alloc, head.as_str().as_bytes())?;
    script.extend_from_slice(trial.table)?;
    script.extend_from_slice(happenings.as_str().as_bytes())?;
    Ok(script)
}

/// What a line of a reply says of it, if it is one that does.
fn reason_of(line: &str) -> Option<&str> {
    if let Some(member) = line.strip_prefix("Cache-Status: ") {
        return match member.split_once(';') {
            Some((_, reason)) => Some(reason),
            None => Some(member),
        };
    }
    line.strip_prefix("Refusal: ")
}

/// What the last reply among effects says of itself: the proxy's own line stands behind those of others.
fn reason_in(alloc: Global, effects: &str) -> Result<String, AllocError> {
    let mut reason = String::from_str(alloc, "no answer")?;
    for line in effects.lines() {
        if let Some(told) = reason_of(line) {
            reason = String::from_str(alloc, told)?;
        }
    }
    Ok(reason)
}

/// The effects of a script; none where it has a fault.
fn effects_of(alloc: Global, script: &[u8]) -> Result<Vec<u8>, CommandFailure> {
    match replayed(alloc, script) {
        Ok(effects) => Ok(effects),
        Err(fault) => {
            let is_memory = matches!(&fault, ReplayFault::OutOfMemory);
            if is_memory {
                return Err(CommandFailure::NoMemory);
            }
            Ok(Vec::new(alloc))
        }
    }
}

/// Tries an answer to a request that the table allows. Where the request isn't such a one, or goes to no origin, the
/// fault of the script is its reason.
pub(crate) fn try_origin_answer(
    alloc: Global,
    question: &RequestToCheck<'_>,
    trial: &AnswerTrial<'_>,
) -> Result<TrialResult, CommandFailure> {
    let script = script_of(alloc, question, trial)?;
    let effects = effects_of(alloc, script.as_slice())?;
    let reason = reason_in(alloc, str::from_utf8(effects.as_slice()).unwrap_or(""))?;
    let is_stored = reason.as_str().split(';').any(|it| it == "stored");
    Ok(TrialResult { reason, is_stored })
}
