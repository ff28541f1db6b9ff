//! Tests of a table: a file of questions, each with what is expected of it.
//!
//! A line of it is a method, a blank, a URL, `=>` and one of `line N` (allowed by it), `denied`, `denied by line N`,
//! `no line`, `refused` (before the table is asked), `stored` and `not stored` (an answer to it). That answer stands in
//! a line in front, behind `answer:`. An empty line, and one that begins with `#`, is passed over.
ghost use Rattle.std.specs.Prelude.{◌≡◌};
ghost use Rattle.proxy_check.specs.Meeting.{expectation_is_met};

use crate::meeting::{RequestToCheck, TableVerdict, parse_question, verdict_in_table};
use crate::trial::{AnswerTrial, answer_has_only_field_lines, try_origin_answer};
use hx_allow::Table;
use proxy_files::CommandFailure;
use std::alloc::Global;

/// What is expected of a request.
#[derive(Clone, Copy)]
pub(crate) enum Expected {
    /// That this line allows it.
    Line(u16),
    /// That a line denies it, or none allows it.
    Denied,
    DeniedBy(u16),
    NoLine,
    Refused,
}

impl Expected {
    fn of(text: &str) -> Option<Expected> {
        match text {
            "denied" => return Some(Expected::Denied),
            "no line" => return Some(Expected::NoLine),
            "refused" => return Some(Expected::Refused),
            _ => {}
        }
        if let Some(number) = text.strip_prefix("denied by line ") {
            return Some(Expected::DeniedBy(number.parse::<u16>().ok()?));
        }
        let number = text.strip_prefix("line ")?;
        Some(Expected::Line(number.parse::<u16>().ok()?))
    }

    /// Whether what a request meets is what was expected.
    fn is_met(self, met: TableVerdict) -> bool
        ensures { result ≡ expectation_is_met self met }
    {
        match (self, met) {
            (Expected::Line(n), TableVerdict::Allowed(line)) => n == line,
            (Expected::Denied, TableVerdict::DeniedBy(_)) => true,
            (Expected::Denied, TableVerdict::NoLine) => true,
            (Expected::Denied, TableVerdict::Looped(_)) => true,
            (Expected::DeniedBy(n), TableVerdict::DeniedBy(line)) => n == line,
            (Expected::NoLine, TableVerdict::NoLine) => true,
            (Expected::Refused, TableVerdict::Refused) => true,
            _ => false,
        }
    }
}

/// What is asked for of a request, or of an answer to it.
#[derive(Clone, Copy)]
enum Wanted {
    Meets(Expected),
    /// Whether an answer to it is stored.
    Stores(bool),
}

impl Wanted {
    fn of(text: &str) -> Option<Wanted> {
        match text {
            "stored" => Some(Wanted::Stores(true)),
            "not stored" => Some(Wanted::Stores(false)),
            _ => Some(Wanted::Meets(Expected::of(text)?)),
        }
    }
}

/// How it is told whether an answer is stored.
pub(crate) fn stored_or_not_word(is_stored: bool) -> &'static str {
    if is_stored { "stored" } else { "not stored" }
}

/// A line of questions that is none.
fn question_fault(alloc: Global, number: usize, line: &str) -> CommandFailure {
    let words = format!(in alloc;
        "line {number} of the questions, '{line}', is none: a method, a blank, a URL, => and what is expected, as in 'GET http://h.example/a => line 3'"
    );
    CommandFailure::Read(words.ok())
}

/// A question and what is expected of it.
fn test_of(line: &str) -> Option<(RequestToCheck<'_>, Wanted)> {
    let (asked, wanted) = line.split_once("=>")?;
    Some((parse_question(asked.trim())?, Wanted::of(wanted.trim())?))
}

/// What was asked, and how often it was answered otherwise.
#[derive(Clone, Copy)]
struct Tally {
    asked: u64,
    differ: u64,
}

/// What is wrong with what a request meets, if anything is.
fn met_otherwise(
    alloc: Global,
    met: TableVerdict,
    expected: Expected,
) -> Result<Option<String>, CommandFailure> {
    if expected.is_met(met) {
        return Ok(None);
    }
    Ok(Some(format!(in alloc; "{met}")?))
}

/// What is wrong with whether an answer is stored, if anything is.
fn stored_otherwise(
    alloc: Global,
    met: TableVerdict,
    question: &RequestToCheck<'_>,
    trial: &AnswerTrial<'_>,
    wanted: bool,
) -> Result<Option<String>, CommandFailure> {
    let TableVerdict::Allowed(_) = met else {
        return Ok(Some(format!(in alloc; "{met}")?));
    };
    let tried = try_origin_answer(alloc, question, trial)?;
    if tried.is_stored == wanted {
        return Ok(None);
    }
    let (word, reason) = (stored_or_not_word(tried.is_stored), tried.reason.as_str());
    Ok(Some(format!(in alloc; "{word}, {reason}")?))
}

/// Asks what a line of the questions asks, and tells where the answer isn't the one that is expected.
fn ask_line<R: Print + AllocGlobal>(
    rt: &R,
    config: &Table,
    number: usize,
    line: &str,
    trial: &AnswerTrial<'_>,
    tally: &mut Tally,
) -> Result<(), CommandFailure> {
    let alloc = rt.alloc();
    let Some((question, wanted)) = test_of(line) else {
        return Err(question_fault(alloc, number, line));
    };
    let met = verdict_in_table(alloc, config, &question)?;
    tally.asked = tally.asked.saturating_add(1);
    let otherwise = match wanted {
        Wanted::Meets(expected) => met_otherwise(alloc, met, expected)?,
        Wanted::Stores(is_stored) => stored_otherwise(alloc, met, &question, trial, is_stored)?,
    };
    let Some(otherwise) = otherwise else {
        return Ok(());
    };
    tally.differ = tally.differ.saturating_add(1);
    let otherwise = otherwise.as_str();
    match println!(rt; "line {number}: {line}: it is {otherwise}") {
        Ok(()) => Ok(()),
        Err(_) => Err(CommandFailure::Write(None)),
    }
}

/// Asks all of a file's questions, and tells each answer that isn't the one that is expected. Fails where there is one.
/// An origin's answer is that of the trial, until a line says another one.
pub fn ask_all_questions<R: Print + AllocGlobal>(
    rt: &R,
    config: &Table,
    text: &str,
    trial: &AnswerTrial<'_>,
) -> Result<(), CommandFailure> {
    let mut answer = String::from_str(rt.alloc(), trial.answer)?;
    let mut tally = Tally {
        asked: 0,
        differ: 0,
    };
    for (place, line) in text.lines().enumerate() {
        let line = line.trim();
        let number = place.saturating_add(1);
        if line.is_empty() || line.starts_with('#') {
            continue;
        }
        match line.strip_prefix("answer:") {
            Some(told) if answer_has_only_field_lines(told.trim()) => {
                answer = String::from_str(rt.alloc(), told.trim())?;
            }
            Some(_) => return Err(question_fault(rt.alloc(), number, line)),
            None => {
                let by = AnswerTrial {
                    table: trial.table,
                    now: trial.now,
                    answer: answer.as_str(),
                };
                ask_line(rt, config, number, line, &by, &mut tally)?;
            }
        }
    }
    let Tally { asked, differ } = tally;
    if println!(rt; "{asked} questions, {differ} answered otherwise").is_err() {
        return Err(CommandFailure::Write(None));
    }
    if differ == 0 {
        Ok(())
    } else {
        Err(CommandFailure::Answers)
    }
}
