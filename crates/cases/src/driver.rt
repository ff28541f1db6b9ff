//! What can be played: a word each, and what it makes of a case.

use crate::case_file::{Case, stream_of};
use crate::lines::{Fault, Line};
use crate::parts::{Part, parts_of};
use crate::words::named;
use crate::{
    ages, cache_status, passing, reuse, scripts, steps, storing, streams, tables, targets,
    validation, values,
};
use std::alloc::AllocError;

/// What is played to the bytes that a case spells.
#[derive(Clone, Copy)]
pub enum OnBytes {
    Requests,
    RequestParts,
    ResponsesToGet,
    ResponsesToHead,
    FirstItems,
    LaterItems,
    Replays,
}

/// What is played to the parts of a case, each with its field lines.
#[derive(Clone, Copy)]
pub enum OnParts {
    Ages,
    Storing,
    Reuse,
    OnError,
    Validating,
    Freshening,
    ClientConditions,
    NotModified,
    PassedResponses,
    Forwarding,
}

/// What is played to the lines of a case.
#[derive(Clone, Copy)]
pub enum OnLines {
    Steps,
    Targets,
    TargetFaults,
    Paths,
    Values,
    Tables,
    ChangedTables,
    Verdicts,
    Directives,
    Stripping,
    Members,
    Refusals,
}

/// What a file plays.
#[derive(Clone, Copy)]
pub enum Driver {
    Bytes(OnBytes),
    Parts(OnParts),
    Lines(OnLines),
}

/// The words for what is played.
static DRIVERS: [(&str, Driver); 29] = [
    ("requests", Driver::Bytes(OnBytes::Requests)),
    ("parts of requests", Driver::Bytes(OnBytes::RequestParts)),
    ("responses to GET", Driver::Bytes(OnBytes::ResponsesToGet)),
    ("responses to HEAD", Driver::Bytes(OnBytes::ResponsesToHead)),
    ("first items of scripts", Driver::Bytes(OnBytes::FirstItems)),
    ("later items of scripts", Driver::Bytes(OnBytes::LaterItems)),
    ("replays", Driver::Bytes(OnBytes::Replays)),
    ("ages", Driver::Parts(OnParts::Ages)),
    ("storing", Driver::Parts(OnParts::Storing)),
    ("reuse", Driver::Parts(OnParts::Reuse)),
    ("reuse on error", Driver::Parts(OnParts::OnError)),
    ("answers to validation", Driver::Parts(OnParts::Validating)),
    ("freshening", Driver::Parts(OnParts::Freshening)),
    (
        "client conditions",
        Driver::Parts(OnParts::ClientConditions),
    ),
    ("304s to clients", Driver::Parts(OnParts::NotModified)),
    (
        "responses passed on",
        Driver::Parts(OnParts::PassedResponses),
    ),
    ("requests passed on", Driver::Parts(OnParts::Forwarding)),
    ("steps", Driver::Lines(OnLines::Steps)),
    ("targets", Driver::Lines(OnLines::Targets)),
    ("faults of targets", Driver::Lines(OnLines::TargetFaults)),
    ("paths", Driver::Lines(OnLines::Paths)),
    ("values", Driver::Lines(OnLines::Values)),
    ("tables", Driver::Lines(OnLines::Tables)),
    ("changed tables", Driver::Lines(OnLines::ChangedTables)),
    ("verdicts", Driver::Lines(OnLines::Verdicts)),
    ("directives", Driver::Lines(OnLines::Directives)),
    ("fields of a connection", Driver::Lines(OnLines::Stripping)),
    ("members of Cache-Status", Driver::Lines(OnLines::Members)),
    ("refusals", Driver::Lines(OnLines::Refusals)),
];

impl Driver {
    /// The driver of a name.
    pub fn named(name: &str) -> Option<Driver> {
        named(&DRIVERS, name)
    }
}

fn write_on_bytes(text: &mut String, play: OnBytes, bytes: &[u8]) -> Result<(), AllocError> {
    match play {
        OnBytes::Requests => streams::write_requests(text, bytes),
        OnBytes::RequestParts => streams::write_first_request(text, bytes),
        OnBytes::ResponsesToGet => streams::write_responses(text, false, bytes),
        OnBytes::ResponsesToHead => streams::write_responses(text, true, bytes),
        OnBytes::FirstItems => scripts::write_front(text, true, bytes),
        OnBytes::LaterItems => scripts::write_front(text, false, bytes),
        OnBytes::Replays => scripts::write_replay(text, bytes),
    }
}

fn write_on_parts(
    text: &mut String,
    play: OnParts,
    label: Line<'_>,
    parts: &[Part<'_>],
) -> Result<(), Fault> {
    match play {
        OnParts::Ages => ages::ages(text, label, parts),
        OnParts::Storing => storing::storing(text, label, parts),
        OnParts::Reuse => reuse::reuse(text, label, parts),
        OnParts::OnError => reuse::on_error(text, label, parts),
        OnParts::Validating => validation::validating(text, label, parts),
        OnParts::Freshening => validation::freshening(text, label, parts),
        OnParts::ClientConditions => validation::client_conditions(text, label, parts),
        OnParts::NotModified => validation::not_modified_lines(text, label, parts),
        OnParts::PassedResponses => passing::responses(text, label, parts),
        OnParts::Forwarding => passing::forwarding(text, label, parts),
    }
}

fn write_on_lines(
    text: &mut String,
    play: OnLines,
    front: &[Line<'_>],
    case: &Case<'_>,
) -> Result<(), Fault> {
    match play {
        OnLines::Steps => steps::steps(text, front, case),
        OnLines::Targets => targets::targets(text, front, case),
        OnLines::TargetFaults => targets::target_faults(text, front, case),
        OnLines::Paths => targets::paths(text, front, case),
        OnLines::Values => values::values(text, front, case),
        OnLines::Tables => tables::tables(text, front, case),
        OnLines::ChangedTables => tables::changed_tables(text, front, case),
        OnLines::Verdicts => tables::verdicts(text, front, case),
        OnLines::Directives => ages::directives(text, front, case),
        OnLines::Stripping => passing::stripping(text, front, case),
        OnLines::Members => cache_status::members(text, front, case),
        OnLines::Refusals => cache_status::refusals(text, front, case),
    }
}

/// Writes what is answered to a case, where its group begins so, into an empty text.
pub fn write_answer(
    text: &mut String,
    driver: Driver,
    front: &[Line<'_>],
    case: &Case<'_>,
) -> Result<(), Fault> {
    let alloc = *text.allocator();
    match driver {
        Driver::Bytes(play) => {
            let bytes = stream_of(alloc, front, case)?;
            Ok(write_on_bytes(text, play, bytes.as_slice())?)
        }
        Driver::Parts(play) => {
            let parts = parts_of(alloc, front, case)?;
            write_on_parts(text, play, case.label, parts.as_slice())
        }
        Driver::Lines(play) => write_on_lines(text, play, front, case),
    }
}
