//! How long the content behind a head is, by its fields (RFC 9112, section 6). The definitions are
//! in `specs/Lengths.antt`.
ghost use Rattle.std.specs.Prelude.{◌≡◌, ◌&&◌, IfOk};
ghost use Rattle.hx_framing.specs.Lengths.{framing_by_content_length, is_chunked, only_last_coding_is_chunked};
ghost use Rattle.hx_framing.specs.Lengths.{is_only_chunked};
ghost use Rattle.hx_framing.specs.Lengths.{framing_of_codings, has_both_length_fields, framing_without_codings};
ghost use Rattle.hx_framing.specs.Lengths.{has_coding_of_unknown_end};
ghost use Rattle.hx_framing.specs.Lengths.{framing_by_length_fields};
ghost use Rattle.hx_framing.specs.Lengths.{framing_by_request_fields, expectation_of_head, framing_has_content};
ghost use Rattle.hx_framing.specs.Lengths.{request_framing_of, is_interim};
ghost use Rattle.hx_framing.specs.Lengths.{response_has_no_content, framing_of_final_response};
ghost use Rattle.hx_framing.specs.Lengths.{framing_if_accepted_status};
ghost use Rattle.hx_framing.specs.Lengths.{framing_of_response};
ghost use Rattle.hx_framing.specs.Lengths.{announced_length_in_answer_to_head, without_length_fields};

use crate::frame_fault::FrameFault;
use crate::heads::request_head::Head;
use crate::heads::status_head::StatusHead;
use crate::lengths::content_length::announced_length_up_to_or_fault;
use crate::limits::MOST_BYTES_ANNOUNCED_TO_HEAD;
use hx_fields::{Bytes, Fields, is_same_name};
use std::alloc::{AllocError, Global};

/// How long a content is.
#[derive(Clone, Copy)]
pub(crate) enum Framing {
    /// There is none.
    Nothing,
    /// So many bytes.
    Announced(u64),
    /// It comes in chunks (RFC 9112, section 7.1).
    Chunked,
    /// It runs until the connection closes.
    UntilClose,
}

/// What a request head says of its content.
#[derive(Clone, Copy)]
pub(crate) struct RequestFraming {
    pub(crate) framing: Framing,
    /// The client waits for a continue before it sends the content.
    pub(crate) wants_continue: bool,
}

/// What Content-Length announces, or what holds without it.
fn framing_by_content_length(
    max_body: u64,
    neither: Framing,
    fields: &Fields,
) -> Result<Framing, FrameFault>
    ensures { result ≡ framing_by_content_length max_body neither fields.now }
{
    if !fields.has(b"content-length") {
        return Ok(neither);
    }
    match announced_length_up_to_or_fault(max_body, fields) {
        Ok(length) => Ok(Framing::Announced(length)),
        Err(fault) => Err(fault),
    }
}

fn is_chunked(coding: &Bytes) -> bool
    ensures { result ≡ is_chunked coding.now }
{
    is_same_name(coding.as_slice(), b"chunked")
}

/// Whether the last coding is chunked, and no other is.
fn only_last_coding_is_chunked(codings: &[Bytes]) -> bool
    ensures { result ≡ only_last_coding_is_chunked codings.now }
{
    match codings {
        [.., last] => is_chunked(last) && codings.iter().filter(|c| is_chunked(c)).count() == 1,
        [] => false,
    }
}

fn is_only_chunked(codings: &[Bytes]) -> bool
    ensures { result ≡ is_only_chunked codings.now }
{
    match codings {
        [only] => is_chunked(only),
        _ => false,
    }
}

/// What the codings say. With `must_end` they have to tell the end of the content.
fn framing_of_codings(must_end: bool, codings: &[Bytes]) -> Result<Framing, FrameFault>
    ensures { result ≡ framing_of_codings must_end codings.now }
{
    if must_end && !only_last_coding_is_chunked(codings) {
        Err(FrameFault::Length)
    } else if is_only_chunked(codings) {
        Ok(Framing::Chunked)
    } else {
        Err(FrameFault::Coding)
    }
}

fn has_both_length_fields(fields: &Fields) -> bool
    ensures { result ≡ has_both_length_fields fields.now }
{
    fields.has(b"transfer-encoding") && fields.has(b"content-length")
}

/// What is judged of the length fields without their codings, where that is enough.
fn framing_without_codings(
    max_body: u64,
    minor: u8,
    neither: Framing,
    fields: &Fields,
) -> Option<Result<Framing, FrameFault>>
    ensures { result ≡ framing_without_codings max_body minor neither fields.now }
{
    if has_both_length_fields(fields) {
        Some(Err(FrameFault::BothLengths))
    } else if !fields.has(b"transfer-encoding") {
        Some(framing_by_content_length(max_body, neither, fields))
    } else if minor == 0 {
        Some(Err(FrameFault::Length))
    } else {
        None
    }
}

/// What the length fields of a head say; `neither` where none stands. With `must_end` codings have to tell the end of
/// the content.
fn framing_by_length_fields(
    alloc: Global,
    max_body: u64,
    minor: u8,
    neither: Framing,
    must_end: bool,
    fields: &Fields,
) -> Result<Result<Framing, FrameFault>, AllocError>
    ensures { IfOk result
        (λ r. r ≡ framing_by_length_fields max_body minor neither
        (must_end && has_coding_of_unknown_end fields.now) fields.now) }
{
    match framing_without_codings(max_body, minor, neither, fields) {
        Some(judged) => Ok(judged),
        None => {
            let codings = fields.members(alloc, b"transfer-encoding")?;
            Ok(framing_of_codings(must_end, codings.as_slice()))
        }
    }
}

/// What the length fields of a request say.
fn framing_by_request_fields(
    alloc: Global,
    max_body: u64,
    head: &Head,
) -> Result<Result<Framing, FrameFault>, AllocError>
    ensures { IfOk result (λ r. r ≡ framing_by_request_fields max_body head.now) }
{
    framing_by_length_fields(
        alloc,
        max_body,
        head.minor,
        Framing::Nothing,
        true,
        &head.fields,
    )
}

/// What is expected of a server.
fn expectation_of_head(alloc: Global, head: &Head) -> Result<Option<Bytes>, AllocError>
    ensures { IfOk result (λ r. r ≡ expectation_of_head head.now) }
{
    if head.minor == 1 {
        head.fields.combined(alloc, b"expect")
    } else {
        Ok(None)
    }
}

fn framing_has_content(framing: Framing) -> bool
    ensures { result ≡ framing_has_content framing }
{
    match framing {
        Framing::Nothing => false,
        Framing::Announced(length) => length > 0,
        Framing::Chunked | Framing::UntilClose => true,
    }
}

/// How the content of a request is judged by its head.
pub(crate) fn request_framing_of(
    alloc: Global,
    max_body: u64,
    head: &Head,
) -> Result<Result<RequestFraming, FrameFault>, AllocError>
    ensures { IfOk result (λ r. r ≡ request_framing_of max_body head.now) }
{
    let framing = match framing_by_request_fields(alloc, max_body, head)? {
        Ok(framing) => framing,
        Err(fault) => return Ok(Err(fault)),
    };
    match expectation_of_head(alloc, head)? {
        None => Ok(Ok(RequestFraming {
            framing,
            wants_continue: false,
        })),
        Some(value) => {
            if is_same_name(value.as_slice(), b"100-continue") {
                Ok(Ok(RequestFraming {
                    framing,
                    wants_continue: framing_has_content(framing),
                }))
            } else {
                Ok(Err(FrameFault::Expect))
            }
        }
    }
}

/// Whether a status is that of an interim response.
pub(crate) fn is_interim(status: u16) -> bool
    ensures { result ≡ is_interim status }
{
    matches!(status, 100 | 102..=199)
}

fn response_has_no_content(to_head: bool, status: u16) -> bool
    ensures { result ≡ response_has_no_content to_head status }
{
    to_head || is_interim(status) || status == 204 || status == 304
}

/// What the length fields of a response with content say.
fn framing_of_final_response(
    alloc: Global,
    max_body: u64,
    head: &StatusHead,
) -> Result<Result<Framing, FrameFault>, AllocError>
    ensures { IfOk result (λ r. r ≡ framing_of_final_response max_body head.now) }
{
    framing_by_length_fields(
        alloc,
        max_body,
        head.minor,
        Framing::UntilClose,
        false,
        &head.fields,
    )
}

/// What was judged, where a response may have this status.
fn framing_if_accepted_status(
    status: u16,
    judged: Result<Framing, FrameFault>,
) -> Result<Framing, FrameFault>
    ensures { result ≡ framing_if_accepted_status status judged }
{
    match judged {
        Ok(_) if status < 100 || status >= 600 || status == 101 => Err(FrameFault::Status),
        other => other,
    }
}

/// How the content of a response is judged by its head.
pub(crate) fn framing_of_response(
    alloc: Global,
    max_body: u64,
    to_head: bool,
    head: &StatusHead,
) -> Result<Result<Framing, FrameFault>, AllocError>
    ensures { IfOk result (λ r. r ≡ framing_of_response max_body to_head head.now) }
{
    if head.status == 101 || response_has_no_content(to_head, head.status) {
        return Ok(framing_if_accepted_status(head.status, Ok(Framing::Nothing)));
    }
    let judged = framing_of_final_response(alloc, max_body, head)?;
    Ok(framing_if_accepted_status(head.status, judged))
}

/// The length that an answer to HEAD announces, in bytes.
pub(crate) fn announced_length_in_answer_to_head(to_head: bool, head: &StatusHead) -> Option<u64>
    ensures { result ≡ announced_length_in_answer_to_head to_head head.now }
{
    if !to_head || head.fields.has(b"transfer-encoding") {
        return None;
    }
    match announced_length_up_to_or_fault(MOST_BYTES_ANNOUNCED_TO_HEAD, &head.fields) {
        Ok(length) => Some(length),
        Err(_) => None,
    }
}

/// The lines that are no length fields.
pub(crate) fn without_length_fields(mut fields: Fields) -> Fields
    ensures { result ≡ without_length_fields fields }
{
    fields.remove_named(b"content-length");
    fields.remove_named(b"transfer-encoding");
    fields
}
