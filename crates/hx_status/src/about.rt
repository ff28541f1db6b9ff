//! What a reply is, as data.
ghost use Rattle.std.specs.Prelude.{◌≡◌, ◌+◌, ◌<◌, ◌≤◌, ◌++◌, OnErr, OnOk, length, take, vec_capacity};
ghost use Rattle.hx_status.specs.Abouts.{refusal_status_and_reason, purge_status_and_reason, reply_reason_text};

use crate::cache_status::push_status_parameters;
use crate::cause::Cause;
use crate::own_replies::{push_refusal_text, refusal_status};
use crate::question::MethodAndTarget;
use crate::status::Status;
use itoa::Buffer;
use std::alloc::AllocError;

/// What a reply tells of itself, in the one of three lines that the proxy adds.
#[derive(Clone, Copy, Debug, PartialEq, Eq)]
pub enum Told {
    /// In Cache-Status: how its request was handled (RFC 9211, section 2).
    Handled(Status),
    /// In Refusal: why the proxy answers by itself.
    Refused(Cause),
    /// In Purged: how many stored responses a purge took.
    Purged(u64),
}

/// What a reply is. Whoever counts or logs replies goes by this, and reads none of their bytes.
#[derive(Clone, Copy, Debug, PartialEq, Eq)]
pub struct StatusAndReason {
    /// The status of the reply itself (RFC 9110, section 15).
    pub status: u16,
    pub told: Told,
    /// The bytes of its content (RFC 9110, section 6.4). They are counted as it is written.
    pub content_length: u64,
    /// The line of the operator's table whose origin was asked for it, from 1; none where no origin was asked.
    pub origin_line: Option<u16>,
}

/// What a reply is, and what it answers.
#[derive(Drop)]
pub struct ReplyData {
    pub about: StatusAndReason,
    /// What its client asked for; none where the head of the request couldn't be read, or its content.
    pub question: Option<MethodAndTarget>,
}

impl StatusAndReason {
    /// The proxy answers by itself for this cause, with so many bytes of content, and asked no origin.
    pub fn refusal(cause: Cause, content_length: u64) -> StatusAndReason
        ensures { result ≡ refusal_status_and_reason cause content_length }
    {
        StatusAndReason {
            status: refusal_status(cause),
            told: Told::Refused(cause),
            content_length,
            origin_line: None,
        }
    }

    /// The answer to a purge that took so many (RFC 9110, section 15.3.5).
    pub fn purge(count: u64) -> StatusAndReason
        ensures { result ≡ purge_status_and_reason count }
    {
        StatusAndReason {
            status: 204,
            told: Told::Purged(count),
            content_length: 0,
            origin_line: None,
        }
    }
}

/// Adds what a reply tells, as a line of a log has it: the parameters of its member of Cache-Status, the text of
/// Refusal, or the line of Purged. Its only error is out of memory.
pub fn push_reply_reason_text(out: &mut Vec<u8>, told: &Told) -> Result<(), AllocError>
    ensures ok { OnOk result (out.new.items ≡ out.old.items ++ reply_reason_text told.now) }
    ensures full { OnErr result (vec_capacity out.old < length out.old.items + length (reply_reason_text told.now)) }
    ensures capacity { vec_capacity out.old ≤ vec_capacity out.new }
    ensures front { take (length out.old.items) out.new.items ≡ out.old.items }
{
    match told {
        Told::Handled(status) => push_status_parameters(out, status),
        Told::Refused(cause) => push_refusal_text(out, *cause),
        Told::Purged(count) => {
            let mut digits = Buffer::new();
            out.extend_from_slice(b"Purged: ")?;
            out.extend_from_slice(digits.format(*count).as_bytes())
        }
    }
}
