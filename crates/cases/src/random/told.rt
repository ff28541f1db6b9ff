//! What an effect tells of a reply, beside what the reply's bytes say.

use super::fields::last_value;
use super::requests::Asked;
use bstr::ByteSlice;
use hx_status::{
    AskedTarget, Cause, MethodAndTarget, ReplyData, StatusAndReason, Told, push_reply_reason_text,
};
use std::alloc::{AllocError, Global};

/// What the line says that the proxy adds by itself, as a log has it.
fn said<'a>(head: &'a [u8]) -> Option<&'a [u8]> {
    if let Some(member) = last_value(head, b"Cache-Status") {
        let (_name, parameters) = member.split_once_str(b";")?;
        return Some(parameters);
    }
    last_value(head, b"Refusal")
}

/// Whether the line of a purge says so many.
fn says_purged(head: &[u8], reason: &[u8]) -> bool {
    match last_value(head, b"Purged") {
        Some(count) => reason.strip_prefix(b"Purged: ".as_slice()) == Some(count),
        None => false,
    }
}

/// Whether a status line has these three digits.
fn has_status(bytes: &[u8], status: u16) -> bool {
    match bytes.get(9..12) {
        Some([a, b, c]) if a.is_ascii_digit() && b.is_ascii_digit() && c.is_ascii_digit() => {
            let number = 100 * u16::from(*a - b'0')
                + 10 * u16::from(*b - b'0')
                + u16::from(*c - b'0');
            number == status
        }
        _ => false,
    }
}

/// Whether a host is written so, without case.
fn is_host(host: &[u8], written: &str) -> bool {
    host.eq_ignore_ascii_case(written.as_bytes())
}

/// Whether it is what a request asks for.
fn is_question_of(question: &MethodAndTarget, asked: &Asked) -> bool {
    let names_target = match &question.target {
        AskedTarget::Uri(key) => {
            is_host(key.host.as_slice(), asked.host)
                && key.port == 80
                && key.path_query.as_slice() == asked.path.as_bytes()
        }
        AskedTarget::AsItCame(target) => target.as_slice() == asked.path.as_bytes(),
    };
    names_target && question.method.as_str() == asked.method
}

/// Whether what is told of the request that a reply answers is what it asks for: nothing where its head or its content
/// is refused, and only there.
pub fn is_told_of(replied: &ReplyData, asked: &Asked) -> bool {
    match &replied.question {
        Some(question) => is_question_of(question, asked),
        None => matches!(replied.about.told, Told::Refused(Cause::Frame(_))),
    }
}

/// Whether what is told of these bytes is what they say: of a reply its status, its reason, and the length of its
/// content. Its only error is out of memory.
pub fn is_told(alloc: Global, bytes: &[u8], about: &StatusAndReason) -> Result<bool, AllocError> {
    let Some((head, content)) = bytes.split_once_str(b"\r\n\r\n") else {
        return Ok(false);
    };
    let mut reason = Vec::new(alloc);
    push_reply_reason_text(&mut reason, &about.told)?;
    let told = match said(head) {
        Some(said) => said == reason.as_slice(),
        None => says_purged(head, reason.as_slice()),
    };
    let is_length_told = about.content_length == content.len() as u64;
    Ok(told && is_length_told && has_status(bytes, about.status))
}
