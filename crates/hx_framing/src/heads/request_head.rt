//! Heads of requests (RFC 9112, sections 2 to 5). The definitions are in `specs/Head.antt`.
ghost use Rattle.std.specs.Prelude.{◌≡◌, ◌<◌, [], length, IfOk, Ok};
ghost use Rattle.http_header.specs.Token.{IsToken};
ghost use Rattle.httparse.specs.Grammar.{RequestHead, ReadsRequest};
ghost use Rattle.httparse.specs.Spans.{IsRequestAt, IsRequestWithin, span_bytes};
ghost use Rattle.hx_framing.specs.Head.{IsHeadOfRequest, head_at_spans, fault_of_bad_request_head};
ghost use Rattle.hx_framing.specs.declared.heads.request_head.Head.{Head};
ghost use Rattle.hx_framing.specs.RequestReading.{request_of_head};

use crate::frame_fault::FrameFault;
use crate::heads::head_fields::{fields_at_spans, head_bytes_at_span};
use crate::heads::judging::HeadSpans;
use crate::heads::version::request_has_unsupported_version;
use crate::lengths::framing::without_length_fields;
use crate::messages::Request;
use http::Method;
use http::method::MethodError;
use httparse::Status;
use httparse::spans::{HeaderSpan, RequestSpans, parse_request};
use hx_fields::{Bytes, Fields};
use std::alloc::{AllocError, Global};

/// A head: its request line and its field lines.
pub struct Head {
    pub(crate) method: Method,
    pub(crate) target: Bytes,
    pub(crate) minor: u8,
    pub(crate) fields: Fields,
}

/// One call drops it, wherever that is, so the cases of its method stand in one proof alone.
impl Drop for Head {
    fn drop(self) {
        let Head {
            method: _,
            target: _,
            minor: _,
            fields: _,
        } = self;
    }
}

impl Head {
    /// A head with its content, without its length fields.
    pub(crate) fn into_request(self, content: Option<Bytes>) -> Request
        ensures { result ≡ request_of_head self content }
    {
        let Head {
            method,
            target,
            minor,
            fields,
        } = self;
        Request {
            method,
            target,
            minor,
            fields: without_length_fields(fields),
            content,
        }
    }
}

fn copy_method(alloc: Global, name: &[u8]) -> Result<Method, AllocError>
    requires { IsToken name.now }
    ensures { IfOk result (λ method. method ≡ name.now) }
{
    match Method::from_bytes(alloc, name) {
        Ok(method) => Ok(method),
        Err(MethodError::Invalid) => unreachable!(),
        Err(MethodError::OutOfMemory) => Err(AllocError),
    }
}

/// The head whose parts the spans cover. It keeps one copy of the bytes, which its parts share.
fn copy_head(
    alloc: Global,
    bytes: &[u8],
    spans: &[HeaderSpan],
    found: RequestSpans,
) -> Result<Head, AllocError>
    requires within { IsRequestWithin bytes.now spans.now found }
    requires method { IsToken (span_bytes bytes.now found.method) }
    ensures { IfOk result (λ head. head ≡ head_at_spans bytes.now spans.now found) }
{
    let method = copy_method(alloc, found.method.of(bytes))?;
    let head = Bytes::shared_copy_of(alloc, bytes)?;
    Ok(Head {
        method,
        target: head_bytes_at_span(alloc, &head, found.path)?,
        minor: found.version,
        fields: fields_at_spans(alloc, &head, &spans[..found.headers])?,
    })
}

/// The fault of bytes that are no head.
fn fault_of_bad_request_head(bytes: &[u8]) -> FrameFault
    ensures { result ≡ fault_of_bad_request_head bytes.now }
{
    if request_has_unsupported_version(bytes) {
        FrameFault::Version
    } else {
        FrameFault::Head
    }
}

impl HeadSpans for RequestSpans {
    ghost use Rattle.hx_framing.specs.Head.{RequestHeadIsJudged as RequestJudges};

    type Judged = Result<Head, FrameFault>;

    ghost Covers = { λ found bytes spans. IsRequestWithin bytes spans found
        × ((h : RequestHead) × IsHeadOfRequest bytes h × IsRequestAt bytes spans found h) };

    ghost Exceeds = { λ bytes most. (h : RequestHead) → ReadsRequest bytes h [] → most < length h.fields };

    ghost Judges = { RequestJudges };

    ghost HasHead = { λ bytes. (head : Head) × RequestJudges bytes (Ok head) };

    fn find(bytes: &[u8], spans: &mut [HeaderSpan]) -> Option<RequestSpans> {
        match parse_request(bytes, spans) {
            Ok(Status::Complete(found)) if found.len == bytes.len() => Some(found),
            _ => None,
        }
    }

    fn judge(
        self,
        alloc: Global,
        bytes: &[u8],
        spans: &[HeaderSpan],
    ) -> Result<Result<Head, FrameFault>, AllocError> {
        Ok(Ok(copy_head(alloc, bytes, spans, self)?))
    }

    fn refuse(bytes: &[u8]) -> Result<Head, FrameFault> {
        Err(fault_of_bad_request_head(bytes))
    }
}
