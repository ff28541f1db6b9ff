//! Heads of responses (RFC 9112, sections 2, 4 and 5). The definitions are in `specs/StatusHead.antt`.
ghost use Rattle.std.specs.Prelude.{◌≡◌, ◌<◌, [], length, IfOk};
ghost use Rattle.httparse.specs.Grammar.{ReadsResponse, ResponseHead};
ghost use Rattle.httparse.specs.Spans.{IsResponseAt, IsResponseWithin};
ghost use Rattle.hx_framing.specs.declared.heads.status_head.StatusHead.{StatusHead};
ghost use Rattle.hx_framing.specs.declared.heads.status_head.Judged.TheVariants as judged;
ghost use Rattle.hx_framing.specs.StatusHead.{IsWholeResponseHead, status_head_at, status_head_fault};

use crate::frame_fault::FrameFault;
use crate::heads::head_fields::fields_at_spans;
use crate::heads::judging::HeadSpans;
use crate::heads::version::response_has_unsupported_version;
use crate::lengths::framing::is_interim;
use httparse::Status;
use httparse::spans::{HeaderSpan, ResponseSpans, parse_response};
use hx_fields::{Bytes, Fields};
use std::alloc::{AllocError, Global};

/// A head: the status, the minor version and the field lines.
#[derive(Drop)]
pub struct StatusHead {
    pub(crate) status: u16,
    pub(crate) minor: u8,
    pub(crate) fields: Fields,
}

/// How the bytes of a whole head are judged.
#[derive(Drop)]
pub(crate) enum Judged {
    /// The head of an interim response. It is passed over, so it isn't copied.
    Interim,
    Final(StatusHead),
    Faulty(FrameFault),
}

/// The head whose parts the spans cover. It keeps one copy of the bytes, which its parts share.
fn copy_head(
    alloc: Global,
    bytes: &[u8],
    spans: &[HeaderSpan],
    found: ResponseSpans,
) -> Result<StatusHead, AllocError>
    requires { IsResponseWithin bytes.now spans.now found }
    ensures { IfOk result (λ head. head ≡ status_head_at bytes.now spans.now found) }
{
    let head = Bytes::shared_copy_of(alloc, bytes)?;
    Ok(StatusHead {
        status: found.code,
        minor: found.version,
        fields: fields_at_spans(alloc, &head, &spans[..found.headers])?,
    })
}

/// The fault of bytes that are no head.
fn status_head_fault(bytes: &[u8]) -> FrameFault
    ensures { result ≡ status_head_fault bytes.now }
{
    if response_has_unsupported_version(bytes) {
        FrameFault::Version
    } else {
        FrameFault::Head
    }
}

impl HeadSpans for ResponseSpans {
    ghost use Rattle.hx_framing.specs.StatusHead.{ResponseHeadIsJudgedAs};

    type Judged = Judged;

    ghost Covers = { λ found bytes spans. IsResponseWithin bytes spans found
        × ((h : ResponseHead) × IsWholeResponseHead bytes h × IsResponseAt bytes spans found h) };

    ghost Exceeds = { λ bytes most. (h : ResponseHead) → ReadsResponse bytes h [] → most < length h.fields };

    ghost Judges = { ResponseHeadIsJudgedAs };

    ghost HasHead = { λ bytes. (head : StatusHead) × ResponseHeadIsJudgedAs bytes (judged.Final head) };

    fn find(bytes: &[u8], spans: &mut [HeaderSpan]) -> Option<ResponseSpans> {
        match parse_response(bytes, spans) {
            Ok(Status::Complete(found)) if found.len == bytes.len() => Some(found),
            _ => None,
        }
    }

    /// Only the head of a final response is copied.
    fn judge(
        self,
        alloc: Global,
        bytes: &[u8],
        spans: &[HeaderSpan],
    ) -> Result<Judged, AllocError> {
        if is_interim(self.code) {
            return Ok(Judged::Interim);
        }
        Ok(Judged::Final(copy_head(alloc, bytes, spans, self)?))
    }

    fn refuse(bytes: &[u8]) -> Judged {
        Judged::Faulty(status_head_fault(bytes))
    }
}
