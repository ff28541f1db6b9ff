//! What stands at the front of the unread bytes of a request stream. The definitions are in
//! `specs/RequestReading.antt` and `specs/RequestHeadProgress.antt`.
ghost use Rattle.std.specs.Prelude.{◌≡◌, ◌<◌, IfOk, OnErr, Some, None, Ok, Err, length, take, drop};
ghost use Rattle.hx_framing.specs.HeadEnd.{head_length as head_length_of, most_head_bytes};
ghost use Rattle.hx_framing.specs.Head.{RequestHeadIsJudged};
ghost use Rattle.hx_framing.specs.Lengths.{request_framing_of};
ghost use Rattle.hx_framing.specs.RequestHeadProgress.{IsProgressOfBytes, BytesBeginWithRequestHead};

use crate::contents::content::{Content, ContentProgress};
use crate::frame_fault::FrameFault;
use crate::heads::head_end::empty_lines_length;
use crate::heads::judging::judge_head;
use crate::heads::request_head::Head;
use crate::lengths::framing::{RequestFraming, request_framing_of};
use crate::limits::MOST_HEAD_BYTES;
use crate::messages::Request;
use crate::readers::message_head::MessageHead;
use crate::readers::progress::{MessageProgress, ReaderPhase, UnreadStreamBytes};
use crate::slices::bytes_from_index;
use httparse::spans::RequestSpans;
use hx_fields::Bytes;
use std::alloc::{AllocError, Global};

/// Where no head ends within the limit.
fn progress_without_head(rest: &UnreadStreamBytes<'_>) -> MessageProgress<Head, Request>
    requires { head_length_of (take most_head_bytes rest.now.bytes.now) ≡ None }
    ensures { IsProgressOfBytes rest.now.max_body rest.now.ended rest.now.bytes.now result }
{
    if rest.bytes.len() > MOST_HEAD_BYTES {
        MessageProgress::Faulty(FrameFault::Head)
    } else if rest.ended && empty_lines_length(rest.bytes) == rest.bytes.len() {
        MessageProgress::Ended
    } else if rest.ended {
        MessageProgress::Faulty(FrameFault::Truncated)
    } else {
        MessageProgress::Incomplete(0)
    }
}

/// Behind a head of `at` bytes that tells its content.
fn with_request_body(
    alloc: Global,
    rest: &UnreadStreamBytes<'_>,
    at: usize,
    head: Head,
    body: RequestFraming,
) -> Result<MessageProgress<Head, Request>, AllocError>
    requires place { head_length_of (take most_head_bytes rest.now.bytes.now) ≡ Some at }
    requires some { 0 < at }
    requires judged { RequestHeadIsJudged (take at rest.now.bytes.now) (Ok head) }
    requires body { request_framing_of rest.now.max_body head ≡ Ok body }
    ensures progress { IfOk result (IsProgressOfBytes rest.now.max_body rest.now.ended rest.now.bytes.now) }
    ensures memory_last { OnErr result (BytesBeginWithRequestHead rest.now.bytes.now) }
{
    let mut content = Content::begun(alloc, rest.max_body, body.framing);
    if body.wants_continue {
        return Ok(MessageProgress::NeedsContinue(head, content, at));
    }
    // No content of a request runs until the close.
    match content.read(
        alloc,
        rest.ended,
        false,
        bytes_from_index(rest.bytes, at),
        0,
    )? {
        ContentProgress::Incomplete(n) => Ok(MessageProgress::InContent(head, content, at + n)),
        ContentProgress::Faulty(fault) => Ok(MessageProgress::Faulty(fault)),
        ContentProgress::Whole(content, n) => Ok(MessageProgress::Message(
            head.into_request(content),
            at + n,
        )),
    }
}

/// What stands at the front of the unread bytes, before a continue was given. A head takes `head_length` of them.
fn read_request(
    alloc: Global,
    rest: &UnreadStreamBytes<'_>,
    head_length: Option<usize>,
) -> Result<MessageProgress<Head, Request>, AllocError>
    requires { head_length ≡ head_length_of (take most_head_bytes rest.now.bytes.now) }
    ensures progress { IfOk result (IsProgressOfBytes rest.now.max_body rest.now.ended rest.now.bytes.now) }
    ensures memory_last { OnErr result (BytesBeginWithRequestHead rest.now.bytes.now) }
{
    let Some(at) = head_length else {
        return Ok(progress_without_head(rest));
    };
    let (front, _) = rest.bytes.split_at(at);
    match judge_head::<RequestSpans>(alloc, front)? {
        Err(fault) => Ok(MessageProgress::Faulty(fault)),
        Ok(head) => match request_framing_of(alloc, rest.max_body, &head)? {
            Err(fault) => Ok(MessageProgress::Faulty(fault)),
            Ok(body) => with_request_body(alloc, rest, at, head, body),
        },
    }
}

impl MessageHead for Head {
    ghost use Rattle.hx_framing.specs.RequestState.{request_kind};

    type Message = Request;

    ghost kind = { request_kind };

    fn read_next_head(
        alloc: Global,
        rest: &UnreadStreamBytes<'_>,
        _to_head: bool,
        head_length: Option<usize>,
    ) -> Result<MessageProgress<Head, Request>, AllocError> {
        read_request(alloc, rest, head_length)
    }

    /// No content of a request runs until the close.
    fn is_closed_by(_ended: bool) -> bool {
        false
    }

    fn into_message(self, _alloc: Global, _to_head: bool, content: Option<Bytes>) -> Request {
        self.into_request(content)
    }

    /// The next request may follow.
    fn behind_message() -> ReaderPhase<Head> {
        ReaderPhase::BeforeHead
    }
}
