//! What stands at the front of a response stream. The definitions are in `specs/ResponseReading.antt` and
//! `specs/ResponseHeadProgress.antt`.
ghost use Rattle.std.specs.Prelude.{◌≡◌, ◌≤◌, IfOk, OnErr, Ok, Bool, length, take};
ghost use Rattle.hx_framing.specs.HeadEnd.{head_length as head_length_of, most_head_bytes};
ghost use Rattle.hx_framing.specs.declared.readers.response_reading.FinalHead.TheVariants as final_head;
ghost use Rattle.hx_framing.specs.Lengths.{framing_of_response};
ghost use Rattle.hx_framing.specs.ResponseReading.{content_bytes_of, response_of_head};
ghost use Rattle.hx_framing.specs.ResponseHeadProgress.{IsProgressOfBytes, FinalHeadSearchEndsWith};
ghost use Rattle.hx_framing.specs.ResponseHeadProgress.{FinalHeadFollowsInterimResponses};

use crate::contents::content::{Content, ContentProgress};
use crate::frame_fault::FrameFault;
use crate::heads::head_end::head_length_within;
use crate::heads::judging::judge_head;
use crate::heads::status_head::{Judged, StatusHead};
use crate::lengths::framing::{
    Framing, announced_length_in_answer_to_head, framing_of_response, without_length_fields,
};
use crate::limits::MOST_HEAD_BYTES;
use crate::messages::Response;
use crate::readers::message_head::MessageHead;
use crate::readers::progress::{MessageProgress, ReaderPhase, UnreadStreamBytes};
use crate::slices::bytes_from_index;
use httparse::spans::ResponseSpans;
use hx_fields::Bytes;
use std::alloc::{AllocError, Global};

/// How far the search for the head of the final response has come, behind the interim ones in front.
#[derive(Drop)]
enum FinalHead {
    /// They take so many bytes, and no head ends behind them.
    Incomplete(usize),
    Faulty(FrameFault),
    /// The head of a final response, and where it ends.
    Complete(StatusHead, usize),
}

/// The bytes of a content; no content has none.
fn content_bytes_of(alloc: Global, content: Option<Bytes>) -> Bytes
    ensures { result ≡ content_bytes_of content }
{
    match content {
        Some(bytes) => bytes,
        None => Bytes::new(alloc),
    }
}

/// A head with its content, without its length fields.
fn response_of_head(
    alloc: Global,
    to_head: bool,
    head: StatusHead,
    content: Option<Bytes>,
) -> Response
    ensures { result ≡ response_of_head to_head head content }
{
    let announced = announced_length_in_answer_to_head(to_head, &head);
    let StatusHead {
        status,
        minor: _,
        fields,
    } = head;
    Response {
        status,
        fields: without_length_fields(fields),
        content: content_bytes_of(alloc, content),
        announced,
    }
}

/// Skips the interim responses in front. The first head takes `head_length` bytes.
fn skip_interim(
    alloc: Global,
    bytes: &[u8],
    head_length: Option<usize>,
) -> Result<FinalHead, AllocError>
    requires { head_length ≡ head_length_of (take most_head_bytes bytes.now) }
    ensures final_head { IfOk result (FinalHeadSearchEndsWith bytes.now) }
    ensures memory_last { OnErr result (FinalHeadFollowsInterimResponses bytes.now) }
{
    let mut at = 0;
    let mut next = head_length;
    loop {
        let rest = bytes_from_index(bytes, at);
        let Some(n) = next else {
            return Ok(FinalHead::Incomplete(at));
        };
        let (head, _) = rest.split_at(n);
        match judge_head::<ResponseSpans>(alloc, head)? {
            Judged::Interim => {
                at += n;
                next = head_length_within(bytes_from_index(bytes, at), MOST_HEAD_BYTES);
            }
            Judged::Final(head) => return Ok(FinalHead::Complete(head, at + n)),
            Judged::Faulty(fault) => return Ok(FinalHead::Faulty(fault)),
        }
    }
}

/// Where no head ends within the limit behind the interim responses, which take `at` bytes.
fn progress_without_head(
    rest: &UnreadStreamBytes<'_>,
    at: usize,
) -> MessageProgress<StatusHead, Response>
    requires within { at ≤ length rest.now.bytes.now }
    requires open { FinalHeadSearchEndsWith rest.now.bytes.now (final_head.Incomplete at) }
    ensures { (to_head : Bool) → IsProgressOfBytes rest.now.max_body to_head rest.now.ended rest.now.bytes.now result }
{
    if rest.bytes.len() - at > MOST_HEAD_BYTES {
        MessageProgress::Faulty(FrameFault::Head)
    } else if rest.ended {
        MessageProgress::Faulty(FrameFault::Truncated)
    } else {
        MessageProgress::Incomplete(at)
    }
}

/// Behind a final head, which ends at `at`.
fn with_framing(
    alloc: Global,
    rest: &UnreadStreamBytes<'_>,
    to_head: bool,
    at: usize,
    head: StatusHead,
    framing: Framing,
) -> Result<MessageProgress<StatusHead, Response>, AllocError>
    requires final_head { FinalHeadSearchEndsWith rest.now.bytes.now (final_head.Complete head at) }
    requires framing { framing_of_response rest.now.max_body to_head head ≡ Ok framing }
    ensures progress { IfOk result (IsProgressOfBytes rest.now.max_body to_head rest.now.ended rest.now.bytes.now) }
    ensures memory_last { OnErr result (FinalHeadFollowsInterimResponses rest.now.bytes.now) }
{
    let mut content = Content::begun(alloc, rest.max_body, framing);
    match content.read(
        alloc,
        rest.ended,
        rest.ended,
        bytes_from_index(rest.bytes, at),
        0,
    )? {
        ContentProgress::Incomplete(n) => Ok(MessageProgress::InContent(head, content, at + n)),
        ContentProgress::Faulty(fault) => Ok(MessageProgress::Faulty(fault)),
        ContentProgress::Whole(content, n) => {
            Ok(MessageProgress::Message(response_of_head(alloc, to_head, head, content), at + n))
        }
    }
}

/// What stands at the front of the unread bytes. The first head takes `head_length` of them.
fn read_response(
    alloc: Global,
    rest: &UnreadStreamBytes<'_>,
    to_head: bool,
    head_length: Option<usize>,
) -> Result<MessageProgress<StatusHead, Response>, AllocError>
    requires { head_length ≡ head_length_of (take most_head_bytes rest.now.bytes.now) }
    ensures progress { IfOk result (IsProgressOfBytes rest.now.max_body to_head rest.now.ended rest.now.bytes.now) }
    ensures memory_last { OnErr result (FinalHeadFollowsInterimResponses rest.now.bytes.now) }
{
    match skip_interim(alloc, rest.bytes, head_length)? {
        FinalHead::Incomplete(at) => Ok(progress_without_head(rest, at)),
        FinalHead::Faulty(fault) => Ok(MessageProgress::Faulty(fault)),
        FinalHead::Complete(head, at) => {
            match framing_of_response(alloc, rest.max_body, to_head, &head)? {
                Err(fault) => Ok(MessageProgress::Faulty(fault)),
                Ok(framing) => with_framing(alloc, rest, to_head, at, head, framing),
            }
        }
    }
}

impl MessageHead for StatusHead {
    ghost use Rattle.hx_framing.specs.ResponseState.{response_reader_kind};

    type Message = Response;

    ghost kind = { response_reader_kind };

    fn read_next_head(
        alloc: Global,
        rest: &UnreadStreamBytes<'_>,
        to_head: bool,
        head_length: Option<usize>,
    ) -> Result<MessageProgress<StatusHead, Response>, AllocError> {
        read_response(alloc, rest, to_head, head_length)
    }

    fn is_closed_by(ended: bool) -> bool {
        ended
    }

    fn into_message(self, alloc: Global, to_head: bool, content: Option<Bytes>) -> Response {
        response_of_head(alloc, to_head, self, content)
    }

    /// A link carries one response.
    fn behind_message() -> ReaderPhase<StatusHead> {
        ReaderPhase::Given
    }
}
