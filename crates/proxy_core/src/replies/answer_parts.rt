//! The part of an answer of the origin that is sent to a request whose range stayed with the proxy (RFC 9110, sections
//! 14.2, 15.3.7 and 15.5.17).
//!
//! The origin was asked for the whole. What is stored of its answer is the whole, too; only this client is sent a part.
ghost use Rattle.std.specs.Prelude.{◌≡◌, ◌≤◌, ◌<◌, length, IfOk, Some};
ghost use Rattle.hx_framing.specs.Text.{response_text};
ghost use Rattle.hx_hop.specs.Answering.{answered_of};
ghost use Rattle.hx_validate.specs.Ranges.{PartLiesWithinTotal};
ghost use Rattle.hx_validate.specs.declared.ranges.RangeAnswer.TheVariants.{Part, Unsatisfiable};
ghost use Rattle.proxy_core.specs.Abouts.{report_of_answer_cut_to_range};
ghost use Rattle.proxy_core.specs.Replies.{text_of_answer_or_its_range, part_of_answer_to_send, content_unless_head};
ghost use Rattle.proxy_core.specs.Replies.{is_head};
ghost use Rattle.proxy_core.specs.Replies.{ttl_of_passed_answer};

use crate::replies::origin_answer::OriginAnswer;
use crate::replies::reply_text::{
    PassedAnswerInfo, content_unless_head, fields_in_place_of_answer, is_head,
    report_in_place_of_answer, whole_answer_text,
};
use crate::replies::stored_reply::{
    ReplyTextAndAbout, STATUS_PARTIAL_CONTENT, STATUS_RANGE_NOT_SATISFIABLE,
};
use hx_age::Times;
use hx_fields::{Bytes, Fields};
use hx_framing::write_response;
use hx_hop::{Answered, Asked};
use hx_policy::Policy;
use hx_reuse::fetches_whole_for_range;
use hx_validate::{
    RangeAnswer, answer_unsatisfied_fields, fields_of_206_part, head_leaves_room, range_answer_of,
};
use std::alloc::{AllocError, Global};

/// What of an answer is sent to its client, over a line of this policy.
fn part_of_answer_to_send(answer: &OriginAnswer<'_>, head: &Answered, policy: Policy) -> RangeAnswer
    requires { head.now ≡ answered_of answer.now.response.now answer.now.response_time }
    ensures answer { result ≡ part_of_answer_to_send policy answer.now.exchange.now answer.now.response.now
        answer.now.response_time }
    ensures part { PartLiesWithinTotal result (length answer.now.response.now.content) }
{
    let exchange = answer.exchange;
    if !fetches_whole_for_range(policy, &exchange.asked) {
        return RangeAnswer::Whole;
    }
    let date = Times::of(&head.fields, exchange.request_time, answer.response_time).date;
    let response = answer.response;
    let total = response.content.len();
    range_answer_of(&exchange.asked, head.status, date, &head.fields, total)
}

/// A response of a status, of these lines and of a content.
fn text_in_place(
    alloc: Global,
    asked: &Asked,
    status: u16,
    lines: &Fields,
    content: &[u8],
) -> Result<Bytes, AllocError>
    ensures { IfOk result (λ text. text ≡ response_text status lines.now (Some (length content.now)) asked.now.close
        (content_unless_head (is_head asked.now) content.now)) }
{
    let length = Some(content.len() as u64);
    let content = content_unless_head(is_head(asked), content);
    write_response(alloc, status, lines, length, asked.close, content)
}

/// The bytes of an answer from the first to the last, where its head has room for the line that tells them.
fn part_text(
    alloc: Global,
    name: &str,
    answer: &OriginAnswer<'_>,
    head: &Answered,
    shown: PassedAnswerInfo,
    first: usize,
    last: usize,
) -> Result<ReplyTextAndAbout, AllocError>
    requires head { head.now ≡ answered_of answer.now.response.now answer.now.response_time }
    requires order { first ≤ last }
    requires within { last < length answer.now.response.now.content }
    requires ttl { shown.ttl ≡ ttl_of_passed_answer shown.policy answer.now.exchange.now head.now.status
        head.now.fields answer.now.response_time shown.stored }
    ensures text { IfOk result
        (λ sent. sent.bytes ≡ text_of_answer_or_its_range shown.policy name.now answer.now.exchange.now
        answer.now.response.now answer.now.response_time shown.stored shown.rule (Part first last)) }
    ensures about { IfOk result (λ sent. sent.about ≡ report_of_answer_cut_to_range shown.policy answer.now.exchange.now
        answer.now.response.now answer.now.response_time shown.stored shown.rule
        (Part first last)) }
{
    let response = answer.response;
    let content = response.content.as_slice();
    let own = fields_of_206_part(alloc, &head.fields, first, last, content.len())?;
    if !head_leaves_room(&own) {
        return whole_answer_text(alloc, name, answer, head, shown);
    }
    let lines = fields_in_place_of_answer(alloc, name, answer, head, shown, own)?;
    let part = &content[first..last + 1];
    let asked = &answer.exchange.asked;
    let bytes = text_in_place(alloc, asked, STATUS_PARTIAL_CONTENT, &lines, part)?;
    let sent = content_unless_head(is_head(asked), part);
    let about = report_in_place_of_answer(answer, head, shown, STATUS_PARTIAL_CONTENT, sent);
    Ok(ReplyTextAndAbout { bytes, about })
}

/// That none of the bytes which are asked for is there, where its head has room for the line that tells it.
fn unsatisfied_text(
    alloc: Global,
    name: &str,
    answer: &OriginAnswer<'_>,
    head: &Answered,
    shown: PassedAnswerInfo,
) -> Result<ReplyTextAndAbout, AllocError>
    requires head { head.now ≡ answered_of answer.now.response.now answer.now.response_time }
    requires ttl { shown.ttl ≡ ttl_of_passed_answer shown.policy answer.now.exchange.now head.now.status
        head.now.fields answer.now.response_time shown.stored }
    ensures text { IfOk result
        (λ sent. sent.bytes ≡ text_of_answer_or_its_range shown.policy name.now answer.now.exchange.now
        answer.now.response.now answer.now.response_time shown.stored shown.rule Unsatisfiable) }
    ensures about { IfOk result (λ sent. sent.about ≡ report_of_answer_cut_to_range shown.policy answer.now.exchange.now
        answer.now.response.now answer.now.response_time shown.stored shown.rule
        Unsatisfiable) }
{
    let response = answer.response;
    let total = response.content.len();
    let own = answer_unsatisfied_fields(alloc, &head.fields, total)?;
    if !head_leaves_room(&own) {
        return whole_answer_text(alloc, name, answer, head, shown);
    }
    let lines = fields_in_place_of_answer(alloc, name, answer, head, shown, own)?;
    let asked = &answer.exchange.asked;
    let bytes = text_in_place(alloc, asked, STATUS_RANGE_NOT_SATISFIABLE, &lines, &[])?;
    let sent = content_unless_head(is_head(asked), &[]);
    let about = report_in_place_of_answer(answer, head, shown, STATUS_RANGE_NOT_SATISFIABLE, sent);
    Ok(ReplyTextAndAbout { bytes, about })
}

/// An answer of the origin, as much of it as its client asked for: its head is handed in as rules see it.
pub(crate) fn text_of_answer_or_its_range(
    alloc: Global,
    name: &str,
    answer: &OriginAnswer<'_>,
    head: &Answered,
    shown: PassedAnswerInfo,
) -> Result<ReplyTextAndAbout, AllocError>
    requires head { head.now ≡ answered_of answer.now.response.now answer.now.response_time }
    requires ttl { shown.ttl ≡ ttl_of_passed_answer shown.policy answer.now.exchange.now head.now.status
        head.now.fields answer.now.response_time shown.stored }
    ensures text { IfOk result
        (λ sent. sent.bytes ≡ text_of_answer_or_its_range shown.policy name.now answer.now.exchange.now
        answer.now.response.now answer.now.response_time shown.stored shown.rule
        (part_of_answer_to_send shown.policy answer.now.exchange.now answer.now.response.now
        answer.now.response_time)) }
    ensures about { IfOk result (λ sent. sent.about ≡ report_of_answer_cut_to_range shown.policy answer.now.exchange.now
        answer.now.response.now answer.now.response_time shown.stored shown.rule
        (part_of_answer_to_send shown.policy answer.now.exchange.now answer.now.response.now
        answer.now.response_time)) }
{
    match part_of_answer_to_send(answer, head, shown.policy) {
        RangeAnswer::Whole => whole_answer_text(alloc, name, answer, head, shown),
        RangeAnswer::Part(first, last) => {
            part_text(alloc, name, answer, head, shown, first, last)
        }
        RangeAnswer::Unsatisfiable => unsatisfied_text(alloc, name, answer, head, shown),
    }
}
