//! The bytes of what the origin answered and of what the proxy answers by itself, and what all replies share.
ghost use Rattle.std.specs.Prelude.{◌≡◌, ◌<◌, [], length, is_some, IfOk, IfSome, Some, None};
ghost use Rattle.hx_directives.specs.Occurrences.{occurrences_of};
ghost use Rattle.hx_framing.specs.Text.{response_text};
ghost use Rattle.hx_hop.specs.Answering.{answered_of};
ghost use Rattle.hx_hop.specs.Moments.{date_text_of};
ghost use Rattle.proxy_core.specs.Abouts.{report_of_answer_sent, report_in_place_of_answer, report_of_passed_answer};
ghost use Rattle.proxy_core.specs.Abouts.{report_of_answer_passed_whole, report_of_refusal_reply};
ghost use Rattle.proxy_core.specs.Replies.{passed_answer_text, fields_of_passed_answer, length_of_passed_answer};
ghost use Rattle.proxy_core.specs.Replies.{whole_answer_text, client_wants_304_for_answer, fields_in_place_of_answer};
ghost use Rattle.proxy_core.specs.Replies.{not_modified_answer_text};
ghost use Rattle.proxy_core.specs.Replies.{cache_status_of_passed_answer, detail_of_bypassed_store};
ghost use Rattle.proxy_core.specs.Replies.{fields_without_hidden_tags};
ghost use Rattle.proxy_core.specs.Replies.{ttl_of_passed_answer, refusal_reply_text, fields_of_purge, purge_reply_text};
ghost use Rattle.proxy_core.specs.Replies.{fields_of_refusal, content_unless_head, is_head, length_unless_forbidden};

use crate::replies::answer_parts::text_of_answer_or_its_range;
use crate::replies::origin_answer::OriginAnswer;
use crate::replies::stored_reply::ReplyTextAndAbout;
use http::Method;
use hx_age::{Times, current_age, ttl};
use hx_allow::RouteOverLine;
use hx_directives::Directives;
use hx_fields::{Bytes, Fields};
use hx_framing::{Response, write_response};
use hx_hop::{Answered, Asked, date_text};
use hx_policy::Policy;
use hx_reuse::{lifetime_under_policy, withholds_conditions};
use hx_status::{Cause, Detail, How, Status, StatusAndReason, Told, member, refusal};
use hx_storable::StoreRule;
use hx_validate::{client_wants_304_for_answer, not_modified_fields_of_answer};
use itoa::Buffer;
use std::alloc::{AllocError, Global};

/// Whether a request is a HEAD, whose answers have no content (RFC 9110, section 9.3.2).
pub fn is_head(asked: &Asked) -> bool
    ensures { result ≡ is_head asked.now }
{
    asked.method == Method::HEAD
}

/// What is sent of a content: nothing to HEAD (RFC 9110, section 9.3.2).
pub(crate) fn content_unless_head(head: bool, content: &[u8]) -> &[u8]
    ensures { result.now ≡ content_unless_head head content.now }
{
    if head { &[] } else { content }
}

/// No length where the status has none (RFC 9110, section 8.6).
pub(crate) fn length_unless_forbidden(status: u16, length: Option<u64>) -> Option<u64>
    ensures { result ≡ length_unless_forbidden status length }
{
    if status == 204 || status == 304 {
        None
    } else {
        length
    }
}

/// What is told of an answer that is passed on.
#[derive(Clone, Copy)]
pub(crate) struct PassedAnswerInfo {
    /// What the line of its exchange says of caching.
    pub(crate) policy: Policy,
    pub(crate) stored: bool,
    /// The first storing rule against it, where its line tells that.
    pub(crate) rule: Option<StoreRule>,
    /// The seconds of freshness that it has left, where it was stored.
    pub(crate) ttl: Option<i64>,
}

/// The seconds of freshness that an answer has left, where it was stored with these directives.
pub(crate) fn ttl_of_passed_answer(
    answer: &OriginAnswer<'_>,
    head: &Answered,
    policy: Policy,
    stored: Option<&Directives>,
) -> Option<i64>
    requires { IfSome stored (λ directives. directives.now ≡ occurrences_of head.now.fields) }
    ensures { result ≡ ttl_of_passed_answer policy answer.now.exchange.now head.now.status head.now.fields
        answer.now.response_time (is_some stored.entry) }
{
    match stored {
        Some(directives) => {
            let now = answer.response_time;
            let times = Times::of(&head.fields, answer.exchange.request_time, now);
            let age = current_age(&times, now);
            let lifetime = lifetime_under_policy(policy, head.status, &head.fields, directives);
            Some(ttl(lifetime, age))
        }
        None => None,
    }
}

/// The word of a request that goes past the store for its cookies.
fn detail_of_bypassed_store(route: RouteOverLine) -> Option<Detail>
    ensures { result ≡ detail_of_bypassed_store route }
{
    if route.past_store {
        Some(Detail::SessionCookie)
    } else {
        None
    }
}

/// What Cache-Status tells of an answer that is passed on, with the status that came where another one is sent.
fn cache_status_of_answer(
    answer: &OriginAnswer<'_>,
    head: &Answered,
    shown: PassedAnswerInfo,
    fwd_status: Option<u16>,
) -> Status
    requires { shown.ttl ≡ ttl_of_passed_answer shown.policy answer.now.exchange.now head.now.status
        head.now.fields answer.now.response_time shown.stored }
    ensures { result ≡ record (cache_status_of_passed_answer shown.policy answer.now.exchange.now head.now.status
        head.now.fields answer.now.response_time shown.stored shown.rule) { fwd_status = fwd_status } }
{
    Status {
        how: How::Fwd(answer.exchange.rule),
        fwd_status,
        ttl: shown.ttl,
        stored: shown.stored,
        collapsed: false,
        detail: detail_of_bypassed_store(answer.exchange.line),
        not_stored: shown.rule,
    }
}

/// What is told of a response that is sent under a status, with this content, where the origin answered.
fn report_of_answer_sent(
    answer: &OriginAnswer<'_>,
    status: u16,
    content: &[u8],
    shown: Status,
) -> StatusAndReason
    ensures { result ≡ report_of_answer_sent answer.now.exchange.now status content.now shown }
{
    StatusAndReason {
        status,
        told: Told::Handled(shown),
        content_length: content.len() as u64,
        origin_line: Some(answer.exchange.line.number),
    }
}

/// What is told of the answer itself, of which this content is sent.
fn report_of_answer_passed_whole(
    answer: &OriginAnswer<'_>,
    head: &Answered,
    shown: PassedAnswerInfo,
    content: &[u8],
) -> StatusAndReason
    requires content { content.now ≡ content_unless_head (is_head answer.now.exchange.now.asked)
        answer.now.response.now.content }
    requires head { head.now ≡ answered_of answer.now.response.now answer.now.response_time }
    requires ttl { shown.ttl ≡ ttl_of_passed_answer shown.policy answer.now.exchange.now head.now.status
        head.now.fields answer.now.response_time shown.stored }
    ensures { result ≡ report_of_answer_passed_whole shown.policy answer.now.exchange.now answer.now.response.now
        answer.now.response_time shown.stored shown.rule }
{
    let status = cache_status_of_answer(answer, head, shown, None);
    report_of_answer_sent(answer, answer.response.status, content, status)
}

/// What is told of another response that is sent in its place.
pub(crate) fn report_in_place_of_answer(
    answer: &OriginAnswer<'_>,
    head: &Answered,
    shown: PassedAnswerInfo,
    status: u16,
    content: &[u8],
) -> StatusAndReason
    requires head { head.now ≡ answered_of answer.now.response.now answer.now.response_time }
    requires ttl { shown.ttl ≡ ttl_of_passed_answer shown.policy answer.now.exchange.now head.now.status
        head.now.fields answer.now.response_time shown.stored }
    ensures { result ≡ report_in_place_of_answer shown.policy answer.now.exchange.now answer.now.response.now
        answer.now.response_time shown.stored shown.rule status content.now }
{
    let shown = cache_status_of_answer(answer, head, shown, Some(head.status));
    report_of_answer_sent(answer, status, content, shown)
}

/// Takes the tags out, over a line that hides them.
fn hide_tags(policy: Policy, fields: &mut Fields)
    ensures { fields.new ≡ fields_without_hidden_tags policy.hides_tags fields.old }
{
    if policy.hides_tags {
        fields.remove_named(b"Cache-Tag");
    }
}

/// The lines of an answer that is passed on whole.
fn fields_of_passed_answer(
    alloc: Global,
    name: &str,
    answer: &OriginAnswer<'_>,
    head: &Answered,
    shown: PassedAnswerInfo,
) -> Result<Fields, AllocError>
    requires { shown.ttl ≡ ttl_of_passed_answer shown.policy answer.now.exchange.now head.now.status
        head.now.fields answer.now.response_time shown.stored }
    ensures { IfOk result (λ lines. lines ≡ fields_of_passed_answer shown.policy name.now answer.now.exchange.now
        head.now.status
        head.now.fields answer.now.response_time shown.stored shown.rule) }
{
    let status = cache_status_of_answer(answer, head, shown, None);
    let member = member(alloc, name, &status)?;
    let mut lines = head.fields.copy(alloc)?;
    hide_tags(shown.policy, &mut lines);
    lines.push(b"Cache-Status", member.as_slice())?;
    Ok(lines)
}

/// The lines of another response that is sent in its place, behind these of its own.
pub(crate) fn fields_in_place_of_answer(
    alloc: Global,
    name: &str,
    answer: &OriginAnswer<'_>,
    head: &Answered,
    shown: PassedAnswerInfo,
    own: Fields,
) -> Result<Fields, AllocError>
    requires { shown.ttl ≡ ttl_of_passed_answer shown.policy answer.now.exchange.now head.now.status
        head.now.fields answer.now.response_time shown.stored }
    ensures { IfOk result (λ lines. lines ≡ fields_in_place_of_answer shown.policy name.now answer.now.exchange.now
        head.now.status
        head.now.fields answer.now.response_time shown.stored shown.rule own) }
{
    let status = cache_status_of_answer(answer, head, shown, Some(head.status));
    let member = member(alloc, name, &status)?;
    let mut lines = own;
    hide_tags(shown.policy, &mut lines);
    lines.push(b"Cache-Status", member.as_slice())?;
    Ok(lines)
}

/// The length that an answer of the origin announces (RFC 9110, section 8.6).
fn length_of_passed_answer(head: bool, response: &Response) -> Option<u64>
    ensures { result ≡ length_of_passed_answer head response.now }
{
    if head {
        length_unless_forbidden(response.status, response.announced)
    } else {
        length_unless_forbidden(response.status, Some(response.content.len() as u64))
    }
}

/// An answer of the origin, whole: its head is handed in as rules see it.
pub(crate) fn whole_answer_text(
    alloc: Global,
    name: &str,
    answer: &OriginAnswer<'_>,
    head: &Answered,
    shown: PassedAnswerInfo,
) -> Result<ReplyTextAndAbout, AllocError>
    requires head { head.now ≡ answered_of answer.now.response.now answer.now.response_time }
    requires ttl { shown.ttl ≡ ttl_of_passed_answer shown.policy answer.now.exchange.now head.now.status
        head.now.fields answer.now.response_time shown.stored }
    ensures text { IfOk result (λ sent. sent.bytes ≡ whole_answer_text shown.policy name.now answer.now.exchange.now
        answer.now.response.now answer.now.response_time shown.stored shown.rule) }
    ensures about { IfOk result (λ sent. sent.about ≡ report_of_answer_passed_whole shown.policy answer.now.exchange.now
        answer.now.response.now answer.now.response_time shown.stored shown.rule) }
{
    let asked = &answer.exchange.asked;
    let response = answer.response;
    let to_head = is_head(asked);
    let lines = fields_of_passed_answer(alloc, name, answer, head, shown)?;
    let length = length_of_passed_answer(to_head, response);
    let content = content_unless_head(to_head, response.content.as_slice());
    let bytes = write_response(alloc, response.status, &lines, length, asked.close, content)?;
    let about = report_of_answer_passed_whole(answer, head, shown, content);
    Ok(ReplyTextAndAbout { bytes, about })
}

/// The 304 that is sent in its place.
fn not_modified_answer_text(
    alloc: Global,
    name: &str,
    answer: &OriginAnswer<'_>,
    head: &Answered,
    shown: PassedAnswerInfo,
) -> Result<ReplyTextAndAbout, AllocError>
    requires head { head.now ≡ answered_of answer.now.response.now answer.now.response_time }
    requires ttl { shown.ttl ≡ ttl_of_passed_answer shown.policy answer.now.exchange.now head.now.status
        head.now.fields answer.now.response_time shown.stored }
    ensures text { IfOk result (λ sent. sent.bytes ≡ not_modified_answer_text shown.policy name.now
        answer.now.exchange.now answer.now.response.now answer.now.response_time shown.stored shown.rule) }
    ensures about { IfOk result (λ sent. sent.about ≡ report_in_place_of_answer shown.policy answer.now.exchange.now
        answer.now.response.now answer.now.response_time shown.stored shown.rule 304 []) }
{
    let own = not_modified_fields_of_answer(alloc, &head.fields)?;
    let lines = fields_in_place_of_answer(alloc, name, answer, head, shown, own)?;
    let bytes = write_response(alloc, 304, &lines, None, answer.exchange.asked.close, &[])?;
    let about = report_in_place_of_answer(answer, head, shown, 304, &[]);
    Ok(ReplyTextAndAbout { bytes, about })
}

/// Whether the client has the answer already: the condition that it set stayed with the proxy, and is false of it.
fn client_has_the_answer(answer: &OriginAnswer<'_>, head: &Answered, policy: Policy) -> bool
    requires { head.now ≡ answered_of answer.now.response.now answer.now.response_time }
    ensures { result ≡ client_wants_304_for_answer policy answer.now.exchange.now answer.now.response.now
        answer.now.response_time }
{
    let asked = &answer.exchange.asked;
    withholds_conditions(policy, asked)
        && client_wants_304_for_answer(asked, head.status, &head.fields)
}

/// An answer of the origin, as it is passed on, whole, in part or as a 304: its head is handed in as rules see it.
pub(crate) fn passed_answer_text(
    alloc: Global,
    name: &str,
    answer: &OriginAnswer<'_>,
    head: &Answered,
    shown: PassedAnswerInfo,
) -> Result<ReplyTextAndAbout, AllocError>
    requires head { head.now ≡ answered_of answer.now.response.now answer.now.response_time }
    requires ttl { shown.ttl ≡ ttl_of_passed_answer shown.policy answer.now.exchange.now head.now.status
        head.now.fields answer.now.response_time shown.stored }
    ensures text { IfOk result (λ sent. sent.bytes ≡ passed_answer_text shown.policy name.now answer.now.exchange.now
        answer.now.response.now answer.now.response_time shown.stored shown.rule) }
    ensures about { IfOk result (λ sent. sent.about ≡ report_of_passed_answer shown.policy answer.now.exchange.now
        answer.now.response.now answer.now.response_time shown.stored shown.rule) }
{
    if client_has_the_answer(answer, head, shown.policy) {
        not_modified_answer_text(alloc, name, answer, head, shown)
    } else {
        text_of_answer_or_its_range(alloc, name, answer, head, shown)
    }
}

fn fields_of_refusal(alloc: Global, now: u64, text: &[u8]) -> Result<Fields, AllocError>
    requires { now < 253_402_300_800 }
    ensures { IfOk result (λ lines. lines ≡ fields_of_refusal (date_text_of now) text.now) }
{
    let mut lines = Fields::new(alloc);
    lines.push(b"Date", &date_text(now))?;
    lines.push(b"Content-Type", b"text/plain")?;
    lines.push(b"Refusal", text)?;
    Ok(lines)
}

/// The proxy's own answer to a cause at a moment, in Unix seconds below the year 10000. HEAD gets the head alone.
pub fn refused(
    alloc: Global,
    now: u64,
    cause: Cause,
    close: bool,
    head: bool,
) -> Result<ReplyTextAndAbout, AllocError>
    requires { now < 253_402_300_800 }
    ensures text { IfOk result (λ sent. sent.bytes ≡ refusal_reply_text (date_text_of now) cause close head) }
    ensures about { IfOk result (λ sent. sent.about ≡ report_of_refusal_reply cause head) }
{
    let (status, text) = refusal(alloc, cause)?;
    let lines = fields_of_refusal(alloc, now, text.as_slice())?;
    let content = content_unless_head(head, text.as_slice());
    let length = text.len() as u64;
    let bytes = write_response(alloc, status, &lines, Some(length), close, content)?;
    let about = StatusAndReason::refusal(cause, content.len() as u64);
    Ok(ReplyTextAndAbout { bytes, about })
}

fn fields_of_purge(alloc: Global, now: u64, count: usize) -> Result<Fields, AllocError>
    requires { now < 253_402_300_800 }
    ensures { IfOk result (λ lines. lines ≡ fields_of_purge (date_text_of now) count) }
{
    let mut lines = Fields::new(alloc);
    let mut digits = Buffer::new();
    lines.push(b"Date", &date_text(now))?;
    lines.push(b"Purged", digits.format(count).as_bytes())?;
    Ok(lines)
}

/// The answer to a purge at a moment, in Unix seconds below the year 10000: how many went (RFC 9110, section 15.3.5).
pub(crate) fn purged(
    alloc: Global,
    now: u64,
    count: usize,
    close: bool,
) -> Result<Bytes, AllocError>
    requires { now < 253_402_300_800 }
    ensures { IfOk result (λ text. text ≡ purge_reply_text (date_text_of now) count close) }
{
    let lines = fields_of_purge(alloc, now, count)?;
    let message = write_response(alloc, 204, &lines, None, close, &[])?;
    Ok(message)
}
