//! The bytes of a stored response that is sent.
ghost use Rattle.std.specs.Prelude.{◌≡◌, ◌≤◌, ◌<◌, ◌+◌, [], IfOk, Some, length, slice_range};
ghost use Rattle.hx_validate.specs.Ranges.{fields_of_206, response_as_range_answer, response_as_range_or_whole};
ghost use Rattle.hx_validate.specs.declared.ranges.RangeAnswer.TheVariants.{Part, Unsatisfiable};
ghost use Rattle.hx_age.specs.Age.{age_of};
ghost use Rattle.hx_framing.specs.Text.{response_text};
ghost use Rattle.proxy_core.specs.Abouts.{report_of_stored_response_sent, report_of_stored_reply};
ghost use Rattle.proxy_core.specs.Outcomes.{sent_after_forward_status_info, collapsed_status_info};
ghost use Rattle.proxy_core.specs.Replies.{cache_status_of_sent, stored_reply_text, whole_stored_text};
ghost use Rattle.proxy_core.specs.Replies.{not_modified_text};
ghost use Rattle.proxy_core.specs.Replies.{content_unless_head, fields_of_sent_response, fields_with_age_and_status};
ghost use Rattle.proxy_core.specs.Replies.{fwd_status_of, is_head, text_of_stored_sent_as};
ghost use Rattle.proxy_core.specs.Validating.{without_set_cookie_if};

use crate::open::exchange::Exchange;
use crate::replies::reply_text::{content_unless_head, is_head, length_unless_forbidden};
use hx_age::{current_age, ttl};
use hx_fields::{Bytes, Fields};
use hx_framing::{AddedLine, LinesAfterStatusLine, write_response_with_added_lines};
use hx_hop::Asked;
use hx_policy::Policy;
use hx_reuse::lifetime_of_stored_response;
use hx_status::{Detail, How, Status, StatusAndReason, Told, member};
use hx_store::Entry;
use hx_validate::{
    RangeAnswer, client_wants_304, fields_of_206_part, head_leaves_room, not_modified_fields,
    range_answer, unsatisfiable_range_fields,
};
use itoa::Buffer;
use std::alloc::{AllocError, Global};

/// The status of a part of a response (RFC 9110, section 15.3.7).
pub(crate) const STATUS_PARTIAL_CONTENT: u16 = 206;

/// The status where no byte of a range is there (RFC 9110, section 15.5.17).
pub(crate) const STATUS_RANGE_NOT_SATISFIABLE: u16 = 416;

/// What Cache-Status tells of a stored response that is sent, beside the response itself (RFC 9211, section 2).
#[derive(Clone, Copy)]
pub(crate) struct StoredCacheStatusInfo {
    /// That of the line by which its request is allowed.
    pub(crate) policy: Policy,
    pub(crate) how: How,
    /// The status of the origin's answer, where one came in this step.
    pub(crate) came: Option<u16>,
    pub(crate) detail: Option<Detail>,
    /// Whether its request waited for the answer to another.
    pub(crate) collapsed: bool,
    /// The line whose origin was asked in this step, or before it for this request.
    pub(crate) origin_line: Option<u16>,
}

impl StoredCacheStatusInfo {
    /// It is sent after its request went forward.
    pub(crate) fn forwarded(
        policy: Policy,
        exchange: &Exchange,
        came: Option<u16>,
        detail: Option<Detail>,
    ) -> Self
        ensures { result ≡ sent_after_forward_status_info policy exchange.now came detail }
    {
        StoredCacheStatusInfo {
            policy,
            how: How::Fwd(exchange.rule),
            came,
            detail,
            collapsed: false,
            origin_line: Some(exchange.line.number),
        }
    }

    /// It is sent after its request waited for the answer to another (RFC 9211, section 2.6).
    pub(crate) fn collapsed(policy: Policy, exchange: &Exchange) -> Self
        ensures { result ≡ collapsed_status_info policy exchange.now }
    {
        StoredCacheStatusInfo {
            policy,
            how: How::Fwd(exchange.rule),
            came: None,
            detail: None,
            collapsed: true,
            origin_line: None,
        }
    }
}

/// The bytes of a reply, and what it is.
#[derive(Drop)]
pub struct ReplyTextAndAbout {
    /// The whole message.
    pub bytes: Bytes,
    pub about: StatusAndReason,
}

/// A stored response that is sent to a request.
#[derive(Clone, Copy)]
pub(crate) struct StoredReply<'a> {
    /// The proxy's name.
    pub(crate) name: &'a str,
    pub(crate) entry: &'a Entry,
    pub(crate) asked: &'a Asked,
    pub(crate) info: StoredCacheStatusInfo,
    /// When it is sent, in Unix seconds.
    pub(crate) sent_at: u64,
}

/// The lines of a stored response, with the one that tells which part is sent.
fn fields_of_206(
    alloc: Global,
    entry: &Entry,
    first: usize,
    last: usize,
) -> Result<Fields, AllocError>
    ensures { IfOk result (λ lines. lines ≡ fields_of_206 entry.now.fields first last (length entry.now.content)) }
{
    let total = entry.content.len();
    fields_of_206_part(alloc, &entry.fields, first, last, total)
}

impl StoredReply<'_> {
    /// Its bytes: the whole response, the part of it that is asked for, or a 304 to a client that has it already.
    pub(crate) fn text(&self, alloc: Global) -> Result<ReplyTextAndAbout, AllocError>
        ensures text { IfOk result (λ sent. sent.bytes
            ≡ stored_reply_text self.now.name.now self.now.entry.now self.now.sent_at self.now.info
            self.now.asked.now) }
        ensures about { IfOk result (λ sent. sent.about
            ≡ report_of_stored_reply self.now.entry.now self.now.sent_at self.now.info self.now.asked.now) }
    {
        if client_wants_304(self.asked, self.entry) {
            self.not_modified_text(alloc)
        } else if self.info.policy.forwards_ranges {
            self.whole_text(alloc)
        } else {
            self.text_in_range(alloc)
        }
    }

    /// What the request asks for of it, for a range or not.
    fn text_in_range(&self, alloc: Global) -> Result<ReplyTextAndAbout, AllocError>
        ensures text { IfOk result (λ sent. sent.bytes ≡ text_of_stored_sent_as self.now.name.now
            (response_as_range_or_whole self.now.asked.now self.now.entry.now) self.now.entry.now self.now.sent_at
            self.now.info
            self.now.asked.now) }
        ensures about { IfOk result (λ sent. sent.about
            ≡ report_of_stored_response_sent (response_as_range_or_whole self.now.asked.now self.now.entry.now).status
            (content_unless_head (is_head self.now.asked.now)
            (response_as_range_or_whole self.now.asked.now self.now.entry.now).content)
            self.now.entry.now self.now.sent_at self.now.info) }
    {
        match range_answer(self.asked, self.entry) {
            RangeAnswer::Whole => self.whole_text(alloc),
            RangeAnswer::Part(first, last) => self.part_text(alloc, first, last),
            RangeAnswer::Unsatisfiable => self.unsatisfied_text(alloc),
        }
    }

    /// Its bytes from the first to the last, where its head has room for the line that tells them.
    fn part_text(
        &self,
        alloc: Global,
        first: usize,
        last: usize,
    ) -> Result<ReplyTextAndAbout, AllocError>
        requires order { first ≤ last }
        requires within { last < length self.now.entry.now.content }
        ensures text { IfOk result (λ sent. sent.bytes ≡ text_of_stored_sent_as self.now.name.now
            (response_as_range_answer (Part first last) self.now.entry.now) self.now.entry.now self.now.sent_at
            self.now.info
            self.now.asked.now) }
        ensures about { IfOk result (λ sent. sent.about
            ≡ report_of_stored_response_sent (response_as_range_answer (Part first last) self.now.entry.now).status
            (content_unless_head (is_head self.now.asked.now)
            (response_as_range_answer (Part first last) self.now.entry.now).content)
            self.now.entry.now self.now.sent_at self.now.info) }
    {
        let fields = fields_of_206(alloc, self.entry, first, last)?;
        if head_leaves_room(&fields) {
            self.text_of_part(alloc, fields, first, last)
        } else {
            self.whole_text(alloc)
        }
    }

    /// A 206 of these lines, with its bytes from the first to the last.
    fn text_of_part(
        &self,
        alloc: Global,
        fields: Fields,
        first: usize,
        last: usize,
    ) -> Result<ReplyTextAndAbout, AllocError>
        requires order { first ≤ last }
        requires within { last < length self.now.entry.now.content }
        ensures text { IfOk result (λ sent. sent.bytes ≡ response_text 206
            (fields_of_sent_response self.now.name.now 206
            (without_set_cookie_if self.now.info.policy.removes_set_cookie fields)
            self.now.entry.now self.now.sent_at self.now.info)
            (Some (length (slice_range self.now.entry.now.content first (last + 1)))) self.now.asked.now.close
            (content_unless_head (is_head self.now.asked.now)
            (slice_range self.now.entry.now.content first (last + 1)))) }
        ensures about { IfOk result (λ sent. sent.about
            ≡ report_of_stored_response_sent 206 (content_unless_head (is_head self.now.asked.now)
            (slice_range self.now.entry.now.content first (last + 1)))
            self.now.entry.now self.now.sent_at self.now.info) }
    {
        let entry = self.entry;
        let content = &entry.content.as_slice()[first..last + 1];
        self.written_in_form(alloc, STATUS_PARTIAL_CONTENT, fields, content)
    }

    /// That none of the bytes which are asked for is there, where its head has room for the line that tells it.
    fn unsatisfied_text(&self, alloc: Global) -> Result<ReplyTextAndAbout, AllocError>
        ensures text { IfOk result (λ sent. sent.bytes ≡ text_of_stored_sent_as self.now.name.now
            (response_as_range_answer Unsatisfiable self.now.entry.now) self.now.entry.now self.now.sent_at
            self.now.info
            self.now.asked.now) }
        ensures about { IfOk result (λ sent. sent.about
            ≡ report_of_stored_response_sent (response_as_range_answer Unsatisfiable self.now.entry.now).status
            (content_unless_head (is_head self.now.asked.now)
            (response_as_range_answer Unsatisfiable self.now.entry.now).content)
            self.now.entry.now self.now.sent_at self.now.info) }
    {
        let fields = unsatisfiable_range_fields(alloc, self.entry)?;
        if head_leaves_room(&fields) {
            self.text_of_416(alloc, fields)
        } else {
            self.whole_text(alloc)
        }
    }

    /// A 416 of these lines, which has no content.
    fn text_of_416(&self, alloc: Global, fields: Fields) -> Result<ReplyTextAndAbout, AllocError>
        ensures text { IfOk result (λ sent. sent.bytes ≡ response_text 416
            (fields_of_sent_response self.now.name.now 416
            (without_set_cookie_if self.now.info.policy.removes_set_cookie fields)
            self.now.entry.now self.now.sent_at self.now.info) (Some 0) self.now.asked.now.close
            (content_unless_head (is_head self.now.asked.now) [])) }
        ensures about { IfOk result (λ sent. sent.about
            ≡ report_of_stored_response_sent 416 (content_unless_head (is_head self.now.asked.now) [])
            self.now.entry.now self.now.sent_at self.now.info) }
    {
        self.written_in_form(alloc, STATUS_RANGE_NOT_SATISFIABLE, fields, &[])
    }

    /// A response of these lines under a status, with this content, of which HEAD is sent the length alone.
    fn written_in_form(
        &self,
        alloc: Global,
        status: u16,
        fields: Fields,
        content: &[u8],
    ) -> Result<ReplyTextAndAbout, AllocError>
        ensures text { IfOk result (λ sent. sent.bytes ≡ response_text status
            (fields_of_sent_response self.now.name.now status
            (without_set_cookie_if self.now.info.policy.removes_set_cookie fields)
            self.now.entry.now self.now.sent_at self.now.info) (Some (length content.now)) self.now.asked.now.close
            (content_unless_head (is_head self.now.asked.now) content.now)) }
        ensures about { IfOk result (λ sent. sent.about
            ≡ report_of_stored_response_sent status (content_unless_head (is_head self.now.asked.now) content.now)
            self.now.entry.now self.now.sent_at self.now.info) }
    {
        let length = Some(content.len() as u64);
        let content = content_unless_head(is_head(self.asked), content);
        let mut fields = fields;
        self.remove_cookies(&mut fields);
        self.written(alloc, status, &fields, length, content)
    }

    /// Takes out the lines of Set-Cookie, over a line that removes them.
    fn remove_cookies(&self, fields: &mut Fields)
        ensures { fields.new ≡ without_set_cookie_if self.now.info.policy.removes_set_cookie fields.old }
    {
        if self.info.policy.removes_set_cookie {
            fields.remove_named(b"Set-Cookie");
        }
    }

    #[tactic(auto, using(crate::proofs::Cookies::none_removed))]
    fn whole_text(&self, alloc: Global) -> Result<ReplyTextAndAbout, AllocError>
        ensures text { IfOk result (λ sent. sent.bytes ≡ whole_stored_text self.now.name.now self.now.entry.now
            self.now.sent_at self.now.info self.now.asked.now) }
        ensures about { IfOk result (λ sent. sent.about
            ≡ report_of_stored_response_sent self.now.entry.now.status
            (content_unless_head (is_head self.now.asked.now) self.now.entry.now.content)
            self.now.entry.now self.now.sent_at self.now.info) }
    {
        let entry = self.entry;
        let length = length_unless_forbidden(entry.status, Some(entry.content.len() as u64));
        let content = content_unless_head(is_head(self.asked), entry.content.as_slice());
        if self.info.policy.removes_set_cookie && entry.fields.has(b"Set-Cookie") {
            let mut fields = entry.fields.copy(alloc)?;
            fields.remove_named(b"Set-Cookie");
            return self.written(alloc, entry.status, &fields, length, content);
        }
        self.written(alloc, entry.status, &entry.fields, length, content)
    }

    fn not_modified_text(&self, alloc: Global) -> Result<ReplyTextAndAbout, AllocError>
        ensures text { IfOk result (λ sent. sent.bytes ≡ not_modified_text self.now.name.now self.now.entry.now
            self.now.sent_at self.now.info self.now.asked.now) }
        ensures about { IfOk result (λ sent. sent.about
            ≡ report_of_stored_response_sent 304 [] self.now.entry.now self.now.sent_at self.now.info) }
    {
        let fields = not_modified_fields(alloc, self.entry)?;
        self.written_with(alloc, 304, &fields, None, &[])
    }

    /// What Cache-Status tells under a status, of a response of this age in seconds.
    fn shown(&self, status: u16, age: u32) -> Status
        requires { age ≡ age_of self.now.entry.now.times self.now.sent_at }
        ensures { result ≡ cache_status_of_sent status self.now.entry.now self.now.sent_at self.now.info }
    {
        let entry = self.entry;
        let policy = self.info.policy;
        let lifetime = lifetime_of_stored_response(policy, entry);
        Status {
            how: self.info.how,
            fwd_status: fwd_status_of(self.info.came, status),
            ttl: Some(ttl(lifetime, age)),
            stored: false,
            collapsed: self.info.collapsed,
            detail: self.info.detail,
            not_stored: None,
        }
    }

    /// A response of these lines of its own under a status, without tags where those are hidden: then come Age and
    /// Cache-Status.
    #[tactic(auto, using(crate::proofs::Cookies::none_hidden))]
    fn written(
        &self,
        alloc: Global,
        status: u16,
        fields: &Fields,
        length: Option<u64>,
        content: &[u8],
    ) -> Result<ReplyTextAndAbout, AllocError>
        ensures text { IfOk result (λ sent. sent.bytes ≡ response_text status
            (fields_of_sent_response self.now.name.now status fields.now
            self.now.entry.now self.now.sent_at self.now.info) length self.now.asked.now.close content.now) }
        ensures about { IfOk result (λ sent. sent.about
            ≡ report_of_stored_response_sent status content.now self.now.entry.now self.now.sent_at self.now.info) }
    {
        if self.info.policy.hides_tags && fields.has(b"Cache-Tag") {
            let mut others = fields.copy(alloc)?;
            others.remove_named(b"Cache-Tag");
            return self.written_with(alloc, status, &others, length, content);
        }
        self.written_with(alloc, status, fields, length, content)
    }

    /// A response of these lines under a status: then come Age and Cache-Status.
    #[tactic(auto, using(crate::proofs::AddedLines::lines_added))]
    fn written_with(
        &self,
        alloc: Global,
        status: u16,
        fields: &Fields,
        length: Option<u64>,
        content: &[u8],
    ) -> Result<ReplyTextAndAbout, AllocError>
        ensures text { IfOk result (λ sent. sent.bytes ≡ response_text status
            (fields_with_age_and_status self.now.name.now status fields.now
            self.now.entry.now self.now.sent_at self.now.info) length self.now.asked.now.close content.now) }
        ensures about { IfOk result (λ sent. sent.about
            ≡ report_of_stored_response_sent status content.now self.now.entry.now self.now.sent_at self.now.info) }
    {
        let entry = self.entry;
        let age = current_age(&entry.times, self.sent_at);
        let shown = self.shown(status, age);
        let member = member(alloc, self.name, &shown)?;
        let mut digits = Buffer::new();
        let added = [
            AddedLine {
                name: b"Age",
                value: digits.format(age).as_bytes(),
            },
            AddedLine {
                name: b"Cache-Status",
                value: member.as_slice(),
            },
        ];
        let lines = LinesAfterStatusLine {
            fields,
            added: &added,
            length,
            close: self.asked.close,
        };
        let bytes = write_response_with_added_lines(alloc, status, &lines, content)?;
        let about = StatusAndReason {
            status,
            told: Told::Handled(shown),
            content_length: content.len() as u64,
            origin_line: self.info.origin_line,
        };
        Ok(ReplyTextAndAbout { bytes, about })
    }
}

/// The status of the origin's answer, where another one is sent (RFC 9211, section 2.3).
fn fwd_status_of(came: Option<u16>, sent: u16) -> Option<u16>
    ensures { result ≡ fwd_status_of came sent }
{
    match came {
        Some(status) if status != sent => Some(status),
        _ => None,
    }
}
