//! What a reply says of itself.

use super::fields::{head_and_content, last_value};
use super::requests::Asked;
use super::wrong::Wrong;
use crate::text::number_of;
use bstr::ByteSlice;
use std::alloc::{AllocError, Global};

/// Whether the head of an answer has a status from 200 to 399.
pub fn has_status_without_error(head: &[u8]) -> bool {
    head.starts_with(b"HTTP/1.1 2") || head.starts_with(b"HTTP/1.1 3")
}

/// For how many seconds an answer is fresh, by its member of Cache-Status; 0 where it is stale.
pub fn seconds_left(head: &[u8]) -> Option<u64> {
    let (_, shown) = last_value(head, b"Cache-Status")?.split_once_str(b";ttl=")?;
    let seconds = match shown.split_once_str(b";") {
        Some((seconds, _)) => seconds,
        None => shown,
    };
    Some(number_of(seconds).unwrap_or(0))
}

/// Whether a content has the length that its head states; to a HEAD there is none.
fn content_fits_length(head: &[u8], content: &[u8]) -> bool {
    match last_value(head, b"Content-Length") {
        Some(length) => content.is_empty() || number_of(length) == Some(content.len() as u64),
        None => content.is_empty(),
    }
}

/// Whether the first line of a head has a status of three digits and no reason.
fn has_status_line(head: &[u8]) -> bool {
    let line = match head.split_once_str(b"\r\n") {
        Some((line, _)) => line,
        None => head,
    };
    match line.strip_prefix(b"HTTP/1.1 ") {
        Some([a, b, c, b' ']) => a.is_ascii_digit() && b.is_ascii_digit() && c.is_ascii_digit(),
        _ => false,
    }
}

/// Where a reply comes from.
#[derive(Clone, Copy)]
pub enum Source {
    /// The proxy itself.
    Own,
    /// An origin, whose answer was stored or not.
    Stored,
    Origin,
    /// The store: unasked, on the word of an origin, or in the place of an answer.
    Hit,
    Validated,
    Store,
    /// The same, where the request waited for another's answer.
    Collapsed,
}

/// Whether it is a stored response to a request that waited, behind which only the detail of its rule stands.
fn is_collapsed(member: &[u8]) -> bool {
    match member.split_once_str(b";collapsed") {
        Some((front, b"")) => {
            front.starts_with(b"fwd=uri-miss;ttl=") || front.starts_with(b"fwd=stale;ttl=")
        }
        Some((front, behind)) => {
            front.starts_with(b"fwd=stale;ttl=") && behind.starts_with(b";detail=")
        }
        None => false,
    }
}

/// Where the member of Cache-Status says that an answer comes from.
fn source_by(member: &[u8]) -> Source {
    if member.starts_with(b"hit") {
        return Source::Hit;
    }
    if is_collapsed(member) {
        return Source::Collapsed;
    }
    if member.contains_str(b";stored") {
        return Source::Stored;
    }
    if !member.contains_str(b";ttl=") {
        return Source::Origin;
    }
    let is_instead = member.contains_str(b";detail=stale-if-error")
        || member.contains_str(b";detail=reuse-after-");
    if member.contains_str(b";fwd-status=304") && !is_instead {
        Source::Validated
    } else {
        Source::Store
    }
}

/// Where a reply says that it comes from.
fn source_of(head: &[u8]) -> Option<Source> {
    if last_value(head, b"Refusal").is_some() {
        return Some(Source::Own);
    }
    let status = last_value(head, b"Cache-Status")?;
    Some(source_by(status.strip_prefix(b"edge;")?))
}

/// Why a request went forward.
#[derive(Clone, Copy, PartialEq, Eq)]
pub enum Reason {
    /// Nothing was held for its target.
    Missing,
    /// What was held for it was stale, and nothing but its age kept it back.
    Expired,
    /// What was held for it was kept back for more than its age, or perhaps for that alone.
    Held,
    /// What was held, if anything, had no part in it.
    Other,
}

impl Reason {
    /// Whether it went forward for a response that was held.
    pub fn is_of_held(self) -> bool {
        matches!(self, Reason::Expired | Reason::Held)
    }
}

/// What is told of a stored response that has expired.
const STALE_DETAILS: [&[u8]; 4] = [b"must-revalidate", b"max-stale", b"max-age", b"min-fresh"];

/// The reason of what was stale, by its detail. A rule without one leaves room for why an answer isn't stored; a later
/// word may have taken the place of any.
fn reason_by_detail(detail: &[u8]) -> Reason {
    let has_expired = detail.starts_with(b"not-stored-") || STALE_DETAILS.contains(&detail);
    if has_expired {
        Reason::Expired
    } else {
        Reason::Held
    }
}

/// Why an answer tells that its request went forward.
pub fn reason_shown(head: &[u8]) -> Option<Reason> {
    let member = last_value(head, b"Cache-Status")?.strip_prefix(b"edge;fwd=")?;
    if member.starts_with(b"uri-miss") {
        return Some(Reason::Missing);
    }
    if member.starts_with(b"request") {
        return Some(Reason::Held);
    }
    let Some(shown) = member.strip_prefix(b"stale") else {
        return Some(Reason::Other);
    };
    match shown.split_once_str(b";detail=") {
        Some((_, detail)) => Some(reason_by_detail(detail)),
        None => Some(Reason::Expired),
    }
}

/// Whether the Vary of an answer, where one is there, names the language. Beside it no Vary here names what requests
/// have.
pub fn names_the_language(head: &[u8]) -> bool {
    matches!(
        last_value(head, b"Vary"),
        Some(b"Accept-Language" | b"accept-language, X-None")
    )
}

/// Whether a stored answer has a lifetime above 0, where its head tells it.
pub fn has_lifetime(head: &[u8]) -> Option<bool> {
    let control = last_value(head, b"Cache-Control").unwrap_or(b"");
    let is_fresh = seconds_left(head).unwrap_or(0) > 0;
    if is_fresh || control.contains_str(b"s-maxage=30") {
        return Some(true);
    }
    if control.contains_str(b"max-age=0") || control.contains_str(b"max-age=x") {
        return Some(false);
    }
    if control.contains_str(b"max-age=") {
        Some(true)
    } else {
        None
    }
}

/// Whether an answer that comes from the store is one that a 304 freshened.
pub fn is_freshened(head: &[u8], source: Source) -> bool {
    match source {
        Source::Validated => true,
        Source::Store => {
            let member = last_value(head, b"Cache-Status").unwrap_or(b"");
            head.starts_with(b"HTTP/1.1 304 ")
                && !member.contains_str(b";detail=stale-if-error")
                && !member.contains_str(b";detail=reuse-after-")
        }
        _ => false,
    }
}

/// Whether the origin gave no answer that can be passed on.
pub fn is_bad_answer(head: &[u8]) -> bool {
    match last_value(head, b"Refusal") {
        Some(refusal) => refusal.starts_with(b"origin bad-answer"),
        None => false,
    }
}

/// Whether a head has the target of this request in its field X-Target.
pub fn has_target(alloc: Global, head: &[u8], asked: &Asked) -> Result<bool, AllocError> {
    Ok(last_value(head, b"X-Target") == Some(asked.target(alloc)?.as_bytes()))
}

/// The head of a reply, which is to be a whole message, and where it says that it comes from.
pub fn read_reply(number: u64, bytes: &[u8]) -> Result<(&[u8], Source), Wrong> {
    let Some((head, content)) = head_and_content(bytes) else {
        return Err(Wrong::Rule("a reply is no message", number));
    };
    if !has_status_line(head) {
        return Err(Wrong::Rule("a reply has no status line", number));
    }
    if !content_fits_length(head, content) {
        return Err(Wrong::Rule("a reply has another length than it says", number));
    }
    match source_of(head) {
        Some(source) => Ok((head, source)),
        None => Err(Wrong::Rule("a reply doesn't say whence it is", number)),
    }
}
