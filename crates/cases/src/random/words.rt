//! What is checked of answers over lines with words on caching, in the words' own terms (docs/LINE_OPTIONS.md).
//!
//! - The line of the host i ignores what requests want: no answer names such a wish. What is stored without a lifetime
//!   of its own has that of the line.
//! - The other lines store no answer with a cookie and without public, and none with an error but for those that any
//!   cache may keep; nothing of the kind comes from the store, but for what a 304 with a cookie freshens, which is sent
//!   once. An answer that isn't stored says why.
//! - Who waits for what is stale, and over which lines, `waiting.rt` says.

use super::fields::last_value;
use super::replies::{Source, seconds_left};
use bstr::ByteSlice;

/// The lifetime that the line of the host i gives, in seconds.
const GIVEN_LIFETIME: u64 = 30;

/// What an answer over such a line says.
pub enum Said {
    Nothing,
    /// It was stored, by a lifetime that the line gives.
    Given,
    /// Why it isn't stored.
    Explained,
    /// That it isn't stored for its cookie.
    Cookie,
    /// What it may not.
    Wrong(&'static str),
}

fn cache_status_member(head: &[u8]) -> &[u8] {
    last_value(head, b"Cache-Status").unwrap_or(b"")
}

/// Whether a wish of the request is named: no-cache, max-age or min-fresh.
fn names_a_request_directive(head: &[u8]) -> bool {
    let shown = cache_status_member(head);
    let refusal = last_value(head, b"Refusal").unwrap_or(b"");
    [
        b"fwd=request".as_slice(),
        b"fwd=stale;detail=no-cache".as_slice(),
        b"detail=max-age".as_slice(),
        b"detail=min-fresh".as_slice(),
        b"stale-if-error=request-no-cache".as_slice(),
    ]
    .iter()
    .any(|word| shown.contains_str(word) || refusal.contains_str(word))
}

fn states_a_lifetime(head: &[u8]) -> bool {
    let control = last_value(head, b"Cache-Control").unwrap_or(b"");
    control.contains_str(b"max-age")
        || control.contains_str(b"s-maxage")
        || last_value(head, b"Expires").is_some()
}

fn word_of_first_line(head: &[u8], source: Source) -> Said {
    if names_a_request_directive(head) {
        return Said::Wrong("an answer names a wish that its line ignores");
    }
    if cache_status_member(head).contains_str(b"not-stored-") {
        return Said::Wrong("an answer says why it isn't stored, and its line doesn't");
    }
    match source {
        Source::Stored if !states_a_lifetime(head) => match seconds_left(head) {
            Some(left) if left <= GIVEN_LIFETIME => Said::Given,
            _ => Said::Wrong("an answer lasts longer than its line gives"),
        },
        _ => Said::Nothing,
    }
}

/// Whether an answer has a cookie that isn't for all.
fn has_cookie_for_one(head: &[u8]) -> bool {
    let is_public = match last_value(head, b"Cache-Control") {
        Some(control) => control.contains_str(b"public"),
        None => false,
    };
    last_value(head, b"Set-Cookie").is_some() && !is_public
}

/// Whether its status is an error that no cache keeps unasked: of those here 500 and 503.
fn is_error(head: &[u8]) -> bool {
    head.starts_with(b"HTTP/1.1 500 ") || head.starts_with(b"HTTP/1.1 503 ")
}

fn word_of_other_line(head: &[u8], source: Source) -> Said {
    let is_kept_out = has_cookie_for_one(head) || is_error(head);
    match source {
        Source::Stored | Source::Hit | Source::Store | Source::Collapsed if is_kept_out => {
            Said::Wrong("an answer is of the store that its line keeps out")
        }
        Source::Origin
            if cache_status_member(head).contains_str(b";detail=not-stored-set-cookie") => {
            Said::Cookie
        }
        Source::Origin if cache_status_member(head).contains_str(b";detail=not-stored-") =>
            Said::Explained,
        Source::Origin if !cache_status_member(head).contains_str(b";detail=") => {
            Said::Wrong("an answer doesn't say why it isn't stored")
        }
        _ => Said::Nothing,
    }
}

/// What an answer to a request for this host says.
pub fn word_of_answer(head: &[u8], source: Source, host: &str) -> Said {
    if host == "i" {
        word_of_first_line(head, source)
    } else {
        word_of_other_line(head, source)
    }
}
