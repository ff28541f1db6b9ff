//! A line of the log, and its text.
ghost use Rattle.std.specs.Prelude.{◌≡◌, ◌+◌, ◌<◌, ◌≤◌, ◌++◌, codes, decimal, false, if◌then◌else◌, length, take};
ghost use Rattle.std.specs.Prelude.{OnErr, OnOk, IsTrue, true, vec_capacity};
ghost use Rattle.std.specs.List.{list_all};
ghost use Rattle.hx_status.specs.Abouts.{reply_reason_text};
ghost use Rattle.proxy_log.specs.Asked.{port_suffix, target_text, uri_text};
ghost use Rattle.proxy_log.specs.Line.{is_logged_unescaped, hex_digit, logged_byte, logged_text, logged_word};
ghost use Rattle.proxy_log.specs.Line.{words_of_log_line, log_line_text, status_word};
ghost use Rattle.proxy_log.specs.Line.{log_line_front, log_line_answer, log_line_end, logged_uri};
ghost use Rattle.proxy_log.specs.Line.{logged_reason_text, unanswered_reason};
ghost use Rattle.proxy_log.specs.Seconds.{seconds_text};

use crate::logged_request::{LoggedRequest, LoggedTarget};
use crate::seconds::push_seconds;
use hx_status::{Told, push_reply_reason_text};
use hx_target::Key;
use itoa::Buffer;
use std::alloc::AllocError;

/// Why a request had its reply.
#[derive(Clone, Copy)]
pub enum LoggedReason<'a> {
    /// What the reply tells of itself.
    OfReply(&'a Told),
    /// For this cause there was none.
    OfUnanswered(&'a [u8]),
}

/// What a line says of a reply. It owns none of it: a line is written where it is known.
#[derive(Clone, Copy)]
pub struct Line<'a> {
    /// When it was written, in milliseconds since 1970.
    pub moment: u64,
    /// The client's address and port.
    pub client: &'a [u8],
    /// What the reply answers.
    pub asked: LoggedRequest<'a>,
    /// 0 where none was sent, and the line has `000`.
    pub status: u16,
    /// The bytes of content that were sent.
    pub length: u64,
    pub reason: LoggedReason<'a>,
    /// From the request's first byte to the reply, or until its client had gone, in milliseconds.
    pub took: u64,
    /// The address of the origin that was asked; empty where none was.
    pub origin: &'a [u8],
}

// 0 at each byte that stands for itself in any word, and 1 at each other.
#[rattlefmt::skip]
static ESCAPED_BYTES: [u8; 256] = [
    1, 1, 1, 1, 1, 1, 1, 1, 1, 1, 1, 1, 1, 1, 1, 1,
    1, 1, 1, 1, 1, 1, 1, 1, 1, 1, 1, 1, 1, 1, 1, 1,
    1, 0, 0, 0, 0, 0, 0, 0, 0, 0, 0, 0, 0, 0, 0, 0,
    0, 0, 0, 0, 0, 0, 0, 0, 0, 0, 0, 0, 0, 0, 0, 0,
    0, 0, 0, 0, 0, 0, 0, 0, 0, 0, 0, 0, 0, 0, 0, 0,
    0, 0, 0, 0, 0, 0, 0, 0, 0, 0, 0, 0, 1, 0, 0, 0,
    0, 0, 0, 0, 0, 0, 0, 0, 0, 0, 0, 0, 0, 0, 0, 0,
    0, 0, 0, 0, 0, 0, 0, 0, 0, 0, 0, 0, 0, 0, 0, 1,
    1, 1, 1, 1, 1, 1, 1, 1, 1, 1, 1, 1, 1, 1, 1, 1,
    1, 1, 1, 1, 1, 1, 1, 1, 1, 1, 1, 1, 1, 1, 1, 1,
    1, 1, 1, 1, 1, 1, 1, 1, 1, 1, 1, 1, 1, 1, 1, 1,
    1, 1, 1, 1, 1, 1, 1, 1, 1, 1, 1, 1, 1, 1, 1, 1,
    1, 1, 1, 1, 1, 1, 1, 1, 1, 1, 1, 1, 1, 1, 1, 1,
    1, 1, 1, 1, 1, 1, 1, 1, 1, 1, 1, 1, 1, 1, 1, 1,
    1, 1, 1, 1, 1, 1, 1, 1, 1, 1, 1, 1, 1, 1, 1, 1,
    1, 1, 1, 1, 1, 1, 1, 1, 1, 1, 1, 1, 1, 1, 1, 1,
];

/// 0 for a byte that stands for itself in any word, and 1 for each other.
fn one_if_escaped(b: u8) -> u8
    ensures { result ≡ (if is_logged_unescaped false b then 0 else 1) }
{
    ESCAPED_BYTES[usize::from(b)]
}

/// Whether a byte stands for itself in a line.
fn is_logged_unescaped(blanks: bool, b: u8) -> bool
    ensures { result ≡ is_logged_unescaped blanks b }
{
    (b >= 0x21 && b <= 0x7E && b != b'\\') || (blanks && b == b' ')
}

/// A digit of a number to the base 16.
fn hex_digit(d: u8) -> u8
    requires { d < 16 }
    ensures { result ≡ hex_digit d }
{
    if d < 10 { 48 + d } else { 55 + d }
}

fn push_byte(text: &mut Vec<u8>, blanks: bool, b: u8) -> Result<(), AllocError>
    ensures ok { OnOk result (text.new.items ≡ text.old.items ++ logged_byte blanks b) }
    ensures full { OnErr result (vec_capacity text.old < length text.old.items + length (logged_byte blanks b)) }
    ensures capacity { vec_capacity text.old ≤ vec_capacity text.new }
    ensures front { take (length text.old.items) text.new.items ≡ text.old.items }
{
    if is_logged_unescaped(blanks, b) {
        return text.extend_from_slice(&[b]);
    }
    text.extend_from_slice(&[b'\\', b'x', hex_digit(b / 16), hex_digit(b % 16)])
}

/// Whether each of these bytes stands for itself in any word.
fn are_plain(bytes: &[u8]) -> bool
    ensures { result ≡ list_all (is_logged_unescaped false) bytes.now }
{
    // No byte ends the look at the others: so it takes fewer steps for each.
    let mut escaped = 0usize;
    for b in bytes {
        escaped += usize::from(one_if_escaped(*b));
    }
    escaped == 0
}

/// Whether these bytes stand in a line as they are. Blanks are for whoever looks at each byte.
fn are_shown(blanks: bool, bytes: &[u8]) -> bool
    ensures { IsTrue result → logged_text blanks bytes.now ≡ bytes.now }
{
    are_plain(bytes)
}

/// Adds bytes one by one, each as it stands in a line.
#[cold]
#[inline(never)]
fn push_escaped(text: &mut Vec<u8>, blanks: bool, bytes: &[u8]) -> Result<(), AllocError>
    ensures ok { OnOk result (text.new.items ≡ text.old.items ++ logged_text blanks bytes.now) }
    ensures full { OnErr result (vec_capacity text.old < length text.old.items + length
        (logged_text blanks bytes.now)) }
    ensures capacity { vec_capacity text.old ≤ vec_capacity text.new }
    ensures front { take (length text.old.items) text.new.items ≡ text.old.items }
{
    for b in bytes {
        push_byte(text, blanks, *b)?;
    }
    Ok(())
}

#[inline]
fn push_shown(text: &mut Vec<u8>, blanks: bool, bytes: &[u8]) -> Result<(), AllocError>
    ensures ok { OnOk result (text.new.items ≡ text.old.items ++ logged_text blanks bytes.now) }
    ensures full { OnErr result (vec_capacity text.old < length text.old.items + length
        (logged_text blanks bytes.now)) }
    ensures capacity { vec_capacity text.old ≤ vec_capacity text.new }
    ensures front { take (length text.old.items) text.new.items ≡ text.old.items }
{
    // Nearly all words are such ones, and are copied at once.
    if are_shown(blanks, bytes) {
        return text.extend_from_slice(bytes);
    }
    push_escaped(text, blanks, bytes)
}

/// The blank behind a word.
#[inline]
fn push_blank(text: &mut Vec<u8>) -> Result<(), AllocError>
    ensures ok { OnOk result (text.new.items ≡ text.old.items ++ codes " ") }
    ensures full { OnErr result (vec_capacity text.old < length text.old.items + length (codes " ")) }
    ensures capacity { vec_capacity text.old ≤ vec_capacity text.new }
    ensures front { take (length text.old.items) text.new.items ≡ text.old.items }
{
    text.push(b' ')?;
    Ok(())
}

fn push_word(text: &mut Vec<u8>, bytes: &[u8]) -> Result<(), AllocError>
    ensures ok { OnOk result (text.new.items ≡ text.old.items ++ (logged_word bytes.now ++ codes " ")) }
    ensures full { OnErr result (vec_capacity text.old < length text.old.items + length
        (logged_word bytes.now ++ codes " ")) }
    ensures capacity { vec_capacity text.old ≤ vec_capacity text.new }
    ensures front { take (length text.old.items) text.new.items ≡ text.old.items }
{
    if bytes.is_empty() {
        return text.extend_from_slice(b"- ");
    }
    push_shown(text, false, bytes)?;
    push_blank(text)
}

/// Each byte of a port stands for itself.
fn port_is_shown(port: u16)
    ensures { logged_text false (port_suffix port) ≡ port_suffix port }
{}

/// A port other than the default, behind a colon.
fn push_port(text: &mut Vec<u8>, port: u16) -> Result<(), AllocError>
    ensures ok { OnOk result (text.new.items ≡ text.old.items ++ port_suffix port) }
    ensures full { OnErr result (vec_capacity text.old < length text.old.items + length (port_suffix port)) }
    ensures capacity { vec_capacity text.old ≤ vec_capacity text.new }
    ensures front { take (length text.old.items) text.new.items ≡ text.old.items }
{
    if port == 80 {
        return Ok(());
    }
    let mut digits = Buffer::new();
    text.extend_from_slice(b":")?;
    text.extend_from_slice(digits.format(port).as_bytes())
}

/// The scheme of a target URI, and its host.
fn push_scheme_and_host(text: &mut Vec<u8>, host: &[u8]) -> Result<(), AllocError>
    ensures ok { OnOk result (text.new.items ≡ text.old.items ++ (codes "http://" ++ logged_text false host.now)) }
    ensures full { OnErr result (vec_capacity text.old < length text.old.items + length
        (codes "http://" ++ logged_text false host.now)) }
    ensures capacity { vec_capacity text.old ≤ vec_capacity text.new }
    ensures front { take (length text.old.items) text.new.items ≡ text.old.items }
{
    text.extend_from_slice(b"http://")?;
    push_shown(text, false, host)
}

/// A target URI, part by part.
#[tactic(auto, unfolding(crate::specs::Line::logged_uri))]
fn push_uri_parts(text: &mut Vec<u8>, key: &Key) -> Result<(), AllocError>
    ensures ok { OnOk result (text.new.items ≡ text.old.items ++ logged_uri key.now) }
    ensures full { OnErr result (vec_capacity text.old < length text.old.items + length (logged_uri key.now)) }
    ensures capacity { vec_capacity text.old ≤ vec_capacity text.new }
    ensures front { take (length text.old.items) text.new.items ≡ text.old.items }
{
    push_scheme_and_host(text, key.host.as_slice())?;
    push_port(text, key.port)?;
    push_shown(text, false, key.path_query.as_slice())?;
    push_blank(text)
}

/// A target URI, and the blank behind it.
fn push_uri(text: &mut Vec<u8>, key: &Key) -> Result<(), AllocError>
    ensures ok { OnOk result (text.new.items ≡ text.old.items ++ (logged_word (uri_text key.now) ++ codes " ")) }
    ensures full { OnErr result (vec_capacity text.old < length text.old.items + length
        (logged_word (uri_text key.now) ++ codes " ")) }
    ensures capacity { vec_capacity text.old ≤ vec_capacity text.new }
    ensures front { take (length text.old.items) text.new.items ≡ text.old.items }
{
    port_is_shown(key.port);
    push_uri_parts(text, key)
}

/// A target, and the blank behind it.
fn push_target(text: &mut Vec<u8>, target: &LoggedTarget<'_>) -> Result<(), AllocError>
    ensures ok { OnOk result (text.new.items ≡ text.old.items ++ (logged_word (target_text target.now) ++ codes " ")) }
    ensures full { OnErr result (vec_capacity text.old < length text.old.items + length
        (logged_word (target_text target.now) ++ codes " ")) }
    ensures capacity { vec_capacity text.old ≤ vec_capacity text.new }
    ensures front { take (length text.old.items) text.new.items ≡ text.old.items }
{
    match target {
        LoggedTarget::Uri(key) => push_uri(text, key),
        LoggedTarget::AsItCame(target) => push_word(text, target),
    }
}

#[tactic(auto, using(crate::proofs::LineParts::no_time))]
fn push_time(text: &mut Vec<u8>, milliseconds: u64) -> Result<(), AllocError>
    ensures ok { OnOk result (text.new.items ≡ text.old.items ++ (seconds_text milliseconds ++ codes " ")) }
    ensures full { OnErr result (vec_capacity text.old < length text.old.items + length
        (seconds_text milliseconds ++ codes " ")) }
    ensures capacity { vec_capacity text.old ≤ vec_capacity text.new }
    ensures front { take (length text.old.items) text.new.items ≡ text.old.items }
{
    // A hit mostly takes no time.
    if milliseconds == 0 {
        return text.extend_from_slice(b"0.000 ");
    }
    push_seconds(text, milliseconds)?;
    push_blank(text)
}

fn push_number(text: &mut Vec<u8>, n: u64) -> Result<(), AllocError>
    ensures ok { OnOk result (text.new.items ≡ text.old.items ++ (decimal n ++ codes " ")) }
    ensures full { OnErr result (vec_capacity text.old < length text.old.items + length (decimal n ++ codes " ")) }
    ensures capacity { vec_capacity text.old ≤ vec_capacity text.new }
    ensures front { take (length text.old.items) text.new.items ≡ text.old.items }
{
    let mut digits = Buffer::new();
    text.extend_from_slice(digits.format(n).as_bytes())?;
    push_blank(text)
}

/// A status, zeros where none was sent.
#[tactic(auto, using(crate::proofs::LineParts::status_of_most))]
fn push_status(text: &mut Vec<u8>, status: u16) -> Result<(), AllocError>
    ensures ok { OnOk result (text.new.items ≡ text.old.items ++ (status_word status ++ codes " ")) }
    ensures full { OnErr result (vec_capacity text.old < length text.old.items + length
        (status_word status ++ codes " ")) }
    ensures capacity { vec_capacity text.old ≤ vec_capacity text.new }
    ensures front { take (length text.old.items) text.new.items ≡ text.old.items }
{
    match status {
        0 => text.extend_from_slice(b"000 "),
        // Most replies have it.
        200 => text.extend_from_slice(b"200 "),
        _ => push_number(text, u64::from(status)),
    }
}

/// The last word, and the end of the line.
fn push_last(text: &mut Vec<u8>, bytes: &[u8]) -> Result<(), AllocError>
    ensures ok { OnOk result (text.new.items ≡ text.old.items ++ (logged_word bytes.now ++ codes "\n")) }
    ensures full { OnErr result (vec_capacity text.old < length text.old.items + length
        (logged_word bytes.now ++ codes "\n")) }
    ensures capacity { vec_capacity text.old ≤ vec_capacity text.new }
    ensures front { take (length text.old.items) text.new.items ≡ text.old.items }
{
    if bytes.is_empty() {
        return text.extend_from_slice(b"-\n");
    }
    push_shown(text, false, bytes)?;
    text.extend_from_slice(b"\n")
}

/// Who asked for what, and when.
#[tactic(auto, unfolding(crate::specs::Line::log_line_front))]
fn push_front(text: &mut Vec<u8>, line: &Line<'_>) -> Result<(), AllocError>
    ensures ok { OnOk result (text.new.items ≡ text.old.items ++ log_line_front (words_of_log_line line.now)) }
    ensures full { OnErr result (vec_capacity text.old < length text.old.items + length
        (log_line_front (words_of_log_line line.now))) }
    ensures capacity { vec_capacity text.old ≤ vec_capacity text.new }
    ensures front { take (length text.old.items) text.new.items ≡ text.old.items }
{
    push_time(text, line.moment)?;
    push_word(text, line.client)?;
    push_word(text, line.asked.method)?;
    push_target(text, &line.asked.target)
}

/// All that a reply tells of itself stands in a line as it is.
fn told_is_shown(told: &Told)
    ensures { logged_text true (reply_reason_text told.now) ≡ reply_reason_text told.now }
{}

/// Each byte of a cause may have to be escaped, and none of what stands before it.
fn cause_is_escaped(cause: &[u8])
    ensures { logged_text true (unanswered_reason cause.now) ≡ codes "left;cause=" ++ logged_text true cause.now }
{}

/// Why a request was never answered.
fn push_cause(text: &mut Vec<u8>, cause: &[u8]) -> Result<(), AllocError>
    ensures ok { OnOk result (text.new.items ≡ text.old.items ++ (codes "left;cause=" ++ logged_text true cause.now)) }
    ensures full { OnErr result (vec_capacity text.old < length text.old.items + length
        (codes "left;cause=" ++ logged_text true cause.now)) }
    ensures capacity { vec_capacity text.old ≤ vec_capacity text.new }
    ensures front { take (length text.old.items) text.new.items ≡ text.old.items }
{
    text.extend_from_slice(b"left;cause=")?;
    push_shown(text, true, cause)
}

/// What a reply tells of itself, or why there was none.
fn push_logged_reason(text: &mut Vec<u8>, reason: &LoggedReason<'_>) -> Result<(), AllocError>
    ensures ok { OnOk result (text.new.items ≡ text.old.items ++ logged_text true (logged_reason_text reason.now)) }
    ensures full { OnErr result (vec_capacity text.old < length text.old.items + length
        (logged_text true (logged_reason_text reason.now))) }
    ensures capacity { vec_capacity text.old ≤ vec_capacity text.new }
    ensures front { take (length text.old.items) text.new.items ≡ text.old.items }
{
    match reason {
        LoggedReason::OfReply(told) => {
            told_is_shown(told);
            push_reply_reason_text(text, told)
        }
        LoggedReason::OfUnanswered(cause) => {
            cause_is_escaped(cause);
            push_cause(text, cause)
        }
    }
}

/// What it was told.
#[tactic(auto, unfolding(crate::specs::Line::log_line_answer))]
fn push_answer(text: &mut Vec<u8>, line: &Line<'_>) -> Result<(), AllocError>
    ensures ok { OnOk result (text.new.items ≡ text.old.items ++ log_line_answer (words_of_log_line line.now)) }
    ensures full { OnErr result (vec_capacity text.old < length text.old.items + length
        (log_line_answer (words_of_log_line line.now))) }
    ensures capacity { vec_capacity text.old ≤ vec_capacity text.new }
    ensures front { take (length text.old.items) text.new.items ≡ text.old.items }
{
    push_status(text, line.status)?;
    push_number(text, line.length)?;
    push_logged_reason(text, &line.reason)?;
    push_blank(text)
}

/// How long that took, and which origin was asked.
#[tactic(auto, unfolding(crate::specs::Line::log_line_end))]
fn push_end(text: &mut Vec<u8>, line: &Line<'_>) -> Result<(), AllocError>
    ensures ok { OnOk result (text.new.items ≡ text.old.items ++ log_line_end (words_of_log_line line.now)) }
    ensures full { OnErr result (vec_capacity text.old < length text.old.items + length
        (log_line_end (words_of_log_line line.now))) }
    ensures capacity { vec_capacity text.old ≤ vec_capacity text.new }
    ensures front { take (length text.old.items) text.new.items ≡ text.old.items }
{
    push_time(text, line.took)?;
    push_last(text, line.origin)
}

fn push_parts(text: &mut Vec<u8>, line: &Line<'_>) -> Result<(), AllocError>
    ensures ok { OnOk result (text.new.items ≡ text.old.items
        ++ (log_line_front (words_of_log_line line.now)
        ++ (log_line_answer (words_of_log_line line.now) ++ log_line_end (words_of_log_line line.now)))) }
    ensures full { OnErr result (vec_capacity text.old < length text.old.items + length
        (log_line_front (words_of_log_line line.now)
        ++ (log_line_answer (words_of_log_line line.now) ++ log_line_end (words_of_log_line line.now)))) }
    ensures capacity { vec_capacity text.old ≤ vec_capacity text.new }
    ensures front { take (length text.old.items) text.new.items ≡ text.old.items }
{
    push_front(text, line)?;
    push_answer(text, line)?;
    push_end(text, line)
}

/// Adds the text of a line, with its LF. Its only error is out of memory, where there is no room for the text.
pub(crate) fn push_line(text: &mut Vec<u8>, line: &Line<'_>) -> Result<(), AllocError>
    ensures ok { OnOk result (text.new.items ≡ text.old.items ++ log_line_text (words_of_log_line line.now)) }
    ensures full { OnErr result (vec_capacity text.old < length text.old.items + length
        (log_line_text (words_of_log_line line.now))) }
    ensures capacity { vec_capacity text.old ≤ vec_capacity text.new }
    ensures front { take (length text.old.items) text.new.items ≡ text.old.items }
{
    push_parts(text, line)
}
