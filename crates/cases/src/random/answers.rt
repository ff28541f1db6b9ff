//! What origins send.

use super::dice::Dice;
use super::{fields, requests};
use std::alloc::{AllocError, Global};
use std::str;

const STATUSES: &[&str] = &[
    "200 OK",
    "200 OK",
    "200 OK",
    "200 OK",
    "200 OK",
    "200 OK",
    "200 OK",
    "200 OK",
    "200 OK",
    "200 OK",
    "200 OK",
    "200 OK",
    "200 OK",
    "200 OK",
    "204 No Content",
    "206 Partial Content",
    "301 Moved",
    "404 Not Found",
    "500 Broken",
    "503 Later",
    "299 Odd",
    "304 Not Modified",
    "99 Short",
];

const DIRECTIVES: &[&str] = &[
    "Cache-Control: max-age=5\r\n",
    "Cache-Control: max-age=20\r\n",
    "Cache-Control: max-age=60\r\n",
    "Cache-Control: max-age=100\r\n",
    "Cache-Control: max-age=200\r\n",
    "Cache-Control: public, max-age=300\r\n",
    "Cache-Control: s-maxage=30, max-age=0\r\n",
    "Cache-Control: max-age=5, stale-if-error=100\r\n",
    "Cache-Control: max-age=10, must-revalidate\r\n",
    "Cache-Control: no-cache, max-age=60\r\n",
    "Cache-Control: no-store\r\n",
    "Cache-Control: private, max-age=60\r\n",
    "Cache-Control: max-age=x\r\n",
    "Cache-Control: must-understand, no-store, max-age=60\r\n",
    "Expires: Thu, 01 Jan 1970 00:20:00 GMT\r\n",
];

const VALIDATORS: &[&str] = &[
    "ETag: \"v1\"\r\n",
    "ETag: \"v1\"\r\nLast-Modified: Thu, 01 Jan 1970 00:05:00 GMT\r\n",
    "ETag: W/\"v2\"\r\n",
    "Last-Modified: Thu, 01 Jan 1970 00:05:00 GMT\r\n",
    "ETag: v3\r\n",
];

const VARIANTS: &[&str] = &[
    "Vary: Accept-Language\r\n",
    "Vary: accept-language, X-None\r\n",
    "Vary: *\r\n",
];

const OTHERS: &[&str] = &[
    "Age: 3\r\n",
    "Age: 1, 2\r\n",
    "Date: Thu, 01 Jan 1970 00:08:00 GMT\r\n",
    "Date: today\r\n",
    "Cache-Status: other;hit\r\n",
    "Connection: X-Hop\r\nX-Hop: 1\r\n",
    "Set-Cookie: a=1\r\n",
    "Connection: Vary\r\n",
];

const FAULTS: &[&str] = &[
    "Transfer-Encoding: gzip\r\n",
    "Content-Length: x\r\n",
    "Bad name: x\r\n",
    "Content-Length: 5000\r\n",
];

/// Lines that an answer may have, and in how many answers one of them is tried once.
static FIELDS: &[(&[&str], usize)] = &[
    (DIRECTIVES, 1),
    (VALIDATORS, 2),
    (VARIANTS, 6),
    (OTHERS, 5),
    (FAULTS, 60),
];

/// What an origin was asked.
pub struct Question {
    /// The lines that the answer is known by.
    echo: String,
    is_head: bool,
    has_condition: bool,
}

// By hand, so that a scope that ends is one call to the prover and not the drop of each part.
impl Drop for Question {
    fn drop(self) {
        let Question {
            echo: _,
            is_head: _,
            has_condition: _,
        } = self;
    }
}

fn push_echo(echo: &mut String, head: &[u8], name: &str) -> Result<(), AllocError> {
    if let Some(value) = fields::last_value(head, name.as_bytes()) {
        if let Ok(value) = str::from_utf8(value) {
            write!(echo, "{name}: {value}\r\n")?;
        }
    }
    Ok(())
}

impl Question {
    /// What a forwarded request asks.
    pub fn read(alloc: Global, request: &[u8]) -> Result<Question, AllocError> {
        let head = match fields::head_and_content(request) {
            Some((head, _)) => head,
            None => request,
        };
        let mut echo = String::new(alloc);
        push_echo(&mut echo, head, "X-Id")?;
        push_echo(&mut echo, head, "X-Target")?;
        let has_condition = fields::last_value(head, b"If-None-Match").is_some()
            || fields::last_value(head, b"if-none-match").is_some()
            || fields::last_value(head, b"If-Modified-Since").is_some();
        Ok(Question {
            echo,
            is_head: head.starts_with(b"HEAD "),
            has_condition,
        })
    }
}

/// The end of the head, and the content where one is sent.
fn push_content(text: &mut String, dice: &mut Dice, has_none: bool) -> Result<(), AllocError> {
    let content = requests::letters(*text.allocator(), dice)?;
    let length = content.len();
    if has_none {
        return requests::push_sized(text, length, "");
    }
    match dice.below(20) {
        0..=13 => requests::push_sized(text, length, content.as_str()),
        14..=16 => requests::push_chunks(text, dice),
        17 => write!(text, "\r\n{content}"),
        18 => {
            requests::push_sized(text, length, content.as_str())?;
            write!(text, "{content}behind")
        }
        _ => requests::push_sized(text, length.saturating_add(2), content.as_str()),
    }
}

fn status(dice: &mut Dice, question: &Question) -> &'static str {
    if question.has_condition && dice.below(10) < 6 {
        return "304 Not Modified";
    }
    dice.pick(STATUSES)
}

fn push_fields(text: &mut String, dice: &mut Dice) -> Result<(), AllocError> {
    for (lines, rarity) in FIELDS {
        if !dice.once_in(8) && dice.once_in(*rarity) {
            text.push_str(dice.pick(lines))?;
        }
    }
    Ok(())
}

/// The whole of an answer; some are faulty, too long or too short.
pub fn push_answer(
    text: &mut String,
    dice: &mut Dice,
    question: &Question,
) -> Result<(), AllocError> {
    if dice.once_in(25) {
        text.push_str("HTTP/1.1 103 Early Hints\r\nLink: </x>\r\n\r\n")?;
    }
    let status = status(dice, question);
    write!(text, "HTTP/1.1 {status}\r\n")?;
    text.push_str(question.echo.as_str())?;
    push_fields(text, dice)?;
    let has_none = question.is_head || matches!(status, "204 No Content" | "304 Not Modified");
    push_content(text, dice, has_none)
}
