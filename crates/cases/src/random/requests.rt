//! What clients send.

use super::dice::Dice;
use super::fields::last_value;
use bstr::ByteSlice;
use std::alloc::{AllocError, Global};

const UNUSUAL_METHODS: &[&str] = &[
    "HEAD", "HEAD", "HEAD", "POST", "POST", "PUT", "FOO", "get", "TRACE",
];

const OTHER_VERSIONS: &[&str] = &["HTTP/1.0", "HTTP/1.0", "HTTP/2.0"];

const HOSTS: &[&str] = &["h", "h", "i"];

const PATHS: &[&str] = &[
    "/a", "/a", "/a", "/a", "/a", "/b", "/b", "/b", "/c?q", "/d", "/denied",
];

const LANGUAGES: &[&str] = &[
    "Accept-Language: de\r\n",
    "Accept-Language: en\r\n",
    "accept-language:  de \r\n",
];

const DIRECTIVES: &[&str] = &[
    "Cache-Control: no-cache\r\n",
    "Cache-Control: no-store\r\n",
    "Cache-Control: max-age=5\r\n",
    "Cache-Control: max-age=0, max-stale\r\n",
    "Cache-Control: max-stale=10\r\n",
    "Cache-Control: max-stale\r\n",
    "Cache-Control: min-fresh=5\r\n",
    "Cache-Control: only-if-cached\r\n",
    "Cache-Control: stale-if-error=30\r\n",
];

/// The first four aren't as the proxy writes its own for a stored response, so what comes to an origin tells whose it
/// is.
const CONDITIONS: &[&str] = &[
    "if-none-match: \"v1\"\r\n",
    "If-None-Match: W/\"v2\", \"v1\"\r\n",
    "If-None-Match: *\r\n",
    "If-Modified-Since: Thu, 01 Jan 1970 00:10:00 GMT\r\n",
    "If-Match: \"v1\"\r\n",
    "Range: bytes=0-1\r\n",
    "Authorization: Basic QQ==\r\n",
];

const CONNECTIONS: &[&str] = &[
    "Connection: close\r\n",
    "Connection: keep-alive, X-Hop\r\nX-Hop: 1\r\n",
    "Connection: Accept-Language\r\n",
    "TE: trailers\r\nUpgrade: h2c\r\n",
];

const FAULTS: &[&str] = &[
    "Host: twice\r\n",
    "Bad name: x\r\n",
    " folded\r\n",
    "Expect: gold\r\n",
    "Content-Length: x\r\n",
    "Transfer-Encoding: gzip\r\n",
];

/// Lines that a request may have, and in how many requests one of them stands once.
static FIELDS: &[(&[&str], usize)] = &[
    (LANGUAGES, 2),
    (DIRECTIVES, 3),
    (CONDITIONS, 6),
    (CONNECTIONS, 20),
    (FAULTS, 60),
];

/// A request of a client: which of the connection's it is, counted from 1, and what it asks for.
#[derive(Clone, Copy)]
pub struct Asked {
    pub connection: u64,
    pub ordinal: u64,
    pub host: &'static str,
    pub path: &'static str,
    pub method: &'static str,
    /// The language that it asks for, empty where it asks for none.
    pub language: &'static str,
    pub has_authorization: bool,
    pub has_no_store: bool,
    pub has_no_cache: bool,
    /// Whether it has only-if-cached.
    pub is_only_if_cached: bool,
}

/// The language that a request asks for, unless that is for its connection alone.
fn language_of(text: &[u8]) -> &'static str {
    if last_value(text, b"Connection") == Some(b"Accept-Language".as_slice()) {
        return "";
    }
    match last_value(text, b"Accept-Language").or(last_value(text, b"accept-language")) {
        Some(b"de" | b" de ") => "de",
        Some(_) => "en",
        None => "",
    }
}

/// Whether a request at an origin has a condition of its client's own.
pub fn has_clients_condition(request: &[u8]) -> bool {
    CONDITIONS
        .iter()
        .take(4)
        .any(|line| request.contains_str(line.as_bytes()))
}

impl Asked {
    /// A request for one of few targets, so that requests meet, in most cases a GET.
    pub fn random(dice: &mut Dice, connection: u64, ordinal: u64) -> Self {
        Asked {
            connection,
            ordinal,
            host: dice.pick(HOSTS),
            path: dice.pick(PATHS),
            method: one_of(dice, "GET", 5, UNUSUAL_METHODS),
            language: "",
            has_authorization: false,
            has_no_store: false,
            has_no_cache: false,
            is_only_if_cached: false,
        }
    }

    /// Notes what its text says of its answer.
    pub fn note_fields(&mut self, text: &[u8]) {
        let control = last_value(text, b"Cache-Control").unwrap_or(b"");
        self.language = language_of(text);
        self.has_authorization = last_value(text, b"Authorization").is_some();
        self.has_no_store = control == b"no-store".as_slice();
        self.has_no_cache = control == b"no-cache".as_slice();
        self.is_only_if_cached = control == b"only-if-cached".as_slice();
    }

    pub fn has_target_of(&self, other: &Asked) -> bool {
        self.host == other.host && self.path == other.path
    }

    /// Whether it may change what the origin has (RFC 9110, section 9.2.1).
    pub fn is_unsafe(&self) -> bool {
        !matches!(self.method, "GET" | "HEAD" | "OPTIONS" | "TRACE")
    }

    /// What its field X-Target says.
    pub fn target(&self, alloc: Global) -> Result<String, AllocError> {
        let (host, path) = (self.host, self.path);
        format!(in alloc; "{host}{path}")
    }
}

/// This many letters.
pub fn push_letters(text: &mut String, dice: &mut Dice, count: usize) -> Result<(), AllocError> {
    for _ in 0..count {
        text.push_str(dice.pick(&["a", "b", "c", "\r\n", "d"]))?;
    }
    Ok(())
}

/// A content of a few letters.
pub fn letters(alloc: Global, dice: &mut Dice) -> Result<String, AllocError> {
    let count = if dice.once_in(60) {
        1000 + dice.below(5)
    } else {
        dice.below(30)
    };
    let mut content = String::new(alloc);
    push_letters(&mut content, dice, count)?;
    Ok(content)
}

fn push_chunk(text: &mut String, dice: &mut Dice) -> Result<(), AllocError> {
    let mut data = String::new(*text.allocator());
    let count = 1 + dice.below(20);
    push_letters(&mut data, dice, count)?;
    let size = data.len();
    write!(text, "{size:x}\r\n{data}\r\n")
}

/// The content in chunks, and its coding in front.
pub fn push_chunks(text: &mut String, dice: &mut Dice) -> Result<(), AllocError> {
    text.push_str("Transfer-Encoding: chunked\r\n\r\n")?;
    for _ in 0..dice.below(4) {
        push_chunk(text, dice)?;
    }
    text.push_str(dice.pick(&["0\r\n\r\n", "0\r\n\r\n", "0;x=1\r\nX-Trailer: t\r\n\r\n"]))?;
    if dice.once_in(20) {
        text.push_str("z\r\n")?;
    }
    Ok(())
}

/// A content behind a length.
pub fn push_sized(text: &mut String, length: usize, content: &str) -> Result<(), AllocError> {
    write!(text, "Content-Length: {length}\r\n\r\n{content}")
}

/// The content with its length in front.
fn push_counted(text: &mut String, dice: &mut Dice) -> Result<(), AllocError> {
    let content = letters(*text.allocator(), dice)?;
    push_sized(text, content.len(), content.as_str())
}

fn push_content(text: &mut String, dice: &mut Dice, is_usual: bool) -> Result<(), AllocError> {
    if !is_usual && !dice.once_in(30) {
        return text.push_str("\r\n");
    }
    if dice.once_in(6) {
        text.push_str("Expect: 100-continue\r\n")?;
    }
    match dice.below(10) {
        0..=4 => push_counted(text, dice),
        5..=8 => push_chunks(text, dice),
        _ => text.push_str("\r\n"),
    }
}

/// The head up to the fields that the answer is known by.
fn push_front(text: &mut String, version: &str, asked: &Asked) -> Result<(), AllocError> {
    let (method, host, path) = (asked.method, asked.host, asked.path);
    let (connection, ordinal) = (asked.connection, asked.ordinal);
    write!(text, "{method} {path} {version}\r\nHost: {host}\r\n")?;
    write!(
        text,
        "X-Id: {connection}.{ordinal}\r\nX-Target: {host}{path}\r\n"
    )
}

fn push_fields(text: &mut String, dice: &mut Dice) -> Result<(), AllocError> {
    for (lines, rarity) in FIELDS {
        if dice.once_in(*rarity) {
            text.push_str(dice.pick(lines))?;
        }
    }
    Ok(())
}

/// The usual text, and once in so many requests one of the others.
fn one_of(
    dice: &mut Dice,
    usual: &'static str,
    rarity: usize,
    others: &[&'static str],
) -> &'static str {
    if dice.once_in(rarity) {
        dice.pick(others)
    } else {
        usual
    }
}

/// The whole of a request, with fields that its answer is known by.
pub fn push_request(text: &mut String, dice: &mut Dice, asked: &Asked) -> Result<(), AllocError> {
    let version = one_of(dice, "HTTP/1.1", 30, OTHER_VERSIONS);
    push_front(text, version, asked)?;
    push_fields(text, dice)?;
    push_content(text, dice, matches!(asked.method, "POST" | "PUT" | "FOO"))
}
