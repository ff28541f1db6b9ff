//! What a proxy does: its text, as a replay writes it, and its words in a case.

use super::showing::push_shown;
use bstr::ByteSlice;
use std::alloc::{AllocError, Global};

/// What a proxy does.
#[derive(Clone, Copy)]
pub enum Effect<'a> {
    /// Bytes to the client of a connection.
    Client(u64, &'a [u8]),
    /// A new link to an address, and the bytes on it.
    Forward(u64, &'a [u8], &'a [u8]),
    Close(u64),
    Drop(u64),
    /// The replay stops by a fault. The whole line: `stops with status 1: engine fault 2`.
    Stop(&'a [u8]),
}

/// A decimal number without leading zeros.
pub fn number_of(digits: &[u8]) -> Option<u64> {
    match digits {
        [] => None,
        [b'0'] => Some(0),
        [b'0', ..] => None,
        _ => {
            let mut value = 0u64;
            for digit in digits {
                if !digit.is_ascii_digit() {
                    return None;
                }
                value = value
                    .checked_mul(10)?
                    .checked_add(u64::from(*digit & 0x0f))?;
            }
            Some(value)
        }
    }
}

/// So many bytes and the LF behind them, and what follows.
fn block<'a>(length: &[u8], rest: &'a [u8]) -> Option<(&'a [u8], &'a [u8])> {
    let length = usize::try_from(number_of(length)?).ok()?;
    let bytes = rest.get(..length)?;
    match rest.get(length..)? {
        [b'\n', rest @ ..] => Some((bytes, rest)),
        _ => None,
    }
}

fn client_at<'a>(line: &[u8], rest: &'a [u8]) -> Option<(Effect<'a>, &'a [u8])> {
    let (number, length) = line.split_once_str(b" ")?;
    let (bytes, rest) = block(length, rest)?;
    Some((Effect::Client(number_of(number)?, bytes), rest))
}

fn forward_at<'a>(line: &'a [u8], rest: &'a [u8]) -> Option<(Effect<'a>, &'a [u8])> {
    let (number, line) = line.split_once_str(b" ")?;
    let (address, length) = line.split_once_str(b" ")?;
    let (bytes, rest) = block(length, rest)?;
    Some((Effect::Forward(number_of(number)?, address, bytes), rest))
}

/// The effect of a line with this word, and what follows it.
fn effect_of<'a>(word: &[u8], line: &'a [u8], rest: &'a [u8]) -> Option<(Effect<'a>, &'a [u8])> {
    if word == b"client".as_slice() {
        client_at(line, rest)
    } else if word == b"forward".as_slice() {
        forward_at(line, rest)
    } else if word == b"close".as_slice() {
        Some((Effect::Close(number_of(line)?), rest))
    } else if word == b"drop".as_slice() {
        Some((Effect::Drop(number_of(line)?), rest))
    } else {
        None
    }
}

/// The first effect of a text, and what follows it.
pub fn read_effect(text: &[u8]) -> Option<(Effect<'_>, &[u8])> {
    let (line, rest) = text.split_once_str(b"\n")?;
    let (word, behind) = line.split_once_str(b" ")?;
    if word == b"stops".as_slice() {
        Some((Effect::Stop(line), rest))
    } else {
        effect_of(word, behind, rest)
    }
}

fn push_forward(
    text: &mut Vec<u8>,
    l: u64,
    address: &[u8],
    bytes: &[u8],
) -> Result<(), AllocError> {
    let line = format!(in *text.allocator(); "forward {l} ")?;
    text.extend_from_slice(line.as_bytes())?;
    text.extend_from_slice(address)?;
    let line = format!(in *text.allocator(); " {}\n", bytes.len())?;
    text.extend_from_slice(line.as_bytes())
}

impl<'a> Effect<'a> {
    /// The words in front of its bytes, with their LF.
    fn words(self, alloc: Global) -> Result<String, AllocError> {
        match self {
            Effect::Client(n, bytes) => format!(in alloc; "client {n} {}\n", bytes.len()),
            Effect::Close(n) => format!(in alloc; "close {n}"),
            Effect::Drop(l) => format!(in alloc; "drop {l}"),
            _ => Ok(String::new(alloc)),
        }
    }

    /// The bytes behind the words.
    fn bytes(self) -> &'a [u8] {
        match self {
            Effect::Client(_, bytes) => bytes,
            Effect::Forward(_, _, bytes) => bytes,
            Effect::Stop(line) => line,
            _ => &[],
        }
    }

    /// Appends the text that a replay writes of it.
    pub fn push_text(self, text: &mut Vec<u8>) -> Result<(), AllocError> {
        if let Effect::Forward(l, address, bytes) = self {
            push_forward(text, l, address, bytes)?;
        } else {
            let words = self.words(*text.allocator())?;
            text.extend_from_slice(words.as_bytes())?;
        }
        text.extend_from_slice(self.bytes())?;
        text.push(b'\n')?;
        Ok(())
    }

    /// Appends what a case says of it, in one line.
    pub fn push_shown(self, line: &mut String) -> Result<(), AllocError> {
        match self {
            Effect::Client(n, bytes) => {
                write!(line, "client {n} gets ")?;
                push_shown(line, bytes)
            }
            Effect::Forward(l, address, bytes) => {
                write!(line, "link {l} is opened to ")?;
                push_shown(line, address)?;
                line.push(' ')?;
                push_shown(line, bytes)
            }
            Effect::Close(n) => write!(line, "client {n} is closed"),
            Effect::Drop(l) => write!(line, "link {l} is dropped"),
            Effect::Stop(text) => push_shown(line, text),
        }
    }
}

/// What a case would say of the first effect of a text, and of a text that has none.
pub fn first_shown(alloc: Global, text: &[u8]) -> Result<String, AllocError> {
    let mut line = String::new(alloc);
    if text.is_empty() {
        line.push_str("nothing")?;
    } else if let Some((effect, _)) = read_effect(text) {
        effect.push_shown(&mut line)?;
    } else {
        line.push_str("a text that is no effect: ")?;
        push_shown(&mut line, text)?;
    }
    Ok(line)
}
