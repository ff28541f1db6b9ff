//! What a text spells.

use std::alloc::AllocError;

/// The longest that a text and its repeats may become, in bytes.
const MOST_BYTES: usize = 16_777_216;

/// The most repeats of a piece.
const MOST_REPEATS: usize = 1_000_000;

/// Why a text spells nothing.
#[derive(Clone, Copy)]
pub enum TextFault {
    /// A backslash before something that is no escape.
    BadEscape,
    /// A repeat that isn't `\{TEXT*N}`, with N at most 1,000,000.
    BadRepeat,
    /// More than 16 MiB.
    TooLong,
    /// No memory.
    OutOfMemory,
}

impl From<AllocError> for TextFault {
    fn from(_: AllocError) -> TextFault {
        TextFault::OutOfMemory
    }
}

impl TextFault {
    /// The fault in words.
    pub fn as_str(self) -> &'static str {
        match self {
            TextFault::BadEscape => "a backslash before something that is no escape",
            TextFault::BadRepeat => "a repeat that isn't \\{TEXT*N}",
            TextFault::TooLong => "a text of more than 16 MiB",
            TextFault::OutOfMemory => "no memory",
        }
    }
}

/// The first character, and what is behind it.
fn first_of(text: &str) -> Option<(char, &str)> {
    let mut characters = text.chars();
    let first = characters.next()?;
    Some((first, characters.as_str()))
}

/// Appends what `whole` has in front of `rest`, its end.
fn push_front(bytes: &mut Vec<u8>, whole: &str, rest: &str) -> Result<(), AllocError> {
    let taken = whole.len().saturating_sub(rest.len());
    bytes.extend_from_slice(whole.as_bytes().get(..taken).unwrap_or(&[]))
}

fn hexadecimal(digit: char) -> Option<u8> {
    match digit.to_digit(16) {
        Some(value) => u8::try_from(value).ok(),
        None => None,
    }
}

/// The byte of two hexadecimal digits, and what is behind them.
fn byte_at(text: &str) -> Option<(u8, &str)> {
    let (high, text) = first_of(text)?;
    let (low, text) = first_of(text)?;
    let high = hexadecimal(high)?;
    let low = hexadecimal(low)?;
    Some((high.checked_mul(16)?.checked_add(low)?, text))
}

/// The byte that a letter behind a backslash stands for.
fn escaped(letter: char) -> Option<u8> {
    match letter {
        'r' => Some(b'\r'),
        'n' => Some(b'\n'),
        't' => Some(b'\t'),
        '\\' => Some(b'\\'),
        _ => None,
    }
}

/// The byte of an escape, none where it stands for nothing, and what is behind it. A repeat is none here.
fn escape_at(text: &str) -> Option<(Option<u8>, &str)> {
    let (letter, rest) = first_of(text)?;
    match letter {
        '.' => Some((None, rest)),
        'x' => {
            let (byte, rest) = byte_at(rest)?;
            Some((Some(byte), rest))
        }
        _ => Some((Some(escaped(letter)?), rest)),
    }
}

/// Appends what one character or escape spells, and gives what is behind it.
fn push_next<'a>(bytes: &mut Vec<u8>, text: &'a str) -> Result<&'a str, TextFault> {
    let Some((first, behind)) = first_of(text) else {
        return Ok(text);
    };
    match first {
        '\\' => {
            let (byte, rest) = escape_at(behind).ok_or(TextFault::BadEscape)?;
            bytes.extend_from_slice(byte.as_slice())?;
            Ok(rest)
        }
        '↵' => {
            bytes.extend_from_slice(b"\r\n")?;
            Ok(behind)
        }
        _ => {
            push_front(bytes, text, behind)?;
            Ok(behind)
        }
    }
}

/// Appends what a text without repeats spells.
fn push_plain(bytes: &mut Vec<u8>, text: &str) -> Result<(), TextFault> {
    let mut rest = text;
    // Each turn takes a character.
    for _ in 0..text.len() {
        rest = push_next(bytes, rest)?;
    }
    Ok(())
}

/// Appends the piece so many times.
fn push_times(bytes: &mut Vec<u8>, piece: &[u8], times: usize) -> Result<(), TextFault> {
    let more = piece.len().saturating_mul(times);
    if bytes.len().saturating_add(more) > MOST_BYTES {
        return Err(TextFault::TooLong);
    }
    for _ in 0..times {
        bytes.extend_from_slice(piece)?;
    }
    Ok(())
}

/// A number without a sign, of 1,000,000 at most.
fn times_of(digits: &str) -> Option<usize> {
    if digits.starts_with('+') {
        return None;
    }
    let times = digits.parse::<usize>().ok()?;
    (times <= MOST_REPEATS).then_some(times)
}

/// Appends a repeat, which stands behind `\{`, and gives what is behind it.
fn push_repeat<'a>(bytes: &mut Vec<u8>, text: &'a str) -> Result<&'a str, TextFault> {
    let (repeat, rest) = text.split_once('}').ok_or(TextFault::BadRepeat)?;
    let (piece, digits) = repeat.rsplit_once('*').ok_or(TextFault::BadRepeat)?;
    let times = times_of(digits).ok_or(TextFault::BadRepeat)?;
    let mut spelled = Vec::new(*bytes.allocator());
    push_plain(&mut spelled, piece)?;
    push_times(bytes, spelled.as_slice(), times)?;
    Ok(rest)
}

/// Appends the bytes that the text spells. After a fault some of them may stand there.
pub fn push_bytes(bytes: &mut Vec<u8>, text: &str) -> Result<(), TextFault> {
    let mut rest = text;
    // Each turn takes a character or a repeat.
    for _ in 0..text.len() {
        rest = match rest.strip_prefix("\\{") {
            Some(repeat) => push_repeat(bytes, repeat)?,
            None => push_next(bytes, rest)?,
        };
    }
    if bytes.len() > MOST_BYTES {
        return Err(TextFault::TooLong);
    }
    Ok(())
}
