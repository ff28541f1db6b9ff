//! Streams played to readers, and their answers as a text.
//!
//! A request is written as its content in brackets, or `none`; a response as its status, its content in brackets, and
//! `of N` where it announces a length. `continue`, `refused` with the name of a fault and `end` are the other answers,
//! and `|` stands where the stream ends. A fault, or an `end` before the stream's end, has to be given again behind it
//! and isn't written again.

use crate::text::push_shown;
use crate::words::{frame_fault_word, push_shown_in_brackets};
use hx_fields::{Bytes, Field};
use hx_framing::{FrameFault, Next, Request, RequestReader, Response, ResponseReader};
use std::alloc::{AllocError, Global};

/// The most bytes of content that a reader takes here.
const MOST_CONTENT: u64 = 1000;

/// A longer stream isn't played byte by byte, since each byte of an unfinished head has the head looked at again.
const LONG_STREAM: usize = 2000;

/// How a play goes on.
#[derive(Clone, Copy, PartialEq, Eq)]
enum Turn {
    /// A further answer may be due.
    Ask,
    /// More bytes are wanted.
    Wait,
    /// A fault or the end.
    Stop,
}

/// A reader as a play takes it.
trait Play: Drop {
    fn begin(alloc: Global, to_head: bool) -> Self;

    /// Takes a piece, or else the end of the stream.
    fn take(&mut self, piece: Option<&[u8]>) -> Result<(), AllocError>;

    /// Writes what is due.
    fn write_next(&mut self, alloc: Global, text: &mut String) -> Result<Turn, AllocError>;
}

impl Play for RequestReader {
    fn begin(alloc: Global, _to_head: bool) -> RequestReader {
        RequestReader::new(alloc, MOST_CONTENT)
    }

    fn take(&mut self, piece: Option<&[u8]>) -> Result<(), AllocError> {
        match piece {
            Some(piece) => self.feed(piece),
            None => {
                self.finish();
                Ok(())
            }
        }
    }

    fn write_next(&mut self, alloc: Global, text: &mut String) -> Result<Turn, AllocError> {
        write_request_answer(text, &self.next(alloc)?)
    }
}

impl Play for ResponseReader {
    fn begin(alloc: Global, to_head: bool) -> ResponseReader {
        ResponseReader::new(alloc, MOST_CONTENT, to_head)
    }

    fn take(&mut self, piece: Option<&[u8]>) -> Result<(), AllocError> {
        match piece {
            Some(piece) => self.feed(piece),
            None => {
                self.finish();
                Ok(())
            }
        }
    }

    fn write_next(&mut self, alloc: Global, text: &mut String) -> Result<Turn, AllocError> {
        write_response_answer(text, &self.next(alloc)?)
    }
}

fn write_request_answer(text: &mut String, answer: &Next<Request>) -> Result<Turn, AllocError> {
    match answer {
        Next::More => Ok(Turn::Wait),
        Next::NeedsContinue => write_then(text, "continue", Turn::Ask),
        Next::Message(request) => {
            write_some_content(text, &request.content)?;
            Ok(Turn::Ask)
        }
        Next::Refused(fault) => write_fault(text, *fault),
        Next::End => write_then(text, "end", Turn::Stop),
    }
}

fn write_response_answer(text: &mut String, answer: &Next<Response>) -> Result<Turn, AllocError> {
    match answer {
        Next::More => Ok(Turn::Wait),
        Next::NeedsContinue => write_then(text, "continue", Turn::Ask),
        Next::Message(response) => {
            write_response(text, response)?;
            Ok(Turn::Ask)
        }
        Next::Refused(fault) => write_fault(text, *fault),
        Next::End => write_then(text, "end", Turn::Stop),
    }
}

fn write_then(text: &mut String, word: &str, turn: Turn) -> Result<Turn, AllocError> {
    write_word(text, word)?;
    Ok(turn)
}

fn write_fault(text: &mut String, fault: FrameFault) -> Result<Turn, AllocError> {
    write_word(text, "refused")?;
    write_then(text, frame_fault_word(fault), Turn::Stop)
}

fn write_word(text: &mut String, word: &str) -> Result<(), AllocError> {
    if !text.is_empty() {
        text.push(' ')?;
    }
    text.push_str(word)
}

fn write_content(text: &mut String, content: &[u8]) -> Result<(), AllocError> {
    write_word(text, "")?;
    push_shown_in_brackets(text, content)
}

fn write_some_content(text: &mut String, content: &Option<Bytes>) -> Result<(), AllocError> {
    match content {
        Some(content) => write_content(text, content.as_slice()),
        None => write_word(text, "none"),
    }
}

fn write_response(text: &mut String, response: &Response) -> Result<(), AllocError> {
    write_word(text, "")?;
    write!(text, "{}", response.status)?;
    write_content(text, response.content.as_slice())?;
    match response.announced {
        Some(length) => write!(text, " of {length}"),
        None => Ok(()),
    }
}

/// Writes what is due, until bytes are wanted or nothing else comes: nine answers at most.
fn write_due<P: Play>(
    alloc: Global,
    reader: &mut P,
    text: &mut String,
) -> Result<Turn, AllocError> {
    for _ in 0..9u32 {
        let turn = reader.write_next(alloc, text)?;
        if turn != Turn::Ask {
            return Ok(turn);
        }
    }
    write_then(text, "and more", Turn::Stop)
}

/// Ends the stream, and writes what is due then.
fn write_end<P: Play>(reader: &mut P, text: &mut String, turn: Turn) -> Result<(), AllocError> {
    let mut last = String::new(*text.allocator());
    reader.take(None)?;
    write_due(*text.allocator(), reader, &mut last)?;
    let is_again = turn == Turn::Stop && text.ends_with(last.as_str());
    write_word(text, "|")?;
    if is_again {
        Ok(())
    } else {
        write_word(text, last.as_str())
    }
}

/// Writes the answers to a stream that is fed in pieces of this size, one byte at least. Behind a fault nothing more is
/// asked for.
fn play_pieces<P: Play>(
    text: &mut String,
    reader: &mut P,
    stream: &[u8],
    size: usize,
) -> Result<(), AllocError> {
    let mut turn = Turn::Wait;
    let mut rest = stream;
    // Each turn takes a byte.
    for _ in 0..stream.len() {
        if rest.is_empty() {
            break;
        }
        let (piece, behind) = rest.split_at(size.max(1).min(rest.len()));
        reader.take(Some(piece))?;
        if turn != Turn::Stop {
            turn = write_due(*text.allocator(), reader, text)?;
        }
        rest = behind;
    }
    write_end(reader, text, turn)
}

/// Writes the answers to a stream that has ended before the first is asked for.
fn play_late<P: Play>(text: &mut String, reader: &mut P, stream: &[u8]) -> Result<(), AllocError> {
    reader.take(Some(stream))?;
    reader.take(None)?;
    write_due(*text.allocator(), reader, text)?;
    Ok(())
}

/// Whether two answers are the same but for spaces and the end of the stream.
fn are_same_words(one: &str, other: &str) -> bool {
    let ours = one.chars().filter(|c| *c != ' ' && *c != '|');
    let theirs = other.chars().filter(|c| *c != ' ' && *c != '|');
    ours.eq(theirs)
}

/// Writes the answers to a stream that comes whole, or behind a word others where it comes in another way.
fn write_answers<P: Play>(
    text: &mut String,
    to_head: bool,
    stream: &[u8],
) -> Result<(), AllocError> {
    let alloc = *text.allocator();
    play_pieces(text, &mut P::begin(alloc, to_head), stream, stream.len())?;
    let is_long = stream.len() > LONG_STREAM;
    let (way, size) = if is_long {
        ("cut before its last byte", stream.len() - 1)
    } else {
        ("byte by byte", 1)
    };
    let mut answers = String::new(alloc);
    play_pieces(&mut answers, &mut P::begin(alloc, to_head), stream, size)?;
    if answers.as_str() != text.as_str() {
        text.clear();
        return write!(text, "{way}: {answers}");
    }
    if is_long {
        return Ok(());
    }
    answers.clear();
    play_late(&mut answers, &mut P::begin(alloc, to_head), stream)?;
    if are_same_words(answers.as_str(), text.as_str()) {
        return Ok(());
    }
    text.clear();
    write!(text, "ended first: {answers}")
}

/// Writes the answers to a stream of requests.
pub fn write_requests(text: &mut String, stream: &[u8]) -> Result<(), AllocError> {
    write_answers::<RequestReader>(text, false, stream)
}

/// Writes the answers to a stream of responses, to a HEAD or to another request.
pub fn write_responses(text: &mut String, to_head: bool, stream: &[u8]) -> Result<(), AllocError> {
    write_answers::<ResponseReader>(text, to_head, stream)
}

fn write_lines(text: &mut String, lines: &[Field]) -> Result<(), AllocError> {
    text.push_str(" {")?;
    for line in lines {
        push_shown(text, line.name())?;
        text.push_str(": ")?;
        push_shown(text, line.value())?;
        text.push(';')?;
    }
    text.push('}')
}

/// All parts of a request, its version by the minor number.
fn write_request(text: &mut String, request: &Request) -> Result<(), AllocError> {
    text.push_str(request.method.as_str())?;
    text.push(' ')?;
    push_shown(text, request.target.as_slice())?;
    write!(text, " {}", request.minor)?;
    write_lines(text, request.fields.as_slice())?;
    write_some_content(text, &request.content)
}

/// Writes the parts of a request or another answer but a `continue`, and tells whether it has written.
fn write_parts(text: &mut String, answer: &Next<Request>) -> Result<bool, AllocError> {
    match answer {
        Next::NeedsContinue => return Ok(false),
        Next::Message(request) => write_request(text, request)?,
        other => {
            write_request_answer(text, other)?;
        }
    }
    Ok(true)
}

/// Writes the parts of the first request of a stream, behind a `continue` where one is due.
pub fn write_first_request(text: &mut String, stream: &[u8]) -> Result<(), AllocError> {
    let alloc = *text.allocator();
    let mut reader = RequestReader::new(alloc, MOST_CONTENT);
    reader.feed(stream)?;
    for _ in 0..2u32 {
        if write_parts(text, &reader.next(alloc)?)? {
            break;
        }
    }
    Ok(())
}
