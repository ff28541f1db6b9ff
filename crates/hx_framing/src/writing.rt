//! Messages as they are sent. Their bytes are in `specs/Text.antt` (RFC 9112, sections 3 to 7).
ghost use Rattle.std.specs.Prelude.{◌≡◌, ◌++◌, map, Option, OnOk, IfOk};
ghost use Rattle.hx_framing.specs.Text.{field_line_text, field_lines_text, field_of_added_line, content_length_line};
ghost use Rattle.hx_framing.specs.Text.{connection_close_line, request_line_text};
ghost use Rattle.hx_framing.specs.Text.{status_line_text, request_text, response_text, continue_text};

use crate::messages::Request;
use hx_fields::{Bytes, Field, Fields};
use itoa::Buffer;
use std::alloc::{AllocError, Global};

/// A line that is written behind the fields of a message.
#[derive(Clone, Copy)]
pub struct AddedLine<'a> {
    pub name: &'a [u8],
    pub value: &'a [u8],
}

/// The lines of a response behind its status line, in their order.
#[derive(Clone, Copy)]
pub struct LinesAfterStatusLine<'a> {
    pub fields: &'a Fields,
    pub added: &'a [AddedLine<'a>],
    /// The Content-Length in bytes, where one is told.
    pub length: Option<u64>,
    /// Whether the connection closes after the response.
    pub close: bool,
}

fn write_line(text: &mut Vec<u8>, name: &[u8], value: &[u8]) -> Result<(), AllocError>
    ensures { OnOk result (text.new.items
        ≡ text.old.items ++ field_line_text (record { name = name.now; value = value.now })) }
{
    text.extend_from_slice(name)?;
    text.extend_from_slice(b": ")?;
    text.extend_from_slice(value)?;
    text.extend_from_slice(b"\r\n")?;
    Ok(())
}

fn write_lines(text: &mut Vec<u8>, lines: &[Field]) -> Result<(), AllocError>
    ensures { OnOk result (text.new.items ≡ text.old.items ++ field_lines_text lines.now) }
{
    for line in lines {
        write_line(text, line.name(), line.value())?;
    }
    Ok(())
}

fn write_added(text: &mut Vec<u8>, lines: &[AddedLine<'_>]) -> Result<(), AllocError>
    ensures { OnOk result (text.new.items ≡ text.old.items ++ field_lines_text (map field_of_added_line lines.now)) }
{
    for line in lines {
        write_line(text, line.name, line.value)?;
    }
    Ok(())
}

fn write_length(text: &mut Vec<u8>, length: Option<u64>) -> Result<(), AllocError>
    ensures { OnOk result (text.new.items ≡ text.old.items ++ content_length_line length) }
{
    if let Some(n) = length {
        let mut digits = Buffer::new();
        text.extend_from_slice(b"Content-Length: ")?;
        text.extend_from_slice(digits.format(n).as_bytes())?;
        text.extend_from_slice(b"\r\n")?;
    }
    Ok(())
}

fn write_close(text: &mut Vec<u8>, close: bool) -> Result<(), AllocError>
    ensures { OnOk result (text.new.items ≡ text.old.items ++ connection_close_line close) }
{
    if close {
        text.extend_from_slice(b"Connection: close\r\n")?;
    }
    Ok(())
}

fn write_request_line(text: &mut Vec<u8>, request: &Request) -> Result<(), AllocError>
    ensures { OnOk result (text.new.items ≡ text.old.items ++ request_line_text request.now) }
{
    text.extend_from_slice(request.method.as_str().as_bytes())?;
    text.extend_from_slice(b" ")?;
    text.extend_from_slice(request.target.as_slice())?;
    text.extend_from_slice(b" HTTP/1.1\r\n")?;
    Ok(())
}

fn write_status_line(text: &mut Vec<u8>, status: u16) -> Result<(), AllocError>
    ensures { OnOk result (text.new.items ≡ text.old.items ++ status_line_text status) }
{
    let mut digits = Buffer::new();
    text.extend_from_slice(b"HTTP/1.1 ")?;
    text.extend_from_slice(digits.format(status).as_bytes())?;
    text.extend_from_slice(b" \r\n")?;
    Ok(())
}

/// The bytes of a request that is sent to an origin: its lines, a Content-Length where it has content, and
/// `Connection: close`.
pub fn write_request(alloc: Global, request: &Request) -> Result<Bytes, AllocError>
    ensures { IfOk result (λ text. text ≡ request_text request.now) }
{
    let content = match &request.content {
        Some(content) => Some(content.as_slice()),
        None => None,
    };
    let length = content.map(|content| content.len());
    let mut text = Vec::with_capacity(
        alloc,
        length_bound_of_message(&request.fields, length.unwrap_or(0)),
    )?;
    write_request_line(&mut text, request)?;
    write_lines(&mut text, request.fields.as_slice())?;
    write_length(&mut text, content.map(|content| content.len() as u64))?;
    write_close(&mut text, true)?;
    text.extend_from_slice(b"\r\n")?;
    if let Some(content) = content {
        text.extend_from_slice(content)?;
    }
    Ok(Bytes::from_vec(text))
}

/// How many bytes these lines and a content take, with some more for a status line and a length:
/// room for a message, so that its memory is asked for once. No clause speaks of it.
fn length_bound_of_message(fields: &Fields, content: usize) -> usize {
    let mut room = content.saturating_add(256);
    for line in fields.as_slice() {
        room = room
            .saturating_add(line.name().len())
            .saturating_add(line.value().len())
            .saturating_add(4);
    }
    room
}

/// The bytes of a response that is sent to a client. `length` is the Content-Length in bytes, where one is told;
/// `close` tells that the connection closes after it.
pub fn write_response(
    alloc: Global,
    status: u16,
    fields: &Fields,
    length: Option<u64>,
    close: bool,
    content: &[u8],
) -> Result<Bytes, AllocError>
    ensures { IfOk result (λ text. text
        ≡ response_text status fields.now length close content.now) }
{
    let lines = LinesAfterStatusLine {
        fields,
        added: &[],
        length,
        close,
    };
    write_response_with_added_lines(alloc, status, &lines, content)
}

/// The same of lines that are told apart, with further ones behind the fields.
pub fn write_response_with_added_lines(
    alloc: Global,
    status: u16,
    lines: &LinesAfterStatusLine<'_>,
    content: &[u8],
) -> Result<Bytes, AllocError>
    ensures { IfOk result (λ text. text
        ≡ response_text status (lines.now.fields.now
        ++ map field_of_added_line lines.now.added.now) lines.now.length lines.now.close content.now) }
{
    let mut text = Vec::with_capacity(alloc, length_bound_of_message(lines.fields, content.len()))?;
    write_status_line(&mut text, status)?;
    write_lines(&mut text, lines.fields.as_slice())?;
    write_added(&mut text, lines.added)?;
    write_length(&mut text, lines.length)?;
    write_close(&mut text, lines.close)?;
    text.extend_from_slice(b"\r\n")?;
    text.extend_from_slice(content)?;
    Ok(Bytes::from_vec(text))
}

/// The bytes of an interim 100 (Continue), for a client that waits for it before it sends a content (RFC 9110,
/// section 15.2.1).
pub fn write_continue(alloc: Global) -> Result<Bytes, AllocError>
    ensures { IfOk result (λ text. text ≡ continue_text) }
{
    Bytes::copy_of(alloc, b"HTTP/1.1 100 Continue\r\n\r\n")
}
