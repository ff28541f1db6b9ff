//! Requests of cases: `GET`, `POST /a?b HTTP/1.0` or `GET with content x`, and the field lines behind it.
//!
//! Where nothing else is said it is `/a` that is asked for, of the host `h`.

use crate::lines::{Fault, Line, bytes_spelled};
use crate::parts::Part;
use http::Method;
use hx_fields::{Bytes, Fields};
use hx_framing::Request;
use hx_hop::{Asked, ask};
use hx_target::TargetFault;
use std::alloc::{AllocError, Global};

/// What a request's line says.
#[derive(Clone, Copy)]
struct RequestLine<'a> {
    method: &'a str,
    target: &'a str,
    minor: u8,
    content: Option<&'a str>,
}

/// The minor number of a version.
fn minor_of(version: &str) -> Option<u8> {
    match version {
        "HTTP/1.0" => Some(0),
        "HTTP/1.1" => Some(1),
        _ => None,
    }
}

fn with_content(text: &str) -> (&str, Option<&str>) {
    match text.split_once(" with content ") {
        Some((front, content)) => (front, Some(content)),
        None => (text, None),
    }
}

fn request_line(text: &str) -> Option<RequestLine<'_>> {
    let (front, content) = with_content(text);
    let (method, rest) = front.split_once(' ').unwrap_or((front, "/a"));
    let (target, version) = rest.split_once(' ').unwrap_or((rest, "HTTP/1.1"));
    let minor = minor_of(version)?;
    Some(RequestLine {
        method,
        target,
        minor,
        content,
    })
}

/// The method of a name.
pub fn method_of(alloc: Global, line: Line<'_>, name: &str) -> Result<Method, Fault> {
    match Method::from_bytes(alloc, name.as_bytes()) {
        Ok(method) => Ok(method),
        Err(_) => Err(line.fault("no method")),
    }
}

fn content_of(
    alloc: Global,
    line: Line<'_>,
    content: Option<&str>,
) -> Result<Option<Bytes>, Fault> {
    match content {
        Some(content) => Ok(Some(Bytes::from_vec(bytes_spelled(alloc, line, content)?))),
        None => Ok(None),
    }
}

/// The lines, with one of Host where none stands.
fn with_host(alloc: Global, fields: &Fields) -> Result<Fields, AllocError> {
    let mut fields = fields.copy(alloc)?;
    if !fields.has(b"Host") {
        fields.push(b"Host", b"h")?;
    }
    Ok(fields)
}

fn request_of(
    alloc: Global,
    line: Line<'_>,
    said: RequestLine<'_>,
    fields: &Fields,
) -> Result<Request, Fault> {
    Ok(Request {
        method: method_of(alloc, line, said.method)?,
        target: Bytes::from_vec(bytes_spelled(alloc, line, said.target)?),
        minor: said.minor,
        fields: with_host(alloc, fields)?,
        content: content_of(alloc, line, said.content)?,
    })
}

/// A request as the rules see it: its line is `text`, which stands in `line`.
pub fn asked_of(
    alloc: Global,
    line: Line<'_>,
    text: &str,
    fields: &Fields,
) -> Result<Asked, Fault> {
    let Some(said) = request_line(text) else {
        return Err(line.fault("no request line"));
    };
    match ask(alloc, &request_of(alloc, line, said, fields)?) {
        Ok(asked) => Ok(asked),
        Err(TargetFault::OutOfMemory) => Err(Fault::OutOfMemory),
        Err(_) => Err(line.fault("a request whose target is refused")),
    }
}

/// The request of a part that begins with its line.
pub fn asked_by(alloc: Global, part: &Part<'_>) -> Result<Asked, Fault> {
    asked_of(alloc, part.head, part.head.text, &part.fields)
}
