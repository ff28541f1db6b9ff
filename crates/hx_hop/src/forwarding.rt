//! From a request that rules saw to the one that goes to the origin.
ghost use Rattle.std.specs.Prelude.{◌≡◌, ◌++◌, ◌∷◌, [], IfOk, OnOk, codes, is_some};
ghost use Rattle.std.specs.Option.{option_copied};
ghost use Rattle.hx_hop.specs.Forwarding.{host_text, via_text, is_condition_line, forwarded_client_lines};
ghost use Rattle.hx_hop.specs.Forwarding.{line_if_present};
ghost use Rattle.hx_hop.specs.Forwarding.{condition_lines};
ghost use Rattle.hx_hop.specs.Forwarding.{forwarded_lines, forwarded_of};

use crate::request_view::copy_content;
use crate::{Asked, Conditions};
use hx_fields::{Bytes, Field, Fields, is_same_name};
use hx_framing::Request;
use hx_target::Key;
use itoa::Buffer;
use std::alloc::{AllocError, Global};

/// The port of a Host field that doesn't name one.
const DEFAULT_PORT: u16 = 80;

/// The value of the Host field.
fn host_text(alloc: Global, key: &Key) -> Result<Vec<u8>, AllocError>
    ensures { IfOk result (λ text. text.items ≡ host_text key.now) }
{
    let mut text = Vec::new(alloc);
    text.extend_from_slice(key.host.as_slice())?;
    if key.port != DEFAULT_PORT {
        let mut digits = Buffer::new();
        text.extend_from_slice(b":")?;
        text.extend_from_slice(digits.format(key.port).as_bytes())?;
    }
    Ok(text)
}

/// The value of the Via field.
fn via_text(alloc: Global, minor: u8, name: &[u8]) -> Result<Vec<u8>, AllocError>
    ensures { IfOk result (λ text. text.items ≡ via_text minor name.now) }
{
    let mut text = Vec::new(alloc);
    if minor == 0 {
        text.extend_from_slice(b"1.0 ")?;
    } else {
        text.extend_from_slice(b"1.1 ")?;
    }
    text.extend_from_slice(name)?;
    Ok(text)
}

/// Whether a line is one of the two conditions that the proxy sends in the client's place.
fn is_condition_line(line: &Field) -> bool
    ensures { result ≡ is_condition_line line.now }
{
    is_same_name(line.name(), b"If-None-Match") || is_same_name(line.name(), b"If-Modified-Since")
}

/// Puts the client's lines at the end, without its conditions where the proxy sends its own or keeps them.
fn push_client_lines(
    alloc: Global,
    fields: &mut Fields,
    lines: &[Field],
    without_conditions: bool,
) -> Result<(), AllocError>
    ensures { OnOk result (fields.new ≡ fields.old ++ forwarded_client_lines without_conditions lines.now) }
{
    for line in lines {
        if !(without_conditions && is_condition_line(line)) {
            fields.push_line(line.copy(alloc)?)?;
        }
    }
    Ok(())
}

fn push_line(fields: &mut Fields, name: &[u8], value: Option<&Bytes>) -> Result<(), AllocError>
    ensures { OnOk result (fields.new ≡ fields.old ++ line_if_present name.now (option_copied value.entry)) }
{
    match value {
        Some(value) => fields.push(name, value.as_slice()),
        None => Ok(()),
    }
}

fn push_conditions(fields: &mut Fields, conditions: Option<&Conditions>) -> Result<(), AllocError>
    ensures { OnOk result (fields.new ≡ fields.old ++ condition_lines (option_copied conditions.entry)) }
{
    match conditions {
        Some(conditions) => {
            push_line(fields, b"If-None-Match", conditions.etag.as_ref())?;
            push_line(fields, b"If-Modified-Since", conditions.modified.as_ref())
        }
        None => Ok(()),
    }
}

/// The lines of the request that goes to the origin.
fn forwarded_lines(
    alloc: Global,
    asked: &Asked,
    name: &[u8],
    conditions: Option<&Conditions>,
    withholds_conditions: bool,
) -> Result<Fields, AllocError>
    ensures { IfOk result (λ fields. fields
        ≡ forwarded_lines withholds_conditions asked.now name.now (option_copied conditions.entry)) }
{
    let mut fields = Fields::new(alloc);
    let host = host_text(alloc, &asked.target.key)?;
    fields.push(b"Host", &host)?;
    push_client_lines(
        alloc,
        &mut fields,
        asked.fields.as_slice(),
        withholds_conditions || conditions.is_some(),
    )?;
    push_conditions(&mut fields, conditions)?;
    let via = via_text(alloc, asked.minor, name)?;
    fields.push(b"Via", &via)?;
    Ok(fields)
}

/// The request that goes to the origin of a target, through a proxy of this name, with the proxy's
/// conditions in place of both of the client's (RFC 9110, sections 7.2, 7.6.3 and 13.1). Where the client's are kept
/// they don't go forward in any case. Its fields end with Via: Content-Length and Connection are the writer's.
#[tactic(auto, unfolding(crate::specs::Forwarding::forwarded_of))]
pub fn forward_request(
    alloc: Global,
    asked: &Asked,
    name: &[u8],
    conditions: Option<&Conditions>,
    withholds_conditions: bool,
) -> Result<Request, AllocError>
    ensures { IfOk result (λ request. request
        ≡ forwarded_of withholds_conditions asked.now name.now (option_copied conditions.entry)) }
{
    Ok(Request {
        method: asked.method.clone()?,
        target: asked.target.key.path_query.copy(alloc)?,
        minor: 1,
        fields: forwarded_lines(alloc, asked, name, conditions, withholds_conditions)?,
        content: copy_content(alloc, asked.content.as_ref())?,
    })
}
