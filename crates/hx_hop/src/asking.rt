//! From a request that was read to one that rules see.
ghost use Rattle.std.specs.Prelude.{◌≡◌, codes, filter, Err, false, IfErr, IfOk};
ghost use Rattle.hx_fields.specs.FieldLines.{values_of};
ghost use Rattle.hx_target.specs.Judgement.{is_malformed};
ghost use Rattle.hx_hop.specs.Asking.{fields_passed_on_of, asked_with_target};
ghost use Rattle.hx_hop.specs.Asking.{asked_with_judged_target, RequestIsReadAsAsked};
ghost use Rattle.hx_hop.specs.Stripping.{connection_has_option};
ghost use Rattle.hx_hop.specs.LinesThatGoOn.{line_is_passed_on};

use crate::Asked;
use crate::named_lines::{StrippedFields, connection_has_many_members, strip_with_many_members};
use crate::request_view::copy_content;
use crate::stripping::{is_hop_by_hop_name, name_is_among};
use hx_fields::{Field, Fields, Members, is_same_name};
use hx_framing::Request;
use hx_target::{Target, TargetFault, read_target};
use std::alloc::{AllocError, Global};

/// What goes on, and whether the client's connection is to close.
fn stripped_request(alloc: Global, fields: &Fields) -> Result<StrippedFields, AllocError>
    ensures lines { IfOk result (λ kept. kept.fields ≡ fields_passed_on_of fields.now) }
    ensures closes { IfOk result (λ kept. kept.closes ≡ connection_has_option fields.now (codes "close")) }
{
    if connection_has_many_members(fields) {
        return stripped_of_many(alloc, fields);
    }
    let named = fields.members(alloc, b"Connection")?;
    Ok(StrippedFields {
        closes: name_is_among(&named, b"close"),
        fields: keep_few(alloc, fields, &named)?,
    })
}

/// The same where Connection has many members.
fn stripped_of_many(alloc: Global, fields: &Fields) -> Result<StrippedFields, AllocError>
    ensures lines { IfOk result (λ kept. kept.fields ≡ fields_passed_on_of fields.now) }
    ensures closes { IfOk result (λ kept. kept.closes ≡ connection_has_option fields.now (codes "close")) }
{
    let mut kept = strip_with_many_members(alloc, fields)?;
    kept.fields.remove_named(b"Host");
    kept.fields.remove_named(b"Expect");
    Ok(kept)
}

/// The lines that go on beside these members of Connection, in one walk over them.
fn keep_few(alloc: Global, fields: &Fields, named: &Members) -> Result<Fields, AllocError>
    ensures { IfOk result (λ kept. kept ≡ filter (line_is_passed_on named.now) fields.now) }
{
    // The Host line stays behind, and mostly it is the only one that does: where it stands alone no memory is taken.
    let mut kept = Fields::with_capacity(alloc, fields.len().saturating_sub(1))?;
    for line in fields.as_slice() {
        if line_is_passed_on(named, line) {
            kept.push_line(line.copy(alloc)?)?;
        }
    }
    Ok(kept)
}

/// Whether a line goes on.
fn line_is_passed_on(named: &Members, line: &Field) -> bool
    ensures { result ≡ line_is_passed_on named.now line.now }
{
    let name = line.name();
    !is_same_name(name, b"Host")
        && !is_same_name(name, b"Expect")
        && !is_hop_by_hop_name(name)
        && !name_is_among(named, name)
}

fn asked_with_target(alloc: Global, request: &Request, target: Target) -> Result<Asked, AllocError>
    ensures { IfOk result (λ asked. asked ≡ asked_with_target request.now target) }
{
    let kept = stripped_request(alloc, &request.fields)?;
    Ok(Asked {
        method: request.method.clone()?,
        minor: request.minor,
        target,
        fields: kept.fields,
        content: copy_content(alloc, request.content.as_ref())?,
        close: request.minor == 0 || kept.closes,
    })
}

/// The request with its target, or the fault of its target. That it ran out of memory itself is
/// told only where the target has none.
fn asked_with_judged_target(
    alloc: Global,
    request: &Request,
    target: Result<Target, TargetFault>,
) -> Result<Asked, TargetFault>
    ensures asked { ¬ (result ≡ Err TargetFault.OutOfMemory) → result ≡ asked_with_judged_target request.now target }
    ensures refused { IfErr target (λ fault. result ≡ Err fault) }
{
    match target {
        Ok(target) => Ok(asked_with_target(alloc, request, target)?),
        Err(fault) => Err(fault),
    }
}

/// The request as every later rule sees it, or the least fault of its target. The target is read from the
/// fields as they were received.
pub fn ask(alloc: Global, request: &Request) -> Result<Asked, TargetFault>
    ensures asked { ¬ (result ≡ Err TargetFault.OutOfMemory) → RequestIsReadAsAsked request.now result }
    // A target that is malformed is told so without memory.
    ensures memory_last { result ≡ Err TargetFault.OutOfMemory → is_malformed request.now.target ≡ false }
{
    asked_with_judged_target(
        alloc,
        request,
        read_target(alloc, &request.target, &request.fields),
    )
}
