//! Targets in origin form (RFC 9112, section 3.2.1), of bytes that `http_uri` takes both in a path and in a query.
//!
//! Nearly all targets are such. They are judged as they stand, so nothing is copied to be cut.
ghost use Rattle.std.specs.Prelude.{◌≡◌, ◌≤◌, ◌==◌, ◌||◌, ◌&&◌, not, nat_le, nat_lt, codes, Err, None, true};
ghost use Rattle.std.specs.Prelude.{length, take};
ghost use Rattle.std.specs.Prelude.{slice_index, IfOk};
ghost use Rattle.std.specs.List.{list_any};
ghost use Rattle.http_uri.specs.ByteClasses.{slash};
ghost use Rattle.http_uri.specs.Grammar.{path_of};
ghost use Rattle.hx_fields.specs.FieldLines.{values_of};
ghost use Rattle.hx_target.specs.Hosts.{host_part, lowercase};
ghost use Rattle.hx_target.specs.Judgement.{first_target_fault, judged_of};
ghost use Rattle.hx_target.specs.Paths.{table_path_of};

use crate::escapes::table_path;
use crate::hosts::{host_part, index_of, lowercase, port_of_host_value};
use crate::limits::MOST_TARGET_BYTES;
use crate::sharing::{has_percent_sign, has_uppercase_letter};
use crate::target_reading::valid_host_line;
use crate::{Key, Target, TargetFault, has_bad_escape, table_path_has_dot_segment};
use hx_fields::{Bytes, Field, Fields};
use std::alloc::{AllocError, Global};

/// Whether a byte may stand neither in a path nor in a query, or in one of them alone. `?` isn't one.
fn is_rare(b: u8) -> bool
    ensures { result ≡ (nat_lt b 0x21 || nat_lt 0x7e b || (b == 34) || (b == 35) || (b == 60) || (b == 62)
        || (b == 96)) }
{
    b < 0x21 || b > 0x7e || b == b'"' || b == b'#' || b == b'<' || b == b'>' || b == b'`'
}

fn has_rare_byte(text: &[u8]) -> bool
    ensures { result ≡ list_any
        (λ b. nat_lt b 0x21 || nat_lt 0x7e b || (b == 34) || (b == 35) || (b == 60) || (b == 62) || (b == 96))
        text.now }
{
    text.iter().any(|b| is_rare(*b))
}

/// Whether a target is such, and not too long.
pub(crate) fn is_origin_form_within_limit(target: &[u8]) -> bool
    ensures { result ≡ ((slice_index target.now 0 == slash) && nat_le (length target.now) 8192 && not (list_any
        (λ b. nat_lt b 0x21 || nat_lt 0x7e b || (b == 34) || (b == 35) || (b == 60) || (b == 62) || (b == 96))
        target.now)) }
{
    target.first() == Some(&b'/') && target.len() <= MOST_TARGET_BYTES && !has_rare_byte(target)
}

/// The path of a target that begins with a slash: what stands before its query.
fn path_of(target: &[u8]) -> &[u8]
    requires { slice_index target.now 0 ≡ slash }
    ensures path { result.now ≡ path_of target.now }
    ensures front { result.now ≡ take (length result.now) target.now }
    ensures within { length result.now ≤ length target.now }
{
    &target[..index_of(b'?', target)]
}

/// The path as the operator's table compares it. One without escapes shares the buffer of the target.
fn path_as_table_compares(alloc: Global, path: &[u8], target: &Bytes) -> Result<Bytes, AllocError>
    requires front { path.now ≡ take (length path.now) target.now }
    requires within { length path.now ≤ length target.now }
    ensures { IfOk result (λ compared. compared ≡ table_path_of path.now) }
{
    if has_percent_sign(path) {
        table_path(alloc, path)
    } else {
        target.part(alloc, 0, path.len())
    }
}

/// The host of a Host line, with its letters in lower case. One without capitals shares the buffer of the line.
fn host_of_line(alloc: Global, line: &Field) -> Result<Bytes, AllocError>
    ensures { IfOk result (λ host. host ≡ lowercase (host_part line.now.value)) }
{
    let host = host_part(line.value());
    if has_uppercase_letter(host) {
        lowercase(alloc, host)
    } else {
        line.first_bytes_of_value(alloc, host.len())
    }
}

/// What a target of origin form asks for, or its least fault.
#[tactic(auto, unfolding(crate::specs::Judgement::judged_of))]
pub(crate) fn judge_origin_form(
    alloc: Global,
    target: &Bytes,
    fields: &Fields,
) -> Result<Target, TargetFault>
    requires origin { slice_index target.now 0 ≡ slash }
    requires short { length target.now ≤ 8192 }
    ensures judged { ¬ (result ≡ Err TargetFault.OutOfMemory) → result ≡ judged_of (record {
      target = target.now;
      scheme = None;
      authority = None;
      kept = target.now;
      hosts = values_of fields.now (codes "Host");
    }) }
    ensures memory_last { result ≡ Err TargetFault.OutOfMemory → first_target_fault (record {
      target = target.now;
      scheme = None;
      authority = None;
      kept = target.now;
      hosts = values_of fields.now (codes "Host");
    }) ≡ None }
{
    let Some(line) = valid_host_line(fields) else {
        return Err(TargetFault::Host);
    };
    let Some(port) = port_of_host_value(line.value()) else {
        return Err(TargetFault::Port);
    };
    let path = path_of(target.as_slice());
    if has_bad_escape(path) {
        return Err(TargetFault::Escape);
    }
    if table_path_has_dot_segment(path) {
        return Err(TargetFault::DotSegment);
    }
    Ok(Target {
        key: Key {
            host: host_of_line(alloc, line)?,
            port,
            path_query: target.copy(alloc)?,
        },
        table_path: path_as_table_compares(alloc, path, target)?,
    })
}
