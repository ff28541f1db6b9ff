//! Parts of a target that are kept as they came: they share the buffer of the head that they came in.
ghost use Rattle.std.specs.Prelude.{◌≡◌, ◌==◌, IfOk, codes, slice_get};
ghost use Rattle.std.specs.Option.{option_copied, option_map};
ghost use Rattle.std.specs.List.{list_any};
ghost use Rattle.std.specs.Char.{is_ascii_uppercase};
ghost use Rattle.hx_fields.specs.FieldLines.{values_of};
ghost use Rattle.hx_target.specs.Hosts.{lowercase};
ghost use Rattle.hx_target.specs.Paths.{table_path_of};

use crate::escapes::table_path;
use crate::hosts::lowercase;
use hx_fields::{Bytes, Field, Fields, is_same_name};
use std::alloc::{AllocError, Global};

/// A copy of a text. Where other bytes begin with it, it shares their buffer.
pub(crate) fn copy_of(alloc: Global, text: &[u8], whole: &Bytes) -> Result<Bytes, AllocError>
    ensures { IfOk result (λ copied. copied ≡ text.now) }
{
    let n = text.len();
    if n <= whole.len() {
        let part = whole.part(alloc, 0, n)?;
        if part.as_slice() == text {
            return Ok(part);
        }
    }
    Bytes::copy_of(alloc, text)
}

/// The first Host line.
pub(crate) fn first_host_line(fields: &Fields) -> Option<&Field>
    ensures { option_map (λ line. line.value) (option_copied result)
        ≡ slice_get (values_of fields.now (codes "Host")) 0 }
{
    for line in fields.as_slice() {
        if is_same_name(line.name(), b"Host") {
            return Some(line);
        }
    }
    None
}

/// A copy of a text. Where the value of a line begins with it, it shares that line's buffer.
fn copy_of_value(alloc: Global, text: &[u8], line: &Field) -> Result<Bytes, AllocError>
    ensures { IfOk result (λ copied. copied ≡ text.now) }
{
    let n = text.len();
    if n <= line.value().len() {
        let part = line.first_bytes_of_value(alloc, n)?;
        if part.as_slice() == text {
            return Ok(part);
        }
    }
    Bytes::copy_of(alloc, text)
}

/// A host, which mostly stands in this Host line, with its letters in lower case.
pub(crate) fn lowercase_host(alloc: Global, host: &[u8], line: &Field) -> Result<Bytes, AllocError>
    ensures { IfOk result (λ lower. lower ≡ lowercase host.now) }
{
    if has_uppercase_letter(host) {
        lowercase(alloc, host)
    } else {
        copy_of_value(alloc, host, line)
    }
}

pub(crate) fn has_uppercase_letter(text: &[u8]) -> bool
    ensures { result ≡ list_any is_ascii_uppercase text.now }
{
    text.iter().any(|b| b.is_ascii_uppercase())
}

/// The path as the operator's table compares it. One without escapes is that as it came.
pub(crate) fn path_as_table_compares(
    alloc: Global,
    path: &[u8],
    whole: &Bytes,
) -> Result<Bytes, AllocError>
    ensures { IfOk result (λ compared. compared ≡ table_path_of path.now) }
{
    if has_percent_sign(path) {
        table_path(alloc, path)
    } else {
        copy_of(alloc, path, whole)
    }
}

pub(crate) fn has_percent_sign(text: &[u8]) -> bool
    ensures { result ≡ list_any (λ b. b == 37) text.now }
{
    text.contains(&b'%')
}
