//! Which lines concern one connection alone (RFC 9110, section 7.6.1).
//!
//! The definitions are in `specs/Stripping.antt`.
ghost use Rattle.std.specs.Prelude.{◌≡◌, codes, IfOk};
ghost use Rattle.std.specs.List.{list_any};
ghost use Rattle.hx_fields.specs.Names.{is_same_name, members_of_value};
ghost use Rattle.hx_hop.specs.Stripping.{caching_field_names, name_is_among, is_hop_by_hop_name};
ghost use Rattle.hx_hop.specs.Stripping.{connection_names_caching_field};
ghost use Rattle.hx_hop.specs.Stripping.{stripped};

use crate::named_lines::{connection_has_many_members, strip_with_many_members};
use hx_fields::{Fields, Members, is_same_name, next_long_member};
use std::alloc::{AllocError, Global};

/// Whether a field of this name never goes on.
pub(crate) fn is_hop_by_hop_name(name: &[u8]) -> bool
    ensures { result ≡ is_hop_by_hop_name name.now }
{
    is_same_name(b"Connection", name)
        || is_same_name(b"Proxy-Connection", name)
        || is_same_name(b"Keep-Alive", name)
        || is_same_name(b"TE", name)
        || is_same_name(b"Transfer-Encoding", name)
        || is_same_name(b"Upgrade", name)
        || is_same_name(b"Trailer", name)
        || is_same_name(b"Proxy-Authenticate", name)
        || is_same_name(b"Proxy-Authentication-Info", name)
        || is_same_name(b"Proxy-Authorization", name)
}

/// Whether one of these is the name.
pub(crate) fn name_is_among(names: &Members, name: &[u8]) -> bool
    ensures { result ≡ name_is_among names.now name.now }
{
    names
        .as_slice()
        .iter()
        .any(|n| is_same_name(n.as_slice(), name))
}

/// The lines that go on: those of the connection alone are left out, and those that a member of Connection
/// names. Its only error is out of memory.
pub fn strip(alloc: Global, fields: &Fields) -> Result<Fields, AllocError>
    ensures { IfOk result (λ kept. kept ≡ stripped fields.now) }
{
    if connection_has_many_members(fields) {
        return Ok(strip_with_many_members(alloc, fields)?.fields);
    }
    strip_few(alloc, fields)
}

/// The same of few members: each line is compared with each of them.
fn strip_few(alloc: Global, fields: &Fields) -> Result<Fields, AllocError>
    ensures { IfOk result (λ kept. kept ≡ stripped fields.now) }
{
    let named = fields.members(alloc, b"Connection")?;
    let mut kept = Fields::with_capacity(alloc, fields.len())?;
    for line in fields.as_slice() {
        if !is_hop_by_hop_name(line.name()) && !name_is_among(&named, line.name()) {
            kept.push_line(line.copy(alloc)?)?;
        }
    }
    Ok(kept)
}

/// Whether a name is that of a field by which a cache decides.
fn is_cache_name(name: &[u8]) -> bool
    ensures { result ≡ list_any (is_same_name name.now) caching_field_names }
{
    is_same_name(name, b"Age")
        || is_same_name(name, b"Cache-Control")
        || is_same_name(name, b"Date")
        || is_same_name(name, b"ETag")
        || is_same_name(name, b"Expires")
        || is_same_name(name, b"Last-Modified")
        || is_same_name(name, b"Set-Cookie")
        || is_same_name(name, b"Vary")
}

/// No such name is shorter, in bytes.
const SHORTEST_CACHE_NAME: usize = 3;

/// Whether a member of this value is such a name.
fn value_lists_cache_field(value: &[u8]) -> bool
    ensures { result
        ≡ list_any (λ member. list_any (is_same_name member) caching_field_names) (members_of_value value.now) }
{
    let mut rest = value;
    while let Some((member, behind)) = next_long_member(rest, SHORTEST_CACHE_NAME) {
        if is_cache_name(member) {
            return true;
        }
        rest = behind;
    }
    false
}

/// Whether a member of Connection names a field by which a cache decides. It is asked of fields before they
/// are stripped, and takes no memory.
pub fn connection_names_caching_field(fields: &Fields) -> bool
    ensures { result ≡ connection_names_caching_field fields.now }
{
    if fields.count(b"Connection") == 0 {
        return false;
    }
    for line in fields.as_slice() {
        if is_same_name(line.name(), b"Connection") && value_lists_cache_field(line.value()) {
            return true;
        }
    }
    false
}
